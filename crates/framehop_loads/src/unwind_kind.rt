//! What a module is unwound by, for a profiler's log.

ghost use Rattle.std.specs.Prelude.{◌≡◌};
ghost use Rattle.framehop_loads.specs.TableSizes.{IsTableSize};
ghost use Rattle.framehop_loads.specs.UnwindDataViews.{format_view};
ghost use Rattle.framehop_loads.specs.UnwindKinds.{kind_of, kind_of_section, left_out_of, left_out_of_section};

use crate::unwind_data::{ModuleFormat, ModuleUnwindData};
use framehop_index::{SectionFrames, UnwindSectionType};
use framehop_modules::SectionBytes;

/// What a module is unwound by.
#[derive(Debug, Clone, Copy, PartialEq, Eq)]
pub enum UnwindDataKind {
    /// The call frames in `.eh_frame`.
    EhFrame,
    /// The call frames in `.debug_frame`.
    DebugFrame,
    /// The `.pdata` of a PE file.
    Pdata,
    /// The `__unwind_info` of a Mach-O file.
    CompactUnwindInfo,
    /// Nothing: it has none of these sections.
    NoSections,
}

/// What of the section of call frames that a module is unwound by is not found by its index.
#[derive(Debug, Clone, Copy, PartialEq, Eq)]
pub enum LeftOut {
    /// So many FDEs: those that can't be read, by themselves or by their CIE, and those whose start or offset the index can't hold.
    Fdes(usize),
    /// The whole section: an error ends the list of its entries, and so it has no index.
    Section,
}

// The kind of a section of call frames.
fn kind_of_section<D: SectionBytes>(frames: &SectionFrames<D>) -> UnwindDataKind
    ensures { result ≡ kind_of_section frames.now.section }
{
    match frames.section() {
        UnwindSectionType::EhFrame(_) => UnwindDataKind::EhFrame,
        UnwindSectionType::DebugFrame(_) => UnwindDataKind::DebugFrame,
    }
}

// What is left out of a section of call frames.
fn left_out_of_section<D: SectionBytes>(frames: &SectionFrames<D>) -> Option<LeftOut>
    ensures { result ≡ left_out_of_section frames.now }
{
    if frames.lacks_index() {
        return Some(LeftOut::Section);
    }
    Some(LeftOut::Fdes(frames.left_out()?))
}

// The kind of a format.
fn kind_of<D: SectionBytes>(format: &ModuleFormat<D>) -> UnwindDataKind
    ensures { result ≡ kind_of (format_view D.content format.now) }
{
    match format {
        ModuleFormat::CallFrames(frames) => kind_of_section(frames.main()),
        ModuleFormat::Pe(_) => UnwindDataKind::Pdata,
        ModuleFormat::Compact(..) => UnwindDataKind::CompactUnwindInfo,
        ModuleFormat::NoFormat => UnwindDataKind::NoSections,
    }
}

// What is left out of a format's section of call frames.
fn left_out_of<D: SectionBytes>(format: &ModuleFormat<D>) -> Option<LeftOut>
    ensures { result ≡ left_out_of (format_view D.content format.now) }
{
    match format {
        ModuleFormat::CallFrames(frames) => left_out_of_section(frames.main()),
        ModuleFormat::Pe(_) | ModuleFormat::Compact(..) | ModuleFormat::NoFormat => None,
    }
}

impl<D: SectionBytes> ModuleUnwindData<D> {
    /// What the module is unwound by.
    pub fn kind(&self) -> UnwindDataKind
        ensures { result ≡ kind_of self.now.format }
    {
        kind_of(self.format())
    }

    /// What of the section of call frames that the module is unwound by no step uses. `None` if it isn't unwound by one whose FDEs are
    /// found by an index.
    pub fn left_out(&self) -> Option<LeftOut>
        ensures { result ≡ left_out_of self.now.format }
    {
        left_out_of(self.format())
    }

    /// How large the table of rules is that the load made: at how many relative addresses it says something else than at the address
    /// before. `None` if the load made none.
    pub fn table_size(&self) -> Option<usize>
        ensures { IsTableSize self.now.format result }
    {
        match self.format() {
            ModuleFormat::CallFrames(frames) => frames.table_size(),
            ModuleFormat::Pe(_) | ModuleFormat::Compact(..) | ModuleFormat::NoFormat => None,
        }
    }
}
