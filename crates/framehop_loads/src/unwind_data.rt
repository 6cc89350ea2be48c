//! The unwind data of a module.

ghost use Rattle.std.specs.Prelude.{◌≡◌, IfOk, option_map};
ghost use Rattle.framehop_code.specs.Places.{code_of};
ghost use Rattle.framehop_modules.specs.ChosenViews.{LeavesText, sections_bytes};
ghost use Rattle.framehop_index.specs.SectionTypes.{frame_section_bytes};
ghost use Rattle.framehop_loads.specs.LoadOptions.{as_original};
ghost use Rattle.framehop_loads.specs.UnwindData.{bases_of, debug_frames, format_with, frames_with, unwind_data_with};
ghost use Rattle.framehop_loads.specs.UnwindDataViews.{AreChosen, format_view};
ghost use Rattle.framehop_loads.specs.WayBounds.{unless_covered, way_bounds};

use crate::call_frames::CallFrames;
use crate::code::{CodeAt, goes_by_ways, lent, text_beside};
use crate::compact::CompactModule;
use crate::load_options::{FdeLookup, LoadOptions, Rows};
use crate::pe::PeModule;
use dwarf_frame_entries::BaseAddresses;
use framehop_code::{Code, CodeRange};
use framehop_code_rules::CodeRules;
use framehop_compact::CompactUnwindInfoUnwinding;
use framehop_index::{SectionFrames, UnwindSectionType};
use framehop_modules::{BaseSvmas, ModuleSectionInfo, ModuleSections, SectionBytes};
use std::alloc::{AllocError, Global};
use std::marker::Model;

/// What a module is unwound by.
#[derive(Drop)]
pub enum ModuleFormat<D: SectionBytes> {
    /// Its call frames.
    CallFrames(CallFrames<D>),
    /// The unwind data of a PE file.
    Pe(PeModule<D>),
    /// The compact unwind info of a Mach-O file, and its `__eh_frame`, if it has one.
    Compact(CompactModule<D>, Option<D>),
    /// Nothing that is read.
    NoFormat,
}

/// The unwind data of a module: what it is unwound by, the addresses that pointers in its sections are
/// relative to, the module's base as the file states it, its code, if first frames go by ways out of functions, and what its rows are taken
/// to say.
#[derive(Drop)]
pub struct ModuleUnwindData<D: SectionBytes> {
    format: ModuleFormat<D>,
    bases: BaseAddresses,
    base_svma: u64,
    code_rules: CodeRules,
    // The section of code, if the tables have none with them.
    text: Option<CodeAt<D>>,
    rows: Rows,
}

impl<D: SectionBytes> Model for ModuleUnwindData<D> {
    ghost use Rattle.framehop_loads.specs.UnwindData.{UnwindData, code_by};
    ghost use Rattle.framehop_loads.specs.UnwindDataViews.{format_view};

    ghost Value = { UnwindData };

    ghost view = { λ given. record {
      format = format_view D.content given.format;
      bases = given.bases;
      base_svma = given.base_svma;
      code = code_by given.code_rules (format_view D.content given.format) given.text;
      rows = given.rows;
    } };
}

// The addresses that pointers are relative to, by the starts of sections.
fn base_addresses(starts: &BaseSvmas) -> BaseAddresses
    ensures { result ≡ bases_of starts.now }
{
    BaseAddresses::default()
        .set_eh_frame(starts.eh_frame)
        .set_eh_frame_hdr(starts.eh_frame_hdr)
        .set_text(starts.text)
        .set_got(starts.got)
}

// A section of call frames whose FDEs are found by its header, if there is one, and else by an index. Fails if it fails to allocate the
// index.
fn headed_frames<D: SectionBytes + Drop>(
    alloc: Global,
    section: UnwindSectionType<D>,
    header: Option<D>,
    bases: &BaseAddresses,
    base_svma: u64,
) -> Result<SectionFrames<D>, AllocError>
    ensures { IfOk result (λ frames. frames
        ≡ frames_with as_original bases.now base_svma (frame_section_bytes D.content section) (option_map D.content header)) }
{
    match header {
        Some(header) => Ok(SectionFrames::with_header(section, header, bases, base_svma)),
        None => SectionFrames::with_index(alloc, section, bases, base_svma),
    }
}

// A section of call frames with what is asked for its FDEs, and its header, if there is one. Fails if it fails to allocate an index.
fn frames_with<D: SectionBytes + Drop>(
    alloc: Global,
    options: LoadOptions,
    section: UnwindSectionType<D>,
    header: Option<D>,
    bases: &BaseAddresses,
    base_svma: u64,
) -> Result<SectionFrames<D>, AllocError>
    ensures { IfOk result (λ frames. frames
        ≡ frames_with options bases.now base_svma (frame_section_bytes D.content section) (option_map D.content header)) }
{
    match options.lookup {
        FdeLookup::Scan => Ok(SectionFrames::scanned(section, bases, base_svma)),
        FdeLookup::Index => SectionFrames::with_index(alloc, section, bases, base_svma),
        FdeLookup::Auto => match options.tables {
            Some(_) => SectionFrames::with_index(alloc, section, bases, base_svma),
            None => headed_frames(alloc, section, header, bases, base_svma),
        },
    }
}

// `.debug_frame` with what is asked for its FDEs, if it is there. Fails if it fails to allocate an index.
fn frames_beside<D: SectionBytes + Drop>(
    alloc: Global,
    options: LoadOptions,
    debug_frame: Option<D>,
    bases: &BaseAddresses,
    base_svma: u64,
) -> Result<Option<SectionFrames<D>>, AllocError>
    ensures { IfOk result (λ made. made
        ≡ option_map (debug_frames options bases.now base_svma) (option_map D.content debug_frame)) }
{
    match debug_frame {
        Some(debug_frame) => {
            let section = UnwindSectionType::DebugFrame(debug_frame);
            Ok(Some(frames_with(alloc, options, section, None, bases, base_svma)?))
        }
        None => Ok(None),
    }
}

// The format of a module with these sections, and with `.debug_frame` beside `.eh_frame`, if it is given. Makes an index and a table, as
// the options ask for; fails if it fails to allocate them.
fn format_with<D: SectionBytes + Drop>(
    alloc: Global,
    options: LoadOptions,
    sections: ModuleSections<D>,
    debug_frame: Option<D>,
    bases: &BaseAddresses,
    base_svma: u64,
) -> Result<ModuleFormat<D>, AllocError>
    ensures { IfOk result (λ format. format_view D.content format ≡ format_with options bases.now base_svma
        (option_map D.content debug_frame) (sections_bytes D.content sections)) }
{
    let rules = options.code_rules;
    match sections {
        ModuleSections::EhFrame {
            eh_frame,
            eh_frame_hdr,
        } => {
            let section = UnwindSectionType::EhFrame(eh_frame);
            let main = frames_with(alloc, options, section, eh_frame_hdr, bases, base_svma)?;
            let beside = frames_beside(alloc, options, debug_frame, bases, base_svma)?;
            Ok(ModuleFormat::CallFrames(CallFrames::new(alloc, main, options.tables, beside)?))
        }
        ModuleSections::DebugFrame { debug_frame } => {
            let section = UnwindSectionType::DebugFrame(debug_frame);
            let main = frames_with(alloc, options, section, None, bases, base_svma)?;
            Ok(ModuleFormat::CallFrames(CallFrames::new(alloc, main, options.tables, None)?))
        }
        ModuleSections::PeUnwindInfo {
            pdata,
            rdata,
            xdata,
            text,
        } => Ok(ModuleFormat::Pe(PeModule::new(rules, base_svma, pdata, rdata, xdata, text))),
        ModuleSections::CompactUnwindInfoAndEhFrame {
            unwind_info,
            eh_frame,
            stubs_svma,
            stub_helper_svma,
            text,
        } => {
            let file = CompactModule::new(
                rules,
                base_svma,
                unwind_info,
                stubs_svma,
                stub_helper_svma,
                text,
            );
            Ok(ModuleFormat::Compact(file, eh_frame))
        }
        ModuleSections::NoSections => Ok(ModuleFormat::NoFormat),
    }
}

// The sections of a module to unwind by, and `.debug_frame`, which may be beside them if it is asked for. That one is taken first: what is
// chosen after it may name it no more.
fn choose<D: SectionBytes + Drop, I: ModuleSectionInfo<D>>(
    info: &mut I,
    options: LoadOptions,
) -> (ModuleSections<D>, Option<D>)
    ensures chosen { AreChosen D.content options (I.sections info.old) result.0 result.1 }
    ensures text { LeavesText result.0 (I.sections info.old) (I.sections info.new) }
{
    if !options.debug_frame_beside {
        return (ModuleSections::choose(info), None);
    }
    let Some(debug_frame) = info.section_data(b".debug_frame") else {
        return (ModuleSections::choose(info), None);
    };
    match ModuleSections::choose(info) {
        ModuleSections::DebugFrame { .. } | ModuleSections::NoSections => (
            ModuleSections::DebugFrame { debug_frame },
            None,
        ),
        others => (others, Some(debug_frame)),
    }
}

// The bounds of code that no table covers.
fn unless_covered(is_covered: bool) -> Option<CodeRange>
    ensures { result ≡ unless_covered is_covered }
{
    if is_covered {
        None
    } else {
        Some(CodeRange::everywhere())
    }
}

impl<D: SectionBytes + Drop> ModuleUnwindData<D> {
    /// The unwind data of a module with these sections: of `__unwind_info`, `.pdata`, `.eh_frame` and
    /// `.debug_frame` the first that it has, and what `options` ask for beside it. Call frame information whose FDEs would be found by an
    /// index that it doesn't have isn't used. Fails if it fails to allocate an index or a table.
    pub fn new<I: ModuleSectionInfo<D> + Drop>(
        alloc: Global,
        mut info: I,
        options: LoadOptions,
    ) -> Result<Self, AllocError>
        ensures { IfOk result (λ given. given ≡ unwind_data_with options (I.sections info)) }
    {
        let bases = base_addresses(&BaseSvmas::of(&mut info));
        let base_svma = info.base_svma();
        let (sections, debug_frame) = choose(&mut info, options);
        let text = text_beside(&mut info, options.code_rules, &sections, base_svma);
        let format = format_with(alloc, options, sections, debug_frame, &bases, base_svma)?;
        Ok(ModuleUnwindData {
            format,
            bases,
            base_svma,
            code_rules: options.code_rules,
            text,
            rows: options.rows,
        })
    }
}

impl<D: SectionBytes> ModuleUnwindData<D> {
    /// The addresses that pointers are relative to.
    pub fn bases(&self) -> &BaseAddresses
        ensures { result.now ≡ self.now.bases }
    {
        &self.bases
    }

    /// The address that relative addresses are relative to, as the file states it.
    pub fn base_svma(&self) -> u64
        ensures { result ≡ self.now.base_svma }
    {
        self.base_svma
    }

    /// What the module is unwound by.
    #[inline(always)]
    pub fn format(&self) -> &ModuleFormat<D>
        ensures { format_view D.content result.now ≡ self.now.format }
    {
        &self.format
    }

    /// What the module's rows are taken to say.
    #[inline(always)]
    pub fn rows(&self) -> Rows
        ensures { result ≡ self.now.rows }
    {
        self.rows
    }

    /// The code of the module, at addresses relative to its base, if first frames go by ways out of functions.
    pub fn code(&self) -> Option<Code<'_>>
        ensures { option_map code_of result ≡ self.now.code }
    {
        if !goes_by_ways(self.code_rules) {
            return None;
        }
        match &self.format {
            ModuleFormat::Pe(file) => file.code(),
            ModuleFormat::Compact(file, _) => file.code(),
            ModuleFormat::CallFrames(_) | ModuleFormat::NoFormat => lent(&self.text),
        }
    }

    /// The bounds of the code around a relative address, if a frame there can go by a way out of its function: in code that no FDE and no
    /// row of a PE file covers, and in a Mach-O file but for its stubs.
    pub fn way_bounds<A: CompactUnwindInfoUnwinding>(
        &self,
        relative_address: u32,
    ) -> Option<CodeRange>
        ensures { result ≡ way_bounds self.now.format relative_address }
    {
        match &self.format {
            ModuleFormat::CallFrames(frames) => unless_covered(frames.covers(relative_address)),
            ModuleFormat::Pe(file) => unless_covered(file.has_row(relative_address)),
            ModuleFormat::Compact(file, _) => file.way_bounds::<A>(relative_address),
            ModuleFormat::NoFormat => Some(CodeRange::everywhere()),
        }
    }
}
