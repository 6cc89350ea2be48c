//! The sections of a PE file, given one by one.

ghost use Rattle.std.specs.Prelude.{◌≡◌, IfSome, IfNone, option_map};
ghost use Rattle.framehop_modules.specs.PeTable.{pe_kind_named};

use crate::module_section_info::{ModuleSectionInfo, copy_of, is_name};
use crate::section_bytes::SectionBytes;
use std::ops::Range;

/// The sections of a PE file that a module is unwound by, given one by one. Names other than those below have
/// none, and there is no segment. Without data of `.pdata` a module has none of them.
#[derive(Debug, Drop, PartialEq, Eq)]
pub struct PeModuleSectionInfo<D> {
    /// The image base, as the file states it: the stated addresses below count it in.
    pub base_svma: u64,
    /// The data of `.pdata`: a row for each function.
    pub pdata: Option<D>,
    /// The range of `.rdata`.
    pub rdata_svma: Option<Range<u64>>,
    /// The data of `.rdata`, in which unwind infos may be.
    pub rdata: Option<D>,
    /// The range of `.xdata`.
    pub xdata_svma: Option<Range<u64>>,
    /// The data of `.xdata`, in which unwind infos may be.
    pub xdata: Option<D>,
    /// The range of `.text`.
    pub text_svma: Option<Range<u64>>,
    /// The data of `.text`, in which epilogs are looked for.
    pub text: Option<D>,
}

/// No section, and an image base of 0.
impl<D> Default for PeModuleSectionInfo<D> {
    ghost use Rattle.std.specs.Prelude.{None};

    ghost is_default = { λ info. info ≡ record {
      base_svma = 0;
      pdata = None;
      rdata_svma = None;
      rdata = None;
      xdata_svma = None;
      xdata = None;
      text_svma = None;
      text = None;
    } };

    fn default() -> Self {
        PeModuleSectionInfo {
            base_svma: 0,
            pdata: None,
            rdata_svma: None,
            rdata: None,
            xdata_svma: None,
            xdata: None,
            text_svma: None,
            text: None,
        }
    }
}

/// A section of a PE file that can be given.
#[derive(Debug, Clone, Copy, PartialEq, Eq)]
enum PeSectionKind {
    Pdata,
    Rdata,
    Xdata,
    Text,
}

impl PeSectionKind {
    // The section of a name.
    fn named(name: &[u8]) -> Option<Self>
        ensures { result ≡ pe_kind_named name.now }
    {
        if is_name(name, b".pdata") {
            Some(PeSectionKind::Pdata)
        } else if is_name(name, b".rdata") {
            Some(PeSectionKind::Rdata)
        } else if is_name(name, b".xdata") {
            Some(PeSectionKind::Xdata)
        } else if is_name(name, b".text") {
            Some(PeSectionKind::Text)
        } else {
            None
        }
    }
}

impl<D: SectionBytes> ModuleSectionInfo<D> for PeModuleSectionInfo<D> {
    ghost use Rattle.std.specs.Prelude.{None};
    ghost use Rattle.framehop_modules.specs.PeTable.{IsPeGiven, pe_sections_given};
    ghost use Rattle.framehop_modules.specs.Sections.{SectionLeft};

    ghost sections = { pe_sections_given D.content };

    fn base_svma(&self) -> u64 {
        self.base_svma
    }

    fn section_svma_range(&mut self, name: &[u8]) -> Option<Range<u64>> {
        match PeSectionKind::named(name)? {
            PeSectionKind::Rdata => copy_of(&self.rdata_svma),
            PeSectionKind::Xdata => copy_of(&self.xdata_svma),
            PeSectionKind::Text => copy_of(&self.text_svma),
            PeSectionKind::Pdata => None,
        }
    }

    fn section_data(&mut self, name: &[u8]) -> Option<D>
        ensures data_ { option_map D.content result ≡ (pe_sections_given D.content self.old).section_data name.now }
        ensures given { IfSome result (λ _.
            SectionLeft name.now (pe_sections_given D.content self.old) (pe_sections_given D.content self.new)) }
        ensures none { IfNone result (pe_sections_given D.content self.new ≡ pe_sections_given D.content self.old) }
        ensures once { IfSome result (λ _. IsPeGiven name.now self.new) }
    {
        match PeSectionKind::named(name)? {
            PeSectionKind::Pdata => self.pdata.take(),
            PeSectionKind::Rdata => self.rdata.take(),
            PeSectionKind::Xdata => self.xdata.take(),
            PeSectionKind::Text => self.text.take(),
        }
    }

    fn segment_svma_range(&mut self, _name: &[u8]) -> Option<Range<u64>> {
        None
    }

    fn segment_data(&mut self, _name: &[u8]) -> Option<D> {
        None
    }
}
