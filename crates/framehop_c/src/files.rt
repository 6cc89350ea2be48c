//! Files that are mapped in a profiled process, as C has them.

ghost use Rattle.std.specs.Prelude.{◌≡◌};
ghost use Rattle.framehop_calls.specs.Sections.{sections_listed, sections_of};
ghost use Rattle.framehop_c.specs.Files.{code_rules_numbered, lookup_numbered, options_of};

use framehop::{CodeRules, FdeLookup, LoadOptions, Rows, TableArch};
use framehop_calls::{FileSections, Section};

/// A file that is mapped in a profiled process. The bytes of its sections are lent.
#[repr(C)]
#[derive(Clone, Copy)]
pub struct MappedFile<'a> {
    pub start: u64,
    pub end: u64,
    pub base: u64,
    pub base_svma: u64,
    pub sections: &'a [Section<'a>],
    pub lookup: u32,
    pub tables: u32,
    pub debug_frame_beside: u32,
    pub code_rules: u32,
}

// The lookup of a number.
fn lookup_numbered(number: u32) -> Option<FdeLookup>
    ensures { result ≡ lookup_numbered number }
{
    match number {
        0 => Some(FdeLookup::Auto),
        1 => Some(FdeLookup::Index),
        2 => Some(FdeLookup::Scan),
        _ => None,
    }
}

// The rules of code of a number.
fn code_rules_numbered(number: u32) -> Option<CodeRules>
    ensures { result ≡ code_rules_numbered number }
{
    match number {
        0 => Some(CodeRules::Published),
        1 => Some(CodeRules::Known),
        2 => Some(CodeRules::Ways),
        _ => None,
    }
}

impl<'a> MappedFile<'a> {
    /// Its sections.
    pub(crate) fn file_sections(&self) -> FileSections<'a>
        ensures { sections_of result ≡ sections_listed self.now.base_svma self.now.sections.now }
    {
        FileSections {
            base_svma: self.base_svma,
            sections: self.sections,
        }
    }

    /// What its load asks for on an architecture, if the numbers of the lookup and of the rules of code are such.
    pub(crate) fn options(&self, on: TableArch) -> Option<LoadOptions>
        ensures { result ≡ options_of on self.now }
    {
        let lookup = lookup_numbered(self.lookup)?;
        let code_rules = code_rules_numbered(self.code_rules)?;
        Some(LoadOptions {
            lookup,
            tables: if self.tables == 0 { None } else { Some(on) },
            debug_frame_beside: self.debug_frame_beside != 0,
            code_rules,
            rows: Rows::Published,
        })
    }
}
