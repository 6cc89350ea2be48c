//! The table of sections.

ghost use Rattle.std.specs.Prelude.{◌≡◌, ◌<◌, ◌≤◌, ◌+◌, ◌*◌, length};

use crate::section::{Section, SectionKind, section_from};
use crate::strings::StringTable;

/// The section headers of a file, all of them there.
#[derive(Debug, Clone, Copy)]
pub(crate) struct SectionTable<'a> {
    pub(crate) bytes: &'a [u8],
    pub(crate) offset: usize,
    pub(crate) count: usize,
    ghost whole: { offset + 64 * count ≤ length bytes.now },
}

/// What a section may be sought by.
pub(crate) trait SectionTest {
    ghost use Rattle.std.specs.Prelude.{Bool};
    ghost use Rattle.elf_files.specs.declared.section.Section.{Section};

    ghost passes: { Self → Section → Bool };

    /// Whether a section passes.
    fn passes(&self, section: &Section) -> bool
        ensures { result ≡ passes self.now section.now };
}

// The sections with a name.
#[derive(Clone, Copy)]
pub(crate) struct Named<'a> {
    pub(crate) names: StringTable<'a>,
    pub(crate) name: &'a [u8],
}

impl SectionTest for Named<'_> {
    ghost use Rattle.elf_files.specs.SectionViews.{strings_seen};
    ghost use Rattle.elf_files.specs.Strings.{is_string_at};

    ghost passes = { λ sought section. is_string_at (strings_seen sought.names) section.name_offset sought.name.now };

    fn passes(&self, section: &Section) -> bool {
        self.names.is_string_at(section.name_offset, self.name)
    }
}

// The sections of symbols.
#[derive(Clone, Copy)]
pub(crate) struct SymbolTables;

impl SectionTest for SymbolTables {
    ghost use Rattle.elf_files.specs.Sections.{is_symbol_table};

    ghost passes = { λ sought section. is_symbol_table section.kind };

    fn passes(&self, section: &Section) -> bool {
        matches!(section.kind, SectionKind::SymbolTable)
    }
}

// The sections of symbols for dynamic linking.
#[derive(Clone, Copy)]
pub(crate) struct DynamicSymbolTables;

impl SectionTest for DynamicSymbolTables {
    ghost use Rattle.elf_files.specs.Sections.{is_dynamic_symbols};

    ghost passes = { λ sought section. is_dynamic_symbols section.kind };

    fn passes(&self, section: &Section) -> bool {
        matches!(section.kind, SectionKind::DynamicSymbols)
    }
}

impl SectionTable<'_> {
    ghost use Rattle.std.specs.List.{find};
    ghost use Rattle.elf_files.specs.SectionViews.{section_in, sections_in};

    // The section with an index.
    pub(crate) fn get(&self, index: usize) -> Section
        requires { index < self.now.count }
        ensures { result ≡ section_in self.now index }
    {
        section_from(self.bytes, self.offset + 64 * index)
    }

    // The first section that passes a test.
    pub(crate) fn find<T: SectionTest>(&self, test: &T) -> Option<Section>
        ensures { result ≡ find (T.passes test.now) (sections_in self.now) }
    {
        for index in 0..self.count {
            let section = self.get(index);
            if test.passes(&section) {
                return Some(section);
            }
        }
        None
    }
}
