//! The sections of a file, as a caller lists them.

ghost use Rattle.std.specs.Prelude.{◌≡◌, option_map};
ghost use Rattle.framehop_calls.specs.Sections.{bytes_named, gives, is_named, range_named};

use framehop_modules::ModuleSectionInfo;
use std::ops::Range;

/// The bit of `given` that says that a section's bytes are given.
const HAS_BYTES: u64 = 1;

/// The bit that says that its addresses are.
const HAS_RANGE: u64 = 2;

/// The bit that says that it is a segment.
const IS_SEGMENT: u64 = 4;

/// A section of a file, or a segment. Its bytes are lent for good.
#[repr(C)]
#[derive(Clone, Copy)]
pub struct Section<'a> {
    /// The name, as the file has it.
    pub name: &'a [u8],
    /// The bytes.
    pub bytes: &'static [u8],
    /// The address that the file states.
    pub start: u64,
    /// The first address behind it.
    pub end: u64,
    /// What is given: its bytes (1), its addresses (2), and that it is a segment (4).
    pub given: u64,
}

/// The sections of a file, whose stated addresses are relative to an address.
#[derive(Clone, Copy)]
pub struct FileSections<'a> {
    /// The address.
    pub base_svma: u64,
    /// The sections and segments. Of several of one name the first counts that has what is asked for.
    pub sections: &'a [Section<'a>],
}

impl Section<'_> {
    // Whether this is a section of a name, or a segment of it.
    fn is_named(&self, name: &[u8], kind: u64) -> bool
        ensures { result ≡ is_named self.now name.now kind }
    {
        self.name == name && self.given & IS_SEGMENT == kind
    }

    // Whether this is given of it.
    fn gives(&self, what: u64) -> bool
        ensures { result ≡ gives self.now what }
    {
        self.given & what != 0
    }
}

// The range of the first of a name and a kind that has one.
fn range_named(sections: &[Section<'_>], name: &[u8], kind: u64) -> Option<Range<u64>>
    ensures { result ≡ range_named name.now kind sections.now }
{
    for section in sections {
        if section.is_named(name, kind) && section.gives(HAS_RANGE) {
            return Some(section.start..section.end);
        }
    }
    None
}

// The bytes of the first of a name and a kind that has some.
fn bytes_named(sections: &[Section<'_>], name: &[u8], kind: u64) -> Option<&'static [u8]>
    ensures { option_map (λ bytes. bytes.now) result ≡ bytes_named name.now kind sections.now }
{
    for section in sections {
        if section.is_named(name, kind) && section.gives(HAS_BYTES) {
            return Some(section.bytes);
        }
    }
    None
}

/// The data of a section may be asked for again.
impl<'a> ModuleSectionInfo<&'static [u8]> for FileSections<'a> {
    ghost use Rattle.framehop_calls.specs.Sections.{sections_of};

    ghost sections = { sections_of };

    fn base_svma(&self) -> u64 {
        self.base_svma
    }

    fn section_svma_range(&mut self, name: &[u8]) -> Option<Range<u64>> {
        range_named(self.sections, name, 0)
    }

    fn section_data(&mut self, name: &[u8]) -> Option<&'static [u8]> {
        bytes_named(self.sections, name, 0)
    }

    fn segment_svma_range(&mut self, name: &[u8]) -> Option<Range<u64>> {
        range_named(self.sections, name, IS_SEGMENT)
    }

    fn segment_data(&mut self, name: &[u8]) -> Option<&'static [u8]> {
        bytes_named(self.sections, name, IS_SEGMENT)
    }
}
