//! Where the sections of a module come from.

ghost use Rattle.std.specs.Prelude.{◌≡◌, IfSome, IfNone, None, option_map, bytes_eq};
ghost use Rattle.framehop_modules.specs.Sections.{Sections, SectionLeft, SegmentLeft};
ghost use Rattle.framehop_modules.specs.ExplicitTable.{kind_named, is_either, IsGiven};

use crate::section_bytes::SectionBytes;
use std::ops::Range;

/// The sections and segments of a module by name. Ranges may be asked for any number of times; data
/// is handed out, and what was handed out may be missing from then on, under either of the names
/// that a section has: `__eh_frame` and `.eh_frame` are two names of one.
///
/// Addresses are stated virtual memory addresses (SVMAs): as the module's file has them.
pub trait ModuleSectionInfo<D: SectionBytes> {
    ghost sections: { Self → Sections };

    /// The address that the module's stated addresses are relative to.
    fn base_svma(&self) -> u64
        ensures { result ≡ (sections self.now).base_svma };

    /// The addresses of a section, if they are known.
    fn section_svma_range(&mut self, name: &[u8]) -> Option<Range<u64>>
        ensures range { result ≡ (sections self.old).section_range name.now }
        ensures same { sections self.new ≡ sections self.old };

    /// The data of a section, if there is such a section and it was not handed out yet.
    fn section_data(&mut self, name: &[u8]) -> Option<D>
        ensures data_ { option_map D.content result ≡ (sections self.old).section_data name.now }
        ensures given { IfSome result (λ _.
            SectionLeft name.now (sections self.old) (sections self.new)) }
        ensures none { IfNone result (sections self.new ≡ sections self.old) };

    /// The addresses of a segment, if they are known.
    fn segment_svma_range(&mut self, name: &[u8]) -> Option<Range<u64>>
        ensures range { result ≡ (sections self.old).segment_range name.now }
        ensures same { sections self.new ≡ sections self.old };

    /// The data of a segment, if there is such a segment and it was not handed out yet.
    fn segment_data(&mut self, name: &[u8]) -> Option<D>
        ensures data_ { option_map D.content result ≡ (sections self.old).segment_data name.now }
        ensures given { IfSome result (λ _.
            SegmentLeft name.now (sections self.old) (sections self.new)) }
        ensures none { IfNone result (sections self.new ≡ sections self.old) };
}

/// The sections of a module, given one by one. Names other than those below have none.
#[derive(Debug, Drop, PartialEq, Eq)]
pub struct ExplicitModuleSectionInfo<D> {
    /// The address that the module's stated addresses are relative to.
    pub base_svma: u64,
    /// The range of `__text` or `.text`.
    pub text_svma: Option<Range<u64>>,
    /// The data of `__text` or `.text`.
    pub text: Option<D>,
    /// The range of `__stubs`, in Mach-O files.
    pub stubs_svma: Option<Range<u64>>,
    /// The range of `__stub_helper`, in Mach-O files.
    pub stub_helper_svma: Option<Range<u64>>,
    /// The range of `__got` or `.got`.
    pub got_svma: Option<Range<u64>>,
    /// The data of `__unwind_info`, in Mach-O files.
    pub unwind_info: Option<D>,
    /// The range of `__eh_frame` or `.eh_frame`.
    pub eh_frame_svma: Option<Range<u64>>,
    /// The data of `__eh_frame` or `.eh_frame`.
    pub eh_frame: Option<D>,
    /// The range of `__eh_frame_hdr` or `.eh_frame_hdr`.
    pub eh_frame_hdr_svma: Option<Range<u64>>,
    /// The data of `__eh_frame_hdr` or `.eh_frame_hdr`.
    pub eh_frame_hdr: Option<D>,
    /// The data of `__debug_frame` or `.debug_frame`.
    pub debug_frame: Option<D>,
    /// The range of the segment `__TEXT`, in Mach-O files.
    pub text_segment_svma: Option<Range<u64>>,
    /// The data of the segment `__TEXT`, in Mach-O files.
    pub text_segment: Option<D>,
}

/// No section, and stated addresses that are relative to 0.
impl<D> Default for ExplicitModuleSectionInfo<D> {
    ghost use Rattle.std.specs.Prelude.{None};

    ghost is_default = { λ info. info ≡ record {
      base_svma = 0;
      text_svma = None;
      text = None;
      stubs_svma = None;
      stub_helper_svma = None;
      got_svma = None;
      unwind_info = None;
      eh_frame_svma = None;
      eh_frame = None;
      eh_frame_hdr_svma = None;
      eh_frame_hdr = None;
      debug_frame = None;
      text_segment_svma = None;
      text_segment = None;
    } };

    fn default() -> Self {
        ExplicitModuleSectionInfo {
            base_svma: 0,
            text_svma: None,
            text: None,
            stubs_svma: None,
            stub_helper_svma: None,
            got_svma: None,
            unwind_info: None,
            eh_frame_svma: None,
            eh_frame: None,
            eh_frame_hdr_svma: None,
            eh_frame_hdr: None,
            debug_frame: None,
            text_segment_svma: None,
            text_segment: None,
        }
    }
}

/// A section that can be given.
#[derive(Debug, Clone, Copy, PartialEq, Eq)]
enum SectionKind {
    Text,
    Got,
    EhFrame,
    EhFrameHdr,
    DebugFrame,
    Stubs,
    StubHelper,
    UnwindInfo,
}

impl SectionKind {
    // The section of a name.
    #[inline(always)]
    fn named(name: &[u8]) -> Option<Self>
        ensures { result ≡ kind_named name.now }
    {
        if is_one_of(name, b"__text", b".text") {
            Some(SectionKind::Text)
        } else if is_one_of(name, b"__got", b".got") {
            Some(SectionKind::Got)
        } else if is_one_of(name, b"__eh_frame", b".eh_frame") {
            Some(SectionKind::EhFrame)
        } else if is_one_of(name, b"__eh_frame_hdr", b".eh_frame_hdr") {
            Some(SectionKind::EhFrameHdr)
        } else if is_one_of(name, b"__debug_frame", b".debug_frame") {
            Some(SectionKind::DebugFrame)
        } else if is_name(name, b"__stubs") {
            Some(SectionKind::Stubs)
        } else if is_name(name, b"__stub_helper") {
            Some(SectionKind::StubHelper)
        } else if is_name(name, b"__unwind_info") {
            Some(SectionKind::UnwindInfo)
        } else {
            None
        }
    }
}

// Whether a name is this text. Names are mostly literals, of which the compiler answers this, as it doesn't `==` of
// slices.
#[inline(always)]
pub(crate) fn is_name(name: &[u8], text: &[u8]) -> bool
    ensures { result ≡ bytes_eq name.now text.now }
{
    let mut left = name;
    let mut wanted = text;
    'bytes: while let Some((byte, bytes)) = left.split_first() {
        match wanted.split_first() {
            Some((first, others)) if *first == *byte => {
                left = bytes;
                wanted = others;
            }
            _ => return false,
        }
    }
    wanted.is_empty()
}

// Whether a name is one of two.
#[inline(always)]
fn is_one_of(name: &[u8], one: &[u8], other: &[u8]) -> bool
    ensures { result ≡ is_either name.now one.now other.now }
{
    is_name(name, one) || is_name(name, other)
}

// The same range.
pub(crate) fn copy_of(range: &Option<Range<u64>>) -> Option<Range<u64>>
    ensures { result ≡ range.now }
{
    match range {
        Some(range) => Some(range.start..range.end),
        None => None,
    }
}

impl<D: SectionBytes> ModuleSectionInfo<D> for ExplicitModuleSectionInfo<D> {
    ghost use Rattle.framehop_modules.specs.ExplicitTable.{sections_given};

    ghost sections = { sections_given D.content };

    fn base_svma(&self) -> u64 {
        self.base_svma
    }

    #[inline(always)]
    fn section_svma_range(&mut self, name: &[u8]) -> Option<Range<u64>> {
        match SectionKind::named(name)? {
            SectionKind::Text => copy_of(&self.text_svma),
            SectionKind::Got => copy_of(&self.got_svma),
            SectionKind::EhFrame => copy_of(&self.eh_frame_svma),
            SectionKind::EhFrameHdr => copy_of(&self.eh_frame_hdr_svma),
            SectionKind::Stubs => copy_of(&self.stubs_svma),
            SectionKind::StubHelper => copy_of(&self.stub_helper_svma),
            SectionKind::DebugFrame | SectionKind::UnwindInfo => None,
        }
    }

    #[inline(always)]
    fn section_data(&mut self, name: &[u8]) -> Option<D>
        ensures data_ { option_map D.content result ≡ (sections_given D.content self.old).section_data name.now }
        ensures given { IfSome result (λ _.
            SectionLeft name.now (sections_given D.content self.old) (sections_given D.content self.new)) }
        ensures none { IfNone result (sections_given D.content self.new ≡ sections_given D.content self.old) }
        ensures once { IfSome result (λ _. IsGiven name.now self.new) }
    {
        match SectionKind::named(name)? {
            SectionKind::Text => self.text.take(),
            SectionKind::EhFrame => self.eh_frame.take(),
            SectionKind::EhFrameHdr => self.eh_frame_hdr.take(),
            SectionKind::DebugFrame => self.debug_frame.take(),
            SectionKind::UnwindInfo => self.unwind_info.take(),
            SectionKind::Got | SectionKind::Stubs | SectionKind::StubHelper => None,
        }
    }

    #[inline(always)]
    fn segment_svma_range(&mut self, name: &[u8]) -> Option<Range<u64>> {
        if is_name(name, b"__TEXT") {
            copy_of(&self.text_segment_svma)
        } else {
            None
        }
    }

    #[inline(always)]
    fn segment_data(&mut self, name: &[u8]) -> Option<D>
        ensures data_ { option_map D.content result ≡ (sections_given D.content self.old).segment_data name.now }
        ensures given { IfSome result (λ _.
            SegmentLeft name.now (sections_given D.content self.old) (sections_given D.content self.new)) }
        ensures none { IfNone result (sections_given D.content self.new ≡ sections_given D.content self.old) }
        ensures once { IfSome result (λ _. self.new.text_segment ≡ None) }
    {
        if is_name(name, b"__TEXT") {
            self.text_segment.take()
        } else {
            None
        }
    }
}
