//! What is taken of a module's sections.

ghost use Rattle.std.specs.Prelude.{◌≡◌, option_map, IfSome, IfNone, codes};
ghost use Rattle.framehop_modules.specs.Sections.{SectionLeft, SegmentLeft};
ghost use Rattle.framehop_modules.specs.Chosen.{either_data, text, chosen_sections, compact_sections, pe_sections, eh_frame_sections, text_section, whole_section, whole_segment, base_svmas, start_of};
ghost use Rattle.framehop_modules.specs.ChosenViews.{IsTakenWith, LeavesText, LeftUnderEither, section_bytes, sections_bytes};

use crate::module_section_info::ModuleSectionInfo;
use crate::section_bytes::SectionBytes;
use std::ops::Range;

/// The data of a section, and the stated addresses that it is at.
#[derive(Debug, Drop)]
pub struct SectionData<D> {
    pub bytes: D,
    pub svma_range: Range<u64>,
}

/// The sections that a module is unwound by.
#[derive(Debug, Drop)]
pub enum ModuleSections<D> {
    /// Of Mach-O files: `__unwind_info`, and what its functions may need.
    CompactUnwindInfoAndEhFrame {
        unwind_info: D,
        eh_frame: Option<D>,
        stubs_svma: Option<Range<u64>>,
        stub_helper_svma: Option<Range<u64>>,
        text: Option<SectionData<D>>,
    },
    /// Of PE files: `.pdata`, and the sections that its rows lead to.
    PeUnwindInfo {
        pdata: D,
        rdata: Option<SectionData<D>>,
        xdata: Option<SectionData<D>>,
        text: Option<SectionData<D>>,
    },
    /// `.eh_frame`, with `.eh_frame_hdr` if there is one.
    EhFrame {
        eh_frame: D,
        eh_frame_hdr: Option<D>,
    },
    /// `.debug_frame`.
    DebugFrame {
        debug_frame: D,
    },
    /// None that can be unwound by.
    NoSections,
}

/// Where the sections start that pointers of call frame information may count from; 0 for one
/// without a stated range.
#[derive(Debug, Clone, Copy, PartialEq, Eq)]
pub struct BaseSvmas {
    pub eh_frame: u64,
    pub eh_frame_hdr: u64,
    pub text: u64,
    pub got: u64,
}

// The data of a section; what is left is said whether there is some or not.
fn data_of<D: SectionBytes, I: ModuleSectionInfo<D>>(info: &mut I, name: &[u8]) -> Option<D>
    ensures data_ { option_map D.content result ≡ (I.sections info.old).section_data name.now }
    ensures left { SectionLeft name.now (I.sections info.old) (I.sections info.new) }
{
    info.section_data(name)
}

// A section that has data and a range. If it lacks one of them, nothing is handed out.
fn whole_section<D: SectionBytes, I: ModuleSectionInfo<D>>(
    info: &mut I,
    name: &[u8],
) -> Option<SectionData<D>>
    ensures section { option_map (section_bytes D.content) result
        ≡ whole_section (I.sections info.old) name.now }
    ensures left { SectionLeft name.now (I.sections info.old) (I.sections info.new) }
    ensures none { IfNone result (I.sections info.new ≡ I.sections info.old) }
{
    let svma_range = info.section_svma_range(name)?;
    let bytes = info.section_data(name)?;
    Some(SectionData { bytes, svma_range })
}

// A segment that has data and a range.
fn whole_segment<D: SectionBytes, I: ModuleSectionInfo<D>>(
    info: &mut I,
    name: &[u8],
) -> Option<SectionData<D>>
    ensures segment { option_map (section_bytes D.content) result
        ≡ whole_segment (I.sections info.old) name.now }
    ensures left { SegmentLeft name.now (I.sections info.old) (I.sections info.new) }
{
    let svma_range = info.segment_svma_range(name)?;
    let bytes = info.segment_data(name)?;
    Some(SectionData { bytes, svma_range })
}

// The data under the first of two names that has some.
#[inline(always)]
fn either_section<D: SectionBytes, I: ModuleSectionInfo<D>>(
    info: &mut I,
    name: &[u8],
    other: &[u8],
) -> Option<D>
    ensures data_ { option_map D.content result
        ≡ either_data (I.sections info.old) name.now other.now }
    ensures given { IfSome result (λ _.
        LeftUnderEither name.now other.now (I.sections info.old) (I.sections info.new)) }
    ensures none { IfNone result (I.sections info.new ≡ I.sections info.old) }
{
    match info.section_data(name) {
        Some(data) => Some(data),
        None => info.section_data(other),
    }
}

/// The section of code, with the addresses that it is at: `.text`, or else `__text`, if it has both.
pub fn text_section<D: SectionBytes, I: ModuleSectionInfo<D>>(
    info: &mut I,
) -> Option<SectionData<D>>
    ensures { option_map (section_bytes D.content) result ≡ text_section (I.sections info.old) }
{
    if let Some(text) = whole_section(info, b".text") {
        return Some(text);
    }
    whole_section(info, b"__text")
}

// The code of a Mach-O file: the segment `__TEXT`, else the section `__text`.
fn text_of<D: SectionBytes, I: ModuleSectionInfo<D>>(info: &mut I) -> Option<SectionData<D>>
    ensures { option_map (section_bytes D.content) result ≡ text (I.sections info.old) }
{
    match whole_segment(info, b"__TEXT") {
        Some(text) => Some(text),
        None => whole_section(info, b"__text"),
    }
}

impl<D: SectionBytes> ModuleSections<D> {
    /// The sections of a module to unwind by: those of the first of `__unwind_info`, `.pdata`,
    /// `.eh_frame` or `__eh_frame`, and `.debug_frame` that the module has. The text is handed out only with the first two.
    pub fn choose<I: ModuleSectionInfo<D>>(info: &mut I) -> Self
        ensures chosen { sections_bytes D.content result ≡ chosen_sections (I.sections info.old) }
        ensures text { LeavesText result (I.sections info.old) (I.sections info.new) }
    {
        if let Some(unwind_info) = info.section_data(b"__unwind_info") {
            return ModuleSections::with_compact_unwind_info(info, unwind_info);
        }
        if let Some(pdata) = info.section_data(b".pdata") {
            return ModuleSections::with_pdata(info, pdata);
        }
        if let Some(eh_frame) = either_section(info, b".eh_frame", b"__eh_frame") {
            return ModuleSections::with_eh_frame(info, eh_frame);
        }
        match info.section_data(b".debug_frame") {
            Some(debug_frame) => ModuleSections::DebugFrame { debug_frame },
            None => ModuleSections::NoSections,
        }
    }

    // What goes with `__unwind_info`, which was handed out before.
    fn with_compact_unwind_info<I: ModuleSectionInfo<D>>(info: &mut I, unwind_info: D) -> Self
        ensures { IsTakenWith D.content (codes "__unwind_info") (I.sections info.old) result unwind_info
            compact_sections }
    {
        let eh_frame = data_of(info, b"__eh_frame");
        let stubs_svma = info.section_svma_range(b"__stubs");
        let stub_helper_svma = info.section_svma_range(b"__stub_helper");
        let text = text_of(info);
        ModuleSections::CompactUnwindInfoAndEhFrame {
            unwind_info,
            eh_frame,
            stubs_svma,
            stub_helper_svma,
            text,
        }
    }

    // What goes with `.pdata`, which was handed out before.
    fn with_pdata<I: ModuleSectionInfo<D>>(info: &mut I, pdata: D) -> Self
        ensures { IsTakenWith D.content (codes ".pdata") (I.sections info.old) result pdata
            pe_sections }
    {
        let rdata = whole_section(info, b".rdata");
        let xdata = whole_section(info, b".xdata");
        let text = whole_section(info, b".text");
        ModuleSections::PeUnwindInfo {
            pdata,
            rdata,
            xdata,
            text,
        }
    }

    // What goes with `.eh_frame` or `__eh_frame`, which was handed out before.
    fn with_eh_frame<I: ModuleSectionInfo<D>>(info: &mut I, eh_frame: D) -> Self
        ensures taken { IsTakenWith D.content (codes ".eh_frame") (I.sections info.old) result eh_frame
            eh_frame_sections }
        ensures text { LeavesText result (I.sections info.old) (I.sections info.new) }
    {
        let eh_frame_hdr = either_section(info, b".eh_frame_hdr", b"__eh_frame_hdr");
        ModuleSections::EhFrame {
            eh_frame,
            eh_frame_hdr,
        }
    }
}

// The start of a section that may have either of two names: of the first that has a range, else 0.
#[inline(always)]
fn start_of<D: SectionBytes, I: ModuleSectionInfo<D>>(
    info: &mut I,
    name: &[u8],
    other: &[u8],
) -> u64
    ensures start { result ≡ start_of (I.sections info.old) name.now other.now }
    ensures same { I.sections info.new ≡ I.sections info.old }
{
    match info.section_svma_range(name) {
        Some(range) => range.start,
        None => match info.section_svma_range(other) {
            Some(range) => range.start,
            None => 0,
        },
    }
}

impl BaseSvmas {
    /// Where the sections of a module start. A name with `__` before it is asked for first.
    pub fn of<D: SectionBytes, I: ModuleSectionInfo<D>>(info: &mut I) -> Self
        ensures starts { result ≡ base_svmas (I.sections info.old) }
        ensures same { I.sections info.new ≡ I.sections info.old }
    {
        let eh_frame = start_of(info, b"__eh_frame", b".eh_frame");
        let eh_frame_hdr = start_of(info, b"__eh_frame_hdr", b".eh_frame_hdr");
        let text = start_of(info, b"__text", b".text");
        let got = start_of(info, b"__got", b".got");
        BaseSvmas {
            eh_frame,
            eh_frame_hdr,
            text,
            got,
        }
    }
}
