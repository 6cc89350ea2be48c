//! Modules of each kind, and what they tell of themselves.
use framehop::aarch64::ArchAarch64;
use framehop::x86_64::ArchX86_64;
use framehop::{
    BySections, ExplicitModuleSectionInfo, LeftOut, LoadOptions, Module, ModuleSectionInfo,
    ModuleUnwindData, PeModuleSectionInfo, SectionBytes, TableArch, Tabulating, UnwindDataKind,
    load_module,
};
use std::alloc::{AllocError, Global};
use std::rc::Rc;
use test_readers::WORKED;

/// A section, which those that hold it share.
#[derive(Drop)]
pub struct Shared {
    pub bytes: Rc<Vec<u8>>,
}

impl SectionBytes for Shared {
    ghost content = { λ section. section.bytes.value.items };

    fn bytes(&self) -> &[u8] {
        self.bytes.as_slice()
    }
}

/// What modules are unwound by that share their sections.
pub type Data = ModuleUnwindData<Shared>;

/// x86_64, with such modules.
pub type X86_64<P> = BySections<ArchX86_64, Shared, P>;

/// A section that nothing else holds.
pub fn shared_section(alloc: Global, section: &[u8]) -> Result<Shared, AllocError> {
    let bytes = Rc::new(alloc, section.to_vec(alloc)?)?;
    Ok(Shared { bytes })
}

/// Where modules start, each of 0x10000 addresses, what they are unwound by, and what their indexes leave out: by an index, by a header,
/// by `.debug_frame`, by compact unwind info and by `.pdata`, with a rule and code by code; one without sections; two by an index with a
/// table of rules, of their architecture and of another one; and three whose indexes have all FDEs, lack one that starts below the base,
/// or aren't there, as the section is cut off in an entry.
pub static MODULES: [(u64, UnwindDataKind, Option<LeftOut>); 12] = [
    (0x100000, UnwindDataKind::EhFrame, Some(LeftOut::Fdes(0))),
    (0x200000, UnwindDataKind::EhFrame, None),
    (0x300000, UnwindDataKind::DebugFrame, Some(LeftOut::Fdes(0))),
    (0x400000, UnwindDataKind::CompactUnwindInfo, None),
    (0x500000, UnwindDataKind::Pdata, None),
    (0x600000, UnwindDataKind::Pdata, None),
    (0x700000, UnwindDataKind::NoSections, None),
    (0xa00000, UnwindDataKind::EhFrame, Some(LeftOut::Fdes(0))),
    (0xb00000, UnwindDataKind::EhFrame, Some(LeftOut::Fdes(0))),
    (0xc00000, UnwindDataKind::EhFrame, Some(LeftOut::Fdes(0))),
    (0xd00000, UnwindDataKind::EhFrame, Some(LeftOut::Fdes(1))),
    (0xe00000, UnwindDataKind::EhFrame, Some(LeftOut::Section)),
];

/// The worked section, with an FDE after its own: a function of sixteen bytes at 0x1010, whose CFA is the expression RSP + 8.
pub static BOTH: [u8; 84] = [
    0x10, 0, 0, 0, 0, 0, 0, 0, 1, 0, 1, 0x78, 0x10, 0x0c, 7, 8, 0x90, 1, 0, 0, 0x1c, 0, 0, 0, 0x18,
    0, 0, 0, 0, 0x10, 0, 0, 0, 0, 0, 0, 0x10, 0, 0, 0, 0, 0, 0, 0, 0x41, 0x0e, 0x10, 0x86, 2, 0x43,
    0x0d, 6, 0x18, 0, 0, 0, 0x38, 0, 0, 0, 0x10, 0x10, 0, 0, 0, 0, 0, 0, 0x10, 0, 0, 0, 0, 0, 0, 0,
    0x0f, 2, 0x77, 8, 0, 0, 0, 0,
];

/// An `.eh_frame_hdr` at 0x300 for the worked section at 0x200.
static HEADER: [u8; 20] = [
    1, 3, 3, 0x3b, 0, 2, 0, 0, 1, 0, 0, 0, 0, 0x0d, 0, 0, 0x14, 0xff, 0xff, 0xff,
];

/// A section `.debug_frame`: a CIE of version 4, whose addresses have 4 bytes, and an FDE of sixteen
/// bytes of code at 0x1000, whose CFA is the expression RSP + 8.
static NARROW: [u8; 40] = [
    0x10, 0, 0, 0, 0xff, 0xff, 0xff, 0xff, 4, 0, 4, 0, 1, 0x78, 0x10, 0x0c, 7, 8, 0x90, 1, 0x10, 0,
    0, 0, 0, 0, 0, 0, 0, 0x10, 0, 0, 0x10, 0, 0, 0, 0x0f, 2, 0x77, 8,
];

/// `__unwind_info` of a library of x86_64 that lld linked: a function without a frame from 0x560, and from 0x570 one with a stack of
/// six words.
static COMPACT: [u8; 142] = [
    0x01, 0x00, 0x00, 0x00, 0x1c, 0x00, 0x00, 0x00, 0x08, 0x00, 0x00, 0x00, 0x3c, 0x00, 0x00, 0x00,
    0x00, 0x00, 0x00, 0x00, 0x3c, 0x00, 0x00, 0x00, 0x02, 0x00, 0x00, 0x00, 0x00, 0xf8, 0x0d, 0x03,
    0x00, 0x44, 0x04, 0x03, 0x00, 0x18, 0x08, 0x02, 0x00, 0x14, 0x08, 0x02, 0x04, 0x10, 0x06, 0x02,
    0x00, 0x00, 0x06, 0x02, 0x00, 0x04, 0x04, 0x02, 0x00, 0x00, 0x00, 0x00, 0x60, 0x05, 0x00, 0x00,
    0x54, 0x00, 0x00, 0x00, 0x54, 0x00, 0x00, 0x00, 0xf8, 0x07, 0x00, 0x00, 0x00, 0x00, 0x00, 0x00,
    0x54, 0x00, 0x00, 0x00, 0x03, 0x00, 0x00, 0x00, 0x0c, 0x00, 0x08, 0x00, 0x2c, 0x00, 0x00, 0x00,
    0x00, 0x00, 0x00, 0x07, 0x10, 0x00, 0x00, 0x05, 0x70, 0x00, 0x00, 0x01, 0xd0, 0x00, 0x00, 0x06,
    0xf0, 0x00, 0x00, 0x04, 0x30, 0x01, 0x00, 0x03, 0x90, 0x01, 0x00, 0x02, 0x00, 0x02, 0x00, 0x00,
    0x00, 0x00, 0x00, 0x00, 0x00, 0x00, 0x00, 0x00, 0x00, 0x00, 0x00, 0x00, 0x00, 0x00,
];

/// The row of a function from 0x1000 to 0x1010, with its unwind info at 0x2000.
static ROW: [u8; 12] = [0, 0x10, 0, 0, 0x10, 0x10, 0, 0, 0, 0x20, 0, 0];

/// Its unwind info: RBX is pushed, and the stack pointer goes down by 0x20.
static INFO: [u8; 8] = [0x01, 0x05, 0x02, 0x00, 0x05, 0x32, 0x01, 0x30];

/// An unwind info whose codes have no rule: RBP is pushed after an allocation of 8.
static UNDONE: [u8; 8] = [0x01, 0x02, 0x02, 0x00, 0x02, 0x50, 0x01, 0x02];

/// A module with these sections from there on, if memory isn't refused, with a table of rules if one is asked for.
fn module_of<D: SectionBytes + Drop, I: ModuleSectionInfo<D> + Drop>(
    alloc: Global,
    sections: I,
    start: u64,
    tables: Option<TableArch>,
) -> Result<Module<D>, AllocError> {
    let options = LoadOptions {
        tables,
        ..Default::default()
    };
    let range = start..start.saturating_add(0x10000);
    let name = String::from_str(alloc, "m")?;
    load_module(alloc, name, range, start, sections, options)
}

/// A module from 0x100000 on, with this section `.eh_frame`.
pub fn module_with<D: SectionBytes + Drop>(
    alloc: Global,
    eh_frame: D,
) -> Result<Module<D>, AllocError> {
    let mut sections = ExplicitModuleSectionInfo::default();
    sections.eh_frame = Some(eh_frame);
    module_of(alloc, sections, 0x100000, None)
}

/// The section by which the module is unwound that starts there, if it isn't of a PE file.
fn section_at(start: u64) -> &'static [u8] {
    match start {
        0x100000 | 0xa00000 | 0xb00000 => &BOTH,
        0x300000 => &NARROW,
        0x400000 => &COMPACT,
        0xe00000 => &WORKED[..30],
        _ => &WORKED,
    }
}

/// The sections of this module.
fn sections_at(alloc: Global, start: u64) -> Result<ExplicitModuleSectionInfo<Shared>, AllocError> {
    let mut sections = ExplicitModuleSectionInfo::default();
    let section = Some(shared_section(alloc, section_at(start))?);
    match start {
        0x300000 => sections.debug_frame = section,
        0x400000 => sections.unwind_info = section,
        0x700000 | 0x800000 => {}
        _ => sections.eh_frame = section,
    }
    match start {
        0x200000 => {
            sections.eh_frame_svma = Some(0x200..0x238);
            sections.eh_frame_hdr = Some(shared_section(alloc, &HEADER)?);
            sections.eh_frame_hdr_svma = Some(0x300..0x314);
        }
        0xc00000 => sections.base_svma = 0x1000,
        0xd00000 => sections.base_svma = 0x1001,
        _ => {}
    }
    Ok(sections)
}

/// The module that starts there.
pub fn module_at(alloc: Global, start: u64) -> Result<Module<Shared>, AllocError> {
    let tables = match start {
        0xa00000 => Some(ArchX86_64::table_arch()),
        0xb00000 => Some(ArchAarch64::table_arch()),
        _ => None,
    };
    let xdata = match start {
        0x500000 => INFO.as_slice(),
        0x600000 => UNDONE.as_slice(),
        _ => return module_of(alloc, sections_at(alloc, start)?, start, tables),
    };
    let sections = PeModuleSectionInfo {
        pdata: Some(shared_section(alloc, &ROW)?),
        xdata_svma: Some(0x2000..0x3000),
        xdata: Some(shared_section(alloc, xdata)?),
        ..Default::default()
    };
    module_of(alloc, sections, start, tables)
}

#[test]
fn modules_tell_of_themselves(rt: HostRuntime) {
    for &(start, kind, left_out) in &MODULES {
        let module = module_at(rt.alloc(), start).expect(&rt, "memory");
        let (data, range) = (module.unwind_data(), module.avma_range());
        assert!(rt;
            data.kind() == kind && data.left_out() == left_out,
            "{start:x}"
        );
        assert!(rt; module.name() == "m" && module.base_avma() == start);
        assert!(rt; (range.start, range.end) == (start, start.wrapping_add(0x10000)));
    }
}
