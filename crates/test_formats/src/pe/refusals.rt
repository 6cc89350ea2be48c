//! Unwind info by its sections, and what isn't there.

use crate::pe::worked::{INFO, ROW};
use framehop_pe::{CodeRules, DataAtRvaRange, PeSections, PeUnwinderError, PeUnwinding};
use framehop_registers::aarch64::UnwindRegsAarch64;
use framehop_rules::aarch64::ArchAarch64;

/// An address, and the unwind info from there on, in a `.rdata` from 0x2000 with four bytes, or in a `.xdata` from 0x2000 with the worked
/// info.
static INFOS: [(u32, Option<&[u8]>); 5] = [
    (0x1fff, None),
    (0x2002, Some(&[0x13, 0x14])),
    (0x2004, Some(&[])),
    (0x2005, Some(&[0x32, 0x01, 0x30])),
    (0x2008, None),
];

#[test]
fn unwind_info_is_sought_in_rdata_first(rt: HostRuntime) {
    let first = DataAtRvaRange {
        bytes: &[0x11, 0x12, 0x13, 0x14],
        rva_range: 0x2000..0x2010,
    };
    let second = DataAtRvaRange {
        bytes: &INFO,
        rva_range: 0x2000..0x2008,
    };
    let rdata = Some(&first);
    let xdata = Some(&second);
    let text = None;
    let sections = PeSections {
        pdata: &ROW,
        increasing: false,
        rdata,
        xdata,
        text,
        code_rules: CodeRules::Published,
    };
    for &(address, bytes) in &INFOS {
        let wanted = bytes.ok_or(PeUnwinderError::MissingUnwindInfoData(address));
        assert!(rt;
            sections.unwind_info_memory_at_rva(address) == wanted,
            "{address:x}"
        );
    }
    let missing = Err(PeUnwinderError::MissingInstructionData(0x1000));
    assert!(rt; sections.text_memory_at_rva(0x1000) == missing);
}

#[test]
fn aarch64_is_not_supported(rt: HostRuntime) {
    let rdata = None;
    let xdata = None;
    let text = None;
    let sections = PeSections {
        pdata: &ROW,
        increasing: false,
        rdata,
        xdata,
        text,
        code_rules: CodeRules::Published,
    };
    let mut regs = UnwindRegsAarch64::new(1, 2, 3);
    let mut read = |_address: u64| Err(());
    let answer = ArchAarch64::unwind_frame(sections, 0x1008, &mut regs, true, &mut read);
    assert!(rt; matches!(answer, Err(PeUnwinderError::Aarch64Unsupported)));
    assert!(rt; (regs.lr(), regs.sp(), regs.fp()) == (1, 2, 3));
}
