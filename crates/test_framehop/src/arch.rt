//! A step by the trait of architectures alone.
use crate::worked::word_at;
use framehop_rules::aarch64::{ArchAarch64, UnwindRegsAarch64};
use framehop_rules::x86_64::{ArchX86_64, UnwindRegsX86_64};
use framehop_rules::{Arch, Error, UnwindRule};

/// A step over the worked stack by the rule for a frame of which nothing is known.
fn follow<A: Arch>(regs: &mut A::UnwindRegs) -> Result<Option<u64>, Error> {
    let mut read_stack = word_at;
    A::UnwindRule::fallback_rule().exec(false, regs, &mut read_stack)
}

#[test]
fn follows_frame_pointers(rt: HostRuntime) {
    let mut regs = UnwindRegsX86_64::new(0x100300, 0x10, 0x20);
    assert!(rt; follow::<ArchX86_64>(&mut regs) == Ok(Some(0x100200)));
    assert!(rt; (regs.sp(), regs.bp()) == (0x30, 0x40));
    let mut regs = UnwindRegsAarch64::new(0x100300, 0x10, 0x20);
    assert!(rt; follow::<ArchAarch64>(&mut regs) == Ok(Some(0x100200)));
    assert!(rt; (regs.sp(), regs.fp()) == (0x30, 0x40));
}
