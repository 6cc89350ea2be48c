//! Single steps by each rule of aarch64, and the registers and masks.
use crate::worked::word_at;
use framehop_rules::aarch64::{PtrAuthMask, UnwindRegsAarch64, UnwindRuleAarch64};
use framehop_rules::{Error, UnwindRule};
use std::process::Abort;

/// The registers lr, sp and fp.
type Registers = (u64, u64, u64);

/// A frame of the worked stack.
const START: Registers = (0x100400, 0x10, 0x20);

/// The two frames that call it.
const SECOND: Registers = (0x100200, 0x30, 0x40);

const THIRD: Registers = (0x100100, 0x50, 0x70);

const LAST: u64 = u64::MAX;

const STAYS: Error = Error::DidNotAdvance;

const BACK: Error = Error::FramepointerUnwindingMovedBackwards;

const OVERFLOW: Error = Error::IntegerOverflow;

const NO_OP: UnwindRuleAarch64 = UnwindRuleAarch64::NoOp;

const EITHER: UnwindRuleAarch64 = UnwindRuleAarch64::NoOpIfFirstFrameOtherwiseFp;

const FP: UnwindRuleAarch64 = UnwindRuleAarch64::UseFramePointer;

// SP is higher by this number of pairs of words.
macro_rules! raised {
    ($pairs:expr) => {
        UnwindRuleAarch64::OffsetSp {
            sp_offset_by_16: $pairs,
        }
    };
}

// The same in a first frame alone.
macro_rules! raised_or_end {
    ($pairs:expr) => {
        UnwindRuleAarch64::OffsetSpIfFirstFrameOtherwiseStackEndsHere {
            sp_offset_by_16: $pairs,
        }
    };
}

// SP is higher by a number of pairs of words, and LR is stored a number of words above it.
macro_rules! with_lr {
    ($pairs:expr, $lr:expr) => {
        UnwindRuleAarch64::OffsetSpAndRestoreLr {
            sp_offset_by_16: $pairs,
            lr_storage_offset_from_sp_by_8: $lr,
        }
    };
}

// The same, with FP stored too.
macro_rules! with_both {
    ($pairs:expr, $fp:expr, $lr:expr) => {
        UnwindRuleAarch64::OffsetSpAndRestoreFpAndLr {
            sp_offset_by_16: $pairs,
            fp_storage_offset_from_sp_by_8: $fp,
            lr_storage_offset_from_sp_by_8: $lr,
        }
    };
}

// SP is a number of words above FP, and FP and LR are stored at numbers of words above FP.
macro_rules! from_fp {
    ($words:expr, $fp:expr, $lr:expr) => {
        UnwindRuleAarch64::UseFramepointerWithOffsets {
            sp_offset_from_fp_by_8: $words,
            fp_storage_offset_from_fp_by_8: $fp,
            lr_storage_offset_from_fp_by_8: $lr,
        }
    };
}

/// The registers, named.
fn shown(regs: &UnwindRegsAarch64) -> Registers {
    (regs.lr(), regs.sp(), regs.fp())
}

/// One step over the worked stack: its result, and the registers after it.
fn assert_step(
    rt: &impl Abort,
    rule: UnwindRuleAarch64,
    is_first_frame: bool,
    before: Registers,
    answer: Result<Option<u64>, Error>,
    after: Registers,
) {
    let (lr, sp, fp) = before;
    let mut regs = UnwindRegsAarch64::new(lr, sp, fp);
    let mut read_stack = word_at;
    assert!(rt;
        rule.exec(is_first_frame, &mut regs, &mut read_stack) == answer,
        "{rule:?} at {before:?}"
    );
    assert!(rt; shown(&regs) == after, "{rule:?} at {before:?}");
}

static CALLERS: [(UnwindRuleAarch64, bool, Registers, Registers); 19] = [
    (NO_OP, true, (0x100300, 0x10, 0x20), (0x100300, 0x10, 0x20)),
    (FP, false, (0x100300, 0x10, 0x20), SECOND),
    (FP, false, SECOND, THIRD),
    (FP, true, START, SECOND),
    (FP, false, (1, 0x8, 0x10), (4, 0x20, 0x100300)),
    (EITHER, true, START, START),
    (EITHER, false, START, SECOND),
    (EITHER, false, (1, 0x10, 0x50), (8, 0x60, 7)),
    (raised!(1), true, START, (0x100400, 0x20, 0x20)),
    (raised_or_end!(2), true, START, (0x100400, 0x30, 0x20)),
    (with_lr!(1, 0), false, START, (0x100300, 0x20, 0x20)),
    (with_lr!(0, 0), true, START, (0x100300, 0x10, 0x20)),
    (with_lr!(1, -2), false, START, (1, 0x20, 0x20)),
    (with_both!(2, 2, 3), false, START, SECOND),
    (from_fp!(2, 0, 1), false, START, SECOND),
    (from_fp!(6, 4, 5), false, START, THIRD),
    (raised!(1), true, (1, LAST - 16, 2), (1, LAST, 2)),
    (raised_or_end!(1), true, (1, LAST - 16, 2), (1, LAST, 2)),
    (
        raised!(u16::MAX),
        true,
        (1, LAST - 0xffff0, 2),
        (1, LAST, 2),
    ),
];

static ENDS: [(UnwindRuleAarch64, bool, Registers); 7] = [
    (FP, false, (0x100100, 0x50, 0x70)),
    (FP, false, (0x100100, 0x1000, 0x70)),
    (from_fp!(0, 0, 1), true, (1, 0x1000, 0x70)),
    (EITHER, false, (1, 0x10, 0x70)),
    (raised_or_end!(1), false, START),
    (NO_OP, true, (0, 0x10, 0x20)),
    (with_lr!(0, 0), false, (1, 0x70, 0x20)),
];

static REFUSALS: [(UnwindRuleAarch64, bool, Registers, Error); 29] = [
    (NO_OP, false, START, STAYS),
    (raised!(1), false, START, STAYS),
    (with_lr!(0, 0), false, START, STAYS),
    (FP, false, (1, 0x30, 0x20), BACK),
    (FP, true, (1, 0x10, 0x68), BACK),
    (from_fp!(2, 0, 1), false, (1, 0x30, 0x20), BACK),
    (EITHER, false, (1, 0x30, 0x20), BACK),
    (raised!(1), true, (1, LAST - 15, 2), OVERFLOW),
    (raised_or_end!(1), true, (1, LAST - 15, 2), OVERFLOW),
    (raised!(u16::MAX), true, (1, LAST - 0xfffef, 2), OVERFLOW),
    (with_lr!(1, -3), false, START, OVERFLOW),
    (with_lr!(1, 0), false, (1, LAST - 15, 2), OVERFLOW),
    (
        with_lr!(0, i16::MAX),
        false,
        (1, LAST - 0x3fff7, 2),
        OVERFLOW,
    ),
    (
        with_lr!(0, i16::MAX),
        false,
        (1, LAST - 0x3fff8, 2),
        Error::CouldNotReadStack(LAST),
    ),
    (with_lr!(0, i16::MIN), false, (1, 0x3ffff, 2), OVERFLOW),
    (
        with_lr!(0, i16::MIN),
        false,
        (1, 0x40001, 2),
        Error::CouldNotReadStack(1),
    ),
    (
        with_both!(1, 100, 2),
        false,
        (1, 0x70, 2),
        Error::CouldNotReadStack(0x80),
    ),
    (
        with_both!(1, 2, 0),
        false,
        (1, 0x70, 2),
        Error::CouldNotReadStack(0x80),
    ),
    (with_both!(1, -15, 0), false, (1, 0x70, 2), OVERFLOW),
    (with_both!(1, 0, -15), false, (1, 0x70, 2), OVERFLOW),
    (FP, false, (1, 0x10, LAST - 15), OVERFLOW),
    (
        FP,
        false,
        (1, 0x10, LAST - 16),
        Error::CouldNotReadStack(LAST - 8),
    ),
    (FP, false, (1, 0x10, 0x78), Error::CouldNotReadStack(0x80)),
    (EITHER, false, (1, 0x10, LAST - 15), OVERFLOW),
    (
        EITHER,
        false,
        (1, 0x1000, 0x78),
        Error::CouldNotReadStack(0x80),
    ),
    (
        from_fp!(u16::MAX, 0, 1),
        false,
        (1, 2, LAST - 0x7fff7),
        OVERFLOW,
    ),
    (from_fp!(2, 0, i16::MIN), false, START, OVERFLOW),
    (from_fp!(2, i16::MIN, 1), false, START, OVERFLOW),
    (
        from_fp!(2, i16::MAX, 1),
        false,
        START,
        Error::CouldNotReadStack(0x40018),
    ),
];

/// The first four callers are a walk, of which the last has no caller. If there is no caller the registers stay. The first error is
/// returned.
#[test]
fn steps_by_rules(rt: HostRuntime) {
    for &(rule, is_first_frame, before, after) in &CALLERS {
        assert_step(&rt, rule, is_first_frame, before, Ok(Some(after.0)), after);
    }
    for &(rule, is_first_frame, before) in &ENDS {
        assert_step(&rt, rule, is_first_frame, before, Ok(None), before);
    }
    for &(rule, is_first_frame, before, error) in &REFUSALS {
        assert_step(&rt, rule, is_first_frame, before, Err(error), before);
    }
}

/// The worked stack, with an authentication code at one return address.
fn signed_word_at(address: u64) -> Result<u64, ()> {
    match address {
        0x28 => Ok(0xab00000000100200),
        _ => word_at(address),
    }
}

static SIGNED: [(UnwindRuleAarch64, u64, Option<u64>, Registers); 3] = [
    (
        NO_OP,
        0xab00000000100300,
        Some(0x100300),
        (0x100300, 0x10, 0x20),
    ),
    (FP, 5, Some(0x100200), (0x100200, 0x30, 0x40)),
    (NO_OP, 0xab00000000000000, None, (0, 0x10, 0x20)),
];

/// A return address is returned and kept without its authentication code.
#[test]
fn strips_return_addresses(rt: HostRuntime) {
    let mask = PtrAuthMask::new_24_40();
    for &(rule, lr, answer, after) in &SIGNED {
        let mut regs = UnwindRegsAarch64::new_with_ptr_auth_mask(mask, lr, 0x10, 0x20);
        let mut read_stack = signed_word_at;
        assert!(rt;
            rule.exec(true, &mut regs, &mut read_stack) == Ok(answer),
            "{rule:?}"
        );
        assert!(rt; shown(&regs) == after, "{rule:?}");
        assert!(rt; regs.lr_mask() == mask);
    }
}

static MASKS: [(u64, u64); 9] = [
    (0xaaaab54f7000, 0xffffffffffff),
    (0x55ba9f07e000, 0x7fffffffffff),
    (0x22a3ccff7, 0x3ffffffff),
    (0, LAST),
    (1, 1),
    (2, 3),
    (LAST, LAST),
    (1 << 63, LAST),
    ((1 << 63) - 1, (1 << 63) - 1),
];

#[test]
fn makes_masks(rt: HostRuntime) {
    assert!(rt; PtrAuthMask::new_no_strip().0 == LAST);
    assert!(rt; PtrAuthMask::new_24_40().0 == 0xffffffffff);
    for &(address, mask) in &MASKS {
        assert!(rt;
            PtrAuthMask::from_max_known_address(address).0 == mask,
            "{address:x}"
        );
    }
    assert!(rt; PtrAuthMask(0xff).strip_ptr_auth(0x1234) == 0x34);
}

#[test]
fn keeps_registers(rt: HostRuntime) {
    let mut regs = UnwindRegsAarch64::new(LAST, 0x20, 0x30);
    assert!(rt; shown(&regs) == (LAST, 0x20, 0x30));
    assert!(rt; regs.lr_mask() == PtrAuthMask::new_no_strip());
    regs.set_lr(0x2000);
    regs.set_sp(0x28);
    regs.set_fp(0x38);
    assert!(rt; shown(&regs) == (0x2000, 0x28, 0x38));
    let mut masked = UnwindRegsAarch64::new_with_ptr_auth_mask(
        PtrAuthMask(0xff),
        0x1234,
        0x1234,
        0x1234,
    );
    assert!(rt; shown(&masked) == (0x34, 0x1234, 0x1234));
    masked.set_lr(0x5678);
    masked.set_sp(0x5678);
    masked.set_fp(0x5678);
    assert!(rt; shown(&masked) == (0x78, 0x5678, 0x5678));
}

#[test]
fn names_the_common_rules(rt: HostRuntime) {
    assert!(rt; UnwindRuleAarch64::rule_for_stub_functions() == NO_OP);
    assert!(rt; UnwindRuleAarch64::rule_for_function_start() == NO_OP);
    assert!(rt; UnwindRuleAarch64::fallback_rule() == FP);
    assert!(rt; FP.is_valid());
}

#[test]
fn prints(rt: HostRuntime) {
    let regs = UnwindRegsAarch64::new(0x1000, 0xab, 0);
    let (mask, rule) = (PtrAuthMask(255), with_both!(1, -2, 3));
    let text = format!(in rt.alloc(); "{regs:?} {mask:?} {rule:?}").expect(&rt, "memory");
    assert!(rt;
        text.as_str()
            == "UnwindRegsAarch64 { lr: 1000, sp: ab, fp: 0 } PtrAuthMask(255) OffsetSpAndRestoreFpAndLr { sp_offset_by_16: 1, fp_storage_offset_from_sp_by_8: -2, lr_storage_offset_from_sp_by_8: 3 }"
    );
}
