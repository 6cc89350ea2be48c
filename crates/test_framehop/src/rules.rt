//! Single steps by each rule, the registers, the addresses of frames, and printed texts.
use crate::worked::word_at;
use framehop_rules::x86_64::{Reg, UnwindRegsX86_64, UnwindRuleX86_64};
use framehop_rules::{Error, FrameAddress, HexNum, UnwindRule};
use std::process::Abort;

/// The registers ip, sp and bp.
type Registers = (u64, u64, u64);

/// A frame of the worked stack.
const START: Registers = (0x101000, 0x10, 0x20);

/// The last address at which a word can stand.
const LAST: u64 = u64::MAX - 7;

const EITHER: UnwindRuleX86_64 = UnwindRuleX86_64::JustReturnIfFirstFrameOtherwiseFp;

// SP is higher by this number of words.
macro_rules! raised {
    ($words:expr) => {
        UnwindRuleX86_64::OffsetSp {
            sp_offset_by_8: $words,
        }
    };
}

// SP is higher by a number of words, and BP is stored a number of words above SP.
macro_rules! restored {
    ($words:expr, $bp:expr) => {
        UnwindRuleX86_64::OffsetSpAndRestoreBp {
            sp_offset_by_8: $words,
            bp_storage_offset_from_sp_by_8: $bp,
        }
    };
}

/// One step over the part of the worked stack from an address on: its result, and the registers
/// after it.
fn assert_step(
    rt: &impl Abort,
    rule: UnwindRuleX86_64,
    is_first_frame: bool,
    lowest: u64,
    (ip, sp, bp): Registers,
    answer: Result<Option<u64>, Error>,
    after: Registers,
) {
    let mut regs = UnwindRegsX86_64::new(ip, sp, bp);
    let mut read_stack = |address: u64| if address < lowest {
        Err(())
    } else {
        word_at(address)
    };
    assert!(rt; rule.is_valid(), "{rule:?}");
    assert!(rt;
        rule.exec(is_first_frame, &mut regs, &mut read_stack) == answer,
        "{rule:?} at {ip:x}, {sp:x}, {bp:x}"
    );
    assert!(rt;
        (regs.ip(), regs.sp(), regs.bp()) == after,
        "{rule:?} at {ip:x}, {sp:x}, {bp:x}"
    );
}

static CALLERS: [(UnwindRuleX86_64, bool, Registers, Registers); 11] = [
    (
        raised!(1),
        true,
        (0x100400, 0x10, 0x20),
        (0x100300, 0x18, 0x20),
    ),
    (
        UnwindRuleX86_64::UseFramePointer,
        true,
        (0x100300, 0x10, 0x20),
        (0x100200, 0x30, 0x40),
    ),
    (
        UnwindRuleX86_64::UseFramePointer,
        false,
        (0x100200, 0x30, 0x40),
        (0x100100, 0x50, 0x70),
    ),
    (
        UnwindRuleX86_64::JustReturn,
        true,
        START,
        (0x100300, 0x18, 0x20),
    ),
    (EITHER, true, START, (0x100300, 0x18, 0x20)),
    (EITHER, false, START, (0x100200, 0x30, 0x40)),
    (restored!(4, 2), true, START, (0x100200, 0x30, 0x40)),
    (EITHER, false, (1, 0, 0), (2, 0x10, 1)),
    (restored!(2, -2), false, START, (4, 0x20, 1)),
    (raised!(0), true, (1, 0x18, 2), (0x100300, 0x18, 2)),
    (raised!(0), true, (0x100200, 0x18, 2), (0x100300, 0x18, 2)),
];

static REFUSALS: [(
    UnwindRuleX86_64,
    bool,
    Registers,
    Result<Option<u64>, Error>,
); 24] = [
    (
        UnwindRuleX86_64::UseFramePointer,
        false,
        (0x100100, 0x50, 0x70),
        Ok(None),
    ),
    (UnwindRuleX86_64::EndOfStack, true, START, Ok(None)),
    (
        restored!(3, -2),
        true,
        (0x101000, 0x8, 0x20),
        Err(Error::IntegerOverflow),
    ),
    (
        UnwindRuleX86_64::JustReturn,
        true,
        (1, LAST, 2),
        Err(Error::IntegerOverflow),
    ),
    (raised!(0), true, (1, 0, 2), Err(Error::IntegerOverflow)),
    (raised!(0), true, (1, 7, 2), Err(Error::IntegerOverflow)),
    (
        restored!(0, 0),
        true,
        (1, 0, 2),
        Err(Error::IntegerOverflow),
    ),
    (
        restored!(0, 100),
        true,
        (1, 0, 2),
        Err(Error::CouldNotReadStack(0x320)),
    ),
    (raised!(1), true, (1, LAST, 2), Err(Error::IntegerOverflow)),
    (
        raised!(1),
        true,
        (1, LAST - 1, 2),
        Err(Error::CouldNotReadStack(LAST - 1)),
    ),
    (
        raised!(u16::MAX),
        true,
        (1, u64::MAX - 0x7fff7, 2),
        Err(Error::IntegerOverflow),
    ),
    (
        raised!(u16::MAX),
        true,
        (1, u64::MAX - 0x7fff8, 2),
        Err(Error::CouldNotReadStack(LAST - 1)),
    ),
    (
        restored!(0, i16::MIN),
        true,
        (1, 0x3ffff, 2),
        Err(Error::IntegerOverflow),
    ),
    (
        restored!(0, i16::MAX),
        false,
        (1, u64::MAX - 0x3fff7, 2),
        Err(Error::IntegerOverflow),
    ),
    (
        restored!(0, i16::MAX),
        true,
        (1, u64::MAX - 0x3fff8, 2),
        Err(Error::CouldNotReadStack(u64::MAX)),
    ),
    (
        UnwindRuleX86_64::UseFramePointer,
        true,
        (1, 0x10, u64::MAX - 15),
        Err(Error::IntegerOverflow),
    ),
    (
        UnwindRuleX86_64::UseFramePointer,
        true,
        (1, 0x10, u64::MAX - 16),
        Err(Error::CouldNotReadStack(u64::MAX - 16)),
    ),
    (
        UnwindRuleX86_64::UseFramePointer,
        true,
        (1, 0x10, 0),
        Ok(None),
    ),
    (
        EITHER,
        false,
        (1, 0x10, 0),
        Err(Error::FramepointerUnwindingMovedBackwards),
    ),
    (EITHER, true, (1, LAST, 0x20), Err(Error::IntegerOverflow)),
    (
        raised!(0),
        true,
        (0x100300, 0x18, 2),
        Err(Error::DidNotAdvance),
    ),
    (
        UnwindRuleX86_64::JustReturn,
        true,
        (1, 0x80, 2),
        Err(Error::CouldNotReadStack(0x80)),
    ),
    (
        UnwindRuleX86_64::UseFramePointer,
        false,
        (1, 0x30, 0x20),
        Err(Error::FramepointerUnwindingMovedBackwards),
    ),
    (
        restored!(1, 100),
        true,
        (1, 0x10, 2),
        Err(Error::CouldNotReadStack(0x330)),
    ),
];

/// The first four callers are a walk, of which the last frame is the third. If there is no caller the registers stay. Below the stack
/// pointer of a first frame an unreadable word leaves RBP in its register.
#[test]
fn steps_by_rules(rt: HostRuntime) {
    for &(rule, is_first, before, after) in &CALLERS {
        assert_step(&rt, rule, is_first, 0, before, Ok(Some(after.0)), after);
    }
    for &(rule, is_first, before, answer) in &REFUSALS {
        assert_step(&rt, rule, is_first, 0, before, answer, before);
    }
    for (is_first, answer, after) in [
        (true, Ok(Some(0x100300)), (0x100300, 0x18, 0x20)),
        (false, Err(Error::CouldNotReadStack(0x8)), START),
    ] {
        assert_step(&rt, restored!(1, -1), is_first, 0x10, START, answer, after);
    }
}

#[test]
fn names_the_common_rules(rt: HostRuntime) {
    assert!(rt; UnwindRuleX86_64::rule_for_stub_functions() == UnwindRuleX86_64::JustReturn);
    assert!(rt; UnwindRuleX86_64::rule_for_function_start() == UnwindRuleX86_64::JustReturn);
    assert!(rt; UnwindRuleX86_64::fallback_rule() == UnwindRuleX86_64::UseFramePointer);
    assert!(rt; EITHER.is_valid());
}

#[test]
fn keeps_registers(rt: HostRuntime) {
    let mut regs = UnwindRegsX86_64::new(0x1000, 0x20, 0x30);
    assert!(rt; (regs.ip(), regs.sp(), regs.bp(), regs.get(Reg::R15)) == (0x1000, 0x20, 0x30, 0));
    regs.set_ip(0x2000);
    regs.set_sp(0x28);
    regs.set_bp(0x38);
    regs.set(Reg::R15, 0xff);
    assert!(rt;
        (
            regs.ip(),
            regs.get(Reg::RSP),
            regs.get(Reg::RBP),
            regs.get(Reg::R15)
        ) == (0x2000, 0x28, 0x38, 0xff)
    );
}

#[test]
fn takes_addresses(rt: HostRuntime) {
    let first = FrameAddress::from_instruction_pointer(0x1000);
    assert!(rt;
        (
            first.address(),
            first.address_for_lookup(),
            first.is_return_address()
        ) == (0x1000, 0x1000, false)
    );
    assert!(rt; FrameAddress::from_return_address(0) == None);
    let Some(later) = FrameAddress::from_return_address(0x1000) else {
        panic!(rt; "0x1000 is a return address");
    };
    assert!(rt;
        (
            later.address(),
            later.address_for_lookup(),
            later.is_return_address()
        ) == (0x1000, 0xfff, true)
    );
}

static TEXTS: [(Error, &str); 6] = [
    (
        Error::CouldNotReadStack(0x1f8),
        "Could not read stack memory at 0x1f8",
    ),
    (
        Error::FramepointerUnwindingMovedBackwards,
        "Frame pointer unwinding moved backwards",
    ),
    (
        Error::DidNotAdvance,
        "Neither the code address nor the stack pointer changed, would loop",
    ),
    (Error::IntegerOverflow, "Unwinding caused integer overflow"),
    (Error::ReturnAddressIsNull, "Return address is null"),
    (Error::OutOfMemory, "Out of memory"),
];

#[test]
fn prints(rt: HostRuntime) {
    for &(error, text) in &TEXTS {
        assert!(rt; error.to_string(rt.alloc()).expect(&rt, "memory").as_str() == text);
    }
    let mut regs = UnwindRegsX86_64::new(0x1000, 0x20, 0x30);
    regs.set(Reg::RAX, 0xa);
    regs.set(Reg::R15, 0xf);
    let text = format!(in rt.alloc(); "{:?} {regs:?}", HexNum(0xab12u64)).expect(&rt, "memory");
    assert!(rt;
        text.as_str()
            == "ab12 UnwindRegsX86_64 { ip: 1000, rax: a, rdx: 0, rcx: 0, rbx: 0, rsi: 0, rdi: 0, rbp: 30, rsp: 20, r8: 0, r9: 0, r10: 0, r11: 0, r12: 0, r13: 0, r14: 0, r15: f }"
    );
}
