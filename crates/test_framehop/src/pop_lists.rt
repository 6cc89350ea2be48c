//! Lists of registers that are popped, their numbers, and the rules that pop them.
use crate::worked::word_at;
use framehop_rules::x86_64::{
    OffsetOrPop, Reg, UnwindRegsX86_64, UnwindRuleX86_64, decode, encode,
};
use framehop_rules::{Error, UnwindRule};
use std::alloc::{AllocError, Global};

const LAST: u64 = u64::MAX - 7;

const RBP: OffsetOrPop = OffsetOrPop::Pop(Reg::RBP);

/// The callee-saved registers, in another order than that in which lists are numbered.
const SAVED: [Reg; 8] = [
    Reg::R15,
    Reg::RSI,
    Reg::RBX,
    Reg::R13,
    Reg::RBP,
    Reg::R12,
    Reg::R14,
    Reg::RDI,
];

// The rule that pops a list, from this number of words above SP on.
macro_rules! pops {
    ($words:expr, ($count:expr, $number:expr)) => {
        UnwindRuleX86_64::OffsetSpAndPopRegisters {
            sp_offset_by_8: $words,
            register_count: $count,
            encoded_registers_to_pop: $number,
        }
    };
}

/// So many of these registers, each at most once: another list for each number.
fn list_at(alloc: Global, count: usize, mut number: usize) -> Result<Vec<Reg>, AllocError> {
    let mut rest = SAVED.to_vec(alloc)?;
    let mut list = Vec::new(alloc);
    for _ in 0..count {
        let choices = rest.len();
        if choices == 0 {
            break;
        }
        list.push(rest.remove(number % choices))?;
        number /= choices;
    }
    Ok(list)
}

/// The number of a list, if it gives the list back.
fn number_of(list: &[Reg]) -> Option<u16> {
    let (length, number) = encode(list)?;
    let is_given_back = usize::from(length) == list.len()
        && decode(length, number).as_slice() == list;
    is_given_back.then_some(number)
}

/// How many of so many lists of a length have a number of their own that gives the list back.
fn numbered(alloc: Global, length: usize, lists: u32) -> Result<u32, AllocError> {
    let mut seen = vec![in alloc; false; 40320]?;
    let mut count = 0u32;
    for index in 0..lists {
        let list = list_at(alloc, length, index as usize)?;
        let Some(number) = number_of(list.as_slice()) else {
            continue;
        };
        let place = usize::from(number);
        if place < seen.len() && !seen[place] {
            seen[place] = true;
            count = count.wrapping_add(1);
        }
    }
    Ok(count)
}

/// How many lists there are of each length.
static LISTS: [u32; 9] = [1, 8, 56, 336, 1680, 6720, 20160, 40320, 40320];

/// How many lists there are, if each has a number of its own among those of its length, which
/// gives the list back.
fn numbered_of_all_lengths(alloc: Global) -> Result<Option<u32>, AllocError> {
    let mut all = 0u32;
    for (length, &lists) in LISTS.iter().enumerate() {
        if numbered(alloc, length, lists)? != lists {
            return Ok(None);
        }
        all = all.wrapping_add(lists);
    }
    Ok(Some(all))
}

#[test]
fn numbers_every_list(rt: HostRuntime) {
    let numbered = numbered_of_all_lengths(rt.alloc()).expect(&rt, "memory");
    assert!(rt; numbered == Some(109601));
}

/// Lists with their lengths and numbers, and lists that have none.
static NUMBERED: [(&[Reg], Option<(u8, u16)>); 11] = [
    (&[], Some((0, 0))),
    (&[Reg::RBP], Some((1, 1))),
    (&[Reg::R15, Reg::RBX], Some((2, 55))),
    (&[Reg::RBX, Reg::RBP, Reg::R12], Some((3, 112))),
    (
        &[
            Reg::RBX,
            Reg::RBP,
            Reg::RDI,
            Reg::RSI,
            Reg::R12,
            Reg::R13,
            Reg::R14,
            Reg::R15,
        ],
        Some((8, 0)),
    ),
    (
        &[
            Reg::R15,
            Reg::RBX,
            Reg::RBP,
            Reg::RDI,
            Reg::RSI,
            Reg::R12,
            Reg::R13,
            Reg::R14,
        ],
        Some((8, 40319)),
    ),
    (&[Reg::RAX], None),
    (&[Reg::RSP], None),
    (&[Reg::RBX, Reg::R11], None),
    (&[Reg::RSI, Reg::RSI], None),
    (&[Reg::R12, Reg::RBX, Reg::R12], None),
];

#[test]
fn numbers_lists(rt: HostRuntime) {
    for &(list, pops) in &NUMBERED {
        assert!(rt; encode(list) == pops, "{list:?}");
        assert!(rt; number_of(list).is_some() == pops.is_some(), "{list:?}");
    }
}

static VALID: [(UnwindRuleX86_64, bool); 5] = [
    (pops!(u16::MAX, (0, 0)), true),
    (pops!(0, (8, 40319)), true),
    (pops!(0, (8, 40320)), false),
    (pops!(0, (9, 0)), false),
    (UnwindRuleX86_64::EndOfStack, true),
];

#[test]
fn knows_valid_rules(rt: HostRuntime) {
    for &(rule, is_valid) in &VALID {
        assert!(rt; rule.is_valid() == is_valid, "{rule:?}");
    }
}

/// Registers of which each has a value of its own.
fn full_registers(sp: u64) -> UnwindRegsX86_64 {
    let mut regs = UnwindRegsX86_64::new(0x101000, sp, 0xb0);
    for reg in SAVED {
        if reg != Reg::RBP {
            regs.set(reg, 0xf0 | reg as u64);
        }
    }
    regs.set(Reg::RAX, 0xa0);
    regs
}

/// What a step gives, and the registers after it.
type Popped = (Result<Option<u64>, Error>, UnwindRegsX86_64);

/// A word of a stack whose words are all 1.
fn one_at(_address: u64) -> Result<u64, ()> {
    Ok(1)
}

/// One step over a stack. By a rule that isn't valid there is none.
fn pop<F: FnMut(u64) -> Result<u64, ()>>(
    rule: UnwindRuleX86_64,
    sp: u64,
    read_stack: &mut F,
) -> Option<Popped>
    requires { F.IsAlwaysCallable read_stack.old }
{
    if !rule.is_valid() {
        return None;
    }
    let mut regs = full_registers(sp);
    let given = rule.exec(true, &mut regs, read_stack);
    Some((given, regs))
}

/// One step over the worked stack, or over one whose words are all 1.
fn pop_from(rule: UnwindRuleX86_64, sp: u64, is_all_ones: bool) -> Option<Popped> {
    if is_all_ones {
        let mut read_stack = one_at;
        pop(rule, sp, &mut read_stack)
    } else {
        let mut read_stack = word_at;
        pop(rule, sp, &mut read_stack)
    }
}

static POPPED: [(UnwindRuleX86_64, u64, &[(Reg, u64)], u64, u64); 4] = [
    (pops!(1, (0, 0)), 0x8, &[], 0x100300, 0x18),
    (pops!(0, (1, 1)), 0x20, &[(Reg::RBP, 0x40)], 0x100200, 0x30),
    (
        pops!(0, (2, 55)),
        0x0,
        &[(Reg::R15, 1), (Reg::RBX, 2)],
        0x100300,
        0x18,
    ),
    (
        pops!(1, (3, 112)),
        0x28,
        &[(Reg::RBX, 5), (Reg::RBP, 6), (Reg::R12, 0x70)],
        0x100100,
        0x50,
    ),
];

/// Each register takes its word, the return address is above them, and all other registers stay.
#[test]
fn pops_registers(rt: HostRuntime) {
    for &(rule, sp, values, return_address, new_sp) in &POPPED {
        let mut after = full_registers(new_sp);
        after.set_ip(return_address);
        for &(reg, value) in values {
            after.set(reg, value);
        }
        let popped = pop_from(rule, sp, false);
        assert!(rt;
            popped == Some((Ok(Some(return_address)), after)),
            "{rule:?} at {sp:x}"
        );
    }
}

static KEPT: [(UnwindRuleX86_64, u64, bool, Result<Option<u64>, Error>); 8] = [
    (pops!(1, (2, 55)), 0x58, false, Ok(None)),
    (
        pops!(0, (3, 112)),
        0x68,
        false,
        Err(Error::CouldNotReadStack(0x80)),
    ),
    (
        pops!(1, (3, 112)),
        0x68,
        false,
        Err(Error::CouldNotReadStack(0x80)),
    ),
    (pops!(1, (0, 0)), LAST, true, Err(Error::IntegerOverflow)),
    (
        pops!(0, (1, 1)),
        LAST,
        false,
        Err(Error::CouldNotReadStack(LAST)),
    ),
    (pops!(0, (1, 1)), LAST, true, Err(Error::IntegerOverflow)),
    (
        pops!(0, (1, 1)),
        LAST - 8,
        true,
        Err(Error::IntegerOverflow),
    ),
    (
        pops!(0, (2, 55)),
        LAST - 16,
        true,
        Err(Error::IntegerOverflow),
    ),
];

/// If there is no caller all registers stay, also those that were read before.
#[test]
fn keeps_registers_that_it_popped(rt: HostRuntime) {
    for &(rule, sp, is_all_ones, answer) in &KEPT {
        let popped = pop_from(rule, sp, is_all_ones);
        assert!(rt;
            popped == Some((answer, full_registers(sp))),
            "{rule:?} at {sp:x}"
        );
    }
}

/// An operation of a function's start, last one first.
#[derive(Clone, Copy)]
enum Started {
    Pushed(Reg),
    Lowered(u16),
}

impl From<Started> for OffsetOrPop {
    fn from(operation: Started) -> OffsetOrPop {
        match operation {
            Started::Pushed(register) => OffsetOrPop::Pop(register),
            Started::Lowered(words) => OffsetOrPop::OffsetBy8(words),
        }
    }
}

static SEQUENCES: [(&[OffsetOrPop], Option<UnwindRuleX86_64>); 12] = [
    (&[], Some(UnwindRuleX86_64::JustReturn)),
    (
        &[OffsetOrPop::OffsetBy8(0)],
        Some(UnwindRuleX86_64::JustReturn),
    ),
    (&[OffsetOrPop::OffsetBy8(3)], Some(pops!(3, (0, 0)))),
    (&[OffsetOrPop::OffsetBy8(0), RBP], Some(pops!(0, (1, 1)))),
    (
        &[OffsetOrPop::Pop(Reg::R15), OffsetOrPop::Pop(Reg::RBX)],
        Some(pops!(0, (2, 55))),
    ),
    (&[RBP, OffsetOrPop::OffsetBy8(1)], None),
    (
        &[OffsetOrPop::OffsetBy8(0), OffsetOrPop::OffsetBy8(1)],
        None,
    ),
    (&[OffsetOrPop::None], None),
    (&[RBP, OffsetOrPop::None], None),
    (&[OffsetOrPop::Pop(Reg::RAX)], None),
    (&[RBP, RBP], None),
    (&[RBP; 9], None),
];

#[test]
fn has_rules_for_sequences(rt: HostRuntime) {
    for &(operations, rule) in &SEQUENCES {
        let found = UnwindRuleX86_64::for_sequence_of_offset_or_pop(operations.iter().copied());
        assert!(rt; found == rule, "{operations:?}");
    }
    let started = [Started::Lowered(2), Started::Pushed(Reg::RBP)];
    assert!(rt;
        UnwindRuleX86_64::for_sequence_of_offset_or_pop(started.iter().copied())
            == Some(pops!(2, (1, 1)))
    );
}

#[test]
fn prints_lists(rt: HostRuntime) {
    let text = format!(in rt.alloc(); "{:?}", decode(2, 55)).expect(&rt, "memory");
    assert!(rt; text.as_str() == "[R15, RBX]");
}
