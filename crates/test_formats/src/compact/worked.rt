//! A file with one function, and a worked stack.

use framehop_compact::x86_64::{ArchX86_64, UnwindRuleX86_64};
use framehop_compact::{
    CompactUnwindInfoUnwinder, CompactUnwindInfoUnwinderError, CuiUnwindResult, TextBytes,
};
use framehop_rules::UnwindRule;
use framehop_rules::x86_64::UnwindRegsX86_64;
use std::process::Abort;

/// `__unwind_info` with a function from 0x1000 to 0x1010 in a regular page. Its encoding is the last four bytes: it has a
/// frame pointer.
pub const TABLES: [u8; 68] = [
    1, 0, 0, 0, 0x1c, 0, 0, 0, 0, 0, 0, 0, 0x1c, 0, 0, 0, 0, 0, 0, 0, 0x1c, 0, 0, 0, 2, 0, 0, 0, 0,
    0x10, 0, 0, 0x34, 0, 0, 0, 0x34, 0, 0, 0, 0x10, 0x10, 0, 0, 0, 0, 0, 0, 0x34, 0, 0, 0, 2, 0, 0,
    0, 8, 0, 1, 0, 0, 0x10, 0, 0, 0, 0, 0, 1,
];

/// The same with another entry of the page before it, which starts at 0x8100.
const UNSORTED: [u8; 76] = [
    1, 0, 0, 0, 0x1c, 0, 0, 0, 0, 0, 0, 0, 0x1c, 0, 0, 0, 0, 0, 0, 0, 0x1c, 0, 0, 0, 2, 0, 0, 0, 0,
    0x10, 0, 0, 0x34, 0, 0, 0, 0x34, 0, 0, 0, 0x10, 0x10, 0, 0, 0, 0, 0, 0, 0x34, 0, 0, 0, 2, 0, 0,
    0, 8, 0, 2, 0, 0, 0x81, 0, 0, 0, 0, 0, 1, 0, 0x10, 0, 0, 0, 0, 0, 1,
];

/// Its code: push rbp; mov rbp, rsp; ten times nop; ret.
pub const TEXT: [u8; 16] = [
    0x55, 0x48, 0x89, 0xe5, 0x90, 0x90, 0x90, 0x90, 0x90, 0x90, 0x90, 0x90, 0x90, 0x90, 0x90, 0xc3,
];

/// Sixteen words of a stack, at addresses 0, 8, .. 0x78.
const WORDS: [u64; 16] = [
    0x1, 0x2, 0x100300, 0x4, 0x40, 0x100200, 0x5, 0x6, 0x70, 0x100100, 0x7, 0x8, 0x9, 0xa, 0x0, 0x0,
];

/// The word of that stack at an address.
fn word_at(address: u64) -> Result<u64, ()> {
    if address % 8 != 0 {
        return Err(());
    }
    WORDS.get((address / 8) as usize).copied().ok_or(())
}

/// What a step says on x86_64.
pub type Answer = Result<CuiUnwindResult<UnwindRuleX86_64>, CompactUnwindInfoUnwinderError>;

/// The tables with another encoding.
pub fn tables_with(encoding: u32) -> [u8; 68] {
    let mut tables = TABLES;
    let bytes = encoding.to_le_bytes();
    tables[64] = bytes[0];
    tables[65] = bytes[1];
    tables[66] = bytes[2];
    tables[67] = bytes[3];
    tables
}

/// The unsorted tables with another encoding.
fn unsorted_with(encoding: u32) -> [u8; 76] {
    let mut tables = UNSORTED;
    let bytes = encoding.to_le_bytes();
    tables[72] = bytes[0];
    tables[73] = bytes[1];
    tables[74] = bytes[2];
    tables[75] = bytes[3];
    tables
}

/// The step by tables that increase, by halving.
fn step_by_halving(tables: &[u8], (address, is_first_frame): (u32, bool)) -> Option<Answer> {
    if !CompactUnwindInfoUnwinder::<ArchX86_64>::is_increasing(tables) {
        return None;
    }
    let text = Some(TextBytes::new(0x1000, &TEXT));
    let unwinder = CompactUnwindInfoUnwinder::<ArchX86_64>::new_increasing(
        tables,
        text,
        (0, 0),
        (0, 0),
    );
    Some(unwinder.unwind_frame(address, is_first_frame))
}

/// The step by any tables.
fn step_by_passing(tables: &[u8], (address, is_first_frame): (u32, bool)) -> Answer {
    let text = Some(TextBytes::new(0x1000, &TEXT));
    let unwinder = CompactUnwindInfoUnwinder::<ArchX86_64>::new(tables, text, (0, 0), (0, 0));
    unwinder.unwind_frame(address, is_first_frame)
}

/// Asserts what a step says in the function with an encoding, in either table and either way.
pub fn assert_step(rt: &impl Abort, encoding: u32, frame: (u32, bool), answer: Answer) {
    let tables = tables_with(encoding);
    let unsorted = unsorted_with(encoding);
    assert!(rt; step_by_passing(&tables, frame) == answer, "{encoding:x}");
    assert!(rt; step_by_passing(&unsorted, frame) == answer, "{encoding:x}");
    assert!(rt;
        step_by_halving(&tables, frame) == Some(answer),
        "{encoding:x}"
    );
    assert!(rt; step_by_halving(&unsorted, frame).is_none(), "{encoding:x}");
}

/// Asserts the caller to which the rule of a step leads: the return address, the stack pointer and RBP.
pub fn assert_caller(
    rt: &impl Abort,
    encoding: u32,
    frame: (u32, bool),
    (sp, bp): (u64, u64),
    caller: (u64, u64, u64),
) {
    let answer = step_by_passing(&tables_with(encoding), frame);
    assert_step(rt, encoding, frame, answer);
    let mut regs = UnwindRegsX86_64::new(0x100000 + u64::from(frame.0), sp, bp);
    let mut read = word_at;
    match answer {
        Ok(CuiUnwindResult::ExecRule(rule)) => {
            assert!(rt; rule.is_valid(), "{rule:?}");
            let to = rule.exec(frame.1, &mut regs, &mut read);
            assert!(rt; to == Ok(Some(caller.0)), "{rule:?}");
        }
        Ok(CuiUnwindResult::NeedDwarf(offset)) => assert!(rt; false, "{offset:x}"),
        Err(e) => assert!(rt; false, "{e:?}"),
    }
    assert!(rt; (regs.ip(), regs.sp(), regs.bp()) == caller, "{regs:?}");
}
