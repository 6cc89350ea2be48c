//! Stacks of threads that called an address without code.

use crate::cores::{Place, core_with, stacks};
use crate::program::program;
use crate::stacks::expect_stacks;
use backtrace_json::TextForm;
use backtrace_text::FunctionNames;
use backtrace_walks::{BacktraceOptions, FrameOptions};
use std::alloc::Global;
use std::process::Abort;
use std::test::Fail;

// The threads' places, a word of the stacks by its number, and the text.
type Case = (Place, Place, (usize, u64), &'static str);

static CASES: [Case; 3] = [
    // Thread 7 called a null pointer, and a signal interrupted thread 9 where it had done so.
    (
        (0x7020, 0, 0x7010),
        (0x7120, 0x10_1500, 0x7128),
        (59, 0),
        "Thread 7:
#0  0x0000000000000000 in ??
#1  0x0000000000101200 in ?? from /program+0x1200
#2  0x0000000000101300 in ?? from /program+0x1300
#3  0x0000000000101400 in ?? from /program+0x1400
Thread 9:
#0  0x0000000000101500 in ?? from /program+0x1500
#1  <signal handler called>
#2  0x0000000000000000 in ??
#3  0x0000000000101700 in ?? from /program+0x1700
",
    ),
    // Data was called, and an address without memory was a handler. Code without call frames, where a signal interrupted it, has its
    // return address at the stack pointer.
    (
        (0x7020, 0x7048, 0x7010),
        (0x7120, 0x1234_5678, 0x7128),
        (0, 0),
        "Thread 7:
#0  0x0000000000007048 in ??
#1  0x0000000000101200 in ?? from /program+0x1200
#2  0x0000000000101300 in ?? from /program+0x1300
#3  0x0000000000101400 in ?? from /program+0x1400
Thread 9:
#0  0x0000000012345678 in ??
#1  <signal handler called>
#2  0x0000000000101600 in ?? from /program+0x1600
#3  0x0000000000101700 in ?? from /program+0x1700
",
    ),
    // The word at the stack pointer is no address of code, or isn't there: the frame pointer says the caller.
    (
        (0x7020, 0, 0x7018),
        (0x7020, 0, 0x8000),
        (3, 0x7010),
        "Thread 7:
#0  0x0000000000000000 in ??
#1  0x0000000000101300 in ?? from /program+0x1300
#2  0x0000000000101400 in ?? from /program+0x1400
Thread 9:
#0  0x0000000000000000 in ??
Backtrace stopped: frame pointer unwinding moved backwards
",
    ),
];

const OPTIONS: BacktraceOptions = BacktraceOptions {
    thread: None,
    limit: 16,
    frames: FrameOptions {
        registers: false,
        names: FunctionNames::Raw,
    },
    form: TextForm::Lines,
};

fn expect(rt: &impl Abort, alloc: Global, case: &Case) -> Result<(), Fail> {
    let (first, second, (number, word), text) = case;
    let mut words = stacks();
    words[96] = 0x10_1700;
    words[*number % 100] = *word;
    let bytes = core_with(alloc, *first, *second, &words)?;
    let file = program(alloc)?;
    expect_stacks(rt, alloc, &bytes, Some(file.as_slice()), &OPTIONS, text)
}

#[test]
fn of_addresses_without_code(rt: HostRuntime) -> Result<(), Fail> {
    for case in &CASES {
        expect(&rt, rt.alloc(), case)?;
    }
    Ok(())
}
