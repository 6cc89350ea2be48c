//! The text of a core's threads.

use crate::cores::core_x86_64;
use crate::program::program;
use crate::stacks::expect_stacks;
use backtrace_json::TextForm;
use backtrace_text::FunctionNames;
use backtrace_walks::{BacktraceOptions, FrameOptions};
use std::alloc::Global;
use std::process::Abort;
use std::test::Fail;

// All threads, up to a limit of frames.
const ALL: BacktraceOptions = BacktraceOptions {
    thread: None,
    limit: 16,
    frames: FrameOptions {
        registers: false,
        names: FunctionNames::Demangled,
    },
    form: TextForm::Lines,
};

const WHOLE: &str = "Thread 7:
#0  0x0000000000101000 in leaf+0x0 from /program+0x1000
#1  0x0000000000101200 in ?? from /program+0x1200
#2  0x0000000000101300 in ?? from /program+0x1300
#3  0x0000000000101400 in ?? from /program+0x1400
Thread 9:
#0  0x0000000000101500 in ?? from /program+0x1500
#1  <signal handler called>
#2  0x0000000000101600 in ?? from /program+0x1600
";

const ONE_THREAD: &str = "Thread 9:
#0  0x0000000000101500 in ?? from /program+0x1500
    rip 0x0000000000101500 rsp 0x0000000000007128 rbp 0x0000000000007120
#1  <signal handler called>
    rip 0x0000000000200000 rsp 0x0000000000007130 rbp 0x0000000000007120
#2  0x0000000000101600 in ?? from /program+0x1600
    rip 0x0000000000101600 rsp 0x0000000000007300 rbp 0x0000000000007310
";

const TWO_FRAMES: &str = "Thread 7:
#0  0x0000000000101000 in leaf+0x0 from /program+0x1000
#1  0x0000000000101200 in ?? from /program+0x1200
Backtrace stopped: limit reached
Thread 9:
#0  0x0000000000101500 in ?? from /program+0x1500
#1  <signal handler called>
Backtrace stopped: limit reached
";

// The same as a document.
const DOCUMENT: &str = "{\"command\":null,\"signal\":null,\"threads\":[\
    {\"id\":7,\"name\":null,\"got_signal\":false,\"frames\":[\
    {\"address\":\"0x101000\",\"function\":\"leaf\",\"offset\":0,\"file\":\"/program\",\"file_offset\":4096,\"registers\":null},\
    {\"address\":\"0x101200\",\"function\":null,\"offset\":null,\"file\":\"/program\",\"file_offset\":4608,\"registers\":null}\
    ],\"stopped\":\"limit reached\"},\
    {\"id\":9,\"name\":null,\"got_signal\":false,\"frames\":[\
    {\"address\":\"0x101500\",\"function\":null,\"offset\":null,\"file\":\"/program\",\"file_offset\":5376,\"registers\":null},\
    {\"address\":null,\"function\":null,\"offset\":null,\"file\":null,\"file_offset\":null,\"registers\":null}\
    ],\"stopped\":\"limit reached\"}]}\n";

// Without its call frames the first thread's stack is walked by frame pointers alone.
const WITHOUT_FILE: &str = "Thread 7:
#0  0x0000000000101000 in ?? from /program+0x1000
#1  0x0000000000101300 in ?? from /program+0x1300
#2  0x0000000000101400 in ?? from /program+0x1400
";

// The text of the core is this one, by these bytes of its file.
fn expect(
    rt: &impl Abort,
    alloc: Global,
    bytes: Option<&[u8]>,
    options: &BacktraceOptions,
    expected: &str,
) -> Result<(), Fail> {
    let core = core_x86_64(alloc)?;
    expect_stacks(rt, alloc, &core, bytes, options, expected)
}

// One thread alone.
fn of_thread(id: u64) -> BacktraceOptions {
    BacktraceOptions {
        thread: Some(id),
        ..ALL
    }
}

#[test]
fn of_threads_and_frames_that_are_asked_for(rt: HostRuntime) -> Result<(), Fail> {
    let file = program(rt.alloc())?;
    let known = Some(file.as_slice());
    expect(&rt, rt.alloc(), known, &ALL, WHOLE)?;
    let registers = BacktraceOptions {
        frames: FrameOptions {
            registers: true,
            names: FunctionNames::Raw,
        },
        ..of_thread(9)
    };
    expect(&rt, rt.alloc(), known, &registers, ONE_THREAD)?;
    expect(&rt, rt.alloc(), known, &of_thread(8), "")?;
    let two = BacktraceOptions { limit: 2, ..ALL };
    expect(&rt, rt.alloc(), known, &two, TWO_FRAMES)?;
    let document = BacktraceOptions {
        form: TextForm::Json,
        ..two
    };
    expect(&rt, rt.alloc(), known, &document, DOCUMENT)
}

#[test]
fn without_the_file(rt: HostRuntime) -> Result<(), Fail> {
    let options = of_thread(7);
    expect(&rt, rt.alloc(), None, &options, WITHOUT_FILE)?;
    expect(&rt, rt.alloc(), Some(b"text"), &options, WITHOUT_FILE)
}
