//! Signed return addresses on aarch64.

use crate::cores::core_aarch64;
use crate::stacks::expect_stacks;
use backtrace_json::TextForm;
use backtrace_text::FunctionNames;
use backtrace_walks::{BacktraceOptions, FrameOptions};
use std::test::Fail;

const STRIPPED: &str = "Thread 7:
#0  0x0000000000101500 in ?? from /program+0x1500
    sp 0x0000000000007010 x29 0x0000000000007020 x30 0x0000000000101510
#1  0x0000000000101300 in ?? from /program+0x1300
    sp 0x0000000000007030 x29 0x0000000000007040 x30 0x0000000000101300
";

const SIGNED: &str = "Thread 7:
#0  0x0000000000101500 in ?? from /program+0x1500
    sp 0x0000000000007010 x29 0x0000000000007020 x30 0x0000000000101510
#1  0x002b000000101300 in ??
    sp 0x0000000000007030 x29 0x0000000000007040 x30 0x002b000000101300
";

const OPTIONS: BacktraceOptions = BacktraceOptions {
    thread: None,
    limit: 16,
    frames: FrameOptions {
        registers: true,
        names: FunctionNames::Demangled,
    },
    form: TextForm::Lines,
};

/// The types of the notes with the masks, NT_ARM_PAC_MASK and one that isn't read, and the text.
static MASKS: [(u32, &str); 2] = [(0x406, STRIPPED), (0x4ff, SIGNED)];

#[test]
fn by_the_masks_of_the_core(rt: HostRuntime) -> Result<(), Fail> {
    for &(masks, text) in &MASKS {
        let bytes = core_aarch64(rt.alloc(), masks)?;
        expect_stacks(&rt, rt.alloc(), &bytes, None, &OPTIONS, text)?;
    }
    Ok(())
}
