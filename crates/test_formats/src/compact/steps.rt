//! Steps in the worked function.

use crate::compact::worked::{assert_caller, assert_step};
use framehop_compact::{CompactUnwindInfoUnwinderError, CuiUnwindResult};

const FRAME_POINTER: u32 = 0x0100_0000;

/// An encoding; an address, and whether it is a first frame's; the stack pointer and RBP; and the caller with its stack pointer and RBP.
type Caller = (u32, (u32, bool), (u64, u64), (u64, u64, u64));

static CALLERS: [Caller; 7] = [
    // a prologue comes before the encoding
    (
        FRAME_POINTER,
        (0x1001, true),
        (0x20, 0x20),
        (0x100200, 0x30, 0x20),
    ),
    (
        FRAME_POINTER,
        (0x1001, false),
        (0x20, 0x40),
        (0x100100, 0x50, 0x70),
    ),
    // saved registers are where their permutation says
    (
        0x0203_0405,
        (0x1005, false),
        (0x38, 0x20),
        (0x100100, 0x50, 0x70),
    ),
    (
        0x0204_0819,
        (0x1005, false),
        (0x30, 0x20),
        (0x100100, 0x50, 0x6),
    ),
    (
        0x0204_0804,
        (0x1005, false),
        (0x30, 0x20),
        (0x100100, 0x50, 0x70),
    ),
    (
        0x0207_16cf,
        (0x1005, false),
        (0x18, 0x20),
        (0x100100, 0x50, 0x40),
    ),
    (
        0x0208_1800,
        (0x1005, false),
        (0x10, 0x20),
        (0x100100, 0x50, 0x70),
    ),
];

/// A permutation without a list is refused, and call frames are named by their offset.
#[test]
fn steps_in_a_function(rt: HostRuntime) {
    for &(encoding, frame, registers, caller) in &CALLERS {
        assert_caller(&rt, encoding, frame, registers, caller);
    }
    let refusal = CompactUnwindInfoUnwinderError::InvalidFrameless;
    assert_step(&rt, 0x0208_1ad0, (0x1005, false), Err(refusal));
    let needs = CuiUnwindResult::NeedDwarf(0x14);
    assert_step(&rt, 0x0400_0014, (0x1000, false), Ok(needs));
}
