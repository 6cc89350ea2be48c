//! What encodings say.

use crate::compact::worked::Answer;
use framehop_compact::aarch64::{ArchAarch64, UnwindRuleAarch64};
use framehop_compact::x86_64::{ArchX86_64, UnwindRuleX86_64};
use framehop_compact::{
    CompactUnwindInfoUnwinderError, CompactUnwindInfoUnwinding, CuiUnwindResult, Function,
};

/// A function of 16 bytes with an encoding.
fn function_with(opcode: u32) -> Function {
    Function {
        start_address: 0x1000,
        end_address: 0x1010,
        opcode,
    }
}

/// The step at an offset of a function with an encoding, in whose code it is if there is some.
fn step<A: CompactUnwindInfoUnwinding>(
    opcode: u32,
    is_first_frame: bool,
    offset: usize,
    bytes: Option<&[u8]>,
) -> Result<CuiUnwindResult<A::UnwindRule>, CompactUnwindInfoUnwinderError> {
    if let Some(bytes) = bytes {
        if bytes.len() < offset {
            return Ok(CuiUnwindResult::NeedDwarf(0));
        }
    }
    A::unwind_frame(function_with(opcode), is_first_frame, offset, bytes)
}

const FRAME: Answer = Ok(CuiUnwindResult::ExecRule(UnwindRuleX86_64::UseFramePointer));

const RETURN: Answer = Ok(CuiUnwindResult::ExecRule(UnwindRuleX86_64::JustReturn));

// The rule where so many words are above the stack pointer.
macro_rules! words {
    ($words:expr) => {
        Ok(CuiUnwindResult::ExecRule(UnwindRuleX86_64::OffsetSp {
            sp_offset_by_8: $words,
        }))
    };
}

// The same, and RBP is stored so many words above it.
macro_rules! words_with_bp {
    ($words:expr, $bp:expr) => {
        Ok(CuiUnwindResult::ExecRule(UnwindRuleX86_64::OffsetSpAndRestoreBp {
            sp_offset_by_8: $words,
            bp_storage_offset_from_sp_by_8: $bp,
        }))
    };
}

/// Encodings of x86_64, the number in the code from its fourth byte on if there is code, and what the step of a later frame in the middle
/// of such a function says.
static LATER: [(u32, Option<u32>, Answer); 27] = [
    (0x0100_0000, None, FRAME),
    (0xf101_0001, None, FRAME),
    (0x0200_0000, None, words!(0)),
    (0x0201_0000, None, RETURN),
    (0x0201_0405, None, RETURN),
    (0x0204_0000, None, words!(4)),
    (0x0204_03ff, None, words!(4)),
    (0x0204_0400, None, words!(4)),
    (0x02ff_0405, None, words_with_bp!(255, 253)),
    (0x0200_0405, None, words_with_bp!(0, -2)),
    (0x0412_3456, None, Ok(CuiUnwindResult::NeedDwarf(0x12_3456))),
    (
        0x0000_0000,
        None,
        Err(CompactUnwindInfoUnwinderError::FunctionHasNoInfo),
    ),
    (
        0x0204_1c00,
        None,
        Err(CompactUnwindInfoUnwinderError::InvalidFrameless),
    ),
    (
        0x0204_0406,
        None,
        Err(CompactUnwindInfoUnwinderError::InvalidFrameless),
    ),
    (
        0x0300_0000,
        None,
        Err(CompactUnwindInfoUnwinderError::NoTextBytesToLookUpIndirectStackOffset),
    ),
    (
        0x0500_0000,
        None,
        Err(CompactUnwindInfoUnwinderError::BadOpcodeKind(5)),
    ),
    (
        0x0f00_0000,
        None,
        Err(CompactUnwindInfoUnwinderError::BadOpcodeKind(15)),
    ),
    // stack sizes in the code
    (0x0303_0000, Some(0x20), words!(4)),
    (0x0303_2000, Some(0x20), words!(5)),
    (0x0303_0000, Some(0x8), words!(1)),
    (0x0303_0000, Some(0x7_fff8), words!(65535)),
    (0x0303_0405, Some(0x20), words_with_bp!(4, 2)),
    (
        0x0305_0000,
        Some(0x20),
        Err(CompactUnwindInfoUnwinderError::IndirectStackOffsetOutOfBounds),
    ),
    (
        0x0303_0000,
        Some(0x1c),
        Err(CompactUnwindInfoUnwinderError::StackSizeDoesNotFit),
    ),
    (
        0x0303_0000,
        Some(0x8_0000),
        Err(CompactUnwindInfoUnwinderError::StackSizeDoesNotFit),
    ),
    (
        0x0303_2000,
        Some(0xffff_fff8),
        Err(CompactUnwindInfoUnwinderError::StackAdjustOverflow),
    ),
    (
        0x0303_0405,
        Some(0x7_fff8),
        Err(CompactUnwindInfoUnwinderError::BpOffsetDoesNotFit),
    ),
];

/// A function of 8 bytes with a number in its code.
fn code_with(size: u32) -> [u8; 8] {
    let bytes = size.to_le_bytes();
    [
        0x48, 0x81, 0xec, bytes[0], bytes[1], bytes[2], bytes[3], 0x90,
    ]
}

#[test]
fn encodings_of_later_frames(rt: HostRuntime) {
    for &(opcode, size, wanted) in &LATER {
        let code = code_with(size.unwrap_or(0));
        let bytes = if size.is_some() {
            Some(code.as_slice())
        } else {
            None
        };
        let found = step::<ArchX86_64>(opcode, false, 8, bytes);
        assert!(rt; found == wanted, "{opcode:x} {found:?}");
    }
}

/// The code of a function, and what a first frame behind its sixth byte says without unwind info.
static SETUPS: [(Option<&[u8]>, Answer); 3] = [
    (
        Some(&[0x55, 0x48, 0x89, 0xe5, 0x90, 0x90, 0x90, 0x90, 0x90, 0x90]),
        FRAME,
    ),
    (Some(&[0x90; 10]), RETURN),
    (None, RETURN),
];

#[test]
fn first_frames_without_info_go_by_the_frame_setup(rt: HostRuntime) {
    for &(bytes, wanted) in &SETUPS {
        let found = step::<ArchX86_64>(0, true, 6, bytes);
        assert!(rt; found == wanted, "{found:?}");
    }
}

/// What a step says on aarch64.
type AnswerAarch64 = Result<CuiUnwindResult<UnwindRuleAarch64>, CompactUnwindInfoUnwinderError>;

const NO_OP: AnswerAarch64 = Ok(CuiUnwindResult::ExecRule(UnwindRuleAarch64::NoOp));

const FRAME_AARCH64: AnswerAarch64 = Ok(CuiUnwindResult::ExecRule(
    UnwindRuleAarch64::UseFramePointer,
));

// The rule where so many pairs of words are above the stack pointer.
macro_rules! pairs {
    ($pairs:expr) => {
        Ok(CuiUnwindResult::ExecRule(UnwindRuleAarch64::OffsetSp {
            sp_offset_by_16: $pairs,
        }))
    };
}

/// sub sp, sp, #0x20; then the word of a return.
const CODE_AARCH64: [u8; 8] = [0xff, 0x83, 0x00, 0xd1, 0xc0, 0x03, 0x5f, 0xd6];

/// Encodings of aarch64, whether the frame is a first one, the code if there is some, and what the step behind its fourth byte says, or
/// without code that behind the eighth.
static STEPS_AARCH64: [(u32, bool, Option<&[u8]>, AnswerAarch64); 12] = [
    (0x0000_0000, true, None, NO_OP),
    (0x0200_0000, true, None, NO_OP),
    (0x0200_1000, true, None, pairs!(1)),
    (0x02ff_f000, true, None, pairs!(4095)),
    (0x0400_0011, true, None, FRAME_AARCH64),
    (
        0x0000_0000,
        false,
        None,
        Err(CompactUnwindInfoUnwinderError::FunctionHasNoInfo),
    ),
    (
        0x0100_0000,
        false,
        None,
        Err(CompactUnwindInfoUnwinderError::BadOpcodeKind(1)),
    ),
    (
        0x0200_1000,
        false,
        None,
        Err(CompactUnwindInfoUnwinderError::CallerCannotBeFrameless),
    ),
    (
        0x0300_0014,
        false,
        None,
        Ok(CuiUnwindResult::NeedDwarf(0x14)),
    ),
    (0x0400_0011, false, None, FRAME_AARCH64),
    // machine code comes first
    (0x0400_0000, true, Some(&CODE_AARCH64), NO_OP),
    (0x0400_0000, false, Some(&CODE_AARCH64), FRAME_AARCH64),
];

#[test]
fn encodings_of_aarch64(rt: HostRuntime) {
    for &(opcode, is_first_frame, bytes, wanted) in &STEPS_AARCH64 {
        let offset = if bytes.is_some() { 4 } else { 8 };
        let found = step::<ArchAarch64>(opcode, is_first_frame, offset, bytes);
        assert!(rt; found == wanted, "{opcode:x} {found:?}");
    }
}
