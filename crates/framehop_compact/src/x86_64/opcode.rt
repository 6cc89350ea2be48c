//! What an encoding of x86_64 says.

ghost use Rattle.std.specs.Prelude.{◌≡◌};
ghost use Rattle.framehop_compact.specs.Opcodes.{opcode_of, frameless, immediate, indirect};

use crate::x86_64::saved_registers::saved_after_bp;

/// What the encoding of a function of x86_64 says of its body, by its kind (`UNWIND_X86_64_MODE_MASK`).
#[derive(Clone, Copy, Debug, PartialEq, Eq)]
pub enum OpcodeX86_64 {
    /// Nothing.
    Null,
    /// RBP points at the caller's RBP, and above it is the return address.
    FrameBased,
    /// The function moves the stack pointer by a size that the encoding has.
    FramelessImmediate {
        /// The stack size in words of 8 bytes.
        stack_size_by_8: u8,
        /// How many registers are saved after RBP, if RBP is saved.
        saved_after_bp: Option<u8>,
    },
    /// It moves the stack pointer by a size that its code has.
    FramelessIndirect {
        /// Where in the function the size is, a number of 32 bits in bytes.
        immediate_offset_from_function_start: u8,
        /// What is added to it, in bytes.
        stack_adjust_in_bytes: u8,
        /// How many registers are saved after RBP, if RBP is saved.
        saved_after_bp: Option<u8>,
    },
    /// The call frame information says it.
    Dwarf {
        /// The offset of the function's entry in `__eh_frame`.
        eh_frame_fde: u32,
    },
    /// As many saved registers have no list with the number of their permutation.
    InvalidFrameless,
    /// No kind of x86_64.
    UnrecognizedKind(u8),
}

// A function that moves the stack pointer by a size in the encoding.
fn immediate(opcode: u32, saved_after_bp: Option<u8>) -> OpcodeX86_64
    ensures { result ≡ immediate opcode saved_after_bp }
{
    OpcodeX86_64::FramelessImmediate {
        stack_size_by_8: ((opcode >> 16) % 256) as u8,
        saved_after_bp,
    }
}

// One that moves it by a size in its code.
fn indirect(opcode: u32, saved_after_bp: Option<u8>) -> OpcodeX86_64
    ensures { result ≡ indirect opcode saved_after_bp }
{
    OpcodeX86_64::FramelessIndirect {
        immediate_offset_from_function_start: ((opcode >> 16) % 256) as u8,
        stack_adjust_in_bytes: (8 * ((opcode >> 13) % 8)) as u8,
        saved_after_bp,
    }
}

// One of these two kinds.
fn frameless(opcode: u32, is_indirect: bool) -> OpcodeX86_64
    ensures { result ≡ frameless opcode is_indirect }
{
    let count = (opcode >> 10) % 8;
    let Some(saved) = saved_after_bp(count as u8, (opcode % 1024) as u16) else {
        return OpcodeX86_64::InvalidFrameless;
    };
    if is_indirect {
        indirect(opcode, saved)
    } else {
        immediate(opcode, saved)
    }
}

impl OpcodeX86_64 {
    /// What an encoding says.
    pub fn parse(opcode: u32) -> OpcodeX86_64
        ensures { result ≡ opcode_of opcode }
    {
        // Not by a table of jumps, whose targets processors foresee less well.
        let kind = (opcode >> 24) % 16;
        if kind < 2 {
            if kind == 0 {
                OpcodeX86_64::Null
            } else {
                OpcodeX86_64::FrameBased
            }
        } else if kind < 4 {
            frameless(opcode, kind == 3)
        } else if kind == 4 {
            OpcodeX86_64::Dwarf {
                eh_frame_fde: opcode % 0x100_0000,
            }
        } else {
            OpcodeX86_64::UnrecognizedKind(kind as u8)
        }
    }
}
