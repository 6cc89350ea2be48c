//! What an encoding of aarch64 says.

ghost use Rattle.std.specs.Prelude.{◌≡◌};
ghost use Rattle.framehop_compact.specs.OpcodesAarch64.{opcode_of};

/// What the encoding of a function of aarch64 says of its body, by its kind (`UNWIND_ARM64_MODE_MASK`).
#[derive(Clone, Copy, Debug, PartialEq, Eq)]
pub enum OpcodeArm64 {
    /// Nothing.
    Null,
    /// The function has no frame record, and calls no other.
    Frameless {
        /// By how much it moves the stack pointer, in pairs of words of 8 bytes.
        stack_size_by_16: u16,
    },
    /// The call frame information says it.
    Dwarf {
        /// The offset of the function's entry in `__eh_frame`.
        eh_frame_fde: u32,
    },
    /// FP points at a frame record: the caller's FP, and above it the return address.
    FrameBased,
    /// No kind of aarch64.
    UnrecognizedKind(u8),
}

impl OpcodeArm64 {
    /// What an encoding says.
    #[inline(always)]
    pub fn parse(opcode: u32) -> OpcodeArm64
        ensures { result ≡ opcode_of opcode }
    {
        // Not by a table of jumps, whose targets processors foresee less well.
        let kind = (opcode >> 24) % 16;
        if kind < 2 {
            if kind == 0 {
                OpcodeArm64::Null
            } else {
                OpcodeArm64::UnrecognizedKind(1)
            }
        } else if kind < 4 {
            if kind == 2 {
                OpcodeArm64::Frameless {
                    stack_size_by_16: ((opcode >> 12) % 4096) as u16,
                }
            } else {
                OpcodeArm64::Dwarf {
                    eh_frame_fde: opcode % 0x100_0000,
                }
            }
        } else if kind == 4 {
            OpcodeArm64::FrameBased
        } else {
            OpcodeArm64::UnrecognizedKind(kind as u8)
        }
    }
}
