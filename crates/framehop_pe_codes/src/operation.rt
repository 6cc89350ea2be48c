//! What a prolog did, as unwind codes say it.

use framehop_registers::x86_64::Reg;

/// An operation of a prolog (Microsoft, "x64 exception handling", "Unwind operation code").
#[derive(Clone, Copy, Debug, PartialEq, Eq)]
pub enum UnwindOperation {
    /// UWOP_PUSH_NONVOL: a register was pushed.
    Push(Reg),
    /// UWOP_ALLOC_SMALL, UWOP_ALLOC_LARGE: the stack pointer went down by so many bytes.
    Allocate(u32),
    /// UWOP_SET_FPREG: the frame register was set to the stack pointer plus the frame offset.
    SetFrame,
    /// UWOP_SAVE_NONVOL, UWOP_SAVE_NONVOL_FAR: a register was saved, so many bytes above the base of the frame.
    Save(Reg, u32),
    /// UWOP_SAVE_XMM128, UWOP_SAVE_XMM128_FAR: a vector register was saved.
    SaveVector,
    /// UWOP_PUSH_MACHFRAME: the processor pushed a machine frame, after an error code if this is true.
    MachineFrame(bool),
}

/// An unwind code.
#[derive(Clone, Copy, Debug, PartialEq, Eq)]
pub struct UnwindCode {
    /// The offset of the end of its instruction from the start of the prolog, in bytes.
    pub prolog_offset: u8,
    /// What the instruction did.
    pub operation: UnwindOperation,
}
