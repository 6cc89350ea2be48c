//! What a call frame instruction does (DWARF 5, 6.4.2).

use crate::{CfaRule, RegisterRule};
use dwarf_constants::Register;

/// What an instruction does to the current row. Each instruction has one effect, whose factors are
/// applied already.
#[derive(Debug, Clone, Copy, PartialEq, Eq)]
pub enum Effect<T> {
    /// Ends the row: the next one starts at this address.
    Move(u64),
    /// The CFA has this rule.
    Cfa(CfaRule<T>),
    /// The CFA is relative to this register, at the offset that it had.
    CfaRegister(Register),
    /// The CFA is at this offset in bytes from the register that it had.
    CfaOffset(i64),
    /// The register has this rule.
    Rule(Register, RegisterRule<T>),
    /// The register has the rule that the CIE's own instructions left.
    RestoreRule(Register),
    /// The return address changes between signed and not signed, on AArch64.
    NegateRaState,
    /// The caller pushed arguments of this size in bytes.
    ArgsSize(u64),
    /// The row's rules are pushed on a stack.
    Remember,
    /// The rules that were pushed last are popped from the stack.
    Restore,
    /// Nothing.
    Nothing,
}
