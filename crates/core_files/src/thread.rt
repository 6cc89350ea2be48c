//! The threads of a core.

use crate::pac_mask::PointerAuthenticationMasks;
use crate::registers::ThreadRegisters;

/// A thread, as it was when the core was made.
#[derive(Debug, Clone, Copy, PartialEq, Eq)]
pub struct Thread {
    /// Its id.
    pub id: u32,
    /// The signal that it got, or 0. Linux writes in each thread the signal that ended the process.
    pub signal: u16,
    /// Its registers.
    pub registers: ThreadRegisters,
    /// On aarch64, the bits that hold a pointer authentication code, if the core says it.
    pub pointer_authentication_masks: Option<PointerAuthenticationMasks>,
}
