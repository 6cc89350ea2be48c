//! `NT_SIGINFO`: the signal that ended a process.

ghost use Rattle.std.specs.Prelude.{◌≡◌, ◌≤◌, length};
ghost use Rattle.core_files.specs.SignalInfo.{is_fault, is_sent, signal_info, signal_origin};

use crate::bytes::{u32_at, u64_at};

/// Where a signal came from, as its code says (`si_code`).
#[derive(Debug, Clone, Copy, PartialEq, Eq)]
pub enum SignalOrigin {
    /// A fault of the thread: `SIGILL`, `SIGTRAP`, `SIGBUS`, `SIGFPE` or `SIGSEGV` with a code that the signal's own, as 1 for
    /// `SEGV_MAPERR`.
    Fault {
        /// The code.
        code: u32,
        /// The address of the fault (`si_addr`): of the memory, or of the instruction.
        address: u64,
    },
    /// A process sent it (`SI_USER`, `SI_QUEUE`, `SI_TKILL`).
    Process {
        /// The id of the process (`si_pid`).
        id: u32,
        /// Its user (`si_uid`).
        user: u32,
    },
    /// The kernel sent it, and says no address (`SI_KERNEL`).
    Kernel,
    /// Another code; those below 0 in two's complement.
    Other(u32),
}

/// What an `NT_SIGINFO` says of a signal (`siginfo_t`).
#[derive(Debug, Clone, Copy, PartialEq, Eq)]
pub struct SignalInfo {
    /// Its number (`si_signo`).
    pub signal: u32,
    /// Where it came from.
    pub origin: SignalOrigin,
}

// The signals of faults.
const SIGILL: u32 = 4;

const SIGTRAP: u32 = 5;

const SIGBUS: u32 = 7;

const SIGFPE: u32 = 8;

const SIGSEGV: u32 = 11;

// Codes that aren't a signal's own.
const SI_USER: u32 = 0;

const SI_KERNEL: u32 = 0x80;

const SI_QUEUE: u32 = 0xffff_ffff;

const SI_TKILL: u32 = 0xffff_fffa;

const SIZE: usize = 128;

const SI_CODE: usize = 8;

// Where what depends on the code is.
const FIELDS: usize = 16;

// Whether a signal with a code is a fault of the thread.
fn is_fault(signal: u32, code: u32) -> bool
    ensures { result ≡ is_fault signal code }
{
    matches!(signal, SIGILL | SIGTRAP | SIGBUS | SIGFPE | SIGSEGV)
        && SI_USER < code
        && code < SI_KERNEL
}

// Whether a process sent a signal with a code.
fn is_sent(code: u32) -> bool
    ensures { result ≡ is_sent code }
{
    matches!(code, SI_USER | SI_QUEUE | SI_TKILL)
}

// Where a signal with a code came from.
fn signal_origin(descriptor: &[u8], signal: u32, code: u32) -> SignalOrigin
    requires { 24 ≤ length descriptor.now }
    ensures { result ≡ signal_origin descriptor.now signal code }
{
    if is_fault(signal, code) {
        return SignalOrigin::Fault {
            code,
            address: u64_at(descriptor, FIELDS),
        };
    }
    if is_sent(code) {
        return SignalOrigin::Process {
            id: u32_at(descriptor, FIELDS),
            user: u32_at(descriptor, FIELDS + 4),
        };
    }
    if code == SI_KERNEL {
        SignalOrigin::Kernel
    } else {
        SignalOrigin::Other(code)
    }
}

/// The signal that the descriptor of an `NT_SIGINFO` says: none if it hasn't 128 bytes.
pub fn read_signal_info(descriptor: &[u8]) -> Option<SignalInfo>
    ensures { result ≡ signal_info descriptor.now }
{
    if descriptor.len() != SIZE {
        return None;
    }
    let signal = u32_at(descriptor, 0);
    let code = u32_at(descriptor, SI_CODE);
    Some(SignalInfo {
        signal,
        origin: signal_origin(descriptor, signal, code),
    })
}
