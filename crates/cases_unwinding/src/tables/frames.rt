//! The frames that steps are made from. All words of their stacks differ, and tell their addresses.

use anyhow::{Context, Result};
use bench_steps::FirstRegisters;
use framehop::FrameAddress;

/// Where the module is loaded.
pub const BASE: u64 = 0x10_0000_0000;

/// A frame: its kind, its address, and its registers.
#[derive(Clone, Copy)]
pub struct Frame {
    pub is_first: bool,
    pub at: u32,
    pub address: FrameAddress,
    pub registers: FirstRegisters,
}

impl Frame {
    /// A frame at an address relative to the base. Where its stack is and how large it is follow from the address.
    pub fn new(is_first: bool, at: u32) -> Result<Self> {
        let place = BASE + u64::from(at);
        let address = if is_first {
            FrameAddress::from_instruction_pointer(place)
        } else {
            FrameAddress::from_return_address(place + 1).context("an address")?
        };
        let sp = 0x7f00_0000_0000 + 16 * (u64::from(at) % 65_521);
        let fp = sp + 16 + 8 * (u64::from(at) % 11);
        Ok(Frame {
            is_first,
            at,
            address,
            registers: FirstRegisters {
                code: if is_first { place } else { place + 1 },
                sp,
                fp,
                mask: u64::MAX,
            },
        })
    }
}

/// The word at an address.
pub fn word_at(address: u64) -> std::result::Result<u64, ()> {
    if address % 8 != 0 {
        return Err(());
    }
    address.checked_add(0x5000_0000_0000).ok_or(())
}
