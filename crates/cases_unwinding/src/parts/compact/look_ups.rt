//! Lookups of many addresses.

use framehop_compact::x86_64::{ArchX86_64, OpcodeX86_64};
use framehop_compact::{CompactUnwindInfoUnwinder, Function};

/// Which addresses are looked up.
#[derive(Clone, Copy)]
pub struct Addresses {
    /// How many.
    pub count: u32,
    /// The first.
    pub first: u32,
    /// How far each is from the one before it.
    pub apart: u32,
}

/// What lookups found.
#[derive(Clone, Copy)]
pub struct Tally {
    /// How many addresses are in a function.
    pub found: u32,
    /// A sum of what was found, modulo 2^64.
    pub sum: u64,
}

// A number for what an encoding says.
fn weight_of(opcode: OpcodeX86_64) -> u64 {
    match opcode {
        OpcodeX86_64::Null => 1,
        OpcodeX86_64::FrameBased => 2,
        OpcodeX86_64::FramelessImmediate {
            stack_size_by_8,
            ..
        } => 3 + u64::from(stack_size_by_8),
        OpcodeX86_64::FramelessIndirect { .. } => 5,
        OpcodeX86_64::Dwarf { eh_frame_fde } => 6 + u64::from(eh_frame_fde),
        OpcodeX86_64::InvalidFrameless => 7,
        OpcodeX86_64::UnrecognizedKind(kind) => 8 + u64::from(kind),
    }
}

// A number for a function.
fn sum_of(function: Function) -> u64 {
    let said = weight_of(OpcodeX86_64::parse(function.opcode));
    said.wrapping_add(u64::from(function.start_address))
}

/// The unwinder of a section, by halving if its tables increase.
pub fn unwinder_of(section: &[u8]) -> CompactUnwindInfoUnwinder<'_, ArchX86_64> {
    if CompactUnwindInfoUnwinder::<ArchX86_64>::is_increasing(section) {
        CompactUnwindInfoUnwinder::new_increasing(section, None, (0, 0), (0, 0))
    } else {
        CompactUnwindInfoUnwinder::new(section, None, (0, 0), (0, 0))
    }
}

/// Looks each address up, in an order in which neighbours are far apart.
pub fn look_up_each(
    unwinder: &CompactUnwindInfoUnwinder<'_, ArchX86_64>,
    addresses: Addresses,
) -> Tally {
    let mut tally = Tally { found: 0, sum: 0 };
    for i in 0..addresses.count {
        let index = i
            .wrapping_mul(7919)
            .checked_rem(addresses.count)
            .unwrap_or(0);
        let address = addresses
            .first
            .wrapping_add(index.wrapping_mul(addresses.apart));
        if let Ok(function) = unwinder.function_for_address(address) {
            tally.found = tally.found.saturating_add(1);
            tally.sum = tally.sum.wrapping_add(sum_of(function));
        }
    }
    tally
}
