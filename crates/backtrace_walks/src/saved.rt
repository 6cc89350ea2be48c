//! The registers that the kernel pushed where a signal interrupted a thread, by their DWARF numbers.

ghost use Rattle.std.specs.Prelude.{◌≡◌, option_and_then};
ghost use Rattle.core_files.specs.MemoryViews.{word_of};
ghost use Rattle.backtrace_walks.specs.Signals.{saved_aarch64, saved_by, saved_x86_64, word_above};

use crate::numbered::value_at;
use crate::signals::word_above;
use core_files::Memory;
use framehop_whole_modules::REGISTERS;

// The distance of each register above the stack pointer, by its number, on x86_64.
const DISTANCES_X86_64: [u64; 17] = [
    144, 136, 152, 128, 112, 104, 120, 160, 40, 48, 56, 64, 72, 80, 88, 96, 168,
];

// The same on aarch64.
const DISTANCES_AARCH64: [u64; 33] = [
    312, 320, 328, 336, 344, 352, 360, 368, 376, 384, 392, 400, 408, 416, 424, 432, 440, 448, 456,
    464, 472, 480, 488, 496, 504, 512, 520, 528, 536, 544, 552, 560, 568,
];

// The word at a distance above an address, if there is one.
fn word_at_distance(memory: &Memory<'_, '_>, address: u64, distance: Option<u64>) -> Option<u64>
    ensures { result ≡ option_and_then (word_above (word_of memory.now) address) distance }
{
    match distance {
        Some(distance) => word_above(memory, address, distance),
        None => None,
    }
}

// The words at distances above a stack pointer, by the numbers of their registers, from 0 on. No other is known.
fn saved_by(memory: &Memory<'_, '_>, sp: u64, distances: &[u64]) -> [Option<u64>; REGISTERS]
    ensures { result ≡ saved_by (word_of memory.now) sp distances.now }
{
    let mut saved = [None; REGISTERS];
    for number in 0..REGISTERS {
        saved[number] = word_at_distance(memory, sp, value_at(distances, number));
    }
    saved
}

/// The registers that the kernel pushed on x86_64, as far as they can be read.
pub(crate) fn saved_x86_64(memory: &Memory<'_, '_>, sp: u64) -> [Option<u64>; REGISTERS]
    ensures { result ≡ saved_x86_64 (word_of memory.now) sp }
{
    saved_by(memory, sp, &DISTANCES_X86_64)
}

/// The same on aarch64.
pub(crate) fn saved_aarch64(memory: &Memory<'_, '_>, sp: u64) -> [Option<u64>; REGISTERS]
    ensures { result ≡ saved_aarch64 (word_of memory.now) sp }
{
    saved_by(memory, sp, &DISTANCES_AARCH64)
}
