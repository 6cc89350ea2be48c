//! A worked stack.

/// Sixteen words of a stack, at addresses 0, 8, .. 0x78: frames at 0x20 and 0x40, the last at 0x70.
pub const WORDS: [u64; 16] = [
    0x1, 0x2, 0x100300, 0x4, 0x40, 0x100200, 0x5, 0x6, 0x70, 0x100100, 0x7, 0x8, 0x9, 0xa, 0x0, 0x0,
];

/// The word of that stack at an address.
pub fn word_at(address: u64) -> Result<u64, ()> {
    if address % 8 != 0 {
        return Err(());
    }
    WORDS.get((address / 8) as usize).copied().ok_or(())
}
