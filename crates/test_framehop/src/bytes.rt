//! Files as lists of numbers, each with its lowest byte first.

use std::alloc::AllocError;

/// Adds numbers of 64 bits.
pub fn push_words(bytes: &mut Vec<u8>, words: &[u64]) -> Result<(), AllocError> {
    for word in words {
        bytes.extend_from_slice(&word.to_le_bytes())?;
    }
    Ok(())
}

/// Adds numbers of 32 bits.
pub fn push_halves(bytes: &mut Vec<u8>, halves: &[u32]) -> Result<(), AllocError> {
    for half in halves {
        bytes.extend_from_slice(&half.to_le_bytes())?;
    }
    Ok(())
}
