//! Sections of any number of FDEs.

use std::alloc::{AllocError, Global};

/// A section with a CIE, and an FDE for each multiple of 16 from 16 to 16 times their number.
pub fn section_of(alloc: Global, fdes: u32) -> Result<Vec<u8>, AllocError> {
    let cie = [
        0x10, 0, 0, 0, 0, 0, 0, 0, 1, 0, 1, 0x78, 0x10, 0, 0, 0, 0, 0, 0, 0,
    ];
    let mut bytes = cie.to_vec(alloc)?;
    for i in 0..fdes {
        let id = u32::try_from(bytes.len()).unwrap_or(0).wrapping_add(4);
        bytes.extend_from_slice(&20u32.to_le_bytes())?;
        bytes.extend_from_slice(&id.to_le_bytes())?;
        bytes.extend_from_slice(&u64::from(i).wrapping_add(1).wrapping_mul(16).to_le_bytes())?;
        bytes.extend_from_slice(&16u64.to_le_bytes())?;
    }
    Ok(bytes)
}
