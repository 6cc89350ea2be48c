//! `NT_ARM_PAC_MASK`: which bits of an address hold a pointer authentication code.

ghost use Rattle.std.specs.Prelude.{◌≡◌};
ghost use Rattle.core_files.specs.PacMask.{pac_masks};

use crate::bytes::u64_at;
use crate::error::DescriptorError;

/// The bits of an address that hold a pointer authentication code, on aarch64 (`struct user_pac_mask`).
#[derive(Debug, Clone, Copy, PartialEq, Eq)]
pub struct PointerAuthenticationMasks {
    /// Of the address of data.
    pub data_mask: u64,
    /// Of the address of an instruction, as a return address is.
    pub instruction_mask: u64,
}

const MASKS_SIZE: usize = 16;

/// The masks that the descriptor of an `NT_ARM_PAC_MASK` says. Fails with `PacMaskSize` if it hasn't 16 bytes.
pub fn read_pac_mask(descriptor: &[u8]) -> Result<PointerAuthenticationMasks, DescriptorError>
    ensures { result ≡ pac_masks descriptor.now }
{
    if descriptor.len() != MASKS_SIZE {
        return Err(DescriptorError::PacMaskSize);
    }
    Ok(PointerAuthenticationMasks {
        data_mask: u64_at(descriptor, 0),
        instruction_mask: u64_at(descriptor, 8),
    })
}
