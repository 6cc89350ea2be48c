//! The names of events (`HEADER_EVENT_DESC`).

use dwarf_endianity::{Endianity, LittleEndian};
use std::alloc::{AllocError, Global};

// The bytes of a feature that are left.
#[derive(Clone, Copy, Debug)]
struct Descriptions<'a> {
    left: &'a [u8],
}

impl<'a> Descriptions<'a> {
    // So many bytes, if there are so many.
    fn bytes(&mut self, size: u64) -> Option<&'a [u8]> {
        if size > self.left.len() as u64 {
            return None;
        }
        let (bytes, left) = self.left.split_at(size as usize);
        self.left = left;
        Some(bytes)
    }

    // A number of 32 bits.
    fn number(&mut self) -> Option<u32> {
        if self.left.len() < 4 {
            return None;
        }
        let number = LittleEndian.read_u32(self.left);
        self.left = &self.left[4..];
        Some(number)
    }

    // The name of the next event, whose attributes have this size.
    fn name(&mut self, attribute_size: u32) -> Option<&'a [u8]> {
        self.bytes(u64::from(attribute_size))?;
        let ids = self.number()?;
        let size = self.number()?;
        let name = self.bytes(u64::from(size))?;
        self.bytes(u64::from(ids).saturating_mul(8))?;
        Some(name)
    }
}

// The bytes before the first 0, or all.
fn before_zero(bytes: &[u8]) -> &[u8] {
    match bytes.iter().position(|byte| *byte == 0) {
        Some(size) => &bytes[..size],
        None => bytes,
    }
}

/// The names of events by the feature that describes them, as far as they can be read.
pub(crate) fn event_names(alloc: Global, feature: &[u8]) -> Result<Vec<Vec<u8>>, AllocError> {
    let mut names = Vec::new(alloc);
    let mut descriptions = Descriptions { left: feature };
    let Some(count) = descriptions.number() else {
        return Ok(names);
    };
    let Some(attribute_size) = descriptions.number() else {
        return Ok(names);
    };
    for _ in 0..count {
        let Some(name) = descriptions.name(attribute_size) else {
            break;
        };
        names.push(before_zero(name).to_vec(alloc)?)?;
    }
    Ok(names)
}
