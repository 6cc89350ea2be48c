//! Fields, taken from the front of some bytes one after the other.

ghost use Rattle.std.specs.Prelude.{◌≡◌, ◌==◌, ◌*◌, length, position, Ok, IfOk};
ghost use Rattle.perf_files.specs.Fields.{before_zero, bytes_field, name_field, number_field, taken, thread_field};

use crate::bytes::{u32_at, u64_at};
use crate::error::FieldError;
use crate::field::Field;

/// A thread and its process.
#[derive(Debug, Clone, Copy, PartialEq, Eq)]
pub struct ThreadId {
    /// The process.
    pub pid: u32,
    /// The thread.
    pub tid: u32,
}

// The bytes that are left.
#[derive(Debug, Clone, Copy)]
pub(crate) struct Fields<'a> {
    pub(crate) left: &'a [u8],
}

impl<'a> Fields<'a> {
    // So many bytes.
    #[tactic(auto, unfolding(crate::specs::Fields::bytes_field))]
    pub(crate) fn bytes(&mut self, size: u64, field: Field) -> Result<&'a [u8], FieldError>
        ensures taken { taken (λ bytes. bytes.now) result self.new.left.now ≡ bytes_field size field self.old.left.now }
        ensures size { IfOk result (λ bytes. length bytes.now ≡ size) }
    {
        if size > self.left.len() as u64 {
            return Err(FieldError::PastEnd(field));
        }
        let (bytes, rest) = self.left.split_at(size as usize);
        self.left = rest;
        Ok(bytes)
    }

    // So many entries of one size.
    #[tactic(auto, unfolding(crate::specs::Fields::bytes_field))]
    pub(crate) fn entries(
        &mut self,
        count: u64,
        size: u64,
        field: Field,
    ) -> Result<&'a [u8], FieldError>
        ensures { taken (λ bytes. bytes.now) result self.new.left.now
            ≡ bytes_field (size * count) field self.old.left.now }
    {
        match size.checked_mul(count) {
            Some(size) => self.bytes(size, field),
            None => Err(FieldError::PastEnd(field)),
        }
    }

    // A number of 64 bits.
    #[tactic(auto, unfolding(crate::specs::Fields::number_field))]
    pub(crate) fn word(&mut self, field: Field) -> Result<u64, FieldError>
        ensures { taken (λ word. word) result self.new.left.now ≡ number_field 8 field self.old.left.now }
    {
        if self.left.len() < 8 {
            return Err(FieldError::PastEnd(field));
        }
        let word = u64_at(self.left, 0);
        self.left = &self.left[8..];
        Ok(word)
    }

    // A number of 32 bits.
    #[tactic(auto, unfolding(crate::specs::Fields::number_field))]
    pub(crate) fn half(&mut self, field: Field) -> Result<u32, FieldError>
        ensures { taken (λ half. half) result self.new.left.now ≡ number_field 4 field self.old.left.now }
    {
        if self.left.len() < 4 {
            return Err(FieldError::PastEnd(field));
        }
        let half = u32_at(self.left, 0);
        self.left = &self.left[4..];
        Ok(half)
    }

    // Process and thread.
    #[tactic(auto, unfolding(crate::specs::Fields::thread_field))]
    pub(crate) fn thread(&mut self, field: Field) -> Result<ThreadId, FieldError>
        ensures { taken (λ thread. thread) result self.new.left.now ≡ thread_field field self.old.left.now }
    {
        let pid = self.half(field)?;
        let tid = self.half(field)?;
        Ok(ThreadId { pid, tid })
    }

    // The bytes that are left up to the first 0: a name.
    #[tactic(auto, unfolding(crate::specs::Fields::name_field))]
    pub(crate) fn name(&mut self) -> &'a [u8]
        ensures { name_field self.old.left.now ≡ Ok (result.now, self.new.left.now) }
    {
        let name = before_zero(self.left);
        self.left = &self.left[..0];
        name
    }
}

// Where the first 0 of some bytes is.
fn first_zero(bytes: &[u8]) -> Option<usize>
    ensures { result ≡ position (λ byte. byte == 0) bytes.now }
{
    bytes.iter().position(|byte| *byte == 0)
}

// The bytes before the first 0, or all.
pub(crate) fn before_zero(bytes: &[u8]) -> &[u8]
    ensures { result.now ≡ before_zero bytes.now }
{
    match first_zero(bytes) {
        Some(size) => &bytes[..size],
        None => bytes,
    }
}
