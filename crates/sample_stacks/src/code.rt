//! The code of a process.

ghost use Rattle.std.specs.Prelude.{◌≡◌};

/// The code of a process, by its addresses.
pub trait ProcessCode {
    ghost use Rattle.std.specs.Prelude.{ℕ, List};

    /// The bytes from an address on.
    ghost code: { Self → ℕ → List ℕ };

    /// The code from an address on: no bytes if none is known there.
    fn code_at(&self, address: u64) -> &[u8]
        ensures { result.now ≡ code self.now address };
}
