//! The bytes of a section.

ghost use Rattle.std.specs.Prelude.{◌≡◌, ℕ, List};

/// What holds the bytes of a section: the same at each call, for as long as it lives.
pub trait SectionBytes {
    ghost content: { Self → List ℕ };

    /// The bytes.
    fn bytes(&self) -> &[u8]
        ensures { result.now ≡ content self.now };
}

impl SectionBytes for Vec<u8> {
    ghost content = { λ bytes. bytes.items };

    fn bytes(&self) -> &[u8] {
        self.as_slice()
    }
}

impl<'a> SectionBytes for &'a [u8] {
    ghost content = { λ bytes. bytes.now };

    fn bytes(&self) -> &[u8] {
        self
    }
}
