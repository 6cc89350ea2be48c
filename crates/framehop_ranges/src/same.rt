//! Values that are told from others.

ghost use Rattle.std.specs.Prelude.{◌≡◌, ◌↔◌, IsTrue};

/// A value of a table, which can be told from others.
pub trait SameValue: Copy {
    /// Whether it is the same as another.
    fn is_same(self, other: Self) -> bool
        ensures { IsTrue result ↔ self ≡ other };
}
