//! Starts that can be searched: those of a slice's items, and those that are read from elsewhere.

ghost use Rattle.std.specs.Prelude.{◌≡◌, ◌<◌, ◌+◌, ◌^◌, ℕ, length, nat_le, if◌then◌else◌};
ghost use Rattle.sorted_starts.specs.Starts.{start_of};

/// 1 if a number is at most a limit, else 0: by a sum whose highest bit stays, since no processor could foresee a branch.
#[inline(always)]
pub fn count_at_most(number: u64, limit: u64) -> usize
    requires number { number < 2 ^ 63 }
    requires limit { limit < 2 ^ 63 }
    ensures { result ≡ (if nat_le number limit then 1 else 0) }
{
    (((1 << 63) + limit - number) >> 63) as usize
}

/// An item that has a start.
pub trait HasStart {
    ghost start: { Self → ℕ };

    /// Where it starts.
    fn start(&self) -> u32
        ensures { result ≡ start self.now };
}

/// Starts that are read by their places, which count from 0.
pub trait Starts {
    ghost count: { Self → ℕ };

    ghost start: { Self → ℕ → ℕ };

    /// How many there are.
    fn start_count(&self) -> usize
        ensures { result ≡ count self.now };

    /// The start at a place.
    fn start_at(&self, place: usize) -> u32
        requires { place < count self.now }
        ensures { result ≡ start self.now place };

    /// 1 if the start that is so many after a place is at or below a limit, else 0. The two numbers come apart, since a search
    /// waits for the second alone. What isn't read as a number of 32 bits may compare without a branch by a way of its own.
    #[inline(always)]
    fn count_at_or_below(&self, place: usize, more: usize, limit: u32) -> usize
        requires { place + more < count self.now }
        ensures { result ≡ (if nat_le (start self.now (place + more)) limit then 1 else 0) }
    {
        // A place is below a count, so that the sum fits.
        let _count = self.start_count();
        count_at_most(u64::from(self.start_at(place + more)), u64::from(limit))
    }
}

impl<'a, T: HasStart> Starts for &'a [T] {
    ghost count = { λ items. length items.now };

    ghost start = { λ items. start_of T.start items.now };

    #[inline(always)]
    fn start_count(&self) -> usize {
        self.len()
    }

    #[inline(always)]
    fn start_at(&self, place: usize) -> u32 {
        self[place].start()
    }
}
