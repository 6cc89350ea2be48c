//! The shortest spellings of numbers of variable length (DWARF 5, 7.6).

ghost use Rattle.std.specs.Prelude.{◌≡◌, ◌≤◌, ◌<◌, ◌+◌, ◌^◌, ◌≤ℤ◌, ◌<ℤ◌, neg_ℤ, pos, ℕ, ℤ, length};
ghost use Rattle.dwarf_readers.specs.Leb128.{IsReadBack, IsShortest, signed_at, signed_value, unsigned_at, unsigned_value};
ghost use Rattle.dwarf_readers.specs.Signed.{signed_string};
ghost use Rattle.dwarf_readers.specs.Unsigned.{unsigned_string};

/// The shortest spelling of a number. It has at most ten bytes.
#[derive(Debug, Clone, Copy)]
pub struct Leb128 {
    bytes: [u8; 10],
    len: usize,
    ghost fits: { len ≤ 10 },
}

impl Leb128 {
    ghost use Rattle.dwarf_readers.specs.Spelling.{spelling};

    /// The spelling of an unsigned number.
    pub fn unsigned(value: u64) -> Leb128
        ensures { spelling result ≡ unsigned_string value }
    {
        let mut bytes = [0; 10];
        let mut rest = value;
        let mut len = 0;
        'groups: while rest >= 128 {
            bytes[len] = (rest % 128) as u8 + 128;
            rest /= 128;
            len += 1;
        }
        bytes[len] = rest as u8;
        Leb128 {
            bytes,
            len: len + 1,
        }
    }

    /// The spelling of a signed number, in two's complement.
    pub fn signed(value: i64) -> Leb128
        ensures { spelling result ≡ signed_string value }
    {
        let mut bytes = [0; 10];
        let mut rest = value;
        let mut len = 0;
        'groups: while rest < -64 || rest >= 64 {
            bytes[len] = rest.rem_euclid(128) as u8 + 128;
            rest = rest.div_euclid(128);
            len += 1;
        }
        bytes[len] = rest.rem_euclid(128) as u8;
        Leb128 {
            bytes,
            len: len + 1,
        }
    }

    /// The bytes of the spelling.
    pub fn bytes(&self) -> &[u8]
        ensures { result.now ≡ spelling self.now }
    {
        &self.bytes[..self.len]
    }

    /// How many bytes it has.
    pub fn len(&self) -> usize
        ensures { result ≡ length (spelling self.now) }
    {
        self.len
    }
}

/// What `Leb128::unsigned` spells is read back, and exactly the bytes that follow are left.
pub fn unsigned_again()
    ensures { (v : ℕ) → v < 2 ^ 64 → IsReadBack unsigned_at v (unsigned_string v) }
{}

/// No string of bytes with the same value is shorter than what `Leb128::unsigned` spells.
pub fn unsigned_is_shortest()
    ensures { (v : ℕ) → v < 2 ^ 64 → IsShortest unsigned_value (unsigned_string v) }
{}

/// What `Leb128::signed` spells is read back, and exactly the bytes that follow are left.
pub fn signed_again()
    ensures { (v : ℤ) → neg_ℤ (pos (2 ^ 63)) ≤ℤ v → v <ℤ pos (2 ^ 63)
        → IsReadBack signed_at v (signed_string v) }
{}

/// No string of bytes with the same value is shorter than what `Leb128::signed` spells.
pub fn signed_is_shortest()
    ensures { (v : ℤ) → neg_ℤ (pos (2 ^ 63)) ≤ℤ v → v <ℤ pos (2 ^ 63)
        → IsShortest signed_value (signed_string v) }
{}

/// How many bytes the shortest spelling of an unsigned number has.
pub fn uleb128_size(value: u64) -> usize
    ensures { result ≡ length (unsigned_string value) }
{
    Leb128::unsigned(value).len()
}

/// How many bytes the shortest spelling of a signed number has.
pub fn sleb128_size(value: i64) -> usize
    ensures { result ≡ length (signed_string value) }
{
    Leb128::signed(value).len()
}
