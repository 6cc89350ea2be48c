//! Where epilogs end.

ghost use Rattle.std.specs.Prelude.{◌≡◌, ◌≤◌, ◌+◌, ◌-◌, pos, ◌+ℤ◌, length, IsTrue};
ghost use Rattle.framehop_pe_codes.specs.EpilogEnds.{begins_with, direct_jump, is_before, is_end, is_known_end, is_published_end, is_return, is_wide_jump, leaves, signed_below, target};

use crate::code::u32_at;

/// The code that a row of `.pdata` is for. Addresses are relative to the file's base (RVA).
#[derive(Clone, Copy, Debug, PartialEq, Eq)]
pub struct RowCode {
    /// Where it begins.
    pub begin: u32,
    /// Where it ends.
    pub end: u32,
    /// Whether a function begins there: the row's unwind info is no chained one.
    pub begins_function: bool,
}

/// Which instructions end an epilog.
#[derive(Clone, Copy, Debug, PartialEq, Eq)]
pub enum EpilogEnds {
    /// `ret`, `rep ret`, `jmp` with a displacement wherever it leads, and `jmp` through memory at RIP plus a displacement.
    Published,
    /// What Windows takes for an end in the code of a row: `ret`, `rep ret`, `jmp` with a displacement that leads out of that code,
    /// or to its begin if a function begins there; `jmp` through memory at RIP plus a displacement, and each other indirect `jmp`
    /// with the prefix REX.W.
    Known(RowCode),
}

// Whether bytes begin with these.
#[tactic(auto, unfolding(crate::specs::EpilogEnds::begins_with))]
pub(crate) fn begins_with(spelling: &[u8], bytes: &[u8]) -> bool
    ensures value { result ≡ begins_with spelling.now bytes.now }
    ensures within { IsTrue result → length spelling.now ≤ length bytes.now }
{
    bytes.starts_with(spelling)
}

// A byte as a signed number.
pub(crate) fn signed_byte(number: u8) -> i64
    ensures { result ≡ signed_below 256 number }
{
    if number < 128 {
        i64::from(number)
    } else {
        i64::from(number) - 256
    }
}

// Four bytes as a signed number.
pub(crate) fn signed_long(number: u32) -> i64
    ensures { result ≡ signed_below 4294967296 number }
{
    if number < 2147483648 {
        i64::from(number)
    } else {
        i64::from(number) - 4294967296
    }
}

// Whether bytes begin with a return.
#[tactic(auto, unfolding(crate::specs::EpilogEnds::is_return))]
fn is_return(bytes: &[u8]) -> bool
    ensures { result ≡ is_return bytes.now }
{
    begins_with(&[0xc3], bytes) || begins_with(&[0xf3, 0xc3], bytes)
}

// Whether bytes begin with a return or a jump, wherever it leads.
#[tactic(auto, unfolding(crate::specs::EpilogEnds::is_published_end))]
fn is_published_end(bytes: &[u8]) -> bool
    ensures { result ≡ is_published_end bytes.now }
{
    is_return(bytes)
        || begins_with(&[0xeb], bytes)
        || begins_with(&[0xe9], bytes)
        || begins_with(&[0xff, 0x25], bytes)
        || begins_with(&[0x48, 0xff, 0x25], bytes)
}

// The jump with a displacement that some bytes begin with: how many bytes it has, and the displacement.
#[tactic(auto, unfolding(crate::specs::EpilogEnds::direct_jump))]
fn direct_jump(bytes: &[u8]) -> Option<(u32, i64)>
    ensures { result ≡ direct_jump bytes.now }
{
    if begins_with(&[0xeb], bytes) && 2 <= bytes.len() {
        Some((2, signed_byte(bytes[1])))
    } else if begins_with(&[0xe9], bytes) && 5 <= bytes.len() {
        Some((5, signed_long(u32_at(bytes, 1))))
    } else {
        None
    }
}

// Whether bytes begin with an indirect jump with the prefix REX.W.
#[tactic(auto, unfolding(crate::specs::EpilogEnds::is_wide_jump))]
fn is_wide_jump(bytes: &[u8]) -> bool
    ensures { result ≡ is_wide_jump bytes.now }
{
    bytes.len() >= 3 && bytes[0] / 8 == 9 && bytes[1] == 0xff && bytes[2] / 8 % 8 == 4
}

impl RowCode {
    // The address of the instruction that some bytes begin with, which end with this code.
    fn address_of(&self, bytes: &[u8]) -> u64
        ensures { result ≡ self.now.end - length bytes.now }
    {
        u64::from(self.end).saturating_sub(bytes.len() as u64)
    }

    // Whether an address is before this code, or is its begin if a function begins there.
    fn follows(&self, address: i128) -> bool
        ensures { result ≡ is_before self.now address }
    {
        if self.begins_function {
            address <= i128::from(self.begin)
        } else {
            address < i128::from(self.begin)
        }
    }

    // Whether the jump with a displacement leaves the function that some bytes begin with, which end with this code.
    fn is_left_by(&self, bytes: &[u8]) -> bool
        ensures { result ≡ leaves self.now bytes.now (direct_jump bytes.now) }
    {
        let Some((size, displacement)) = direct_jump(bytes) else {
            return false;
        };
        let next = i128::from(self.address_of(bytes)) + i128::from(size);
        let target = next + i128::from(displacement);
        self.follows(target) || i128::from(self.end) <= target
    }

    // Whether bytes that end with this code begin with what Windows takes for an end.
    #[tactic(auto, unfolding(crate::specs::EpilogEnds::is_known_end))]
    fn has_end(&self, bytes: &[u8]) -> bool
        ensures { result ≡ is_known_end self.now bytes.now }
    {
        is_return(bytes)
            || begins_with(&[0xff, 0x25], bytes)
            || is_wide_jump(bytes)
            || self.is_left_by(bytes)
    }
}

impl EpilogEnds {
    // Whether bytes begin with an end of an epilog.
    pub(crate) fn are_at(&self, bytes: &[u8]) -> bool
        ensures { result ≡ is_end self.now bytes.now }
    {
        match self {
            EpilogEnds::Published => is_published_end(bytes),
            EpilogEnds::Known(row) => row.has_end(bytes),
        }
    }
}
