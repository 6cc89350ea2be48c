//! Code at addresses.
ghost use Rattle.std.specs.Prelude.{◌≡◌, ◌<◌, ◌+◌, length, take, drop, IfSome};
ghost use Rattle.framehop_code.specs.Places.{IsPart, code_of, place_at, within};

use crate::range::CodeRange;

/// Bytes of code with the address at which they begin. Those that would be at 2^64 or higher are at no address.
#[derive(Clone, Copy, Debug)]
pub struct Code<'a> {
    pub begin: u64,
    pub bytes: &'a [u8],
}

impl<'a> Code<'a> {
    /// The place of the byte at an address, counted from the first; `None` if the code has no byte there.
    pub fn place_at(self, address: u64) -> Option<usize>
        ensures place { result ≡ place_at (code_of self.entry) address }
        ensures is { IfSome result (λ place. (self.entry.begin + place ≡ address) × (place < length self.entry.bytes.now)) }
    {
        let place = address.checked_sub(self.begin)? as usize;
        if place < self.bytes.len() {
            Some(place)
        } else {
            None
        }
    }

    /// The part of the code that is within a range. It begins where the range or the code does, whatever is higher.
    pub fn within(self, range: CodeRange) -> Code<'a>
        ensures part { code_of result ≡ within range (code_of self.entry) }
        ensures bytes { IsPart range (code_of self.entry) (code_of result) }
    {
        let begin = self.begin.max(range.begin);
        let before = (begin - self.begin) as usize;
        let wanted = range.end.saturating_sub(begin) as usize;
        Code {
            begin,
            bytes: first_bytes(bytes_from(self.bytes, before), wanted),
        }
    }
}

// The bytes from a place on; none if it is behind them all.
fn bytes_from(bytes: &[u8], place: usize) -> &[u8]
    ensures { result.now ≡ drop place bytes.now }
{
    if bytes.len() < place {
        return &[];
    }
    let (_, rest) = bytes.split_at(place);
    rest
}

// So many of the first bytes, or all.
fn first_bytes(bytes: &[u8], count: usize) -> &[u8]
    ensures { result.now ≡ take count bytes.now }
{
    if bytes.len() < count {
        return bytes;
    }
    let (first, _) = bytes.split_at(count);
    first
}
