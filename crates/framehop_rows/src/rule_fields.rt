//! Offsets in bytes as the fields of unwind rules. An offset that is no multiple of the field's unit is
//! never rounded.

ghost use Rattle.std.specs.Prelude.{◌≡◌, ◌+ℤ◌};
ghost use Rattle.framehop_rows.specs.RuleFields.{eighth_of, sixteenth_of, as_words, as_signed_words, pairs_of};

// The eighth of a multiple of 8.
#[inline(always)]
fn exact_eighth(offset: i64) -> Option<i64>
    ensures { result ≡ eighth_of offset }
{
    if offset % 8 == 0 {
        Some(offset / 8)
    } else {
        None
    }
}

// The sixteenth of a multiple of 16.
#[inline(always)]
fn exact_sixteenth(offset: i64) -> Option<i64>
    ensures { result ≡ sixteenth_of offset }
{
    if offset % 16 == 0 {
        Some(offset / 16)
    } else {
        None
    }
}

// An offset in bytes as an unsigned number of words of 8 bytes.
#[inline(always)]
pub(crate) fn unsigned_words(offset: i64) -> Option<u16>
    ensures { result ≡ as_words offset }
{
    u16::try_from(exact_eighth(offset)?).ok()
}

// An offset in bytes as a signed number of words of 8 bytes.
#[inline(always)]
fn signed_words(offset: i64) -> Option<i16>
    ensures { result ≡ as_signed_words offset }
{
    i16::try_from(exact_eighth(offset)?).ok()
}

// An offset in bytes as an unsigned number of pairs of words.
#[inline(always)]
pub(crate) fn unsigned_pairs(offset: i64) -> Option<u16>
    ensures { result ≡ pairs_of offset }
{
    u16::try_from(exact_sixteenth(offset)?).ok()
}

// The offset of what is stored at an offset from the CFA, from the register that the CFA is itself at an
// offset from, as a signed number of words.
#[inline(always)]
pub(crate) fn words_from_base(offset: i64, stored: i64) -> Option<i16>
    ensures { result ≡ as_signed_words (offset +ℤ stored) }
{
    signed_words(offset.checked_add(stored)?)
}
