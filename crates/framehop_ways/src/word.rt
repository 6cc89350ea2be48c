//! The fields of an instruction's word (Arm Architecture Reference Manual for A-profile architecture, C4.1).
ghost use Rattle.std.specs.Prelude.{◌≡◌, ◌<◌, ◌≤◌, ◌^◌, ◌*◌, ◌/◌, ◌%◌, ◌≤ℤ◌, ◌<ℤ◌, ◌-ℤ◌, pos};
ghost use Rattle.framehop_ways.specs.Words.{bits, signed};

/// The field of `width` bits of which `low` is the lowest.
#[inline(always)]
pub fn bits(word: u32, low: u32, width: u32) -> u32
    requires low { low < 32 }
    requires width { width < 32 }
    ensures { result ≡ bits word low width }
{
    (word >> low) & ((1 << width) - 1)
}

/// The number that a field stands for in two's complement, where `half` is its highest bit alone.
#[inline(always)]
pub fn signed(field: u32, half: u32) -> i32
    requires field { field < 2 * half }
    requires half { half ≤ 2 ^ 25 }
    ensures signed { result ≡ signed field half }
    ensures low { (pos 0 -ℤ pos half) ≤ℤ result }
    ensures high { result <ℤ pos half }
{
    if field < half {
        field as i32
    } else {
        field as i32 - (2 * half) as i32
    }
}

/// Bits 0 to 4, Rd or Rt.
#[inline(always)]
pub fn rd(word: u32) -> u32
    ensures { result ≡ bits word 0 5 }
{
    bits(word, 0, 5)
}

/// Bits 5 to 9, Rn.
#[inline(always)]
pub fn rn(word: u32) -> u32
    ensures { result ≡ bits word 5 5 }
{
    bits(word, 5, 5)
}

/// Bits 10 to 14, Rt2.
#[inline(always)]
pub fn rt2(word: u32) -> u32
    ensures { result ≡ bits word 10 5 }
{
    bits(word, 10, 5)
}
