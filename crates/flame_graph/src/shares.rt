//! Numbers in the picture.

ghost use Rattle.std.specs.Prelude.{◌≡◌, ◌<◌, ◌≤◌, decimal, replicate};
ghost use Rattle.line_parts.specs.Parts.{Pushes};
ghost use Rattle.flame_graph.specs.Shares.{padded, percent_text, place_text, scaled, share_text};

use line_parts::push_bytes;
use std::alloc::{AllocError, Global};

// Appends zeros.
fn push_zeros(text: &mut Vec<u8>, count: usize) -> Result<(), AllocError>
    ensures { Pushes result text.old text.new (replicate count 48) }
{
    for i in 0..count {
        text.push(b'0')?;
    }
    Ok(())
}

/// Appends a number in decimal digits.
pub(crate) fn push_number(alloc: Global, text: &mut Vec<u8>, number: u128) -> Result<(), AllocError>
    ensures { Pushes result text.old text.new (decimal number) }
{
    let digits = format!(in alloc; "{number}")?;
    push_bytes(text, digits.as_bytes())
}

// Appends a number with so many decimal digits at least.
fn push_padded(
    alloc: Global,
    text: &mut Vec<u8>,
    number: u128,
    size: usize,
) -> Result<(), AllocError>
    ensures { Pushes result text.old text.new (padded number size) }
{
    let digits = format!(in alloc; "{number}")?;
    push_zeros(text, size.saturating_sub(digits.len()))?;
    push_bytes(text, digits.as_bytes())
}

// How many parts of a whole in 100 times as many as a unit has a part is, or 0 if there is no whole.
fn scale(part: u64, whole: u64, unit: u64) -> u128
    requires small { unit ≤ 10000 }
    ensures { result ≡ scaled part whole unit }
{
    if whole == 0 {
        return 0;
    }
    u128::from(part) * u128::from(unit) * 100 / u128::from(whole)
}

// Appends a part of a whole in percent, in a decimal fraction.
#[tactic(auto, unfolding(crate::specs::Shares::share_text))]
fn push_share(
    alloc: Global,
    text: &mut Vec<u8>,
    part: u64,
    whole: u64,
    unit: u64,
    digits: usize,
) -> Result<(), AllocError>
    requires some { 0 < unit }
    requires small { unit ≤ 10000 }
    ensures { Pushes result text.old text.new (share_text part whole unit digits) }
{
    let parts = scale(part, whole, unit);
    let unit = u128::from(unit);
    push_number(alloc, text, parts / unit)?;
    push_bytes(text, b".")?;
    push_padded(alloc, text, parts % unit, digits)
}

/// Appends a part of a whole in percent, with two digits after the point.
pub(crate) fn push_percent(
    alloc: Global,
    text: &mut Vec<u8>,
    part: u64,
    whole: u64,
) -> Result<(), AllocError>
    ensures { Pushes result text.old text.new (percent_text part whole) }
{
    push_share(alloc, text, part, whole, 100, 2)
}

/// Appends a part of a whole in percent, with four digits after the point, as a place or a width has them.
pub(crate) fn push_place(
    alloc: Global,
    text: &mut Vec<u8>,
    part: u64,
    whole: u64,
) -> Result<(), AllocError>
    ensures { Pushes result text.old text.new (place_text part whole) }
{
    push_share(alloc, text, part, whole, 10_000, 4)
}
