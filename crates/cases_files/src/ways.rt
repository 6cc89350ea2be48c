//! Ways out of functions on x86_64.

use crate::text::show_debug;
use anyhow::{Context, Result};
use framehop_x86_ways::{Bounds, first_way, way_rule};
use shown_text::Shown;

// Where a function begins and ends, and a place, with a space between any two.
fn numbers_of(line: &str) -> Result<(usize, usize, usize)> {
    let mut words = line.split_whitespace();
    let begin = words.next().context("where it begins")?.parse::<usize>()?;
    let end = words.next().context("where it ends")?.parse::<usize>()?;
    let at = words.next().context("a place")?.parse::<usize>()?;
    Ok((begin, end, at))
}

/// Shows the rule of the first way out of a function from a place, or that there is no way: the first line has the code, and each other
/// line where a function begins and ends in it, and a place.
pub(crate) fn show_ways(lines: &str, shown: &mut Shown) -> Result<()> {
    let mut lines = lines.lines();
    let digits = lines.next().context("the code")?;
    let text = hex::decode(shown.alloc(), digits.as_bytes())?;
    for line in lines {
        let (begin, end, at) = numbers_of(line)?;
        match first_way(&text, Bounds { begin, end }, at) {
            Some(way) => show_debug("rule", &way_rule(way.as_slice()), shown),
            None => {
                shown.text("no way");
                shown.end();
            }
        }
    }
    Ok(())
}
