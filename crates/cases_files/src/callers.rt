//! Callers by ways out of functions.

use anyhow::{Context, Result};
use framehop_code_ways::{Code, CodeRange, WayUnwinding, caller_by_way, caller_by_way_in_text};
use framehop_rules::aarch64::ArchAarch64;
use framehop_rules::x86_64::ArchX86_64;
use std::alloc::Global;

// Adds a line for an address: the rule of a first frame by the code within bounds, that by all of the code, and a later frame's.
fn show_rules<A: WayUnwinding>(
    shown: &mut String,
    code: Code<'_>,
    bounds: CodeRange,
    address: u64,
) -> Result<()> {
    let within = caller_by_way::<A>(code, bounds, address, true);
    let in_text = caller_by_way_in_text::<A>(code, bounds, address, true);
    let later = caller_by_way_in_text::<A>(code, bounds, address, false);
    write!(shown, "{address}: {within:?}, {in_text:?}, {later:?}\n")?;
    Ok(())
}

/// The rules at addresses of a function, a line for each: `x86_64` or `aarch64`, the code, and the numbers of the address at which it
/// begins, of those at which the function begins and ends, and of the addresses, with a space between any two.
pub(crate) fn rules_by_ways(alloc: Global, line: &str) -> Result<String> {
    let mut words = line.split_whitespace();
    let is_aarch64 = words.next() == Some("aarch64");
    let bytes = hex::decode(alloc, words.next().context("code")?.as_bytes())?;
    let code = Code {
        begin: words
            .next()
            .context("where the code begins")?
            .parse::<u64>()?,
        bytes: bytes.as_slice(),
    };
    let bounds = CodeRange {
        begin: words
            .next()
            .context("where the function begins")?
            .parse::<u64>()?,
        end: words.next().context("where it ends")?.parse::<u64>()?,
    };
    let mut shown = String::new(alloc);
    for word in words {
        let address = word.parse::<u64>()?;
        if is_aarch64 {
            show_rules::<ArchAarch64>(&mut shown, code, bounds, address)?;
        } else {
            show_rules::<ArchX86_64>(&mut shown, code, bounds, address)?;
        }
    }
    Ok(shown)
}
