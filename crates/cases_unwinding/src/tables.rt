//! Steps in a module with a table of rules, and those by an index, a header and a scan.

mod arch;
mod case;
mod frames;
mod roads;

use crate::architectures::show_on;
use anyhow::{Context, Result};
pub(crate) use arch::ComparedRegs;
pub(crate) use case::Case;
pub(crate) use roads::show_steps;

/// Compares the steps for each line: `x86_64` or `aarch64`, and what [`Case::parse`] reads. Prints how many steps were made, how many of
/// them gave a caller, and at how many addresses the table says something else than at the address before, and before it each step that
/// isn't as by the index.
pub(crate) fn show_tables(rt: &HostRuntime, lines: &str) -> Result<()> {
    for line in lines.lines() {
        let (arch, case) = line.split_once(' ').context("an architecture")?;
        show_on(rt, arch == "aarch64", "steps", case.as_bytes())?;
    }
    Ok(())
}
