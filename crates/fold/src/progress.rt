//! How far the records of a recording are taken, on a terminal.

use anyhow::Result;
use std::io::IsTerminal;

/// How many of the records are taken, in hundredths, on a line of its own if standard error is a terminal.
#[derive(Debug, Clone, Copy)]
pub(crate) struct Progress {
    // How many records there are.
    records: u64,
    // The hundredths that stand on the line, if standard error is a terminal.
    shown: Option<u64>,
}

impl Progress {
    /// None of so many records is taken.
    pub(crate) fn new(rt: &HostRuntime, records: usize) -> Self {
        Progress {
            records: records as u64,
            shown: if rt.stderr().is_terminal() {
                Some(0)
            } else {
                None
            },
        }
    }

    /// Shows that so many records are taken.
    pub(crate) fn show(&mut self, rt: &HostRuntime, taken: usize) -> Result<()> {
        let Some(shown) = self.shown else {
            return Ok(());
        };
        let hundredths = (taken as u64)
            .saturating_mul(100)
            .checked_div(self.records)
            .unwrap_or(100);
        if hundredths != shown {
            eprint!(rt; "\rfold: {hundredths} % of the records")?;
            self.shown = Some(hundredths);
        }
        Ok(())
    }
}

/// Clears the line of the progress, if standard error is a terminal.
pub(crate) fn clear_line(rt: &HostRuntime) -> Result<()> {
    if rt.stderr().is_terminal() {
        eprint!(rt; "\r\x1b[K")?;
    }
    Ok(())
}
