//! Runs of documents.

use crate::row::Row;
use anyhow::Result;

/// Runs the document of each line, and compares what is written, and the exit status, with those that the line states. Prints a line for
/// each mismatch, and last how many rows there were and how many mismatches.
pub(crate) fn show_documents(rt: &HostRuntime, lines: &str) -> Result<()> {
    let mut rows = 0usize;
    let mut mismatches = 0usize;
    for line in lines.lines() {
        let row = Row::parse(rt.alloc(), line)?;
        let answer = row.run(rt.alloc())?;
        if !row.wants(&answer) {
            println!(rt;
                "{}: {} with status {}",
                row.name(),
                answer.text()?,
                answer.status()
            )?;
            mismatches = mismatches.saturating_add(1);
        }
        rows = rows.saturating_add(1);
    }
    println!(rt; "{rows} rows, {mismatches} mismatches")?;
    Ok(())
}
