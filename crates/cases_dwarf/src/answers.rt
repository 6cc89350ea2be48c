//! What readers of every kind answer, row by row of a file. A row has a byte order, bytes in hexadecimal, and steps:
//! `little 8001: uleb128, free_uleb128 = 128 at 2..2; is_empty = true at 2..2`. The questions of a step are each asked at the same place,
//! and the next step goes on after the last. Questions without an answer are asked from each offset on, and readers of all kinds have to
//! answer them alike.

mod expressions;
mod numbers;
mod question;
mod readers;
mod row;
mod sections;
mod stored;

use anyhow::{Result, bail};
use question::Subject;
use row::Row;
use shown_text::Shown;

// What the rows of a file of this name are about.
fn subject_of(file: &str) -> Result<Subject> {
    match file {
        "numbers.txt" | "readers.txt" => Ok(Subject::Readers),
        "sections.txt" | "real_sections.txt" => Ok(Subject::Sections),
        "expressions.txt" | "expression_values.txt" => Ok(Subject::Expressions),
        _ => bail!("no questions have a file of this name"),
    }
}

/// Compares the rows of a file with what readers answer: shows a line for each mismatch, and last how many rows there were and how many
/// mismatches.
pub fn show_mismatches(file: &str, rows: &str, shown: &mut Shown) -> Result<()> {
    let subject = subject_of(file)?;
    let mut count = 0u64;
    let mut mismatches = 0u64;
    for line in rows.lines() {
        let row = Row::parse(shown.alloc(), subject, line)?;
        if let Some(found) = row.first_mismatch(shown.alloc())? {
            shown.text(found.as_str());
            shown.text(", in ");
            shown.text(line);
            shown.end();
            mismatches = mismatches.saturating_add(1);
        }
        count = count.saturating_add(1);
    }
    shown.text(file);
    shown.number(": ", count);
    shown.number(" rows, ", mismatches);
    shown.text(" mismatches");
    shown.end();
    Ok(())
}
