//! One row: a document, and what a run of it has to write.

ghost use Rattle.std.specs.Prelude.{◌≡◌, [], IfOk, Some, codes, option_map, unwrap_or};
ghost use Rattle.serde_json.specs.Read.{read as read_text};
ghost use Rattle.serde_json.specs.View.{view};
ghost use Rattle.unwind_run_program.specs.Text.{ending_of, text_of};
ghost use Rattle.json_program.specs.declared.status.Outcome.TheVariants.{Completed, Faulted};
ghost use Rattle.cases_unwinding.specs.Wanted.{document_of, is_wanted, number_field, text_field};

use anyhow::{Context, Result};
use serde_json::Value;
use std::alloc::Global;
use unwind_run_program::{Program, Streamed, UnwindCommands};

/// A row of the data.
#[derive(Drop)]
pub struct Row {
    fields: Value,
}

/// What a run wrote, and its exit status.
#[derive(Drop)]
pub struct Answer {
    bytes: Vec<u8>,
    status: u8,
}

impl Row {
    /// Reads a row from a line of JSON.
    pub fn parse(alloc: Global, line: &str) -> Result<Row>
        ensures { IfOk result (λ row. read_text line.now ≡ Some (view row.fields)) }
    {
        let fields = Value::from_str(alloc, line).context("a row is JSON")?;
        Ok(Row { fields })
    }

    /// The row's name.
    pub fn name(&self) -> &str
        ensures { result.now ≡ unwrap_or (text_field (codes "name") (view self.now.fields)) [] }
    {
        self.text("name").unwrap_or("")
    }

    /// Runs the row's document over memory.
    pub fn run(&self, alloc: Global) -> Result<Answer>
        ensures bytes { IfOk result (λ answer.
            answer.bytes.items ≡ text_of (document_of (view self.now.fields))) }
        ensures completed { IfOk result (λ answer.
            ending_of (document_of (view self.now.fields)) ≡ Completed → answer.status ≡ 0) }
        ensures faulted { IfOk result (λ answer.
            ending_of (document_of (view self.now.fields)) ≡ Faulted → answer.status ≡ 2) }
    {
        let mut source = Streamed::new(self.text("text").unwrap_or("").as_bytes());
        let mut sink = Streamed::new(Vec::new(alloc));
        let status = UnwindCommands::run(alloc, &mut source, &mut sink)?.status();
        Ok(Answer {
            bytes: sink.into_inner(),
            status,
        })
    }

    /// Whether what was written and the exit status are those that the row states. They never are if the row states none.
    pub fn wants(&self, answer: &Answer) -> bool
        ensures { result
            ≡ is_wanted (view self.now.fields) answer.now.bytes.items answer.now.status }
    {
        let Some(stdout) = self.text("stdout") else {
            return false;
        };
        let Some(status) = self.number("status") else {
            return false;
        };
        stdout.as_bytes() == answer.bytes.as_slice() && status == u64::from(answer.status)
    }

    // The text in a field.
    fn text(&self, field: &str) -> Option<&str>
        ensures { option_map (λ s. s.now) result ≡ text_field field.now (view self.now.fields) }
    {
        match self.fields.get(field) {
            Some(value) => value.as_str(),
            None => None,
        }
    }

    // The number in a field.
    fn number(&self, field: &str) -> Option<u64>
        ensures { result ≡ number_field field.now (view self.now.fields) }
    {
        match self.fields.get(field) {
            Some(value) => value.as_u64(),
            None => None,
        }
    }
}

impl Answer {
    /// What was written, as text.
    pub fn text(&self) -> Result<&str>
        ensures { IfOk result (λ text. text.now ≡ self.now.bytes.items) }
    {
        Ok(std::str::from_utf8(self.bytes.as_slice())?)
    }

    /// The exit status.
    pub fn status(&self) -> u8
        ensures { result ≡ self.now.status }
    {
        self.status
    }
}
