//! The lines that a run writes. Each ends with a line feed.

ghost use Rattle.std.specs.Prelude.{◌≡◌, ◌++◌, ◌≢◌, ◌↔◌, Err, Some, IfOk, IsTrue, string_bytes};
ghost use Rattle.framehop_registers.specs.declared.error.Error.TheVariants.{OutOfMemory};
ghost use Rattle.unwind_run_program.specs.Lines.{answer_text, step_line};

use crate::perform::DocumentModules;
use crate::replies::ErrorName;
use framehop_rules::Error;
use std::alloc::{AllocError, Global};
use std::fmt;

/// Shows the result of a step.
#[derive(Clone, Copy)]
struct AnswerText(Result<Option<u64>, Error>);

impl fmt::Display for AnswerText {
    ghost output = { λ text. Some (answer_text text.0) };

    fn fmt<W: fmt::Write>(&self, f: &mut fmt::Formatter<W>) -> fmt::Result {
        match self.0 {
            Ok(Some(address)) => write!(f, "some 0x{address:x}"),
            Ok(None) => write!(f, "none"),
            Err(error) => write!(f, "error {}", ErrorName(error)),
        }
    }
}

/// The result of a step, and the text of the registers that it leaves.
#[derive(Clone, Copy)]
struct StepText<'a> {
    answer: Result<Option<u64>, Error>,
    registers: &'a str,
}

impl fmt::Display for StepText<'_> {
    ghost output = { λ step. Some (answer_text step.answer ++ step.registers.now) };

    fn fmt<W: fmt::Write>(&self, f: &mut fmt::Formatter<W>) -> fmt::Result {
        write!(f, "{}{}", AnswerText(self.answer), self.registers)
    }
}

// Whether a step ran out of memory.
fn wants_memory(answer: Result<Option<u64>, Error>) -> bool
    ensures { IsTrue result ↔ (answer ≡ Err OutOfMemory) }
{
    match answer {
        Ok(_) => false,
        Err(error) => match error {
            Error::OutOfMemory => true,
            _ => false,
        },
    }
}

/// The line of a step: its result, and the registers that it leaves. A step that ran out of memory has
/// no line: this call fails too.
pub(crate) fn step_line<A: DocumentModules>(
    alloc: Global,
    answer: Result<Option<u64>, Error>,
    registers: A::UnwindRegs,
) -> Result<String, AllocError>
    ensures line { IfOk result (λ text. string_bytes text ≡ step_line A.forms.text answer registers) }
    ensures memory { IfOk result (λ text. answer ≢ Err OutOfMemory) }
{
    if wants_memory(answer) {
        return Err(AllocError);
    }
    let registers = A::registers_text(alloc, registers)?;
    let registers = registers.as_str();
    format!(in alloc; "{}\n", StepText { answer, registers })
}
