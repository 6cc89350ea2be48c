//! What earlier commands made.

ghost use Rattle.std.specs.Prelude.{◌≡◌, ◌+◌, ◌<◌, ◌≤◌, ◌^◌};
ghost use Rattle.serde_json.specs.View.{view};
ghost use Rattle.unwind_run_document.specs.Made.{made_after, made_number};
ghost use Rattle.unwind_run_document.specs.CommandViews.{made_view, task_of};

use crate::command::Command;
use json_program::FaultName;
use json_program::check::Checked;
use json_program::field::number_field;
use serde_json::Value;

/// How many unwinders and caches earlier commands made.
#[derive(Clone, Copy, Debug, PartialEq, Eq)]
pub(crate) struct Made {
    pub(crate) unwinders: usize,
    pub(crate) caches: usize,
}

/// Adds what a command makes.
pub(crate) fn add(made: &mut Made, command: &Command)
    requires unwinders { made.old.unwinders + 1 < 2 ^ 64 }
    requires caches { made.old.caches + 1 < 2 ^ 64 }
    ensures made { made_view made.new ≡ made_after (made_view made.old) (task_of command.now) }
    ensures few_unwinders { made.new.unwinders ≤ made.old.unwinders + 1 }
    ensures few_caches { made.new.caches ≤ made.old.caches + 1 }
{
    match command {
        Command::Unwinder | Command::Clone(_) => made.unwinders += 1,
        Command::Cache(_) => made.caches += 1,
        _ => {}
    }
}

/// The number in a field, of something that earlier commands made.
pub(crate) fn made_number(object: &Value, name: &str, count: usize) -> Checked<usize>
    ensures { result ≡ made_number count name.now (view object.now) }
{
    let number = number_field(object, name)?;
    if number < count as u64 {
        Ok(number as usize)
    } else {
        Err(FaultName::UnknownNumber)
    }
}
