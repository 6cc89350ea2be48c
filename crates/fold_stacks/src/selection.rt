//! Which samples are folded, and what each counts for.

ghost use Rattle.std.specs.Prelude.{◌≡◌};
ghost use Rattle.std.specs.Option.{option_copied};
ghost use Rattle.fold_stacks.specs.Selections.{is_asked, is_named, is_selected, weight_of};

use fold_options::{Selection, Weights};
use perf_files::ThreadId;

// Whether a number is the one that is asked for, if one is.
fn is_asked(asked: Option<u32>, number: u32) -> bool
    ensures { result ≡ is_asked asked number }
{
    match asked {
        Some(asked) => asked == number,
        None => true,
    }
}

// Whether a name is the one that is asked for, if one is.
fn is_named(asked: Option<&str>, name: &[u8]) -> bool
    ensures { result ≡ is_named (option_copied asked.entry) name.now }
{
    match asked {
        Some(asked) => asked.as_bytes() == name,
        None => true,
    }
}

/// Whether a sample is folded that was taken in a thread, whose name is this, of an event of that name.
pub fn is_selected(selection: &Selection<'_>, thread: ThreadId, comm: &[u8], event: &[u8]) -> bool
    ensures { result ≡ is_selected selection.now thread comm.now event.now }
{
    is_asked(selection.pid, thread.pid)
        && is_asked(selection.tid, thread.tid)
        && is_named(selection.comm, comm)
        && is_named(selection.event, event)
}

/// What a sample counts for: 1, or how many events it stands for. If it doesn't say, that is its event's period.
pub fn weight_of(weights: Weights, recorded: Option<u64>, period: u64) -> u64
    ensures { result ≡ weight_of weights recorded period }
{
    match weights {
        Weights::Samples => 1,
        Weights::Period => recorded.unwrap_or(period),
    }
}
