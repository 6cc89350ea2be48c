//! What arguments ask for.

ghost use Rattle.std.specs.Prelude.{◌≡◌, map, string_bytes};
ghost use Rattle.std.specs.Result.{result_map_both};
ghost use Rattle.fold_options.specs.Arguments.{asked_by, begins_with_dash, request_of, said_next, said_recording, said_word, with_flag};
ghost use Rattle.fold_options.specs.ArgumentViews.{request_seen, said_seen};
ghost use Rattle.fold_options.specs.OptionViews.{refusal_seen};

use crate::error::ArgumentError;
use crate::option_names::{FlagOption, ValuedOption, flag_of, valued_of};
use crate::options::{FoldOptions, defaults, with_value};

/// How the program is called.
pub const USAGE: &str =
    "usage: fold FILE [--root DIR] [--build-ids DIR] [--svg FILE] [--addresses] [--inverted] [--per-thread] [--no-kernel]
            [--weights period|samples] [--pid N] [--tid N] [--comm NAME] [--event NAME]
Prints the stacks of a recording of perf (perf record --call-graph dwarf), folded: a line for each, with its samples.
  --root DIR        reads the files that the recording names below DIR
  --build-ids DIR   reads files by their build ids, at DIR/ab/cdef..
  --svg FILE        writes a flame graph to FILE
  --addresses       prints addresses in place of names
  --inverted        begins each stack with its innermost frame
  --per-thread      counts the stacks of each thread apart
  --no-kernel       leaves out the frames of the kernel
  --weights period  counts the events that samples stand for, and not the samples
  --pid N, --tid N, --comm NAME, --event NAME
                    takes the samples of one process, thread, name of a process or event alone";

/// A recording that is to be folded.
#[derive(Clone, Copy, Debug)]
pub struct FoldRequest<'a> {
    /// The path of the recording.
    pub recording: &'a str,
    /// How it is folded.
    pub options: FoldOptions<'a>,
}

/// What arguments ask for.
#[derive(Clone, Copy, Debug)]
pub enum Request<'a> {
    /// The folded stacks of a recording.
    Fold(FoldRequest<'a>),
    /// How the program is called.
    Help,
}

// What the words so far say.
#[derive(Clone, Copy, Debug)]
struct Said<'a> {
    recording: Option<&'a str>,
    options: FoldOptions<'a>,
    help: bool,
    // The option whose value the next word is.
    awaited: Option<ValuedOption>,
}

// Whether a word begins as an option does.
fn begins_with_dash(word: &str) -> bool
    ensures { result ≡ begins_with_dash word.now }
{
    match word.as_bytes() {
        [first, ..] => *first == b'-',
        [] => false,
    }
}

// What the words say, with an option that has no value.
fn with_flag<'a>(said: Said<'a>, flag: FlagOption) -> Said<'a>
    ensures { said_seen result ≡ with_flag (said_seen said.entry) flag }
{
    match flag {
        FlagOption::Addresses => Said {
            options: FoldOptions {
                addresses: true,
                ..said.options
            },
            ..said
        },
        FlagOption::NoKernel => Said {
            options: FoldOptions {
                no_kernel: true,
                ..said.options
            },
            ..said
        },
        FlagOption::PerThread => Said {
            options: FoldOptions {
                per_thread: true,
                ..said.options
            },
            ..said
        },
        FlagOption::Inverted => Said {
            options: FoldOptions {
                inverted: true,
                ..said.options
            },
            ..said
        },
        FlagOption::Help => Said { help: true, ..said },
    }
}

// What the words say, with a recording, if there is none yet.
fn said_recording<'a>(said: Said<'a>, word: &'a str) -> Result<Said<'a>, ArgumentError<'a>>
    ensures { result_map_both said_seen refusal_seen result ≡ said_recording (said_seen said.entry) word.entry.now }
{
    if begins_with_dash(word) {
        return Err(ArgumentError::UnknownOption(word));
    }
    if said.recording.is_some() {
        return Err(ArgumentError::SecondRecording(word));
    }
    Ok(Said {
        recording: Some(word),
        ..said
    })
}

// What the words say, with one that is no value of an option.
fn said_word<'a>(said: Said<'a>, word: &'a str) -> Result<Said<'a>, ArgumentError<'a>>
    ensures { result_map_both said_seen refusal_seen result ≡ said_word (said_seen said.entry) word.entry.now }
{
    if let Some(option) = valued_of(word) {
        return Ok(Said {
            awaited: Some(option),
            ..said
        });
    }
    match flag_of(word) {
        Some(flag) => Ok(with_flag(said, flag)),
        None => said_recording(said, word),
    }
}

// What the words say, with one more.
fn said_next<'a>(said: Said<'a>, word: &'a str) -> Result<Said<'a>, ArgumentError<'a>>
    ensures { result_map_both said_seen refusal_seen result ≡ said_next (said_seen said.entry) word.entry.now }
{
    let Some(option) = said.awaited else {
        return said_word(said, word);
    };
    match with_value(said.options, option, word) {
        Ok(options) => Ok(Said {
            options,
            awaited: None,
            ..said
        }),
        Err(error) => Err(error),
    }
}

// What words ask for, once all are read.
fn asked_by<'a>(said: Said<'a>) -> Result<Request<'a>, ArgumentError<'a>>
    ensures { result_map_both request_seen refusal_seen result ≡ asked_by (said_seen said.entry) }
{
    if let Some(option) = said.awaited {
        return Err(ArgumentError::MissingValue(option));
    }
    if said.help {
        return Ok(Request::Help);
    }
    match said.recording {
        Some(recording) => Ok(Request::Fold(FoldRequest {
            recording,
            options: said.options,
        })),
        None => Err(ArgumentError::NoRecording),
    }
}

/// What the arguments ask for, after the program's name: options in any order and one recording. Of an option that stands twice the
/// later value counts. The first word that is at fault is named, and else what is missing.
pub fn request_of(words: &[String]) -> Result<Request<'_>, ArgumentError<'_>>
    ensures { result_map_both request_seen refusal_seen result ≡ request_of (map string_bytes words.now) }
{
    let mut said = Said {
        recording: None,
        options: defaults(),
        help: false,
        awaited: None,
    };
    for word in words {
        match said_next(said, word.as_str()) {
            Ok(next) => said = next,
            Err(error) => return Err(error),
        }
    }
    asked_by(said)
}
