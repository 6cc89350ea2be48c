//! What options mean.

ghost use Rattle.std.specs.Prelude.{◌≡◌, Some};
ghost use Rattle.std.specs.Result.{result_map_both};
ghost use Rattle.fold_options.specs.Options.{defaults, read_number, read_weights, with_value};
ghost use Rattle.fold_options.specs.OptionViews.{options_seen, refusal_seen};

use crate::error::ArgumentError;
use crate::numbers::number_of;
use crate::option_names::ValuedOption;

/// What a sample counts for.
#[derive(Clone, Copy, Debug, PartialEq, Eq)]
pub enum Weights {
    /// 1.
    Samples,
    /// Its period: how many events it stands for.
    Period,
}

/// Which samples are folded: those that have all that is said here.
#[derive(Clone, Copy, Debug)]
pub struct Selection<'a> {
    /// The id of their process.
    pub pid: Option<u32>,
    /// The id of their thread.
    pub tid: Option<u32>,
    /// The name of their process.
    pub comm: Option<&'a str>,
    /// The name of their event.
    pub event: Option<&'a str>,
}

/// Where files are, which samples are folded, and how.
#[derive(Clone, Copy, Debug)]
pub struct FoldOptions<'a> {
    /// The folder that the names of mapped files are below, or no text.
    pub root: &'a str,
    /// A folder of files by their build ids.
    pub build_ids: Option<&'a str>,
    /// Which samples.
    pub selection: Selection<'a>,
    /// What a sample counts for.
    pub weights: Weights,
    /// Whether frames are addresses, and not the names of functions.
    pub addresses: bool,
    /// Whether the frames of the kernel are left out.
    pub no_kernel: bool,
    /// Whether each thread has stacks of its own.
    pub per_thread: bool,
    /// Whether a stack begins with its innermost frame.
    pub inverted: bool,
    /// The path that a picture is written to.
    pub svg: Option<&'a str>,
}

// The options of arguments that say nothing of them.
pub(crate) fn defaults<'a>() -> FoldOptions<'a>
    ensures { options_seen result ≡ defaults }
{
    FoldOptions {
        root: "",
        build_ids: None,
        selection: Selection {
            pid: None,
            tid: None,
            comm: None,
            event: None,
        },
        weights: Weights::Samples,
        addresses: false,
        no_kernel: false,
        per_thread: false,
        inverted: false,
        svg: None,
    }
}

// Options with the samples of one process alone.
fn with_pid<'a>(options: FoldOptions<'a>, pid: u32) -> FoldOptions<'a>
    ensures { options_seen result ≡ record (options_seen options.entry) { pid = Some pid } }
{
    FoldOptions {
        selection: Selection {
            pid: Some(pid),
            ..options.selection
        },
        ..options
    }
}

// Options with the samples of one thread alone.
fn with_tid<'a>(options: FoldOptions<'a>, tid: u32) -> FoldOptions<'a>
    ensures { options_seen result ≡ record (options_seen options.entry) { tid = Some tid } }
{
    FoldOptions {
        selection: Selection {
            tid: Some(tid),
            ..options.selection
        },
        ..options
    }
}

// A number that a value says.
fn read_number(word: &str) -> Result<u32, ArgumentError<'_>>
    ensures { result_map_both (λ number. number) refusal_seen result ≡ read_number word.entry.now }
{
    match number_of(word) {
        Some(number) => Ok(number),
        None => Err(ArgumentError::NotANumber(word)),
    }
}

// The weights that a value names.
fn read_weights(word: &str) -> Result<Weights, ArgumentError<'_>>
    ensures { result_map_both (λ weights. weights) refusal_seen result ≡ read_weights word.entry.now }
{
    match word {
        "samples" => Ok(Weights::Samples),
        "period" => Ok(Weights::Period),
        _ => Err(ArgumentError::UnknownWeights(word)),
    }
}

// Options with the value of one.
pub(crate) fn with_value<'a>(
    options: FoldOptions<'a>,
    option: ValuedOption,
    word: &'a str,
) -> Result<FoldOptions<'a>, ArgumentError<'a>>
    ensures { result_map_both options_seen refusal_seen result ≡ with_value (options_seen options.entry) option word.entry.now }
{
    match option {
        ValuedOption::Root => Ok(FoldOptions {
            root: word,
            ..options
        }),
        ValuedOption::BuildIds => Ok(FoldOptions {
            build_ids: Some(word),
            ..options
        }),
        ValuedOption::Pid => match read_number(word) {
            Ok(pid) => Ok(with_pid(options, pid)),
            Err(error) => Err(error),
        },
        ValuedOption::Tid => match read_number(word) {
            Ok(tid) => Ok(with_tid(options, tid)),
            Err(error) => Err(error),
        },
        ValuedOption::Comm => Ok(FoldOptions {
            selection: Selection {
                comm: Some(word),
                ..options.selection
            },
            ..options
        }),
        ValuedOption::Event => Ok(FoldOptions {
            selection: Selection {
                event: Some(word),
                ..options.selection
            },
            ..options
        }),
        ValuedOption::Weights => match read_weights(word) {
            Ok(weights) => Ok(FoldOptions { weights, ..options }),
            Err(error) => Err(error),
        },
        ValuedOption::Svg => Ok(FoldOptions {
            svg: Some(word),
            ..options
        }),
    }
}
