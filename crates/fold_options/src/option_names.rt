//! The names of options.

ghost use Rattle.std.specs.Prelude.{◌≡◌};
ghost use Rattle.fold_options.specs.Names.{flag_of, name_of, valued_of};

/// An option with a value, which is the word behind it.
#[derive(Clone, Copy, Debug, PartialEq, Eq)]
pub enum ValuedOption {
    /// `--root`: the folder that the names of mapped files are below.
    Root,
    /// `--build-ids`: a folder of files by their build ids.
    BuildIds,
    /// `--pid`: the id of a process.
    Pid,
    /// `--tid`: the id of a thread.
    Tid,
    /// `--comm`: the name of a process.
    Comm,
    /// `--event`: the name of an event.
    Event,
    /// `--weights`: what a sample counts for.
    Weights,
    /// `--svg`: the path of a picture.
    Svg,
}

// An option without a value.
#[derive(Clone, Copy, Debug, PartialEq, Eq)]
pub(crate) enum FlagOption {
    // `--addresses`.
    Addresses,
    // `--no-kernel`.
    NoKernel,
    // `--per-thread`.
    PerThread,
    // `--inverted`.
    Inverted,
    // `--help` or `-h`.
    Help,
}

impl ValuedOption {
    /// Its name, with its hyphens.
    pub fn name(self) -> &'static str
        ensures { result.now ≡ name_of self }
    {
        match self {
            ValuedOption::Root => "--root",
            ValuedOption::BuildIds => "--build-ids",
            ValuedOption::Pid => "--pid",
            ValuedOption::Tid => "--tid",
            ValuedOption::Comm => "--comm",
            ValuedOption::Event => "--event",
            ValuedOption::Weights => "--weights",
            ValuedOption::Svg => "--svg",
        }
    }
}

// The option with a value that has a name.
pub(crate) fn valued_of(word: &str) -> Option<ValuedOption>
    ensures { result ≡ valued_of word.now }
{
    match word {
        "--root" => Some(ValuedOption::Root),
        "--build-ids" => Some(ValuedOption::BuildIds),
        "--pid" => Some(ValuedOption::Pid),
        "--tid" => Some(ValuedOption::Tid),
        "--comm" => Some(ValuedOption::Comm),
        "--event" => Some(ValuedOption::Event),
        "--weights" => Some(ValuedOption::Weights),
        "--svg" => Some(ValuedOption::Svg),
        _ => None,
    }
}

// The option without a value that has a name.
pub(crate) fn flag_of(word: &str) -> Option<FlagOption>
    ensures { result ≡ flag_of word.now }
{
    match word {
        "--addresses" => Some(FlagOption::Addresses),
        "--no-kernel" => Some(FlagOption::NoKernel),
        "--per-thread" => Some(FlagOption::PerThread),
        "--inverted" => Some(FlagOption::Inverted),
        "--help" | "-h" => Some(FlagOption::Help),
        _ => None,
    }
}
