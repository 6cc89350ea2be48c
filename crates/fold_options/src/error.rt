//! Why arguments aren't understood.

use crate::option_names::ValuedOption;
use std::fmt;

/// Why arguments aren't understood, with the word that is at fault.
#[derive(Clone, Copy, Debug)]
pub enum ArgumentError<'a> {
    /// There is no such option.
    UnknownOption(&'a str),
    /// The arguments end before the value of this option.
    MissingValue(ValuedOption),
    /// The value of `--pid` or `--tid` isn't decimal digits of a number below 2^32.
    NotANumber(&'a str),
    /// The value of `--weights` is neither `period` nor `samples`.
    UnknownWeights(&'a str),
    /// No recording is named.
    NoRecording,
    /// A second recording is named.
    SecondRecording(&'a str),
}

impl<'a> fmt::Display for ArgumentError<'a> {
    fn fmt<W: fmt::Write>(&self, f: &mut fmt::Formatter<W>) -> fmt::Result {
        match *self {
            ArgumentError::UnknownOption(word) => write!(f, "no option {word}"),
            ArgumentError::MissingValue(option) => {
                let name = option.name();
                write!(f, "{name} without a value")
            }
            ArgumentError::NotANumber(word) => write!(f, "{word} isn't a number below 2^32"),
            ArgumentError::UnknownWeights(word) => {
                write!(f, "weights are period or samples, not {word}")
            }
            ArgumentError::NoRecording => write!(f, "no recording is named"),
            ArgumentError::SecondRecording(word) => write!(f, "{word} is a second recording"),
        }
    }
}
