//! Values as `{:?}` writes them, as parts of a text.

use dwarf_constants::{Error, ReaderOffsetId, Result as Answer};
use shown_text::Shown;
use std::fmt::Debug;

/// What adds values to a text. Each is written after a text, which separates it from the value before.
pub trait ShowValues {
    /// Adds a value, as `{:?}` writes it.
    fn value<T: Debug>(&mut self, before: &str, value: &T);

    /// Adds the same as a line.
    fn line<T: Debug>(&mut self, value: &T);

    /// Adds an offset of a reader.
    fn place(&mut self, before: &str, place: ReaderOffsetId);

    /// Adds whether something is so.
    fn flag(&mut self, before: &str, flag: bool);

    /// Adds a number or an error, as `Ok(20)`.
    fn answer(&mut self, before: &str, answer: Answer<u64>);

    /// Adds an error.
    fn error(&mut self, before: &str, error: Error);

    /// Adds an error as the rest of a line.
    fn error_line(&mut self, before: &str, error: Error);
}

impl ShowValues for Shown {
    fn value<T: Debug>(&mut self, before: &str, value: &T) {
        match format!(in self.alloc(); "{before}{value:?}") {
            Ok(text) => self.text(text.as_str()),
            Err(error) => self.keep(Err(error)),
        }
    }

    fn line<T: Debug>(&mut self, value: &T) {
        self.value("", value);
        self.end();
    }

    fn place(&mut self, before: &str, place: ReaderOffsetId) {
        self.value(before, &place);
    }

    fn flag(&mut self, before: &str, flag: bool) {
        self.value(before, &flag);
    }

    fn answer(&mut self, before: &str, answer: Answer<u64>) {
        self.value(before, &answer);
    }

    fn error(&mut self, before: &str, error: Error) {
        self.value(before, &error);
    }

    fn error_line(&mut self, before: &str, error: Error) {
        self.error(before, error);
        self.end();
    }
}
