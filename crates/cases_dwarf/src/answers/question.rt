//! Questions as they are written, and answers as text.

use dwarf_constants::Result;
use std::alloc::Global;
use std::fmt::Debug;

/// What the rows of a file are about.
#[derive(Clone, Copy)]
pub enum Subject {
    Readers,
    Sections,
    Expressions,
}

/// The answer to a question that there isn't, which no row states.
pub const UNKNOWN: &str = "no such question";

/// A question's name, and up to three numbers, each after a colon. Those that aren't there are 0.
#[derive(Clone, Copy)]
pub struct Question<'a> {
    pub name: &'a str,
    pub numbers: [u64; 3],
}

// A number in decimal digits, or in hexadecimal ones after `0x`.
fn number(word: Option<&str>) -> anyhow::Result<u64> {
    let Some(word) = word else {
        return Ok(0);
    };
    match word.strip_prefix("0x") {
        Some(digits) => Ok(u64::from_str_radix(digits, 16)?),
        None => Ok(word.parse::<u64>()?),
    }
}

impl<'a> Question<'a> {
    /// Reads a question, as `address:8:0x18:1`.
    pub fn parse(text: &'a str) -> anyhow::Result<Question<'a>> {
        let mut words = text.split(':');
        let name = words.next().unwrap_or("");
        let numbers = [
            number(words.next())?,
            number(words.next())?,
            number(words.next())?,
        ];
        Ok(Question { name, numbers })
    }

    /// The first number, as a byte.
    pub fn byte(&self) -> u8 {
        (self.numbers[0] & 0xff) as u8
    }
}

/// The text of an answer.
pub fn text<T: Debug + Drop>(alloc: Global, answer: Result<T>) -> Result<String> {
    let value = answer?;
    Ok(format!(in alloc; "{value:?}")?)
}

/// The text of an answer or an error.
pub fn with_errors(alloc: Global, answer: Result<String>) -> anyhow::Result<String> {
    match answer {
        Ok(text) => Ok(text),
        Err(error) => Ok(format!(in alloc; "{error:?}")?),
    }
}

/// What a question that there isn't is answered.
pub fn unknown(alloc: Global) -> Result<String> {
    Ok(String::from_str(alloc, UNKNOWN)?)
}
