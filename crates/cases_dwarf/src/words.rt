//! Words of a line, with a space between any two.

use anyhow::{Context, Result};
use std::alloc::Global;
use std::str::SplitWhitespace;

/// The next word.
pub fn word<'a>(words: &mut SplitWhitespace<'a>) -> Result<&'a str> {
    words.next().context("a word")
}

/// The next word, as bytes in hexadecimal digits.
pub fn bytes(alloc: Global, words: &mut SplitWhitespace<'_>) -> Result<Vec<u8>> {
    Ok(hex::decode(alloc, word(words)?.as_bytes())?)
}

/// The words up to the end or to the word `behind`, as numbers.
pub fn numbers(alloc: Global, words: &mut SplitWhitespace<'_>) -> Result<Vec<u64>> {
    let mut numbers = Vec::new(alloc);
    for word in words {
        if word == "behind" {
            break;
        }
        numbers.push(word.parse::<u64>()?)?;
    }
    Ok(numbers)
}
