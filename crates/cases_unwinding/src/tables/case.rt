//! What a line of the input asks for.

use anyhow::{Context, Result};
use std::alloc::Global;
use std::str::SplitWhitespace;

/// A module's sections, and addresses at which steps are made.
#[derive(Drop)]
pub struct Case {
    /// The name of the section of call frames.
    pub is_debug_frame: bool,
    /// The address of the file that relative addresses are relative to.
    pub base: u64,
    pub text: u64,
    pub section_start: u64,
    pub section: Vec<u8>,
    pub header_start: u64,
    pub header: Vec<u8>,
    /// Addresses that an FDE contains: there steps by all four are compared.
    pub inside: Vec<u32>,
    /// Others, relative to the base too, at which steps by the table and by the index are compared.
    pub others: Vec<u32>,
}

// A number in hexadecimal digits.
fn number(words: &mut SplitWhitespace<'_>) -> Result<u64> {
    Ok(u64::from_str_radix(words.next().context("a number")?, 16)?)
}

// Bytes in hexadecimal digits, after a letter.
fn bytes(alloc: Global, words: &mut SplitWhitespace<'_>) -> Result<Vec<u8>> {
    let word = words.next().context("bytes")?.as_bytes();
    Ok(hex::decode(alloc, word.get(1..).context("a letter")?)?)
}

impl Case {
    /// Reads a line without its first word, with spaces between its words, numbers in hexadecimal digits: `.eh_frame` or
    /// `.debug_frame`; the module's base as the file states it, and the address of `.text`; the section's address, and its
    /// bytes in hexadecimal digits after an `x`; those of `.eh_frame_hdr`; and addresses relative to the base: those inside
    /// FDEs, a `/`, and others.
    pub fn parse(alloc: Global, line: &str) -> Result<Self> {
        let mut words = line.split_whitespace();
        let is_debug_frame = words.next() == Some(".debug_frame");
        let mut case = Case {
            is_debug_frame,
            base: number(&mut words)?,
            text: number(&mut words)?,
            section_start: number(&mut words)?,
            section: bytes(alloc, &mut words)?,
            header_start: number(&mut words)?,
            header: bytes(alloc, &mut words)?,
            inside: Vec::new(alloc),
            others: Vec::new(alloc),
        };
        let mut is_inside = true;
        for word in words {
            if word == "/" {
                is_inside = false;
            } else if is_inside {
                case.inside.push(u32::from_str_radix(word, 16)?)?;
            } else {
                case.others.push(u32::from_str_radix(word, 16)?)?;
            }
        }
        Ok(case)
    }
}
