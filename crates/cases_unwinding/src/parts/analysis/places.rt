//! Places in code, and what is found at them.

use super::detectors::Detector;
use anyhow::{Context, Result};
use std::alloc::Global;
use std::str::SplitWhitespace;

/// Code, and where in it rules are looked for.
#[derive(Drop)]
pub struct Code {
    bytes: Vec<u8>,
    offsets: Vec<usize>,
}

/// What is found at all places.
#[derive(Clone, Copy)]
pub struct Tally {
    /// How many offsets there are.
    pub places: u64,
    /// At how many of them there is a rule.
    pub rules: u64,
    /// The sum of the rules' numbers, modulo 2^64.
    pub sum: u64,
}

/// Reads lines, each with code in hexadecimal and offsets.
pub fn parse(alloc: Global, text: &str) -> Result<Vec<Code>> {
    let mut codes = Vec::new(alloc);
    for line in text.lines() {
        codes.push(parse_line(alloc, line)?)?;
    }
    Ok(codes)
}

fn parse_line(alloc: Global, line: &str) -> Result<Code> {
    let mut words = line.split_whitespace();
    let bytes = hex::decode(alloc, words.next().context("code")?.as_bytes())?;
    let offsets = parse_offsets(alloc, words)?;
    Ok(Code { bytes, offsets })
}

fn parse_offsets(alloc: Global, words: SplitWhitespace<'_>) -> Result<Vec<usize>> {
    let mut offsets = Vec::new(alloc);
    for word in words {
        offsets.push(word.parse::<usize>()?)?;
    }
    Ok(offsets)
}

/// Looks at all places. An offset outside of its code counts as one without a rule.
pub fn look<D: Detector>(codes: &[Code]) -> Tally {
    let mut tally = Tally {
        places: 0,
        rules: 0,
        sum: 0,
    };
    for code in codes {
        for &offset in &code.offsets {
            tally.places = tally.places.wrapping_add(1);
            if offset > code.bytes.len() {
                continue;
            }
            if let Some(number) = D::look(&code.bytes, offset) {
                tally.rules = tally.rules.wrapping_add(1);
                tally.sum = tally.sum.wrapping_add(number);
            }
        }
    }
    tally
}
