//! What is read of the fronts of a section, and of the section with each byte set to others.

use dwarf_readers::{Reader, RunTimeEndian};
use std::alloc::Global;
use std::process::Abort;
use std::test::Fail;
use test_readers::{Outcome, ReaderTest, over_each_reader};

/// A section, and the numbers of what is read: where so many of its bytes are there, from none on, and with each of its bytes set
/// to the four values. The answers are lines, numbered from 0.
pub struct Readings {
    pub bytes: &'static [u8],
    pub answers: &'static str,
    pub fronts: &'static [u8],
    pub turned: &'static [u8],
}

/// The values to which each byte is set.
const VALUES: [u8; 4] = [0x00, 0x7f, 0x80, 0xff];

impl Readings {
    // The answer with a number.
    fn answer(&self, number: u8) -> &'static str {
        self.answers
            .lines()
            .nth(usize::from(number))
            .unwrap_or("no such answer")
    }

    // So many of the bytes.
    fn front(&self, count: usize) -> &'static [u8] {
        self.bytes.get(..count).unwrap_or(self.bytes)
    }

    // The bytes with one of them set: the fourth part of the place is the byte's, and the rest the value's.
    fn turned(&self, alloc: Global, place: usize) -> Result<Vec<u8>, Fail> {
        let mut bytes = Vec::from_slice(alloc, self.bytes)?;
        if let Some(byte) = bytes.get_mut(place / 4) {
            *byte = VALUES[place % 4];
        }
        Ok(bytes)
    }
}

/// Wants an answer of what is read of some bytes.
pub trait Check<H> {
    fn check(&self, rt: &H, alloc: Global, bytes: &[u8], answer: &str) -> Outcome;
}

// Checks each front.
fn check_fronts<H, C: Check<H>>(rt: &H, alloc: Global, check: &C, readings: &Readings) -> Outcome {
    for (count, number) in readings.fronts.iter().enumerate() {
        check.check(rt, alloc, readings.front(count), readings.answer(*number))?;
    }
    Ok(())
}

// Checks the section with each byte set to each value.
fn check_turned<H, C: Check<H>>(rt: &H, alloc: Global, check: &C, readings: &Readings) -> Outcome {
    for (place, number) in readings.turned.iter().enumerate() {
        let bytes = readings.turned(alloc, place)?;
        check.check(rt, alloc, &bytes, readings.answer(*number))?;
    }
    Ok(())
}

/// Checks all that is read of a section.
pub fn check_all<H, C: Check<H>>(rt: &H, alloc: Global, check: &C, readings: &Readings) -> Outcome {
    check_fronts(rt, alloc, check, readings)?;
    check_turned(rt, alloc, check, readings)
}

/// A call that is generic over the reader, by the text of what it gives.
pub trait Reading {
    fn text<R: Reader>(&self, alloc: Global, reader: R) -> Result<String, Fail>;
}

/// Checks a call over each reader.
#[derive(Drop)]
pub struct OverReaders<T>(pub T);

// Wants one answer of a call.
#[derive(Drop)]
struct Wanted<'a, T> {
    reading: &'a T,
    answer: &'a str,
}

impl<H: Abort, T: Reading> ReaderTest<H> for Wanted<'_, T> {
    fn run<R: Reader>(&self, rt: &H, alloc: Global, reader: R) -> Outcome {
        let text = self.reading.text(alloc, reader)?;
        assert!(rt; text.as_str() == self.answer, "{text}");
        Ok(())
    }
}

impl<H: Abort, T: Reading> Check<H> for OverReaders<T> {
    fn check(&self, rt: &H, alloc: Global, bytes: &[u8], answer: &str) -> Outcome {
        let wanted = Wanted {
            reading: &self.0,
            answer,
        };
        over_each_reader(rt, alloc, &wanted, bytes, RunTimeEndian::Little)
    }
}
