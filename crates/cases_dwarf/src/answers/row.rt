//! A row, and the readers that it is compared with.

use crate::answers::question::{Question, Subject, UNKNOWN};
use crate::answers::{expressions, readers, sections};
use anyhow::{Context, Result};
use dwarf_readers::{EndianSlice, Reader, ReaderOffset, RunTimeEndian, TwoPieces};
use std::alloc::Global;
use test_readers::Backward;

/// The bytes of a row, and its steps.
#[derive(Drop)]
pub struct Row<'a> {
    subject: Subject,
    endian: RunTimeEndian,
    bytes: Vec<u8>,
    steps: &'a str,
}

// A question, with what a reader answers it.
fn said(alloc: Global, question: &str, answer: &str) -> Result<Option<String>> {
    Ok(Some(format!(in alloc; "{question} = {answer}")?))
}

impl<'a> Row<'a> {
    /// Reads a row from a line.
    pub fn parse(alloc: Global, subject: Subject, line: &'a str) -> Result<Row<'a>> {
        let (head, steps) = line.split_once(": ").context("steps")?;
        let (order, digits) = head.split_once(' ').context("bytes")?;
        let endian = match order {
            "big" => RunTimeEndian::Big,
            _ => RunTimeEndian::Little,
        };
        let bytes = hex::decode(alloc, digits.as_bytes())?;
        Ok(Row {
            subject,
            endian,
            bytes,
            steps,
        })
    }

    /// What a reader answers otherwise than the row states, if one does: in one piece, stored backward, or in two pieces.
    pub fn first_mismatch(&self, alloc: Global) -> Result<Option<String>> {
        let bytes = self.bytes.as_slice();
        let whole = self.mismatch(alloc, EndianSlice::new(bytes, self.endian))?;
        if whole.is_some() {
            return Ok(whole);
        }
        u32::try_from(bytes.len())?;
        let mut stored = Vec::from_slice(alloc, bytes)?;
        stored.reverse();
        let backward = self.mismatch(alloc, Backward::new_at(&stored, self.endian, 0))?;
        if backward.is_some() {
            return Ok(backward);
        }
        self.mismatch_in_pieces(alloc, bytes)
    }

    // The same of the bytes in two pieces, cut at each offset.
    fn mismatch_in_pieces(&self, alloc: Global, bytes: &[u8]) -> Result<Option<String>> {
        for cut in 0..bytes.len() + 1 {
            let pieces = TwoPieces::new(&bytes[..cut], &bytes[cut..], self.endian);
            let found = self.mismatch(alloc, pieces)?;
            if found.is_some() {
                return Ok(found);
            }
        }
        Ok(None)
    }

    // The same of one reader.
    fn mismatch<R: Reader>(&self, alloc: Global, reader: R) -> Result<Option<String>> {
        let mut reader = reader;
        for step in self.steps.split("; ") {
            let found = match step.split_once(" = ") {
                Some((asked, wanted)) => self.other_answer(alloc, &mut reader, asked, wanted)?,
                None => self.other_than_in_one_piece(alloc, reader, step)?,
            };
            if found.is_some() {
                return Ok(found);
            }
        }
        Ok(None)
    }

    // The first of these questions that has another answer. The reader goes on after the last.
    fn other_answer<R: Reader>(
        &self,
        alloc: Global,
        reader: &mut R,
        asked: &str,
        wanted: &str,
    ) -> Result<Option<String>> {
        let start = *reader;
        for question in asked.split(", ") {
            *reader = start;
            let answer = self.ask(alloc, reader, question)?;
            if answer.as_str() != wanted {
                return said(alloc, question, &answer);
            }
        }
        Ok(None)
    }

    // The first of these questions that has another answer than from a reader in one piece, at any offset.
    fn other_than_in_one_piece<R: Reader>(
        &self,
        alloc: Global,
        reader: R,
        asked: &str,
    ) -> Result<Option<String>> {
        let bytes = self.bytes.as_slice();
        for start in 0..bytes.len() + 1 {
            let mut whole = EndianSlice::new(bytes, self.endian);
            whole.skip(start)?;
            let mut other = reader;
            other.skip(ReaderOffset::from_u64(start as u64)?)?;
            for question in asked.split(", ") {
                let found = self.disagreement(alloc, whole, other, question)?;
                if found.is_some() {
                    return Ok(found);
                }
            }
        }
        Ok(None)
    }

    // What the second of two readers answers, if the first answers otherwise.
    fn disagreement<A: Reader, B: Reader>(
        &self,
        alloc: Global,
        mut one: A,
        mut two: B,
        question: &str,
    ) -> Result<Option<String>> {
        let wanted = self.ask(alloc, &mut one, question)?;
        let answer = self.ask(alloc, &mut two, question)?;
        if answer == wanted && answer.as_str() != UNKNOWN {
            return Ok(None);
        }
        said(alloc, question, &answer)
    }

    // What a reader answers.
    fn ask<R: Reader>(&self, alloc: Global, reader: &mut R, question: &str) -> Result<String> {
        let question = Question::parse(question)?;
        match self.subject {
            Subject::Readers => readers::answer(alloc, reader, question),
            Subject::Sections => sections::answer(alloc, *reader, question),
            Subject::Expressions => expressions::answer(alloc, *reader, question),
        }
    }
}
