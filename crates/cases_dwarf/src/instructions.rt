//! Instructions in their bytes.

use crate::case::Case;
use crate::values::ShowValues;
use anyhow::Result;
use dwarf_constants::{DwEhPe, Result as Answer, Vendor};
use dwarf_frame_instructions::{CallFrameInstruction, CallFrameInstructionIter};
use dwarf_frame_rows::{PointerEncodingParameters, SectionBaseAddresses};
use dwarf_readers::{Reader, ReaderOffset};
use shown_text::Shown;
use std::alloc::Global;

/// The instructions in all bytes of a section, with addresses of eight bytes.
pub fn instructions<'a, R: Reader>(
    section: &'a R,
    bases: &'a SectionBaseAddresses,
    encoding: Option<DwEhPe>,
    vendor: Vendor,
) -> CallFrameInstructionIter<'a, R> {
    let parameters = PointerEncodingParameters {
        bases,
        func_base: None,
        address_size: 8,
        section,
    };
    CallFrameInstructionIter::new(*section, encoding, parameters, vendor)
}

// How many instructions and errors there are at most.
const MOST: usize = 100;

// A line for an instruction after a mark, or for the error.
fn show_answer<T: ReaderOffset>(
    mark: &str,
    answer: Answer<CallFrameInstruction<T>>,
    shown: &mut Shown,
) {
    match answer {
        Ok(instruction) => shown.value(mark, &instruction),
        Err(error) => shown.error("  ", error),
    }
    shown.end();
}

// The instructions and an error, by `next` alone.
fn list<R: Reader>(
    alloc: Global,
    instructions: CallFrameInstructionIter<'_, R>,
) -> Result<Vec<u8>> {
    let mut shown = Shown::new(alloc);
    for answer in instructions {
        show_answer("  ", answer, &mut shown);
    }
    Ok(shown.finish()?)
}

// The same, with a mark before each instruction that `next_if_frequent` gives.
fn list_marked<R: Reader>(
    instructions: CallFrameInstructionIter<'_, R>,
    mark: &str,
    shown: &mut Shown,
) {
    let (coding, mut input) = instructions.into_parts();
    for _ in 0..MOST {
        if let Some(instruction) = coding.next_if_frequent(&mut input) {
            show_answer(mark, Ok(instruction), shown);
            continue;
        }
        match coding.next_by_call(&mut input).transpose() {
            Some(answer) => show_answer("  ", answer, shown),
            None => break,
        }
    }
}

// Adds the instructions by `next` alone, if they are others without the question for frequent ones.
fn show_otherwise<R: Reader>(
    one: CallFrameInstructionIter<'_, R>,
    other: CallFrameInstructionIter<'_, R>,
    shown: &mut Shown,
) -> Result<()> {
    let mut plain = Shown::new(shown.alloc());
    list_marked(other, "  ", &mut plain);
    let plain = plain.finish()?;
    let each = list(shown.alloc(), one)?;
    if each != plain {
        shown.text("otherwise one after the other\n");
        shown.bytes(&each);
    }
    Ok(())
}

// How addresses are encoded, if a number says it.
fn encoding_of(numbers: &[u64]) -> Result<Option<DwEhPe>> {
    match numbers.first() {
        Some(encoding) => Ok(Some(DwEhPe(u8::try_from(*encoding)?))),
        None => Ok(None),
    }
}

/// The instructions, with a star before each frequent one, and an error. They have to be the same without the question for these. The
/// number, if there is one, says how addresses are encoded.
pub fn show<R: Reader>(case: &Case<'_>, section: R, shown: &mut Shown) -> Result<()> {
    let bases = SectionBaseAddresses {
        section: case.start,
        text: None,
        data_base: None,
    };
    let encoding = encoding_of(&case.numbers)?;
    let marked = instructions(&section, &bases, encoding, case.vendor);
    let one = instructions(&section, &bases, encoding, case.vendor);
    let other = instructions(&section, &bases, encoding, case.vendor);
    list_marked(marked, "  *", shown);
    show_otherwise(one, other, shown)
}
