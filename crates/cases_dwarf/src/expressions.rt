//! The bytes of expressions, by their offsets in a section.

use crate::values::ShowValues;
use anyhow::Result;
use dwarf_constants::Result as Answer;
use dwarf_frame_rows::UnwindExpression;
use dwarf_frame_sections::EhFrame;
use dwarf_operations::Expression;
use dwarf_readers::{Reader, ReaderOffset};
use shown_text::Shown;

// A line with the bytes of an expression and their offset.
fn show_bytes<R: Reader>(bytes: R, shown: &mut Shown) -> Answer<()> {
    shown.place("  ", bytes.offset_id());
    let bytes = bytes.to_slice(shown.alloc())?;
    shown.value(" ", &bytes.as_slice());
    shown.end();
    Ok(())
}

// An expression at an offset with a length.
fn expression<T: ReaderOffset>(offset: u64, length: u64) -> Answer<UnwindExpression<T>> {
    Ok(UnwindExpression {
        offset: T::from_u64(offset)?,
        length: T::from_u64(length)?,
    })
}

// A line with the bytes of the expression at an offset with a length, or the error.
fn show_one<R: Reader>(
    section: &EhFrame<R>,
    offset: u64,
    length: u64,
    shown: &mut Shown,
) -> Answer<()> {
    let expression = expression::<R::Offset>(offset, length)?;
    match expression.get(section) {
        Ok(Expression(bytes)) => show_bytes(bytes, shown),
        Err(error) => {
            shown.error_line("  ", error);
            Ok(())
        }
    }
}

/// For each two numbers, an expression's offset and its length: its bytes and their offset, or the error.
pub fn show<R: Reader>(numbers: &[u64], reader: R, shown: &mut Shown) -> Result<()> {
    let section = EhFrame::from(reader);
    for pair in numbers.chunks(2) {
        if let [offset, length] = pair {
            show_one(&section, *offset, *length, shown)?;
        }
    }
    Ok(())
}
