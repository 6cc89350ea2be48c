//! Encoded pointers.

ghost use Rattle.std.specs.Prelude.{◌≤◌};

use crate::case::Case;
use crate::values::ShowValues;
use dwarf_constants::{DwEhPe, Result as Answer};
use dwarf_frame_rows::{
    BaseAddresses, Pointer, PointerEncodingParameters, SectionBaseAddresses, parse_encoded_pointer,
    parse_encoded_value, parse_pointer_encoding,
};
use dwarf_readers::{Reader, ReaderOffset};
use shown_text::Shown;

// The offset of the pointer in its section.
const PLACE: u8 = 4;

// The pointer in an encoding, or the error. The bits of a number say which of the addresses are known that it may be relative to.
fn pointer_in<R: Reader>(
    case: &Case<'_>,
    encoding: u8,
    known: u8,
    section: &R,
    pointer: R,
) -> Answer<Pointer>
    requires { (R.stretch section.now).offset ≤ (R.stretch pointer).offset }
{
    let bases = SectionBaseAddresses {
        section: (known & 1 != 0).then_some(0xffff_ffff_ffff_f000),
        text: (known & 2 != 0).then_some(0x40_1000),
        data_base: (known & 4 != 0).then_some(0xffff_fff0),
    };
    let parameters = PointerEncodingParameters {
        bases: &bases,
        func_base: (known & 8 != 0).then_some(0x7fff_ffff_ffff_fff0),
        address_size: case.address_size,
        section,
    };
    let mut input = pointer;
    parse_encoded_pointer(DwEhPe(encoding), &parameters, &mut input)
}

// Adds a line for an encoding, which addresses are known, and the pointer or the error.
fn show_pointer(encoding: u8, known: u8, pointer: Answer<Pointer>, shown: &mut Shown) {
    shown.hex("  ", u64::from(encoding));
    shown.number(" ", u64::from(known));
    match pointer {
        Ok(pointer) => shown.value(": ", &pointer),
        Err(error) => shown.error(": ", error),
    }
    shown.end();
}

// Adds lines for an encoding in each of the 16 ways, without what is the same as the line before.
fn show_encoding<R: Reader>(
    case: &Case<'_>,
    encoding: u8,
    section: &R,
    pointer: R,
    shown: &mut Shown,
)
    requires { (R.stretch section.now).offset ≤ (R.stretch pointer).offset }
{
    let mut last = None;
    for known in 0..16 {
        let pointer = pointer_in(case, encoding, known, section, pointer);
        if last != Some(pointer) {
            show_pointer(encoding, known, pointer, shown);
            last = Some(pointer);
        }
    }
}

/// What each byte says of the pointer behind the first bytes, as its encoding, with each of the addresses that a pointer may be relative to
/// known and unknown.
pub fn show<R: Reader>(case: &Case<'_>, reader: R, shown: &mut Shown) -> Answer<()> {
    let mut pointer = reader;
    pointer.skip(R::Offset::from_u8(PLACE))?;
    for encoding in 0..=255 {
        show_encoding(case, encoding, &reader, pointer, shown);
    }
    Ok(())
}

// Adds what the next byte is as an encoding, and what is left; and a value of four bytes, and what is behind it.
fn show_behind<R: Reader>(mut input: R, mut value: R, shown: &mut Shown) {
    shown.value(" ", &parse_pointer_encoding(&mut input));
    shown.place(" ", input.offset_id());
    shown.answer(" ", parse_encoded_value(DwEhPe(0x9a), 8, &mut value));
    shown.place(" ", value.offset_id());
    shown.end();
}

/// An encoding, a pointer in it, what the next byte is as an encoding, and what is left; and the pointer's first bytes as a value.
pub fn show_one<R: Reader>(case: &Case<'_>, reader: R, shown: &mut Shown) -> Answer<()> {
    let bases = BaseAddresses::default().set_eh_frame(case.start.unwrap_or(0));
    let parameters = PointerEncodingParameters {
        bases: &bases.eh_frame,
        func_base: None,
        address_size: case.address_size,
        section: &reader,
    };
    let mut input = reader;
    let encoding = parse_pointer_encoding(&mut input)?;
    let value = input;
    let pointer = parse_encoded_pointer(encoding, &parameters, &mut input)?;
    shown.value("", &encoding);
    shown.answer(" ", pointer.direct());
    show_behind(input, value, shown);
    Ok(())
}
