//! The lines of frames.

ghost use Rattle.std.specs.Prelude.{◌≡◌, map, option_map};
ghost use Rattle.std.specs.List.{flat_map};
ghost use Rattle.line_parts.specs.Parts.{Pushes};
ghost use Rattle.backtrace_text.specs.FrameViews.{frame_view, location_view, offset_view, register_view};
ghost use Rattle.backtrace_text.specs.Frames.{address_text, distance_text, file_text, frame_text, function_text, location_text, number_text, offset_text, register_text, registers_text};

use crate::cells::{push_decimal_cell, push_hexadecimal};
use crate::names::{FunctionNames, push_function_name, push_name};
use line_parts::{push_bytes, push_hex};
use std::alloc::{AllocError, Global};

/// A place in a function or a file.
#[derive(Clone, Copy, Debug)]
pub struct NamedOffset<'a> {
    /// The name of the function or the file, as bytes that may be no text.
    pub name: &'a [u8],
    /// The distance from the start of what is named, in bytes.
    pub offset: u64,
}

/// Where the code of a frame is.
#[derive(Clone, Copy, Debug)]
pub enum CodeLocation<'a> {
    /// In a program.
    Code {
        /// The address, which is the instruction pointer or a return address.
        address: u64,
        /// The function that has the code, if it is known.
        function: Option<NamedOffset<'a>>,
        /// The file that the code was loaded from, if it is known.
        file: Option<NamedOffset<'a>>,
    },
    /// In the code that a signal handler returns to.
    SignalTrampoline,
}

/// A register of a frame.
#[derive(Clone, Copy, Debug)]
pub struct RegisterValue {
    /// The name.
    pub name: &'static str,
    /// The value.
    pub value: u64,
}

/// A frame, as it is shown.
#[derive(Debug, Drop)]
pub struct ShownFrame<'a> {
    /// Where its code is.
    pub location: CodeLocation<'a>,
    /// How the name of its function is shown.
    pub names: FunctionNames,
    /// The registers that are shown with it.
    pub registers: Vec<RegisterValue>,
}

// Appends an address of 16 hexadecimal digits.
fn push_address(alloc: Global, text: &mut Vec<u8>, address: u64) -> Result<(), AllocError>
    ensures { Pushes result text.old text.new (address_text address) }
{
    push_bytes(text, b"0x")?;
    push_hex(alloc, text, 16, address)
}

// Appends the number of a frame.
fn push_number(alloc: Global, text: &mut Vec<u8>, number: u64) -> Result<(), AllocError>
    ensures { Pushes result text.old text.new (number_text number) }
{
    push_bytes(text, b"#")?;
    push_decimal_cell(alloc, text, 2, number)
}

// Appends how far something is behind a start.
fn push_distance(alloc: Global, text: &mut Vec<u8>, offset: u64) -> Result<(), AllocError>
    ensures { Pushes result text.old text.new (distance_text offset) }
{
    push_bytes(text, b"+")?;
    push_hexadecimal(alloc, text, offset)
}

// Appends a name and an offset.
fn push_offset(alloc: Global, text: &mut Vec<u8>, place: NamedOffset<'_>) -> Result<(), AllocError>
    ensures { Pushes result text.old text.new (offset_text (offset_view place.entry)) }
{
    push_name(alloc, text, place.name)?;
    push_distance(alloc, text, place.offset)
}

// Appends the function of a frame's code, or two question marks.
fn push_function(
    alloc: Global,
    text: &mut Vec<u8>,
    names: FunctionNames,
    function: Option<NamedOffset<'_>>,
) -> Result<(), AllocError>
    ensures { Pushes result text.old text.new
        (function_text names (option_map offset_view function.entry)) }
{
    match function {
        Some(function) => {
            push_function_name(alloc, text, names, function.name)?;
            push_distance(alloc, text, function.offset)
        }
        None => push_bytes(text, b"??"),
    }
}

// Appends the file of a frame's code, if it is known.
fn push_file(
    alloc: Global,
    text: &mut Vec<u8>,
    file: Option<NamedOffset<'_>>,
) -> Result<(), AllocError>
    ensures { Pushes result text.old text.new (file_text (option_map offset_view file.entry)) }
{
    match file {
        Some(file) => {
            push_bytes(text, b" from ")?;
            push_offset(alloc, text, file)
        }
        None => Ok(()),
    }
}

// Appends where a frame's code is.
fn push_location(
    alloc: Global,
    text: &mut Vec<u8>,
    names: FunctionNames,
    location: CodeLocation<'_>,
) -> Result<(), AllocError>
    ensures { Pushes result text.old text.new
        (location_text names (location_view location.entry)) }
{
    match location {
        CodeLocation::Code {
            address,
            function,
            file,
        } => {
            push_address(alloc, text, address)?;
            push_bytes(text, b" in ")?;
            push_function(alloc, text, names, function)?;
            push_file(alloc, text, file)
        }
        CodeLocation::SignalTrampoline => push_bytes(text, b"<signal handler called>"),
    }
}

// Appends a register.
fn push_register(
    alloc: Global,
    text: &mut Vec<u8>,
    register: RegisterValue,
) -> Result<(), AllocError>
    ensures { Pushes result text.old text.new (register_text (register_view register)) }
{
    push_bytes(text, b" ")?;
    push_bytes(text, register.name.as_bytes())?;
    push_bytes(text, b" ")?;
    push_address(alloc, text, register.value)
}

// Appends registers, one after the other.
fn push_each(
    alloc: Global,
    text: &mut Vec<u8>,
    registers: &[RegisterValue],
) -> Result<(), AllocError>
    ensures { Pushes result text.old text.new
        (flat_map register_text (map register_view registers.now)) }
{
    for register in registers {
        push_register(alloc, text, *register)?;
    }
    Ok(())
}

// Appends the line of a frame's registers, if some are shown.
fn push_registers(
    alloc: Global,
    text: &mut Vec<u8>,
    registers: &[RegisterValue],
) -> Result<(), AllocError>
    ensures { Pushes result text.old text.new
        (registers_text (map register_view registers.now)) }
{
    if registers.is_empty() {
        return Ok(());
    }
    push_bytes(text, b"   ")?;
    push_each(alloc, text, registers)?;
    push_bytes(text, b"\n")
}

/// Appends the line of a frame of this number, and a line of its registers, if some are shown.
pub(crate) fn push_frame(
    alloc: Global,
    text: &mut Vec<u8>,
    number: u64,
    frame: &ShownFrame<'_>,
) -> Result<(), AllocError>
    ensures { Pushes result text.old text.new (frame_text number (frame_view frame.now)) }
{
    push_number(alloc, text, number)?;
    push_location(alloc, text, frame.names, frame.location)?;
    push_bytes(text, b"\n")?;
    push_registers(alloc, text, frame.registers.as_slice())
}
