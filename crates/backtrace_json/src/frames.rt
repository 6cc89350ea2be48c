//! Frames as values of JSON.

ghost use Rattle.std.specs.Prelude.{◌≡◌, ◌∷◌, ◌++◌, codes, map, option_map};
ghost use Rattle.std.specs.List.{flat_map};
ghost use Rattle.json.specs.Tree.{json_tokens};
ghost use Rattle.backtrace_text.specs.FrameViews.{frame_view, offset_view, register_view};
ghost use Rattle.backtrace_text.specs.Names.{function_name};
ghost use Rattle.backtrace_json.specs.Frames.{file_value, frame_value, function_value, offset_value, registers_value};
ghost use Rattle.backtrace_json.specs.Parts.{file_tokens, frame_tokens, function_tokens, register_tokens};
ghost use Rattle.backtrace_json.specs.Values.{text_value};
ghost use Rattle.backtrace_json.specs.Writers.{Adds};

use crate::values::{add_address, add_address_if, add_number, add_text};
use backtrace_text::{CodeLocation, FunctionNames, NamedOffset, RegisterValue, ShownFrame};
use json::Writer;
use std::alloc::{AllocError, Global};
use symbol_names::demangled;

// Adds the name of a function that a symbol has.
fn add_function_name(
    alloc: Global,
    writer: &mut Writer,
    names: FunctionNames,
    name: &[u8],
) -> Result<(), AllocError>
    ensures { Adds result writer.old writer.new
        (json_tokens (text_value (function_name names name.now))) }
{
    match names {
        FunctionNames::Raw => add_text(alloc, writer, name),
        FunctionNames::Demangled => match demangled(alloc, name)? {
            Some(written) => add_text(alloc, writer, written.as_slice()),
            None => add_text(alloc, writer, name),
        },
    }
}

// Adds the name of a function, or null if none is known.
fn add_function(
    alloc: Global,
    writer: &mut Writer,
    names: FunctionNames,
    function: Option<NamedOffset<'_>>,
) -> Result<(), AllocError>
    ensures { Adds result writer.old writer.new
        (json_tokens (function_value names (option_map offset_view function.entry))) }
{
    match function {
        Some(function) => add_function_name(alloc, writer, names, function.name),
        None => writer.null(),
    }
}

// Adds the name of a file, or null if none is known.
fn add_file(
    alloc: Global,
    writer: &mut Writer,
    file: Option<NamedOffset<'_>>,
) -> Result<(), AllocError>
    ensures { Adds result writer.old writer.new
        (json_tokens (file_value (option_map offset_view file.entry))) }
{
    match file {
        Some(file) => add_text(alloc, writer, file.name),
        None => writer.null(),
    }
}

// Adds the offset of a place, or null if none is known.
fn add_offset(writer: &mut Writer, place: Option<NamedOffset<'_>>) -> Result<(), AllocError>
    ensures { Adds result writer.old writer.new
        (json_tokens (offset_value (option_map offset_view place.entry))) }
{
    match place {
        Some(place) => add_number(writer, place.offset),
        None => writer.null(),
    }
}

// Adds the members of a frame's function.
fn add_function_members(
    alloc: Global,
    writer: &mut Writer,
    names: FunctionNames,
    function: Option<NamedOffset<'_>>,
) -> Result<(), AllocError>
    ensures { Adds result writer.old writer.new
        (function_tokens names (option_map offset_view function.entry)) }
{
    writer.key("function")?;
    add_function(alloc, writer, names, function)?;
    writer.key("offset")?;
    add_offset(writer, function)
}

// Adds the members of a frame's file.
fn add_file_members(
    alloc: Global,
    writer: &mut Writer,
    file: Option<NamedOffset<'_>>,
) -> Result<(), AllocError>
    ensures { Adds result writer.old writer.new
        (file_tokens (option_map offset_view file.entry)) }
{
    writer.key("file")?;
    add_file(alloc, writer, file)?;
    writer.key("file_offset")?;
    add_offset(writer, file)
}

// Adds a register as a member of an object.
fn add_register(
    alloc: Global,
    writer: &mut Writer,
    register: RegisterValue,
) -> Result<(), AllocError>
    ensures { Adds result writer.old writer.new (register_tokens (register_view register)) }
{
    writer.key(register.name)?;
    add_address(alloc, writer, register.value)
}

// Adds registers as members of an object, one after the other.
fn add_each(
    alloc: Global,
    writer: &mut Writer,
    registers: &[RegisterValue],
) -> Result<(), AllocError>
    ensures { Adds result writer.old writer.new
        (flat_map register_tokens (map register_view registers.now)) }
{
    for register in registers {
        add_register(alloc, writer, *register)?;
    }
    Ok(())
}

// Adds the registers of a frame, or null if none is shown.
fn add_registers(
    alloc: Global,
    writer: &mut Writer,
    registers: &[RegisterValue],
) -> Result<(), AllocError>
    ensures { Adds result writer.old writer.new
        (json_tokens (registers_value (map register_view registers.now))) }
{
    if registers.is_empty() {
        return writer.null();
    }
    writer.begin_object()?;
    add_each(alloc, writer, registers)?;
    writer.end_object()
}

// Adds a frame, by its parts.
fn add_parts(
    alloc: Global,
    writer: &mut Writer,
    names: FunctionNames,
    address: Option<u64>,
    function: Option<NamedOffset<'_>>,
    file: Option<NamedOffset<'_>>,
    registers: &[RegisterValue],
) -> Result<(), AllocError>
    ensures { Adds result writer.old writer.new
        (frame_tokens names address function.entry file.entry registers.now) }
{
    writer.begin_object()?;
    writer.key("address")?;
    add_address_if(alloc, writer, address)?;
    add_function_members(alloc, writer, names, function)?;
    add_file_members(alloc, writer, file)?;
    writer.key("registers")?;
    add_registers(alloc, writer, registers)?;
    writer.end_object()
}

/// Adds a frame.
pub(crate) fn add_frame(
    alloc: Global,
    writer: &mut Writer,
    frame: &ShownFrame<'_>,
) -> Result<(), AllocError>
    ensures { Adds result writer.old writer.new (json_tokens (frame_value (frame_view frame.now))) }
{
    let registers = frame.registers.as_slice();
    match frame.location {
        CodeLocation::Code {
            address,
            function,
            file,
        } => add_parts(
            alloc,
            writer,
            frame.names,
            Some(address),
            function,
            file,
            registers,
        ),
        CodeLocation::SignalTrampoline => {
            add_parts(alloc, writer, frame.names, None, None, None, registers)
        }
    }
}
