//! The command `roads`: one step by each lookup.

ghost use Rattle.std.specs.Prelude.{◌≡◌};
ghost use Rattle.serde_json.specs.View.{view};
ghost use Rattle.json_program.specs.Decoded.{Decodes};
ghost use Rattle.json_program.specs.Json.{bytes_value, field};
ghost use Rattle.unwind_run_document.specs.Lookups.{roads_in, tables_in};
ghost use Rattle.unwind_run_document.specs.CommandViews.{roads_view, tables_view};

use crate::command::{RoadsCommand, StatedTables};
use crate::document::Architecture;
use crate::registers::registers_field;
use crate::step::{frame_in, stack_field};
use json_program::check::{both, keep_fault};
use json_program::field::{address_field, find_field, has_only};
use json_program::json::bytes_in;
use json_program::{DecodeError, FaultName};
use serde_json::Value;
use std::alloc::Global;

// The bytes in a field.
fn bytes_field(alloc: Global, object: &Value, name: &str) -> Result<Vec<u8>, DecodeError<FaultName>>
    ensures { Decodes (λ bytes. bytes.items) result
        (field bytes_value name.now (view object.now)) }
{
    bytes_in(alloc, find_field(object, name)?)
}

// The section of call frames and its header.
fn tables_in(alloc: Global, object: &Value) -> Result<StatedTables, DecodeError<FaultName>>
    ensures { Decodes tables_view result (tables_in (view object.now)) }
{
    let section = keep_fault(bytes_field(alloc, object, "section"))?;
    let section_start = address_field(object, "section_start");
    let header = keep_fault(bytes_field(alloc, object, "header"))?;
    let header_start = address_field(object, "header_start");
    let base_svma = address_field(object, "base_svma");
    let ((((section, section_start), header), header_start), base_svma) = both(
        both(both(both(section, section_start), header), header_start),
        base_svma,
    )?;
    Ok(StatedTables {
        section,
        section_start,
        header,
        header_start,
        base_svma,
    })
}

/// The steps by each lookup over one module.
pub(crate) fn roads_in(
    alloc: Global,
    arch: Architecture,
    object: &Value,
) -> Result<RoadsCommand, DecodeError<FaultName>>
    ensures { Decodes roads_view result (roads_in arch (view object.now)) }
{
    let names = [
        "do",
        "section",
        "section_start",
        "header",
        "header_start",
        "base_svma",
        "kind",
        "address",
        "regs",
        "stack",
    ];
    if !has_only(object, &names) {
        return Err(DecodeError::Fault(FaultName::BadCommand));
    }
    let tables = keep_fault(tables_in(alloc, object))?;
    let frame = frame_in(object);
    let registers = registers_field(arch, object);
    let stack = keep_fault(stack_field(alloc, object))?;
    let (((tables, (kind, address)), registers), stack) = both(
        both(both(tables, frame), registers),
        stack,
    )?;
    Ok(RoadsCommand {
        tables,
        kind,
        address,
        registers,
        stack,
    })
}
