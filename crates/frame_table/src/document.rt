//! The document: JSON text in, a section or the document's fault out.

ghost use Rattle.std.specs.Prelude.{◌≡◌, IfOk, IsTrue, codes, ok_or};
ghost use Rattle.serde_json.specs.Find.{get};
ghost use Rattle.serde_json.specs.View.{view};
ghost use Rattle.dwarf_readers.specs.InitialLength.{is_size};
ghost use Rattle.json_program.specs.Decoded.{Decodes};
ghost use Rattle.json_program.specs.Json.{bytes_value, field, optional_value};
ghost use Rattle.frame_table.specs.Document.{fields_in, machine_named, machine_value, name_value, of_document, size_of_addresses, size_value, stated_by, stated_in, stated_value};
ghost use Rattle.frame_table.specs.DocumentViews.{stated_view};

use crate::names::Machine;
use frame_table_files::SectionName;
use json_program::check::{Checked, both, keep_fault};
use json_program::field::{address_field, find_field, has_only, number_field, text_field, text_in};
use json_program::float::has_float;
use json_program::json::{bytes_in, read};
use json_program::{DOCUMENT_LIMIT, DecodeError, Fault, FaultName};
use serde_json::Value;
use std::alloc::Global;

/// What a document states.
#[derive(Debug, Drop)]
pub(crate) struct Stated {
    pub(crate) name: SectionName,
    pub(crate) machine: Option<Machine>,
    /// Where the section starts.
    pub(crate) start: u64,
    /// The size of an address in bytes, if no CIE states it.
    pub(crate) address_size: u8,
    pub(crate) bytes: Vec<u8>,
}

// The section that the document names.
fn name_field(object: &Value) -> Checked<SectionName>
    ensures { result ≡ field name_value (codes "name") (view object.now) }
{
    SectionName::named(text_field(object, "name")?).ok_or(FaultName::BadCommand)
}

// The machine of a name.
fn machine_named(text: &str) -> Option<Machine>
    ensures { result ≡ machine_named text.now }
{
    match text {
        "x86_64" => Some(Machine::X86_64),
        "aarch64" => Some(Machine::AArch64),
        _ => None,
    }
}

// A value that has to be the name of a machine.
fn machine_in(value: &Value) -> Checked<Machine>
    ensures { result ≡ machine_value (view value.now) }
{
    machine_named(text_in(value)?).ok_or(FaultName::BadCommand)
}

// The machine, if the document states one.
fn machine_field(object: &Value) -> Checked<Option<Machine>>
    ensures { result ≡ optional_value machine_value (get (codes "machine") (view object.now)) }
{
    match object.get("machine") {
        Some(value) => Ok(Some(machine_in(value)?)),
        None => Ok(None),
    }
}

// A size that addresses have, in bytes.
fn size_of_addresses(size: u64) -> Checked<u8>
    ensures size { result ≡ size_of_addresses size }
    ensures valid { IfOk result (λ size. IsTrue (is_size size)) }
{
    match size {
        1 => Ok(1),
        2 => Ok(2),
        4 => Ok(4),
        8 => Ok(8),
        _ => Err(FaultName::BadNumber),
    }
}

// The size of addresses.
fn size_field(object: &Value) -> Checked<u8>
    ensures size { result ≡ field size_value (codes "address_size") (view object.now) }
    ensures valid { IfOk result (λ size. IsTrue (is_size size)) }
{
    size_of_addresses(number_field(object, "address_size")?)
}

// The bytes of the section.
fn bytes_field(alloc: Global, object: &Value) -> Result<Vec<u8>, DecodeError<FaultName>>
    ensures { Decodes (λ bytes. bytes.items) result
        (field bytes_value (codes "bytes") (view object.now)) }
{
    bytes_in(alloc, find_field(object, "bytes")?)
}

// The section that the fields of an object state.
fn fields_in(alloc: Global, object: &Value) -> Result<Stated, DecodeError<FaultName>>
    ensures stated { Decodes stated_view result (fields_in (view object.now)) }
    ensures size { IfOk result (λ stated. IsTrue (is_size stated.address_size)) }
{
    let name = name_field(object);
    let machine = machine_field(object);
    let start = address_field(object, "start");
    let size = size_field(object);
    let bytes = keep_fault(bytes_field(alloc, object))?;
    let front = both(both(name, machine), start);
    let ((((name, machine), start), address_size), bytes) = both(both(front, size), bytes)?;
    Ok(Stated {
        name,
        machine,
        start,
        address_size,
        bytes,
    })
}

// The section that a value states.
fn stated_by(alloc: Global, value: &Value) -> Result<Stated, DecodeError<FaultName>>
    ensures stated { Decodes stated_view result (stated_by (view value.now)) }
    ensures size { IfOk result (λ stated. IsTrue (is_size stated.address_size)) }
{
    if has_float(value) {
        return Err(DecodeError::Fault(FaultName::FloatNumber));
    }
    let names = ["name", "machine", "start", "address_size", "bytes"];
    if !has_only(value, &names) {
        return Err(DecodeError::Fault(FaultName::BadCommand));
    }
    fields_in(alloc, value)
}

// The section that bytes state.
fn stated_value(alloc: Global, text: &[u8]) -> Result<Stated, DecodeError<FaultName>>
    ensures stated { Decodes stated_view result (stated_value text.now) }
    ensures size { IfOk result (λ stated. IsTrue (is_size stated.address_size)) }
{
    if text.len() > DOCUMENT_LIMIT {
        return Err(DecodeError::Fault(FaultName::TooLong));
    }
    let document = read(alloc, text)?;
    stated_by(alloc, &document)
}

// A fault of a field is the document's.
fn of_document(name: FaultName) -> FaultName
    ensures { result ≡ of_document name }
{
    match name {
        FaultName::BadCommand => FaultName::BadDocument,
        _ => name,
    }
}

/// What a document's bytes state, or their fault: a text of JSON (RFC 8259) with the fields `name`,
/// `start`, `address_size` and `bytes`, and optionally `machine`. Of several faults the one of
/// the first class counts. Memory may run out on any document.
pub(crate) fn decode(alloc: Global, text: &[u8]) -> Result<Stated, DecodeError<Fault>>
    ensures stated { Decodes stated_view result (stated_in text.now) }
    ensures size { IfOk result (λ stated. IsTrue (is_size stated.address_size)) }
{
    match stated_value(alloc, text) {
        Ok(stated) => Ok(stated),
        Err(DecodeError::Fault(name)) => Err(DecodeError::Fault(Fault::of_document(of_document(
            name,
        )))),
        Err(DecodeError::OutOfMemory) => Err(DecodeError::OutOfMemory),
    }
}
