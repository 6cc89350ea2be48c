//! Loads of modules.

ghost use Rattle.std.specs.Prelude.{◌≡◌, codes, option_map, option_and_then, IfOk, string_bytes};
ghost use Rattle.serde_json.specs.Find.{as_str, get};
ghost use Rattle.serde_json.specs.View.{view, items_view};
ghost use Rattle.json_program.specs.Json.{bytes_value, list_of, field, optional_value, text_value};
ghost use Rattle.unwind_run_document.specs.Loads.{load_in, unload_in};
ghost use Rattle.unwind_run_document.specs.Sections.{are_distinct, names_of, range_between, section_in, sections_in, segments_in};
ghost use Rattle.json_program.specs.Decoded.{Decodes, result_map};
ghost use Rattle.unwind_run_document.specs.CommandViews.{load_view, made_view, section_view, sections_view, unload_view};

use crate::command::{AddressRange, LoadCommand, StatedSection, UnloadCommand};
use crate::made::{Made, made_number};
use crate::options::options_in;
use json_program::check::{Checked, both, keep_fault, with_fault};
use json_program::field::{address_field, address_in, find_field, has_only, text_field};
use json_program::json::bytes_in;
use json_program::{DecodeError, FaultName};
use serde_json::Value;
use std::alloc::{AllocError, Global};
use std::collections::BTreeSet;

// The name of a module, a section or a segment.
fn name_in(alloc: Global, object: &Value) -> Result<String, DecodeError<FaultName>>
    ensures { Decodes string_bytes result (field text_value (codes "name") (view object.now)) }
{
    Ok(String::from_str(alloc, text_field(object, "name")?)?)
}

// The addresses of a start with its end, or neither.
fn range_in(object: &Value) -> Checked<Option<AddressRange>>
    ensures { result ≡ range_between (get (codes "start") (view object.now))
        (get (codes "end") (view object.now)) }
{
    match (object.get("start"), object.get("end")) {
        (None, None) => Ok(None),
        (Some(start), Some(end)) => match both(address_in(start), address_in(end)) {
            Ok((start, end)) => Ok(Some(AddressRange { start, end })),
            Err(name) => Err(name),
        },
        (Some(_), None) | (None, Some(_)) => Err(FaultName::BadCommand),
    }
}

// The bytes of a section, if it has any.
fn bytes_field(alloc: Global, object: &Value) -> Result<Option<Vec<u8>>, DecodeError<FaultName>>
    ensures { Decodes (option_map (λ bytes. bytes.items)) result
        (optional_value bytes_value (get (codes "data") (view object.now))) }
{
    match object.get("data") {
        Some(value) => Ok(Some(bytes_in(alloc, value)?)),
        None => Ok(None),
    }
}

// A value that has to be a section.
fn section_in(alloc: Global, value: &Value) -> Result<StatedSection, DecodeError<FaultName>>
    ensures { Decodes section_view result (section_in (view value.now)) }
{
    if !has_only(value, &["name", "start", "end", "data"]) {
        return Err(DecodeError::Fault(FaultName::BadCommand));
    }
    let name = keep_fault(name_in(alloc, value))?;
    let range = range_in(value);
    let bytes = keep_fault(bytes_field(alloc, value))?;
    let ((name, range), bytes) = both(both(name, range), bytes)?;
    Ok(StatedSection { name, range, bytes })
}

// The name of a section, if it has one.
fn name_of(section: &Value) -> Option<&str>
    ensures { option_map (λ s. s.now) result
        ≡ option_and_then as_str (get (codes "name") (view section.now)) }
{
    match section.get("name") {
        Some(name) => name.as_str(),
        None => None,
    }
}

// Whether no two sections have one name.
fn are_distinct(alloc: Global, items: &Vec<Value>) -> Result<bool, AllocError>
    ensures { IfOk result (λ b. b ≡ are_distinct (names_of (items_view items.now.items))) }
{
    let mut before: BTreeSet<&str> = BTreeSet::new(alloc);
    for item in items {
        if let Some(name) = name_of(item) {
            if !before.insert(name)? {
                return Ok(false);
            }
        }
    }
    Ok(true)
}

// Each element has to be a section.
fn sections(alloc: Global, items: &Vec<Value>) -> Result<Vec<StatedSection>, DecodeError<FaultName>>
    ensures { Decodes (λ sections. sections_view sections.items) result
        (list_of section_in (items_view items.now.items)) }
{
    let mut sections = Vec::new(alloc);
    let mut fault = None;
    for item in items {
        match keep_fault(section_in(alloc, item))? {
            Ok(section) => sections.push(section)?,
            Err(name) => fault = with_fault(fault, name),
        }
    }
    match fault {
        None => Ok(sections),
        Some(name) => Err(DecodeError::Fault(name)),
    }
}

// A value that has to be a list of sections, of which no two have one name.
fn sections_in(alloc: Global, value: &Value) -> Result<Vec<StatedSection>, DecodeError<FaultName>>
    ensures { Decodes (λ sections. sections_view sections.items) result
        (sections_in (view value.now)) }
{
    let items = value.as_array().ok_or(FaultName::BadCommand)?;
    if !are_distinct(alloc, items)? {
        return Err(DecodeError::Fault(FaultName::BadCommand));
    }
    sections(alloc, items)
}

// The sections of a module.
fn sections_field(
    alloc: Global,
    object: &Value,
) -> Result<Vec<StatedSection>, DecodeError<FaultName>>
    ensures { Decodes (λ sections. sections_view sections.items) result
        (field sections_in (codes "sections") (view object.now)) }
{
    sections_in(alloc, find_field(object, "sections")?)
}

// The segments of a module, none if they aren't stated.
fn segments_field(
    alloc: Global,
    object: &Value,
) -> Result<Vec<StatedSection>, DecodeError<FaultName>>
    ensures { Decodes (λ segments. sections_view segments.items) result
        (segments_in (get (codes "segments") (view object.now))) }
{
    match object.get("segments") {
        Some(value) => sections_in(alloc, value),
        None => Ok(Vec::new(alloc)),
    }
}

/// A module for an unwinder that an earlier command made.
pub(crate) fn load_in(
    alloc: Global,
    object: &Value,
    made: &Made,
) -> Result<LoadCommand, DecodeError<FaultName>>
    ensures { Decodes load_view result (load_in (made_view made.now) (view object.now)) }
{
    let names = [
        "do",
        "unwinder",
        "name",
        "start",
        "end",
        "base",
        "base_svma",
        "sections",
        "segments",
        "lookup",
        "tables",
        "debug_frame_beside",
        "code_rules",
        "rows",
    ];
    if !has_only(object, &names) {
        return Err(DecodeError::Fault(FaultName::BadCommand));
    }
    let unwinder = made_number(object, "unwinder", made.unwinders);
    let name = keep_fault(name_in(alloc, object))?;
    let start = address_field(object, "start");
    let end = address_field(object, "end");
    let base = address_field(object, "base");
    let base_svma = address_field(object, "base_svma");
    let sections = keep_fault(sections_field(alloc, object))?;
    let segments = keep_fault(segments_field(alloc, object))?;
    let front = both(both(both(unwinder, name), start), end);
    let front = both(both(both(front, base), base_svma), sections);
    let front = both(front, segments);
    let ((((((((unwinder, name), start), end), base), base_svma), sections), segments), options) =
        both(front, options_in(object))?;
    Ok(LoadCommand {
        unwinder,
        name,
        start,
        end,
        base,
        base_svma,
        sections,
        segments,
        options,
    })
}

/// A module of an unwinder that an earlier command made, by its start.
pub(crate) fn unload_in(object: &Value, made: &Made) -> Checked<UnloadCommand>
    ensures { result_map unload_view result ≡ unload_in (made_view made.now) (view object.now) }
{
    if !has_only(object, &["do", "unwinder", "start"]) {
        return Err(FaultName::BadCommand);
    }
    let unwinder = made_number(object, "unwinder", made.unwinders);
    let (unwinder, start) = both(unwinder, address_field(object, "start"))?;
    Ok(UnloadCommand { unwinder, start })
}
