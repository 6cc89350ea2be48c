//! The options of a load.

ghost use Rattle.std.specs.Prelude.{◌≡◌, codes};
ghost use Rattle.serde_json.specs.Find.{get};
ghost use Rattle.serde_json.specs.View.{view};
ghost use Rattle.unwind_run_document.specs.Options.{code_rules_at, code_rules_value, flag_at, lookup_at, lookup_value, options_in, rows_at, rows_value};

use crate::command::{StatedLookup, StatedOptions, StatedRows};
use framehop_code_rules::CodeRules;
use json_program::FaultName;
use json_program::check::{Checked, both};
use json_program::field::text_in;
use serde_json::Value;

// The lookup that a value has to name.
fn lookup_in(value: &Value) -> Checked<StatedLookup>
    ensures { result ≡ lookup_value (view value.now) }
{
    let text = text_in(value)?;
    if text == "auto" {
        Ok(StatedLookup::Auto)
    } else if text == "index" {
        Ok(StatedLookup::Index)
    } else if text == "scan" {
        Ok(StatedLookup::Scan)
    } else {
        Err(FaultName::BadCommand)
    }
}

// The lookup of a load, `auto` if none is stated.
fn lookup_field(object: &Value) -> Checked<StatedLookup>
    ensures { result ≡ lookup_at (get (codes "lookup") (view object.now)) }
{
    match object.get("lookup") {
        Some(value) => lookup_in(value),
        None => Ok(StatedLookup::Auto),
    }
}

// The rules of code that a value has to name.
fn code_rules_in(value: &Value) -> Checked<CodeRules>
    ensures { result ≡ code_rules_value (view value.now) }
{
    let text = text_in(value)?;
    if text == "published" {
        Ok(CodeRules::Published)
    } else if text == "known" {
        Ok(CodeRules::Known)
    } else if text == "ways" {
        Ok(CodeRules::Ways)
    } else {
        Err(FaultName::BadCommand)
    }
}

// The rules of code of a load, `published` if none are stated.
fn code_rules_field(object: &Value) -> Checked<CodeRules>
    ensures { result ≡ code_rules_at (get (codes "code_rules") (view object.now)) }
{
    match object.get("code_rules") {
        Some(value) => code_rules_in(value),
        None => Ok(CodeRules::Published),
    }
}

// What a value has to name that rows are taken to say.
fn rows_in(value: &Value) -> Checked<StatedRows>
    ensures { result ≡ rows_value (view value.now) }
{
    let text = text_in(value)?;
    if text == "published" {
        Ok(StatedRows::Published)
    } else if text == "whole" {
        Ok(StatedRows::Whole)
    } else {
        Err(FaultName::BadCommand)
    }
}

// What the rows of a load are taken to say, `published` if that isn't stated.
fn rows_field(object: &Value) -> Checked<StatedRows>
    ensures { result ≡ rows_at (get (codes "rows") (view object.now)) }
{
    match object.get("rows") {
        Some(value) => rows_in(value),
        None => Ok(StatedRows::Published),
    }
}

// Whether something is asked for, which it isn't if that isn't stated.
fn flag_field(object: &Value, name: &str) -> Checked<bool>
    ensures { result ≡ flag_at (get name.now (view object.now)) }
{
    match object.get(name) {
        Some(value) => value.as_bool().ok_or(FaultName::BadCommand),
        None => Ok(false),
    }
}

/// What a load asks for beside its sections.
pub(crate) fn options_in(object: &Value) -> Checked<StatedOptions>
    ensures { result ≡ options_in (view object.now) }
{
    let lookup = lookup_field(object);
    let tables = flag_field(object, "tables");
    let beside = flag_field(object, "debug_frame_beside");
    let rules = code_rules_field(object);
    let rows = rows_field(object);
    let ((((lookup, tables), debug_frame_beside), code_rules), rows) = both(
        both(both(both(lookup, tables), beside), rules),
        rows,
    )?;
    Ok(StatedOptions {
        lookup,
        tables,
        debug_frame_beside,
        code_rules,
        rows,
    })
}
