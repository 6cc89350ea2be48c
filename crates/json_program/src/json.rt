//! The JSON value of a document (RFC 8259), and the bytes in one.

ghost use Rattle.std.specs.Prelude.{◌≡◌, ok_or};
ghost use Rattle.serde_json.specs.View.{view};
ghost use Rattle.json_program.specs.Decoded.{Decodes};
ghost use Rattle.json_program.specs.Json.{bytes_value, is_text, json_of};
ghost use Rattle.json_program.specs.declared.fault.FaultName.TheVariants.{NotJson};

use crate::fault::{DecodeError, FaultName};
use crate::field::text_in;
use hex::FromHexError;
use serde_json::{Category, Value};
use std::alloc::Global;

/// The JSON value that bytes spell, or `NotJson`.
pub fn read(alloc: Global, text: &[u8]) -> Result<Value, DecodeError<FaultName>>
    ensures { Decodes view result (ok_or (json_of text.now) NotJson) }
{
    match Value::from_slice(alloc, text) {
        Ok(document) => Ok(document),
        Err(e) => match e.classify() {
            Category::Memory => Err(DecodeError::OutOfMemory),
            _ => Err(DecodeError::Fault(FaultName::NotJson)),
        },
    }
}

/// Whether a field is this text.
pub fn is_text(object: &Value, name: &str, text: &str) -> bool
    ensures { result ≡ is_text text.now name.now (view object.now) }
{
    match object.get(name) {
        Some(value) => match value.as_str() {
            Some(found) => found == text,
            None => false,
        },
        None => false,
    }
}

/// The bytes that a value's text spells, two hexadecimal digits each: `BadCommand` for a value that is
/// no text, else `BadHex`.
pub fn bytes_in(alloc: Global, value: &Value) -> Result<Vec<u8>, DecodeError<FaultName>>
    ensures { Decodes (λ bytes. bytes.items) result (bytes_value (view value.now)) }
{
    let text = text_in(value)?;
    match hex::decode(alloc, text.as_bytes()) {
        Ok(bytes) => Ok(bytes),
        Err(FromHexError::OutOfMemory) => Err(DecodeError::OutOfMemory),
        Err(_) => Err(DecodeError::Fault(FaultName::BadHex)),
    }
}
