//! The fields of a JSON value.

ghost use Rattle.std.specs.Prelude.{◌≡◌, map, ok_or};
ghost use Rattle.serde_json.specs.View.{view, members_view};
ghost use Rattle.serde_json.specs.Find.{get};
ghost use Rattle.json_program.specs.Decoded.{result_map};
ghost use Rattle.json_program.specs.declared.fault.FaultName.TheVariants.{BadCommand};
ghost use Rattle.json_program.specs.Json.{text_value, address_value, number_value, field, are_among, has_only};

use crate::address::address_of;
use crate::check::Checked;
use crate::fault::FaultName;
use serde_json::{Map, Value};

// Whether each member has one of these names.
fn are_among(members: &Map<String, Value>, names: &[&str]) -> bool
    ensures { result ≡ are_among (map (λ n. n.now) names.now) (members_view members.now.entries) }
{
    for (key, _) in members.iter() {
        if !(&*names).contains(&key.as_str()) {
            return false;
        }
    }
    true
}

/// Whether the value is an object without any other field than these.
pub fn has_only(value: &Value, names: &[&str]) -> bool
    ensures { result ≡ has_only (map (λ n. n.now) names.now) (view value.now) }
{
    match value.as_object() {
        Some(members) => are_among(members, names),
        None => false,
    }
}

/// A field that an object must have, or `BadCommand`.
pub fn find_field<'a>(object: &'a Value, name: &str) -> Checked<&'a Value>
    ensures { result_map (λ v. view v.now) result
        ≡ ok_or (get name.now (view object.now)) BadCommand }
{
    object.get(name).ok_or(FaultName::BadCommand)
}

/// The text of a value, or `BadCommand` for any other value.
pub fn text_in(value: &Value) -> Checked<&str>
    ensures { result_map (λ s. s.now) result ≡ text_value (view value.now) }
{
    value.as_str().ok_or(FaultName::BadCommand)
}

/// The address that a value's text spells: `BadCommand` for a value that is no text, `BadNumber` for
/// a text that spells no address.
pub fn address_in(value: &Value) -> Checked<u64>
    ensures { result ≡ address_value (view value.now) }
{
    address_of(text_in(value)?).ok_or(FaultName::BadNumber)
}

/// The text of a field, or `BadCommand`.
pub fn text_field<'a>(object: &'a Value, name: &str) -> Checked<&'a str>
    ensures { result_map (λ s. s.now) result ≡ field text_value name.now (view object.now) }
{
    text_in(find_field(object, name)?)
}

/// The address of a field: `BadCommand` for a field that is missing or no text, else `BadNumber`.
pub fn address_field(object: &Value, name: &str) -> Checked<u64>
    ensures { result ≡ field address_value name.now (view object.now) }
{
    address_in(find_field(object, name)?)
}

/// The whole number of a field: `BadNumber` if it is negative.
pub fn number_field(object: &Value, name: &str) -> Checked<u64>
    ensures { result ≡ field number_value name.now (view object.now) }
{
    let number = find_field(object, name)?
        .as_number()
        .ok_or(FaultName::BadCommand)?;
    number.as_u64().ok_or(FaultName::BadNumber)
}
