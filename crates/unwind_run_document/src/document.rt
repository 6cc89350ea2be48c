//! The document: JSON text in, typed commands or the first fault out.

ghost use Rattle.std.specs.Prelude.{◌≡◌, IfOk, ok_or};
ghost use Rattle.serde_json.specs.View.{items_view, members_view, view};
ghost use Rattle.unwind_run_document.specs.Document.{arch_of, have_own_float, commands_from, content_of, document_in, generation_in, has_float_outside, few_commands, is_supported, items_in, nothing_made, has_own_float, policy_of};
ghost use Rattle.json_program.specs.Json.{json_of, is_text};
ghost use Rattle.unwind_run_document.specs.Sound.{AreSound};
ghost use Rattle.json_program.specs.Decoded.{Decodes, result_map};
ghost use Rattle.unwind_run_document.specs.CommandViews.{content_view, tasks_of};
ghost use Rattle.json_program.specs.declared.fault.FaultName.TheVariants.{NotJson};

use crate::command::{Command, command_in};
use crate::made::{Made, add};
use json_program::address::address_of;
use json_program::check::{Checked, both, in_unit};
use json_program::field::has_only;
use json_program::float::has_float;
use json_program::json::{is_text, read};
use json_program::{DOCUMENT_LIMIT, DecodeError, Fault, FaultName};
use serde_json::{Map, Value};
use std::alloc::Global;

/// The most commands that a document may have.
pub const COMMAND_LIMIT: usize = 65_536;
/// The most frames that a walk may be asked for.
pub const WALK_LIMIT: u64 = 65_536;

/// The architecture of a document.
#[derive(Clone, Copy, Debug, PartialEq, Eq)]
pub enum Architecture {
    X86_64,
    Aarch64,
}

/// Whether the steps of a document may allocate.
#[derive(Clone, Copy, Debug, PartialEq, Eq)]
pub enum Policy {
    /// They may, and an expression has room for any number of values.
    May,
    /// They don't allocate, and an expression has room for 64 values.
    Must,
}

/// What a document asks for.
#[derive(Debug, Drop)]
pub struct Document {
    pub arch: Architecture,
    pub policy: Policy,
    /// The first number that the counter of generations gives.
    pub generation: u64,
    pub commands: Vec<Command>,
}

// Whether a member has a float that is the document's: the elements of a list
// of commands are units of their own.
fn has_own_float(name: &str, member: &Value) -> bool
    ensures { result ≡ has_own_float name.now (view member.now) }
{
    if name == "commands" && member.is_array() {
        return false;
    }
    has_float(member)
}

// Whether a number of the document's own is a float.
fn have_own_float(members: &Map<String, Value>) -> bool
    ensures { result ≡ have_own_float (members_view members.now.entries) }
{
    for (name, member) in members.iter() {
        if has_own_float(name.as_str(), member) {
            return true;
        }
    }
    false
}

// Whether a number outside the commands is a float.
#[tactic(auto, unfolding(crate::specs::Document::has_float_outside))]
fn has_float_outside(document: &Value) -> bool
    ensures { result ≡ has_float_outside (view document.now) }
{
    match document.as_object() {
        Some(members) => have_own_float(members),
        None => has_float(document),
    }
}

// Whether there is no other field, and the policy and the architecture are ones that there are.
#[tactic(auto, unfolding(crate::specs::Document::is_supported))]
fn is_supported(document: &Value) -> bool
    ensures { result ≡ is_supported (view document.now) }
{
    has_only(document, &["arch", "policy", "commands", "generation"])
        && (is_text(document, "arch", "x86_64") || is_text(document, "arch", "aarch64"))
        && (is_text(document, "policy", "may") || is_text(document, "policy", "must"))
}

// The architecture, in a document whose own fields are as they have to be.
fn arch_of(document: &Value) -> Architecture
    ensures { result ≡ arch_of (view document.now) }
{
    if is_text(document, "arch", "aarch64") {
        Architecture::Aarch64
    } else {
        Architecture::X86_64
    }
}

// The policy, in a document whose own fields are as they have to be.
fn policy_of(document: &Value) -> Policy
    ensures { result ≡ policy_of (view document.now) }
{
    if is_text(document, "policy", "must") {
        Policy::Must
    } else {
        Policy::May
    }
}

// The commands, if there are at most `COMMAND_LIMIT`.
fn few_commands(items: &Vec<Value>) -> Checked<&Vec<Value>>
    ensures { result_map (λ v. items_view v.now.items) result
        ≡ few_commands (items_view items.now.items) }
{
    if items.len() > COMMAND_LIMIT {
        return Err(FaultName::BadDocument);
    }
    Ok(items)
}

// The commands of a document, which are still to be decoded.
fn items_in(document: &Value) -> Checked<&Vec<Value>>
    ensures { result_map (λ v. items_view v.now.items) result ≡ items_in (view document.now) }
{
    let commands = document.get("commands").ok_or(FaultName::BadDocument)?;
    few_commands(commands.as_array().ok_or(FaultName::BadDocument)?)
}

// The first generation, 0 if the document doesn't state it.
fn generation_in(document: &Value) -> Checked<u64>
    ensures { result ≡ generation_in (view document.now) }
{
    match document.get("generation") {
        None => Ok(0),
        Some(generation) => {
            let text = generation.as_str().ok_or(FaultName::BadDocument)?;
            address_of(text).ok_or(FaultName::BadNumber)
        }
    }
}

// The first generation, and the commands that are still to be decoded.
#[tactic(auto, unfolding(crate::specs::Document::document_in))]
fn document_in(document: &Value) -> Checked<(u64, &Vec<Value>)>
    ensures { result_map (λ own. (own.0, items_view own.1.now.items)) result
        ≡ document_in (view document.now) }
{
    if has_float_outside(document) {
        return Err(FaultName::FloatNumber);
    }
    if !is_supported(document) {
        return Err(FaultName::BadDocument);
    }
    both(generation_in(document), items_in(document))
}

// The commands, or the first fault among them.
fn commands(
    alloc: Global,
    arch: Architecture,
    items: &Vec<Value>,
) -> Result<Vec<Command>, DecodeError<Fault>>
    ensures { Decodes (λ commands. tasks_of commands.items) result
        (commands_from arch 1 nothing_made (items_view items.now.items)) }
{
    let mut made = Made {
        unwinders: 0,
        caches: 0,
    };
    let mut commands = Vec::new(alloc);
    let mut number: u64 = 1;
    for item in items {
        let command = in_unit(number, command_in(alloc, arch, item, &made))?;
        add(&mut made, &command);
        commands.push(command)?;
        number += 1;
    }
    Ok(commands)
}

/// What a document's bytes ask for, or their first fault: a text of JSON (RFC 8259) with the fields
/// `arch`, `policy` and `commands`, and optionally `generation`. Unit 0 is the document itself, and the
/// commands are units from 1 on. The units are checked one after the other, and of the faults of a unit
/// the one of the first class counts. Memory may run out on any document.
pub fn decode(alloc: Global, text: &[u8]) -> Result<Document, DecodeError<Fault>>
    ensures decoded { Decodes content_view result (content_of text.now) }

    // What a command names was made by those before it.
    ensures sound { IfOk result (λ document.
        AreSound nothing_made (tasks_of document.commands.items)) }
{
    if text.len() > DOCUMENT_LIMIT {
        return Err(DecodeError::Fault(Fault::of_document(FaultName::TooLong)));
    }
    let document = in_unit(0, read(alloc, text))?;
    let (generation, items) = document_in(&document).map_err(Fault::of_document)?;
    let arch = arch_of(&document);
    let commands = commands(alloc, arch, items)?;
    Ok(Document {
        arch,
        policy: policy_of(&document),
        generation,
        commands,
    })
}
