//! Steps.

ghost use Rattle.std.specs.Prelude.{◌≡◌, codes};
ghost use Rattle.serde_json.specs.View.{view, items_view};
ghost use Rattle.json_program.specs.Json.{address_value, list_of, field};
ghost use Rattle.unwind_run_document.specs.Frames.{kind_in, frame_in};
ghost use Rattle.unwind_run_document.specs.Stacks.{words_in, stack_at, stack_in};
ghost use Rattle.unwind_run_document.specs.Steps.{step_in};
ghost use Rattle.json_program.specs.Decoded.{Decodes, result_map};
ghost use Rattle.unwind_run_document.specs.CommandViews.{words_view, step_view, made_view};

use crate::command::{FrameKind, Stack, StepCommand};
use crate::document::Architecture;
use crate::made::{Made, made_number};
use crate::registers::registers_field;
use json_program::check::{Checked, both, keep_fault, with_fault};
use json_program::field::{address_field, address_in, find_field, has_only, text_field};
use json_program::{DecodeError, FaultName};
use serde_json::Value;
use std::alloc::Global;

// How the address of the frame is meant.
fn kind_field(object: &Value) -> Checked<FrameKind>
    ensures { result ≡ field kind_in (codes "kind") (view object.now) }
{
    match text_field(object, "kind")? {
        "ip" => Ok(FrameKind::Ip),
        "ra" => Ok(FrameKind::Ra),
        _ => Err(FaultName::BadCommand),
    }
}

/// The address of the frame and how it is meant: no return address is 0.
pub(crate) fn frame_in(object: &Value) -> Checked<(FrameKind, u64)>
    ensures { result ≡ frame_in (view object.now) }
{
    let (kind, address) = both(kind_field(object), address_field(object, "address"))?;
    if kind == FrameKind::Ra && address == 0 {
        return Err(FaultName::BadNumber);
    }
    Ok((kind, address))
}

// A value that has to be a list of words.
fn words_in(alloc: Global, value: &Value) -> Result<Vec<u64>, DecodeError<FaultName>>
    ensures { Decodes (λ words. words.items) result (words_in (view value.now)) }
{
    addresses(alloc, value.as_array().ok_or(FaultName::BadCommand)?)
}

// Each element has to be the text of an address.
fn addresses(alloc: Global, items: &Vec<Value>) -> Result<Vec<u64>, DecodeError<FaultName>>
    ensures { Decodes (λ words. words.items) result
        (list_of address_value (items_view items.now.items)) }
{
    let mut addresses = Vec::new(alloc);
    let mut fault = None;
    for item in items {
        match address_in(item) {
            Ok(address) => addresses.push(address)?,
            Err(name) => fault = with_fault(fault, name),
        }
    }
    match fault {
        None => Ok(addresses),
        Some(name) => Err(DecodeError::Fault(name)),
    }
}

// The words of a stack.
fn words_field(alloc: Global, object: &Value) -> Result<Vec<u64>, DecodeError<FaultName>>
    ensures { Decodes (λ words. words.items) result
        (field words_in (codes "words") (view object.now)) }
{
    words_in(alloc, find_field(object, "words")?)
}

// A value that has to be a stack.
fn stack_in(alloc: Global, value: &Value) -> Result<Stack, DecodeError<FaultName>>
    ensures { Decodes words_view result (stack_in (view value.now)) }
{
    if !has_only(value, &["start", "words"]) {
        return Err(DecodeError::Fault(FaultName::BadCommand));
    }
    let words = keep_fault(words_field(alloc, value))?;
    let (start, words) = both(address_field(value, "start"), words)?;
    Ok(stack_at(start, words)?)
}

// The words at their addresses, of which the last has to be one too.
fn stack_at(start: u64, words: Vec<u64>) -> Checked<Stack>
    ensures { result_map words_view result ≡ stack_at start words.items }
{
    let above = 8 * (words.len() as u64).saturating_sub(1);
    if above <= u64::MAX - start {
        Ok(Stack { start, words })
    } else {
        Err(FaultName::BadNumber)
    }
}

/// The stack of a step or a walk.
pub(crate) fn stack_field(alloc: Global, object: &Value) -> Result<Stack, DecodeError<FaultName>>
    ensures { Decodes words_view result (field stack_in (codes "stack") (view object.now)) }
{
    stack_in(alloc, find_field(object, "stack")?)
}

/// A step of an unwinder with a cache that earlier commands made.
pub(crate) fn step_in(
    alloc: Global,
    arch: Architecture,
    object: &Value,
    made: &Made,
) -> Result<StepCommand, DecodeError<FaultName>>
    ensures { Decodes step_view result (step_in arch (made_view made.now) (view object.now)) }
{
    if !has_only(
        object,
        &[
            "do", "unwinder", "cache", "kind", "address", "regs", "stack",
        ],
    ) {
        return Err(DecodeError::Fault(FaultName::BadCommand));
    }
    let unwinder = made_number(object, "unwinder", made.unwinders);
    let cache = made_number(object, "cache", made.caches);
    let frame = frame_in(object);
    let registers = registers_field(arch, object);
    let stack = keep_fault(stack_field(alloc, object))?;
    let ((((unwinder, cache), (kind, address)), registers), stack) = both(
        both(both(both(unwinder, cache), frame), registers),
        stack,
    )?;
    Ok(StepCommand {
        unwinder,
        cache,
        kind,
        address,
        registers,
        stack,
    })
}
