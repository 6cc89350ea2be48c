//! Walks.

ghost use Rattle.std.specs.Prelude.{◌≡◌, codes};
ghost use Rattle.serde_json.specs.View.{view};
ghost use Rattle.json_program.specs.Decoded.{Decodes};
ghost use Rattle.json_program.specs.Json.{field};
ghost use Rattle.unwind_run_document.specs.Steps.{limit_value, walk_in};
ghost use Rattle.unwind_run_document.specs.CommandViews.{made_view, walk_view};

use crate::command::WalkCommand;
use crate::document::{Architecture, WALK_LIMIT};
use crate::made::{Made, made_number};
use crate::registers::registers_field;
use crate::step::stack_field;
use json_program::check::{Checked, both, keep_fault};
use json_program::field::{address_field, has_only, number_field};
use json_program::{DecodeError, FaultName};
use serde_json::Value;
use std::alloc::Global;

// The most frames that a walk gives.
fn limit_field(object: &Value) -> Checked<u64>
    ensures { result ≡ field limit_value (codes "limit") (view object.now) }
{
    let limit = number_field(object, "limit")?;
    if (1..=WALK_LIMIT).contains(&limit) {
        Ok(limit)
    } else {
        Err(FaultName::BadNumber)
    }
}

/// A walk over the frames of an unwinder with a cache that earlier commands made.
pub(crate) fn walk_in(
    alloc: Global,
    arch: Architecture,
    object: &Value,
    made: &Made,
) -> Result<WalkCommand, DecodeError<FaultName>>
    ensures { Decodes walk_view result (walk_in arch (made_view made.now) (view object.now)) }
{
    if !has_only(
        object,
        &["do", "unwinder", "cache", "pc", "limit", "regs", "stack"],
    ) {
        return Err(DecodeError::Fault(FaultName::BadCommand));
    }
    let unwinder = made_number(object, "unwinder", made.unwinders);
    let cache = made_number(object, "cache", made.caches);
    let pc = address_field(object, "pc");
    let limit = limit_field(object);
    let registers = registers_field(arch, object);
    let stack = keep_fault(stack_field(alloc, object))?;
    let (((((unwinder, cache), pc), limit), registers), stack) = both(
        both(both(both(both(unwinder, cache), pc), limit), registers),
        stack,
    )?;
    Ok(WalkCommand {
        unwinder,
        cache,
        pc,
        limit,
        registers,
        stack,
    })
}
