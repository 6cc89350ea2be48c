//! The texts of values, and how they compare.

use crate::storages::One;
use crate::values::ShowValues;
use anyhow::Result;
use dwarf_constants::{Register, Result as Answer};
use dwarf_frame_rows::{
    BaseAddresses, CfaRule, CieOffsetEncoding, Effect, Pointer, RegisterRule, StoreOnHeap,
    UnwindContext, UnwindContextStorage, UnwindExpression,
};
use shown_text::Shown;
use std::alloc::Global;

const EXPRESSION: UnwindExpression<u64> = UnwindExpression {
    offset: 5,
    length: 2,
};

static RULES: [RegisterRule<u64>; 9] = [
    RegisterRule::Undefined,
    RegisterRule::SameValue,
    RegisterRule::Offset(-8),
    RegisterRule::ValOffset(16),
    RegisterRule::Register(Register(3)),
    RegisterRule::Expression(EXPRESSION),
    RegisterRule::ValExpression(EXPRESSION),
    RegisterRule::Architectural,
    RegisterRule::Constant(1),
];

// Does what effects do to a row.
fn apply<S: UnwindContextStorage<u64>>(
    context: &mut UnwindContext<u64, S>,
    effects: &[Effect<u64>],
) -> Answer<()> {
    for effect in effects {
        context.apply(*effect)?;
    }
    Ok(())
}

// A new context after effects.
fn context_after<S: UnwindContextStorage<u64>>(
    alloc: Global,
    effects: &[Effect<u64>],
) -> Result<UnwindContext<u64, S>> {
    let mut context = UnwindContext::new_in(alloc)?;
    apply(&mut context, effects)?;
    Ok(context)
}

// Whether the rows after some effects and after others are equal.
fn are_equal<S: UnwindContextStorage<u64>>(
    alloc: Global,
    some: &[Effect<u64>],
    others: &[Effect<u64>],
) -> Result<bool> {
    let one = context_after::<S>(alloc, some)?;
    let other = context_after::<S>(alloc, others)?;
    Ok(one.row() == other.row())
}

// Whether rows are equal that got the same rules in another order, and whether they are with one rule more.
fn equals_as_map<S: UnwindContextStorage<u64>>(alloc: Global) -> Result<(bool, bool)> {
    let first = Effect::Rule(Register(1), RegisterRule::Offset(8));
    let second = Effect::Rule(Register(2), RegisterRule::SameValue);
    let third = Effect::Rule(Register(3), RegisterRule::Undefined);
    let same = are_equal::<S>(alloc, &[first, second], &[second, first])?;
    let more = are_equal::<S>(alloc, &[first, second], &[second, first, third])?;
    Ok((same, more))
}

// Adds the text of a row with a rule.
fn show_row(shown: &mut Shown) -> Result<()> {
    let rule = Effect::Rule(Register(6), RegisterRule::Offset(-16));
    let context = context_after::<One>(shown.alloc(), &[rule])?;
    shown.line(context.row());
    Ok(())
}

// Adds the texts of what instructions and entries are made of.
fn show_parts(shown: &mut Shown) {
    let cfa: CfaRule<u64> = CfaRule::default();
    let effect = Effect::Rule(Register(2), RegisterRule::Expression(EXPRESSION));
    shown.line(&cfa);
    shown.line(&effect);
    shown.line(&CieOffsetEncoding::U64);
}

// Adds the texts of addresses that pointers are relative to.
fn show_bases(shown: &mut Shown) {
    let few = BaseAddresses::default().set_text(0x10).set_got(0x20);
    let all = BaseAddresses::default()
        .set_eh_frame(0x1000)
        .set_eh_frame_hdr(0x2000)
        .set_text(0x3000)
        .set_got(0x4000);
    shown.line(&few);
    shown.value("", &all);
    shown.flag(" ", all.eh_frame == all.eh_frame_hdr);
    shown.end();
}

// Adds the texts of pointers.
fn show_pointers(shown: &mut Shown) {
    let (indirect, least) = (Pointer::Indirect(7), Pointer::default());
    shown.value("", &indirect);
    shown.answer(" ", indirect.direct());
    shown.number(" ", indirect.pointer());
    shown.end();
    shown.value("", &least);
    shown.flag(" ", least == Pointer::Direct(0));
    shown.end();
}

/// The texts of values of each type that rows are made of.
pub fn show_texts(shown: &mut Shown) -> Result<()> {
    for rule in &RULES {
        shown.line(rule);
    }
    show_row(shown)?;
    show_parts(shown);
    show_bases(shown);
    show_pointers(shown);
    shown.line(&equals_as_map::<StoreOnHeap>(shown.alloc())?);
    Ok(())
}
