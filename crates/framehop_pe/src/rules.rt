//! The rule for what is undone, if it has one.

ghost use Rattle.std.specs.Prelude.{◌≡◌, map, IfSome};
ghost use Rattle.framehop_rules.specs.RuleMeaning.{IsValid};
ghost use Rattle.framehop_rules.specs.Sequences.{IsRuleFor};
ghost use Rattle.framehop_pe_codes.specs.EpilogViews.{OverEpilog};
ghost use Rattle.framehop_pe_codes.specs.InfoViews.{OverOperations};
ghost use Rattle.framehop_pe.specs.RuleParts.{offset_part, operation_part, epilog_parts};

use framehop_pe_codes::{CodesLeft, Epilog, SpAdjustment, UnwindOperation, next_popped};
use framehop_rules::x86_64::{OffsetOrPop, UnwindRuleX86_64, rules_of_sequences};

// So many bytes as an offset of a rule.
#[inline(always)]
fn offset_part(bytes: u32) -> OffsetOrPop
    ensures { result ≡ offset_part bytes }
{
    if bytes % 8 == 0 && bytes / 8 < 65536 {
        OffsetOrPop::OffsetBy8((bytes / 8) as u16)
    } else {
        OffsetOrPop::None
    }
}

// An operation of a prolog, to be undone.
#[inline(always)]
fn operation_part(operation: UnwindOperation) -> OffsetOrPop
    ensures { result ≡ operation_part operation }
{
    match operation {
        UnwindOperation::Allocate(bytes) => offset_part(bytes),
        UnwindOperation::Push(register) => OffsetOrPop::Pop(register),
        UnwindOperation::SetFrame
        | UnwindOperation::Save(..)
        | UnwindOperation::SaveVector
        | UnwindOperation::MachineFrame(_) => OffsetOrPop::None,
    }
}

/// The codes that are left as parts of a rule. If one can't be read, no more come.
#[derive(Clone, Copy, Debug)]
pub(crate) struct CodeParts<'a> {
    left: CodesLeft<'a>,
}

impl Iterator for CodeParts<'_> {
    ghost use Rattle.std.specs.Iterator.{at_most};
    ghost use Rattle.framehop_pe_codes.specs.InfoViews.{bytes_left};
    ghost use Rattle.framehop_pe.specs.PartViews.{GivesBy, code_parts_left};

    type Item = OffsetOrPop;

    ghost next_gives = { GivesBy code_parts_left };

    ghost remaining = { λ s. at_most (bytes_left s.left) };

    fn next(&mut self) -> Option<OffsetOrPop> {
        match self.left.next() {
            Ok(Some(operation)) => Some(operation_part(operation)),
            Ok(None) => None,
            Err(_) => None,
        }
    }
}

// The rule for the codes that are left, if they have one. That they can be read was tested before.
pub(crate) fn rule_of_codes(left: CodesLeft<'_>) -> Option<UnwindRuleX86_64>
    ensures rule { OverOperations left.entry (λ operations.
        IsRuleFor (map operation_part operations) result) }
    ensures valid { IfSome result IsValid }
{
    rules_of_sequences();
    UnwindRuleX86_64::for_sequence_of_offset_or_pop(CodeParts { left })
}

/// The parts of an epilog that are left.
#[derive(Clone, Copy, Debug)]
pub(crate) struct EpilogParts<'a> {
    epilog: Epilog<'a>,
}

impl Iterator for EpilogParts<'_> {
    ghost use Rattle.std.specs.Iterator.{at_most};
    ghost use Rattle.std.specs.Prelude.{length, ◌+◌};
    ghost use Rattle.framehop_pe.specs.PartViews.{GivesBy, epilog_parts_left, adjustment_size};

    type Item = OffsetOrPop;

    ghost next_gives = { GivesBy epilog_parts_left };

    ghost remaining = { λ s. at_most (adjustment_size s.epilog.adjustment + length s.epilog.rest.now) };

    fn next(&mut self) -> Option<OffsetOrPop> {
        match self.epilog.adjustment {
            SpAdjustment::Add(bytes) => {
                self.epilog.adjustment = SpAdjustment::Stays;
                Some(offset_part(bytes))
            }
            SpAdjustment::Lea(_) => {
                self.epilog.adjustment = SpAdjustment::Stays;
                Some(OffsetOrPop::None)
            }
            SpAdjustment::Stays => {
                let (register, rest) = next_popped(self.epilog.rest)?;
                self.epilog.rest = rest;
                Some(OffsetOrPop::Pop(register))
            }
        }
    }
}

// The rule for what is left of an epilog, if it has one.
pub(crate) fn rule_of_epilog(epilog: Epilog<'_>) -> Option<UnwindRuleX86_64>
    ensures rule { OverEpilog epilog.entry (λ left. IsRuleFor (epilog_parts left) result) }
    ensures valid { IfSome result IsValid }
{
    rules_of_sequences();
    UnwindRuleX86_64::for_sequence_of_offset_or_pop(EpilogParts { epilog })
}
