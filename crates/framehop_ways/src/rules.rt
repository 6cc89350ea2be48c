//! The unwind rule of a way.
ghost use Rattle.std.specs.Prelude.{◌≡◌, ◌*◌, ◌*ℤ◌, pos, IfSome, IsTrue, option_and_then};
ghost use Rattle.framehop_ways.specs.declared.instruction.Base.TheVariants.{StackPointer, FramePointer};
ghost use Rattle.framehop_ways.specs.declared.values.Value.TheVariants.{Address, Word};
ghost use Rattle.framehop_ways.specs.Values.{IsRuleOf, IsRuleOfWay};
ghost use Rattle.framehop_ways.specs.WayRules.{as_i16, as_u16, eighth_of, first_way_rule, is_kept, rule_by, rule_by_fp, rule_by_sp, rule_of_way, rule_with_kept_fp, rule_with_loads, sixteenth_of, stored_at, stored_words};

use crate::executed::{Bounds, Executed};
use crate::finding::first_way;
use crate::instruction::Base;
use crate::values::{Value, Values, values_after};
use framehop_rules::aarch64::UnwindRuleAarch64;

// A number of bytes in units of 16, if it is a multiple and fits.
fn units_of_16(bytes: i32) -> Option<u16>
    ensures units { result ≡ option_and_then as_u16 (sixteenth_of bytes) }
    ensures is { IfSome result (λ units. bytes ≡ pos (16 * units)) }
{
    if bytes % 16 != 0 {
        return None;
    }
    u16::try_from(bytes / 16).ok()
}

// A number of bytes in units of 8, if it is a multiple and fits.
fn units_of_8(bytes: i32) -> Option<i16>
    ensures units { result ≡ option_and_then as_i16 (eighth_of bytes) }
    ensures is { IfSome result (λ units. bytes ≡ pos 8 *ℤ units) }
{
    if bytes % 8 != 0 {
        return None;
    }
    i16::try_from(bytes / 8).ok()
}

// The same, if it isn't negative.
fn units_of_8_above(bytes: i32) -> Option<u16>
    ensures units { result ≡ option_and_then as_u16 (eighth_of bytes) }
    ensures is { IfSome result (λ units. bytes ≡ pos (8 * units)) }
{
    if bytes % 8 != 0 {
        return None;
    }
    u16::try_from(bytes / 8).ok()
}

// How many bytes from a base now a word is, if a register holds it.
fn stored_at(value: Value, from: Base) -> Option<i32>
    ensures bytes { result ≡ stored_at value from }
    ensures is { IfSome result (λ bytes. value ≡ Word from bytes) }
{
    match (value, from) {
        (
            Value::Word {
                base: Base::StackPointer,
                bytes,
            },
            Base::StackPointer,
        ) => Some(bytes),
        (
            Value::Word {
                base: Base::FramePointer,
                bytes,
            },
            Base::FramePointer,
        ) => Some(bytes),
        _ => None,
    }
}

// The same in words.
fn stored_words(value: Value, from: Base) -> Option<i16>
    ensures words { result ≡ stored_words value from }
    ensures is { IfSome result (λ words. value ≡ Word from (pos 8 *ℤ words)) }
{
    units_of_8(stored_at(value, from)?)
}

// Whether a register holds what a base does now.
fn is_kept(value: Value, base: Base) -> bool
    ensures kept { result ≡ is_kept value base }
    ensures is { IsTrue result → value ≡ Address base (pos 0) }
{
    match (value, base) {
        (
            Value::Address {
                base: Base::StackPointer,
                bytes,
            },
            Base::StackPointer,
        ) => bytes == 0,
        (
            Value::Address {
                base: Base::FramePointer,
                bytes,
            },
            Base::FramePointer,
        ) => bytes == 0,
        _ => false,
    }
}

// The rule for a stack pointer that is so many bytes above x29.
fn rule_by_fp(values: Values, bytes: i32) -> Option<UnwindRuleAarch64>
    requires { values.sp ≡ Address FramePointer bytes }
    ensures rule { result ≡ rule_by_fp values bytes }
    ensures is { IfSome result (λ rule. IsRuleOf values rule) }
{
    let sp_offset_from_fp_by_8 = units_of_8_above(bytes)?;
    let fp_storage_offset_from_fp_by_8 = stored_words(values.fp, Base::FramePointer)?;
    let lr_storage_offset_from_fp_by_8 = stored_words(values.lr, Base::FramePointer)?;
    Some(UnwindRuleAarch64::UseFramepointerWithOffsets {
        sp_offset_from_fp_by_8,
        fp_storage_offset_from_fp_by_8,
        lr_storage_offset_from_fp_by_8,
    })
}

// The rule for a stack pointer that goes up by so many pairs of words, where x29 is kept.
fn rule_with_kept_fp(values: Values, sp_offset_by_16: u16) -> Option<UnwindRuleAarch64>
    requires sp { values.sp ≡ Address StackPointer (pos (16 * sp_offset_by_16)) }
    requires fp { values.fp ≡ Address FramePointer (pos 0) }
    ensures rule { result ≡ rule_with_kept_fp sp_offset_by_16 values.lr }
    ensures is { IfSome result (λ rule. IsRuleOf values rule) }
{
    match values.lr {
        Value::LinkRegister => {
            if sp_offset_by_16 == 0 {
                Some(UnwindRuleAarch64::NoOp)
            } else {
                Some(UnwindRuleAarch64::OffsetSp { sp_offset_by_16 })
            }
        }
        lr => {
            let lr_storage_offset_from_sp_by_8 = stored_words(lr, Base::StackPointer)?;
            Some(UnwindRuleAarch64::OffsetSpAndRestoreLr {
                sp_offset_by_16,
                lr_storage_offset_from_sp_by_8,
            })
        }
    }
}

// The rule where x29 and x30 are loaded.
fn rule_with_loads(values: Values, sp_offset_by_16: u16) -> Option<UnwindRuleAarch64>
    requires { values.sp ≡ Address StackPointer (pos (16 * sp_offset_by_16)) }
    ensures rule { result ≡ rule_with_loads sp_offset_by_16 values }
    ensures is { IfSome result (λ rule. IsRuleOf values rule) }
{
    let fp_storage_offset_from_sp_by_8 = stored_words(values.fp, Base::StackPointer)?;
    let lr_storage_offset_from_sp_by_8 = stored_words(values.lr, Base::StackPointer)?;
    Some(UnwindRuleAarch64::OffsetSpAndRestoreFpAndLr {
        sp_offset_by_16,
        fp_storage_offset_from_sp_by_8,
        lr_storage_offset_from_sp_by_8,
    })
}

// The rule for a stack pointer that goes up by so many bytes.
fn rule_by_sp(values: Values, bytes: i32) -> Option<UnwindRuleAarch64>
    requires { values.sp ≡ Address StackPointer bytes }
    ensures rule { result ≡ rule_by_sp values bytes }
    ensures is { IfSome result (λ rule. IsRuleOf values rule) }
{
    let sp_offset_by_16 = units_of_16(bytes)?;
    if is_kept(values.fp, Base::FramePointer) {
        rule_with_kept_fp(values, sp_offset_by_16)
    } else {
        rule_with_loads(values, sp_offset_by_16)
    }
}

// The rule for what the three registers hold.
fn rule_of(values: Values) -> Option<UnwindRuleAarch64>
    ensures rule { result ≡ rule_by values values.sp }
    ensures is { IfSome result (λ rule. IsRuleOf values rule) }
{
    match values.sp {
        Value::Address {
            base: Base::StackPointer,
            bytes,
        } => rule_by_sp(values, bytes),
        Value::Address {
            base: Base::FramePointer,
            bytes,
        } => rule_by_fp(values, bytes),
        _ => None,
    }
}

/// The unwind rule of a way: what the stack pointer, the frame pointer and the link register hold after it.
pub fn way_rule(way: &[Executed]) -> Option<UnwindRuleAarch64>
    ensures rule { result ≡ rule_of_way way.now }
    ensures is { IfSome result (λ rule. IsRuleOfWay way.now rule) }
{
    let values = values_after(way)?;
    rule_of(values)
}

/// The unwind rule of the first way out of a function from a place of a text.
pub fn first_way_rule(text: &[u8], bounds: Bounds, at: usize) -> Option<UnwindRuleAarch64>
    ensures { result ≡ first_way_rule text.now bounds at }
{
    let way = first_way(text, bounds, at)?;
    way_rule(way.as_slice())
}
