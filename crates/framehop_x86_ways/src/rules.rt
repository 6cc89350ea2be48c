//! The unwind rule of a way.
ghost use Rattle.std.specs.Prelude.{◌≡◌, ◌*◌, ◌*ℤ◌, ◌-ℤ◌, ◌≤ℤ◌, pos, IfSome, IsTrue};
ghost use Rattle.framehop_x86_instructions.specs.declared.address.Base.TheVariants.{StackPointer, FramePointer};
ghost use Rattle.framehop_x86_ways.specs.declared.values.Value.TheVariants.{Address, Word};
ghost use Rattle.framehop_x86_ways.specs.WayRules.{words_of, is_word, is_address, stored_words, rule_by_words, rule_by_sp, rule_by_fp, rule_of, rule_of_way, first_way_rule, IsRuleOf, IsRuleOfWay};

use crate::executed::Executed;
use crate::finding::first_way;
use crate::values::{Held, Returned, Value, is_same_base};
use framehop_rules::x86_64::UnwindRuleX86_64;
use framehop_ways::Bounds;
use framehop_x86_instructions::Base;

// A number of bytes in words of 8, if it is a multiple, isn't negative, and fits.
fn words_of(bytes: i32) -> Option<u16>
    ensures words { result ≡ words_of bytes }
    ensures is { IfSome result (λ words. bytes ≡ pos (8 * words)) }
{
    if bytes < 0 {
        return None;
    }
    let bytes = bytes as u32;
    if bytes % 8 != 0 {
        return None;
    }
    u16::try_from(bytes / 8).ok()
}

// Whether a value is the word so many bytes from a base now.
fn is_word(value: Value, base: Base, at: i32) -> bool
    ensures word { result ≡ is_word value base at }
    ensures is { IsTrue result → value ≡ Word base at }
{
    match value {
        Value::Word { base: other, bytes } => {
            is_same_base(other, base) && i64::from(bytes) - i64::from(at) == 0
        }
        _ => false,
    }
}

// Whether a value is what a base holds now.
fn is_kept(value: Value, base: Base) -> bool
    ensures kept { result ≡ is_address value base (pos 0) }
    ensures is { IsTrue result → value ≡ Address base (pos 0) }
{
    match value {
        Value::Address { base: other, bytes } => is_same_base(other, base) && bytes == 0,
        _ => false,
    }
}

// How many words from RSP now a word is.
fn stored_words(value: Value) -> Option<i16>
    ensures words { result ≡ stored_words value }
    ensures is { IfSome result (λ words. value ≡ Word StackPointer (pos 8 *ℤ words)) }
    ensures above { IfSome result (λ words. pos 0 ≤ℤ words) }
{
    match value {
        Value::Word {
            base: Base::StackPointer,
            bytes,
        } => {
            let words = words_of(bytes)?;
            i16::try_from(words).ok()
        }
        _ => None,
    }
}

// The rule for an RSP that goes up by so many words, below which the return address is.
fn rule_by_words(left: Returned, sp_offset_by_8: u16) -> Option<UnwindRuleX86_64>
    requires sp { left.sp ≡ Address StackPointer (pos (8 * sp_offset_by_8)) }
    requires address { left.return_address ≡ Word StackPointer (pos (8 * sp_offset_by_8) -ℤ pos 8) }
    ensures rule { result ≡ rule_by_words left.fp sp_offset_by_8 }
    ensures is { IfSome result (λ rule. IsRuleOf left rule) }
{
    if is_kept(left.fp, Base::FramePointer) {
        if sp_offset_by_8 == 1 {
            Some(UnwindRuleX86_64::JustReturn)
        } else {
            Some(UnwindRuleX86_64::OffsetSp { sp_offset_by_8 })
        }
    } else {
        let bp_storage_offset_from_sp_by_8 = stored_words(left.fp)?;
        Some(UnwindRuleX86_64::OffsetSpAndRestoreBp {
            sp_offset_by_8,
            bp_storage_offset_from_sp_by_8,
        })
    }
}

// The rule for an RSP that goes up by so many bytes.
fn rule_by_sp(left: Returned, bytes: i32) -> Option<UnwindRuleX86_64>
    requires { left.sp ≡ Address StackPointer bytes }
    ensures rule { result ≡ rule_by_sp left bytes }
    ensures is { IfSome result (λ rule. IsRuleOf left rule) }
{
    let words = words_of(bytes)?;
    if words > 0 && is_word(left.return_address, Base::StackPointer, bytes - 8) {
        rule_by_words(left, words)
    } else {
        None
    }
}

// The rule for an RSP that is so many bytes above RBP.
fn rule_by_fp(left: Returned, bytes: i32) -> Option<UnwindRuleX86_64>
    requires { left.sp ≡ Address FramePointer bytes }
    ensures rule { result ≡ rule_by_fp left bytes }
    ensures is { IfSome result (λ rule. IsRuleOf left rule) }
{
    if bytes == 16
        && is_word(left.fp, Base::FramePointer, 0)
        && is_word(left.return_address, Base::FramePointer, 8)
    {
        Some(UnwindRuleX86_64::UseFramePointer)
    } else {
        None
    }
}

// The rule for what RSP and RBP hold.
fn rule_of(left: Returned) -> Option<UnwindRuleX86_64>
    ensures rule { result ≡ rule_of left }
    ensures is { IfSome result (λ rule. IsRuleOf left rule) }
{
    match left.sp {
        Value::Address {
            base: Base::StackPointer,
            bytes,
        } => rule_by_sp(left, bytes),
        Value::Address {
            base: Base::FramePointer,
            bytes,
        } => rule_by_fp(left, bytes),
        Value::Word { .. } | Value::Any => None,
    }
}

/// The unwind rule of a way: what RSP and RBP hold after it, and where the return address is.
pub fn way_rule(way: &[Executed]) -> Option<UnwindRuleX86_64>
    ensures rule { result ≡ rule_of_way way.now }
    ensures is { IfSome result (λ rule. IsRuleOfWay way.now rule) }
{
    let held = Held::after(way)?;
    rule_of(held.returned())
}

/// The unwind rule of the first way out of a function from a place of a text.
pub fn first_way_rule(text: &[u8], bounds: Bounds, at: usize) -> Option<UnwindRuleX86_64>
    ensures { result ≡ first_way_rule text.now bounds at }
{
    let way = first_way(text, bounds, at)?;
    way_rule(way.as_slice())
}
