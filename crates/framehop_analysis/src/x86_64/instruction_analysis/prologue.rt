//! Prologues of x86_64: pushes up to the address, after the setup of a frame pointer or not.
ghost use Rattle.std.specs.Prelude.{◌≡◌, ◌==◌, ◌&&◌, ◌||◌, if◌then◌else◌, ◌+◌, ◌≤◌, ◌<◌, ◌^◌, ℕ, Bool, List, length, IfSome, IfNone, IsTrue, ◌↔◌};
ghost use Rattle.framehop_analysis.specs.Instructions.{Instruction, spelling};
ghost use Rattle.framehop_analysis.specs.Found.{IsFound};
ghost use Rattle.framehop_analysis.specs.Prologue.{IsPrologueRule, IsLongestRun, EndsWith, rule_of_pushes, frame_setup};
ghost use Rattle.framehop_analysis.specs.PrologueViews.{is_expected, is_push_byte, is_rex_byte, EndsWithPush, EndsWithNoPush, IsBeforeRex};

use framehop_rules::x86_64::UnwindRuleX86_64;

// `push rbp`, `mov rbp, rsp`
const FRAME_SETUP: [u8; 4] = [0x55, 0x48, 0x89, 0xe5];

// Whether this is the byte of a push, whatever comes before it.
fn is_push_byte(byte: u8) -> bool
    ensures { result ≡ is_push_byte byte }
{
    (0x50..=0x57).contains(&byte)
}

// Whether this is what follows the prefix 48 in `sub` from RSP, or in `mov rbp, rsp`.
fn is_wide_expected(second: u8, third: u8) -> bool
    ensures { result ≡ ((((second == 0x83) || (second == 0x81)) && (third == 0xec))
        || ((second == 0x89) && (third == 0xe5))) }
{
    (second == 0x83 || second == 0x81) && third == 0xec || second == 0x89 && third == 0xe5
}

// The second byte after a REX prefix that a push can have, or else the first. Prefixes come and go among pushes, so that a
// processor would guess a branch on them wrong.
fn after_rex(first: u8, second: u8) -> u8
    ensures { result ≡ (if is_rex_byte first then second else first) }
{
    if first == 0x40 || first == 0x41 {
        second
    } else {
        first
    }
}

// Whether an instruction comes next that can stand in a prologue.
fn is_expected_in_prologue(bytes: &[u8]) -> bool
    ensures { result ≡ is_expected bytes.now }
{
    if bytes.len() < 4 {
        return false;
    }
    let (first, second, third) = (bytes[0], bytes[1], bytes[2]);
    if is_push_byte(after_rex(first, second)) {
        return true;
    }
    match first {
        0x81 | 0x83 => second == 0xec,
        0x48 => is_wide_expected(second, third),
        _ => false,
    }
}

// The bytes before a REX prefix that a push can have, or all bytes if they end with none.
fn before_rex(bytes: &[u8]) -> &[u8]
    ensures { IsBeforeRex bytes.now result.now }
{
    match bytes {
        [before @ .., 0x40 | 0x41] => before,
        _ => bytes,
    }
}

// The bytes before the push that some bytes end with.
fn before_last_push(bytes: &[u8]) -> Option<&[u8]>
    ensures push { IfSome result (λ prefix. EndsWithPush bytes.now prefix.now) }
    ensures none { IfNone result (EndsWithNoPush bytes.now) }
{
    let (&last, before) = bytes.split_last()?;
    if is_push_byte(last) {
        Some(before_rex(before))
    } else {
        None
    }
}

// How many pushes some bytes end with, and the bytes before them.
fn pushes_at_end(bytes: &[u8]) -> (usize, &[u8])
    ensures run { (pushes : List Instruction) × IsLongestRun bytes.now result.1.now pushes
        × (result.0 ≡ length pushes) }
    ensures fits { result.0 ≤ length bytes.now }
{
    let mut count = 0;
    let mut prefix = bytes;
    while let Some(before) = before_last_push(prefix) {
        count += 1;
        prefix = before;
    }
    (count, prefix)
}

// Whether some bytes end with the setup of a frame pointer.
fn ends_with_setup(bytes: &[u8]) -> bool
    ensures { IsTrue result ↔ EndsWith bytes.now (spelling frame_setup) }
{
    match bytes.last() {
        Some(0xe5) => bytes.ends_with(&FRAME_SETUP),
        _ => false,
    }
}

// The rule for so many pushes, after the setup of a frame pointer or not.
fn rule_of_pushes(has_setup: bool, pushes: usize) -> Option<UnwindRuleX86_64>
    requires { pushes + 1 < 2 ^ 64 }
    ensures { result ≡ rule_of_pushes has_setup pushes }
{
    if has_setup {
        return Some(UnwindRuleX86_64::UseFramePointer);
    }
    let sp_offset_by_8 = u16::try_from(pushes + 1).ok()?;
    Some(UnwindRuleX86_64::OffsetSp { sp_offset_by_8 })
}

/// The rule for a first frame whose next instruction, at `pc_offset` of `text_bytes`, is in the start of its
/// function: it can stand in a prologue, and the pushes before it have been executed. There is none if the
/// offset doesn't fit the rule's field.
pub fn unwind_rule_from_detected_prologue(
    text_bytes: &[u8],
    pc_offset: usize,
) -> Option<UnwindRuleX86_64>
    requires { pc_offset ≤ length text_bytes.now }
    ensures { IsFound (IsPrologueRule text_bytes.now pc_offset) result }
{
    let (before, from) = text_bytes.split_at(pc_offset);
    if !is_expected_in_prologue(from) {
        return None;
    }
    let (pushes, prefix) = pushes_at_end(before);
    rule_of_pushes(ends_with_setup(prefix), pushes)
}
