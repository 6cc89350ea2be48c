//! Epilogues of x86_64: pops, and then a return or a tail call.
ghost use Rattle.std.specs.Prelude.{◌≡◌, ◌+◌, ◌≤◌, ◌<◌, ◌^◌, ◌++◌, ◌||◌, nat_lt, if◌then◌else◌, ℕ, List, length, IfSome, IfNone};
ghost use Rattle.framehop_analysis.specs.Found.{IsFound};
ghost use Rattle.framehop_analysis.specs.Epilogue.{IsEpilogueRule, rule_of_pops, ends_like_pop, is_pop_byte};
ghost use Rattle.framehop_analysis.specs.EpilogueViews.{IsPopThen, BeginsWithNoPop, IsWholePopRun, after_rex, leaves_function};

use framehop_rules::x86_64::UnwindRuleX86_64;

// The pops that some bytes begin with.
#[derive(Clone, Copy)]
struct Pops<'a> {
    // how many
    count: usize,
    // how many come before the last `pop rbp` without a prefix
    bp_offset_by_8: Option<usize>,
    // the bytes after them
    suffix: &'a [u8],
}

// Whether this is the byte of a pop, whatever comes before it.
fn is_pop_byte(byte: u8) -> bool
    ensures { result ≡ is_pop_byte byte }
{
    (0x58..=0x5f).contains(&byte)
}

// The bytes after a REX prefix that a pop can have, or all bytes if they begin with none. Prefixes come and go among
// pops, so that a processor would guess a branch on them wrong.
fn after_rex(bytes: &[u8]) -> &[u8]
    ensures { result.now ≡ after_rex bytes.now }
{
    match bytes {
        [0x40 | 0x41, after @ ..] => after,
        _ => bytes,
    }
}

// The pop that some bytes begin with: whether it is `pop rbp` without a prefix, and the bytes after it.
fn first_pop(bytes: &[u8]) -> Option<(bool, &[u8])>
    ensures pop { IfSome result (λ pop. IsPopThen bytes.now pop.0 pop.1.now) }
    ensures none { IfNone result (BeginsWithNoPop bytes.now) }
{
    let (&first, _) = bytes.split_first()?;
    let (&byte, suffix) = after_rex(bytes).split_first()?;
    if is_pop_byte(byte) {
        Some((first == 0x5d, suffix))
    } else {
        None
    }
}

// Whether the last byte is that of a pop. It may be the end of another instruction too.
fn ends_like_pop(bytes: &[u8]) -> bool
    ensures { result ≡ ends_like_pop bytes.now }
{
    match bytes.last() {
        Some(byte) => is_pop_byte(*byte),
        None => false,
    }
}

// Whether the bytes begin with a return, or with a jump that comes after a pop: after so many, or one before them all.
fn leaves_function(bytes: &[u8], before: &[u8], count: usize) -> bool
    ensures { result ≡ leaves_function (nat_lt 0 count || ends_like_pop before.now) bytes.now }
{
    match bytes {
        [0xc3, ..] => true,
        [0xe9 | 0xeb | 0xff, ..] => count > 0 || ends_like_pop(before),
        _ => false,
    }
}

// The rule for so many pops, RBP being popped last after so many others.
fn rule_of_pops(count: usize, bp_offset_by_8: Option<usize>) -> Option<UnwindRuleX86_64>
    requires { count + 1 < 2 ^ 64 }
    ensures { result ≡ rule_of_pops count bp_offset_by_8 }
{
    if count == 0 {
        return Some(UnwindRuleX86_64::JustReturn);
    }
    let sp_offset_by_8 = u16::try_from(count + 1).ok()?;
    match bp_offset_by_8 {
        None => Some(UnwindRuleX86_64::OffsetSp { sp_offset_by_8 }),
        Some(bp_offset) => Some(UnwindRuleX86_64::OffsetSpAndRestoreBp {
            sp_offset_by_8,
            bp_storage_offset_from_sp_by_8: i16::try_from(bp_offset).ok()?,
        }),
    }
}

// How many pops come before the last one of RBP, once one more pop follows so many.
fn bp_offset_after_pop(
    is_plain_rbp: bool,
    count: usize,
    bp_offset_by_8: Option<usize>,
) -> Option<usize>
    ensures { result ≡ (if is_plain_rbp then Some count else bp_offset_by_8) }
{
    if is_plain_rbp {
        Some(count)
    } else {
        bp_offset_by_8
    }
}

// The pops that some bytes begin with.
fn pops_of(bytes: &[u8]) -> Pops<'_>
    ensures { IsWholePopRun bytes.now result.count result.bp_offset_by_8 result.suffix.now }
{
    let mut pops = Pops {
        count: 0,
        bp_offset_by_8: None,
        suffix: bytes,
    };
    while let Some((is_plain_rbp, suffix)) = first_pop(pops.suffix) {
        pops = Pops {
            count: pops.count + 1,
            bp_offset_by_8: bp_offset_after_pop(is_plain_rbp, pops.count, pops.bp_offset_by_8),
            suffix,
        };
    }
    pops
}

/// The rule for a first frame whose next instruction, at `pc_offset` of `text_bytes`, is in the end of its
/// function: pops and a return follow, or pops and a jump right after a pop. There is none if the offsets
/// don't fit the rule's fields.
pub fn unwind_rule_from_detected_epilogue(
    text_bytes: &[u8],
    pc_offset: usize,
) -> Option<UnwindRuleX86_64>
    requires { pc_offset ≤ length text_bytes.now }
    ensures { IsFound (IsEpilogueRule text_bytes.now pc_offset) result }
{
    let (before, from) = text_bytes.split_at(pc_offset);
    let pops = pops_of(from);
    if leaves_function(pops.suffix, before, pops.count) {
        rule_of_pops(pops.count, pops.bp_offset_by_8)
    } else {
        None
    }
}
