//! Registers that take words from the stack.

ghost use Rattle.std.specs.Prelude.{◌<◌, ◌≤◌, IfErr, length};
ghost use Rattle.framehop_registers.specs.Callback.{OverWords, ReadsOverWords};
ghost use Rattle.framehop_rules.specs.Outcome.{IsOfRule, StaysUnlessAnswered};
ghost use Rattle.framehop_rules.specs.OverWords.{StepsOverWords};
ghost use Rattle.framehop_registers.specs.PopLists.{order_count};
ghost use Rattle.framehop_rules.specs.CodeViews.{AreRead, pops_meaning, pops_reads};
ghost use Rattle.framehop_rules.specs.RuleReads.{reads_of_pops};

use crate::unwind_rule::{address_above, bytes_of, read_word};
use framehop_registers::Error;
use framehop_registers::x86_64::{UnwindRegsX86_64, set_by_number};

// Reads words one after the other, the first at `from`, and returns the address after them.
#[inline(always)]
fn read_words<F: FnMut(u64) -> Result<u64, ()>>(
    words: &mut [u64],
    from: u64,
    read_stack: &mut F,
) -> Result<u64, Error>
    requires { F.IsAlwaysCallable read_stack.old }
    ensures callable { F.IsAlwaysCallable read_stack.new }
    ensures read { OverWords F.step read_stack.old read_stack.new
        (AreRead words.old words.new from result) }
    ensures order { ReadsOverWords F.step read_stack.old read_stack.new (λ stack.
        reads_of_pops stack (length words.old) from) }
    ensures refusals { IfErr result IsOfRule }
{
    let mut at = from;
    for word in words.iter_mut() {
        *word = read_word(read_stack, at)?;
        at = address_above(at, 8)?;
    }
    Ok(at)
}

/// The step of a rule that pops registers, by its offset in words, and the count and the order number
/// of its list. No register is written before all words are read, so that the registers needn't be kept
/// for a failed read.
#[inline(always)]
pub(crate) fn pop_and_return<F: FnMut(u64) -> Result<u64, ()>>(
    offset: u16,
    count: u8,
    number: u16,
    regs: &mut UnwindRegsX86_64,
    read_stack: &mut F,
) -> Result<Option<u64>, Error>
    requires count { count ≤ 8 }
    requires number { number < order_count }
    requires callable { F.IsAlwaysCallable read_stack.old }
    ensures callable { F.IsAlwaysCallable read_stack.new }
    ensures step { StepsOverWords F.step read_stack.old read_stack.new regs.old regs.new result
        (pops_meaning offset count number regs.old) }
    ensures order { ReadsOverWords F.step read_stack.old read_stack.new
        (pops_reads offset count number regs.old) }
    ensures stays { StaysUnlessAnswered result regs.old regs.new }
    ensures refusals { IfErr result IsOfRule }
{
    regs.has_all_registers();
    let mut words = [0; 8];
    let words = &mut words[..usize::from(count)];
    let from = address_above(regs.sp(), bytes_of(offset))?;
    let after = read_words(words, from, read_stack)?;
    let new_sp = address_above(after, 8)?;
    let return_address = read_word(read_stack, after)?;
    if return_address == 0 {
        return Ok(None);
    }
    set_by_number(regs, number, words);
    regs.set_ip(return_address);
    regs.set_sp(new_sp);
    Ok(Some(return_address))
}
