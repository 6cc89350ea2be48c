//! Steps from frames whose rules are kept.

ghost use Rattle.framehop_rules.specs.RuleMeaning.{IsValid};

use framehop_rules::x86_64::{Reg, UnwindRegsX86_64, UnwindRuleX86_64};
use framehop_rules::{CacheResult, RuleCache, UnwindRule};
use std::alloc::{AllocError, Global};

/// How many steps a round makes.
pub const STEPS: u64 = 252;

/// The first address; the others follow 16 bytes apart, so that no two are in one slot.
const CODE: u64 = 0x7f12_3400_1000;

const STACK: u64 = 0x7ffd_8000_0000;

/// The registers whose values the steps ask for, in turn.
const ASKED: [Reg; 5] = [Reg::RBX, Reg::RBP, Reg::R12, Reg::RBX, Reg::R13];

/// A first frame that a step begins at, and the register of its caller that is asked for.
#[derive(Clone, Copy)]
pub struct Frame {
    address: u64,
    sp: u64,
    bp: u64,
    asked: Reg,
}

/// What came of the steps of a round.
#[derive(Clone, Copy)]
pub struct Tally {
    /// How many answered a return address.
    pub answered: u32,
    /// The sum of the registers that were asked for, modulo 2^64.
    pub sum: u64,
}

/// A stack of 64 words, each the address of the word eight words above it.
#[derive(Drop)]
pub struct Stack(Vec<u64>);

impl Stack {
    pub fn new(alloc: Global) -> Result<Self, AllocError> {
        let mut words = Vec::new(alloc);
        for i in 0..64 {
            words.push(STACK + 8 * i + 64)?;
        }
        Ok(Stack(words))
    }

    // The word at an address. `Err` where there is none.
    fn word(&self, address: u64) -> Result<u64, ()> {
        let offset = address.checked_sub(STACK).ok_or(())?;
        if offset % 8 != 0 {
            return Err(());
        }
        self.0.get((offset / 8) as usize).copied().ok_or(())
    }
}

/// The frames of the steps.
pub fn make_frames(alloc: Global) -> Result<Vec<Frame>, AllocError> {
    let mut frames = Vec::new(alloc);
    for step in 0..STEPS {
        frames.push(Frame {
            address: CODE + 16 * step,
            sp: STACK + 16,
            bp: STACK + 32,
            asked: ASKED[(step % 5) as usize],
        })?;
    }
    Ok(frames)
}

/// Which rules the steps are made by.
#[derive(Clone, Copy)]
pub enum Rules {
    /// An offset, an offset with a stored frame pointer, and the frame pointer, in turn.
    Common,
    /// An offset of one word and pops of one, three and six registers, in turn.
    Pops,
}

// One of the common rules.
fn common_rule(step: usize) -> UnwindRuleX86_64
    ensures { IsValid result }
{
    match step % 3 {
        0 => UnwindRuleX86_64::OffsetSp { sp_offset_by_8: 2 },
        1 => UnwindRuleX86_64::OffsetSpAndRestoreBp {
            sp_offset_by_8: 4,
            bp_storage_offset_from_sp_by_8: 2,
        },
        _ => UnwindRuleX86_64::UseFramePointer,
    }
}

// One of the rules that pop registers: RBP; RBX, RBP, R12; RBX, RBP, R12 to R15.
fn pop_rule(step: usize) -> UnwindRuleX86_64
    ensures { IsValid result }
{
    let (register_count, encoded_registers_to_pop) = match step % 3 {
        0 => (1, 1),
        1 => (3, 112),
        _ => (6, 17584),
    };
    UnwindRuleX86_64::OffsetSpAndPopRegisters {
        sp_offset_by_8: 1,
        register_count,
        encoded_registers_to_pop,
    }
}

/// Keeps the rules of all frames.
pub fn keep_rules(cache: &mut RuleCache<UnwindRuleX86_64>, frames: &[Frame], rules: Rules) {
    for (step, frame) in frames.iter().enumerate() {
        if let CacheResult::Miss(handle) = cache.lookup(frame.address, true, 1) {
            let rule = match rules {
                Rules::Common => common_rule(step),
                Rules::Pops => pop_rule(step),
            };
            cache.insert(handle, rule);
        }
    }
}

/// Makes a step from each of the frames by its rule. Adding up registers of the callers keeps the
/// compiler from leaving out their restoring.
pub fn make_steps(
    cache: &mut RuleCache<UnwindRuleX86_64>,
    stack: &Stack,
    frames: &[Frame],
) -> Tally {
    let mut tally = Tally {
        answered: 0,
        sum: 0,
    };
    for frame in frames {
        let mut regs = UnwindRegsX86_64::new(frame.address, frame.sp, frame.bp);
        let mut read_stack = |at: u64| -> Result<u64, ()> { stack.word(at) };
        if let CacheResult::Hit(rule) = cache.lookup(frame.address, true, 1) {
            if let Ok(Some(_)) = rule.exec(true, &mut regs, &mut read_stack) {
                tally.answered = tally.answered.wrapping_add(1);
                tally.sum = tally.sum.wrapping_add(regs.get(frame.asked));
            }
        }
    }
    tally
}
