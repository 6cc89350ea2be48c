//! An offset of the stack pointer and pops, as they come one after the other.

ghost use Rattle.std.specs.Prelude.{◌≡◌, ◌≤◌, [], ◌∷◌, ◌++◌, OnSome, IfNone};

use crate::x86_64::offset_or_pop::OffsetOrPop;
use crate::x86_64::unwind_rule::UnwindRuleX86_64;
use framehop_registers::x86_64::{Reg, encode};

/// An offset, if there is one, and at most eight pops after it.
#[derive(Clone, Copy)]
pub(crate) struct OffsetThenPops {
    offset: Option<u16>,
    registers: [Reg; 8],
    count: usize,
    ghost within: { count ≤ 8 },
}

impl OffsetThenPops {
    ghost use Rattle.framehop_rules.specs.Sequences.{HasNoRule, IsRuleFor};
    ghost use Rattle.framehop_rules.specs.SequenceViews.{taken_operations};

    /// No operation.
    pub(crate) fn new() -> Self
        ensures { taken_operations result ≡ [] }
    {
        OffsetThenPops {
            offset: None,
            registers: [Reg::RBX; 8],
            count: 0,
        }
    }

    /// Takes one operation more, unless there is no rule with it.
    pub(crate) fn push(&mut self, operation: OffsetOrPop) -> Option<()>
        ensures some { OnSome result
            (taken_operations self.new ≡ taken_operations self.old ++ operation ∷ []) }
        ensures none { IfNone result (HasNoRule (taken_operations self.old ++ operation ∷ [])) }
    {
        match operation {
            OffsetOrPop::OffsetBy8(words) if self.offset.is_none() && self.count == 0 => {
                self.offset = Some(words);
                Some(())
            }
            OffsetOrPop::Pop(register) if self.count < 8 => {
                self.registers[self.count] = register;
                self.count += 1;
                Some(())
            }
            _ => None,
        }
    }

    /// The rule for the operations, if their registers are callee-saved, and each comes once.
    pub(crate) fn rule(&self) -> Option<UnwindRuleX86_64>
        ensures { IsRuleFor (taken_operations self.now) result }
    {
        let sp_offset_by_8 = self.offset.unwrap_or(0);
        if sp_offset_by_8 == 0 && self.count == 0 {
            return Some(UnwindRuleX86_64::JustReturn);
        }
        let (register_count, encoded_registers_to_pop) = encode(&self.registers[..self.count])?;
        Some(UnwindRuleX86_64::OffsetSpAndPopRegisters {
            sp_offset_by_8,
            register_count,
            encoded_registers_to_pop,
        })
    }
}
