//! Rows whose CFA is a register plus an offset, and whose rules that are kept have no expression.

ghost use Rattle.std.specs.Prelude.{◌≡◌, ℕ, [], IsTrue, IfSome, Some};
ghost use Rattle.dwarf_frame_rows.specs.declared.rules.RegisterRule.{RegisterRule};
ghost use Rattle.dwarf_frame_rows.specs.declared.effect.Effect.TheVariants.{Cfa, CfaRegister, Rule};
ghost use Rattle.dwarf_frame_instructions.specs.StateViews.{cfa_as, effect_as, rule_as};
ghost use Rattle.dwarf_frame_parts.specs.PartsStates.{Counts, Keeps, KeepsMore, KeepsRestored, KeepsRule, Rules};
ghost use Rattle.dwarf_frame_parts.specs.RowParts.{IsApart, column_as, parts_as};
ghost use Rattle.dwarf_frame_parts.specs.SimpleRows.{parts_shown, rule_shown};

use crate::parts::Parts;
use crate::parts_state::MAX_RULES;
use dwarf_constants::{AArch64, Register};
use dwarf_frame_rows::{CfaRule, Effect, RegisterRule};
use dwarf_readers::ReaderOffset;

/// The registers whose rules are kept.
#[derive(Debug, Clone, Copy)]
pub struct Columns {
    /// The frame pointer.
    pub fp: Register,
    /// The return address.
    pub ra: Register,
}

// The rule of a register, if it has no expression and no other register.
#[derive(Debug, Clone, Copy)]
pub(crate) enum SimpleRule {
    // The register has none.
    Absent,
    // It can't be recovered.
    Undefined,
    // It has the value that it has here.
    SameValue,
    // It is saved at the CFA plus this offset.
    Offset(i64),
}

/// A row whose CFA is a register plus an offset, and whose rules that are kept are none, undefined, the same value, or an offset from the
/// CFA.
#[derive(Debug, Clone, Copy)]
pub struct SimpleRow {
    pub(crate) cfa_register: Register,
    pub(crate) cfa_offset: i64,
    pub(crate) fp: SimpleRule,
    pub(crate) ra: SimpleRule,
    // At most how many rules the row has.
    pub(crate) rules: usize,
}

impl SimpleRule {
    // This rule, if it is a simple one.
    #[inline(always)]
    pub(crate) fn of<T: ReaderOffset>(rule: RegisterRule<T>) -> Option<Self>
        ensures { IfSome result (λ simple. rule_shown simple ≡ Some (rule_as T.value rule)) }
    {
        match rule {
            RegisterRule::Undefined => Some(SimpleRule::Undefined),
            RegisterRule::SameValue => Some(SimpleRule::SameValue),
            RegisterRule::Offset(offset) => Some(SimpleRule::Offset(offset)),
            _ => None,
        }
    }

    // The rule, if the register has one.
    #[inline(always)]
    fn rule<T: ReaderOffset>(self) -> Option<RegisterRule<T>>
        ensures { column_as T.value result ≡ rule_shown self }
    {
        match self {
            SimpleRule::Absent => None,
            SimpleRule::Undefined => Some(RegisterRule::Undefined),
            SimpleRule::SameValue => Some(RegisterRule::SameValue),
            SimpleRule::Offset(offset) => Some(RegisterRule::Offset(offset)),
        }
    }
}

impl SimpleRow {
    /// The parts of the row.
    #[inline(always)]
    pub fn parts<T: ReaderOffset>(&self) -> Parts<T>
        ensures { parts_as T.value result ≡ parts_shown self.now }
    {
        Parts {
            cfa: CfaRule::RegisterAndOffset {
                register: self.cfa_register,
                offset: self.cfa_offset,
            },
            fp: self.fp.rule(),
            ra: self.ra.rule(),
        }
    }

    // Before any instruction.
    pub(crate) fn new() -> Self
        ensures { (columns : Columns) (initial : Rules) → Keeps columns initial result [] }
    {
        SimpleRow {
            cfa_register: Register(0),
            cfa_offset: 0,
            fp: SimpleRule::Absent,
            ra: SimpleRule::Absent,
            rules: 0,
        }
    }

    // Counts a rule more, if there is room for it.
    #[inline(always)]
    pub(crate) fn count_rule(&mut self) -> bool
        ensures { IsTrue result → Counts self.old self.new }
    {
        if self.rules >= MAX_RULES {
            return false;
        }
        self.rules += 1;
        true
    }

    // Counts a rule that is written for a register. By one for the sign state it may be that it can't be negated, so that it has none.
    #[inline(always)]
    fn count_rule_of(&mut self, register: Register) -> bool
        ensures apart { IsTrue result → IsApart register }
        ensures counts { IsTrue result → Counts self.old self.new }
    {
        register != AArch64::RA_SIGN_STATE && self.count_rule()
    }

    // Gives the register this rule, if it is counted.
    #[inline(always)]
    pub(crate) fn set_rule(
        &mut self,
        columns: Columns,
        register: Register,
        rule: SimpleRule,
    ) -> bool
        ensures { IsTrue result → KeepsRule columns self.old register rule self.new }
    {
        if !self.count_rule_of(register) {
            return false;
        }
        if register == columns.fp {
            self.fp = rule;
        }
        if register == columns.ra {
            self.ra = rule;
        }
        true
    }

    // Passes over a rule of a register that isn't kept, if it is counted.
    #[inline(always)]
    pub(crate) fn pass_rule(&mut self, columns: Columns, register: Register) -> bool
        ensures { IsTrue result → (written : RegisterRule ℕ)
            → KeepsMore columns self.old (Rule register written) self.new }
    {
        register != columns.fp && register != columns.ra && self.count_rule_of(register)
    }

    // Gives the register the rule that the CIE's own instructions left, or none, if it is counted.
    #[inline(always)]
    pub(crate) fn restore_rule(
        &mut self,
        columns: Columns,
        first: &SimpleRow,
        register: Register,
    ) -> bool
        ensures { IsTrue result → KeepsRestored columns first.now self.old register self.new }
    {
        if !self.count_rule_of(register) {
            return false;
        }
        if register == columns.fp {
            self.fp = first.fp;
        }
        if register == columns.ra {
            self.ra = first.ra;
        }
        true
    }

    // Gives the CFA this rule, unless it is an expression.
    #[inline(always)]
    pub(crate) fn set_cfa<T: ReaderOffset>(&mut self, rule: CfaRule<T>) -> bool
        ensures { IsTrue result → (columns : Columns) → KeepsMore columns self.old (Cfa (cfa_as T.value rule)) self.new }
    {
        let CfaRule::RegisterAndOffset { register, offset } = rule else {
            return false;
        };
        self.cfa_register = register;
        self.cfa_offset = offset;
        true
    }

    // Makes the CFA relative to another register.
    #[inline(always)]
    pub(crate) fn set_cfa_register(&mut self, register: Register)
        ensures { (columns : Columns) → KeepsMore columns self.old (CfaRegister register) self.new }
    {
        self.cfa_register = register;
    }

    // Puts the CFA at another offset, if the effect does that.
    #[inline(always)]
    pub(crate) fn set_cfa_offset<T: ReaderOffset>(&mut self, effect: Effect<T>) -> bool
        ensures { IsTrue result → (columns : Columns) → KeepsMore columns self.old (effect_as T.value effect) self.new }
    {
        let Effect::CfaOffset(offset) = effect else {
            return false;
        };
        self.cfa_offset = offset;
        true
    }
}
