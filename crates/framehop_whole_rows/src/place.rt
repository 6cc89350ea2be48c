//! A frame at a row.

ghost use Rattle.std.specs.Prelude.{◌≡◌, option_map};
ghost use Rattle.std.specs.FinMap.{get};
ghost use Rattle.dwarf_endianity.specs.Answers.{Gives};
ghost use Rattle.dwarf_frame_instructions.specs.Execution.{row_in};
ghost use Rattle.dwarf_frame_instructions.specs.StateViews.{cfa_as};
ghost use Rattle.dwarf_frame_parts.specs.RowParts.{column_as};
ghost use Rattle.framehop_whole_rows.specs.Callers.{row_place};
ghost use Rattle.dwarf_frame_rows.specs.Expressions.{expression_bytes};

use dwarf_constants::{Register, Result};
use dwarf_frame_rows::{
    _UnwindSectionPrivate, CfaRule, RegisterRule, RuledRegister, UnwindExpression, UnwindTableRow,
};
use dwarf_readers::Reader;
use dwarf_storage::ArrayLike;
use framehop_expressions::KnownRegisters;
use std::marker::Model;

/// A frame at a row: the registers that are known, the section that has the row's expressions, the row, and the register of the return
/// address.
#[derive(Drop)]
pub struct RowPlace<
    'a,
    R: Reader,
    Rules: ArrayLike<Item = RuledRegister<RegisterRule<R::Offset>>>,
> {
    pub(crate) registers: &'a KnownRegisters,
    pub(crate) section: R,
    pub(crate) row: &'a UnwindTableRow<R::Offset, Rules>,
    pub(crate) column: Register,
}

impl<'a, R: Reader, Rules: ArrayLike<Item = RuledRegister<RegisterRule<R::Offset>>>> Model
    for RowPlace<'a, R, Rules> {
    ghost use Rattle.dwarf_frame_instructions.specs.Execution.{row_in};
    ghost use Rattle.framehop_whole_rows.specs.Callers.{RowPlace as View};
    ghost use Rattle.std.specs.Coded.{codes};
    ghost use Rattle.std.specs.FinMap as map;

    ghost Value = { View };

    ghost coded = { Prim.hlevel (codes, map.code) };

    ghost view = { λ place. record {
      registers = place.registers.now;
      section = R.stretch place.section;
      row = row_in R.Offset.value place.row.now;
      column = place.column.0;
    } };
}

impl<'a, R: Reader, Rules: ArrayLike<Item = RuledRegister<RegisterRule<R::Offset>>>> RowPlace<
    'a,
    R,
    Rules,
> {
    /// A frame with these registers at a row of a section. `column` is the register of the return address, as the row's CIE names it.
    pub fn new<Section: _UnwindSectionPrivate<R>>(
        section: &Section,
        row: &'a UnwindTableRow<R::Offset, Rules>,
        column: Register,
        registers: &'a KnownRegisters,
    ) -> Self
        ensures { result ≡ row_place registers.now (R.stretch (Section.reader section.now))
            (row_in R.Offset.value row.now) column.0 }
    {
        let reader: &R = _UnwindSectionPrivate::section(section);
        RowPlace {
            registers,
            section: *reader,
            row,
            column,
        }
    }

    /// The rule of the CFA.
    pub(crate) fn cfa_rule(&self) -> CfaRule<R::Offset>
        ensures { self.now.row.cfa ≡ cfa_as R.Offset.value result }
    {
        *self.row.cfa()
    }

    /// The rule of a register, if it has one.
    pub(crate) fn rule_of(&self, register: Register) -> Option<RegisterRule<R::Offset>>
        ensures { get self.now.row.rules register.0 ≡ column_as R.Offset.value result }
    {
        self.row.register(register)
    }

    /// The rule of the return address, if it has one.
    pub(crate) fn return_rule(&self) -> Option<RegisterRule<R::Offset>>
        ensures { get self.now.row.rules self.now.column ≡ column_as R.Offset.value result }
    {
        self.rule_of(self.column)
    }

    /// The bytes of an expression.
    pub(crate) fn bytes_of(&self, expression: UnwindExpression<R::Offset>) -> Result<R>
        ensures { Gives R.stretch result
            (expression_bytes R.Offset.value self.now.section expression) }
    {
        let mut rest = self.section;
        rest.skip(expression.offset)?;
        rest.split(expression.length)
    }
}
