//! Rows as lines of text.

use crate::values::ShowValues;
use dwarf_constants::{Error, Register};
use dwarf_frame_rows::{CfaRule, RegisterRule, RuledRegister, UnwindExpression, UnwindTableRow};
use dwarf_readers::ReaderOffset;
use dwarf_storage::ArrayLike;
use shown_text::Shown;
use std::alloc::{AllocError, Global};

// The offset and the length of an expression.
fn show_expression<T: ReaderOffset>(
    before: &str,
    expression: UnwindExpression<T>,
    shown: &mut Shown,
) {
    shown.number(before, expression.offset.into_u64());
    shown.number(",", expression.length.into_u64());
}

// How the CFA is found: `r` and a register with an offset, or the offset and the length of an expression.
fn show_cfa<T: ReaderOffset>(rule: &CfaRule<T>, shown: &mut Shown) {
    match *rule {
        CfaRule::RegisterAndOffset { register, offset } => {
            shown.number(" r", u64::from(register.0));
            shown.signed(",", offset);
        }
        CfaRule::Expression(expression) => show_expression(" exp@", expression, shown),
    }
}

// How a register is found, as readelf writes it, with the numbers that belong to it.
fn show_rule<T: ReaderOffset>(rule: RegisterRule<T>, shown: &mut Shown) {
    match rule {
        RegisterRule::Undefined => shown.text("=u"),
        RegisterRule::SameValue => shown.text("=s"),
        RegisterRule::Offset(offset) => shown.signed("=c", offset),
        RegisterRule::ValOffset(offset) => shown.signed("=v", offset),
        RegisterRule::Register(register) => shown.number("=r", u64::from(register.0)),
        RegisterRule::Expression(expression) => show_expression("=exp@", expression, shown),
        RegisterRule::ValExpression(expression) => show_expression("=vexp@", expression, shown),
        RegisterRule::Architectural => shown.text("=a"),
        RegisterRule::Constant(number) => shown.number("=k", number),
    }
}

// The numbers of the registers that have a rule, the least first.
fn registers_of<T: ReaderOffset, Rules: ArrayLike<Item = RuledRegister<RegisterRule<T>>>>(
    alloc: Global,
    row: &UnwindTableRow<T, Rules>,
) -> Result<Vec<u16>, AllocError> {
    let mut registers = Vec::new(alloc);
    for ruled in row.registers() {
        registers.push(ruled.register.0)?;
    }
    registers.sort()?;
    Ok(registers)
}

// The rules of registers.
fn show_rules<T: ReaderOffset, Rules: ArrayLike<Item = RuledRegister<RegisterRule<T>>>>(
    row: &UnwindTableRow<T, Rules>,
    registers: &[u16],
    shown: &mut Shown,
) {
    for number in registers {
        if let Some(rule) = row.register(Register(*number)) {
            shown.number(" ", u64::from(*number));
            show_rule(rule, shown);
        }
    }
}

/// A row's bounds, its CFA, its rules by their registers' numbers, and the size of arguments.
pub fn show_row<T: ReaderOffset, Rules: ArrayLike<Item = RuledRegister<RegisterRule<T>>>>(
    row: &UnwindTableRow<T, Rules>,
    shown: &mut Shown,
) {
    shown.hex("", row.start_address());
    shown.hex("..", row.end_address());
    show_cfa(row.cfa(), shown);
    match registers_of(shown.alloc(), row) {
        Ok(registers) => show_rules(row, &registers, shown),
        Err(error) => shown.keep(Err(error)),
    }
    if row.saved_args_size() != 0 {
        shown.number(" args=", row.saved_args_size());
    }
}

/// A row that was asked for, or the error, and the end of the line.
pub fn show_answer<T: ReaderOffset, Rules: ArrayLike<Item = RuledRegister<RegisterRule<T>>>>(
    answer: Result<&UnwindTableRow<T, Rules>, Error>,
    shown: &mut Shown,
) {
    match answer {
        Ok(row) => show_row(row, shown),
        Err(error) => shown.error("", error),
    }
    shown.end();
}

/// The address before a start, the start, the last address before an end, and the end.
pub fn edges(start: u64, end: u64) -> [u64; 4] {
    [start.wrapping_sub(1), start, end.wrapping_sub(1), end]
}
