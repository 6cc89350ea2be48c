//! The table of an entry: a line of headings, and one for each row.

ghost use Rattle.std.specs.Prelude.{◌≡◌, ◌≢◌, ◌<◌, ◌*◌, IfErr, IfOk, OnOk, string_bytes};
ghost use Rattle.dwarf_frame_instructions.specs.ProgramRows.{current_row, rows_left, steps_left};
ghost use Rattle.dwarf_frame_rows.specs.Row.{row_of};
ghost use Rattle.line_parts.specs.Parts.{Pushes};
ghost use Rattle.frame_table.specs.TableViews.{IfMore, ShowsNext, rows_within, table_view};
ghost use Rattle.frame_table.specs.Tables.{cfa_text, column_cells, column_name, found_text, given_line, heading_line, if_shown, row_lines, rule_cells, rule_text, shown_line, table_text};

use crate::names::{Machine, register_in_full, register_name};
use dwarf_constants::{Error, Register};
use dwarf_frame_instructions::{FrameProgram, ProgramRows};
use dwarf_frame_rows::{
    CfaRule, RegisterRule, RuledRegister, UnwindContext, UnwindContextStorage, UnwindTableRow,
};
use dwarf_readers::{Reader, ReaderOffset};
use dwarf_storage::ArrayLike;
use line_parts::{push_bytes, push_cell, push_hex, signed_text};
use std::alloc::{AllocError, Global};

/// What the lines of one table have in common.
#[derive(Drop)]
pub struct Table {
    /// Whose names registers have.
    pub machine: Option<Machine>,
    /// The size of an address in bytes.
    pub address_size: u8,
    /// The column of the return address.
    pub return_address: Register,
    /// The registers that have a column, in ascending order.
    pub columns: Vec<u16>,
    /// Whether the table is shown at all.
    pub is_shown: bool,
}

// How the CFA is found.
fn cfa_text<T>(
    alloc: Global,
    machine: Option<Machine>,
    rule: &CfaRule<T>,
) -> Result<String, AllocError>
    ensures { IfOk result (λ text. string_bytes text ≡ cfa_text machine rule.now) }
{
    match rule {
        CfaRule::RegisterAndOffset { register, offset } => {
            let name = register_name(alloc, machine, register.0)?;
            let offset = signed_text(alloc, *offset)?;
            format!(in alloc; "{}{}", name.as_str(), offset.as_str())
        }
        CfaRule::Expression(_) => String::from_str(alloc, "exp"),
    }
}

// How a register is found.
fn rule_text<T>(
    alloc: Global,
    machine: Option<Machine>,
    rule: &RegisterRule<T>,
) -> Result<String, AllocError>
    ensures { IfOk result (λ text. string_bytes text ≡ rule_text machine rule.now) }
{
    match rule {
        RegisterRule::Undefined => String::from_str(alloc, "u"),
        RegisterRule::SameValue => String::from_str(alloc, "s"),
        RegisterRule::Offset(offset) => {
            let offset = signed_text(alloc, *offset)?;
            format!(in alloc; "c{}", offset.as_str())
        }
        RegisterRule::ValOffset(offset) => {
            let offset = signed_text(alloc, *offset)?;
            format!(in alloc; "v{}", offset.as_str())
        }
        RegisterRule::Register(register) => register_in_full(alloc, machine, register.0),
        RegisterRule::Expression(_) => String::from_str(alloc, "exp"),
        RegisterRule::ValExpression(_) => String::from_str(alloc, "vexp"),
        RegisterRule::Architectural => String::from_str(alloc, "arch"),
        RegisterRule::Constant(number) => format!(in alloc; "{}", *number),
    }
}

// How a register is found that may have no rule.
fn found_text<T>(
    alloc: Global,
    machine: Option<Machine>,
    rule: &Option<RegisterRule<T>>,
) -> Result<String, AllocError>
    ensures { IfOk result (λ text. string_bytes text ≡ found_text machine rule.now) }
{
    match rule {
        Some(rule) => rule_text(alloc, machine, rule),
        None => String::from_str(alloc, "u"),
    }
}

impl Table {
    // The heading of a column.
    fn column_name(&self, alloc: Global, register: u16) -> Result<String, AllocError>
        ensures { IfOk result (λ text. string_bytes text
            ≡ column_name (table_view self.now) register) }
    {
        if register == self.return_address.0 {
            String::from_str(alloc, "ra")
        } else {
            register_name(alloc, self.machine, register)
        }
    }

    // How many digits an address has.
    fn digits(&self) -> usize
        ensures { result ≡ 2 * (table_view self.now).address_size }
    {
        2 * usize::from(self.address_size)
    }

    // Appends the headings of the columns.
    fn push_names(&self, alloc: Global, text: &mut Vec<u8>) -> Result<(), AllocError>
        ensures { Pushes result text.old text.new
            (column_cells (table_view self.now) (column_name (table_view self.now))) }
    {
        for register in &self.columns {
            let name = self.column_name(alloc, *register)?;
            push_cell(text, 5, name.as_bytes())?;
        }
        Ok(())
    }

    // Appends the line of headings, if the table is shown.
    fn push_headings(&self, alloc: Global, text: &mut Vec<u8>) -> Result<(), AllocError>
        ensures { Pushes result text.old text.new
            (if_shown (table_view self.now) (heading_line (table_view self.now))) }
    {
        if !self.is_shown {
            return Ok(());
        }
        push_cell(text, self.digits(), b"   LOC")?;
        push_cell(text, 8, b"CFA")?;
        self.push_names(alloc, text)?;
        push_bytes(text, b"\n")
    }

    // Appends how each column is found.
    fn push_rules<T: ReaderOffset, Rules: ArrayLike<Item = RuledRegister<RegisterRule<T>>>>(
        &self,
        alloc: Global,
        row: &UnwindTableRow<T, Rules>,
        text: &mut Vec<u8>,
    ) -> Result<(), AllocError>
        ensures { Pushes result text.old text.new
            (rule_cells (table_view self.now) (row_of row.now)) }
    {
        for register in &self.columns {
            let rule = row.register(Register(*register));
            let found = found_text(alloc, self.machine, &rule)?;
            push_cell(text, 5, found.as_bytes())?;
        }
        Ok(())
    }

    // Appends the line of a row, if the table is shown.
    fn push_row<T: ReaderOffset, Rules: ArrayLike<Item = RuledRegister<RegisterRule<T>>>>(
        &self,
        alloc: Global,
        row: &UnwindTableRow<T, Rules>,
        text: &mut Vec<u8>,
    ) -> Result<(), AllocError>
        ensures { Pushes result text.old text.new
            (shown_line (table_view self.now) (row_of row.now)) }
    {
        if !self.is_shown {
            return Ok(());
        }
        let mut start = Vec::new(alloc);
        push_hex(alloc, &mut start, self.digits(), row.start_address())?;
        push_cell(text, self.digits(), start.as_slice())?;
        let cfa = cfa_text(alloc, self.machine, row.cfa())?;
        push_cell(text, 8, cfa.as_bytes())?;
        self.push_rules(alloc, row, text)?;
        push_bytes(text, b"\n")
    }

    // Appends the line of the row that was given last, if the last call gave one.
    fn push_current<R: Reader, S: UnwindContextStorage<R::Offset>>(
        &self,
        alloc: Global,
        rows: &ProgramRows<'_, '_, R, S>,
        text: &mut Vec<u8>,
    ) -> Result<(), AllocError>
        ensures { Pushes result text.old text.new
            (given_line (table_view self.now) (current_row R.Offset.value S.Stack.items rows.now)) }
    {
        match rows.current_row() {
            Some(row) => self.push_row(alloc, row, text),
            None => Ok(()),
        }
    }

    // Appends the line of the next row, and returns whether there is one, or the error of the rows.
    fn push_next<R: Reader, S: UnwindContextStorage<R::Offset>>(
        &self,
        alloc: Global,
        rows: &mut ProgramRows<'_, '_, R, S>,
        text: &mut Vec<u8>,
    ) -> Result<dwarf_constants::Result<bool>, AllocError>
        ensures next { let left = rows_left R.stretch R.Offset.limit R.Offset.value S.Stack.items S.limits in
            IfOk result (ShowsNext (left rows.new) (table_view self.now) (left rows.old)
            text.old.items text.new.items) }
        ensures falls { IfOk result (IfMore (steps_left R.stretch R.Offset.limit rows.new
            < steps_left R.stretch R.Offset.limit rows.old)) }
        ensures same_reference { rows.new.context.ghost_name ≡ rows.old.context.ghost_name }
    {
        let answer = wanted(rows.advance())?;
        self.push_current(alloc, rows, text)?;
        Ok(answer)
    }

    // Appends the lines of a program's rows, up to its first error, which it returns.
    fn push_rows<R: Reader, S: UnwindContextStorage<R::Offset>>(
        &self,
        alloc: Global,
        context: &mut UnwindContext<R::Offset, S>,
        program: FrameProgram<'_, R>,
        text: &mut Vec<u8>,
    ) -> Result<Option<Error>, AllocError>
        ensures refusal { IfOk result (λ refusal.
            refusal ≡ (rows_within S.limits program.entry).refusal) }
        ensures rows { Pushes result text.old text.new
            (row_lines (table_view self.now) (rows_within S.limits program.entry).rows) }
    {
        let mut rows = match wanted(ProgramRows::new(context, program))? {
            Ok(rows) => rows,
            Err(refusal) => return Ok(Some(refusal)),
        };
        'rows: loop {
            match self.push_next(alloc, &mut rows, text)? {
                Ok(true) => {}
                Ok(false) => return Ok(None),
                Err(refusal) => return Ok(Some(refusal)),
            }
        }
    }

    /// Appends the table with the rows of a program, up to its first error, which it returns.
    ///
    /// What the context held before has no effect. The call fails if memory runs out, and may have
    /// appended a part of the table then.
    pub fn push<R: Reader, S: UnwindContextStorage<R::Offset>>(
        &self,
        alloc: Global,
        context: &mut UnwindContext<R::Offset, S>,
        program: FrameProgram<'_, R>,
        text: &mut Vec<u8>,
    ) -> Result<Option<Error>, AllocError>
        ensures refusal { IfOk result (λ refusal.
            refusal ≡ (rows_within S.limits program.entry).refusal) }
        ensures lines { Pushes result text.old text.new
            (table_text (table_view self.now) (rows_within S.limits program.entry)) }
    {
        self.push_headings(alloc, text)?;
        self.push_rows(alloc, context, program, text)
    }
}

// The result of a call that didn't run out of memory.
fn wanted<T>(answer: dwarf_constants::Result<T>) -> Result<dwarf_constants::Result<T>, AllocError>
    ensures same { IfOk result (λ given. given ≡ answer) }
    ensures memory { OnOk result (IfErr answer (λ e. e ≢ Error.OutOfMemory)) }
{
    match answer {
        Err(Error::OutOfMemory) => Err(AllocError),
        answer => Ok(answer),
    }
}
