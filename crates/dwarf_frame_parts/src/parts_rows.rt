//! The rows of a program by their parts, one after the other, and the parts of the row for an address.

ghost use Rattle.std.specs.Prelude.{◌≡◌, ◌<◌};
ghost use Rattle.dwarf_frame_instructions.specs.ProgramRows.{program_of};
ghost use Rattle.dwarf_frame_parts.specs.Answers.{IsPartsOf};
ghost use Rattle.dwarf_frame_parts.specs.PartsStates.{AreApart};

use crate::execution::{Action, execute_next};
use crate::left::{LeftByCie, left_by_cie};
use crate::parts_state::PartsState;
use crate::simple_row::{Columns, SimpleRow};
use dwarf_frame_instructions::{CallFrameInstructionIter, Coding, Factors, FrameProgram};
use dwarf_readers::Reader;

/// Where a call goes on to among the rows of a program.
#[derive(Debug, Clone, Copy, PartialEq, Eq)]
pub enum Advance {
    /// To the next row, which is then the current one.
    Row,
    /// To the last row.
    LastRow,
    /// The next row, or whether there is one, isn't known without a context.
    GivesUp,
}

/// The parts of a program's row for an address.
#[derive(Debug, Clone, Copy)]
pub enum PartsAt {
    /// The row has these parts.
    Found(SimpleRow),
    /// No row contains the address.
    Uncovered,
    /// It isn't known without a context.
    GivesUp,
}

/// The part of a program that is an FDE's own: the instructions, and what their execution depends on.
#[derive(Debug, Drop)]
pub struct FdeProgram<'a, R: Reader> {
    /// What operands are multiplied by, and the size of an address.
    pub factors: Factors,
    /// The first address of the code.
    pub initial_address: u64,
    /// The first address after the code, where the last row ends.
    pub end_address: u64,
    /// The FDE's instructions.
    pub instructions: CallFrameInstructionIter<'a, R>,
}

/// The rows of a program by their parts, in their order.
#[derive(Drop)]
pub struct PartsRows<'a, R: Reader> {
    pub(crate) columns: Columns,
    pub(crate) factors: Factors,
    pub(crate) state: PartsState,
    // Where the current row starts.
    pub(crate) start_address: u64,
    // Where it ends, and the next one starts.
    pub(crate) end_address: u64,
    // Where the last row ends.
    pub(crate) last_address: u64,
    // The FDE's instructions that are left.
    pub(crate) coding: Coding<'a, R>,
    pub(crate) input: R,
}

impl<'a, R: Reader> PartsRows<'a, R> {
    ghost use Rattle.dwarf_frame_parts.specs.PartsRows.{AdvancesFrom, FindsAt, HasAllRows, columns_of, current_end, current_row, instructions_left, is_between};

    /// The rows of an FDE's instructions, after what its CIE's own left.
    #[inline(always)]
    pub fn new(columns: Columns, left: LeftByCie, program: FdeProgram<'a, R>) -> Self
        requires apart { AreApart columns }
        ensures columns { columns_of result ≡ columns }
        ensures rows { HasAllRows R.stretch R.Offset.limit columns left program.entry result }
    {
        let (coding, input) = program.instructions.into_parts();
        PartsRows {
            columns,
            factors: program.factors,
            state: PartsState::new(left.row),
            start_address: program.initial_address,
            end_address: program.initial_address,
            last_address: program.end_address,
            coding,
            input,
        }
    }

    /// Goes on to the next row.
    #[inline(always)]
    pub fn advance(&mut self) -> Advance
        ensures rows { AdvancesFrom R.stretch R.Offset.limit self.old self.new result }
        ensures falls { let left = instructions_left R.stretch R.Offset.limit in
            result ≡ Advance.Row → left self.new < left self.old }
        ensures columns { columns_of self.new ≡ columns_of self.old }
    {
        self.start_address = self.end_address;
        'instructions: loop {
            let Some(action) = execute_next(
                &mut self.state,
                self.columns,
                &self.factors,
                self.start_address,
                &self.coding,
                &mut self.input,
            ) else {
                self.end_address = self.last_address;
                return Advance::LastRow;
            };
            match action {
                Action::Moves(next) => {
                    self.end_address = next;
                    return Advance::Row;
                }
                Action::Writes => {}
                Action::GivesUp => return Advance::GivesUp,
            }
        }
    }

    /// The current row, by its parts.
    #[inline(always)]
    pub fn row(&self) -> SimpleRow
        ensures { result ≡ current_row self.now }
    {
        self.state.current
    }

    /// Where the current row ends.
    #[inline(always)]
    pub fn end_address(&self) -> u64
        ensures { result ≡ current_end self.now }
    {
        self.end_address
    }

    // Whether the current row contains the address.
    #[inline(always)]
    fn contains(&self, address: u64) -> bool
        ensures { result ≡ is_between self.now.start_address self.now.end_address address }
    {
        self.start_address <= address && address < self.end_address
    }

    /// The first of the rows that are left that contains the address.
    #[inline(always)]
    pub fn find(self, address: u64) -> PartsAt
        ensures { FindsAt R.stretch R.Offset.limit self.entry address result }
    {
        let mut rows = self;
        'rows: loop {
            match rows.advance() {
                Advance::Row if rows.contains(address) => return PartsAt::Found(rows.row()),
                Advance::Row => {}
                Advance::LastRow if rows.contains(address) => return PartsAt::Found(rows.row()),
                Advance::LastRow => return PartsAt::Uncovered,
                Advance::GivesUp => return PartsAt::GivesUp,
            }
        }
    }
}

/// The parts of a program's row for an address, as the program has them in any context that has room for [`MAX_RULES`] rules and
/// [`MAX_ROWS`] rows.
///
/// [`MAX_RULES`]: crate::MAX_RULES
/// [`MAX_ROWS`]: crate::MAX_ROWS
#[inline(always)]
pub fn parts_for_address<R: Reader>(
    columns: Columns,
    program: FrameProgram<'_, R>,
    address: u64,
) -> PartsAt
    requires apart { AreApart columns }
    ensures { IsPartsOf columns (program_of program.entry) address result }
{
    let factors = program.factors;
    let Some(left) = left_by_cie(columns, &factors, program.initial_instructions) else {
        return PartsAt::GivesUp;
    };
    let own = FdeProgram {
        factors,
        initial_address: program.initial_address,
        end_address: program.end_address,
        instructions: program.instructions,
    };
    PartsRows::new(columns, left, own).find(address)
}
