//! What is kept of the rows of a program while its instructions are executed.

ghost use Rattle.std.specs.Prelude.{None, IsTrue};
ghost use Rattle.dwarf_frame_parts.specs.Execution.{StartsFrom};
ghost use Rattle.dwarf_frame_parts.specs.PartsStates.{Applies, GoesBack, IsRemembered};

use crate::simple_row::{Columns, SimpleRow, SimpleRule};
use dwarf_frame_rows::Effect;
use dwarf_readers::ReaderOffset;

/// For how many rules a context has to have room, so that it has room for each row that is made without one.
pub const MAX_RULES: usize = 128;

/// For how many rows: the current one, one that is remembered, and that of the CIE's rules.
pub const MAX_ROWS: usize = 3;

// What is kept of the rows of a program.
#[derive(Clone, Copy)]
pub(crate) struct PartsState {
    // What the CIE's own instructions left.
    pub(crate) initial: SimpleRow,
    // The current row.
    pub(crate) current: SimpleRow,
    // The row that is remembered, if one is. There is no room for two.
    pub(crate) remembered: Option<SimpleRow>,
}

impl PartsState {
    // Before an FDE's own instructions.
    #[inline(always)]
    pub(crate) fn new(left: SimpleRow) -> Self
        ensures { StartsFrom left result }
    {
        PartsState {
            initial: left,
            current: left,
            remembered: None,
        }
    }

    // Applies an effect that doesn't move the location, and returns whether it did: if it may fail in some context, it may be left out.
    #[inline(always)]
    pub(crate) fn apply<T: ReaderOffset>(&mut self, columns: Columns, effect: Effect<T>) -> bool
        ensures { Applies columns T.value self.old effect self.new result }
    {
        match effect {
            Effect::Cfa(rule) => self.current.set_cfa(rule),
            Effect::CfaRegister(register) => {
                self.current.set_cfa_register(register);
                true
            }
            Effect::CfaOffset(_) => self.current.set_cfa_offset(effect),
            Effect::Rule(register, rule) => match SimpleRule::of(rule) {
                Some(rule) => self.current.set_rule(columns, register, rule),
                None => self.current.pass_rule(columns, register),
            },
            Effect::RestoreRule(register) => {
                self.current.restore_rule(columns, &self.initial, register)
            }
            Effect::NegateRaState => self.current.count_rule(),
            Effect::Remember => self.remember(),
            Effect::Restore => self.restore(),
            Effect::ArgsSize(_) | Effect::Nothing => true,
            Effect::Move(_) => false,
        }
    }

    // Remembers the current row, if none is remembered.
    #[inline(always)]
    fn remember(&mut self) -> bool
        ensures { IsTrue result → IsRemembered self.old self.new }
    {
        if self.remembered.is_some() {
            return false;
        }
        self.remembered = Some(self.current);
        true
    }

    // Goes back to the row that is remembered, if one is.
    #[inline(always)]
    fn restore(&mut self) -> bool
        ensures { IsTrue result → GoesBack self.old self.new }
    {
        let Some(remembered) = self.remembered else {
            return false;
        };
        self.current = remembered;
        self.remembered = None;
        true
    }
}
