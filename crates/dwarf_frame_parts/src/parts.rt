//! The parts of a row that a step asks for.

ghost use Rattle.std.specs.Prelude.{◌≡◌};
ghost use Rattle.dwarf_frame_instructions.specs.Execution.{row_in};
ghost use Rattle.dwarf_frame_parts.specs.RowParts.{parts_as, parts_of};

use dwarf_constants::Register;
use dwarf_frame_rows::{CfaRule, RegisterRule, RuledRegister, UnwindTableRow};
use dwarf_readers::ReaderOffset;
use dwarf_storage::ArrayLike;

/// The parts of a row that a step asks for.
#[derive(Clone, Copy)]
pub struct Parts<T> {
    /// The rule of the canonical frame address.
    pub cfa: CfaRule<T>,
    /// The rule of the frame pointer, if it has one.
    pub fp: Option<RegisterRule<T>>,
    /// The rule of the return address, if it has one.
    pub ra: Option<RegisterRule<T>>,
}

/// The parts of a row, by the registers of the frame pointer and of the return address.
pub fn parts_of_row<T: ReaderOffset, Rules: ArrayLike<Item = RuledRegister<RegisterRule<T>>>>(
    row: &UnwindTableRow<T, Rules>,
    fp: Register,
    ra: Register,
) -> Parts<T>
    ensures { parts_as T.value result ≡ parts_of fp ra (row_in T.value row.now) }
{
    Parts {
        cfa: *row.cfa(),
        fp: row.register(fp),
        ra: row.register(ra),
    }
}
