//! Laws of modules whose rows may be taken whole. The functions do nothing when the program runs.

ghost use Rattle.framehop_whole_modules.specs.Laws.{SaysAsWithout};

use framehop::Unwinding;
use framehop_whole_steps::CarriesRegisters;

/// A module whose load doesn't ask for whole rows says of each frame what it says without them. No other register is known in the caller
/// that it gives.
pub fn published_rows_say_as_without<A: Unwinding + CarriesRegisters>()
    ensures { SaysAsWithout A.carrying A.UnwindRule.meaning A.UnwindRule.fallback
        A.rows A.pe_attempt A.compact A.first_rule }
{}
