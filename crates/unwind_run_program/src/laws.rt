//! A law of the steps by each lookup. It does nothing when the program runs.

ghost use Rattle.framehop_whole_modules.specs.Attempts.{whole_with};
ghost use Rattle.unwind_run_program.specs.RoadsAlike.{SameLines};

use framehop::Unwinding;
use framehop::lookup_laws::truthful_lookups_attempt_alike;
use framehop_whole_modules::CarriesRegisters;
use framehop_whole_modules::laws::published_rows_say_as_without;

/// Under a truthful header, and at an address that an FDE of the section contains, the lines of `roads`
/// are one line: that of the step by reading the section.
pub fn truthful_lookups_write_alike<A: Unwinding + CarriesRegisters>()
    ensures { SameLines (whole_with A.carrying A.UnwindRule.meaning A.UnwindRule.fallback
        A.rows A.pe_attempt A.compact A.first_rule) }
{
    truthful_lookups_attempt_alike::<A>();
    published_rows_say_as_without::<A>();
}
