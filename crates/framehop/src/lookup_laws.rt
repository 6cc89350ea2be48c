//! Laws of the lookups of FDEs, if the header of a section is truthful. The functions do nothing when the program
//! runs.

ghost use Rattle.std.specs.Prelude.{◌≡◌, ◌<◌, ◌+◌, ◌^◌};
ghost use Rattle.framehop_modules.specs.Sections.{Sections};
ghost use Rattle.framehop_unwinder.specs.Attempt.{Meanings};
ghost use Rattle.framehop.specs.Attempts.{FormatMeanings};
ghost use Rattle.framehop_loads.specs.StepLimits.{StepLimits};
ghost use Rattle.framehop.specs.BothSections.{AllAttemptByOne, HasOne};
ghost use Rattle.framehop.specs.TableAttempts.{AllAttemptAsIndexed};
ghost use Rattle.framehop_loads.specs.declared.load_options.LoadOptions.{LoadOptions};
ghost use Rattle.framehop.specs.SameSteps.{StepsFollowAttempts};
ghost use Rattle.framehop.specs.StepMeanings.{meanings_aarch64, meanings_x86_64};
ghost use Rattle.framehop.specs.LookupsAlike.{AddressBelow, AddressFrom, AddressWithin, AllLeadTo, AllStepAlike, AttemptsBelow, AttemptsFrom, LookupsBelowAll};
ghost use Rattle.framehop.specs.TruthfulLookups.{AllAttemptAlike};
ghost use Rattle.framehop_loads.specs.UnwindData.{HasHeaderOfEhFrame, UnwindData, both_data_of, unwind_data_of, unwind_data_with};

use framehop_rows::DwarfUnwinding;
use framehop_rules::Arch;
pub use framehop_tables::table_laws::tables_attempt_as_indexes;

/// The FDEs of `.debug_frame` are never found by a header, whatever sections a module has, and whatever its load asks for.
pub fn headers_are_of_eh_frame()
    ensures { (options : LoadOptions) (s : Sections) → HasHeaderOfEhFrame (unwind_data_with options s).format }
{}

/// If an FDE contains an address of 64 bits, each lookup leads to it.
pub fn truthful_lookups_lead_to_one_fde()
    ensures { (a : AddressWithin) → a.h.base + a.relative < 2 ^ 64
        → AllLeadTo a.h a.relative a.fde }
{}

/// So if an FDE contains an address, the attempt there is the same by the section's header, by an index and by
/// reading the section at each step, whatever other sections than `.eh_frame` the other two modules have.
pub fn truthful_lookups_attempt_alike<A: DwarfUnwinding>()
    ensures { (limits : StepLimits) (a : AddressWithin)
        → AllAttemptAlike A.rows limits a.h a.bases a.relative }
{}

/// From the lowest start on the attempt at an address is the same by a truthful header and by an index, also if no
/// FDE contains it; and by reading the section at each step, unless a row of the FDE before holds at the address,
/// past the end of the FDE's code.
pub fn truthful_lookups_attempt_alike_from_the_lowest_start<A: DwarfUnwinding>()
    ensures { (limits : StepLimits) (a : AddressFrom) → AttemptsFrom A.rows limits a }
{}

/// Below the lowest start a truthful header leads to an FDE that starts above the address, an index to none, and
/// the section is known to have none for it.
pub fn truthful_lookups_below_all()
    ensures { (a : AddressBelow) → LookupsBelowAll a }
{}

/// So below the lowest start the attempt by a truthful header and by reading the section is the rule for code that
/// no row covers. An index says nothing, so the step is that of the rule for unknown frames.
pub fn truthful_lookups_attempt_below_all<A: DwarfUnwinding>()
    ensures { (limits : StepLimits) (a : AddressBelow) → AttemptsBelow A.rows limits a }
{}

/// If two modules differ in their data alone, and the attempts by these at a relative address are the same, so are
/// the steps from there, whatever other modules there are.
pub fn equal_attempts_make_equal_steps<A: Arch>()
    ensures { (m : Meanings UnwindData A.UnwindRule A.UnwindRegs) → StepsFollowAttempts m }
{}

/// So if an FDE contains an address, the steps there are the same by a truthful header, by an index and by reading
/// the section at each step, whatever other modules there are.
pub fn truthful_lookups_step_alike()
    ensures x86_64 { (limits : StepLimits) (a : AddressWithin)
        → AllStepAlike (meanings_x86_64 limits) a }
    ensures aarch64 { (limits : StepLimits) (a : AddressWithin)
        → AllStepAlike (meanings_aarch64 limits) a }
{}

/// `.debug_frame` is used exactly at addresses that its FDE covers and that of `.eh_frame` doesn't. A module without both sections
/// behaves as if loaded without it.
pub fn debug_frame_is_used_beside_eh_frame<A: Arch>()
    ensures both { (m : FormatMeanings A.UnwindRule A.UnwindRegs) → AllAttemptByOne m }
    ensures one { (s : Sections) → HasOne s → both_data_of s ≡ unwind_data_of s }
{}

/// A table changes no attempt: it is that of a module whose FDEs are found by an index, whatever else its load asks for.
pub fn tables_change_no_attempt<A: Arch>()
    ensures { (m : FormatMeanings A.UnwindRule A.UnwindRegs) → AllAttemptAsIndexed m }
{}
