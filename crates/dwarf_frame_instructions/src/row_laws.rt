//! Laws of the rows of a program.

ghost use Rattle.std.specs.Prelude.{◌≡◌, ℕ, option_map};
ghost use Rattle.std.specs.FinMap.{get};
ghost use Rattle.dwarf_frame_rows.specs.Effects.{Limits};
ghost use Rattle.dwarf_frame_rows.specs.RuleMap.{RuleMap};
ghost use Rattle.dwarf_frame_instructions.specs.Programs.{EntryProgram, IsInOneRow};
ghost use Rattle.dwarf_frame_instructions.specs.StateViews.{map_as};

/// In a program that ends without an error each address of the code is in exactly one row. The
/// function does nothing when the program runs.
#[tactic(auto, using(crate::proofs::OneRow::one_row))]
pub fn each_address_has_one_row<T>()
    ensures { (limits : Limits) (program : EntryProgram T) (address : ℕ)
        → IsInOneRow limits program address }
{}

/// If the rules of a row are viewed in another way, as with numbers for the offsets of expressions,
/// each register's rule is viewed so. The function does nothing when the program runs.
#[tactic(auto, using(crate::proofs::Views::get_as))]
pub fn each_rule_is_seen_alike<V, W>()
    ensures { (view : V → W) (rules : RuleMap V) (number : ℕ)
        → get (map_as view rules) number ≡ option_map view (get rules number) }
{}
