//! Storages of other sizes than the library's.

ghost use Rattle.std.specs.Prelude.{None, Some, false, true};
ghost use Rattle.std.proofs.Common.{lit≤, refl};
ghost use Rattle.dwarf_frame_rows.specs.Effects.{TakesNoMemory, limits_of};

use arrayvec::ArrayVec;
use dwarf_frame_rows::{RegisterRule, RuledRegister, UnwindContextStorage, UnwindTableRow};
use dwarf_readers::ReaderOffset;
use dwarf_storage::ReservedVec;

/// Room for one rule, and for one row.
pub struct One;

impl<T: ReaderOffset> UnwindContextStorage<T> for One {
    type Rules = ArrayVec<RuledRegister<RegisterRule<T>>, 1>;

    type Stack = ArrayVec<UnwindTableRow<T, ArrayVec<RuledRegister<RegisterRule<T>>, 1>>, 1>;

    ghost limits = { limits_of (Some 1) (Some 1) };

    ghost limited = { refl };

    ghost never_allocates = { TakesNoMemory true (limits_of (Some 1) (Some 1)) };

    ghost allocates_never = { (λ t. t, λ t. t) };

    ghost room = { lit≤ tt };
}

/// Room for three rules, and for two rows.
pub struct Small;

impl<T: ReaderOffset> UnwindContextStorage<T> for Small {
    type Rules = ArrayVec<RuledRegister<RegisterRule<T>>, 3>;

    type Stack = ArrayVec<UnwindTableRow<T, ArrayVec<RuledRegister<RegisterRule<T>>, 3>>, 2>;

    ghost limits = { limits_of (Some 3) (Some 2) };

    ghost limited = { refl };

    ghost never_allocates = { TakesNoMemory true (limits_of (Some 3) (Some 2)) };

    ghost allocates_never = { (λ t. t, λ t. t) };

    ghost room = { lit≤ tt };
}

/// 192 rules on the heap, for which memory is taken when a row is made, and four such rows.
pub struct Reserved;

impl<T: ReaderOffset> UnwindContextStorage<T> for Reserved {
    type Rules = ReservedVec<RuledRegister<RegisterRule<T>>, 192>;

    type Stack = ReservedVec<
        UnwindTableRow<T, ReservedVec<RuledRegister<RegisterRule<T>>, 192>>,
        4,
    >;

    ghost limits = { limits_of (Some 192) (Some 4) };

    ghost limited = { refl };

    ghost never_allocates = { TakesNoMemory false (limits_of (Some 192) (Some 4)) };

    ghost allocates_never = { (λ t. t, λ t. t) };

    ghost room = { lit≤ tt };
}

/// Rules and rows in memory that grows.
pub struct Growing;

impl<T: ReaderOffset> UnwindContextStorage<T> for Growing {
    type Rules = Vec<RuledRegister<RegisterRule<T>>>;

    type Stack = Vec<UnwindTableRow<T, Vec<RuledRegister<RegisterRule<T>>>>>;

    ghost limits = { limits_of None None };

    ghost limited = { refl };

    ghost never_allocates = { TakesNoMemory true (limits_of None None) };

    ghost allocates_never = { (λ t. t, λ t. t) };

    ghost room = { tt };
}
