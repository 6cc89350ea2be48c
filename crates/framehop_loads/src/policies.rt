//! Whether a step may allocate.

ghost use Rattle.std.specs.Prelude.{◌≡◌, Bool, false, true, Some};
ghost use Rattle.dwarf_frame_rows.specs.Effects.{TakesNoMemory, limits_of};
ghost use Rattle.framehop_rows.specs.Memory.{takes_memory};
ghost use Rattle.framehop_loads.specs.StepLimits.{StepLimits, limits_may_allocate, limits_must_not_allocate, row_limits, step_limits};

use arrayvec::ArrayVec;
use dwarf_expressions::EvaluationStorage;
use dwarf_frame_rows::{RegisterRule, RuledRegister, UnwindContextStorage, UnwindTableRow};
use dwarf_read_core::ReaderOffset;
use dwarf_storage::{ArrayLike, ReservedVec, StoreOnHeap};
use framehop_storage::InPlaceVec;

/// Whether a step may allocate: the storage of rows and of the values of expressions.
pub trait AllocationPolicy {
    /// The storage of rows and their rules.
    type GimliUnwindContextStorage: UnwindContextStorage<usize>;

    /// The storage of the values of an expression.
    type GimliEvaluationStorage: EvaluationStorage;

    /// The limits that both storages set.
    ghost limits: { StepLimits };

    /// Whether the values of an expression may allocate.
    ghost may_allocate: { Bool };

    /// A step allocates no rows: their storage is made before.
    ghost rows_take_none: { Self.GimliUnwindContextStorage.never_allocates };

    ghost limited: { limits ≡ step_limits Self.GimliUnwindContextStorage.limits
        Self.GimliEvaluationStorage.Stack.capacity };

    ghost taken: { may_allocate ≡ takes_memory Self.GimliEvaluationStorage.Stack.is_made_in_place
        Self.GimliEvaluationStorage.Stack.capacity };

    /// Rows have the same limits under each policy, so that a table of rules serves them all.
    ghost rows_limited: { limits.rows ≡ row_limits };
}

/// A step allocates the values of expressions alone. There is room for any number of them, for 4 rows, and
/// for 192 rules of a row.
#[derive(Debug, Clone, Copy)]
pub struct MayAllocateDuringUnwind;

impl AllocationPolicy for MayAllocateDuringUnwind {
    ghost use Rattle.std.proofs.Common.{refl, true};
    ghost use Rattle.framehop_loads.specs.StepLimits.{limits_may_allocate};

    type GimliUnwindContextStorage = StoreRowsOnHeap;

    type GimliEvaluationStorage = StoreOnHeap;

    ghost limits = { limits_may_allocate };

    ghost may_allocate = { true };

    ghost rows_take_none = { record { in_place = refl; rules = refl; rows = refl } };

    ghost limited = { refl };

    ghost taken = { refl };

    ghost rows_limited = { refl };
}

/// A step never allocates. There is room for 64 values of an expression, for 4 rows, and for 192 rules of a
/// row.
#[derive(Debug, Clone, Copy)]
pub struct MustNotAllocateDuringUnwind;

impl AllocationPolicy for MustNotAllocateDuringUnwind {
    ghost use Rattle.std.proofs.Common.{refl, false};
    ghost use Rattle.framehop_loads.specs.StepLimits.{limits_must_not_allocate};

    type GimliUnwindContextStorage = StoreOnStack;

    type GimliEvaluationStorage = StoreOnStack;

    ghost limits = { limits_must_not_allocate };

    ghost may_allocate = { false };

    ghost rows_take_none = { record { in_place = refl; rules = refl; rows = refl } };

    ghost limited = { refl };

    ghost taken = { refl };

    ghost rows_limited = { refl };
}

// How many rules a row holds.
const MAX_RULES: usize = 192;

// How many rows a storage holds.
const MAX_ROWS: usize = 4;

// The rules of a row, in place.
type StackRules<T> = InPlaceVec<RuledRegister<RegisterRule<T>>, MAX_RULES>;

/// Rows on the heap, of rules in place: at most 4 rows of 192 rules. The room for the rows is made with the context
/// that keeps them, and no later call allocates.
#[derive(Debug, Clone, Copy)]
pub struct StoreRowsOnHeap;

impl<T: ReaderOffset> UnwindContextStorage<T> for StoreRowsOnHeap {
    ghost use Rattle.std.proofs.Common.{lit≤, refl};

    type Rules = StackRules<T>;

    type Stack = ReservedVec<UnwindTableRow<T, StackRules<T>>, MAX_ROWS>;

    ghost limits = { limits_of (Some 192) (Some 4) };

    ghost limited = { refl };

    ghost never_allocates = { TakesNoMemory true (limits_of (Some 192) (Some 4)) };

    ghost allocates_never = { (λ t. t, λ t. t) };

    ghost room = { lit≤ tt };
}

/// Rows and values in place: at most 4 rows of 192 rules, and 64 values.
#[derive(Debug, Clone, Copy)]
pub struct StoreOnStack;

impl<T: ReaderOffset> UnwindContextStorage<T> for StoreOnStack {
    ghost use Rattle.std.proofs.Common.{lit≤, refl};

    type Rules = StackRules<T>;

    type Stack = ArrayVec<UnwindTableRow<T, StackRules<T>>, MAX_ROWS>;

    ghost limits = { limits_of (Some 192) (Some 4) };

    ghost limited = { refl };

    ghost never_allocates = { TakesNoMemory true (limits_of (Some 192) (Some 4)) };

    ghost allocates_never = { (λ t. t, λ t. t) };

    ghost room = { lit≤ tt };
}

// How many values `StoreOnStack` holds.
const MAX_VALUES: usize = 64;

impl EvaluationStorage for StoreOnStack {
    type Stack = ArrayVec<u64, MAX_VALUES>;
}

/// A law of both policies: how many rows, rules of a row and values of an expression there is room for, and that
/// under [`MustNotAllocateDuringUnwind`] no step allocates. The function does nothing when the program runs.
pub fn policies_set_limits()
    ensures may { ⟦<MayAllocateDuringUnwind as AllocationPolicy>⟧.limits ≡ limits_may_allocate }
    ensures must { ⟦<MustNotAllocateDuringUnwind as AllocationPolicy>⟧.limits
        ≡ limits_must_not_allocate }
    ensures never { ⟦<MustNotAllocateDuringUnwind as AllocationPolicy>⟧.may_allocate ≡ false }
{}
