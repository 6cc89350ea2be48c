//! What std's definitions of lists lack: the last of a list, the elements with the greatest key, items
//! that are read one after the other, and how many elements a search by halves compares. The
//! definitions are in `specs`, and each function here is a law of them: it does nothing when the program
//! runs.
#![tactic(auto)]

ghost use Rattle.std.specs.Prelude.{◌≡◌, ◌+◌, ◌^◌, ◌≤◌, ℕ, suc, Bool, true, false, List, [], ◌∷◌, ◌++◌, Option, Some, None, length};
ghost use Rattle.std.specs.List.{slice_index_or};
ghost use Rattle.std.specs.List.Sorted.{IsNonDecreasingBy};
ghost use Rattle.list_laws.specs.Greatest.{first_greatest, last_greatest, greater_of};
ghost use Rattle.list_laws.specs.Halves.{AtLeastHalved, AtMostHalved, StaysAtLeastHalved, StaysAtMostHalved};
ghost use Rattle.list_laws.specs.Items.{Answer, CallsGiveItems, ComeByStep, RestComesByStep, Shrinks};
ghost use Rattle.list_laws.specs.Last.{last_of};

/// A test holds or fails, and an option has a value or none.
pub fn cases<A, P>()
    ensures by_case { (b : Bool) → (b ≡ true → P) → (b ≡ false → P) → P }
    ensures by_option { (o : Option A) → ((x : A) → o ≡ Some x → P) → (o ≡ None → P) → P }
{}

/// The last of a list that gets one more element at its end or at its front.
pub fn last_by_parts<A>()
    ensures push { (xs : List A) (y : A) → last_of (xs ++ y ∷ []) ≡ Some y }
    ensures cons { (x y : A) (xs : List A) → last_of xs ≡ Some y → last_of (x ∷ xs) ≡ Some y }
    ensures none { (xs : List A) → last_of xs ≡ None → xs ≡ [] }
    ensures at { (xs : List A) (i : ℕ) (d : A) → length xs ≡ i + 1
        → last_of xs ≡ Some (slice_index_or xs i d) }
{}

/// The first of the elements with the greatest key in a list that gets one more at its front.
pub fn greatest_by_parts<A>()
    ensures { (key : A → ℕ) (x : A) (xs : List A)
        → first_greatest key (x ∷ xs) ≡ greater_of key (Some x) (first_greatest key xs) }
{}

/// In a list in the order of the keys the last of the elements with the greatest key is the last.
pub fn greatest_in_order<A>()
    ensures { (key : A → ℕ) (xs : List A) → IsNonDecreasingBy key xs
        → last_greatest key xs ≡ last_of xs }
{}

/// The items are the one that the first step gives and then those of what it leaves.
pub fn items_by_steps<S, A, E>()
    ensures items { (size : S → ℕ) (step : S → Answer S A E) → Shrinks size step
        → ComeByStep size step }
    ensures rest { (size : S → ℕ) (step : S → Answer S A E) → Shrinks size step
        → RestComesByStep size step }
{}

/// A call that takes a step gives the first of the items that were to come, and leaves the others.
pub fn calls_by_steps<S, A, E, X>()
    ensures { (size : S → ℕ) (step : S → Answer S A E) → Shrinks size step
        → CallsGiveItems X size step }
{}

/// A search by halves: what is known before the first comparison, how the next one changes it, and how
/// many there were at least once no element is left to compare, or one.
pub fn halves_are_counted()
    ensures none { (all : ℕ) → AtMostHalved all 0 all × AtLeastHalved all 0 all }
    ensures at_most { StaysAtMostHalved }
    ensures at_least { StaysAtLeastHalved }
    ensures none_left { (all compared k : ℕ) → AtLeastHalved all compared 0
        → 2 ^ k ≤ suc all → k ≤ compared }
    ensures one_left { (all compared k : ℕ) → AtLeastHalved all compared 1
        → 2 ^ k ≤ suc all → k ≤ compared + 1 }
{}
