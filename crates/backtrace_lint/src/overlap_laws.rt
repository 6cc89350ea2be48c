//! Laws of overlaps. The functions do nothing when the program runs.

ghost use Rattle.std.specs.Prelude.{◌≡◌, ◌↔◌, IsTrue, List, All, map, IsPermutation};
ghost use Rattle.std.specs.List.Sorted.{IsNonDecreasingBy, IsStableByKey};
ghost use Rattle.std.specs.Ordering.{nat_cmp};
ghost use Rattle.backtrace_lint.specs.OverlapLaws.{IsOverlapIn, Share, ordered, shares, sharing};
ghost use Rattle.backtrace_lint.specs.Overlaps.{in_order, overlaps_of};
ghost use Rattle.backtrace_lint.specs.declared.fdes.ListedFde.{ListedFde};
ghost use Rattle.backtrace_lint.specs.declared.overlaps.SpannedFde.{SpannedFde};

/// The FDEs that overlaps name, as the second of each, are those that share an address with one before them in the
/// order of the starts: each of these once, and no other. The first of an overlap is one before the second that shares
/// an address with it, and none before the second ends further.
pub fn overlaps_share_addresses()
    ensures named { (fdes : List ListedFde)
        → map (λ overlap. overlap.second) (overlaps_of fdes) ≡ sharing (ordered fdes) }
    ensures each { (fdes : List ListedFde) → All (IsOverlapIn (ordered fdes)) (overlaps_of fdes) }
    ensures test { (fde other : SpannedFde) → IsTrue (shares fde other) ↔ Share fde other }
{}

/// FDEs in the order of their starts are the same FDEs; none starts below one before it, and those that start alike
/// keep their order.
pub fn starts_in_order()
    ensures same { (fdes : List SpannedFde) → IsPermutation fdes (in_order fdes) }
    ensures sorted { (fdes : List SpannedFde) → IsNonDecreasingBy (λ fde. fde.start) (in_order fdes) }
    ensures stable { (fdes : List SpannedFde) → IsStableByKey (λ fde. fde.start) nat_cmp fdes (in_order fdes) }
{}
