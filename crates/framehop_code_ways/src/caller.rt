//! The rule of a frame by a way out of its function.
ghost use Rattle.std.specs.Prelude.{◌≡◌, IfSome};
ghost use Rattle.framehop_code.specs.Places.{code_of, within};
ghost use Rattle.framehop_code_ways.specs.Callers.{IsAlike, LeadsFrom, places_in, rule_by_way, rule_from, rule_in_text};

use crate::way::{BranchesOut, WayUnwinding};
use framehop_code::{Code, CodeRange, parts_are_same};
use framehop_ways::Bounds;

// The places of a range, counted from the first byte of the code.
fn places_in(code: Code<'_>, range: CodeRange) -> Bounds
    ensures { result ≡ places_in (code_of code.entry) range }
{
    Bounds {
        begin: range.begin.saturating_sub(code.begin) as usize,
        end: range.end.saturating_sub(code.begin) as usize,
    }
}

// The rule of the first way from the place of an address inside the bounds.
fn rule_from<A: WayUnwinding>(
    branches_out: BranchesOut,
    code: Code<'_>,
    bounds: CodeRange,
    address: u64,
    is_first_frame: bool,
) -> Option<A::UnwindRule>
    ensures rule { result
        ≡ rule_from A.first_rule branches_out bounds (code_of code.entry) address is_first_frame }
    ensures leads { IfSome result (LeadsFrom A.leads bounds (code_of code.entry) address is_first_frame) }
    ensures valid { IfSome result A.UnwindRule.is_valid }
{
    if !bounds.contains(address) {
        return None;
    }
    let place = code.place_at(address)?;
    A::first_way_rule(
        branches_out,
        code.bytes,
        places_in(code, bounds),
        place,
        is_first_frame,
    )
}

/// The unwind rule of a frame by the first way out of its function from the address where it goes on: of a first frame the instruction
/// pointer, of a later one its return address. `None` if there is no way of at most 128 instructions, if what it does has no rule, or if
/// the address is outside of the bounds or of the code, as behind a call of a function that never returns. On aarch64 nothing is known of
/// the link register in a later frame: there is no rule unless it is loaded.
///
/// A way goes through from one instruction to the next past no bound. It follows branches to each place of the code: one that leads
/// out of it is a tail call, once something of the caller's was restored. So the code is to be all that a module has.
pub fn caller_by_way_in_text<A: WayUnwinding>(
    code: Code<'_>,
    bounds: CodeRange,
    address: u64,
    is_first_frame: bool,
) -> Option<A::UnwindRule>
    ensures rule { result ≡ rule_in_text A.first_rule bounds (code_of code.entry) address is_first_frame }
    ensures leads { IfSome result (LeadsFrom A.leads bounds (code_of code.entry) address is_first_frame) }
    ensures valid { IfSome result A.UnwindRule.is_valid }
{
    rule_from::<A>(
        BranchesOut::TailCalls,
        code,
        bounds,
        address,
        is_first_frame,
    )
}

/// As `caller_by_way_in_text`, by the code within the bounds alone, so that the answer is the same whatever code is outside of them. A
/// branch that leads out of the bounds isn't followed, and a way that ends by it has no rule: it may be a tail call, and the function
/// may go on there.
pub fn caller_by_way<A: WayUnwinding>(
    code: Code<'_>,
    bounds: CodeRange,
    address: u64,
    is_first_frame: bool,
) -> Option<A::UnwindRule>
    ensures rule { result ≡ rule_by_way A.first_rule bounds (code_of code.entry) address is_first_frame }
    ensures leads { IfSome result
        (LeadsFrom A.leads bounds (within bounds (code_of code.entry)) address is_first_frame) }
    ensures alike { IsAlike A.first_rule bounds (code_of code.entry) address is_first_frame result }
    ensures valid { IfSome result A.UnwindRule.is_valid }
{
    parts_are_same();
    rule_from::<A>(
        BranchesOut::Unknown,
        code.within(bounds),
        bounds,
        address,
        is_first_frame,
    )
}
