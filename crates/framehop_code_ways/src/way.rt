//! Architectures whose code is run forward to a way out.
ghost use Rattle.std.specs.Prelude.{ℕ, ◌≡◌, Bool, List, Option, IfSome};
ghost use Rattle.framehop_code_ways.specs.declared.way.BranchesOut.{BranchesOut};
ghost use Rattle.framehop_ways.specs.declared.executed.Bounds.{Bounds};

use framehop_rules::Arch;
use framehop_ways::Bounds;

/// What a branch is taken for that leads to no place of the code, behind an instruction that restores something of the caller's.
#[derive(Clone, Copy, Debug, PartialEq, Eq)]
pub enum BranchesOut {
    /// A call in place of a return, which leaves the function, as where the code is all that a module has.
    TailCalls,
    /// One that may go on in the function: a way that ends by it has no rule.
    Unknown,
}

/// An architecture whose code is run forward to a way out of a function.
pub trait WayUnwinding: Arch {
    /// The rule of the first way out of a function from a place of a text, of a first or a later frame that goes on there.
    ghost first_rule: { BranchesOut → List ℕ → Bounds → ℕ → Bool → Option Self.UnwindRule };

    /// A way from a place of a text leads to where the rule says.
    ghost leads: { List ℕ → Bounds → ℕ → Bool → Self.UnwindRule → Type 0 };

    /// The unwind rule of the first way out of a function from a place of a text, in bytes from its start, of a first or a later frame
    /// that goes on there; `None` if there is no way of at most 128 instructions, or no rule for what it does. In a later frame nothing
    /// is known of a link register.
    fn first_way_rule(
        branches_out: BranchesOut,
        text: &[u8],
        bounds: Bounds,
        at: usize,
        is_first_frame: bool,
    ) -> Option<Self::UnwindRule>
        ensures rule { result ≡ first_rule branches_out text.now bounds at is_first_frame }
        ensures leads { IfSome result (leads text.now bounds at is_first_frame) }
        ensures valid { IfSome result Self.UnwindRule.is_valid };
}
