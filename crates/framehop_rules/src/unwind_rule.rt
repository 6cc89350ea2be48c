//! What the unwind rules of every architecture have.

ghost use Rattle.std.specs.Prelude.{◌≡◌, ◌↔◌, ◌*◌, pos, ◌+ℤ◌, ℕ, Bool, List, [], ◌∷◌, Option, IsTrue, IfErr};
ghost use Rattle.framehop_registers.specs.Callback.{Words, OverWords, ReadsOverWords, Leads};
ghost use Rattle.framehop_rules.specs.Outcome.{Outcome, Caller, StaysUnlessAnswered, outcome_of, address, word, IsOfRule};
ghost use Rattle.framehop_rules.specs.OverWords.{StepsOverWords};

use framehop_registers::Error;
use std::fmt::Debug;

/// A step of a stack walk in a compact form, and its execution.
pub trait UnwindRule: Copy + Debug {
    /// The registers that a step of a walk carries.
    type UnwindRegs: Copy + Debug;

    ghost is_valid: { Self → Type 0 };

    ghost meaning: { Self → Bool → Self.UnwindRegs → Words → Outcome (Caller Self.UnwindRegs) };

    ghost reads: { Self → Bool → Self.UnwindRegs → Words → List ℕ };

    ghost stub_rule: { Self };

    ghost start_rule: { Self };

    ghost fallback: { Self };

    /// Whether the rule can be executed. Every rule can, but one whose numbers name no list of
    /// registers.
    fn is_valid(self) -> bool
        ensures { IsTrue result ↔ is_valid self };

    /// Makes the step from a frame with these registers: returns the return address and leaves the
    /// caller's registers, or returns `None` at the end of the stack. `None` and an error leave the
    /// registers as they were. `read_stack` reads a word of the stack at an address; no word is read but those
    /// that the rule names, each once.
    fn exec<F: FnMut(u64) -> Result<u64, ()>>(
        self,
        is_first_frame: bool,
        regs: &mut Self::UnwindRegs,
        read_stack: &mut F,
    ) -> Result<Option<u64>, Error>
        requires valid { is_valid self }
        requires callable { F.IsAlwaysCallable read_stack.old }
        ensures callable { F.IsAlwaysCallable read_stack.new }
        ensures step { StepsOverWords F.step read_stack.old read_stack.new regs.old regs.new result
            (meaning self is_first_frame regs.old) }
        ensures order { ReadsOverWords F.step read_stack.old read_stack.new
            (reads self is_first_frame regs.old) }
        ensures stays { StaysUnlessAnswered result regs.old regs.new }
        ensures refusals { IfErr result IsOfRule };

    /// The rule inside a stub of a linker, where nothing is on the stack but the return address.
    fn rule_for_stub_functions() -> Self
        ensures rule { result ≡ stub_rule }
        ensures valid { is_valid result };

    /// The rule at a function's first instruction.
    fn rule_for_function_start() -> Self
        ensures rule { result ≡ start_rule }
        ensures valid { is_valid result };

    /// The rule if nothing else is known.
    fn fallback_rule() -> Self
        ensures rule { result ≡ fallback }
        ensures valid { is_valid result };
}

/// The word at an address; an error if it can't be read.
#[inline(always)]
pub(crate) fn read_word<F: FnMut(u64) -> Result<u64, ()>>(
    read_stack: &mut F,
    at: u64,
) -> Result<u64, Error>
    requires { F.IsAlwaysCallable read_stack.old }
    ensures callable { F.IsAlwaysCallable read_stack.new }
    ensures word { OverWords F.step read_stack.old read_stack.new (λ words.
        outcome_of result ≡ word words at) }
    ensures order { Leads F.step read_stack.old (at ∷ []) read_stack.new }
    ensures refusals { IfErr result IsOfRule }
{
    match read_stack(at) {
        Ok(word) => Ok(word),
        Err(()) => Err(Error::CouldNotReadStack(at)),
    }
}

/// An offset in words of 8 bytes, in bytes.
pub(crate) fn bytes_of(words: u16) -> u64
    ensures { result ≡ 8 * words }
{
    u64::from(words) * 8
}

/// The address `bytes` above another.
#[inline(always)]
pub(crate) fn address_above(base: u64, bytes: u64) -> Result<u64, Error>
    ensures sum { outcome_of result ≡ address (pos base +ℤ pos bytes) }
    ensures refusals { IfErr result IsOfRule }
{
    base.checked_add(bytes).ok_or(Error::IntegerOverflow)
}

/// The address at an offset in bytes from another.
#[inline(always)]
pub(crate) fn address_at_offset(base: u64, offset: i64) -> Result<u64, Error>
    ensures sum { outcome_of result ≡ address (pos base +ℤ offset) }
    ensures refusals { IfErr result IsOfRule }
{
    base.checked_add_signed(offset)
        .ok_or(Error::IntegerOverflow)
}
