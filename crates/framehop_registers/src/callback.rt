//! Laws of calls that may read the stack. The functions do nothing when the program runs: what they
//! ensure is what proofs over several reads stand on.

ghost use Rattle.std.specs.Prelude.{◌<◌, ◌^◌, ℕ, List, [], ◌∷◌, ◌++◌, Result};
ghost use Rattle.framehop_registers.specs.Callback.{Words, OverWords, Leads};
ghost use Rattle.framehop_registers.specs.CallbackLaws.{Follows, SaysOneRead, SaysTwoCalls};

/// A statement about the words of a stack.
pub trait Statement {
    ghost holds: { Words → Type 0 };
}

/// A call that reads no word of the stack, and one that reads one.
pub fn one_read_over_words<F: FnMut(u64) -> Result<u64, ()>, P: Statement>()
    ensures none { (state : F) → ((words : Words) → P.holds words)
        → OverWords F.step state state P.holds }
    ensures read { SaysOneRead F.step P.holds }
{}

/// What follows from a call, and from two calls one after the other.
pub fn calls_over_words<
    F: FnMut(u64) -> Result<u64, ()>,
    P: Statement,
    Q: Statement,
    R: Statement,
>()
    ensures weaker { (old new : F) → OverWords F.step old new P.holds
        → Follows P.holds Q.holds → OverWords F.step old new Q.holds }
    ensures both { SaysTwoCalls F.step P.holds Q.holds R.holds }
{}

/// The addresses that one read has, and two calls one after the other.
pub fn reads_in_order<F: FnMut(u64) -> Result<u64, ()>>()
    ensures one { (old new : F) (at : ℕ) (r : Result ℕ (Unit {0}))
        → at < 2 ^ 64 → F.step old at r new → Leads F.step old (at ∷ []) new }
    ensures both { (old mid new : F) (xs ys : List ℕ)
        → Leads F.step old xs mid → Leads F.step mid ys new → Leads F.step old (xs ++ ys) new }
{}
