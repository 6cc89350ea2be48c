//! Laws of outcomes, on any architecture. The functions do nothing when the program runs: proofs about rules stand on what
//! they ensure.

ghost use Rattle.std.specs.Prelude.{◌≡◌, ◌+◌, ℕ, ℤ, pos, ◌+ℤ◌, Some};
ghost use Rattle.framehop_registers.specs.Callback.{Words};
ghost use Rattle.framehop_registers.specs.declared.error.Error.{Error};
ghost use Rattle.framehop_rules.specs.Answered.{BothAnswer, OnlyElseAnswers, IsAddressFrom};
ghost use Rattle.framehop_rules.specs.Outcome.{Outcome, Ends, Refuses, Answers, and_then, address, word};

/// If the outcome of two parts is an answer, both parts answer; and a test that it passed didn't stop it.
pub fn parts_that_answer<A, B>()
    ensures both { (first : Outcome A) (next : A → Outcome B) (b : B)
        → and_then first next ≡ Answers b → BothAnswer first next b }
    ensures refused { (error : Error) → OnlyElseAnswers {A = A} (Refuses error) }
    ensures ended { OnlyElseAnswers {A = A} Ends }
{}

/// An address that an outcome answers is the number that was asked for, and has 64 bits; a word that it answers can be read.
pub fn addresses_and_words_that_answer()
    ensures number { (z : ℤ) (a : ℕ) → address z ≡ Answers a → z ≡ pos a }
    ensures sum { (base bytes a : ℕ)
        → address (pos base +ℤ pos bytes) ≡ Answers a → a ≡ base + bytes }
    ensures above { (base bytes a : ℕ)
        → address (pos base +ℤ pos bytes) ≡ Answers a → IsAddressFrom base a }
    ensures word { (words : Words) (at value : ℕ)
        → word words at ≡ Answers value → words at ≡ Some value }
{}
