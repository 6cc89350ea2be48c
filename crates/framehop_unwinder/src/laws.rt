//! Laws of caches that are shared. The functions do nothing when the program runs.

ghost use Rattle.std.specs.Prelude.{◌≡◌, ◌+◌, ℕ, Bool, List, [], Option, Result};
ghost use Rattle.framehop_registers.specs.declared.error.Error.{Error};
ghost use Rattle.framehop_rules.specs.Outcome.{Outcome, Caller, IsStep};
ghost use Rattle.framehop_rules.specs.Slots.{Key, Kept, Layout, empty_sets};
ghost use Rattle.framehop_unwinder.specs.Attempt.{Meanings};
ghost use Rattle.framehop_unwinder.specs.Frames.{Frame};
ghost use Rattle.framehop_unwinder.specs.History.{HasLastKeys, KeepsLastKeys, KeysDecideCounts};
ghost use Rattle.framehop_unwinder.specs.Modules.{Loaded};
ghost use Rattle.framehop_unwinder.specs.ModulesApart.{ChangesNoStep};
ghost use Rattle.framehop_unwinder.specs.RulesKept.{Fits, StaysBelow, KeepsFitting, KeysBelow, Sets};

use crate::unwinding::ModuleUnwinding;
use framehop_rules::{Arch, UnwindRule};

/// A step through a cache leaves it fitting the unwinder that made it, and every other whose
/// generation differs or which keeps the same rule for the key of the step.
pub fn fits_after_step<R: UnwindRule>()
    ensures fits { (wanted : Bool) (mine theirs : Key → Option R) (generation : ℕ)
        (key : Key) (cache : Kept R) → KeepsFitting wanted mine theirs generation key cache }
    ensures below { (wanted : Bool) (mine : Key → Option R) (next : ℕ) (key : Key)
        (cache : Kept R) → StaysBelow wanted mine next key cache }
{}

/// A cache fits an unwinder with a generation that none of its keys has, and a new cache fits all.
pub fn fits_if_new<R: UnwindRule>()
    ensures fits { (theirs : Key → Option R) (generation : ℕ) (sets : Sets R)
        → KeysBelow generation sets → Fits theirs generation sets }
    ensures more { (next : ℕ) (sets : Sets R)
        → KeysBelow next sets → KeysBelow (next + 1) sets }
    ensures empty { (theirs : Key → Option R) (generation : ℕ) (layout : Layout)
        → Fits theirs generation (empty_sets layout) }
    ensures empty_below { (next : ℕ) (layout : Layout)
        → KeysBelow {Rule = R} next (empty_sets layout) }
{}

/// What a cache keeps and counts, by the list of all keys that were kept in it: each set has the
/// last keys of its remainder, which decide what a look-up is counted as, and whether its step
/// keeps its key.
pub fn keys_after_step<R: UnwindRule>()
    ensures empty { (layout : Layout) → HasLastKeys {Rule = R} layout [] (empty_sets layout) }
    ensures kept { (key : Key) (keys : List Key) (cache : Kept R)
        → KeepsLastKeys key keys cache }
    ensures counts { (key : Key) (keys : List Key) (cache : Kept R)
        → KeysDecideCounts key keys cache }
{}

/// Two steps that come to the same, as those through a shared cache and a new one, give the same
/// answer and leave the same registers.
pub fn equal_steps<A: Arch>()
    ensures { (one other : Result (Option ℕ) Error) (old new also : A.UnwindRegs)
        (judged : Outcome (Caller A.UnwindRegs))
        → IsStep one old new judged → IsStep other old also judged
        → (one ≡ other) × (new ≡ also) }
{}

/// A module that starts outside all others, and isn't the one that is found for a frame, changes no
/// step from there by being loaded; nor, read the other way, by being unloaded. The modules are in
/// the order of their starts, as those of an unwinder are.
pub fn modules_elsewhere_change_no_step<A: ModuleUnwinding>()
    ensures { (m : Meanings A.UnwindData A.UnwindRule A.UnwindRegs) (module_ : Loaded A.UnwindData)
        (modules : List (Loaded A.UnwindData)) (frame : Frame)
        → ChangesNoStep m module_ modules frame }
{}
