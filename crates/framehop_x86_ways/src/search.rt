//! The search for the first way: which places were tried, what is executed up to where it is, and what is left to be tried.
ghost use Rattle.std.specs.Prelude.{◌≡◌, ◌+◌, ◌<◌, ◌≤◌, ◌^◌, ◌==◌, [], ◌∷◌, ◌++◌, length, IfSome, IfNone};
ghost use Rattle.std.specs.Bool.{OnFalse};
ghost use Rattle.std.specs.List.{list_any};
ghost use Rattle.framehop_x86_ways.specs.FirstWay.{with_trail, untried, turn};
ghost use Rattle.framehop_x86_ways.specs.Places.{IsInText};
ghost use Rattle.framehop_x86_ways.specs.SearchViews.{trails_in, trails_with, trails_after, turned, HasRoom, IsGrown, IsRising, IsSound, starting_trail};

use crate::ends::leaves;
use crate::executed::{Executed, instruction_at, place_after, place_branched_to};
use arrayvec::ArrayVec;
use framehop_ways::Bounds;
use framehop_x86_instructions::Instruction;

/// The most instructions of a way, and the most turns of a search.
pub const MOST: usize = 128;

const MOST_PENDING: usize = 129;

/// A place that is still to be tried.
#[derive(Clone, Copy, Debug, PartialEq, Eq, Default)]
pub struct Pending {
    pub place: usize,
    /// how many of those that were executed come before it
    pub executed: usize,
}

/// A search where it is.
#[derive(Drop)]
pub struct Search {
    pub seen: ArrayVec<usize, MOST>,
    pub path: ArrayVec<Executed, MOST>,
    pub pending: ArrayVec<Pending, MOST_PENDING>,
}

impl Search {
    /// A search from a place.
    pub fn begin(at: usize) -> Search
        ensures seen { result.seen.items ≡ [] }
        ensures trails { trails_in result ≡ starting_trail at }
        ensures sound { IsSound result.seen.items result.path.items result.pending.items }
    {
        let mut pending = ArrayVec::new();
        pending.push(Pending {
            place: at,
            executed: 0,
        });
        Search {
            seen: ArrayVec::new(),
            path: ArrayVec::new(),
            pending,
        }
    }

    // Takes the latest trail, and goes back to what was executed before it.
    fn take_trail(&mut self) -> Option<usize>
        requires { IsRising self.old.pending.items (length self.old.path.items) }
        ensures trail { IfSome result (λ place. trails_in self.old
            ≡ trails_with place self.new.path.items self.new.pending.items) }
        ensures none { IfNone result ((trails_in self.old ≡ []) × (self.new ≡ self.old)) }
        ensures rising { IsRising self.new.pending.items (length self.new.path.items) }
        ensures pending { IfSome result (λ _. length self.new.pending.items + 1 ≡ length self.old.pending.items) }
        ensures back { (length self.new.path.items ≤ length self.old.path.items)
            × (self.new.seen.items ≡ self.old.seen.items) }
    {
        let latest = self.pending.pop()?;
        self.path.truncate(latest.executed);
        Some(latest.place)
    }

    // Whether a place was tried.
    fn has_seen(&self, place: usize) -> bool
        ensures { result ≡ list_any (λ other. other == place) self.now.seen.items }
    {
        self.seen.iter().any(|other| *other == place)
    }

    // Adds a trail behind all that is executed, if there is a place for it.
    fn push_trail(&mut self, place: Option<usize>)
        requires rising { IsRising self.old.pending.items (length self.old.path.items) }
        requires room { length self.old.pending.items < MOST_PENDING }
        ensures trails { trails_in self.new ≡ with_trail self.old.path.items place (trails_in self.old) }
        ensures rising { IsRising self.new.pending.items (length self.new.path.items) }
        ensures few { length self.new.pending.items ≤ length self.old.pending.items + 1 }
        ensures rest { self.new ≡ record self.old { pending = self.new.pending } }
    {
        if let Some(place) = place {
            let executed = self.path.len();
            self.pending.push(Pending { place, executed });
        }
    }

    // Adds an instruction that doesn't leave the function to what is executed, and what can come after it to what is left.
    fn go_on(&mut self, bounds: Bounds, one: Executed)
        requires rising { IsRising self.old.pending.items (length self.old.path.items) }
        requires text { IsInText one }
        requires room { HasRoom self.old.seen.items self.old.path.items self.old.pending.items }
        ensures executed { (self.new.seen.items ≡ self.old.seen.items ++ one.place ∷ [])
            × (self.new.path.items ≡ self.old.path.items ++ one ∷ []) }
        ensures trails { trails_in self.new
            ≡ trails_after bounds one self.old.path.items self.old.pending.items }
        ensures rising { IsGrown self.old self.new }
    {
        self.seen.push(one.place);
        self.path.push(one);
        self.push_trail(place_branched_to(one));
        self.push_trail(place_after(bounds, one));
    }

    // The instruction at a place that wasn't tried.
    fn untried(&self, text: &[u8], place: usize) -> Option<Instruction>
        ensures is { result ≡ untried text.now self.now.seen.items place }
        ensures few { IfSome result (λ found. found.length ≤ 15) }
        ensures within { IfSome result (λ found. place + found.length ≤ length text.now) }
    {
        if self.has_seen(place) {
            return None;
        }
        instruction_at(text, place)
    }

    /// Tries the latest trail, and tells whether what is executed is then a way.
    pub fn turn(&mut self, text: &[u8], bounds: Bounds) -> bool
        requires sound { IsSound self.old.seen.items self.old.path.items self.old.pending.items }
        requires room { length self.old.seen.items < MOST }
        ensures turn { turn text.now bounds self.old.seen.items (trails_in self.old) ≡ turned result self.new }
        ensures sound { OnFalse result (IsSound self.new.seen.items self.new.path.items self.new.pending.items) }
        ensures few { OnFalse result (length self.new.seen.items ≤ length self.old.seen.items + 1) }
    {
        let Some(place) = self.take_trail() else {
            return false;
        };
        let Some(instruction) = self.untried(text, place) else {
            return false;
        };
        let one = Executed { place, instruction };
        if leaves(text, self.path.as_slice(), one) {
            self.path.push(one);
            return true;
        }
        self.go_on(bounds, one);
        false
    }
}
