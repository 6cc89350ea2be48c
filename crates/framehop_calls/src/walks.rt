//! Walks by numbers.

ghost use Rattle.std.specs.Prelude.{◌≡◌, Some, option_map};
ghost use Rattle.framehop_calls.specs.SampleWalks.{position_of};
ghost use Rattle.framehop_calls.specs.CallViews.{viewed};
ghost use Rattle.framehop_calls.specs.Places.{position_numbered};
ghost use Rattle.framehop_calls.specs.Steps.{WalksByNumber, walk_status, word_at_end};

use crate::sample::Sample;
use crate::sample_walks::{SampleWalk, WalkEnd, WalkPlace, walk_in_sample};
use crate::session::CountedSession;
use crate::status::{END_OF_STACK, FULL, NEED_WORD, OK, error_status};
use crate::steps::write_word;
use framehop_rules::FrameAddress;
use framehop_unwinder::{CacheId, ModuleUnwinding, UnwinderId};

/// A call for a walk: the unwinder and the cache by their numbers, where the walk is, and where what it gives is written.
#[derive(Clone, Copy)]
pub struct SampleWalkCall<R> {
    /// The number of the unwinder.
    pub unwinder: u64,
    /// The number of the cache.
    pub cache: u64,
    /// Where the walk is.
    pub walk: SampleWalk<R>,
    /// How many frames were written.
    pub count: u64,
    /// The address of the word that is needed or can't be read.
    pub word_address: u64,
}

/// The place of a walk by numbers: 0 is before the first frame, 1 at an instruction pointer, 2 at a return address, 3 after the last.
pub fn place_at(place: u64, address: u64) -> Option<WalkPlace>
    ensures { option_map position_of result ≡ position_numbered place address }
{
    match place {
        0 => Some(WalkPlace::Starts(address)),
        1 => Some(WalkPlace::At(FrameAddress::from_instruction_pointer(address))),
        2 => Some(WalkPlace::At(FrameAddress::from_return_address(address)?)),
        3 => Some(WalkPlace::Over),
        _ => None,
    }
}

/// The numbers of a place, with 0 as the address of none.
pub fn numbers_of(place: WalkPlace) -> (u64, u64)
    ensures { position_numbered result.0 result.1 ≡ Some (position_of place) }
{
    match place {
        WalkPlace::Starts(address) => (0, address),
        WalkPlace::At(FrameAddress::InstructionPointer(address)) => (1, address),
        WalkPlace::At(FrameAddress::ReturnAddress(address)) => (2, address.get()),
        WalkPlace::Over => (3, 0),
    }
}

// Writes the address of the word that a walk stops at, and answers the walk's status.
fn tell(end: WalkEnd, word_address: &mut u64) -> u32
    ensures told { result ≡ walk_status end }
    ensures word { word_address.new ≡ word_at_end end word_address.old }
{
    match end {
        WalkEnd::Full => FULL,
        WalkEnd::EndOfStack => END_OF_STACK,
        WalkEnd::NeedsWord(address) => {
            *word_address = address;
            NEED_WORD
        }
        WalkEnd::Failed(error) => {
            write_word(error, word_address);
            error_status(error)
        }
    }
}

impl<A: ModuleUnwinding> CountedSession<A> {
    /// Goes on with a walk over a sample. Writes the addresses of its next frames and how many they are, and the address of a word that is
    /// needed or can't be read; answers why it stops.
    pub fn walk(
        &mut self,
        call: &mut SampleWalkCall<A::UnwindRegs>,
        sample: &Sample<'_>,
        frames: &mut [u64],
    ) -> u32
        ensures { WalksByNumber A.meanings result sample.now
            (viewed call.old, frames.old) (viewed call.new, frames.new) self.old self.new }
    {
        let unwinder = UnwinderId::numbered(call.unwinder as usize);
        let cache = CacheId::numbered(call.cache as usize);
        let status = self.status_of(unwinder, cache);
        if status != OK {
            return status;
        }
        let walked = walk_in_sample(
            &mut self.session,
            unwinder,
            cache,
            &mut call.walk,
            sample,
            frames,
        );
        call.count = walked.count as u64;
        tell(walked.end, &mut call.word_address)
    }
}
