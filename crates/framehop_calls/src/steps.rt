//! Steps by numbers.

ghost use Rattle.std.specs.Prelude.{◌≡◌, option_map};
ghost use Rattle.framehop_unwinder.specs.Frames.{frame_of};
ghost use Rattle.framehop_unwinder.specs.IdViews.{cache_number, unwinder_number};
ghost use Rattle.framehop_calls.specs.CallViews.{step_call};
ghost use Rattle.framehop_calls.specs.Places.{frame_numbered};
ghost use Rattle.framehop_calls.specs.Steps.{KnewByNumber, StepsByNumber, return_address_by, status_of_numbers, step_status, word_by, word_of_error};

use crate::sample::Sample;
use crate::sample_steps::{GivenRegisters, SampleStep, step_if_held};
use crate::session::CountedSession;
use crate::status::{END_OF_STACK, NEED_WORD, NO_CACHE, NO_UNWINDER, OK, error_status};
use framehop_rules::{Error, FrameAddress};
use framehop_unwinder::{CacheId, ModuleUnwinding, UnwinderId};

/// A call for a step: the unwinder and the cache by their numbers, the frame's address and registers, and where what the step gives is
/// written.
#[derive(Clone, Copy)]
pub struct SampleStepCall<R> {
    /// The number of the unwinder.
    pub unwinder: u64,
    /// The number of the cache.
    pub cache: u64,
    /// The address of the frame.
    pub address: FrameAddress,
    /// Its registers, and then the caller's.
    pub regs: R,
    /// The return address, if there is a caller.
    pub return_address: u64,
    /// The address of the word that is needed or can't be read.
    pub word_address: u64,
}

/// The address of a frame at a place: 1 is an instruction pointer, 2 a return address.
pub fn frame_at(place: u64, address: u64) -> Option<FrameAddress>
    ensures { option_map (λ address. frame_of address) result ≡ frame_numbered place address }
{
    match place {
        1 => Some(FrameAddress::from_instruction_pointer(address)),
        2 => FrameAddress::from_return_address(address),
        _ => None,
    }
}

/// Writes the address of the word that an error is about.
pub(crate) fn write_word(error: Error, word_address: &mut u64)
    ensures { word_address.new ≡ word_of_error error word_address.old }
{
    if let Error::CouldNotReadStack(address) = error {
        *word_address = address;
    }
}

// Writes what a step gives, and answers its status.
fn tell(step: SampleStep, return_address: &mut u64, word_address: &mut u64) -> u32
    ensures told { result ≡ step_status step }
    ensures return_address { return_address.new ≡ return_address_by step return_address.old }
    ensures word { word_address.new ≡ word_by step word_address.old }
{
    match step {
        SampleStep::Answered(Ok(Some(address))) => {
            *return_address = address;
            OK
        }
        SampleStep::Answered(Ok(None)) => END_OF_STACK,
        SampleStep::Answered(Err(error)) => {
            write_word(error, word_address);
            error_status(error)
        }
        SampleStep::NeedsWord(address) => {
            *word_address = address;
            NEED_WORD
        }
    }
}

impl<A: ModuleUnwinding> CountedSession<A> {
    /// The status of a call that names an unwinder and a cache.
    pub(crate) fn status_of(&self, unwinder: UnwinderId, cache: CacheId) -> u32
        ensures { result ≡ status_of_numbers self.now (unwinder_number unwinder) (cache_number cache) }
    {
        if !self.session.has_unwinder(unwinder) {
            NO_UNWINDER
        } else if !self.session.has_cache(cache) {
            NO_CACHE
        } else {
            OK
        }
    }

    /// Makes a step over a sample. Writes the return address, or the address of the word that is needed or can't be read, and answers the
    /// status. The caller still has the registers of the call as he gave them.
    #[inline(always)]
    pub fn step<G: GivenRegisters<A::UnwindRegs>>(
        &mut self,
        given: &G,
        call: &mut SampleStepCall<A::UnwindRegs>,
        sample: &Sample<'_>,
    ) -> u32
        requires { G.given given.now ≡ call.old.regs }
        ensures made { StepsByNumber A.meanings result sample.now (step_call call.old) (step_call call.new) self.old self.new }
        ensures knew { KnewByNumber A.UnwindRule.reads result sample.now (step_call call.old) self.old }
    {
        let unwinder = UnwinderId::numbered(call.unwinder as usize);
        let cache = CacheId::numbered(call.cache as usize);
        let made = step_if_held(
            &mut self.session,
            unwinder,
            cache,
            call.address,
            given,
            &mut call.regs,
            sample,
        );
        match made {
            Ok(step) => tell(step, &mut call.return_address, &mut call.word_address),
            Err(_) => self.status_of(unwinder, cache),
        }
    }
}
