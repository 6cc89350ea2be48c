//! Walks, for C.

ghost use Rattle.std.specs.Prelude.{◌≡◌, option_map};
ghost use Rattle.framehop_calls.specs.CallViews.{viewed};
ghost use Rattle.framehop_c.specs.Walks.{LeavesAarch64, LeavesX86_64, WalksAarch64, WalksOnAarch64, WalksOnX86_64, WalksX86_64, is_missing, walk_call_aarch64, walk_call_x86_64};

use crate::handle::SessionHandle;
use crate::session::AnySession;
use framehop::aarch64::UnwindRegsAarch64;
use framehop::x86_64::UnwindRegsX86_64;
use framehop_calls::status::{BAD_ARGUMENT, NO_CACHE, NO_UNWINDER, NO_VALUE, OTHER_ARCHITECTURE};
use framehop_calls::{
    RegistersAarch64, RegistersX86_64, Sample, SampleWalk, SampleWalkCall, numbers_of, place_at,
};
use std::alloc::Global;

// Whether a status says that there is no such unwinder or cache.
fn is_missing(status: u32) -> bool
    ensures { result ≡ is_missing status }
{
    status == NO_UNWINDER || status == NO_CACHE
}

/// Where a walk on x86_64 is, and what it gives.
#[repr(C)]
#[derive(Clone, Copy)]
pub struct WalkX86_64 {
    pub unwinder: u64,
    pub cache: u64,
    pub place: u64,
    pub address: u64,
    pub registers: RegistersX86_64,
    pub count: u64,
    pub word_address: u64,
}

impl WalkX86_64 {
    // The call that it says, if its place is one.
    #[inline(always)]
    fn call(&self) -> Option<SampleWalkCall<UnwindRegsX86_64>>
        ensures { option_map viewed result ≡ walk_call_x86_64 self.now }
    {
        let place = place_at(self.place, self.address)?;
        let walk = SampleWalk {
            place,
            regs: self.registers.to_regs(),
        };
        Some(SampleWalkCall {
            unwinder: self.unwinder,
            cache: self.cache,
            walk,
            count: self.count,
            word_address: self.word_address,
        })
    }

    // Writes where a call's walk is then, unless there was no such unwinder or cache.
    #[inline(always)]
    fn write(&mut self, status: u32, call: &SampleWalkCall<UnwindRegsX86_64>)
        ensures { LeavesX86_64 status self.old self.new (viewed call.now) }
    {
        if is_missing(status) {
            return;
        }
        let (place, address) = numbers_of(call.walk.place);
        self.place = place;
        self.address = address;
        self.registers = RegistersX86_64::of(&call.walk.regs);
        self.count = call.count;
        self.word_address = call.word_address;
    }
}

impl AnySession {
    // Goes on with a walk by a call, if it is on x86_64.
    #[inline(always)]
    fn walk_x86_64(
        &mut self,
        call: &mut SampleWalkCall<UnwindRegsX86_64>,
        sample: &Sample<'_>,
        frames: &mut [u64],
    ) -> Option<u32>
        ensures { WalksOnX86_64 result sample.now
            (viewed call.old, frames.old) (viewed call.new, frames.new) self.old self.new }
    {
        match self {
            AnySession::X86_64(session) => Some(session.walk(call, sample, frames)),
            AnySession::Aarch64(_) => None,
        }
    }
}

/// Goes on with a walk on x86_64.
#[unsafe(no_mangle)]
pub extern "C" fn framehop_next_frames_x86_64(
    alloc: Global,
    session: &mut SessionHandle,
    walk: &mut WalkX86_64,
    sample: &Sample<'_>,
    frames: &mut [u64],
) -> u32
    ensures { WalksX86_64 result sample.now
        (walk.old, frames.old) (walk.new, frames.new) session.old.value session.new.value }
{
    let Some(mut call) = walk.call() else {
        return BAD_ARGUMENT;
    };
    let Some(mut state) = session.take(alloc) else {
        return NO_VALUE;
    };
    let made = state.walk_x86_64(&mut call, sample, frames);
    session.put(alloc, state);
    let Some(status) = made else {
        return OTHER_ARCHITECTURE;
    };
    walk.write(status, &call);
    status
}

/// Where a walk on aarch64 is, and what it gives.
#[repr(C)]
#[derive(Clone, Copy)]
pub struct WalkAarch64 {
    pub unwinder: u64,
    pub cache: u64,
    pub place: u64,
    pub address: u64,
    pub registers: RegistersAarch64,
    pub count: u64,
    pub word_address: u64,
}

impl WalkAarch64 {
    // The call that it says, if its place is one.
    #[inline(always)]
    fn call(&self) -> Option<SampleWalkCall<UnwindRegsAarch64>>
        ensures { option_map viewed result ≡ walk_call_aarch64 self.now }
    {
        let place = place_at(self.place, self.address)?;
        let walk = SampleWalk {
            place,
            regs: self.registers.to_regs(),
        };
        Some(SampleWalkCall {
            unwinder: self.unwinder,
            cache: self.cache,
            walk,
            count: self.count,
            word_address: self.word_address,
        })
    }

    // Writes where a call's walk is then, unless there was no such unwinder or cache.
    #[inline(always)]
    fn write(&mut self, status: u32, call: &SampleWalkCall<UnwindRegsAarch64>)
        ensures { LeavesAarch64 status self.old self.new (viewed call.now) }
    {
        if is_missing(status) {
            return;
        }
        let (place, address) = numbers_of(call.walk.place);
        self.place = place;
        self.address = address;
        self.registers = RegistersAarch64::of(&call.walk.regs);
        self.count = call.count;
        self.word_address = call.word_address;
    }
}

impl AnySession {
    // Goes on with a walk by a call, if it is on aarch64.
    #[inline(always)]
    fn walk_aarch64(
        &mut self,
        call: &mut SampleWalkCall<UnwindRegsAarch64>,
        sample: &Sample<'_>,
        frames: &mut [u64],
    ) -> Option<u32>
        ensures { WalksOnAarch64 result sample.now
            (viewed call.old, frames.old) (viewed call.new, frames.new) self.old self.new }
    {
        match self {
            AnySession::Aarch64(session) => Some(session.walk(call, sample, frames)),
            AnySession::X86_64(_) => None,
        }
    }
}

/// Goes on with a walk on aarch64.
#[unsafe(no_mangle)]
pub extern "C" fn framehop_next_frames_aarch64(
    alloc: Global,
    session: &mut SessionHandle,
    walk: &mut WalkAarch64,
    sample: &Sample<'_>,
    frames: &mut [u64],
) -> u32
    ensures { WalksAarch64 result sample.now
        (walk.old, frames.old) (walk.new, frames.new) session.old.value session.new.value }
{
    let Some(mut call) = walk.call() else {
        return BAD_ARGUMENT;
    };
    let Some(mut state) = session.take(alloc) else {
        return NO_VALUE;
    };
    let made = state.walk_aarch64(&mut call, sample, frames);
    session.put(alloc, state);
    let Some(status) = made else {
        return OTHER_ARCHITECTURE;
    };
    walk.write(status, &call);
    status
}
