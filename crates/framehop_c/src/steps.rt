//! Steps, for C.

ghost use Rattle.std.specs.Prelude.{◌≡◌, IfSome, option_map};
ghost use Rattle.framehop_calls.specs.CallViews.{step_call};
ghost use Rattle.framehop_calls.specs.Registers.{to_aarch64, to_x86_64};
ghost use Rattle.framehop_c.specs.Steps.{StepsAarch64, StepsOnAarch64, StepsOnX86_64, StepsX86_64, call_aarch64, call_x86_64, left_aarch64, left_x86_64};

use crate::handle::SessionHandle;
use crate::session::AnySession;
use framehop::aarch64::UnwindRegsAarch64;
use framehop::x86_64::UnwindRegsX86_64;
use framehop_calls::status::{BAD_ARGUMENT, NO_VALUE, OK, OTHER_ARCHITECTURE};
use framehop_calls::{RegistersAarch64, RegistersX86_64, Sample, SampleStepCall, frame_at};
use std::alloc::Global;

/// A frame on x86_64 that a step is made from, and what the step gives.
#[repr(C)]
#[derive(Clone, Copy)]
pub struct FrameX86_64 {
    pub unwinder: u64,
    pub cache: u64,
    pub place: u64,
    pub address: u64,
    pub registers: RegistersX86_64,
    pub return_address: u64,
    pub word_address: u64,
}

impl FrameX86_64 {
    // The call that it says, if its place is one of a frame.
    #[inline(always)]
    fn call(&self) -> Option<SampleStepCall<UnwindRegsX86_64>>
        ensures call { option_map step_call result ≡ call_x86_64 self.now }
        ensures registers { IfSome result (λ call. call.regs ≡ to_x86_64 self.now.registers) }
    {
        let address = frame_at(self.place, self.address)?;
        Some(SampleStepCall {
            unwinder: self.unwinder,
            cache: self.cache,
            address,
            regs: self.registers.to_regs(),
            return_address: self.return_address,
            word_address: self.word_address,
        })
    }

    // Writes what a call gave: the registers only if there is a caller.
    #[inline(always)]
    fn write(&mut self, status: u32, call: &SampleStepCall<UnwindRegsX86_64>)
        ensures { self.new ≡ left_x86_64 status self.old (step_call call.now) }
    {
        if status == OK {
            self.registers = RegistersX86_64::of(&call.regs);
        }
        self.return_address = call.return_address;
        self.word_address = call.word_address;
    }
}

impl AnySession {
    // Makes a step by a call, if it is on x86_64.
    #[inline(always)]
    fn step_x86_64(
        &mut self,
        given: &RegistersX86_64,
        call: &mut SampleStepCall<UnwindRegsX86_64>,
        sample: &Sample<'_>,
    ) -> Option<u32>
        requires { to_x86_64 given.now ≡ call.old.regs }
        ensures { StepsOnX86_64 result sample.now (step_call call.old) (step_call call.new) self.old self.new }
    {
        match self {
            AnySession::X86_64(session) => Some(session.step(given, call, sample)),
            AnySession::Aarch64(_) => None,
        }
    }
}

/// Makes the step from a frame on x86_64.
#[unsafe(no_mangle)]
pub extern "C" fn framehop_unwind_frame_x86_64(
    alloc: Global,
    session: &mut SessionHandle,
    frame: &mut FrameX86_64,
    sample: &Sample<'_>,
) -> u32
    ensures { StepsX86_64 result sample.now (call_x86_64 frame.old) frame.old frame.new session.old.value session.new.value }
{
    let Some(mut call) = frame.call() else {
        return BAD_ARGUMENT;
    };
    let Some(mut state) = session.take(alloc) else {
        return NO_VALUE;
    };
    let step = state.step_x86_64(&frame.registers, &mut call, sample);
    session.put(alloc, state);
    let Some(status) = step else {
        return OTHER_ARCHITECTURE;
    };
    frame.write(status, &call);
    status
}

/// A frame on aarch64 that a step is made from, and what the step gives.
#[repr(C)]
#[derive(Clone, Copy)]
pub struct FrameAarch64 {
    pub unwinder: u64,
    pub cache: u64,
    pub place: u64,
    pub address: u64,
    pub registers: RegistersAarch64,
    pub return_address: u64,
    pub word_address: u64,
}

impl FrameAarch64 {
    // The call that it says, if its place is one of a frame.
    #[inline(always)]
    fn call(&self) -> Option<SampleStepCall<UnwindRegsAarch64>>
        ensures call { option_map step_call result ≡ call_aarch64 self.now }
        ensures registers { IfSome result (λ call. call.regs ≡ to_aarch64 self.now.registers) }
    {
        let address = frame_at(self.place, self.address)?;
        Some(SampleStepCall {
            unwinder: self.unwinder,
            cache: self.cache,
            address,
            regs: self.registers.to_regs(),
            return_address: self.return_address,
            word_address: self.word_address,
        })
    }

    // Writes what a call gave: the registers only if there is a caller.
    #[inline(always)]
    fn write(&mut self, status: u32, call: &SampleStepCall<UnwindRegsAarch64>)
        ensures { self.new ≡ left_aarch64 status self.old (step_call call.now) }
    {
        if status == OK {
            self.registers = RegistersAarch64::of(&call.regs);
        }
        self.return_address = call.return_address;
        self.word_address = call.word_address;
    }
}

impl AnySession {
    // Makes a step by a call, if it is on aarch64.
    #[inline(always)]
    fn step_aarch64(
        &mut self,
        given: &RegistersAarch64,
        call: &mut SampleStepCall<UnwindRegsAarch64>,
        sample: &Sample<'_>,
    ) -> Option<u32>
        requires { to_aarch64 given.now ≡ call.old.regs }
        ensures { StepsOnAarch64 result sample.now (step_call call.old) (step_call call.new) self.old self.new }
    {
        match self {
            AnySession::Aarch64(session) => Some(session.step(given, call, sample)),
            AnySession::X86_64(_) => None,
        }
    }
}

/// Makes the step from a frame on aarch64.
#[unsafe(no_mangle)]
pub extern "C" fn framehop_unwind_frame_aarch64(
    alloc: Global,
    session: &mut SessionHandle,
    frame: &mut FrameAarch64,
    sample: &Sample<'_>,
) -> u32
    ensures { StepsAarch64 result sample.now (call_aarch64 frame.old) frame.old frame.new session.old.value session.new.value }
{
    let Some(mut call) = frame.call() else {
        return BAD_ARGUMENT;
    };
    let Some(mut state) = session.take(alloc) else {
        return NO_VALUE;
    };
    let step = state.step_aarch64(&frame.registers, &mut call, sample);
    session.put(alloc, state);
    let Some(status) = step else {
        return OTHER_ARCHITECTURE;
    };
    frame.write(status, &call);
    status
}
