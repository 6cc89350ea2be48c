//! Steps over the worked stack, by an unwinder and a cache of any unwind data.
use crate::worked::word_at;
use framehop::x86_64::UnwindRegsX86_64;
use framehop::{
    Cache, Error, FrameAddress, Generations, ModuleUnwinding, Unwinder, UnwinderInternal,
};
use framehop_unwinder::Module;
use std::alloc::Global;
use std::process::Abort;

/// The registers ip, sp and bp.
pub type Registers = (u64, u64, u64);

/// What a step gives, and the registers that it leaves.
pub type Stepped = (Result<Option<u64>, Error>, Registers);

/// The registers of the worked stack's first frame.
pub const FIRST: Registers = (0x101000, 0x10, 0x20);

/// The registers that a step leaves that goes from there by the word at the stack pointer.
pub const BY_WORD: Registers = (0x100300, 0x18, 0x20);

/// The same by the frame pointer.
pub const BY_FRAME: Registers = (0x100200, 0x30, 0x40);

/// An unwinder of one module.
pub fn unwinder_of<A: ModuleUnwinding>(
    rt: &impl Abort,
    alloc: Global,
    module: Module<A::UnwindData>,
) -> UnwinderInternal<A> {
    let mut generations = Generations::new();
    let mut unwinder = UnwinderInternal::<A>::new(alloc, &mut generations).expect(rt, "a number");
    let is_loaded = unwinder.add_module(&mut generations, module).is_ok();
    assert!(rt; is_loaded, "OutOfMemory");
    unwinder
}

/// A cache. If it is refused, it is asked for again.
pub fn cache_of<A: ModuleUnwinding>(
    rt: &impl Abort,
    alloc: Global,
) -> Cache<A::UnwindRule, A::UnwindContext> {
    if let Ok(context) = A::unwind_context(alloc)
        && let Ok(cache) = Cache::new(alloc, context)
    {
        return cache;
    }
    let context = A::unwind_context(alloc).expect(rt, "memory");
    Cache::new(alloc, context).expect(rt, "memory")
}

/// The frame of an instruction pointer, or of a return address if it isn't 0.
pub fn frame_of(is_first: bool, address: u64) -> Option<FrameAddress> {
    if is_first {
        Some(FrameAddress::from_instruction_pointer(address))
    } else {
        FrameAddress::from_return_address(address)
    }
}

/// What a step of any unwinder on x86_64 gives from a first frame, and the registers that it leaves.
pub fn try_step<U: Unwinder<UnwindRegs = UnwindRegsX86_64>>(
    unwinder: &U,
    cache: &mut U::Cache,
    (ip, sp, bp): Registers,
) -> Stepped {
    let frame = FrameAddress::from_instruction_pointer(ip);
    let mut regs = UnwindRegsX86_64::new(ip, sp, bp);
    let mut read_stack = word_at;
    let answer = unwinder.unwind_frame(frame, &mut regs, cache, &mut read_stack);
    (answer, (regs.ip(), regs.sp(), regs.bp()))
}
