//! The architectures that walks and steps are timed on. What times them is over any unwind data: of a generic architecture the proofs here
//! see few facts, and they are short.

use crate::modules::{TimedData, TimedModule};
use crate::work::FirstRegisters;
use anyhow::{Context, Result};
use framehop::aarch64::{ArchAarch64, PtrAuthMask, UnwindRegsAarch64};
use framehop::x86_64::{ArchX86_64, SlotCount, UnwindRegsX86_64};
use framehop::{
    Arch, BySections, Cache, Generations, MayAllocateDuringUnwind, ModuleUnwinding, TableArch,
    Unwinder, UnwinderInternal,
};
use std::alloc::Global;

/// x86_64, with modules that own their bytes.
pub type X86_64 = BySections<ArchX86_64, Vec<u8>, MayAllocateDuringUnwind>;

/// The same of aarch64.
pub type Aarch64 = BySections<ArchAarch64, Vec<u8>, MayAllocateDuringUnwind>;

/// What steps keep and reuse.
pub type TimedCache<A> = Cache<<A as Arch>::UnwindRule, <A as ModuleUnwinding>::UnwindContext>;

/// The registers of an architecture.
pub trait TimedRegs: Copy {
    /// Those that a walk begins with, or that a step is made from.
    fn of(first: FirstRegisters) -> Self;

    /// The sum of all registers, modulo 2^64.
    fn sum(&self) -> u64;

    /// What tables of rules are made for on the architecture.
    fn table_arch() -> TableArch;
}

impl TimedRegs for UnwindRegsX86_64 {
    #[inline(always)]
    fn of(first: FirstRegisters) -> Self {
        UnwindRegsX86_64::new(first.code, first.sp, first.fp)
    }

    #[inline(always)]
    fn sum(&self) -> u64 {
        self.ip().wrapping_add(self.sp()).wrapping_add(self.bp())
    }

    fn table_arch() -> TableArch {
        TableArch::X86_64
    }
}

impl TimedRegs for UnwindRegsAarch64 {
    #[inline(always)]
    fn of(first: FirstRegisters) -> Self {
        let mask = PtrAuthMask(first.mask);
        UnwindRegsAarch64::new_with_ptr_auth_mask(mask, first.code, first.sp, first.fp)
    }

    #[inline(always)]
    fn sum(&self) -> u64 {
        self.lr().wrapping_add(self.sp()).wrapping_add(self.fp())
    }

    fn table_arch() -> TableArch {
        TableArch::Aarch64
    }
}

// Loads a module in an unwinder.
fn load<U: Unwinder<Module = TimedModule>>(
    unwinder: &mut U,
    generations: &mut Generations,
    module: TimedModule,
) -> Result<()> {
    let added = unwinder.add_module(generations, module);
    added.ok().context("the module was not loaded")
}

/// An unwinder with a module.
pub fn unwinder_with<A: ModuleUnwinding<UnwindData = TimedData>>(
    alloc: Global,
    module: TimedModule,
) -> Result<UnwinderInternal<A>> {
    let mut generations = Generations::new();
    let mut unwinder = UnwinderInternal::new(alloc, &mut generations)?;
    load(&mut unwinder, &mut generations, module)?;
    Ok(unwinder)
}

/// A new cache.
pub fn new_cache<A: ModuleUnwinding>(alloc: Global) -> Result<TimedCache<A>> {
    Ok(Cache::new(alloc, A::unwind_context(alloc)?)?)
}

/// A new cache of so many slots.
pub fn cache_of<A: ModuleUnwinding>(alloc: Global, slots: SlotCount) -> Result<TimedCache<A>> {
    Ok(Cache::with_slots(alloc, A::unwind_context(alloc)?, slots)?)
}
