//! A module, and lists of modules.

ghost use Rattle.std.specs.Prelude.{◌≡◌, ◌≤◌, ◌-◌, ◌+◌, length, List, IfSome, IfNone, IfOk, MatchOption, Some, None};
ghost use Rattle.std.specs.String.{string_bytes};
ghost use Rattle.framehop_unwinder.specs.Modules.{nearest_module, is_inside, if_inside};

use std::alloc::{AllocError, Global};
use std::marker::Model;
use std::ops::Range;
use std::rc::Rc;

/// What a module is made of.
#[derive(Drop)]
struct ModuleInner<D> {
    name: String,
    avma_range: Range<u64>,
    base_avma: u64,
    unwind_data: D,
}

/// A module that is loaded in the profiled process, as an executable or a shared library, with what
/// it has to be unwound by. Its clones share it.
///
/// An "AVMA" is an actual virtual memory address: one in the memory of the process. A relative
/// address is the distance from the module's base.
#[derive(Drop)]
pub struct Module<D> {
    inner: Rc<ModuleInner<D>>,
}

impl<D> Model for Module<D> {
    ghost use Rattle.framehop_unwinder.specs.Modules.{Loaded};

    ghost Value = { Loaded D };

    ghost use Rattle.framehop_unwinder.specs.ModuleViews.{loaded};

    ghost view = { λ module_. loaded module_.inner.value };
}

impl<D: Drop> Module<D> {
    /// A module with this name at a range of AVMAs, whose relative addresses count from
    /// `base_avma`.
    pub fn new(
        alloc: Global,
        name: String,
        avma_range: Range<u64>,
        base_avma: u64,
        unwind_data: D,
    ) -> Result<Self, AllocError>
        ensures name { IfOk result (λ module_. module_.name ≡ string_bytes name) }
        ensures start { IfOk result (λ module_. module_.start ≡ avma_range.start) }
        ensures end { IfOk result (λ module_. module_.end ≡ avma_range.end) }
        ensures base { IfOk result (λ module_. module_.base ≡ base_avma) }
        ensures unwind_data { IfOk result (λ module_. module_.unwind_data ≡ unwind_data) }
    {
        let inner = ModuleInner {
            name,
            avma_range,
            base_avma,
            unwind_data,
        };
        Ok(Module {
            inner: Rc::new(alloc, inner)?,
        })
    }

    /// The same module, shared.
    pub fn try_clone(&self) -> Result<Self, AllocError>
        ensures { IfOk result (λ module_. module_ ≡ self.now) }
    {
        Ok(Module {
            inner: self.inner.clone()?,
        })
    }
}

impl<D> Module<D> {
    /// The name.
    pub fn name(&self) -> &str
        ensures { result.now ≡ self.now.name }
    {
        self.inner.name.as_str()
    }

    /// The AVMAs that the module covers.
    pub fn avma_range(&self) -> Range<u64>
        ensures start { result.start ≡ self.now.start }
        ensures end { result.end ≡ self.now.end }
    {
        self.inner.avma_range.start..self.inner.avma_range.end
    }

    /// The AVMA that relative addresses count from.
    pub fn base_avma(&self) -> u64
        ensures { result ≡ self.now.base }
    {
        self.inner.base_avma
    }

    /// What the module has to be unwound by.
    pub fn unwind_data(&self) -> &D
        ensures { result.now ≡ self.now.unwind_data }
    {
        &self.inner.unwind_data
    }

    /// The first of the AVMAs that the module covers.
    pub(crate) fn start(&self) -> u64
        ensures { result ≡ self.now.start }
    {
        self.inner.avma_range.start
    }

    /// The end of the AVMAs that the module covers.
    pub(crate) fn end(&self) -> u64
        ensures { result ≡ self.now.end }
    {
        self.inner.avma_range.end
    }

    // Whether an address is in the module. At its very start its end isn't asked, so that a
    // module of no bytes contains its start.
    fn contains(&self, address: u64) -> bool
        ensures { result ≡ is_inside address self.now }
    {
        address == self.start() || address < self.end()
    }

    /// The distance of an address from the module's base, if the module contains the address.
    pub(crate) fn relative_address(&self, address: u64) -> Option<u32>
        ensures none { IfNone result (if_inside address self.now ≡ None) }
        ensures inside { IfSome result (λ _. if_inside address self.now ≡ Some self.now) }
        ensures relative { IfSome result (λ relative. relative ≡ address - self.now.base) }
    {
        if !self.contains(address) {
            return None;
        }
        u32::try_from(address.checked_sub(self.base_avma())?).ok()
    }
}
