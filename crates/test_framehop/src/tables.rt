//! Modules that are tables from relative addresses to what is said there, on any architecture.

ghost use Rattle.std.specs.Prelude.{◌≡◌};
ghost use Rattle.test_framehop.specs.Tables.{said_at};

use framehop_rules::{Arch, UnwindResult, UnwindRule};
use framehop_unwinder::{ModuleUnwinding, UnwindFailure};
use std::alloc::{AllocError, Global};
use std::marker::PhantomData;

/// What a row says.
#[derive(Clone, Copy)]
pub enum Said {
    /// The rule for stubs: the word at the stack pointer is the return address, or the link register.
    StubRule,
    /// The rule for a function's start, which is the same on each architecture here.
    StartRule,
    /// A row that gives no caller, as one whose words can't be read.
    NoCaller,
    /// A row whose caller has the return address 0 and these registers.
    NullCaller,
    /// A row that wants memory, which is refused.
    WantsMemory,
}

/// What is said of an address.
#[derive(Clone, Copy)]
pub struct Row {
    pub relative_address: u32,
    pub said: Said,
}

// What is said of an address.
fn said_at(rows: &[Row], address: u32) -> Option<Said>
    ensures { result ≡ said_at rows.now address }
{
    for row in rows {
        if row.relative_address == address {
            return Some(row.said);
        }
    }
    None
}

/// An architecture whose modules are tables.
pub struct Tables<A> {
    arch: PhantomData<A>,
}

impl<A: Arch> Arch for Tables<A> {
    type UnwindRegs = A::UnwindRegs;

    type UnwindRule = A::UnwindRule;
}

impl<A: Arch> ModuleUnwinding for Tables<A> {
    ghost use Rattle.std.specs.Prelude.{true, Some, refl};
    ghost use Rattle.framehop_unwinder.specs.Attempt.{meanings_of};
    ghost use Rattle.test_framehop.specs.Tables.{attempt_said};
    ghost use Rattle.test_framehop.specs.declared.tables.Said.TheVariants.{WantsMemory};

    type UnwindData = Vec<Row>;

    type UnwindContext = ();

    ghost meanings = { meanings_of A.UnwindRule.meaning A.UnwindRule.fallback (λ rows address first.
        attempt_said A.UnwindRule.stub_rule A.UnwindRule.start_rule (said_at rows.items address)) };

    ghost meaning_is = { refl };

    ghost fallback_is = { refl };

    ghost takes_memory = { true };

    ghost asks_memory = { λ rows address first. said_at rows.items address ≡ Some WantsMemory };

    fn unwind_context(_alloc: Global) -> Result<(), AllocError> {
        Ok(())
    }

    fn unwind_frame<F: FnMut(u64) -> Result<u64, ()>>(
        unwind_data: &Vec<Row>,
        relative_address: u32,
        _is_first_frame: bool,
        _regs: &mut A::UnwindRegs,
        _unwind_context: &mut (),
        _read_stack: &mut F,
    ) -> Result<UnwindResult<A::UnwindRule>, UnwindFailure> {
        match said_at(unwind_data, relative_address) {
            Some(Said::StubRule) => {
                Ok(UnwindResult::ExecRule(A::UnwindRule::rule_for_stub_functions()))
            }
            Some(Said::StartRule) => {
                Ok(UnwindResult::ExecRule(A::UnwindRule::rule_for_function_start()))
            }
            Some(Said::NoCaller) => Err(UnwindFailure::OfFrame),
            Some(Said::NullCaller) => Ok(UnwindResult::Uncacheable(0)),
            Some(Said::WantsMemory) => Err(UnwindFailure::OutOfMemory),
            None => Err(UnwindFailure::OfModule),
        }
    }
}
