//! Architectures, if the rows of modules may be taken whole.

ghost use Rattle.std.specs.Prelude.{◌≡◌, refl};
ghost use Rattle.framehop.specs.Attempts.{AsksExpression, format_meanings};
ghost use Rattle.framehop.specs.StepMeanings.{meanings_by};
ghost use Rattle.framehop.specs.TableMethods.{table_methods};
ghost use Rattle.framehop_whole_modules.specs.Attempts.{whole_meanings};
ghost use Rattle.framehop_whole_modules.specs.Views.{plain_answer, plain_registers};

use crate::module_rows::row_at;
use framehop::{BySections, Unwinding};
use framehop_loads::{AllocationPolicy, DwarfUnwindContext, ModuleUnwindData};
use framehop_modules::SectionBytes;
use framehop_rules::{Arch, UnwindResult};
use framehop_unwinder::{ModuleUnwinding, UnwindFailure};
use framehop_whole_steps::{CarriesRegisters, WholeRegs, WholeRule, step_by_row};
use std::alloc::{AllocError, Global};
use std::marker::PhantomData;

/// The architecture `A`, if modules are unwound by their sections as those of [`BySections`], and by rows as DWARF says them where a
/// module's load asks for that. Such steps keep no rule.
pub struct ByWholeRows<A, D, P> {
    arch: PhantomData<A>,
    sections: PhantomData<D>,
    policy: PhantomData<P>,
}

impl<A: Unwinding + CarriesRegisters, D: SectionBytes + Drop, P: AllocationPolicy> Arch
    for ByWholeRows<A, D, P> {
    type UnwindRegs = WholeRegs<A::UnwindRegs>;

    type UnwindRule = WholeRule<A::UnwindRule>;
}

// What a module answers that takes no row whole. No other register is known in the caller that it found.
fn plain_answer<R, Regs>(
    answer: Result<UnwindResult<R>, UnwindFailure>,
    regs: &mut WholeRegs<Regs>,
) -> Result<UnwindResult<WholeRule<R>>, UnwindFailure>
    ensures answer { result ≡ plain_answer answer }
    ensures registers { regs.new ≡ plain_registers answer regs.old }
{
    match answer {
        Ok(UnwindResult::ExecRule(rule)) => Ok(UnwindResult::ExecRule(WholeRule::Plain(rule))),
        Ok(UnwindResult::Uncacheable(return_address)) => {
            regs.forget();
            Ok(UnwindResult::Uncacheable(return_address))
        }
        Err(failure) => Err(failure),
    }
}

impl<A: Unwinding + CarriesRegisters, D: SectionBytes + Drop, P: AllocationPolicy> ModuleUnwinding
    for ByWholeRows<A, D, P> {
    type UnwindData = ModuleUnwindData<D>;

    type UnwindContext = DwarfUnwindContext<P>;

    ghost meanings = { whole_meanings A.carrying P.limits.rows A.rows.vendor
        (meanings_by A.UnwindRule.meaning A.UnwindRule.fallback
        (format_meanings A.rows (table_methods A.pe_attempt A.compact) A.first_rule) P.limits) };

    ghost meaning_is = { refl };

    ghost fallback_is = { refl };

    ghost takes_memory = { P.may_allocate };

    ghost asks_memory = { AsksExpression A.MeetsExpression
        (format_meanings A.rows (table_methods A.pe_attempt A.compact) A.first_rule) P.limits };

    fn unwind_context(alloc: Global) -> Result<DwarfUnwindContext<P>, AllocError> {
        DwarfUnwindContext::new(alloc)
    }

    fn unwind_frame<F: FnMut(u64) -> Result<u64, ()>>(
        unwind_data: &ModuleUnwindData<D>,
        relative_address: u32,
        is_first_frame: bool,
        regs: &mut WholeRegs<A::UnwindRegs>,
        unwind_context: &mut DwarfUnwindContext<P>,
        read_stack: &mut F,
    ) -> Result<UnwindResult<WholeRule<A::UnwindRule>>, UnwindFailure> {
        let context = &mut *unwind_context;
        if let Some(found) = row_at::<A, P, D>(unwind_data, relative_address, context) {
            return step_by_row::<A, _, F>(&found, is_first_frame, regs, read_stack);
        }
        let answer = <BySections<A, D, P> as ModuleUnwinding>::unwind_frame(
            unwind_data,
            relative_address,
            is_first_frame,
            &mut regs.regs,
            unwind_context,
            read_stack,
        );
        plain_answer(answer, regs)
    }
}
