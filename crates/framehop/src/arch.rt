//! Architectures, if modules are unwound by their sections.

ghost use Rattle.std.specs.Prelude.{◌≡◌, refl};
ghost use Rattle.framehop.specs.Attempts.{AsksExpression, format_meanings};
ghost use Rattle.framehop.specs.StepMeanings.{meanings_by};
ghost use Rattle.framehop.specs.TableMethods.{table_methods};

use crate::call_frames::unwind_frame_by_call_frames;
use crate::compact::unwind_frame_by_compact;
use crate::failures::failure_of;
use crate::pe::unwind_frame_by_pe;
use crate::ways::{rule_before, said_or_rule};
use framehop_analysis::InstructionAnalysis;
use framehop_code_ways::WayUnwinding;
use framehop_compact::CompactUnwindInfoUnwinding;
use framehop_errors::UnwinderError;
use framehop_loads::{
    AllocationPolicy, DwarfUnwindContext, ModuleFormat, ModuleUnwindData, Tabulating,
};
use framehop_modules::SectionBytes;
use framehop_pe::PeUnwinding;
use framehop_rows::DwarfUnwinding;
use framehop_rules::aarch64::ArchAarch64;
use framehop_rules::x86_64::ArchX86_64;
use framehop_rules::{Arch, UnwindResult};
use framehop_unwinder::{ModuleUnwinding, UnwindFailure};
use std::alloc::{AllocError, Global};
use std::marker::PhantomData;

/// An architecture whose modules are unwound by their sections, in each format that is read.
pub trait Unwinding: DwarfUnwinding
    + InstructionAnalysis
    + CompactUnwindInfoUnwinding
    + PeUnwinding
    + Tabulating
    + WayUnwinding {}

impl Unwinding for ArchX86_64 {}

impl Unwinding for ArchAarch64 {}

/// The architecture `A`, if modules are unwound by their sections. Sections are values of `D`; `P` says
/// whether a step may allocate.
pub struct BySections<A, D, P> {
    arch: PhantomData<A>,
    sections: PhantomData<D>,
    policy: PhantomData<P>,
}

impl<A: Unwinding, D: SectionBytes + Drop, P: AllocationPolicy> Arch for BySections<A, D, P> {
    type UnwindRegs = A::UnwindRegs;

    type UnwindRule = A::UnwindRule;
}

impl<A: Unwinding, D: SectionBytes + Drop, P: AllocationPolicy> ModuleUnwinding
    for BySections<A, D, P> {
    type UnwindData = ModuleUnwindData<D>;

    type UnwindContext = DwarfUnwindContext<P>;

    ghost meanings = { meanings_by A.UnwindRule.meaning A.UnwindRule.fallback
        (format_meanings A.rows (table_methods A.pe_attempt A.compact) A.first_rule) P.limits };

    ghost meaning_is = { refl };

    ghost fallback_is = { refl };

    ghost takes_memory = { P.may_allocate };

    ghost asks_memory = { AsksExpression A.MeetsExpression
        (format_meanings A.rows (table_methods A.pe_attempt A.compact) A.first_rule) P.limits };

    fn unwind_context(alloc: Global) -> Result<DwarfUnwindContext<P>, AllocError> {
        DwarfUnwindContext::new(alloc)
    }

    fn unwind_frame<F: FnMut(u64) -> Result<u64, ()>>(
        unwind_data: &ModuleUnwindData<D>,
        relative_address: u32,
        is_first_frame: bool,
        regs: &mut A::UnwindRegs,
        unwind_context: &mut DwarfUnwindContext<P>,
        read_stack: &mut F,
    ) -> Result<UnwindResult<A::UnwindRule>, UnwindFailure> {
        if let Some(rule) = rule_before::<A, D>(unwind_data, relative_address, is_first_frame) {
            return Ok(UnwindResult::ExecRule(rule));
        }
        match unwind_data.format() {
            ModuleFormat::CallFrames(frames) => unwind_frame_by_call_frames::<A, P, D, F>(
                frames,
                regs,
                is_first_frame,
                relative_address,
                unwind_context,
                read_stack,
            ),
            ModuleFormat::Pe(file) => unwind_frame_by_pe::<A, P, D, F>(
                file,
                regs,
                is_first_frame,
                relative_address,
                read_stack,
            ),
            ModuleFormat::Compact(file, eh_frame) => {
                let said = unwind_frame_by_compact::<A, P, D, F>(
                    file,
                    eh_frame,
                    unwind_data.bases(),
                    unwind_data.base_svma(),
                    regs,
                    is_first_frame,
                    relative_address,
                    unwind_context,
                    read_stack,
                );
                said_or_rule::<A, D>(said, unwind_data, relative_address, is_first_frame)
            }
            ModuleFormat::NoFormat => Err(failure_of(UnwinderError::NoModuleUnwindData)),
        }
    }
}
