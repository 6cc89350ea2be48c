//! Tables of the rules that a module's call frames say.

ghost use Rattle.std.specs.Prelude.{◌≡◌, ◌↔◌, IfOk, IfSome, IsSome};
ghost use Rattle.framehop_index.specs.CfiIndexView.{IsIndexOf};
ghost use Rattle.framehop_tables.specs.Covered.{SaysValid, tabulated};
ghost use Rattle.framehop_tables.specs.RuleTables.{IsTableOf};
ghost use Rattle.framehop_loads.specs.ArchTables.{CountsChangesOn, IsArchTableOf, SaysAsIndexOn, arch_of};
ghost use Rattle.framehop_index.specs.SectionTypes.{frame_section_lent};
ghost use Rattle.framehop_loads.specs.StepLimits.{row_limits};

use crate::context::DwarfUnwindContext;
use crate::load_options::TableArch;
use crate::policies::{AllocationPolicy, MayAllocateDuringUnwind};
use dwarf_frame_entries::{BaseAddresses, DebugFrame, EhFrame};
use dwarf_read_core::{EndianSlice, LittleEndian};
use framehop_index::{DwarfCfiIndex, UnwindSectionType};
use framehop_rows::RowRules;
use framehop_rules::Arch;
use framehop_rules::aarch64::{ArchAarch64, UnwindRuleAarch64};
use framehop_rules::x86_64::{ArchX86_64, UnwindRuleX86_64};
use framehop_tables::{Covered, RuleTable, SameRule};
use std::alloc::{AllocError, Global};

/// The table of a section of call frames, on the architecture that it was made for.
#[derive(Drop)]
pub enum ArchRuleTable {
    /// On x86_64.
    X86_64(RuleTable<ArchX86_64>),
    /// On aarch64.
    Aarch64(RuleTable<ArchAarch64>),
}

impl ArchRuleTable {
    /// At how many relative addresses the table says something else than at the address before.
    pub fn change_count(&self) -> usize
        ensures { CountsChangesOn self.now result }
    {
        match self {
            ArchRuleTable::X86_64(table) => table.change_count(),
            ArchRuleTable::Aarch64(table) => table.change_count(),
        }
    }
}

// The table of a section of call frames, in which rows have the room that steps under every policy have.
fn table_of<A: RowRules>(
    alloc: Global,
    section: UnwindSectionType<&[u8]>,
    bases: &BaseAddresses,
    base_svma: u64,
    index: &DwarfCfiIndex,
) -> Result<RuleTable<A>, AllocError>
where
    A::UnwindRule: SameRule,
    requires index { IsIndexOf index.now base_svma (frame_section_lent bases section) }
    ensures { let t = tabulated A.rows A.rule_of row_limits A.rows.vendor in
        IfOk result (λ table. IsTableOf t table base_svma (frame_section_lent bases.entry section.entry)) }
{
    let mut context = DwarfUnwindContext::<MayAllocateDuringUnwind>::new(alloc)?;
    match section {
        UnwindSectionType::EhFrame(bytes) => {
            let mut section = EhFrame::new(bytes, LittleEndian);
            section.set_vendor(A::vendor());
            RuleTable::by_index::<
                EndianSlice<'_, LittleEndian>,
                _,
                <MayAllocateDuringUnwind as AllocationPolicy>::GimliUnwindContextStorage,
            >(alloc, &section, bases, base_svma, &mut *context.rows, index)
        }
        UnwindSectionType::DebugFrame(bytes) => {
            let mut section = DebugFrame::new(bytes, LittleEndian);
            section.set_vendor(A::vendor());
            RuleTable::by_index::<
                EndianSlice<'_, LittleEndian>,
                _,
                <MayAllocateDuringUnwind as AllocationPolicy>::GimliUnwindContextStorage,
            >(alloc, &section, bases, base_svma, &mut *context.rows, index)
        }
    }
}

// The table of a section of call frames on an architecture, by an index of the section, which has the same base. The section's pointers
// are relative to `bases`. Fails if it fails to allocate.
pub(crate) fn tabulate(
    alloc: Global,
    arch: TableArch,
    section: UnwindSectionType<&[u8]>,
    bases: &BaseAddresses,
    base_svma: u64,
    index: &DwarfCfiIndex,
) -> Result<ArchRuleTable, AllocError>
    requires { IsIndexOf index.now base_svma (frame_section_lent bases section) }
    ensures table { IfOk result (λ table.
        IsArchTableOf table base_svma (frame_section_lent bases.entry section.entry)) }
    ensures arch { IfOk result (λ table. arch_of table ≡ arch) }
{
    match arch {
        TableArch::X86_64 => {
            let table = table_of::<ArchX86_64>(alloc, section, bases, base_svma, index)?;
            Ok(ArchRuleTable::X86_64(table))
        }
        TableArch::Aarch64 => {
            let table = table_of::<ArchAarch64>(alloc, section, bases, base_svma, index)?;
            Ok(ArchRuleTable::Aarch64(table))
        }
    }
}

/// An architecture that tables of rules are made for.
pub trait Tabulating: RowRules {
    ghost use Rattle.framehop_loads.specs.declared.load_options.TableArch.{TableArch};

    /// The architecture.
    ghost arch: { TableArch };

    /// The architecture, as a load takes it.
    fn table_arch() -> TableArch
        ensures { result ≡ arch };

    /// What a table says of a relative address, if it is a table on this architecture: a rule can be executed.
    fn look_up(table: &ArchRuleTable, relative_address: u32) -> Option<Covered<Self::UnwindRule>>
        ensures own { IsSome result ↔ (arch_of table.now ≡ arch) }
        ensures covered { IfSome result (SaysAsIndexOn Self.rows Self.rule_of table.now relative_address) }
        ensures valid { IfSome result (SaysValid Self.UnwindRule.is_valid) };
}

impl Tabulating for ArchX86_64 {
    ghost use Rattle.framehop_loads.specs.declared.load_options.TableArch.TheVariants.{X86_64};

    ghost arch = { X86_64 };

    fn table_arch() -> TableArch {
        TableArch::X86_64
    }

    #[inline(always)]
    fn look_up(table: &ArchRuleTable, relative_address: u32) -> Option<Covered<UnwindRuleX86_64>> {
        match table {
            ArchRuleTable::X86_64(table) => Some(table.look_up(relative_address).covered),
            ArchRuleTable::Aarch64(_) => None,
        }
    }
}

impl Tabulating for ArchAarch64 {
    ghost use Rattle.framehop_loads.specs.declared.load_options.TableArch.TheVariants.{Aarch64};

    ghost arch = { Aarch64 };

    fn table_arch() -> TableArch {
        TableArch::Aarch64
    }

    #[inline(always)]
    fn look_up(table: &ArchRuleTable, relative_address: u32) -> Option<Covered<UnwindRuleAarch64>> {
        match table {
            ArchRuleTable::X86_64(_) => None,
            ArchRuleTable::Aarch64(table) => Some(table.look_up(relative_address).covered),
        }
    }
}
