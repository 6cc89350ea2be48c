//! The table of a section, and its look-up.

ghost use Rattle.std.specs.Prelude.{◌≡◌, ◌≤◌, ◌^◌, ℕ, suc, IfOk};

use crate::covered::Covered;
use crate::entry::Entry;
use crate::fdes::ranges_of;
use crate::same_rule::SameRule;
use dwarf_frame_entries::{BaseAddresses, UnwindContext, UnwindContextStorage, UnwindSection};
use dwarf_readers::Reader;
use framehop_errors::DwarfCfiIndexError;
use framehop_index::DwarfCfiIndex;
use framehop_ranges::RangeTable;
use framehop_rows::RowRules;
use framehop_rules::Arch;
use std::alloc::{AllocError, Global};

/// What a look-up found.
#[derive(Debug, Clone, Copy, PartialEq, Eq)]
pub struct RuleLookup<Rule> {
    /// What the table says of the address.
    pub covered: Covered<Rule>,
    /// How many of the table's starts were read.
    pub starts_read: u32,
}

/// What the index of a section says of each relative address: the unwind rule there, or which FDE's row has to be evaluated,
/// or nothing.
#[derive(Drop)]
pub struct RuleTable<A: Arch>
where
    A::UnwindRule: SameRule,
{
    table: RangeTable<Entry<A::UnwindRule>>,
}

impl<A: RowRules> RuleTable<A>
where
    A::UnwindRule: SameRule,
{
    ghost use Rattle.framehop_index.specs.CfiIndex.{IsMadeOf};
    ghost use Rattle.framehop_index.specs.CfiIndexView.{IsIndexOf};
    ghost use Rattle.framehop_tables.specs.Covered.{SaysValid, tabulated};
    ghost use Rattle.framehop_tables.specs.RuleTables.{CountsChanges, IsTableOf, SaysAsIndex, entry_count, near_count, rule_at};

    /// The table of a section whose vendor is the architecture's. Its relative addresses are relative to `base_svma`; the
    /// section's pointers are relative to `bases`. Rows are made in `context`, whose rows before don't matter. Fails as
    /// [`DwarfCfiIndex::try_new`] does.
    pub fn try_new<R: Reader, Section: UnwindSection<R>, S: UnwindContextStorage<R::Offset>>(
        alloc: Global,
        section: &Section,
        bases: &BaseAddresses,
        base_svma: u64,
        context: &mut UnwindContext<R::Offset, S>,
    ) -> Result<Self, DwarfCfiIndexError>
        requires { S.never_allocates }
        ensures { let t = tabulated A.rows A.rule_of S.limits (Section.extensions section.now) in
            IsMadeOf result (IsTableOf t) base_svma (Section.frame section.now bases.now) }
    {
        let index = DwarfCfiIndex::try_new(alloc, section, bases, base_svma)?;
        Ok(RuleTable::by_index::<R, Section, S>(alloc, section, bases, base_svma, context, &index)?)
    }

    /// As `try_new`, by an index of the section, which has the same base. Fails if it fails to allocate.
    pub fn by_index<R: Reader, Section: UnwindSection<R>, S: UnwindContextStorage<R::Offset>>(
        alloc: Global,
        section: &Section,
        bases: &BaseAddresses,
        base_svma: u64,
        context: &mut UnwindContext<R::Offset, S>,
        index: &DwarfCfiIndex,
    ) -> Result<Self, AllocError>
        requires fixed { S.never_allocates }
        requires index { IsIndexOf index.now base_svma (Section.frame section.now bases.now) }
        ensures { let t = tabulated A.rows A.rule_of S.limits (Section.extensions section.now) in
            IfOk result (λ table. IsTableOf t table base_svma (Section.frame section.now bases.now)) }
    {
        let ranges = ranges_of::<A, R, Section, S>(
            alloc, section, bases, context, index, base_svma,
        )?;
        let table = RangeTable::try_new(alloc, ranges)?;
        Ok(RuleTable { table })
    }

    /// At how many relative addresses the table says something else than at the address before.
    pub fn change_count(&self) -> usize
        ensures { CountsChanges self.now result }
    {
        self.table.change_count()
    }

    /// What the section's index says of a relative address: a rule can be executed. Reads at most ceil(log2(n)) + 1 of the n starts, and
    /// at least floor(log2(m + 1)) of the m in the address's block.
    #[inline(always)]
    pub fn look_up(&self, relative: u32) -> RuleLookup<A::UnwindRule>
        ensures covered { result.covered ≡ rule_at self.now relative }
        ensures index { SaysAsIndex self.now relative result.covered }
        ensures valid { SaysValid A.UnwindRule.is_valid result.covered }
        ensures few { (k : ℕ) → entry_count self.now ≤ 2 ^ k → result.starts_read ≤ suc k }
        ensures enough { (k : ℕ) → 2 ^ k ≤ suc (near_count self.now relative) → k ≤ result.starts_read }
    {
        let found = self.table.look_up(relative);
        RuleLookup {
            covered: found.value.covered(),
            starts_read: found.starts_read,
        }
    }
}
