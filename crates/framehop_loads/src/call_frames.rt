//! The call frames of a module, and which of its sections has the FDE for an address.

ghost use Rattle.std.specs.Prelude.{◌≡◌, ◌↔◌, IfOk, IfSome, IfNone, IsSome, Some, option_map};
ghost use Rattle.std.specs.Box.{box_value};
ghost use Rattle.framehop_index.specs.FdeLookups.{covers, fde_for};
ghost use Rattle.framehop_tables.specs.Covered.{SaysValid};
ghost use Rattle.framehop_loads.specs.ArchTables.{IsTabulatedFor, SaysAsIndexOf, arch_of};
ghost use Rattle.framehop_loads.specs.CallFrames.{frames_for, frames_used};
ghost use Rattle.framehop_loads.specs.LoadOptions.{table_on};
ghost use Rattle.framehop_loads.specs.TableSizes.{IsSizeOf};

use crate::load_options::TableArch;
use crate::tabulation::{ArchRuleTable, Tabulating, tabulate};
use dwarf_read_core::{EndianSlice, LittleEndian};
use framehop_index::{FoundFde, SectionFrames};
use framehop_modules::SectionBytes;
use framehop_tables::Covered;
use std::alloc::{AllocError, Global};
use std::marker::Model;

/// The call frames of a module: a section with what finds its FDEs, a table of the rules that its index says, if there is one, and
/// another section, if there is one, for addresses that are in its FDEs alone.
#[derive(Drop)]
pub struct CallFrames<D: SectionBytes> {
    main: SectionFrames<D>,
    table: Option<Box<ArchRuleTable>>,
    beside: Option<SectionFrames<D>>,
}

impl<D: SectionBytes> Model for CallFrames<D> {
    ghost use Rattle.std.specs.Box.{box_value};
    ghost use Rattle.std.specs.Prelude.{option_map};
    ghost use Rattle.framehop_loads.specs.CallFrames.{CallFrames};
    ghost use Rattle.framehop_loads.specs.ArchTables.{IsTabulatedFor, arch_of};

    ghost Value = { CallFrames };

    ghost view = { λ given. record {
      main = given.main;
      table = option_map (λ table. arch_of table.value) given.table;
      beside = given.beside;
    } };

    // a table is one of what the index of the section says
    ghost invariant = { λ given. IsTabulatedFor given.main (option_map box_value given.table) };
}

// A table of what the index of a section says, if one is asked for, FDEs are found by an index, and the section has one. Fails if it fails
// to allocate.
fn table_for<D: SectionBytes>(
    alloc: Global,
    tables: Option<TableArch>,
    main: &SectionFrames<D>,
) -> Result<Option<Box<ArchRuleTable>>, AllocError>
    ensures arch { IfOk result (λ table.
        option_map (λ table. arch_of table.value) table ≡ table_on tables main.now) }
    ensures table { IfOk result (λ table. IsTabulatedFor main.now (option_map box_value table)) }
{
    let Some(arch) = tables else {
        return Ok(None);
    };
    let Some(index) = main.index() else {
        return Ok(None);
    };
    let table = tabulate(
        alloc,
        arch,
        main.section(),
        main.bases(),
        main.base_svma(),
        index,
    )?;
    Ok(Some(Box::new(alloc, table)?))
}

impl<D: SectionBytes + Drop> CallFrames<D> {
    // A section with what finds its FDEs, a table, if one is asked for, and another section, if there is one. Fails if it fails to
    // allocate the table.
    pub(crate) fn new(
        alloc: Global,
        main: SectionFrames<D>,
        tables: Option<TableArch>,
        beside: Option<SectionFrames<D>>,
    ) -> Result<Self, AllocError>
        ensures { IfOk result (λ frames.
            frames ≡ record { main = main; table = table_on tables main; beside = beside }) }
    {
        let table = table_for(alloc, tables, &main)?;
        Ok(CallFrames {
            main,
            table,
            beside,
        })
    }
}

impl<D: SectionBytes> CallFrames<D> {
    /// The section itself, with what finds its FDEs.
    #[inline(always)]
    pub fn main(&self) -> &SectionFrames<D>
        ensures { result.now ≡ self.now.main }
    {
        &self.main
    }

    /// The other section, if there is one.
    #[inline(always)]
    pub fn beside(&self) -> Option<&SectionFrames<D>>
        ensures { option_map (λ beside. beside.now) result ≡ self.now.beside }
    {
        match &self.beside {
            Some(beside) => Some(beside),
            None => None,
        }
    }

    // Whether a relative address is in the FDE that is used there.
    pub(crate) fn covers(&self, relative_address: u32) -> bool
        ensures { result ≡ covers (frames_used self.now relative_address) relative_address }
    {
        if self.main.covering_fde(relative_address).is_some() {
            return true;
        }
        match &self.beside {
            Some(beside) => beside.covering_fde(relative_address).is_some(),
            None => false,
        }
    }

    // At how many relative addresses the table says something else than at the address before, if there is one.
    pub(crate) fn table_size(&self) -> Option<usize>
        ensures { IsSizeOf self.now.main self.now.table result }
    {
        match &self.table {
            Some(table) => Some(table.change_count()),
            None => None,
        }
    }

    /// What the table says of a relative address, if there is one on the architecture: a rule can be executed.
    #[inline(always)]
    pub fn said_by_table<A: Tabulating>(
        &self,
        relative_address: u32,
    ) -> Option<Covered<A::UnwindRule>>
        ensures own { IsSome result ↔ (self.now.table ≡ Some A.arch) }
        ensures covered { IfSome result (SaysAsIndexOf A.rows A.rule_of self.now.main relative_address) }
        ensures valid { IfSome result (SaysValid A.UnwindRule.is_valid) }
    {
        match &self.table {
            Some(table) => A::look_up(table, relative_address),
            None => None,
        }
    }

    /// What is known of the FDE of the section itself for a relative address, if it was found before; or else it is looked for.
    #[inline(always)]
    pub fn main_fde<'a>(
        &'a self,
        found: Option<FoundFde<EndianSlice<'a, LittleEndian>>>,
        relative_address: u32,
    ) -> FoundFde<EndianSlice<'a, LittleEndian>>
        requires { IfSome found (λ found. found ≡ fde_for self.now.main relative_address) }
        ensures { result ≡ fde_for self.now.main relative_address }
    {
        match found {
            Some(found) => found,
            None => self.main.fde_for(relative_address),
        }
    }
}

/// What another section has for a relative address, if it is used there: if its FDE contains the address, and the one that was found in
/// the main section doesn't.
#[inline(always)]
pub fn fde_beside<'a, D: SectionBytes>(
    main: &SectionFrames<D>,
    beside: &'a SectionFrames<D>,
    found: &FoundFde<EndianSlice<'_, LittleEndian>>,
    relative_address: u32,
) -> Option<FoundFde<EndianSlice<'a, LittleEndian>>>
    requires { found.now ≡ fde_for main.now relative_address }
    ensures found { IfSome result (λ other. other ≡ fde_for beside.now relative_address) }
    ensures used { IfSome result (λ _. frames_for main.now beside.now relative_address ≡ beside.now) }
    ensures unused { IfNone result (frames_for main.now beside.now relative_address ≡ main.now) }
{
    if main.is_covered_by(found, relative_address) {
        return None;
    }
    let other = beside.fde_for(relative_address);
    if beside.is_covered_by(&other, relative_address) {
        Some(other)
    } else {
        None
    }
}
