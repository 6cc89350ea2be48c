//! Tables of abbreviations, and their offsets.

ghost use Rattle.std.specs.Prelude.{◌≡◌, ◌⊎◌, Ok, Err, IfOk, IfErr};
ghost use Rattle.dwarf_constants.specs.declared.error.Error.TheVariants as error;
ghost use Rattle.dwarf_read_core.specs.AbbreviationTable.{GivesOrMemory};
ghost use Rattle.dwarf_read_core.specs.DebugAbbrev.{declarations};
ghost use Rattle.cases_unwinding.specs.Codes.{declared_in, declared_up_to, words_at};
ghost use Rattle.cases_unwinding.specs.Little.{little};

use dwarf_read_core::{
    Abbreviations, DebugAbbrev, DebugAbbrevOffset, EndianSlice, Error, LittleEndian, Reader, Result,
};
use std::alloc::Global;

/// Reads `count` offsets, each in four bytes. Fails if the bytes end.
pub fn read_offsets(
    alloc: Global,
    input: &mut EndianSlice<'_, LittleEndian>,
    count: u32,
) -> Result<Vec<u32>>
    ensures read { IfOk result (λ v. words_at count (little input.old)
        ≡ Ok (v.items, little input.new)) }
    ensures refused { IfErr result (λ e. (words_at count (little input.old) ≡ Err e)
        ⊎ (e ≡ error.OutOfMemory)) }
{
    let mut offsets = Vec::new(alloc);
    for i in 0..count {
        let offset = input.read_u32()?;
        if offsets.push(offset).is_err() {
            return Err(Error::OutOfMemory);
        }
    }
    Ok(offsets)
}

// How many of the codes from 1 up to this one are declared.
fn declared_codes(table: &Abbreviations, codes: u32) -> u64
    ensures { result ≡ declared_up_to codes (declarations table.now) }
{
    let mut declared = 0;
    for code in 0..u64::from(codes) {
        if table.get(code + 1).is_some() {
            declared += 1;
        }
    }
    declared
}

/// How many of the codes up to `codes` the tables at these offsets declare, over all of them, modulo
/// 2^64. Fails with the first error of a table, in the order of the offsets.
pub fn declared(
    alloc: Global,
    section: EndianSlice<'_, LittleEndian>,
    offsets: &[u32],
    codes: u32,
) -> Result<u64>
    ensures { GivesOrMemory (λ n. n) result
        (declared_in offsets.now codes (little section.entry)) }
{
    let tables = DebugAbbrev::from(section);
    let mut declared = 0u64;
    for offset in offsets {
        let table = tables.abbreviations(alloc, DebugAbbrevOffset(*offset as usize))?;
        declared = declared.wrapping_add(declared_codes(&table, codes));
    }
    Ok(declared)
}
