//! Functions in the order in which they are looked through.

ghost use Rattle.std.specs.Prelude.{◌≡◌, ◌≤◌, ◌+◌, ◌*◌, ◌++◌, length, take, drop, option_map, position, ◌==◌, IfOk, OnOk};
ghost use Rattle.std.specs.List.Sorted.{IsNonDecreasingBy};
ghost use Rattle.std.specs.Option.{option_copied};
ghost use Rattle.elf_segments.specs.DynamicFunctions.{name_at};
ghost use Rattle.function_index.specs.Functions.{AreInOrder, all_ranked, has_address, last_at, name_or_empty, ranked, ranked_at, reaches_from};
ghost use Rattle.function_index.specs.TableViews.{symbols_seen};

use crate::entries::{ENTRY_SIZE, FunctionEntry, function_at, preference};
use crate::tables::SymbolBytes;
use std::alloc::{AllocError, Global};

/// A function, and how much it is preferred to those that begin where it does.
#[derive(Clone, Copy, Debug)]
pub(crate) struct RankedFunction {
    /// The function.
    pub(crate) entry: FunctionEntry,
    /// The greater, the more.
    pub(crate) preference: u64,
}

// The bytes after the first ones, none past the end.
fn bytes_after(bytes: &[u8], size: u64) -> &[u8]
    ensures { result.now ≡ drop size bytes.now }
{
    &bytes[size.min(bytes.len() as u64) as usize..]
}

// Where the first 0 of some bytes is.
fn first_zero(bytes: &[u8]) -> Option<usize>
    ensures { result ≡ position (λ byte. byte == 0) bytes.now }
{
    bytes.iter().position(|byte| *byte == 0)
}

/// The name at an offset of strings.
pub(crate) fn name_in(strings: &[u8], offset: u32) -> Option<&[u8]>
    ensures { option_copied result ≡ name_at strings.now offset }
{
    let bytes = bytes_after(strings, u64::from(offset));
    match first_zero(bytes) {
        Some(size) => Some(&bytes[..size]),
        None => None,
    }
}

// The same, empty if it can't be read.
fn name_or_empty(strings: &[u8], offset: u32) -> &[u8]
    ensures { result.now ≡ name_or_empty strings.now offset }
{
    match name_in(strings, offset) {
        Some(name) => name,
        None => &[],
    }
}

// A function with a name among these strings, and how much it is preferred.
fn ranked(strings: &[u8], entry: FunctionEntry) -> RankedFunction
    ensures { result ≡ ranked strings.now entry }
{
    RankedFunction {
        entry,
        preference: preference(entry.binding, name_or_empty(strings, entry.name_offset)),
    }
}

// Adds the function of the symbol with an index, if it is one.
fn push_function(
    functions: &mut Vec<RankedFunction>,
    symbols: &SymbolBytes<'_>,
    index: usize,
) -> Result<(), AllocError>
    requires { 24 * index + 24 ≤ length symbols.now.table.now }
    ensures { OnOk result (functions.new.items
        ≡ functions.old.items ++ ranked_at (symbols_seen symbols.now) index) }
{
    let Some(entry) = function_at(symbols.table, ENTRY_SIZE * index) else {
        return Ok(());
    };
    functions.push(ranked(symbols.strings, entry))?;
    Ok(())
}

// The functions of all symbols, the last first.
fn all_ranked(alloc: Global, symbols: &SymbolBytes<'_>) -> Result<Vec<RankedFunction>, AllocError>
    ensures { IfOk result (λ functions. functions.items ≡ all_ranked (symbols_seen symbols.now)) }
{
    let mut left = symbols.table.len() / ENTRY_SIZE;
    let mut functions = Vec::with_capacity(alloc, left)?;
    'symbols: while left > 0 {
        left -= 1;
        push_function(&mut functions, symbols, left)?;
    }
    Ok(functions)
}

// Functions in order.
fn in_order(mut functions: Vec<RankedFunction>) -> Result<Vec<RankedFunction>, AllocError>
    ensures { IfOk result (λ ordered. AreInOrder functions.items ordered.items) }
{
    functions.sort_by_key(|function| (function.entry.first, function.preference))?;
    Ok(functions)
}

/// The functions of symbols, in order.
pub(crate) fn ordered_functions(
    alloc: Global,
    symbols: &SymbolBytes<'_>,
) -> Result<Vec<RankedFunction>, AllocError>
    ensures { IfOk result (λ ordered. AreInOrder (all_ranked (symbols_seen symbols.now)) ordered.items) }
{
    let functions = all_ranked(alloc, symbols)?;
    in_order(functions)
}

/// For each function the greatest of the last addresses up to it.
pub(crate) fn reaches_of(
    alloc: Global,
    functions: &[RankedFunction],
) -> Result<Vec<u64>, AllocError>
    ensures { IfOk result (λ reaches. reaches.items ≡ reaches_from 0 functions.now) }
{
    let mut reaches = Vec::with_capacity(alloc, functions.len())?;
    let mut reach = 0;
    for function in functions {
        reach = reach.max(function.entry.last);
        reaches.push(reach)?;
    }
    Ok(reaches)
}

// Whether a function contains an address.
fn has_address(function: &RankedFunction, address: u64) -> bool
    ensures { result ≡ has_address address function.now }
{
    function.entry.first <= address && address <= function.entry.last
}

// The last of the first functions that contains an address.
#[tactic(auto, using(crate::proofs::Reaches::length_reaches))]
fn last_among(
    functions: &[RankedFunction],
    reaches: &[u64],
    count: usize,
    address: u64,
) -> Option<RankedFunction>
    requires count { count ≤ length functions.now }
    requires reaches { reaches.now ≡ reaches_from 0 functions.now }
    ensures { result ≡ last_at address (take count functions.now) }
{
    let mut left = count;
    'functions: while left > 0 {
        let at = left - 1;
        if reaches[at] < address {
            return None;
        }
        let function = functions[at];
        if has_address(&function, address) {
            return Some(function);
        }
        left = at;
    }
    None
}

/// The last function that contains an address, of functions in the order of their first addresses.
pub(crate) fn function_among(
    functions: &[RankedFunction],
    reaches: &[u64],
    address: u64,
) -> Option<RankedFunction>
    requires rises { IsNonDecreasingBy (λ function. function.entry.first) functions.now }
    requires reaches { reaches.now ≡ reaches_from 0 functions.now }
    ensures { result ≡ last_at address functions.now }
{
    let count = functions.partition_point(|function| function.entry.first <= address);
    last_among(functions, reaches, count, address)
}
