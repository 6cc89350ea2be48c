//! The functions of a kernel.

ghost use Rattle.std.specs.Prelude.{◌≡◌, ◌++◌, [], IfOk, OnOk, map, option_map};
ghost use Rattle.std.specs.List.Sorted.{IsNonDecreasingBy};
ghost use Rattle.std.specs.Option.{option_copied, option_to_list};
ghost use Rattle.kernel_symbols.specs.Lines.{symbol_in, symbols_of};
ghost use Rattle.kernel_symbols.specs.LineViews.{symbol_seen};
ghost use Rattle.kernel_symbols.specs.Symbols.{AreInOrder, name_by, symbol_at};

use crate::lines::{KernelSymbol, before_byte, first_line, symbol_in};
use std::alloc::{AllocError, Global};
use std::marker::Model;

/// The functions of a kernel, by their addresses.
#[derive(Debug, Drop)]
pub struct KernelSymbols<'a> {
    symbols: Vec<KernelSymbol<'a>>,
}

/// They are symbols in the order of their addresses.
impl<'a> Model for KernelSymbols<'a> {
    ghost use Rattle.std.specs.Prelude.{List, map};
    ghost use Rattle.std.specs.List.Sorted.{IsNonDecreasingBy};
    ghost use Rattle.kernel_symbols.specs.Lines.{SymbolParts};
    ghost use Rattle.kernel_symbols.specs.LineViews.{symbol_seen};

    ghost Value = { List SymbolParts };

    ghost view = { λ kernel. map symbol_seen kernel.symbols.items };

    ghost invariant = { λ kernel. IsNonDecreasingBy (λ symbol. symbol.address) kernel.symbols.items };
}

// How long a line mostly is, at least: for so many there is room from the start.
const USUAL_LINE: usize = 40;

// Adds the symbol in a line, if there is one.
fn push_symbol<'a>(found: &mut Vec<KernelSymbol<'a>>, line: &'a [u8]) -> Result<(), AllocError>
    ensures { OnOk result (map symbol_seen found.new.items
        ≡ map symbol_seen found.old.items ++ option_to_list (symbol_in line.now)) }
{
    if let Some(symbol) = symbol_in(line) {
        found.push(symbol)?;
    }
    Ok(())
}

// The symbols of a list, in its order.
fn symbols_of<'a>(alloc: Global, list: &'a [u8]) -> Result<Vec<KernelSymbol<'a>>, AllocError>
    ensures { IfOk result (λ symbols. map symbol_seen symbols.items ≡ symbols_of list.now) }
{
    let mut symbols = Vec::with_capacity(alloc, list.len() / USUAL_LINE)?;
    let mut rest = list;
    'lines: while !rest.is_empty() {
        let line = first_line(rest);
        push_symbol(&mut symbols, line.bytes)?;
        rest = line.rest;
    }
    Ok(symbols)
}

// Symbols in the order of their addresses.
fn in_order<'a>(mut symbols: Vec<KernelSymbol<'a>>) -> Result<Vec<KernelSymbol<'a>>, AllocError>
    ensures rising { IfOk result (λ ordered. IsNonDecreasingBy (λ symbol. symbol.address) ordered.items) }
    ensures same { IfOk result (λ ordered.
        AreInOrder (map symbol_seen symbols.entry.items) (map symbol_seen ordered.items)) }
{
    symbols.sort_by_key(|symbol| symbol.address)?;
    Ok(symbols)
}

// The last symbol that begins at an address or before it.
fn symbol_among<'a>(symbols: &[KernelSymbol<'a>], address: u64) -> Option<KernelSymbol<'a>>
    requires { IsNonDecreasingBy (λ symbol. symbol.address) symbols.now }
    ensures { option_map symbol_seen result ≡ symbol_at address (map symbol_seen symbols.now) }
{
    let count = symbols.partition_point(|symbol| symbol.address <= address);
    if count == 0 {
        return None;
    }
    Some(symbols[count - 1])
}

impl<'a> KernelSymbols<'a> {
    /// No functions.
    pub fn empty(alloc: Global) -> Self
        ensures { result ≡ [] }
    {
        KernelSymbols {
            symbols: Vec::new(alloc),
        }
    }

    /// The functions that a list has, a line for each (`symbols_of` in specs): other lines are passed over. Fails if memory is refused.
    pub fn new(alloc: Global, list: &'a [u8]) -> Result<Self, AllocError>
        ensures { IfOk result (AreInOrder (symbols_of list.now)) }
    {
        let symbols = symbols_of(alloc, list)?;
        let ordered = in_order(symbols)?;
        Ok(KernelSymbols { symbols: ordered })
    }

    /// The name of the last function that begins at an address or before it.
    pub fn name_at(&self, address: u64) -> Option<&'a [u8]>
        ensures { option_copied result ≡ name_by self.now address }
    {
        match symbol_among(self.symbols.as_slice(), address) {
            Some(symbol) => Some(before_byte(symbol.name, b'\t')),
            None => None,
        }
    }
}
