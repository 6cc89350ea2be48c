//! The names of frames by their numbers, and those of functions by their symbols.

ghost use Rattle.std.specs.Prelude.{◌≡◌, [], IfOk};
ghost use Rattle.std.specs.Option.{option_copied};
ghost use Rattle.fold_stacks.specs.FrameNames.{HasName, address_text, kernel_symbol_text};
ghost use Rattle.fold_stacks.specs.FrameTexts.{function_text, unknown_text};
ghost use Rattle.fold_stacks.specs.Kept.{KeepsNumbers};

use crate::names::{UNKNOWN, push_function, push_unknown_in};
use folded_stacks::{FrameNames, push_address, push_kernel_name};
use std::alloc::{AllocError, Global};
use std::collections::HashMap;
use std::marker::Model;

/// The names of frames by their numbers, and those of functions by their symbols.
#[derive(Drop)]
pub(crate) struct NameTable {
    names: FrameNames,
    // The numbers of the names of functions, by their symbols: a function is at many places.
    symbols: HashMap<Vec<u8>, u32>,
}

/// A clause sees the names. Each number of a symbol is that of its function's name.
impl Model for NameTable {
    ghost use Rattle.std.specs.Prelude.{ℕ, List};
    ghost use Rattle.fold_stacks.specs.Symbols.{SymbolsAreNamed};

    ghost Value = { List (List ℕ) };

    ghost view = { λ table. table.names };

    ghost invariant = { λ table. SymbolsAreNamed table.names table.symbols.entries };
}

impl NameTable {
    /// No names.
    pub(crate) fn new(alloc: Global) -> Self
        ensures { result ≡ [] }
    {
        NameTable {
            names: FrameNames::new(alloc),
            symbols: HashMap::new(alloc),
        }
    }

    /// The names.
    pub(crate) fn names(&self) -> &FrameNames
        ensures { result.now ≡ self.now }
    {
        &self.names
    }

    /// The number of a name, which gets the next one if it is new.
    pub(crate) fn number_of(&mut self, text: &[u8]) -> Result<u32, AllocError>
        ensures number { IfOk result (λ number. HasName self.new number text.now) }
        ensures kept { KeepsNumbers self.old self.new }
    {
        self.names.number_of(text)
    }

    /// The number of the name of a function by its symbol.
    pub(crate) fn number_of_symbol(
        &mut self,
        alloc: Global,
        symbol: &[u8],
    ) -> Result<u32, AllocError>
        ensures number { IfOk result (λ number. HasName self.new number (function_text symbol.now)) }
        ensures kept { KeepsNumbers self.old self.new }
    {
        if let Some(number) = self.symbols.get(symbol).copied() {
            return Ok(number);
        }
        let key = symbol.to_vec(alloc)?;
        let mut text = Vec::new(alloc);
        push_function(alloc, &mut text, symbol)?;
        let number = self.number_of(text.as_slice())?;
        self.symbols.insert(key, number)?;
        Ok(number)
    }

    /// The number of the name of a function that isn't known, in a file of this name.
    pub(crate) fn number_of_unknown(
        &mut self,
        alloc: Global,
        file: &[u8],
    ) -> Result<u32, AllocError>
        ensures number { IfOk result (λ number. HasName self.new number (unknown_text file.now)) }
        ensures kept { KeepsNumbers self.old self.new }
    {
        let mut text = Vec::new(alloc);
        push_unknown_in(alloc, &mut text, file)?;
        self.number_of(text.as_slice())
    }

    /// The number of the name of a frame of the kernel, by its symbol if there is one.
    pub(crate) fn number_of_kernel(
        &mut self,
        alloc: Global,
        symbol: Option<&[u8]>,
    ) -> Result<u32, AllocError>
        ensures number { IfOk result (λ number. HasName self.new number (kernel_symbol_text (option_copied symbol.entry))) }
        ensures kept { KeepsNumbers self.old self.new }
    {
        let Some(symbol) = symbol else {
            return self.number_of_unknown(alloc, UNKNOWN);
        };
        let mut text = Vec::new(alloc);
        push_kernel_name(&mut text, symbol)?;
        self.number_of(text.as_slice())
    }

    /// The number of an address as a name.
    pub(crate) fn number_of_address(
        &mut self,
        alloc: Global,
        address: u64,
    ) -> Result<u32, AllocError>
        ensures number { IfOk result (λ number. HasName self.new number (address_text address)) }
        ensures kept { KeepsNumbers self.old self.new }
    {
        let mut text = Vec::new(alloc);
        push_address(alloc, &mut text, address)?;
        self.number_of(text.as_slice())
    }
}
