//! The functions of a file by their addresses.

ghost use Rattle.std.specs.Prelude.{◌≡◌, IfOk};
ghost use Rattle.std.specs.Option.{option_copied};
ghost use Rattle.function_index.specs.Indexes.{AreFunctionsIf, name_by, no_functions};
ghost use Rattle.function_index.specs.Tables.{symbols_of};

use crate::functions::{RankedFunction, function_among, name_in, ordered_functions, reaches_of};
use crate::tables::symbols_of;
use elf_files::ElfFile;
use std::alloc::{AllocError, Global};
use std::marker::Model;

/// The functions of a file, by their first addresses.
#[derive(Debug, Drop)]
pub struct FunctionIndex<'a> {
    functions: Vec<RankedFunction>,
    // For each function the greatest of its last address and those of the functions before it.
    reaches: Vec<u64>,
    strings: &'a [u8],
}

/// It is the functions in order, and the strings in which their names are.
impl<'a> Model for FunctionIndex<'a> {
    ghost use Rattle.std.specs.Prelude.{◌≡◌};
    ghost use Rattle.std.specs.List.Sorted.{IsNonDecreasingBy};
    ghost use Rattle.function_index.specs.Functions.{reaches_from};
    ghost use Rattle.function_index.specs.Indexes.{OrderedFunctions};

    ghost Value = { OrderedFunctions };

    ghost view = { λ index. record { functions = index.functions.items; strings = index.strings.now } };

    ghost invariant = { λ index. IsNonDecreasingBy (λ function. function.entry.first) index.functions.items
        × (index.reaches.items ≡ reaches_from 0 index.functions.items) };
}

impl<'a> FunctionIndex<'a> {
    /// No functions.
    pub fn empty(alloc: Global) -> Self
        ensures { result ≡ no_functions }
    {
        FunctionIndex {
            functions: Vec::new(alloc),
            reaches: Vec::new(alloc),
            strings: &[],
        }
    }

    /// The functions of a file by its symbols (`symbols_of` in specs): none if they can't be read.
    pub fn new(alloc: Global, file: &ElfFile<'a>) -> Result<Self, AllocError>
        ensures { IfOk result (AreFunctionsIf (symbols_of file.now.bytes.now file.now.header)) }
    {
        let Some(symbols) = symbols_of(file) else {
            return Ok(FunctionIndex::empty(alloc));
        };
        let functions = ordered_functions(alloc, &symbols)?;
        let reaches = reaches_of(alloc, functions.as_slice())?;
        Ok(FunctionIndex {
            functions,
            reaches,
            strings: symbols.strings,
        })
    }

    /// The name of the function at an address of the file: of those that contain it one that begins last, of these the one that is
    /// preferred, and of these the first in the table. None if there is none, or if its name can't be read.
    pub fn name_at(&self, address: u64) -> Option<&'a [u8]>
        ensures { option_copied result ≡ name_by self.now address }
    {
        match function_among(self.functions.as_slice(), self.reaches.as_slice(), address) {
            Some(function) => name_in(self.strings, function.entry.name_offset),
            None => None,
        }
    }
}
