//! Functions and files at addresses.

ghost use Rattle.std.specs.Prelude.{◌≡◌, option_and_then, option_map};
ghost use Rattle.std.specs.Option.{option_copied};
ghost use Rattle.core_files.specs.FileViews.{mapping_of};
ghost use Rattle.elf_files.specs.SymbolViews.{symbol_seen};
ghost use Rattle.backtrace_text.specs.FrameViews.{location_view, offset_view};
ghost use Rattle.backtrace_files.specs.FileViews.{code_seen, file_seen, files_seen};
ghost use Rattle.backtrace_files.specs.Locations.{debug_symbol, dynamic_symbol, file_at, function_at, function_in, is_mapped, location_of, may_be_code_at, may_have_code, own_symbol, place_in, stated_address, symbol_at, symbol_in};

use crate::code::{LoadedCode, loaded_code};
use crate::loaded_file::LoadedFile;
use backtrace_text::{CodeLocation, NamedOffset};
use core_files::MappedFile;
use elf_files::{ElfFile, Symbol};
use elf_segments::{dynamic_function, has_named_sections};

// Whether an address is mapped from a file.
fn is_mapped(mapping: &MappedFile<'_>, address: u64) -> bool
    ensures { result ≡ is_mapped address (mapping_of mapping.now) }
{
    mapping.start <= address && address < mapping.end
}

// The first file that an address is mapped from.
fn file_at<'a>(files: &[LoadedFile<'a>], address: u64) -> Option<LoadedFile<'a>>
    ensures { option_map file_seen result ≡ file_at (files_seen files.now) address }
{
    for file in files {
        if is_mapped(&file.mapping, address) {
            return Some(*file);
        }
    }
    None
}

// Whether a mapping may have code: the file has code there, or its bytes aren't there.
fn may_have_code(file: &LoadedFile<'_>) -> bool
    ensures { result ≡ may_have_code (file_seen file.now) }
{
    file.bytes.is_none() || loaded_code(file).is_some()
}

/// Whether there may be code at an address, by the first file that it is mapped from: the mapping has code of the file, or the file's
/// bytes aren't there.
pub fn may_be_code_at(files: &[LoadedFile<'_>], address: u64) -> bool
    ensures { result ≡ may_be_code_at (files_seen files.now) address }
{
    match file_at(files, address) {
        Some(file) => may_have_code(&file),
        None => false,
    }
}

// The function of a file at an address of the file, if its symbols can be read and have one.
fn symbol_in<'a>(file: &ElfFile<'a>, address: u64) -> Option<Symbol<'a>>
    ensures { option_map symbol_seen result ≡ symbol_in file.now.bytes.now file.now.header address }
{
    match file.symbol_for_address(address) {
        Ok(symbol) => symbol,
        Err(_) => None,
    }
}

// The same by a debug file with these bytes.
fn debug_symbol<'a>(bytes: &'a [u8], address: u64) -> Option<Symbol<'a>>
    ensures { option_map symbol_seen result ≡ debug_symbol bytes.now address }
{
    match ElfFile::parse(bytes) {
        Ok(file) => symbol_in(&file, address),
        Err(_) => None,
    }
}

// The same by a debug file, if there is one.
fn debug_symbol_if<'a>(debug: Option<&'a [u8]>, address: u64) -> Option<Symbol<'a>>
    ensures { option_map symbol_seen result
        ≡ option_and_then (λ bytes. debug_symbol bytes address) (option_copied debug.entry) }
{
    match debug {
        Some(bytes) => debug_symbol(bytes, address),
        None => None,
    }
}

// The same by the segments of a mapped file without sections whose names can be read.
fn dynamic_symbol<'a>(code: &LoadedCode<'a>, address: u64) -> Option<Symbol<'a>>
    ensures { option_map symbol_seen result ≡ dynamic_symbol (code_seen code.now) address }
{
    if has_named_sections(&code.file) {
        return None;
    }
    let moved = code.base_avma.saturating_sub(code.base_svma);
    dynamic_function(&code.file, moved, address)
}

// The same by a mapped file's own symbols: those of its sections, or if these have none, of its segments.
fn own_symbol<'a>(code: &LoadedCode<'a>, address: u64) -> Option<Symbol<'a>>
    ensures { option_map symbol_seen result ≡ own_symbol (code_seen code.now) address }
{
    match symbol_in(&code.file, address) {
        Some(symbol) => Some(symbol),
        None => dynamic_symbol(code, address),
    }
}

// The function of a file at an address of the file: by its debug file, if there is one that has it, or else by its own symbols.
fn symbol_at<'a>(debug: Option<&'a [u8]>, code: &LoadedCode<'a>, address: u64) -> Option<Symbol<'a>>
    ensures { option_map symbol_seen result
        ≡ symbol_at (option_copied debug.entry) (code_seen code.now) address }
{
    match debug_symbol_if(debug, address) {
        Some(symbol) => Some(symbol),
        None => own_symbol(code, address),
    }
}

// The address in a file of an address in memory, from where the segment with the code begins.
fn stated_address(code: &LoadedCode<'_>, address: u64) -> Option<u64>
    ensures { result ≡ stated_address (code_seen code.now) address }
{
    let relative = address.checked_sub(code.base_avma)?;
    code.base_svma.checked_add(relative)
}

// The function of a file at an address, looked up by another, with the distance from its start.
fn function_in<'a>(
    debug: Option<&'a [u8]>,
    code: &LoadedCode<'a>,
    address: u64,
    lookup: u64,
) -> Option<NamedOffset<'a>>
    ensures { option_map offset_view result
        ≡ function_in (option_copied debug.entry) (code_seen code.now) address lookup }
{
    let stated = stated_address(code, address)?;
    let symbol = symbol_at(debug, code, stated_address(code, lookup)?)?;
    Some(NamedOffset {
        name: symbol.name,
        offset: stated.saturating_sub(symbol.value),
    })
}

// The same of a mapped file.
fn function_at<'a>(file: &LoadedFile<'a>, address: u64, lookup: u64) -> Option<NamedOffset<'a>>
    ensures { option_map offset_view result ≡ function_at (file_seen file.now) address lookup }
{
    match loaded_code(file) {
        Some(code) => function_in(file.debug, &code, address, lookup),
        None => None,
    }
}

// The place of an address in a mapped file.
fn place_in<'a>(mapping: &MappedFile<'a>, address: u64) -> NamedOffset<'a>
    ensures { offset_view result ≡ place_in (mapping_of mapping.now) address }
{
    NamedOffset {
        name: mapping.name,
        offset: address
            .saturating_sub(mapping.start)
            .saturating_add(mapping.offset),
    }
}

/// Where the code at an address is, by the first file that has another address mapped, by which it is looked up: the function, if the
/// file's symbols have one, and the file, with the offsets of the address in them.
pub fn location_of<'a>(files: &[LoadedFile<'a>], address: u64, lookup: u64) -> CodeLocation<'a>
    ensures { location_view result ≡ location_of (files_seen files.now) address lookup }
{
    match file_at(files, lookup) {
        Some(file) => CodeLocation::Code {
            address,
            function: function_at(&file, address, lookup),
            file: Some(place_in(&file.mapping, address)),
        },
        None => CodeLocation::Code {
            address,
            function: None,
            file: None,
        },
    }
}
