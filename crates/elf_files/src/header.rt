//! The ELF header.

ghost use Rattle.std.specs.Prelude.{◌≡◌, ◌≤◌, ◌+◌, length, IfOk, Ok};
ghost use Rattle.elf_files.specs.Header.{machine_of, file_kind, if_identified, if_sized, initial_section, segment_count, section_count, names_index, header_of, header_on};

use crate::bytes::{is_within, u16_at, u32_at, u64_at};
use crate::error::ElfError;

/// A machine that files are read of.
#[derive(Debug, Clone, Copy, PartialEq, Eq)]
pub enum Machine {
    /// `EM_X86_64`.
    X86_64,
    /// `EM_AARCH64`.
    Aarch64,
}

/// What a file is (`e_type`).
#[derive(Debug, Clone, Copy, PartialEq, Eq)]
pub enum FileKind {
    /// `ET_REL`.
    Relocatable,
    /// `ET_EXEC`.
    Executable,
    /// `ET_DYN`, a shared library or an executable at any address.
    SharedObject,
    /// `ET_CORE`.
    Core,
    /// Any other number.
    Other(u16),
}

/// What the ELF header says (`Elf64_Ehdr`), with the counts that only the section header at index 0 has.
#[derive(Debug, Clone, Copy, PartialEq, Eq)]
pub struct Header {
    /// The machine.
    pub machine: Machine,
    /// What the file is.
    pub kind: FileKind,
    /// The address where the program starts.
    pub entry: u64,
    /// The offset of the program headers.
    pub segment_table: u64,
    /// How many there are.
    pub segment_count: u32,
    /// The offset of the section headers.
    pub section_table: u64,
    /// How many there are.
    pub section_count: u64,
    /// The index of the section with the names of sections.
    pub names_index: u32,
}

// What a file begins with.
const MAGIC: [u8; 4] = [0x7f, 0x45, 0x4c, 0x46];

const HEADER_SIZE: usize = 64;

const CLASS_64: u8 = 2;

const LEAST_SIGNIFICANT_FIRST: u8 = 1;

const CURRENT_VERSION: u8 = 1;

const SEGMENT_HEADER_SIZE: u16 = 56;

const SECTION_HEADER_SIZE: u16 = 64;

// The counts that say that the section header at index 0 has the number.
const MORE_SEGMENTS: u16 = 0xffff;

const NAMES_ELSEWHERE: u16 = 0xffff;

// Whether the header is whole, of the class, the byte order and the versions that are read.
fn check_identification(bytes: &[u8]) -> Result<(), ElfError>
    ensures check { result ≡ if_identified bytes.now (Ok tt) }
    ensures whole { IfOk result (λ _. 64 ≤ length bytes.now) }
{
    if !bytes.starts_with(&MAGIC) {
        return Err(ElfError::NotElf { offset: 0 });
    }
    if bytes.len() < HEADER_SIZE {
        return Err(ElfError::Truncated { offset: 0 });
    }
    if bytes[4] != CLASS_64 {
        return Err(ElfError::UnsupportedClass { offset: 4 });
    }
    if bytes[5] != LEAST_SIGNIFICANT_FIRST {
        return Err(ElfError::UnsupportedByteOrder { offset: 5 });
    }
    if bytes[6] != CURRENT_VERSION {
        return Err(ElfError::UnsupportedVersion { offset: 6 });
    }
    if u32_at(bytes, 20) != u32::from(CURRENT_VERSION) {
        return Err(ElfError::UnsupportedVersion { offset: 20 });
    }
    Ok(())
}

// The machine of a number (e_machine).
fn machine_of(number: u16) -> Result<Machine, ElfError>
    ensures { result ≡ machine_of number }
{
    match number {
        62 => Ok(Machine::X86_64),
        183 => Ok(Machine::Aarch64),
        _ => Err(ElfError::UnsupportedMachine { offset: 18 }),
    }
}

// What a file is, by a number (e_type).
fn file_kind(number: u16) -> FileKind
    ensures { result ≡ file_kind number }
{
    match number {
        1 => FileKind::Relocatable,
        2 => FileKind::Executable,
        3 => FileKind::SharedObject,
        4 => FileKind::Core,
        number => FileKind::Other(number),
    }
}

// Whether the entries of both tables have the sizes of the standard.
fn check_entry_sizes(bytes: &[u8]) -> Result<(), ElfError>
    requires { 64 ≤ length bytes.now }
    ensures { result ≡ if_sized bytes.now (Ok tt) }
{
    if u64_at(bytes, 32) != 0 && u16_at(bytes, 54) != SEGMENT_HEADER_SIZE {
        return Err(ElfError::BadEntrySize { offset: 54 });
    }
    if u64_at(bytes, 40) != 0 && u16_at(bytes, 58) != SECTION_HEADER_SIZE {
        return Err(ElfError::BadEntrySize { offset: 58 });
    }
    Ok(())
}

// Where the section header at index 0 is, for a member of the header that needs it.
fn initial_section(bytes: &[u8], member: u64) -> Result<usize, ElfError>
    requires { 64 ≤ length bytes.now }
    ensures offset { result ≡ initial_section bytes.now member }
    ensures whole { IfOk result (λ offset. offset + 64 ≤ length bytes.now) }
{
    let offset = u64_at(bytes, 40);
    if offset == 0 {
        return Err(ElfError::NoInitialSection { offset: member });
    }
    if !is_within(bytes, offset, 64) {
        return Err(ElfError::Truncated { offset });
    }
    Ok(offset as usize)
}

// How many program headers there are.
fn segment_count(bytes: &[u8]) -> Result<u32, ElfError>
    requires { 64 ≤ length bytes.now }
    ensures { result ≡ segment_count bytes.now }
{
    if u64_at(bytes, 32) == 0 {
        return Ok(0);
    }
    match u16_at(bytes, 56) {
        MORE_SEGMENTS => Ok(u32_at(bytes, initial_section(bytes, 56)? + 44)),
        count => Ok(u32::from(count)),
    }
}

// How many section headers there are.
fn section_count(bytes: &[u8]) -> Result<u64, ElfError>
    requires { 64 ≤ length bytes.now }
    ensures { result ≡ section_count bytes.now }
{
    if u64_at(bytes, 40) == 0 {
        return Ok(0);
    }
    match u16_at(bytes, 60) {
        0 => Ok(u64_at(bytes, initial_section(bytes, 60)? + 32)),
        count => Ok(u64::from(count)),
    }
}

// The index of the section with the names of sections.
fn names_index(bytes: &[u8]) -> Result<u32, ElfError>
    requires { 64 ≤ length bytes.now }
    ensures { result ≡ names_index bytes.now }
{
    match u16_at(bytes, 62) {
        NAMES_ELSEWHERE => Ok(u32_at(bytes, initial_section(bytes, 62)? + 40)),
        index => Ok(u32::from(index)),
    }
}

// The header of a file on a machine.
fn header_on(bytes: &[u8], machine: Machine) -> Result<Header, ElfError>
    requires { 64 ≤ length bytes.now }
    ensures { result ≡ header_on bytes.now machine }
{
    let segment_count = segment_count(bytes)?;
    let section_count = section_count(bytes)?;
    let names_index = names_index(bytes)?;
    Ok(Header {
        machine,
        kind: file_kind(u16_at(bytes, 16)),
        entry: u64_at(bytes, 24),
        segment_table: u64_at(bytes, 32),
        segment_count,
        section_table: u64_at(bytes, 40),
        section_count,
        names_index,
    })
}

// The header of a file.
#[tactic(auto, unfolding(crate::specs::Header::header_of))]
pub(crate) fn read_header(bytes: &[u8]) -> Result<Header, ElfError>
    ensures { result ≡ header_of bytes.now }
{
    check_identification(bytes)?;
    let machine = machine_of(u16_at(bytes, 18))?;
    check_entry_sizes(bytes)?;
    header_on(bytes, machine)
}
