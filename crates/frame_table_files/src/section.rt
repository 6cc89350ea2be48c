//! The section that is listed of a file.

ghost use Rattle.std.specs.Prelude.{◌≡◌, IfOk, IfErr, Ok, Err};
ghost use Rattle.std.specs.Option.{option_map};
ghost use Rattle.frame_table_files.specs.FileSections.{address_of, bases_of, missing, read_section, section_in, section_of_file, section_sought, with_bits};
ghost use Rattle.frame_table_files.specs.SectionViews.{section_seen};

use crate::error::FileError;
use crate::section_name::SectionName;
use dwarf_frame_rows::{BaseAddresses, SectionBaseAddresses};
use elf_files::{ElfError, ElfFile, Machine, Section, SectionKind};

/// A section of call frames of a file.
#[derive(Debug, Clone, Copy, PartialEq, Eq)]
pub struct FileSection<'a> {
    /// Which one it is.
    pub name: SectionName,
    /// The machine of the file.
    pub machine: Machine,
    /// What its pointers are relative to: the address of the section itself, and those of `.text` and `.got` if they are there.
    pub bases: BaseAddresses,
    /// Its bytes.
    pub bytes: &'a [u8],
}

// A section, if it has bytes in the file.
fn with_bits(found: Option<Section>) -> Option<Section>
    ensures { result ≡ with_bits found }
{
    match found {
        Some(section) if !matches!(section.kind, SectionKind::NoBits) => Some(section),
        _ => None,
    }
}

// The address of the first section with a name.
fn address_of(file: &ElfFile<'_>, name: &[u8]) -> Result<Option<u64>, ElfError>
    ensures { result ≡ address_of file.now.bytes.now file.now.header name.now }
{
    match file.section_named(name)? {
        Some(section) => Ok(Some(section.address)),
        None => Ok(None),
    }
}

// What the pointers of a section are relative to.
fn bases_of(file: &ElfFile<'_>, section: &Section) -> Result<BaseAddresses, ElfError>
    ensures { result ≡ bases_of file.now.bytes.now file.now.header section.now }
{
    let text = address_of(file, b".text")?;
    let data_base = address_of(file, b".got")?;
    let none = SectionBaseAddresses {
        section: None,
        text: None,
        data_base: None,
    };
    Ok(BaseAddresses {
        eh_frame_hdr: none,
        eh_frame: SectionBaseAddresses {
            section: Some(section.address),
            text,
            data_base,
        },
    })
}

// The section with a name, if it is there with bytes.
fn section_in<'a>(
    file: &ElfFile<'a>,
    name: SectionName,
) -> Result<Option<FileSection<'a>>, ElfError>
    ensures ok { IfOk result (λ found. section_in file.now.bytes.now file.now.header name
        ≡ Ok (option_map section_seen found)) }
    ensures err { IfErr result (λ e. section_in file.now.bytes.now file.now.header name ≡ Err e) }
{
    let Some(section) = with_bits(file.section_named(name.text().as_bytes())?) else {
        return Ok(None);
    };
    let bases = bases_of(file, &section)?;
    let bytes = file.section_bytes(&section)?;
    Ok(Some(FileSection {
        name,
        machine: file.machine(),
        bases,
        bytes,
    }))
}

// The section with a name, or else the one that is there.
fn section_sought<'a>(
    file: &ElfFile<'a>,
    name: Option<SectionName>,
) -> Result<Option<FileSection<'a>>, ElfError>
    ensures ok { IfOk result (λ found. section_sought file.now.bytes.now file.now.header name
        ≡ Ok (option_map section_seen found)) }
    ensures err { IfErr result (λ e. section_sought file.now.bytes.now file.now.header name ≡ Err e) }
{
    match name {
        Some(name) => section_in(file, name),
        None => match section_in(file, SectionName::EhFrame)? {
            Some(found) => Ok(Some(found)),
            None => section_in(file, SectionName::DebugFrame),
        },
    }
}

// The section of the file with these bytes.
fn read_section<'a>(
    bytes: &'a [u8],
    name: Option<SectionName>,
) -> Result<Option<FileSection<'a>>, ElfError>
    ensures ok { IfOk result (λ found. read_section bytes.now name ≡ Ok (option_map section_seen found)) }
    ensures err { IfErr result (λ e. read_section bytes.now name ≡ Err e) }
{
    let file = ElfFile::parse(bytes)?;
    section_sought(&file, name)
}

// Which section is missing.
fn missing(name: Option<SectionName>) -> FileError
    ensures { result ≡ missing name }
{
    match name {
        Some(name) => FileError::NoSection(name),
        None => FileError::NoCallFrames,
    }
}

/// The section of call frames of the file with these bytes: the one with a name, or without one `.eh_frame`, or else
/// `.debug_frame`. One that has no bytes in the file isn't there.
#[tactic(auto, unfolding(crate::specs::FileSections::section_of_file))]
pub fn section_of_file<'a>(
    bytes: &'a [u8],
    name: Option<SectionName>,
) -> Result<FileSection<'a>, FileError>
    ensures ok { IfOk result (λ found. section_of_file name bytes.now ≡ Ok (section_seen found)) }
    ensures err { IfErr result (λ e. section_of_file name bytes.now ≡ Err e) }
{
    match read_section(bytes, name) {
        Ok(Some(section)) => Ok(section),
        Ok(None) => Err(missing(name)),
        Err(error) => Err(FileError::Elf(error)),
    }
}
