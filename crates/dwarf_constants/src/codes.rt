//! The types of DWARF's codes of which no value is named here.

/// A unit's kind (DWARF 5, 7.5.1).
#[derive(Debug, Clone, Copy, PartialEq, Eq, PartialOrd, Ord, Hash)]
pub struct DwUt(pub u8);

/// The encoding of a base type (DWARF 5, 7.8).
#[derive(Debug, Clone, Copy, PartialEq, Eq, PartialOrd, Ord, Hash)]
pub struct DwAte(pub u8);

/// A decimal type's sign (DWARF 5, 7.8).
#[derive(Debug, Clone, Copy, PartialEq, Eq, PartialOrd, Ord, Hash)]
pub struct DwDs(pub u8);

/// A value's byte order (DWARF 5, 7.8).
#[derive(Debug, Clone, Copy, PartialEq, Eq, PartialOrd, Ord, Hash)]
pub struct DwEnd(pub u8);

/// An accessibility (DWARF 5, 7.9).
#[derive(Debug, Clone, Copy, PartialEq, Eq, PartialOrd, Ord, Hash)]
pub struct DwAccess(pub u8);

/// A visibility (DWARF 5, 7.10).
#[derive(Debug, Clone, Copy, PartialEq, Eq, PartialOrd, Ord, Hash)]
pub struct DwVis(pub u8);

/// A virtuality (DWARF 5, 7.11).
#[derive(Debug, Clone, Copy, PartialEq, Eq, PartialOrd, Ord, Hash)]
pub struct DwVirtuality(pub u8);

/// A source language (DWARF 5, 7.12).
#[derive(Debug, Clone, Copy, PartialEq, Eq, PartialOrd, Ord, Hash)]
pub struct DwLang(pub u16);

/// An address class (DWARF 5, 7.13).
#[derive(Debug, Clone, Copy, PartialEq, Eq, PartialOrd, Ord, Hash)]
pub struct DwAddr(pub u64);

/// The case of identifiers (DWARF 5, 7.14).
#[derive(Debug, Clone, Copy, PartialEq, Eq, PartialOrd, Ord, Hash)]
pub struct DwId(pub u8);

/// A calling convention (DWARF 5, 7.15).
#[derive(Debug, Clone, Copy, PartialEq, Eq, PartialOrd, Ord, Hash)]
pub struct DwCc(pub u8);

/// Whether a function was inlined (DWARF 5, 7.16).
#[derive(Debug, Clone, Copy, PartialEq, Eq, PartialOrd, Ord, Hash)]
pub struct DwInl(pub u8);

/// An array's order of elements (DWARF 5, 7.17).
#[derive(Debug, Clone, Copy, PartialEq, Eq, PartialOrd, Ord, Hash)]
pub struct DwOrd(pub u8);

/// The kind of a discriminant (DWARF 5, 7.18).
#[derive(Debug, Clone, Copy, PartialEq, Eq, PartialOrd, Ord, Hash)]
pub struct DwDsc(pub u8);

/// An attribute of a name index (DWARF 5, 7.19).
#[derive(Debug, Clone, Copy, PartialEq, Eq, PartialOrd, Ord, Hash)]
pub struct DwIdx(pub u16);

/// Where a member function is defaulted (DWARF 5, 7.20).
#[derive(Debug, Clone, Copy, PartialEq, Eq, PartialOrd, Ord, Hash)]
pub struct DwDefaulted(pub u8);

/// A standard opcode of line programs (DWARF 5, 7.22).
#[derive(Debug, Clone, Copy, PartialEq, Eq, PartialOrd, Ord, Hash)]
pub struct DwLns(pub u8);

/// An extended opcode of line programs (DWARF 5, 7.22).
#[derive(Debug, Clone, Copy, PartialEq, Eq, PartialOrd, Ord, Hash)]
pub struct DwLne(pub u8);

/// The content of a file entry of a line program (DWARF 5, 7.22).
#[derive(Debug, Clone, Copy, PartialEq, Eq, PartialOrd, Ord, Hash)]
pub struct DwLnct(pub u16);

/// A macro entry of `.debug_macinfo` (DWARF 4, 7.22).
#[derive(Debug, Clone, Copy, PartialEq, Eq, PartialOrd, Ord, Hash)]
pub struct DwMacinfo(pub u8);

/// A macro entry of `.debug_macro` (DWARF 5, 7.23).
#[derive(Debug, Clone, Copy, PartialEq, Eq, PartialOrd, Ord, Hash)]
pub struct DwMacro(pub u8);

/// A range list entry (DWARF 5, 7.25).
#[derive(Debug, Clone, Copy, PartialEq, Eq, PartialOrd, Ord, Hash)]
pub struct DwRle(pub u8);

/// A location list entry (DWARF 5, 7.7.3).
#[derive(Debug, Clone, Copy, PartialEq, Eq, PartialOrd, Ord, Hash)]
pub struct DwLle(pub u8);

/// A section's number in a package file's index (DWARF 5, 7.3.5.3).
#[derive(Debug, Clone, Copy, PartialEq, Eq, PartialOrd, Ord, Hash)]
pub struct DwSect(pub u32);

/// A section's number in a package file's index of version 2, as GNU made it before DWARF 5.
#[derive(Debug, Clone, Copy, PartialEq, Eq, PartialOrd, Ord, Hash)]
pub struct DwSectV2(pub u32);
