//! `.debug_abbrev` (DWARF 5, 7.5.3).

ghost use Rattle.std.specs.Prelude.{◌≡◌, ◌≤◌, ◌<◌, ◌+◌, ◌-◌, ◌==◌, ◌↔◌, ◌⊎◌, [], ℕ, false, if◌then◌else◌, IsSome, Some, None, Ok, Err, IfOk, IfErr, OnErr, OnOk, length, map, option_map};
ghost use Rattle.std.specs.BTreeMap.{get};
ghost use Rattle.std.specs.Ordering.{nat_cmp};
ghost use Rattle.dwarf_constants.specs.declared.common.SectionId.TheVariants as id;
ghost use Rattle.dwarf_constants.specs.declared.error.Error.TheVariants as error;
ghost use Rattle.dwarf_read_core.specs.AbbreviationTable.{GivesOrMemory, attribute_at, attributes_at, children_at, declaration_of, declaration_for, has_code, is_among_first, next_declaration, place_among, table_at, table_in, tag_at, with_declaration};
ghost use Rattle.dwarf_read_core.specs.Abbreviations.{attribute, declaration};
ghost use Rattle.dwarf_read_core.specs.Forms.{fixed_size, form_size};
ghost use Rattle.dwarf_readers.specs.Stretch.{Reads, ReadsAs};

mod cache;

use crate::section::Section;
pub use cache::{AbbreviationsCache, AbbreviationsCacheStrategy};
use dwarf_constants::constants::{
    DW_CHILDREN_no, DW_CHILDREN_yes, DW_FORM_GNU_ref_alt, DW_FORM_GNU_strp_alt, DW_FORM_addr,
    DW_FORM_addrx1, DW_FORM_addrx2, DW_FORM_addrx3, DW_FORM_addrx4, DW_FORM_data1, DW_FORM_data2,
    DW_FORM_data4, DW_FORM_data8, DW_FORM_data16, DW_FORM_flag, DW_FORM_flag_present,
    DW_FORM_implicit_const, DW_FORM_line_strp, DW_FORM_ref_addr, DW_FORM_ref_sig8,
    DW_FORM_ref_sup4, DW_FORM_ref_sup8, DW_FORM_ref1, DW_FORM_ref2, DW_FORM_ref4, DW_FORM_ref8,
    DW_FORM_sec_offset, DW_FORM_strp, DW_FORM_strp_sup, DW_FORM_strx1, DW_FORM_strx2,
    DW_FORM_strx3, DW_FORM_strx4,
};
use dwarf_constants::{DwChildren, DwForm, Encoding, Error, Result, SectionId};
use dwarf_offsets::DebugAbbrevOffset;
use dwarf_readers::{EndianSlice, Endianity, Reader};
use std::alloc::Global;
use std::collections::BTreeMap;
use std::marker::Model;

/// An attribute of an abbreviation (DWARF 5, 7.5.3).
#[derive(Debug, Clone, Copy, PartialEq, Eq)]
pub struct AttributeSpecification {
    name: u16,
    form: DwForm,
    // 0 for all forms but `DW_FORM_implicit_const`.
    implicit_const_value: i64,
}

impl AttributeSpecification {
    /// An attribute of this name and form, with a value exactly for `DW_FORM_implicit_const`.
    pub fn new(name: u16, form: DwForm, implicit_const_value: Option<i64>) -> AttributeSpecification
        requires { IsSome implicit_const_value ↔ (form.0 ≡ DW_FORM_implicit_const.0) }
        ensures { attribute result
            ≡ record { name = name; form = form.0; constant = implicit_const_value } }
    {
        AttributeSpecification {
            name,
            form,
            implicit_const_value: implicit_const_value.unwrap_or(0),
        }
    }

    /// The attribute's name.
    pub fn name(&self) -> u16
        ensures { result ≡ (attribute self.now).name }
    {
        self.name
    }

    /// The encoding of its values.
    pub fn form(&self) -> DwForm
        ensures { result.0 ≡ (attribute self.now).form }
    {
        self.form
    }

    /// The value that the abbreviation itself gives it, for `DW_FORM_implicit_const`.
    pub fn implicit_const_value(&self) -> Option<i64>
        ensures { result ≡ (attribute self.now).constant }
    {
        if self.form == DW_FORM_implicit_const {
            Some(self.implicit_const_value)
        } else {
            None
        }
    }

    /// The size of its values in bytes, if the form alone decides it.
    pub fn size(&self, encoding: Encoding) -> Option<usize>
        ensures { result ≡ form_size encoding (attribute self.now).form }
    {
        let word = encoding.format.word_size() as usize;
        match self.form {
            DW_FORM_addr => Some(encoding.address_size as usize),
            DW_FORM_strp
            | DW_FORM_sec_offset
            | DW_FORM_strp_sup
            | DW_FORM_line_strp
            | DW_FORM_GNU_ref_alt
            | DW_FORM_GNU_strp_alt => Some(word),
            DW_FORM_ref_addr if encoding.version == 2 => Some(encoding.address_size as usize),
            DW_FORM_ref_addr => Some(word),
            form => fixed_form_size(form),
        }
    }
}

// The size of a form's values in bytes, if it is always the same.
fn fixed_form_size(form: DwForm) -> Option<usize>
    ensures { result ≡ fixed_size form.0 }
{
    match form {
        DW_FORM_flag_present | DW_FORM_implicit_const => Some(0),
        DW_FORM_data1 | DW_FORM_flag | DW_FORM_ref1 | DW_FORM_strx1 | DW_FORM_addrx1 => Some(1),
        DW_FORM_data2 | DW_FORM_ref2 | DW_FORM_strx2 | DW_FORM_addrx2 => Some(2),
        DW_FORM_strx3 | DW_FORM_addrx3 => Some(3),
        DW_FORM_data4 | DW_FORM_ref4 | DW_FORM_ref_sup4 | DW_FORM_strx4 | DW_FORM_addrx4 => Some(4),
        DW_FORM_data8 | DW_FORM_ref8 | DW_FORM_ref_sig8 | DW_FORM_ref_sup8 => Some(8),
        DW_FORM_data16 => Some(16),
        _ => None,
    }
}

// Reads the next attribute, or `None` at the pair of zeros.
fn read_attribute<R: Reader>(input: &mut R) -> Result<Option<AttributeSpecification>>
    ensures { ReadsAs (option_map attribute) result
        (attribute_at (R.stretch input.old)) (R.stretch input.new) }
{
    let name = input.read_uleb128_u16()?;
    let form = DwForm(input.read_uleb128_u16()?);
    if name == 0 {
        if form.0 == 0 {
            return Ok(None);
        }
        return Err(Error::AttributeNameZero);
    }
    if form.0 == 0 {
        return Err(Error::AttributeFormZero);
    }
    let implicit_const_value = if form == DW_FORM_implicit_const {
        input.read_sleb128()?
    } else {
        0
    };
    Ok(Some(AttributeSpecification {
        name,
        form,
        implicit_const_value,
    }))
}

// Reads the attributes before the pair of zeros.
fn read_attributes<R: Reader>(alloc: Global, input: &mut R) -> Result<Vec<AttributeSpecification>>
    ensures { GivesOrMemory (λ v. (map attribute v.items, R.stretch input.new)) result
        (attributes_at (R.stretch input.old)) }
{
    let mut attributes = Vec::new(alloc);
    'attributes: loop {
        match read_attribute(input)? {
            Some(attribute) => attributes.push(attribute)?,
            None => return Ok(attributes),
        }
    }
}

/// An abbreviation: what entries of a code have in common (DWARF 5, 7.5.3).
#[derive(Debug, Drop, PartialEq, Eq)]
pub struct Abbreviation {
    code: u64,
    tag: u16,
    has_children: bool,
    attributes: Vec<AttributeSpecification>,
}

impl Abbreviation {
    /// The code by which entries name it.
    pub fn code(&self) -> u64
        ensures { result ≡ (declaration self.now).code }
    {
        self.code
    }

    /// The tag of its entries.
    pub fn tag(&self) -> u16
        ensures { result ≡ (declaration self.now).tag }
    {
        self.tag
    }

    /// Whether its entries have children.
    pub fn has_children(&self) -> bool
        ensures { result ≡ (declaration self.now).children }
    {
        self.has_children
    }

    /// The attributes of its entries, in order.
    pub fn attributes(&self) -> &[AttributeSpecification]
        ensures { map attribute result.now ≡ (declaration self.now).attributes }
    {
        self.attributes.as_slice()
    }
}

// Reads whether entries have children.
fn read_children<R: Reader>(input: &mut R) -> Result<bool>
    ensures { Reads result (children_at (R.stretch input.old)) (R.stretch input.new) }
{
    let children = DwChildren(input.read_u8()?);
    match children {
        DW_CHILDREN_no => Ok(false),
        DW_CHILDREN_yes => Ok(true),
        _ => Err(Error::InvalidAbbreviationChildren(children)),
    }
}

// Reads a tag.
fn read_tag<R: Reader>(input: &mut R) -> Result<u16>
    ensures { Reads result (tag_at (R.stretch input.old)) (R.stretch input.new) }
{
    let tag = input.read_uleb128_u16()?;
    if tag == 0 {
        return Err(Error::AbbreviationTagZero);
    }
    Ok(tag)
}

// Reads the declaration of this code.
fn read_declaration<R: Reader>(alloc: Global, input: &mut R, code: u64) -> Result<Abbreviation>
    ensures { GivesOrMemory (λ a. (declaration a, R.stretch input.new)) result
        (declaration_of code (R.stretch input.old)) }
{
    let tag = read_tag(input)?;
    let has_children = read_children(input)?;
    let attributes = read_attributes(alloc, input)?;
    Ok(Abbreviation {
        code,
        tag,
        has_children,
        attributes,
    })
}

// Reads the next declaration, or `None` at code 0 or at the end of the bytes.
fn read_abbreviation<R: Reader>(alloc: Global, input: &mut R) -> Result<Option<Abbreviation>>
    ensures { GivesOrMemory (option_map (λ a. (declaration a, R.stretch input.new))) result
        (next_declaration (R.stretch input.old)) }
{
    if input.is_empty() {
        return Ok(None);
    }
    let code = input.read_uleb128()?;
    if code == 0 {
        return Ok(None);
    }
    Ok(Some(read_declaration(alloc, input, code)?))
}

/// The abbreviations of a table. No two have the same code.
#[derive(Debug, Drop)]
pub struct Abbreviations {
    // In the section's order.
    declarations: Vec<Abbreviation>,
    // How many of the first have the codes 1, 2, ..
    dense: usize,
    // The indexes of the others, by their codes.
    sparse: BTreeMap<u64, usize>,
    ghost places: { (code : ℕ) → place_among code (map declaration declarations.items)
        ≡ (if is_among_first code dense then Some (code - 1) else get nat_cmp sparse code) },
}

impl Abbreviations {
    ghost use Rattle.std.specs.Prelude.{◌++◌, ◌∷◌, true};
    ghost use Rattle.dwarf_read_core.specs.DebugAbbrev.{declarations};

    // A table without abbreviations.
    fn new(alloc: Global) -> Abbreviations
        ensures { declarations result ≡ [] }
    {
        Abbreviations {
            declarations: Vec::new(alloc),
            dense: 0,
            sparse: BTreeMap::new(alloc),
        }
    }

    // Reads the table at the reader's offset.
    fn parse<R: Reader>(alloc: Global, input: &mut R) -> Result<Abbreviations>
        ensures { GivesOrMemory declarations result (table_at (R.stretch input.old)) }
    {
        let mut table = Abbreviations::new(alloc);
        'table: loop {
            match read_abbreviation(alloc, input)? {
                Some(abbreviation) => table = table.insert(abbreviation)?,
                None => return Ok(table),
            }
        }
    }

    // The index of the abbreviation of a code.
    fn place(&self, code: u64) -> Option<usize>
        ensures { result ≡ place_among code (declarations self.now) }
    {
        if 0 < code && code <= self.dense as u64 {
            return Some((code - 1) as usize);
        }
        self.sparse.get(&code).copied()
    }

    // Whether an abbreviation of this code is there.
    fn has(&self, code: u64) -> bool
        ensures { result ≡ has_code code (declarations self.now) }
    {
        self.place(code).is_some()
    }

    // Appends an abbreviation, if none has its code.
    fn insert(self, abbreviation: Abbreviation) -> Result<Abbreviations>
        ensures { GivesOrMemory declarations result
            (with_declaration (declarations self) (declaration abbreviation)) }
    {
        let code = abbreviation.code;
        if self.has(code) {
            return Err(Error::DuplicateAbbreviationCode(code));
        }
        let Abbreviations {
            mut declarations,
            mut dense,
            mut sparse,
        } = self;
        let place = declarations.len();
        declarations.push(abbreviation)?;
        if dense == place && code == place as u64 + 1 {
            dense += 1;
        } else {
            sparse.insert(code, place)?;
        }
        Ok(Abbreviations {
            declarations,
            dense,
            sparse,
        })
    }

    /// The abbreviation of a code.
    pub fn get(&self, code: u64) -> Option<&Abbreviation>
        ensures { option_map (λ a. declaration a.now) result
            ≡ declaration_for code (declarations self.now) }
    {
        self.declarations.get(self.place(code)?)
    }
}

/// The tables of `.debug_abbrev` (DWARF 5, 7.5.3).
#[derive(Debug, Clone, Copy)]
pub struct DebugAbbrev<R> {
    section: R,
}

impl<R> Model for DebugAbbrev<R> {
    ghost Value = { R };

    ghost view = { λ s. s.section };

    ghost inverse = { λ r. record { section = r } };
}

impl<'a, E: Endianity> DebugAbbrev<EndianSlice<'a, E>> {
    ghost use Rattle.dwarf_readers.specs.EndianSlice.{stretch_of};
    ghost use Rattle.dwarf_readers.specs.Stretch.{whole};

    /// The section of these bytes.
    pub fn new(debug_abbrev_section: &'a [u8], endian: E) -> Self
        ensures { stretch_of E.is_big result ≡ whole (E.is_big endian) debug_abbrev_section.now }
    {
        Self::from(EndianSlice::new(debug_abbrev_section, endian))
    }
}

impl<R: Reader> DebugAbbrev<R> {
    ghost use Rattle.dwarf_read_core.specs.DebugAbbrev.{declarations};

    /// The table at an offset: the declarations up to code 0 or the section's end. Fails with the
    /// first error.
    pub fn abbreviations(
        &self,
        alloc: Global,
        debug_abbrev_offset: DebugAbbrevOffset<R::Offset>,
    ) -> Result<Abbreviations>
        ensures { GivesOrMemory declarations result
            (table_in (R.Offset.value debug_abbrev_offset.0) (R.stretch self.now)) }
    {
        let mut input = self.section;
        input.skip(debug_abbrev_offset.0)?;
        Abbreviations::parse(alloc, &mut input)
    }
}

impl<T> DebugAbbrev<T> {
    ghost use Rattle.std.specs.Fn.{FnOnceReturnsAt, FnOnceTakesAt};

    /// The section over what `borrow` gives for this one's.
    pub fn borrow<'a, R, F: FnOnce(&'a T) -> R>(&'a self, borrow: F) -> DebugAbbrev<R>
        requires { FnOnceTakesAt F.FnOnce borrow self.now }
        ensures { FnOnceReturnsAt F.FnOnce borrow self.now result }
    {
        DebugAbbrev {
            section: borrow(&self.section),
        }
    }
}

impl<R> From<R> for DebugAbbrev<R> {
    ghost from_gives = { λ r s. s ≡ r };

    fn from(section: R) -> DebugAbbrev<R> {
        DebugAbbrev { section }
    }
}

impl<R: Reader> Section<R> for DebugAbbrev<R> {
    ghost which = { id.DebugAbbrev };

    ghost section = { λ s. s };

    ghost of = { λ r s gives. gives };

    fn id() -> SectionId {
        SectionId::DebugAbbrev
    }

    fn reader(&self) -> &R {
        &self.section
    }
}
