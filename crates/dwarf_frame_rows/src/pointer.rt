//! Encoded pointers (LSB 5.0, 10.5).

ghost use Rattle.std.specs.Prelude.{◌≡◌, ◌≤◌, ◌+◌, ℕ, IsTrue, OnErr};
ghost use Rattle.dwarf_readers.specs.InitialLength.{is_size, left_by};
ghost use Rattle.dwarf_readers.specs.Memory.{NeverWantsMemory};
ghost use Rattle.dwarf_readers.specs.Onward.{ReadsOn};
ghost use Rattle.dwarf_readers.specs.Stretch.{Reads, ReadsAs, Stretch, byte_at};
ghost use Rattle.dwarf_frame_rows.specs.EncodedPointer.{Origins, pointer_address, direct_address, encoding_at, in_address_size, is_encoding, left_by_plain_value, left_by_pointer, left_by_value, origin_of, origins_of, plain_value_at, pointer_at, pointer_of, taken_encoding, value_at};
ghost use Rattle.dwarf_frame_rows.specs.declared.pointer.Pointer.{Pointer as ReadPointer};

use crate::SectionBaseAddresses;
use dwarf_constants::constants::{
    DW_EH_PE_absptr, DW_EH_PE_datarel, DW_EH_PE_funcrel, DW_EH_PE_pcrel, DW_EH_PE_sdata2,
    DW_EH_PE_sdata4, DW_EH_PE_sdata8, DW_EH_PE_sleb128, DW_EH_PE_textrel, DW_EH_PE_udata2,
    DW_EH_PE_udata4, DW_EH_PE_udata8, DW_EH_PE_uleb128,
};
use dwarf_constants::{DwEhPe, Error, Result};
use dwarf_readers::{Reader, is_address_size};

/// A pointer once it is read.
#[derive(Debug, Clone, Copy, PartialEq, Eq)]
pub enum Pointer {
    /// The address that is meant.
    Direct(u64),
    /// The address of the memory that has the address that is meant.
    Indirect(u64),
}

/// A direct pointer to 0.
impl Default for Pointer {
    ghost use Rattle.std.specs.Prelude.{◌≡◌};
    ghost use Rattle.dwarf_frame_rows.specs.declared.pointer.Pointer.TheVariants.{Direct};

    ghost is_default = { λ pointer. pointer ≡ Direct 0 };

    fn default() -> Self {
        Pointer::Direct(0)
    }
}

impl Pointer {
    // The pointer to this address, direct or indirect as its encoding says.
    fn new(encoding: DwEhPe, address: u64) -> Self
        ensures { result ≡ pointer_of encoding.0 address }
    {
        if encoding.is_indirect() {
            Pointer::Indirect(address)
        } else {
            Pointer::Direct(address)
        }
    }

    /// The address of a direct pointer. Fails with `UnsupportedPointerEncoding` on an indirect one.
    pub fn direct(self) -> Result<u64>
        ensures { result ≡ direct_address self }
    {
        match self {
            Pointer::Direct(address) => Ok(address),
            Pointer::Indirect(_) => Err(Error::UnsupportedPointerEncoding),
        }
    }

    /// The address of either kind of pointer.
    pub fn pointer(self) -> u64
        ensures { result ≡ pointer_address self }
    {
        match self {
            Pointer::Direct(address) => address,
            Pointer::Indirect(address) => address,
        }
    }
}

/// What a pointer may be relative to.
#[derive(Debug, Clone, Copy)]
pub struct PointerEncodingParameters<'a, R> {
    /// The addresses that the pointers of the section are relative to.
    pub bases: &'a SectionBaseAddresses,
    /// The start of the function that the pointer is about, if it is about one.
    pub func_base: Option<u64>,
    /// The size of an address in bytes: 1, 2, 4 or 8.
    pub address_size: u8,
    /// The section from its start on.
    pub section: &'a R,
}

/// Reads the encoding of the pointers that follow, one byte. Fails with `UnknownPointerEncoding` if the
/// byte is no encoding.
#[inline(always)]
pub fn parse_pointer_encoding<R: Reader>(input: &mut R) -> Result<DwEhPe>
    ensures read { ReadsAs (λ encoding. encoding.0) result (encoding_at (R.stretch input.old))
        (R.stretch input.new) }
    ensures refused { OnErr result
        (R.stretch input.new ≡ left_by (byte_at (R.stretch input.old)) (R.stretch input.old)) }
{
    let encoding = DwEhPe(input.read_u8()?);
    if is_known(encoding) {
        Ok(encoding)
    } else {
        Err(Error::UnknownPointerEncoding(encoding))
    }
}

/// Reads a pointer of this encoding: what it is relative to is found first, and the value that is read
/// is added, in as many bits as an address has. Fails if the encoding is unknown or says that there is
/// no pointer, or if the base is unknown, and then reads nothing; or if the value cannot be read.
#[inline(always)]
pub fn parse_encoded_pointer<R: Reader>(
    encoding: DwEhPe,
    parameters: &PointerEncodingParameters<'_, R>,
    input: &mut R,
) -> Result<Pointer>
    requires { (R.stretch parameters.now.section.now).offset ≤ (R.stretch input.old).offset }
    ensures read { Reads result (pointer_at (origins_of R.stretch parameters.now) encoding.0
        (R.stretch input.old)) (R.stretch input.new) }
    ensures refused { OnErr result (R.stretch input.new ≡ left_by_pointer
        (origins_of R.stretch parameters.now) encoding.0 (R.stretch input.old)) }
{
    let base = pointer_origin(encoding, parameters, input)?;
    let value = parse_value(encoding.format(), parameters.address_size, input)?;
    let address = sum_in_address_size(base, value, parameters.address_size);
    Ok(Pointer::new(encoding, address))
}

/// Reads the value of a pointer of this encoding, relative to 0, as the length of an FDE's code is
/// read. A negative number is taken modulo 2^64.
#[inline(always)]
pub fn parse_encoded_value<R: Reader>(
    encoding: DwEhPe,
    address_size: u8,
    input: &mut R,
) -> Result<u64>
    ensures read { Reads result (plain_value_at address_size encoding.0 (R.stretch input.old))
        (R.stretch input.new) }
    ensures refused { OnErr result
        (R.stretch input.new ≡ left_by_plain_value encoding.0 (R.stretch input.old)) }
{
    check_encoding(encoding)?;
    parse_value(encoding.format(), address_size, input)
}

// Whether the byte is an encoding.
fn is_known(encoding: DwEhPe) -> bool
    ensures { result ≡ is_encoding encoding.0 }
{
    encoding.is_valid_encoding()
}

// Fails if the byte is no encoding, or is the one that says that there is no pointer.
fn check_encoding(encoding: DwEhPe) -> Result<()>
    ensures { result ≡ taken_encoding encoding.0 }
{
    if !is_known(encoding) {
        return Err(Error::UnknownPointerEncoding(encoding));
    }
    if encoding.is_absent() {
        return Err(Error::CannotParseOmitPointerEncoding);
    }
    Ok(())
}

// What the pointer at the start of the input is relative to.
#[inline(always)]
fn pointer_origin<R: Reader>(
    encoding: DwEhPe,
    parameters: &PointerEncodingParameters<'_, R>,
    input: &R,
) -> Result<u64>
    requires { (R.stretch parameters.now.section.now).offset ≤ (R.stretch input.now).offset }
    ensures { result ≡ origin_of (origins_of R.stretch parameters.now) encoding.0
        (R.stretch input.now).offset }
{
    check_encoding(encoding)?;
    let base = match encoding.application() {
        DW_EH_PE_absptr => 0,
        DW_EH_PE_pcrel => match parameters.bases.section {
            Some(start) => {
                start.wrapping_add(input.offset_id().0 - parameters.section.offset_id().0)
            }
            None => return Err(Error::PcRelativePointerButSectionBaseIsUndefined),
        },
        DW_EH_PE_textrel => match parameters.bases.text {
            Some(start) => start,
            None => return Err(Error::TextRelativePointerButTextBaseIsUndefined),
        },
        DW_EH_PE_datarel => match parameters.bases.data_base {
            Some(start) => start,
            None => return Err(Error::DataRelativePointerButDataBaseIsUndefined),
        },
        DW_EH_PE_funcrel => match parameters.func_base {
            Some(start) => start,
            None => return Err(Error::FuncRelativePointerInBadContext),
        },
        _ => return Err(Error::UnsupportedPointerEncoding),
    };
    if !is_address_size(parameters.address_size) {
        return Err(Error::UnsupportedAddressSize(parameters.address_size));
    }
    Ok(base)
}

// Reads a value of this format.
#[inline(always)]
fn parse_value<R: Reader>(format: DwEhPe, address_size: u8, input: &mut R) -> Result<u64>
    ensures read { Reads result (value_at address_size format.0 (R.stretch input.old))
        (R.stretch input.new) }
    ensures refused { OnErr result
        (R.stretch input.new ≡ left_by_value format.0 (R.stretch input.old)) }
{
    match format {
        DW_EH_PE_absptr => input.read_address(address_size),
        DW_EH_PE_uleb128 => input.read_uleb128(),
        DW_EH_PE_udata2 => Ok(u64::from(input.read_u16()?)),
        DW_EH_PE_udata4 => Ok(u64::from(input.read_u32()?)),
        DW_EH_PE_udata8 => input.read_u64(),
        DW_EH_PE_sleb128 => Ok(input.read_sleb128()?.cast_unsigned()),
        DW_EH_PE_sdata2 => Ok(i64::from(input.read_i16()?).cast_unsigned()),
        DW_EH_PE_sdata4 => Ok(i64::from(input.read_i32()?).cast_unsigned()),
        DW_EH_PE_sdata8 => Ok(input.read_i64()?.cast_unsigned()),
        _ => Err(Error::UnknownPointerEncoding(format)),
    }
}

/// A sum in as many bits as an address has, by the size of addresses in bytes.
pub fn sum_in_address_size(base: u64, value: u64, address_size: u8) -> u64
    requires { IsTrue (is_size address_size) }
    ensures { result ≡ in_address_size address_size (base + value) }
{
    let sum = base.wrapping_add(value);
    match address_size {
        1 => sum % (1 << 8),
        2 => sum % (1 << 16),
        4 => sum % (1 << 32),
        _ => sum,
    }
}

/// A law of encoded pointers: what is left after one, or after its encoding, doesn't begin before it.
/// The function does nothing when the program runs.
pub fn pointers_go_on()
    ensures encoding { (s : Stretch) → ReadsOn s (encoding_at s) }
    ensures value { (size format : ℕ) (s : Stretch) → ReadsOn s (value_at size format s) }
    ensures pointer { (origins : Origins) (encoding : ℕ) (s : Stretch)
        → ReadsOn s (pointer_at origins encoding s) }
    ensures plain_value { (size encoding : ℕ) (s : Stretch)
        → ReadsOn s (plain_value_at size encoding s) }
{}

/// A law of encoded pointers: no read of one, or of its encoding, fails because memory ran out. The function
/// does nothing when the program runs.
pub fn pointers_never_want_memory()
    ensures encoding { (s : Stretch) → NeverWantsMemory (encoding_at s) }
    ensures value { (size format : ℕ) (s : Stretch) → NeverWantsMemory (value_at size format s) }
    ensures pointer { (origins : Origins) (encoding : ℕ) (s : Stretch)
        → NeverWantsMemory (pointer_at origins encoding s) }
    ensures plain_value { (size encoding : ℕ) (s : Stretch)
        → NeverWantsMemory (plain_value_at size encoding s) }
    ensures direct { (pointer : ReadPointer) → NeverWantsMemory (direct_address pointer) }
{}
