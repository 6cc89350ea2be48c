//! The registers of a step or a walk.

ghost use Rattle.std.specs.Prelude.{◌≡◌, codes, map, option_map, slice_get};
ghost use Rattle.serde_json.specs.Find.{get};
ghost use Rattle.serde_json.specs.View.{view};
ghost use Rattle.json_program.specs.Json.{field};
ghost use Rattle.unwind_run_document.specs.Registers.{general_name, general_names_aarch64, general_names_x86_64, mask_at, others_in, registers_aarch64_in, registers_in, registers_x86_64_in, value_in};

use crate::document::Architecture;
use json_program::FaultName;
use json_program::check::{Checked, both, with_fault};
use json_program::field::{address_field, address_in, find_field, has_only};
use serde_json::Value;

/// One more than the highest DWARF number of a register that any architecture has.
pub const REGISTER_NUMBERS: usize = 35;

/// The registers of a step or a walk, by what they are for.
#[derive(Clone, Copy, Debug, PartialEq, Eq)]
pub struct StatedRegisters {
    /// The instruction pointer on x86_64, the link register on aarch64.
    pub code: u64,
    /// The stack pointer.
    pub sp: u64,
    /// The frame pointer.
    pub fp: u64,
    /// The bits of a code address: all of them if no mask is stated.
    pub mask: u64,
    /// The other general registers by their DWARF numbers, as far as they are stated.
    pub others: [Option<u64>; REGISTER_NUMBERS],
}

// The name at a number.
fn name_at(names: &[&'static str], number: u16) -> Option<&'static str>
    ensures { option_map (λ name. name.now) result
        ≡ slice_get (map (λ name. name.now) names.now) number }
{
    names.get(usize::from(number)).copied()
}

// The name of a general register of x86_64 by its DWARF number. Of RBP and RSP `bp` and `sp` are stated.
fn general_name_x86_64(number: u16) -> Option<&'static str>
    ensures { option_map (λ name. name.now) result ≡ slice_get general_names_x86_64 number }
{
    let names = [
        "rax", "rdx", "rcx", "rbx", "rsi", "rdi", "rbp", "rsp", "r8", "r9", "r10", "r11", "r12",
        "r13", "r14", "r15",
    ];
    name_at(&names, number)
}

// The name of a general register of aarch64 by its DWARF number. Of x29 and x30 `fp` and `lr` are stated.
fn general_name_aarch64(number: u16) -> Option<&'static str>
    ensures { option_map (λ name. name.now) result ≡ slice_get general_names_aarch64 number }
{
    let names = [
        "x0", "x1", "x2", "x3", "x4", "x5", "x6", "x7", "x8", "x9", "x10", "x11", "x12", "x13",
        "x14", "x15", "x16", "x17", "x18", "x19", "x20", "x21", "x22", "x23", "x24", "x25", "x26",
        "x27", "x28",
    ];
    name_at(&names, number)
}

// The name of a general register by its DWARF number.
fn general_name(arch: Architecture, number: u16) -> Option<&'static str>
    ensures { option_map (λ name. name.now) result ≡ general_name arch number }
{
    match arch {
        Architecture::X86_64 => general_name_x86_64(number),
        Architecture::Aarch64 => general_name_aarch64(number),
    }
}

// The value of a general register, if it has one and that is stated.
fn value_in(arch: Architecture, object: &Value, number: u16) -> Checked<Option<u64>>
    ensures { result ≡ value_in arch (view object.now) number }
{
    let Some(name) = general_name(arch, number) else {
        return Ok(None);
    };
    match object.get(name) {
        Some(value) => Ok(Some(address_in(value)?)),
        None => Ok(None),
    }
}

// The values of the general registers that are stated.
fn others_in(arch: Architecture, object: &Value) -> Checked<[Option<u64>; REGISTER_NUMBERS]>
    ensures { result ≡ others_in arch (view object.now) }
{
    let mut others = [None; REGISTER_NUMBERS];
    let mut fault = None;
    for number in 0..35u16 {
        match value_in(arch, object, number) {
            Ok(value) => others[usize::from(number)] = value,
            Err(name) => fault = with_fault(fault, name),
        }
    }
    match fault {
        None => Ok(others),
        Some(name) => Err(name),
    }
}

// A value that has to be the registers of x86_64.
fn registers_x86_64_in(value: &Value) -> Checked<StatedRegisters>
    ensures { result ≡ registers_x86_64_in (view value.now) }
{
    let names = [
        "ip", "sp", "bp", "rax", "rdx", "rcx", "rbx", "rsi", "rdi", "r8", "r9", "r10", "r11",
        "r12", "r13", "r14", "r15",
    ];
    if !has_only(value, &names) {
        return Err(FaultName::BadCommand);
    }
    let ip = address_field(value, "ip");
    let sp = address_field(value, "sp");
    let bp = address_field(value, "bp");
    let others = others_in(Architecture::X86_64, value);
    let (((ip, sp), bp), others) = both(both(both(ip, sp), bp), others)?;
    Ok(StatedRegisters {
        code: ip,
        sp,
        fp: bp,
        mask: u64::MAX,
        others,
    })
}

// The mask of code addresses: all bits if none is stated.
fn mask_field(object: &Value) -> Checked<u64>
    ensures { result ≡ mask_at (get (codes "mask") (view object.now)) }
{
    match object.get("mask") {
        None => Ok(u64::MAX),
        Some(mask) => address_in(mask),
    }
}

// A value that has to be the registers of aarch64.
fn registers_aarch64_in(value: &Value) -> Checked<StatedRegisters>
    ensures { result ≡ registers_aarch64_in (view value.now) }
{
    let names = [
        "lr", "sp", "fp", "mask", "x0", "x1", "x2", "x3", "x4", "x5", "x6", "x7", "x8", "x9",
        "x10", "x11", "x12", "x13", "x14", "x15", "x16", "x17", "x18", "x19", "x20", "x21", "x22",
        "x23", "x24", "x25", "x26", "x27", "x28",
    ];
    if !has_only(value, &names) {
        return Err(FaultName::BadCommand);
    }
    let lr = address_field(value, "lr");
    let sp = address_field(value, "sp");
    let fp = address_field(value, "fp");
    let mask = mask_field(value);
    let others = others_in(Architecture::Aarch64, value);
    let front = both(both(both(lr, sp), fp), mask);
    let ((((lr, sp), fp), mask), others) = both(front, others)?;
    Ok(StatedRegisters {
        code: lr,
        sp,
        fp,
        mask,
        others,
    })
}

// A value that has to be the registers of an architecture.
fn registers_in(arch: Architecture, value: &Value) -> Checked<StatedRegisters>
    ensures { result ≡ registers_in arch (view value.now) }
{
    match arch {
        Architecture::X86_64 => registers_x86_64_in(value),
        Architecture::Aarch64 => registers_aarch64_in(value),
    }
}

/// The registers of a step or a walk.
pub(crate) fn registers_field(arch: Architecture, object: &Value) -> Checked<StatedRegisters>
    ensures { result ≡ field (registers_in arch) (codes "regs") (view object.now) }
{
    registers_in(arch, find_field(object, "regs")?)
}
