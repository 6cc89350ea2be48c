//! The names of registers.

ghost use Rattle.std.specs.Prelude.{◌≡◌, IfOk, option_map, slice_get, string_bytes};
ghost use Rattle.frame_table.specs.Names.{aarch64_name, general_names, known_name, register_in_full, register_name, x86_64_name};

use std::alloc::{AllocError, Global};

/// A machine, whose names for registers are shown.
#[derive(Clone, Copy, Debug, PartialEq, Eq)]
pub enum Machine {
    X86_64,
    AArch64,
}

// The name of a general register of x86_64.
fn general_name(register: u16) -> Option<&'static str>
    ensures { option_map (λ name. name.now) result ≡ slice_get general_names register }
{
    [
        "rax", "rdx", "rcx", "rbx", "rsi", "rdi", "rbp", "rsp", "r8", "r9", "r10", "r11", "r12",
        "r13", "r14", "r15", "rip",
    ]
    .get(usize::from(register))
    .copied()
}

// The name of a register of x86_64, if it is a general one or a vector.
fn x86_64_name(alloc: Global, register: u16) -> Result<Option<String>, AllocError>
    ensures { IfOk result (λ name. option_map string_bytes name ≡ x86_64_name register) }
{
    if (17..33).contains(&register) {
        return Ok(Some(format!(in alloc; "xmm{}", register - 17)?));
    }
    match general_name(register) {
        Some(name) => Ok(Some(String::from_str(alloc, name)?)),
        None => Ok(None),
    }
}

// The name of a register of AArch64, if it is a general one or a vector.
fn aarch64_name(alloc: Global, register: u16) -> Result<Option<String>, AllocError>
    ensures { IfOk result (λ name. option_map string_bytes name ≡ aarch64_name register) }
{
    match register {
        0..=30 => Ok(Some(format!(in alloc; "x{register}")?)),
        31 => Ok(Some(String::from_str(alloc, "sp")?)),
        64..=95 => Ok(Some(format!(in alloc; "v{}", register - 64)?)),
        _ => Ok(None),
    }
}

// The name that a machine has for a register, if a machine is stated.
fn known_name(
    alloc: Global,
    machine: Option<Machine>,
    register: u16,
) -> Result<Option<String>, AllocError>
    ensures { IfOk result (λ name. option_map string_bytes name ≡ known_name machine register) }
{
    match machine {
        Some(Machine::X86_64) => x86_64_name(alloc, register),
        Some(Machine::AArch64) => aarch64_name(alloc, register),
        None => Ok(None),
    }
}

/// The name of a register, or else `r` and its number.
pub(crate) fn register_name(
    alloc: Global,
    machine: Option<Machine>,
    register: u16,
) -> Result<String, AllocError>
    ensures { IfOk result (λ name. string_bytes name ≡ register_name machine register) }
{
    match known_name(alloc, machine, register)? {
        Some(name) => Ok(name),
        None => format!(in alloc; "r{register}"),
    }
}

/// `r` and the number of a register, and then the name, if it has one.
pub(crate) fn register_in_full(
    alloc: Global,
    machine: Option<Machine>,
    register: u16,
) -> Result<String, AllocError>
    ensures { IfOk result (λ text. string_bytes text ≡ register_in_full machine register) }
{
    match known_name(alloc, machine, register)? {
        Some(name) => format!(in alloc; "r{register} ({})", name.as_str()),
        None => format!(in alloc; "r{register}"),
    }
}
