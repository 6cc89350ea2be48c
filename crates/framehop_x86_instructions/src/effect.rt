//! What an instruction does to the stack pointer and other general registers, and where it goes on.
ghost use Rattle.std.specs.Prelude.{◌≡◌, ◌<◌, ◌+◌, ◌^◌};
ghost use Rattle.framehop_x86_instructions.specs.Fields.{AreNumbers};
ghost use Rattle.framehop_x86_instructions.specs.ModRm.{AreFields};
ghost use Rattle.framehop_x86_instructions.specs.Effects.{popped, popped_rm, stack_effect, group_5, control_effect, two_byte_effect, moved, load_effect, store_effect, address_effect, sum_effect, move_effect, plain_effect, stack_or_control, base_effect, effect_of};

use crate::address::{Address, Base, address_of, base_numbered, displacement};
use crate::bytes::byte_at;
use crate::fields::Fields;
use crate::layout::Layout;
use crate::numbers::{signed_at, signed_byte, word_at};
use crate::opcode::{Encoding, Map, Opcode};
use crate::registers::{Registers, register_numbered};
use crate::writes::writes_of;
use crate::written::written;
use framehop_registers::x86_64::Reg;

/// What an instruction does, as far as a way out of a function asks.
#[derive(Clone, Copy, Debug, PartialEq, Eq)]
pub enum Effect {
    /// RSP goes down by 8, and the word there is what the register held, or anything
    Push(Option<Reg>),
    /// the word at RSP is stored in the register, or elsewhere, and RSP goes up by 8
    Pop(Option<Reg>),
    /// RSP is RBP, from where RBP is popped
    Leave,
    /// the register is the base plus a number of bytes
    Move { to: Reg, base: Base, bytes: i64 },
    /// the register is the word at an address
    Load { to: Reg, from: Address },
    /// the word at an address is what the register holds
    Store { from: Reg, to: Address },
    /// a function is called, which returns
    Call,
    /// a jump, by its distance from the end of the instruction
    Jump { distance: i64 },
    /// a jump that may be taken or not
    JumpIf { distance: i64 },
    /// a jump to an address that the instruction doesn't tell
    JumpAway,
    /// a return, behind which RSP goes up by so many bytes
    Return { bytes: u16 },
    /// these registers and memory may change
    Plain(Registers),
    /// anything may happen
    Unknown,
}

// A pop to a register, of which one of RSP isn't known.
fn popped(number: u8) -> Effect
    requires { number < 16 }
    ensures { result ≡ popped number }
{
    if number == 4 {
        Effect::Unknown
    } else {
        Effect::Pop(Some(register_numbered(number)))
    }
}

// A pop to an operand.
fn popped_rm(fields: Fields) -> Effect
    requires { fields.rm < 16 }
    ensures { result ≡ popped_rm fields }
{
    if fields.digit != 0 {
        return Effect::Unknown;
    }
    if fields.is_register {
        popped(fields.rm)
    } else {
        Effect::Pop(None)
    }
}

// Pushes, pops and LEAVE.
fn stack_effect(byte: u8, fields: Fields) -> Option<Effect>
    requires opcode { fields.opcode < 16 }
    requires rm { fields.rm < 16 }
    ensures { result ≡ stack_effect byte fields }
{
    match byte {
        0x50..=0x57 => Some(Effect::Push(Some(register_numbered(fields.opcode)))),
        0x58..=0x5f => Some(popped(fields.opcode)),
        0x68 | 0x6a | 0x9c => Some(Effect::Push(None)),
        0x8f => Some(popped_rm(fields)),
        0x9d => Some(Effect::Pop(None)),
        0xc9 => Some(Effect::Leave),
        _ => None,
    }
}

// Calls, jumps and pushes of group 5.
fn group_5(fields: Fields) -> Option<Effect>
    requires { fields.rm < 16 }
    ensures { result ≡ group_5 fields }
{
    match fields.digit {
        2 => Some(Effect::Call),
        4 => Some(Effect::JumpAway),
        6 if fields.is_register => Some(Effect::Push(Some(register_numbered(fields.rm)))),
        6 => Some(Effect::Push(None)),
        _ => None,
    }
}

// Calls, jumps and returns, whose numbers are at a place.
fn control_effect(code: &[u8], byte: u8, fields: Fields, at: usize) -> Option<Effect>
    requires rm { fields.rm < 16 }
    requires place { at + 3 < 2 ^ 64 }
    ensures { result ≡ control_effect code.now byte fields at }
{
    match byte {
        0x70..=0x7f | 0xe3 => Some(Effect::JumpIf {
            distance: signed_byte(byte_at(code, at)),
        }),
        0xc2 => Some(Effect::Return {
            bytes: word_at(code, at),
        }),
        0xc3 => Some(Effect::Return { bytes: 0 }),
        0xe8 => Some(Effect::Call),
        0xe9 => Some(Effect::Jump {
            distance: signed_at(code, at),
        }),
        0xeb => Some(Effect::Jump {
            distance: signed_byte(byte_at(code, at)),
        }),
        0xff => group_5(fields),
        _ => None,
    }
}

// Jumps, pushes and pops after 0F.
fn two_byte_effect(code: &[u8], byte: u8, at: usize) -> Option<Effect>
    requires { at + 3 < 2 ^ 64 }
    ensures { result ≡ two_byte_effect code.now byte at }
{
    match byte {
        0x80..=0x8f => Some(Effect::JumpIf {
            distance: signed_at(code, at),
        }),
        0xa0 | 0xa8 => Some(Effect::Push(None)),
        0xa1 | 0xa9 => Some(Effect::Pop(None)),
        _ => None,
    }
}

// A move between registers, from a base.
fn moved(to: u8, from: u8) -> Option<Effect>
    requires { to < 16 }
    ensures { result ≡ moved to from }
{
    let base = base_numbered(from)?;
    Some(Effect::Move {
        to: register_numbered(to),
        base,
        bytes: 0,
    })
}

// MOV to the register of reg.
fn load_effect(fields: Fields, address: Option<Address>) -> Option<Effect>
    requires { fields.reg < 16 }
    ensures { result ≡ load_effect fields address }
{
    if fields.is_register {
        return moved(fields.reg, fields.rm);
    }
    let from = address?;
    Some(Effect::Load {
        to: register_numbered(fields.reg),
        from,
    })
}

// MOV of the register of reg.
fn store_effect(fields: Fields, address: Option<Address>) -> Option<Effect>
    requires reg { fields.reg < 16 }
    requires rm { fields.rm < 16 }
    ensures { result ≡ store_effect fields address }
{
    if fields.is_register {
        return moved(fields.rm, fields.reg);
    }
    let to = address?;
    Some(Effect::Store {
        from: register_numbered(fields.reg),
        to,
    })
}

// LEA.
fn address_effect(fields: Fields, address: Option<Address>) -> Option<Effect>
    requires { fields.reg < 16 }
    ensures { result ≡ address_effect fields address }
{
    let Address { base, bytes } = address?;
    Some(Effect::Move {
        to: register_numbered(fields.reg),
        base,
        bytes,
    })
}

// ADD and SUB of a number at a place to a base, where the number has one byte in mode 1, and four in mode 2.
fn sum_effect(code: &[u8], fields: Fields, mode: u8, at: usize) -> Option<Effect>
    requires rm { fields.rm < 16 }
    requires place { at + 3 < 2 ^ 64 }
    ensures { result ≡ sum_effect code.now fields mode at }
{
    if !fields.is_register {
        return None;
    }
    let base = base_numbered(fields.rm)?;
    let to = register_numbered(fields.rm);
    let number = displacement(code, mode, at);
    match fields.digit {
        0 => Some(Effect::Move {
            to,
            base,
            bytes: number,
        }),
        5 => Some(Effect::Move {
            to,
            base,
            bytes: 0 - number,
        }),
        _ => None,
    }
}

// MOV, LEA, ADD and SUB of eight bytes, whose address and number are behind the ModRM byte at a place.
fn move_effect(code: &[u8], byte: u8, fields: Fields, layout: Layout, at: usize) -> Option<Effect>
    requires reg { fields.reg < 16 }
    requires rm { fields.rm < 16 }
    requires field { layout.modrm.rm < 8 }
    requires place { at + 4 < 2 ^ 64 }
    ensures { result ≡ move_effect code.now byte fields layout at }
{
    match byte {
        0x81 => sum_effect(code, fields, 2, at),
        0x83 => sum_effect(code, fields, 1, at),
        0x89 => store_effect(fields, address_of(code, layout, at)),
        0x8b => load_effect(fields, address_of(code, layout, at)),
        0x8d => address_effect(fields, address_of(code, layout, at)),
        _ => None,
    }
}

// Other instructions, by what they write.
fn plain_effect(fields: Fields, opcode: Opcode) -> Effect
    requires { AreNumbers fields }
    ensures { result ≡ plain_effect fields opcode }
{
    match written(writes_of(opcode), fields) {
        Some(registers) => Effect::Plain(registers),
        None => Effect::Unknown,
    }
}

// Instructions that push, pop, call, jump or return, whose operands have eight bytes but with a 66 prefix.
fn stack_or_control(code: &[u8], fields: Fields, opcode: Opcode, at: usize) -> Option<Effect>
    requires rm { fields.rm < 16 }
    requires opcode { fields.opcode < 16 }
    requires place { at + 3 < 2 ^ 64 }
    ensures { result ≡ stack_or_control code.now fields opcode at }
{
    match (opcode.encoding, opcode.map) {
        (Encoding::Legacy, Map::OneByte) => match stack_effect(opcode.byte, fields) {
            Some(effect) => Some(effect),
            None => control_effect(code, opcode.byte, fields, at),
        },
        (Encoding::Legacy, Map::TwoByte) => two_byte_effect(code, opcode.byte, at),
        _ => None,
    }
}

// Moves to and from bases and what is relative to them.
fn base_effect(code: &[u8], fields: Fields, layout: Layout, at: usize) -> Option<Effect>
    requires reg { fields.reg < 16 }
    requires rm { fields.rm < 16 }
    requires field { layout.modrm.rm < 8 }
    requires place { at + 4 < 2 ^ 64 }
    ensures { result ≡ base_effect code.now fields layout at }
{
    match (layout.opcode.encoding, layout.opcode.map) {
        (Encoding::Legacy, Map::OneByte) if layout.opcode.extension.w => {
            move_effect(code, layout.opcode.byte, fields, layout, at)
        }
        _ => None,
    }
}

/// What the instruction with some parts does.
pub(crate) fn effect_of(code: &[u8], layout: Layout) -> Effect
    requires fields { AreFields layout.modrm }
    requires vvvv { layout.opcode.vvvv < 16 }
    requires place { layout.prefixes.count + layout.opcode.size < 2 ^ 63 }
    ensures { result ≡ effect_of code.now layout }
{
    let fields = Fields::of(layout);
    let at = layout.prefixes.count + layout.opcode.size;
    if let Some(effect) = stack_or_control(code, fields, layout.opcode, at) {
        let is_short = layout.prefixes.operand_size && !layout.opcode.extension.w;
        return if is_short { Effect::Unknown } else { effect };
    }
    match base_effect(code, fields, layout, at + 1) {
        Some(effect) => effect,
        None => plain_effect(fields, layout.opcode),
    }
}
