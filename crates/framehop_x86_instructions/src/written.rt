//! Which general registers an instruction may write.
ghost use Rattle.std.specs.Prelude.{◌≡◌, ◌<◌};
ghost use Rattle.framehop_x86_instructions.specs.Fields.{AreNumbers};
ghost use Rattle.framehop_x86_instructions.specs.Written.{of_size, reg_set, rm_set, rm_unless_f3, group_1, group_3, written_by_group, written};

use crate::fields::Fields;
use crate::registers::Registers;
use crate::writes::Writes;

// The register with a number, where one byte of it is written if so: without REX the numbers from 4 to 7 are the second bytes of the
// registers from 0 to 3.
fn of_size(number: u8, is_byte: bool, has_rex: bool) -> Registers
    requires { number < 16 }
    ensures { result ≡ of_size number is_byte has_rex }
{
    if is_byte && !has_rex && 4 <= number && number < 8 {
        Registers::one(number - 4)
    } else {
        Registers::one(number)
    }
}

fn reg_set(fields: Fields, is_byte: bool) -> Registers
    requires { fields.reg < 16 }
    ensures { result ≡ reg_set fields is_byte }
{
    of_size(fields.reg, is_byte, fields.has_rex)
}

// The register of rm, if it isn't memory.
fn rm_set(fields: Fields, is_byte: bool) -> Registers
    requires { fields.rm < 16 }
    ensures { result ≡ rm_set fields is_byte }
{
    if fields.is_register {
        of_size(fields.rm, is_byte, fields.has_rex)
    } else {
        Registers::NONE
    }
}

// The register of rm, but with F3 none.
fn rm_unless_f3(fields: Fields) -> Registers
    requires { fields.rm < 16 }
    ensures { result ≡ rm_unless_f3 fields }
{
    if fields.has_f3 {
        Registers::NONE
    } else {
        rm_set(fields, false)
    }
}

// All but CMP write rm.
fn group_1(fields: Fields) -> Registers
    requires { fields.rm < 16 }
    ensures { result ≡ group_1 fields }
{
    if fields.digit == 7 {
        Registers::NONE
    } else {
        rm_set(fields, fields.is_narrow)
    }
}

// TEST, which writes none; NOT and NEG; products and quotients.
fn group_3(fields: Fields) -> Registers
    requires { fields.rm < 16 }
    ensures { result ≡ group_3 fields }
{
    match fields.digit {
        0 | 1 => Registers::NONE,
        2 | 3 => rm_set(fields, fields.is_narrow),
        _ => Registers::RAX_AND_RDX,
    }
}

// What an instruction of a group writes, if it is one that goes on.
fn written_by_group(writes: Writes, fields: Fields) -> Option<Registers>
    requires { fields.rm < 16 }
    ensures { result ≡ written_by_group writes fields }
{
    let goes_on = match writes {
        Writes::Group4 => fields.digit < 2,
        Writes::Group11 => fields.digit == 0,
        Writes::Group7 => !fields.is_register,
        _ => false,
    };
    if goes_on {
        Some(rm_set(fields, fields.is_narrow))
    } else {
        None
    }
}

/// The registers that may be written; `None` if any.
pub(crate) fn written(writes: Writes, fields: Fields) -> Option<Registers>
    requires { AreNumbers fields }
    ensures { result ≡ written writes fields }
{
    let narrow = fields.is_narrow;
    match writes {
        Writes::These(registers) => Some(registers),
        Writes::Reg => Some(Registers::one(fields.reg)),
        Writes::Rm => Some(rm_set(fields, false)),
        Writes::RmUnlessF3 => Some(rm_unless_f3(fields)),
        Writes::NarrowReg => Some(reg_set(fields, narrow)),
        Writes::NarrowRm => Some(rm_set(fields, narrow)),
        Writes::NarrowBoth => Some(reg_set(fields, narrow).or(rm_set(fields, narrow))),
        Writes::ByteRm => Some(rm_set(fields, true)),
        Writes::Opcode => Some(Registers::one(fields.opcode)),
        Writes::ByteOpcode => Some(of_size(fields.opcode, true, fields.has_rex)),
        Writes::OpcodeAndRax => Some(Registers::RAX.or(Registers::one(fields.opcode))),
        Writes::NarrowRmAndRax => Some(Registers::RAX.or(rm_set(fields, narrow))),
        Writes::RmRaxAndRdx => Some(Registers::RAX_AND_RDX.or(rm_set(fields, false))),
        Writes::Vvvv => Some(Registers::one(fields.vvvv)),
        Writes::RegAndVvvv => Some(Registers::one(fields.reg).or(Registers::one(fields.vvvv))),
        Writes::Group1 => Some(group_1(fields)),
        Writes::Group3 => Some(group_3(fields)),
        Writes::Unknown | Writes::Group4 | Writes::Group7 | Writes::Group11 => {
            written_by_group(writes, fields)
        }
    }
}
