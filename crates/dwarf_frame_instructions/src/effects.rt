//! What each instruction does (DWARF 5, 6.4.2).

ghost use Rattle.std.specs.Prelude.{◌≡◌, ◌+◌, ◌*◌, ◌%◌, ◌^◌, nat_lt};
ghost use Rattle.dwarf_frame_rows.specs.declared.effect.Effect.TheVariants.{Rule};
ghost use Rattle.dwarf_frame_rows.specs.declared.rules.RegisterRule.TheVariants.{Offset};
ghost use Rattle.dwarf_frame_instructions.specs.Effects.{address_limit, advanced_to, effect_of, factored_offset, set_to};

use crate::CallFrameInstruction;
use dwarf_constants::{Error, Register, Result};
use dwarf_frame_rows::{CfaRule, Effect, RegisterRule};

/// What the operands of a program's instructions are multiplied by, and how large an address is.
#[derive(Debug, Clone, Copy, PartialEq, Eq)]
pub struct Factors {
    /// What a delta of the location is multiplied by.
    pub code_alignment_factor: u64,
    /// What a factored offset is multiplied by.
    pub data_alignment_factor: i64,
    /// The size of an address in bytes.
    pub address_size: u8,
}

impl Factors {
    /// What an instruction does at this location. Fails with `AddressOverflow` if it would move the
    /// location to a number that is no address, and with `InvalidCfiSetLoc` if it would set the location
    /// to a lower address.
    #[inline(always)]
    pub fn effect<T: Copy>(
        &self,
        location: u64,
        instruction: CallFrameInstruction<T>,
    ) -> Result<Effect<T>>
        ensures { result ≡ effect_of self.now location instruction }
    {
        let effect = match instruction {
            CallFrameInstruction::SetLoc { address } => return set_location(location, address),
            CallFrameInstruction::AdvanceLoc { delta } => {
                return self.advance_location(location, delta);
            }
            CallFrameInstruction::DefCfa { register, offset } => {
                Effect::Cfa(CfaRule::RegisterAndOffset {
                    register,
                    offset: offset.cast_signed(),
                })
            }
            CallFrameInstruction::DefCfaSf {
                register,
                factored_offset,
            } => Effect::Cfa(CfaRule::RegisterAndOffset {
                register,
                offset: self.offset(factored_offset.cast_unsigned()),
            }),
            CallFrameInstruction::DefCfaRegister { register } => Effect::CfaRegister(register),
            CallFrameInstruction::DefCfaOffset { offset } => Effect::CfaOffset(
                offset.cast_signed(),
            ),
            CallFrameInstruction::DefCfaOffsetSf { factored_offset } => {
                Effect::CfaOffset(self.offset(factored_offset.cast_unsigned()))
            }
            CallFrameInstruction::DefCfaExpression { expression } => {
                Effect::Cfa(CfaRule::Expression(expression))
            }
            CallFrameInstruction::Undefined { register } => {
                Effect::Rule(register, RegisterRule::Undefined)
            }
            CallFrameInstruction::SameValue { register } => {
                Effect::Rule(register, RegisterRule::SameValue)
            }
            CallFrameInstruction::Offset {
                register,
                factored_offset,
            } => Effect::Rule(register, RegisterRule::Offset(self.offset(factored_offset))),
            CallFrameInstruction::OffsetExtendedSf {
                register,
                factored_offset,
            } => Effect::Rule(
                register,
                RegisterRule::Offset(self.offset(factored_offset.cast_unsigned())),
            ),
            CallFrameInstruction::ValOffset {
                register,
                factored_offset,
            } => Effect::Rule(
                register,
                RegisterRule::ValOffset(self.offset(factored_offset)),
            ),
            CallFrameInstruction::ValOffsetSf {
                register,
                factored_offset,
            } => Effect::Rule(
                register,
                RegisterRule::ValOffset(self.offset(factored_offset.cast_unsigned())),
            ),
            CallFrameInstruction::Register {
                dest_register,
                src_register,
            } => Effect::Rule(dest_register, RegisterRule::Register(src_register)),
            CallFrameInstruction::Expression {
                register,
                expression,
            } => Effect::Rule(register, RegisterRule::Expression(expression)),
            CallFrameInstruction::ValExpression {
                register,
                expression,
            } => Effect::Rule(register, RegisterRule::ValExpression(expression)),
            CallFrameInstruction::Restore { register } => Effect::RestoreRule(register),
            CallFrameInstruction::RememberState => Effect::Remember,
            CallFrameInstruction::RestoreState => Effect::Restore,
            CallFrameInstruction::ArgsSize { size } => Effect::ArgsSize(size),
            CallFrameInstruction::NegateRaState => Effect::NegateRaState,
            CallFrameInstruction::Nop => Effect::Nothing,
        };
        Ok(effect)
    }

    // The number times the data alignment factor, modulo 2^64, as a signed number.
    fn offset(&self, number: u64) -> i64
        ensures { result ≡ factored_offset self.now number }
    {
        number
            .wrapping_mul(self.data_alignment_factor.cast_unsigned())
            .cast_signed()
    }

    // The register is stored at a factored offset from the CFA.
    #[inline(always)]
    pub(crate) fn stored_at<T: Copy>(&self, register: Register, number: u64) -> Effect<T>
        ensures { result ≡ Rule register (Offset (factored_offset self.now number)) }
    {
        Effect::Rule(register, RegisterRule::Offset(self.offset(number)))
    }

    // Moves a location forward by a delta.
    fn advance_location<T>(&self, location: u64, delta: u32) -> Result<Effect<T>>
        ensures { result ≡ advanced_to self.now
            (location + (delta * self.now.code_alignment_factor) % 2 ^ 64) }
    {
        let delta = u64::from(delta).wrapping_mul(self.code_alignment_factor);
        let Some(location) = location.checked_add(delta) else {
            return Err(Error::AddressOverflow);
        };
        if is_address(location, self.address_size) {
            Ok(Effect::Move(location))
        } else {
            Err(Error::AddressOverflow)
        }
    }
}

// Whether a number is an address of this size in bytes.
fn is_address(number: u64, address_size: u8) -> bool
    ensures { result ≡ nat_lt number (address_limit address_size) }
{
    address_size >= 8 || number < 1 << (8 * address_size)
}

// Sets the location to an address that is not lower.
fn set_location<T>(location: u64, address: u64) -> Result<Effect<T>>
    ensures { result ≡ set_to location address }
{
    if address < location {
        Err(Error::InvalidCfiSetLoc(address))
    } else {
        Ok(Effect::Move(address))
    }
}
