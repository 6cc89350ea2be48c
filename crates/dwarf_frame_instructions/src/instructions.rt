//! Call frame instructions (DWARF 5, 6.4.2 and 7.24).

ghost use Rattle.std.specs.Prelude.{◌≡◌, ◌≢◌, IfErr, IfSome, None, Ok, Some, is_some};
ghost use Rattle.list_laws.specs.Items.{GivesNext};
ghost use Rattle.dwarf_constants.specs.declared.error.Error.TheVariants.{OutOfMemory};
ghost use Rattle.dwarf_readers.specs.Leb128.{unsigned_16_at, unsigned_at};
ghost use Rattle.dwarf_readers.specs.Stretch.{Reads};
ghost use Rattle.dwarf_frame_instructions.specs.Frequent.{is_frequent_at, is_frequent_extended, one_short};
ghost use Rattle.dwarf_frame_instructions.specs.Instructions.{expression_at, extended_opcodes, instruction_at, instructions_of, location_at, register_at};
ghost use Rattle.dwarf_frame_instructions.specs.OpcodeTables.{from_cfa_definition, from_offset_rules, from_other_rules, from_row_state};
ghost use Rattle.dwarf_frame_instructions.specs.InstructionViews.{GivesNextBy, MayRead, MayReadOperands, ReadsBy, ReadsOperands, conventions_of, expression_as, instruction_as, instructions_by};

use dwarf_constants::constants::{
    DW_CFA_AARCH64_negate_ra_state, DW_CFA_GNU_args_size, DW_CFA_advance_loc, DW_CFA_advance_loc1,
    DW_CFA_advance_loc2, DW_CFA_advance_loc4, DW_CFA_def_cfa, DW_CFA_def_cfa_expression,
    DW_CFA_def_cfa_offset, DW_CFA_def_cfa_offset_sf, DW_CFA_def_cfa_register, DW_CFA_def_cfa_sf,
    DW_CFA_expression, DW_CFA_nop, DW_CFA_offset, DW_CFA_offset_extended,
    DW_CFA_offset_extended_sf, DW_CFA_register, DW_CFA_remember_state, DW_CFA_restore,
    DW_CFA_restore_extended, DW_CFA_restore_state, DW_CFA_same_value, DW_CFA_set_loc,
    DW_CFA_undefined, DW_CFA_val_expression, DW_CFA_val_offset, DW_CFA_val_offset_sf,
};
use dwarf_constants::{DwCfa, DwEhPe, Error, Register, Result, Vendor};
use dwarf_frame_rows::{
    PointerEncodingParameters, SectionBaseAddresses, UnwindExpression, parse_encoded_pointer,
};
use dwarf_readers::{Reader, ReaderOffset};
use std::marker::Model;

/// A call frame instruction (DWARF 5, 6.4.2), its operands as they are encoded. A factored offset is
/// to be multiplied by the data alignment factor.
#[derive(Debug, Clone, Copy, PartialEq, Eq)]
pub enum CallFrameInstruction<T> {
    /// The next row starts at this address.
    SetLoc {
        address: u64,
    },
    /// The next row starts `delta` times the code alignment factor after the last one.
    AdvanceLoc {
        delta: u32,
    },
    /// The CFA is the register plus the offset in bytes.
    DefCfa {
        register: Register,
        offset: u64,
    },
    /// The CFA is the register plus a factored offset.
    DefCfaSf {
        register: Register,
        factored_offset: i64,
    },
    /// The CFA keeps its offset, and is relative to this register.
    DefCfaRegister {
        register: Register,
    },
    /// The CFA keeps its register, and is at this offset in bytes.
    DefCfaOffset {
        offset: u64,
    },
    /// The CFA keeps its register, and is at this factored offset.
    DefCfaOffsetSf {
        factored_offset: i64,
    },
    /// The CFA is the value of an expression.
    DefCfaExpression {
        expression: UnwindExpression<T>,
    },
    /// The register can't be recovered.
    Undefined {
        register: Register,
    },
    /// The register has the value that it has here.
    SameValue {
        register: Register,
    },
    /// The register is saved at the CFA plus a factored offset.
    Offset {
        register: Register,
        factored_offset: u64,
    },
    /// The register is saved at the CFA plus a signed factored offset.
    OffsetExtendedSf {
        register: Register,
        factored_offset: i64,
    },
    /// The register is the CFA plus a factored offset.
    ValOffset {
        register: Register,
        factored_offset: u64,
    },
    /// The register is the CFA plus a signed factored offset.
    ValOffsetSf {
        register: Register,
        factored_offset: i64,
    },
    /// The first register is the value of the second.
    Register {
        dest_register: Register,
        src_register: Register,
    },
    /// The register is saved at the value of an expression.
    Expression {
        register: Register,
        expression: UnwindExpression<T>,
    },
    /// The register is the value of an expression.
    ValExpression {
        register: Register,
        expression: UnwindExpression<T>,
    },
    /// The register has the rule that the CIE's own instructions left.
    Restore {
        register: Register,
    },
    /// The rules of all registers and of the CFA are pushed on a stack.
    RememberState,
    /// The rules that were pushed last are popped from the stack.
    RestoreState,
    /// The caller pushed arguments of this size in bytes (`DW_CFA_GNU_args_size`).
    ArgsSize {
        size: u64,
    },
    /// The return address changes between signed and not signed, on AArch64.
    NegateRaState,
    /// Nothing.
    Nop,
}

/// How the bytes of an entry's instructions are read.
#[derive(Debug, Clone, Copy)]
pub struct Coding<'a, R> {
    // The section is a reader of its own: rows that hold a reference to it beside a context couldn't be asked
    // for in a loop. Fields of a byte are the last, so that no copy of the section is one with a byte that was
    // just written, which processors wait for.
    bases: &'a SectionBaseAddresses,
    func_base: Option<u64>,
    section: R,
    address_encoding: Option<DwEhPe>,
    address_size: u8,
    vendor: Vendor,
}

/// The instructions of an entry, one after the other.
#[derive(Debug, Drop)]
pub struct CallFrameInstructionIter<'a, R: Reader> {
    input: R,
    coding: Coding<'a, R>,
}

/// An iterator is the list of what is to come.
impl<'a, R: Reader> Model for CallFrameInstructionIter<'a, R> {
    ghost use Rattle.std.specs.Prelude.{ℕ, List, Result};
    ghost use Rattle.dwarf_constants.specs.declared.error.Error.{Error};
    ghost use Rattle.dwarf_frame_instructions.specs.InstructionViews.{instructions_by};
    ghost use Rattle.dwarf_frame_instructions.specs.declared.instructions.CallFrameInstruction.{CallFrameInstruction};

    ghost Value = { List (Result (CallFrameInstruction ℕ) Error) };

    ghost view = { λ iter. instructions_by R.stretch R.Offset.limit iter.coding iter.input };
}

impl<'a, R: Reader> CallFrameInstructionIter<'a, R> {
    /// The instructions in the bytes of `input`, a part of the parameters' section. `encoding` is that of
    /// addresses, if the entry's augmentation has one.
    pub fn new(
        input: R,
        encoding: Option<DwEhPe>,
        parameters: PointerEncodingParameters<'a, R>,
        vendor: Vendor,
    ) -> Self
        ensures { result ≡ instructions_of (conventions_of R.stretch R.Offset.limit
            encoding parameters.entry vendor) (R.stretch input) }
    {
        let coding = Coding {
            address_encoding: encoding,
            bases: parameters.bases,
            func_base: parameters.func_base,
            address_size: parameters.address_size,
            section: *parameters.section,
            vendor,
        };
        CallFrameInstructionIter { input, coding }
    }

    /// The next instruction, or `None` after the last. Fails if the bytes are no instruction that is
    /// known, or end in one. After an error it returns only `Ok(None)`.
    #[inline(always)]
    pub fn next(&mut self) -> Result<Option<CallFrameInstruction<R::Offset>>>
        ensures { GivesNext (instruction_as R.Offset.value) result self.old self.new }
    {
        self.coding.next(&mut self.input)
    }

    /// How the instructions that are left are read, and their bytes.
    #[inline(always)]
    pub fn into_parts(self) -> (Coding<'a, R>, R)
        ensures { self.entry ≡ instructions_by R.stretch R.Offset.limit result.0 result.1 }
    {
        (self.coding, self.input)
    }
}

/// The same instructions as `next` gives, an error as the last item.
impl<'a, R: Reader> Iterator for CallFrameInstructionIter<'a, R> {
    ghost use Rattle.std.specs.Iterator.{YieldsFirstBy, item_count};
    ghost use Rattle.dwarf_frame_instructions.specs.InstructionViews.{answer_as, instruction_as};

    type Item = Result<CallFrameInstruction<R::Offset>>;

    ghost next_gives = { YieldsFirstBy (answer_as (instruction_as R.Offset.value))
        (λ instructions. instructions) };

    ghost remaining = { item_count (λ instructions. instructions) };

    fn next(&mut self) -> Option<Result<CallFrameInstruction<R::Offset>>> {
        CallFrameInstructionIter::next(self).transpose()
    }
}

/// How many values the low six bits of an opcode have. They are an operand if the opcode is in the
/// high two.
const LOW_VALUES: u8 = 1 << 6;

impl<'a, R: Reader> Coding<'a, R> {
    // Reads the next instruction, if bytes are left. After an error none are. Takes no memory.
    #[inline(always)]
    pub(crate) fn next(&self, input: &mut R) -> Result<Option<CallFrameInstruction<R::Offset>>>
        ensures given { GivesNextBy R.stretch R.Offset.limit R.Offset.value self.now
            result input.old input.new }
        ensures memory { IfErr result (λ e. e ≢ OutOfMemory) }
    {
        if input.is_empty() {
            return Ok(None);
        }
        match self.parse(input) {
            Ok(instruction) => Ok(Some(instruction)),
            Err(error) => {
                input.empty();
                Err(error)
            }
        }
    }

    /// The next instruction of `input`, as [`CallFrameInstructionIter::next`] gives it, by a call: its code is there
    /// once. The reader is passed as a copy, and so it needn't be kept in memory.
    #[inline(always)]
    pub fn next_by_call(&self, input: &mut R) -> Result<Option<CallFrameInstruction<R::Offset>>>
        ensures given { GivesNextBy R.stretch R.Offset.limit R.Offset.value self.now
            result input.old input.new }
        ensures memory { IfErr result (λ e. e ≢ OutOfMemory) }
    {
        let mut rest = *input;
        let next = self.next_apart(&mut rest);
        *input = rest;
        next
    }

    // The call.
    #[inline(never)]
    fn next_apart(&self, input: &mut R) -> Result<Option<CallFrameInstruction<R::Offset>>>
        ensures given { GivesNextBy R.stretch R.Offset.limit R.Offset.value self.now
            result input.old input.new }
        ensures memory { IfErr result (λ e. e ≢ OutOfMemory) }
    {
        self.next(input)
    }

    /// The next instruction of `input`, if it is one of those that most programs have most of: `DW_CFA_advance_loc`,
    /// `DW_CFA_advance_loc1`, `DW_CFA_restore`, `DW_CFA_remember_state`, `DW_CFA_restore_state`, `DW_CFA_nop`, or
    /// with operands of one byte `DW_CFA_offset`, `DW_CFA_def_cfa`, `DW_CFA_def_cfa_register` or
    /// `DW_CFA_def_cfa_offset`. Otherwise, and if it can't be read or none is left, `None`; then nothing is read, and
    /// [`CallFrameInstructionIter::next`] says which it is.
    #[inline(always)]
    pub fn next_if_frequent(&self, input: &mut R) -> Option<CallFrameInstruction<R::Offset>>
        ensures frequent { is_some result ≡ is_frequent_at (R.stretch input.old) }
        ensures some { IfSome result (λ instruction. GivesNextBy R.stretch R.Offset.limit R.Offset.value
            self.now (Ok (Some instruction)) input.old input.new) }
        ensures none { result ≡ None → input.new ≡ input.old }
    {
        if input.is_empty() {
            return None;
        }
        let mut rest = *input;
        let instruction = self.parse_frequent(&mut rest)?;
        *input = rest;
        Some(instruction)
    }

    // Reads an instruction, whose opcode is in the high two bits or in all eight.
    #[inline(always)]
    fn parse(&self, input: &mut R) -> Result<CallFrameInstruction<R::Offset>>
        ensures { ReadsBy R.stretch R.Offset.limit (instruction_as R.Offset.value) self.now
            instruction_at input.old result input.new }
    {
        let opcode = input.read_u8()?;
        let low = opcode % LOW_VALUES;
        match DwCfa(opcode - low) {
            DW_CFA_advance_loc => Ok(CallFrameInstruction::AdvanceLoc {
                delta: u32::from(low),
            }),
            DW_CFA_offset => Ok(CallFrameInstruction::Offset {
                register: Register(u16::from(low)),
                factored_offset: input.read_uleb128()?,
            }),
            DW_CFA_restore => Ok(CallFrameInstruction::Restore {
                register: Register(u16::from(low)),
            }),
            _ => self.parse_operands(DwCfa(opcode), input),
        }
    }

    // Reads an instruction, if it is a frequent one.
    #[inline(always)]
    fn parse_frequent(&self, input: &mut R) -> Option<CallFrameInstruction<R::Offset>>
        ensures frequent { is_some result ≡ is_frequent_at (R.stretch input.old) }
        ensures read { MayRead R.stretch R.Offset.limit R.Offset.value self.now instruction_at input.old result
            input.new }
    {
        let Ok(opcode) = input.read_u8() else {
            return None;
        };
        let low = opcode % LOW_VALUES;
        match DwCfa(opcode - low) {
            DW_CFA_advance_loc => Some(CallFrameInstruction::AdvanceLoc {
                delta: u32::from(low),
            }),
            DW_CFA_offset => Some(CallFrameInstruction::Offset {
                register: Register(u16::from(low)),
                factored_offset: u64::from(read_short(input)?),
            }),
            DW_CFA_restore => Some(CallFrameInstruction::Restore {
                register: Register(u16::from(low)),
            }),
            _ => self.parse_frequent_operands(DwCfa(opcode), input),
        }
    }

    // Reads the operands of an opcode in all eight bits, if it is a frequent one.
    #[inline(always)]
    fn parse_frequent_operands(
        &self,
        opcode: DwCfa,
        input: &mut R,
    ) -> Option<CallFrameInstruction<R::Offset>>
        ensures frequent { is_some result ≡ is_frequent_extended opcode.0 (R.stretch input.old) }
        ensures read { MayReadOperands R.stretch R.Offset.limit R.Offset.value self.now extended_opcodes opcode
            input.old result input.new }
    {
        match opcode {
            DW_CFA_def_cfa_offset => Some(CallFrameInstruction::DefCfaOffset {
                offset: u64::from(read_short(input)?),
            }),
            DW_CFA_def_cfa => Some(CallFrameInstruction::DefCfa {
                register: Register(u16::from(read_short(input)?)),
                offset: u64::from(read_short(input)?),
            }),
            DW_CFA_def_cfa_register => Some(CallFrameInstruction::DefCfaRegister {
                register: Register(u16::from(read_short(input)?)),
            }),
            DW_CFA_nop => Some(CallFrameInstruction::Nop),
            DW_CFA_advance_loc1 => Some(CallFrameInstruction::AdvanceLoc {
                delta: u32::from(input.read_u8().ok()?),
            }),
            DW_CFA_remember_state => Some(CallFrameInstruction::RememberState),
            DW_CFA_restore_state => Some(CallFrameInstruction::RestoreState),
            _ => None,
        }
    }

    // Reads the operands of an opcode in all eight bits: of row creation, or others.
    #[inline(always)]
    fn parse_operands(
        &self,
        opcode: DwCfa,
        input: &mut R,
    ) -> Result<CallFrameInstruction<R::Offset>>
        ensures { ReadsOperands R.stretch R.Offset.limit R.Offset.value self.now
            extended_opcodes opcode input.old result input.new }
    {
        let instruction = match opcode {
            DW_CFA_set_loc => CallFrameInstruction::SetLoc {
                address: self.parse_location(input)?,
            },
            DW_CFA_advance_loc1 => CallFrameInstruction::AdvanceLoc {
                delta: u32::from(input.read_u8()?),
            },
            DW_CFA_advance_loc2 => CallFrameInstruction::AdvanceLoc {
                delta: u32::from(input.read_u16()?),
            },
            DW_CFA_advance_loc4 => CallFrameInstruction::AdvanceLoc {
                delta: input.read_u32()?,
            },
            _ => return self.parse_cfa(opcode, input),
        };
        Ok(instruction)
    }

    // Reads the operands of an opcode that defines the CFA, or of one after these.
    #[inline(always)]
    fn parse_cfa(&self, opcode: DwCfa, input: &mut R) -> Result<CallFrameInstruction<R::Offset>>
        ensures { ReadsOperands R.stretch R.Offset.limit R.Offset.value self.now
            from_cfa_definition opcode input.old result input.new }
    {
        let instruction = match opcode {
            DW_CFA_def_cfa => CallFrameInstruction::DefCfa {
                register: parse_register(input)?,
                offset: input.read_uleb128()?,
            },
            DW_CFA_def_cfa_sf => CallFrameInstruction::DefCfaSf {
                register: parse_register(input)?,
                factored_offset: input.read_sleb128()?,
            },
            DW_CFA_def_cfa_register => CallFrameInstruction::DefCfaRegister {
                register: parse_register(input)?,
            },
            DW_CFA_def_cfa_offset => CallFrameInstruction::DefCfaOffset {
                offset: input.read_uleb128()?,
            },
            DW_CFA_def_cfa_offset_sf => CallFrameInstruction::DefCfaOffsetSf {
                factored_offset: input.read_sleb128()?,
            },
            DW_CFA_def_cfa_expression => CallFrameInstruction::DefCfaExpression {
                expression: self.parse_expression(input)?,
            },
            _ => return self.parse_rule(opcode, input),
        };
        Ok(instruction)
    }

    // Reads the operands of a register rule without a value or by an offset, or of an opcode after
    // these.
    #[inline(always)]
    fn parse_rule(&self, opcode: DwCfa, input: &mut R) -> Result<CallFrameInstruction<R::Offset>>
        ensures { ReadsOperands R.stretch R.Offset.limit R.Offset.value self.now
            from_offset_rules opcode input.old result input.new }
    {
        let instruction = match opcode {
            DW_CFA_undefined => CallFrameInstruction::Undefined {
                register: parse_register(input)?,
            },
            DW_CFA_same_value => CallFrameInstruction::SameValue {
                register: parse_register(input)?,
            },
            DW_CFA_offset_extended => CallFrameInstruction::Offset {
                register: parse_register(input)?,
                factored_offset: input.read_uleb128()?,
            },
            DW_CFA_offset_extended_sf => CallFrameInstruction::OffsetExtendedSf {
                register: parse_register(input)?,
                factored_offset: input.read_sleb128()?,
            },
            DW_CFA_val_offset => CallFrameInstruction::ValOffset {
                register: parse_register(input)?,
                factored_offset: input.read_uleb128()?,
            },
            DW_CFA_val_offset_sf => CallFrameInstruction::ValOffsetSf {
                register: parse_register(input)?,
                factored_offset: input.read_sleb128()?,
            },
            _ => return self.parse_other_rule(opcode, input),
        };
        Ok(instruction)
    }

    // Reads the operands of another register rule, or of an opcode after these.
    #[inline(always)]
    fn parse_other_rule(
        &self,
        opcode: DwCfa,
        input: &mut R,
    ) -> Result<CallFrameInstruction<R::Offset>>
        ensures { ReadsOperands R.stretch R.Offset.limit R.Offset.value self.now
            from_other_rules opcode input.old result input.new }
    {
        let instruction = match opcode {
            DW_CFA_register => CallFrameInstruction::Register {
                dest_register: parse_register(input)?,
                src_register: parse_register(input)?,
            },
            DW_CFA_expression => CallFrameInstruction::Expression {
                register: parse_register(input)?,
                expression: self.parse_expression(input)?,
            },
            DW_CFA_val_expression => CallFrameInstruction::ValExpression {
                register: parse_register(input)?,
                expression: self.parse_expression(input)?,
            },
            DW_CFA_restore_extended => CallFrameInstruction::Restore {
                register: parse_register(input)?,
            },
            _ => return self.parse_other(opcode, input),
        };
        Ok(instruction)
    }

    // Reads the operands of an opcode of row state, of padding, or of a vendor.
    #[inline(always)]
    fn parse_other(&self, opcode: DwCfa, input: &mut R) -> Result<CallFrameInstruction<R::Offset>>
        ensures { ReadsOperands R.stretch R.Offset.limit R.Offset.value self.now
            from_row_state opcode input.old result input.new }
    {
        let instruction = match opcode {
            DW_CFA_remember_state => CallFrameInstruction::RememberState,
            DW_CFA_restore_state => CallFrameInstruction::RestoreState,
            DW_CFA_nop => CallFrameInstruction::Nop,
            DW_CFA_GNU_args_size => CallFrameInstruction::ArgsSize {
                size: input.read_uleb128()?,
            },
            DW_CFA_AARCH64_negate_ra_state if self.vendor == Vendor::AArch64 => {
                CallFrameInstruction::NegateRaState
            }
            _ => return Err(Error::UnknownCallFrameInstruction(opcode)),
        };
        Ok(instruction)
    }

    // Reads an address, which has to be direct.
    #[inline(always)]
    fn parse_location(&self, input: &mut R) -> Result<u64>
        ensures { ReadsBy R.stretch R.Offset.limit (λ address. address) self.now
            location_at input.old result input.new }
    {
        let Some(encoding) = self.address_encoding else {
            return input.read_address(self.address_size);
        };
        if input.offset_id().0 < self.section.offset_id().0 {
            return Err(Error::OffsetOutOfBounds);
        }
        let parameters = PointerEncodingParameters {
            bases: self.bases,
            func_base: self.func_base,
            address_size: self.address_size,
            section: &self.section,
        };
        parse_encoded_pointer(encoding, &parameters, input)?.direct()
    }

    // Passes over an expression after its length, and keeps its offset.
    #[inline(always)]
    fn parse_expression(&self, input: &mut R) -> Result<UnwindExpression<R::Offset>>
        ensures { ReadsBy R.stretch R.Offset.limit (expression_as R.Offset.value) self.now
            expression_at input.old result input.new }
    {
        let length = R::Offset::from_u64(input.read_uleb128()?)?;
        let section = self.section.offset_id().0;
        let offset = R::Offset::from_u64(input.offset_id().0.saturating_sub(section))?;
        input.skip(length)?;
        Ok(UnwindExpression { offset, length })
    }
}

// Reads a register's number.
#[inline(always)]
fn parse_register<R: Reader>(input: &mut R) -> Result<Register>
    ensures { Reads result (register_at (R.stretch input.old)) (R.stretch input.new) }
{
    Ok(Register(input.read_uleb128_u16()?))
}

// Reads an unsigned number of variable length (DWARF 5, 7.6), if it has one byte.
#[inline(always)]
fn read_short<R: Reader>(input: &mut R) -> Option<u8>
    ensures short { is_some result ≡ one_short (R.stretch input.old) }
    ensures number { IfSome result (λ n. Reads (Ok n) (unsigned_at (R.stretch input.old)) (R.stretch input.new)) }
    ensures of_16_bits { IfSome result (λ n. Reads (Ok n) (unsigned_16_at (R.stretch input.old)) (R.stretch input.new)) }
{
    let byte = input.read_u8().ok()?;
    if byte < 128 { Some(byte) } else { None }
}
