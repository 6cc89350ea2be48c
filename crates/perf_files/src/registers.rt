//! The registers of a sample.

ghost use Rattle.std.specs.Prelude.{◌≡◌, ◌<◌};
ghost use Rattle.perf_files.specs.Fields.{taken};
ghost use Rattle.perf_files.specs.Registers.{abi_of, registers_field};

use crate::error::FieldError;
use crate::field::Field;
use crate::fields::Fields;
use crate::words::Words;

/// What code the registers are of (`PERF_SAMPLE_REGS_ABI_*`).
#[derive(Debug, Clone, Copy, PartialEq, Eq)]
pub enum RegisterAbi {
    /// None, as in a thread of the kernel: there are no registers.
    None,
    /// Code of 32 bits.
    Bits32,
    /// Code of 64 bits.
    Bits64,
    /// Another number.
    Other(u64),
}

/// The registers of a sample.
#[derive(Debug, Drop)]
pub struct SavedRegisters<'a> {
    /// What code they are of.
    pub abi: RegisterAbi,
    /// Which registers there are, by the kernel's numbers (`PERF_REG_*`).
    pub mask: u64,
    /// Their values, from the lowest number on.
    pub words: Words<'a>,
}

/// Where a walk begins: registers of user code. A register that wasn't recorded is none.
#[derive(Debug, Clone, Copy, PartialEq, Eq)]
pub struct WalkStart {
    /// `rip` or `pc`.
    pub instruction_pointer: u64,
    /// `rsp` or `sp`.
    pub stack_pointer: u64,
    /// `rbp` or `x29`.
    pub frame_pointer: Option<u64>,
    /// `x30`, on aarch64 alone.
    pub link_register: Option<u64>,
}

// What code a number says.
fn abi_of(number: u64) -> RegisterAbi
    ensures { result ≡ abi_of number }
{
    match number {
        0 => RegisterAbi::None,
        1 => RegisterAbi::Bits32,
        2 => RegisterAbi::Bits64,
        number => RegisterAbi::Other(number),
    }
}

impl<'a> Fields<'a> {
    ghost use Rattle.perf_files.specs.Registers.{no_registers};

    // Registers, by which there are.
    #[tactic(auto, unfolding(crate::specs::Registers::registers_field))]
    pub(crate) fn registers(
        &mut self,
        mask: u64,
        field: Field,
    ) -> Result<SavedRegisters<'a>, FieldError>
        ensures { taken (λ registers. registers) result self.new.left.now
            ≡ registers_field mask field self.old.left.now }
    {
        let abi = self.word(field)?;
        if abi == 0 {
            return Ok(SavedRegisters::none(mask));
        }
        let bytes = self.entries(u64::from(mask.count_ones()), 8, field)?;
        Ok(SavedRegisters {
            abi: abi_of(abi),
            mask,
            words: Words::new(bytes),
        })
    }
}

impl<'a> SavedRegisters<'a> {
    ghost use Rattle.perf_files.specs.Registers.{no_registers, register_of, start_aarch64, start_x86_64};

    // No registers, of those in the mask.
    #[tactic(auto, unfolding(crate::specs::Words::words_in))]
    pub(crate) fn none(mask: u64) -> Self
        ensures { result ≡ no_registers mask }
    {
        SavedRegisters {
            abi: RegisterAbi::None,
            mask,
            words: Words::new(&[]),
        }
    }

    /// The register with a number (`PERF_REG_*`), if there is one.
    pub fn register(&self, number: u32) -> Option<u64>
        requires { number < 64 }
        ensures { result ≡ register_of self.now number }
    {
        let bit = 1u64 << number;
        if self.mask / bit % 2 == 0 {
            return None;
        }
        self.words.get((self.mask % bit).count_ones() as usize)
    }

    /// Where a walk on x86_64 begins; none if these aren't registers of 64 bits, or have no `rip` or `rsp`.
    pub fn start_x86_64(&self) -> Option<WalkStart>
        ensures { result ≡ start_x86_64 self.now }
    {
        let RegisterAbi::Bits64 = self.abi else {
            return None;
        };
        let instruction_pointer = self.register(8)?;
        let stack_pointer = self.register(7)?;
        Some(WalkStart {
            instruction_pointer,
            stack_pointer,
            frame_pointer: self.register(6),
            link_register: None,
        })
    }

    /// Where a walk on aarch64 begins; none if these aren't registers of 64 bits, or have no `pc` or `sp`.
    pub fn start_aarch64(&self) -> Option<WalkStart>
        ensures { result ≡ start_aarch64 self.now }
    {
        let RegisterAbi::Bits64 = self.abi else {
            return None;
        };
        let instruction_pointer = self.register(32)?;
        let stack_pointer = self.register(31)?;
        Some(WalkStart {
            instruction_pointer,
            stack_pointer,
            frame_pointer: self.register(29),
            link_register: self.register(30),
        })
    }
}
