//! The fields of an instruction's word (Arm Architecture Reference Manual for A-profile architecture, C4.1).
ghost use Rattle.std.specs.Prelude.{◌≡◌, ◌/◌, ◌%◌, ◌^◌, ◌↔◌, IsTrue};

/// The number of the stack pointer as a base register.
pub const SP: u32 = 31;

/// Bits 0 to 4, Rd or Rt.
pub fn rd(word: u32) -> u32
    ensures { result ≡ word % 2 ^ 5 }
{
    word & 0x1f
}

/// Bits 5 to 9, Rn.
pub fn rn(word: u32) -> u32
    ensures { result ≡ word / 2 ^ 5 % 2 ^ 5 }
{
    (word >> 5) & 0x1f
}

/// Bits 10 to 14, Rt2.
pub fn rt2(word: u32) -> u32
    ensures { result ≡ word / 2 ^ 10 % 2 ^ 5 }
{
    (word >> 10) & 0x1f
}

/// Bits 15 to 21, imm7 of a pair.
pub fn imm7(word: u32) -> u32
    ensures { result ≡ word / 2 ^ 15 % 2 ^ 7 }
{
    (word >> 15) & 0x7f
}

/// Bits 10 to 21, imm12 of an addition or a subtraction.
pub fn imm12(word: u32) -> u32
    ensures { result ≡ word / 2 ^ 10 % 2 ^ 12 }
{
    (word >> 10) & 0xfff
}

/// Bit 22: L of a pair, sh of an addition or a subtraction.
pub fn bit_22(word: u32) -> u32
    ensures { result ≡ word / 2 ^ 22 % 2 ^ 1 }
{
    (word >> 22) & 1
}

/// Bits 23 and 24: the addressing mode of a pair.
pub fn mode_field(word: u32) -> u32
    ensures { result ≡ word / 2 ^ 23 % 2 ^ 2 }
{
    (word >> 23) & 3
}

/// Bits 23 to 25 of a move of a number.
pub fn move_class(word: u32) -> u32
    ensures { result ≡ word / 2 ^ 23 % 2 ^ 3 }
{
    (word >> 23) & 7
}

/// Bits 25 to 29 of a pair.
pub fn pair_class(word: u32) -> u32
    ensures { result ≡ word / 2 ^ 25 % 2 ^ 5 }
{
    (word >> 25) & 0x1f
}

/// Bits 10 to 31, by which a branch to a register is told.
pub fn from_bit_10(word: u32) -> u32
    ensures { result ≡ word / 2 ^ 10 }
{
    word >> 10
}

/// Bits 23 to 31, by which an addition or a subtraction of a number is told.
pub fn from_bit_23(word: u32) -> u32
    ensures { result ≡ word / 2 ^ 23 }
{
    word >> 23
}

/// Bits 26 to 31, by which a branch is told.
pub fn from_bit_26(word: u32) -> u32
    ensures { result ≡ word / 2 ^ 26 }
{
    word >> 26
}

/// Bits 29 to 31, sf and opc of a move of a number.
pub fn from_bit_29(word: u32) -> u32
    ensures { result ≡ word / 2 ^ 29 }
{
    word >> 29
}

/// Bit 31, the upper bit of a pair's opc.
pub fn bit_31(word: u32) -> u32
    ensures { result ≡ word / 2 ^ 31 }
{
    word >> 31
}
