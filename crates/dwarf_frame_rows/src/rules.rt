//! How the CFA and the registers of a row are found (DWARF 5, 6.4.1).

ghost use Rattle.std.specs.Prelude.{◌≡◌};
ghost use Rattle.std.specs.Int.{w64, cast_signed};
ghost use Rattle.dwarf_frame_rows.specs.CfaRules.{with_cfa_offset, with_cfa_register};

use crate::UnwindExpression;
use dwarf_constants::{Error, Register, Result};

/// How the canonical frame address of a row is found.
#[derive(Debug, Clone, Copy, PartialEq, Eq)]
pub enum CfaRule<T> {
    /// The register's value plus the offset in bytes.
    RegisterAndOffset { register: Register, offset: i64 },
    /// The value of an expression.
    Expression(UnwindExpression<T>),
}

/// The rule before any instruction: register 0 plus 0.
impl<T> Default for CfaRule<T> {
    ghost use Rattle.std.specs.Prelude.{◌≡◌};
    ghost use Rattle.dwarf_frame_rows.specs.CfaRules.{first_cfa};

    ghost is_default = { λ rule. rule ≡ first_cfa };

    fn default() -> Self {
        CfaRule::RegisterAndOffset {
            register: Register(0),
            offset: 0,
        }
    }
}

impl<T> CfaRule<T> {
    // The same offset from another register. Fails with `CfiInstructionInInvalidContext` on an
    // expression.
    pub(crate) fn with_register(self, register: Register) -> Result<Self>
    where
        T: Copy,
        ensures { result ≡ with_cfa_register register self }
    {
        match self {
            CfaRule::RegisterAndOffset { offset, .. } => {
                Ok(CfaRule::RegisterAndOffset { register, offset })
            }
            CfaRule::Expression(_) => Err(Error::CfiInstructionInInvalidContext),
        }
    }

    // Another offset from the same register. Fails with `CfiInstructionInInvalidContext` on an
    // expression.
    pub(crate) fn with_offset(self, offset: i64) -> Result<Self>
    where
        T: Copy,
        ensures { result ≡ with_cfa_offset offset self }
    {
        match self {
            CfaRule::RegisterAndOffset { register, .. } => {
                Ok(CfaRule::RegisterAndOffset { register, offset })
            }
            CfaRule::Expression(_) => Err(Error::CfiInstructionInInvalidContext),
        }
    }
}

/// How a register of the caller is found.
#[derive(Debug, Clone, Copy, PartialEq, Eq)]
pub enum RegisterRule<T> {
    /// Its value can't be recovered.
    Undefined,
    /// It has the value that it has here.
    SameValue,
    /// In the word at the CFA plus this offset in bytes.
    Offset(i64),
    /// It is the CFA plus this offset in bytes.
    ValOffset(i64),
    /// It is the value of another register.
    Register(Register),
    /// In the word at the value of an expression.
    Expression(UnwindExpression<T>),
    /// It is the value of an expression.
    ValExpression(UnwindExpression<T>),
    /// As the architecture says.
    Architectural,
    /// It is this number.
    Constant(u64),
}

/// An element of a list that holds no rule yet.
impl<T> Default for RegisterRule<T> {
    ghost use Rattle.std.specs.Prelude.{◌≡◌};
    ghost use Rattle.dwarf_frame_rows.specs.declared.rules.RegisterRule.TheVariants.{Undefined};

    ghost is_default = { λ rule. rule ≡ Undefined };

    fn default() -> Self {
        RegisterRule::Undefined
    }
}

/// A register and its rule.
#[derive(Debug, Clone, Copy, PartialEq, Eq)]
pub struct RuledRegister<V> {
    pub register: Register,
    pub rule: V,
}

/// An element of a list that holds no rule yet.
impl<V: Default> Default for RuledRegister<V> {
    ghost use Rattle.std.specs.Prelude.{◌≡◌};

    ghost is_default = { λ pair. (pair.register.0 ≡ 0) × V.is_default pair.rule };

    fn default() -> Self {
        let (register, rule) = (Register(0), V::default());
        RuledRegister { register, rule }
    }
}
