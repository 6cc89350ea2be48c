//! The values that a row's rules give (DWARF 5, 6.4.1).

ghost use Rattle.std.specs.Prelude.{◌≡◌};
ghost use Rattle.dwarf_frame_instructions.specs.InstructionViews.{expression_as};
ghost use Rattle.dwarf_frame_instructions.specs.StateViews.{cfa_as, rule_as};
ghost use Rattle.dwarf_frame_parts.specs.RowParts.{column_as};
ghost use Rattle.framehop_registers.specs.Callback.{OverWords};
ghost use Rattle.framehop_expressions.specs.Evaluation.{word_value};
ghost use Rattle.framehop_expressions.specs.Registers.{known};
ghost use Rattle.framehop_whole_rows.specs.Callers.{OverRow};
ghost use Rattle.framehop_whole_rows.specs.Rules.{cfa_value, computed, given_by, known_then, moved, offset_value, register_value, return_by, rule_value, ruled_return, stated_return, unruled_return, unruled_value, word_computed};

use crate::place::RowPlace;
use dwarf_constants::Register;
use dwarf_frame_rows::{CfaRule, RegisterRule, RuledRegister, UnwindExpression};
use dwarf_operations::Expression;
use dwarf_readers::Reader;
use dwarf_storage::ArrayLike;
use framehop_expressions::{KnownRegisters, Unknown, evaluate, word_value};

// The value of a register in the frame.
fn register_value(register: Register, registers: &KnownRegisters) -> Result<u64, Unknown>
    ensures { result ≡ register_value (known registers.now) register.0 }
{
    match registers.get(register) {
        Some(value) => Ok(value),
        None => Err(Unknown::Register(register)),
    }
}

// A base plus an offset in bytes.
fn moved(base: u64, offset: i64) -> Result<u64, Unknown>
    ensures { result ≡ moved base offset }
{
    match base.checked_add_signed(offset) {
        Some(address) => Ok(address),
        None => Err(Unknown::OutOfRange),
    }
}

// A register's value plus an offset in bytes.
fn offset_value(register: Register, offset: i64, registers: &KnownRegisters) -> Result<u64, Unknown>
    ensures { result ≡ offset_value (known registers.now) register.0 offset }
{
    match register_value(register, registers) {
        Ok(base) => moved(base, offset),
        Err(why) => Err(why),
    }
}

// The word at an offset in bytes from a CFA.
fn word_from_cfa<F: FnMut(u64) -> Result<u64, ()>>(
    cfa: u64,
    offset: i64,
    read: &mut F,
) -> Result<u64, Unknown>
    requires { F.IsAlwaysCallable read.old }
    ensures callable { F.IsAlwaysCallable read.new }
    ensures value { OverWords F.step read.old read.new (λ words.
        result ≡ known_then (moved cfa offset) (word_value words)) }
{
    match moved(cfa, offset) {
        Ok(at) => word_value(at, read),
        Err(why) => Err(why),
    }
}

// The value of a register of the caller that has no rule: the CFA is the stack pointer, and functions leave some registers as they
// were.
fn unruled_value(cfa: u64, register: Register, registers: &KnownRegisters) -> Result<u64, Unknown>
    ensures { result ≡ unruled_value registers.now.architecture (known registers.now)
        cfa register.0 }
{
    let architecture = registers.architecture();
    if register.0 == architecture.stack_pointer() {
        return Ok(cfa);
    }
    if architecture.is_saved_by_callees(register.0) {
        return register_value(register, registers);
    }
    Err(Unknown::Register(register))
}

// The return address if its register has no rule: it is still there, unless that is the instruction pointer.
fn unruled_return(register: Register, registers: &KnownRegisters) -> Result<Option<u64>, Unknown>
    ensures { result ≡ unruled_return registers.now.architecture (known registers.now) register.0 }
{
    if register.0 == registers.architecture().instruction_pointer() {
        return Err(Unknown::Register(register));
    }
    match register_value(register, registers) {
        Ok(address) => Ok(Some(address)),
        Err(why) => Err(why),
    }
}

impl<'a, R: Reader, Rules: ArrayLike<Item = RuledRegister<RegisterRule<R::Offset>>>> RowPlace<
    'a,
    R,
    Rules,
> {
    // The value of an expression of the section, with a value on its stack first if there is one.
    fn expression_value<F: FnMut(u64) -> Result<u64, ()>>(
        &self,
        expression: UnwindExpression<R::Offset>,
        first: Option<u64>,
        read: &mut F,
    ) -> Result<u64, Unknown>
        requires { F.IsAlwaysCallable read.old }
        ensures callable { F.IsAlwaysCallable read.new }
        ensures value { OverRow F.step read.old read.new self.now (λ r.
            result ≡ computed r first (expression_as R.Offset.value expression)) }
    {
        match self.bytes_of(expression) {
            Ok(bytes) => evaluate(Expression(bytes), first, self.registers, read),
            Err(error) => Err(Unknown::Expression(error)),
        }
    }

    /// The canonical frame address.
    pub(crate) fn cfa_value<F: FnMut(u64) -> Result<u64, ()>>(
        &self,
        rule: CfaRule<R::Offset>,
        read: &mut F,
    ) -> Result<u64, Unknown>
        requires { F.IsAlwaysCallable read.old }
        ensures callable { F.IsAlwaysCallable read.new }
        ensures value { OverRow F.step read.old read.new self.now (λ r.
            result ≡ cfa_value r (cfa_as R.Offset.value rule)) }
    {
        match rule {
            CfaRule::RegisterAndOffset { register, offset } => {
                offset_value(register, offset, self.registers)
            }
            CfaRule::Expression(expression) => self.expression_value(expression, None, read),
        }
    }

    // The word at the value of an expression, on whose stack the CFA is first.
    fn word_by_expression<F: FnMut(u64) -> Result<u64, ()>>(
        &self,
        expression: UnwindExpression<R::Offset>,
        cfa: u64,
        read: &mut F,
    ) -> Result<u64, Unknown>
        requires { F.IsAlwaysCallable read.old }
        ensures callable { F.IsAlwaysCallable read.new }
        ensures value { OverRow F.step read.old read.new self.now (λ r.
            result ≡ word_computed r cfa (expression_as R.Offset.value expression)) }
    {
        match self.expression_value(expression, Some(cfa), read) {
            Ok(at) => word_value(at, read),
            Err(why) => Err(why),
        }
    }

    // The value that a register's rule gives at a CFA.
    fn rule_value<F: FnMut(u64) -> Result<u64, ()>>(
        &self,
        rule: RegisterRule<R::Offset>,
        cfa: u64,
        register: Register,
        read: &mut F,
    ) -> Result<u64, Unknown>
        requires { F.IsAlwaysCallable read.old }
        ensures callable { F.IsAlwaysCallable read.new }
        ensures value { OverRow F.step read.old read.new self.now (λ r.
            result ≡ rule_value r cfa register.0 (rule_as R.Offset.value rule)) }
    {
        match rule {
            RegisterRule::Undefined | RegisterRule::Architectural => {
                Err(Unknown::Register(register))
            }
            RegisterRule::SameValue => register_value(register, self.registers),
            RegisterRule::Offset(offset) => word_from_cfa(cfa, offset, read),
            RegisterRule::ValOffset(offset) => moved(cfa, offset),
            RegisterRule::Register(other) => register_value(other, self.registers),
            RegisterRule::Expression(expression) => self.word_by_expression(expression, cfa, read),
            RegisterRule::ValExpression(expression) => {
                self.expression_value(expression, Some(cfa), read)
            }
            RegisterRule::Constant(number) => Ok(number),
        }
    }

    /// The value of a register of the caller, by its rule if it has one.
    pub(crate) fn given_by<F: FnMut(u64) -> Result<u64, ()>>(
        &self,
        rule: Option<RegisterRule<R::Offset>>,
        cfa: u64,
        register: Register,
        read: &mut F,
    ) -> Result<u64, Unknown>
        requires { F.IsAlwaysCallable read.old }
        ensures callable { F.IsAlwaysCallable read.new }
        ensures value { OverRow F.step read.old read.new self.now (λ r.
            result ≡ given_by r cfa register.0 (column_as R.Offset.value rule)) }
    {
        match rule {
            Some(rule) => self.rule_value(rule, cfa, register, read),
            None => unruled_value(cfa, register, self.registers),
        }
    }

    // The return address by a rule of its register that isn't `Undefined`.
    fn stated_return<F: FnMut(u64) -> Result<u64, ()>>(
        &self,
        rule: RegisterRule<R::Offset>,
        cfa: u64,
        read: &mut F,
    ) -> Result<Option<u64>, Unknown>
        requires { F.IsAlwaysCallable read.old }
        ensures callable { F.IsAlwaysCallable read.new }
        ensures value { OverRow F.step read.old read.new self.now (λ r.
            result ≡ stated_return r cfa (rule_as R.Offset.value rule)) }
    {
        match self.rule_value(rule, cfa, self.column, read) {
            Ok(address) => Ok(Some(address)),
            Err(why) => Err(why),
        }
    }

    // The return address by a rule of its register.
    fn ruled_return<F: FnMut(u64) -> Result<u64, ()>>(
        &self,
        rule: RegisterRule<R::Offset>,
        cfa: u64,
        read: &mut F,
    ) -> Result<Option<u64>, Unknown>
        requires { F.IsAlwaysCallable read.old }
        ensures callable { F.IsAlwaysCallable read.new }
        ensures value { OverRow F.step read.old read.new self.now (λ r.
            result ≡ ruled_return r cfa (rule_as R.Offset.value rule)) }
    {
        match rule {
            RegisterRule::Undefined => Ok(None),
            _ => self.stated_return(rule, cfa, read),
        }
    }

    /// The return address by the rule of its register, which may still be signed. `None` says that there is no caller.
    pub(crate) fn return_by<F: FnMut(u64) -> Result<u64, ()>>(
        &self,
        rule: Option<RegisterRule<R::Offset>>,
        cfa: u64,
        read: &mut F,
    ) -> Result<Option<u64>, Unknown>
        requires { F.IsAlwaysCallable read.old }
        ensures callable { F.IsAlwaysCallable read.new }
        ensures value { OverRow F.step read.old read.new self.now (λ r.
            result ≡ return_by r cfa (column_as R.Offset.value rule)) }
    {
        match rule {
            Some(rule) => self.ruled_return(rule, cfa, read),
            None => unruled_return(self.column, self.registers),
        }
    }
}
