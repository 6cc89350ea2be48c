//! The values of a row's CFA and register rules, if no unwind rule says the row (DWARF 5, 6.4.1).

ghost use Rattle.std.specs.Prelude.{◌≡◌, ◌≢◌, ℕ, true, None, Some, Option, IfErr, IfOk, option_and_then};
ghost use Rattle.dwarf_constants.specs.declared.common.Register.{Register};
ghost use Rattle.dwarf_readers.specs.InitialLength.{is_size};
ghost use Rattle.framehop_registers.specs.Callback.{OverWords};
ghost use Rattle.dwarf_frame_instructions.specs.InstructionViews.{expression_as};
ghost use Rattle.dwarf_frame_instructions.specs.StateViews.{cfa_as, rule_as};
ghost use Rattle.framehop_rows.specs.Columns.{found_by, value_found};
ghost use Rattle.framehop_rows.specs.RowValues.{Evaluates, EvaluatesOver, cfa_in, column_in};
ghost use Rattle.framehop_rows.specs.ExpressionValue.{program_value};
ghost use Rattle.dwarf_frame_parts.specs.RowParts.{column_as};
ghost use Rattle.framehop_rows.specs.RowSources.{direct_sources, sum_of, value_by_expression, word_below_cfa};
ghost use Rattle.framehop_rows.specs.Memory.{IsColumnExpression, IsExpression, TakesMemory};

use dwarf_constants::{Encoding, Error, Register};
use dwarf_expressions::{Evaluation, EvaluationResult, EvaluationStorage, Value};
use dwarf_frame_rows::{_UnwindSectionPrivate, CfaRule, RegisterRule, UnwindExpression};
use dwarf_operations::Expression;
use dwarf_readers::{Reader, is_address_size};
use std::alloc::{AllocError, Global};

/// The registers of a frame, by their DWARF numbers.
pub trait DwarfUnwindRegs {
    /// The registers that have values, with these.
    ghost value: { Self → Register → Option ℕ };

    /// The value of a register, if it has one.
    fn get(&self, register: Register) -> Option<u64>
        ensures { result ≡ value self.now register };
}

// A base plus an offset in bytes. `None` if the base or the sum isn't from 0 to below 2^63.
fn offset_sum(base: u64, offset: i64) -> Option<u64>
    ensures { result ≡ sum_of base offset }
{
    let base = i64::try_from(base).ok()?;
    u64::try_from(base.checked_add(offset)?).ok()
}

// The result of an evaluation that failed: no value, or out of memory.
fn refused_value(error: Error) -> Result<Option<u64>, AllocError>
    ensures none { IfOk result (λ value. value ≡ None) }
    ensures other { IfOk result (λ value. error ≢ Error.OutOfMemory) }
    ensures memory { IfErr result (λ _. error ≡ Error.OutOfMemory) }
{
    match error {
        Error::OutOfMemory => Err(AllocError),
        _ => Ok(None),
    }
}

// The value of an expression. Each register that it asks for has its value in the frame. There is none
// if the evaluation fails, or asks for a register that has none.
fn eval_expression<S: EvaluationStorage, R: Reader, G: DwarfUnwindRegs>(
    alloc: Global,
    expression: Expression<R>,
    encoding: Encoding,
    regs: &G,
) -> Result<Option<u64>, AllocError>
    requires { is_size encoding.address_size ≡ true }
    ensures value { Evaluates result (program_value S.Stack.capacity encoding.address_size
        (R.stretch expression.0) (G.value regs.now)) }
    ensures memory { IfErr result (λ _. TakesMemory S.Stack.is_made_in_place S.Stack.capacity) }
{
    let Ok(mut evaluation) = Evaluation::<R, S>::new_in(alloc, expression, encoding) else {
        return Err(AllocError);
    };
    let mut answer = evaluation.evaluate();
    'requests: loop {
        match answer {
            Ok(EvaluationResult::Complete) => return Ok(evaluation.value_result()),
            Ok(EvaluationResult::RequiresRegister { register }) => {
                let Some(value) = regs.get(register) else {
                    return Ok(None);
                };
                answer = evaluation.resume_with_register(Value::Generic(value));
            }
            Err(error) => return refused_value(error),
        }
    }
}

// The value of an expression of a section. Each register that it asks for has its value in the frame. There
// is none if its bytes aren't in the section, or `eval_expression` gives none.
fn eval_expression_in<
    S: EvaluationStorage,
    R: Reader,
    Section: _UnwindSectionPrivate<R>,
    G: DwarfUnwindRegs,
>(
    alloc: Global,
    section: &Section,
    expression: UnwindExpression<R::Offset>,
    encoding: Encoding,
    regs: &G,
) -> Result<Option<u64>, AllocError>
    ensures value { Evaluates result
        (value_by_expression S.Stack.capacity encoding.address_size
        (R.stretch (Section.reader section.now)) (G.value regs.now)
        (expression_as R.Offset.value expression)) }
    ensures memory { IfErr result (λ _. TakesMemory S.Stack.is_made_in_place S.Stack.capacity) }
{
    if !is_address_size(encoding.address_size) {
        return Ok(None);
    }
    match expression.get(section) {
        Ok(expression) => eval_expression::<S, R, G>(alloc, expression, encoding, regs),
        Err(_) => Ok(None),
    }
}

// A register's value plus an offset in bytes, if it has a value.
fn offset_value<G: DwarfUnwindRegs>(register: Register, offset: i64, regs: &G) -> Option<u64>
    ensures { result ≡ option_and_then (λ base. sum_of base offset) (G.value regs.now register) }
{
    offset_sum(regs.get(register)?, offset)
}

/// The canonical frame address (DWARF 5, 6.4.1), if it has a value: a register of the frame plus an offset in
/// bytes, or the value of an expression. Addresses have the size that `encoding` says. Only the values of an
/// expression may allocate.
pub fn eval_cfa_rule<
    S: EvaluationStorage,
    R: Reader,
    Section: _UnwindSectionPrivate<R>,
    G: DwarfUnwindRegs,
>(
    alloc: Global,
    section: &Section,
    rule: CfaRule<R::Offset>,
    encoding: Encoding,
    regs: &G,
) -> Result<Option<u64>, AllocError>
    ensures value { Evaluates result (cfa_in S.Stack.capacity encoding
        (R.stretch (Section.reader section.now)) (G.value regs.now)
        (cfa_as R.Offset.value rule)) }
    ensures expression { IfErr result (λ _. IsExpression (cfa_as R.Offset.value rule)) }
    ensures memory { IfErr result (λ _. TakesMemory S.Stack.is_made_in_place S.Stack.capacity) }
{
    match rule {
        CfaRule::RegisterAndOffset { register, offset } => Ok(offset_value(register, offset, regs)),
        CfaRule::Expression(expression) => {
            eval_expression_in::<S, R, Section, G>(alloc, section, expression, encoding, regs)
        }
    }
}

// Where the value of a register of the caller is found.
#[derive(Debug, Clone, Copy, PartialEq, Eq)]
pub(crate) enum Found {
    // It is this number.
    Value(u64),
    // It is the word of the stack at this address.
    Word(u64),
}

// Where the value that a register rule gives at a CFA is found, if it gives one; `own` is the register's
// value in the frame. Only the values of an expression may allocate.
fn find_value<
    S: EvaluationStorage,
    R: Reader,
    Section: _UnwindSectionPrivate<R>,
    G: DwarfUnwindRegs,
>(
    alloc: Global,
    section: &Section,
    rule: RegisterRule<R::Offset>,
    cfa: u64,
    own: u64,
    encoding: Encoding,
    regs: &G,
) -> Result<Option<Found>, AllocError>
    ensures value { Evaluates result
        (found_by (direct_sources S.Stack.capacity encoding.address_size
        (R.stretch (Section.reader section.now)) (G.value regs.now)) cfa own
        (rule_as R.Offset.value rule)) }
    ensures expression { IfErr result (λ _.
        IsColumnExpression (Some (rule_as R.Offset.value rule))) }
    ensures memory { IfErr result (λ _. TakesMemory S.Stack.is_made_in_place S.Stack.capacity) }
{
    match rule {
        RegisterRule::Undefined | RegisterRule::Architectural | RegisterRule::Constant(_) => {
            Ok(None)
        }
        RegisterRule::SameValue => Ok(Some(Found::Value(own))),
        RegisterRule::Offset(offset) => Ok(offset_sum(cfa, offset).map(Found::Word)),
        RegisterRule::ValOffset(offset) => Ok(offset_sum(cfa, offset).map(Found::Value)),
        RegisterRule::Register(register) => Ok(regs.get(register).map(Found::Value)),
        RegisterRule::Expression(expression) => {
            let at = eval_expression_in::<S, R, Section, G>(
                alloc, section, expression, encoding, regs,
            )?;
            Ok(at.map(Found::Word))
        }
        RegisterRule::ValExpression(expression) => {
            let value = eval_expression_in::<S, R, Section, G>(
                alloc, section, expression, encoding, regs,
            )?;
            Ok(value.map(Found::Value))
        }
    }
}

// The value that was found, if its word can be read.
fn read_found<F: FnMut(u64) -> Result<u64, ()>>(found: Found, read_stack: &mut F) -> Option<u64>
    requires { F.IsAlwaysCallable read_stack.old }
    ensures callable { F.IsAlwaysCallable read_stack.new }
    ensures value { OverWords F.step read_stack.old read_stack.new (λ words.
        result ≡ value_found words found) }
{
    match found {
        Found::Value(value) => Some(value),
        Found::Word(at) => read_at(read_stack, at),
    }
}

/// The value that a register rule (DWARF 5, 6.4.1) gives at a CFA, if there is a rule and it gives one; `own` is
/// the register's value in the frame. `read_stack` reads a word of the stack at an address. Only the values of
/// an expression may allocate.
pub fn eval_register_rule<
    S: EvaluationStorage,
    R: Reader,
    Section: _UnwindSectionPrivate<R>,
    G: DwarfUnwindRegs,
    F: FnMut(u64) -> Result<u64, ()>,
>(
    alloc: Global,
    section: &Section,
    rule: Option<RegisterRule<R::Offset>>,
    cfa: u64,
    encoding: Encoding,
    own: u64,
    regs: &G,
    read_stack: &mut F,
) -> Result<Option<u64>, AllocError>
    requires { F.IsAlwaysCallable read_stack.old }
    ensures callable { F.IsAlwaysCallable read_stack.new }
    ensures value { EvaluatesOver F.step read_stack.old read_stack.new result
        (column_in S.Stack.capacity encoding
        (R.stretch (Section.reader section.now)) (G.value regs.now)
        cfa own (column_as R.Offset.value rule)) }
    ensures expression { IfErr result (λ _.
        IsColumnExpression (column_as R.Offset.value rule)) }
    ensures memory { IfErr result (λ _. TakesMemory S.Stack.is_made_in_place S.Stack.capacity) }
{
    let Some(rule) = rule else {
        return Ok(None);
    };
    match find_value::<S, R, Section, G>(alloc, section, rule, cfa, own, encoding, regs)? {
        Some(found) => Ok(read_found(found, read_stack)),
        None => Ok(None),
    }
}

// The word below a CFA, if it can be read.
pub(crate) fn read_below<F: FnMut(u64) -> Result<u64, ()>>(
    cfa: u64,
    read_stack: &mut F,
) -> Option<u64>
    requires { F.IsAlwaysCallable read_stack.old }
    ensures callable { F.IsAlwaysCallable read_stack.new }
    ensures value { OverWords F.step read_stack.old read_stack.new (λ words.
        result ≡ word_below_cfa words cfa) }
{
    let at = cfa.checked_sub(8)?;
    read_at(read_stack, at)
}

// The word of the stack at an address, if it can be read.
fn read_at<F: FnMut(u64) -> Result<u64, ()>>(read_stack: &mut F, at: u64) -> Option<u64>
    requires { F.IsAlwaysCallable read_stack.old }
    ensures callable { F.IsAlwaysCallable read_stack.new }
    ensures value { OverWords F.step read_stack.old read_stack.new (λ words.
        result ≡ words at) }
{
    match read_stack(at) {
        Ok(word) => Some(word),
        Err(()) => None,
    }
}
