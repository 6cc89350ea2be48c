//! A row of the table that call frame instructions describe (DWARF 5, 6.4.1).

ghost use Rattle.std.specs.Prelude.{◌≡◌, ◌+◌, ◌<◌, ◌≤◌, ◌^◌, ℕ, IfErr, IfOk, IsNone, IsOk, IsSome, IsTrue, OnErr, OnOk};
ghost use Rattle.std.specs.Slice.Iter.{iter_rest};
ghost use Rattle.std.specs.FinMap.{empty, get, insert, len, remove};
ghost use Rattle.dwarf_frame_rows.specs.RuleMap.{HasEachOnce, HoldsRules, map_of};

use crate::rule_map::RegisterRuleMap;
use crate::{CfaRule, RegisterRule, RuledRegister};
use dwarf_constants::{Error, Register, Result};
use dwarf_readers::{Counted, ReaderOffset, Steps, count_steps};
use dwarf_storage::ArrayLike;
use std::alloc::{AllocError, Global};
use std::slice::Iter;
use std::sync::ledger::Ledger;

/// The registers of a row that have a rule, each once, with their rules.
pub type RegisterRuleIter<'a, T> = Iter<'a, RuledRegister<RegisterRule<T>>>;

/// A row: from its start up to its end, how the CFA and the caller's registers are found, and the
/// size of the arguments that the caller pushed. `Rules` is the list that holds the registers' rules.
#[derive(Drop)]
#[derive_where(Debug; T, Rules)]
#[derive_where(PartialEq, Eq; T)]
pub struct UnwindTableRow<
    T: ReaderOffset,
    Rules: ArrayLike<Item = RuledRegister<RegisterRule<T>>>,
> {
    start_address: u64,
    end_address: u64,
    saved_args_size: u64,
    cfa: CfaRule<T>,
    registers: RegisterRuleMap<RegisterRule<T>, Rules>,
}

/// An element of a list that holds no row yet.
impl<T: ReaderOffset, Rules: ArrayLike<Item = RuledRegister<RegisterRule<T>>> + Default> Default
    for UnwindTableRow<T, Rules> {
    ghost use Rattle.std.specs.Prelude.{◌≡◌};
    ghost use Rattle.dwarf_frame_rows.specs.Row.{first_row, row_of};

    ghost is_default = { λ row. row_of row ≡ first_row };

    fn default() -> Self {
        UnwindTableRow::before_any_instruction(RegisterRuleMap::default())
    }
}

impl<T: ReaderOffset, Rules: ArrayLike<Item = RuledRegister<RegisterRule<T>>>> UnwindTableRow<
    T,
    Rules,
> {
    ghost use Rattle.dwarf_frame_rows.specs.Row.{first_row, holds_at, row_of, with_parts_of};

    // A row before any instruction.
    pub(crate) fn new_in(alloc: Global) -> std::result::Result<Self, AllocError>
        ensures empty { IfOk result (λ row. row_of row ≡ first_row) }
        ensures memory { IsTrue Rules.is_made_in_place → IsOk result }
    {
        Ok(UnwindTableRow::before_any_instruction(RegisterRuleMap::new_in(alloc)?))
    }

    // A row before any instruction, which keeps its rules in a map that has none.
    fn before_any_instruction(registers: RegisterRuleMap<RegisterRule<T>, Rules>) -> Self
        requires { registers ≡ empty }
        ensures { row_of result ≡ first_row }
    {
        UnwindTableRow {
            start_address: 0,
            end_address: 0,
            saved_args_size: 0,
            cfa: CfaRule::default(),
            registers,
        }
    }

    /// The address at which the row starts.
    pub fn start_address(&self) -> u64
        ensures { result ≡ (row_of self.now).start }
    {
        self.start_address
    }

    /// The first address after the row.
    pub fn end_address(&self) -> u64
        ensures { result ≡ (row_of self.now).end }
    {
        self.end_address
    }

    /// Whether the address is in the row: from its start up to its end, without the end.
    pub fn contains(&self, address: u64) -> bool
        ensures { result ≡ holds_at address (row_of self.now) }
    {
        self.start_address <= address && address < self.end_address
    }

    /// The size in bytes of the arguments that the caller has pushed.
    pub fn saved_args_size(&self) -> u64
        ensures { result ≡ (row_of self.now).saved_args_size }
    {
        self.saved_args_size
    }

    /// How the CFA is found.
    pub fn cfa(&self) -> &CfaRule<T>
        ensures { result.now ≡ (row_of self.now).cfa }
    {
        &self.cfa
    }

    /// How the register is found, if it has a rule.
    pub fn register(&self, register: Register) -> Option<RegisterRule<T>>
        ensures { result ≡ get (row_of self.now).rules register.0 }
    {
        count_steps(RegisterLookup {
            row: self,
            register,
        })
    }

    /// As `register`; it counts a step for each register that it compares, which are at most
    /// floor(log2(n)) + 1 of n > 0 that have a rule, and at least floor(log2(n + 1)) if this one has none.
    pub fn register_counted<L: Ledger>(
        &self,
        register: Register,
        steps: &mut Steps<L>,
    ) -> Option<RegisterRule<T>>
        ensures rule { result ≡ get (row_of self.now).rules register.0 }
        ensures few { (k : ℕ) → len (row_of self.now).rules < 2 ^ k → steps.new ≤ steps.old + k }
        ensures some { 0 < len (row_of self.now).rules → steps.old < steps.new }
        ensures enough { IsNone result → (k : ℕ) → 2 ^ k ≤ len (row_of self.now).rules + 1
            → steps.old + k ≤ steps.new }
    {
        self.registers.get_counted(register, steps)
    }

    /// The registers that have a rule, each once, with their rules, in any order.
    pub fn registers(&self) -> RegisterRuleIter<'_, T>
        ensures rules { map_of (iter_rest result) ≡ (row_of self.now).rules }
        ensures once { HasEachOnce (iter_rest result) }
    {
        self.registers.pairs().iter()
    }

    // Sets the bounds.
    pub(crate) fn set_bounds(&mut self, start_address: u64, end_address: u64)
        ensures { row_of self.new ≡ record (row_of self.old) {
          start = start_address;
          end = end_address;
        } }
    {
        self.start_address = start_address;
        self.end_address = end_address;
    }

    // Becomes the row before any instruction.
    pub(crate) fn clear(&mut self)
        ensures { row_of self.new ≡ first_row }
    {
        self.start_address = 0;
        self.end_address = 0;
        self.saved_args_size = 0;
        self.cfa = CfaRule::default();
        self.registers.clear();
    }

    // Becomes another row, within its own bounds.
    pub(crate) fn copy_parts_from(&mut self, source: &Self) -> Result<()>
        ensures ok { OnOk result
            (row_of self.new ≡ with_parts_of (row_of source.now) (row_of self.old)) }
        ensures memory { IsSome Rules.capacity → IsOk result }
        ensures error { IfErr result (λ e. e ≡ Error.OutOfMemory) }
    {
        self.saved_args_size = source.saved_args_size;
        self.cfa = source.cfa;
        self.registers.copy_from(&source.registers)
    }

    // Becomes the same row as another.
    pub(crate) fn copy_from(&mut self, source: &Self) -> Result<()>
        ensures ok { OnOk result (row_of self.new ≡ row_of source.now) }
        ensures memory { IsSome Rules.capacity → IsOk result }
        ensures error { IfErr result (λ e. e ≡ Error.OutOfMemory) }
    {
        self.set_bounds(source.start_address, source.end_address);
        self.copy_parts_from(source)
    }

    // Sets the rule of the CFA.
    pub(crate) fn set_cfa(&mut self, rule: CfaRule<T>)
        ensures { row_of self.new ≡ record (row_of self.old) { cfa = rule } }
    {
        self.cfa = rule;
    }

    // Sets the size in bytes of the arguments that the caller pushed.
    pub(crate) fn set_saved_args_size(&mut self, size: u64)
        ensures { row_of self.new ≡ record (row_of self.old) { saved_args_size = size } }
    {
        self.saved_args_size = size;
    }

    // Gives the register this rule. An `Err` changes nothing.
    #[inline(always)]
    pub(crate) fn set_rule(&mut self, register: Register, rule: RegisterRule<T>) -> Result<()>
        ensures room { HoldsRules Rules.capacity
            (len (insert (row_of self.old).rules register.0 rule)) result }
        ensures ok { OnOk result (row_of self.new ≡ record (row_of self.old) {
          rules = insert (row_of self.old).rules register.0 rule;
        }) }
        ensures err { OnErr result (row_of self.new ≡ row_of self.old) }
    {
        self.registers.set(register, rule)
    }

    // Takes the register's rule away, if it has one.
    pub(crate) fn remove_rule(&mut self, register: Register)
        ensures { row_of self.new ≡ record (row_of self.old) {
          rules = remove (row_of self.old).rules register.0;
        } }
    {
        self.registers.remove(register);
    }

    // The rules of the registers.
    pub(crate) fn rules(&self) -> &RegisterRuleMap<RegisterRule<T>, Rules>
        ensures { result.now ≡ (row_of self.now).rules }
    {
        &self.registers
    }
}

// A lookup of a register whose steps nobody asks for.
#[derive(Drop)]
struct RegisterLookup<
    'r,
    T: ReaderOffset,
    Rules: ArrayLike<Item = RuledRegister<RegisterRule<T>>>,
> {
    row: &'r UnwindTableRow<T, Rules>,
    register: Register,
}

impl<'r, T: ReaderOffset, Rules: ArrayLike<Item = RuledRegister<RegisterRule<T>>>> Counted
    for RegisterLookup<'r, T, Rules> {
    ghost use Rattle.std.specs.Prelude.{◌≡◌};
    ghost use Rattle.std.specs.FinMap.{get};
    ghost use Rattle.dwarf_frame_rows.specs.Row.{row_of};

    type Answer = Option<RegisterRule<T>>;

    ghost says = { λ lookup rule n. rule ≡ get (row_of lookup.row.now).rules lookup.register.0 };

    fn run<L: Ledger>(self, steps: &mut Steps<L>) -> Option<RegisterRule<T>> {
        self.row.register_counted(self.register, steps)
    }
}
