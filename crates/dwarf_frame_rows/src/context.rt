//! The context in which call frame instructions are executed (DWARF 5, 6.4.2).

ghost use Rattle.std.specs.Prelude.{◌≡◌, ◌≤◌, ◌<◌, ◌+◌, ◌↔◌, IfErr, IfOk, IfSome, IsOk, IsSome, IsTrue, None, Some, true, OnErr, OnOk, drop, length, take, slice_index_or};
ghost use Rattle.std.specs.FinMap.{get};
ghost use Rattle.dwarf_storage.specs.Capacity.{HasRoom, IsWithin};
ghost use Rattle.dwarf_frame_rows.specs.Row.{FollowsRows, SameAround, row_of, rules_of_first, with_parts_of};
ghost use Rattle.dwarf_frame_rows.specs.RuleMap.{rules_of_one};
ghost use Rattle.dwarf_frame_rows.specs.Effects.{Limits, TakesNoMemory, initial_rows, is_within, limits_of, negated_rule};

use crate::rule_map::{RegisterRuleMap, can_have};
use crate::{Effect, RegisterRule, RuledRegister, UnwindTableRow};
use arrayvec::ArrayVec;
use dwarf_constants::{AArch64, Error, Register, Result};
use dwarf_readers::ReaderOffset;
use dwarf_storage::{ArrayLike, ReservedVec, StoreOnHeap};
use std::alloc::{AllocError, Global};

/// The lists in which the rows of a context are stored, and the rules of a row.
pub trait UnwindContextStorage<T: ReaderOffset> {
    /// The rules of a row.
    type Rules: ArrayLike<Item = RuledRegister<RegisterRule<T>>>;
    /// The rows.
    type Stack: ArrayLike<Item = UnwindTableRow<T, Self::Rules>>;

    /// How many rules a row has room for, and how many rows there is room for.
    ghost limits: { Limits };

    /// The limits are the capacities of the two lists.
    ghost limited: { limits ≡ limits_of Self.Rules.capacity Self.Stack.capacity };

    /// No call on a context fails because memory runs out.
    ghost never_allocates: { Type 0 };

    /// That is so if the rules of a row are made in place, and both lists have limits, and only then.
    ghost allocates_never: { never_allocates ↔ TakesNoMemory Self.Rules.is_made_in_place limits };

    /// There is room for a row.
    ghost room: { HasRoom Self.Stack.capacity 0 };
}

/// How many rules a row of [`StoreOnHeap`] holds.
const MAX_RULES: usize = 192;

/// How many rows [`StoreOnHeap`] holds.
const MAX_ROWS: usize = 4;

/// A row of [`StoreOnHeap`].
type HeapRow<T> = UnwindTableRow<T, ArrayVec<RuledRegister<RegisterRule<T>>, MAX_RULES>>;

/// Up to 4 rows, which are on the heap, of up to 192 rules each.
impl<T: ReaderOffset> UnwindContextStorage<T> for StoreOnHeap {
    ghost use Rattle.std.proofs.Common.{lit≤, refl};

    type Rules = ArrayVec<RuledRegister<RegisterRule<T>>, MAX_RULES>;

    type Stack = ReservedVec<HeapRow<T>, MAX_ROWS>;

    ghost limits = { limits_of (Some 192) (Some 4) };

    ghost limited = { refl };

    ghost never_allocates = { TakesNoMemory true (limits_of (Some 192) (Some 4)) };

    ghost allocates_never = { (λ t. t, λ t. t) };

    ghost room = { lit≤ tt };
}

/// A law of [`StoreOnHeap`]: a row has room for 192 rules, which are in place, there is room for 4 rows,
/// and no call on a context allocates. The function does nothing when the program runs.
pub fn store_on_heap_has_room<T: ReaderOffset>()
    ensures limits { ⟦<StoreOnHeap as UnwindContextStorage<T>>⟧.limits
        ≡ limits_of (Some 192) (Some 4) }
    ensures in_place { IsTrue
        ⟦<<StoreOnHeap as UnwindContextStorage<T>>::Rules as ArrayLike>⟧.is_made_in_place }
    ensures never { ⟦<StoreOnHeap as UnwindContextStorage<T>>⟧.never_allocates }
{}

// The rules that the CIE's own instructions left.
#[derive(Clone, Copy)]
enum InitialRules<T> {
    // The CIE's own instructions aren't executed.
    Unknown,
    // At most one, as most CIEs leave.
    AtMostOne(Option<RuledRegister<RegisterRule<T>>>),
    // Those of the first row of the list.
    OfFirstRow,
}

/// The current row of a program, the rows on its stack, and the rules that its CIE's instructions left.
/// A context can be used for one program after another.
#[derive(Drop)]
pub struct UnwindContext<T: ReaderOffset, S: UnwindContextStorage<T>> {
    row: UnwindTableRow<T, S::Rules>,
    // First a row for the initial rules, if they are two or more. Behind it those that are remembered,
    // the latest last, and after them some to be written over. The current row isn't in the list, so it
    // has room for the first whenever there is room for those that are remembered.
    saved: S::Stack,
    // How many of the rows behind the first are remembered; if there are fewer, all are.
    depth: usize,
    initial_rules: InitialRules<T>,
    alloc: Global,
}

impl<T: ReaderOffset> UnwindContext<T, StoreOnHeap> {
    ghost use Rattle.dwarf_frame_rows.specs.Contexts.{state_of};
    ghost use Rattle.dwarf_frame_rows.specs.Effects.{first_state};

    /// A context with rows on the heap, before any instruction. Fails only if it fails to allocate. No
    /// later call allocates.
    pub fn new(alloc: Global) -> std::result::Result<Self, AllocError>
        ensures { IfOk result (λ context.
            state_of ⟦<ReservedVec<HeapRow<T>, MAX_ROWS> as ArrayLike>⟧.items context
            ≡ first_state) }
    {
        UnwindContext::new_in(alloc)
    }
}

impl<T: ReaderOffset, S: UnwindContextStorage<T>> UnwindContext<T, S> {
    ghost use Rattle.dwarf_frame_rows.specs.Contexts.{Acts, NeedsNoMemory, SavesInitialRules, rule_by, state_of, with_initial_rules, with_row_remembered};
    ghost use Rattle.dwarf_frame_rows.specs.Effects.{first_state, negated_state, popped_state, pushed_state, ruled_state, state_after, state_by_initial_rules, with_bounds};

    /// A context before any instruction. Allocates only for lists that aren't made in place, and fails
    /// only if it fails to allocate.
    pub fn new_in(alloc: Global) -> std::result::Result<Self, AllocError>
        ensures empty { IfOk result (λ context. state_of S.Stack.items context ≡ first_state) }
        ensures memory { IsTrue S.Rules.is_made_in_place → IsTrue S.Stack.is_made_in_place
            → IsOk result }
    {
        Ok(UnwindContext {
            row: UnwindTableRow::new_in(alloc)?,
            saved: S::Stack::new_in(alloc)?,
            depth: 0,
            initial_rules: InitialRules::Unknown,
            alloc,
        })
    }

    /// The current row.
    pub fn row(&self) -> &UnwindTableRow<T, S::Rules>
        ensures { row_of result.now ≡ (state_of S.Stack.items self.now).row }
    {
        &self.row
    }

    /// Whether a row can have this many rules, and there can be this many rows, whatever the context holds now.
    #[inline(always)]
    pub fn can_have(&self, rules: usize, rows: usize) -> bool
        ensures { IsTrue result ↔ ((is_within S.limits.rules rules ≡ true) × (is_within S.limits.rows rows ≡ true)) }
    {
        self.row.rules().can_have(rules) && can_have(&self.saved, rows)
    }

    /// Sets the bounds of the current row.
    pub fn set_bounds(&mut self, start_address: u64, end_address: u64)
        ensures { state_of S.Stack.items self.new
            ≡ with_bounds start_address end_address (state_of S.Stack.items self.old) }
    {
        self.row.set_bounds(start_address, end_address);
    }

    /// Becomes a context before any instruction.
    pub fn clear(&mut self)
        ensures { state_of S.Stack.items self.new ≡ first_state }
    {
        self.row.clear();
        self.depth = 0;
        self.initial_rules = InitialRules::Unknown;
    }

    /// Keeps the current row's rules as those that the CIE's own instructions left, in place of any that
    /// were kept before. Two rules or more count as a row. Fails with `StackFull` if there is no room for
    /// that row, and with `OutOfMemory` only if there are two rules or more, in a storage that allocates.
    /// After an `Err` none are kept.
    pub fn save_initial_rules(&mut self) -> Result<()>
        ensures acts { SavesInitialRules S.limits (state_of S.Stack.items self.old)
            (state_of S.Stack.items self.new) result }
        ensures few { initial_rows (Some (state_of S.Stack.items self.old).row.rules) ≡ 0
            → NeedsNoMemory result }
        ensures memory { S.never_allocates → NeedsNoMemory result }
    {
        self.initial_rules = InitialRules::Unknown;
        if !self.has_room(1 + counted_rows(self.row.rules())) {
            return Err(Error::StackFull);
        }
        match at_most_one(self.row.rules()) {
            Some(rule) => {
                self.initial_rules = InitialRules::AtMostOne(rule);
                Ok(())
            }
            None => self.save_in_first_row(),
        }
    }

    // Keeps the current row's rules as the initial ones, in the first row of the list. An `Err` changes
    // nothing.
    fn save_in_first_row(&mut self) -> Result<()>
        requires { self.old.initial_rules ≡ InitialRules.Unknown }
        ensures ok { OnOk result (state_of S.Stack.items self.new
            ≡ with_initial_rules (state_of S.Stack.items self.old)) }
        ensures err { OnErr result (state_of S.Stack.items self.new
            ≡ state_of S.Stack.items self.old) }
        ensures error { IfErr result (λ e. e ≡ Error.OutOfMemory) }
        ensures memory { IsTrue S.Rules.is_made_in_place → IsSome S.Rules.capacity
            → IsSome S.Stack.capacity → IsOk result }
    {
        make_room(&mut self.saved, 0, self.alloc)?;
        save(&mut self.saved, 0, &self.row)?;
        self.initial_rules = InitialRules::OfFirstRow;
        Ok(())
    }

    /// Applies the effect of an instruction. An `Err` changes nothing. Fails with
    /// `TooManyRegisterRules` if a row has no room for a rule, with `StackFull` if there is no room for a
    /// row, with `PopWithEmptyStack` if no row is remembered, with `CfiInstructionInInvalidContext` if
    /// the effect needs a CFA rule or initial rules that there are not, or a sign state that is no
    /// constant, and with `OutOfMemory` only in a storage that allocates.
    #[inline(always)]
    pub fn apply(&mut self, effect: Effect<T>) -> Result<()>
        ensures acts { Acts (state_after S.limits effect)
            (state_of S.Stack.items self.old) (state_of S.Stack.items self.new) result }
        ensures memory { S.never_allocates → NeedsNoMemory result }
    {
        match effect {
            Effect::Move(_) | Effect::Nothing => Ok(()),
            Effect::Cfa(rule) => {
                self.row.set_cfa(rule);
                Ok(())
            }
            Effect::CfaRegister(register) => {
                let rule = self.row.cfa().with_register(register)?;
                self.row.set_cfa(rule);
                Ok(())
            }
            Effect::CfaOffset(offset) => {
                let rule = self.row.cfa().with_offset(offset)?;
                self.row.set_cfa(rule);
                Ok(())
            }
            Effect::Rule(register, rule) => self.set_rule(register, rule),
            Effect::RestoreRule(register) => self.restore_rule(register),
            Effect::NegateRaState => self.negate_ra_state(),
            Effect::ArgsSize(size) => {
                self.row.set_saved_args_size(size);
                Ok(())
            }
            Effect::Remember => self.remember(),
            Effect::Restore => self.restore(),
        }
    }

    // Gives the register this rule.
    #[inline(always)]
    fn set_rule(&mut self, register: Register, rule: RegisterRule<T>) -> Result<()>
        ensures acts { Acts
            (ruled_state S.limits register.0 rule)
            (state_of S.Stack.items self.old) (state_of S.Stack.items self.new) result }
        ensures memory { IsSome S.Rules.capacity → NeedsNoMemory result }
    {
        self.row.set_rule(register, rule)
    }

    // Gives the register the rule that the CIE's own instructions left, or none.
    #[inline(never)]
    fn restore_rule(&mut self, register: Register) -> Result<()>
        ensures acts { let of = state_of S.Stack.items in
            Acts (state_by_initial_rules S.limits register.0) (of self.old) (of self.new) result }
        ensures memory { IsSome S.Rules.capacity → NeedsNoMemory result }
    {
        match self.initial_rule(register)? {
            Some(rule) => self.set_rule(register, rule),
            None => {
                self.row.remove_rule(register);
                Ok(())
            }
        }
    }

    // The rule that the CIE's own instructions left the register, if any; once they are executed.
    fn initial_rule(&self, register: Register) -> Result<Option<RegisterRule<T>>>
        ensures { result ≡ rule_by register.0
            (state_of S.Stack.items self.now).initial_rules }
    {
        match self.initial_rules {
            InitialRules::Unknown => Err(Error::CfiInstructionInInvalidContext),
            InitialRules::AtMostOne(pair) => Ok(rule_of_one(pair, register)),
            InitialRules::OfFirstRow => Ok(rule_of_first(self.saved.as_slice(), register)),
        }
    }

    // Changes the return address between signed and not signed.
    #[inline(never)]
    fn negate_ra_state(&mut self) -> Result<()>
        ensures acts { Acts (negated_state S.limits)
            (state_of S.Stack.items self.old) (state_of S.Stack.items self.new) result }
        ensures memory { IsSome S.Rules.capacity → NeedsNoMemory result }
    {
        let rule = negated(self.row.register(AArch64::RA_SIGN_STATE))?;
        self.set_rule(AArch64::RA_SIGN_STATE, rule)
    }

    // Pushes the current row on the stack.
    fn remember(&mut self) -> Result<()>
        ensures acts { Acts (pushed_state S.limits)
            (state_of S.Stack.items self.old) (state_of S.Stack.items self.new) result }
        ensures memory { IsTrue S.Rules.is_made_in_place → IsSome S.Rules.capacity
            → IsSome S.Stack.capacity → NeedsNoMemory result }
    {
        if !self.has_room(2 + self.initial_rows()) {
            return Err(Error::StackFull);
        }
        self.push_row()
    }

    // Pushes the current row on the stack, for which there is room.
    fn push_row(&mut self) -> Result<()>
        requires { HasRoom S.Stack.capacity
            (length (state_of S.Stack.items self.old).remembered_rows + 1) }
        ensures ok { OnOk result (state_of S.Stack.items self.new
            ≡ with_row_remembered (state_of S.Stack.items self.old)) }
        ensures err { OnErr result (state_of S.Stack.items self.new
            ≡ state_of S.Stack.items self.old) }
        ensures error { IfErr result (λ e. e ≡ Error.OutOfMemory) }
        ensures memory { IsTrue S.Rules.is_made_in_place → IsSome S.Rules.capacity
            → IsSome S.Stack.capacity → IsOk result }
    {
        let rows = self.remembered_rows();
        self.depth = rows;
        make_room(&mut self.saved, 0, self.alloc)?;
        make_room(&mut self.saved, rows + 1, self.alloc)?;
        save(&mut self.saved, rows + 1, &self.row)?;
        self.depth = rows + 1;
        Ok(())
    }

    // Pops a row from the stack. The current row keeps its bounds.
    fn restore(&mut self) -> Result<()>
        ensures acts { Acts popped_state
            (state_of S.Stack.items self.old) (state_of S.Stack.items self.new) result }
        ensures memory { NeedsNoMemory result }
    {
        let rows = self.remembered_rows();
        if rows == 0 {
            return Err(Error::PopWithEmptyStack);
        }
        take_back(&mut self.saved, rows, &mut self.row);
        self.depth = rows - 1;
        Ok(())
    }

    // How many rows are remembered.
    fn remembered_rows(&self) -> usize
        ensures rows { result ≡ length (state_of S.Stack.items self.now).remembered_rows }
        ensures within { result ≤ length (drop 1 (S.Stack.items self.now.saved)) }
        ensures all { take result (drop 1 (S.Stack.items self.now.saved))
            ≡ take self.now.depth (drop 1 (S.Stack.items self.now.saved)) }
        ensures below_max { result < usize.MAX }
    {
        self.depth
            .min(self.saved.as_slice().len().saturating_sub(1))
    }

    // How many rows the CIE's rules count as.
    fn initial_rows(&self) -> usize
        ensures { result ≡ initial_rows (state_of S.Stack.items self.now).initial_rules }
    {
        match self.initial_rules {
            InitialRules::Unknown | InitialRules::AtMostOne(_) => 0,
            InitialRules::OfFirstRow => counted_rows_of_first(self.saved.as_slice()),
        }
    }

    // Whether there is room for this many rows beside those that are remembered.
    fn has_room(&self, more: usize) -> bool
        requires { more ≤ 3 }
        ensures { IsTrue result ↔ IsWithin S.Stack.capacity
            (length (state_of S.Stack.items self.now).remembered_rows + more) }
    {
        let spare = self.saved.as_slice().len() - self.remembered_rows();
        more <= spare || self.saved.has_room_for(more - spare)
    }
}

// How many rows the rules that are kept beside a row count as: one, if they are two or more.
fn counted_rows<V: Copy, Rules: ArrayLike<Item = RuledRegister<V>>>(
    rules: &RegisterRuleMap<V, Rules>,
) -> usize
    ensures { result ≡ initial_rows (Some rules.now) }
{
    if rules.len() >= 2 { 1 } else { 0 }
}

// How many rows the rules of the first of these rows count as.
fn counted_rows_of_first<T: ReaderOffset, Rules: ArrayLike<Item = RuledRegister<RegisterRule<T>>>>(
    rows: &[UnwindTableRow<T, Rules>],
) -> usize
    ensures { result ≡ initial_rows (Some (rules_of_first rows.now)) }
{
    match rows {
        [first, ..] => counted_rows(first.rules()),
        [] => 0,
    }
}

// The rule that the first of these rows has for the register, if there is one.
fn rule_of_first<T: ReaderOffset, Rules: ArrayLike<Item = RuledRegister<RegisterRule<T>>>>(
    rows: &[UnwindTableRow<T, Rules>],
    register: Register,
) -> Option<RegisterRule<T>>
    ensures { result ≡ get (rules_of_first rows.now) register.0 }
{
    match rows {
        [first, ..] => first.rules().get(register),
        [] => None,
    }
}

// The only rule or none, unless the rules are two or more.
fn at_most_one<V: Copy, Rules: ArrayLike<Item = RuledRegister<V>>>(
    rules: &RegisterRuleMap<V, Rules>,
) -> Option<Option<RuledRegister<V>>>
    ensures few { IfSome result (λ pair. rules_of_one pair ≡ rules.now) }
    ensures more { result ≡ None → initial_rows (Some rules.now) ≡ 1 }
{
    match rules.pairs() {
        [] => Some(None),
        [only] => Some(Some(*only)),
        _ => None,
    }
}

// The register's rule, if it is the only one that there is.
fn rule_of_one<V: Copy>(pair: Option<RuledRegister<V>>, register: Register) -> Option<V>
    ensures { result ≡ get (rules_of_one pair) register.0 }
{
    match pair {
        Some(only) if only.register == register => Some(only.rule),
        _ => None,
    }
}

// The rule of the sign state after it is negated, by its rule before, if it has one.
fn negated<T: Copy>(rule: Option<RegisterRule<T>>) -> Result<RegisterRule<T>>
    ensures { result ≡ negated_rule rule }
{
    match rule {
        None => Ok(RegisterRule::Constant(1)),
        Some(RegisterRule::Constant(state)) => Ok(RegisterRule::Constant(1 - state % 2)),
        Some(_) => Err(Error::CfiInstructionInInvalidContext),
    }
}

// Makes sure that there is a row at this index to be written over. A call of its own, so that a function
// that executes instructions has no room for a row on its stack.
#[inline(never)]
fn make_room<
    T: ReaderOffset,
    Rules: ArrayLike<Item = RuledRegister<RegisterRule<T>>>,
    Stack: ArrayLike<Item = UnwindTableRow<T, Rules>>,
>(saved: &mut Stack, index: usize, alloc: Global) -> Result<()>
    requires index { index ≤ length (Stack.items saved.old) }
    requires room { HasRoom Stack.capacity index }
    ensures there { OnOk result (index < length (Stack.items saved.new)) }
    ensures others { SameAround index (Stack.items saved.old) (Stack.items saved.new) }
    ensures first { rules_of_first (Stack.items saved.new)
        ≡ rules_of_first (Stack.items saved.old) }
    ensures error { IfErr result (λ e. e ≡ Error.OutOfMemory) }
    ensures memory { IsTrue Rules.is_made_in_place → IsSome Stack.capacity → IsOk result }
{
    if index < saved.as_slice().len() {
        return Ok(());
    }
    let Ok(row) = UnwindTableRow::new_in(alloc) else {
        return Err(Error::OutOfMemory);
    };
    match saved.try_push(row) {
        Ok(()) => Ok(()),
        Err(_) => Err(Error::OutOfMemory),
    }
}

// Writes a row over the one at this index.
fn save<
    T: ReaderOffset,
    Rules: ArrayLike<Item = RuledRegister<RegisterRule<T>>>,
    Stack: ArrayLike<Item = UnwindTableRow<T, Rules>>,
>(saved: &mut Stack, index: usize, row: &UnwindTableRow<T, Rules>) -> Result<()>
    requires { index < length (Stack.items saved.old) }
    ensures there { OnOk result (FollowsRows index (Stack.items saved.old) (Stack.items saved.new)
        (row_of row.now)) }
    ensures others { SameAround index (Stack.items saved.old) (Stack.items saved.new) }
    ensures error { IfErr result (λ e. e ≡ Error.OutOfMemory) }
    ensures memory { IsSome Rules.capacity → IsOk result }
{
    match saved.item_mut(index) {
        Some(saved_row) => saved_row.copy_from(row),
        None => Ok(()),
    }
}

// Gives a row the parts of the one at this index. If there is no memory to copy them, that row itself
// is taken out, and the last is put at its index.
#[inline(never)]
fn take_back<
    T: ReaderOffset,
    Rules: ArrayLike<Item = RuledRegister<RegisterRule<T>>>,
    Stack: ArrayLike<Item = UnwindTableRow<T, Rules>>,
>(saved: &mut Stack, index: usize, row: &mut UnwindTableRow<T, Rules>)
    requires { index < length (Stack.items saved.old) }
    ensures parts { row_of row.new ≡ with_parts_of
        (row_of (slice_index_or (Stack.items saved.old) index row.old)) (row_of row.old) }
    ensures before { take index (Stack.items saved.new) ≡ take index (Stack.items saved.old) }
{
    let (start, end) = (row.start_address(), row.end_address());
    if row.copy_parts_from(&saved.as_slice()[index]).is_err() {
        *row = saved.swap_remove(index);
        row.set_bounds(start, end);
    }
}
