//! The rules of a row as a map, which is a list in the order of the registers.

ghost use Rattle.std.specs.Prelude.{◌≡◌, ◌↔◌, ◌+◌, ◌<◌, ◌≤◌, ◌^◌, ℕ, [], ◌∷◌, ◌++◌, length, take, IfOk, IfErr, IsErr, IsNone, IsOk, IsSome, IsTrue, OnErr, OnOk, slice_set};
ghost use Rattle.std.specs.FinMap as map;
ghost use Rattle.std.specs.List as list;
ghost use Rattle.dwarf_storage.specs.Capacity.{IsWithin};
ghost use Rattle.dwarf_frame_rows.specs.RuleList.{IsIncreasing, IsPlaceOf, rule_at};
ghost use Rattle.dwarf_frame_rows.specs.RuleMap.{HasEachOnce, HoldsRules, map_of};

use crate::RuledRegister;
use dwarf_constants::{Error, Register, Result};
use dwarf_readers::{Counted, Steps, count_steps};
use dwarf_storage::{ArrayLike, PushError};
use std::alloc::{AllocError, Global};
use std::cmp::Ordering;
use std::marker::{Model, PhantomData};
use std::sync::ledger::Ledger;

/// The rules of a row, at most one for each register, in the order of the registers' numbers.
#[derive(Drop)]
#[derive_where(Debug; Rules)]
pub(crate) struct RegisterRuleMap<V, Rules: ArrayLike<Item = RuledRegister<V>>> {
    rules: Rules,
    #[derive_where(skip)]
    of: PhantomData<V>,
}

impl<V, Rules: ArrayLike<Item = RuledRegister<V>>> Model for RegisterRuleMap<V, Rules> {
    ghost use Rattle.std.specs.Ordering.{nat_cmp};
    ghost use Rattle.std.specs.FinMap as map;
    ghost use Rattle.std.specs.Coded.{coded_ℕ};
    ghost use Rattle.dwarf_frame_rows.specs.RuleList.{IsIncreasing};
    ghost use Rattle.dwarf_frame_rows.specs.RuleMap.{map_of};

    ghost Value = { map.FinMap nat_cmp V };

    ghost coded = { map.code coded_ℕ V.code };

    ghost view = { λ m. map_of (Rules.items m.rules) };

    ghost invariant = { λ m. IsIncreasing (Rules.items m.rules) };
}

// Whether a list can have this many items, whatever it has now.
#[inline(always)]
pub(crate) fn can_have<L: ArrayLike>(list: &L, items: usize) -> bool
    ensures { IsTrue result ↔ IsWithin L.capacity items }
{
    let len = list.as_slice().len();
    if items <= len {
        true
    } else {
        list.has_room_for(items - len)
    }
}

/// The rules of no row.
impl<V, Rules: ArrayLike<Item = RuledRegister<V>> + Default> Default for RegisterRuleMap<V, Rules> {
    ghost use Rattle.std.specs.Prelude.{◌≡◌};
    ghost use Rattle.std.specs.FinMap as map;

    ghost is_default = { λ rules. rules ≡ map.empty };

    fn default() -> Self {
        let mut rules = Rules::default();
        rules.clear();
        RegisterRuleMap {
            rules,
            of: PhantomData,
        }
    }
}

/// Equality of the maps: each register has equal rules in both, or none in either.
impl<V: PartialEq + Copy, Rules: ArrayLike<Item = RuledRegister<V>>> PartialEq
    for RegisterRuleMap<V, Rules> {
    ghost use Rattle.dwarf_frame_rows.specs.SameRules.{same_rules, same_rules-partial};

    ghost eq = { same_rules V.eq };

    ghost laws = { same_rules-partial V.eq V.laws };

    fn eq(&self, other: &Self) -> bool {
        self.rules.as_slice() == other.rules.as_slice()
    }
}

impl<V: Eq + Copy, Rules: ArrayLike<Item = RuledRegister<V>>> Eq for RegisterRuleMap<V, Rules> {
    ghost use Rattle.dwarf_frame_rows.specs.SameRules.{same_rules-equivalence};

    ghost laws = { same_rules-equivalence V.eq V.Eq.laws };
}

impl<V: Copy, Rules: ArrayLike<Item = RuledRegister<V>>> RegisterRuleMap<V, Rules> {
    // No rules.
    pub(crate) fn new_in(alloc: Global) -> std::result::Result<Self, AllocError>
        ensures empty { IfOk result (λ m. m ≡ map.empty) }
        ensures memory { IsTrue Rules.is_made_in_place → IsOk result }
    {
        Ok(RegisterRuleMap {
            rules: Rules::new_in(alloc)?,
            of: PhantomData,
        })
    }

    // The register's rule, if it has one.
    pub(crate) fn get(&self, register: Register) -> Option<V>
        ensures { result ≡ map.get self.now register.0 }
    {
        let pairs = self.rules.as_slice();
        rule_at(pairs, place_by_halves(pairs, register))
    }

    // As `get`; it counts a step for each rule whose register it compares.
    pub(crate) fn get_counted<L: Ledger>(
        &self,
        register: Register,
        steps: &mut Steps<L>,
    ) -> Option<V>
        ensures rule { result ≡ map.get self.now register.0 }
        ensures few { (k : ℕ) → map.len self.now < 2 ^ k → steps.new ≤ steps.old + k }
        ensures some { 0 < map.len self.now → steps.old < steps.new }
        ensures enough { IsNone result → (k : ℕ) → 2 ^ k ≤ map.len self.now + 1
            → steps.old + k ≤ steps.new }
    {
        let pairs = self.rules.as_slice();
        rule_at(pairs, place_counted(pairs, register, steps))
    }

    // How many registers have a rule.
    pub(crate) fn len(&self) -> usize
        ensures { result ≡ map.len self.now }
    {
        self.rules.as_slice().len()
    }

    // Whether a map can have rules of this many registers, whatever it has now.
    #[inline(always)]
    pub(crate) fn can_have(&self, rules: usize) -> bool
        ensures { IsTrue result ↔ IsWithin Rules.capacity rules }
    {
        can_have(&self.rules, rules)
    }

    // Takes all rules away.
    pub(crate) fn clear(&mut self)
        ensures { self.new ≡ map.empty }
    {
        self.rules.clear();
    }

    // The registers that have a rule, each once, with their rules.
    pub(crate) fn pairs(&self) -> &[RuledRegister<V>]
        ensures map { map_of result.now ≡ self.now }
        ensures once { HasEachOnce result.now }
    {
        self.rules.as_slice()
    }

    // Takes the register's rule away, if it has one.
    pub(crate) fn remove(&mut self, register: Register)
        ensures { self.new ≡ map.remove self.old register.0 }
    {
        if let Ok(index) = place_of(self.rules.as_slice(), register) {
            remove(&mut self.rules, index);
        }
    }

    // Gives the register this rule, in place of any that it has. An `Err` changes nothing.
    #[inline(always)]
    pub(crate) fn set(&mut self, register: Register, rule: V) -> Result<()>
        ensures room { HoldsRules Rules.capacity
            (map.len (map.insert self.old register.0 rule)) result }
        ensures ok { OnOk result (self.new ≡ map.insert self.old register.0 rule) }
        ensures err { OnErr result (self.new ≡ self.old) }
    {
        let ruled = RuledRegister { register, rule };
        match place_to_set(self.rules.as_slice(), register) {
            Ok(index) => {
                write(&mut self.rules, index, ruled);
                Ok(())
            }
            Err(index) => insert(&mut self.rules, index, ruled),
        }
    }

    // Becomes the same map as another. An `Err` leaves no rules.
    pub(crate) fn copy_from(&mut self, source: &Self) -> Result<()>
        ensures ok { OnOk result (self.new ≡ source.now) }
        ensures memory { IsSome Rules.capacity → IsOk result }
        ensures error { IfErr result (λ e. e ≡ Error.OutOfMemory) }
    {
        match copy(&mut self.rules, source.rules.as_slice()) {
            Ok(()) => Ok(()),
            Err(error) => {
                self.rules.clear();
                Err(error)
            }
        }
    }
}

// The index of a register's pair, or else that at which it would be.
type Place = std::result::Result<usize, usize>;

// The place of a register, by halves. It counts a step for each pair whose register it compares.
fn place_counted<V, L: Ledger>(
    pairs: &[RuledRegister<V>],
    register: Register,
    steps: &mut Steps<L>,
) -> Place
    ensures place { IsIncreasing pairs.now → IsPlaceOf register.0 pairs.now result }
    ensures few { (k : ℕ) → length pairs.now < 2 ^ k → steps.new ≤ steps.old + k }
    ensures some { 0 < length pairs.now → steps.old < steps.new }
    ensures enough { IsErr result → (k : ℕ) → 2 ^ k ≤ length pairs.now + 1
        → steps.old + k ≤ steps.new }
{
    let mut low = 0;
    let mut len = pairs.len();
    'halves: while len > 0 {
        let half = len / 2;
        let middle = low + half;
        steps.tick();
        match pairs[middle].register.0.cmp(&register.0) {
            Ordering::Equal => return Ok(middle),
            Ordering::Less => {
                low = middle + 1;
                len -= half + 1;
            }
            Ordering::Greater => len = half,
        }
    }
    Err(low)
}

// A search for a place whose steps nobody asks for.
#[derive(Drop)]
struct PlaceLookup<'p, V> {
    pairs: &'p [RuledRegister<V>],
    register: Register,
}

impl<'p, V> Counted for PlaceLookup<'p, V> {
    ghost use Rattle.dwarf_frame_rows.specs.RuleList.{IsIncreasing, IsPlaceOf};

    type Answer = Place;

    ghost says = { λ lookup place n.
        IsIncreasing lookup.pairs.now → IsPlaceOf lookup.register.0 lookup.pairs.now place };

    fn run<L: Ledger>(self, steps: &mut Steps<L>) -> Place {
        place_counted(self.pairs, self.register, steps)
    }
}

// The place of a register, as `place_counted` finds it.
fn place_by_halves<V>(pairs: &[RuledRegister<V>], register: Register) -> Place
    ensures { IsIncreasing pairs.now → IsPlaceOf register.0 pairs.now result }
{
    count_steps(PlaceLookup { pairs, register })
}

// The place of a register, for a change there.
fn place_of<V>(pairs: &[RuledRegister<V>], register: Register) -> Place
    ensures { IsIncreasing pairs.now → IsPlaceOf register.0 pairs.now result }
{
    if pairs.len() <= FEW_RULES {
        place_from_end(pairs, register)
    } else {
        place_by_halves(pairs, register)
    }
}

// Up to how many rules a pass from the end finds a place as fast as halving does.
const FEW_RULES: usize = 8;

// The place of a register, by a pass from the end.
fn place_from_end<V>(pairs: &[RuledRegister<V>], register: Register) -> Place
    ensures { IsIncreasing pairs.now → IsPlaceOf register.0 pairs.now result }
{
    let mut index = pairs.len();
    'above: while index > 0 {
        let last = pairs[index - 1].register.0;
        if last == register.0 {
            return Ok(index - 1);
        }
        if last < register.0 {
            return Err(index);
        }
        index -= 1;
    }
    Err(0)
}

// As `place_of`, by one comparison if the register is the last or above it.
fn place_to_set<V>(pairs: &[RuledRegister<V>], register: Register) -> Place
    ensures { IsIncreasing pairs.now → IsPlaceOf register.0 pairs.now result }
{
    let count = pairs.len();
    if count <= FEW_RULES {
        return place_from_end(pairs, register);
    }
    match pairs[count - 1].register.0.cmp(&register.0) {
        Ordering::Equal => Ok(count - 1),
        Ordering::Less => Err(count),
        Ordering::Greater => place_of(pairs, register),
    }
}

// The rule of the pair at a place, if there is one.
fn rule_at<V: Copy>(pairs: &[RuledRegister<V>], place: Place) -> Option<V>
    ensures { result ≡ rule_at pairs.now place }
{
    let index = place.ok()?;
    Some(pairs.get(index)?.rule)
}

// Writes a pair over another.
fn write<V: Copy, Rules: ArrayLike<Item = RuledRegister<V>>>(
    rules: &mut Rules,
    index: usize,
    ruled: RuledRegister<V>,
)
    ensures { Rules.items rules.new ≡ slice_set (Rules.items rules.old) index ruled }
{
    if let Some(pair) = rules.item_mut(index) {
        *pair = ruled;
    }
}

// Puts a pair at the end.
fn push<V: Copy, Rules: ArrayLike<Item = RuledRegister<V>>>(
    rules: &mut Rules,
    ruled: RuledRegister<V>,
) -> Result<()>
    ensures room { HoldsRules Rules.capacity (length (Rules.items rules.old) + 1) result }
    ensures ok { OnOk result (Rules.items rules.new ≡ Rules.items rules.old ++ ruled ∷ []) }
    ensures err { OnErr result (Rules.items rules.new ≡ Rules.items rules.old) }
{
    match rules.try_push(ruled) {
        Ok(()) => Ok(()),
        Err(PushError::CapacityFull) => Err(Error::TooManyRegisterRules),
        Err(PushError::OutOfMemory) => Err(Error::OutOfMemory),
    }
}

// Puts a pair at an index, and moves those from it on up by one.
#[inline(always)]
fn insert<V: Copy, Rules: ArrayLike<Item = RuledRegister<V>>>(
    rules: &mut Rules,
    index: usize,
    ruled: RuledRegister<V>,
) -> Result<()>
    requires { index ≤ length (Rules.items rules.old) }
    ensures room { HoldsRules Rules.capacity (length (Rules.items rules.old) + 1) result }
    ensures ok { OnOk result
        (Rules.items rules.new ≡ list.insert (Rules.items rules.old) index ruled) }
    ensures err { OnErr result (Rules.items rules.new ≡ Rules.items rules.old) }
{
    let mut hole = rules.as_slice().len();
    push(rules, ruled)?;
    if hole == index {
        return Ok(());
    }
    'moved: while hole > index {
        let before = rules.as_slice()[hole - 1];
        write(rules, hole, before);
        hole -= 1;
    }
    write(rules, hole, ruled);
    Ok(())
}

// Takes the pair at an index out, and moves those after it down by one.
fn remove<V: Copy, Rules: ArrayLike<Item = RuledRegister<V>>>(rules: &mut Rules, index: usize)
    requires { index < length (Rules.items rules.old) }
    ensures { Rules.items rules.new ≡ list.remove (Rules.items rules.old) index }
{
    let last = rules.as_slice().len() - 1;
    let mut hole = index;
    'moved: while hole < last {
        let after = rules.as_slice()[hole + 1];
        write(rules, hole, after);
        hole += 1;
    }
    let _ = rules.pop();
}

// Writes the first of some pairs over those that are there.
fn overwrite<V: Copy, Rules: ArrayLike<Item = RuledRegister<V>>>(
    rules: &mut Rules,
    pairs: &[RuledRegister<V>],
)
    requires { length (Rules.items rules.old) ≤ length pairs.now }
    ensures { Rules.items rules.new ≡ take (length (Rules.items rules.old)) pairs.now }
{
    for index in 0..rules.as_slice().len() {
        write(rules, index, pairs[index]);
    }
}

// Puts some pairs in place of those that are there.
fn copy<V: Copy, Rules: ArrayLike<Item = RuledRegister<V>>>(
    rules: &mut Rules,
    pairs: &[RuledRegister<V>],
) -> Result<()>
    requires { IsWithin Rules.capacity (length pairs.now) }
    ensures ok { OnOk result (Rules.items rules.new ≡ pairs.now) }
    ensures memory { IsSome Rules.capacity → IsOk result }
    ensures error { IfErr result (λ e. e ≡ Error.OutOfMemory) }
{
    if rules.as_slice().len() > pairs.len() {
        rules.clear();
    }
    overwrite(rules, pairs);
    for index in rules.as_slice().len()..pairs.len() {
        push(rules, pairs[index])?;
    }
    Ok(())
}
