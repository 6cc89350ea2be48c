//! What RSP and RBP hold after instructions, by what the registers and the stack hold now.
ghost use Rattle.std.specs.Prelude.{◌≡◌, ◌+ℤ◌, pos, negsuc, [], Some, None, true, false, if◌then◌else◌, option_map};
ghost use Rattle.framehop_x86_instructions.specs.declared.address.Base.TheVariants.{StackPointer};
ghost use Rattle.framehop_x86_instructions.specs.declared.effect.Effect.TheVariants.{Unknown};
ghost use Rattle.framehop_x86_ways.specs.HeldViews.{saved_if, held_in, held_if};
ghost use Rattle.framehop_x86_ways.specs.Values.{is_near, value_of, moved_by, slot_at, is_same_base, is_apart, is_in_frame, is_below_now, value_by_distance, if_in_frame, value_by_base, value_behind, word_at, loaded, register_value, with_register, saved_in, saved_below, pushed_value, is_carried, saved_after_store, values_after_pop, values_after_leave, value_if_kept, with_lost, values_after, saved_after, held_after, held_after_way, values_now, returned};
ghost use Rattle.framehop_x86_ways.specs.declared.values.Value.TheVariants.{Any};

use crate::executed::Executed;
use arrayvec::ArrayVec;
use framehop_registers::x86_64::Reg;
use framehop_x86_instructions::{Address, Base, Effect, Registers};

/// The most words that are kept as stored, as many as a way has instructions.
pub const MOST_SAVED: usize = 128;

/// What a register holds.
#[derive(Clone, Copy, Debug, PartialEq, Eq, Default)]
pub enum Value {
    /// what a base holds now, plus a number of bytes
    Address { base: Base, bytes: i32 },
    /// the word that is now so many bytes from a base
    Word { base: Base, bytes: i32 },
    /// anything
    #[default]
    Any,
}

/// What RSP and RBP hold.
#[derive(Clone, Copy, Debug, PartialEq, Eq)]
pub struct Values {
    pub sp: Value,
    pub fp: Value,
}

/// What RSP and RBP hold once the function has returned, and the return address.
#[derive(Clone, Copy, Debug, PartialEq, Eq)]
pub struct Returned {
    pub sp: Value,
    pub fp: Value,
    pub return_address: Value,
}

/// A word that was stored so many bytes from a base, and what it is.
#[derive(Clone, Copy, Debug, PartialEq, Eq)]
pub struct Saved {
    pub base: Base,
    pub bytes: i32,
    pub value: Value,
    /// a call stored it, which may change all that is lower
    pub is_call: bool,
}

/// One at RSP that isn't known, at the start.
impl Default for Saved {
    ghost is_default = { λ saved. saved ≡ record { base = StackPointer; bytes = pos 0; value = Any; is_call = false } };

    fn default() -> Saved {
        Saved {
            base: Base::StackPointer,
            bytes: 0,
            value: Value::Any,
            is_call: false,
        }
    }
}

/// What RSP and RBP hold, and what was stored.
#[derive(Drop)]
pub struct Held {
    pub values: Values,
    pub saved: ArrayVec<Saved, MOST_SAVED>,
}

/// A place on the stack, in bytes from a base now.
type Slot = (Base, i32);

// A sum, if it has 32 bits.
fn near_sum(bytes: i32, by: i64) -> Option<i32>
    ensures { result ≡ (if is_near (bytes +ℤ by) then Some (bytes +ℤ by) else None) }
{
    let sum = i64::from(bytes).checked_add(by)?;
    i32::try_from(sum).ok()
}

// A value that goes up by a number of bytes.
fn moved(value: Value, by: i64) -> Value
    ensures { result ≡ moved_by value by }
{
    match value {
        Value::Address { base, bytes } => match near_sum(bytes, by) {
            Some(bytes) => Value::Address { base, bytes },
            None => Value::Any,
        },
        _ => Value::Any,
    }
}

// The word so many bytes from where a value leads, if that is an address.
fn slot_at(value: Value, by: i64) -> Option<Slot>
    ensures { result ≡ slot_at value by }
{
    match value {
        Value::Address { base, bytes } => {
            let bytes = near_sum(bytes, by)?;
            Some((base, bytes))
        }
        _ => None,
    }
}

/// Whether two bases are the same.
pub fn is_same_base(one: Base, other: Base) -> bool
    ensures { result ≡ is_same_base one other }
{
    match (one, other) {
        (Base::StackPointer, Base::StackPointer) | (Base::FramePointer, Base::FramePointer) => true,
        _ => false,
    }
}

// Whether a word that was stored leaves another as it was, from which it is so many bytes.
fn is_apart(is_call: bool, distance: i64) -> bool
    ensures { result ≡ is_apart is_call distance }
{
    distance <= -8 || (distance >= 8 && !is_call)
}

// Whether a word is where RBP leads now or higher.
fn is_in_frame(base: Base, bytes: i32) -> bool
    ensures { result ≡ is_in_frame base bytes }
{
    match base {
        Base::StackPointer => false,
        Base::FramePointer => bytes >= 0,
    }
}

// Whether a word is below where RSP leads now.
fn is_below_now(base: Base, bytes: i32) -> bool
    ensures { result ≡ is_below_now base bytes }
{
    match base {
        Base::StackPointer => bytes <= -8,
        Base::FramePointer => false,
    }
}

// What a word holds, by a word that was stored since so many bytes from it.
fn value_by_distance(distance: i64, before: Value, saved: Saved) -> Value
    ensures { result ≡ value_by_distance distance before saved }
{
    if distance == 0 {
        saved.value
    } else if is_apart(saved.is_call, distance) {
        before
    } else {
        Value::Any
    }
}

// A value that is a word by RBP.
fn if_in_frame(value: Value) -> Value
    ensures { result ≡ if_in_frame value }
{
    match value {
        Value::Word {
            base: Base::FramePointer,
            bytes,
        } => Value::Word {
            base: Base::FramePointer,
            bytes,
        },
        _ => Value::Any,
    }
}

// What a word holds, by a word that was stored since from the other base.
fn value_by_base(slot: Slot, before: Value, saved: Saved) -> Value
    ensures { result ≡ value_by_base slot.0 slot.1 before saved }
{
    let (base, bytes) = slot;
    if is_in_frame(base, bytes) && is_below_now(saved.base, saved.bytes) {
        if_in_frame(before)
    } else {
        Value::Any
    }
}

// What a word holds, by a word that was stored since.
fn value_behind(slot: Slot, before: Value, saved: Saved) -> Value
    ensures { result ≡ value_behind slot.0 slot.1 before saved }
{
    let (base, bytes) = slot;
    if is_same_base(saved.base, base) {
        let distance = i64::from(saved.bytes) - i64::from(bytes);
        value_by_distance(distance, before, saved)
    } else {
        value_by_base(slot, before, saved)
    }
}

// What a word holds, by all that was stored.
fn word_at(saved: &[Saved], slot: Slot) -> Value
    ensures { result ≡ word_at saved.now slot.0 slot.1 }
{
    let (base, bytes) = slot;
    let mut value = Value::Word { base, bytes };
    for one in saved {
        value = value_behind(slot, value, *one);
    }
    value
}

// What is loaded.
fn loaded(saved: &[Saved], base: Value, by: i64) -> Value
    ensures { result ≡ loaded saved.now base by }
{
    match slot_at(base, by) {
        Some(slot) => word_at(saved, slot),
        None => Value::Any,
    }
}

fn value_if_kept(is_lost: bool, value: Value) -> Value
    ensures { result ≡ value_if_kept is_lost value }
{
    if is_lost { Value::Any } else { value }
}

// Whether stores of a register are kept.
fn is_carried(register: Reg) -> bool
    ensures { result ≡ is_carried register }
{
    match register {
        Reg::RSP | Reg::RBP => true,
        _ => false,
    }
}

impl Values {
    /// What they hold now.
    pub const NOW: Values = Values {
        sp: Value::Address {
            base: Base::StackPointer,
            bytes: 0,
        },
        fp: Value::Address {
            base: Base::FramePointer,
            bytes: 0,
        },
    };

    // What a base holds.
    fn of(self, base: Base) -> Value
        ensures { result ≡ value_of self base }
    {
        match base {
            Base::StackPointer => self.sp,
            Base::FramePointer => self.fp,
        }
    }

    // What a register holds.
    fn register(self, register: Reg) -> Value
        ensures { result ≡ register_value self register }
    {
        match register {
            Reg::RSP => self.sp,
            Reg::RBP => self.fp,
            _ => Value::Any,
        }
    }

    // A register holds another value.
    fn with_register(self, register: Reg, value: Value) -> Values
        ensures { result ≡ with_register self register value }
    {
        match register {
            Reg::RSP => Values { sp: value, ..self },
            Reg::RBP => Values { fp: value, ..self },
            _ => self,
        }
    }

    // What a push stores.
    fn pushed(self, register: Option<Reg>) -> Value
        ensures { result ≡ pushed_value self register }
    {
        match register {
            Some(register) => self.register(register),
            None => Value::Any,
        }
    }

    fn with_lost(self, lost: Registers) -> Values
        ensures { result ≡ with_lost self lost }
    {
        Values {
            sp: value_if_kept(lost.contains(Reg::RSP), self.sp),
            fp: value_if_kept(lost.contains(Reg::RBP), self.fp),
        }
    }

    // What they hold after a pop.
    fn after_pop(self, saved: &[Saved], register: Option<Reg>) -> Values
        ensures { result ≡ values_after_pop self saved.now register }
    {
        let raised = Values {
            sp: moved(self.sp, 8),
            ..self
        };
        match register {
            Some(register) => raised.with_register(register, loaded(saved, self.sp, 0)),
            None => raised,
        }
    }

    // What they hold after LEAVE.
    fn after_leave(self, saved: &[Saved]) -> Values
        ensures { result ≡ values_after_leave self saved.now }
    {
        Values {
            sp: moved(self.fp, 8),
            fp: loaded(saved, self.fp, 0),
        }
    }

    // What they hold after an instruction.
    fn after(self, saved: &[Saved], effect: Effect) -> Values
        ensures { result ≡ values_after effect self saved.now }
    {
        match effect {
            Effect::Push(_) => Values {
                sp: moved(self.sp, -8),
                ..self
            },
            Effect::Pop(register) => self.after_pop(saved, register),
            Effect::Leave => self.after_leave(saved),
            Effect::Move { to, base, bytes } => {
                self.with_register(to, moved(self.of(base), bytes))
            }
            Effect::Load { to, from } => {
                self.with_register(to, loaded(saved, self.of(from.base), from.bytes))
            }
            Effect::Plain(registers) => self.with_lost(registers),
            _ => self,
        }
    }
}

impl Held {
    // Nothing is stored yet.
    fn now() -> Held
        ensures values { result.values ≡ values_now }
        ensures saved { result.saved.items ≡ [] }
    {
        Held {
            values: Values::NOW,
            saved: ArrayVec::new(),
        }
    }

    // A word is stored; `false` if nothing more can be said.
    fn save(&mut self, at: Option<Slot>, value: Value, is_call: bool) -> bool
        ensures saved { saved_in self.old.saved.items value is_call at ≡ saved_if result self.new }
        ensures values { self.new.values ≡ self.old.values }
    {
        match at {
            Some((base, bytes)) => {
                let one = Saved {
                    base,
                    bytes,
                    value,
                    is_call,
                };
                self.saved.try_push(one).is_ok()
            }
            None => false,
        }
    }

    // The word below RSP is stored.
    fn save_below(&mut self, value: Value, is_call: bool) -> bool
        ensures saved { saved_below self.old.values self.old.saved.items value is_call
            ≡ saved_if result self.new }
        ensures values { self.new.values ≡ self.old.values }
    {
        let at = slot_at(self.values.sp, -8);
        self.save(at, value, is_call)
    }

    // A register is stored.
    fn store(&mut self, from: Reg, to: Address) -> bool
        ensures saved { saved_after_store self.old.values self.old.saved.items from to
            ≡ saved_if result self.new }
        ensures values { self.new.values ≡ self.old.values }
    {
        if !is_carried(from) {
            return true;
        }
        let at = slot_at(self.values.of(to.base), to.bytes);
        let value = self.values.register(from);
        self.save(at, value, false)
    }

    // What is stored after an instruction.
    fn save_by(&mut self, effect: Effect) -> bool
        ensures saved { saved_after effect self.old.values self.old.saved.items
            ≡ saved_if result self.new }
        ensures values { self.new.values ≡ self.old.values }
    {
        match effect {
            Effect::Push(register) => {
                let value = self.values.pushed(register);
                self.save_below(value, false)
            }
            Effect::Call => self.save_below(Value::Any, true),
            Effect::Store { from, to } => self.store(from, to),
            Effect::Return { bytes } => bytes == 0,
            Effect::Unknown => false,
            _ => true,
        }
    }

    // An instruction is executed.
    fn execute(&mut self, effect: Effect) -> bool
        ensures { held_after effect self.old.values self.old.saved.items
            ≡ held_if result self.new }
    {
        let values = self.values.after(self.saved.as_slice(), effect);
        if !self.save_by(effect) {
            return false;
        }
        self.values = values;
        true
    }

    /// What is held after instructions; `None` if nothing can be said.
    pub fn after(way: &[Executed]) -> Option<Held>
        ensures { option_map held_in result ≡ held_after_way way.now }
    {
        let mut held = Held::now();
        for one in way {
            if !held.execute(one.instruction.effect) {
                return None;
            }
        }
        Some(held)
    }

    /// What RSP and RBP hold, and the return address, once the function has returned from there.
    pub fn returned(&self) -> Returned
        ensures { result ≡ returned self.now.values self.now.saved.items }
    {
        Returned {
            sp: moved(self.values.sp, 8),
            fp: self.values.fp,
            return_address: loaded(self.saved.as_slice(), self.values.sp, 0),
        }
    }
}
