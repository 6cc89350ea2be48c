//! What the stack pointer, the frame pointer and the link register hold after instructions, by what the registers and the stack
//! hold now.
ghost use Rattle.std.specs.Prelude.{◌≡◌, ◌+ℤ◌, pos, [], ◌∷◌, Some, None, if◌then◌else◌};
ghost use Rattle.framehop_ways.specs.declared.instruction.Instruction.TheVariants.{Store};
ghost use Rattle.framehop_ways.specs.HeldViews.{saved_if, held_if};
ghost use Rattle.framehop_ways.specs.Values.{is_near, value_of, with_base, moved_by, raised, slot_at, is_same_base, value_behind, word_at, loaded_from, loaded, with_register, if_link_register, register_value, with_raised, values_after_load, saved_in, is_carried, saved_after, saved_after_store, value_if_kept, with_lost, held_after, held_after_all, values_now};

use crate::executed::Executed;
use crate::instruction::{Access, Base, Instruction, Lost};
use arrayvec::ArrayVec;

/// The most stores of x29 and x30 that are kept.
pub const MOST_SAVED: usize = 32;

/// What a register holds.
#[derive(Clone, Copy, Debug, PartialEq, Eq, Default)]
pub enum Value {
    /// what a base holds now, plus a number of bytes
    Address { base: Base, bytes: i32 },
    /// the word that is now so many bytes from a base
    Word { base: Base, bytes: i32 },
    /// what the link register holds now
    LinkRegister,
    /// anything
    #[default]
    Any,
}

/// What the three registers hold.
#[derive(Clone, Copy, Debug, PartialEq, Eq)]
pub struct Values {
    pub sp: Value,
    pub fp: Value,
    pub lr: Value,
}

/// A word that was stored so many bytes from a base, and what it is.
#[derive(Clone, Copy, Debug, PartialEq, Eq, Default)]
pub struct Saved {
    pub base: Base,
    pub bytes: i32,
    pub value: Value,
}

/// What the three registers hold, and what was saved.
#[derive(Drop)]
pub struct Held {
    pub values: Values,
    pub saved: ArrayVec<Saved, MOST_SAVED>,
}

/// A place on the stack, in bytes from a base now.
type Slot = (Base, i32);

// A sum, if it has 32 bits.
fn near_sum(bytes: i32, by: i32) -> Option<i32>
    ensures { result ≡ (if is_near (bytes +ℤ by) then Some (bytes +ℤ by) else None) }
{
    bytes.checked_add(by)
}

// A value that goes up by a number of bytes.
fn moved(value: Value, by: i32) -> Value
    ensures { result ≡ moved_by value by }
{
    match value {
        Value::Address { base, bytes } => match near_sum(bytes, by) {
            Some(bytes) => Value::Address { base, bytes },
            None => Value::Any,
        },
        _ => Value::Any,
    }
}

// The same, or whatever it is for 0.
fn raised(value: Value, by: i32) -> Value
    ensures { result ≡ raised value by }
{
    if by == 0 { value } else { moved(value, by) }
}

// Where a load or a store is, if the base holds an address.
fn slot_at(value: Value, by: i32) -> Option<Slot>
    ensures { result ≡ slot_at value by }
{
    match value {
        Value::Address { base, bytes } => {
            let bytes = near_sum(bytes, by)?;
            Some((base, bytes))
        }
        _ => None,
    }
}

fn is_same_base(one: Base, other: Base) -> bool
    ensures { result ≡ is_same_base one other }
{
    match (one, other) {
        (Base::StackPointer, Base::StackPointer) | (Base::FramePointer, Base::FramePointer) => true,
        _ => false,
    }
}

// What a word holds, by a word that was saved since.
fn value_behind(slot: Slot, before: Value, saved: Saved) -> Value
    ensures { result ≡ value_behind slot.0 slot.1 before saved }
{
    let (base, bytes) = slot;
    if !is_same_base(saved.base, base) {
        return Value::Any;
    }
    let distance = i64::from(saved.bytes) - i64::from(bytes);
    if distance == 0 {
        saved.value
    } else if distance >= 8 || distance <= -8 {
        before
    } else {
        Value::Any
    }
}

// What a word holds, by all that was saved.
fn word_at(saved: &[Saved], slot: Slot) -> Value
    ensures { result ≡ word_at saved.now slot.0 slot.1 }
{
    let (base, bytes) = slot;
    let mut value = Value::Word { base, bytes };
    for one in saved {
        value = value_behind(slot, value, *one);
    }
    value
}

// How many bytes from the base the words of an access are.
fn first_bytes(access: Access) -> i32
    ensures { result ≡ access.offset }
{
    i32::from(access.offset)
}

fn second_bytes(access: Access) -> i32
    ensures { result ≡ access.offset +ℤ pos 8 }
{
    i32::from(access.offset) + 8
}

// What is loaded.
fn loaded(saved: &[Saved], base: Value, by: i32) -> Value
    ensures { result ≡ loaded saved.now base by }
{
    match slot_at(base, by) {
        Some(slot) => word_at(saved, slot),
        None => Value::Any,
    }
}

fn value_if_kept(is_lost: bool, value: Value) -> Value
    ensures { result ≡ value_if_kept is_lost value }
{
    if is_lost { Value::Any } else { value }
}

// What a link register is known to be where it is stored: what it is now, but for the bits of a signature.
fn if_link_register(value: Value) -> Value
    ensures { result ≡ if_link_register value }
{
    match value {
        Value::LinkRegister => Value::LinkRegister,
        _ => Value::Any,
    }
}

impl Values {
    /// What they hold now.
    pub const NOW: Values = Values {
        sp: Value::Address {
            base: Base::StackPointer,
            bytes: 0,
        },
        fp: Value::Address {
            base: Base::FramePointer,
            bytes: 0,
        },
        lr: Value::LinkRegister,
    };

    // What a base holds.
    fn of(self, base: Base) -> Value
        ensures { result ≡ value_of self base }
    {
        match base {
            Base::StackPointer => self.sp,
            Base::FramePointer => self.fp,
        }
    }

    fn with_base(self, base: Base, value: Value) -> Values
        ensures { result ≡ with_base self base value }
    {
        match base {
            Base::StackPointer => Values { sp: value, ..self },
            Base::FramePointer => Values { fp: value, ..self },
        }
    }

    // The register of the three with a number holds another value.
    fn with_register(self, number: u8, value: Value) -> Values
        ensures { result ≡ with_register self number value }
    {
        match number {
            29 => Values { fp: value, ..self },
            30 => Values { lr: value, ..self },
            _ => self,
        }
    }

    // What the register with a number holds.
    fn register(self, number: u8) -> Value
        ensures { result ≡ register_value self number }
    {
        match number {
            29 => self.fp,
            30 => if_link_register(self.lr),
            _ => Value::Any,
        }
    }

    // The base after an access.
    fn with_raised(self, access: Access) -> Values
        ensures { result ≡ with_raised self access }
    {
        self.with_base(
            access.base,
            raised(self.of(access.base), i32::from(access.raise)),
        )
    }

    fn with_lost(self, lost: Lost) -> Values
        ensures { result ≡ with_lost self lost }
    {
        Values {
            sp: value_if_kept(lost.sp, self.sp),
            fp: value_if_kept(lost.fp, self.fp),
            lr: value_if_kept(lost.lr, self.lr),
        }
    }

    // What they hold after a load.
    fn after_load(self, saved: &[Saved], access: Access) -> Values
        ensures { result ≡ values_after_load self saved.now access }
    {
        let base = self.of(access.base);
        let first = loaded(saved, base, first_bytes(access));
        let second = loaded(saved, base, second_bytes(access));
        self.with_raised(access)
            .with_register(access.first, first)
            .with_register(access.second, second)
    }
}

impl Held {
    // Nothing is saved yet.
    fn now() -> Held
        ensures values { result.values ≡ values_now }
        ensures saved { result.saved.items ≡ [] }
    {
        Held {
            values: Values::NOW,
            saved: ArrayVec::new(),
        }
    }

    // A register is stored; `false` if nothing more can be said.
    fn save(&mut self, number: u8, base: Value, by: i32) -> bool
        ensures saved { saved_after self.old.values self.old.saved.items number base by
            ≡ saved_if result self.new }
        ensures values { self.new.values ≡ self.old.values }
    {
        if number != 29 && number != 30 {
            return true;
        }
        let value = self.values.register(number);
        match slot_at(base, by) {
            Some((base, bytes)) => self.saved.try_push(Saved { base, bytes, value }).is_ok(),
            None => false,
        }
    }

    // Registers are stored, and then the base goes up.
    fn store(&mut self, access: Access) -> bool
        ensures { held_after (Store access) self.old.values self.old.saved.items
            ≡ held_if result self.new }
    {
        let base = self.values.of(access.base);
        let offset = i32::from(access.offset);
        if !self.save(access.first, base, offset) {
            return false;
        }
        if !self.save(access.second, base, offset + 8) {
            return false;
        }
        self.values = self.values.with_raised(access);
        true
    }

    // An instruction is executed.
    fn execute(&mut self, instruction: Instruction) -> bool
        ensures { held_after instruction self.old.values self.old.saved.items
            ≡ held_if result self.new }
    {
        let values = self.values;
        self.values = match instruction {
            Instruction::Load(access) => values.after_load(self.saved.as_slice(), access),
            Instruction::Store(access) => return self.store(access),
            Instruction::Move { to, from, bytes } => {
                values.with_base(to, raised(values.of(from), bytes))
            }
            Instruction::Call => Values {
                lr: Value::Any,
                ..values
            },
            Instruction::Plain(lost) => values.with_lost(lost),
            Instruction::Unknown => return false,
            _ => values,
        };
        true
    }
}

/// What the three registers hold after instructions; `None` if nothing can be said.
pub fn values_after(way: &[Executed]) -> Option<Values>
    ensures { result ≡ held_after_all way.now values_now [] }
{
    let mut held = Held::now();
    for one in way {
        if !held.execute(one.instruction) {
            return None;
        }
    }
    Some(held.values)
}
