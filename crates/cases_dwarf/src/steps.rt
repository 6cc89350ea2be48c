//! Steps by which contexts make rows.

use crate::case::digest;
use crate::instructions::instructions;
use crate::lines::{edges, show_row};
use crate::storages::{Growing, One, Reserved};
use crate::values::ShowValues;
use anyhow::{Context, Result, bail};
use dwarf_constants::{Register, Result as Answer, Vendor};
use dwarf_frame_instructions::{CallFrameInstruction, Factors};
use dwarf_frame_rows::{
    RegisterRule, RuledRegister, SectionBaseAddresses, StoreOnHeap, UnwindContext,
    UnwindContextStorage, UnwindTableRow,
};
use dwarf_readers::{Counted, EndianSlice, LittleEndian, Reader, ReaderOffset, Steps, count_steps};
use dwarf_storage::ArrayLike;
use shown_text::Shown;
use std::alloc::Global;
use std::sync::ledger::Ledger;

// A lookup of a register, whose steps are the registers that it compares.
#[derive(Drop)]
struct CountedLookup<'r, T: ReaderOffset, Rules: ArrayLike<Item = RuledRegister<RegisterRule<T>>>> {
    row: &'r UnwindTableRow<T, Rules>,
    register: Register,
}

impl<'r, T: ReaderOffset, Rules: ArrayLike<Item = RuledRegister<RegisterRule<T>>>> Counted
    for CountedLookup<'r, T, Rules> {
    ghost use Rattle.std.specs.Prelude.{◌<◌, ◌≤◌, ◌^◌, ℕ};
    ghost use Rattle.std.specs.FinMap.{len};
    ghost use Rattle.dwarf_frame_rows.specs.Row.{row_of};

    type Answer = Option<RegisterRule<T>>;

    ghost says = { λ lookup rule n.
        (k : ℕ) → len (row_of lookup.row.now).rules < 2 ^ k → n ≤ k };

    fn run<L: Ledger>(self, steps: &mut Steps<L>) -> Option<RegisterRule<T>> {
        self.row.register_counted(self.register, steps)
    }
}

// How many registers have a rule of those that steps set, by their numbers, also by lookups that are counted.
fn count_rules<T: ReaderOffset, Rules: ArrayLike<Item = RuledRegister<RegisterRule<T>>>>(
    row: &UnwindTableRow<T, Rules>,
) -> usize {
    let mut count = 0usize;
    for number in 0..200 {
        let register = Register(number);
        let rule = row.register(register);
        if rule.is_some() && count_steps(CountedLookup { row, register }) == rule {
            count = count.wrapping_add(1);
        }
    }
    count
}

// What is multiplied by 1 in the operands of instructions.
const FACTORS: Factors = Factors {
    code_alignment_factor: 1,
    data_alignment_factor: 1,
    address_size: 8,
};

// Does what an instruction does, if it isn't an error.
fn apply_one<T: ReaderOffset, S: UnwindContextStorage<T>>(
    context: &mut UnwindContext<T, S>,
    instruction: Answer<CallFrameInstruction<T>>,
) -> Answer<()> {
    let effect = FACTORS.effect(0, instruction?)?;
    context.apply(effect)
}

// Does what instructions do, up to the first that fails.
fn apply<R: Reader, S: UnwindContextStorage<R::Offset>>(
    context: &mut UnwindContext<R::Offset, S>,
    section: R,
) -> Answer<()> {
    let bases = SectionBaseAddresses::default();
    for instruction in instructions(&section, &bases, None, Vendor::AArch64) {
        apply_one(context, instruction)?;
    }
    Ok(())
}

// What is done to a context.
#[derive(Drop)]
enum Step {
    Clear,
    Save,
    Bounds(u64, u64),
    Instructions(Vec<u8>),
}

impl Step {
    // The step that a word says.
    fn parse(alloc: Global, word: &str) -> Result<Self> {
        if let Some((start, end)) = word.split_once("..") {
            return Self::parse_bounds(start, end);
        }
        match word {
            "clear" => Ok(Step::Clear),
            "save" => Ok(Step::Save),
            _ => Ok(Step::Instructions(hex::decode(alloc, word.as_bytes())?)),
        }
    }

    // The bounds of a row.
    fn parse_bounds(start: &str, end: &str) -> Result<Self> {
        let start = u64::from_str_radix(start, 16)?;
        Ok(Step::Bounds(start, u64::from_str_radix(end, 16)?))
    }
}

// Takes a step.
fn take<S: UnwindContextStorage<usize>>(
    context: &mut UnwindContext<usize, S>,
    step: &Step,
) -> Answer<()> {
    match step {
        Step::Clear => context.clear(),
        Step::Save => return context.save_initial_rules(),
        Step::Bounds(start, end) => context.set_bounds(*start, *end),
        Step::Instructions(bytes) => return apply(context, EndianSlice::new(bytes, LittleEndian)),
    }
    Ok(())
}

// Adds the line of a row, with its error if the step failed. Each register's rule has to be found by its number.
fn show_taken<T: ReaderOffset, Rules: ArrayLike<Item = RuledRegister<RegisterRule<T>>>>(
    answer: Answer<()>,
    row: &UnwindTableRow<T, Rules>,
    shown: &mut Shown,
) {
    shown.text("  ");
    if let Err(error) = answer {
        shown.error("", error);
        shown.text(", ");
    }
    show_row(row, shown);
    shown.end();
    if count_rules(row) != row.registers().count() {
        shown.text("otherwise by the numbers of registers\n");
    }
}

// Takes steps, and shows the row after each.
fn take_each<S: UnwindContextStorage<usize>>(
    context: &mut UnwindContext<usize, S>,
    steps: &str,
    shown: &mut Shown,
) -> Result<()> {
    for word in steps.split_whitespace() {
        let step = Step::parse(shown.alloc(), word)?;
        let answer = take(context, &step);
        show_taken(answer, context.row(), shown);
    }
    Ok(())
}

// Adds whether a row contains its first address, its last and those beside them.
fn show_contained<T: ReaderOffset, Rules: ArrayLike<Item = RuledRegister<RegisterRule<T>>>>(
    row: &UnwindTableRow<T, Rules>,
    shown: &mut Shown,
) {
    shown.text("contains");
    for address in edges(row.start_address(), row.end_address()) {
        shown.flag(" ", row.contains(address));
    }
    shown.end();
}

// Takes steps with a new context, and shows the row after each; and behind the last whether the row contains its first address, its last
// and those beside them.
fn follow<S: UnwindContextStorage<usize>>(steps: &str, shown: &mut Shown) -> Result<()> {
    let mut context: UnwindContext<usize, S> = UnwindContext::new_in(shown.alloc())?;
    take_each(&mut context, steps, shown)?;
    show_contained(context.row(), shown);
    Ok(())
}

// Takes steps in the storage with a name.
fn follow_in(storage: &str, steps: &str, shown: &mut Shown) -> Result<()> {
    match storage {
        "heap" => follow::<StoreOnHeap>(steps, shown),
        "growing" => follow::<Growing>(steps, shown),
        "reserved" => follow::<Reserved>(steps, shown),
        "one" => follow::<One>(steps, shown),
        _ => bail!("there is no storage of this name"),
    }
}

// The digest of what is shown of steps in a storage.
fn digest_in(alloc: Global, storage: &str, steps: &str) -> Result<u64> {
    let mut shown = Shown::new(alloc);
    follow_in(storage, steps, &mut shown)?;
    Ok(digest(&shown.finish()?))
}

// The digests of what is shown of many steps, which are the same in each storage that has room for them.
fn follow_many(steps: &str, shown: &mut Shown) -> Result<()> {
    shown.hex("", digest_in(shown.alloc(), "heap", steps)?);
    shown.hex(" ", digest_in(shown.alloc(), "reserved", steps)?);
    shown.hex(" ", digest_in(shown.alloc(), "growing", steps)?);
    shown.end();
    Ok(())
}

/// Reads words: a storage, or `many`, and steps. A step is `clear`; `save`, which keeps the rules of the CIE; bounds, as `10..20`; or
/// bytes of instructions, which do what they say, with factors of 1. Shows the row after each.
pub fn show_steps(line: &str, shown: &mut Shown) -> Result<()> {
    let (storage, steps) = line.split_once(' ').context("steps")?;
    if storage == "many" {
        return follow_many(steps, shown);
    }
    follow_in(storage, steps, shown)
}
