//! Pop lists as a count and a number, so that an unwind rule has room for them.

ghost use Rattle.std.specs.Prelude.{◌≡◌, ◌<◌, ◌≤◌, ◌/◌, ◌%◌, ℕ, List, length, SomeIff, IfSome};
ghost use Rattle.framehop_registers.specs.PopLists.{IsPopList, IsOrder, order_count, order_number, pop_list, BeginsOrder};
ghost use Rattle.framehop_registers.specs.PopListViews.{popped_of};
ghost use Rattle.framehop_registers.specs.Registers.{with_values};
ghost use Rattle.framehop_registers.specs.declared.x86_64.unwindregs.Reg.{Reg};

use crate::x86_64::pop_list::{CALLEE_SAVED, PopList, take_from};
use crate::x86_64::unwindregs::{Reg, UnwindRegsX86_64};

/// How many orders all eight callee-saved registers have: their numbers are those below it.
pub const ORDER_COUNT: u16 = 40320;

/// The registers of a list, by their count and the number that `encode` gave.
pub fn decode(register_count: u8, encoded_ordering: u16) -> PopList
    requires count { register_count ≤ 8 }
    requires number { encoded_ordering < order_count }
    ensures list { popped_of result ≡ pop_list register_count encoded_ordering }
    ensures order { BeginsOrder (popped_of result) register_count encoded_ordering }
{
    let mut list = PopList::new();
    let mut number = encoded_ordering;
    for _ in 0..register_count {
        let (place, rest) = place_and_rest(number, list.left().len());
        list.push_from(place);
        number = rest;
    }
    list
}

/// Gives the registers of a list these values, one after the other; the list has as many as there
/// are values, and the number that `encode` gave.
///
/// The loop goes to eight, so that a compiler can write it out: then each division is by a number
/// that is known.
#[inline(always)]
pub fn set_by_number(regs: &mut UnwindRegsX86_64, encoded_ordering: u16, values: &[u64])
    requires { length values.now ≤ 8 }
    ensures { regs.new
        ≡ with_values regs.old (pop_list (length values.now) encoded_ordering) values.now }
{
    let mut registers = CALLEE_SAVED;
    let mut number = encoded_ordering;
    for taken in 0..8 {
        if taken == values.len() {
            return;
        }
        let (place, rest) = place_and_rest(number, 8 - taken);
        let register = take_from(&mut registers, taken, place);
        regs.set(register, values[taken]);
        number = rest;
    }
}

// The place that a number has among so many, and the number of what comes behind. Each divisor is
// written out, since a division by one that isn't known takes several times as long.
#[inline(always)]
fn place_and_rest(number: u16, choices: usize) -> (usize, u16)
    requires some { 0 < choices }
    requires within { choices ≤ 8 }
    ensures place { result.0 ≡ number % choices }
    ensures rest { result.1 ≡ number / choices }
{
    match choices {
        8 => (usize::from(number % 8), number / 8),
        7 => (usize::from(number % 7), number / 7),
        6 => (usize::from(number % 6), number / 6),
        5 => (usize::from(number % 5), number / 5),
        4 => (usize::from(number % 4), number / 4),
        3 => (usize::from(number % 3), number / 3),
        2 => (usize::from(number % 2), number / 2),
        _ => (usize::from(number % 1), number / 1),
    }
}

/// The count and the order number of registers that are popped one after the other, the first at
/// the front. There is none if a register isn't callee-saved, or comes twice.
pub fn encode(registers: &[Reg]) -> Option<(u8, u16)>
    ensures number { SomeIff result (IsPopList registers.now)
        (length registers.now, order_number registers.now) }
    ensures fits { IfSome result (λ pops. (pops.0 ≤ 8) × (pops.1 < order_count)) }
    ensures again { IfSome result (λ pops. pop_list pops.0 pops.1 ≡ registers.now) }
{
    let mut list = PopList::new();
    let mut number = 0;
    let mut weight = 1;
    for &register in registers {
        let choices = list.left().len() as u16;
        let place = list.place_of(register)?;
        number += weight * place as u16;
        weight *= choices;
        list.push_from(place);
    }
    Some((registers.len() as u8, number))
}

/// Lists and numbers give each other back: the numbers of the orders of all eight registers are
/// those below 40,320, each once, and fewer registers are the first of such an order. It does nothing
/// when the program runs.
pub fn lists_by_order_numbers()
    ensures fits { (registers : List Reg) → IsPopList registers
        → (length registers ≤ 8) × (order_number registers < order_count) }
    ensures again { (registers : List Reg) → IsPopList registers
        → pop_list (length registers) (order_number registers) ≡ registers }
    ensures begins { (count number : ℕ) → count ≤ 8 → number < order_count
        → BeginsOrder (pop_list count number) count number }
    ensures each { (number : ℕ) → number < order_count
        → IsOrder (pop_list 8 number) × (order_number (pop_list 8 number) ≡ number) }
    ensures once { (one other : List Reg) → IsOrder one → IsOrder other
        → order_number one ≡ order_number other → one ≡ other }
{}
