//! The machine that reads a name of the scheme v0 by the table.

ghost use Rattle.std.specs.Prelude.{◌≡◌, ◌≤◌, ◌∷◌, [], IfOk, Some, vec_len};
ghost use Rattle.symbol_text.specs.Texts.{Gives, appended};
ghost use Rattle.rust_names.specs.Runs.{advanced, begins_production, continued, entered, entered_back, entered_bound, entered_hidden, entered_nested, performed, resumed, run, stepped, text_of_state};
ghost use Rattle.rust_names.specs.State.{began, view};
ghost use Rattle.rust_names.specs.declared.symbol.Frame.TheVariants.{At};

use crate::grammar::{Rule, rows};
use crate::numbers::base_62;
use crate::symbol::{Frame, Symbol};
use crate::tables::{byte_at, entry, phrase};
use std::alloc::Global;
use symbol_text::{Failure, TEXT_LIMIT, append};

/// Where the reading of a name stands.
#[derive(Drop)]
pub struct Machine<'n> {
    pub alloc: Global,
    /// The name, which back references count in.
    pub name: &'n [u8],
    /// What of it isn't read yet.
    pub rest: &'n [u8],
    /// What was written.
    pub text: Vec<u8>,
    /// What is still to be done, the next of it last.
    pub frames: Vec<Frame>,
    /// How many lifetimes are bound.
    pub depth: usize,
    /// Nothing is written.
    pub is_hidden: bool,
    /// The generic arguments of the last path of a trait are open.
    pub is_open: bool,
}

// A symbol begins a production.
fn is_when(symbol: Symbol) -> bool
    ensures { result ≡ begins_production symbol }
{
    match symbol {
        Symbol::When(_, _) => true,
        _ => false,
    }
}

impl<'n> Machine<'n> {
    pub fn new(alloc: Global, name: &'n [u8]) -> Self
        ensures { view result ≡ began name.now }
    {
        Machine {
            alloc,
            name,
            rest: name,
            text: Vec::new(alloc),
            frames: Vec::new(alloc),
            depth: 0,
            is_hidden: false,
            is_open: false,
        }
    }

    #[tactic(auto, unfolding(crate::specs::Runs::entered))]
    pub fn enter(&mut self, rule: Rule) -> Result<(), Failure>
        ensures { Gives (λ _. view self.new) result (entered rule (view self.old)) }
    {
        let Some(at) = entry(rows(rule), byte_at(self.rest, 0), byte_at(self.rest, 1)) else {
            return Err(Failure::NotUnderstood);
        };
        self.frames.push(Frame::At(rule, at + 1))?;
        Ok(())
    }

    // Behind the letter of a namespace.
    #[tactic(auto, unfolding(crate::specs::Runs::entered_nested))]
    fn enter_nested(&mut self, rule: Rule) -> Result<(), Failure>
        ensures { Gives (λ _. view self.new) result (entered_nested rule (view self.old)) }
    {
        let Some((namespace, rest)) = self.rest.split_first() else {
            return Err(Failure::NotUnderstood);
        };
        self.rest = rest;
        self.frames.push(Frame::Name(*namespace))?;
        self.enter(rule)
    }

    // Reads what a back reference refers to, which is before it.
    #[tactic(auto, unfolding(crate::specs::Runs::entered_back))]
    fn enter_back(&mut self, rule: Rule) -> Result<(), Failure>
        ensures { Gives (λ _. view self.new) result (entered_back rule (view self.old)) }
    {
        let at = self.name.len().saturating_sub(self.rest.len());
        let Some((position, rest)) = base_62(self.rest) else {
            return Err(Failure::NotUnderstood);
        };
        self.rest = rest;
        if self.is_hidden {
            return Ok(());
        }
        if at.saturating_sub(1) <= position || self.name.len() < position {
            return Err(Failure::NotUnderstood);
        }
        self.frames.push(Frame::Resume(rest.len()))?;
        self.rest = &self.name[position..];
        self.enter(rule)
    }

    // Writes nothing meanwhile.
    #[tactic(auto, unfolding(crate::specs::Runs::entered_hidden))]
    fn enter_hidden(&mut self, rule: Rule) -> Result<(), Failure>
        ensures { Gives (λ _. view self.new) result (entered_hidden rule (view self.old)) }
    {
        self.frames.push(Frame::Hide(self.is_hidden))?;
        self.is_hidden = true;
        self.enter(rule)
    }

    // Behind the lifetimes that are bound.
    #[tactic(auto, unfolding(crate::specs::Runs::entered_bound))]
    fn enter_bound(&mut self, rule: Rule) -> Result<(), Failure>
        ensures { Gives (λ _. view self.new) result (entered_bound rule (view self.old)) }
    {
        self.frames.push(Frame::Unbind(self.depth))?;
        self.bind()?;
        self.enter(rule)
    }

    // Does what a symbol says.
    #[tactic(auto, unfolding(crate::specs::Runs::performed))]
    fn perform(&mut self, symbol: Symbol) -> Result<(), Failure>
        ensures { Gives (λ _. view self.new) result (performed symbol (view self.old)) }
    {
        match symbol {
            Symbol::When(_, _) => Err(Failure::NotUnderstood),
            Symbol::Rule(rule) => self.enter(rule),
            Symbol::Nested(rule) => self.enter_nested(rule),
            Symbol::Back(rule) => self.enter_back(rule),
            Symbol::Hidden(rule) => self.enter_hidden(rule),
            Symbol::Bound(rule) => self.enter_bound(rule),
            Symbol::Skip => self.skip(),
            Symbol::Disambiguator => self.read_disambiguator(),
            Symbol::Put(byte) => self.write(&[byte]),
            Symbol::Write(words) => self.write(phrase(words)),
            Symbol::Name => self.read_name(),
            Symbol::Abi => self.read_abi(),
            Symbol::Lifetime => self.read_lifetime(),
            Symbol::ReferenceLifetime => self.read_reference_lifetime(),
            Symbol::ObjectLifetime => self.read_object_lifetime(),
            Symbol::BasicType => self.read_basic_type(),
            Symbol::Number => self.read_number(),
            Symbol::Truth => self.read_truth(),
            Symbol::Character => self.read_character(),
            Symbol::Open(is_open) => self.open(is_open),
            Symbol::OpenOrGoOn => self.open_or_go_on(),
            Symbol::CloseIfOpen => self.close_if_open(),
        }
    }

    // Goes on with a rule at one of its symbols.
    #[tactic(auto, unfolding(crate::specs::Runs::continued, crate::specs::Runs::stepped))]
    fn go_on(&mut self, rule: Rule, at: usize) -> Result<(), Failure>
        ensures { Gives (λ _. view self.new) result (stepped (At rule at) (view self.old)) }
    {
        let Some(symbol) = rows(rule).get(at).copied() else {
            return Ok(());
        };
        if is_when(symbol) {
            return Ok(());
        }
        self.frames.push(Frame::At(rule, at + 1))?;
        self.perform(symbol)
    }

    // Reading goes on where so many bytes are left.
    fn resume(&mut self, left: usize) -> Result<(), Failure>
        ensures { Gives (λ _. view self.new) result (resumed left (view self.old)) }
    {
        if self.name.len() < left {
            return Err(Failure::NotUnderstood);
        }
        self.rest = &self.name[self.name.len() - left..];
        Ok(())
    }

    fn unbind(&mut self, depth: usize) -> Result<(), Failure>
        ensures { Gives (λ _. view self.new) result (Some (record (view self.old) { depth = depth })) }
    {
        self.depth = depth;
        Ok(())
    }

    fn hide(&mut self, is_hidden: bool) -> Result<(), Failure>
        ensures { Gives (λ _. view self.new) result (Some (record (view self.old) { is_hidden = is_hidden })) }
    {
        self.is_hidden = is_hidden;
        Ok(())
    }

    // Does what is next.
    #[tactic(auto, unfolding(crate::specs::Runs::stepped))]
    fn step(&mut self, frame: Frame) -> Result<(), Failure>
        ensures { Gives (λ _. view self.new) result (stepped frame (view self.old)) }
    {
        match frame {
            Frame::At(rule, at) => self.go_on(rule, at),
            Frame::Name(namespace) => self.end_path(namespace),
            Frame::Resume(left) => self.resume(left),
            Frame::Unbind(depth) => self.unbind(depth),
            Frame::Hide(is_hidden) => self.hide(is_hidden),
        }
    }

    // Does what is next, if anything is.
    #[tactic(auto, unfolding(crate::specs::Runs::advanced))]
    fn advance(&mut self) -> Result<bool, Failure>
        ensures { Gives (λ more. (more, view self.new)) result (advanced (view self.old)) }
    {
        let Some(frame) = self.frames.last().copied() else {
            return Ok(false);
        };
        self.frames.truncate(self.frames.len() - 1);
        self.step(frame)?;
        Ok(true)
    }

    /// Does all that is to be done, in so many steps at most.
    #[tactic(auto, using(crate::proofs::RunLemmas::run_step))]
    pub fn run(&mut self, steps: usize) -> Result<(), Failure>
        ensures { Gives (λ _. view self.new) result (run steps (view self.old)) }
    {
        for taken in 0..steps {
            if !self.advance()? {
                return Ok(());
            }
        }
        Err(Failure::NotUnderstood)
    }

    /// The text, if all of the name is read.
    #[tactic(auto, unfolding(crate::specs::Runs::text_of_state))]
    pub fn text_of(&self) -> Result<Vec<u8>, Failure>
        ensures text { Gives (λ text. text.items) result (text_of_state (view self.now)) }
        ensures bounded { IfOk result (λ text. vec_len text ≤ TEXT_LIMIT) }
    {
        if 0 < self.rest.len() {
            return Err(Failure::NotUnderstood);
        }
        let mut text = Vec::new(self.alloc);
        append(&mut text, &self.text)?;
        Ok(text)
    }
}
