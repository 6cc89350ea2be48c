//! The machine that reads a name by the table.

ghost use Rattle.std.specs.Prelude.{◌≡◌, ◌≤◌, ◌∷◌, [], IfOk, vec_len};
ghost use Rattle.symbol_text.specs.Texts.{Gives, appended};
ghost use Rattle.itanium_names.specs.Runs.{advanced, begins_production, chosen_by, demangled_of, entered, entered_by_template, entered_list, entered_scoped, list_made, performed, run, scope_left, stepped, text_of_state};
ghost use Rattle.itanium_names.specs.State.{began, writes};
ghost use Rattle.itanium_names.specs.Tables.{phrase_of};
ghost use Rattle.itanium_names.specs.Views.{view};
ghost use Rattle.itanium_names.specs.declared.symbol.Frame.TheVariants.{At};

use crate::grammar::{Rule, rows};
use crate::symbol::{Frame, Symbol};
use crate::tables::phrase;
use crate::texts::{byte_at, collect, entry, from_top, replace};
use std::alloc::{AllocError, Global};
use symbol_text::{Failure, Kind, NOWHERE, Piece, Span, TEXT_LIMIT, append};

/// How many steps the reading of a name may take for each of its bytes.
pub const STEPS_PER_BYTE: usize = 256;

/// Where the reading of a name stands.
#[derive(Drop)]
pub struct Machine<'n> {
    pub alloc: Global,
    /// How many bytes the name has.
    pub name_length: usize,
    /// What of it isn't read yet.
    pub rest: &'n [u8],
    /// The name, and all that was written.
    pub text: Vec<u8>,
    /// What is still to be done, the next of it last.
    pub frames: Vec<Frame>,
    /// The pieces that no other piece has taken up.
    pub pieces: Vec<Piece>,
    /// What substitutions stand for.
    pub remembered: Vec<Piece>,
    /// The elements of lists and packs.
    pub elements: Vec<Piece>,
    /// What template parameters stand for, as elements.
    pub parameters: Span,
    /// The piece that is being written.
    pub opened: Piece,
}

// Which of two rules goes on, by what a piece is.
fn by_template(kind: Kind, first: Rule, second: Rule) -> Rule
    ensures { result ≡ chosen_by kind first second }
{
    match kind {
        Kind::Template => first,
        _ => second,
    }
}

// A symbol begins a production.
fn is_when(symbol: Symbol) -> bool
    ensures { result ≡ begins_production symbol }
{
    match symbol {
        Symbol::When(_, _) => true,
        _ => false,
    }
}

impl<'n> Machine<'n> {
    fn new(alloc: Global, name: &'n [u8]) -> Result<Self, AllocError>
        ensures { IfOk result (λ made. view made ≡ began name.now) }
    {
        let text = Vec::from_slice(alloc, name)?;
        Ok(Machine {
            alloc,
            name_length: name.len(),
            rest: name,
            text,
            frames: Vec::new(alloc),
            pieces: Vec::new(alloc),
            remembered: Vec::new(alloc),
            elements: Vec::new(alloc),
            parameters: NOWHERE,
            opened: Piece {
                left: NOWHERE,
                right: NOWHERE,
                base: NOWHERE,
                elements: NOWHERE,
                depends: NOWHERE,
                kind: Kind::Plain,
            },
        })
    }

    #[tactic(auto, unfolding(crate::specs::Runs::entered))]
    fn enter(&mut self, rule: Rule) -> Result<(), Failure>
        ensures { Gives (λ _. view self.new) result (entered rule (view self.old)) }
    {
        let Some(at) = entry(rows(rule), byte_at(self.rest, 0), byte_at(self.rest, 1)) else {
            return Err(Failure::NotUnderstood);
        };
        self.frames.push(Frame::At(rule, at + 1))?;
        Ok(())
    }

    #[tactic(auto, unfolding(crate::specs::Runs::entered_scoped))]
    fn enter_scoped(&mut self, rule: Rule) -> Result<(), Failure>
        ensures { Gives (λ _. view self.new) result (entered_scoped rule (view self.old)) }
    {
        self.frames.push(Frame::Restore(self.parameters))?;
        self.parameters = NOWHERE;
        self.enter(rule)
    }

    #[tactic(auto, unfolding(crate::specs::Runs::entered_list))]
    fn enter_list(&mut self, rule: Rule) -> Result<(), Failure>
        ensures { Gives (λ _. view self.new) result (entered_list rule (view self.old)) }
    {
        self.frames.push(Frame::Collect(self.pieces.len()))?;
        self.enter(rule)
    }

    #[tactic(auto, unfolding(crate::specs::Runs::entered_by_template))]
    fn enter_by_template(&mut self, first: Rule, second: Rule) -> Result<(), Failure>
        ensures { Gives (λ _. view self.new) result (entered_by_template first second (view self.old)) }
    {
        let Some(piece) = from_top(&self.pieces, 0) else {
            return Err(Failure::NotUnderstood);
        };
        self.enter(by_template(piece.kind, first, second))
    }

    fn write(&mut self, bytes: &[u8]) -> Result<(), Failure>
        ensures { Gives (λ _. view self.new) result (writes (view self.old) (appended bytes.now (view self.old).text)) }
    {
        append(&mut self.text, bytes)
    }

    // Does what a symbol says.
    #[tactic(auto, unfolding(crate::specs::Runs::performed))]
    fn perform(&mut self, symbol: Symbol) -> Result<(), Failure>
        ensures { Gives (λ _. view self.new) result (performed symbol (view self.old)) }
    {
        match symbol {
            Symbol::When(_, _) => Err(Failure::NotUnderstood),
            Symbol::Rule(rule) => self.enter(rule),
            Symbol::Scoped(rule) => self.enter_scoped(rule),
            Symbol::List(rule) => self.enter_list(rule),
            Symbol::IfTemplate(first, second) => self.enter_by_template(first, second),
            Symbol::Skip => self.skip(),
            Symbol::Byte(byte) => self.read_byte(byte),
            Symbol::NotBefore(byte) => self.not_before(byte),
            Symbol::SourceName => self.read_source_name(),
            Symbol::Ordinal => self.read_ordinal(),
            Symbol::Sequence => self.read_sequence(),
            Symbol::Standard => self.read_standard(),
            Symbol::Substitution => self.read_substitution(),
            Symbol::Parameter => self.read_parameter(),
            Symbol::Builtin => self.read_builtin(),
            Symbol::BuiltinD => self.read_builtin_d(),
            Symbol::Operator => self.read_operator(),
            Symbol::Here => self.begin_here(),
            Symbol::UpTo => self.end_here(),
            Symbol::Begin => self.begin(),
            Symbol::Put(byte) => self.write(&[byte]),
            Symbol::Write(words) => self.write(phrase(words)),
            Symbol::Left(index) => self.write_left(index),
            Symbol::Right(index) => self.write_right(index),
            Symbol::Base(index) => self.write_base(index),
            Symbol::SpaceAfter(byte) => self.write_space_after(byte),
            Symbol::Gap(index) => self.write_gap(index),
            Symbol::Opening(index) => self.write_opening(index),
            Symbol::MemberOpening(index) => self.write_member_opening(index),
            Symbol::Closing(index) => self.write_closing(index),
            Symbol::Bounds(index) => self.write_bounds(index),
            Symbol::ToRight => self.turn(),
            Symbol::BaseOf(index) => self.take_base(index),
            Symbol::End(count, kind) => self.end(count, kind),
            Symbol::EndAs(count, index) => self.end_as(count, index),
            Symbol::EndTemplate => self.end_template(),
            Symbol::Modify(modifier) => self.modify_type(modifier),
            Symbol::Expand => self.expand(),
            Symbol::Remember => self.keep(),
            Symbol::RememberUnlessEnd => self.keep_unless_end(),
            Symbol::Tag => self.tag(),
        }
    }

    // Goes on with a rule at one of its symbols.
    #[tactic(auto, unfolding(crate::specs::Runs::continued, crate::specs::Runs::stepped))]
    fn go_on(&mut self, rule: Rule, at: usize) -> Result<(), Failure>
        ensures { Gives (λ _. view self.new) result (stepped (At rule at) (view self.old)) }
    {
        let Some(symbol) = rows(rule).get(at).copied() else {
            return Ok(());
        };
        if is_when(symbol) {
            return Ok(());
        }
        self.frames.push(Frame::At(rule, at + 1))?;
        self.perform(symbol)
    }

    // Makes one piece of those above a height.
    #[tactic(auto, unfolding(crate::specs::Runs::list_made))]
    fn make_list(&mut self, height: usize) -> Result<(), Failure>
        ensures { Gives (λ _. view self.new) result (list_made height (view self.old)) }
    {
        if self.pieces.len() < height {
            return Err(Failure::NotUnderstood);
        }
        let made = collect(&mut self.text, &mut self.elements, &self.pieces[height..])?;
        self.pieces.truncate(height);
        self.pieces.push(made)?;
        Ok(())
    }

    // Template parameters stand for what they did before.
    #[tactic(auto, unfolding(crate::specs::Runs::scope_left))]
    fn leave_scope(&mut self, parameters: Span) -> Result<(), Failure>
        ensures { Gives (λ _. view self.new) result (scope_left parameters (view self.old)) }
    {
        let Some(piece) = from_top(&self.pieces, 0) else {
            return Err(Failure::NotUnderstood);
        };
        let piece = Piece {
            depends: NOWHERE,
            ..piece
        };
        replace(&mut self.pieces, 1, piece)?;
        self.parameters = parameters;
        Ok(())
    }

    // Does what is next.
    #[tactic(auto, unfolding(crate::specs::Runs::stepped))]
    fn step(&mut self, frame: Frame) -> Result<(), Failure>
        ensures { Gives (λ _. view self.new) result (stepped frame (view self.old)) }
    {
        match frame {
            Frame::At(rule, at) => self.go_on(rule, at),
            Frame::Collect(height) => self.make_list(height),
            Frame::Restore(parameters) => self.leave_scope(parameters),
        }
    }

    // Does what is next, if anything is.
    #[tactic(auto, unfolding(crate::specs::Runs::advanced))]
    fn advance(&mut self) -> Result<bool, Failure>
        ensures { Gives (λ more. (more, view self.new)) result (advanced (view self.old)) }
    {
        let Some(frame) = self.frames.last().copied() else {
            return Ok(false);
        };
        self.frames.truncate(self.frames.len() - 1);
        self.step(frame)?;
        Ok(true)
    }

    // Does all that is to be done.
    #[tactic(auto, using(crate::proofs::RunLemmas::run_step))]
    fn run(&mut self, steps: usize) -> Result<(), Failure>
        ensures { Gives (λ _. view self.new) result (run steps (view self.old)) }
    {
        for taken in 0..steps {
            if !self.advance()? {
                return Ok(());
            }
        }
        Err(Failure::NotUnderstood)
    }

    // The text of the one piece that is left.
    #[tactic(auto, unfolding(crate::specs::Runs::text_of_state))]
    fn text_of(&self) -> Result<Vec<u8>, Failure>
        ensures text { Gives (λ text. text.items) result (text_of_state (view self.now)) }
        ensures bounded { IfOk result (λ text. vec_len text ≤ TEXT_LIMIT) }
    {
        if 0 < self.rest.len() || self.pieces.len() != 1 {
            return Err(Failure::NotUnderstood);
        }
        let Some(piece) = from_top(&self.pieces, 0) else {
            return Err(Failure::NotUnderstood);
        };
        let Some(left) = self.text.get(piece.left.start..piece.left.end) else {
            return Err(Failure::NotUnderstood);
        };
        let Some(right) = self.text.get(piece.right.start..piece.right.end) else {
            return Err(Failure::NotUnderstood);
        };
        let mut text = Vec::new(self.alloc);
        append(&mut text, left)?;
        append(&mut text, right)?;
        Ok(text)
    }
}

/// The text of a mangled name of C++, as `c++filt` writes it. Fails with `NotUnderstood` for all else, as for names with
/// expressions.
#[tactic(auto, unfolding(crate::specs::Runs::demangled_of))]
pub fn demangled(alloc: Global, name: &[u8]) -> Result<Vec<u8>, Failure>
    ensures text { Gives (λ text. text.items) result (demangled_of name.now) }
    ensures bounded { IfOk result (λ text. vec_len text ≤ TEXT_LIMIT) }
{
    if TEXT_LIMIT < name.len() {
        return Err(Failure::NotUnderstood);
    }
    let steps = name.len() * STEPS_PER_BYTE;
    let mut machine = Machine::new(alloc, name)?;
    machine.enter(Rule::Mangled)?;
    machine.run(steps)?;
    machine.text_of()
}
