//! What productions are made of.

use crate::grammar::Rule;

/// What the next byte has to be.
#[derive(Clone, Copy)]
pub enum Look {
    /// Any byte, or the end.
    Any,
    /// The end of the name.
    End,
    /// This byte.
    Byte(u8),
    /// A small letter.
    Lower,
    /// A letter.
    Letter,
}

/// What productions write.
#[derive(Clone, Copy)]
pub enum Phrase {
    Comma,
    As,
    ValueArguments,
    Mutable,
    ConstPointer,
    MutablePointer,
    Length,
    Dyn,
    Plus,
    Unsafe,
    ExternC,
    Extern,
    EndExtern,
    Function,
    Returns,
    Equals,
}

/// A step of a production.
#[derive(Clone, Copy)]
pub enum Symbol {
    /// Begins a production, which is taken if the next two bytes are such and none before it was taken.
    When(Look, Look),
    /// Reads by a rule.
    Rule(Rule),
    /// Reads the letter of a namespace, and a path by a rule, behind which a name in that namespace follows.
    Nested(Rule),
    /// Reads the rest of a back reference, and by a rule what it refers to.
    Back(Rule),
    /// Reads by a rule, and writes nothing meanwhile.
    Hidden(Rule),
    /// Reads the lifetimes that are bound, if any are, and by a rule what they are bound for.
    Bound(Rule),

    /// Reads any byte.
    Skip,
    /// Reads a disambiguator, if there is one.
    Disambiguator,

    /// Writes a byte.
    Put(u8),
    /// Writes a phrase.
    Write(Phrase),
    /// Reads a name, and writes it.
    Name,
    /// Reads the name of an ABI, and writes it.
    Abi,
    /// Reads a lifetime behind its `L`, and writes it.
    Lifetime,
    /// Reads the lifetime of a reference, if there is one, and writes it unless it was erased.
    ReferenceLifetime,
    /// Reads the lifetime of a trait object, and writes it unless it was erased.
    ObjectLifetime,
    /// Reads the letter of a type, and writes its name.
    BasicType,
    /// Reads digits, and writes the number.
    Number,
    /// Reads digits, and writes the truth value.
    Truth,
    /// Reads digits, and writes the character.
    Character,

    /// The generic arguments of a trait are still open, or there are none.
    Open(bool),
    /// Opens the generic arguments of a trait, or writes a comma behind those that are open.
    OpenOrGoOn,
    /// Closes the generic arguments of a trait, if they are open.
    CloseIfOpen,
}

/// What is still to be done.
#[derive(Clone, Copy)]
pub enum Frame {
    /// A rule from one of its symbols on.
    At(Rule, usize),
    /// A name in this namespace.
    Name(u8),
    /// Reading goes on behind a back reference.
    Resume(usize),
    /// So many lifetimes are bound.
    Unbind(usize),
    /// Nothing is written, or all is.
    Hide(bool),
}
