//! What productions are made of.

use crate::grammar::Rule;
use symbol_text::{Kind, Modifier, Span};

/// What the next byte has to be.
#[derive(Clone, Copy)]
pub enum Look {
    /// Any byte, or the end.
    Any,
    /// The end of the name.
    End,
    /// This byte.
    Byte(u8),
    /// A decimal digit.
    Digit,
    /// A small letter.
    Lower,
    /// A decimal digit or one of `a` to `f`.
    Hex,
}

/// What productions write.
#[derive(Clone, Copy)]
pub enum Phrase {
    Std,
    Scope,
    Operator,
    LiteralOperator,
    UnnamedType,
    Lambda,
    EndLambda,
    AbiTag,
    Clone,
    StringLiteral,
    DefaultArgument,
    VirtualTable,
    TableOfTables,
    TypeInfo,
    TypeInfoName,
    ConstructionTable,
    InBase,
    NonVirtualThunk,
    VirtualThunk,
    CovariantThunk,
    ThreadInit,
    ThreadWrapper,
    Guard,
    Temporary,
    TemporaryFor,
    HiddenAlias,
    Clones,
    Const,
    Volatile,
    ConstVolatile,
    LvalueThis,
    RvalueThis,
    True,
    False,
    CastBool,
    UnsignedLongSuffix,
    LongLongSuffix,
    UnsignedLongLongSuffix,
    NoBound,
    Bound,
    Vector,
    Noexcept,
    MemberPointer,
    BrainFloat,
    Float16,
}

/// A step of a production. Operands are counted from the piece that was made last, which is 0.
#[derive(Clone, Copy)]
pub enum Symbol {
    /// Begins a production, which is taken if the next two bytes are such and none before it was taken.
    When(Look, Look),
    /// Reads by a rule.
    Rule(Rule),
    /// Reads by a rule whose template parameters are its own.
    Scoped(Rule),
    /// Reads by a rule, and makes one piece of all that it makes, with commas between them.
    List(Rule),
    /// Reads by the first rule if the last piece is a template with its arguments, or else by the second.
    IfTemplate(Rule, Rule),

    /// Reads any byte.
    Skip,
    /// Reads this byte.
    Byte(u8),
    /// Fails before this byte.
    NotBefore(u8),
    /// Reads a name with its length before it (`<source-name>`).
    SourceName,
    /// Reads the rest of `[<number>] _`, and makes a piece of the number plus 2, or 1 if there is none.
    Ordinal,
    /// Reads the rest of `[<seq-id>] _`, and makes a piece of its value plus 1, or 0 if there is none.
    Sequence,
    /// Reads the letter of an abbreviation (`<substitution>`).
    Standard,
    /// Reads the rest of `S [<seq-id>] _`.
    Substitution,
    /// Reads the rest of `T [<number>] _`.
    Parameter,
    /// Reads the code of a type (`<builtin-type>`).
    Builtin,
    /// Reads the second letter of the code of a type that begins with `D`.
    BuiltinD,
    /// Reads the two letters of an operator (`<operator-name>`).
    Operator,
    /// Makes a piece of the bytes that are read up to `UpTo`.
    Here,
    UpTo,

    /// Begins the text of a piece.
    Begin,
    /// Writes a byte.
    Put(u8),
    /// Writes a phrase.
    Write(Phrase),
    /// Writes an operand's left part.
    Left(u8),
    /// Writes an operand's right part.
    Right(u8),
    /// Writes the name that an operand's constructors are called by.
    Base(u8),
    /// Writes a space after this byte.
    SpaceAfter(u8),
    /// Writes a space unless an operand has a right part.
    Gap(u8),
    /// Opens the parentheses around a declarator, if an operand's type goes on behind it.
    Opening(u8),
    /// The same, or writes a space.
    MemberOpening(u8),
    /// Closes them.
    Closing(u8),
    /// Writes the right part of an operand, behind the bound of an array.
    Bounds(u8),
    /// What is written from here on is the right part.
    ToRight,
    /// The piece has the base of an operand.
    BaseOf(u8),
    /// Ends a piece that stands for some operands.
    End(u8, Kind),
    /// Ends a piece that stands for some operands, and is what one of them is.
    EndAs(u8, u8),
    /// Ends a template with its arguments.
    EndTemplate,

    /// Makes a type of the last piece.
    Modify(Modifier),
    /// Makes a list of a pack.
    Expand,
    /// Keeps the last piece for substitutions (5.1.10).
    Remember,
    /// The same, unless `E` follows.
    RememberUnlessEnd,
    /// Template parameters stand for the elements of the last piece.
    Tag,
}

/// What is still to be done.
#[derive(Clone, Copy)]
pub enum Frame {
    /// A rule from one of its symbols on.
    At(Rule, usize),
    /// Make one piece of those above a height.
    Collect(usize),
    /// Template parameters stand for these elements again.
    Restore(Span),
}
