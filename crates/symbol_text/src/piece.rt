//! Pieces of a text.

/// A stretch of a text in bytes, from `start` up to `end`.
#[derive(Debug, Clone, Copy, PartialEq, Eq)]
pub struct Span {
    pub start: usize,
    pub end: usize,
}

/// A stretch of no bytes.
pub const NOWHERE: Span = Span { start: 0, end: 0 };

/// What a piece is, as far as the pieces that take it up ask for it.
#[derive(Debug, Clone, Copy, PartialEq, Eq)]
pub enum Kind {
    /// Anything else.
    Plain,
    /// A name that needs no parentheses in an expression.
    Name,
    /// A constructor, a destructor or a conversion, whose type has no result.
    Special,
    /// A template with its arguments, whose type has its result first if it is a function.
    Template,
    /// The type of a function.
    Function,
    /// The type of an array.
    Array,
    /// A reference to an lvalue.
    Reference,
    /// A reference to an rvalue.
    RvalueReference,
    /// Several pieces with commas between them.
    List,
    /// A pack of template arguments that a pattern goes over: each of its elements in turn.
    Pack,
}

/// A text in two parts, as types have them: what is declared stands between `left` and `right`.
#[derive(Debug, Clone, Copy, PartialEq, Eq)]
pub struct Piece {
    pub left: Span,
    pub right: Span,
    /// The last name in it, without template arguments, which constructors are called by.
    pub base: Span,
    /// Its elements in the list of elements, if it is a list or a pack.
    pub elements: Span,
    /// The template arguments that a template parameter in it stands for, as elements.
    pub depends: Span,
    pub kind: Kind,
}
