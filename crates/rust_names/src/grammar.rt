//! The grammar of names by the scheme v0, as a table (RFC 2603, "Syntax of mangled names"). Each rule has productions,
//! each of which begins with `When`: the first that fits the next two bytes is taken.

ghost use Rattle.std.specs.Prelude.{◌≡◌};
ghost use Rattle.rust_names.specs.Grammar.{rows_of};

use crate::symbol::Symbol::*;
use crate::symbol::{Look, Phrase, Symbol};

/// The rules of the grammar. Paths of values have `::` before their generic arguments, those in types have not.
#[derive(Clone, Copy)]
pub enum Rule {
    Whole,
    Instantiation,
    ValuePath,
    Path,
    Arguments,
    MoreArguments,
    Argument,
    Type,
    Tuple,
    SecondType,
    Types,
    MoreTypes,
    Function,
    Abi,
    Signature,
    Returned,
    Traits,
    MoreTraits,
    Trait,
    TraitPath,
    Bindings,
    Constant,
    Signed,
}

/// `<symbol-name>` behind `_R`, of which the crate that instantiates it isn't shown
pub static WHOLE: [Symbol; 3] = [
    When(Look::Any, Look::Any),
    Rule(Rule::ValuePath),
    Rule(Rule::Instantiation),
];

/// `<instantiating-crate>`, if there is one
pub static INSTANTIATION: [Symbol; 3] = [
    When(Look::End, Look::Any),
    When(Look::Any, Look::Any),
    Hidden(Rule::Path),
];

/// `<path>` of a value
pub static VALUE_PATH: [Symbol; 39] = [
    When(Look::Byte(b'C'), Look::Any),
    Skip,
    Disambiguator,
    Name,
    When(Look::Byte(b'N'), Look::Letter),
    Skip,
    Nested(Rule::ValuePath),
    When(Look::Byte(b'M'), Look::Any),
    Skip,
    Disambiguator,
    Hidden(Rule::Path),
    Put(b'<'),
    Rule(Rule::Type),
    Put(b'>'),
    When(Look::Byte(b'X'), Look::Any),
    Skip,
    Disambiguator,
    Hidden(Rule::Path),
    Put(b'<'),
    Rule(Rule::Type),
    Write(Phrase::As),
    Rule(Rule::Path),
    Put(b'>'),
    When(Look::Byte(b'Y'), Look::Any),
    Skip,
    Put(b'<'),
    Rule(Rule::Type),
    Write(Phrase::As),
    Rule(Rule::Path),
    Put(b'>'),
    When(Look::Byte(b'I'), Look::Any),
    Skip,
    Rule(Rule::ValuePath),
    Write(Phrase::ValueArguments),
    Rule(Rule::Arguments),
    Put(b'>'),
    When(Look::Byte(b'B'), Look::Any),
    Skip,
    Back(Rule::ValuePath),
];

/// `<path>`
pub static PATH: [Symbol; 39] = [
    When(Look::Byte(b'C'), Look::Any),
    Skip,
    Disambiguator,
    Name,
    When(Look::Byte(b'N'), Look::Letter),
    Skip,
    Nested(Rule::Path),
    When(Look::Byte(b'M'), Look::Any),
    Skip,
    Disambiguator,
    Hidden(Rule::Path),
    Put(b'<'),
    Rule(Rule::Type),
    Put(b'>'),
    When(Look::Byte(b'X'), Look::Any),
    Skip,
    Disambiguator,
    Hidden(Rule::Path),
    Put(b'<'),
    Rule(Rule::Type),
    Write(Phrase::As),
    Rule(Rule::Path),
    Put(b'>'),
    When(Look::Byte(b'Y'), Look::Any),
    Skip,
    Put(b'<'),
    Rule(Rule::Type),
    Write(Phrase::As),
    Rule(Rule::Path),
    Put(b'>'),
    When(Look::Byte(b'I'), Look::Any),
    Skip,
    Rule(Rule::Path),
    Put(b'<'),
    Rule(Rule::Arguments),
    Put(b'>'),
    When(Look::Byte(b'B'), Look::Any),
    Skip,
    Back(Rule::Path),
];

/// `{<generic-arg>} "E"`
pub static ARGUMENTS: [Symbol; 5] = [
    When(Look::Byte(b'E'), Look::Any),
    Skip,
    When(Look::Any, Look::Any),
    Rule(Rule::Argument),
    Rule(Rule::MoreArguments),
];

pub static MORE_ARGUMENTS: [Symbol; 6] = [
    When(Look::Byte(b'E'), Look::Any),
    Skip,
    When(Look::Any, Look::Any),
    Write(Phrase::Comma),
    Rule(Rule::Argument),
    Rule(Rule::MoreArguments),
];

/// `<generic-arg>`
pub static ARGUMENT: [Symbol; 8] = [
    When(Look::Byte(b'L'), Look::Any),
    Skip,
    Lifetime,
    When(Look::Byte(b'K'), Look::Any),
    Skip,
    Rule(Rule::Constant),
    When(Look::Any, Look::Any),
    Rule(Rule::Type),
];

/// `<type>`
pub static TYPE: [Symbol; 51] = [
    When(Look::Lower, Look::Any),
    BasicType,
    When(Look::Byte(b'R'), Look::Any),
    Skip,
    Put(b'&'),
    ReferenceLifetime,
    Rule(Rule::Type),
    When(Look::Byte(b'Q'), Look::Any),
    Skip,
    Put(b'&'),
    ReferenceLifetime,
    Write(Phrase::Mutable),
    Rule(Rule::Type),
    When(Look::Byte(b'P'), Look::Any),
    Skip,
    Write(Phrase::ConstPointer),
    Rule(Rule::Type),
    When(Look::Byte(b'O'), Look::Any),
    Skip,
    Write(Phrase::MutablePointer),
    Rule(Rule::Type),
    When(Look::Byte(b'A'), Look::Any),
    Skip,
    Put(b'['),
    Rule(Rule::Type),
    Write(Phrase::Length),
    Rule(Rule::Constant),
    Put(b']'),
    When(Look::Byte(b'S'), Look::Any),
    Skip,
    Put(b'['),
    Rule(Rule::Type),
    Put(b']'),
    When(Look::Byte(b'T'), Look::Any),
    Skip,
    Put(b'('),
    Rule(Rule::Tuple),
    Put(b')'),
    When(Look::Byte(b'F'), Look::Any),
    Skip,
    Bound(Rule::Function),
    When(Look::Byte(b'D'), Look::Any),
    Skip,
    Write(Phrase::Dyn),
    Bound(Rule::Traits),
    ObjectLifetime,
    When(Look::Byte(b'B'), Look::Any),
    Skip,
    Back(Rule::Type),
    When(Look::Any, Look::Any),
    Rule(Rule::Path),
];

/// `{<type>} "E"` of a tuple, of which one of a single element has a comma behind it
pub static TUPLE: [Symbol; 5] = [
    When(Look::Byte(b'E'), Look::Any),
    Skip,
    When(Look::Any, Look::Any),
    Rule(Rule::Type),
    Rule(Rule::SecondType),
];

pub static SECOND_TYPE: [Symbol; 7] = [
    When(Look::Byte(b'E'), Look::Any),
    Skip,
    Put(b','),
    When(Look::Any, Look::Any),
    Write(Phrase::Comma),
    Rule(Rule::Type),
    Rule(Rule::MoreTypes),
];

/// `{<type>} "E"`
pub static TYPES: [Symbol; 5] = [
    When(Look::Byte(b'E'), Look::Any),
    Skip,
    When(Look::Any, Look::Any),
    Rule(Rule::Type),
    Rule(Rule::MoreTypes),
];

pub static MORE_TYPES: [Symbol; 6] = [
    When(Look::Byte(b'E'), Look::Any),
    Skip,
    When(Look::Any, Look::Any),
    Write(Phrase::Comma),
    Rule(Rule::Type),
    Rule(Rule::MoreTypes),
];

/// `<fn-sig>` behind its binder
pub static FUNCTION: [Symbol; 6] = [
    When(Look::Byte(b'U'), Look::Any),
    Skip,
    Write(Phrase::Unsafe),
    Rule(Rule::Abi),
    When(Look::Any, Look::Any),
    Rule(Rule::Abi),
];

/// `["K" <abi>]`
pub static ABI: [Symbol; 13] = [
    When(Look::Byte(b'K'), Look::Byte(b'C')),
    Skip,
    Skip,
    Write(Phrase::ExternC),
    Rule(Rule::Signature),
    When(Look::Byte(b'K'), Look::Any),
    Skip,
    Write(Phrase::Extern),
    Abi,
    Write(Phrase::EndExtern),
    Rule(Rule::Signature),
    When(Look::Any, Look::Any),
    Rule(Rule::Signature),
];

pub static SIGNATURE: [Symbol; 5] = [
    When(Look::Any, Look::Any),
    Write(Phrase::Function),
    Rule(Rule::Types),
    Put(b')'),
    Rule(Rule::Returned),
];

/// The type of what a function returns, unless it is `()`
pub static RETURNED: [Symbol; 5] = [
    When(Look::Byte(b'u'), Look::Any),
    Skip,
    When(Look::Any, Look::Any),
    Write(Phrase::Returns),
    Rule(Rule::Type),
];

/// `<dyn-bounds>` behind its binder
pub static TRAITS: [Symbol; 5] = [
    When(Look::Byte(b'E'), Look::Any),
    Skip,
    When(Look::Any, Look::Any),
    Rule(Rule::Trait),
    Rule(Rule::MoreTraits),
];

pub static MORE_TRAITS: [Symbol; 6] = [
    When(Look::Byte(b'E'), Look::Any),
    Skip,
    When(Look::Any, Look::Any),
    Write(Phrase::Plus),
    Rule(Rule::Trait),
    Rule(Rule::MoreTraits),
];

/// `<dyn-trait>`, whose associated types stand among its generic arguments
pub static TRAIT: [Symbol; 4] = [
    When(Look::Any, Look::Any),
    Rule(Rule::TraitPath),
    Rule(Rule::Bindings),
    CloseIfOpen,
];

/// The path of a trait, whose generic arguments stay open
pub static TRAIT_PATH: [Symbol; 12] = [
    When(Look::Byte(b'B'), Look::Any),
    Skip,
    Back(Rule::TraitPath),
    When(Look::Byte(b'I'), Look::Any),
    Skip,
    Rule(Rule::Path),
    Put(b'<'),
    Rule(Rule::Arguments),
    Open(true),
    When(Look::Any, Look::Any),
    Rule(Rule::Path),
    Open(false),
];

/// `{<dyn-trait-assoc-binding>}`
pub static BINDINGS: [Symbol; 9] = [
    When(Look::Byte(b'p'), Look::Any),
    Skip,
    OpenOrGoOn,
    Name,
    Write(Phrase::Equals),
    Rule(Rule::Type),
    Open(true),
    Rule(Rule::Bindings),
    When(Look::Any, Look::Any),
];

/// `<const>`, of the types that RFC 2603 has
pub static CONSTANT: [Symbol; 48] = [
    When(Look::Byte(b'B'), Look::Any),
    Skip,
    Back(Rule::Constant),
    When(Look::Byte(b'p'), Look::Any),
    Skip,
    Put(b'_'),
    When(Look::Byte(b'b'), Look::Any),
    Skip,
    Truth,
    When(Look::Byte(b'c'), Look::Any),
    Skip,
    Character,
    When(Look::Byte(b'h'), Look::Any),
    Skip,
    Number,
    When(Look::Byte(b't'), Look::Any),
    Skip,
    Number,
    When(Look::Byte(b'm'), Look::Any),
    Skip,
    Number,
    When(Look::Byte(b'y'), Look::Any),
    Skip,
    Number,
    When(Look::Byte(b'o'), Look::Any),
    Skip,
    Number,
    When(Look::Byte(b'j'), Look::Any),
    Skip,
    Number,
    When(Look::Byte(b'a'), Look::Any),
    Skip,
    Rule(Rule::Signed),
    When(Look::Byte(b's'), Look::Any),
    Skip,
    Rule(Rule::Signed),
    When(Look::Byte(b'l'), Look::Any),
    Skip,
    Rule(Rule::Signed),
    When(Look::Byte(b'x'), Look::Any),
    Skip,
    Rule(Rule::Signed),
    When(Look::Byte(b'n'), Look::Any),
    Skip,
    Rule(Rule::Signed),
    When(Look::Byte(b'i'), Look::Any),
    Skip,
    Rule(Rule::Signed),
];

/// A number with its sign
pub static SIGNED: [Symbol; 6] = [
    When(Look::Byte(b'n'), Look::Any),
    Skip,
    Put(b'-'),
    Number,
    When(Look::Any, Look::Any),
    Number,
];

/// The productions of a rule.
#[tactic(auto, unfolding(crate::specs::Grammar::rows_of))]
pub fn rows(rule: Rule) -> &'static [Symbol]
    ensures { result.now ≡ rows_of rule }
{
    match rule {
        Rule::Whole => &WHOLE,
        Rule::Instantiation => &INSTANTIATION,
        Rule::ValuePath => &VALUE_PATH,
        Rule::Path => &PATH,
        Rule::Arguments => &ARGUMENTS,
        Rule::MoreArguments => &MORE_ARGUMENTS,
        Rule::Argument => &ARGUMENT,
        Rule::Type => &TYPE,
        Rule::Tuple => &TUPLE,
        Rule::SecondType => &SECOND_TYPE,
        Rule::Types => &TYPES,
        Rule::MoreTypes => &MORE_TYPES,
        Rule::Function => &FUNCTION,
        Rule::Abi => &ABI,
        Rule::Signature => &SIGNATURE,
        Rule::Returned => &RETURNED,
        Rule::Traits => &TRAITS,
        Rule::MoreTraits => &MORE_TRAITS,
        Rule::Trait => &TRAIT,
        Rule::TraitPath => &TRAIT_PATH,
        Rule::Bindings => &BINDINGS,
        Rule::Constant => &CONSTANT,
        Rule::Signed => &SIGNED,
    }
}
