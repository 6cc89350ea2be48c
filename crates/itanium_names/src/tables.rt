//! Codes of types, operators and abbreviations, and what they are written as.

ghost use Rattle.std.specs.Prelude.{◌≡◌};
ghost use Rattle.std.specs.Option.{option_copied};
ghost use Rattle.itanium_names.specs.Tables.{builtin_d_of, builtin_of, operator_by, operator_of, phrase_of, standard_end_of, standard_of};

use crate::symbol::Phrase;

/// The type of a code (5.1.5.2).
pub fn builtin(code: u8) -> Option<&'static [u8]>
    ensures { option_copied result ≡ builtin_of code }
{
    match code {
        b'v' => Some(b"void"),
        b'w' => Some(b"wchar_t"),
        b'b' => Some(b"bool"),
        b'c' => Some(b"char"),
        b'a' => Some(b"signed char"),
        b'h' => Some(b"unsigned char"),
        b's' => Some(b"short"),
        b't' => Some(b"unsigned short"),
        b'i' => Some(b"int"),
        b'j' => Some(b"unsigned int"),
        b'l' => Some(b"long"),
        b'm' => Some(b"unsigned long"),
        b'x' => Some(b"long long"),
        b'y' => Some(b"unsigned long long"),
        b'n' => Some(b"__int128"),
        b'o' => Some(b"unsigned __int128"),
        b'f' => Some(b"float"),
        b'd' => Some(b"double"),
        b'e' => Some(b"long double"),
        b'g' => Some(b"__float128"),
        b'z' => Some(b"..."),
        _ => None,
    }
}

/// The type of a code's second letter after `D` (5.1.5.2).
pub fn builtin_d(code: u8) -> Option<&'static [u8]>
    ensures { option_copied result ≡ builtin_d_of code }
{
    match code {
        b'd' => Some(b"decimal64"),
        b'e' => Some(b"decimal128"),
        b'f' => Some(b"decimal32"),
        b'h' => Some(b"half"),
        b's' => Some(b"char16_t"),
        b'u' => Some(b"char8_t"),
        b'i' => Some(b"char32_t"),
        b'a' => Some(b"auto"),
        b'c' => Some(b"decltype(auto)"),
        b'n' => Some(b"decltype(nullptr)"),
        _ => None,
    }
}

/// What an abbreviation stands for (5.1.10).
pub fn standard(code: u8) -> Option<&'static [u8]>
    ensures { option_copied result ≡ standard_of code }
{
    match code {
        b'a' => Some(b"std::allocator"),
        b'b' => Some(b"std::basic_string"),
        b's' => Some(b"std::basic_string<char, std::char_traits<char>, std::allocator<char> >"),
        b'i' => Some(b"std::basic_istream<char, std::char_traits<char> >"),
        b'o' => Some(b"std::basic_ostream<char, std::char_traits<char> >"),
        b'd' => Some(b"std::basic_iostream<char, std::char_traits<char> >"),
        _ => None,
    }
}

/// Where the last name in it ends; it begins behind `std::`.
pub fn standard_end(code: u8) -> Option<usize>
    ensures { result ≡ standard_end_of code }
{
    match code {
        b'a' => Some(14),
        b'b' => Some(17),
        b's' => Some(17),
        b'i' => Some(18),
        b'o' => Some(18),
        b'd' => Some(19),
        _ => None,
    }
}

// An operator by its two letters, the first of which counts 256 times (5.1.3.2).
fn operator_by_code(code: u16) -> Option<&'static [u8]>
    ensures { option_copied result ≡ operator_by code }
{
    match code {
        0x6e77 => Some(b" new"), // nw
        0x6e61 => Some(b" new[]"), // na
        0x646c => Some(b" delete"), // dl
        0x6461 => Some(b" delete[]"), // da
        0x6177 => Some(b" co_await"), // aw
        0x6e67 => Some(b"-"), // ng
        0x6164 => Some(b"&"), // ad
        0x6465 => Some(b"*"), // de
        0x636f => Some(b"~"), // co
        0x706c => Some(b"+"), // pl
        0x6d69 => Some(b"-"), // mi
        0x6d6c => Some(b"*"), // ml
        0x6476 => Some(b"/"), // dv
        0x726d => Some(b"%"), // rm
        0x616e => Some(b"&"), // an
        0x6f72 => Some(b"|"), // or
        0x656f => Some(b"^"), // eo
        0x6153 => Some(b"="), // aS
        0x704c => Some(b"+="), // pL
        0x6d49 => Some(b"-="), // mI
        0x6d4c => Some(b"*="), // mL
        0x6456 => Some(b"/="), // dV
        0x724d => Some(b"%="), // rM
        0x614e => Some(b"&="), // aN
        0x6f52 => Some(b"|="), // oR
        0x654f => Some(b"^="), // eO
        0x6c73 => Some(b"<<"), // ls
        0x7273 => Some(b">>"), // rs
        0x6c53 => Some(b"<<="), // lS
        0x7253 => Some(b">>="), // rS
        0x6571 => Some(b"=="), // eq
        0x6e65 => Some(b"!="), // ne
        0x6c74 => Some(b"<"), // lt
        0x6774 => Some(b">"), // gt
        0x6c65 => Some(b"<="), // le
        0x6765 => Some(b">="), // ge
        0x7373 => Some(b"<=>"), // ss
        0x6e74 => Some(b"!"), // nt
        0x6161 => Some(b"&&"), // aa
        0x6f6f => Some(b"||"), // oo
        0x7070 => Some(b"++"), // pp
        0x6d6d => Some(b"--"), // mm
        0x636d => Some(b","), // cm
        0x706d => Some(b"->*"), // pm
        0x7074 => Some(b"->"), // pt
        0x636c => Some(b"()"), // cl
        0x6978 => Some(b"[]"), // ix
        0x7175 => Some(b"?"), // qu
        0x7073 => Some(b"+"), // ps
        _ => None,
    }
}

/// An operator by its two letters (5.1.3.2).
pub fn operator(first: u8, second: u8) -> Option<&'static [u8]>
    ensures { option_copied result ≡ operator_of first second }
{
    operator_by_code(first as u16 * 256 + second as u16)
}

/// What a phrase is written as.
pub fn phrase(phrase: Phrase) -> &'static [u8]
    ensures { result.now ≡ phrase_of phrase }
{
    match phrase {
        Phrase::Std => b"std",
        Phrase::Scope => b"::",
        Phrase::Operator => b"operator",
        Phrase::LiteralOperator => b"operator\"\" ",
        Phrase::UnnamedType => b"{unnamed type#",
        Phrase::Lambda => b"{lambda(",
        Phrase::EndLambda => b")#",
        Phrase::AbiTag => b"[abi:",
        Phrase::Clone => b" [clone ",
        Phrase::StringLiteral => b"::string literal",
        Phrase::DefaultArgument => b"::{default arg#",
        Phrase::VirtualTable => b"vtable for ",
        Phrase::TableOfTables => b"VTT for ",
        Phrase::TypeInfo => b"typeinfo for ",
        Phrase::TypeInfoName => b"typeinfo name for ",
        Phrase::ConstructionTable => b"construction vtable for ",
        Phrase::InBase => b"-in-",
        Phrase::NonVirtualThunk => b"non-virtual thunk to ",
        Phrase::VirtualThunk => b"virtual thunk to ",
        Phrase::CovariantThunk => b"covariant return thunk to ",
        Phrase::ThreadInit => b"TLS init function for ",
        Phrase::ThreadWrapper => b"TLS wrapper function for ",
        Phrase::Guard => b"guard variable for ",
        Phrase::Temporary => b"reference temporary #",
        Phrase::TemporaryFor => b" for ",
        Phrase::HiddenAlias => b"hidden alias for ",
        Phrase::Clones => b"transaction clone for ",
        Phrase::Const => b" const",
        Phrase::Volatile => b" volatile",
        Phrase::ConstVolatile => b" const volatile",
        Phrase::LvalueThis => b" &",
        Phrase::RvalueThis => b" &&",
        Phrase::True => b"true",
        Phrase::False => b"false",
        Phrase::CastBool => b"(bool)",
        Phrase::UnsignedLongSuffix => b"ul",
        Phrase::LongLongSuffix => b"ll",
        Phrase::UnsignedLongLongSuffix => b"ull",
        Phrase::NoBound => b" []",
        Phrase::Bound => b" [",
        Phrase::Vector => b" __vector(",
        Phrase::Noexcept => b" noexcept",
        Phrase::MemberPointer => b"::*",
        Phrase::BrainFloat => b"std::bfloat16_t",
        Phrase::Float16 => b"_Float16",
    }
}
