//! Names of symbols as they are written in programs: of C++ by the Itanium C++ ABI, and of Rust by either of its
//! schemes.
#![tactic(auto)]

ghost use Rattle.std.specs.Prelude.{IfOk};
ghost use Rattle.symbol_names.specs.Names.{HasLimit, IsText, itanium_text_of, rust_text_of, text_of};

use std::alloc::{AllocError, Global};
use symbol_text::Failure;

// The text of a name of Rust.
fn rust_text(alloc: Global, name: &[u8]) -> Result<Option<Vec<u8>>, AllocError>
    ensures text { IfOk result (λ found. IsText found (rust_text_of name.now)) }
    ensures bounded { IfOk result HasLimit }
{
    match rust_names::demangled(alloc, name) {
        Ok(text) => Ok(Some(text)),
        Err(Failure::NotUnderstood) => Ok(None),
        Err(Failure::OutOfMemory) => Err(AllocError),
    }
}

// The text of a name of C++.
fn itanium_text(alloc: Global, name: &[u8]) -> Result<Option<Vec<u8>>, AllocError>
    ensures text { IfOk result (λ found. IsText found (itanium_text_of name.now)) }
    ensures bounded { IfOk result HasLimit }
{
    match itanium_names::demangled(alloc, name) {
        Ok(text) => Ok(Some(text)),
        Err(Failure::NotUnderstood) => Ok(None),
        Err(Failure::OutOfMemory) => Err(AllocError),
    }
}

/// The text of a mangled name, or `None` if it isn't one that is understood.
pub fn demangled(alloc: Global, name: &[u8]) -> Result<Option<Vec<u8>>, AllocError>
    ensures text { IfOk result (λ found. IsText found (text_of name.now)) }
    ensures bounded { IfOk result HasLimit }
{
    match rust_text(alloc, name)? {
        Some(text) => Ok(Some(text)),
        None => itanium_text(alloc, name),
    }
}
