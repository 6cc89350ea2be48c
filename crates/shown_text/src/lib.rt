//! A text that is written piece by piece, of which want of memory is told once, at its end.
#![tactic(auto)]

ghost use Rattle.std.specs.Prelude.{◌≡◌, ◌++◌, ◌∷◌, [], Some, None, IfOk, IfSome, OnErr, OnOk, codes, decimal};
ghost use Rattle.std.specs.Fmt.{signed_decimal};
ghost use Rattle.line_parts.specs.Parts.{hex_of};
ghost use Rattle.shown_text.specs.Shown.{Adds};

use line_parts::{push_bytes, push_decimal, push_hex, push_signed};
use std::alloc::{AllocError, Global};
use std::marker::Model;

/// What is shown so far, unless there was no memory for a piece of it.
#[derive(Drop)]
pub struct Shown {
    alloc: Global,
    text: Vec<u8>,
    failure: Option<AllocError>,
}

/// It is the text, or nothing if a piece is missing.
impl Model for Shown {
    ghost use Rattle.std.specs.Prelude.{List, Option, ℕ};
    ghost use Rattle.shown_text.specs.Shown.{text_unless};

    ghost Value = { Option (List ℕ) };

    ghost view = { λ shown. text_unless shown.failure shown.text.items };
}

impl Shown {
    /// An empty text.
    pub fn new(alloc: Global) -> Self
        ensures { result ≡ Some [] }
    {
        Shown {
            alloc,
            text: Vec::new(alloc),
            failure: None,
        }
    }

    /// Where memory is taken.
    pub fn alloc(&self) -> Global {
        self.alloc
    }

    /// What is written so far.
    pub fn as_bytes(&self) -> &[u8]
        ensures { IfSome self.now (λ text. result.now ≡ text) }
    {
        &self.text
    }

    /// The text, or that a piece of it is missing.
    pub fn finish(self) -> Result<Vec<u8>, AllocError>
        ensures ok { IfOk result (λ text. self ≡ Some text.items) }
        ensures err { OnErr result (self ≡ None) }
    {
        match self.failure {
            Some(error) => Err(error),
            None => Ok(self.text),
        }
    }

    /// Takes what a piece came to that was made elsewhere.
    pub fn keep(&mut self, made: Result<(), AllocError>)
        ensures ok { OnOk made (self.new ≡ self.old) }
        ensures err { OnErr made (self.new ≡ None) }
    {
        if let Err(error) = made {
            self.failure = Some(error);
        }
    }

    /// Adds bytes as they are.
    pub fn bytes(&mut self, bytes: &[u8])
        ensures { Adds self.old self.new bytes.now }
    {
        let pushed = push_bytes(&mut self.text, bytes);
        self.keep(pushed);
    }

    /// Adds a text.
    pub fn text(&mut self, text: &str)
        ensures { Adds self.old self.new text.now }
    {
        self.bytes(text.as_bytes());
    }

    /// Ends the line.
    pub fn end(&mut self)
        ensures { Adds self.old self.new (codes "\n") }
    {
        self.bytes(b"\n");
    }

    /// Adds a number in decimal digits, after a text.
    pub fn number(&mut self, before: &str, number: u64)
        ensures { Adds self.old self.new (before.now ++ decimal number) }
    {
        self.text(before);
        let pushed = push_decimal(self.alloc, &mut self.text, number);
        self.keep(pushed);
    }

    /// Adds a number that may be negative, in the same way.
    pub fn signed(&mut self, before: &str, number: i64)
        ensures { Adds self.old self.new (before.now ++ signed_decimal number) }
    {
        self.text(before);
        let pushed = push_signed(self.alloc, &mut self.text, number);
        self.keep(pushed);
    }

    /// Adds a number in hexadecimal digits, in the same way.
    pub fn hex(&mut self, before: &str, number: u64)
        ensures { Adds self.old self.new (before.now ++ hex_of 0 number) }
    {
        self.text(before);
        let pushed = push_hex(self.alloc, &mut self.text, 0, number);
        self.keep(pushed);
    }
}
