//! Steps that read, and write what they read.

ghost use Rattle.std.specs.Prelude.{◌≡◌, [], ◌∷◌, codes};
ghost use Rattle.symbol_text.specs.Texts.{Gives, appended};
ghost use Rattle.rust_names.specs.Reading.{abi_read, basic_read, binder_read, character_read, closed_if_open, disambiguator_read, lifetime_read, lifetime_written, name_read, number_read, object_lifetime_read, opened, opened_or_gone_on, path_ended, reference_lifetime_read, skipped, truth_read};
ghost use Rattle.rust_names.specs.State.{shown, view};

use crate::machine::Machine;
use crate::numbers::{base_62, counted, identifier_at, nibbles};
use crate::tables::basic;
use crate::texts::{
    append_abi, append_binder, append_character, append_identifier, append_lifetime, append_name,
    append_number, append_truth,
};
use symbol_text::{Failure, after_byte, append};

impl<'n> Machine<'n> {
    /// Writes bytes.
    pub fn write(&mut self, bytes: &[u8]) -> Result<(), Failure>
        ensures { Gives (λ _. view self.new) result (shown (appended bytes.now) (view self.old)) }
    {
        if self.is_hidden {
            return Ok(());
        }
        append(&mut self.text, bytes)
    }

    pub fn skip(&mut self) -> Result<(), Failure>
        ensures { Gives (λ _. view self.new) result (skipped (view self.old)) }
    {
        let Some((_, rest)) = self.rest.split_first() else {
            return Err(Failure::NotUnderstood);
        };
        self.rest = rest;
        Ok(())
    }

    #[tactic(auto, unfolding(crate::specs::Reading::disambiguator_read))]
    pub fn read_disambiguator(&mut self) -> Result<(), Failure>
        ensures { Gives (λ _. view self.new) result (disambiguator_read (view self.old)) }
    {
        let Some((_, rest)) = counted(self.rest, b's') else {
            return Err(Failure::NotUnderstood);
        };
        self.rest = rest;
        Ok(())
    }

    #[tactic(auto, unfolding(crate::specs::Reading::name_read))]
    pub fn read_name(&mut self) -> Result<(), Failure>
        ensures { Gives (λ _. view self.new) result (name_read (view self.old)) }
    {
        let Some((name, rest)) = identifier_at(self.rest) else {
            return Err(Failure::NotUnderstood);
        };
        self.rest = rest;
        if self.is_hidden {
            return Ok(());
        }
        append_identifier(self.alloc, &mut self.text, name)
    }

    #[tactic(auto, unfolding(crate::specs::Reading::abi_read))]
    pub fn read_abi(&mut self) -> Result<(), Failure>
        ensures { Gives (λ _. view self.new) result (abi_read (view self.old)) }
    {
        let Some((name, rest)) = identifier_at(self.rest) else {
            return Err(Failure::NotUnderstood);
        };
        self.rest = rest;
        if self.is_hidden {
            return Ok(());
        }
        append_abi(&mut self.text, name)
    }

    /// Ends a path with a name in a namespace.
    #[tactic(auto, unfolding(crate::specs::Reading::path_ended))]
    pub fn end_path(&mut self, namespace: u8) -> Result<(), Failure>
        ensures { Gives (λ _. view self.new) result (path_ended namespace (view self.old)) }
    {
        let Some((number, rest)) = counted(self.rest, b's') else {
            return Err(Failure::NotUnderstood);
        };
        let Some((name, rest)) = identifier_at(rest) else {
            return Err(Failure::NotUnderstood);
        };
        self.rest = rest;
        if self.is_hidden {
            return Ok(());
        }
        append_name(self.alloc, &mut self.text, namespace, number, name)
    }

    // Writes a lifetime.
    fn write_lifetime(&mut self, lifetime: usize) -> Result<(), Failure>
        ensures { Gives (λ _. view self.new) result (lifetime_written lifetime (view self.old)) }
    {
        if self.is_hidden {
            return Ok(());
        }
        append_lifetime(self.alloc, &mut self.text, self.depth, lifetime)
    }

    #[tactic(auto, unfolding(crate::specs::Reading::lifetime_read))]
    pub fn read_lifetime(&mut self) -> Result<(), Failure>
        ensures { Gives (λ _. view self.new) result (lifetime_read (view self.old)) }
    {
        let Some((lifetime, rest)) = base_62(self.rest) else {
            return Err(Failure::NotUnderstood);
        };
        self.rest = rest;
        self.write_lifetime(lifetime)
    }

    #[tactic(auto, unfolding(crate::specs::Reading::reference_lifetime_read))]
    pub fn read_reference_lifetime(&mut self) -> Result<(), Failure>
        ensures { Gives (λ _. view self.new) result (reference_lifetime_read (view self.old)) }
    {
        let Some(rest) = after_byte(self.rest, b'L') else {
            return Ok(());
        };
        let Some((lifetime, rest)) = base_62(rest) else {
            return Err(Failure::NotUnderstood);
        };
        self.rest = rest;
        if lifetime == 0 {
            return Ok(());
        }
        self.write_lifetime(lifetime)?;
        self.write(b" ")
    }

    #[tactic(auto, unfolding(crate::specs::Reading::object_lifetime_read))]
    pub fn read_object_lifetime(&mut self) -> Result<(), Failure>
        ensures { Gives (λ _. view self.new) result (object_lifetime_read (view self.old)) }
    {
        let Some(rest) = after_byte(self.rest, b'L') else {
            return Err(Failure::NotUnderstood);
        };
        let Some((lifetime, rest)) = base_62(rest) else {
            return Err(Failure::NotUnderstood);
        };
        self.rest = rest;
        if lifetime == 0 {
            return Ok(());
        }
        self.write(b" + ")?;
        self.write_lifetime(lifetime)
    }

    /// Reads the lifetimes that are bound, if any are.
    #[tactic(auto, unfolding(crate::specs::Reading::binder_read))]
    pub fn bind(&mut self) -> Result<(), Failure>
        ensures { Gives (λ _. view self.new) result (binder_read (view self.old)) }
    {
        let Some((count, rest)) = counted(self.rest, b'G') else {
            return Err(Failure::NotUnderstood);
        };
        self.rest = rest;
        if self.is_hidden {
            return Ok(());
        }
        append_binder(self.alloc, &mut self.text, self.depth, count)?;
        self.depth += count;
        Ok(())
    }

    #[tactic(auto, unfolding(crate::specs::Reading::basic_read))]
    pub fn read_basic_type(&mut self) -> Result<(), Failure>
        ensures { Gives (λ _. view self.new) result (basic_read (view self.old)) }
    {
        let Some((letter, rest)) = self.rest.split_first() else {
            return Err(Failure::NotUnderstood);
        };
        let Some(word) = basic(*letter) else {
            return Err(Failure::NotUnderstood);
        };
        self.rest = rest;
        self.write(word)
    }

    #[tactic(auto, unfolding(crate::specs::Reading::number_read))]
    pub fn read_number(&mut self) -> Result<(), Failure>
        ensures { Gives (λ _. view self.new) result (number_read (view self.old)) }
    {
        let Some((digits, rest)) = nibbles(self.rest) else {
            return Err(Failure::NotUnderstood);
        };
        self.rest = rest;
        if self.is_hidden {
            return Ok(());
        }
        append_number(self.alloc, &mut self.text, digits)
    }

    #[tactic(auto, unfolding(crate::specs::Reading::truth_read))]
    pub fn read_truth(&mut self) -> Result<(), Failure>
        ensures { Gives (λ _. view self.new) result (truth_read (view self.old)) }
    {
        let Some((digits, rest)) = nibbles(self.rest) else {
            return Err(Failure::NotUnderstood);
        };
        self.rest = rest;
        if self.is_hidden {
            return Ok(());
        }
        append_truth(&mut self.text, digits)
    }

    #[tactic(auto, unfolding(crate::specs::Reading::character_read))]
    pub fn read_character(&mut self) -> Result<(), Failure>
        ensures { Gives (λ _. view self.new) result (character_read (view self.old)) }
    {
        let Some((digits, rest)) = nibbles(self.rest) else {
            return Err(Failure::NotUnderstood);
        };
        self.rest = rest;
        if self.is_hidden {
            return Ok(());
        }
        append_character(&mut self.text, digits)
    }

    pub fn open(&mut self, is_open: bool) -> Result<(), Failure>
        ensures { Gives (λ _. view self.new) result (opened is_open (view self.old)) }
    {
        self.is_open = is_open;
        Ok(())
    }

    pub fn open_or_go_on(&mut self) -> Result<(), Failure>
        ensures { Gives (λ _. view self.new) result (opened_or_gone_on (view self.old)) }
    {
        if self.is_open {
            self.write(b", ")
        } else {
            self.write(b"<")
        }
    }

    pub fn close_if_open(&mut self) -> Result<(), Failure>
        ensures { Gives (λ _. view self.new) result (closed_if_open (view self.old)) }
    {
        if self.is_open {
            return self.write(b">");
        }
        Ok(())
    }
}
