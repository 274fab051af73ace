ghost use Rattle.std.specs.Prelude.{◌≡◌, None, Some, [], IfOk, IfNone, IfSome, encode_utf8};
ghost use Rattle.std.specs.Fmt.{decimal, signed_decimal};
ghost use Rattle.std.specs.String.{string_bytes};
ghost use Rattle.lisp_base.specs.Writing.{Wrote, emptied};

use crate::memory::Memory;
use std::alloc::Global;
use std::marker::Model;

/// A text that is being written. When memory runs out, nothing more is written, and `finish` errs. So a
/// function that writes need not check. Contracts see the bytes that are written, or nothing where memory ran out.
#[derive(Drop)]
pub struct TextWriter {
    text: String,
    is_full: bool,
}

impl Model for TextWriter {
    ghost use Rattle.std.specs.Prelude.{List, Option, ℕ};
    ghost use Rattle.std.specs.String.{string_bytes};
    ghost use Rattle.lisp_base.specs.Writing.{shown};

    ghost Value = { Option (List ℕ) };

    ghost view = { λ w. shown w.is_full (string_bytes w.text) };
}

impl TextWriter {
    /// A writer that has written nothing. It takes no memory.
    pub fn new(alloc: Global) -> Self
        ensures { result ≡ Some [] }
    {
        TextWriter {
            text: String::new(alloc),
            is_full: false,
        }
    }

    /// Writes a character.
    pub fn push(&mut self, character: char)
        ensures { Wrote self.old self.new (encode_utf8 character) }
    {
        if !self.is_full && self.text.push(character).is_err() {
            self.is_full = true;
        }
    }

    /// Writes these characters.
    pub fn push_str(&mut self, characters: &str)
        ensures { Wrote self.old self.new characters.now }
    {
        if !self.is_full && self.text.push_str(characters).is_err() {
            self.is_full = true;
        }
    }

    /// Writes a number in decimal digits.
    pub fn push_decimal(&mut self, alloc: Global, number: u64)
        ensures { Wrote self.old self.new (decimal number) }
    {
        match number.to_string(alloc) {
            Ok(digits) => self.push_str(digits.as_str()),
            Err(_) => self.fill(),
        }
    }

    /// Writes a number in decimal digits, with a `-` before them where it is below zero.
    pub fn push_number(&mut self, alloc: Global, number: i64)
        ensures { Wrote self.old self.new (signed_decimal number) }
    {
        match number.to_string(alloc) {
            Ok(digits) => self.push_str(digits.as_str()),
            Err(_) => self.fill(),
        }
    }

    /// What is written so far: `None` exactly where memory ran out.
    pub fn written(&self) -> Option<&str>
        ensures some { IfSome result (λ text. self.now ≡ Some text.now) }
        ensures none { IfNone result (self.now ≡ None) }
    {
        if self.is_full {
            return None;
        }
        Some(self.text.as_str())
    }

    /// Forgets what is written, and keeps the memory that it took. Where memory ran out it stays so.
    pub fn clear(&mut self)
        ensures { self.new ≡ emptied self.old }
    {
        self.text.clear();
    }

    /// Takes note that memory ran out.
    pub fn fill(&mut self)
        ensures { self.new ≡ None }
    {
        self.is_full = true;
    }

    /// What was written. It errs where memory ran out.
    pub fn finish(self) -> Result<String, Memory>
        ensures { IfOk result (λ text. self ≡ Some (string_bytes text)) }
    {
        if self.is_full {
            return Err(Memory);
        }
        Ok(self.text)
    }
}
