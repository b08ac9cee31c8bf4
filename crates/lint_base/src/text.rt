//! A `String` that contracts see as the list of its characters.
ghost use Rattle.std.specs.Prelude.{◌≡◌, IfOk, encode_utf8_all};
ghost use Rattle.std.specs.Str.{chars};

use crate::place::NoMemory;
use std::alloc::Global;
use std::marker::Model;

/// A text, as the list of its characters.
#[derive(Debug, Drop)]
pub struct Str {
    text: String,
}

impl Model for Str {
    ghost use Rattle.std.specs.Prelude.{List, ℕ, string_bytes};
    ghost use Rattle.std.specs.Str.{chars};

    ghost Value = { List ℕ };

    ghost view = { λ a. chars (string_bytes a.text) };
}

impl Str {
    /// The text's characters.
    pub fn from_str(alloc: Global, text: &str) -> Result<Str, NoMemory>
        ensures { IfOk result (λ s. s ≡ chars text.now) }
    {
        Ok(Str {
            text: String::from_str(alloc, text)?,
        })
    }

    /// The text. Its bytes are the characters in UTF-8.
    pub fn as_str(&self) -> &str
        ensures characters { chars result.now ≡ self.now }
        ensures bytes { result.now ≡ encode_utf8_all self.now }
    {
        self.text.as_str()
    }

    /// The same text.
    pub fn copy(&self, alloc: Global) -> Result<Str, NoMemory>
        ensures { IfOk result (λ s. s ≡ self.now) }
    {
        Ok(Str {
            text: String::from_str(alloc, self.text.as_str())?,
        })
    }
}
