//! Fixed lists of words.
ghost use Rattle.std.specs.Prelude.{◌≡◌, ◌<◌, ℕ, List, IfSome, map, length};
ghost use Rattle.std.specs.Str.{bytes_eq};
ghost use Rattle.lint_tables.specs.Words.{upper, place_of, reserved};

use std::marker::Model;

/// N words in order, seen as the list of their bytes.
#[derive(Drop)]
pub struct Fixed<const N: usize> {
    words: &'static [&'static str],
}

impl<const N: usize> Model for Fixed<N> {
    ghost Value = { List (List ℕ) };

    ghost view = { λ f. map (λ w. w.now) f.words.now };

    ghost invariant = { λ f. length f.words.now ≡ N };
}

/// The words, each as it is written.
macro_rules! fixed {
    ($($word:ident)*) => {
        Fixed { words: &[$(stringify!($word)),*] }
    };
}

/// The reserved words, in upper case and in their order. A caller of `RESERVED.find` knows them,
/// but a clause cannot name a constant that holds references: `reserved_words` states which words
/// these are.
pub const RESERVED: Fixed<44> = fixed! {
    ALL AND ANY AS BETWEEN BY CASE CHECK CONSTRAINT CREATE CROSS DISTINCT EXCEPT EXISTS FOREIGN FROM FULL
    GROUP HAVING IN INNER INTERSECT IS JOIN LEFT LIKE NATURAL NOT NULL ON OR ORDER OUTER PRIMARY REFERENCES
    RIGHT SELECT SOME TABLE UNION UNIQUE USING WHERE WITH
};

/// The reserved words, which are `RESERVED`.
pub fn reserved_words() -> Fixed<44>
    ensures { result ≡ reserved }
{
    RESERVED
}

impl<const N: usize> Fixed<N> {
    /// The place, from 0, of the first of the words that the given one is, with its ASCII letters
    /// taken in upper case; None exactly where it is none of them. It takes no memory.
    pub fn find(&self, word: &[u8]) -> Option<usize>
        ensures place { result ≡ place_of self.now word.now }
        ensures within { IfSome result (λ place. place < N) }
    {
        for (place, known) in self.words.iter().enumerate() {
            if is_word(known.as_bytes(), word) {
                return Some(place);
            }
        }
        None
    }
}

/// A byte in upper case, where it is an ASCII letter.
fn upper(byte: u8) -> u8
    ensures { result ≡ upper byte }
{
    if byte.is_ascii_lowercase() {
        byte - 32
    } else {
        byte
    }
}

/// Whether the word, in upper case, is the known one.
fn is_word(known: &[u8], word: &[u8]) -> bool
    ensures { result ≡ bytes_eq (map upper word.now) known.now }
{
    let mut known = known;
    let mut word = word;
    while let (Some((k, more_known)), Some((b, more_word))) = (
        known.split_first(),
        word.split_first(),
    ) {
        if upper(*b) != *k {
            return false;
        }
        known = more_known;
        word = more_word;
    }
    known.is_empty() && word.is_empty()
}
