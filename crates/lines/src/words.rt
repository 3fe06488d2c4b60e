//! The words of a text.
ghost use Rattle.std.specs.Prelude.{◌≡◌, ℕ, List, [], ◌∷◌, MatchOption, Option, Some, None};
ghost use Rattle.std.specs.Option.{option_copied};
ghost use Rattle.lines.specs.Words.{words_of, words_code, cut};

use crate::bytes::place_of;
use std::marker::Model;

/// The remaining words of a text. Between two spaces is an empty word.
#[derive(Drop)]
pub struct Words<'a> {
    rest: Option<&'a [u8]>,
}

impl<'a> Model for Words<'a> {
    ghost Value = { List (List ℕ) };

    ghost coded = { words_code };

    ghost view = { λ w. words_of (option_copied w.rest) };
}

impl<'a> Words<'a> {
    /// The next word.
    pub fn next(&mut self) -> Option<&'a [u8]>
        ensures { MatchOption result ((self.old ≡ []) × (self.new ≡ [])) (λ word. self.old ≡ word.now ∷ self.new) }
    {
        let (word, rest) = first_word(self.rest?);
        *self = rest;
        Some(word)
    }
}

/// The first word of a text, and the words after it.
pub(crate) fn first_word(text: &[u8]) -> (&[u8], Words<'_>)
    ensures { cut text.now ≡ result.0.now ∷ result.1 }
{
    match place_of(b' ', text) {
        Some(space) => {
            let rest = Some(&text[space + 1..]);
            (&text[..space], Words { rest })
        }
        None => (text, Words { rest: None }),
    }
}
