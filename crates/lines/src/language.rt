//! The languages that lines are written in.
ghost use Rattle.std.specs.Prelude.{◌↔◌, IsTrue};
ghost use Rattle.lines.specs.Grammar.{IsIn};
ghost use Rattle.lines.specs.Languages.{PlainIsAPart};

use crate::keyword::Keyword;

/// Which command words a language has.
#[derive(Clone, Copy, Debug, PartialEq, Eq)]
pub enum Language {
    /// The words of the program `mosaic`.
    Plain,
    /// Also the words for all samples of a tile at once and for the store's numbers.
    Tiles,
}

impl Language {
    /// Whether the language has the command.
    pub(crate) fn has(self, command: Keyword) -> bool
        ensures { IsTrue result ↔ IsIn self command }
    {
        match command {
            Keyword::Levels | Keyword::Directions | Keyword::Upstream | Keyword::Info => {
                self == Language::Tiles
            }
            _ => true,
        }
    }
}

/// Each line of the plain language asks for the same in the other one, and never for all samples of a tile or for the
/// store's numbers. Each further line of the other language begins with a word for these.
///
/// The function does nothing: its contract is the law.
pub fn plain_lines_ask_for_no_tile_at_once()
    ensures { PlainIsAPart }
{}
