//! The command words.
ghost use Rattle.std.specs.Prelude.{◌≡◌, ◌≢◌, MatchOption};
ghost use Rattle.lines.specs.Grammar.{spelling};

/// A word that a line of the grammar may begin with; docs/lines.md says what each does.
#[derive(Clone, Copy, Debug, PartialEq, Eq)]
pub enum Keyword {
    Import,
    Remove,
    Patch,
    Burn,
    Wall,
    Sink,
    Unsink,
    Elev,
    Fill,
    Dir,
    Trace,
    Watershed,
    Export,
    Levels,
    Directions,
    Upstream,
    Tiles,
    Sinks,
    Step,
    Count,
    Info,
    Quit,
}

impl Keyword {
    /// The keyword that a word spells, if there is one.
    pub fn of(word: &[u8]) -> Option<Keyword>
        ensures { MatchOption result ((k : Keyword) → spelling k ≢ word.now) (λ k. spelling k ≡ word.now) }
    {
        match word {
            b"import" => Some(Keyword::Import),
            b"remove" => Some(Keyword::Remove),
            b"patch" => Some(Keyword::Patch),
            b"burn" => Some(Keyword::Burn),
            b"wall" => Some(Keyword::Wall),
            b"sink" => Some(Keyword::Sink),
            b"unsink" => Some(Keyword::Unsink),
            b"elev" => Some(Keyword::Elev),
            b"fill" => Some(Keyword::Fill),
            b"dir" => Some(Keyword::Dir),
            b"trace" => Some(Keyword::Trace),
            b"watershed" => Some(Keyword::Watershed),
            b"export" => Some(Keyword::Export),
            b"levels" => Some(Keyword::Levels),
            b"directions" => Some(Keyword::Directions),
            b"upstream" => Some(Keyword::Upstream),
            b"tiles" => Some(Keyword::Tiles),
            b"sinks" => Some(Keyword::Sinks),
            b"step" => Some(Keyword::Step),
            b"count" => Some(Keyword::Count),
            b"info" => Some(Keyword::Info),
            b"quit" => Some(Keyword::Quit),
            _ => None,
        }
    }
}
