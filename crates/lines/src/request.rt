//! What lines ask for.
ghost use Rattle.std.specs.Prelude.{◌≡◌, MatchResult};
ghost use Rattle.lattice.specs.declared.refusal.Refusal.TheVariants.{BadLine};
ghost use Rattle.lines.specs.Questions.{OnlyAsks};

use engine::Event;
use lattice::Refusal;

/// The most points of a burn or a wall.
pub const MOST_POINTS: usize = 64;

/// The request of a line.
#[derive(Drop)]
pub enum Request<'a> {
    /// An import with a payload of this length, which follows the line. The name is as it was written: whether it is a
    /// tile's is judged after the payload was read.
    Import { name: &'a [u8], len: u32 },
    /// An event for the store.
    Ask(Event),
    /// An event for a tile, with a word that is no tile's name.
    BadName,
    /// The end of the session.
    Quit,
}

/// The event, if it only asks. A command, a step and a reopening are refused with BadLine.
pub fn only_question(event: Event) -> Result<Event, Refusal>
    ensures { MatchResult result (λ asked. (asked ≡ event) × OnlyAsks event) (λ r. (r ≡ BadLine)
        × (OnlyAsks event → ⊥)) }
{
    match event {
        Event::Do(_) | Event::Step | Event::Reopen => Err(Refusal::BadLine),
        question => Ok(question),
    }
}
