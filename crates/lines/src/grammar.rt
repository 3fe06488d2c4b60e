//! The grammar of lines: what each line asks for.
ghost use Rattle.std.specs.Prelude.{◌≡◌, ◌≢◌, ◌≤◌, ◌*◌, ℕ, ℤ, List, [], ◌∷◌, length, MatchOption, IfSome, IsTrue, ◌↔◌};
ghost use Rattle.lattice.specs.declared.point.Point.{Point};
ghost use Rattle.hgt.specs.Names.{IsName};
ghost use Rattle.edits.specs.declared.command.Command.TheVariants.{Patch};
ghost use Rattle.engine.specs.declared.event.Event.TheVariants as ask;
ghost use Rattle.lines.specs.Grammar.{IsWord, NamesNone, AreInts, IsPointCount, coordinates, IsTextOf, Asked, LineAsks};
ghost use Rattle.lines.specs.Requests.{IsRequest, IsRequestOf, asked};

use crate::keyword::Keyword;
use crate::language::Language;
use crate::number::{integers, natural};
use crate::request::{MOST_POINTS, Request};
use crate::words::{Words, first_word};
use arrayvec::ArrayVec;
use edits::Command;
use engine::Event;
use hgt::name_of;
use lattice::{Corner, Point};

/// The request of a line of at most 2048 bytes, without its LF; None if the language lacks it.
pub fn request_of(language: Language, line: &[u8]) -> Option<Request<'_>>
    requires { length line.now ≤ 2048 }
    ensures exact { IsRequestOf language line.now result }
    ensures only { IfSome result (λ r. (a : Asked) → LineAsks language line.now a → a ≡ asked r) }
{
    let (word, arguments) = first_word(text_of(line));
    let command = Keyword::of(word)?;
    if !language.has(command) {
        return None;
    }
    with_arguments(command, arguments)
}

/// The line without the CR at its end, if it has one.
fn text_of(line: &[u8]) -> &[u8]
    ensures { IsTextOf line.now result.now }
{
    match line {
        [text @ .., b'\r'] => text,
        text => text,
    }
}

/// The event of the tile that the one argument names.
macro_rules! of_tile {
    ($arguments:expr, $corner:ident => $event:expr) => {
        match tile($arguments)? {
            Some($corner) => $event,
            None => return Some(Request::BadName),
        }
    };
}

/// The request of a command with these arguments.
fn with_arguments<'a>(command: Keyword, arguments: Words<'a>) -> Option<Request<'a>>
    ensures { IsRequest command arguments.entry result }
{
    let event = match command {
        Keyword::Import => return import(arguments),
        Keyword::Remove => of_tile!(arguments, corner => Event::Do(Command::Remove { corner })),
        Keyword::Export => of_tile!(arguments, corner => Event::Export(corner)),
        Keyword::Levels => of_tile!(arguments, corner => Event::Levels(corner)),
        Keyword::Directions => of_tile!(arguments, corner => Event::Directions(corner)),
        Keyword::Upstream => of_tile!(arguments, corner => Event::Upstream(corner)),
        Keyword::Patch => patch(arguments)?,
        Keyword::Burn => {
            let (depth, points) = number_and_points(arguments)?;
            Event::Do(Command::Burn { depth, points })
        }
        Keyword::Wall => {
            let (height, points) = number_and_points(arguments)?;
            Event::Do(Command::Wall { height, points })
        }
        Keyword::Sink => {
            let point = point(arguments)?;
            Event::Do(Command::Sink { point })
        }
        Keyword::Unsink => {
            let point = point(arguments)?;
            Event::Do(Command::Unsink { point })
        }
        Keyword::Elev => Event::Elevation(point(arguments)?),
        Keyword::Fill => Event::Fill(point(arguments)?),
        Keyword::Dir => Event::Direction(point(arguments)?),
        Keyword::Trace => Event::Trace(point(arguments)?),
        Keyword::Watershed => Event::Watershed(point(arguments)?),
        Keyword::Tiles => return alone(arguments, Request::Ask(Event::Tiles)),
        Keyword::Sinks => return alone(arguments, Request::Ask(Event::Sinks)),
        Keyword::Step => return alone(arguments, Request::Ask(Event::Step)),
        Keyword::Count => return alone(arguments, Request::Ask(Event::Count)),
        Keyword::Info => return alone(arguments, Request::Ask(Event::Info)),
        Keyword::Quit => return alone(arguments, Request::Quit),
    };
    Some(Request::Ask(event))
}

/// Whether the word has at least one byte, all from 0x21 to 0x7E.
fn is_word(word: &[u8]) -> bool
    ensures { IsTrue result ↔ IsWord word.now }
{
    !word.is_empty() && word.iter().all(|&byte| byte >= 0x21 && byte <= 0x7e)
}

/// The only argument, as a WORD, and the corner of the tile that it names, if it names one.
fn tile(mut arguments: Words<'_>) -> Option<Option<Corner>>
    ensures { MatchOption result ((w : List ℕ) → arguments.entry ≡ w ∷ [] → IsWord w → ⊥) (λ corner. (w : List ℕ)
        × (arguments.entry ≡ w ∷ []) × IsWord w
        × MatchOption corner (NamesNone w) (λ c. IsName w c)) }
{
    let name = arguments.next()?;
    if arguments.next().is_some() || !is_word(name) {
        return None;
    }
    Some(name_of(name).ok())
}

/// What `import NAME LENGTH` asks for; None for other arguments.
fn import(mut arguments: Words<'_>) -> Option<Request<'_>>
    ensures { IsRequest Keyword.Import arguments.entry result }
{
    let name = arguments.next()?;
    let len = arguments.next()?;
    if arguments.next().is_some() || !is_word(name) {
        return None;
    }
    let len = natural(len)?;
    Some(Request::Import { name, len })
}

/// What `patch Y0 X0 Y1 X1 HEIGHT` asks for; None for other arguments.
fn patch(arguments: Words<'_>) -> Option<Event>
    ensures { MatchOption result ((from to : Point) (height : ℤ) → AreInts arguments.entry (from.y ∷ from.x ∷ to.y ∷ to.x ∷ height ∷ []) → ⊥) (λ event. (from to : Point)
        × (height : ℤ) × AreInts arguments.entry (from.y ∷ from.x ∷ to.y ∷ to.x ∷ height ∷ [])
        × (event ≡ ask.Do (Patch from to height))) }
{
    let numbers = integers(arguments)?;
    let numbers = numbers.as_slice();
    if numbers.len() != 5 {
        return None;
    }
    let from = Point {
        y: numbers[0],
        x: numbers[1],
    };
    let to = Point {
        y: numbers[2],
        x: numbers[3],
    };
    let height = numbers[4];
    Some(Event::Do(Command::Patch { from, to, height }))
}

/// The point that the arguments `Y X` name; None for other arguments.
fn point(arguments: Words<'_>) -> Option<Point>
    ensures { MatchOption result ((p : Point) → AreInts arguments.entry (p.y ∷ p.x ∷ []) → ⊥) (λ p. AreInts arguments.entry (p.y ∷ p.x ∷ [])) }
{
    let numbers = integers(arguments)?;
    let numbers = numbers.as_slice();
    if numbers.len() != 2 {
        return None;
    }
    Some(Point {
        y: numbers[0],
        x: numbers[1],
    })
}

/// The number and the 1 to 64 points that the arguments `NUMBER Y X ..` name; None for other arguments.
fn number_and_points(arguments: Words<'_>) -> Option<(i32, ArrayVec<Point, MOST_POINTS>)>
    ensures { MatchOption result ((z : ℤ) (ps : List Point) → AreInts arguments.entry (z ∷ coordinates ps) → IsPointCount (length ps) → ⊥) (λ r. AreInts arguments.entry (r.0 ∷ coordinates r.1.items)
        × IsPointCount (length r.1.items)) }
{
    let numbers = integers(arguments)?;
    match numbers.as_slice() {
        [number, rest @ ..] => {
            let points = points(rest)?;
            Some((*number, points))
        }
        [] => None,
    }
}

/// The points with these coordinates, if they are 1 to 64 points.
fn points(numbers: &[i32]) -> Option<ArrayVec<Point, MOST_POINTS>>
    ensures { MatchOption result ((n : ℕ) → IsPointCount n → length numbers.now ≢ 2 * n)
        (λ v. (coordinates v.items ≡ numbers.now) × IsPointCount (length v.items)) }
{
    let count = numbers.len() / 2;
    if count < 1 || count > MOST_POINTS || numbers.len() % 2 != 0 {
        return None;
    }
    let mut points = ArrayVec::new();
    for place in 0..count {
        points.push(Point {
            y: numbers[2 * place],
            x: numbers[2 * place + 1],
        });
    }
    Some(points)
}

/// The request, if the command has no argument.
fn alone<'a>(mut arguments: Words<'_>, request: Request<'a>) -> Option<Request<'a>>
    ensures { MatchOption result (arguments.entry ≢ []) (λ r. (r ≡ request.entry)
        × (arguments.entry ≡ [])) }
{
    match arguments.next() {
        None => Some(request),
        Some(_) => None,
    }
}
