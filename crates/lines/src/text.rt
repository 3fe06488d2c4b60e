//! The text of a reply: `OK` with a value, or `ERR` with the number and the word of a refusal. Each line of a reply
//! ends in an LF.
ghost use Rattle.std.specs.Prelude.{◌≡◌, ◌+◌, ◌≤◌, ◌++◌, length, codes, decimal};
ghost use Rattle.hgt.specs.Names.{name_bytes};
ghost use Rattle.lines.specs.Held.{body_text, text_left};
ghost use Rattle.lines.specs.Replies.{ok_line, done_text, changing_text, info_line, names_line, path_text, refusal_text, runs_text};

use crate::lists::{Elements, LONGEST_LINE, Rest, point_count};
use arrayvec::ArrayVec;
use engine::Info;
use hgt::name_text;
use itoa::{Buffer, Integer};
use lattice::{Corner, Point, Refusal};
use std::marker::Model;
use water::Run;

/// Enough bytes for a number.
const LONGEST_NUMBER: usize = 40;

/// The text of a reply.
///
/// It takes no memory beside its answer: the bytes of a tile aren't copied, and the text of a list is made in parts
/// while it is written.
#[derive(Drop)]
pub struct Text {
    head: ArrayVec<u8, LONGEST_LINE>,
    body: Body,
}

/// The text after the head.
#[derive(Drop)]
enum Body {
    None,
    Bytes(Vec<u8>),
    Names(Vec<Corner>),
    Points(Vec<Point>),
    Runs(Vec<Run>),
}

impl Model for Text {
    ghost use Rattle.std.specs.Prelude.{◌++◌, ℕ, List};
    ghost use Rattle.lines.specs.Held.{body_text};
    ghost use Rattle.lines.specs.Replies.{reply_code};

    ghost Value = { List ℕ };

    ghost coded = { reply_code };

    ghost view = { λ t. t.head.items ++ body_text t.body };
}

impl Text {
    /// `OK` alone.
    pub fn done() -> Text
        ensures { result ≡ done_text }
    {
        Text::line(joined(b"OK", b"", b"\n"))
    }

    /// `OK` and a number.
    pub fn number<I: Integer>(number: I) -> Text
        ensures { result ≡ ok_line (I.text number) }
    {
        let mut buffer = Buffer::new();
        let digits = buffer.format(number).as_bytes();
        Text::line(joined(b"OK ", digits, b"\n"))
    }

    /// `OK void`, the height of a void point.
    pub fn void() -> Text
        ensures { result ≡ ok_line (codes "void") }
    {
        Text::line(joined(b"OK ", b"void", b"\n"))
    }

    /// `OK` and the tile's name.
    pub fn name(corner: Corner) -> Text
        ensures { result ≡ ok_line (name_bytes corner) }
    {
        Text::line(joined(b"OK ", name_text(corner).as_bytes(), b"\n"))
    }

    /// `OK none`, if there is no tile to name.
    pub fn none() -> Text
        ensures { result ≡ ok_line (codes "none") }
    {
        Text::line(joined(b"OK ", b"none", b"\n"))
    }

    /// `ERR`, the refusal's number and its word.
    pub fn refused(refusal: Refusal) -> Text
        ensures { result ≡ refusal_text refusal }
    {
        let mut buffer = Buffer::new();
        let number = buffer.format(refusal.number()).as_bytes();
        let mut line = joined(b"ERR ", number, b" ");
        extend(&mut line, refusal.word().as_bytes());
        extend(&mut line, b"\n");
        Text::line(line)
    }

    /// The refusal of a question that wasn't answered between two changes of the store that it asks.
    pub fn changing() -> Text
        ensures { result ≡ changing_text }
    {
        Text::line(joined(b"ERR 36 Changing", b"", b"\n"))
    }

    /// `OK`, the number of bytes, and the bytes themselves, with no LF after them. They aren't copied.
    pub fn bytes(bytes: Vec<u8>) -> Text
        ensures { result ≡ ok_line (decimal (length bytes.items)) ++ bytes.items }
    {
        Text {
            head: count_line(bytes.len(), b"\n"),
            body: Body::Bytes(bytes),
        }
    }

    /// `OK`, the number of tiles, and their names.
    pub fn names(corners: Vec<Corner>) -> Text
        ensures { result ≡ names_line corners.items }
    {
        Text {
            head: count_line(corners.len(), b""),
            body: Body::Names(corners),
        }
    }

    /// `OK` and the number of points, then a line `y x` for each.
    pub fn path(points: Vec<Point>) -> Text
        ensures { result ≡ path_text points.items }
    {
        Text {
            head: count_line(points.len(), b"\n"),
            body: Body::Points(points),
        }
    }

    /// `OK`, the number of the runs' points and that of the runs, then a line `y first last` for each run.
    pub fn runs(runs: Vec<Run>) -> Text
        ensures { result ≡ runs_text runs.items }
    {
        let mut points = Buffer::new();
        let mut head = joined(
            b"OK ",
            points.format(point_count(runs.as_slice())).as_bytes(),
            b" ",
        );
        let mut count = Buffer::new();
        extend(&mut head, count.format(runs.len()).as_bytes());
        extend(&mut head, b"\n");
        Text {
            head,
            body: Body::Runs(runs),
        }
    }

    /// `OK` and a store's numbers, each after its word.
    pub fn info(info: &Info) -> Text
        ensures { result ≡ info_line info.now }
    {
        let mut line = joined(b"OK", b"", b"");
        extend_number(&mut line, b" side ", u64::from(info.side));
        extend_number(&mut line, b" capacity ", u64::from(info.capacity));
        extend_number(&mut line, b" version ", u64::from(info.version));
        extend_number(&mut line, b" count ", info.count);
        extend_number(&mut line, b" commits ", info.commits);
        extend_number(&mut line, b" fresh ", info.fresh);
        extend_number(&mut line, b" stale ", info.stale);
        extend(&mut line, b"\n");
        Text::line(line)
    }

    /// The text in two parts: its head with the text of a list, and the bytes of a tile.
    pub fn parts(&self) -> (Rest<'_>, &[u8])
        ensures { result.0 ++ result.1.now ≡ self.now }
    {
        let (left, bytes) = self.body.parts();
        (Rest::new(self.head.as_slice(), left), bytes)
    }

    fn line(head: ArrayVec<u8, LONGEST_LINE>) -> Text
        ensures { result ≡ head.items }
    {
        Text {
            head,
            body: Body::None,
        }
    }
}

impl Body {
    /// The elements of a list, and the bytes of a tile.
    fn parts(&self) -> (Elements<'_>, &[u8])
        ensures { text_left result.0 ++ result.1.now ≡ body_text self.now }
    {
        match self {
            Body::None => (Elements::None, &[]),
            Body::Bytes(bytes) => (Elements::None, bytes.as_slice()),
            Body::Names(corners) => (Elements::Names(corners.as_slice()), &[]),
            Body::Points(points) => (Elements::Points(points.as_slice()), &[]),
            Body::Runs(runs) => (Elements::Runs(runs.as_slice()), &[]),
        }
    }
}

/// `OK`, a count, and the bytes after it.
fn count_line(count: usize, after: &[u8]) -> ArrayVec<u8, LONGEST_LINE>
    requires { length after.now ≤ 1 }
    ensures { result.items ≡ codes "OK " ++ decimal count ++ after.now }
{
    let mut buffer = Buffer::new();
    joined(b"OK ", buffer.format(count).as_bytes(), after)
}

/// Three parts, joined to one line.
fn joined(first: &[u8], second: &[u8], third: &[u8]) -> ArrayVec<u8, LONGEST_LINE>
    requires { length first.now + length second.now + length third.now ≤ LONGEST_LINE }
    ensures { result.items ≡ first.now ++ second.now ++ third.now }
{
    let mut line = ArrayVec::new();
    extend(&mut line, first);
    extend(&mut line, second);
    extend(&mut line, third);
    line
}

/// Appends these bytes to the line, which has room for them.
fn extend(line: &mut ArrayVec<u8, LONGEST_LINE>, more: &[u8])
    requires { length line.old.items + length more.now ≤ LONGEST_LINE }
    ensures { line.new.items ≡ line.old.items ++ more.now }
{
    let _ = line.try_extend_from_slice(more);
}

/// Appends a word and its number to the line, which has room for them.
fn extend_number(line: &mut ArrayVec<u8, LONGEST_LINE>, word: &[u8], number: u64)
    requires { length line.old.items + length word.now + LONGEST_NUMBER ≤ LONGEST_LINE }
    ensures told { line.new.items ≡ line.old.items ++ word.now ++ decimal number }
    ensures short { length line.new.items ≤ length line.old.items + length word.now
        + LONGEST_NUMBER }
{
    let mut buffer = Buffer::new();
    extend(line, word);
    extend(line, buffer.format(number).as_bytes());
}
