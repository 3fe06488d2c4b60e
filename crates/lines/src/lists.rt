//! Lists as text, made in parts after their first line: names of tiles, points, and runs of points.
ghost use Rattle.std.specs.Prelude.{◌≡◌, ◌≢◌, ◌+◌, ◌≤◌, ◌<◌, ◌++◌, ◌∷◌, ◌↔◌, ℕ, List, [], IsTrue, flat_map, length};
ghost use Rattle.std.specs.Fmt.{signed_decimal};
ghost use Rattle.std.specs.List.{sum_by};
ghost use Rattle.lines.specs.Held.{text_left};
ghost use Rattle.lines.specs.Replies.{line_of, name_after_space, point_line, run_line, spaced_names};
ghost use Rattle.water.specs.Runs.{run_count};

use arrayvec::ArrayVec;
use hgt::name_text;
use itoa::Buffer;
use lattice::{Corner, Point};
use std::marker::Model;
use water::Run;

/// The capacity of one part of a text, in bytes.
const PART_BYTES: usize = 3072;

/// Enough bytes for `OK`, a store's numbers and an LF, and for `ERR`, a refusal and an LF.
pub(crate) const LONGEST_LINE: usize = 384;

/// Enough bytes for one element's text: three numbers, each with a byte after it.
const LONGEST_ELEMENT: usize = 128;

/// Enough bytes for a number and the byte after it.
const LONGEST_NUMBER: usize = 41;

/// A part of a text.
pub type Part = ArrayVec<u8, PART_BYTES>;

/// An element of a list that a reply writes.
trait Element: Copy {
    ghost text: { Self → List ℕ };

    /// Adds the element's text to the part.
    fn tell(self, part: &mut Part)
        requires { length part.old.items + LONGEST_ELEMENT ≤ PART_BYTES }
        ensures told { part.new.items ≡ part.old.items ++ text self }
        ensures short { length part.new.items ≤ length part.old.items + LONGEST_ELEMENT }
        ensures some { 0 < length (text self) };
}

/// A tile's name after a space.
impl Element for Corner {
    ghost text = { name_after_space };

    fn tell(self, part: &mut Part) {
        add(part, b" ");
        add(part, name_text(self).as_bytes());
    }
}

/// A point's line `y x`.
impl Element for Point {
    ghost text = { point_line };

    fn tell(self, part: &mut Part) {
        add_number(part, self.y, b' ');
        add_number(part, self.x, b'\n');
    }
}

/// A run's line `y first last`.
impl Element for Run {
    ghost text = { run_line };

    fn tell(self, part: &mut Part) {
        add_number(part, self.y, b' ');
        add_number(part, self.first, b' ');
        add_number(part, self.last, b'\n');
    }
}

/// Adds the text of as many elements as fit. Answers the other elements.
fn tell_some<'a, T: Element>(part: &mut Part, elements: &'a [T]) -> &'a [T]
    requires { length part.old.items ≤ LONGEST_LINE }
    ensures told { part.new.items ++ flat_map T.text result.now
        ≡ part.old.items ++ flat_map T.text elements.now }
    ensures room { length part.new.items < PART_BYTES }
    ensures some { 0 < length part.old.items + length elements.now → 0 < length part.new.items }
    ensures left { length result.now ≤ length elements.now }
{
    let mut count = 0;
    while count < elements.len() && part.len() + LONGEST_ELEMENT < PART_BYTES {
        elements[count].tell(part);
        count += 1;
    }
    &elements[count..]
}

/// The part of a text that isn't made yet: its head, and the text of a list.
#[derive(Drop)]
pub struct Rest<'a> {
    head: &'a [u8],
    left: Elements<'a>,
}

/// The elements whose text isn't made yet. After the last name comes an LF.
#[derive(Clone, Copy)]
pub(crate) enum Elements<'a> {
    None,
    Names(&'a [Corner]),
    Points(&'a [Point]),
    Runs(&'a [Run]),
}

impl<'a> Model for Rest<'a> {
    ghost use Rattle.std.specs.Prelude.{◌≤◌, ◌++◌, ℕ, List, length};
    ghost use Rattle.lines.specs.Held.{text_left};

    ghost Value = { List ℕ };

    ghost view = { λ r. r.head.now ++ text_left r.left };

    // The head fits into a line, and so into one part.
    ghost invariant = { λ r. length r.head.now ≤ 384 };
}

impl<'a> Rest<'a> {
    /// The head, and the text of these elements.
    pub(crate) fn new(head: &'a [u8], left: Elements<'a>) -> Rest<'a>
        requires { length head.now ≤ LONGEST_LINE }
        ensures { result ≡ head.now ++ text_left left.entry }
    {
        Rest { head, left }
    }

    /// Whether the whole text is made.
    pub fn is_made(&self) -> bool
        ensures { IsTrue result ↔ (self.now ≡ []) }
    {
        self.head.is_empty() && self.left.is_made()
    }

    /// Makes the next part: at least one byte, if any is left.
    pub fn next_part(&mut self) -> Part
        ensures next { result.items ++ self.new ≡ self.old }
        ensures some { self.old ≢ [] → 0 < length result.items }
    {
        let mut part = Part::new();
        add(&mut part, self.head);
        self.head = &[];
        self.left = self.left.tell(&mut part);
        part
    }
}

impl<'a> Elements<'a> {
    /// Whether no element is left.
    fn is_made(self) -> bool
        ensures { IsTrue result ↔ (text_left self.entry ≡ []) }
    {
        match self {
            Elements::None => true,
            Elements::Names(_) => false,
            Elements::Points(points) => points.is_empty(),
            Elements::Runs(runs) => runs.is_empty(),
        }
    }

    /// Adds the text of as many elements as fit. Answers the other elements.
    fn tell(self, part: &mut Part) -> Elements<'a>
        requires { length part.old.items ≤ LONGEST_LINE }
        ensures told { part.new.items ++ text_left result ≡ part.old.items ++ text_left self.entry }
        ensures some { part.old.items ++ text_left self.entry ≢ [] → 0 < length part.new.items }
    {
        match self {
            Elements::None => Elements::None,
            Elements::Names(corners) => tell_names(part, corners),
            Elements::Points(points) => Elements::Points(tell_some(part, points)),
            Elements::Runs(runs) => Elements::Runs(tell_some(part, runs)),
        }
    }
}

/// Adds names to the part, with an LF after the last.
fn tell_names<'a>(part: &mut Part, corners: &'a [Corner]) -> Elements<'a>
    requires { length part.old.items ≤ LONGEST_LINE }
    ensures told { part.new.items ++ text_left result
        ≡ part.old.items ++ line_of (spaced_names corners.now) }
    ensures some { 0 < length part.new.items }
{
    let left = tell_some(part, corners);
    if !left.is_empty() {
        return Elements::Names(left);
    }
    add(part, b"\n");
    Elements::None
}

/// The number of points in these runs.
pub(crate) fn point_count(runs: &[Run]) -> u128
    ensures { result ≡ sum_by run_count runs.now }
{
    let mut count = 0;
    for run in runs {
        count += u128::from(run.last.abs_diff(run.first)) + 1;
    }
    count
}

/// Adds a number and the byte after it to the part.
fn add_number(part: &mut Part, number: i32, after: u8)
    requires { length part.old.items + LONGEST_NUMBER ≤ PART_BYTES }
    ensures told { part.new.items ≡ part.old.items ++ signed_decimal number ++ after ∷ [] }
    ensures short { length part.new.items ≤ length part.old.items + LONGEST_NUMBER }
{
    let mut buffer = Buffer::new();
    add(part, buffer.format(number).as_bytes());
    add(part, &[after]);
}

/// Adds these bytes to the part, which has enough room.
fn add(part: &mut Part, bytes: &[u8])
    requires { length part.old.items + length bytes.now ≤ PART_BYTES }
    ensures { part.new.items ≡ part.old.items ++ bytes.now }
{
    let _ = part.try_extend_from_slice(bytes);
}
