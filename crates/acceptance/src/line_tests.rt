//! Tests of reading lines and payloads, and of the text of an answer.
use crate::counting::Counting;
use lattice::{Corner, Point, Refusal};
use lines::{Ahead, Extent, Line, Text, read_line, read_payload, skip_payload};
use serving::{CheckedWriter, Output};
use std::alloc::{AllocError, Global};
use std::io::{self, Read};
use std::str::from_utf8;
use std::test::Fail;
use test_tiles::{check_found, check_row};
use water::Run;

/// Gives one byte for each read, and fails after `good` bytes.
#[derive(Drop)]
struct Trickle<'a> {
    bytes: &'a [u8],
    good: usize,
}

impl Read for Trickle<'_> {
    fn read(&mut self, buf: &mut [u8]) -> io::Result<usize> {
        if self.good == 0 {
            return Err(io::Error::from(io::ErrorKind::Other));
        }
        self.good -= 1;
        let count = self.bytes.len().min(buf.len()).min(1);
        buf[..count].copy_from_slice(&self.bytes[..count]);
        self.bytes = &self.bytes[count..];
        Ok(count)
    }
}

/// The bytes as text, for messages.
fn text_of(bytes: &[u8]) -> &str {
    from_utf8(bytes).unwrap_or("bytes that are no text")
}

/// Reads lines one after another and compares them with these; none means a line that is too long.
fn check_lines<R: Read>(
    ahead: &mut Ahead,
    reader: &mut R,
    lines: &[(Extent, Option<&[u8]>)],
) -> Result<(), Fail> {
    for (extent, bytes) in lines {
        let mut line = Line::new();
        let is_right = read_line(ahead, reader, &mut line) == Ok(*extent) && line.bytes() == *bytes;
        let text = match bytes {
            Some(bytes) => text_of(bytes),
            None => "a line that is too long",
        };
        check_row(&text, is_right)?;
    }
    Ok(())
}

#[test]
fn lines_and_payloads(rt: HostRuntime) -> Result<(), Fail> {
    let mut reader = Trickle {
        bytes: b"count\r\nimport N00E000 3\n\n5\nskipped\nend",
        good: 100,
    };
    let mut ahead = Ahead::new(rt.alloc());
    let lines: [(Extent, Option<&[u8]>); 2] = [
        (Extent::Whole, Some(b"count\r")),
        (Extent::Whole, Some(b"import N00E000 3")),
    ];
    check_lines(&mut ahead, &mut reader, &lines)?;
    let skipped = skip_payload(&mut ahead, &mut reader, 3);
    assert!(rt; skipped == Ok(Extent::Whole));
    let lines: [(Extent, Option<&[u8]>); 3] = [
        (Extent::Whole, Some(b"skipped")),
        (Extent::Cut, Some(b"end")),
        (Extent::Cut, Some(b"")),
    ];
    check_lines(&mut ahead, &mut reader, &lines)
}

/// Whether reading a payload of three bytes ends with this extent and gives these bytes.
fn reads_payload<R: Read>(
    alloc: Global,
    ahead: &mut Ahead,
    reader: &mut R,
    extent: Extent,
    bytes: &[u8],
) -> Result<bool, AllocError> {
    let mut payload = Vec::with_capacity(alloc, 3)?;
    let read = read_payload(ahead, reader, 3, &mut payload);
    Ok(read == Ok(extent) && payload.as_slice() == bytes)
}

#[test]
fn payloads(rt: HostRuntime) -> Result<(), Fail> {
    let alloc = rt.alloc();
    let mut reader = b"\n\x00123".as_slice();
    let mut ahead = Ahead::new(alloc);
    let first = reads_payload(alloc, &mut ahead, &mut reader, Extent::Whole, b"\n\x001")?;
    let second = reads_payload(alloc, &mut ahead, &mut reader, Extent::Cut, b"23")?;
    assert!(rt; first && second);
    Ok(())
}

/// A line of the greatest length, one that is a byte longer, and one that is cut.
fn long_input(alloc: Global) -> Result<Vec<u8>, AllocError> {
    let mut input = Vec::new(alloc);
    input.resize(2048, b'a')?;
    input.push(b'\n')?;
    input.resize(4098, b'b')?;
    input.extend_from_slice(b"\ncount")?;
    Ok(input)
}

#[test]
fn long_lines(rt: HostRuntime) -> Result<(), Fail> {
    let input = long_input(rt.alloc())?;
    let mut reader = input.as_slice();
    let mut ahead = Ahead::new(rt.alloc());
    let lines: [(Extent, Option<&[u8]>); 3] = [
        (Extent::Whole, Some(&[b'a'; 2048])),
        (Extent::Whole, None),
        (Extent::Cut, Some(b"count")),
    ];
    check_lines(&mut ahead, &mut reader, &lines)
}

#[test]
fn a_read_that_fails(rt: HostRuntime) -> Result<(), Fail> {
    let mut reader = Trickle {
        bytes: b"count\ncount\n",
        good: 8,
    };
    let mut ahead = Ahead::new(rt.alloc());
    check_lines(&mut ahead, &mut reader, &[(Extent::Whole, Some(b"count"))])?;
    for call in 0..2 {
        let is_refused = read_line(&mut ahead, &mut reader, &mut Line::new()).is_err();
        check_row(&("a read that fails", call), is_refused)?;
    }
    let skipped = skip_payload(&mut ahead, &mut reader, 1);
    assert!(rt; skipped.is_err());
    Ok(())
}

/// Whether the texts are written as these bytes, one after another.
fn are_written(output: &mut Vec<u8>, texts: &[Text], wanted: &[u8]) -> bool {
    let mut writer = CheckedWriter::new(output);
    for text in texts {
        writer.put_reply(text);
    }
    !writer.has_failed() && writer.into_inner().as_slice() == wanted
}

#[test]
fn texts_of_replies(rt: HostRuntime) -> Result<(), Fail> {
    let texts = [
        Text::done(),
        Text::void(),
        Text::number(-32767i16),
        Text::number(u64::MAX),
        Text::refused(Refusal::Outside),
        Text::refused(Refusal::BadCapacity),
        Text::bytes(Vec::from_slice(rt.alloc(), b"\x00\x0a\xff")?),
    ];
    let wanted =
        b"OK\nOK void\nOK -32767\nOK 18446744073709551615\nERR 7 Outside\nERR 33 BadCapacity\nOK 3\n\x00\n\xff";
    assert!(rt; are_written(&mut Vec::new(rt.alloc()), &texts, wanted));
    Ok(())
}

fn run(y: i32, first: i32, last: i32) -> Run {
    Run { y, first, last }
}

#[test]
fn texts_of_lists(rt: HostRuntime) -> Result<(), Fail> {
    let alloc = rt.alloc();
    let points = [Point { y: 0, x: -3 }, Point { y: i32::MIN, x: 12 }];
    let tiles = [Corner { lat: -1, lon: 0 }, Corner { lat: 37, lon: -105 }];
    let runs = [run(2, 0, 2), run(-1, -4, -4)];
    let texts = [
        Text::path(Vec::from_slice(alloc, &points)?),
        Text::path(Vec::new(alloc)),
        Text::runs(Vec::from_slice(alloc, &runs)?),
        Text::names(Vec::from_slice(alloc, &tiles)?),
        Text::names(Vec::new(alloc)),
    ];
    let wanted =
        b"OK 2\n0 -3\n-2147483648 12\nOK 0\nOK 4 2\n2 0 2\n-1 -4 -4\nOK 2 S01E000 N37W105\nOK 0\n";
    assert!(rt; are_written(&mut Vec::new(alloc), &texts, wanted));
    Ok(())
}

/// The shortest part of a long reply, in bytes, except the first part and the last.
const SHORTEST_PART: usize = 2900;

#[test]
fn long_replies_leave_in_large_parts(rt: HostRuntime) -> Result<(), Fail> {
    let alloc = rt.alloc();
    let mut points = Vec::new(alloc);
    points.resize(
        100_000,
        Point {
            y: -100_000,
            x: 1_000_000,
        },
    )?;
    let mut runs = Vec::new(alloc);
    runs.resize(100_000, run(-100_000, 1_000_000, 1_000_000))?;
    let replies = [
        (Text::path(points), 10 + 100_000 * 16),
        (Text::runs(runs), 17 + 100_000 * 24),
    ];
    for (text, bytes) in &replies {
        let mut output = CheckedWriter::new(Counting::new());
        output.put_reply(text);
        let has_failed = output.has_failed();
        let writer = output.into_inner();
        assert!(rt;
            !has_failed
                && writer.bytes == *bytes
                && writer.writes as usize <= 2 + *bytes / SHORTEST_PART
        );
    }
    Ok(())
}

#[test]
fn a_writer_without_room(rt: HostRuntime) {
    let mut room = [0; 4];
    let mut output = CheckedWriter::new(room.as_mut_slice());
    output.put_reply(&Text::number(123u64));
    assert!(rt; output.has_failed());
    assert!(rt; room == *b"OK 1");
}
