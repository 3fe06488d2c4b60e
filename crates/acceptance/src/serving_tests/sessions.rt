//! Tests of sessions with readers and writers of many kinds.
use super::script::{check_replies, table};
use crate::counting::Counting;
use serving::{CheckedWriter, ServeFault, serve};
use std::alloc::Global;
use std::io::{self, Read};
use std::test::Fail;
use test_tiles::{Said, check_found, check_row, input_of, output_of};

/// Gives the bytes in two reads, the first of `cut` bytes.
#[derive(Drop)]
struct Halves<'a> {
    bytes: &'a [u8],
    cut: usize,
}

impl Read for Halves<'_> {
    fn read(&mut self, buf: &mut [u8]) -> io::Result<usize> {
        let first = if self.cut > 0 {
            self.cut
        } else {
            self.bytes.len()
        };
        let count = first.min(self.bytes.len()).min(buf.len());
        buf[..count].copy_from_slice(&self.bytes[..count]);
        self.bytes = &self.bytes[count..];
        self.cut = 0;
        Ok(count)
    }
}

/// Gives the bytes, and then fails.
#[derive(Drop)]
struct Broken<'a> {
    bytes: &'a [u8],
}

impl Read for Broken<'_> {
    fn read(&mut self, buf: &mut [u8]) -> io::Result<usize> {
        if self.bytes.is_empty() {
            return Err(io::Error::from(io::ErrorKind::Other));
        }
        let count = self.bytes.len().min(buf.len());
        buf[..count].copy_from_slice(&self.bytes[..count]);
        self.bytes = &self.bytes[count..];
        Ok(count)
    }
}

/// The result of a session of a mosaic in memory with this reader, and the replies.
fn served<R: Read>(
    alloc: Global,
    reader: &mut R,
) -> Result<(Result<(), ServeFault>, Vec<u8>), Fail> {
    let mut output = CheckedWriter::new(Vec::new(alloc));
    let served = serve(alloc, reader, &mut output, &mut table(alloc, 3, 4)?);
    Ok((served, output.into_inner()))
}

// A `$` at the end of a text: no LF ends it.
const SESSION: [Said; 6] = [
    ("import N00E000 $A", "OK 1"),
    ("elev 0 2", "OK 5"),
    ("elev 5 5", "ERR 7 Outside"),
    ("hello", "ERR 1 BadLine"),
    ("import N00E000 $A", "ERR 4 TileThere"),
    ("count$", "OK 1"),
];

#[test]
fn a_session_cut_anywhere(rt: HostRuntime) -> Result<(), Fail> {
    let input = input_of(rt.alloc(), &SESSION)?;
    for cut in 0..input.len() {
        let mut reader = Halves { bytes: &input, cut };
        let (served, output) = served(rt.alloc(), &mut reader)?;
        served?;
        check_replies(&rt, rt.alloc(), &("cut at", cut), &output, &SESSION)?;
    }
    Ok(())
}

#[test]
fn a_reader_that_fails(rt: HostRuntime) -> Result<(), Fail> {
    let mut input = input_of(rt.alloc(), &SESSION)?;
    input.truncate(50);
    let mut reader = Broken { bytes: &input };
    let (served, output) = served(rt.alloc(), &mut reader)?;
    check_found(&"what was served", &served, &Err(ServeFault::Input))?;
    let said = [SESSION[0], SESSION[1]];
    check_replies(&rt, rt.alloc(), &"what was read", &output, &said)
}

/// Whether a writer with this much room takes as many bytes of the replies, and then fails.
fn fails_after(alloc: Global, input: &[u8], replies: &[u8], room: usize) -> Result<bool, Fail> {
    let mut reader = input;
    let mut bytes = vec![in alloc; 0; room]?;
    let mut writer = CheckedWriter::new(bytes.as_mut_slice());
    let served = serve(alloc, &mut reader, &mut writer, &mut table(alloc, 3, 4)?);
    Ok(served == Err(ServeFault::Output) && replies.starts_with(&bytes))
}

#[test]
fn a_writer_that_fails_at_each_byte(rt: HostRuntime) -> Result<(), Fail> {
    let input = input_of(rt.alloc(), &SESSION)?;
    let replies = output_of(rt.alloc(), &SESSION)?;
    for room in 0..replies.len() {
        let fails = fails_after(rt.alloc(), &input, &replies, room)?;
        check_row(&("room for", room), fails)?;
    }
    Ok(())
}

const LONG_REPLIES: [Said; 6] = [
    ("import N00E000 $A", "OK 1"),
    ("export N00E000", "OK $A"),
    ("tiles", "OK 1 N00E000"),
    ("trace 0 0", "OK 3\n0 0\n1 1\n0 2"),
    ("watershed 0 2", "OK 9 3\n2 0 2\n1 0 2\n0 0 2"),
    ("elev 9 9", "ERR 7 Outside"),
];

#[test]
fn a_write_for_each_reply(rt: HostRuntime) -> Result<(), Fail> {
    let alloc = rt.alloc();
    let input = input_of(alloc, &LONG_REPLIES)?;
    let mut reader = input.as_slice();
    let mut writer = CheckedWriter::new(Counting::new());
    serve(alloc, &mut reader, &mut writer, &mut table(alloc, 3, 4)?)?;
    // A separate write has the bytes of the tile.
    check_found(&"writes", &writer.into_inner().writes, &7)
}
