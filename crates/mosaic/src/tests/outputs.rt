//! Tests of what the program answers and writes if one call of its output fails.
use super::{lossy, owned};
use disk::Files;
use server::{CheckedWriter, FilePlaces, program};
use std::io::{self, ErrorKind, Write};
use std::marker::Brand;
use std::test::Fail;
use test_tiles::check_found;

/// A writer one of whose calls fails, by its number from 0.
#[derive(Drop)]
struct FaultOnceWriter {
    taken: Vec<u8>,
    calls: u32,
    fault: u32,
}

impl FaultOnceWriter {
    /// Counts one call, and fails it if it is the one to fail.
    fn call(&mut self) -> io::Result<()> {
        let call = self.calls;
        self.calls = call.saturating_add(1);
        if call == self.fault {
            return Err(io::Error::from(ErrorKind::Other));
        }
        Ok(())
    }
}

impl Write for FaultOnceWriter {
    fn write(&mut self, buf: &[u8]) -> io::Result<usize> {
        self.call()?;
        self.taken.write(buf)
    }

    fn flush(&mut self) -> io::Result<()> {
        self.call()
    }
}

/// A run of the program with an output one of whose calls fails.
struct Row {
    words: &'static [&'static str],
    input: &'static [u8],
    fault: u32,
    status: u8,
    written: &'static [u8],
}

/// A table without input, whose second call fails.
const TABLE: Row = Row {
    words: &["table", "3", "1"],
    input: b"",
    fault: 1,
    status: 1,
    written: b"mosaic: output fault\n",
};

const ROWS: [Row; 9] = [
    Row {
        fault: 9,
        status: 0,
        written: b"",
        ..TABLE
    },
    Row { fault: 0, ..TABLE },
    Row {
        input: b"count\n",
        fault: 0,
        ..TABLE
    },
    Row {
        input: b"count\n",
        written: b"OK 0\nmosaic: output fault\n",
        ..TABLE
    },
    Row {
        words: &["table", "2", "1"],
        fault: 0,
        written: b"",
        ..TABLE
    },
    Row {
        words: &["table", "2", "1"],
        written: b"ERR 32 BadSide\n",
        ..TABLE
    },
    Row {
        words: &["check", "server_test_no_output"],
        written: b"mosaic: cannot open server_test_no_output\n",
        ..TABLE
    },
    Row {
        words: &["help"],
        fault: 0,
        status: 2,
        written: b"",
        ..TABLE
    },
    Row {
        words: &["help"],
        status: 2,
        written: b"mosaic: bad arguments\n",
        ..TABLE
    },
];

#[test]
fn outputs_that_fail(rt: HostRuntime) -> Result<(), Fail> {
    let alloc = rt.alloc();
    for row in &ROWS {
        let words = owned(alloc, row.words)?;
        let mut reader = row.input;
        let mut writer = CheckedWriter::new(FaultOnceWriter {
            taken: Vec::new(alloc),
            calls: 0,
            fault: row.fault,
        });
        let mut places = FilePlaces::<Brand>::new(Files::new(&rt));
        let status = program(rt.alloc(), &mut places, &words, &mut reader, &mut writer);
        let found = (status, lossy(alloc, &writer.into_inner().taken));
        let wanted = (row.status, lossy(alloc, row.written));
        check_found(&(row.words, row.fault), &found, &wanted)?;
    }
    Ok(())
}
