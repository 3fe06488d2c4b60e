//! Sessions of lines, each served in a function without promises, as in `stores`.
use disk::Disk;
use lattice::Side;
use serving::{CheckedWriter, serve};
use std::alloc::Global;
use std::io::{self, Read};
use std::test::Fail;
use store::Store;
use table_engine::TableEngine;

/// Gives the bytes in reads of at most this length.
#[derive(Drop)]
struct Pieces<'a> {
    bytes: &'a [u8],
    size: usize,
}

impl Read for Pieces<'_> {
    fn read(&mut self, buf: &mut [u8]) -> io::Result<usize> {
        let count = self.size.min(self.bytes.len()).min(buf.len());
        buf[..count].copy_from_slice(&self.bytes[..count]);
        self.bytes = &self.bytes[count..];
        Ok(count)
    }
}

/// The replies of a mosaic in memory with four tiles of side 3.
pub(crate) fn served_by_table(alloc: Global, bytes: &[u8], size: usize) -> Result<Vec<u8>, Fail> {
    let side = Side::new(3).ok_or("no side")?;
    let mut table = TableEngine::new(alloc, side, 4);
    let mut reader = Pieces { bytes, size };
    let mut output = CheckedWriter::new(Vec::new(alloc));
    serve(alloc, &mut reader, &mut output, &mut table)?;
    Ok(output.into_inner())
}

/// The replies of the store.
pub(crate) fn served_by_store<D: Disk>(
    alloc: Global,
    store: &mut Store<D>,
    bytes: &[u8],
    size: usize,
) -> Result<Vec<u8>, Fail> {
    let mut reader = Pieces { bytes, size };
    let mut output = CheckedWriter::new(Vec::new(alloc));
    serve(alloc, &mut reader, &mut output, store)?;
    Ok(output.into_inner())
}
