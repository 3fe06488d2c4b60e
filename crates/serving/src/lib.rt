//! Serves lines from any reader to any writer, for any engine.
//!
//! The layer above rests on this: the bytes that `serve` writes are the replies to the items that it reads, however the reader
//! cuts the bytes. An item is a line, or an import line with its payload. They go to an `Output`, which flushes each of them and
//! counts failed calls: its fault is answered exactly where one has failed. Each command or question is one call of the engine,
//! and its reply is that call's answer. A power cut at any moment since a reply leaves the contents of the state after it, of a
//! later one, or of its commit in doubt, whole. `specs/Promises.antt` has all promises of a session, `specs/Answers.antt` what an
//! item is answered. What else answers items is a [`Responder`], as a store is that another program may be writing.
//!
//! ```
//! let mut output = CheckedWriter::new(writer);
//! serve(alloc, &mut reader, &mut output, &mut engine)?;  // Ok: end of input or `quit`, and all replies written
//! ```
#![tactic(auto)]

mod answering;
mod checked_writer;
mod output;
mod reading;
mod session;

pub use answering::Responder;
pub use checked_writer::CheckedWriter;
pub use output::{Output, OutputFault};
pub use reading::KeptItem;
pub use session::{ServeFault, serve, serve_items, serve_lines};
