//! The line language: lines as they are read, the event of each, and the text of an answer. This crate knows only
//! bytes, texts and lines; the crate `engine` says what an event does.
//!
//! The layer above rests on this: a line is read up to its LF, however the reader cuts the bytes. It asks for an event
//! exactly if the grammar (`specs/Grammar.antt`) says so.
//!
//! ```
//! let request = request_of(Language::Plain, b"fill 1 1"); // Some: the event to fill y = 1, x = 1
//! let text = format_reply(alloc, reply);                 // "OK 5" and an LF
//! let (mut rest, bytes) = text.parts();                  // the bytes of a tile stand apart
//! let part = rest.next_part();                           // of a list's text a part is made at a time
//! ```
#![tactic(auto)]

mod ahead;
mod bytes;
mod counts;
mod grammar;
mod keyword;
mod language;
mod lists;
mod number;
mod replying;
mod request;
mod source;
mod text;
mod words;

pub use ahead::{Ahead, ReadFault};
pub use counts::count_bytes;
pub use grammar::request_of;
pub use language::{Language, plain_lines_ask_for_no_tile_at_once};
pub use lists::{Part, Rest};
pub use number::natural;
pub use replying::format_reply;
pub use request::{MOST_POINTS, Request, only_question};
pub use source::{Extent, Line, read_line, read_payload, skip_payload};
pub use text::Text;
