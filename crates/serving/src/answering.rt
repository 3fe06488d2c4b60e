//! Answers items, over an engine as over whatever else answers them.
ghost use Rattle.std.specs.Prelude.{◌≡◌, ◌<◌, ◌⊎◌, ℕ, List, length};
ghost use Rattle.lines.specs.declared.language.Language.{Language};
ghost use Rattle.serving.specs.Answers.{ImportComesTo, Replied, Turn, Turns};
ghost use Rattle.serving.specs.Items.{Item};
ghost use Rattle.serving.specs.Promises.{Answers};
ghost use Rattle.serving.specs.Session.{Holds, Stored};

use crate::reading::KeptItem;
use edits::{Bytes, Command};
use engine::{Engine, Event};
use hgt::name_of;
use lattice::Refusal;
use lines::{Extent, Request, Text, format_reply};
use std::alloc::Global;

/// What answers items.
pub trait Responder {
    /// It answered an item by this text, and then was that one.
    ghost responded: { Self → Item → List ℕ → Self → Type 0 };

    /// How long a payload is that is kept; one of another length is read, and nothing else.
    fn payload_len(&self) -> u32;

    /// Answers an item.
    fn respond(&mut self, alloc: Global, item: KeptItem<'_>) -> Text
        requires { (language : Language) × (i : Item) × Holds language item i }
        ensures { (language : Language) (i : Item) → Holds language item.entry i
            → responded self.old i result self.new };
}

impl<E: Engine> Responder for E {
    ghost responded = { Answers E.Engine };

    fn payload_len(&self) -> u32 {
        self.side().file_bytes()
    }

    fn respond(&mut self, alloc: Global, item: KeptItem<'_>) -> Text {
        answer(alloc, self, item)
    }
}

/// Answers an import of this length. Its payload is there where it came whole and there was room for it.
fn answer_import<E: Engine>(
    alloc: Global,
    engine: &mut E,
    name: &[u8],
    len: u32,
    payload: Option<Vec<u8>>,
    extent: Extent,
) -> Text
    ensures { (bytes : List ℕ) → Stored payload bytes → (extent ≡ Extent.Whole → length bytes ≡ len)
        → (extent ≡ Extent.Cut → (length bytes < len) ⊎ (length bytes ≡ 0))
        → (turn : Turn) × ImportComesTo (E.side_of engine.old) name.now len bytes turn
        × Turns E.called turn engine.old result engine.new }
{
    let Ok(corner) = name_of(name) else {
        return Text::refused(Refusal::BadName);
    };
    if len != engine.side().file_bytes() || extent == Extent::Cut {
        return Text::refused(Refusal::BadLength);
    }
    let Some(payload) = payload else {
        return Text::refused(Refusal::NoMemory);
    };
    let bytes = Bytes::new(payload);
    let import = Event::Do(Command::Import { corner, bytes });
    format_reply(alloc, engine.answer(&import))
}

/// Answers an item by an engine.
fn answer<E: Engine>(alloc: Global, engine: &mut E, item: KeptItem<'_>) -> Text
    requires { (language : Language) × (i : Item) × Holds language item i }
    ensures { (language : Language) (i : Item) → Holds language item.entry i
        → Replied E.called E.side_of engine.old i result engine.new }
{
    let KeptItem {
        request,
        payload,
        extent,
    } = item;
    match request {
        Some(Request::Import { name, len }) => {
            answer_import(alloc, engine, name, len, payload, extent)
        }
        Some(Request::Ask(event)) => format_reply(alloc, engine.answer(&event)),
        Some(Request::BadName) => Text::refused(Refusal::BadName),
        Some(Request::Quit) => Text::done(),
        None => Text::refused(Refusal::BadLine),
    }
}
