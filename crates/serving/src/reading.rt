//! Reads items, one after another: a line, or an import line with its payload.
ghost use Rattle.std.specs.Prelude.{◌≡◌, ◌≢◌, ◌≤◌, ◌<◌, ◌⊎◌, ℕ, List, [], length, OnOk, OnErr, IfOk, Option, Some, option_map, IsTrue, ◌↔◌};
ghost use Rattle.std.specs.Io.KnownBytes.{IsAtEnd};
ghost use Rattle.lines.specs.Ahead.{IsRest, Taken, weight};
ghost use Rattle.lines.specs.Grammar.{Asked, AskQuit};
ghost use Rattle.serving.specs.Items.{Item, AsksFor, payload_len};
ghost use Rattle.lines.specs.Lines.{IsLine, kept, Reaches};
ghost use Rattle.lines.specs.Requests.{asked};
ghost use Rattle.serving.specs.Session.{Stored, Holds};

use lines::{
    Ahead, Extent, Language, Line, ReadFault, Request, read_payload, request_of, skip_payload,
};
use std::alloc::Global;
use std::io::Read;

/// A line and the part of its payload that was read. The payload isn't stored if its length isn't a tile's or memory
/// was refused.
#[derive(Drop)]
pub struct KeptItem<'a> {
    pub request: Option<Request<'a>>,
    pub payload: Option<Vec<u8>>,
    pub extent: Extent,
}

/// The request of the line, if the language has it and the line isn't too long.
fn request_in(language: Language, line: &Line) -> Option<Request<'_>>
    ensures { (text : List ℕ) → line.now ≡ kept text
        → AsksFor language text (option_map asked result) }
{
    request_of(language, line.bytes()?)
}

/// The number of payload bytes that follow the line.
fn payload_len(request: &Option<Request<'_>>) -> u32
    ensures { result ≡ payload_len (option_map asked request.now) }
{
    match request {
        Some(Request::Import { len, .. }) => *len,
        _ => 0,
    }
}

/// Reads a payload, and stores it if it has a tile's length and memory suffices.
fn read_or_skip_payload<R: Read>(
    alloc: Global,
    tile_len: u32,
    len: u32,
    ahead: &mut Ahead,
    reader: &mut R,
) -> Result<(Option<Vec<u8>>, Extent), ReadFault>
    ensures ok { IfOk result (λ p. (bytes : List ℕ) × Stored p.0 bytes
        × Reaches p.1 (length bytes) len
        × Taken ahead.old (R.remaining reader.old) ahead.new (R.remaining reader.new) bytes) }
    ensures cut { IfOk result (λ p. p.1 ≡ Extent.Cut
        → (ahead.new.bytes ≡ []) × IsAtEnd (R.remaining reader.new)) }
    ensures rest { IfOk result (λ p. p.1 ≡ Extent.Whole → 0 < len → IsRest ahead.new) }
    ensures spent { OnOk result (weight ahead.new ≤ weight ahead.old) }
    ensures err { OnErr result ((bytes : List ℕ) × (length bytes < len)
        × Taken ahead.old (R.remaining reader.old) ahead.new (R.remaining reader.new) bytes) }
    ensures none_ahead { OnErr result (ahead.new.bytes ≡ []) }

    // Without a payload nothing is read.
    ensures none { len ≡ 0 → (ahead.new ≡ ahead.old) × (reader.new ≡ reader.old) }
{
    if len == 0 {
        return Ok((None, Extent::Whole));
    }
    if len == tile_len {
        if let Ok(mut payload) = Vec::with_capacity(alloc, len as usize) {
            let extent = read_payload(ahead, reader, len as usize, &mut payload)?;
            return Ok((Some(payload), extent));
        }
    }
    let extent = skip_payload(ahead, reader, len as usize)?;
    Ok((None, extent))
}

/// The item that begins with this line. An LF or the end of the input ended the line.
pub(crate) fn read_item<'a, R: Read>(
    alloc: Global,
    language: Language,
    tile_len: u32,
    fed: Extent,
    line: &'a Line,
    ahead: &mut Ahead,
    reader: &mut R,
) -> Result<KeptItem<'a>, ReadFault>
    requires { fed ≡ Extent.Cut → (ahead.old.bytes ≡ []) × IsAtEnd (R.remaining reader.old) }
    ensures ok { IfOk result (λ item. (text : List ℕ) → line.now ≡ kept text → IsLine text
        → (fed ≡ Extent.Cut → text ≢ [])
        → (i : Item) × Holds language item i × (i.line ≡ text) × (i.fed ≡ fed)
        × Taken ahead.old (R.remaining reader.old) ahead.new (R.remaining reader.new) i.payload) }
    ensures cut { IfOk result (λ item. item.extent ≡ Extent.Cut
        → (ahead.new.bytes ≡ []) × IsAtEnd (R.remaining reader.new)) }
    ensures rest { IfOk result (λ item. item.extent ≡ Extent.Whole → IsRest ahead.old
        → IsRest ahead.new) }
    ensures spent { OnOk result (weight ahead.new ≤ weight ahead.old) }
    ensures err { OnErr result ((fed ≡ Extent.Whole)
        × ((text : List ℕ) → line.now ≡ kept text
        → (bytes : List ℕ) × (a : Option Asked) × AsksFor language text a
        × (length bytes < payload_len a)
        × Taken ahead.old (R.remaining reader.old) ahead.new (R.remaining reader.new) bytes)) }
    ensures none_ahead { OnErr result (ahead.new.bytes ≡ []) }
    ensures quit { IfOk result (λ item. fed ≡ Extent.Whole
        → option_map asked item.request ≡ Some AskQuit
        → (ahead.new ≡ ahead.old) × (reader.new ≡ reader.old)) }
{
    let request = request_in(language, line);
    let (payload, extent) = match fed {
        Extent::Whole => read_or_skip_payload(
            alloc,
            tile_len,
            payload_len(&request),
            ahead,
            reader,
        )?,
        Extent::Cut => (None, Extent::Cut),
    };
    Ok(KeptItem {
        request,
        payload,
        extent,
    })
}

/// Whether the input ended before this line began.
pub(crate) fn is_over(fed: Extent, line: &Line) -> bool
    ensures { (text : List ℕ) → line.now ≡ kept text
        → IsTrue result ↔ ((fed ≡ Extent.Cut) × (text ≡ [])) }
{
    fed == Extent::Cut && line.is_empty()
}

/// Whether no further item is read after this one.
pub fn is_last(item: &KeptItem<'_>) -> bool
    ensures { IsTrue result
        ↔ ((item.now.extent ≡ Extent.Cut) ⊎ (option_map asked item.now.request ≡ Some AskQuit)) }
{
    item.extent == Extent::Cut || matches!(item.request, Some(Request::Quit))
}
