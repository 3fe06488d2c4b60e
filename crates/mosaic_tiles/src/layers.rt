//! Which files are written, for which tiles.
ghost use Rattle.std.specs.Prelude.{◌≡◌, ◌≢◌, [], ◌∷◌, IfErr, IfOk, MatchOption, map, string_bytes};
ghost use Rattle.engine.specs.Engines.{answered, items_in};
ghost use Rattle.engine.specs.declared.event.Event.TheVariants as ask;
ghost use Rattle.engine.specs.declared.event.Reply.TheVariants as reply;
ghost use Rattle.mosaic_tiles.specs.Layers.{AreNames, AskedBy, Gives, RefusesNames, each_tile, spelling};

use engine::Engine;
use hgt::{bytes_of, name_of};
use lattice::{Corner, Refusal};
use lines::count_bytes;
use server::has_option;
use std::alloc::Global;

/// The values that are written for each sample of a tile, in the order of an HGT file.
#[derive(Clone, Copy, PartialEq, Eq)]
pub enum Layer {
    /// Filled levels, as an HGT file.
    Levels,
    /// Codes of directions, one byte each.
    Directions,
    /// The number of points that drain through each sample, four bytes each, big-endian.
    Upstream,
}

/// The layer that a word names.
pub fn layer_of(word: &str) -> Option<Layer>
    ensures { MatchOption result ((layer : Layer) → spelling layer ≢ word.now)
        (λ layer. spelling layer ≡ word.now) }
{
    match word {
        "levels" => Some(Layer::Levels),
        "directions" => Some(Layer::Directions),
        "upstream" => Some(Layer::Upstream),
        _ => None,
    }
}

/// The bytes of a layer of a tile, from one call of the engine.
pub fn layer_bytes<E: Engine>(
    alloc: Global,
    engine: &mut E,
    layer: Layer,
    corner: Corner,
) -> Result<Vec<u8>, Refusal>
    ensures { Gives E.called engine.old corner layer (items_in result) engine.new }
{
    match layer {
        Layer::Levels => level_bytes(alloc, engine, corner),
        Layer::Directions => engine.directions(corner),
        Layer::Upstream => upstream_bytes(alloc, engine, corner),
    }
}

/// The filled levels of a tile, in the format of an HGT file.
fn level_bytes<E: Engine>(alloc: Global, engine: &mut E, corner: Corner) -> Result<Vec<u8>, Refusal>
    ensures { Gives E.called engine.old corner Layer.Levels (items_in result) engine.new }
{
    let levels = engine.levels(corner)?;
    Ok(bytes_of(alloc, &levels)?)
}

/// The upstream counts of a tile, four bytes each.
fn upstream_bytes<E: Engine>(
    alloc: Global,
    engine: &mut E,
    corner: Corner,
) -> Result<Vec<u8>, Refusal>
    ensures { Gives E.called engine.old corner Layer.Upstream (items_in result) engine.new }
{
    let counts = engine.upstream(corner)?;
    Ok(count_bytes(alloc, &counts)?)
}

/// The corners of the named tiles; the name `all` alone means all present tiles.
pub fn corners_of<E: Engine>(
    alloc: Global,
    engine: &E,
    names: &[String],
) -> Result<Vec<Corner>, Refusal>
    ensures all { map string_bytes names.now ≡ each_tile ∷ []
        → E.called engine.now ask.Tiles (answered reply.Tiles result) engine.now }
    ensures named { map string_bytes names.now ≢ each_tile ∷ []
        → IfOk result (λ corners. AreNames (map string_bytes names.now) corners.items) }
    ensures refused { map string_bytes names.now ≢ each_tile ∷ []
        → IfErr result (RefusesNames names.now) }
{
    if names.len() == 1 && names[0].as_str() == "all" {
        return engine.tiles();
    }
    named(alloc, names)
}

/// The corners of the tiles with these names.
fn named(alloc: Global, names: &[String]) -> Result<Vec<Corner>, Refusal>
    ensures ok { IfOk result (λ corners. AreNames (map string_bytes names.now) corners.items) }
    ensures err { IfErr result (RefusesNames names.now) }
{
    let mut corners = Vec::new(alloc);
    for name in names {
        let corner = name_of(name.as_bytes())?;
        if corners.push(corner).is_err() {
            return Err(Refusal::NoMemory);
        }
    }
    Ok(corners)
}

/// A request to write files of a layer of some tiles.
#[derive(Clone, Copy)]
pub struct Writing<'a> {
    /// The path of the store's file.
    pub path: &'a str,
    pub layer: Layer,
    /// The names of the tiles, or `all`.
    pub names: &'a [String],
    pub folder: &'a str,
}

/// The writing that the words after the program's name ask for, if they ask for one.
pub fn writing_in<'a>(words: &'a [String]) -> Option<Writing<'a>>
    ensures { let asked_by = AskedBy (map string_bytes words.now) in
        MatchOption result ((w : Writing) → asked_by w → ⊥) asked_by }
{
    if has_option(words) {
        return None;
    }
    match words {
        [write, path, what, names @ .., folder] if write.as_str() == "write" && !names.is_empty() =>
            Some(Writing {
                path: path.as_str(),
                layer: layer_of(what.as_str())?,
                names,
                folder: folder.as_str(),
            }),
        _ => None,
    }
}
