//! That filled levels exist, and how much is cached at most. These functions do nothing: their contracts state the laws.
ghost use Rattle.drainage.specs.Between.{HoldsFew};
ghost use Rattle.drainage.specs.Draining.{LevelFunctionsExist};
ghost use Rattle.drainage.specs.declared.drainage_cache.DrainageCache.{DrainageCache};

/// On every mosaic some function gives the filled level of each ground point. So a statement about every such function is
/// about at least one.
pub fn level_functions_exist()
    ensures { LevelFunctionsExist }
{}

/// At any time at most 512 MiB are cached, at any side:
///
/// - four bytes a sample for a tile's labelling, and two more with its block;
/// - a byte a sample for flows;
/// - at most twelve bytes for each rim point and each spill of a tile's graph;
/// - four bytes for the level of a rim point.
///
/// All labellings are of tiles with the mosaic's side. Three things aren't counted. The spills of a cached block, by bands of
/// rows, take some 180 KB at 1201 samples. The level ranges of a tile with cached directions take some 30 KB. Marks for
/// resolving flats take two bits a sample of these tiles, from the first flat on.
pub fn what_is_held_is_bounded()
    ensures { (held : DrainageCache) → HoldsFew held }
{}
