//! The functions that C calls. Each but `mosaic_close` answers 0 or the number of a refusal. `include/mosaic.h` has
//! units, shapes and refusals, and everything that callers have to ensure.
ghost use Rattle.std.specs.Prelude.{◌≡◌, ◌≢◌, ◌↔◌, ◌⊎◌, ℕ, nat_le, if◌then◌else◌, IsTrue, None, is_some, length};
ghost use Rattle.lattice.specs.Corners.{Corner};
ghost use Rattle.lattice.specs.declared.point.Point.{Point};
ghost use Rattle.water.specs.TileLevels.{IsLevelOrVoid};
ghost use Rattle.engine.specs.State.{Contents};
ghost use Rattle.image_disk.specs.Images.{sectors_in, image_in};
ghost use Rattle.lattice.specs.Ground.{metres, terrain};
ghost use Rattle.lattice.specs.Height.{height_of};
ghost use Rattle.lattice.specs.Refusals.{number_of};
ghost use Rattle.lattice.specs.declared.refusal.Refusal.TheVariants.{Failed, NoMemory};
ghost use Rattle.lattice.specs.Terrain.{IsFilledLevel};
ghost use Rattle.stored_mosaic.specs.Standing.{StandsFor};
ghost use Rattle.water.specs.TileLevels.{AreTileLevels};
ghost use Rattle.water.specs.Questions.{AreTileCounts, AreTileDirections, IsAnswered, IsCodeOrNone, DrainsBy};
ghost use Rattle.windows.specs.Results.{OfAny, OfCopy, OfPoint, refused_corner};
ghost use Rattle.windows.specs.Windows.{AreOfAll, IsCountAt, IsShed, refused_at_once};
ghost use Rattle.mosaic_c.specs.Sessions.{HasIn, IsRefusedBy, Tells, Told, ToldLine};

use crate::handle::Handle;
use crate::session::Session;
use image_disk::ImageDisk;
use lattice::{Point, Refusal};
use std::alloc::Global;
use std::mem::ManuallyDrop;
use store::Store;
use windows::{
    Counts, Course, Direction, Each, Elevation, Fill, Level, Question, Tile, Upstream, Watershed,
    Window,
};

/// Closes the handle's store, if any, and opens the store whose image these bytes are. The bytes have to stay unchanged
/// and readable until it is closed. After a refusal (NotAStore, Version, Damaged, TooSmall, NoMemory) the handle is
/// empty.
#[unsafe(no_mangle)]
pub extern "C" fn mosaic_open(alloc: Global, held: &mut Handle, image: &'static [u8]) -> u8
    ensures opened { result ≡ 0 → (side capacity : ℕ) (contents : Contents)
        → StandsFor (sectors_in image.now) side capacity (image_in image.now) contents
        → HasIn held.new capacity contents }
    ensures held { IsTrue (is_some held.new.kept.session) ↔ (result ≡ 0) }

    // An image's reads never fail: an image of a store is refused only with NoMemory, any other with NoMemory or for
    // what it is.
    ensures sure { (side capacity : ℕ) (contents : Contents)
        → StandsFor (sectors_in image.now) side capacity (image_in image.now) contents
        → (result ≡ 0) ⊎ (result ≡ number_of NoMemory) }
    ensures refused { result ≢ 0 → (result ≡ number_of NoMemory) ⊎ IsRefusedBy image.now result }
{
    close(alloc, held);
    let store = match Store::open(alloc, ImageDisk::new(image)) {
        Ok(store) => store,
        Err(refused) => return refused.refusal.number(),
    };
    let Ok(session) = Box::new(alloc, ManuallyDrop::new(Session { store })) else {
        return Refusal::NoMemory.number();
    };
    held.put(session);
    0
}

/// Closes the store, if one is open.
#[unsafe(no_mangle)]
pub extern "C" fn mosaic_close(alloc: Global, held: &mut Handle)
    ensures { held.new.kept.session ≡ None }
{
    close(alloc, held);
}

/// The number of samples along an edge of a tile.
#[unsafe(no_mangle)]
pub extern "C" fn mosaic_side(alloc: Global, held: &mut Handle, into: &mut u32) -> u8
    ensures tells { Tells held.old held.new result (λ contents. into.new ≡ contents.mosaic.side) }
    ensures answers { result ≡ (if is_some held.old.kept.session then 0 else number_of Failed) }
{
    let Some(session) = held.take(alloc) else {
        return Refusal::Failed.number();
    };
    *into = session.store.side();
    held.put(session);
    0
}

/// The number of commands accepted since the store was formatted.
#[unsafe(no_mangle)]
pub extern "C" fn mosaic_count(alloc: Global, held: &mut Handle, into: &mut u64) -> u8
    ensures tells { Tells held.old held.new result (λ contents. into.new ≡ contents.count) }
    ensures answers { result ≡ (if is_some held.old.kept.session then 0 else number_of Failed) }
{
    let Some(session) = held.take(alloc) else {
        return Refusal::Failed.number();
    };
    *into = session.store.count();
    held.put(session);
    0
}

/// The filled level of a point, in metres. Refused with Failed, Outside or Void, or as any question is.
#[unsafe(no_mangle)]
pub extern "C" fn mosaic_fill(
    alloc: Global,
    held: &mut Handle,
    y: i32,
    x: i32,
    into: &mut i16,
) -> u8
    ensures { let p : Point = record { y = y; x = x } in Told held.old held.new result into.new None
        (λ m answer. OfPoint m p (IsFilledLevel (terrain m) p) answer) }
{
    tell(alloc, held, &Fill(Point { y, x }), &mut [], into)
}

/// The code of the direction of a point: 1 for east, each next one clockwise twice as much, 0 if water leaves the
/// mosaic there. Refused as `mosaic_fill` is.
#[unsafe(no_mangle)]
pub extern "C" fn mosaic_direction(
    alloc: Global,
    held: &mut Handle,
    y: i32,
    x: i32,
    into: &mut u8,
) -> u8
    ensures { let p : Point = record { y = y; x = x } in
        Told held.old held.new result into.new None (λ m answer. OfPoint m p (λ code. IsAnswered m p (λ level. DrainsBy (terrain m) level p code)) answer) }
{
    tell(alloc, held, &Direction(Point { y, x }), &mut [], into)
}

/// 1 for each of the window's points that drains through the point, else 0; and in `count` the number of all points
/// that do, in the window or not. Refused with BadLength unless there are rows * columns bytes, then BadBox, then as
/// `mosaic_fill` is.
#[unsafe(no_mangle)]
pub extern "C" fn mosaic_watershed(
    alloc: Global,
    held: &mut Handle,
    y: i32,
    x: i32,
    window: &Window,
    count: &mut u64,
    into: &mut [u8],
) -> u8
    ensures { let p : Point = record { y = y; x = x } in
        Told held.old held.new result count.new (refused_at_once window.now (length into.old)) (λ m answer. OfPoint m p (IsShed m p window.now into.new) answer) }
{
    tell(
        alloc,
        held,
        &Watershed(Point { y, x }, *window),
        into,
        count,
    )
}

/// The heights of a window's points, in metres, row by row from the north-west; -32768 for a point without one. Refused
/// with BadLength or BadBox, or as any question is.
#[unsafe(no_mangle)]
pub extern "C" fn mosaic_heights(
    alloc: Global,
    held: &mut Handle,
    window: &Window,
    into: &mut [i16],
) -> u8
    ensures { Told held.old held.new result (tt {0}) (refused_at_once window.now (length into.old)) (λ m answer. OfAny (λ _. AreOfAll window.now (λ p h. h ≡ metres (height_of m p)) into.new) answer) }
{
    tell(alloc, held, &Each(Elevation, *window), into, &mut ())
}

/// The filled levels of a window's points, in metres, row by row from the north-west; -32768 for a point without one.
/// Refused with BadLength or BadBox, or as any question is.
#[unsafe(no_mangle)]
pub extern "C" fn mosaic_levels(
    alloc: Global,
    held: &mut Handle,
    window: &Window,
    into: &mut [i16],
) -> u8
    ensures { Told held.old held.new result (tt {0}) (refused_at_once window.now (length into.old))
        (λ m answer. OfAny (λ _. AreOfAll window.now (IsLevelOrVoid m) into.new) answer) }
{
    tell(alloc, held, &Each(Level, *window), into, &mut ())
}

/// The codes of the directions of a window's points, row by row from the north-west; 255 for a point that isn't ground.
/// Refused with BadLength or BadBox, or as any question is.
#[unsafe(no_mangle)]
pub extern "C" fn mosaic_directions(
    alloc: Global,
    held: &mut Handle,
    window: &Window,
    into: &mut [u8],
) -> u8
    ensures { Told held.old held.new result (tt {0}) (refused_at_once window.now (length into.old))
        (λ m answer. OfAny (λ _. AreOfAll window.now (IsCodeOrNone m) into.new) answer) }
{
    tell(alloc, held, &Each(Course, *window), into, &mut ())
}

/// The filled levels of all samples of a tile, row by row from the north, west first. Refused with BadName, NoTile, or
/// BadLength unless there are side * side elements, or as any question is.
#[unsafe(no_mangle)]
pub extern "C" fn mosaic_tile_levels(
    alloc: Global,
    held: &mut Handle,
    lat: i16,
    lon: i16,
    into: &mut [i16],
) -> u8
    ensures { let c : Corner = record { lat = lat; lon = lon } in
        Told held.old held.new result (tt {0}) (refused_corner c) (λ m answer. OfCopy m c (AreTileLevels m c) into.new answer) }
{
    tell(alloc, held, &Tile(Level, lat, lon), into, &mut ())
}

/// The codes of the directions of all samples of a tile, in the order of `mosaic_tile_levels`, and refused as that is.
#[unsafe(no_mangle)]
pub extern "C" fn mosaic_tile_directions(
    alloc: Global,
    held: &mut Handle,
    lat: i16,
    lon: i16,
    into: &mut [u8],
) -> u8
    ensures { let c : Corner = record { lat = lat; lon = lon } in
        Told held.old held.new result (tt {0}) (refused_corner c) (λ m answer. OfCopy m c (AreTileDirections m c) into.new answer) }
{
    tell(alloc, held, &Tile(Course, lat, lon), into, &mut ())
}

/// The number of points that drain through each sample of a tile, in the order of `mosaic_tile_levels`, and refused as
/// that is.
#[unsafe(no_mangle)]
pub extern "C" fn mosaic_upstream(
    alloc: Global,
    held: &mut Handle,
    lat: i16,
    lon: i16,
    into: &mut [u32],
) -> u8
    ensures { let c : Corner = record { lat = lat; lon = lon } in
        Told held.old held.new result (tt {0}) (refused_corner c) (λ m answer. OfCopy m c (AreTileCounts m c) into.new answer) }
{
    tell(alloc, held, &Tile(Upstream, lat, lon), into, &mut ())
}

/// The number of points that drain through each of a window's points, itself included, row by row from the north-west;
/// 0 if it isn't ground. Refused with BadLength or BadBox, or as any question is.
#[unsafe(no_mangle)]
pub extern "C" fn mosaic_upstream_window(
    alloc: Global,
    held: &mut Handle,
    window: &Window,
    into: &mut [u32],
) -> u8
    ensures { Told held.old held.new result (tt {0}) (refused_at_once window.now (length into.old))
        (λ m answer. OfAny (λ _. AreOfAll window.now (IsCountAt m) into.new) answer) }
{
    tell(alloc, held, &Counts(*window), into, &mut ())
}

/// The bytes of the reply to a question's line, without its LF; and in `count` their number, also if there is no room
/// (BadLength). A command or `step` is BadLine.
#[unsafe(no_mangle)]
pub extern "C" fn mosaic_ask(
    alloc: Global,
    held: &mut Handle,
    line: &[u8],
    count: &mut usize,
    into: &mut [u8],
) -> u8
    ensures { ToldLine held.old held.new line.now result count.new into.new }
{
    let Some(mut session) = held.take(alloc) else {
        return Refusal::Failed.number();
    };
    let answer = windows::ask(alloc, &mut session.store, line, into);
    held.put(session);
    match answer {
        Ok(needed) => {
            *count = needed;
            number_fitting(needed, into.len())
        }
        Err(refusal) => refusal.number(),
    }
}

// Closes the store, if one is open.
fn close(alloc: Global, held: &mut Handle)
    ensures { held.new.kept.session ≡ None }
{
    if let Some(session) = held.take(alloc) {
        drop(ManuallyDrop::into_inner(Box::into_inner(session)));
    }
}

// Asks the handle's store the question; the store stays open on any answer.
fn tell<Q: Question>(
    alloc: Global,
    held: &mut Handle,
    question: &Q,
    into: &mut [Q::Element],
    answer: &mut Q::Answer,
) -> u8
    ensures { Told held.old held.new result answer.new (Q.refused_first question.now (length into.old)) (λ m told. Q.says question.now m into.new told) }
{
    let Some(mut session) = held.take(alloc) else {
        return Refusal::Failed.number();
    };
    let told = question.ask(&mut session.store, into);
    held.put(session);
    match told {
        Ok(value) => {
            *answer = value;
            0
        }
        Err(why) => why.number(),
    }
}

// BadLength's number if there isn't enough room, else 0.
fn number_fitting(needed: usize, room: usize) -> u8
    ensures { result ≡ (if nat_le needed room then 0 else 3) }
{
    if needed <= room {
        0
    } else {
        Refusal::BadLength.number()
    }
}
