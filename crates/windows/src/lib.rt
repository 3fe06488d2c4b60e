//! Questions to an engine (a store or a table) about all points of a window or a tile, whose answers fill the caller's
//! slice; and questions about one point, or by a line.
//!
//! Each element is the value that the definitions give its point on the whole mosaic. A window is its north-west point,
//! its rows and its columns. For a point that isn't ground levels are -32768 and directions 255; heights are -32768 for
//! a point without one. Each question's type says what it answers and its refusals; `specs/Telling.antt` says what all
//! of them have in common.
//!
//! ```
//! let window = Window { north: 2, west: 0, rows: 3, columns: 3 };
//! Each(Level, window).ask(&mut engine, &mut values)?;    // nine levels in metres, the north-west first
//! ```
#![tactic(auto)]

mod counts;
mod line;
mod points;
mod question;
mod shed;
#[cfg(test)]
mod tests;
mod tiles;
mod values;
mod window;

pub use counts::Counts;
pub use line::ask;
pub use points::{Direction, Fill};
pub use question::Question;
pub use shed::Watershed;
pub use tiles::{Tile, TileValues, Upstream};
pub use values::{Course, Each, Elevation, Level, PointValue};
pub use window::Window;
