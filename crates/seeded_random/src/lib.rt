//! Pseudo-random numbers, the same in each run: random tests draw their commands and bytes from them.
//!
//! Tests rest on this: `next_below` answers a number below its bound. No contract says that a seed gives the same
//! numbers in each run.
//!
//! ```
//! let mut random = Random::new(1);
//! let height = random.next_below(100);                   // 0 to 99
//! ```
#![tactic(auto)]

ghost use Rattle.std.specs.Prelude.{◌<◌, Contains, length};

use rand::RngExt;
use rand::rngs::SmallRng;
use rand_core::SeedableRng;

/// The numbers that one seed gives, draw by draw.
#[derive(Drop)]
pub struct Random {
    generator: SmallRng,
}

impl Random {
    /// The same seed gives the same draws.
    pub fn new(seed: u64) -> Random {
        Random {
            generator: SmallRng::seed_from_u64(seed),
        }
    }

    /// A number below the bound.
    pub fn next_below(&mut self, bound: u32) -> u32
        requires { 0 < bound }
        ensures { result < bound }
    {
        self.generator.random_range(0..bound)
    }

    /// One of the items; there has to be one.
    pub fn item_of<'a, T>(&mut self, items: &'a [T]) -> &'a T
        requires { 0 < length items.now }
        ensures { Contains items.now result.now }
    {
        &items[self.generator.random_range(0..items.len())]
    }

    /// One of the items, copied.
    pub fn one_of<T: Copy>(&mut self, items: &[T]) -> T
        requires { 0 < length items.now }
        ensures { Contains items.now result }
    {
        *self.item_of(items)
    }
}
