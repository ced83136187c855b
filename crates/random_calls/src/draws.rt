//! Random draws from a seed.

ghost use Rattle.std.specs.Prelude.{◌<◌, ◌≤◌};

use rand_core::Rng;
use rand_pcg::Pcg32;

/// The stream of the generator: with another one the same seed would give other numbers.
const STREAM: u64 = 54;

/// Random numbers. The same seed gives the same numbers.
#[derive(Drop)]
pub struct Draws {
    words: Pcg32,
}

impl Draws {
    /// The numbers of a seed.
    pub(crate) fn new(seed: u64) -> Draws {
        Draws {
            words: Pcg32::new(seed, STREAM),
        }
    }

    /// A number below a bound, or 0 where the bound is 0.
    pub(crate) fn below(&mut self, bound: u32) -> u32
        ensures { 0 < bound → result < bound }
    {
        let word = self.words.next_u32();
        if bound == 0 { 0 } else { word % bound }
    }

    /// A number from 1 to a bound.
    pub(crate) fn up_to(&mut self, most: u32) -> u32
        ensures least { 1 ≤ result }
        ensures most { 1 ≤ most → result ≤ most }
    {
        self.below(most).saturating_add(1)
    }

    /// A number below a bound of 64 bits, or 0 where the bound is 0.
    pub(crate) fn wide_below(&mut self, bound: u64) -> u64
        ensures { 0 < bound → result < bound }
    {
        let word = self.words.next_u64();
        if bound == 0 { 0 } else { word % bound }
    }

    /// Whether a chance of one in so many came up.
    pub(crate) fn one_in(&mut self, many: u32) -> bool {
        self.below(many) == 0
    }
}
