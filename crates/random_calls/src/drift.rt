//! Drift of blocked figures.

ghost use Rattle.std.specs.Prelude.{◌≤◌};

use std::fmt;

/// By how much a blocked figure is off from its opening figure and the live blocks, and by how much it may be.
#[derive(Clone, Copy, PartialEq, Eq, Debug)]
pub struct Drift {
    pub kopecks: u64,
    pub allowance: u64,
}

/// A figure that is not off.
pub const NO_DRIFT: Drift = Drift {
    kopecks: 0,
    allowance: 0,
};

impl Drift {
    /// The greater of two, the first where they are equal.
    pub(crate) fn greater(self, other: Drift) -> Drift
        ensures first { self.kopecks ≤ result.kopecks }
        ensures second { other.kopecks ≤ result.kopecks }
    {
        if other.kopecks > self.kopecks {
            other
        } else {
            self
        }
    }
}

/// Both numbers.
impl fmt::Display for Drift {
    fn fmt<W: fmt::Write>(&self, f: &mut fmt::Formatter<W>) -> fmt::Result {
        let Drift { kopecks, allowance } = *self;
        write!(f, "{kopecks} where {allowance} are allowed")
    }
}
