//! Figures that are known to be in range.

ghost use Rattle.std.specs.Prelude.{◌≡◌, true};
ghost use Rattle.registers.specs.Registers.{in_range, Bounded};

use crate::figures::Figures;

/// Figures in range: a few of them and amounts add up within 64 bits.
#[derive(Clone, Copy, PartialEq, Eq, Debug)]
pub struct InRange {
    pub figures: Figures,
    ghost in_range: { in_range figures ≡ true },
    ghost bounded: { Bounded figures },
}
