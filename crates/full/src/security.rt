//! Admitted securities.

ghost use Rattle.std.specs.Prelude.{◌≡◌};

use registers::ranges::Ratio;

/// An admitted security and its market risk ratio.
#[derive(Clone, Copy, PartialEq, Eq, Debug)]
pub struct Security {
    pub number: u16,
    pub ratio: Ratio,
}

/// The security of number 0, which none bears, under the least ratio.
// it fills the places that hold nothing yet
impl Default for Security {
    ghost is_default = { λ s. (s.number ≡ 0) × (s.ratio.value ≡ 1) };

    fn default() -> Security {
        Security {
            number: 0,
            ratio: Ratio { value: 1 },
        }
    }
}
