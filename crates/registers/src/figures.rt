//! The figures of registers.

ghost use Rattle.std.specs.Prelude.{◌≡◌, true, if◌then◌else◌, Ok, Err, Some};
ghost use Rattle.std.specs.Result.{result_map_both};
ghost use Rattle.registers.specs.declared.fault.StoreFault.TheVariants.{OutOfRange};
ghost use Rattle.registers.specs.Registers.{bounded, in_range, Bounded, Within};
ghost use Rattle.registers.specs.Texts.{figures_text};

use crate::fault::StoreFault;
use crate::in_range::InRange;
use std::fmt;

/// The greatest value of a figure in range: 10^15 kopecks, or pieces of a security.
pub const MOST_FIGURE: i64 = 1_000_000_000_000_000;

/// The least value of a figure in range.
pub const LEAST_FIGURE: i64 = -MOST_FIGURE;

/// A register's figures, in kopecks or in pieces of its security. The third is the delivery figure in
/// registers of cash and of holdings, the collateral in a participant's.
#[derive(Clone, Copy, PartialEq, Eq, Debug)]
pub struct Figures {
    pub limit: i64,
    pub blocked: i64,
    pub third: i64,
}

// `bounds`, here and below, is what whoever makes an `InRange` learns from the answer
#[tactic(auto, unfolding(crate::specs::Registers::bounded))]
fn is_bounded(figure: i64) -> bool
    ensures answer { result ≡ bounded figure }
    ensures bounds { result ≡ true → Within figure }
{
    LEAST_FIGURE <= figure && figure <= MOST_FIGURE
}

impl Figures {
    /// Whether each figure, and the limit plus the third, is from −10^15 to 10^15, and the third is
    /// not negative.
    pub fn in_range(self) -> bool
        ensures answer { result ≡ in_range self }
        ensures bounds { result ≡ true → Bounded self }
    {
        is_bounded(self.limit)
            && is_bounded(self.blocked)
            && is_bounded(self.third)
            && is_bounded(self.limit + self.third)
            && 0 <= self.third
    }

    /// The figures, known to be in range. Refuses (25) figures that are not.
    pub fn checked(self) -> Result<InRange, StoreFault>
        ensures { result_map_both (λ r. r.figures) (λ e. e) result
            ≡ (if in_range self then Ok self else Err OutOfRange) }
    {
        if !self.in_range() {
            return Err(StoreFault::OutOfRange);
        }
        Ok(InRange { figures: self })
    }
}

/// Limit, blocked figure and third figure.
impl fmt::Display for Figures {
    ghost output = { λ f. Some (figures_text f) };

    fn fmt<W: fmt::Write>(&self, f: &mut fmt::Formatter<W>) -> fmt::Result {
        let Figures {
            limit,
            blocked,
            third,
        } = *self;
        write!(f, "{limit} {blocked} {third}")
    }
}
