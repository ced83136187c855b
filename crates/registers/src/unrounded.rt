//! What a quantity costs at a price, before it is rounded.

ghost use Rattle.std.specs.Prelude.{◌≡◌, ◌*◌, ◌≤◌};
ghost use Rattle.registers.specs.declared.ranges.TheConstants.{MOST_PRICE, MOST_QUANTITY};
ghost use Rattle.registers.specs.Amounts.{rounded};

use crate::amounts::{MONEY_DIVISOR, MOST_VALUE, RISK_DIVISOR};
use crate::ranges::{Price, Quantity, Ratio};

/// A quantity times a price, not rounded yet.
#[derive(Clone, Copy)]
pub(crate) struct Unrounded {
    pub(crate) value: u64,
    ghost most: { value ≤ MOST_QUANTITY * MOST_PRICE },
}

impl Unrounded {
    pub(crate) fn product(quantity: Quantity, price: Price) -> Unrounded
        ensures { result.value ≡ quantity.value * price.value }
    {
        let value = u64::from(quantity.value) * u64::from(price.value);
        Unrounded { value }
    }

    // apart from `millionths`: by quotient and remainder, where that takes one sum, so that the one definition of
    // rounding is proved of two ways of working
    #[tactic(auto, unfolding(crate::specs::Amounts::rounded))]
    pub(crate) fn hundredths(self) -> u64
        ensures value { result ≡ rounded MONEY_DIVISOR self.value }
        ensures bound { result ≤ MOST_VALUE }
    {
        let quotient = self.value / MONEY_DIVISOR;
        if self.value % MONEY_DIVISOR >= MONEY_DIVISOR / 2 {
            quotient + 1
        } else {
            quotient
        }
    }

    pub(crate) fn millionths(self, ratio: Ratio) -> u64
        ensures value { result ≡ rounded RISK_DIVISOR (self.value * ratio.value) }
        ensures bound { result ≤ MOST_VALUE }
    {
        (self.value * u64::from(ratio.value) + RISK_DIVISOR / 2) / RISK_DIVISOR
    }
}
