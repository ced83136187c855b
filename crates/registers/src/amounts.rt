//! Amounts: what a quantity costs at a price, and the collateral that its risk asks for.

ghost use Rattle.std.specs.Prelude.{◌≡◌, ◌≤◌, pos};
ghost use Rattle.registers.specs.declared.amounts.TheConstants.{MOST_AMOUNT};
ghost use Rattle.registers.specs.Amounts.{money_of, risk_of, RoundedNear, RoundedMonotone, RoundedNone};

use crate::ranges::{Price, Quantity, Ratio};
use crate::unrounded::Unrounded;

/// What a quantity times a price is divided by: the ten-thousandths of a ruble in a kopeck.
pub const MONEY_DIVISOR: u64 = 100;

/// What a quantity times a price times a ratio is divided by: the ten-thousandths of a ruble in a kopeck, times
/// the ten-thousandths in the ratio of the whole value.
pub const RISK_DIVISOR: u64 = 1_000_000;

/// The greatest amount, in kopecks or in pieces of a security.
pub const MOST_AMOUNT: u64 = 10_000_000_000_000_000;

/// The kopecks that the greatest quantity costs at the greatest price.
pub const MOST_VALUE: u64 = 1_000_000_000_000;

/// Kopecks, or pieces of a security, that a call moves: 0 to 10^16, so that a figure in range and
/// any few amounts add up within 64 bits.
#[derive(Clone, Copy, PartialEq, Eq, Debug)]
pub struct Amount {
    pub units: u64,
    ghost most: { units ≤ MOST_AMOUNT },
}

/// As many pieces as a quantity counts.
impl From<Quantity> for Amount {
    ghost from_gives = { λ quantity r. r.units ≡ quantity.value };

    fn from(quantity: Quantity) -> Amount {
        Amount {
            units: u64::from(quantity.value),
        }
    }
}

/// The units of an amount, as figures count them.
impl From<Amount> for i64 {
    ghost from_gives = { λ amount r. r ≡ pos amount.units };

    fn from(amount: Amount) -> i64 {
        amount.units as i64
    }
}

/// The kopecks that `quantity` costs at `price`: their product by 100, rounded once, a half upwards.
pub fn money(quantity: Quantity, price: Price) -> Amount
    ensures value { result.units ≡ money_of quantity.value price.value }
    ensures bound { result.units ≤ MOST_VALUE }
{
    let units = Unrounded::product(quantity, price).hundredths();
    Amount { units }
}

/// The kopecks of collateral for `quantity` at `price` under `ratio`: their product by 1,000,000,
/// rounded once, a half upwards.
pub fn risk(quantity: Quantity, price: Price, ratio: Ratio) -> Amount
    ensures value { result.units ≡ risk_of quantity.value price.value ratio.value }
    ensures bound { result.units ≤ MOST_VALUE }
{
    let units = Unrounded::product(quantity, price).millionths(ratio);
    Amount { units }
}

/// Over every divisor: two parts round to within one of what their sum rounds to, a greater number
/// rounds to no less, and nothing rounds to 0.
pub fn rounding_laws()
    ensures near { RoundedNear }
    ensures monotone { RoundedMonotone }
    ensures none { RoundedNone }
{}
