//! Orders.

ghost use Rattle.std.specs.Prelude.{◌≡◌, ◌*◌, ◌/◌, ◌≤◌};
ghost use Rattle.registers.specs.declared.amounts.TheConstants.{MONEY_DIVISOR};
ghost use Rattle.registers.specs.declared.ranges.TheConstants.{MOST_PRICE, MOST_QUANTITY};
ghost use Rattle.full.specs.Orders.{live_of};
ghost use Rattle.full.specs.Blocks.{key_of, block_units};

use crate::keys::{cash_key, holding_key, participant_key};
use crate::mode::Mode;
use crate::side::Side;
use registers::amounts::{Amount, money, risk};
use registers::key::Key;
use registers::ranges::{Price, Quantity, Ratio};

/// A live order: its price in ten-thousandths of a ruble, its rest in pieces, and the ratio, in
/// ten-thousandths, of its security when it was announced.
#[derive(Clone, Copy, PartialEq, Eq, Debug)]
pub struct Order {
    pub number: u32,
    pub side: Side,
    pub mode: Mode,
    pub account: u32,
    pub security: u16,
    pub price: Price,
    pub ratio: Ratio,
    pub rest: Quantity,
}

impl Order {
    /// The key of the register that the order's block lies on.
    pub fn block_key(self) -> Key
        ensures { result ≡ key_of (live_of self) }
    {
        match (self.mode, self.side) {
            (Mode::Full, Side::Buy) => cash_key(self.account),
            (Mode::Full, Side::Sell) => holding_key(self.account, self.security),
            (Mode::Partial, _) => participant_key(self.account),
        }
    }

    /// The block of a quantity of the order, at its price and under its ratio: in pieces of a sale with full
    /// collateral, otherwise in kopecks.
    pub fn block(self, quantity: Quantity) -> Amount
        ensures value { result.units
            ≡ block_units self.mode self.side quantity.value self.price.value self.ratio.value }
        ensures bound { result.units ≤ MOST_QUANTITY * MOST_PRICE / MONEY_DIVISOR }
    {
        match (self.mode, self.side) {
            (Mode::Full, Side::Buy) => money(quantity, self.price),
            (Mode::Full, Side::Sell) => Amount::from(quantity),
            (Mode::Partial, _) => risk(quantity, self.price, self.ratio),
        }
    }
}
