//! What a quantity costs, and its collateral.

use registers::amounts::{money, risk};
use registers::ranges::{Price, Quantity, Ratio};

/// What a quantity costs at a price, or `None` where one lies outside its range, as a rest of 0 does.
pub(crate) fn cost(quantity: u32, price: u32) -> Option<u64> {
    Some(money(Quantity::new(quantity)?, Price::new(price)?).units)
}

/// The collateral for a quantity at a price under a ratio, or `None` where one lies outside its range.
pub(crate) fn collateral(quantity: u32, price: u32, ratio: u16) -> Option<u64> {
    let ratio = Ratio::new(u32::from(ratio))?;
    Some(risk(Quantity::new(quantity)?, Price::new(price)?, ratio).units)
}
