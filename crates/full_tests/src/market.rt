//! A market to trade in: a buyer, a seller, five orders and one trade.

use crate::support::{
    Expected, SECURITY, Stored, admit, buy, cash, figures, holding, order, sell, withdraw,
};
use full::announcement::Announcement;
use full::call::Call;
use full::deal::Deal;
use full::side::Side;

/// The buyer's account.
pub const BUYER: u32 = 701;

/// The seller's account.
pub const SELLER: u32 = 802;

/// A second security, of which the seller offers one.
pub const OTHER: u16 = 6;

/// A deal that the market takes: all that is left of the buyer's order.
pub const GOOD: Deal = Deal {
    number: 8,
    buy: 1,
    sell: 2,
    quantity: 99,
    price: 9_900,
};

/// Five registers, five orders, and a trade of 1 of the buyer's 100 under number 7.
pub(crate) fn prepared() -> [Expected; 13] {
    let other = Announcement {
        security: OTHER,
        ..order(Side::Sell, 3, SELLER, 1, 9_800)
    };
    let first = Deal {
        number: 7,
        quantity: 1,
        ..GOOD
    };
    [
        (admit(SECURITY, 1_000), Ok(1)),
        (admit(OTHER, 1_000), Ok(2)),
        (cash(BUYER, 10_200), Ok(1)),
        (cash(SELLER, 0), Ok(2)),
        (holding(BUYER, SECURITY, 10), Ok(3)),
        (holding(SELLER, SECURITY, 300), Ok(4)),
        (holding(SELLER, OTHER, 1), Ok(5)),
        (buy(1, BUYER, 100, 10_000), Ok(10_000)),
        (sell(2, SELLER, 150, 9_800), Ok(150)),
        (Call::Announce(other), Ok(1)),
        (sell(4, BUYER, 10, 9_800), Ok(10)),
        (sell(5, SELLER, 60, 9_800), Ok(60)),
        (Call::Trade(first), Ok(99)),
    ]
}

/// The good deal, which ends the buyer's order and leaves 50 of the seller's 150 to withdraw.
pub(crate) fn finishing() -> [Expected; 3] {
    [
        (Call::Trade(GOOD), Ok(9_801)),
        (withdraw(1), Err(11)),
        (withdraw(2), Ok(50)),
    ]
}

/// Every row as the market leaves it once it is finished.
pub(crate) fn finished() -> [Stored; 5] {
    [
        (0, figures(300, 0, 0)),
        (1, figures(9_900, 0, 0)),
        (2, figures(110, 10, 0)),
        (3, figures(200, 60, 0)),
        (4, figures(1, 1, 0)),
    ]
}
