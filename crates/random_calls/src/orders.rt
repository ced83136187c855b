//! Draws of calls that deal in orders.

use crate::codes::{account, number_after, security};
use crate::draws::Draws;
use crate::market::Market;
use crate::shape::Shape;
use crate::two::Two;
use full::announcement::Announcement;
use full::call::Call as FullCall;
use full::deal::Deal;
use full::mode::Mode;
use full::order::Order;
use full::side::Side;
use registers::ranges::{MOST_PRICE, MOST_QUANTITY};

/// The number of an order that was found, or 0 where none was; now and then any number below the last.
fn number_of(draws: &mut Draws, order: Option<Order>, last: u32) -> u32 {
    if draws.one_in(24) {
        return draws.below(last);
    }
    order.map_or(0, |order| order.number)
}

fn side(draws: &mut Draws) -> Side {
    if draws.one_in(2) {
        Side::Buy
    } else {
        Side::Sell
    }
}

fn mode(draws: &mut Draws, shape: &Shape) -> u8 {
    match draws.below(64) {
        0 => 0,
        1 => 3,
        _ if draws.below(10) < shape.partial => Mode::Partial as u8,
        _ => Mode::Full as u8,
    }
}

/// A number up to `most`; now and then 0, or one more than the range of such numbers has.
fn within(draws: &mut Draws, most: u32, range: u32) -> u32 {
    match draws.below(64) {
        0 => 0,
        1 => range.saturating_add(1),
        _ => draws.up_to(most),
    }
}

/// An announcement.
pub(crate) fn announcement(draws: &mut Draws, shape: &Shape, market: Market<'_>) -> FullCall {
    FullCall::Announce(Announcement {
        side: side(draws),
        mode: mode(draws, shape),
        number: number_after(draws, market.book.last_order),
        account: account(draws, shape),
        security: security(draws, shape),
        quantity: within(draws, shape.quantity, MOST_QUANTITY),
        price: within(draws, shape.price, MOST_PRICE),
    })
}

/// A withdrawal, mostly of a live order.
pub(crate) fn withdrawal(draws: &mut Draws, market: Market<'_>) -> FullCall {
    let order = market.any(draws, None);
    let number = number_of(draws, order, market.book.last_order);
    FullCall::Withdraw { number }
}

/// A quantity within both rests; now and then more.
fn traded(draws: &mut Draws, buy: Order, sell: Order) -> u32 {
    let rest = buy.rest.value.min(sell.rest.value);
    if draws.one_in(24) {
        return rest.saturating_add(1);
    }
    within(draws, rest, MOST_QUANTITY)
}

/// A price from the sell's to the buy's; now and then one that lies outside.
fn agreed(draws: &mut Draws, buy: Order, sell: Order) -> u32 {
    let low = sell.price.value;
    let high = buy.price.value;
    match draws.below(48) {
        0 => high.saturating_add(1),
        1 => low.saturating_sub(1),
        _ => {
            let between = high.saturating_sub(low).saturating_add(1);
            low.saturating_add(draws.below(between))
        }
    }
}

/// A trade, mostly of two orders that match.
pub(crate) fn trade(draws: &mut Draws, market: Market<'_>) -> FullCall {
    let number = number_after(draws, market.last_trade);
    let Two { buy, sell } = market.two(draws);
    let last = market.book.last_order;
    let (quantity, price) = match (buy, sell) {
        (Some(buy), Some(sell)) => (traded(draws, buy, sell), agreed(draws, buy, sell)),
        _ => (1, 1),
    };
    FullCall::Trade(Deal {
        number,
        buy: number_of(draws, buy, last),
        sell: number_of(draws, sell, last),
        quantity,
        price,
    })
}
