//! What calls are drawn against.

use crate::asked::Asked;
use crate::draws::Draws;
use crate::two::Two;
use full::book::{Book, MOST_ORDERS};
use full::order::Order;
use full::side::Side;
use partial::obligation::Obligation;
use partial::obligations::{MOST_OBLIGATIONS, Obligations};
use pool::leg::Leg;
use pool::settle::Settle;

/// What a call is drawn against: the order book, the obligations, and the number of the last trade.
#[derive(Clone, Copy)]
pub struct Market<'a> {
    pub book: &'a Book,
    pub obligations: &'a Obligations,
    pub last_trade: u32,
}

/// How many buys are tried to find a sell for.
const TRIES: u32 = 4;

impl Market<'_> {
    /// The first order that meets what is asked, from a place that is drawn on and once around.
    fn find(self, draws: &mut Draws, asked: Asked) -> Option<Order> {
        let start = draws.below(MOST_ORDERS as u32) as usize;
        for step in 0..MOST_ORDERS {
            let place = (start + step) % MOST_ORDERS;
            if let Some(Some(order)) = self.book.orders.get(place) {
                if asked.is_met_by(*order) {
                    return Some(*order);
                }
            }
        }
        None
    }

    /// The first order of a side, or of any, from a place that is drawn on and once around.
    pub(crate) fn any(self, draws: &mut Draws, side: Option<Side>) -> Option<Order> {
        self.find(draws, Asked { side, buy: None })
    }

    /// A buy; now and then any order.
    fn buy(self, draws: &mut Draws) -> Option<Order> {
        let side = if draws.one_in(24) {
            None
        } else {
            Some(Side::Buy)
        };
        self.any(draws, side)
    }

    /// A sell that matches the buy; now and then any sell, or any order.
    fn sell(self, draws: &mut Draws, buy: Option<Order>) -> Option<Order> {
        if draws.one_in(24) {
            return self.any(draws, None);
        }
        let side = Some(Side::Sell);
        if draws.one_in(6) {
            return self.any(draws, side);
        }
        self.find(draws, Asked { side, buy })
    }

    /// Two orders to trade: the first of a few buys that a sell is found for, or else any buy and any sell.
    pub(crate) fn two(self, draws: &mut Draws) -> Two {
        for _ in 0..TRIES {
            let buy = self.buy(draws);
            let sell = self.sell(draws, buy);
            if sell.is_some() {
                return Two { buy, sell };
            }
        }
        let buy = self.any(draws, Some(Side::Buy));
        let sell = self.any(draws, Some(Side::Sell));
        Two { buy, sell }
    }

    /// The first obligation that owes a leg, or any leg where none is asked for, from a place that is drawn on and
    /// once around.
    pub(crate) fn owing(self, draws: &mut Draws, leg: Option<Leg>) -> Option<Obligation> {
        let start = draws.below(MOST_OBLIGATIONS as u32) as usize;
        for step in 0..MOST_OBLIGATIONS {
            let place = (start + step) % MOST_OBLIGATIONS;
            if let Some(Some(obligation)) = self.obligations.table.get(place) {
                if leg.is_none_or(|leg| obligation.is_owed(leg)) {
                    return Some(*obligation);
                }
            }
        }
        None
    }
}
