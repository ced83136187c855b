//! What is asked of a live order.

use full::order::Order;
use full::side::Side;

/// What is asked of a live order: a side, if one is, and that it matches a buy, if there is one.
#[derive(Clone, Copy)]
pub struct Asked {
    pub side: Option<Side>,
    pub buy: Option<Order>,
}

/// Whether a buy and a sell could be traded.
fn matches(buy: Order, sell: Order) -> bool {
    sell.security == buy.security
        && sell.mode == buy.mode
        && sell.account != buy.account
        && sell.price.value <= buy.price.value
}

impl Asked {
    /// Whether an order is what is asked for.
    pub(crate) fn is_met_by(self, order: Order) -> bool {
        self.side.is_none_or(|side| side == order.side)
            && self.buy.is_none_or(|buy| matches(buy, order))
    }
}
