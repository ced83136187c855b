//! Two orders to trade.

use full::order::Order;

/// Two orders to trade, as far as they were found.
#[derive(Clone, Copy)]
pub struct Two {
    pub buy: Option<Order>,
    pub sell: Option<Order>,
}
