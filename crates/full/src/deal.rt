//! The arguments of trades.

/// The arguments of a trade: its number, the numbers of the two orders, the quantity in pieces, and the
/// price in ten-thousandths of a ruble.
#[derive(Clone, Copy, PartialEq, Eq, Debug)]
pub struct Deal {
    pub number: u32,
    pub buy: u32,
    pub sell: u32,
    pub quantity: u32,
    pub price: u32,
}
