//! Orders with their places in the book.

use crate::order::Order;

/// An order and its place in the book: the one that it has, or the one that it takes when it is announced.
#[derive(Clone, Copy, PartialEq, Eq, Debug)]
pub struct PlacedOrder {
    pub place: usize,
    pub order: Order,
}
