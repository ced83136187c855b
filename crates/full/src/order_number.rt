//! Orders' numbers, by which the book is searched.

ghost use Rattle.full.specs.Orders.{slot_of, has_number};

use crate::order::Order;
use seek::Keyed;

/// An order's number, as a key of the book.
#[derive(Clone, Copy, PartialEq, Eq, Debug)]
pub struct OrderNumber(pub u32);

impl Keyed<OrderNumber> for Option<Order> {
    ghost bears = { λ o k. has_number k.0 (slot_of o) };

    fn is_at(&self, key: OrderNumber) -> bool {
        self.is_some_and(|order| order.number == key.0)
    }
}
