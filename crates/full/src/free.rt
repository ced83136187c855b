//! Free places, for which the book is searched.

ghost use Rattle.std.specs.Prelude.{is_none};
ghost use Rattle.full.specs.Orders.{slot_of};

use crate::order::Order;
use seek::Keyed;

/// The key that a free place of the book bears.
#[derive(Clone, Copy, PartialEq, Eq, Debug)]
pub struct Free;

impl Keyed<Free> for Option<Order> {
    ghost bears = { λ o _. is_none (slot_of o) };

    fn is_at(&self, _key: Free) -> bool {
        self.is_none()
    }
}
