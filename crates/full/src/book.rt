//! The order book.

ghost use Rattle.std.specs.Prelude.{◌≡◌, ◌<◌, length, replicate, IfSome, Some, None, slice_index_or, slice_set};
ghost use Rattle.plans.specs.Steps.{ok_as};
ghost use Rattle.full.specs.Orders.{slots_of, live_of, place_of_order, free_place, lowered};
ghost use Rattle.full.specs.Checks.{found_of};
ghost use Rattle.full.specs.Views.{placed_as};

use crate::free::Free;
use crate::order::Order;
use crate::order_number::OrderNumber;
use crate::placed_order::PlacedOrder;
use plans::refusal::Refusal;
use registers::ranges::Quantity;

/// How many orders may live.
pub const MOST_ORDERS: usize = 256;

/// The order book: the live orders, each in a place of the table, and the number of the order that was
/// announced last.
#[derive(Clone, Copy, PartialEq, Eq, Debug)]
pub struct Book {
    // an array of places, which are freed and taken again: there is no heap for a map
    pub orders: [Option<Order>; MOST_ORDERS],
    pub last_order: u32,
}

impl Book {
    /// No orders, and no order number given yet.
    pub fn new() -> Book
        ensures orders { slots_of result ≡ replicate MOST_ORDERS None }
        ensures last { result.last_order ≡ 0 }
    {
        Book {
            orders: [None; MOST_ORDERS],
            last_order: 0,
        }
    }

    // `within` and `inside`, here and below: the same bound, in numbers and as indexing asks for it

    /// The place of the live order of a number, or `None` where there is none.
    #[tactic(auto, using(crate::proofs::Tables::place_of_map))]
    fn place_of(&self, number: u32) -> Option<usize>
        ensures place { result ≡ place_of_order number (slots_of self.now) }
        ensures within { IfSome result (λ i. i < MOST_ORDERS) }
        ensures inside { IfSome result (λ i. i < length self.now.orders) }
    {
        seek::find(&self.orders, OrderNumber(number))
    }

    /// The live order of a number and its place. Refuses (11) where there is none.
    #[tactic(auto, unfolding(crate::specs::Checks::found_of))]
    pub fn found(&self, number: u32) -> Result<PlacedOrder, Refusal>
        ensures { ok_as placed_as result ≡ found_of (slots_of self.now) number }
    {
        let place = self.place_of(number).ok_or(Refusal::NoOrder)?;
        let order = self.orders[place].ok_or(Refusal::NoOrder)?;
        Ok(PlacedOrder { place, order })
    }

    /// The first free place, or `None` where 256 orders are live.
    #[tactic(auto, using(crate::proofs::Tables::place_of_map))]
    pub(crate) fn free_place(&self) -> Option<usize>
        ensures place { result ≡ free_place (slots_of self.now) }
        ensures within { IfSome result (λ i. i < MOST_ORDERS) }
        ensures inside { IfSome result (λ i. i < length self.now.orders) }
    {
        seek::find(&self.orders, Free)
    }

    /// Puts an order into a place, and notes its number as the last; past the table's end only the
    /// number is noted.
    #[tactic(auto, using(crate::proofs::Tables::written))]
    pub fn add(&mut self, place: usize, order: Order)
        ensures orders { slots_of self.new ≡ slice_set (slots_of self.old) place (Some (live_of order)) }
        ensures last { self.new.last_order ≡ order.number }
    {
        self.last_order = order.number;
        if place < self.orders.len() {
            self.orders[place] = Some(order);
        }
    }

    /// Lowers the rest of the order at a place by what was traded, and frees the place where nothing
    /// is left. A place that is free, or past the table's end, changes nothing.
    #[tactic(auto, using(crate::proofs::Tables::written))]
    pub fn lower(&mut self, place: usize, traded: Quantity)
        ensures orders { slots_of self.new
            ≡ slice_set (slots_of self.old) place
            (lowered (slice_index_or (slots_of self.old) place None) traded.value) }
        ensures last { self.new.last_order ≡ self.old.last_order }
    {
        if place >= self.orders.len() {
            return;
        }
        if let Some(order) = &mut self.orders[place] {
            if order.rest.value <= traded.value {
                self.free(place);
            } else {
                order.rest.value -= traded.value;
            }
        }
    }

    /// Frees a place.
    #[tactic(auto, using(crate::proofs::Tables::written))]
    pub fn free(&mut self, place: usize)
        ensures orders { slots_of self.new ≡ slice_set (slots_of self.old) place None }
        ensures last { self.new.last_order ≡ self.old.last_order }
    {
        if place < self.orders.len() {
            self.orders[place] = None;
        }
    }
}
