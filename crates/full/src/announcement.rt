//! The arguments of announcements.

ghost use Rattle.std.specs.Prelude.{◌≡◌};
ghost use Rattle.plans.specs.Steps.{ok_as};
ghost use Rattle.full.specs.Orders.{list_of, slots_of};
ghost use Rattle.full.specs.Checks.{ready_of};
ghost use Rattle.full.specs.Views.{placed_as};

use crate::book::Book;
use crate::order::Order;
use crate::placed_order::PlacedOrder;
use crate::securities::Securities;
use crate::side::Side;
use crate::terms::Terms;
use plans::refusal::Refusal;

/// The arguments of an announcement: mode 1 is full collateral, mode 2 partial; the quantity counts pieces,
/// and the price ten-thousandths of a ruble.
#[derive(Clone, Copy, PartialEq, Eq, Debug)]
pub struct Announcement {
    pub side: Side,
    // any number: a caller checks nothing beforehand, and check 5 judges it
    pub mode: u8,
    pub number: u32,
    pub account: u32,
    pub security: u16,
    pub quantity: u32,
    pub price: u32,
}

impl Announcement {
    /// The order that is announced and the place that it takes, once it passes the checks up to the
    /// registers, for both modes. Refuses values outside their ranges (5), a number not above the last (8),
    /// a security that is not admitted (7) and a full book (9).
    #[tactic(auto, unfolding(crate::specs::Checks::ready_of))]
    pub fn ready(self, securities: &Securities, book: &Book) -> Result<PlacedOrder, Refusal>
        ensures { ok_as placed_as result
            ≡ ready_of (list_of securities.now) (slots_of book.now) book.now.last_order self }
    {
        let terms = Terms::try_from(self)?;
        if self.number <= book.last_order {
            return Err(Refusal::OrderNumberNotAbove);
        }
        let ratio = securities.ratio(self.security).ok_or(Refusal::NotAdmitted)?;
        let place = book.free_place().ok_or(Refusal::OrdersFull)?;
        let order = Order {
            number: self.number,
            side: self.side,
            mode: terms.mode,
            account: self.account,
            security: self.security,
            price: terms.price,
            ratio,
            rest: terms.quantity,
        };
        Ok(PlacedOrder { place, order })
    }
}
