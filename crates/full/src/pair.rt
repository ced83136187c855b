//! The two orders of a trade.

ghost use Rattle.std.specs.Prelude.{◌≡◌, ◌≢◌, IfOk};
ghost use Rattle.plans.specs.Steps.{ok_as};
ghost use Rattle.full.specs.Orders.{slots_of};
ghost use Rattle.full.specs.Checks.{matched_of, pair_of};
ghost use Rattle.full.specs.Views.{pair_as};

use crate::bargain::Bargain;
use crate::book::Book;
use crate::deal::Deal;
use crate::order::Order;
use crate::side::Side;
use plans::refusal::Refusal;
use registers::ranges::{Price, Quantity};

/// The two orders of a trade and the places of the buy and the sell, with quantity and price.
#[derive(Clone, Copy, PartialEq, Eq, Debug)]
pub struct Pair {
    pub buy_place: usize,
    pub sell_place: usize,
    pub buy: Order,
    pub sell: Order,
    pub quantity: Quantity,
    pub price: Price,
}

impl Pair {
    /// The two orders of a trade, once it passes the checks up to the registers, for both modes. Refuses
    /// values outside their ranges (5), a number not above the last (12), an order that is not live (11), a
    /// first order that is no buy or a second that is no sell (13), another security or mode (14), one
    /// account (15), a quantity above a rest (16), and a price above the buy price or below the sell
    /// price (17).
    #[tactic(auto, unfolding(crate::specs::Checks::pair_of))]
    // inlined: two orders are many words, which a call copies
    #[inline(always)]
    pub fn of(deal: Deal, book: &Book, last_trade: u32) -> Result<Pair, Refusal>
        ensures answer { ok_as pair_as result ≡ pair_of (slots_of book.now) last_trade deal }
        ensures apart { IfOk result (λ p. p.buy.account ≢ p.sell.account) }
    {
        let bargain = Bargain::try_from(deal)?;
        if deal.number <= last_trade {
            return Err(Refusal::TradeNumberNotAbove);
        }
        let buy = book.found(deal.buy)?;
        let sell = book.found(deal.sell)?;
        let pair = Pair {
            buy_place: buy.place,
            sell_place: sell.place,
            buy: buy.order,
            sell: sell.order,
            quantity: bargain.quantity,
            price: bargain.price,
        };
        pair.matched()
    }

    #[tactic(auto, unfolding(crate::specs::Checks::matched_of))]
    fn matched(self) -> Result<Pair, Refusal>
        ensures answer { ok_as pair_as result ≡ matched_of (pair_as self) }
        ensures apart { IfOk result (λ p. p.buy.account ≢ p.sell.account) }
    {
        if self.buy.side != Side::Buy || self.sell.side != Side::Sell {
            return Err(Refusal::WrongSide);
        }
        if self.buy.security != self.sell.security || self.buy.mode != self.sell.mode {
            return Err(Refusal::Mismatch);
        }
        if self.buy.account == self.sell.account {
            return Err(Refusal::SameAccount);
        }
        if self.quantity.value > self.buy.rest.value || self.quantity.value > self.sell.rest.value {
            return Err(Refusal::AboveRest);
        }
        if self.price.value > self.buy.price.value || self.price.value < self.sell.price.value {
            return Err(Refusal::PriceOutside);
        }
        Ok(self)
    }
}
