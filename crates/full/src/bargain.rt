//! Trades' numbers in their ranges.

ghost use Rattle.std.specs.Prelude.{◌≡◌};
ghost use Rattle.plans.specs.declared.refusal.Refusal.TheVariants.{BadValue};
ghost use Rattle.plans.specs.Steps.{ok_as, or_refuse};
ghost use Rattle.full.specs.Terms.{bargain_of, bargain_as};

use crate::deal::Deal;
use crate::ranges::number_ok;
use plans::refusal::Refusal;
use registers::ranges::{Price, Quantity};

/// A trade's numbers in their ranges.
#[derive(Clone, Copy, PartialEq, Eq, Debug)]
pub struct Bargain {
    pub quantity: Quantity,
    pub price: Price,
}

/// A trade's numbers. Refuses (5) an argument outside its range.
impl TryFrom<Deal> for Bargain {
    type Error = Refusal;

    ghost try_from_gives = { λ d r. ok_as bargain_as r ≡ or_refuse (bargain_of d) BadValue };

    #[tactic(auto, unfolding(crate::specs::Terms::bargain_of))]
    fn try_from(deal: Deal) -> Result<Bargain, Refusal> {
        if !number_ok(deal.number) || !number_ok(deal.buy) || !number_ok(deal.sell) {
            return Err(Refusal::BadValue);
        }
        let quantity = Quantity::new(deal.quantity).ok_or(Refusal::BadValue)?;
        let price = Price::new(deal.price).ok_or(Refusal::BadValue)?;
        Ok(Bargain { quantity, price })
    }
}
