//! Announcements' numbers in their ranges.

ghost use Rattle.std.specs.Prelude.{◌≡◌};
ghost use Rattle.plans.specs.declared.refusal.Refusal.TheVariants.{BadValue};
ghost use Rattle.plans.specs.Steps.{ok_as, or_refuse};
ghost use Rattle.full.specs.Terms.{terms_of, terms_as};

use crate::announcement::Announcement;
use crate::mode::Mode;
use crate::ranges::{code_ok, number_ok, security_ok};
use plans::refusal::Refusal;
use registers::ranges::{Price, Quantity};

/// An announcement's numbers in their ranges.
#[derive(Clone, Copy, PartialEq, Eq, Debug)]
pub struct Terms {
    pub mode: Mode,
    pub quantity: Quantity,
    pub price: Price,
}

/// An announcement's numbers. Refuses (5) an argument outside its range.
impl TryFrom<Announcement> for Terms {
    type Error = Refusal;

    ghost try_from_gives = { λ a r. ok_as terms_as r ≡ or_refuse (terms_of a) BadValue };

    #[tactic(auto, unfolding(crate::specs::Terms::terms_of))]
    fn try_from(announced: Announcement) -> Result<Terms, Refusal> {
        let mode = Mode::try_from(announced.mode)?;
        if !number_ok(announced.number)
            || !code_ok(announced.account)
            || !security_ok(announced.security)
        {
            return Err(Refusal::BadValue);
        }
        let quantity = Quantity::new(announced.quantity).ok_or(Refusal::BadValue)?;
        let price = Price::new(announced.price).ok_or(Refusal::BadValue)?;
        Ok(Terms {
            mode,
            quantity,
            price,
        })
    }
}
