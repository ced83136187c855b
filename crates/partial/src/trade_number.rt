//! Trades' numbers, by which the table of obligations is searched.

ghost use Rattle.partial.specs.Obligations.{has_number};

use crate::obligation::Obligation;
use seek::Keyed;

/// The number of a trade, as a key of the table.
#[derive(Clone, Copy, PartialEq, Eq, Debug)]
pub struct TradeNumber(pub u32);

impl Keyed<TradeNumber> for Option<Obligation> {
    ghost bears = { λ o k. has_number k.0 o };

    fn is_at(&self, key: TradeNumber) -> bool {
        self.is_some_and(|obligation| obligation.number == key.0)
    }
}
