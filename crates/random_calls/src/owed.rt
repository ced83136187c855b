//! What a tally notes of an obligation.

use crate::costs::cost;
use crate::note::Note;
use full::deal::Deal;
use partial::obligation::Obligation;
use partial::stage::Stage;
use pool::leg::Leg;

/// An obligation as a trade left it, which of its legs were settled, and the look in which it was seen last.
#[derive(Clone, Copy)]
pub struct Owed {
    pub obligation: Obligation,
    pub delivered: bool,
    pub paid: bool,
    pub seen: u64,
}

impl Owed {
    /// What a trade between two noted orders leaves owed: both legs.
    pub(crate) fn of(deal: Deal, buy: Note, sell: Note) -> Owed {
        let obligation = Obligation {
            number: deal.number,
            seller: sell.announced.account,
            buyer: buy.announced.account,
            security: buy.announced.security,
            quantity: deal.quantity,
            money: cost(deal.quantity, deal.price).unwrap_or(0),
            stage: Stage::BothOwed,
        };
        Owed {
            obligation,
            delivered: false,
            paid: false,
            seen: 0,
        }
    }

    /// Whether a leg was settled, to be read and noted.
    pub(crate) fn settled(&mut self, leg: Leg) -> &mut bool {
        match leg {
            Leg::Securities => &mut self.delivered,
            Leg::Money => &mut self.paid,
        }
    }

    /// What is left of the obligation: nothing once both legs were settled.
    pub(crate) fn left(self) -> Option<Obligation> {
        let stage = match (self.delivered, self.paid) {
            (false, false) => Stage::BothOwed,
            (true, false) => Stage::MoneyOwed,
            (false, true) => Stage::SecuritiesOwed,
            (true, true) => return None,
        };
        Some(Obligation {
            stage,
            ..self.obligation
        })
    }
}
