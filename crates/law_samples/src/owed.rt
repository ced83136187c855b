//! What a tally notes of an obligation.

use partial::obligation::Obligation;
use partial::stage::Stage;
use pool::leg::Leg;

/// An obligation as a trade left it, and how often its securities were delivered and its money paid.
#[derive(Clone, Copy)]
pub struct Owed {
    pub obligation: Obligation,
    pub delivered: u32,
    pub paid: u32,
}

impl Owed {
    /// An obligation of which nothing was settled.
    pub(crate) fn of(obligation: Obligation) -> Owed {
        Owed {
            obligation,
            delivered: 0,
            paid: 0,
        }
    }

    /// Notes that a leg was settled.
    pub(crate) fn settle(&mut self, leg: Leg) {
        let times = match leg {
            Leg::Securities => &mut self.delivered,
            Leg::Money => &mut self.paid,
        };
        *times = times.saturating_add(1);
    }

    /// What is left of the obligation: nothing once both legs were settled.
    pub(crate) fn left(self) -> Option<Obligation> {
        let stage = match (self.delivered > 0, self.paid > 0) {
            (false, false) => Stage::BothOwed,
            (true, false) => Stage::MoneyOwed,
            (false, true) => Stage::SecuritiesOwed,
            (true, true) => return None,
        };
        Some(Obligation {
            stage,
            ..self.obligation
        })
    }

    /// Whether no leg was settled twice.
    pub(crate) fn is_settled_once(self) -> bool {
        self.delivered <= 1 && self.paid <= 1
    }
}
