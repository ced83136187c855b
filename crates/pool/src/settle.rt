//! Settling a leg of an obligation.

ghost use Rattle.std.specs.Prelude.{◌≡◌};
ghost use Rattle.pool.specs.Stages.{settled, is_owed, with_stage};

use crate::leg::Leg;
use partial::obligation::Obligation;
use partial::stage::Stage;
use plans::refusal::Refusal;

/// What has legs that are settled one after the other.
pub trait Settle: Sized {
    ghost use Rattle.std.specs.Prelude.{Bool, Option, Result};
    ghost use Rattle.plans.specs.declared.refusal.Refusal.{Refusal as RefusalOf};
    ghost use Rattle.pool.specs.declared.leg.Leg.{Leg as LegOf};

    /// What is left once a leg is settled.
    ghost left: { Self → LegOf → Result (Option Self) RefusalOf };

    /// Whether a leg is owed.
    ghost owes: { Self → LegOf → Bool };

    /// What is left once a leg is settled: nothing after the second. Refuses (23) a leg that is settled
    /// already.
    fn settle(self, leg: Leg) -> Result<Option<Self>, Refusal>
        ensures { result ≡ left self leg };

    /// Whether a leg is owed still.
    fn is_owed(self, leg: Leg) -> bool
        ensures { result ≡ owes self leg };
}

fn with_stage(obligation: Obligation, stage: Stage) -> Obligation
    ensures { result ≡ with_stage obligation stage }
{
    Obligation {
        stage,
        ..obligation
    }
}

impl Settle for Obligation {
    ghost left = { settled };

    ghost owes = { λ o l. is_owed o.stage l };

    fn settle(self, leg: Leg) -> Result<Option<Obligation>, Refusal> {
        match (self.stage, leg) {
            (Stage::BothOwed, Leg::Securities) => Ok(Some(with_stage(self, Stage::MoneyOwed))),
            (Stage::BothOwed, Leg::Money) => Ok(Some(with_stage(self, Stage::SecuritiesOwed))),
            (Stage::MoneyOwed, Leg::Money) | (Stage::SecuritiesOwed, Leg::Securities) => Ok(None),
            (Stage::MoneyOwed, Leg::Securities) | (Stage::SecuritiesOwed, Leg::Money) => {
                Err(Refusal::LegSettled)
            }
        }
    }

    fn is_owed(self, leg: Leg) -> bool {
        match (self.stage, leg) {
            (Stage::BothOwed, _)
            | (Stage::MoneyOwed, Leg::Money)
            | (Stage::SecuritiesOwed, Leg::Securities) => true,
            (Stage::MoneyOwed, Leg::Securities) | (Stage::SecuritiesOwed, Leg::Money) => false,
        }
    }
}
