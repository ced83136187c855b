//! Three engines that carry out the same calls.

use crate::changes::changes_of;
use crate::drift::Drift;
use crate::fault::Fault;
use crate::found::Found;
use crate::law::look_at;
use crate::place::Place;
use crate::tally::Tally;
use counting::counting::Counting;
use plans::machine::Machine;
use plans::refusal::Refusal;
use pool::call::Call;
use pool::shown::Shown;
use registers::store::Store;

/// Engines over a row store, over an image, and over a row store whose changes are counted.
#[derive(Drop)]
pub struct Engines<'t, A: Store, B: Store, C: Store> {
    pub rows: Shown<'t, A>,
    pub image: Shown<'t, B>,
    pub counted: Shown<'t, Counting<C>>,
}

impl<A: Store, B: Store, C: Store> Engines<'_, A, B, C> {
    fn changes(&self) -> u64 {
        self.counted.engine.partial.full.store.changes()
    }

    /// Carries out a call on each. Refuses answers that differ, and another count of changes than the answer says: of
    /// a refused call none.
    pub(crate) fn carry_out(
        &mut self,
        call: Call,
        tally: &Tally,
    ) -> Result<Result<i64, Refusal>, Fault> {
        let before = self.changes();
        let outcome = self.rows.carry_out(call);
        if self.image.carry_out(call) != outcome || self.counted.carry_out(call) != outcome {
            return Err(Fault::Unlike);
        }
        let changes = outcome.map_or(0, |answer| changes_of(call, answer, tally));
        if self.changes() != before.saturating_add(changes) {
            return Err(Fault::OtherChanges);
        }
        Ok(outcome)
    }

    /// Looks at each beside the tally; answers the greatest drift of a blocked figure. Refuses where a line of the law
    /// does not hold.
    pub(crate) fn look_at(&mut self, tally: &mut Tally) -> Result<Drift, Found> {
        let drift = look_at(&mut self.rows.engine, tally).map_err(|fault| Found {
            fault,
            place: Place::Rows,
        })?;
        look_at(&mut self.image.engine, tally).map_err(|fault| Found {
            fault,
            place: Place::Image,
        })?;
        look_at(&mut self.counted.engine, tally).map_err(|fault| Found {
            fault,
            place: Place::Counted,
        })?;
        Ok(drift)
    }
}
