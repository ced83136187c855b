//! Carrying out calls that are shown tickets.

ghost use Rattle.std.specs.Prelude.{◌≡◌};
ghost use Rattle.pool.specs.State.{State};
ghost use Rattle.pool.specs.Plans.{call_of};

use crate::call::Call;
use crate::engine::Engine;
use crate::ticket::{Collecting, Ending};
use plans::machine::Machine;
use plans::refusal::Refusal;
use registers::store::Store;

/// An engine, and the tickets that the calls which are carried out on it are shown. Both tickets stay with
/// whoever shows them.
#[derive(Drop)]
pub struct Shown<'t, S: Store> {
    pub engine: Engine<S>,
    pub collecting: &'t Collecting,
    pub ending: &'t Ending,
}

/// Carries out one call; answers and refuses as the engine does. A close takes in a ticket that is formed
/// for it.
impl<'t, S: Store> Machine<Call, i64> for Shown<'t, S> {
    ghost State = { State };

    ghost Beneath = { S };

    ghost made = { S.Store.made };

    ghost view = { λ m. m.engine };

    ghost plan = { call_of };

    ghost unchanged = { S.unchanged };

    ghost joined = { S.joined };

    fn carry_out(&mut self, call: Call) -> Result<i64, Refusal> {
        match call {
            Call::Partial(call) => self.engine.partial.carry_out(call),
            Call::Earmark { code, security } => self
                .engine
                .earmark(self.collecting, code, security),
            Call::Deliver { number } => self.engine.deliver(self.ending, number),
            Call::Pay { number } => self.engine.pay(self.ending, number),
            Call::Close => self.engine.close(Collecting::form().end()),
        }
    }
}
