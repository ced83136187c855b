//! The calls of Level One as values.

ghost use Rattle.full.specs.State.{State};
ghost use Rattle.full.specs.Plans.{call_of};

use crate::announcement::Announcement;
use crate::deal::Deal;
use crate::engine::Engine;
use crate::opening::Opening;
use plans::machine::Machine;
use plans::refusal::Refusal;
use registers::store::Store;

/// One call of the engine with its arguments.
#[derive(Clone, Copy, PartialEq, Eq, Debug)]
pub enum Call {
    Admit {
        security: u16,
        ratio: u16,
    },
    Open(Opening),
    Credit {
        code: u32,
        security: u16,
        amount: u64,
    },
    Announce(Announcement),
    Withdraw {
        number: u32,
    },
    Trade(Deal),
}

/// Carries out one call; answers and refuses as the engine does.
impl<S: Store> Machine<Call, i64> for Engine<S> {
    ghost State = { State };

    ghost Beneath = { S };

    ghost made = { S.Store.made };

    ghost view = { λ e. e };

    ghost plan = { call_of };

    ghost unchanged = { S.unchanged };

    ghost joined = { S.joined };

    fn carry_out(&mut self, call: Call) -> Result<i64, Refusal> {
        // a match: calls are values, since the law speaks of lists of them
        match call {
            Call::Admit { security, ratio } => self.admit(security, ratio),
            Call::Open(opening) => self.open(opening),
            Call::Credit {
                code,
                security,
                amount,
            } => self.credit(code, security, amount),
            Call::Announce(announcement) => self.announce(announcement),
            Call::Withdraw { number } => self.withdraw(number),
            Call::Trade(deal) => self.trade(deal),
        }
    }
}
