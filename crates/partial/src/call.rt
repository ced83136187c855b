//! The calls of Level Two as values.

ghost use Rattle.std.specs.Prelude.{◌≡◌};
ghost use Rattle.partial.specs.declared.call.Call.TheVariants.{Full as FullOf};
ghost use Rattle.partial.specs.State.{State};
ghost use Rattle.partial.specs.Plans.{call_of};

use crate::engine::Engine;
use full::call::Call as FullCall;
use plans::machine::Machine;
use plans::refusal::Refusal;
use registers::store::Store;

/// One call of the engine with its arguments: a call of Level One's, with what Level Two adds to it, or
/// one of Level Two's own.
#[derive(Clone, Copy, PartialEq, Eq, Debug)]
pub enum Call {
    Full(FullCall),
    Post { participant: u16, amount: u64 },
    Debit { participant: u16, amount: u64 },
}

impl From<FullCall> for Call {
    ghost from_gives = { λ c r. r ≡ FullOf c };

    fn from(call: FullCall) -> Call {
        Call::Full(call)
    }
}

/// Carries out one call; answers and refuses as the engine does.
impl<S: Store> Machine<Call, i64> for Engine<S> {
    ghost State = { State };

    ghost Beneath = { S };

    ghost made = { S.Store.made };

    ghost view = { λ e. e };

    ghost plan = { call_of };

    ghost unchanged = { S.unchanged };

    ghost joined = { S.joined };

    fn carry_out(&mut self, call: Call) -> Result<i64, Refusal> {
        match call {
            Call::Full(FullCall::Admit { security, ratio }) => self.admit(security, ratio),
            Call::Full(FullCall::Open(opening)) => self.open(opening),
            Call::Full(
                FullCall::Credit {
                    code,
                    security,
                    amount,
                },
            ) => self.credit(code, security, amount),
            Call::Full(FullCall::Announce(announcement)) => self.announce(announcement),
            Call::Full(FullCall::Withdraw { number }) => self.withdraw(number),
            Call::Full(FullCall::Trade(deal)) => self.trade(deal),
            Call::Post {
                participant,
                amount,
            } => self.post(participant, amount),
            Call::Debit {
                participant,
                amount,
            } => self.debit(participant, amount),
        }
    }
}
