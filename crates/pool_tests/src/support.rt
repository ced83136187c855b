//! What the tests share: calls in short, tickets, and the loops that make calls and look at rows.

use full::announcement::Announcement;
use full::call::Call as FullCall;
use full::deal::Deal;
use full::mode::Mode;
use full::opening::Opening;
use full::settings::Settings;
use full::side::Side;
use partial::call::Call as PartialCall;
use plans::machine::Machine;
use pool::call::Call;
use pool::engine::Engine;
use pool::shown::Shown;
use pool::ticket::{Collecting, Ending};
use registers::figures::Figures;
use registers::kind::RegisterKind;
use registers::store::Store;
use registers::table::RowStore;
use std::fmt::Debug;
use std::process::Abort;

/// The settings of most tests: a reserve of 200 kopecks.
pub const SETTINGS: Settings = Settings { reserve: 200 };

/// The security that most tests trade.
pub const SECURITY: u16 = 5;

/// The greatest figure, as the rules give it, and not as the code has it.
pub const MOST: i64 = 1_000_000_000_000_000;

/// A call, and what it should answer, or the number of its refusal: the rules give numbers, and tests hold to them.
pub type Step = (Call, Result<i64, u8>);

/// A place of a store, and the figures that should stand there.
pub type Stored = (usize, Figures);

/// Compares what is found with what is expected: one function, since every comparison is proved where it
/// stands.
pub(crate) fn check<T: Copy + PartialEq + Debug>(rt: &impl Abort, found: T, expected: T) {
    assert_eq!(rt; found, expected);
}

/// The tickets that a test shows.
pub struct Tickets {
    collecting: Collecting,
    ending: Ending,
}

impl Tickets {
    pub(crate) fn form() -> Tickets {
        Tickets {
            collecting: Collecting::form(),
            ending: Collecting::form().end(),
        }
    }

    /// A new engine over a store, to which the tickets are shown.
    pub(crate) fn shown<S: Store>(&self, store: S, settings: Settings) -> Shown<'_, S> {
        Shown {
            engine: Engine::new(store, settings),
            collecting: &self.collecting,
            ending: &self.ending,
        }
    }

    /// Gives the tickets up, to an engine without registers.
    pub(crate) fn give_up(self, rt: &impl Abort) {
        let Tickets { collecting, ending } = self;
        let mut engine = Engine::new(RowStore::new(&mut []), SETTINGS);
        let first = engine.close(collecting.end());
        let second = engine.close(ending);
        check(rt, first, Ok(0));
        check(rt, second, Ok(0));
    }
}

/// Makes calls in their order, and compares each answer with what is expected.
pub(crate) fn make<S: Store>(rt: &impl Abort, pool: &mut Shown<'_, S>, steps: &[Step]) {
    for (place, (call, expected)) in steps.iter().enumerate() {
        let answer = pool.carry_out(*call).map_err(|refusal| refusal.number());
        assert_eq!(rt; answer, *expected, "call {place}");
    }
}

/// Compares the figures at places with what is expected.
pub(crate) fn check_rows<S: Store>(rt: &impl Abort, store: &mut S, expected: &[Stored]) {
    for (place, figures) in expected {
        let found = store.row(*place).map(|row| row.figures);
        assert_eq!(rt; found, Some(*figures), "row {place}");
    }
}

pub(crate) fn figures(limit: i64, blocked: i64, third: i64) -> Figures {
    Figures {
        limit,
        blocked,
        third,
    }
}

/// Figures out of range, each by one rule at least.
pub(crate) fn beyond() -> [Figures; 9] {
    [
        figures(MOST + 1, 0, 0),
        figures(-MOST - 1, 0, 0),
        figures(0, MOST + 1, 0),
        figures(0, -MOST - 1, 0),
        figures(0, 0, -1),
        figures(0, 0, MOST + 1),
        figures(MOST - 5, 0, 6),
        figures(i64::MAX, 0, i64::MAX),
        figures(i64::MIN, 0, 0),
    ]
}

// the calls in short, which the tables of calls are full of

pub(crate) fn earmark(code: u32, security: u16) -> Call {
    Call::Earmark { code, security }
}

pub(crate) fn deliver(number: u32) -> Call {
    Call::Deliver { number }
}

pub(crate) fn pay(number: u32) -> Call {
    Call::Pay { number }
}

fn full(call: FullCall) -> Call {
    Call::from(PartialCall::from(call))
}

pub(crate) fn admit(security: u16, ratio: u16) -> Call {
    full(FullCall::Admit { security, ratio })
}

fn open(kind: RegisterKind, code: u32, security: u16, limit: u64) -> Call {
    full(FullCall::Open(Opening {
        kind: kind as u8,
        code,
        security,
        limit,
        margin: 0,
    }))
}

/// Opens an account's cash.
pub(crate) fn cash(code: u32, limit: u64) -> Call {
    open(RegisterKind::Cash, code, 0, limit)
}

/// Opens an account's holding of the security.
pub(crate) fn holding(code: u32, limit: u64) -> Call {
    open(RegisterKind::Holding, code, SECURITY, limit)
}

/// Opens a participant's limit.
pub(crate) fn limit(participant: u32, limit: u64) -> Call {
    open(RegisterKind::Participant, participant, 0, limit)
}

pub(crate) fn credit(code: u32, security: u16, amount: u64) -> Call {
    full(FullCall::Credit {
        code,
        security,
        amount,
    })
}

pub(crate) fn order(
    mode: Mode,
    side: Side,
    number: u32,
    account: u32,
    quantity: u32,
    price: u32,
) -> Call {
    full(FullCall::Announce(Announcement {
        side,
        mode: mode as u8,
        number,
        account,
        security: SECURITY,
        quantity,
        price,
    }))
}

/// A purchase in partial mode.
pub(crate) fn buy(number: u32, account: u32, quantity: u32, price: u32) -> Call {
    order(Mode::Partial, Side::Buy, number, account, quantity, price)
}

/// A sale in partial mode.
pub(crate) fn sell(number: u32, account: u32, quantity: u32, price: u32) -> Call {
    order(Mode::Partial, Side::Sell, number, account, quantity, price)
}

pub(crate) fn withdraw(number: u32) -> Call {
    full(FullCall::Withdraw { number })
}

pub(crate) fn trade(number: u32, buy: u32, sell: u32, quantity: u32, price: u32) -> Call {
    full(FullCall::Trade(Deal {
        number,
        buy,
        sell,
        quantity,
        price,
    }))
}

pub(crate) fn post(participant: u16, amount: u64) -> Call {
    Call::from(PartialCall::Post {
        participant,
        amount,
    })
}

pub(crate) fn debit(participant: u16, amount: u64) -> Call {
    Call::from(PartialCall::Debit {
        participant,
        amount,
    })
}

/// The security under a tenth, cash and holding of accounts 701 and 802, and then the limits of participants 7 and 8,
/// of 1,000 each.
pub(crate) fn opened() -> [Step; 7] {
    [
        (admit(SECURITY, 1_000), Ok(1)),
        (cash(701, 10_000), Ok(1)),
        (holding(701, 0), Ok(2)),
        (cash(802, 0), Ok(3)),
        (holding(802, 200), Ok(4)),
        (limit(7, 1_000), Ok(5)),
        (limit(8, 1_000), Ok(6)),
    ]
}
