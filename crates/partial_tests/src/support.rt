//! What the tests share: calls in short, and the loops that make calls and look at rows.

use full::announcement::Announcement;
use full::call::Call as FullCall;
use full::deal::Deal;
use full::mode::Mode;
use full::opening::Opening;
use full::settings::Settings;
use full::side::Side;
use partial::call::Call;
use partial::engine::Engine;
use plans::machine::Machine;
use registers::figures::Figures;
use registers::kind::RegisterKind;
use registers::row::Row;
use registers::store::Store;
use registers::table::RowStore;
use std::fmt::Debug;
use std::process::Abort;

/// The settings of every test: a reserve of 200 kopecks.
pub const SETTINGS: Settings = Settings { reserve: 200 };

/// The security that most tests trade.
pub const SECURITY: u16 = 5;

/// A call, and what it should answer, or the number of its refusal: the rules give numbers, and tests hold to them.
pub type Step = (Call, Result<i64, u8>);

/// A place of a store, and the figures that should stand there.
pub type Stored = (usize, Figures);

/// Compares what is found with what is expected: one function, since every comparison is proved where it
/// stands.
pub(crate) fn check<T: Copy + PartialEq + Debug>(rt: &impl Abort, found: T, expected: T) {
    assert_eq!(rt; found, expected);
}

/// Makes calls in their order, and compares each answer with what is expected.
pub(crate) fn make<S: Store>(rt: &impl Abort, engine: &mut Engine<S>, steps: &[Step]) {
    for (place, (call, expected)) in steps.iter().enumerate() {
        let answer = engine.carry_out(*call).map_err(|refusal| refusal.number());
        assert_eq!(rt; answer, *expected, "call {place}");
    }
}

/// Compares the figures at places with what is expected.
pub(crate) fn check_rows<S: Store>(rt: &impl Abort, store: &mut S, expected: &[Stored]) {
    for (place, figures) in expected {
        let found = store.row(*place).map(|row| row.figures);
        assert_eq!(rt; found, Some(*figures), "row {place}");
    }
}

pub(crate) fn figures(limit: i64, blocked: i64, third: i64) -> Figures {
    Figures {
        limit,
        blocked,
        third,
    }
}

pub(crate) fn opening(kind: RegisterKind, code: u32, security: u16, limit: u64) -> Opening {
    Opening {
        kind: kind as u8,
        code,
        security,
        limit,
        margin: 0,
    }
}

pub(crate) fn order(
    mode: Mode,
    side: Side,
    number: u32,
    account: u32,
    quantity: u32,
    price: u32,
) -> Announcement {
    Announcement {
        side,
        mode: mode as u8,
        number,
        account,
        security: SECURITY,
        quantity,
        price,
    }
}

// the calls in short, which the tables of calls are full of

pub(crate) fn admit(security: u16, ratio: u16) -> Call {
    Call::from(FullCall::Admit { security, ratio })
}

pub(crate) fn open(opening: Opening) -> Call {
    Call::from(FullCall::Open(opening))
}

/// Opens an account's cash.
pub(crate) fn cash(code: u32, limit: u64) -> Call {
    open(opening(RegisterKind::Cash, code, 0, limit))
}

/// Opens an account's holding of the security.
pub(crate) fn holding(code: u32, limit: u64) -> Call {
    open(opening(RegisterKind::Holding, code, SECURITY, limit))
}

/// Opens a participant's limit.
pub(crate) fn limit(participant: u32, limit: u64, margin: u64) -> Call {
    open(Opening {
        margin,
        ..opening(RegisterKind::Participant, participant, 0, limit)
    })
}

pub(crate) fn credit(code: u32, security: u16, amount: u64) -> Call {
    Call::from(FullCall::Credit {
        code,
        security,
        amount,
    })
}

pub(crate) fn announce(announcement: Announcement) -> Call {
    Call::from(FullCall::Announce(announcement))
}

/// A purchase in partial mode.
pub(crate) fn buy(number: u32, account: u32, quantity: u32, price: u32) -> Call {
    announce(order(Mode::Partial, Side::Buy, number, account, quantity, price))
}

/// A sale in partial mode.
pub(crate) fn sell(number: u32, account: u32, quantity: u32, price: u32) -> Call {
    announce(order(Mode::Partial, Side::Sell, number, account, quantity, price))
}

pub(crate) fn withdraw(number: u32) -> Call {
    Call::from(FullCall::Withdraw { number })
}

pub(crate) fn trade(number: u32, buy: u32, sell: u32, quantity: u32, price: u32) -> Call {
    Call::from(FullCall::Trade(Deal {
        number,
        buy,
        sell,
        quantity,
        price,
    }))
}

pub(crate) fn post(participant: u16, amount: u64) -> Call {
    Call::Post {
        participant,
        amount,
    }
}

pub(crate) fn debit(participant: u16, amount: u64) -> Call {
    Call::Debit {
        participant,
        amount,
    }
}

/// The security under a tenth, cash and holding of a buyer (701) and a seller, and then the limits of participants 7
/// and 8, of 1,000 each.
pub(crate) fn opened(seller: u32) -> [Step; 7] {
    [
        (admit(SECURITY, 1_000), Ok(1)),
        (cash(701, 10_000), Ok(1)),
        (holding(701, 0), Ok(2)),
        (cash(seller, 0), Ok(3)),
        (holding(seller, 100), Ok(4)),
        (limit(7, 1_000, 0), Ok(5)),
        (limit(8, 1_000, 0), Ok(6)),
    ]
}

/// Makes calls over an empty table, first those that open what the others need, and compares the figures
/// that they leave with what is expected.
pub(crate) fn check_over_table(
    rt: &impl Abort,
    table: &mut [Row],
    opened: &[Step],
    steps: &[Step],
    left: &[Stored],
) {
    let mut engine = Engine::new(RowStore::new(table), SETTINGS);
    make(rt, &mut engine, opened);
    make(rt, &mut engine, steps);
    let mut store = engine.into_store();
    check_rows(rt, &mut store, left);
}
