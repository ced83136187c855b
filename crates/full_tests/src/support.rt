//! What the tests share: calls in short, and the loops that make calls and look at rows.

use full::announcement::Announcement;
use full::call::Call;
use full::deal::Deal;
use full::engine::Engine;
use full::mode::Mode;
use full::opening::Opening;
use full::settings::Settings;
use full::side::Side;
use plans::machine::Machine;
use registers::figures::Figures;
use registers::kind::RegisterKind;
use registers::row::Row;
use registers::store::Store;
use registers::table::RowStore;
use std::fmt::Debug;
use std::process::Abort;

/// The reserve that most tests have, in kopecks.
pub const RESERVE: u16 = 200;

/// The security that most tests trade.
pub const SECURITY: u16 = 5;

/// A call, and what it should answer, or the number of its refusal: the rules give numbers, and tests hold to them.
pub type Expected = (Call, Result<i64, u8>);

/// A place of a store, and the figures that should stand there.
pub type Stored = (usize, Figures);

/// Compares what is found with what is expected: one function, since every comparison is proved where it
/// stands.
pub(crate) fn check<T: Copy + PartialEq + Debug>(rt: &impl Abort, found: T, expected: T) {
    assert_eq!(rt; found, expected);
}

/// Makes calls in their order, and compares each answer with what is expected.
pub(crate) fn make<S: Store>(rt: &impl Abort, engine: &mut Engine<S>, steps: &[Expected]) {
    for (place, (call, expected)) in steps.iter().enumerate() {
        let answer = engine.carry_out(*call).map_err(|refusal| refusal.number());
        assert_eq!(rt; answer, *expected, "call {place}");
    }
}

/// Compares the figures at places with what is expected.
pub(crate) fn check_rows<S: Store>(rt: &impl Abort, store: &mut S, expected: &[Stored]) {
    for (place, figures) in expected {
        let found = store.row(*place).map(|row| row.figures);
        assert_eq!(rt; found, Some(*figures), "row {place}");
    }
}

pub(crate) fn figures(limit: i64, blocked: i64, third: i64) -> Figures {
    Figures {
        limit,
        blocked,
        third,
    }
}

pub(crate) fn opening(kind: RegisterKind, code: u32, security: u16, limit: u64) -> Opening {
    Opening {
        kind: kind as u8,
        code,
        security,
        limit,
        margin: 0,
    }
}

/// An order with full collateral.
pub(crate) fn order(
    side: Side,
    number: u32,
    account: u32,
    quantity: u32,
    price: u32,
) -> Announcement {
    Announcement {
        side,
        mode: Mode::Full as u8,
        number,
        account,
        security: SECURITY,
        quantity,
        price,
    }
}

pub(crate) fn admit(security: u16, ratio: u16) -> Call {
    Call::Admit { security, ratio }
}

// cash and holding, buy and sell: short names for the cases of `opening` and `order`, which the tables of calls
// are full of

/// Opens an account's cash.
pub(crate) fn cash(code: u32, limit: u64) -> Call {
    Call::Open(opening(RegisterKind::Cash, code, 0, limit))
}

/// Opens an account's holding.
pub(crate) fn holding(code: u32, security: u16, limit: u64) -> Call {
    Call::Open(opening(RegisterKind::Holding, code, security, limit))
}

pub(crate) fn credit(code: u32, security: u16, amount: u64) -> Call {
    Call::Credit {
        code,
        security,
        amount,
    }
}

pub(crate) fn buy(number: u32, account: u32, quantity: u32, price: u32) -> Call {
    Call::Announce(order(Side::Buy, number, account, quantity, price))
}

pub(crate) fn sell(number: u32, account: u32, quantity: u32, price: u32) -> Call {
    Call::Announce(order(Side::Sell, number, account, quantity, price))
}

pub(crate) fn withdraw(number: u32) -> Call {
    Call::Withdraw { number }
}

/// A trade between orders 1 and 2.
pub(crate) fn trade(number: u32, quantity: u32, price: u32) -> Call {
    Call::Trade(Deal {
        number,
        buy: 1,
        sell: 2,
        quantity,
        price,
    })
}

/// The security, and cash and a holding for a buyer (701), who has the money, and a seller (802), who
/// has the pieces.
pub(crate) fn opened(money: u64, pieces: u64) -> [Expected; 5] {
    [
        (admit(SECURITY, 1_000), Ok(1)),
        (cash(701, money), Ok(1)),
        (holding(701, SECURITY, 0), Ok(2)),
        (cash(802, 0), Ok(3)),
        (holding(802, SECURITY, pieces), Ok(4)),
    ]
}

/// Makes calls over an empty table, first those that open what the others need, and compares the figures
/// that they leave with what is expected. The calls open as many registers as the table has places.
pub(crate) fn check_over_table(
    rt: &impl Abort,
    table: &mut [Row],
    opened: &[Expected],
    steps: &[Expected],
    left: &[Stored],
) {
    let room = table.len();
    let mut engine = Engine::new(RowStore::new(table), Settings { reserve: RESERVE });
    make(rt, &mut engine, opened);
    make(rt, &mut engine, steps);
    let mut store = engine.into_store();
    check(rt, store.count(), room);
    check_rows(rt, &mut store, left);
}
