//! Whole pools over both stores, from trades in partial mode to the close, and tickets that are of no engine.

use crate::scenes::check_owed;
use crate::support::{
    SECURITY, SETTINGS, Step, Tickets, buy, check, check_rows, credit, deliver, earmark, figures,
    make, opened, pay, sell, trade,
};
use plans::machine::carry_all;
use plans::refusal::Refusal;
use pool::call::Call;
use pool::engine::Engine;
use pool::shown::Shown;
use pool::ticket::Collecting;
use registers::image;
use registers::image::ImageStore;
use registers::row::BLANK;
use registers::store::Store;
use registers::table::RowStore;
use std::process::Abort;

/// Account 802 sells 10 at 1,000 to account 701, which sells them back at 1,010: 802 owes 10 pieces and 101 kopecks,
/// and 701 owes 10 pieces and 100 kopecks. The risks are 10, and 10.1, rounded 10.
fn there_and_back() -> [Step; 6] {
    [
        (buy(1, 701, 10, 1_000), Ok(10)),
        (sell(2, 802, 10, 1_000), Ok(10)),
        (trade(1, 1, 2, 10, 1_000), Ok(100)),
        (buy(3, 802, 10, 1_010), Ok(10)),
        (sell(4, 701, 10, 1_010), Ok(10)),
        (trade(2, 3, 4, 10, 1_010), Ok(101)),
    ]
}

/// Account 701 has no pieces and 802 no cash before they get them: each leg waits for the one that brings them. Of the
/// cash one kopeck is lacking at the end, and is credited beside the reserve.
fn settled() -> [Step; 18] {
    [
        (earmark(701, 0), Ok(100)),
        (earmark(701, SECURITY), Ok(0)),
        (earmark(802, 0), Ok(0)),
        (earmark(802, SECURITY), Ok(10)),
        (deliver(2), Err(24)),
        (pay(2), Err(24)),
        (deliver(1), Ok(10)),
        (deliver(2), Ok(10)),
        (pay(1), Ok(100)),
        (pay(1), Err(22)),
        (pay(2), Err(24)),
        (deliver(2), Err(23)),
        (earmark(802, 0), Ok(0)),
        (credit(802, 0, 201), Ok(201)),
        (earmark(802, 0), Ok(1)),
        (pay(2), Ok(101)),
        (Call::Close, Ok(2)),
        (Call::Close, Ok(0)),
    ]
}

/// Makes the calls over an empty store, and looks at what they leave.
fn settle_over<S: Store + Drop>(rt: &impl Abort, store: S) {
    let tickets = Tickets::form();
    let mut pool = tickets.shown(store, SETTINGS);
    make(rt, &mut pool, &opened());
    make(rt, &mut pool, &there_and_back());
    make(rt, &mut pool, &settled());
    check_owed(rt, &pool.engine.partial.obligations, &[None, None]);
    let left = [
        (0, figures(10_001, 0, 0)),
        (1, figures(0, 0, 0)),
        (2, figures(200, 0, 0)),
        (3, figures(200, 0, 0)),
        (4, figures(980, 0, 1_000)),
        (5, figures(980, 0, 1_000)),
    ];
    let Shown { engine, .. } = pool;
    let mut store = engine.into_store();
    check_rows(rt, &mut store, &left);
    tickets.give_up(rt);
}

#[test]
fn legs_that_wait_for_each_other(rt: HostRuntime) {
    let mut table = [BLANK; 6];
    settle_over(&rt, RowStore::new(&mut table));
    let mut bytes = [0; 193];
    check(&rt, image::format(&mut bytes), Ok(()));
    settle_over(&rt, ImageStore::new(&mut bytes));
}

/// The calls as one list, carried out to their end though some are refused.
#[test]
fn a_list_of_calls(rt: HostRuntime) {
    let tickets = Tickets::form();
    let mut table = [BLANK; 6];
    let mut pool = tickets.shown(RowStore::new(&mut table), SETTINGS);
    make(&rt, &mut pool, &opened());
    make(&rt, &mut pool, &there_and_back());
    let calls = [
        pay(1),
        earmark(701, 0),
        pay(1),
        pay(1),
        Call::Close,
        deliver(3),
    ];
    let mut outcomes = [Ok(0); 6];
    carry_all(&mut pool, &calls, &mut outcomes);
    let expected = [
        Err(Refusal::ThirdBelow),
        Ok(100),
        Ok(100),
        Err(Refusal::LegSettled),
        Ok(1),
        Err(Refusal::NoObligation),
    ];
    check(&rt, outcomes, expected);
    let left = [(0, figures(9_900, 0, 0)), (2, figures(100, 0, 0))];
    check_rows(&rt, &mut pool.engine.partial.full.store, &left);
    tickets.give_up(&rt);
}

/// One ticket serves two engines, and is given up to either.
#[test]
fn tickets_of_no_engine(rt: HostRuntime) {
    let mut engine = Engine::new(RowStore::new(&mut []), SETTINGS);
    let mut other = Engine::new(RowStore::new(&mut []), SETTINGS);
    let collecting = Collecting::form();
    let earmarked = [
        engine.earmark(&collecting, 701, 0),
        other.earmark(&collecting, 701, 0),
    ];
    let ending = collecting.end();
    let settled = [
        engine.deliver(&ending, 1),
        other.deliver(&ending, 1),
        engine.pay(&ending, 1),
        other.pay(&ending, 1),
    ];
    let closed = other.close(ending);
    check(&rt, earmarked.map(told), [Err(6); 2]);
    check(&rt, settled.map(told), [Err(22); 4]);
    check(&rt, told(closed), Ok(0));
}

fn told(answer: Result<i64, Refusal>) -> Result<i64, u8> {
    answer.map_err(|refusal| refusal.number())
}
