//! The table of obligations once it is full: what one account owes by all of it, and places that are freed.

use crate::scenes::{OBLIGATION, add_all, cash_row};
use crate::support::{
    MOST, SECURITY, SETTINGS, Step, Tickets, admit, buy, cash, check, check_rows, credit, deliver,
    earmark, figures, holding, limit, make, opened, pay, sell, trade,
};
use partial::obligation::Obligation;
use pool::call::Call;
use pool::shown::Shown;
use registers::row::BLANK;
use registers::store::Store;
use registers::table::RowStore;
use std::process::Abort;

/// Enters 128 obligations between accounts 701 and 802, each of 1 and of 10 kopecks; 72 of either order are left.
fn fill<S: Store>(rt: &impl Abort, pool: &mut Shown<'_, S>) {
    make(rt, pool, &opened());
    let orders = [
        (buy(1, 701, 200, 1_000), Ok(200)),
        (sell(2, 802, 200, 1_000), Ok(200)),
    ];
    make(rt, pool, &orders);
    for number in 1..=128 {
        make(rt, pool, &[(trade(number, 1, 2, 1, 1_000), Ok(10))]);
    }
}

/// A place is free again once both legs are settled, and not once one is; the next obligation takes it.
#[test]
fn a_settled_place_is_taken_again(rt: HostRuntime) {
    let tickets = Tickets::form();
    let mut table = [BLANK; 6];
    let mut pool = tickets.shown(RowStore::new(&mut table), SETTINGS);
    fill(&rt, &mut pool);
    let next = trade(129, 1, 2, 1, 1_000);
    let steps = [
        (next, Err(18)),
        (earmark(701, 0), Ok(1_280)),
        (earmark(802, SECURITY), Ok(128)),
        (earmark(802, 0), Ok(0)),
        (earmark(701, SECURITY), Ok(0)),
        (next, Err(18)),
        (deliver(77), Ok(1)),
        (next, Err(18)),
        (pay(78), Ok(10)),
        (next, Err(18)),
        (pay(77), Ok(10)),
        (deliver(77), Err(22)),
        (next, Ok(10)),
        (trade(130, 1, 2, 1, 1_000), Err(18)),
        (pay(77), Err(22)),
        // the new obligation alone is not earmarked yet
        (earmark(701, 0), Ok(10)),
        (earmark(802, SECURITY), Ok(1)),
        (deliver(129), Ok(1)),
        (pay(129), Ok(10)),
        (trade(130, 1, 2, 1, 1_000), Ok(10)),
    ];
    make(&rt, &mut pool, &steps);
    let obligations = &pool.engine.partial.obligations;
    check(&rt, obligations.place_of(77), None);
    check(&rt, obligations.place_of(78), Some(77));
    check(&rt, obligations.place_of(129), None);
    check(&rt, obligations.place_of(130), Some(76));
    check(&rt, obligations.free_place(), None);
    let left = [
        (0, figures(8_710, 0, 1_260)),
        (1, figures(0, 0, 2)),
        (2, figures(0, 0, 30)),
        (3, figures(71, 0, 127)),
        (4, figures(870, 70, 1_000)),
        (5, figures(870, 70, 1_000)),
    ];
    check_rows(&rt, &mut pool.engine.partial.full.store, &left);
    tickets.give_up(&rt);
}

/// The most that one trade costs is 1,000,000 at 100,000,000, which is 10^12 kopecks. Under the least ratio its risk is
/// 10^8.
fn greatest(trade_number: u8) -> [Step; 3] {
    let number = u32::from(trade_number);
    let (buying, selling) = (2 * number, 2 * number + 1);
    [
        (buy(buying, 701, 1_000_000, 100_000_000), Ok(100_000_000)),
        (sell(selling, 802, 1_000_000, 100_000_000), Ok(100_000_000)),
        (
            trade(number, buying, selling, 1_000_000, 100_000_000),
            Ok(1_000_000_000_000),
        ),
    ]
}

/// Settles both legs of one of these trades.
fn settled(number: u32) -> [Step; 2] {
    [
        (pay(number), Ok(1_000_000_000_000)),
        (deliver(number), Ok(1_000_000)),
    ]
}

/// 128 of the greatest trades: 128 × 10^12 kopecks and 128,000,000 pieces are owed. The cash has one kopeck too little
/// at first.
#[test]
fn the_greatest_obligations(rt: HostRuntime) {
    let opened = [
        (admit(SECURITY, 1), Ok(1)),
        (cash(701, 100_000_000_000_000), Ok(1)),
        (holding(701, 0), Ok(2)),
        (cash(802, 0), Ok(3)),
        (holding(802, 128_000_000), Ok(4)),
        (limit(7, 100_000_000_000_000), Ok(5)),
        (limit(8, 100_000_000_000_000), Ok(6)),
        (credit(701, 0, 28_000_000_000_199), Ok(128_000_000_000_199)),
    ];
    let steps = [
        (earmark(701, 0), Ok(127_999_999_999_999)),
        (earmark(701, 0), Ok(0)),
        (credit(701, 0, 1), Ok(201)),
        (earmark(701, 0), Ok(1)),
        (earmark(701, 0), Ok(0)),
        (earmark(802, SECURITY), Ok(128_000_000)),
        (earmark(802, SECURITY), Ok(0)),
    ];
    let tickets = Tickets::form();
    let mut table = [BLANK; 6];
    let mut pool = tickets.shown(RowStore::new(&mut table), SETTINGS);
    make(&rt, &mut pool, &opened);
    for number in 1..=128u8 {
        make(&rt, &mut pool, &greatest(number));
    }
    make(&rt, &mut pool, &steps);
    for number in 1..=128 {
        make(&rt, &mut pool, &settled(number));
    }
    check(&rt, pool.engine.partial.obligations.free_place(), Some(0));
    make(&rt, &mut pool, &[(Call::Close, Ok(2))]);
    let left = [
        (0, figures(200, 0, 0)),
        (1, figures(128_000_000, 0, 0)),
        (2, figures(128_000_000_000_000, 0, 0)),
        (3, figures(0, 0, 0)),
        (4, figures(99_987_200_000_000, 0, 100_000_000_000_000)),
    ];
    check_rows(&rt, &mut pool.engine.partial.full.store, &left);
    tickets.give_up(&rt);
}

/// Money that no trade enters: 128 times 2^57 is 2^64, of which the last 64 bits are 0.
#[test]
fn a_sum_above_64_bits(rt: HostRuntime) {
    let tickets = Tickets::form();
    let mut table = [BLANK; 1];
    let mut pool = tickets.shown(RowStore::new(&mut table), SETTINGS);
    let rows = [cash_row(701, figures(MOST, 0, 0))];
    add_all(&rt, &mut pool.engine.partial.full.store, &rows);
    for place in 0..128 {
        let owed = Obligation {
            number: 1,
            money: 144_115_188_075_855_872,
            ..OBLIGATION
        };
        pool.engine.partial.obligations.enter(place, owed);
    }
    make(
        &rt,
        &mut pool,
        &[(earmark(701, 0), Ok(999_999_999_999_800))],
    );
    let left = [(0, figures(200, 0, MOST - 200))];
    check_rows(&rt, &mut pool.engine.partial.full.store, &left);
    tickets.give_up(&rt);
}
