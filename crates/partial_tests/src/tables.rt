//! The table of obligations once it is full, a place of it that was freed, and the book once it is full.

use crate::support::{
    SECURITY, SETTINGS, announce, buy, check, check_rows, figures, make, opened, order, sell,
    trade, withdraw,
};
use full::mode::Mode;
use full::order::Order;
use full::side::Side;
use partial::engine::Engine;
use registers::ranges::{Price, Quantity, Ratio};
use registers::row::BLANK;
use registers::store::Store;
use registers::table::RowStore;

/// A trade in partial mode is refused once 128 obligations stand, before its limits are looked at, and one with full
/// collateral is not.
#[test]
fn the_129th_obligation_is_refused(rt: HostRuntime) {
    let mut table = [BLANK; 6];
    let mut engine = Engine::new(RowStore::new(&mut table), SETTINGS);
    make(&rt, &mut engine, &opened(802));
    let orders = [
        (buy(1, 701, 200, 1_000), Ok(200)),
        (sell(2, 802, 200, 1_000), Ok(200)),
        (
            announce(order(Mode::Full, Side::Buy, 3, 701, 1, 1_000)),
            Ok(10),
        ),
        (
            announce(order(Mode::Full, Side::Sell, 4, 802, 1, 1_000)),
            Ok(1),
        ),
    ];
    make(&rt, &mut engine, &orders);
    // the order of a participant with no limit open, which no announcement makes
    let order_without_limit = Order {
        number: 5,
        side: Side::Sell,
        mode: Mode::Partial,
        account: 903,
        security: SECURITY,
        price: Price { value: 1_000 },
        ratio: Ratio { value: 1_000 },
        rest: Quantity { value: 1 },
    };
    engine.full.book.add(4, order_without_limit);
    make(&rt, &mut engine, &[(trade(1, 1, 5, 1, 1_000), Err(6))]);
    for number in 1..=128 {
        make(&rt, &mut engine, &[(trade(number, 1, 2, 1, 1_000), Ok(10))]);
    }
    check(&rt, engine.obligations.place_of(1), Some(0));
    check(&rt, engine.obligations.place_of(128), Some(127));
    check(&rt, engine.obligations.free_place(), None);
    let refused = [
        (trade(128, 1, 2, 1, 1_000), Err(12)),
        (trade(129, 1, 2, 73, 1_000), Err(16)),
        (trade(129, 1, 2, 1, 1_001), Err(17)),
        (trade(129, 1, 2, 1, 1_000), Err(18)),
        (trade(129, 1, 5, 1, 1_000), Err(18)),
    ];
    make(&rt, &mut engine, &refused);
    let left = [(4, figures(872, 72, 1_000)), (5, figures(872, 72, 1_000))];
    check_rows(&rt, &mut engine.full.store, &left);
    // 18 before 25 and 26
    check(&rt, engine.full.store.put(4, figures(0, 0, -1)), Ok(()));
    let still = [
        (trade(129, 1, 2, 1, 1_000), Err(18)),
        (trade(129, 3, 4, 1, 1_000), Ok(10)),
        (trade(130, 1, 2, 1, 1_000), Err(18)),
    ];
    make(&rt, &mut engine, &still);
}

/// An obligation is entered at the first free place, be it in the midst of others.
#[test]
fn a_freed_place_is_used_again(rt: HostRuntime) {
    let mut table = [BLANK; 6];
    let mut engine = Engine::new(RowStore::new(&mut table), SETTINGS);
    make(&rt, &mut engine, &opened(802));
    let traded = [
        (buy(1, 701, 200, 1_000), Ok(200)),
        (sell(2, 802, 200, 1_000), Ok(200)),
        (trade(1, 1, 2, 1, 1_000), Ok(10)),
        (trade(2, 1, 2, 1, 1_000), Ok(10)),
        (trade(3, 1, 2, 1, 1_000), Ok(10)),
    ];
    make(&rt, &mut engine, &traded);
    engine.obligations.table[1] = None;
    check(&rt, engine.obligations.free_place(), Some(1));
    make(&rt, &mut engine, &[(trade(4, 1, 2, 1, 1_000), Ok(10))]);
    check(&rt, engine.obligations.place_of(1), Some(0));
    check(&rt, engine.obligations.place_of(4), Some(1));
    check(&rt, engine.obligations.place_of(3), Some(2));
    check(&rt, engine.obligations.place_of(2), None);
    check(&rt, engine.obligations.free_place(), Some(3));
}

/// Orders in partial mode take places of the one book: with 256 live the next is refused, and once one is withdrawn it
/// is accepted.
#[test]
fn the_257th_order_is_refused(rt: HostRuntime) {
    let mut table = [BLANK; 6];
    let mut engine = Engine::new(RowStore::new(&mut table), SETTINGS);
    make(&rt, &mut engine, &opened(802));
    for number in 1..=256 {
        make(&rt, &mut engine, &[(buy(number, 701, 1, 1_000), Ok(1))]);
    }
    let steps = [
        (buy(257, 701, 1, 1_000), Err(9)),
        (withdraw(256), Ok(1)),
        (buy(257, 701, 1, 1_000), Ok(1)),
        (sell(258, 802, 1, 1_000), Err(9)),
    ];
    make(&rt, &mut engine, &steps);
    let left = [
        (4, figures(1_000, 256, 1_000)),
        (5, figures(1_000, 0, 1_000)),
    ];
    check_rows(&rt, &mut engine.full.store, &left);
}
