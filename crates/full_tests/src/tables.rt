//! Tables that are full: 64 securities and 256 live orders.

use crate::support::{
    RESERVE, SECURITY, admit, cash, check_over_table, check_rows, figures, holding, make, sell,
    withdraw,
};
use full::engine::Engine;
use full::settings::Settings;
use registers::row::BLANK;
use registers::table::RowStore;

#[test]
fn the_65th_security_is_refused(rt: HostRuntime) {
    let mut table = [BLANK; 1];
    let mut engine = Engine::new(RowStore::new(&mut table), Settings { reserve: RESERVE });
    // the numbers themselves are gone through, here and below
    for security in 1..=64 {
        make(
            &rt,
            &mut engine,
            &[(admit(security, 1_000), Ok(i64::from(security)))],
        );
    }
    let steps = [
        (admit(65, 1_000), Err(4)),
        (admit(1, 1_000), Err(3)),
        (admit(64, 1_000), Err(3)),
        (admit(65, 0), Err(5)),
    ];
    make(&rt, &mut engine, &steps);
}

#[test]
fn securities_and_ratios_at_the_ends_of_their_ranges(rt: HostRuntime) {
    let steps = [
        (admit(1, 0), Err(5)),
        (admit(1, 10_001), Err(5)),
        (admit(0, 1_000), Err(5)),
        (admit(10_000, 1_000), Err(5)),
        (admit(1, 1), Ok(1)),
        (admit(9_999, 10_000), Ok(2)),
        (admit(1, 0), Err(5)),
        (admit(1, 2), Err(3)),
    ];
    check_over_table(&rt, &mut [], &[], &steps, &[]);
}

#[test]
fn the_257th_order_is_refused(rt: HostRuntime) {
    let mut table = [BLANK; 2];
    let mut engine = Engine::new(RowStore::new(&mut table), Settings { reserve: RESERVE });
    let opened = [
        (admit(SECURITY, 1_000), Ok(1)),
        (cash(701, 0), Ok(1)),
        (holding(701, SECURITY, 1_000), Ok(2)),
    ];
    make(&rt, &mut engine, &opened);
    for number in 1..=256 {
        make(&rt, &mut engine, &[(sell(number, 701, 1, 50), Ok(1))]);
    }
    let places_again = [
        (sell(257, 701, 1, 50), Err(9)),
        (withdraw(100), Ok(1)),
        (withdraw(100), Err(11)),
        (sell(257, 701, 1, 50), Ok(1)),
        (sell(258, 701, 1, 50), Err(9)),
        (withdraw(257), Ok(1)),
        (withdraw(256), Ok(1)),
        (withdraw(1), Ok(1)),
        (sell(258, 701, 1, 50), Ok(1)),
    ];
    make(&rt, &mut engine, &places_again);
    let mut store = engine.into_store();
    let rows = [(0, figures(0, 0, 0)), (1, figures(1_000, 254, 0))];
    check_rows(&rt, &mut store, &rows);
}
