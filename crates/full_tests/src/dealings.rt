//! Whole dealings: what covers an order, what trades leave, and the same day over both stores.

use crate::market::{finished, finishing, prepared};
use crate::support::{
    RESERVE, SECURITY, admit, buy, cash, check, check_over_table, check_rows, credit, figures,
    holding, make, opened, order, sell, trade, withdraw,
};
use full::announcement::Announcement;
use full::call::Call;
use full::engine::Engine;
use full::mode::Mode;
use full::settings::Settings;
use full::side::Side;
use registers::image;
use registers::image::ImageStore;
use registers::row::BLANK;
use registers::store::Store;
use registers::table::RowStore;
use std::process::Abort;

/// Announces a purchase of 2 at 50, which costs 1, under a reserve and a limit.
fn check_purchased(rt: &impl Abort, reserve: u16, limit: u64, expected: Result<i64, u8>) {
    let mut table = [BLANK; 2];
    let mut engine = Engine::new(RowStore::new(&mut table), Settings { reserve });
    let steps = [
        (admit(SECURITY, 1_000), Ok(1)),
        (cash(701, limit), Ok(1)),
        (holding(701, SECURITY, 0), Ok(2)),
        (buy(1, 701, 2, 50), expected),
    ];
    make(rt, &mut engine, &steps);
}

#[test]
fn a_purchase_leaves_the_reserve(rt: HostRuntime) {
    check_purchased(&rt, 200, 201, Ok(1));
    check_purchased(&rt, 200, 200, Err(10));
    check_purchased(&rt, 0, 1, Ok(1));
    check_purchased(&rt, 0, 0, Err(10));
    check_purchased(&rt, 65_535, 65_536, Ok(1));
    check_purchased(&rt, 65_535, 65_535, Err(10));
}

#[test]
fn announcements_that_are_refused(rt: HostRuntime) {
    let good = order(Side::Sell, 1, 802, 1, 50);
    let partial = Announcement {
        mode: Mode::Partial as u8,
        ..good
    };
    let other = Announcement {
        security: 6,
        ..good
    };
    let steps = [
        (cash(703, 0), Ok(5)),
        (holding(704, SECURITY, 10), Ok(6)),
        (Call::Announce(partial), Err(5)),
        (sell(1, 802, 0, 50), Err(5)),
        (sell(1, 802, 1, 100_000_001), Err(5)),
        (Call::Announce(other), Err(7)),
        (buy(1, 703, 1, 50), Err(6)),
        (sell(1, 704, 1, 50), Err(6)),
        (sell(1, 802, 11, 50), Err(10)),
        (sell(1, 802, 10, 50), Ok(10)),
    ];
    let rows = [
        (0, figures(201, 0, 0)),
        (3, figures(10, 10, 0)),
        (5, figures(10, 0, 0)),
    ];
    check_over_table(&rt, &mut [BLANK; 6], &opened(201, 10), &steps, &rows);
}

#[test]
fn a_blocked_figure_falls_below_zero(rt: HostRuntime) {
    let mut table = [BLANK; 4];
    let mut engine = Engine::new(RowStore::new(&mut table), Settings { reserve: RESERVE });
    make(&rt, &mut engine, &opened(201, 10));
    let orders = [(buy(1, 701, 2, 50), Ok(1)), (sell(2, 802, 2, 50), Ok(2))];
    make(&rt, &mut engine, &orders);
    check_rows(&rt, &mut engine.store, &[(0, figures(201, 1, 0))]);
    make(&rt, &mut engine, &[(trade(1, 1, 50), Ok(1))]);
    check_rows(&rt, &mut engine.store, &[(0, figures(200, 0, 0))]);
    make(&rt, &mut engine, &[(trade(2, 1, 50), Ok(1))]);
    check_rows(&rt, &mut engine.store, &[(0, figures(199, -1, 0))]);
    make(
        &rt,
        &mut engine,
        &[(withdraw(1), Err(11)), (withdraw(2), Err(11))],
    );
    let mut store = engine.into_store();
    let rows = [
        (0, figures(199, -1, 0)),
        (1, figures(2, 0, 0)),
        (2, figures(2, 0, 0)),
        (3, figures(8, 0, 0)),
    ];
    check_rows(&rt, &mut store, &rows);
}

#[test]
fn a_block_is_released_at_its_own_price(rt: HostRuntime) {
    let steps = [
        (buy(1, 701, 100, 10_000), Ok(10_000)),
        (sell(2, 802, 100, 9_900), Ok(100)),
        (trade(1, 100, 9_900), Ok(9_900)),
    ];
    let rows = [
        (0, figures(300, 0, 0)),
        (1, figures(100, 0, 0)),
        (2, figures(9_900, 0, 0)),
        (3, figures(0, 0, 0)),
    ];
    check_over_table(&rt, &mut [BLANK; 4], &opened(10_200, 100), &steps, &rows);
}

/// Deals for a whole day over a store, and hands the store out.
fn whole_day<S: Store>(rt: &impl Abort, store: S) -> S {
    let mut engine = Engine::new(store, Settings { reserve: RESERVE });
    make(rt, &mut engine, &prepared());
    make(rt, &mut engine, &finishing());
    engine.into_store()
}

#[test]
fn the_same_day_over_both_stores(rt: HostRuntime) {
    let mut table = [BLANK; 5];
    let mut rows = whole_day(&rt, RowStore::new(&mut table));
    let mut bytes = [0; 162];
    check(&rt, image::format(&mut bytes), Ok(()));
    let mut image = whole_day(&rt, ImageStore::new(&mut bytes));
    check(&rt, (rows.count(), image.count()), (5, 5));
    check_rows(&rt, &mut rows, &finished());
    check_rows(&rt, &mut image, &finished());
    // a store is asked through `&mut`, place by place
    for place in 0..rows.count() {
        check(&rt, rows.row(place), image.row(place));
    }
}

/// A second engine finds the rows of the image as the first left them, and no orders.
#[test]
fn an_image_outlives_its_engine(rt: HostRuntime) {
    let mut bytes = [0; 162];
    check(&rt, image::format(&mut bytes), Ok(()));
    let mut engine = Engine::new(ImageStore::new(&mut bytes), Settings { reserve: RESERVE });
    make(&rt, &mut engine, &prepared());
    let mut engine = Engine::new(engine.into_store(), Settings { reserve: RESERVE });
    let steps = [
        (withdraw(1), Err(11)),
        (credit(701, 0, 1), Ok(10_102)),
        (cash(701, 0), Err(1)),
        (admit(SECURITY, 1_000), Ok(1)),
        (sell(1, 802, 90, 50), Ok(90)),
    ];
    make(&rt, &mut engine, &steps);
    let mut store = engine.into_store();
    let rows = [(0, figures(10_102, 9_900, 0)), (3, figures(299, 299, 0))];
    check_rows(&rt, &mut store, &rows);
}
