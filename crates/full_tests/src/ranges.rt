//! Figures at the ends of their ranges, as an image may hold them.

use crate::support::{
    Expected, RESERVE, SECURITY, Stored, admit, buy, check, check_rows, credit, figures, make,
    sell, trade, withdraw,
};
use full::engine::Engine;
use full::keys::{cash_key, holding_key};
use full::settings::Settings;
use registers::figures::Figures;
use registers::image;
use registers::image::ImageStore;
use registers::row::Row;
use registers::store::Store;
use std::process::Abort;

/// As the rules give it, and not as the code has it.
const MOST: i64 = 1_000_000_000_000_000;

/// Adds the rows to an empty image, makes calls over it, and compares the figures that they leave with
/// what is expected.
fn check_over_image(
    rt: &impl Abort,
    bytes: &mut [u8],
    rows: &[Row],
    steps: &[Expected],
    left: &[Stored],
) {
    check(rt, image::format(bytes), Ok(()));
    let mut store = ImageStore::new(bytes);
    for row in rows {
        check(rt, store.add(*row), Ok(()));
    }
    let mut engine = Engine::new(store, Settings { reserve: RESERVE });
    make(rt, &mut engine, steps);
    let mut store = engine.into_store();
    check_rows(rt, &mut store, left);
}

/// Credits an amount where the image holds one cash register with these figures.
fn check_credited(rt: &impl Abort, figures: Figures, amount: u64, expected: Result<i64, u8>) {
    let cash = Row {
        key: cash_key(701),
        figures,
    };
    let steps = [(credit(701, 0, amount), expected)];
    check_over_image(rt, &mut [0; 38], &[cash], &steps, &[]);
}

#[test]
fn a_credit_to_figures_in_range(rt: HostRuntime) {
    check_credited(&rt, figures(MOST - 1, 0, 0), 1, Ok(MOST));
    check_credited(&rt, figures(MOST, 0, 0), 1, Err(26));
    check_credited(&rt, figures(-MOST, 0, 0), 1, Ok(1 - MOST));
    check_credited(&rt, figures(0, MOST, 0), 1, Ok(1));
    check_credited(&rt, figures(0, -MOST, 0), 1, Ok(1));
    check_credited(&rt, figures(MOST - 6, 0, 5), 1, Ok(MOST - 5));
    check_credited(&rt, figures(MOST - 5, 0, 5), 1, Err(26));
    check_credited(&rt, figures(-MOST, 0, MOST), 1, Ok(1 - MOST));
}

#[test]
fn a_credit_to_figures_out_of_range(rt: HostRuntime) {
    check_credited(&rt, figures(MOST + 1, 0, 0), 1, Err(25));
    check_credited(&rt, figures(-MOST - 1, 0, 0), 1, Err(25));
    check_credited(&rt, figures(0, MOST + 1, 0), 1, Err(25));
    check_credited(&rt, figures(0, -MOST - 1, 0), 1, Err(25));
    check_credited(&rt, figures(0, 0, -1), 1, Err(25));
    check_credited(&rt, figures(MOST - 5, 0, 6), 1, Err(25));
    check_credited(&rt, figures(0, 0, MOST + 1), 1, Err(25));
    check_credited(&rt, figures(i64::MAX, 0, i64::MAX), 1, Err(25));
    check_credited(&rt, figures(i64::MIN, 0, 0), 1, Err(25));
}

#[test]
fn amounts_at_the_ends_of_their_range(rt: HostRuntime) {
    let zero = figures(0, 0, 0);
    check_credited(&rt, zero, 0, Err(5));
    check_credited(&rt, zero, 1, Ok(1));
    check_credited(&rt, zero, 100_000_000_000_000, Ok(100_000_000_000_000));
    check_credited(&rt, zero, 100_000_000_000_001, Err(5));
    check_credited(&rt, figures(MOST + 1, 0, 0), 0, Err(5));
}

/// Makes calls where the image holds the cash of a buyer (701) and a seller (802) as given, and a
/// holding of 10 for the seller.
fn check_paid(
    rt: &impl Abort,
    buyer_cash: Figures,
    seller_cash: Figures,
    steps: &[Expected],
    left: &[Stored],
) {
    let rows = [
        Row {
            key: cash_key(701),
            figures: buyer_cash,
        },
        Row {
            key: cash_key(802),
            figures: seller_cash,
        },
        Row {
            key: holding_key(701, SECURITY),
            figures: figures(0, 0, 0),
        },
        Row {
            key: holding_key(802, SECURITY),
            figures: figures(10, 0, 0),
        },
    ];
    check_over_image(rt, &mut [0; 131], &rows, steps, left);
}

/// A purchase of 2 at 50 blocks 1, and each of its halves releases 1.
#[test]
fn a_blocked_figure_at_the_least(rt: HostRuntime) {
    let steps = [
        (admit(SECURITY, 1_000), Ok(1)),
        (buy(1, 701, 2, 50), Ok(1)),
        (sell(2, 802, 2, 50), Ok(2)),
        (trade(1, 1, 50), Ok(1)),
        (trade(2, 1, 50), Err(26)),
        (withdraw(1), Err(26)),
        (withdraw(2), Ok(1)),
        (withdraw(1), Err(26)),
        (credit(701, 0, 1), Ok(10)),
    ];
    let left = [
        (0, figures(10, -MOST, 0)),
        (1, figures(1, 0, 0)),
        (2, figures(1, 0, 0)),
        (3, figures(9, 0, 0)),
    ];
    check_paid(&rt, figures(10, -MOST, 0), figures(0, 0, 0), &steps, &left);
}

/// The seller's cash takes no kopeck more, and 1 at 49 costs none.
#[test]
fn a_limit_at_the_most(rt: HostRuntime) {
    let steps = [
        (admit(SECURITY, 1_000), Ok(1)),
        (buy(1, 701, 3, 49), Ok(1)),
        (sell(2, 802, 3, 49), Ok(3)),
        (trade(1, 3, 49), Err(26)),
        (trade(1, 2, 49), Err(26)),
        (trade(1, 1, 49), Ok(0)),
    ];
    let left = [
        (0, figures(1_000, 1, 0)),
        (1, figures(MOST, 0, 0)),
        (2, figures(1, 0, 0)),
        (3, figures(9, 2, 0)),
    ];
    check_paid(
        &rt,
        figures(1_000, 0, 0),
        figures(MOST, 0, 0),
        &steps,
        &left,
    );
}

/// The seller's cash is out of range: a sale does not look at it, a purchase and a trade do.
#[test]
fn a_limit_above_the_most(rt: HostRuntime) {
    let steps = [
        (admit(SECURITY, 1_000), Ok(1)),
        (buy(1, 701, 3, 49), Ok(1)),
        (sell(2, 802, 3, 49), Ok(3)),
        (buy(3, 802, 1, 49), Err(25)),
        (trade(1, 1, 49), Err(25)),
        (withdraw(2), Ok(3)),
    ];
    let left = [
        (0, figures(1_000, 1, 0)),
        (1, figures(MOST + 1, 0, 0)),
        (2, figures(0, 0, 0)),
        (3, figures(10, 0, 0)),
    ];
    check_paid(
        &rt,
        figures(1_000, 0, 0),
        figures(MOST + 1, 0, 0),
        &steps,
        &left,
    );
}
