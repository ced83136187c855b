//! The refusals of a trade, in the order of their checks. After each the market goes on as if nothing
//! had been tried.

use crate::market::{GOOD, finished, finishing, prepared};
use crate::support::check_over_table;
use full::call::Call;
use full::deal::Deal;
use registers::row::BLANK;
use std::process::Abort;

/// Checks that the market refuses a deal with a number, and then finishes as it would have done.
fn check_refused(rt: &impl Abort, deal: Deal, number: u8) {
    let [good, ended, withdrawn] = finishing();
    let steps = [(Call::Trade(deal), Err(number)), good, ended, withdrawn];
    check_over_table(rt, &mut [BLANK; 5], &prepared(), &steps, &finished());
}

#[test]
fn a_value_outside_its_range(rt: HostRuntime) {
    check_refused(&rt, Deal { number: 0, ..GOOD }, 5);
    check_refused(&rt, Deal { buy: 0, ..GOOD }, 5);
    check_refused(&rt, Deal { sell: 0, ..GOOD }, 5);
    check_refused(
        &rt,
        Deal {
            quantity: 0,
            ..GOOD
        },
        5,
    );
    check_refused(
        &rt,
        Deal {
            quantity: 1_000_001,
            ..GOOD
        },
        5,
    );
    check_refused(&rt, Deal { price: 0, ..GOOD }, 5);
    check_refused(
        &rt,
        Deal {
            price: 100_000_001,
            ..GOOD
        },
        5,
    );
}

#[test]
fn a_trade_number_not_above_the_last(rt: HostRuntime) {
    check_refused(&rt, Deal { number: 7, ..GOOD }, 12);
    check_refused(&rt, Deal { number: 1, ..GOOD }, 12);
}

#[test]
fn an_order_that_is_not_live(rt: HostRuntime) {
    check_refused(&rt, Deal { buy: 6, ..GOOD }, 11);
    check_refused(&rt, Deal { sell: 6, ..GOOD }, 11);
}

#[test]
fn orders_on_the_wrong_sides(rt: HostRuntime) {
    check_refused(
        &rt,
        Deal {
            buy: 2,
            sell: 1,
            ..GOOD
        },
        13,
    );
    check_refused(&rt, Deal { sell: 1, ..GOOD }, 13);
    check_refused(&rt, Deal { buy: 2, ..GOOD }, 13);
}

#[test]
fn orders_in_two_securities(rt: HostRuntime) {
    check_refused(
        &rt,
        Deal {
            sell: 3,
            quantity: 1,
            ..GOOD
        },
        14,
    );
}

#[test]
fn orders_of_one_account(rt: HostRuntime) {
    check_refused(
        &rt,
        Deal {
            sell: 4,
            quantity: 10,
            ..GOOD
        },
        15,
    );
}

#[test]
fn a_quantity_above_a_rest(rt: HostRuntime) {
    check_refused(
        &rt,
        Deal {
            quantity: 100,
            ..GOOD
        },
        16,
    );
    check_refused(
        &rt,
        Deal {
            sell: 5,
            quantity: 61,
            ..GOOD
        },
        16,
    );
}

#[test]
fn a_price_outside_the_orders(rt: HostRuntime) {
    check_refused(
        &rt,
        Deal {
            price: 10_001,
            ..GOOD
        },
        17,
    );
    check_refused(
        &rt,
        Deal {
            price: 9_799,
            ..GOOD
        },
        17,
    );
}

#[test]
fn the_first_check_that_fails(rt: HostRuntime) {
    let old = Deal { number: 7, ..GOOD };
    let price = Deal {
        price: 10_001,
        ..GOOD
    };
    check_refused(&rt, Deal { quantity: 0, ..old }, 5);
    check_refused(&rt, Deal { buy: 6, ..old }, 12);
    check_refused(
        &rt,
        Deal {
            buy: 2,
            sell: 6,
            ..price
        },
        11,
    );
    check_refused(&rt, Deal { buy: 3, ..price }, 13);
    check_refused(&rt, Deal { sell: 3, ..price }, 14);
    check_refused(&rt, Deal { sell: 4, ..price }, 15);
    check_refused(
        &rt,
        Deal {
            quantity: 100,
            ..price
        },
        16,
    );
}
