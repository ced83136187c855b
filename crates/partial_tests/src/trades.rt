//! Trades in partial mode over limits at the ends of their ranges.

use crate::images::{MOST, add, beyond};
use crate::support::{SECURITY, SETTINGS, admit, buy, check, figures, make, sell, trade};
use full::keys::{cash_key, holding_key, limit_key};
use partial::engine::Engine;
use plans::machine::Machine;
use registers::figures::Figures;
use registers::image;
use registers::image::ImageStore;
use registers::store::Store;
use std::process::Abort;

/// The figures of the limits of participants 7 and 8.
pub type Limits = (Figures, Figures);

/// What a trade leaves: its answer, the two limits, and the place of its obligation.
pub type Left = (
    Result<i64, u8>,
    Option<Figures>,
    Option<Figures>,
    Option<usize>,
);

/// Trades 10 at 1,000 between account 701, which buys at 1,100, and a seller, who sells at 900, where an image holds
/// the limits with the figures. Under a tenth the charge is 10, and the blocks are 11 and 9.
fn traded(rt: &impl Abort, seller: u32, limits: Limits) -> Left {
    let mut bytes = [0; 193];
    check(rt, image::format(&mut bytes), Ok(()));
    let mut store = ImageStore::new(&mut bytes);
    let zero = figures(0, 0, 0);
    let ample = figures(100, 0, 0);
    add(rt, &mut store, limit_key(8), ample);
    add(rt, &mut store, limit_key(7), ample);
    add(rt, &mut store, cash_key(701), zero);
    add(rt, &mut store, cash_key(seller), zero);
    add(rt, &mut store, holding_key(701, SECURITY), zero);
    add(rt, &mut store, holding_key(seller, SECURITY), zero);
    let mut engine = Engine::new(store, SETTINGS);
    let announced = [
        (admit(SECURITY, 1_000), Ok(1)),
        (buy(1, 701, 10, 1_100), Ok(11)),
        (sell(2, seller, 10, 900), Ok(9)),
    ];
    make(rt, &mut engine, &announced);
    // an announcement asks for figures that cover it, and the trade that is tried for none
    check(rt, engine.full.store.put(0, limits.1), Ok(()));
    check(rt, engine.full.store.put(1, limits.0), Ok(()));
    let answer = engine
        .carry_out(trade(1, 1, 2, 10, 1_000))
        .map_err(|refusal| refusal.number());
    let place = engine.obligations.place_of(1);
    let mut store = engine.into_store();
    let first = store.row(1).map(|row| row.figures);
    let second = store.row(0).map(|row| row.figures);
    (answer, first, second, place)
}

/// The limits before a trade, and those that it leaves; a refusal, by its number, leaves them.
pub type Case = (Limits, Result<Limits, u8>);

/// Trades over each case's limits, and compares what the trade answers and leaves with what is expected.
fn check_traded(rt: &impl Abort, seller: u32, cases: &[Case]) {
    for (place, (before, expected)) in cases.iter().enumerate() {
        let wanted = match *expected {
            Ok(after) => (Ok(100), Some(after.0), Some(after.1), Some(0)),
            Err(number) => (Err(number), Some(before.0), Some(before.1), None),
        };
        assert_eq!(rt; traded(rt, seller, *before), wanted, "case {place}");
    }
}

/// Either limit out of range is refused with 25, also where the other would leave its range.
#[test]
fn limits_out_of_range(rt: HostRuntime) {
    let least = figures(-MOST, 0, 0);
    for out in beyond() {
        check_traded(
            &rt,
            802,
            &[((out, least), Err(25)), ((least, out), Err(25))],
        );
        check_traded(&rt, 702, &[((out, least), Err(25))]);
    }
}

#[test]
fn two_limits_at_the_ends_of_the_range(rt: HostRuntime) {
    let zero = figures(0, 0, 0);
    let charged = figures(-10, -11, 0);
    let sold = figures(-10, -9, 0);
    let cases = [
        ((zero, zero), Ok((charged, sold))),
        (
            (figures(10 - MOST, 0, 0), zero),
            Ok((figures(-MOST, -11, 0), sold)),
        ),
        ((figures(9 - MOST, 0, 0), zero), Err(26)),
        (
            (figures(0, 11 - MOST, 0), zero),
            Ok((figures(-10, -MOST, 0), sold)),
        ),
        ((figures(0, 10 - MOST, 0), zero), Err(26)),
        (
            (zero, figures(10 - MOST, 9 - MOST, 0)),
            Ok((charged, figures(-MOST, -MOST, 0))),
        ),
        ((zero, figures(9 - MOST, 0, 0)), Err(26)),
        ((zero, figures(0, 8 - MOST, 0)), Err(26)),
        (
            (figures(0, MOST, MOST), figures(MOST, 0, 0)),
            Ok((figures(-10, MOST - 11, MOST), figures(MOST - 10, -9, 0))),
        ),
    ];
    check_traded(&rt, 802, &cases);
}

/// Both accounts are of participant 7, whose limit bears both charges and both blocks.
#[test]
fn one_limit_at_the_ends_of_the_range(rt: HostRuntime) {
    let other = figures(0, 0, 0);
    let cases = [
        (
            (figures(20 - MOST, 20 - MOST, MOST), other),
            Ok((figures(-MOST, -MOST, MOST), other)),
        ),
        ((figures(19 - MOST, 0, 0), other), Err(26)),
        ((figures(0, 19 - MOST, 0), other), Err(26)),
        ((figures(9 - MOST, 0, 0), other), Err(26)),
        (
            (figures(MOST, MOST, 0), other),
            Ok((figures(MOST - 20, MOST - 20, 0), other)),
        ),
    ];
    check_traded(&rt, 702, &cases);
}
