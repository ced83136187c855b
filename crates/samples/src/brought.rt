//! A pool over registers that a store brings with it, at and beyond the ends of their range.

use crate::partial_calls::{admit, order, trade};
use crate::pools::{Pool, deal, run_pool};
use crate::stores::{add, figures, key};
use full::settings::Settings;
use full::side::Side;
use pool::engine::Engine;
use pool::leg::Leg;
use printing::calls::SECURITY;
use registers::kind::RegisterKind;
use registers::store::Store;
use std::io;

/// 701's cash is as high as it may be, and 702's holding has a third figure below zero.
fn bring<S: Store>(rt: &HostRuntime, store: &mut S) -> io::Result<()> {
    add(
        rt,
        store,
        key(RegisterKind::Cash, 701, 0),
        figures(1_000_000_000_000_000, 0, 0),
    )?;
    add(
        rt,
        store,
        key(RegisterKind::Holding, 701, SECURITY),
        figures(9, 0, 0),
    )?;
    add(
        rt,
        store,
        key(RegisterKind::Cash, 702, 0),
        figures(300, 0, 0),
    )?;
    add(
        rt,
        store,
        key(RegisterKind::Holding, 702, SECURITY),
        figures(0, 0, -1),
    )?;
    add(
        rt,
        store,
        key(RegisterKind::Participant, 7, 0),
        figures(100, 0, 100),
    )
}

/// 702's holding can be neither read nor closed, and 701's cash cannot be paid. A delivery that also lacks the
/// securities is refused for the figures.
const REFUSED: Pool<'static> = Pool {
    earmarks: &[(701, SECURITY), (702, 0), (702, SECURITY)],
    legs: &[(Leg::Securities, 1), (Leg::Money, 1)],
};

/// Trades between the two accounts, and runs a pool whose close is refused.
pub fn show<S: Store + Drop>(rt: &HostRuntime, store: S) -> io::Result<()> {
    println!(rt; "registers at and beyond the ends of their range")?;
    let mut store = store;
    bring(rt, &mut store)?;
    let mut engine = Engine::new(store, Settings { reserve: 200 });
    let calls = [
        admit(SECURITY, 1000),
        order(Side::Sell, 1, 701, 10, 100),
        order(Side::Buy, 2, 702, 10, 100),
        trade(1, 2, 1, 10, 100),
    ];
    deal(rt, &mut engine, &calls)?;
    run_pool(rt, &mut engine, REFUSED)
}
