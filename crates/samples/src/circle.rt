//! A circle of three accounts, in which each waits for the one before it.

use crate::partial_calls::{admit, credit, open_cash, open_holding, open_limit, order, trade};
use crate::pools::{Pool, deal, run_pool};
use full::settings::Settings;
use full::side::Side;
use pool::engine::Engine;
use pool::leg::Leg;
use printing::calls::SECURITY;
use registers::store::Store;
use std::io;

/// Three accounts of one participant. None has the 10 of the security that it will owe; 702 has 10 kopecks over
/// the reserve.
fn begin<S: Store>(rt: &HostRuntime, engine: &mut Engine<S>) -> io::Result<()> {
    let calls = [
        admit(SECURITY, 1000),
        open_cash(701, 0),
        open_holding(701, 4),
        open_cash(702, 210),
        open_holding(702, 0),
        open_cash(703, 0),
        open_holding(703, 0),
        open_limit(7, 100, 0),
    ];
    deal(rt, engine, &calls)
}

/// 701 sells to 702, 702 to 703, and 703 to 701.
fn trade_around<S: Store>(rt: &HostRuntime, engine: &mut Engine<S>) -> io::Result<()> {
    let calls = [
        order(Side::Sell, 1, 701, 10, 100),
        order(Side::Buy, 2, 702, 10, 100),
        trade(1, 2, 1, 10, 100),
        order(Side::Sell, 3, 702, 10, 100),
        order(Side::Buy, 4, 703, 10, 100),
        trade(2, 4, 3, 10, 100),
        order(Side::Sell, 5, 703, 10, 100),
        order(Side::Buy, 6, 701, 10, 100),
        trade(3, 6, 5, 10, 100),
    ];
    deal(rt, engine, &calls)
}

/// No delivery can begin, and the close returns the 4 that 701 earmarked; the money goes around, from 702, which has
/// it.
const STANDING_STILL: Pool<'static> = Pool {
    earmarks: &[
        (701, SECURITY),
        (702, SECURITY),
        (703, SECURITY),
        (701, 0),
        (702, 0),
        (703, 0),
    ],
    legs: &[
        (Leg::Securities, 1),
        (Leg::Securities, 2),
        (Leg::Securities, 3),
        (Leg::Money, 2),
        (Leg::Money, 3),
        (Leg::Money, 1),
        (Leg::Money, 1),
        (Leg::Money, 3),
        (Leg::Money, 2),
        (Leg::Securities, 1),
    ],
};

/// 701 has all 10, and they go around.
const GOING_AROUND: Pool<'static> = Pool {
    earmarks: &[(701, SECURITY), (702, SECURITY), (703, SECURITY)],
    legs: &[
        (Leg::Securities, 3),
        (Leg::Securities, 2),
        (Leg::Securities, 1),
        (Leg::Securities, 1),
        (Leg::Securities, 2),
        (Leg::Securities, 3),
    ],
};

/// Settles the circle in two pools, with a reserve of 200: in the first its deliveries stand still.
pub fn show<S: Store + Drop>(rt: &HostRuntime, store: S) -> io::Result<()> {
    println!(rt; "a circle in which each waits for the other")?;
    let mut engine = Engine::new(store, Settings { reserve: 200 });
    begin(rt, &mut engine)?;
    trade_around(rt, &mut engine)?;
    run_pool(rt, &mut engine, STANDING_STILL)?;
    deal(rt, &mut engine, &[credit(701, SECURITY, 6)])?;
    run_pool(rt, &mut engine, GOING_AROUND)
}
