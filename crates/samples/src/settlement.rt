//! Two pools, from partial trades to the last payment.

use crate::partial_calls::{admit, credit, open_cash, open_holding, open_limit, order, trade};
use crate::pools::{Pool, deal, run_pool};
use full::settings::Settings;
use full::side::Side;
use pool::engine::Engine;
use pool::leg::Leg;
use printing::calls::{SECURITY, announce};
use registers::store::Store;
use std::io;

/// Three accounts, two of them participant 7's, and two limits.
fn begin<S: Store>(rt: &HostRuntime, engine: &mut Engine<S>) -> io::Result<()> {
    let calls = [
        admit(SECURITY, 1000),
        open_cash(701, 315),
        open_holding(701, 0),
        open_cash(702, 0),
        open_holding(702, 3),
        open_cash(802, 210),
        open_holding(802, 10),
        open_limit(7, 1000, 0),
        open_limit(8, 1000, 0),
    ];
    deal(rt, engine, &calls)
}

/// A sale in full mode, which blocks 4 of 802's holding; then two trades in partial mode: 802 sells 8 to 701, which
/// leaves the purchase a rest, and buys 2 of 702.
fn trade_in_part<S: Store>(rt: &HostRuntime, engine: &mut Engine<S>) -> io::Result<()> {
    let calls = [
        announce(Side::Sell, 1, 802, 4, 1500).into(),
        order(Side::Buy, 2, 701, 10, 1500),
        order(Side::Sell, 3, 802, 8, 1400),
        trade(1, 2, 3, 8, 1450),
        order(Side::Buy, 4, 802, 2, 1600),
        order(Side::Sell, 5, 702, 2, 1500),
        trade(2, 4, 5, 2, 1500),
    ];
    deal(rt, engine, &calls)
}

/// The first pool: 802 can deliver only what it owns free and what it receives, and 701 lacks one kopeck over its
/// reserve.
const DELIVERIES: Pool<'static> = Pool {
    earmarks: &[
        (99, 0),
        (701, 10_000),
        (703, 0),
        (802, SECURITY),
        (802, SECURITY),
        (702, SECURITY),
        (701, SECURITY),
        (701, 0),
        (802, 0),
        (702, 0),
    ],
    legs: &[
        (Leg::Securities, 1),
        (Leg::Money, 1),
        (Leg::Money, 2),
        (Leg::Securities, 2),
        (Leg::Securities, 2),
        (Leg::Securities, 1),
        (Leg::Securities, 1),
        (Leg::Money, 1),
        (Leg::Securities, 3),
    ],
};

/// The second: 701 has the kopeck, and 802 pays out of what it is paid.
const PAYMENTS: Pool<'static> = Pool {
    earmarks: &[(701, 0), (802, 0)],
    legs: &[
        (Leg::Money, 2),
        (Leg::Money, 1),
        (Leg::Money, 1),
        (Leg::Money, 2),
        (Leg::Securities, 2),
    ],
};

/// Settles the obligations of two trades in two pools, with a reserve of 200.
pub fn show<S: Store + Drop>(rt: &HostRuntime, store: S) -> io::Result<()> {
    println!(rt; "deliveries in one pool and payments in the next")?;
    let mut engine = Engine::new(store, Settings { reserve: 200 });
    begin(rt, &mut engine)?;
    trade_in_part(rt, &mut engine)?;
    run_pool(rt, &mut engine, DELIVERIES)?;
    deal(rt, &mut engine, &[credit(701, 0, 1)])?;
    run_pool(rt, &mut engine, PAYMENTS)
}
