//! Level Two's dealings, on the engine over both stores.

use crate::obligations::show_obligations;
use crate::partial_calls::{
    admit, debit, open_cash, open_holding, open_limit, order, post, trade, withdraw,
};
use crate::stores::show_rows;
use full::settings::Settings;
use full::side::Side;
use partial::call::Call;
use partial::engine::Engine;
use plans::machine::Machine;
use printing::calls::{SECURITY, announce};
use printing::printed_outcome::PrintedOutcome;
use printing::printed_partial_call::PrintedPartialCall;
use registers::image;
use registers::image::ImageStore;
use registers::row::BLANK;
use registers::store::Store;
use registers::table::RowStore;
use std::io;

/// Makes calls, and prints each with its answer.
fn make<S: Store>(rt: &HostRuntime, engine: &mut Engine<S>, calls: &[Call]) -> io::Result<()> {
    for call in calls {
        let outcome = PrintedOutcome(engine.carry_out(*call));
        println!(rt; "{}: {outcome}", PrintedPartialCall(*call))?;
    }
    Ok(())
}

/// Prints every row and every obligation.
pub fn show_state<S: Store>(rt: &HostRuntime, engine: &mut Engine<S>) -> io::Result<()> {
    show_rows(rt, &mut engine.full.store)?;
    show_obligations(rt, &engine.obligations)
}

/// Makes calls, and then prints every row and every obligation.
fn deal<S: Store>(rt: &HostRuntime, engine: &mut Engine<S>, calls: &[Call]) -> io::Result<()> {
    make(rt, engine, calls)?;
    show_state(rt, engine)
}

/// What is admitted and opened: three accounts, two of them participant 7's, and two limits.
fn begin<S: Store>(rt: &HostRuntime, engine: &mut Engine<S>) -> io::Result<()> {
    let calls = [
        admit(SECURITY, 1000),
        open_cash(701, 201),
        open_holding(701, 0),
        open_cash(702, 0),
        open_holding(702, 0),
        open_cash(802, 0),
        open_holding(802, 0),
        open_limit(7, 1000, 0),
        open_limit(8, 2000, 400),
        open_limit(7, 1000, 0),
    ];
    deal(rt, engine, &calls)
}

/// Orders of two participants, a trade that leaves a rest, and the withdrawal of that rest.
fn fill_in_part<S: Store>(rt: &HostRuntime, engine: &mut Engine<S>) -> io::Result<()> {
    let orders = [
        order(Side::Buy, 1, 701, 10, 123_456),
        post(7, 235),
        order(Side::Buy, 1, 701, 10, 123_456),
        order(Side::Sell, 2, 802, 4, 120_000),
    ];
    deal(rt, engine, &orders)?;
    deal(rt, engine, &[trade(1, 1, 2, 4, 120_000)])?;
    deal(rt, engine, &[withdraw(2), withdraw(1)])
}

/// Two trades between accounts of one participant.
fn trade_within<S: Store>(rt: &HostRuntime, engine: &mut Engine<S>) -> io::Result<()> {
    let orders = [
        order(Side::Buy, 3, 701, 2, 1500),
        order(Side::Sell, 4, 702, 2, 500),
        trade(2, 3, 4, 1, 1450),
    ];
    deal(rt, engine, &orders)?;
    deal(rt, engine, &[trade(3, 3, 4, 1, 1450)])
}

/// A purchase with full collateral, which is traded with no sale in partial mode.
fn mix_modes<S: Store>(rt: &HostRuntime, engine: &mut Engine<S>) -> io::Result<()> {
    let calls = [
        announce(Side::Buy, 5, 701, 2, 50).into(),
        order(Side::Sell, 6, 802, 1, 50),
        trade(4, 5, 6, 1, 50),
    ];
    deal(rt, engine, &calls)
}

/// Debits of one limit, up to a margin call: the trade costs its participant more than its sale had blocked.
fn lower<S: Store>(rt: &HostRuntime, engine: &mut Engine<S>) -> io::Result<()> {
    deal(
        rt,
        engine,
        &[debit(8, 2001), debit(8, 1120), debit(8, 1119)],
    )?;
    let calls = [
        order(Side::Sell, 7, 802, 1, 1000),
        order(Side::Buy, 8, 701, 1, 3000),
        trade(4, 8, 7, 1, 3000),
        debit(8, 1),
    ];
    deal(rt, engine, &calls)
}

fn show_over<S: Store + Drop>(rt: &HostRuntime, store: S) -> io::Result<()> {
    let mut engine = Engine::new(store, Settings { reserve: 200 });
    begin(rt, &mut engine)?;
    fill_in_part(rt, &mut engine)?;
    trade_within(rt, &mut engine)?;
    mix_modes(rt, &mut engine)?;
    lower(rt, &mut engine)
}

/// Runs the level's dealings over a row store and over an image store, with a reserve of 200.
pub fn show(rt: &HostRuntime) -> io::Result<()> {
    println!(rt; "engine of Level Two over a row store")?;
    let mut table = [BLANK; 8];
    show_over(rt, RowStore::new(&mut table))?;
    println!(rt; "engine of Level Two over an image store")?;
    let mut bytes = [0; 255];
    // long enough for a header
    let _ = image::format(&mut bytes);
    show_over(rt, ImageStore::new(&mut bytes))
}
