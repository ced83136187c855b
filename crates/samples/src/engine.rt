//! Level One's dealings, on the engine over both stores.

use crate::stores::show_rows;
use full::call::Call;
use full::engine::Engine;
use full::settings::Settings;
use full::side::Side;
use plans::machine::Machine;
use printing::calls::{announce, open, trade};
use printing::printed_call::PrintedCall;
use printing::printed_outcome::PrintedOutcome;
use registers::image;
use registers::image::ImageStore;
use registers::kind::RegisterKind;
use registers::row::BLANK;
use registers::store::Store;
use registers::table::RowStore;
use std::io;

// admit, credit and withdraw: short names for cases of `Call`, which these lists alone are full of

fn admit(security: u16, ratio: u16) -> Call {
    Call::Admit { security, ratio }
}

fn credit(code: u32, security: u16, amount: u64) -> Call {
    Call::Credit {
        code,
        security,
        amount,
    }
}

fn withdraw(number: u32) -> Call {
    Call::Withdraw { number }
}

/// Makes calls, and prints each with its answer.
fn make<S: Store>(rt: &HostRuntime, engine: &mut Engine<S>, calls: &[Call]) -> io::Result<()> {
    for call in calls {
        let outcome = PrintedOutcome(engine.carry_out(*call));
        println!(rt; "{}: {outcome}", PrintedCall(*call))?;
    }
    Ok(())
}

/// What is admitted and opened.
fn begin<S: Store>(rt: &HostRuntime, engine: &mut Engine<S>) -> io::Result<()> {
    let calls = [
        admit(5, 1000),
        admit(5, 1000),
        open(RegisterKind::Cash, 701, 0, 200),
        open(RegisterKind::Holding, 701, 5, 0),
        open(RegisterKind::Cash, 802, 0, 0),
        open(RegisterKind::Holding, 802, 5, 1000),
        open(RegisterKind::Cash, 703, 0, 10_200),
        open(RegisterKind::Holding, 703, 5, 0),
        open(RegisterKind::Cash, 701, 0, 200),
        open(RegisterKind::Holding, 701, 6, 0),
        open(RegisterKind::Participant, 7, 0, 1000),
    ];
    make(rt, engine, &calls)
}

/// Makes calls, and then prints every row.
fn deal<S: Store>(rt: &HostRuntime, engine: &mut Engine<S>, calls: &[Call]) -> io::Result<()> {
    make(rt, engine, calls)?;
    show_rows(rt, &mut engine.store)
}

/// Orders and trades, with every row after each trade.
fn go_on<S: Store>(rt: &HostRuntime, engine: &mut Engine<S>) -> io::Result<()> {
    let orders = [
        announce(Side::Buy, 1, 701, 2, 50),
        credit(701, 0, 1),
        announce(Side::Buy, 1, 701, 2, 50),
        announce(Side::Sell, 2, 802, 102, 50),
    ];
    deal(rt, engine, &orders)?;
    deal(rt, engine, &[trade(1, 1, 1, 50)])?;
    deal(rt, engine, &[trade(2, 1, 1, 50)])?;
    deal(rt, engine, &[trade(3, 1, 1, 50)])?;
    let bargain = [
        announce(Side::Buy, 3, 703, 100, 10_000),
        trade(3, 3, 100, 9_900),
    ];
    deal(rt, engine, &bargain)?;
    let withdrawals = [
        withdraw(2),
        announce(Side::Sell, 4, 802, 10, 1),
        withdraw(4),
    ];
    deal(rt, engine, &withdrawals)
}

fn show_over<S: Store + Drop>(rt: &HostRuntime, store: S) -> io::Result<()> {
    let mut engine = Engine::new(store, Settings { reserve: 200 });
    begin(rt, &mut engine)?;
    go_on(rt, &mut engine)
}

/// Runs the level's dealings over a row store and over an image store, with a reserve of 200.
pub fn show(rt: &HostRuntime) -> io::Result<()> {
    println!(rt; "engine over a row store")?;
    let mut table = [BLANK; 8];
    show_over(rt, RowStore::new(&mut table))?;
    println!(rt; "engine over an image store")?;
    let mut bytes = [0; 255];
    // long enough for a header
    let _ = image::format(&mut bytes);
    show_over(rt, ImageStore::new(&mut bytes))
}
