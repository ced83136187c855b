//! Runs of lists of calls, printed with their tallies.

use crate::call_list::{CallList, MOST_CALLS};
use crate::figures::show_figures;
use crate::obligations::show_obligations;
use crate::tally::Tally;
use counting::counting::Counting;
use full::call::Call as FullCall;
use full::settings::Settings;
use partial::call::Call as PartialCall;
use plans::refusal::Refusal;
use pool::call::Call;
use pool::engine::Engine;
use pool::ticket::{Collecting, Ending};
use printing::printed_outcome::PrintedOutcome;
use printing::printed_pool_call::PrintedPoolCall;
use registers::image::{self, HEADER, ImageStore, ROW};
use registers::row::BLANK;
use registers::store::Store;
use registers::table::RowStore;
use std::io;

const SETTINGS: Settings = Settings { reserve: 200 };

/// How many registers the stores have room for.
const ROOM: usize = 9;

/// Prints a call with its outcome, and notes it if it was accepted.
fn show_call(
    rt: &HostRuntime,
    tally: &mut Tally,
    call: Call,
    outcome: Result<i64, Refusal>,
) -> io::Result<()> {
    println!(rt; "{}: {}", PrintedPoolCall(call), PrintedOutcome(outcome))?;
    if outcome.is_ok() {
        tally.enter(call);
    }
    Ok(())
}

fn show_full<S: Store + Drop>(rt: &HostRuntime, store: S, calls: &[FullCall]) -> io::Result<()> {
    let mut outcomes = [Ok(0); MOST_CALLS];
    let engine = full_law::runs::run(store, SETTINGS, calls, &mut outcomes);
    let mut tally = Tally::new();
    for (call, outcome) in calls.iter().zip(&outcomes) {
        let call: PartialCall = (*call).into();
        show_call(rt, &mut tally, call.into(), *outcome)?;
    }
    show_figures(rt, &tally, &mut engine.into_store())
}

fn show_partial<S: Store + Drop>(
    rt: &HostRuntime,
    store: S,
    calls: &[PartialCall],
) -> io::Result<()> {
    let mut outcomes = [Ok(0); MOST_CALLS];
    let engine = partial_law::runs::run(store, SETTINGS, calls, &mut outcomes);
    let obligations = engine.obligations;
    let mut tally = Tally::new();
    for (call, outcome) in calls.iter().zip(&outcomes) {
        show_call(rt, &mut tally, (*call).into(), *outcome)?;
    }
    show_figures(rt, &tally, &mut engine.into_store())?;
    show_obligations(rt, &tally, &obligations)
}

/// Gives a ticket up: closes a pool on an engine of its own, which nothing was done to.
fn give_up(ticket: Ending) {
    let mut table = [];
    let mut engine = Engine::new(RowStore::new(&mut table), SETTINGS);
    let _ = engine.close(ticket);
}

/// Carries out calls of Level Three on an engine over a store, with tickets of their own.
fn run_pool<S: Store>(
    store: S,
    calls: &[Call],
    outcomes: &mut [Result<i64, Refusal>],
) -> Engine<S> {
    let collecting = Collecting::form();
    let ending = Collecting::form().end();
    let engine = pool_law::runs::run(store, SETTINGS, &collecting, &ending, calls, outcomes);
    give_up(collecting.end());
    give_up(ending);
    engine
}

/// Hands the store out again, as the last call left it.
fn show_pool<S: Store + Drop>(rt: &HostRuntime, store: S, calls: &[Call]) -> io::Result<S> {
    let mut outcomes = [Ok(0); MOST_CALLS];
    let engine = run_pool(store, calls, &mut outcomes);
    let obligations = engine.partial.obligations;
    let mut tally = Tally::new();
    for (call, outcome) in calls.iter().zip(&outcomes) {
        show_call(rt, &mut tally, *call, *outcome)?;
    }
    let mut store = engine.into_store();
    show_figures(rt, &tally, &mut store)?;
    show_obligations(rt, &tally, &obligations)?;
    Ok(store)
}

fn show_run<S: Store + Drop>(rt: &HostRuntime, store: S, list: CallList<'_>) -> io::Result<()> {
    match list {
        CallList::Full(calls) => show_full(rt, store, calls),
        CallList::Partial(calls) => show_partial(rt, store, calls),
        CallList::Pool(calls) => {
            let _ = show_pool(rt, store, calls)?;
            Ok(())
        }
    }
}

/// Runs a list over a row store and over an image store.
pub(crate) fn show_over_both(rt: &HostRuntime, list: CallList<'_>) -> io::Result<()> {
    println!(rt; "{list} over a row store")?;
    let mut table = [BLANK; ROOM];
    show_run(rt, RowStore::new(&mut table), list)?;
    println!(rt; "{list} over an image store")?;
    let mut bytes = [0; HEADER + ROW * ROOM];
    // long enough for a header
    let _ = image::format(&mut bytes);
    show_run(rt, ImageStore::new(&mut bytes), list)
}

/// Runs a list of Level Three over a row store whose changes are counted, and prints the count.
pub(crate) fn show_counted(rt: &HostRuntime, calls: &[Call]) -> io::Result<()> {
    let list = CallList::Pool(calls);
    println!(rt; "{list} over a row store whose changes are counted")?;
    let mut table = [BLANK; ROOM];
    let store = show_pool(rt, Counting::new(RowStore::new(&mut table)), calls)?;
    println!(rt; "changes: {}", store.changes())
}
