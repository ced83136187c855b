//! Runs of the rounds over both stores, printed.

use crate::rounds::{SECURITY, admit, deal, open};
use crate::size::Size;
use full::engine::Engine;
use full::keys::{cash_key, holding_key};
use full::settings::Settings;
use registers::image::{self, HEADER, ImageStore, ROW};
use registers::row::BLANK;
use registers::store::{MOST_ROWS, Store};
use registers::table::RowStore;
use std::io;
use std::time::{Duration, Instant};

/// The reserve, in kopecks.
const RESERVE: u16 = 200;

/// Bytes of an image with room for as many rows as a store may have.
const IMAGE: usize = HEADER + ROW * MOST_ROWS;

/// The rounds whose answers are printed alone.
const FEW: [Size; 4] = [
    Size {
        accounts: 2,
        rounds: 1_000,
    },
    Size {
        accounts: 16,
        rounds: 1_000,
    },
    Size {
        accounts: 256,
        rounds: 1_000,
    },
    Size {
        accounts: 2_000,
        rounds: 300,
    },
];

/// The rounds that are timed.
const MANY: [Size; 4] = [
    Size {
        accounts: 2,
        rounds: 1_000_000,
    },
    Size {
        accounts: 16,
        rounds: 1_000_000,
    },
    Size {
        accounts: 256,
        rounds: 300_000,
    },
    Size {
        accounts: 2_000,
        rounds: 100_000,
    },
];

/// Prints the cash and the holding of an account.
fn show_account<S: Store>(rt: &HostRuntime, store: &mut S, account: u32) -> io::Result<()> {
    for key in [cash_key(account), holding_key(account, SECURITY)] {
        if let Some(place) = store.find(key) {
            if let Some(row) = store.row(place) {
                println!(rt; "R {row}")?;
            }
        }
    }
    Ok(())
}

/// Prints the nanoseconds of a call, a fraction dropped.
fn show_time(rt: &HostRuntime, took: Duration, size: Size) -> io::Result<()> {
    let calls = 3 * u128::from(size.rounds);
    match took.as_nanos().checked_div(calls) {
        Some(each) => println!(rt; "{each} ns a call"),
        None => println!(rt; "no calls"),
    }
}

/// Carries out the calls of a size on an engine over a store, and prints what they answered and how the
/// rows of the two traders stand then.
fn run<S: Store + Drop>(rt: &HostRuntime, store: S, size: Size, timed: bool) -> io::Result<()> {
    let mut engine = Engine::new(store, Settings { reserve: RESERVE });
    let admissions = admit(&mut engine);
    println!(rt; "admissions: {admissions}")?;
    let openings = open(&mut engine, size);
    println!(rt; "openings: {openings}")?;
    let begun = Instant::now(rt)?;
    let dealings = deal(&mut engine, size);
    let took = begun.elapsed(rt)?;
    println!(rt; "{dealings}")?;
    if timed {
        show_time(rt, took, size)?;
    }
    show_account(rt, &mut engine.store, size.buyer())?;
    show_account(rt, &mut engine.store, size.seller())
}

/// Carries out the calls of a size over both stores, each with room for 4,096 rows.
fn run_both(rt: &HostRuntime, size: Size, timed: bool) -> io::Result<()> {
    let accounts = size.accounts;
    println!(rt; "{accounts} accounts over a row store")?;
    let mut table = vec![in rt.alloc(); BLANK; MOST_ROWS]?;
    run(rt, RowStore::new(&mut table), size, timed)?;
    println!(rt; "{accounts} accounts over an image store")?;
    let mut bytes = vec![in rt.alloc(); 0; IMAGE]?;
    // long enough for a header
    let _ = image::format(&mut bytes);
    run(rt, ImageStore::new(&mut bytes), size, timed)
}

/// Carries out the calls of every size over both stores and prints what came of them; where they are
/// timed, there are more rounds, and the time of a call is printed as well.
pub fn show(rt: &HostRuntime, timed: bool) -> io::Result<()> {
    let sizes = if timed { &MANY } else { &FEW };
    for size in sizes {
        run_both(rt, *size, timed)?;
    }
    Ok(())
}
