//! How the engine is embedded: over an image in bytes of one's own, with no heap.
#![tactic(auto)]

use full::announcement::Announcement;
use full::engine::Engine;
use full::mode::Mode;
use full::opening::Opening;
use full::settings::Settings;
use full::side::Side;
use plans::refusal::Refusal;
use registers::image::{self, HEADER, ImageStore, ROW};
use registers::kind::RegisterKind;
use registers::store::Store;
use std::io;

/// Cash of account 701, with a limit of 201 kopecks.
const CASH: Opening = Opening {
    kind: RegisterKind::Cash as u8,
    code: 701,
    security: 0,
    limit: 201,
    margin: 0,
};

/// The same account's holding of security 5, empty yet.
const HOLDING: Opening = Opening {
    kind: RegisterKind::Holding as u8,
    security: 5,
    limit: 0,
    ..CASH
};

/// Order 1: account 701 buys 2 of security 5 at 50 ten-thousandths of a ruble, with full collateral.
const PURCHASE: Announcement = Announcement {
    side: Side::Buy,
    mode: Mode::Full as u8,
    number: 1,
    account: 701,
    security: 5,
    quantity: 2,
    price: 50,
};

fn main(rt: HostRuntime) -> io::Result<()> {
    // the store keeps its rows in these bytes: a header of 7, two rows of 31, and 3 that are left
    let mut bytes = [0; 72];
    if let Err(short) = image::format(&mut bytes) {
        return println!(rt; "{short}");
    }

    // each call answers a number, or is refused and changes nothing
    let mut engine = Engine::new(ImageStore::new(&mut bytes), Settings { reserve: 200 });
    tell(&rt, "admit 5 1000", engine.admit(5, 1000))?;
    tell(&rt, "open 1 701 0 201", engine.open(CASH))?;
    tell(&rt, "open 2 701 5 0", engine.open(HOLDING))?;
    tell(&rt, "buy 1 701 2 at 50", engine.announce(PURCHASE))?;
    tell(&rt, "withdraw 1", engine.withdraw(1))?;
    tell(&rt, "withdraw 1", engine.withdraw(1))?;

    // the engine hands its store out; once that has ended too, the bytes are their owner's again
    show_rows(&rt, engine.into_store())?;
    show_image(&rt, &bytes)
}

/// Prints what a call answered, or the number and the layer of its refusal.
fn tell(rt: &HostRuntime, call: &str, outcome: Result<i64, Refusal>) -> io::Result<()> {
    match outcome {
        Ok(answer) => println!(rt; "{call}: ok {answer}"),
        Err(refusal) => println!(rt; "{call}: no {refusal}"),
    }
}

/// Prints every row: its key and its figures.
fn show_rows(rt: &HostRuntime, mut store: ImageStore<'_>) -> io::Result<()> {
    for place in 0..store.count() {
        if let Some(row) = store.row(place) {
            println!(rt; "R {row}")?;
        }
    }
    Ok(())
}

/// Prints the image in hex: a line for the header, one for each row, and one for what is left.
fn show_image(rt: &HostRuntime, bytes: &[u8]) -> io::Result<()> {
    for (place, byte) in bytes.iter().enumerate() {
        if place >= HEADER && (place - HEADER) % ROW == 0 {
            println!(rt; "")?;
        }
        print!(rt; "{byte:02X}")?;
    }
    println!(rt; "")
}
