//! The same dealings over both stores.

use registers::fault::StoreFault;
use registers::figures::Figures;
use registers::image;
use registers::image::ImageStore;
use registers::key::Key;
use registers::kind::RegisterKind;
use registers::row::{BLANK, Row};
use registers::store::Store;
use registers::table::RowStore;
use std::{fmt, io};

/// What a store answered, to be printed: no number, where the engine answers one.
#[derive(Clone, Copy)]
struct StoreAnswer(Result<(), StoreFault>);

impl fmt::Display for StoreAnswer {
    fn fmt<W: fmt::Write>(&self, f: &mut fmt::Formatter<W>) -> fmt::Result {
        match self.0 {
            Ok(()) => write!(f, "ok"),
            Err(fault) => write!(f, "no {fault}"),
        }
    }
}

/// Prints every row of a store.
pub fn show_rows<S: Store>(rt: &HostRuntime, store: &mut S) -> io::Result<()> {
    // a store is asked through `&mut`, place by place
    for place in 0..store.count() {
        if let Some(row) = store.row(place) {
            println!(rt; "R {row}")?;
        }
    }
    Ok(())
}

fn show_counts<S: Store>(rt: &HostRuntime, store: &mut S) -> io::Result<()> {
    println!(rt; "count {}, room {}", store.count(), store.room())
}

pub fn add<S: Store>(
    rt: &HostRuntime,
    store: &mut S,
    key: Key,
    figures: Figures,
) -> io::Result<()> {
    let answer = StoreAnswer(store.add(Row { key, figures }));
    println!(rt; "add {key}: {answer}")
}

fn put<S: Store>(
    rt: &HostRuntime,
    store: &mut S,
    place: usize,
    figures: Figures,
) -> io::Result<()> {
    let answer = StoreAnswer(store.put(place, figures));
    println!(rt; "put at {place}: {answer}")
}

fn find<S: Store>(rt: &HostRuntime, store: &mut S, key: Key) -> io::Result<()> {
    match store.find(key) {
        Some(place) => println!(rt; "find {key}: at {place}"),
        None => println!(rt; "find {key}: none"),
    }
}

fn look<S: Store>(rt: &HostRuntime, store: &mut S, place: usize) -> io::Result<()> {
    match store.row(place) {
        Some(row) => println!(rt; "row at {place}: R {row}"),
        None => println!(rt; "row at {place}: none"),
    }
}

pub fn figures(limit: i64, blocked: i64, third: i64) -> Figures {
    Figures {
        limit,
        blocked,
        third,
    }
}

pub fn key(kind: RegisterKind, code: u32, security: u16) -> Key {
    Key {
        kind: kind as u8,
        code,
        security,
    }
}

fn deal<S: Store>(rt: &HostRuntime, store: &mut S) -> io::Result<()> {
    show_counts(rt, store)?;
    add(
        rt,
        store,
        key(RegisterKind::Cash, 701, 0),
        figures(201, 0, 0),
    )?;
    add(
        rt,
        store,
        key(RegisterKind::Holding, 701, 5),
        figures(10, 4, 0),
    )?;
    add(
        rt,
        store,
        key(RegisterKind::Cash, 999_999, 0),
        figures(300, -1, 0),
    )?;
    add(
        rt,
        store,
        key(RegisterKind::Participant, 7, 0),
        figures(1000, 400, 1000),
    )?;
    show_counts(rt, store)?;
    put(rt, store, 0, figures(200, 1, 0))?;
    put(rt, store, 2, figures(1_000_000_000_000_000, -256, 65_536))?;
    put(rt, store, 3, figures(1, 1, 1))?;
    find(rt, store, key(RegisterKind::Holding, 701, 5))?;
    find(rt, store, key(RegisterKind::Holding, 701, 6))?;
    look(rt, store, 1)?;
    look(rt, store, 3)?;
    show_rows(rt, store)
}

/// Prints bytes in hex, on one line.
pub fn show_hex(rt: &HostRuntime, bytes: &[u8]) -> io::Result<()> {
    for byte in bytes {
        print!(rt; "{byte:02X}")?;
    }
    println!(rt; "")
}

/// Deals over a row store and over an image store, both of room 3, and prints the image.
pub fn show(rt: &HostRuntime) -> io::Result<()> {
    println!(rt; "row store")?;
    let mut table = [BLANK; 3];
    deal(rt, &mut RowStore::new(&mut table))?;
    println!(rt; "image store")?;
    let mut bytes = [0xEE; 105];
    let formatted = image::format(&mut bytes).is_ok();
    println!(rt; "format 105 bytes: {formatted}")?;
    deal(rt, &mut ImageStore::new(&mut bytes))?;
    println!(rt; "image")?;
    show_hex(rt, &bytes[..7])?;
    for row in bytes[7..100].chunks(31) {
        show_hex(rt, row)?;
    }
    show_hex(rt, &bytes[100..])
}
