//! Lists the sample days that its arguments name, and holds each listing to the one that was worked
//! out beforehand. A day is the file NAME.day, its listing NAME.listing, and NAME.txt, where there is one,
//! the same day in hex with remarks.
#![tactic(auto)]

use dayfile::listing::listing;
use hex_source::reading::bytes_of;
use hex_source::source_error::SourceError;
use registers::row::BLANK;
use registers::table::RowStore;
use std::alloc::{AllocError, Global};
use std::{env, fs, io};

/// How many rows the store of a day has room for.
const ROOM: usize = 1_024;

/// Listings up to this length are printed whole.
const SHORT: usize = 800;

/// The listing of a day over an empty store.
fn list(heap: Global, file: &[u8]) -> Result<String, AllocError> {
    let mut table = [BLANK; ROOM];
    listing(heap, RowStore::new(&mut table), file)
}

/// Compares a day with its source, where there is one. Fails where memory does not suffice for the bytes that
/// the source spells.
fn check_source(rt: &HostRuntime, name: &str, file: &[u8]) -> io::Result<()> {
    let path = format!(in rt.alloc(); "{name}.txt")?;
    let Ok(source) = fs::read(rt, path.as_str()) else {
        return Ok(());
    };
    match bytes_of(rt.alloc(), source.as_slice()) {
        Ok(spelled) if spelled.as_slice() == file => print!(rt; ", as its source spells it"),
        Ok(_) => print!(rt; ", OTHER THAN ITS SOURCE"),
        Err(SourceError::OutOfMemory) => Err(io::Error::from(AllocError)),
        Err(error) => print!(rt; ", NO SOURCE: {error}"),
    }
}

fn show_day(rt: &HostRuntime, name: &str) -> io::Result<()> {
    let path = format!(in rt.alloc(); "{name}.day")?;
    let file = fs::read(rt, path.as_str())?;
    let path = format!(in rt.alloc(); "{name}.listing")?;
    let expected = fs::read(rt, path.as_str())?;
    let length = file.len();
    print!(rt; "{name}: {length} bytes")?;
    check_source(rt, name, file.as_slice())?;
    let text = list(rt.alloc(), file.as_slice())?;
    if text.as_bytes() == expected.as_slice() {
        println!(rt; ", listed as expected")?;
    } else {
        println!(rt; ", LISTED OTHERWISE")?;
    }
    if text.len() <= SHORT {
        print!(rt; "{text}")?;
    }
    Ok(())
}

fn main(rt: HostRuntime) -> io::Result<()> {
    for name in env::args(&rt)?.skip(1) {
        show_day(&rt, name.as_str())?;
    }
    Ok(())
}
