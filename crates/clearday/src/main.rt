//! Reads a day file from standard input, carries it out over an empty store of 1,024 rows, and prints
//! its listing, line by line.
#![tactic(auto)]

use dayfile::day::Day;
use dayfile::writing::write_lines;
use registers::row::BLANK;
use registers::table::RowStore;
use std::io;
use std::io::{BufWriter, Read, Write};

/// One byte more than a day file may have: what lies behind it need not be read to know that the file
/// is too long.
const ENOUGH: u64 = 65_537;

/// How many rows the store has room for.
const ROOM: usize = 1_024;

fn main(rt: HostRuntime) -> io::Result<()> {
    let mut file = Vec::new(rt.alloc());
    rt.stdin().take(ENOUGH).read_to_end(&mut file)?;
    let mut out = BufWriter::new(rt.alloc(), io::writer(&rt))?;
    let mut table = [BLANK; ROOM];
    let mut day = Day::new(RowStore::new(&mut table), file.as_slice());
    write_lines(&mut day, &mut out)?;
    out.flush()
}
