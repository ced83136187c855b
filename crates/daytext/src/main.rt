//! Reads a day that is written as text from standard input, two hex digits a byte with remarks, and
//! writes the day file that it spells to standard output. Refuses a text over 16 MiB, and one that has a
//! fault, which is told with its line; nothing is then written, and the program ends with status 1.
#![tactic(auto)]

use anyhow::{Result, ensure};
use hex_source::reading::bytes_of;
use std::io::{Read, Write};

/// The greatest length of a text in bytes.
const MOST: u64 = 16_777_216;

fn main(rt: HostRuntime) -> Result<()> {
    let mut text = Vec::new(rt.alloc());
    // one byte more than a text may have, to know that there is more
    rt.stdin().take(MOST + 1).read_to_end(&mut text)?;
    ensure!(text.len() as u64 <= MOST, "the text is over {MOST} bytes");
    let file = bytes_of(rt.alloc(), text.as_slice())?;
    rt.stdout().write_all(file.as_slice())?;
    Ok(())
}
