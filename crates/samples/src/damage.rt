//! What damaged images hold.

use crate::stores::{show_hex, show_rows};
use registers::image;
use registers::image::ImageStore;
use registers::store::Store;
use std::io;

fn show_image(rt: &HostRuntime, what: &str, bytes: &mut [u8]) -> io::Result<()> {
    let mut store = ImageStore::new(bytes);
    println!(rt; "{what}: count {}, room {}", store.count(), store.room())?;
    show_rows(rt, &mut store)
}

fn sound(count: u8) -> [u8; 38] {
    let mut bytes = [0; 38];
    // long enough for a header
    let _ = image::format(&mut bytes);
    bytes[6] = count;
    bytes[7] = 1;
    bytes[10] = 2;
    bytes[11] = 0xBD;
    bytes[21] = 0xC9;
    bytes
}

/// Reads a sound image and then damaged ones, and prints what each holds.
pub fn show(rt: &HostRuntime) -> io::Result<()> {
    println!(rt; "damaged images")?;
    show_image(rt, "sound", &mut sound(1))?;
    let mut short = [b'L', b'R', b'I', 0, 1, 0];
    show_image(rt, "six bytes", &mut short)?;
    let formatted = image::format(&mut short).is_ok();
    print!(rt; "format six bytes: {formatted}, ")?;
    show_hex(rt, &short)?;
    let mut mark = sound(1);
    mark[2] = b'J';
    show_image(rt, "wrong mark", &mut mark)?;
    let mut version = sound(1);
    version[4] = 2;
    show_image(rt, "wrong version", &mut version)?;
    show_image(rt, "count above room", &mut sound(9))
}
