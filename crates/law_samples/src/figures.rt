//! The text of orders, and of registers with the engine's figures beside the tally's.

use crate::note::Note;
use crate::tally::Tally;
use registers::row::Row;
use registers::store::Store;
use std::io;

fn show_note(rt: &HostRuntime, note: Note) -> io::Result<()> {
    println!(rt;
        "order {}: quantity {}, traded {}, given back {}, rest {}",
        note.announced.number,
        note.announced.quantity,
        note.traded,
        note.back,
        note.rest()
    )
}

fn show_register(rt: &HostRuntime, tally: &Tally, row: Row) -> io::Result<()> {
    let Some(opened) = tally.opened_as(row.key) else {
        return println!(rt; "a row that nobody opened");
    };
    let key = row.key;
    let limit = row.figures.limit;
    let blocked = row.figures.blocked;
    let opening = opened.blocked;
    let live = tally.live_blocks(row.key);
    let difference = blocked
        .saturating_sub_unsigned(opening)
        .saturating_sub_unsigned(live);
    let allowance = opened.allowance();
    println!(rt;
        "register {key}: limit {limit}, opening {opening}, live blocks {live}, blocked {blocked}, difference {difference}, allowance {allowance}"
    )
}

/// Prints each order of the tally, and each register of the store.
pub(crate) fn show_figures<S: Store>(
    rt: &HostRuntime,
    tally: &Tally,
    store: &mut S,
) -> io::Result<()> {
    for (_, note) in tally.notes.iter().flatten() {
        show_note(rt, *note)?;
    }
    // a store is asked through `&mut`, place by place
    for place in 0..store.count() {
        if let Some(row) = store.row(place) {
            show_register(rt, tally, row)?;
        }
    }
    Ok(())
}
