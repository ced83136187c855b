//! Closes: rows as an image may hold them, figures at the ends of their ranges, and full stores.

use crate::scenes::{
    MONEY_OWED, OBLIGATION, add_all, cash_row, check_over_both, given, holding_row, left,
};
use crate::support::{
    MOST, SETTINGS, Step, Tickets, beyond, check, check_rows, deliver, earmark, figures, make,
};
use plans::refusal::Refusal;
use pool::call::Call;
use pool::engine::Engine;
use pool::ticket::Collecting;
use registers::figures::Figures;
use registers::image;
use registers::image::ImageStore;
use registers::key::Key;
use registers::row::{BLANK, Row};
use registers::store::Store;
use registers::table::RowStore;
use std::process::Abort;
use std::test::Fail;

// kinds are numbers here: an image may spell any
fn row(kind: u8, code: u32, security: u16, figures: Figures) -> Row {
    Row {
        key: Key {
            kind,
            code,
            security,
        },
        figures,
    }
}

/// A close that answers, and then another.
fn closed(answer: i64) -> [Step; 2] {
    [(Call::Close, Ok(answer)), (Call::Close, Ok(0))]
}

#[test]
fn no_rows(rt: HostRuntime) {
    check_over_both(&rt, given(&[], &[]), &closed(0), left(&[], &[None]));
}

/// Both rows of a key are swept.
#[test]
fn two_rows_of_one_key(rt: HostRuntime) {
    let rows = [
        cash_row(701, figures(100, 0, 5)),
        cash_row(701, figures(200, 1, 7)),
        holding_row(701, figures(-3, 0, 4)),
        holding_row(701, figures(-3, 0, 0)),
        holding_row(701, figures(-3, -2, 2)),
    ];
    let swept = [
        figures(105, 0, 0),
        figures(207, 1, 0),
        figures(1, 0, 0),
        figures(-3, 0, 0),
        figures(-1, -2, 0),
    ];
    check_over_both(&rt, given(&rows, &[]), &closed(4), left(&swept, &[]));
}

/// A row is of the pool by its kind alone, be it the row of no account. Those of other kinds stay, whatever their
/// figures are.
#[test]
fn rows_of_every_kind(rt: HostRuntime) {
    for out in beyond() {
        let rows = [
            row(3, 7, 0, figures(100, 0, 100)),
            row(3, 8, 0, out),
            row(0, 701, 0, out),
            row(4, 701, 0, out),
            row(255, 701, 5, out),
            row(1, 701, 0, figures(1, 0, 1)),
            row(1, 0, 77, figures(2, 0, 2)),
            row(2, u32::MAX, 0, figures(3, 0, 3)),
        ];
        let swept = [
            figures(100, 0, 100),
            out,
            out,
            out,
            out,
            figures(2, 0, 0),
            figures(4, 0, 0),
            figures(6, 0, 0),
        ];
        check_over_both(&rt, given(&rows, &[]), &closed(3), left(&swept, &[]));
    }
}

/// Closes twice over rows of which one is out of range: both are refused, and every row is left as it was.
fn check_refused(rt: &impl Abort, rows: [Row; 3]) {
    let refused = [(Call::Close, Err(25)), (Call::Close, Err(25))];
    let [first, second, third] = rows;
    let same = [first.figures, second.figures, third.figures];
    check_over_both(rt, given(&rows, &[]), &refused, left(&same, &[]));
}

/// One row out of range, be it the first, the midmost or the last, of cash or of a holding.
#[test]
fn figures_out_of_range(rt: HostRuntime) {
    let cash = cash_row(701, figures(1, 0, 1));
    let holding = holding_row(701, figures(2, 0, 2));
    for out in beyond() {
        let bad_cash = cash_row(802, out);
        let bad_holding = holding_row(802, out);
        check_refused(&rt, [cash, holding, bad_cash]);
        check_refused(&rt, [cash, holding, bad_holding]);
        check_refused(&rt, [cash, bad_holding, holding]);
        check_refused(&rt, [bad_cash, cash, holding]);
    }
}

/// Limit plus third is in range already: no close takes figures out of it.
#[test]
fn figures_at_the_ends_of_the_range(rt: HostRuntime) {
    let rows = [
        cash_row(701, figures(MOST - 5, 0, 5)),
        cash_row(702, figures(-MOST, 0, MOST)),
        holding_row(701, figures(0, MOST, MOST)),
        holding_row(702, figures(-5, -MOST, 5)),
        cash_row(703, figures(-MOST, 0, 1)),
        cash_row(704, figures(MOST, MOST, 0)),
    ];
    let swept = [
        figures(MOST, 0, 0),
        figures(0, 0, 0),
        figures(MOST, MOST, 0),
        figures(0, -MOST, 0),
        figures(1 - MOST, 0, 0),
        figures(MOST, MOST, 0),
    ];
    check_over_both(&rt, given(&rows, &[]), &closed(5), left(&swept, &[]));
}

/// A close settles nothing: what is owed stands on, and has to be earmarked again.
#[test]
fn obligations_outlast_a_close(rt: HostRuntime) {
    let rows = [
        holding_row(802, figures(10, 0, 0)),
        holding_row(701, figures(0, 0, 0)),
    ];
    let steps = [
        (earmark(802, 5), Ok(10)),
        (Call::Close, Ok(1)),
        (deliver(1), Err(24)),
        (earmark(802, 5), Ok(10)),
        (deliver(1), Ok(10)),
        (earmark(802, 5), Ok(0)),
        (Call::Close, Ok(1)),
        (deliver(1), Err(23)),
    ];
    check_over_both(
        &rt,
        given(&rows, &[OBLIGATION]),
        &steps,
        left(&[figures(0, 0, 0), figures(10, 0, 0)], &[Some(MONEY_OWED)]),
    );
}

fn told(answer: Result<i64, Refusal>) -> Result<i64, u8> {
    answer.map_err(|refusal| refusal.number())
}

/// The ticket is gone after a close that is refused, and the next close takes another.
#[test]
fn a_refused_close_takes_the_ticket_in(rt: HostRuntime) {
    let [out, ..] = beyond();
    let mut table = [BLANK; 2];
    let mut engine = Engine::new(RowStore::new(&mut table), SETTINGS);
    let rows = [cash_row(701, figures(1, 0, 2)), cash_row(802, out)];
    add_all(&rt, &mut engine.partial.full.store, &rows);
    let ending = Collecting::form().end();
    let delivered = engine.deliver(&ending, 1);
    let refused = engine.close(ending);
    check(&rt, told(delivered), Err(22));
    check(&rt, told(refused), Err(25));
    let mended = engine.partial.full.store.put(1, figures(3, 0, 4));
    check(&rt, mended, Ok(()));
    let answer = engine.close(Collecting::form().end());
    check(&rt, told(answer), Ok(2));
    let swept = [(0, figures(3, 0, 0)), (1, figures(7, 0, 0))];
    check_rows(&rt, &mut engine.partial.full.store, &swept);
}

/// Cash and holdings by turns, each with its place as the limit and a third of 1.
fn filled(place: u16) -> Row {
    let kind = if place % 2 == 0 { 1 } else { 2 };
    row(
        kind,
        100 + u32::from(place),
        0,
        figures(i64::from(place), 0, 1),
    )
}

/// Looks at every row but the last: the limit is the place and what a close has added.
fn check_filled<S: Store>(rt: &impl Abort, store: &mut S, added: u16, third: i64) {
    for place in 0..4_095u16 {
        let expected = figures(i64::from(place) + i64::from(added), 0, third);
        let found = store.row(usize::from(place)).map(|row| row.figures);
        assert_eq!(rt; found, Some(expected), "row {place}");
    }
}

/// Closes over a store that is filled with 4,096 rows: the last is out of range at first.
fn close_4096<S: Store + Drop>(rt: &impl Abort, store: S) {
    let tickets = Tickets::form();
    let mut pool = tickets.shown(store, SETTINGS);
    for place in 0..4_095 {
        add_all(rt, &mut pool.engine.partial.full.store, &[filled(place)]);
    }
    let last = row(2, 5_000, 1, figures(4_095, 0, -1));
    add_all(rt, &mut pool.engine.partial.full.store, &[last]);
    make(rt, &mut pool, &[(Call::Close, Err(25))]);
    check_filled(rt, &mut pool.engine.partial.full.store, 0, 1);
    let mended = pool
        .engine
        .partial
        .full
        .store
        .put(4_095, figures(4_095, 0, 1));
    check(rt, mended, Ok(()));
    make(rt, &mut pool, &closed(4_096));
    check_filled(rt, &mut pool.engine.partial.full.store, 1, 0);
    let swept = [(4_095, figures(4_096, 0, 0))];
    check_rows(rt, &mut pool.engine.partial.full.store, &swept);
    tickets.give_up(rt);
}

#[test]
fn a_row_store_of_4096(rt: HostRuntime) -> Result<(), Fail> {
    let mut table = vec![in rt.alloc(); BLANK; 4096]?;
    close_4096(&rt, RowStore::new(&mut table));
    Ok(())
}

#[test]
fn an_image_of_4096(rt: HostRuntime) -> Result<(), Fail> {
    let mut bytes = vec![in rt.alloc(); 0u8; 126_983]?;
    check(&rt, image::format(&mut bytes), Ok(()));
    close_4096(&rt, ImageStore::new(&mut bytes));
    Ok(())
}
