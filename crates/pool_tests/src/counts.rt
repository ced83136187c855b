//! How many rows the calls put, over a store that counts its changes.

use crate::scenes::{OBLIGATION, add_all, cash_row, enter_all, holding_row};
use crate::support::{
    SETTINGS, Tickets, beyond, check, check_rows, deliver, earmark, figures, pay,
};
use counting::counting::Counting;
use counting::pool_calls::counted_call;
use partial::obligation::Obligation;
use pool::call::Call;
use pool::shown::Shown;
use registers::row::BLANK;
use registers::store::Store;
use registers::table::RowStore;
use std::process::Abort;

/// A call, what it should answer, and how many rows it puts.
pub type Counted = (Call, Result<i64, u8>, u64);

/// Makes calls in their order, and compares each answer, and how many changes are counted more after it, with what is
/// expected.
fn make_counted<S: Store>(rt: &impl Abort, pool: &mut Shown<'_, Counting<S>>, steps: &[Counted]) {
    let mut changes = pool.engine.partial.full.store.changes();
    for (place, (call, expected, puts)) in steps.iter().enumerate() {
        let answer = counted_call(pool, *call).map_err(|refusal| refusal.number());
        assert_eq!(rt; answer, *expected, "call {place}");
        changes = changes.saturating_add(*puts);
        assert_eq!(rt;
            pool.engine.partial.full.store.changes(),
            changes,
            "call {place}"
        );
    }
}

/// An earmark puts one row or none, a leg two, and a close one for each third that is not 0; refused calls put none.
#[test]
fn each_call_puts_what_changes(rt: HostRuntime) {
    let first = Obligation {
        money: 1_000,
        ..OBLIGATION
    };
    // of 1 at 49, which costs nothing
    let second = Obligation {
        number: 2,
        quantity: 1,
        money: 0,
        ..OBLIGATION
    };
    let rows = [
        cash_row(701, figures(1_200, 0, 0)),
        cash_row(802, figures(0, 0, 0)),
        holding_row(701, figures(0, 0, 0)),
        holding_row(802, figures(9, 0, 0)),
    ];
    let steps = [
        (earmark(802, 0), Ok(0), 0),
        (earmark(703, 0), Err(6), 0),
        (Call::Close, Ok(0), 0),
        (earmark(701, 0), Ok(1_000), 1),
        (earmark(701, 0), Ok(0), 0),
        (earmark(802, 5), Ok(9), 1),
        (deliver(1), Err(24), 0),
        (pay(2), Ok(0), 0),
        (pay(2), Err(23), 0),
        (deliver(2), Ok(1), 2),
        (deliver(2), Err(22), 0),
        (pay(1), Ok(1_000), 2),
        (deliver(1), Err(24), 0),
        (Call::Close, Ok(3), 3),
        (Call::Close, Ok(0), 0),
    ];
    let ends = [
        (0, figures(200, 0, 0)),
        (1, figures(1_000, 0, 0)),
        (2, figures(1, 0, 0)),
        (3, figures(8, 0, 0)),
    ];
    let tickets = Tickets::form();
    let mut table = [BLANK; 4];
    let store = Counting::new(RowStore::new(&mut table));
    let mut pool = tickets.shown(store, SETTINGS);
    add_all(&rt, &mut pool.engine.partial.full.store, &rows);
    enter_all(&mut pool.engine.partial.obligations, &[first, second]);
    make_counted(&rt, &mut pool, &steps);
    check(&rt, pool.engine.partial.obligations.place_of(2), None);
    check_rows(&rt, &mut pool.engine.partial.full.store, &ends);
    tickets.give_up(&rt);
}

/// Nothing is put where figures stay: of a close that is refused, and of a leg that an account owes itself.
#[test]
fn what_stays_is_not_put(rt: HostRuntime) {
    let own = Obligation {
        seller: 701,
        ..OBLIGATION
    };
    let [out, ..] = beyond();
    let rows = [
        holding_row(701, figures(5, 0, 10)),
        cash_row(701, figures(5, 0, 9)),
        cash_row(802, out),
    ];
    let steps = [
        (Call::Close, Err(25), 0),
        (deliver(1), Ok(10), 0),
        (pay(1), Err(24), 0),
        (Call::Close, Err(25), 0),
    ];
    let tickets = Tickets::form();
    let mut table = [BLANK; 3];
    let store = Counting::new(RowStore::new(&mut table));
    let mut pool = tickets.shown(store, SETTINGS);
    add_all(&rt, &mut pool.engine.partial.full.store, &rows);
    enter_all(&mut pool.engine.partial.obligations, &[own]);
    make_counted(&rt, &mut pool, &steps);
    tickets.give_up(&rt);
}
