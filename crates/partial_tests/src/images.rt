//! Participants' limits as an image may hold them.

use crate::support::{SECURITY, SETTINGS, admit, check, figures, make};
use full::keys::{cash_key, holding_key, limit_key};
use partial::call::Call;
use partial::engine::Engine;
use plans::machine::Machine;
use registers::figures::Figures;
use registers::image;
use registers::image::ImageStore;
use registers::key::Key;
use registers::row::Row;
use registers::store::Store;
use std::process::Abort;

/// As the rules give it, and not as the code has it.
pub const MOST: i64 = 1_000_000_000_000_000;

/// Figures out of range, each by one rule at least.
pub(crate) fn beyond() -> [Figures; 9] {
    [
        figures(MOST + 1, 0, 0),
        figures(-MOST - 1, 0, 0),
        figures(0, MOST + 1, 0),
        figures(0, -MOST - 1, 0),
        figures(0, 0, -1),
        figures(0, 0, MOST + 1),
        figures(MOST - 5, 0, 6),
        figures(i64::MAX, 0, i64::MAX),
        figures(i64::MIN, 0, 0),
    ]
}

/// Figures of a limit, and what a call should answer over them and leave; a refusal, by its number, leaves them.
pub type Case = (Figures, Result<(i64, Figures), u8>);

/// Adds a row to a store.
pub(crate) fn add<S: Store>(rt: &impl Abort, store: &mut S, key: Key, figures: Figures) {
    check(rt, store.add(Row { key, figures }), Ok(()));
}

/// Makes a call where an image holds the limit of participant 7 with the figures, and the cash and the holding of
/// account 701 with figures out of range; gives its answer, and the figures of the limit that it leaves.
fn called(rt: &impl Abort, figures: Figures, call: Call) -> (Result<i64, u8>, Option<Figures>) {
    let mut bytes = [0; 100];
    check(rt, image::format(&mut bytes), Ok(()));
    let mut store = ImageStore::new(&mut bytes);
    let [out, ..] = beyond();
    add(rt, &mut store, cash_key(701), out);
    add(rt, &mut store, holding_key(701, SECURITY), out);
    add(rt, &mut store, limit_key(7), figures);
    let mut engine = Engine::new(store, SETTINGS);
    make(rt, &mut engine, &[(admit(SECURITY, 1_000), Ok(1))]);
    let answer = engine.carry_out(call).map_err(|refusal| refusal.number());
    let mut store = engine.into_store();
    (answer, store.row(2).map(|row| row.figures))
}

/// Makes a call over each case's figures, and compares what it answers and leaves with what is expected.
pub(crate) fn check_on_limit(rt: &impl Abort, call: Call, cases: &[Case]) {
    for (place, (before, expected)) in cases.iter().enumerate() {
        let wanted = match *expected {
            Ok((answer, after)) => (Ok(answer), Some(after)),
            Err(number) => (Err(number), Some(*before)),
        };
        assert_eq!(rt; called(rt, *before, call), wanted, "case {place}");
    }
}

/// Checks that a call refuses the limit of participant 7 with figures out of range.
pub(crate) fn check_beyond(rt: &impl Abort, call: Call) {
    for before in beyond() {
        check_on_limit(rt, call, &[(before, Err(25))]);
    }
}
