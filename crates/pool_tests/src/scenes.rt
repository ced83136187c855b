//! Registers and obligations as a call may find them, over both stores, and what it leaves of them.

use crate::support::{SECURITY, SETTINGS, Step, Tickets, check, make};
use full::keys::{cash_key, holding_key};
use full::settings::Settings;
use partial::obligation::Obligation;
use partial::obligations::Obligations;
use partial::stage::Stage;
use registers::figures::Figures;
use registers::image;
use registers::image::ImageStore;
use registers::row::{BLANK, Row};
use registers::store::Store;
use registers::table::RowStore;
use std::process::Abort;

/// Account 802 owes 10 of the security to account 701, which owes 10 kopecks.
pub const OBLIGATION: Obligation = Obligation {
    number: 1,
    seller: 802,
    buyer: 701,
    security: SECURITY,
    quantity: 10,
    money: 10,
    stage: Stage::BothOwed,
};

/// The same once its securities are settled.
pub const MONEY_OWED: Obligation = Obligation {
    stage: Stage::MoneyOwed,
    ..OBLIGATION
};

/// The same once its money is settled.
pub const SECURITIES_OWED: Obligation = Obligation {
    stage: Stage::SecuritiesOwed,
    ..OBLIGATION
};

/// What calls find: registers, of which an image may hold any, and obligations in the first places of the table.
#[derive(Clone, Copy)]
pub struct Before<'a> {
    pub settings: Settings,
    pub rows: &'a [Row],
    pub owed: &'a [Obligation],
}

/// What calls leave: the figures of those registers, and what stands in the first places of the table.
#[derive(Clone, Copy)]
pub struct After<'a> {
    pub figures: &'a [Figures],
    pub owed: &'a [Option<Obligation>],
}

/// An account's cash.
pub(crate) fn cash_row(account: u32, figures: Figures) -> Row {
    Row {
        key: cash_key(account),
        figures,
    }
}

/// An account's holding of the security.
pub(crate) fn holding_row(account: u32, figures: Figures) -> Row {
    Row {
        key: holding_key(account, SECURITY),
        figures,
    }
}

/// Registers and obligations, under the settings of most tests.
pub(crate) fn given<'a>(rows: &'a [Row], owed: &'a [Obligation]) -> Before<'a> {
    Before {
        settings: SETTINGS,
        rows,
        owed,
    }
}

pub(crate) fn left<'a>(figures: &'a [Figures], owed: &'a [Option<Obligation>]) -> After<'a> {
    After { figures, owed }
}

/// Adds rows to a store.
pub(crate) fn add_all<S: Store>(rt: &impl Abort, store: &mut S, rows: &[Row]) {
    for row in rows {
        check(rt, store.add(*row), Ok(()));
    }
}

/// Enters obligations in a table, from its first place on.
pub(crate) fn enter_all(obligations: &mut Obligations, owed: &[Obligation]) {
    for (place, obligation) in owed.iter().enumerate() {
        obligations.enter(place, *obligation);
    }
}

/// Compares the figures of the first rows with what is expected.
fn check_figures<S: Store>(rt: &impl Abort, store: &mut S, expected: &[Figures]) {
    for (place, figures) in expected.iter().enumerate() {
        let found = store.row(place).map(|row| row.figures);
        assert_eq!(rt; found, Some(*figures), "row {place}");
    }
}

/// Compares the first places of a table with what is expected.
pub(crate) fn check_owed(
    rt: &impl Abort,
    obligations: &Obligations,
    expected: &[Option<Obligation>],
) {
    for (place, slot) in expected.iter().enumerate() {
        let found = obligations.table.get(place).copied();
        assert_eq!(rt; found, Some(*slot), "place {place}");
    }
}

/// Makes calls over an empty store, and compares what they answer and leave with what is expected.
fn check_over<S: Store + Drop>(
    rt: &impl Abort,
    store: S,
    given: Before<'_>,
    steps: &[Step],
    left: After<'_>,
) {
    let tickets = Tickets::form();
    let mut pool = tickets.shown(store, given.settings);
    add_all(rt, &mut pool.engine.partial.full.store, given.rows);
    enter_all(&mut pool.engine.partial.obligations, given.owed);
    make(rt, &mut pool, steps);
    check_owed(rt, &pool.engine.partial.obligations, left.owed);
    check_figures(rt, &mut pool.engine.partial.full.store, left.figures);
    tickets.give_up(rt);
}

/// Makes calls over a table of rows, and over an image, and compares what they answer and leave with what is expected.
/// Either has room for ten rows.
pub(crate) fn check_over_both(rt: &impl Abort, given: Before<'_>, steps: &[Step], left: After<'_>) {
    let mut table = [BLANK; 10];
    check_over(rt, RowStore::new(&mut table), given, steps, left);
    let mut bytes = [0; 317];
    check(rt, image::format(&mut bytes), Ok(()));
    check_over(rt, ImageStore::new(&mut bytes), given, steps, left);
}
