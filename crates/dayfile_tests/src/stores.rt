//! A day over a byte image, line by line, and the store that it leaves.

use crate::support::{DAY, check};
use day_records::kind::RecordKind;
use day_runs::runs::run_day;
use dayfile::day::Day;
use dayfile::line::Line;
use dayfile::listing::listing;
use registers::image;
use registers::image::ImageStore;
use registers::store::Store;
use std::test::Fail;

/// Four lines, and then none; the store that is handed out has the row that was opened.
#[test]
fn a_day_over_an_image(rt: HostRuntime) {
    let mut bytes = [0; 69];
    check(&rt, image::format(&mut bytes), Ok(()));
    let mut day = Day::new(ImageStore::new(&mut bytes), &DAY);
    check(&rt, day.by_ref().take(10).count(), 4);
    let mut store = day.into_store();
    check(
        &rt,
        store.row(0).map(|row| (row.key.code, row.figures.limit)),
        Some((701, 201)),
    );
}

/// A record is carried out when its line is told, and not before.
#[test]
fn a_day_that_is_stopped(rt: HostRuntime) {
    let mut bytes = [0; 69];
    check(&rt, image::format(&mut bytes), Ok(()));
    let mut day = Day::new(ImageStore::new(&mut bytes), &DAY);
    check(&rt, day.engine.full.store.count(), 0);
    let first = day.next();
    check(&rt, day.engine.full.store.count(), 1);
    check(
        &rt,
        first,
        Some(Line::Record {
            number: 1,
            kind: RecordKind::Open,
            outcome: Ok(1),
        }),
    );
}

/// The rows of a store that is not empty are listed too, also where the file has a fault.
#[test]
fn a_store_with_rows(rt: HostRuntime) -> Result<(), Fail> {
    let mut bytes = [0; 69];
    check(&rt, image::format(&mut bytes), Ok(()));
    let mut day = Day::new(ImageStore::new(&mut bytes), &DAY);
    check(&rt, day.by_ref().take(10).count(), 4);
    let text = listing(rt.alloc(), day.into_store(), b"")?;
    check(
        &rt,
        text.as_str(),
        "1 fault 33 F 0\nend 0\nR 1 701 0 201 0 0\n",
    );
    Ok(())
}

/// A whole day at once leaves the rows that its listing shows, also with no place for an outcome.
#[test]
fn a_whole_day(rt: HostRuntime) {
    let mut bytes = [0; 69];
    check(&rt, image::format(&mut bytes), Ok(()));
    let engine = run_day(ImageStore::new(&mut bytes), &DAY, &mut []);
    let reserve = engine.full.settings.reserve;
    let mut store = engine.into_store();
    check(&rt, (reserve, store.count()), (200, 1));
    check(
        &rt,
        store.row(0).map(|row| (row.key.code, row.figures.limit)),
        Some((701, 201)),
    );
}
