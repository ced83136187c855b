//! What came of the records of a whole day, told in the places for outcomes.

use crate::support::check;
use day_runs::runs::run_day;
use dayfile::refusal::LineRefusal;
use registers::image;
use registers::image::ImageStore;
use std::process::Abort;

/// A day of 51 bytes: the day of 36 bytes that the tests share, and then the cash of account 701 is credited with 5.
const CREDITED: [u8; 51] = [
    0x4C, 0x52, 0x44, 0, 1, 0, 200, 0x4F, 1, 0, 0, 2, 0xBD, 0, 0, 0, 0, 0, 0, 0, 0, 0, 201, 0, 0,
    0, 0, 0, 0, 0, 0, 0x57, 0, 0, 0, 1, 0x43, 0, 0, 2, 0xBD, 0, 0, 0, 0, 0, 0, 0, 0, 0, 5,
];

/// What stands in a place for an outcome before a day is run.
const BEFORE: Result<i64, LineRefusal> = Ok(-1);

/// Runs a day, and compares what stands in the places for outcomes with what is expected: refusals by
/// their numbers, which the rules give.
fn check_told(
    rt: &impl Abort,
    file: &[u8],
    outcomes: &mut [Result<i64, LineRefusal>],
    expected: &[Result<i64, u8>],
) {
    let mut bytes = [0; 69];
    check(rt, image::format(&mut bytes), Ok(()));
    let _engine = run_day(ImageStore::new(&mut bytes), file, outcomes);
    check(rt, outcomes.len(), expected.len());
    for (place, (outcome, expected)) in outcomes.iter().zip(expected).enumerate() {
        let told = outcome.map_err(|refusal| refusal.number());
        assert_eq!(rt; told, *expected, "place {place}");
    }
}

#[test]
fn outcomes_in_their_places(rt: HostRuntime) {
    let all = [Ok(1), Err(11), Ok(206)];
    check_told(&rt, &CREDITED, &mut [BEFORE; 3], &all);
    // fewer places than records
    check_told(&rt, &CREDITED, &mut [BEFORE; 2], &[Ok(1), Err(11)]);
    // places behind the records
    let behind = [Ok(1), Err(11), Ok(206), Ok(-1), Ok(-1)];
    check_told(&rt, &CREDITED, &mut [BEFORE; 5], &behind);
    // the last record is cut short
    let cut = [Ok(1), Err(11), Ok(-1)];
    check_told(&rt, &CREDITED[..50], &mut [BEFORE; 3], &cut);
    // the header is cut short
    check_told(&rt, &CREDITED[..6], &mut [BEFORE; 2], &[Ok(-1), Ok(-1)]);
}
