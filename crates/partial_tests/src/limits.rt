//! Posts, debits and announcements on a participant's limit: their arguments, figures at the ends of their ranges,
//! and the checks of a debit in their order.

use crate::images::{MOST, check_beyond, check_on_limit};
use crate::support::{buy, check_over_table, debit, figures, limit, post};
use registers::row::BLANK;

#[test]
fn arguments_of_posts_and_debits(rt: HostRuntime) {
    let opened = [(limit(7, 1_000, 400), Ok(1)), (limit(9_999, 0, 0), Ok(2))];
    let steps = [
        (post(7, 0), Err(5)),
        (post(7, 100_000_000_000_001), Err(5)),
        (post(7, u64::MAX), Err(5)),
        (post(0, 1), Err(5)),
        (post(10_000, 1), Err(5)),
        (post(u16::MAX, 1), Err(5)),
        (post(8, 0), Err(5)),
        (post(8, 1), Err(6)),
        (debit(7, 0), Err(5)),
        (debit(7, 100_000_000_000_001), Err(5)),
        (debit(7, u64::MAX), Err(5)),
        (debit(0, 1), Err(5)),
        (debit(10_000, 1), Err(5)),
        (debit(u16::MAX, 1), Err(5)),
        (debit(8, 0), Err(5)),
        (debit(8, 1), Err(6)),
        (post(9_999, 1), Ok(1)),
        (post(9_999, 100_000_000_000_000), Ok(100_000_000_000_001)),
        (debit(9_999, 100_000_000_000_000), Ok(1)),
        (debit(9_999, 1), Err(21)),
        (debit(7, 600), Err(21)),
        (debit(7, 599), Ok(401)),
    ];
    let left = [(0, figures(401, 400, 401)), (1, figures(1, 0, 1))];
    check_over_table(&rt, &mut [BLANK; 2], &opened, &steps, &left);
}

/// A post raises limit and third alike, so their sum rises by twice the amount.
#[test]
fn a_post_at_the_ends_of_the_range(rt: HostRuntime) {
    let cases = [
        (
            figures(MOST - 2, 0, 0),
            Ok((MOST - 1, figures(MOST - 1, 0, 1))),
        ),
        (figures(MOST - 1, 0, 0), Err(26)),
        (figures(MOST, 0, 0), Err(26)),
        (
            figures(-MOST, MOST, MOST - 1),
            Ok((1 - MOST, figures(1 - MOST, MOST, MOST))),
        ),
        (figures(-MOST, 0, MOST), Err(26)),
        (figures(0, -MOST, 0), Ok((1, figures(1, -MOST, 1)))),
    ];
    check_on_limit(&rt, post(7, 1), &cases);
    check_beyond(&rt, post(7, 1));
}

/// Where several checks of a debit fail, 20 comes before 19, and 19 before 21.
#[test]
fn a_debit_at_the_ends_of_the_range(rt: HostRuntime) {
    let ends = [
        (
            figures(2 - MOST, -MOST, 5),
            Ok((1 - MOST, figures(1 - MOST, -MOST, 4))),
        ),
        (figures(1 - MOST, -MOST, 5), Err(21)),
        (figures(-MOST, -MOST, 5), Err(21)),
        (figures(-MOST, 1 - MOST, 5), Err(19)),
        (figures(-MOST, -MOST, 0), Err(20)),
        (
            figures(MOST - 1, MOST - 3, 1),
            Ok((MOST - 2, figures(MOST - 2, MOST - 3, 0))),
        ),
        (
            figures(0, -MOST, MOST),
            Ok((-1, figures(-1, -MOST, MOST - 1))),
        ),
    ];
    check_on_limit(&rt, debit(7, 1), &ends);
    check_beyond(&rt, debit(7, 1));
    let in_order = [
        (figures(100, 500, 59), Err(20)),
        (figures(500, 500, 59), Err(20)),
        (figures(100, 500, 60), Err(19)),
        (figures(499, 500, 60), Err(19)),
        (figures(500, 500, 60), Err(21)),
        (figures(560, 500, 60), Err(21)),
        (figures(561, 500, 60), Ok((501, figures(501, 500, 0)))),
    ];
    check_on_limit(&rt, debit(7, 60), &in_order);
}

/// A purchase of 10 at 1,000 under a tenth blocks 10. The account's cash and holding, which are out of range, are
/// not looked at.
#[test]
fn an_announcement_at_the_ends_of_the_range(rt: HostRuntime) {
    let cases = [
        (
            figures(MOST, MOST - 10, 0),
            Ok((10, figures(MOST, MOST, 0))),
        ),
        (figures(MOST, MOST - 9, 0), Err(10)),
        (
            figures(10 - MOST, -MOST, MOST),
            Ok((10, figures(10 - MOST, 10 - MOST, MOST))),
        ),
        (figures(9 - MOST, -MOST, MOST), Err(10)),
        (figures(10, 0, 0), Ok((10, figures(10, 10, 0)))),
        (figures(0, -10, 0), Ok((10, figures(0, 0, 0)))),
        (figures(-1, -10, 0), Err(10)),
    ];
    check_on_limit(&rt, buy(1, 701, 10, 1_000), &cases);
    check_beyond(&rt, buy(1, 701, 10, 1_000));
}
