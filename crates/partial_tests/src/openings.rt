//! Openings of participants' limits.

use crate::support::{
    SECURITY, admit, announce, buy, cash, check_over_table, debit, figures, holding, limit, open,
    opened, opening, order, post, sell,
};
use full::announcement::Announcement;
use full::mode::Mode;
use full::opening::Opening;
use full::side::Side;
use registers::kind::RegisterKind;
use registers::row::BLANK;

#[test]
fn openings_at_the_ends_of_their_ranges(rt: HostRuntime) {
    let secured = opening(RegisterKind::Participant, 7, SECURITY, 0);
    let other_kind = Opening {
        kind: 4,
        code: 701,
        security: 0,
        ..secured
    };
    let steps = [
        (open(secured), Err(5)),
        (open(other_kind), Err(5)),
        (limit(0, 0, 0), Err(5)),
        (limit(10_000, 0, 0), Err(5)),
        (limit(7, 100_000_000_000_001, 0), Err(5)),
        (limit(7, 0, 100_000_000_000_001), Err(5)),
        (limit(7, 0, u64::MAX), Err(5)),
        (limit(1, 0, 0), Ok(1)),
        (
            limit(9_999, 100_000_000_000_000, 100_000_000_000_000),
            Ok(2),
        ),
        // an account's code may be a participant's number: the kinds differ
        (cash(9_999, 0), Ok(3)),
        (limit(1, 5, 5), Err(1)),
        (open(Opening { code: 1, ..secured }), Err(5)),
        (limit(7, 0, 0), Err(2)),
        (limit(9_999, 0, 0), Err(1)),
    ];
    let left = [
        (0, figures(0, 0, 0)),
        (
            1,
            figures(
                100_000_000_000_000,
                100_000_000_000_000,
                100_000_000_000_000,
            ),
        ),
    ];
    check_over_table(&rt, &mut [BLANK; 3], &[], &steps, &left);
}

/// A margin may be above the limit: the participant then has to post before it can do anything else.
#[test]
fn a_margin_above_the_limit(rt: HostRuntime) {
    let opened = [
        (admit(SECURITY, 1_000), Ok(1)),
        (cash(701, 0), Ok(1)),
        (holding(701, 0), Ok(2)),
        (limit(7, 1_000, 5_000), Ok(3)),
    ];
    let steps = [
        // 1 at 49 under a tenth blocks 0, and the raised figure is above the limit all the same
        (buy(1, 701, 1, 49), Err(10)),
        (debit(7, 1), Err(19)),
        (debit(7, 1_000), Err(19)),
        (debit(7, 1_001), Err(20)),
        (post(7, 4_000), Ok(5_000)),
        (buy(1, 701, 1, 49), Ok(0)),
        (sell(2, 701, 1, 1_000), Err(10)),
        (debit(7, 1), Err(21)),
        (post(7, 1), Ok(5_001)),
        (debit(7, 1), Err(21)),
        (post(7, 1), Ok(5_002)),
        (debit(7, 1), Ok(5_001)),
        (sell(2, 701, 1, 1_000), Ok(1)),
    ];
    let left = [(2, figures(5_001, 5_001, 5_001))];
    check_over_table(&rt, &mut [BLANK; 3], &opened, &steps, &left);
}

/// Cash, holding and limit have to be open, and the reserve is not kept on a limit.
#[test]
fn announcements_that_are_refused(rt: HostRuntime) {
    let good = order(Mode::Partial, Side::Buy, 1, 701, 1, 10_000_000);
    let other = Announcement {
        security: 6,
        ..good
    };
    let steps = [
        (announce(Announcement { mode: 0, ..good }), Err(5)),
        (announce(Announcement { mode: 3, ..good }), Err(5)),
        (buy(0, 701, 1, 50), Err(5)),
        (announce(other), Err(7)),
        (buy(1, 703, 1, 50), Err(6)),
        (cash(703, 0), Ok(7)),
        (buy(1, 703, 1, 50), Err(6)),
        (holding(703, 0), Ok(8)),
        (buy(1, 703, 1, 50), Ok(0)),
        (cash(903, 0), Ok(9)),
        (holding(903, 0), Ok(10)),
        (sell(2, 903, 1, 50), Err(6)),
        (buy(2, 701, 1, 1_000_500), Err(10)),
        (buy(2, 701, 1, 1_000_499), Ok(1_000)),
    ];
    let left = [(4, figures(1_000, 1_000, 1_000))];
    check_over_table(&rt, &mut [BLANK; 10], &opened(802), &steps, &left);
}
