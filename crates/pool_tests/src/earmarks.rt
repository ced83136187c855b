//! What is earmarked: of what is owed and of what is free the smaller, and the checks in their order.

use crate::scenes::{
    Before, MONEY_OWED, OBLIGATION, SECURITIES_OWED, cash_row, check_over_both, given, holding_row,
    left,
};
use crate::support::{MOST, SETTINGS, beyond, earmark, figures};
use full::keys::holding_key;
use full::settings::Settings;
use partial::obligation::Obligation;
use registers::figures::Figures;
use registers::row::Row;
use std::process::Abort;

/// Account 701 owes 1,000 kopecks, and account 802 owes 10 of the security.
const OWED: Obligation = Obligation {
    money: 1_000,
    ..OBLIGATION
};

/// Figures of a register, and what an earmark should answer over them and leave; a refusal, by its number, leaves
/// them.
pub type Case = (Figures, Result<(i64, Figures), u8>);

/// Earmarks on a register of each case's figures, where obligations stand, and compares the answer and what is left
/// with what is expected.
fn check_earmark(
    rt: &impl Abort,
    settings: Settings,
    register: (Row, u16),
    owed: &[Obligation],
    cases: &[Case],
) {
    let (row, security) = register;
    for (before, expected) in cases {
        let (answer, after) = match *expected {
            Ok((answer, after)) => (Ok(answer), after),
            Err(number) => (Err(number), *before),
        };
        let rows = [Row {
            figures: *before,
            ..row
        }];
        check_over_both(
            rt,
            Before {
                settings,
                rows: &rows,
                owed,
            },
            &[(earmark(row.key.code, security), answer)],
            left(&[after], &[]),
        );
    }
}

/// Cash of account 701, which names it as security 0.
fn cash() -> (Row, u16) {
    (cash_row(701, figures(0, 0, 0)), 0)
}

/// The holding of account 802.
fn holding() -> (Row, u16) {
    (holding_row(802, figures(0, 0, 0)), 5)
}

/// Where nothing moves, and the answer is 0.
fn nothing(limit: i64, blocked: i64, third: i64) -> Case {
    let before = figures(limit, blocked, third);
    (before, Ok((0, before)))
}

/// 1,000 are owed, and 200 are the reserve.
#[test]
fn the_smaller_of_need_and_free(rt: HostRuntime) {
    let cases = [
        // need above free
        (figures(700, 0, 0), Ok((500, figures(200, 0, 500)))),
        (figures(201, 0, 0), Ok((1, figures(200, 0, 1)))),
        (figures(1_199, 0, 0), Ok((999, figures(200, 0, 999)))),
        (figures(1_500, 400, 0), Ok((900, figures(600, 400, 900)))),
        (figures(200, -5, 0), Ok((5, figures(195, -5, 5)))),
        (figures(-1, -300, 3), Ok((99, figures(-100, -300, 102)))),
        // equal
        (figures(1_200, 0, 0), Ok((1_000, figures(200, 0, 1_000)))),
        (figures(800, 0, 400), Ok((600, figures(200, 0, 1_000)))),
        // free above need
        (figures(1_201, 0, 0), Ok((1_000, figures(201, 0, 1_000)))),
        (figures(5_000, 0, 400), Ok((600, figures(4_400, 0, 1_000)))),
        (figures(5_000, 0, 999), Ok((1, figures(4_999, 0, 1_000)))),
    ];
    check_earmark(&rt, SETTINGS, cash(), &[OWED], &cases);
}

/// Limit less blocked less the reserve is 0 or below, or the third has reached what is owed.
#[test]
fn nothing_free_or_nothing_needed(rt: HostRuntime) {
    let cases = [
        nothing(200, 0, 0),
        nothing(199, 0, 0),
        nothing(0, 0, 0),
        nothing(-1, 0, 0),
        nothing(500, 300, 0),
        nothing(500, 301, 0),
        nothing(500, MOST, 0),
        nothing(-MOST, MOST, 0),
        nothing(5_000, 0, 1_000),
        nothing(5_000, 0, 1_001),
        nothing(0, -MOST, MOST),
        nothing(-MOST, MOST, MOST),
    ];
    check_earmark(&rt, SETTINGS, cash(), &[OWED], &cases);
    let unneeded = [
        nothing(5_000, 0, 0),
        nothing(5_000, 0, 7),
        nothing(MOST, -MOST, 0),
        nothing(0, 0, 0),
    ];
    check_earmark(&rt, SETTINGS, cash(), &[], &unneeded);
    check_earmark(&rt, SETTINGS, holding(), &[], &unneeded);
}

/// The reserve is left on cash, whatever it is, and not on a holding, of which 10 are owed.
#[test]
fn the_reserve_is_left_on_cash(rt: HostRuntime) {
    let none = [
        (figures(1_000, 0, 0), Ok((1_000, figures(0, 0, 1_000)))),
        (figures(1, 0, 0), Ok((1, figures(0, 0, 1)))),
        nothing(0, 0, 0),
    ];
    check_earmark(&rt, Settings { reserve: 0 }, cash(), &[OWED], &none);
    let most = [
        nothing(65_535, 0, 0),
        (figures(65_536, 0, 0), Ok((1, figures(65_535, 0, 1)))),
    ];
    check_earmark(&rt, Settings { reserve: 65_535 }, cash(), &[OWED], &most);
    let pieces = [
        (figures(10, 0, 0), Ok((10, figures(0, 0, 10)))),
        (figures(9, 0, 0), Ok((9, figures(0, 0, 9)))),
        (figures(10, 4, 2), Ok((6, figures(4, 4, 8)))),
        (figures(10, 9, 0), Ok((1, figures(9, 9, 1)))),
        nothing(10, 10, 0),
        nothing(10, 11, 0),
        nothing(200, 0, 10),
    ];
    check_earmark(&rt, SETTINGS, holding(), &[OWED], &pieces);
}

/// Securities limit 10, blocked 4, need 8: 6 are earmarked, then 0.
#[test]
fn an_earmark_and_another(rt: HostRuntime) {
    let eight = Obligation {
        quantity: 8,
        ..OBLIGATION
    };
    check_over_both(
        &rt,
        given(&[holding_row(802, figures(10, 4, 0))], &[eight]),
        &[(earmark(802, 5), Ok(6)), (earmark(802, 5), Ok(0))],
        left(&[figures(4, 4, 6)], &[Some(eight)]),
    );
}

/// An obligation of this money is one that no trade enters, and the blocked figure one that an image may hold.
fn owing(money: u64) -> [Obligation; 1] {
    [Obligation {
        money,
        ..OBLIGATION
    }]
}

/// Figures out of range are refused with 25, also where nothing is owed. An earmark takes figures out of range only
/// where more than 10^15 is owed and the blocked figure is far below zero.
#[test]
fn figures_at_the_ends_of_the_range(rt: HostRuntime) {
    for out in beyond() {
        let refused = [(out, Err(25))];
        check_earmark(&rt, SETTINGS, cash(), &[OWED], &refused);
        check_earmark(&rt, SETTINGS, cash(), &owing(u64::MAX), &refused);
        check_earmark(&rt, SETTINGS, holding(), &[], &refused);
    }
    let reached = [
        (figures(MOST, -MOST, 0), Ok((MOST, figures(0, -MOST, MOST)))),
        (
            figures(MOST - 1, -MOST, 1),
            Ok((MOST - 1, figures(0, -MOST, MOST))),
        ),
        (
            figures(MOST, 0, 0),
            Ok((MOST - 200, figures(200, 0, MOST - 200))),
        ),
        (
            figures(0, -MOST, 0),
            Ok((MOST - 200, figures(200 - MOST, -MOST, MOST - 200))),
        ),
    ];
    check_earmark(
        &rt,
        SETTINGS,
        cash(),
        &owing(1_000_000_000_000_000),
        &reached,
    );
    let passed = [
        (figures(MOST, -MOST, 0), Err(26)),
        (figures(MOST - 1, -MOST, 1), Err(26)),
        (
            figures(200, -MOST, 0),
            Ok((MOST, figures(200 - MOST, -MOST, MOST))),
        ),
        (figures(201, -MOST, 0), Err(26)),
        nothing(-MOST, 0, MOST),
    ];
    check_earmark(
        &rt,
        SETTINGS,
        cash(),
        &owing(1_000_000_000_000_001),
        &passed,
    );
    check_earmark(&rt, SETTINGS, cash(), &owing(u64::MAX), &passed);
}

/// 5 comes before 6, and codes and securities at the ends of their ranges are looked for.
#[test]
fn arguments_of_earmarks(rt: HostRuntime) {
    let refused = [
        (earmark(0, 0), Err(5)),
        (earmark(99, 0), Err(5)),
        (earmark(1_000_000, 0), Err(5)),
        (earmark(u32::MAX, 0), Err(5)),
        (earmark(99, 5), Err(5)),
        (earmark(701, 10_000), Err(5)),
        (earmark(701, u16::MAX), Err(5)),
        (earmark(100, 0), Err(6)),
        (earmark(999_999, 0), Err(6)),
        (earmark(701, 1), Err(6)),
        (earmark(701, 9_999), Err(6)),
    ];
    check_over_both(&rt, given(&[], &[OWED]), &refused, left(&[], &[Some(OWED)]));
    let [out, ..] = beyond();
    let rows = [
        cash_row(701, figures(700, 0, 0)),
        holding_row(802, figures(4, 0, 0)),
        cash_row(999_999, out),
    ];
    let open = [
        (earmark(701, 5), Err(6)),
        (earmark(802, 0), Err(6)),
        (earmark(802, 6), Err(6)),
        (earmark(701, 10_000), Err(5)),
        (earmark(999_999, 0), Err(25)),
        (earmark(999_999, 5), Err(6)),
        (earmark(701, 0), Ok(500)),
        (earmark(802, 5), Ok(4)),
    ];
    check_over_both(
        &rt,
        given(&rows, &[OWED]),
        &open,
        left(
            &[figures(200, 0, 500), figures(0, 0, 4), out],
            &[Some(OWED)],
        ),
    );
}

/// Where an image has two rows of one key, the one at the lower place is the register.
#[test]
fn the_first_of_two_rows(rt: HostRuntime) {
    let rows = [
        cash_row(701, figures(700, 0, 0)),
        cash_row(701, figures(900, 0, 0)),
    ];
    check_over_both(
        &rt,
        given(&rows, &[OWED]),
        &[(earmark(701, 0), Ok(500)), (earmark(701, 0), Ok(0))],
        left(&[figures(200, 0, 500), figures(900, 0, 0)], &[]),
    );
}

/// An obligation of another number, over a quantity and money.
fn obligation(number: u32, quantity: u32, money: u64, legs: Obligation) -> Obligation {
    Obligation {
        number,
        quantity,
        money,
        ..legs
    }
}

/// Obligations of three accounts: each figure is a power of 2, so a sum tells which are in it.
fn several() -> [Obligation; 6] {
    let reversed = Obligation {
        seller: 701,
        buyer: 802,
        ..OBLIGATION
    };
    let of_another = Obligation {
        security: 6,
        ..OBLIGATION
    };
    let third_seller = Obligation {
        seller: 702,
        ..OBLIGATION
    };
    [
        obligation(1, 1, 64, OBLIGATION),
        obligation(2, 2, 128, reversed),
        obligation(3, 4, 256, of_another),
        obligation(4, 8, 512, MONEY_OWED),
        obligation(5, 16, 1_024, SECURITIES_OWED),
        obligation(6, 32, 2_048, third_seller),
    ]
}

/// Account 701 buys in all but the second, where it sells: it owes the money of the first, third, fourth and sixth, and
/// 2 of security 5. Account 802 owes the first's and the fifth's pieces of security 5, the third's of security 6, and
/// the second's money. Account 702 owes the sixth's pieces.
#[test]
fn own_debts_alone(rt: HostRuntime) {
    let before = figures(10_000, 0, 0);
    let sixth = Row {
        key: holding_key(802, 6),
        figures: before,
    };
    let rows = [
        cash_row(701, before),
        holding_row(701, before),
        cash_row(802, before),
        holding_row(802, before),
        sixth,
        cash_row(702, before),
        holding_row(702, before),
    ];
    let steps = [
        (earmark(701, 0), Ok(2_880)),
        (earmark(701, 5), Ok(2)),
        (earmark(802, 0), Ok(128)),
        (earmark(802, 5), Ok(17)),
        (earmark(802, 6), Ok(4)),
        (earmark(702, 0), Ok(0)),
        (earmark(702, 5), Ok(32)),
        (earmark(701, 0), Ok(0)),
        (earmark(802, 5), Ok(0)),
    ];
    let after = [
        figures(7_120, 0, 2_880),
        figures(9_998, 0, 2),
        figures(9_872, 0, 128),
        figures(9_983, 0, 17),
        figures(9_996, 0, 4),
        before,
        figures(9_968, 0, 32),
    ];
    check_over_both(&rt, given(&rows, &several()), &steps, left(&after, &[]));
}
