//! Legs that are settled in either order, and the checks before figures are looked at.

use crate::scenes::{
    MONEY_OWED, OBLIGATION, SECURITIES_OWED, cash_row, check_over_both, given, holding_row, left,
};
use crate::support::{beyond, deliver, figures, pay};
use partial::obligation::Obligation;
use registers::row::Row;

/// Cash and holdings of both accounts, with the thirds that settle the obligation.
fn ample() -> [Row; 4] {
    let third = figures(0, 0, 10);
    let zero = figures(0, 0, 0);
    [
        cash_row(701, third),
        cash_row(802, zero),
        holding_row(701, zero),
        holding_row(802, third),
    ]
}

/// After its second leg, and not after its first, an obligation leaves the table; the one beside it stays.
#[test]
fn both_legs_in_either_order(rt: HostRuntime) {
    let other = Obligation {
        number: 2,
        ..OBLIGATION
    };
    let zero = figures(0, 0, 0);
    let third = figures(0, 0, 10);
    let passed = [zero, third, third, zero];
    let stands = [OBLIGATION, other];
    let securities_first = [
        (deliver(1), Ok(10)),
        (deliver(1), Err(23)),
        (deliver(2), Err(24)),
        (pay(1), Ok(10)),
        (deliver(1), Err(22)),
        (pay(1), Err(22)),
    ];
    let money_first = [
        (pay(1), Ok(10)),
        (pay(1), Err(23)),
        (pay(2), Err(24)),
        (deliver(1), Ok(10)),
        (pay(1), Err(22)),
        (deliver(1), Err(22)),
    ];
    let beside = [None, Some(other)];
    let ends = left(&passed, &beside);
    check_over_both(&rt, given(&ample(), &stands), &securities_first, ends);
    check_over_both(&rt, given(&ample(), &stands), &money_first, ends);
}

/// A leg by itself leaves the other one owed.
#[test]
fn one_leg_alone(rt: HostRuntime) {
    let zero = figures(0, 0, 0);
    let third = figures(0, 0, 10);
    check_over_both(
        &rt,
        given(&ample(), &[OBLIGATION]),
        &[(deliver(1), Ok(10))],
        left(&[third, zero, third, zero], &[Some(MONEY_OWED)]),
    );
    check_over_both(
        &rt,
        given(&ample(), &[OBLIGATION]),
        &[(pay(1), Ok(10))],
        left(&[zero, third, zero, third], &[Some(SECURITIES_OWED)]),
    );
}

/// No register is open: 22 and 23 come before 6.
#[test]
fn numbers_and_stages_before_registers(rt: HostRuntime) {
    let unknown = [
        (deliver(0), Err(22)),
        (pay(0), Err(22)),
        (deliver(2), Err(22)),
        (pay(2), Err(22)),
        (deliver(u32::MAX), Err(22)),
        (pay(u32::MAX), Err(22)),
    ];
    check_over_both(&rt, given(&[], &[]), &unknown, left(&[], &[None]));
    let stands = [Some(OBLIGATION)];
    check_over_both(&rt, given(&[], &[OBLIGATION]), &unknown, left(&[], &stands));
    check_over_both(
        &rt,
        given(&[], &[OBLIGATION]),
        &[(deliver(1), Err(6)), (pay(1), Err(6))],
        left(&[], &stands),
    );
    check_over_both(
        &rt,
        given(&[], &[MONEY_OWED]),
        &[(deliver(1), Err(23)), (pay(1), Err(6))],
        left(&[], &[Some(MONEY_OWED)]),
    );
    check_over_both(
        &rt,
        given(&[], &[SECURITIES_OWED]),
        &[(deliver(1), Err(6)), (pay(1), Err(23))],
        left(&[], &[Some(SECURITIES_OWED)]),
    );
}

/// The greatest number is a number as any other.
#[test]
fn the_greatest_number(rt: HostRuntime) {
    let last = Obligation {
        number: u32::MAX,
        ..MONEY_OWED
    };
    check_over_both(
        &rt,
        given(&ample(), &[last]),
        &[(deliver(u32::MAX), Err(23)), (pay(u32::MAX), Ok(10))],
        left(&[figures(0, 0, 0), figures(0, 0, 10)], &[None]),
    );
}

/// Both registers have to be open, of the leg's own asset; 6 comes before 25 of the other one.
#[test]
fn either_register_alone(rt: HostRuntime) {
    let third = figures(0, 0, 10);
    let [out, ..] = beyond();
    let refused = [(deliver(1), Err(6)), (pay(1), Err(6))];
    for before in [third, out] {
        let alone = [
            [holding_row(802, before), cash_row(701, before)],
            [holding_row(701, before), cash_row(802, before)],
            [holding_row(802, before), cash_row(802, before)],
            [holding_row(903, before), cash_row(903, before)],
        ];
        for rows in alone {
            check_over_both(
                &rt,
                given(&rows, &[OBLIGATION]),
                &refused,
                left(&[before, before], &[Some(OBLIGATION)]),
            );
        }
    }
}

/// Where an image has two rows of one key, the one at the lower place is the register.
#[test]
fn two_rows_of_one_key(rt: HostRuntime) {
    let zero = figures(0, 0, 0);
    let third = figures(0, 0, 10);
    let twice = [
        holding_row(701, zero),
        holding_row(802, third),
        holding_row(802, third),
        holding_row(701, zero),
        cash_row(701, zero),
        cash_row(802, zero),
        cash_row(701, third),
    ];
    check_over_both(
        &rt,
        given(&twice, &[OBLIGATION]),
        &[(deliver(1), Ok(10)), (pay(1), Err(24))],
        left(
            &[third, zero, third, zero, zero, zero, third],
            &[Some(MONEY_OWED)],
        ),
    );
}
