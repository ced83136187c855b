//! Legs settled over third figures at the ends of their ranges, and the checks of a leg on figures in their order.

use crate::scenes::{
    MONEY_OWED, OBLIGATION, SECURITIES_OWED, cash_row, check_over_both, given, holding_row, left,
};
use crate::support::{MOST, beyond, deliver, figures, pay};
use partial::obligation::Obligation;
use partial::stage::Stage;
use registers::figures::Figures;
use std::process::Abort;

/// The figures of the debtor's register and of the creditor's.
pub type Pair = (Figures, Figures);

/// The figures before a leg is settled, and those that this leaves; a refusal, by its number, leaves them.
pub type Case = (Pair, Result<Pair, u8>);

/// Settles either leg of the obligation, of 10 each, over each case's figures, and compares the answer and what is left
/// with what is expected.
fn check_passed(rt: &impl Abort, cases: &[Case]) {
    for (before, expected) in cases {
        let (answer, after) = match *expected {
            Ok(after) => (Ok(10), after),
            Err(number) => (Err(number), *before),
        };
        let (money, securities) = match answer {
            Ok(_) => (MONEY_OWED, SECURITIES_OWED),
            Err(_) => (OBLIGATION, OBLIGATION),
        };
        let end = [after.0, after.1];
        let holdings = [holding_row(802, before.0), holding_row(701, before.1)];
        check_over_both(
            rt,
            given(&holdings, &[OBLIGATION]),
            &[(deliver(1), answer)],
            left(&end, &[Some(money)]),
        );
        let cash = [cash_row(701, before.0), cash_row(802, before.1)];
        check_over_both(
            rt,
            given(&cash, &[OBLIGATION]),
            &[(pay(1), answer)],
            left(&end, &[Some(securities)]),
        );
    }
}

#[test]
fn a_creditor_at_the_ends_of_the_range(rt: HostRuntime) {
    let debtor = figures(0, 0, 10);
    let spent = figures(0, 0, 0);
    let cases = [
        // the third by itself
        (
            (debtor, figures(-MOST, 0, MOST - 10)),
            Ok((spent, figures(-MOST, 0, MOST))),
        ),
        ((debtor, figures(-MOST, 0, MOST - 9)), Err(26)),
        ((debtor, figures(-MOST, 0, MOST)), Err(26)),
        // the limit plus the third
        (
            (debtor, figures(5, 0, MOST - 15)),
            Ok((spent, figures(5, 0, MOST - 5))),
        ),
        ((debtor, figures(6, 0, MOST - 15)), Err(26)),
        ((debtor, figures(5, 0, MOST - 14)), Err(26)),
        (
            (debtor, figures(MOST - 10, 0, 0)),
            Ok((spent, figures(MOST - 10, 0, 10))),
        ),
        ((debtor, figures(MOST - 9, 0, 0)), Err(26)),
        ((debtor, figures(MOST, 0, 0)), Err(26)),
        // both at once
        (
            (debtor, figures(0, 0, MOST - 10)),
            Ok((spent, figures(0, 0, MOST))),
        ),
        ((debtor, figures(0, 0, MOST - 9)), Err(26)),
        // what is blocked does not count
        (
            (debtor, figures(0, MOST, 0)),
            Ok((spent, figures(0, MOST, 10))),
        ),
        (
            (debtor, figures(-MOST, -MOST, 0)),
            Ok((spent, figures(-MOST, -MOST, 10))),
        ),
    ];
    check_passed(&rt, &cases);
}

/// The amount is 10: a third of 10 holds it, and one of 9 does not, whatever limit and blocked figure are.
#[test]
fn a_debtor_at_the_amount(rt: HostRuntime) {
    let creditor = figures(0, 0, 0);
    let paid = figures(0, 0, 10);
    let cases = [
        ((figures(0, 0, 10), creditor), Ok((creditor, paid))),
        ((figures(0, 0, 9), creditor), Err(24)),
        ((creditor, creditor), Err(24)),
        ((figures(0, 0, 11), creditor), Ok((figures(0, 0, 1), paid))),
        ((figures(MOST - 9, 0, 9), creditor), Err(24)),
        ((figures(MOST, -MOST, 0), creditor), Err(24)),
        (
            (figures(MOST - 10, MOST, 10), creditor),
            Ok((figures(MOST - 10, MOST, 0), paid)),
        ),
        (
            (figures(-MOST, MOST, 10), creditor),
            Ok((figures(-MOST, MOST, 0), paid)),
        ),
        (
            (figures(0, -MOST, MOST), creditor),
            Ok((figures(0, -MOST, MOST - 10), paid)),
        ),
    ];
    check_passed(&rt, &cases);
}

/// 25 of either register, also where the third is below the amount (24) or the other register would leave its range
/// (26); and 24 before 26.
#[test]
fn checks_of_figures_in_their_order(rt: HostRuntime) {
    let ample = figures(0, 0, 10);
    let short = figures(0, 0, 9);
    let filled = figures(0, 0, MOST);
    for out in beyond() {
        let cases = [
            ((out, figures(0, 0, 0)), Err(25)),
            ((out, filled), Err(25)),
            ((out, out), Err(25)),
            ((ample, out), Err(25)),
            ((short, out), Err(25)),
        ];
        check_passed(&rt, &cases);
    }
    check_passed(
        &rt,
        &[((short, filled), Err(24)), ((ample, filled), Err(26))],
    );
}

/// What account 701 owes itself, as no trade enters it: its third falls and rises.
#[test]
fn one_register_of_both(rt: HostRuntime) {
    let own = Obligation {
        seller: 701,
        ..OBLIGATION
    };
    let settled = Obligation {
        stage: Stage::MoneyOwed,
        ..own
    };
    let cases = [
        (figures(5, 1, 10), Ok(10)),
        (figures(-MOST, 0, MOST), Ok(10)),
        (figures(0, 0, MOST), Ok(10)),
        (figures(MOST - 10, 0, 10), Ok(10)),
        (figures(MOST - 9, 0, 9), Err(24)),
        (figures(MOST - 9, 0, 10), Err(25)),
    ];
    for (before, answer) in cases {
        let stands = match answer {
            Ok(_) => settled,
            Err(_) => own,
        };
        check_over_both(
            &rt,
            given(&[holding_row(701, before)], &[own]),
            &[(deliver(1), answer)],
            left(&[before], &[Some(stands)]),
        );
    }
}

/// Money that no trade enters, up to 2^64 less 1: a third of 10^15 holds none that is above it.
#[test]
fn amounts_at_the_ends_of_64_bits(rt: HostRuntime) {
    let most = figures(0, 0, MOST);
    let zero = figures(0, 0, 0);
    let above = [
        1_000_000_000_000_001,
        9_223_372_036_854_775_807,
        9_223_372_036_854_775_808,
        18_446_744_073_709_551_615,
    ];
    for money in above {
        let owed = Obligation {
            money,
            ..OBLIGATION
        };
        check_over_both(
            &rt,
            given(&[cash_row(701, most), cash_row(802, zero)], &[owed]),
            &[(pay(1), Err(24))],
            left(&[most, zero], &[Some(owed)]),
        );
    }
    let owed = Obligation {
        money: 1_000_000_000_000_000,
        ..OBLIGATION
    };
    let settled = Obligation {
        stage: Stage::SecuritiesOwed,
        ..owed
    };
    check_over_both(
        &rt,
        given(&[cash_row(701, most), cash_row(802, zero)], &[owed]),
        &[(pay(1), Ok(MOST))],
        left(&[zero, most], &[Some(settled)]),
    );
}
