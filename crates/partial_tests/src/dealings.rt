//! Whole dealings: one participant's two accounts, numbers that both modes share, and ratios.

use crate::support::{
    SECURITY, SETTINGS, admit, announce, buy, cash, check, check_over_table, check_rows, credit,
    figures, holding, limit, make, open, opened, opening, order, sell, trade, withdraw,
};
use full::announcement::Announcement;
use full::mode::Mode;
use full::securities::Securities;
use full::security::Security;
use full::side::Side;
use partial::engine::Engine;
use partial::obligation::Obligation;
use partial::stage::Stage;
use registers::kind::RegisterKind;
use registers::ranges::Ratio;
use registers::row::BLANK;
use registers::table::RowStore;

/// A purchase of 2 at 1,500 blocks 3, and each of its halves releases 2 (1.5, rounded). The sale blocks 2, and each
/// half releases 1. A trade of 1 charges each account 1, at 1,200 (1.2) as at 1,250 (1.25).
#[test]
fn two_accounts_of_one_participant(rt: HostRuntime) {
    let mut table = [BLANK; 6];
    let mut engine = Engine::new(RowStore::new(&mut table), SETTINGS);
    make(&rt, &mut engine, &opened(702));
    let orders = [
        (buy(1, 701, 2, 1_500), Ok(3)),
        (sell(2, 702, 2, 1_000), Ok(2)),
    ];
    make(&rt, &mut engine, &orders);
    check_rows(
        &rt,
        &mut engine.full.store,
        &[(4, figures(1_000, 5, 1_000))],
    );
    make(&rt, &mut engine, &[(trade(1, 1, 2, 1, 1_200), Ok(12))]);
    check_rows(&rt, &mut engine.full.store, &[(4, figures(998, 2, 1_000))]);
    make(&rt, &mut engine, &[(trade(3, 1, 2, 1, 1_250), Ok(13))]);
    make(
        &rt,
        &mut engine,
        &[(withdraw(1), Err(11)), (withdraw(2), Err(11))],
    );
    let first = Obligation {
        number: 1,
        seller: 702,
        buyer: 701,
        security: SECURITY,
        quantity: 1,
        money: 12,
        stage: Stage::BothOwed,
    };
    let second = Obligation {
        number: 3,
        money: 13,
        ..first
    };
    check(&rt, engine.obligations.table[0], Some(first));
    check(&rt, engine.obligations.table[1], Some(second));
    check(&rt, engine.obligations.place_of(3), Some(1));
    check(&rt, engine.obligations.place_of(2), None);
    let mut store = engine.into_store();
    let left = [
        (0, figures(10_000, 0, 0)),
        (1, figures(0, 0, 0)),
        (2, figures(0, 0, 0)),
        (3, figures(100, 0, 0)),
        (4, figures(996, -1, 1_000)),
        (5, figures(1_000, 0, 1_000)),
    ];
    check_rows(&rt, &mut store, &left);
}

/// A withdrawal releases the risk of the rest, rounded by itself: of 2 at 1,500, which block 3, one is traded, which
/// releases 2, and the other releases 2.
#[test]
fn a_withdrawal_releases_the_rest(rt: HostRuntime) {
    let steps = [
        (buy(1, 701, 2, 1_500), Ok(3)),
        (sell(2, 802, 1, 1_000), Ok(1)),
        (trade(1, 1, 2, 1, 1_500), Ok(15)),
        (withdraw(1), Ok(2)),
        (withdraw(1), Err(11)),
        (withdraw(2), Err(11)),
        (sell(3, 802, 3, 1_500), Ok(5)),
        (withdraw(3), Ok(5)),
    ];
    let left = [
        (3, figures(100, 0, 0)),
        (4, figures(998, -1, 1_000)),
        (5, figures(998, 0, 1_000)),
    ];
    check_over_table(&rt, &mut [BLANK; 6], &opened(802), &steps, &left);
}

/// Orders of both modes are numbered together, trades too, and an order trades with its own mode alone. A credit is
/// of an account, and not of a participant's limit.
#[test]
fn numbers_of_both_modes(rt: HostRuntime) {
    let full_buy = order(Mode::Full, Side::Buy, 1, 701, 1, 1_000);
    let full_sell = order(Mode::Full, Side::Sell, 2, 802, 1, 1_000);
    let steps = [
        (announce(full_buy), Ok(10)),
        (buy(1, 701, 1, 1_000), Err(8)),
        (sell(2, 802, 1, 1_000), Ok(1)),
        (announce(full_sell), Err(8)),
        (
            announce(Announcement {
                number: 3,
                ..full_sell
            }),
            Ok(1),
        ),
        (buy(4, 701, 2, 1_000), Ok(2)),
        (trade(1, 1, 2, 1, 1_000), Err(14)),
        (trade(1, 4, 3, 1, 1_000), Err(14)),
        (trade(1, 1, 3, 1, 1_000), Ok(10)),
        (trade(1, 4, 2, 1, 1_000), Err(12)),
        (trade(2, 4, 2, 1, 1_000), Ok(10)),
        (
            announce(Announcement {
                number: 4,
                ..full_buy
            }),
            Err(8),
        ),
        (
            announce(Announcement {
                number: 5,
                ..full_buy
            }),
            Ok(10),
        ),
        (
            announce(Announcement {
                number: 6,
                ..full_sell
            }),
            Ok(1),
        ),
        (trade(2, 5, 6, 1, 1_000), Err(12)),
        (trade(3, 5, 6, 1, 1_000), Ok(10)),
        (withdraw(4), Ok(1)),
        (credit(7, 0, 1), Err(5)),
        (credit(802, 0, 80), Ok(100)),
    ];
    let left = [
        (0, figures(9_980, 0, 0)),
        (1, figures(2, 0, 0)),
        (2, figures(100, 0, 0)),
        (3, figures(98, 0, 0)),
        (4, figures(999, 0, 1_000)),
        (5, figures(999, 0, 1_000)),
    ];
    check_over_table(&rt, &mut [BLANK; 6], &opened(802), &steps, &left);
}

/// A security keeps the ratio under which it was admitted. Under the greatest, the risk is the money; under the
/// least, 1 at 499,999 has the risk 0, and at 500,000 the risk 1.
#[test]
fn ratios_at_the_ends_of_their_range(rt: HostRuntime) {
    let whole = Announcement {
        security: 6,
        ..order(Mode::Partial, Side::Buy, 3, 701, 1_000_000, 100_000_000)
    };
    let sale = Announcement {
        side: Side::Sell,
        number: 4,
        account: 702,
        ..whole
    };
    let steps = [
        (admit(SECURITY, 1), Ok(1)),
        (admit(SECURITY, 10_000), Err(3)),
        (admit(6, 10_000), Ok(2)),
        (limit(7, 100_000_000_000_000, 0), Ok(1)),
        (cash(701, 0), Ok(2)),
        (holding(701, 0), Ok(3)),
        (open(opening(RegisterKind::Holding, 701, 6, 0)), Ok(4)),
        (cash(702, 0), Ok(5)),
        (open(opening(RegisterKind::Holding, 702, 6, 0)), Ok(6)),
        (buy(1, 701, 1, 499_999), Ok(0)),
        (buy(2, 701, 1, 500_000), Ok(1)),
        (announce(whole), Ok(1_000_000_000_000)),
        (announce(sale), Ok(1_000_000_000_000)),
        (
            trade(1, 3, 4, 1_000_000, 100_000_000),
            Ok(1_000_000_000_000),
        ),
    ];
    let left = [(0, figures(98_000_000_000_000, 1, 100_000_000_000_000))];
    check_over_table(&rt, &mut [BLANK; 6], &[], &steps, &left);
}

/// Leaves no security admitted.
fn forget(securities: &mut Securities) {
    *securities = Securities::new();
}

/// A trade charges under the ratio in force, and releases under each order's own. Where the security is not admitted,
/// the buy order's is in force.
#[test]
fn a_ratio_that_changes(rt: HostRuntime) {
    let mut table = [BLANK; 6];
    let mut engine = Engine::new(RowStore::new(&mut table), SETTINGS);
    make(&rt, &mut engine, &opened(802));
    let steps = [
        (buy(1, 701, 30, 1_000), Ok(30)),
        (sell(2, 802, 30, 1_000), Ok(30)),
        (trade(1, 1, 2, 10, 1_000), Ok(100)),
    ];
    make(&rt, &mut engine, &steps);
    check_rows(&rt, &mut engine.full.store, &[(4, figures(990, 20, 1_000))]);
    // no call changes a ratio, or takes a security back
    let fifth = Security {
        number: SECURITY,
        ratio: Ratio { value: 2_000 },
    };
    forget(&mut engine.full.securities);
    check(&rt, engine.full.securities.add(fifth), Ok(()));
    make(&rt, &mut engine, &[(trade(2, 1, 2, 10, 1_000), Ok(100))]);
    check_rows(&rt, &mut engine.full.store, &[(4, figures(970, 10, 1_000))]);
    forget(&mut engine.full.securities);
    make(&rt, &mut engine, &[(trade(3, 1, 2, 10, 1_000), Ok(100))]);
    let left = [(4, figures(960, 0, 1_000)), (5, figures(960, 0, 1_000))];
    check_rows(&rt, &mut engine.full.store, &left);
}
