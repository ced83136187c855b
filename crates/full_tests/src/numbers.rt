//! The numbers of orders and trades, from 1 to 4,294,967,295.

use crate::support::{
    Expected, SECURITY, admit, buy, cash, check_over_table, holding, sell, trade, withdraw,
};
use registers::row::BLANK;

/// The security, and cash and a holding for a buyer (701) and a seller (802), the cash of both first.
fn beginning() -> [Expected; 5] {
    [
        (admit(SECURITY, 1_000), Ok(1)),
        (cash(701, 1_000), Ok(1)),
        (cash(802, 0), Ok(2)),
        (holding(701, SECURITY, 0), Ok(3)),
        (holding(802, SECURITY, 100), Ok(4)),
    ]
}

#[test]
fn the_first_and_the_last_order_number(rt: HostRuntime) {
    let steps = [
        (sell(0, 802, 1, 50), Err(5)),
        (sell(9, 802, 101, 50), Err(10)),
        (sell(1, 802, 1, 50), Ok(1)),
        (sell(1, 802, 1, 50), Err(8)),
        (withdraw(1), Ok(1)),
        (sell(1, 802, 1, 50), Err(8)),
        (sell(4_294_967_295, 802, 2, 50), Ok(2)),
        (sell(4_294_967_295, 802, 1, 50), Err(8)),
        (sell(4_294_967_294, 802, 1, 50), Err(8)),
        (sell(0, 802, 1, 50), Err(5)),
        (withdraw(4_294_967_295), Ok(2)),
    ];
    check_over_table(&rt, &mut [BLANK; 4], &beginning(), &steps, &[]);
}

#[test]
fn the_first_and_the_last_trade_number(rt: HostRuntime) {
    let steps = [
        (buy(1, 701, 10, 100), Ok(10)),
        (sell(2, 802, 10, 100), Ok(10)),
        (trade(0, 1, 100), Err(5)),
        (trade(9, 11, 100), Err(16)),
        (trade(1, 1, 100), Ok(1)),
        (trade(1, 1, 100), Err(12)),
        (trade(4_294_967_295, 2, 100), Ok(2)),
        (trade(4_294_967_295, 1, 100), Err(12)),
        (trade(4_294_967_294, 1, 100), Err(12)),
        (trade(0, 1, 100), Err(5)),
    ];
    check_over_table(&rt, &mut [BLANK; 4], &beginning(), &steps, &[]);
}
