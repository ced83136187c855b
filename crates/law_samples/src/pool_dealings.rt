//! Level Three's lists of calls.

use crate::partial_dealings::{
    admit, debit, open_cash, open_holding, open_limit, order, post, trade, withdraw,
};
use full::call::Call as FullCall;
use full::side::Side;
use partial::call::Call as PartialCall;
use pool::call::Call;
use printing::calls::{SECURITY, announce};

// short names for cases of `Call`, which these lists alone are full of

fn handed(call: PartialCall) -> Call {
    call.into()
}

fn full(call: FullCall) -> Call {
    handed(call.into())
}

fn credit_holding(code: u32, amount: u64) -> Call {
    full(FullCall::Credit {
        code,
        security: SECURITY,
        amount,
    })
}

fn earmark_cash(code: u32) -> Call {
    Call::Earmark { code, security: 0 }
}

fn earmark_holding(code: u32) -> Call {
    Call::Earmark {
        code,
        security: SECURITY,
    }
}

fn deliver(number: u32) -> Call {
    Call::Deliver { number }
}

fn pay(number: u32) -> Call {
    Call::Pay { number }
}

/// Orders and trades in both modes, of which two trades in partial mode leave obligations; a pool in which one of them
/// is settled, of the other the money alone, and a delivery is refused; then dealings with what it returned, a third
/// obligation, a second pool, limits that are posted and debited, and an order that is withdrawn.
pub(crate) fn settlement() -> [Call; 33] {
    [
        handed(admit(1000)),
        handed(open_cash(701, 1000)),
        handed(open_holding(701, 0)),
        handed(open_cash(802, 250)),
        handed(open_holding(802, 13)),
        handed(open_limit(7, 100, 0)),
        handed(open_limit(8, 100, 10)),
        full(announce(Side::Sell, 1, 802, 6, 1500)),
        handed(order(Side::Buy, 2, 701, 10, 1500)),
        handed(order(Side::Sell, 3, 802, 9, 1400)),
        handed(trade(1, 2, 3, 5, 1450)),
        handed(trade(2, 2, 3, 4, 1425)),
        full(announce(Side::Buy, 4, 701, 3, 1600)),
        handed(trade(3, 4, 1, 2, 1550)),
        earmark_holding(802),
        earmark_cash(701),
        deliver(1),
        deliver(2),
        deliver(1),
        pay(2),
        pay(1),
        pay(1),
        Call::Close,
        handed(order(Side::Sell, 5, 802, 1, 1500)),
        handed(trade(4, 2, 5, 1, 1500)),
        credit_holding(802, 2),
        earmark_holding(802),
        deliver(2),
        Call::Close,
        full(announce(Side::Sell, 6, 701, 11, 1500)),
        handed(post(7, 15)),
        handed(debit(8, 50)),
        handed(withdraw(1)),
    ]
}

/// Three accounts sell the same to each other in a circle, in which each waits for another, and it is settled by what
/// one of them holds.
pub(crate) fn circle() -> [Call; 33] {
    [
        handed(admit(1000)),
        handed(open_cash(701, 1200)),
        handed(open_holding(701, 10)),
        handed(open_limit(7, 200, 0)),
        handed(open_cash(801, 0)),
        handed(open_holding(801, 0)),
        handed(open_limit(8, 200, 0)),
        handed(open_cash(901, 0)),
        handed(open_holding(901, 0)),
        handed(open_limit(9, 200, 0)),
        handed(order(Side::Sell, 1, 701, 10, 10_000)),
        handed(order(Side::Buy, 2, 801, 10, 10_000)),
        handed(trade(1, 2, 1, 10, 10_000)),
        handed(order(Side::Sell, 3, 801, 10, 10_000)),
        handed(order(Side::Buy, 4, 901, 10, 10_000)),
        handed(trade(2, 4, 3, 10, 10_000)),
        handed(order(Side::Sell, 5, 901, 10, 10_000)),
        handed(order(Side::Buy, 6, 701, 10, 10_000)),
        handed(trade(3, 6, 5, 10, 10_000)),
        earmark_holding(701),
        earmark_holding(801),
        earmark_cash(701),
        deliver(2),
        deliver(1),
        deliver(1),
        deliver(2),
        pay(1),
        pay(3),
        pay(2),
        pay(2),
        deliver(3),
        pay(1),
        Call::Close,
    ]
}
