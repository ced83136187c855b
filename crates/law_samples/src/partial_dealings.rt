//! Level Two's lists of calls.

use full::announcement::Announcement;
use full::call::Call as FullCall;
use full::deal::Deal;
use full::mode::Mode;
use full::opening::Opening;
use full::side::Side;
use partial::call::Call;
use printing::calls::{SECURITY, announce, open};
use registers::kind::RegisterKind;

// short names for cases of `Call`, which these lists and Level Three's alone are full of

pub(crate) fn admit(ratio: u16) -> Call {
    FullCall::Admit {
        security: SECURITY,
        ratio,
    }
    .into()
}

pub(crate) fn open_cash(account: u32, limit: u64) -> Call {
    open(RegisterKind::Cash, account, 0, limit).into()
}

pub(crate) fn open_holding(account: u32, limit: u64) -> Call {
    open(RegisterKind::Holding, account, SECURITY, limit).into()
}

pub(crate) fn open_limit(participant: u32, limit: u64, margin: u64) -> Call {
    let opening = Opening {
        kind: RegisterKind::Participant as u8,
        code: participant,
        security: 0,
        limit,
        margin,
    };
    FullCall::Open(opening).into()
}

/// The announcement of an order in security 5 in partial mode.
pub(crate) fn order(side: Side, number: u32, account: u32, quantity: u32, price: u32) -> Call {
    let announcement = Announcement {
        side,
        mode: Mode::Partial as u8,
        number,
        account,
        security: SECURITY,
        quantity,
        price,
    };
    FullCall::Announce(announcement).into()
}

pub(crate) fn withdraw(number: u32) -> Call {
    FullCall::Withdraw { number }.into()
}

pub(crate) fn trade(number: u32, buy: u32, sell: u32, quantity: u32, price: u32) -> Call {
    let deal = Deal {
        number,
        buy,
        sell,
        quantity,
        price,
    };
    FullCall::Trade(deal).into()
}

pub(crate) fn post(participant: u16, amount: u64) -> Call {
    Call::Post {
        participant,
        amount,
    }
}

pub(crate) fn debit(participant: u16, amount: u64) -> Call {
    Call::Debit {
        participant,
        amount,
    }
}

/// Cash, holdings and limits of two participants, one with a margin; orders and trades in both modes, which round
/// up and down; a withdrawal, and amounts posted and debited; and calls that are refused.
pub(crate) fn both_modes() -> [Call; 25] {
    [
        admit(1500),
        open_cash(701, 1000),
        open_holding(701, 0),
        open_cash(802, 0),
        open_holding(802, 100),
        open_limit(7, 50, 0),
        open_limit(8, 40, 6),
        open_limit(8, 40, 6),
        order(Side::Buy, 1, 701, 10, 1050),
        order(Side::Sell, 2, 802, 6, 900),
        trade(1, 1, 2, 4, 963),
        trade(2, 1, 2, 3, 963),
        announce(Side::Buy, 3, 701, 5, 125).into(),
        announce(Side::Sell, 4, 802, 50, 110).into(),
        trade(2, 3, 4, 2, 120),
        trade(3, 1, 4, 1, 1000),
        order(Side::Buy, 5, 701, 40, 1050),
        withdraw(1),
        post(7, 100),
        order(Side::Buy, 5, 701, 4, 2950),
        debit(8, 25),
        debit(8, 24),
        trade(3, 5, 2, 1, 2900),
        debit(8, 1),
        post(9, 10),
    ]
}

/// Two accounts of one participant, which trade with each other in partial mode: both orders block on one limit,
/// and a trade that leaves a rest of both counts twice there.
pub(crate) fn one_participant() -> [Call; 16] {
    [
        admit(1000),
        open_cash(701, 0),
        open_holding(701, 0),
        open_cash(702, 0),
        open_holding(702, 0),
        open_limit(7, 20, 5),
        order(Side::Buy, 1, 701, 2, 1450),
        order(Side::Sell, 2, 702, 2, 1350),
        trade(1, 1, 2, 1, 1400),
        trade(2, 1, 2, 1, 1450),
        order(Side::Buy, 3, 701, 2, 500),
        order(Side::Sell, 4, 701, 2, 500),
        trade(3, 3, 4, 1, 500),
        order(Side::Buy, 5, 702, 3, 1500),
        trade(3, 5, 4, 1, 500),
        withdraw(3),
    ]
}
