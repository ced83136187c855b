//! Level Two's calls, in short.

use full::announcement::Announcement;
use full::call::Call as FullCall;
use full::deal::Deal;
use full::mode::Mode;
use full::opening::Opening;
use full::side::Side;
use partial::call::Call;
use printing::calls::{SECURITY, open};
use registers::kind::RegisterKind;

// short names for cases of `Call`, which the lists of Level Two and of Level Three are full of

pub fn admit(security: u16, ratio: u16) -> Call {
    FullCall::Admit { security, ratio }.into()
}

pub fn open_cash(account: u32, limit: u64) -> Call {
    open(RegisterKind::Cash, account, 0, limit).into()
}

pub fn open_holding(account: u32, limit: u64) -> Call {
    open(RegisterKind::Holding, account, SECURITY, limit).into()
}

pub fn open_limit(participant: u32, limit: u64, margin: u64) -> Call {
    let opening = Opening {
        kind: RegisterKind::Participant as u8,
        code: participant,
        security: 0,
        limit,
        margin,
    };
    FullCall::Open(opening).into()
}

/// The announcement of an order in security 5 in partial mode.
pub fn order(side: Side, number: u32, account: u32, quantity: u32, price: u32) -> Call {
    let announcement = Announcement {
        side,
        mode: Mode::Partial as u8,
        number,
        account,
        security: SECURITY,
        quantity,
        price,
    };
    FullCall::Announce(announcement).into()
}

pub fn withdraw(number: u32) -> Call {
    FullCall::Withdraw { number }.into()
}

pub fn trade(number: u32, buy: u32, sell: u32, quantity: u32, price: u32) -> Call {
    let deal = Deal {
        number,
        buy,
        sell,
        quantity,
        price,
    };
    FullCall::Trade(deal).into()
}

pub fn credit(code: u32, security: u16, amount: u64) -> Call {
    FullCall::Credit {
        code,
        security,
        amount,
    }
    .into()
}

pub fn post(participant: u16, amount: u64) -> Call {
    Call::Post {
        participant,
        amount,
    }
}

pub fn debit(participant: u16, amount: u64) -> Call {
    Call::Debit {
        participant,
        amount,
    }
}
