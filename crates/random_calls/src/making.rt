//! Draws of calls.

use crate::codes::{account, amount, limit, participant, security};
use crate::draws::Draws;
use crate::legs::{delivery, earmark, payment};
use crate::market::Market;
use crate::orders::{announcement, trade, withdrawal};
use crate::shape::Shape;
use crate::wish::Wish;
use full::call::Call as FullCall;
use full::opening::Opening;
use partial::call::Call as PartialCall;
use pool::call::Call;
use registers::kind::RegisterKind;

fn admission(draws: &mut Draws, shape: &Shape) -> FullCall {
    let security = security(draws, shape);
    let ratio = match draws.below(64) {
        0 => 0,
        1 => 10_001,
        _ => u16::try_from(draws.up_to(10_000)).unwrap_or(1),
    };
    FullCall::Admit { security, ratio }
}

/// The number of a kind of registers; now and then none's.
fn kind(draws: &mut Draws) -> u8 {
    match draws.below(64) {
        0 => 0,
        1 => 4,
        2..=17 => RegisterKind::Cash as u8,
        18..=47 => RegisterKind::Holding as u8,
        _ => RegisterKind::Participant as u8,
    }
}

/// A margin; a limit's now and then, and none elsewhere, but for a stray one.
fn margin(draws: &mut Draws, shape: &Shape, is_limit: bool) -> u64 {
    if is_limit && draws.one_in(2) {
        return limit(draws, shape);
    }
    u64::from(draws.one_in(64))
}

fn opening(draws: &mut Draws, shape: &Shape) -> FullCall {
    let kind = kind(draws);
    let is_limit = kind == RegisterKind::Participant as u8;
    let code = if is_limit {
        participant(draws)
    } else {
        account(draws, shape)
    };
    let security = if kind == RegisterKind::Holding as u8 {
        security(draws, shape)
    } else {
        u16::from(draws.one_in(64))
    };
    FullCall::Open(Opening {
        kind,
        code,
        security,
        limit: limit(draws, shape),
        margin: margin(draws, shape, is_limit),
    })
}

fn credit(draws: &mut Draws, shape: &Shape) -> FullCall {
    let code = account(draws, shape);
    let security = if draws.one_in(2) {
        0
    } else {
        security(draws, shape)
    };
    FullCall::Credit {
        code,
        security,
        amount: amount(draws, shape),
    }
}

fn posted_to(draws: &mut Draws) -> u16 {
    u16::try_from(participant(draws)).unwrap_or(0)
}

fn handed(call: FullCall) -> Call {
    Call::Partial(PartialCall::Full(call))
}

/// Draws a call of a kind.
pub(crate) fn call(draws: &mut Draws, shape: &Shape, market: Market<'_>, wish: Wish) -> Call {
    match wish {
        Wish::Admission => handed(admission(draws, shape)),
        Wish::Opening => handed(opening(draws, shape)),
        Wish::Credit => handed(credit(draws, shape)),
        Wish::Announcement => handed(announcement(draws, shape, market)),
        Wish::Withdrawal => handed(withdrawal(draws, market)),
        Wish::Trade => handed(trade(draws, market)),
        Wish::Post => Call::Partial(PartialCall::Post {
            participant: posted_to(draws),
            amount: amount(draws, shape),
        }),
        Wish::Debit => Call::Partial(PartialCall::Debit {
            participant: posted_to(draws),
            amount: amount(draws, shape),
        }),
        Wish::Earmark => earmark(draws, shape, market),
        Wish::Delivery => delivery(draws, market),
        Wish::Payment => payment(draws, market),
        Wish::Close => Call::Close,
    }
}
