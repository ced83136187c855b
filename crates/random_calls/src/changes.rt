//! How many changes of a store an accepted call makes.

use crate::note::Note;
use crate::tally::Tally;
use full::call::Call as FullCall;
use full::deal::Deal;
use partial::call::Call as PartialCall;
use pool::call::Call;

/// The changes of a trade in full mode: both holdings move by the quantity; the seller's cash moves by the money, and
/// the buyer's by what is released, which is no less.
fn changes_of_full_trade(deal: Deal, buy: Note, money: i64) -> u64 {
    let paying = buy.block_of(deal.quantity) > 0;
    2 + u64::from(paying) + u64::from(money > 0)
}

/// Whether a trade moves the limit of an order's participant: by the collateral at the price of the trade, or by what
/// is released.
fn moves_limit(deal: Deal, note: Note) -> bool {
    note.collateral_at(deal.quantity, deal.price) > 0 || note.block_of(deal.quantity) > 0
}

/// The changes of a trade in partial mode: one of each participant's limit that moves.
fn changes_of_partial_trade(deal: Deal, buy: Note, sell: Note) -> u64 {
    let buying = moves_limit(deal, buy);
    let selling = moves_limit(deal, sell);
    if buy.key() == sell.key() {
        u64::from(buying || selling)
    } else {
        u64::from(buying) + u64::from(selling)
    }
}

fn changes_of_trade(deal: Deal, money: i64, tally: &Tally) -> u64 {
    match (tally.noted(deal.buy), tally.noted(deal.sell)) {
        (Some(buy), Some(sell)) if buy.is_partial() => changes_of_partial_trade(deal, buy, sell),
        (Some(buy), Some(_)) => changes_of_full_trade(deal, buy, money),
        _ => 0,
    }
}

fn changes_of_full(call: FullCall, answer: i64, tally: &Tally) -> u64 {
    match call {
        FullCall::Admit { .. } => 0,
        FullCall::Open(_) | FullCall::Credit { .. } => 1,
        FullCall::Announce(_) | FullCall::Withdraw { .. } => u64::from(answer > 0),
        FullCall::Trade(deal) => changes_of_trade(deal, answer, tally),
    }
}

/// How many changes an accepted call makes, by its answer, and a trade by the noted orders too. A figure that moves by
/// 0 is none.
pub(crate) fn changes_of(call: Call, answer: i64, tally: &Tally) -> u64 {
    match call {
        Call::Partial(PartialCall::Full(call)) => changes_of_full(call, answer, tally),
        Call::Partial(PartialCall::Post { .. } | PartialCall::Debit { .. }) => 1,
        Call::Earmark { .. } => u64::from(answer > 0),
        Call::Deliver { .. } | Call::Pay { .. } => 2 * u64::from(answer > 0),
        Call::Close => answer.unsigned_abs(),
    }
}
