//! Draws of calls that earmark and settle.

use crate::codes::{account, security};
use crate::draws::Draws;
use crate::market::Market;
use crate::shape::Shape;
use full::asset::Asset;
use pool::call::Call;
use pool::debt::Debt;
use pool::leg::Leg;

/// The number of an obligation that owes a leg, or 0 where none does; now and then of any that stands, or any number
/// below that of the last trade.
fn settled(draws: &mut Draws, market: Market<'_>, leg: Leg) -> u32 {
    if draws.one_in(24) {
        return draws.below(market.last_trade);
    }
    let leg = if draws.one_in(4) { None } else { Some(leg) };
    market
        .owing(draws, leg)
        .map_or(0, |obligation| obligation.number)
}

/// A delivery, mostly of securities that are owed.
pub(crate) fn delivery(draws: &mut Draws, market: Market<'_>) -> Call {
    Call::Deliver {
        number: settled(draws, market, Leg::Securities),
    }
}

/// A payment, mostly of money that is owed.
pub(crate) fn payment(draws: &mut Draws, market: Market<'_>) -> Call {
    Call::Pay {
        number: settled(draws, market, Leg::Money),
    }
}

/// The number by which a call names an asset: 0 for cash.
fn number_of(asset: Asset) -> u16 {
    match asset {
        Asset::Cash => 0,
        Asset::Security(security) => security,
    }
}

/// An earmark of any account's cash or holding.
fn any_earmark(draws: &mut Draws, shape: &Shape) -> Call {
    let code = account(draws, shape);
    let security = if draws.one_in(2) {
        0
    } else {
        security(draws, shape)
    };
    Call::Earmark { code, security }
}

/// An earmark, mostly of what an account owes.
pub(crate) fn earmark(draws: &mut Draws, shape: &Shape, market: Market<'_>) -> Call {
    if draws.one_in(6) {
        return any_earmark(draws, shape);
    }
    let leg = if draws.one_in(2) {
        Leg::Securities
    } else {
        Leg::Money
    };
    match market.owing(draws, Some(leg)) {
        Some(obligation) => {
            let debt = Debt::of(obligation, leg);
            Call::Earmark {
                code: debt.debtor,
                security: number_of(debt.asset),
            }
        }
        None => any_earmark(draws, shape),
    }
}
