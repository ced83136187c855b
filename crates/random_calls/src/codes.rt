//! Draws of the numbers that calls name: mostly of those that a shape has, now and then others, and now and then
//! such as lie outside their ranges.

use crate::draws::Draws;
use crate::shape::Shape;
use full::keys::ACCOUNTS_EACH;
use full::ranges::{LEAST_ACCOUNT, MOST_ACCOUNT, MOST_LIMIT, MOST_SECURITY};
use partial::limits::MOST_PARTICIPANT;

/// How many participants there are; they have the accounts in turn.
const PARTICIPANTS: u32 = 3;

/// The account of a place among those of a shape.
fn account_at(place: u32) -> u32 {
    let participant = 1 + place % PARTICIPANTS;
    (participant * ACCOUNTS_EACH).saturating_add(place)
}

/// An account code.
pub(crate) fn account(draws: &mut Draws, shape: &Shape) -> u32 {
    match draws.below(96) {
        0 => LEAST_ACCOUNT - 1,
        1 => MOST_ACCOUNT + 1,
        2 | 3 => MOST_ACCOUNT,
        _ => account_at(draws.below(shape.accounts)),
    }
}

/// The number of a security.
pub(crate) fn security(draws: &mut Draws, shape: &Shape) -> u16 {
    match draws.below(96) {
        0 => 0,
        1 => MOST_SECURITY + 1,
        2 | 3 => MOST_SECURITY,
        _ => u16::try_from(draws.up_to(u32::from(shape.securities))).unwrap_or(0),
    }
}

/// The number of a participant.
pub(crate) fn participant(draws: &mut Draws) -> u32 {
    match draws.below(96) {
        0 => 0,
        1 => MOST_PARTICIPANT + 1,
        2 | 3 => MOST_PARTICIPANT,
        _ => draws.up_to(PARTICIPANTS),
    }
}

/// An amount to be credited, posted or debited.
pub(crate) fn amount(draws: &mut Draws, shape: &Shape) -> u64 {
    match draws.below(96) {
        0 => 0,
        1 => MOST_LIMIT + 1,
        _ => draws.wide_below(shape.amount).saturating_add(1),
    }
}

/// A limit or a margin.
pub(crate) fn limit(draws: &mut Draws, shape: &Shape) -> u64 {
    if draws.one_in(96) {
        return MOST_LIMIT + 1;
    }
    draws.wide_below(shape.amount)
}

/// A number of an order or of a trade, mostly above the last.
pub(crate) fn number_after(draws: &mut Draws, last: u32) -> u32 {
    if draws.one_in(32) {
        return last.saturating_sub(draws.below(3));
    }
    last.saturating_add(draws.up_to(3))
}
