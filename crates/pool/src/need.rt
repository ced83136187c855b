//! What an account needs of an asset, and what is earmarked for it.

ghost use Rattle.std.specs.Prelude.{◌≡◌, ◌≤◌, length, pos, ◌≤ℤ◌};
ghost use Rattle.pool.specs.Debts.{owed_by_leg, owed_in, owed_over};
ghost use Rattle.pool.specs.Calls.{earmarked_amount, need_of, free_of, smaller, if_above_zero};

use crate::debt::Debt;
use crate::leg::Leg;
use crate::settle::Settle;
use full::asset::Asset;
use partial::obligation::Obligation;
use partial::obligations::MOST_OBLIGATIONS;
use registers::figures::MOST_FIGURE;
use registers::in_range::InRange;

/// The most that an account owes by one leg: what an obligation can hold.
const MOST_OWED_BY_LEG: u128 = u64::MAX as u128;

/// The most that an account owes by an obligation: both its legs.
const MOST_OWED_BY_OBLIGATION: u128 = 2 * MOST_OWED_BY_LEG;

/// The most that an account owes over the whole table.
pub(crate) const MOST_OWED: u128 = MOST_OBLIGATIONS as u128 * MOST_OWED_BY_OBLIGATION;

/// The least that a register needs: nothing is owed, and its third figure is the greatest.
const LEAST_NEEDED: i64 = -MOST_FIGURE;

/// The most that is free of a limit: it is the greatest figure, the blocked figure the least, and nothing has
/// to be left.
pub(crate) const MOST_FREE_OF_LIMIT: i64 = 2 * MOST_FIGURE;

/// What an account owes of an asset by a leg of an obligation, as long as that is owed.
fn owed_by_leg(obligation: Obligation, leg: Leg, account: u32, asset: Asset) -> u128
    ensures owed { result ≡ owed_by_leg account asset obligation leg }
    ensures most { result ≤ MOST_OWED_BY_LEG }
{
    let debt = Debt::of(obligation, leg);
    if obligation.is_owed(leg) && debt.debtor == account && debt.asset == asset {
        u128::from(debt.amount)
    } else {
        0
    }
}

/// What an account owes of an asset by the obligation in a place of the table.
fn owed_in(slot: &Option<Obligation>, account: u32, asset: Asset) -> u128
    ensures owed { result ≡ owed_in account asset slot.now }
    ensures most { result ≤ MOST_OWED_BY_OBLIGATION }
{
    match *slot {
        Some(obligation) => {
            owed_by_leg(obligation, Leg::Securities, account, asset)
                + owed_by_leg(obligation, Leg::Money, account, asset)
        }
        None => 0,
    }
}

/// What an account owes of an asset over the whole table: a sum over at most 128 obligations, which cannot
/// overflow.
#[tactic(auto, unfolding(crate::specs::Debts::owed_over))]
pub(crate) fn owed_over(table: &[Option<Obligation>], account: u32, asset: Asset) -> u128
    requires { length table.now ≤ MOST_OBLIGATIONS }
    ensures owed { result ≡ owed_over account asset table.now }
    ensures most { result ≤ MOST_OWED }
{
    let mut owed = 0;
    for slot in table {
        owed += owed_in(slot, account, asset);
    }
    owed
}

/// What a register needs: what is owed, less its third figure.
#[tactic(auto, using(full::proofs::Signed::signed, crate::proofs::Thirds::counted))]
fn need(f: InRange, owed: u128) -> i128
    requires { owed ≤ MOST_OWED }
    ensures need { result ≡ need_of owed f.figures }
    ensures least { LEAST_NEEDED ≤ℤ result }
{
    owed as i128 - i128::from(f.figures.third)
}

/// What is free on a register: limit less blocked, less what has to be left.
#[tactic(auto, using(full::proofs::Signed::signed))]
fn free(f: InRange, floor: u16) -> i64
    ensures free { result ≡ free_of floor f.figures }
    ensures most { result ≤ℤ MOST_FREE_OF_LIMIT }
{
    f.figures.limit - f.figures.blocked - i64::from(floor)
}

#[tactic(auto, using(full::proofs::Signed::signed))]
fn smaller(need: i128, free: i64) -> i64
    requires { LEAST_NEEDED ≤ℤ need }
    ensures is { result ≡ smaller need free }
    ensures most { result ≤ℤ free }
{
    if need < i128::from(free) {
        need as i64
    } else {
        free
    }
}

fn if_above_zero(units: i64) -> i64
    ensures is { result ≡ if_above_zero units }
    ensures least { pos 0 ≤ℤ result }
    ensures most { units ≤ℤ MOST_FREE_OF_LIMIT → result ≤ℤ MOST_FREE_OF_LIMIT }
{
    if 0 < units { units } else { 0 }
}

/// What is earmarked on a register: what it needs or what is free on it, the smaller if that is above zero.
#[tactic(auto, using(full::proofs::Signed::signed), unfolding(crate::specs::Calls::earmarked_amount))]
pub(crate) fn earmarked_amount(figures: InRange, owed: u128, floor: u16) -> i64
    requires { owed ≤ MOST_OWED }
    ensures amount { result ≡ earmarked_amount owed floor figures.figures }
    ensures least { pos 0 ≤ℤ result }
    ensures most { result ≤ℤ MOST_FREE_OF_LIMIT }
{
    if_above_zero(smaller(need(figures, owed), free(figures, floor)))
}
