//! Participants' limits.

ghost use Rattle.std.specs.Prelude.{◌≡◌, ◌≤◌, [], ◌∷◌, true, IfOk};
ghost use Rattle.full.specs.Orders.{live_of};
ghost use Rattle.full.specs.Views.{pair_as};
ghost use Rattle.registers.specs.Changes.{OnlyAsked};
ghost use Rattle.full.specs.OpenRegisters.{FiguresAt};
ghost use Rattle.full.specs.Trades.{Following};
ghost use Rattle.partial.specs.Calls.{cover_at, drawn_from, drawn_of, participant_ok, limit_opening_ok, posted, post_on, debited, spared, debit_on};
ghost use Rattle.full.specs.Blocks.{limit_key};

use crate::drawn::Drawn;
use full::keys::{cash_key, holding_key, limit_key, participant_key};
use full::open_register::{OpenRegister, ask_open, open_register, paid};
use full::opening::Opening;
use full::order::Order;
use full::pair::Pair;
use full::ranges::{MOST_LIMIT, limit_ok};
use full::register_move::Move;
use plans::refusal::Refusal;
use registers::amounts::{Amount, risk};
use registers::figures::Figures;
use registers::in_range::InRange;
use registers::ranges::Ratio;
use registers::store::Store;

/// The greatest number of a participant.
pub const MOST_PARTICIPANT: u32 = 9_999;

/// Whether a participant's number is from 1 to 9,999.
#[tactic(auto, using(std::proofs::lemmas::Bool::Decides::nat_tests), unfolding(crate::specs::Calls::participant_ok))]
pub(crate) fn participant_ok(number: u32) -> bool
    ensures { result ≡ participant_ok number }
{
    (1..=MOST_PARTICIPANT).contains(&number)
}

/// The register that covers an order with partial collateral: its participant's limit. Refuses (6) where
/// that, or the account's cash or holding, is not open; the store is as it stood.
#[tactic(auto, unfolding(crate::specs::Calls::cover_at))]
pub(crate) fn cover<S: Store>(store: &mut S, order: Order) -> Result<OpenRegister, Refusal>
    ensures answer { result ≡ cover_at (S.Store.rows store.old) (live_of order) }
    ensures stands { IfOk result (λ h. FiguresAt (S.Store.rows store.old) h.place h.figures) }
    ensures asked { OnlyAsked S.Store.rows S.Store.capacity S.Store.made store.old store.new }
{
    ask_open(store, cash_key(order.account))?;
    ask_open(store, holding_key(order.account, order.security))?;
    open_register(store, participant_key(order.account))
}

/// What a trade moves of two limits: each falls by the charge, and its blocked figure by a block. Refuses
/// figures out of range (25), and figures that would end out of range (26), each over both.
#[tactic(auto, using(crate::proofs::Falls::falls), unfolding(crate::specs::Calls::drawn_from))]
fn drawn_from(
    a: OpenRegister,
    b: OpenRegister,
    charge: Amount,
    buy_block: Amount,
    sell_block: Amount,
) -> Result<Drawn, Refusal>
    ensures { result ≡ drawn_from a b charge.units buy_block.units sell_block.units }
{
    let buyer = a.figures.checked()?;
    let seller = b.figures.checked()?;
    let bought = a.ending(paid(buyer, charge, buy_block))?;
    let start = if a.place == b.place {
        bought.figures.checked()?
    } else {
        seller
    };
    let sold = b.ending(paid(start, charge, sell_block))?;
    Ok(Drawn {
        buyer: Move::of(a, bought.figures),
        seller: Move {
            place: b.place,
            before: start.figures,
            after: sold.figures,
        },
    })
}

/// What a trade between two orders in partial mode moves, under the ratio in force. Refuses (6) a limit
/// that is not open, and then as `drawn_from` does (25, 26); the store is as it stood.
#[tactic(auto, unfolding(crate::specs::Calls::drawn_of))]
pub(crate) fn limits_drawn<S: Store>(
    store: &mut S,
    pair: Pair,
    ratio: Ratio,
) -> Result<Drawn, Refusal>
    ensures answer { result ≡ drawn_of (S.Store.rows store.old) (pair_as pair) ratio.value }
    ensures follow { IfOk result (λ w. Following (S.Store.rows store.old) (w.buyer ∷ w.seller ∷ [])) }
    ensures asked { OnlyAsked S.Store.rows S.Store.capacity S.Store.made store.old store.new }
{
    let a = open_register(store, participant_key(pair.buy.account))?;
    let b = open_register(store, participant_key(pair.sell.account))?;
    let charge = risk(pair.quantity, pair.price, ratio);
    let buy_block = risk(pair.quantity, pair.buy.price, pair.buy.ratio);
    let sell_block = risk(pair.quantity, pair.sell.price, pair.sell.ratio);
    drawn_from(a, b, charge, buy_block, sell_block)
}

/// Whether the arguments of an opening of kind 3 lie in their ranges.
#[tactic(auto, unfolding(crate::specs::Calls::limit_opening_ok))]
pub(crate) fn limit_opening_ok(opening: Opening) -> bool
    ensures answer { result ≡ limit_opening_ok opening }
    ensures limit { result ≡ true → opening.limit ≤ MOST_LIMIT }
    ensures margin { result ≡ true → opening.margin ≤ MOST_LIMIT }
{
    opening.security == 0
        && participant_ok(opening.code)
        && limit_ok(opening.limit)
        && limit_ok(opening.margin)
}

/// Figures with limit and collateral raised by an amount.
#[tactic(auto, using(full::proofs::Signed::signed), unfolding(crate::specs::Calls::posted))]
fn posted(f: InRange, amount: Amount) -> Figures
    ensures { result ≡ posted f.figures amount.units }
{
    Figures {
        limit: f.figures.limit + i64::from(amount),
        third: f.figures.third + i64::from(amount),
        ..f.figures
    }
}

/// Raises a participant's limit and collateral by an amount. Refuses (25) figures out of range, and
/// (26) where they would leave it.
#[tactic(auto, using(full::proofs::Signed::signed), unfolding(crate::specs::Calls::post_on, crate::specs::Calls::posted))]
pub(crate) fn post_on(register: OpenRegister, amount: Amount) -> Result<OpenRegister, Refusal>
    ensures answer { result ≡ post_on register amount.units }
    ensures same_place { IfOk result (λ h. h.place ≡ register.place) }
{
    register.ending(posted(register.figures.checked()?, amount))
}

/// Figures with limit and collateral lowered by an amount.
#[tactic(auto, using(full::proofs::Signed::signed), unfolding(crate::specs::Calls::debited))]
fn debited(f: InRange, amount: Amount) -> Figures
    ensures { result ≡ debited f.figures amount.units }
{
    Figures {
        limit: f.figures.limit - i64::from(amount),
        third: f.figures.third - i64::from(amount),
        ..f.figures
    }
}

/// Figures with limit and collateral lowered by an amount. Refuses an amount above the collateral (20), a
/// limit below the blocked figure (19), and an amount that would leave no more than the blocked figure (21).
#[tactic(auto, using(full::proofs::Signed::signed), unfolding(crate::specs::Calls::spared))]
fn spared(f: InRange, amount: Amount) -> Result<Figures, Refusal>
    ensures { result ≡ spared f.figures amount.units }
{
    if f.figures.third < i64::from(amount) {
        return Err(Refusal::AboveCollateral);
    }
    if f.figures.limit < f.figures.blocked {
        return Err(Refusal::MarginCall);
    }
    let figures = debited(f, amount);
    let is_spared = f.figures.blocked < figures.limit;
    if !is_spared {
        return Err(Refusal::NotSpared);
    }
    Ok(figures)
}

/// Lowers a participant's limit and collateral by an amount. Refuses (25) figures out of range, and then
/// as `spared`.
#[tactic(auto, unfolding(crate::specs::Calls::debit_on))]
pub(crate) fn debit_on(register: OpenRegister, amount: Amount) -> Result<OpenRegister, Refusal>
    ensures answer { result ≡ debit_on register amount.units }
    ensures same_place { IfOk result (λ h. h.place ≡ register.place) }
{
    let f = register.figures.checked()?;
    let figures = spared(f, amount)?;
    Ok(OpenRegister {
        figures,
        ..register
    })
}
