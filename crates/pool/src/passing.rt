//! What a settled leg moves.

ghost use Rattle.std.specs.Prelude.{◌≡◌, ◌≤ℤ◌, [], ◌∷◌, IfOk, Ok, pos, int_le};
ghost use Rattle.plans.specs.declared.refusal.Refusal.TheVariants.{ThirdBelow};
ghost use Rattle.plans.specs.Steps.{demand, ok_as};
ghost use Rattle.registers.specs.Changes.{OnlyAsked};
ghost use Rattle.registers.specs.declared.figures.TheConstants.{MOST_FIGURE};
ghost use Rattle.full.specs.OpenRegisters.{FiguresAt};
ghost use Rattle.full.specs.Trades.{Following};
ghost use Rattle.pool.specs.Calls.{third_lowered, third_raised, passed_from, passed_of};

use crate::debt::Debt;
use full::open_register::{OpenRegister, open_register};
use full::register_move::Move;
use plans::refusal::Refusal;
use registers::amounts::Amount;
use registers::figures::Figures;
use registers::in_range::InRange;
use registers::store::Store;

/// What passes from a debtor's third figure to a creditor's. If both are one register, the creditor's move
/// starts where the debtor's ends.
#[derive(Clone, Copy, PartialEq, Eq, Debug)]
pub struct Passed {
    pub debtor: Move,
    pub creditor: Move,
}

/// Figures with the third lowered by an amount.
#[tactic(auto, using(full::proofs::Signed::signed), unfolding(crate::specs::Calls::third_lowered))]
fn third_lowered(before: InRange, amount: Amount) -> Figures
    ensures { result ≡ third_lowered before.figures amount.units }
{
    Figures {
        third: before.figures.third - i64::from(amount),
        ..before.figures
    }
}

/// Figures with the third raised by an amount.
#[tactic(auto, using(full::proofs::Signed::signed), unfolding(crate::specs::Calls::third_raised))]
fn third_raised(before: InRange, amount: Amount) -> Figures
    ensures { result ≡ third_raised before.figures amount.units }
{
    Figures {
        third: before.figures.third + i64::from(amount),
        ..before.figures
    }
}

/// An amount that a third figure holds. Refuses (24) one that is above it.
fn held(debtor: InRange, units: u64) -> Result<Amount, Refusal>
    ensures { ok_as (λ a. a.units) result
        ≡ demand (int_le (pos units) debtor.figures.third) ThirdBelow (Ok units) }
{
    if i128::from(debtor.figures.third) < i128::from(units) {
        return Err(Refusal::ThirdBelow);
    }
    Ok(Amount { units })
}

/// What passes between two registers. Refuses figures out of range (25), a debtor's third below the amount
/// (24), and figures that would end out of range (26).
#[tactic(auto, using(crate::proofs::Thirds::thirds), unfolding(crate::specs::Calls::passed_from))]
fn passed_from(a: OpenRegister, b: OpenRegister, units: u64) -> Result<Passed, Refusal>
    ensures answer { result ≡ passed_from a b units }
    ensures within { IfOk result (λ _. pos units ≤ℤ MOST_FIGURE) }
{
    let debtor = a.figures.checked()?;
    let creditor = b.figures.checked()?;
    let amount = held(debtor, units)?;
    let given = a.ending(third_lowered(debtor, amount))?;
    let start = if a.place == b.place {
        given.figures.checked()?
    } else {
        creditor
    };
    let taken = b.ending(third_raised(start, amount))?;
    Ok(Passed {
        debtor: Move::of(a, given.figures),
        creditor: Move {
            place: b.place,
            before: start.figures,
            after: taken.figures,
        },
    })
}

/// What a debt moves. Refuses (6) where the debtor's register or the creditor's is not open, and then as
/// `passed_from` does (25, 24, 26); the store is as it stood.
#[tactic(auto, unfolding(crate::specs::Calls::passed_of))]
pub(crate) fn thirds_passed<S: Store>(store: &mut S, debt: Debt) -> Result<Passed, Refusal>
    ensures answer { result ≡ passed_of (S.Store.rows store.old) debt }
    ensures follow { IfOk result (λ w. Following (S.Store.rows store.old) (w.debtor ∷ w.creditor ∷ [])) }
    ensures within { IfOk result (λ _. pos debt.amount ≤ℤ MOST_FIGURE) }
    ensures asked { OnlyAsked S.Store.rows S.Store.capacity S.Store.made store.old store.new }
{
    let a = open_register(store, debt.asset.key(debt.debtor))?;
    let b = open_register(store, debt.asset.key(debt.creditor))?;
    passed_from(a, b, debt.amount)
}
