//! What an account earmarks.

ghost use Rattle.std.specs.Prelude.{◌≡◌, ◌≤◌, pos, ◌≤ℤ◌, IfOk};
ghost use Rattle.registers.specs.Changes.{OnlyAsked};
ghost use Rattle.full.specs.OpenRegisters.{FiguresAt};
ghost use Rattle.pool.specs.Calls.{earmarked, earmark_at};

use crate::need::{MOST_FREE_OF_LIMIT, MOST_OWED, earmarked_amount};
use full::asset::Asset;
use full::open_register::{OpenRegister, open_register};
use plans::refusal::Refusal;
use registers::figures::Figures;
use registers::in_range::InRange;
use registers::store::Store;

/// An amount that moves from a register's limit to its third figure: the register as it was read, its
/// figures afterwards, and the amount, in kopecks or in pieces.
#[derive(Clone, Copy, PartialEq, Eq, Debug)]
pub struct Earmark {
    pub register: OpenRegister,
    pub after: Figures,
    pub amount: i64,
}

/// Figures with an amount moved from the limit to the third.
#[tactic(auto, using(full::proofs::Signed::signed), unfolding(crate::specs::Calls::earmarked))]
fn earmarked(f: InRange, amount: i64) -> Figures
    requires least { pos 0 ≤ℤ amount }
    requires most { amount ≤ℤ MOST_FREE_OF_LIMIT }
    ensures { result ≡ earmarked f.figures amount }
{
    Figures {
        limit: f.figures.limit - amount,
        third: f.figures.third + amount,
        ..f.figures
    }
}

/// What an account earmarks of an asset, of which it owes an amount and a floor has to be left. Refuses (6)
/// where its register is not open, figures out of range (25) and figures that would leave it (26); the store
/// is as it stood.
#[tactic(auto, using(full::proofs::Signed::signed), unfolding(crate::specs::Calls::earmark_at))]
pub(crate) fn earmark_at<S: Store>(
    store: &mut S,
    account: u32,
    asset: Asset,
    owed: u128,
    floor: u16,
) -> Result<Earmark, Refusal>
    requires { owed ≤ MOST_OWED }
    ensures answer { result ≡ earmark_at (S.Store.rows store.old) account asset owed floor }
    ensures stands { IfOk result (λ e.
        FiguresAt (S.Store.rows store.old) e.register.place e.register.figures) }
    ensures asked { OnlyAsked S.Store.rows S.Store.capacity S.Store.made store.old store.new }
{
    let register = open_register(store, asset.key(account))?;
    let figures = register.figures.checked()?;
    let amount = earmarked_amount(figures, owed, floor);
    let ended = register.ending(earmarked(figures, amount))?;
    Ok(Earmark {
        register,
        after: ended.figures,
        amount,
    })
}
