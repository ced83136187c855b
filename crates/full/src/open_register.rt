//! Open registers: reading them, where their figures end, and putting them back.

ghost use Rattle.std.specs.Prelude.{◌≡◌, pos, ◌-ℤ◌, IfOk, Ok};
ghost use Rattle.plans.specs.declared.refusal.Refusal.TheVariants.{LeavesRange};
ghost use Rattle.plans.specs.Steps.{demand, ok_as};
ghost use Rattle.registers.specs.Changes.{OnlyAsked};
ghost use Rattle.registers.specs.Registers.{in_range};
ghost use Rattle.registers.specs.Stores.{put_row};
ghost use Rattle.full.specs.OpenRegisters.{register_at, FiguresAt, block_on, release_on, credit_on, with_blocked, with_figures_of, paid_of, limit_raised, moving, replaced, replacing};

use crate::cover::Cover;
use crate::guard::raise_covered;
use plans::refusal::Refusal;
use registers::amounts::Amount;
use registers::fault::StoreFault;
use registers::figures::Figures;
use registers::in_range::InRange;
use registers::key::Key;
use registers::store::Store;

/// The place of an open register in the store, and its figures: as they were read, or where a call ends
/// them.
#[derive(Clone, Copy, PartialEq, Eq, Debug)]
pub struct OpenRegister {
    pub place: usize,
    pub figures: Figures,
}

// that rows and room stay is said at each function over a store, here and in the other files: it is of the store
// before and after, and no fact of one value says it

/// The open register of a key. Refuses (6) where none is open; the store is as it stood.
#[tactic(auto, unfolding(crate::specs::OpenRegisters::register_at))]
pub fn open_register<S: Store>(store: &mut S, key: Key) -> Result<OpenRegister, Refusal>
    ensures answer { result ≡ register_at (S.Store.rows store.old) key }
    ensures stands { IfOk result (λ h. FiguresAt (S.Store.rows store.old) h.place h.figures) }
    ensures asked { OnlyAsked S.Store.rows S.Store.capacity S.Store.made store.old store.new }
{
    let place = store.find(key).ok_or(StoreFault::NotOpen)?;
    let row = store.row(place).ok_or(StoreFault::NotOpen)?;
    Ok(OpenRegister {
        place,
        figures: row.figures,
    })
}

/// Refuses (6) a key of which no register is open, and reads no row; the store is as it stood.
#[tactic(auto, using(crate::proofs::Places::open_where_found), unfolding(crate::specs::OpenRegisters::register_at))]
pub fn ask_open<S: Store>(store: &mut S, key: Key) -> Result<(), Refusal>
    ensures answer { result ≡ ok_as (λ _. tt) (register_at (S.Store.rows store.old) key) }
    ensures asked { OnlyAsked S.Store.rows S.Store.capacity S.Store.made store.old store.new }
{
    store.find(key).ok_or(StoreFault::NotOpen)?;
    Ok(())
}

/// Puts new figures at the place of a register, where they differ from those that were read; a place beyond
/// the last changes nothing.
#[tactic(auto, unfolding(crate::specs::OpenRegisters::replaced, crate::specs::OpenRegisters::replacing))]
pub fn put_register<S: Store>(store: &mut S, register: OpenRegister, figures: Figures)
    ensures after { S.Store.rows store.new
        ≡ replaced (S.Store.rows store.old) register.place register.figures figures }
    ensures same_room { S.Store.capacity store.new ≡ S.Store.capacity store.old }
    ensures changes { S.Store.made store.old
        (replacing (S.Store.rows store.old) register.place register.figures figures) store.new }
    // the same of a register that stands as it was read, for the callers whose plans speak of no other
    ensures after_as_read { FiguresAt (S.Store.rows store.old) register.place register.figures →
        S.Store.rows store.new ≡ put_row (S.Store.rows store.old) register.place figures }
    ensures changes_as_read { FiguresAt (S.Store.rows store.old) register.place register.figures →
        S.Store.made store.old (moving register.place register.figures figures) store.new }
{
    if register.figures == figures {
        return;
    }
    // a place beyond the last is no fault here
    let _ = store.put(register.place, figures);
}

/// Figures with the limit raised by an amount.
#[tactic(auto, using(crate::proofs::Signed::signed), unfolding(crate::specs::OpenRegisters::limit_raised))]
pub(crate) fn limit_raised(before: InRange, amount: Amount) -> Figures
    ensures { result ≡ limit_raised before.figures amount.units }
{
    Figures {
        limit: before.figures.limit + i64::from(amount),
        ..before.figures
    }
}

/// Figures with the limit lowered by a value, and the blocked figure by a block.
#[tactic(auto, using(crate::proofs::Signed::signed), unfolding(crate::specs::OpenRegisters::paid_of))]
pub fn paid(before: InRange, value: Amount, block: Amount) -> Figures
    ensures { result ≡ paid_of before.figures value.units block.units }
{
    Figures {
        limit: before.figures.limit - i64::from(value),
        blocked: before.figures.blocked - i64::from(block),
        ..before.figures
    }
}

/// Figures with the blocked figure lowered by an amount.
#[tactic(auto, using(crate::proofs::Signed::signed))]
fn released(before: InRange, amount: Amount) -> Figures
    ensures { result ≡ with_blocked before.figures (before.figures.blocked -ℤ pos amount.units) }
{
    Figures {
        blocked: before.figures.blocked - i64::from(amount),
        ..before.figures
    }
}

impl OpenRegister {
    /// The register with the figures at which it ends. Refuses (26) figures out of range.
    pub fn ending(self, figures: Figures) -> Result<OpenRegister, Refusal>
        ensures { result ≡ demand (in_range figures) LeavesRange (Ok (with_figures_of self figures)) }
    {
        if !figures.in_range() {
            return Err(Refusal::LeavesRange);
        }
        Ok(OpenRegister { figures, ..self })
    }

    /// Blocks an amount: the blocked figure is raised. Refuses (25) figures out of range, and (10) where
    /// the limit does not cover the raised figure and the floor.
    // `same_place`, here and below, is what callers need of the answer: the register that was read and the one that
    // ends are two values, which no type joins
    #[tactic(auto, using(crate::proofs::Signed::signed), unfolding(crate::specs::OpenRegisters::block_on, crate::specs::OpenRegisters::covered))]
    pub fn block(self, amount: Amount, floor: u16) -> Result<OpenRegister, Refusal>
        ensures answer { result ≡ block_on self amount.units floor }
        ensures same_place { IfOk result (λ h. h.place ≡ self.place) }
    {
        let f = self.figures.checked()?;
        let mut blocked = f.figures.blocked;
        let cover = Cover {
            limit: f.figures.limit,
            amount,
            floor,
        };
        raise_covered(&mut blocked, cover)?;
        Ok(OpenRegister {
            figures: Figures {
                blocked,
                ..f.figures
            },
            ..self
        })
    }

    /// Releases an amount: the blocked figure is lowered. Refuses (25) figures out of range, and (26)
    /// where they would leave it.
    #[tactic(auto, using(crate::proofs::Signed::signed), unfolding(crate::specs::OpenRegisters::release_on))]
    pub fn release(self, amount: Amount) -> Result<OpenRegister, Refusal>
        ensures answer { result ≡ release_on self amount.units }
        ensures same_place { IfOk result (λ h. h.place ≡ self.place) }
    {
        self.ending(released(self.figures.checked()?, amount))
    }

    /// Raises the limit by an amount. Refuses (25) figures out of range, and (26) where they would leave
    /// it.
    #[tactic(auto, using(crate::proofs::Signed::signed), unfolding(crate::specs::OpenRegisters::credit_on, crate::specs::OpenRegisters::limit_raised))]
    pub fn credit(self, amount: Amount) -> Result<OpenRegister, Refusal>
        ensures answer { result ≡ credit_on self amount.units }
        ensures same_place { IfOk result (λ h. h.place ≡ self.place) }
    {
        self.ending(limit_raised(self.figures.checked()?, amount))
    }
}
