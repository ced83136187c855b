//! Returning third figures to their limits.

ghost use Rattle.std.specs.Prelude.{◌≡◌, ◌≤◌, true, Some, Ok, map, if◌then◌else◌};
ghost use Rattle.std.specs.List.{list_all, slice_get};
ghost use Rattle.plans.specs.Steps.{demand};
ghost use Rattle.plans.specs.declared.refusal.Refusal.TheVariants.{Store as StoreRefusal};
ghost use Rattle.registers.specs.Changes.{OnlyAsked};
ghost use Rattle.registers.specs.Stores.{put_row};
ghost use Rattle.registers.specs.declared.store.TheConstants.{MOST_ROWS};
ghost use Rattle.registers.specs.declared.fault.StoreFault.TheVariants.{OutOfRange};
ghost use Rattle.pool.specs.Calls.{is_pooled, returned, returns, swept, sweeping, sweeps_from, count_returning, may_sweep};

use plans::refusal::Refusal;
use registers::figures::Figures;
use registers::in_range::InRange;
use registers::kind::RegisterKind;
use registers::row::Row;
use registers::store::Store;

/// Whether a row is one of the pool: of cash or of a holding.
fn is_pooled(row: Row) -> bool
    ensures { result ≡ is_pooled row }
{
    row.key.is(RegisterKind::Cash) || row.key.is(RegisterKind::Holding)
}

/// Whether a row has a third figure to return.
fn returns(row: Row) -> bool
    ensures { result ≡ returns row }
{
    is_pooled(row) && row.figures.third != 0
}

/// Figures whose third has joined the limit.
#[tactic(auto, using(full::proofs::Signed::signed), unfolding(crate::specs::Calls::returned))]
fn returned(f: InRange) -> Figures
    ensures { result ≡ returned f.figures }
{
    Figures {
        limit: f.figures.limit + f.figures.third,
        third: 0,
        ..f.figures
    }
}

/// Refuses (25) figures of a row of the pool that are out of range; those of a participant are not looked
/// at.
fn may_sweep(row: Row) -> Result<(), Refusal>
    ensures { result ≡ demand (may_sweep row) (StoreRefusal OutOfRange) (Ok tt) }
{
    if is_pooled(row) {
        row.figures.checked()?;
    }
    Ok(())
}

/// Refuses (25) figures of any row of the pool that are out of range. The store is as it stood.
pub(crate) fn all_may_sweep<S: Store>(store: &mut S) -> Result<(), Refusal>
    ensures answer { result
        ≡ demand (list_all may_sweep (S.Store.rows store.old)) (StoreRefusal OutOfRange) (Ok tt) }
    ensures asked { OnlyAsked S.Store.rows S.Store.capacity S.Store.made store.old store.new }
{
    for place in 0..store.count() {
        let Some(row) = store.row(place) else {
            break;
        };
        may_sweep(row)?;
    }
    Ok(())
}

/// Returns a row's third figure to its limit, if it is one of the pool and has one; answers 1 then, and 0
/// otherwise.
fn sweep_row<S: Store>(store: &mut S, place: usize, row: Row) -> usize
    requires stands { slice_get (S.Store.rows store.old) place ≡ Some row }
    requires in_range { may_sweep row ≡ true }
    ensures count { result ≡ (if returns row then 1 else 0) }
    ensures after { S.Store.rows store.new ≡ put_row (S.Store.rows store.old) place (swept row).figures }
    ensures same_room { S.Store.capacity store.new ≡ S.Store.capacity store.old }
    ensures changes { S.Store.made store.old (sweeping place row) store.new }
{
    if !returns(row) {
        return 0;
    }
    if let Ok(figures) = row.figures.checked() {
        // the place is within the rows
        let _ = store.put(place, returned(figures));
    }
    1
}

/// Returns the third figure of every row of the pool to its limit, the lowest place first; answers how many
/// were not zero.
pub(crate) fn sweep_all<S: Store>(store: &mut S) -> usize
    requires { list_all may_sweep (S.Store.rows store.old) ≡ true }
    ensures count { result ≡ count_returning (S.Store.rows store.old) }
    ensures few { result ≤ MOST_ROWS }
    ensures after { S.Store.rows store.new ≡ map swept (S.Store.rows store.old) }
    ensures same_room { S.Store.capacity store.new ≡ S.Store.capacity store.old }
    ensures changes { S.Store.made store.old (sweeps_from 0 (S.Store.rows store.old)) store.new }
{
    let mut count = 0;
    for place in 0..store.count() {
        let Some(row) = store.row(place) else {
            break;
        };
        count += sweep_row(store, place, row);
    }
    count
}
