//! The law, looked at line by line.

ghost use Rattle.std.specs.Prelude.{◌≤◌, IfOk};

use crate::drift::{Drift, NO_DRIFT};
use crate::fault::Fault;
use crate::opened::Opened;
use crate::tally::Tally;
use full::book::Book;
use partial::obligations::Obligations;
use pool::engine::Engine;
use registers::figures::Figures;
use registers::kind::RegisterKind;
use registers::row::Row;
use registers::store::Store;

/// Live orders are exactly those with a rest, each once, as announced and with that rest. So each quantity is its
/// traded parts, plus what was given back, plus its live rest.
fn look_at_orders(book: &Book, tally: &mut Tally) -> Result<(), Fault> {
    for slot in &book.orders {
        if let Some(order) = slot {
            tally.see_order(order)?;
        }
    }
    let count = book.orders.iter().filter(|slot| slot.is_some()).count();
    if count != tally.live {
        return Err(Fault::OrderMissing);
    }
    Ok(())
}

/// Obligations are exactly those noted of which a leg is owed, each once, with the legs that are owed.
fn look_at_obligations(obligations: &Obligations, tally: &mut Tally) -> Result<(), Fault> {
    for slot in &obligations.table {
        if let Some(obligation) = slot {
            tally.see_obligation(obligation)?;
        }
    }
    let count = obligations
        .table
        .iter()
        .filter(|slot| slot.is_some())
        .count();
    if count != tally.standing {
        return Err(Fault::ObligationMissing);
    }
    Ok(())
}

/// A blocked figure is its opening figure plus the live blocks, within its allowance, which for a holding is none.
pub(crate) fn drift_of(figures: Figures, opened: Opened) -> Result<Drift, Fault>
    ensures { IfOk result (λ d. d.kopecks ≤ d.allowance) }
{
    let kopecks = figures
        .blocked
        .saturating_sub_unsigned(opened.blocked)
        .saturating_sub_unsigned(opened.live_blocks)
        .unsigned_abs();
    let allowance = opened.allowance();
    if kopecks > allowance {
        return Err(Fault::Blocked);
    }
    Ok(Drift { kopecks, allowance })
}

/// No holding's limit is below its blocked figure; no limit of cash is below the smaller of its opening limit and the
/// reserve, less the allowance.
fn look_at_limit(figures: Figures, opened: Opened, reserve: u16) -> Result<(), Fault> {
    if opened.key.is(RegisterKind::Holding) && figures.limit < figures.blocked {
        return Err(Fault::HoldingBelow);
    }
    let least = opened.limit.min(u64::from(reserve));
    let raised = figures.limit.saturating_add_unsigned(opened.allowance());
    if opened.key.is(RegisterKind::Cash) && raised.saturating_sub_unsigned(least) < 0 {
        return Err(Fault::CashBelow);
    }
    Ok(())
}

fn look_at_row(row: Row, opened: Opened, reserve: u16) -> Result<Drift, Fault> {
    if row.key != opened.key {
        return Err(Fault::OtherRows);
    }
    look_at_limit(row.figures, opened, reserve)?;
    drift_of(row.figures, opened)
}

/// The rows bear exactly the opened keys, in their order, of which no two are the same.
fn look_at_rows<S: Store>(store: &mut S, tally: &Tally) -> Result<Drift, Fault> {
    if store.count() != tally.opened.len() {
        return Err(Fault::OtherRows);
    }
    let mut greatest = NO_DRIFT;
    for (place, opened) in tally.opened.iter().enumerate() {
        let row = store.row(place).ok_or(Fault::OtherRows)?;
        let drift = look_at_row(row, *opened, tally.reserve)?;
        greatest = greatest.greater(drift);
    }
    Ok(greatest)
}

/// Looks at an engine beside the tally; answers the greatest drift of a blocked figure. Refuses where a line of the
/// law does not hold.
pub(crate) fn look_at<S: Store>(engine: &mut Engine<S>, tally: &mut Tally) -> Result<Drift, Fault> {
    tally.begin_look();
    look_at_orders(&engine.partial.full.book, tally)?;
    look_at_obligations(&engine.partial.obligations, tally)?;
    look_at_rows(&mut engine.partial.full.store, tally)
}
