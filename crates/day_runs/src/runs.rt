//! Carrying out a whole day.

ghost use Rattle.std.specs.Prelude.{◌≡◌, List, [], ◌∷◌, IfSome, IfNone};
ghost use Rattle.dayfile.specs.declared.line.Line.{Line as LineOf};
ghost use Rattle.dayfile.specs.Days.{lines_left, calls_left, GoesOn};
ghost use Rattle.day_runs.specs.Days.{overwritten, told_by, RanDay, changes_of_day};

use dayfile::day::Day;
use dayfile::line::Line;
use dayfile::listing_stage::ListingStage;
use dayfile::refusal::LineRefusal;
use partial::engine::Engine;
use registers::store::Store;

/// Tells what came of a record in the place that is next, if there is one and the line is of a record;
/// answers the place that is next then.
fn tell(outcomes: &mut [Result<i64, LineRefusal>], next: usize, line: Line) -> usize
    ensures { (ls : List LineOf) →
        overwritten outcomes.new result (told_by ls) ≡ overwritten outcomes.old next (told_by (line ∷ ls)) }
{
    let Line::Record { outcome, .. } = line else {
        return next;
    };
    if next >= outcomes.len() {
        return next;
    }
    outcomes[next] = outcome;
    next + 1
}

/// The next line of a day, or `None` once its records are told: the lines of registers, which come then,
/// tell of no record.
fn next_of_records<S: Store>(day: &mut Day<'_, S>) -> Option<Line>
    ensures line { IfSome result (λ line. lines_left day.old ≡ line ∷ lines_left day.new) }
    ensures told { IfNone result (told_by (lines_left day.old) ≡ []) }
    ensures called { IfNone result (calls_left day.new ≡ []) }
    ensures goes_on { GoesOn day.old day.new }
{
    match day.stage {
        ListingStage::Registers(_) => None,
        ListingStage::Header(_) | ListingStage::Records => day.next_line(),
    }
}

/// Carries out a day file over a store, line by line as a `Day` tells it, and hands the engine out as the
/// last record left it; a file whose header has a fault leaves it new, with reserve 0. What came of each
/// record is told in its place, as far as there are places for outcomes; places behind the records stay.
///
/// If the store was empty, the law over whole runs holds after each call that the file asks for:
/// between the state and a tally that was fed those calls and their outcomes alone.
// the places of outcomes are lent: there is no heap
pub fn run_day<S: Store>(
    store: S,
    file: &[u8],
    outcomes: &mut [Result<i64, LineRefusal>],
) -> Engine<S>
    ensures ran { RanDay (S.Store.rows store) (S.Store.capacity store) file.now outcomes.old outcomes.new
        result.state }
    ensures changes { S.Store.made store (changes_of_day (S.Store.rows store) (S.Store.capacity store) file.now)
        result.store }
{
    let mut day = Day::new(store, file);
    let mut next = 0;
    while let Some(line) = next_of_records(&mut day) {
        next = tell(outcomes, next, line);
    }
    day.into_engine()
}
