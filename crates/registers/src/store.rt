//! The store of rows as an interface, and its meaning.

ghost use Rattle.std.specs.Prelude.{◌≡◌, ℕ, ◌≤◌, List, [], ◌++◌, length};
ghost use Rattle.std.specs.List.{slice_get};
ghost use Rattle.registers.specs.declared.row.Row.{Row as RowOf};
ghost use Rattle.registers.specs.declared.store.TheConstants.{MOST_ROWS};
ghost use Rattle.registers.specs.Changes.{OnlyAsked, Change, put_changes, add_changes};
ghost use Rattle.registers.specs.Stores.{place_for, put_row, put_answer, add_row, add_answer};

use crate::fault::StoreFault;
use crate::figures::Figures;
use crate::key::Key;
use crate::row::Row;

/// How many rows a store has room for at the most.
pub const MOST_ROWS: usize = 4_096;

/// A store means a list of rows and a room of at most 4,096 rows, which never changes and is never
/// exceeded. Questions and refusals change nothing. The questions too take the store for writing, so
/// that a store may sit over a device that has to be asked.
pub trait Store {
    // that rows and room stay is said at each call: it is of the store before and after, and no fact of one
    // value says it

    /// The rows, in their order.
    ghost rows: { Self → List RowOf };

    /// How many rows there may be.
    ghost capacity: { Self → ℕ };

    /// What exactly these changes, in their order, make of a store.
    ghost made: { Self → List Change → Self → Type 0 };

    /// How many rows there are.
    fn count(&mut self) -> usize
        ensures answer { result ≡ length (rows self.old) }
        ensures asked { OnlyAsked rows capacity made self.old self.new };

    /// How many rows there may be.
    fn room(&mut self) -> usize
        ensures answer { result ≡ capacity self.old }
        ensures asked { OnlyAsked rows capacity made self.old self.new };

    /// The row at a place, counted from 0, or `None` beyond the last.
    fn row(&mut self, place: usize) -> Option<Row>
        ensures answer { result ≡ slice_get (rows self.old) place }
        ensures asked { OnlyAsked rows capacity made self.old self.new };

    /// The least place that bears `key`, or `None` where no row does.
    fn find(&mut self, key: Key) -> Option<usize>
        ensures answer { result ≡ place_for key (rows self.old) }
        ensures asked { OnlyAsked rows capacity made self.old self.new };

    /// Replaces the figures at a place. Refuses (6) a place beyond the last, and then every row is as
    /// it stood.
    fn put(&mut self, place: usize, figures: Figures) -> Result<(), StoreFault>
        ensures answer { result ≡ put_answer (rows self.old) place }
        ensures after { rows self.new ≡ put_row (rows self.old) place figures }
        ensures same_room { capacity self.new ≡ capacity self.old }
        ensures changes { made self.old (put_changes (rows self.old) place figures) self.new };

    /// Appends a row. Refuses (2) where the count equals the room, and then every row is as it stood.
    fn add(&mut self, row: Row) -> Result<(), StoreFault>
        ensures answer { result ≡ add_answer (rows self.old) (capacity self.old) }
        ensures after { rows self.new ≡ add_row (rows self.old) (capacity self.old) row }
        ensures same_room { capacity self.new ≡ capacity self.old }
        ensures changes { made self.old (add_changes (rows self.old) (capacity self.old) row) self.new };

    /// No store holds more rows than it has room for, and none has room for more than 4,096.
    ghost bounded: { (s : Self) → (length (rows s) ≤ capacity s) × (capacity s ≤ MOST_ROWS) };

    /// A store that nothing was done to has no changes.
    ghost unchanged: { (s : Self) → made s [] s };

    /// Changes and then changes are all of them, in their order.
    ghost joined: { (a b c : Self) (xs ys : List Change) → made a xs b → made b ys c → made a (xs ++ ys) c };

    /// What a search for a proof finds by itself: questions before the changes.
    ghost asked_first: { (a b c : Self) (xs : List Change) →
        made a [] b → made b xs c → made a xs c } = { λ a b c xs p q. joined a b c [] xs p q };
}
