//! The row store: rows in a table that its owner lends.

ghost use Rattle.std.specs.Prelude.{◌≡◌, ◌<◌, ◌≤◌, min, [], length};
ghost use Rattle.std.specs.List.{slice_get};
ghost use Rattle.registers.specs.Stores.{place_for};
ghost use Rattle.registers.specs.Bounds.{table_bounded};
ghost use Rattle.registers.specs.Changes.{Led, led-none, led-joined};
ghost use Rattle.registers.specs.Tables.{table_room, table_rows, lent, change_table};

use crate::fault::StoreFault;
use crate::figures::Figures;
use crate::key::Key;
use crate::row::Row;
use crate::store::{MOST_ROWS, Store};

/// A store over a table of rows that its owner lends. Its room is the table's length, at most 4,096;
/// what the table holds beyond the rows of the store means nothing.
#[derive(Drop)]
pub struct RowStore<'a> {
    table: &'a mut [Row],
    // a count beside the table, which its owner lends: there is no heap for a list
    filled: usize,
    ghost inside: { filled ≤ table_room table.now },
}

impl<'a> RowStore<'a> {
    /// An empty store over `table`. Every row of the table is as it stood.
    pub fn new(table: &'a mut [Row]) -> RowStore<'a>
        ensures empty { table_rows result.table.now result.filled ≡ [] }
        ensures of { result.table.now ≡ table.old }
        ensures lent { result.table.ghost_name ≡ table.entry.ghost_name }
        ensures room { table_room result.table.now ≡ min (length table.old) MOST_ROWS }
    {
        RowStore { table, filled: 0 }
    }

    fn size(&self) -> usize
        ensures { result ≡ table_room self.now.table.now }
    {
        self.table.len().min(MOST_ROWS)
    }

    fn at(&self, place: usize) -> Option<Row>
        ensures { result ≡ slice_get (table_rows self.now.table.now self.now.filled) place }
    {
        self.table[..self.filled].get(place).copied()
    }

    fn place_of(&self, key: Key) -> Option<usize>
        ensures { result ≡ place_for key (table_rows self.now.table.now self.now.filled) }
    {
        seek::find(&self.table[..self.filled], key)
    }
}

impl Store for RowStore<'_> {
    ghost rows = { λ s. table_rows s.table.now s.filled };

    ghost capacity = { λ s. table_room s.table.now };

    ghost made = { λ a xs b. Led change_table
        (lent a.table.now a.filled) a.table.ghost_name xs
        (lent b.table.now b.filled) b.table.ghost_name };

    ghost bounded = { λ s. table_bounded s.table.now s.filled s.inside };

    ghost unchanged = { λ s. led-none change_table (lent s.table.now s.filled) s.table.ghost_name };

    ghost joined = { λ a b c xs ys p q. led-joined change_table
        (lent a.table.now a.filled) (lent b.table.now b.filled) (lent c.table.now c.filled)
        a.table.ghost_name b.table.ghost_name c.table.ghost_name xs ys p q };

    fn count(&mut self) -> usize {
        self.filled
    }

    fn room(&mut self) -> usize {
        self.size()
    }

    fn row(&mut self, place: usize) -> Option<Row> {
        self.at(place)
    }

    fn find(&mut self, key: Key) -> Option<usize> {
        self.place_of(key)
    }

    fn put(&mut self, place: usize, figures: Figures) -> Result<(), StoreFault> {
        if place >= self.filled {
            return Err(StoreFault::NotOpen);
        }
        self.table[place].figures = figures;
        Ok(())
    }

    fn add(&mut self, row: Row) -> Result<(), StoreFault> {
        if self.filled >= self.size() {
            return Err(StoreFault::Full);
        }
        self.table[self.filled] = row;
        self.filled += 1;
        Ok(())
    }
}
