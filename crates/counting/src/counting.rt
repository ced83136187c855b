//! A store over another store, whose changes it counts.

ghost use Rattle.std.specs.Prelude.{◌≡◌, ◌≤◌};
ghost use Rattle.counting.specs.declared.counting.TheConstants.{MOST_CHANGES};
ghost use Rattle.counting.specs.Counts.{counted_on, counted-none, counted-joined};

use registers::fault::StoreFault;
use registers::figures::Figures;
use registers::key::Key;
use registers::row::Row;
use registers::store::Store;

/// Where a count stays.
pub const MOST_CHANGES: u64 = u64::MAX;

/// A store over another one, of which it counts the changes: the puts and the adds that were not refused.
#[derive(Drop)]
pub struct Counting<S: Store> {
    inner: S,
    count: u64,
    ghost fits: { count ≤ MOST_CHANGES },
}

impl<S: Store> Counting<S> {
    /// A store over another one, of which no change is counted yet.
    pub fn new(inner: S) -> Counting<S>
        ensures inner { result.inner ≡ inner }
        ensures count { result.count ≡ 0 }
    {
        Counting { inner, count: 0 }
    }

    /// How many changes were carried out.
    pub fn changes(&self) -> u64
        ensures { result ≡ self.now.count }
    {
        let Counting { inner: _, count } = self;
        *count
    }

    /// Hands the inner store out again.
    pub fn into_inner(self) -> S
        ensures { result ≡ self.inner }
    {
        let Counting { inner, count: _ } = self;
        inner
    }
}

// what changes make of it: the count goes on with them, and they make of the inner store what they do of any
impl<S: Store> Store for Counting<S> {
    ghost rows = { λ s. S.rows s.inner };

    ghost capacity = { λ s. S.capacity s.inner };

    ghost made = { λ a xs b. (b.count ≡ counted_on a.count xs) × S.made a.inner xs b.inner };

    ghost bounded = { λ s. S.bounded s.inner };

    ghost unchanged = { λ s. (counted-none s.count s.fits, S.unchanged s.inner) };

    ghost joined = { λ a b c xs ys p q.
        (counted-joined a.count b.count c.count xs ys p.0 q.0, S.joined a.inner b.inner c.inner xs ys p.1 q.1) };

    fn count(&mut self) -> usize {
        self.inner.count()
    }

    fn room(&mut self) -> usize {
        self.inner.room()
    }

    fn row(&mut self, place: usize) -> Option<Row> {
        self.inner.row(place)
    }

    fn find(&mut self, key: Key) -> Option<usize> {
        self.inner.find(key)
    }

    fn put(&mut self, place: usize, figures: Figures) -> Result<(), StoreFault> {
        self.inner.put(place, figures)?;
        self.count = self.count.saturating_add(1);
        Ok(())
    }

    fn add(&mut self, row: Row) -> Result<(), StoreFault> {
        self.inner.add(row)?;
        self.count = self.count.saturating_add(1);
        Ok(())
    }
}
