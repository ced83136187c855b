//! One search for every table of records that bear a key.
#![tactic(auto)]

ghost use Rattle.std.specs.Prelude.{◌≡◌, ◌<◌, Bool, true, List, length, IfSome, slice_index_or};
ghost use Rattle.std.specs.List.{slice_get};
ghost use Rattle.seek.specs.Place.{place_of, passes, BearsAt};

/// A record that may bear a key of the type `K`.
pub trait Keyed<K> {
    /// Whether a record bears a key.
    ghost bears: { Self → K → Bool };

    /// Whether the record bears `key`.
    fn is_at(&self, key: K) -> bool
        ensures { result ≡ bears self.now key };
}

/// The least place of `items` whose record bears `key`, counted from 0, or `None` where none does.
pub fn find<K: Copy, T: Keyed<K>>(items: &[T], key: K) -> Option<usize>
    ensures place { result ≡ place_of (λ t. T.Keyed.bears t key) items.now }
    ensures within { IfSome result (λ i. i < length items.now) }
    ensures borne { IfSome result (λ i. (d : T) → T.Keyed.bears (slice_index_or items.now i d) key ≡ true) }
{
    items.iter().position(|x| x.is_at(key))
}

/// A table whose records are read by a call and do not lie in a slice.
pub trait Table<R> {
    /// The records, in their order.
    ghost records: { Self → List R };

    /// How many records there are.
    fn count(&self) -> usize
        ensures { result ≡ length (records self.now) };

    /// The record at a place, counted from 0, or `None` past the last.
    fn record(&self, place: usize) -> Option<R>
        ensures { result ≡ slice_get (records self.now) place };
}

// apart from `find`, which goes over a slice: these records are asked for by their places
/// The least place of `table` whose record bears `key`, counted from 0, or `None` where none does.
pub fn find_in<K: Copy, R: Keyed<K> + Drop, S: Table<R>>(table: &S, key: K) -> Option<usize>
    ensures place { result ≡ place_of (λ t. R.Keyed.bears t key) (S.Table.records table.now) }
    ensures within { IfSome result (λ i. i < length (S.Table.records table.now)) }
    ensures borne { IfSome result (λ i. BearsAt (λ t. R.Keyed.bears t key) (S.Table.records table.now) i) }
{
    (0..table.count()).find(|place| bears_at(table, *place, key))
}

fn bears_at<K: Copy, R: Keyed<K> + Drop, S: Table<R>>(table: &S, place: usize, key: K) -> bool
    ensures { result ≡ passes (λ t. R.Keyed.bears t key) (slice_get (S.Table.records table.now) place) }
{
    table.record(place).is_some_and(|record| record.is_at(key))
}
