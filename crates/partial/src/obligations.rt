//! The table of obligations.

ghost use Rattle.std.specs.Prelude.{◌≡◌, ◌<◌, length, replicate, IfSome, Some, None, slice_set};
ghost use Rattle.partial.specs.Obligations.{free_place, place_of_obligation};

use crate::free::Free;
use crate::obligation::Obligation;
use crate::trade_number::TradeNumber;

/// How many obligations may stand.
pub const MOST_OBLIGATIONS: usize = 128;

/// The obligations that stand, each in a place of the table.
#[derive(Clone, Copy, PartialEq, Eq, Debug)]
pub struct Obligations {
    // an array of places, which are freed and taken again: there is no heap for a map
    pub table: [Option<Obligation>; MOST_OBLIGATIONS],
}

impl Obligations {
    /// No obligations.
    pub fn new() -> Obligations
        ensures { result.table ≡ replicate MOST_OBLIGATIONS None }
    {
        Obligations {
            table: [None; MOST_OBLIGATIONS],
        }
    }

    // `within`, here and below: the same bound as indexing asks for it

    /// The first free place, or `None` where 128 obligations stand.
    pub fn free_place(&self) -> Option<usize>
        ensures place { result ≡ free_place self.now.table }
        ensures within { IfSome result (λ i. i < length self.now.table) }
    {
        seek::find(&self.table, Free)
    }

    /// The place of the obligation of a trade's number, or `None` where none stands.
    pub fn place_of(&self, number: u32) -> Option<usize>
        ensures place { result ≡ place_of_obligation number self.now.table }
        ensures within { IfSome result (λ i. i < length self.now.table) }
    {
        seek::find(&self.table, TradeNumber(number))
    }

    /// Enters an obligation at a place; a place past the table's end changes nothing.
    pub fn enter(&mut self, place: usize, obligation: Obligation)
        ensures { self.new.table ≡ slice_set self.old.table place (Some obligation) }
    {
        if place < self.table.len() {
            self.table[place] = Some(obligation);
        }
    }
}
