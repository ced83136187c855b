//! Obligations with their places in the table.

ghost use Rattle.std.specs.Prelude.{◌≡◌, slice_set};
ghost use Rattle.pool.specs.Calls.{found_of};

use partial::obligation::Obligation;
use partial::obligations::Obligations;
use plans::refusal::Refusal;

/// An obligation that stands, and its place in the table.
#[derive(Clone, Copy, PartialEq, Eq, Debug)]
pub struct PlacedObligation {
    pub place: usize,
    pub obligation: Obligation,
}

impl PlacedObligation {
    /// The obligation of a trade's number. Refuses (22) where none stands.
    #[tactic(auto, unfolding(crate::specs::Calls::found_of))]
    pub(crate) fn of(obligations: &Obligations, number: u32) -> Result<PlacedObligation, Refusal>
        ensures { result ≡ found_of obligations.now.table number }
    {
        let place = obligations.place_of(number).ok_or(Refusal::NoObligation)?;
        match obligations.table.get(place) {
            Some(Some(obligation)) => Ok(PlacedObligation {
                place,
                obligation: *obligation,
            }),
            _ => Err(Refusal::NoObligation),
        }
    }

    /// Leaves in its place of a table what is left of the obligation, or frees the place.
    pub(crate) fn leave(self, table: &mut [Option<Obligation>], left: Option<Obligation>)
        ensures { table.new ≡ slice_set table.old self.place left }
    {
        if self.place < table.len() {
            table[self.place] = left;
        }
    }
}
