//! Faults with their places.

use crate::fault::Fault;
use crate::place::Place;

/// A fault of which only the place is known yet.
#[derive(Clone, Copy, PartialEq, Eq, Debug)]
pub struct Found {
    pub fault: Fault,
    pub place: Place,
}

impl From<Fault> for Found {
    fn from(fault: Fault) -> Found {
        Found {
            fault,
            place: Place::Answers,
        }
    }
}
