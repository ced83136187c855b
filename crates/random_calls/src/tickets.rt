//! Tickets that calls are shown.

use pool::engine::Engine;
use pool::shown::Shown;
use pool::ticket::{Collecting, Ending};
use registers::store::Store;

/// The tickets that the calls of a run are shown.
#[derive(Clone, Copy)]
pub struct Tickets<'t> {
    pub collecting: &'t Collecting,
    pub ending: &'t Ending,
}

impl<'t> Tickets<'t> {
    /// An engine to which they are shown.
    pub(crate) fn shown_to<S: Store>(self, engine: Engine<S>) -> Shown<'t, S> {
        Shown {
            engine,
            collecting: self.collecting,
            ending: self.ending,
        }
    }
}
