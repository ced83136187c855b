//! The engine of Level Two and its parts.

ghost use Rattle.std.specs.Prelude.{◌≡◌};
ghost use Rattle.partial.specs.State.{begin};

use crate::obligations::Obligations;
use full::settings::Settings;
use registers::store::Store;
use std::marker::Model;

/// The engine of Level Two: Level One's, and the obligations. Its parts are public for the level above;
/// who embeds it uses the calls. A call is refused by the first of its checks, in the order listed, that
/// fails, and then changes nothing.
#[derive(Drop)]
pub struct Engine<S: Store> {
    pub full: full::engine::Engine<S>,
    pub obligations: Obligations,
}

// contracts see an engine as its store and the state that the rules speak of
impl<S: Store> Model for Engine<S> {
    ghost use Rattle.plans.specs.Plans.{EngineView};
    ghost use Rattle.partial.specs.State.{State};

    ghost Value = { EngineView S State };

    ghost view = { λ e. record {
      store = e.full.store;
      state = record { base = e.full.state; obligations = e.obligations.table };
    } };
}

impl<S: Store> Engine<S> {
    /// An engine over a store, under settings. Nothing is admitted, ordered, traded or owed yet.
    pub fn new(store: S, settings: Settings) -> Engine<S>
        ensures store { result.store ≡ store }
        ensures state { result.state ≡ begin (S.Store.rows store) (S.Store.capacity store) settings }
    {
        Engine {
            full: full::engine::Engine::new(store, settings),
            obligations: Obligations::new(),
        }
    }

    /// Ends the engine, and hands its store out again: with the rows and the room that the last call left.
    pub fn into_store(self) -> S
        ensures store { result ≡ self.store }
        ensures rows { S.Store.rows result ≡ self.state.base.rows }
        ensures room { S.Store.capacity result ≡ self.state.base.room }
    {
        let Engine {
            full,
            obligations: _,
        } = self;
        full.into_store()
    }
}
