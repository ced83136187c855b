//! The engine of Level Three.

ghost use Rattle.std.specs.Prelude.{◌≡◌};
ghost use Rattle.partial.specs.State.{begin};

use full::settings::Settings;
use registers::store::Store;
use std::marker::Model;

/// The engine of Level Three: Level Two's, with the calls of the clearing pool. Tickets are held beside it.
/// Its part is public for whoever builds on it; who embeds it uses the calls. A call is refused by the first
/// of its checks, in the order listed, that fails, and then changes nothing.
#[derive(Drop)]
pub struct Engine<S: Store> {
    pub partial: partial::engine::Engine<S>,
}

// contracts see an engine as they see Level Two's
impl<S: Store> Model for Engine<S> {
    ghost use Rattle.plans.specs.Plans.{EngineView};
    ghost use Rattle.pool.specs.State.{State};

    ghost Value = { EngineView S State };

    ghost view = { λ e. e.partial };
}

impl<S: Store> Engine<S> {
    /// An engine over a store, under settings. Nothing is admitted, ordered, traded or owed yet.
    pub fn new(store: S, settings: Settings) -> Engine<S>
        ensures store { result.store ≡ store }
        ensures state { result.state ≡ begin (S.Store.rows store) (S.Store.capacity store) settings }
    {
        Engine {
            partial: partial::engine::Engine::new(store, settings),
        }
    }

    /// Ends the engine, and hands its store out again: with the rows and the room that the last call left.
    pub fn into_store(self) -> S
        ensures store { result ≡ self.store }
        ensures rows { S.Store.rows result ≡ self.state.base.rows }
        ensures room { S.Store.capacity result ≡ self.state.base.room }
    {
        let Engine { partial } = self;
        partial.into_store()
    }
}
