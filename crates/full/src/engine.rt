//! The engine of Level One and its parts.

ghost use Rattle.std.specs.Prelude.{◌≡◌};
ghost use Rattle.full.specs.State.{begin};

use crate::book::Book;
use crate::securities::Securities;
use crate::settings::Settings;
use registers::store::Store;
use std::marker::Model;

/// The engine of Level One over a store. Its parts are public for the level above; who embeds it
/// uses the calls. A call is refused by the first of its checks, in the order listed, that fails, and then
/// changes nothing.
#[derive(Drop)]
pub struct Engine<S: Store> {
    pub store: S,
    pub settings: Settings,
    pub securities: Securities,
    pub book: Book,
    pub last_trade: u32,
}

// contracts see an engine as its store and the state that the rules speak of
impl<S: Store> Model for Engine<S> {
    ghost use Rattle.full.specs.Orders.{slots_of, list_of};
    ghost use Rattle.plans.specs.Plans.{EngineView};
    ghost use Rattle.full.specs.State.{State};

    ghost Value = { EngineView S State };

    ghost view = { λ e. record {
      store = e.store;
      state = record {
        rows = S.Store.rows e.store;
        room = S.Store.capacity e.store;
        settings = e.settings;
        securities = list_of e.securities;
        orders = slots_of e.book;
        last_order = e.book.last_order;
        last_trade = e.last_trade;
      };
    } };
}

impl<S: Store> Engine<S> {
    /// An engine over a store. Nothing is admitted, ordered or traded yet; the store's rows are as they
    /// stood.
    pub fn new(store: S, settings: Settings) -> Engine<S>
        ensures store { result.store ≡ store }
        ensures state { result.state ≡ begin (S.Store.rows store) (S.Store.capacity store) settings }
    {
        Engine {
            store,
            settings,
            securities: Securities::new(),
            book: Book::new(),
            last_trade: 0,
        }
    }

    /// Ends the engine, and hands its store out again: with the rows and the room that the last call left.
    pub fn into_store(self) -> S
        ensures store { result ≡ self.store }
        ensures rows { S.Store.rows result ≡ self.state.rows }
        ensures room { S.Store.capacity result ≡ self.state.room }
    {
        let Engine {
            store,
            settings: _,
            securities: _,
            book: _,
            last_trade: _,
        } = self;
        store
    }
}
