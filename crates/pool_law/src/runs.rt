//! Carrying out a list of calls.

ghost use Rattle.std.specs.Prelude.{◌≡◌, []};
ghost use Rattle.plans.specs.Runs.{Ran, changes_of_run};
ghost use Rattle.partial.specs.State.{begin};
ghost use Rattle.pool.specs.Plans.{call_of};
ghost use Rattle.pool_law.specs.Tally.{empty, entered};
ghost use Rattle.pool_law.specs.Law.{Law};

use full::settings::Settings;
use plans::machine::carry_all;
use plans::refusal::Refusal;
use pool::call::Call;
use pool::engine::Engine;
use pool::shown::Shown;
use pool::ticket::{Collecting, Ending};
use registers::store::Store;

/// Builds an engine over a store and carries out the calls, in their order, as many as there are
/// places for outcomes; each outcome is told in its place, and places behind them stay. The engine is
/// handed out as the last call left it. Each call is shown the ticket that it wants, and both tickets stay
/// with the caller; a close spends one that is formed for it.
///
/// Every call is answered or refused, moves the state, and changes the store, as its plan says. If the
/// store was empty, the law holds after each call, also where some are refused: between the state and a
/// tally that was fed the calls and their outcomes alone.
// the places of outcomes are lent: there is no heap
pub fn run<S: Store>(
    store: S,
    settings: Settings,
    collecting: &Collecting,
    ending: &Ending,
    calls: &[Call],
    outcomes: &mut [Result<i64, Refusal>],
) -> Engine<S>
    ensures ran { Ran call_of entered (Law settings.reserve) (S.Store.rows store ≡ []) empty
        (begin (S.Store.rows store) (S.Store.capacity store) settings) calls.now
        outcomes.old outcomes.new result.state }
    ensures changes { S.Store.made store
        (changes_of_run call_of (begin (S.Store.rows store) (S.Store.capacity store) settings)
        calls.now outcomes.old)
        result.store }
{
    let mut shown = Shown {
        engine: Engine::new(store, settings),
        collecting,
        ending,
    };
    carry_all(&mut shown, calls, outcomes);
    shown.engine
}
