//! Carrying out a list of calls.

ghost use Rattle.std.specs.Prelude.{◌≡◌, []};
ghost use Rattle.plans.specs.Runs.{Ran, changes_of_run};
ghost use Rattle.partial.specs.State.{begin};
ghost use Rattle.partial.specs.Plans.{call_of};
ghost use Rattle.partial_law.specs.Tally.{empty, entered};
ghost use Rattle.partial_law.specs.Law.{Law};

use full::settings::Settings;
use partial::call::Call;
use partial::engine::Engine;
use plans::machine::carry_all;
use plans::refusal::Refusal;
use registers::store::Store;

/// Builds an engine over a store and carries out the calls, in their order, as many as there are
/// places for outcomes; each outcome is told in its place, and places behind them stay. The engine is
/// handed out as the last call left it.
///
/// Every call is answered or refused, moves the state, and changes the store, as its plan says. If the
/// store was empty, the law holds after each call, also where some are refused: between the state and a
/// tally that was fed the calls and their outcomes alone.
// the places of outcomes are lent: there is no heap
pub fn run<S: Store>(
    store: S,
    settings: Settings,
    calls: &[Call],
    outcomes: &mut [Result<i64, Refusal>],
) -> Engine<S>
    ensures ran { Ran call_of entered (Law settings.reserve) (S.Store.rows store ≡ []) empty
        (begin (S.Store.rows store) (S.Store.capacity store) settings) calls.now
        outcomes.old outcomes.new result.state }
    ensures changes { S.Store.made store
        (changes_of_run call_of (begin (S.Store.rows store) (S.Store.capacity store) settings)
        calls.now outcomes.old)
        result.store }
{
    let mut engine = Engine::new(store, settings);
    carry_all(&mut engine, calls, outcomes);
    engine
}
