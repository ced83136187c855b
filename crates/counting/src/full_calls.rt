//! What calls of Level One do over a store that is counted.

ghost use Rattle.std.specs.Prelude.{◌≡◌, OnErr, ◌++◌, length, take, drop};
ghost use Rattle.plans.specs.Plans.{answer_of, left_by, changes_by};
ghost use Rattle.plans.specs.Runs.{outcomes_of, state_after, changes_over};
ghost use Rattle.counting.specs.Counts.{counted_on, count_after};
ghost use Rattle.full.specs.Plans.{call_of};
ghost use Rattle.full.specs.Trades.{trade_of};

use crate::counting::Counting;
use full::call::Call;
use full::deal::Deal;
use full::engine::Engine;
use plans::machine::{Machine, carry_all};
use plans::refusal::Refusal;
use registers::store::Store;

/// Carries out any call over a store that is counted: the count grows by the changes of the call's plan,
/// and a refused call adds none. Answer, state and the store beneath are as the plan says.
pub fn counted_call<S: Store>(engine: &mut Engine<Counting<S>>, call: Call) -> Result<i64, Refusal>
    ensures answer { result ≡ answer_of (call_of engine.old.state call) }
    ensures state { engine.new.state ≡ left_by engine.old.state (call_of engine.old.state call) }
    ensures count { let plan = call_of engine.old.state call in
        engine.new.store.count ≡ count_after engine.old.store.count plan }
    ensures inner { let plan = call_of engine.old.state call in
        S.Store.made engine.old.store.inner (changes_by plan) engine.new.store.inner }
    ensures refused { OnErr result (engine.new.store.count ≡ engine.old.store.count) }
{
    engine.carry_out(call)
}

/// Carries out a trade over a store that is counted; answers the count after it. State and the store
/// beneath are as the trade's plan says.
pub fn counted_trade<S: Store>(engine: &mut Engine<Counting<S>>, deal: Deal) -> u64
    ensures count { result ≡ count_after engine.old.store.count (trade_of engine.old.state deal) }
    ensures state { engine.new.state ≡ left_by engine.old.state (trade_of engine.old.state deal) }
    ensures kept { engine.new.store.count ≡ result }
    ensures inner { let plan = trade_of engine.old.state deal in
        S.Store.made engine.old.store.inner (changes_by plan) engine.new.store.inner }
{
    let _answer = engine.trade(deal);
    engine.store.changes()
}

/// Carries out calls over a store that is counted, as `carry_all` does; answers the count after the last.
pub fn counted_run<S: Store>(
    engine: &mut Engine<Counting<S>>,
    calls: &[Call],
    outcomes: &mut [Result<i64, Refusal>],
) -> u64
    ensures count { let made = take (length outcomes.old) calls.now in
        result ≡ counted_on engine.old.store.count (changes_over call_of engine.old.state made) }
    ensures told { let made = take (length outcomes.old) calls.now in
        outcomes.new ≡ outcomes_of call_of engine.old.state made ++ drop (length calls.now) outcomes.old }
    ensures state { let made = take (length outcomes.old) calls.now in
        engine.new.state ≡ state_after call_of engine.old.state made }
    ensures kept { engine.new.store.count ≡ result }
    ensures inner { let made = take (length outcomes.old) calls.now in
        S.Store.made engine.old.store.inner (changes_over call_of engine.old.state made)
        engine.new.store.inner }
{
    carry_all(engine, calls, outcomes);
    engine.store.changes()
}
