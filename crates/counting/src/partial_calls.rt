//! What calls of Level Two do over a store that is counted, and which bytes of an image they leave.

ghost use Rattle.std.specs.Prelude.{◌≡◌, OnErr};
ghost use Rattle.plans.specs.Plans.{answer_of, left_by, changes_by};
ghost use Rattle.counting.specs.Counts.{count_after, bytes_after};
ghost use Rattle.partial.specs.Calls.{trade_of};
ghost use Rattle.partial.specs.Plans.{call_of};

use crate::counting::Counting;
use full::deal::Deal;
use partial::call::Call;
use partial::engine::Engine;
use plans::machine::Machine;
use plans::refusal::Refusal;
use registers::image::ImageStore;
use registers::store::Store;

/// Carries out any call over a store that is counted: the count grows by the changes of the call's plan,
/// and a refused call adds none. Answer, state and the store beneath are as the plan says.
pub fn counted_call<S: Store>(engine: &mut Engine<Counting<S>>, call: Call) -> Result<i64, Refusal>
    ensures answer { result ≡ answer_of (call_of engine.old.state call) }
    ensures state { engine.new.state ≡ left_by engine.old.state (call_of engine.old.state call) }
    ensures count { let plan = call_of engine.old.state call in
        engine.new.store.count ≡ count_after engine.old.store.count plan }
    ensures inner { let plan = call_of engine.old.state call in
        S.Store.made engine.old.store.inner (changes_by plan) engine.new.store.inner }
    ensures refused { OnErr result (engine.new.store.count ≡ engine.old.store.count) }
{
    engine.carry_out(call)
}

/// Carries out a trade over an image whose changes are counted; answers the count after it. Every byte is
/// as the trade's plan leaves it, and the bytes are those that were lent.
pub fn image_trade(engine: &mut Engine<Counting<ImageStore<'_>>>, deal: Deal) -> u64
    ensures count { result ≡ count_after engine.old.store.count (trade_of engine.old.state deal) }
    ensures state { engine.new.state ≡ left_by engine.old.state (trade_of engine.old.state deal) }
    ensures kept { engine.new.store.count ≡ result }
    ensures bytes { let plan = trade_of engine.old.state deal in
        engine.new.store.inner.bytes.now ≡ bytes_after engine.old.store.inner.bytes.now plan }
    ensures lent { engine.new.store.inner.bytes.ghost_name ≡ engine.old.store.inner.bytes.ghost_name }
{
    let _answer = engine.trade(deal);
    engine.full.store.changes()
}
