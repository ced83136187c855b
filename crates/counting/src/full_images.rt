//! Which bytes of an image calls of Level One leave.

ghost use Rattle.std.specs.Prelude.{◌≡◌};
ghost use Rattle.registers.specs.Images.{image_rows, room_of};
ghost use Rattle.plans.specs.Plans.{answer_of, left_by};
ghost use Rattle.counting.specs.Counts.{count_after, bytes_after};
ghost use Rattle.full.specs.State.{begin};
ghost use Rattle.full.specs.Calls.{credit_of};
ghost use Rattle.full.specs.Plans.{call_of};

use crate::counting::Counting;
use full::call::Call;
use full::engine::Engine;
use full::settings::Settings;
use plans::machine::Machine;
use plans::refusal::Refusal;
use registers::image::ImageStore;

/// Carries out any call over an image whose changes are counted: every byte is as the call's plan leaves it,
/// and the bytes are those that were lent.
pub fn image_call(engine: &mut Engine<Counting<ImageStore<'_>>>, call: Call) -> Result<i64, Refusal>
    ensures answer { result ≡ answer_of (call_of engine.old.state call) }
    ensures state { engine.new.state ≡ left_by engine.old.state (call_of engine.old.state call) }
    ensures count { let plan = call_of engine.old.state call in
        engine.new.store.count ≡ count_after engine.old.store.count plan }
    ensures bytes { let plan = call_of engine.old.state call in
        engine.new.store.inner.bytes.now ≡ bytes_after engine.old.store.inner.bytes.now plan }
    ensures lent { engine.new.store.inner.bytes.ghost_name ≡ engine.old.store.inner.bytes.ghost_name }
{
    engine.carry_out(call)
}

/// A credit by a new engine over an image: which bytes the store has when the engine hands it out again.
pub fn credited_store(
    store: ImageStore<'_>,
    code: u32,
    security: u16,
    amount: u64,
) -> ImageStore<'_>
    ensures bytes { let old = store.entry.bytes.now in
        let state = begin (image_rows old) (room_of old) (record { reserve = 0 }) in
        result.bytes.now ≡ bytes_after old (credit_of state code security amount) }
    ensures lent { result.bytes.ghost_name ≡ store.entry.bytes.ghost_name }
{
    let mut engine = Engine::new(store, Settings { reserve: 0 });
    let _answer = engine.credit(code, security, amount);
    engine.into_store()
}
