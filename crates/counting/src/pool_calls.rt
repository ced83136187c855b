//! What calls of Level Three do over a store that is counted.

ghost use Rattle.std.specs.Prelude.{◌≡◌, OnErr};
ghost use Rattle.plans.specs.Plans.{answer_of, left_by, changes_by};
ghost use Rattle.counting.specs.Counts.{count_after};
ghost use Rattle.pool.specs.Plans.{call_of};

use crate::counting::Counting;
use plans::machine::Machine;
use plans::refusal::Refusal;
use pool::call::Call;
use pool::shown::Shown;
use registers::store::Store;

/// Carries out any call over a store that is counted, which is shown the ticket that it wants: the count grows
/// by the changes of the call's plan, and a refused call adds none. Answer, state and the store beneath are as
/// the plan says.
pub fn counted_call<S: Store>(
    shown: &mut Shown<'_, Counting<S>>,
    call: Call,
) -> Result<i64, Refusal>
    ensures answer { result ≡ answer_of (call_of shown.old.engine.state call) }
    ensures state { let plan = call_of shown.old.engine.state call in
        shown.new.engine.state ≡ left_by shown.old.engine.state plan }
    ensures count { let plan = call_of shown.old.engine.state call in
        shown.new.engine.store.count ≡ count_after shown.old.engine.store.count plan }
    ensures inner { let plan = call_of shown.old.engine.state call in
        S.Store.made shown.old.engine.store.inner (changes_by plan) shown.new.engine.store.inner }
    ensures refused { OnErr result (shown.new.engine.store.count ≡ shown.old.engine.store.count) }
{
    shown.carry_out(call)
}
