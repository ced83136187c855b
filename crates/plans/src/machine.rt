//! Carrying out a list of calls.

ghost use Rattle.std.specs.Prelude.{◌≡◌, ℕ, List, [], ◌++◌, length, take, drop, Result};
ghost use Rattle.registers.specs.Changes.{Change};
ghost use Rattle.plans.specs.declared.refusal.Refusal.{Refusal as RefusalOf};
ghost use Rattle.plans.specs.Plans.{Plan, EngineView, Done};
ghost use Rattle.plans.specs.Runs.{outcomes_of, state_after, changes_over};

use crate::refusal::Refusal;

/// What takes calls of the type `C`, and answers each with an `A` or refuses it.
pub trait Machine<C, A> {
    /// What the rules speak of.
    ghost State: { Type 0 };

    /// The store that it stands on.
    ghost Beneath: { Type 0 };

    /// What exactly these changes, in their order, make of that store.
    ghost made: { Beneath → List Change → Beneath → Type 0 };

    /// What contracts see of it.
    ghost view: { Self → EngineView Beneath State };

    /// The plan of each call.
    ghost plan: { State → C → Result (Plan A State) RefusalOf };

    /// Carries out one call, as its plan says.
    fn carry_out(&mut self, call: C) -> Result<A, Refusal>
        ensures { Done made (plan (view self.old).state call) (view self.old) (view self.new) result };

    /// A store that nothing was done to has no changes.
    ghost unchanged: { (s : Beneath) → made s [] s };

    /// Changes and then changes are all of them, in their order.
    ghost joined: { (a b c : Beneath) (xs ys : List Change) → made a xs b → made b ys c → made a (xs ++ ys) c };
}

/// Carries out calls, in their order, as many as there are places for outcomes; each outcome is told in
/// its place, and places behind them stay.
pub fn carry_all<C: Copy, A: Copy, M: Machine<C, A>>(
    machine: &mut M,
    calls: &[C],
    outcomes: &mut [Result<A, Refusal>],
)
    ensures told { outcomes.new
        ≡ outcomes_of M.plan (M.view machine.old).state (take (length outcomes.old) calls.now) ++
        drop (length calls.now) outcomes.old }
    ensures left { (M.view machine.new).state
        ≡ state_after M.plan (M.view machine.old).state (take (length outcomes.old) calls.now) }
    ensures changes { M.made (M.view machine.old).store
        (changes_over M.plan (M.view machine.old).state (take (length outcomes.old) calls.now))
        (M.view machine.new).store }
{
    for (i, outcome) in outcomes.iter_mut().enumerate() {
        let Some(call) = calls.get(i) else {
            break;
        };
        *outcome = machine.carry_out(*call);
    }
}
