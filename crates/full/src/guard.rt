//! The guard over a blocked figure that is raised.

ghost use Rattle.std.specs.Prelude.{◌≡◌, pos, ◌+ℤ◌, ◌-ℤ◌, is_ok, Ok, int_le};
ghost use Rattle.plans.specs.declared.refusal.Refusal.TheVariants.{NotCovered};
ghost use Rattle.plans.specs.Steps.{demand};
ghost use Rattle.registers.specs.Registers.{Within};
ghost use Rattle.full.specs.OpenRegisters.{after_guard};

use crate::cover::Cover;
use plans::refusal::Refusal;
use registers::amounts::Amount;

/// A raised figure. It is set back where the guard ends, unless `confirm` took the guard apart.
pub struct Raised<'a> {
    figure: &'a mut i64,
    old: i64,
}

impl Drop for Raised<'_> {
    fn drop(self)
        ensures { self.exit.0.now ≡ self.entry.old }
    {
        *self.figure = self.old;
        let Raised { figure: _, old: _ } = self;
    }
}

// the guard borrows one figure, and that it is in range is about that figure alone: no type of its own says more
impl<'a> Raised<'a> {
    fn new(figure: &'a mut i64, amount: Amount) -> Raised<'a>
        requires { Within figure.old }
        ensures same { result.figure.ghost_name ≡ figure.entry.ghost_name }
        ensures raised { result.figure.now ≡ figure.old +ℤ pos amount.units }
        ensures old { result.old ≡ figure.old }
    {
        let old = *figure;
        *figure = old + i64::from(amount);
        Raised { figure, old }
    }

    fn value(&self) -> i64
        ensures { result ≡ self.entry.now.figure.now }
    {
        *self.figure
    }

    fn confirm(self)
        ensures { self.exit.0.now ≡ self.entry.figure.now }
    {
        let Raised { figure: _, old: _ } = self;
    }
}

/// Raises a blocked figure by an amount. Refuses (10) where the limit does not cover the raised figure
/// and the floor; the figure, which is raised first, is then set back.
// `blocked`, as of the guard: about the one figure that it borrows
pub(crate) fn raise_covered(blocked: &mut i64, cover: Cover) -> Result<(), Refusal>
    requires blocked { Within blocked.old }
    ensures answer { result
        ≡ demand (int_le (pos cover.floor) (cover.limit -ℤ (blocked.old +ℤ pos cover.amount.units)))
        NotCovered (Ok tt) }
    ensures after { blocked.new ≡ after_guard (is_ok result) (blocked.old +ℤ pos cover.amount.units) blocked.old }
{
    let guard = Raised::new(blocked, cover.amount);
    let left = cover.limit - guard.value();
    if left < i64::from(cover.floor) {
        return Err(Refusal::NotCovered);
    }
    guard.confirm();
    Ok(())
}
