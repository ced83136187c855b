//! The list of admitted securities.

ghost use Rattle.std.specs.Prelude.{◌≡◌, min, ◌≤◌, [], ◌∷◌, ◌++◌, length, if◌then◌else◌, nat_lt, Ok};
ghost use Rattle.std.specs.Option.{option_map};
ghost use Rattle.plans.specs.declared.refusal.Refusal.TheVariants.{SecuritiesFull};
ghost use Rattle.plans.specs.Steps.{demand};
ghost use Rattle.full.specs.Orders.{list_of, admitted_of, admitted_as};

use crate::security::Security;
use crate::security_number::SecurityNumber;
use plans::refusal::Refusal;
use registers::ranges::Ratio;

/// How many securities may be admitted.
pub const MOST_SECURITIES: usize = 64;

/// The admitted securities, in the order of their admission: the first `filled` places of the table. What the
/// places behind them hold means nothing.
// a table with a count beside it, which is `Copy`, as the kit's `ArrayVec` is not
#[derive(Clone, Copy, PartialEq, Eq, Debug)]
pub struct Securities {
    pub table: [Security; MOST_SECURITIES],
    pub filled: usize,
}

impl Securities {
    /// No securities.
    pub fn new() -> Securities
        ensures { list_of result ≡ [] }
    {
        Securities {
            table: [Security::default(); MOST_SECURITIES],
            filled: 0,
        }
    }

    /// How many securities are admitted.
    pub fn count(&self) -> usize
        ensures value { result ≡ length (list_of self.now) }
        ensures held { result ≡ min self.now.filled MOST_SECURITIES }
        ensures whole { length self.now.table ≡ MOST_SECURITIES }
        ensures bound { result ≤ MOST_SECURITIES }
    {
        self.filled.min(self.table.len())
    }

    /// The ratio of an admitted security, or `None` where it is not admitted.
    pub fn ratio(&self, number: u16) -> Option<Ratio>
        ensures { option_map (λ k. k.value) result ≡ admitted_as (list_of self.now) number }
    {
        let count = self.count();
        let place = seek::find(&self.table[0..count], SecurityNumber(number))?;
        Some(self.table[place].ratio)
    }

    /// Admits a security. Refuses (4) where 64 are admitted, and the list is then as it stood.
    pub fn add(&mut self, security: Security) -> Result<(), Refusal>
        ensures answer { result
            ≡ demand (nat_lt (length (list_of self.old)) MOST_SECURITIES) SecuritiesFull (Ok tt) }
        ensures after { list_of self.new
            ≡ (if nat_lt (length (list_of self.old)) MOST_SECURITIES then list_of self.old ++ admitted_of security ∷ [] else list_of self.old) }
    {
        let count = self.count();
        if count >= MOST_SECURITIES {
            return Err(Refusal::SecuritiesFull);
        }
        self.table[count] = security;
        self.filled = count + 1;
        Ok(())
    }
}
