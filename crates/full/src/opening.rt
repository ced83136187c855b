//! The arguments of openings.

ghost use Rattle.std.specs.Prelude.{◌≡◌, ◌≤◌, OnOk};
ghost use Rattle.plans.specs.declared.refusal.Refusal.TheVariants.{BadValue};
ghost use Rattle.plans.specs.Steps.{or_refuse};
ghost use Rattle.full.specs.Calls.{opening_key};

use crate::keys::{cash_key, holding_key};
use crate::ranges::{MOST_LIMIT, code_ok, limit_ok, security_ok};
use plans::refusal::Refusal;
use registers::key::Key;
use registers::kind::RegisterKind;

/// The arguments of an opening; limit and margin in kopecks, or the limit in pieces of the security.
#[derive(Clone, Copy, PartialEq, Eq, Debug)]
pub struct Opening {
    // any number: a caller checks nothing beforehand, and check 5 judges it
    pub kind: u8,
    pub code: u32,
    pub security: u16,
    pub limit: u64,
    pub margin: u64,
}

impl Opening {
    /// The key of the cash or the holding that is opened. Refuses (5) an argument outside its range, and
    /// another kind.
    #[tactic(auto, unfolding(crate::specs::Calls::opening_key))]
    pub(crate) fn key(self) -> Result<Key, Refusal>
        ensures value { result ≡ or_refuse (opening_key self) BadValue }
        ensures bound { OnOk result (self.limit ≤ MOST_LIMIT) }
    {
        if !code_ok(self.code) || !limit_ok(self.limit) || self.margin != 0 {
            return Err(Refusal::BadValue);
        }
        match RegisterKind::try_from(self.kind) {
            Ok(RegisterKind::Cash) if self.security == 0 => Ok(cash_key(self.code)),
            Ok(RegisterKind::Holding) if security_ok(self.security) => {
                Ok(holding_key(self.code, self.security))
            }
            _ => Err(Refusal::BadValue),
        }
    }
}
