//! Securities' numbers, by which the admitted ones are searched.

ghost use Rattle.std.specs.Prelude.{◌==◌};

use crate::security::Security;
use seek::Keyed;

/// A security's number, as a key of the list of securities.
#[derive(Clone, Copy, PartialEq, Eq, Debug)]
pub struct SecurityNumber(pub u16);

impl Keyed<SecurityNumber> for Security {
    ghost bears = { λ s k. (s.number == k.0) };

    fn is_at(&self, key: SecurityNumber) -> bool {
        self.number == key.0
    }
}
