//! Free places, for which the table of obligations is searched.

ghost use Rattle.std.specs.Prelude.{is_none};

use crate::obligation::Obligation;
use seek::Keyed;

/// The key that a free place of the table bears.
#[derive(Clone, Copy, PartialEq, Eq, Debug)]
pub struct Free;

impl Keyed<Free> for Option<Obligation> {
    ghost bears = { λ o _. is_none o };

    fn is_at(&self, _key: Free) -> bool {
        self.is_none()
    }
}
