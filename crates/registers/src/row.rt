//! Registers as rows of a store.

ghost use Rattle.std.specs.Prelude.{Some};
ghost use Rattle.registers.specs.Registers.{same_key};
ghost use Rattle.registers.specs.Texts.{row_text};

use crate::figures::Figures;
use crate::key::Key;
use seek::Keyed;
use std::fmt;

/// A register: its key and its figures.
#[derive(Clone, Copy, PartialEq, Eq, Debug)]
pub struct Row {
    pub key: Key,
    pub figures: Figures,
}

/// A row of zeros, to make tables of.
pub const BLANK: Row = Row {
    key: Key {
        kind: 0,
        code: 0,
        security: 0,
    },
    figures: Figures {
        limit: 0,
        blocked: 0,
        third: 0,
    },
};

impl Keyed<Key> for Row {
    ghost bears = { λ r k. same_key r.key k };

    fn is_at(&self, key: Key) -> bool {
        self.key.is_at(key)
    }
}

/// The key and then the figures.
impl fmt::Display for Row {
    ghost output = { λ r. Some (row_text r) };

    fn fmt<W: fmt::Write>(&self, f: &mut fmt::Formatter<W>) -> fmt::Result {
        let Row { key, figures } = *self;
        write!(f, "{key} {figures}")
    }
}
