//! The keys of registers.

ghost use Rattle.std.specs.Prelude.{◌≡◌, Some, ◌==◌};
ghost use Rattle.registers.specs.Registers.{kind_number, same_key};
ghost use Rattle.registers.specs.Texts.{key_text};

use crate::kind::RegisterKind;
use seek::Keyed;
use std::fmt;

/// A register's key as stored numbers. The kind is the number of a `RegisterKind`, or any other that the
/// bytes of an image spell; the code names the account or the participant, and the security is 0 for cash
/// and for a participant's limit.
#[derive(Clone, Copy, PartialEq, Eq, PartialOrd, Ord, Debug)]
pub struct Key {
    pub kind: u8,
    pub code: u32,
    pub security: u16,
}

impl Key {
    /// Whether the key is one of a kind of registers.
    pub fn is(self, kind: RegisterKind) -> bool
        ensures { result ≡ (self.kind == kind_number kind) }
    {
        self.kind == kind as u8
    }
}

impl Keyed<Key> for Key {
    ghost bears = { λ k sought. same_key k sought };

    fn is_at(&self, key: Key) -> bool {
        // the code first: most keys differ in it
        self.code == key.code && *self == key
    }
}

/// Kind, code and security.
impl fmt::Display for Key {
    ghost output = { λ k. Some (key_text k) };

    fn fmt<W: fmt::Write>(&self, f: &mut fmt::Formatter<W>) -> fmt::Result {
        let Key {
            kind,
            code,
            security,
        } = *self;
        write!(f, "{kind} {code} {security}")
    }
}
