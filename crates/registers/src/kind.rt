//! The kinds of registers.

ghost use Rattle.std.specs.Prelude.{◌≡◌};
ghost use Rattle.std.specs.Option.{ok_or};
ghost use Rattle.registers.specs.Registers.{kind_of};

/// What a register is. The number of each kind is the one that is stored.
#[derive(Clone, Copy, PartialEq, Eq, Debug)]
pub enum RegisterKind {
    /// An account's cash.
    Cash = 1,
    /// An account's holding of a security.
    Holding = 2,
    /// A participant's limit.
    Participant = 3,
}

/// The kind that a number stands for. Refuses a number that is none's, and gives it back.
impl TryFrom<u8> for RegisterKind {
    type Error = u8;

    ghost try_from_gives = { λ number r. r ≡ ok_or (kind_of number) number };

    fn try_from(number: u8) -> Result<RegisterKind, u8> {
        match number {
            1 => Ok(RegisterKind::Cash),
            2 => Ok(RegisterKind::Holding),
            3 => Ok(RegisterKind::Participant),
            _ => Err(number),
        }
    }
}
