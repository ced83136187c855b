//! What a store refuses.

ghost use Rattle.std.specs.Prelude.{◌≡◌, Some};
ghost use Rattle.registers.specs.Registers.{fault_number};
ghost use Rattle.registers.specs.Texts.{fault_text};

use std::error::Error;
use std::fmt;

/// A store's fault. Each has its refusal number.
#[derive(Clone, Copy, PartialEq, Eq, Debug)]
pub enum StoreFault {
    /// The count of rows equals the room.
    Full = 2,
    /// There is no such register.
    NotOpen = 6,
    /// Figures that were read are out of range.
    OutOfRange = 25,
}

impl StoreFault {
    /// The refusal number of the fault.
    pub fn number(self) -> u8
        ensures { result ≡ fault_number self }
    {
        self as u8
    }
}

/// The refusal number, and S for the store.
impl fmt::Display for StoreFault {
    ghost output = { λ e. Some (fault_text e) };

    fn fmt<W: fmt::Write>(&self, f: &mut fmt::Formatter<W>) -> fmt::Result {
        let number = self.number();
        write!(f, "{number} S")
    }
}

impl Error for StoreFault {}
