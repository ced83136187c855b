//! What is wrong with a day file.

ghost use Rattle.std.specs.Prelude.{◌≡◌};

/// A day file's fault. Each has its refusal number.
#[derive(Clone, Copy, PartialEq, Eq, Debug)]
pub enum FileFault {
    /// The file is over 65,536 bytes.
    TooLong = 30,
    /// No record begins with this letter.
    UnknownLetter = 31,
    /// The file ends within a record.
    CutShort = 32,
    /// Another mark or version, or under 7 bytes.
    BadHeader = 33,
}

impl FileFault {
    ghost use Rattle.day_records.specs.Kinds.{fault_number};

    /// The refusal number of the fault.
    pub fn number(self) -> u8
        ensures { result ≡ fault_number self }
    {
        self as u8
    }
}
