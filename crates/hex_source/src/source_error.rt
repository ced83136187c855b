//! Why a text gave no bytes.

ghost use Rattle.std.specs.Prelude.{◌≡◌, Some};
ghost use Rattle.hex_source.specs.declared.source_error.SourceError.TheVariants.{OutOfMemory};
ghost use Rattle.hex_source.specs.Texts.{error_text};

use crate::misspelling::Misspelling;
use std::alloc::AllocFailed;
use std::error::Error;
use std::fmt;

/// Why a text gave no bytes.
#[derive(Clone, Copy, PartialEq, Eq, Debug)]
pub enum SourceError {
    /// The text spells no bytes; this is the first of its faults.
    Misspelled(Misspelling),
    /// There is no memory left for the bytes.
    OutOfMemory,
}

impl fmt::Display for SourceError {
    ghost output = { λ error. Some (error_text error) };

    fn fmt<W: fmt::Write>(&self, f: &mut fmt::Formatter<W>) -> fmt::Result {
        match *self {
            SourceError::Misspelled(misspelling) => write!(f, "{misspelling}"),
            SourceError::OutOfMemory => write!(f, "out of memory"),
        }
    }
}

impl Error for SourceError {}

impl<T: Drop> From<AllocFailed<T>> for SourceError {
    ghost from_gives = { λ _ e. e ≡ OutOfMemory };

    fn from(_failed: AllocFailed<T>) -> SourceError {
        SourceError::OutOfMemory
    }
}
