//! Where a listing stands.

use day_records::fault::FileFault;

/// What a listing tells next.
#[derive(Clone, Copy, PartialEq, Eq, Debug)]
pub enum ListingStage {
    /// A fault of the file as a whole.
    Header(FileFault),
    /// Records.
    Records,
    /// The registers from a place on.
    Registers(usize),
}
