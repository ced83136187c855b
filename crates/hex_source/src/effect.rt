//! What a letter makes of the reading of a text.

use crate::fault::Fault;
use crate::standing::Standing;

/// What a letter makes of the reading.
#[derive(Clone, Copy, PartialEq, Eq, Debug)]
pub(crate) enum Effect {
    /// The reading goes on from here.
    Goes(Standing),
    /// The letter ends this byte, and the reading stands between bytes.
    Gives(u8),
    /// The letter cannot stand here.
    Fails(Fault),
}
