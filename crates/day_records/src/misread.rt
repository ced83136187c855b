//! A day file's fault with its place.

use crate::fault::FileFault;

/// A fault and where it was met: the place of the first byte of the record that cannot be read,
/// counted from 0, or 0 for a fault of the whole file.
#[derive(Clone, Copy, PartialEq, Eq, Debug)]
pub struct Misread {
    pub fault: FileFault,
    pub place: usize,
}
