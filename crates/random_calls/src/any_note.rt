//! Notes of any kind.

use crate::note::Note;
use crate::opened::Opened;
use crate::owed::Owed;

/// A note of any kind; a register's with its place among those opened.
#[derive(Clone, Copy)]
pub enum AnyNote {
    Register(usize, Opened),
    Order(Note),
    Owed(Owed),
}
