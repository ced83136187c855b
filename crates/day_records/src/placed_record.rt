//! A record with its place in the file.

use crate::record::Record;

/// A record of a day file and the place of its letter, counted from 0.
#[derive(Clone, Copy, PartialEq, Eq, Debug)]
pub struct PlacedRecord<'a> {
    pub record: Record<'a>,
    pub place: usize,
}
