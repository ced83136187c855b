//! The keys of an image, as a table to be searched.

ghost use Rattle.std.specs.Prelude.{◌≡◌};
ghost use Rattle.registers.specs.Images.{count_of, image_keys};

use crate::image::{HEADER, ROW, count_of, key_at};
use crate::key::Key;
use seek::Table;

// a search compares keys: it counts once, and reads no figures
#[derive(Clone, Copy)]
pub(crate) struct ImageKeys<'a> {
    pub(crate) bytes: &'a [u8],
    pub(crate) count: usize,
    ghost counted: { count ≡ count_of bytes.now },
}

impl Table<Key> for ImageKeys<'_> {
    ghost records = { λ s. image_keys s.bytes.now };

    fn count(&self) -> usize {
        self.count
    }

    fn record(&self, place: usize) -> Option<Key> {
        if place >= self.count {
            return None;
        }
        key_at(self.bytes, HEADER + place * ROW)
    }
}
