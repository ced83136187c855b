//! The image store: rows in bytes that its owner lends.

ghost use Rattle.std.specs.Prelude.{◌≡◌, ◌+◌, ◌-◌, ◌*◌, ◌/◌, ◌<◌, ◌≤◌, min, [], length, is_ok, Some, nat_le};
ghost use Rattle.std.specs.List.{slice_get};
ghost use Rattle.byte_fields.specs.Fields.{part, signed_be, spliced};
ghost use Rattle.registers.specs.Stores.{place_for, put_row, put_answer, add_row, add_answer};
ghost use Rattle.registers.specs.Bounds.{image_bounded};
ghost use Rattle.registers.specs.Changes.{Led, led-none, led-joined};
ghost use Rattle.registers.specs.Images.{key_at, figures_at, row_at, marked, room_of, count_of, image_rows, key_bytes, figure_bytes, row_bytes, put_bytes, add_bytes, change_bytes, formatted};

use crate::fault::StoreFault;
use crate::figures::Figures;
use crate::image_keys::ImageKeys;
use crate::key::Key;
use crate::row::Row;
use crate::store::{MOST_ROWS, Store};
use crate::too_short::TooShort;
use byte_fields::{Field, read, write};

/// Bytes of an image before its first row: mark, version and count.
pub const HEADER: usize = 7;

/// Where in the header the two bytes of the count begin.
const COUNT_PLACE: usize = 5;

/// Bytes of a row's key: kind, code and security.
const KEY: usize = 7;

/// Bytes of a row's three figures.
const FIGURES: usize = 24;

/// Bytes of one row of an image: its key, and then its figures.
pub const ROW: usize = KEY + FIGURES;

fn is_marked(bytes: &[u8]) -> bool
    ensures { result ≡ marked bytes.now }
{
    matches!(bytes, [b'L', b'R', b'I', 0, 1, _, _, ..])
}

fn room_of(bytes: &[u8]) -> usize
    ensures { result ≡ room_of bytes.now }
{
    if bytes.len() >= HEADER && is_marked(bytes) {
        ((bytes.len() - HEADER) / ROW).min(MOST_ROWS)
    } else {
        0
    }
}

pub(crate) fn count_of(bytes: &[u8]) -> usize
    ensures { result ≡ count_of bytes.now }
{
    let room = room_of(bytes);
    read::<u16>(bytes, COUNT_PLACE).map_or(0, |count| usize::from(count).min(room))
}

// that so many bytes lie behind a place is said at each function on a row: a place alone has no such fact, and a
// row is defined by its offsets in the whole image; so no field of a row is read by `read`, which tests that again

#[tactic(auto, unfolding(crate::specs::Images::key_at))]
pub(crate) fn key_at(bytes: &[u8], at: usize) -> Option<Key>
    requires { at + KEY ≤ length bytes.now }
    ensures { result ≡ Some (key_at at bytes.now) }
{
    Some(Key {
        kind: u8::from_bytes(&bytes[at..at + 1])?,
        code: u32::from_bytes(&bytes[at + 1..at + 5])?,
        security: u16::from_bytes(&bytes[at + 5..at + KEY])?,
    })
}

fn figure_at(bytes: &[u8], at: usize) -> Option<i64>
    requires { at + 8 ≤ length bytes.now }
    ensures { result ≡ Some (signed_be (part 8 at bytes.now)) }
{
    i64::from_bytes(&bytes[at..at + 8])
}

#[tactic(auto, using(crate::proofs::Signed::signed), unfolding(crate::specs::Images::figures_at))]
fn figures_at(bytes: &[u8], at: usize) -> Option<Figures>
    requires { at + FIGURES ≤ length bytes.now }
    ensures { result ≡ Some (figures_at at bytes.now) }
{
    Some(Figures {
        limit: figure_at(bytes, at)?,
        blocked: figure_at(bytes, at + 8)?,
        third: figure_at(bytes, at + 16)?,
    })
}

fn row_at(bytes: &[u8], at: usize) -> Option<Row>
    requires { at + ROW ≤ length bytes.now }
    ensures { result ≡ Some (row_at at bytes.now) }
{
    Some(Row {
        key: key_at(bytes, at)?,
        figures: figures_at(bytes, at + KEY)?,
    })
}

fn row_in(bytes: &[u8], place: usize) -> Option<Row>
    ensures { result ≡ slice_get (image_rows bytes.now) place }
{
    if place >= count_of(bytes) {
        return None;
    }
    row_at(bytes, HEADER + place * ROW)
}

fn find_in(bytes: &[u8], key: Key) -> Option<usize>
    ensures { result ≡ place_for key (image_rows bytes.now) }
{
    let count = count_of(bytes);
    let keys = ImageKeys { bytes, count };
    seek::find_in(&keys, key)
}

// what `write` answers is known here and below: the bytes of the field are required

fn write_key(bytes: &mut [u8], at: usize, key: Key)
    requires { at + KEY ≤ length bytes.old }
    ensures { bytes.new ≡ spliced KEY at (key_bytes key) bytes.old }
{
    let _ = write(bytes, at, key.kind);
    let _ = write(bytes, at + 1, key.code);
    let _ = write(bytes, at + 5, key.security);
}

fn write_figures(bytes: &mut [u8], at: usize, figures: Figures)
    requires { at + FIGURES ≤ length bytes.old }
    ensures { bytes.new ≡ spliced FIGURES at (figure_bytes figures) bytes.old }
{
    let _ = write(bytes, at, figures.limit);
    let _ = write(bytes, at + 8, figures.blocked);
    let _ = write(bytes, at + 16, figures.third);
}

fn write_row(bytes: &mut [u8], at: usize, row: Row)
    requires { at + ROW ≤ length bytes.old }
    ensures { bytes.new ≡ spliced ROW at (row_bytes row) bytes.old }
{
    write_key(bytes, at, row.key);
    write_figures(bytes, at + KEY, row.figures);
}

/// Writes the header of an empty store into `bytes`; every byte past the header stays as it stood.
/// Refuses bytes too short for the 7 of it; they are then all as they stood, and an image without room.
pub fn format(bytes: &mut [u8]) -> Result<(), TooShort>
    ensures answer { is_ok result ≡ nat_le HEADER (length bytes.old) }
    ensures after { bytes.new ≡ formatted bytes.old }
    ensures empty { image_rows bytes.new ≡ [] }
    ensures room { room_of bytes.new ≡ min ((length bytes.old - HEADER) / ROW) MOST_ROWS }
{
    if bytes.len() < HEADER {
        return Err(TooShort);
    }
    bytes[..HEADER].copy_from_slice(b"LRI\x00\x01\x00\x00");
    Ok(())
}

// `put_bytes` and `add_bytes` stand apart from the store: a method that writes and lends the bytes to be read forgets
// what it knows of them; which bytes they leave is of the bytes before and after
fn put_bytes(bytes: &mut [u8], place: usize, figures: Figures) -> Result<(), StoreFault>
    ensures answer { result ≡ put_answer (image_rows bytes.old) place }
    ensures after { image_rows bytes.new ≡ put_row (image_rows bytes.old) place figures }
    ensures same_room { room_of bytes.new ≡ room_of bytes.old }
    ensures bytes { bytes.new ≡ put_bytes bytes.old place figures }
{
    if place >= count_of(bytes) {
        return Err(StoreFault::NotOpen);
    }
    write_figures(bytes, HEADER + place * ROW + KEY, figures);
    Ok(())
}

fn add_bytes(bytes: &mut [u8], row: Row) -> Result<(), StoreFault>
    ensures answer { result ≡ add_answer (image_rows bytes.old) (room_of bytes.old) }
    ensures after { image_rows bytes.new ≡ add_row (image_rows bytes.old) (room_of bytes.old) row }
    ensures same_room { room_of bytes.new ≡ room_of bytes.old }
    ensures bytes { bytes.new ≡ add_bytes bytes.old row }
{
    let count = count_of(bytes);
    if count >= room_of(bytes) {
        return Err(StoreFault::Full);
    }
    write_row(bytes, HEADER + count * ROW, row);
    // the count lies within the header, and the cast is proved to lose nothing
    let _ = write(bytes, COUNT_PLACE, count as u16 + 1);
    Ok(())
}

/// A store over the bytes of an image that its owner lends. Its rows are those that the bytes spell;
/// bytes without the header of an image mean no rows and room 0.
#[derive(Drop)]
pub struct ImageStore<'a> {
    bytes: &'a mut [u8],
}

impl<'a> ImageStore<'a> {
    /// The store that `bytes` spell. Every byte is as it stood.
    pub fn new(bytes: &'a mut [u8]) -> ImageStore<'a>
        ensures of { result.bytes.now ≡ bytes.old }
        ensures lent { result.bytes.ghost_name ≡ bytes.entry.ghost_name }
    {
        ImageStore { bytes }
    }

    /// The bytes of the image.
    pub fn bytes(&self) -> &[u8]
        ensures { result.now ≡ self.now.bytes.now }
    {
        self.bytes
    }
}

impl Store for ImageStore<'_> {
    ghost rows = { λ s. image_rows s.bytes.now };

    ghost capacity = { λ s. room_of s.bytes.now };

    ghost made = { λ a xs b. Led change_bytes
        a.bytes.now a.bytes.ghost_name xs b.bytes.now b.bytes.ghost_name };

    ghost bounded = { λ s. image_bounded s.bytes.now };

    ghost unchanged = { λ s. led-none change_bytes s.bytes.now s.bytes.ghost_name };

    ghost joined = { λ a b c xs ys p q. led-joined change_bytes
        a.bytes.now b.bytes.now c.bytes.now
        a.bytes.ghost_name b.bytes.ghost_name c.bytes.ghost_name xs ys p q };

    #[tactic(auto, using(crate::proofs::Signed::counted))]
    fn count(&mut self) -> usize {
        count_of(self.bytes())
    }

    fn room(&mut self) -> usize {
        room_of(self.bytes())
    }

    fn row(&mut self, place: usize) -> Option<Row> {
        row_in(self.bytes(), place)
    }

    fn find(&mut self, key: Key) -> Option<usize> {
        find_in(self.bytes(), key)
    }

    #[tactic(auto, using(crate::proofs::Images::put_changed))]
    fn put(&mut self, place: usize, figures: Figures) -> Result<(), StoreFault> {
        put_bytes(self.bytes, place, figures)
    }

    #[tactic(auto, using(crate::proofs::Images::add_changed))]
    fn add(&mut self, row: Row) -> Result<(), StoreFault> {
        add_bytes(self.bytes, row)
    }
}
