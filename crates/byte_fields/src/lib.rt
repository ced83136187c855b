//! Big-endian number fields in byte slices: unsigned of 1, 2, 4 and 8 bytes, and signed of 8.
//!
//! A field is named by the place of its first byte. Where it does not lie within the slice, reading
//! answers `None`, and writing refuses and leaves every byte as it stood. The same holds of a field's
//! own bytes where they are more or fewer than its width.
#![tactic(auto)]

ghost use Rattle.std.specs.Prelude.{◌≡◌, ℕ, ◌+◌, ◌*◌, ◌^◌, ◌<◌, ◌≤◌, List, length, is_ok, IfSome, nat_le};
ghost use Rattle.byte_fields.specs.Fields.{be, bytes_of, signed_be, signed_bytes_of, fills, meant_by, written_over, within, meant_at, written_at, ReadBack, Rewritten, SignedReadBack, SignedRewritten};

/// A number that stands in a field of a fixed width, the first byte the most.
pub trait Field: Copy {
    /// How many bytes the field has.
    const WIDTH: usize;

    /// How many bytes the field has.
    ghost WIDTH: { ℕ };

    /// The number that bytes write.
    ghost meant: { List ℕ → Self };

    /// The bytes that write a number.
    ghost spelled: { Self → List ℕ };

    /// The number that the bytes of a field write, or `None` where there are more or fewer of them than
    /// the field has.
    fn from_bytes(field: &[u8]) -> Option<Self>
        ensures { result ≡ meant_by meant WIDTH field.now };

    /// Writes the number into the bytes of a field. Refuses more or fewer bytes than the field has; every
    /// byte is then as it stood.
    fn write_to(self, field: &mut [u8]) -> Result<(), Outside>
        ensures answer { is_ok result ≡ fills WIDTH field.old }
        ensures after { field.new ≡ written_over WIDTH (spelled self) field.old };
}

/// The bytes are not those of a field: it does not lie within them, or they are more or fewer than it has.
#[derive(Clone, Copy, PartialEq, Eq, Debug)]
pub struct Outside;

/// The number in the field from `at` on, or `None` where the field does not lie within.
pub fn read<T: Field>(bytes: &[u8], at: usize) -> Option<T>
    ensures { result ≡ meant_at T.meant T.WIDTH at bytes.now }
{
    if !lies_within(bytes.len(), at, T::WIDTH) {
        return None;
    }
    T::from_bytes(&bytes[at..at + T::WIDTH])
}

/// Writes `value` into the field from `at` on. Refuses a field that does not lie within; every byte
/// is then as it stood.
pub fn write<T: Field>(bytes: &mut [u8], at: usize, value: T) -> Result<(), Outside>
    ensures answer { is_ok result ≡ within T.WIDTH at bytes.old }
    ensures after { bytes.new ≡ written_at T.WIDTH at (T.spelled value) bytes.old }
{
    if !lies_within(bytes.len(), at, T::WIDTH) {
        return Err(Outside);
    }
    value.write_to(&mut bytes[at..at + T::WIDTH])
}

/// At every width and every place, and of signed numbers too: a number that was written reads back as
/// itself, and a field that is written with the number it holds leaves the bytes as they stood.
pub fn fields_round_trip()
    ensures written { ReadBack }
    ensures read { Rewritten }
    ensures signed_written { SignedReadBack }
    ensures signed_read { SignedRewritten }
{}

// one impl for each number, by hand: the gate refuses an impl that a macro of the repository wrote

impl Field for u8 {
    const WIDTH: usize = 1;

    ghost WIDTH = { 1 };

    ghost meant = { be };

    ghost spelled = { bytes_of 1 };

    fn from_bytes(field: &[u8]) -> Option<u8> {
        Some(whole(field, Self::WIDTH)? as u8)
    }

    fn write_to(self, field: &mut [u8]) -> Result<(), Outside> {
        put_whole(field, Self::WIDTH, u64::from(self))
    }
}

impl Field for u16 {
    const WIDTH: usize = 2;

    ghost WIDTH = { 2 };

    ghost meant = { be };

    ghost spelled = { bytes_of 2 };

    fn from_bytes(field: &[u8]) -> Option<u16> {
        Some(whole(field, Self::WIDTH)? as u16)
    }

    fn write_to(self, field: &mut [u8]) -> Result<(), Outside> {
        put_whole(field, Self::WIDTH, u64::from(self))
    }
}

impl Field for u32 {
    const WIDTH: usize = 4;

    ghost WIDTH = { 4 };

    ghost meant = { be };

    ghost spelled = { bytes_of 4 };

    fn from_bytes(field: &[u8]) -> Option<u32> {
        Some(whole(field, Self::WIDTH)? as u32)
    }

    fn write_to(self, field: &mut [u8]) -> Result<(), Outside> {
        put_whole(field, Self::WIDTH, u64::from(self))
    }
}

impl Field for u64 {
    const WIDTH: usize = 8;

    ghost WIDTH = { 8 };

    ghost meant = { be };

    ghost spelled = { bytes_of 8 };

    fn from_bytes(field: &[u8]) -> Option<u64> {
        whole(field, Self::WIDTH)
    }

    fn write_to(self, field: &mut [u8]) -> Result<(), Outside> {
        put_whole(field, Self::WIDTH, self)
    }
}

impl Field for i64 {
    const WIDTH: usize = 8;

    ghost WIDTH = { 8 };

    ghost meant = { signed_be };

    ghost spelled = { signed_bytes_of };

    fn from_bytes(field: &[u8]) -> Option<i64> {
        Some(whole(field, Self::WIDTH)?.cast_signed())
    }

    fn write_to(self, field: &mut [u8]) -> Result<(), Outside> {
        put_whole(field, Self::WIDTH, self.cast_unsigned())
    }
}

fn lies_within(len: usize, at: usize, width: usize) -> bool
    ensures { result ≡ nat_le (width + at) len }
{
    at <= len && width <= len - at
}

fn whole(field: &[u8], width: usize) -> Option<u64>
    requires { width ≤ 8 }
    ensures value { result ≡ meant_by be width field.now }
    ensures small { IfSome result (λ n. n < 256 ^ width) }
{
    if field.len() == width {
        Some(unsigned(field))
    } else {
        None
    }
}

fn put_whole(field: &mut [u8], width: usize, value: u64) -> Result<(), Outside>
    requires { width ≤ 8 }
    ensures answer { is_ok result ≡ fills width field.old }
    ensures after { field.new ≡ written_over width (bytes_of width value) field.old }
{
    if field.len() != width {
        return Err(Outside);
    }
    put_unsigned(field, value);
    Ok(())
}

fn unsigned(field: &[u8]) -> u64
    requires { length field.now ≤ 8 }
    ensures value { result ≡ be field.now }
    ensures small { result < 256 ^ length field.now }
{
    let mut n = 0;
    for b in field {
        n = n * 256 + u64::from(*b);
    }
    n
}

fn put_unsigned(field: &mut [u8], value: u64)
    requires { length field.old ≤ 8 }
    ensures { field.new ≡ bytes_of (length field.old) value }
{
    let all = value.to_be_bytes();
    let unused = 8 - field.len();
    field.copy_from_slice(&all[unused..8]);
}
