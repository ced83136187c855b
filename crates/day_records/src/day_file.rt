//! A day file and its header.

ghost use Rattle.std.specs.Prelude.{◌≡◌};
ghost use Rattle.day_records.specs.Items.{header_of};
ghost use Rattle.day_records.specs.Views.{header_as, IsBehindHeader};

use crate::fault::FileFault;
use crate::reader::Reader;

/// The greatest length of a day file in bytes.
const GREATEST_LENGTH: usize = 65_536;

/// Bytes before the first record: mark, version and reserve.
const HEADER_LENGTH: usize = 7;

/// A day file whose header was read: the reserve in kopecks, and its records.
#[derive(Clone, Copy, PartialEq, Eq, Debug)]
pub struct DayFile<'a> {
    pub reserve: u16,
    pub records: Reader<'a>,
}

/// Reads the header of a day file. Refuses a file that is too long, and then one with another mark or
/// version, or with fewer bytes than a header has.
pub fn open<'a>(file: &'a [u8]) -> Result<DayFile<'a>, FileFault>
    ensures header { header_as result ≡ header_of file.now }
    ensures records { IsBehindHeader result file.now }
{
    if file.len() > GREATEST_LENGTH {
        return Err(FileFault::TooLong);
    }
    match file {
        [b'L', b'R', b'D', 0, 1, high, low, ..] => Ok(DayFile {
            reserve: u16::from_be_bytes([*high, *low]),
            records: Reader {
                bytes: file,
                place: HEADER_LENGTH,
            },
        }),
        _ => Err(FileFault::BadHeader),
    }
}
