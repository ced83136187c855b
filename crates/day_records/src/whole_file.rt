//! Reading a whole day file.

ghost use Rattle.std.specs.Prelude.{◌≡◌, map, IfOk};
ghost use Rattle.day_records.specs.Items.{items_of};
ghost use Rattle.day_records.specs.Views.{item_as};

use crate::day_file::open;
use crate::misread::Misread;
use crate::placed_record::PlacedRecord;
use std::alloc::{AllocError, Global};
use std::iter;

/// All records of a day file in their order, and behind them the fault that stopped the reading, if
/// there was one; a fault of the header stands alone. `AllocError` where memory does not suffice.
pub fn read_all<'a>(
    heap: Global,
    file: &'a [u8],
) -> Result<Vec<Result<PlacedRecord<'a>, Misread>>, AllocError>
    ensures { IfOk result (λ v. map item_as v.items ≡ items_of file.now) }
{
    match open(file) {
        Ok(day) => day.records.collect(heap),
        Err(fault) => iter::once(Err(Misread { fault, place: 0 })).collect(heap),
    }
}
