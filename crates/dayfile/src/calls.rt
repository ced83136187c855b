//! A record as a call of the engine.

ghost use Rattle.std.specs.Prelude.{◌≡◌, ◌++◌};
ghost use Rattle.std.specs.Option.{ok_or};
ghost use Rattle.byte_fields.specs.Fields.{bytes_of, meant_at};
ghost use Rattle.day_records.specs.declared.fault.FileFault.TheVariants.{CutShort};
ghost use Rattle.day_records.specs.declared.kind.RecordKind.TheVariants.{Buy};
ghost use Rattle.day_records.specs.Kinds.{kind_of, body_of, length_of};
ghost use Rattle.dayfile.specs.Calls.{full_length, announce_in, call_for};

use byte_fields::{Field, read};
use day_records::fault::FileFault;
use day_records::record::Record;
use full::announcement::Announcement;
use full::call::Call as FullCall;
use full::deal::Deal;
use full::opening::Opening;
use full::side::Side;
use partial::call::Call;

/// The field from a place on. Refuses (32) bytes that end before it does.
fn field<T: Field>(bytes: &[u8], at: usize) -> Result<T, FileFault>
    ensures { result ≡ ok_or (meant_at T.meant T.WIDTH at bytes.now) CutShort }
{
    read(bytes, at).ok_or(FileFault::CutShort)
}

/// The announcement that mode and further fields ask for. Refuses (32) fields that are cut short.
// purchases and sales have fields of the same length
fn announcement(side: Side, mode: u8, rest: &[u8]) -> Result<Call, FileFault>
    ensures { result
        ≡ ok_or
        (full_length (length_of Buy) (bytes_of 1 mode ++ rest.now) (announce_in side (bytes_of 1 mode ++ rest.now)))
        CutShort }
{
    Ok(Call::from(FullCall::Announce(Announcement {
        side,
        mode,
        number: field(rest, 0)?,
        account: field(rest, 4)?,
        security: field(rest, 8)?,
        quantity: field(rest, 10)?,
        price: field(rest, 14)?,
    })))
}

/// The call that a record asks for, its fields as arguments. Refuses a record whose fields are cut
/// short (32).
pub fn call(record: Record<'_>) -> Result<Call, FileFault>
    ensures { result ≡ call_for (kind_of «record».entry) (body_of «record».entry) }
{
    let call = match record {
        Record::Admit { security, rest } => FullCall::Admit {
            security,
            ratio: field(rest, 0)?,
        },
        Record::Open { kind, rest } => FullCall::Open(Opening {
            kind,
            code: field(rest, 0)?,
            security: field(rest, 4)?,
            limit: field(rest, 6)?,
            margin: field(rest, 14)?,
        }),
        Record::Credit { code, rest } => FullCall::Credit {
            code,
            security: field(rest, 0)?,
            amount: field(rest, 2)?,
        },
        Record::Post { participant, rest } => {
            return Ok(Call::Post {
                participant,
                amount: field(rest, 0)?,
            });
        }
        Record::Buy { mode, rest } => return announcement(Side::Buy, mode, rest),
        Record::Sell { mode, rest } => return announcement(Side::Sell, mode, rest),
        Record::Withdraw { number, .. } => FullCall::Withdraw { number },
        Record::Trade { number, rest } => FullCall::Trade(Deal {
            number,
            buy: field(rest, 0)?,
            sell: field(rest, 4)?,
            quantity: field(rest, 8)?,
            price: field(rest, 12)?,
        }),
        Record::Debit { participant, rest } => {
            return Ok(Call::Debit {
                participant,
                amount: field(rest, 0)?,
            });
        }
    };
    Ok(call.into())
}
