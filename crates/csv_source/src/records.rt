//! One record at a time from a reader of the crate `csv`.

ghost use Rattle.std.specs.Prelude.{◌≡◌, Ok, true, false};
ghost use Rattle.csv_source.specs.Records.{IsSet, records_left, Takes, HasNone};
ghost use Rattle.csv.specs.Records.{fields_of};

use csv::{ByteRecord, Reader};
use dfx_value::NoMemory;
use std::io::Read;

/// Takes the next record, if there is one, into `record`. No error but want of memory comes of bytes in memory: a
/// reader that isn't strict takes records of any length.
pub fn next_record<R: Read>(
    reader: &mut Reader<R>,
    record: &mut ByteRecord,
) -> Result<bool, NoMemory>
    ensures none { IsSet reader.old → result ≡ Ok false
        → HasNone (records_left R.remaining reader.old) }
    ensures some { IsSet reader.old → result ≡ Ok true
        → Takes (records_left R.remaining reader.old) (fields_of record.new)
        (records_left R.remaining reader.new) }
    ensures set { IsSet reader.old → result ≡ Ok true → IsSet reader.new }
{
    let Ok(found) = reader.read_byte_record(record) else {
        return Err(NoMemory);
    };
    Ok(found)
}
