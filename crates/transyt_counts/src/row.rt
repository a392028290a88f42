//! A row of a table of counts.

ghost use Rattle.std.specs.Prelude.{◌≡◌, ◌<◌, ◌^◌, option_map};
ghost use Rattle.csv.specs.Records.{fields_of};
ghost use Rattle.transyt_counts.specs.Rows.{feeder_of, count_of, key_code, count_code, judged, read_row};

use crate::key::Key;
use csv::ByteRecord;
use transyt_net::{EditFault, Net};
use transyt_num::read_number;
use transyt_syntax::Code;

/// A row without a code, with its number in the table, from 1.
#[derive(Clone, Copy)]
pub struct Count {
    pub row: u32,
    pub key: Key,
    pub vehicles: u32,
    pub minutes: u32,
}

/// The four fields of a row.
#[derive(Clone, Copy)]
struct Fields<'a> {
    link: &'a [u8],
    feeder: &'a [u8],
    vehicles: &'a [u8],
    minutes: &'a [u8],
}

/// The feeder that a field names, none where it is empty.
fn read_feeder(field: &[u8]) -> Option<Option<u32>>
    ensures { result ≡ feeder_of field.now }
{
    match field {
        [] => Some(None),
        word => Some(Some(read_number(word)?)),
    }
}

/// The flow that a row of these four fields counts, if each is a number.
fn read_count(row: u32, fields: &Fields) -> Option<Count>
    ensures { result ≡ count_of row
        fields.now.link.now fields.now.feeder.now fields.now.vehicles.now fields.now.minutes.now }
{
    let link = read_number(fields.link)?;
    let feeder = read_feeder(fields.feeder)?;
    let vehicles = read_number(fields.vehicles)?;
    let minutes = read_number(fields.minutes)?;
    Some(Count {
        row,
        key: Key { link, feeder },
        vehicles,
        minutes,
    })
}

/// The code of a row's key.
fn key_code(net: &Net, key: Key) -> Option<Code>
    ensures { result ≡ key_code net.now key }
{
    match net.judge(&key.edit(0)) {
        None => None,
        Some(EditFault::Unknown) => Some(Code::Unknown),
        Some(_) => Some(Code::NoFeeder),
    }
}

/// The code of what a row counts.
fn count_code(net: &Net, count: Count) -> Option<Code>
    ensures { result ≡ count_code net.now count }
{
    if let Some(code) = key_code(net, count.key) {
        return Some(code);
    }
    if count.vehicles > 999_999 || count.minutes < 1 || count.minutes > 1440 {
        return Some(Code::Range);
    }
    None
}

/// The flow that a row of these four fields counts, or its code.
fn judge(net: &Net, row: u32, fields: &Fields) -> Result<Count, Code>
    ensures { result ≡ judged net.now (count_of row
        fields.now.link.now fields.now.feeder.now fields.now.vehicles.now fields.now.minutes.now) }
{
    let Some(count) = read_count(row, fields) else {
        return Err(Code::NoNumber);
    };
    match count_code(net, count) {
        None => Ok(count),
        Some(code) => Err(code),
    }
}

/// The flow that a row counts, or its code.
pub fn read_row(net: &Net, line: u32, fields: &ByteRecord) -> Result<Count, Code>
    ensures { result ≡ read_row net.now line (fields_of fields.now) }
{
    let (Some(link), Some(feeder), Some(vehicles), Some(minutes), None) = (
        fields.get(0),
        fields.get(1),
        fields.get(2),
        fields.get(3),
        fields.get(4),
    ) else {
        return Err(Code::WrongCount);
    };
    let fields = Fields {
        link,
        feeder,
        vehicles,
        minutes,
    };
    judge(net, line, &fields)
}
