//! A table of counts as edits.

ghost use Rattle.std.specs.Prelude.{◌≡◌, ℕ, ◌+◌, ◌<◌, ◌≤◌, ◌^◌, [], length, All, IfOk, IfErr, OnOk, List, Some, Ok, Err};
ghost use Rattle.csv.specs.Reading.{ReadRecord, source_of, strip_bom, reader_state};
ghost use Rattle.csv.specs.declared.parser.State.TheVariants as st;
ghost use Rattle.transyt_counts.specs.Rows.{records_of, read_row};
ghost use Rattle.transyt_counts.specs.Counts.{read_rows, counts_of, tally_answer, Refuses, flow_by, with_count};
ghost use Rattle.transyt_counts.specs.Counts.{tally_of, HasRoom, AreCounted};
ghost use Rattle.transyt_counts.specs.Exact.{AreExact};
ghost use Rattle.csv.specs.Records.{fields_of};
ghost use Rattle.transyt_counts.specs.Progress.{IsReading, RefusesRow};
ghost use Rattle.transyt_counts.specs.declared.row.Count.{Count};

use crate::counts::{CountStop, Counts};
use crate::key::Key;
use crate::row::read_row;
use crate::tally::{Totals, add};
use csv::{ByteRecord, ErrorKind, Reader, ReaderBuilder};
use indexmap::IndexMap;
use std::alloc::Global;
use transyt_net::{Edit, Net};
use transyt_syntax::Code;

/// Whether a reader has one more record, which is then in `fields`.
///
/// The reader stands over bytes in memory and reads byte records of any length, so that want of memory is all
/// that can stop it.
fn next_record(reader: &mut Reader<&[u8]>, fields: &mut ByteRecord) -> Result<bool, CountStop>
    requires { IsReading reader.old }
    ensures memory { IfErr result (λ stop. stop ≡ CountStop.Memory) }
    ensures reads { IfOk result (λ found.
        ReadRecord (λ s. Some s.now) reader.old reader.new found (fields_of fields.new)) }
    ensures ready { OnOk result (IsReading reader.new) }
{
    match reader.read_byte_record(fields) {
        Ok(found) => Ok(found),
        Err(error) => match error.into_kind() {
            ErrorKind::Io(_) => Err(CountStop::Memory),
            ErrorKind::OutOfMemory => Err(CountStop::Memory),
            _ => unreachable!(),
        },
    }
}

/// Adds a row to the tally, or refuses it.
#[tactic(auto, using(crate::proofs::TallyLaws::lookup_has))]
fn take_row(
    net: &Net,
    row: u32,
    fields: &ByteRecord,
    tally: &mut IndexMap<Key, Totals>,
) -> Result<(), CountStop>
    requires { All (λ e. HasRoom e.1) tally.old.entries }
    ensures ok { OnOk result ((c : Count) × (read_row net.now row (fields_of fields.now) ≡ Ok c)
        × (tally.new.entries ≡ with_count tally.old.entries c)) }
    ensures err { IfErr result (RefusesRow net.now row (fields_of fields.now)) }
{
    match read_row(net, row, fields) {
        Err(code) => Err(CountStop::Refused { row, code }),
        Ok(count) => match add(tally, count) {
            Ok(()) => Ok(()),
            Err(_) => Err(CountStop::Memory),
        },
    }
}

/// Reads the rows of a table into an empty tally, and gives their number.
fn tally_rows(
    table: &[u8],
    net: &Net,
    reader: &mut Reader<&[u8]>,
    fields: &mut ByteRecord,
    tally: &mut IndexMap<Key, Totals>,
) -> Result<u32, CountStop>
    requires fits { length table.now ≤ 4194304 }
    requires reading { IsReading reader.old }
    requires start { reader_state reader.old ≡ st.StartRecord }
    requires source { source_of (λ s. Some s.now) reader.old ≡ Some (strip_bom table.now) }
    requires empty { tally.old.entries ≡ [] }
    ensures ok { IfOk result (λ rows. (counts : List Count)
        × (read_rows net.now 1 (records_of table.now) ≡ Ok counts)
        × (length counts ≡ rows) × (tally.new.entries ≡ tally_of counts)) }
    ensures counted { IfOk result (λ _. All (λ e. AreCounted e.1) tally.new.entries) }
    ensures err { IfErr result (Refuses (counts_of net.now table.now)) }
{
    for row in 1..table.len() as u32 + 2 {
        if !next_record(reader, fields)? {
            return Ok(row - 1);
        }
        if let Err(stop) = take_row(net, row, fields, tally) {
            return Err(stop);
        }
    }
    unreachable!()
}

/// The flow of totals in vehicles per hour, rounded down.
fn flow_by(totals: &Totals) -> u64
    requires { AreCounted totals.now }
    ensures { result ≡ flow_by totals.now }
{
    60 * totals.vehicles / totals.minutes
}

/// Writes an edit for each entry of a tally of so many rows into an empty list, up to the first whose flow is too great.
fn push_edits(
    rows: u32,
    tally: &IndexMap<Key, Totals>,
    edits: &mut Vec<Edit>,
) -> Result<(), CountStop>
    requires counted { All (λ e. AreCounted e.1) tally.now.entries }
    requires empty { edits.old.items ≡ [] }
    ensures counts { OnOk result (tally_answer rows tally.now.entries
        ≡ Ok (record { rows = rows; edits = edits.new.items })) }
    ensures refused { IfErr result (Refuses (tally_answer rows tally.now.entries)) }
{
    for place in 0..tally.len() {
        let Some((key, totals)) = tally.get_index(place) else {
            unreachable!();
        };
        let flow = flow_by(totals);
        if flow > 9999 {
            return Err(CountStop::Refused {
                row: totals.last,
                code: Code::CountedFlow,
            });
        }
        if edits.push(key.edit(flow as u32)).is_err() {
            return Err(CountStop::Memory);
        }
    }
    Ok(())
}

/// An edit for each entry of a tally of so many rows, or the first whose flow is too great.
fn edits_by(alloc: Global, rows: u32, tally: &IndexMap<Key, Totals>) -> Result<Counts, CountStop>
    requires { All (λ e. AreCounted e.1) tally.now.entries }
    ensures counts { IfOk result (λ c. tally_answer rows tally.now.entries ≡ Ok c) }
    ensures refused { IfErr result (Refuses (tally_answer rows tally.now.entries)) }
{
    let mut edits = Vec::new(alloc);
    match push_edits(rows, tally, &mut edits) {
        Ok(()) => Ok(Counts { rows, edits }),
        Err(stop) => {
            drop(edits);
            Err(stop)
        }
    }
}

/// The edits that a table of counts comes to on a network.
///
/// A row has four fields: a link, a feeder or nothing, vehicles, and the minutes in which they were counted. The
/// flow of a key is that of all its rows together, in vehicles per hour, rounded down.
pub fn read_counts(alloc: Global, table: &[u8], net: &Net) -> Result<Counts, CountStop>
    requires { length table.now ≤ 4194304 }
    ensures counts { IfOk result (λ c. counts_of net.now table.now ≡ Ok c) }
    ensures refused { IfErr result (Refuses (counts_of net.now table.now)) }
    ensures exact { IfOk result (λ c. (counts : List Count)
        × (read_rows net.now 1 (records_of table.now) ≡ Ok counts)
        × (length counts ≡ c.rows) × AreExact net.now counts c.edits) }
{
    // That a network is valid is told by its accessors.
    let _ = net.frame();
    let mut reader = ReaderBuilder::new()
        .delimiter(b',')
        .has_headers(false)
        .flexible(true)
        .from_reader(alloc, table);
    let mut fields = ByteRecord::new(alloc);
    let mut tally = IndexMap::new(alloc);
    let read = tally_rows(table, net, &mut reader, &mut fields, &mut tally);
    drop(fields);
    drop(reader);
    let rows = match read {
        Ok(rows) => rows,
        Err(stop) => {
            drop(tally);
            return Err(stop);
        }
    };
    let found = edits_by(alloc, rows, &tally);
    drop(tally);
    found
}
