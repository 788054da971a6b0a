// A row of the schema with another root page.
ghost use Rattle.std.specs.Prelude.{◌≡◌, ◌≤◌, ◌<◌, ◌+◌, ◌==◌, ℕ, pos, List, Option, Some, None, length, Err, IfOk, OnOk, if◌then◌else◌};
ghost use Rattle.btree_page.specs.Payload.{max_payload};
ghost use Rattle.db_format.specs.Record.{columns};
ghost use Rattle.db_format.specs.Row.{record_bytes};
ghost use Rattle.db_format.specs.Value.{Datum, datum_of};
ghost use Rattle.db_format.specs.Value.Datum.{int};
ghost use Rattle.db_format.specs.Values.{values_left};
ghost use Rattle.migrate_job.specs.Copied.{row_values, values_of_payload};

use db_format::{LONGEST_PAYLOAD, OutOfMemory, RecordView, RowPieces, Value, write_row};
use std::alloc::Global;

/// Why a row was not written anew.
#[derive(Clone, Copy, Debug, PartialEq, Eq)]
pub(crate) enum RowError {
    /// It is no record of at least five columns.
    NoRow,
    /// It would be longer than a payload may be.
    TooLong,
    /// Memory ran out.
    OutOfMemory,
}

/// The record of the same values but for the fourth, which is the number of the root page.
pub(crate) fn row_with_root(alloc: Global, payload: &[u8], root: u32) -> Result<Vec<u8>, RowError>
    requires short { length payload.now ≤ max_payload }
    ensures bytes { IfOk result (λ row. row.items ≡ record_bytes (row_values root (values_of_payload payload.now))) }
    ensures reads { IfOk result (λ row. columns row.items ≡ Some (row_values root (values_of_payload payload.now))) }
    ensures old { OnOk result (columns payload.now ≡ Some (values_of_payload payload.now)) }
    ensures long { OnOk result (5 ≤ length (values_of_payload payload.now)) }
    ensures short { IfOk result (λ row. length row.items ≤ max_payload) }
    // why there is none
    ensures no_row { result ≡ Err RowError.NoRow → (values : List Datum) → columns payload.now ≡ Some values → length values < 5 }
    ensures too_long { result ≡ Err RowError.TooLong → max_payload < length (record_bytes (row_values root (values_of_payload payload.now))) }
{
    let Ok(record) = RecordView::read(payload) else {
        return Err(RowError::NoRow);
    };
    if record.columns() < 5 {
        return Err(RowError::NoRow);
    }
    let row = match write_with_root(alloc, &record, root) {
        Ok(row) => row,
        Err(_) => return Err(RowError::OutOfMemory),
    };
    if row.len() as u64 > LONGEST_PAYLOAD {
        return Err(RowError::TooLong);
    }
    Ok(row)
}

// Writes the record.
fn write_with_root(alloc: Global, old: &RecordView<'_>, root: u32) -> Result<Vec<u8>, OutOfMemory>
    requires { 5 ≤ length old.now }
    ensures bytes { IfOk result (λ row. row.items ≡ record_bytes (row_values root old.now)) }
    ensures reads { IfOk result (λ row. columns row.items ≡ Some (row_values root old.now)) }
{
    let row = pieces_with_root(alloc, old, root)?;
    write_row(alloc, &row)
}

// The values, the root page among them.
fn pieces_with_root(
    alloc: Global,
    old: &RecordView<'_>,
    root: u32,
) -> Result<RowPieces, OutOfMemory>
    requires { 5 ≤ length old.now }
    ensures { IfOk result (λ row. row ≡ row_values root old.now) }
{
    let mut row = RowPieces::new(alloc);
    let mut values = old.values();
    for column in 0..old.columns() {
        let Some(value) = values.next() else {
            return Ok(row);
        };
        row.push(&root_or_value(column, value, root))?;
    }
    Ok(row)
}

// The value of a column of the new row, numbered from 0.
fn root_or_value<'a>(column: u32, value: Value<'a>, root: u32) -> Value<'a>
    ensures { datum_of result ≡ (if column == 3 then int (pos root) else datum_of value.entry) }
{
    if column == 3 {
        Value::Int(root as i64)
    } else {
        value
    }
}
