// Records, section 2.1.
ghost use Rattle.std.specs.Prelude.{◌≡◌, ◌≤◌, ◌<◌, ◌^◌, List, [], Some, None, length, unwrap_or, slice_index_or, MatchResult, IfOk, IfErr};
ghost use Rattle.std.specs.Option.{option_map};
ghost use Rattle.db_format.specs.Value.{Datum, datum_of};
ghost use Rattle.db_format.specs.Value.Datum.{null};
ghost use Rattle.db_format.specs.Record.{IsRecordOf, columns, longest_payload, values_in};

use crate::column::{count_columns, first_column};
use crate::serial::value_of;
use crate::value::Value;
use crate::values::Values;
use crate::varint::read_varint;
use std::marker::Model;

/// The length of the longest payload that is read, in bytes.
pub const LONGEST_PAYLOAD: u64 = 1 << 30;

/// A payload that is no record: its header's length or a type is cut short, the header is shorter than its own length or
/// longer than the payload, its types do not end where it ends, a type is reserved, or the body ends before the last value.
#[derive(Clone, Copy, Debug, PartialEq, Eq)]
pub struct RecordFault;

/// A record, read in place. Contracts see it as the list of its values.
#[derive(Debug, Drop)]
pub struct RecordView<'a> {
    types: &'a [u8],
    body: &'a [u8],
    count: u32,
}

impl<'a> Model for RecordView<'a> {
    ghost Value = { List Datum };

    ghost view = { λ row. unwrap_or (values_in row.types.now row.body.now) [] };

    ghost invariant = { λ row. option_map (λ values. length values) (values_in row.types.now row.body.now) ≡ Some row.count };
}

impl<'a> RecordView<'a> {
    ghost use Rattle.db_format.specs.Values.{values_left};

    /// Reads a record. Bytes after its last value are passed over.
    pub fn read(payload: &'a [u8]) -> Result<RecordView<'a>, RecordFault>
        requires { length payload.now ≤ longest_payload }
        ensures read { MatchResult result (λ row. columns payload.now ≡ Some row) (λ _. columns payload.now ≡ None) }
        ensures is_record { IfOk result (IsRecordOf payload.now) }
        ensures only { IfOk result (λ row. (values : List Datum) → IsRecordOf payload.now values → values ≡ row) }
        ensures no_record { IfErr result (λ _. (values : List Datum) → ¬ IsRecordOf payload.now values) }
    {
        let Some((size, first)) = read_varint(payload) else {
            return Err(RecordFault);
        };
        if size < first as u64 || size > payload.len() as u64 {
            return Err(RecordFault);
        }
        let (header, body) = payload.split_at(size as usize);
        let types = &header[first..];
        match count_columns(types, body) {
            Some(count) => Ok(RecordView { types, body, count }),
            None => Err(RecordFault),
        }
    }

    /// How many columns it has.
    pub fn columns(&self) -> u32
        ensures { result ≡ length self.now }
    {
        self.count
    }

    /// The value of a column, numbered from 0.
    pub fn value(&self, index: u32) -> Value<'a>
        requires { index < length self.now }
        ensures { datum_of result ≡ slice_index_or self.now index null }
    {
        let mut types = self.types;
        let mut body = self.body;
        for _earlier in 0..index {
            match first_column(types, body) {
                Some(column) => {
                    types = column.later_types;
                    body = column.later_body;
                }
                None => unreachable!(),
            }
        }
        match first_column(types, body) {
            Some(column) => value_of(column.serial, column.bytes),
            None => unreachable!(),
        }
    }

    /// Its values, from the first on.
    pub fn values(&self) -> Values<'a>
        ensures { values_left result ≡ self.now }
    {
        Values {
            types: self.types,
            body: self.body,
        }
    }
}
