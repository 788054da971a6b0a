// Records that are written, section 2.1.
ghost use Rattle.std.specs.Prelude.{◌≡◌, ◌+◌, ◌-◌, ◌*◌, ◌<◌, ◌≤◌, ◌^◌, List, [], ◌∷◌, ◌++◌, Some, length, take, drop, OnOk, OnErr, IfOk, IfSome, OnSome};
ghost use Rattle.std.specs.Int.{w64, cast_unsigned, bytes_high_first};
ghost use Rattle.db_format.specs.Value.{Datum, datum_of};
ghost use Rattle.db_format.specs.Varint.{varint_bytes, varint_size};
ghost use Rattle.db_format.specs.Serial.{size_of};
ghost use Rattle.db_format.specs.Record.{IsRecordOf, columns};
ghost use Rattle.db_format.specs.Row.{ArePieces, IsStorable, datum_bytes, header_size, integer_type, record_bytes, type_of, values_held};

use crate::memory::OutOfMemory;
use crate::serial::{integer_size, integer_type};
use crate::value::Value;
use crate::varint::{varint_size, write_varint};
use number_fields::u64_bytes;
use std::alloc::Global;
use std::marker::Model;

/// The values of a row that is to be written. Contracts see it as their list.
#[derive(Debug, Drop)]
pub struct RowPieces {
    // The varints of the types, and the bytes of the values.
    types: Vec<u8>,
    body: Vec<u8>,
}

impl Model for RowPieces {
    ghost Value = { List Datum };

    ghost view = { λ row. values_held row.types.items row.body.items };

    ghost invariant = { λ row. ArePieces row.types.items row.body.items };
}

impl RowPieces {
    /// A row without values.
    pub fn new(alloc: Global) -> RowPieces
        ensures { result ≡ [] }
    {
        RowPieces {
            types: Vec::new(alloc),
            body: Vec::new(alloc),
        }
    }

    /// Appends a value.
    pub fn push(&mut self, value: &Value<'_>) -> Result<(), OutOfMemory>
        ensures ok { OnOk result (self.new ≡ self.old ++ datum_of value.now ∷ []) }
        ensures err { OnErr result (self.new ≡ self.old) }
    {
        push_column(*value, &mut self.types, &mut self.body)
    }
}

/// The record of these values, in the shortest spelling.
pub fn write_row(alloc: Global, pieces: &RowPieces) -> Result<Vec<u8>, OutOfMemory>
    ensures bytes { IfOk result (λ row. row.items ≡ record_bytes pieces.now) }
    ensures is_record { IfOk result (λ row. IsRecordOf row.items pieces.now) }
    ensures reads_back { IfOk result (λ row. columns row.items ≡ Some pieces.now) }
{
    let mut head = [0; 9];
    let size = write_varint(header_size(pieces.types.len() as u64), &mut head);
    let mut row = Vec::new(alloc);
    append(&mut row, &head[..size])?;
    append(&mut row, &pieces.types)?;
    append(&mut row, &pieces.body)?;
    Ok(row)
}

// The length of a header with so many bytes of types.
fn header_size(types: u64) -> u64
    requires { types < 2 ^ 63 }
    ensures { result ≡ header_size types }
{
    types + varint_size(types + varint_size(types) as u64) as u64
}

// Appends the type and the bytes of a value, or leaves both as they were.
fn push_column(value: Value<'_>, types: &mut Vec<u8>, body: &mut Vec<u8>) -> Result<(), OutOfMemory>
    ensures types { OnOk result (types.new.items ≡ types.old.items ++ varint_bytes (type_of (datum_of value.entry))) }
    ensures body { OnOk result (body.new.items ≡ body.old.items ++ datum_bytes (datum_of value.entry)) }
    ensures storable { OnOk result (IsStorable (datum_of value.entry)) }
    ensures err { OnErr result ((types.new.items ≡ types.old.items) × (body.new.items ≡ body.old.items)) }
{
    let before = types.len();
    push_type(value, types)?;
    match push_bytes(value, body) {
        Ok(()) => Ok(()),
        Err(e) => {
            types.truncate(before);
            Err(e)
        }
    }
}

fn push_type(value: Value<'_>, types: &mut Vec<u8>) -> Result<(), OutOfMemory>
    ensures ok { OnOk result (types.new.items ≡ types.old.items ++ varint_bytes (type_of (datum_of value.entry))) }
    ensures storable { OnOk result (IsStorable (datum_of value.entry)) }
    ensures err { OnErr result (types.new.items ≡ types.old.items) }
{
    let Some(serial) = type_of(value) else {
        return Err(OutOfMemory);
    };
    let mut spelling = [0; 9];
    let size = write_varint(serial, &mut spelling);
    append(types, &spelling[..size])
}

fn push_bytes(value: Value<'_>, body: &mut Vec<u8>) -> Result<(), OutOfMemory>
    ensures ok { OnOk result (body.new.items ≡ body.old.items ++ datum_bytes (datum_of value.entry)) }
    ensures err { OnErr result (body.new.items ≡ body.old.items) }
{
    match value {
        Value::Null => Ok(()),
        Value::Int(number) => {
            let size = integer_size(number);
            append(body, &u64_bytes(number.cast_unsigned())[8 - size..])
        }
        Value::Float(bytes) => append(body, &bytes),
        Value::Text(bytes) => append(body, bytes),
        Value::Blob(bytes) => append(body, bytes),
    }
}

// The type with which a value is written. `None` where it does not fit 64 bits, for which no memory has enough bytes.
fn type_of(value: Value<'_>) -> Option<u64>
    ensures least { IfSome result (λ serial. serial ≡ type_of (datum_of value.entry)) }
    ensures storable { OnSome result (IsStorable (datum_of value.entry)) }
{
    match value {
        Value::Null => Some(0),
        Value::Int(number) => Some(integer_type(number)),
        Value::Float(_) => Some(7),
        Value::Text(bytes) => twice_len(bytes).checked_add(13),
        Value::Blob(bytes) => twice_len(bytes).checked_add(12),
    }
}

// Twice the number of bytes.
fn twice_len(bytes: &[u8]) -> u64
    ensures { result ≡ 2 * length bytes.now }
{
    2 * bytes.len() as u64
}

fn append(out: &mut Vec<u8>, bytes: &[u8]) -> Result<(), OutOfMemory>
    ensures ok { OnOk result (out.new.items ≡ out.old.items ++ bytes.now) }
    ensures err { OnErr result (out.new.items ≡ out.old.items) }
{
    match out.extend_from_slice(bytes) {
        Ok(()) => Ok(()),
        Err(_) => Err(OutOfMemory),
    }
}
