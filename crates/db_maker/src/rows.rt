// The rows of a made database.
ghost use Rattle.std.specs.Prelude.{◌≡◌, ◌≤◌, [], ◌∷◌, pos, length, IfOk};
ghost use Rattle.btree_page.specs.Payload.{max_payload};
ghost use Rattle.db_format.specs.Row.{record_bytes};
ghost use Rattle.db_format.specs.Value.Datum.{null, int, text, blob};
ghost use Rattle.db_maker.specs.Parts.{entry_in};
ghost use Rattle.db_maker.specs.Rows.{code_name, code_values, data_bytes, data_len, digit, item_name, item_values, name_values, ten_digits};

use crate::part::Part;
use db_format::{OutOfMemory, RowPieces, Value, write_row};
use std::alloc::Global;

// A decimal digit of a number, at 1, 10, 100 and so on.
fn digit(i: u32, unit: u32) -> u8
    requires { 1 ≤ unit }
    ensures { result ≡ digit i unit }
{
    48 + (i / unit % 10) as u8
}

// A number in ten digits.
fn ten_digits(i: u32) -> [u8; 10]
    ensures { result ≡ ten_digits i }
{
    [
        digit(i, 1_000_000_000),
        digit(i, 100_000_000),
        digit(i, 10_000_000),
        digit(i, 1_000_000),
        digit(i, 100_000),
        digit(i, 10_000),
        digit(i, 1_000),
        digit(i, 100),
        digit(i, 10),
        digit(i, 1),
    ]
}

// The name of an item.
fn item_name(i: u32) -> [u8; 15]
    ensures { result ≡ item_name i }
{
    let [a, b, c, d, e, f, g, h, j, k] = ten_digits(i);
    [b'i', b't', b'e', b'm', b'-', a, b, c, d, e, f, g, h, j, k]
}

// The code of an item.
fn code_name(i: u32) -> [u8; 11]
    ensures { result ≡ code_name i }
{
    let [a, b, c, d, e, f, g, h, j, k] = ten_digits(i);
    [b'c', a, b, c, d, e, f, g, h, j, k]
}

/// How many bytes the data of an item has.
pub(crate) fn data_len(i: u32) -> u32
    ensures { result ≡ data_len i }
{
    i % 10 * 500
}

// The data of an item.
fn data_bytes(alloc: Global, i: u32) -> Result<Vec<u8>, OutOfMemory>
    ensures { IfOk result (λ bytes. bytes.items ≡ data_bytes i) }
{
    let mut data = Vec::new(alloc);
    for k in 0..data_len(i) {
        let byte = ((i as u64 + k as u64) % 256) as u8;
        match data.push(byte) {
            Ok(()) => {}
            Err(_) => return Err(OutOfMemory),
        }
    }
    Ok(data)
}

// The record of an item.
fn item_row(alloc: Global, i: u32) -> Result<Vec<u8>, OutOfMemory>
    ensures { IfOk result (λ row. row.items ≡ record_bytes (item_values i)) }
{
    let name = item_name(i);
    let bytes = data_bytes(alloc, i)?;
    item_record(alloc, &name, &bytes, data_len(i))
}

// The record of a name, bytes and how many they are, behind the place of the rowid.
fn item_record(alloc: Global, name: &[u8], bytes: &[u8], len: u32) -> Result<Vec<u8>, OutOfMemory>
    ensures { IfOk result (λ row. row.items ≡ record_bytes (null ∷ text name.now ∷ blob bytes.now ∷ int (pos len) ∷ [])) }
{
    let mut row = RowPieces::new(alloc);
    row.push(&Value::Null)?;
    row.push(&Value::Text(name))?;
    row.push(&Value::Blob(bytes))?;
    row.push(&Value::Int(len as i64))?;
    write_row(alloc, &row)
}

// The record of a text and a number.
fn named_row(alloc: Global, name: &[u8], i: u32) -> Result<Vec<u8>, OutOfMemory>
    ensures { IfOk result (λ row. row.items ≡ record_bytes (text name.now ∷ int (pos i) ∷ [])) }
{
    let mut row = RowPieces::new(alloc);
    row.push(&Value::Text(name))?;
    row.push(&Value::Int(i as i64))?;
    write_row(alloc, &row)
}

/// The payload of entry i of a tree.
pub(crate) fn payload(alloc: Global, part: Part, i: u32) -> Result<Vec<u8>, OutOfMemory>
    ensures value { IfOk result (λ row. row.items ≡ (entry_in part i).payload) }
    ensures short { IfOk result (λ row. length row.items ≤ max_payload) }
{
    match part {
        Part::Items => item_row(alloc, i),
        Part::Names => named_row(alloc, &item_name(i), i),
        Part::Codes => named_row(alloc, &code_name(i), i),
    }
}

/// The rowid of entry i of a tree.
pub(crate) fn rowid(part: Part, i: u32) -> Option<i64>
    ensures { result ≡ (entry_in part i).rowid }
{
    match part {
        Part::Items => Some(i as i64),
        Part::Names | Part::Codes => None,
    }
}
