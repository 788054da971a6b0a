// Rows of ten columns are decoded.
//
// `record ROWS TIMES`: ROWS records of ten columns, each decoded TIMES times, every value of it. Prints a number that
// rests on all values.
use crate::words::number;
use db_format::{LONGEST_PAYLOAD, OutOfMemory, RecordView, RowPieces, Value, write_row};
use std::alloc::Global;
use std::io;

// Ten columns of every kind, the integers of each width.
fn row(alloc: Global, number: i64) -> Result<Vec<u8>, OutOfMemory> {
    let mut pieces = RowPieces::new(alloc);
    pieces.push(&Value::Null)?;
    pieces.push(&Value::Int(number))?;
    pieces.push(&Value::Int(7))?;
    pieces.push(&Value::Int(-30_000))?;
    pieces.push(&Value::Int(8_000_000))?;
    pieces.push(&Value::Int(1 << 40))?;
    pieces.push(&Value::Float([0x40, 0x09, 0x21, 0xfb, 0x54, 0x44, 0x2d, 0x18]))?;
    pieces.push(&Value::Text(b"item-0000000010"))?;
    pieces.push(&Value::Text(b"a text of forty bytes, not one more, so."))?;
    pieces.push(&Value::Blob(&[9; 64]))?;
    write_row(alloc, &pieces)
}

fn rows(alloc: Global, count: u64) -> Result<Vec<Vec<u8>>, OutOfMemory> {
    let mut rows = Vec::new(alloc);
    for number in 0..count.min(1 << 40) {
        let row = row(alloc, number as i64)?;
        if rows.push(row).is_err() {
            return Err(OutOfMemory);
        }
    }
    Ok(rows)
}

fn weight(value: Value<'_>) -> u64 {
    match value {
        Value::Null => 1,
        Value::Int(number) => number.cast_unsigned(),
        Value::Float(bytes) => bytes[7] as u64,
        Value::Text(bytes) => bytes.len() as u64,
        Value::Blob(bytes) => bytes.len() as u64,
    }
}

// The sum of the weights of the values, or 0 where it is no record.
fn decode(payload: &[u8]) -> u64 {
    if payload.len() as u64 > LONGEST_PAYLOAD {
        return 0;
    }
    let Ok(record) = RecordView::read(payload) else {
        return 0;
    };
    let mut sum = 0u64;
    for value in record.values() {
        sum = sum.wrapping_add(weight(value));
    }
    sum
}

fn decode_all(rows: &Vec<Vec<u8>>, times: u64) -> u64 {
    let mut sum = 0u64;
    for _ in 0..times {
        for row in rows {
            sum = sum.wrapping_add(decode(row.as_slice()));
        }
    }
    sum
}

/// Runs the loop by its words, and prints what it says.
pub fn run(rt: &HostRuntime, words: &Vec<String>) -> io::Result<()> {
    let Ok(rows) = rows(rt.alloc(), number(words, 2, 1)) else {
        return Err(io::ErrorKind::OutOfMemory.into());
    };
    let sum = decode_all(&rows, number(words, 3, 1));
    println!(rt; "{sum}")
}
