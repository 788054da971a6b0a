// Payloads worked by hand from the table of section 2.1. That of the integers is also what SQLite 3.40.1 writes of them.

ghost use Rattle.std.specs.Prelude.{◌≤◌, ◌^◌, length};

use db_format::{RecordFault, RecordView, RowPieces, Value, write_row};
use std::alloc::Global;
use std::process::Abort;
use std::test::Fail;

// The payload has these values, whether they are asked for by their index or one after another.
fn check_read(rt: &impl Abort, payload: &[u8], values: &[Value<'_>]) -> Result<(), RecordFault>
    requires { length payload.now ≤ 2 ^ 30 }
{
    let record = RecordView::read(payload)?;
    let mut left = record.values();
    for (index, value) in values.iter().enumerate() {
        assert_eq!(rt; left.next(), Some(*value), "the next, {index}");
        assert!(rt; (index as u64) < record.columns() as u64);
        assert_eq!(rt; record.value(index as u32), *value, "by its index, {index}");
    }
    assert_eq!(rt; left.next(), None);
    assert_eq!(rt; record.columns() as usize, values.len());
    Ok(())
}

// The payload is written of these values, and read as them.
fn check_written(
    rt: &impl Abort,
    alloc: Global,
    payload: &[u8],
    values: &[Value<'_>],
) -> Result<(), Fail>
    requires { length payload.now ≤ 2 ^ 30 }
{
    let mut pieces = RowPieces::new(alloc);
    for value in values {
        pieces.push(value)?;
    }
    let row = write_row(alloc, &pieces)?;
    assert_eq!(rt; row.as_slice(), payload);
    check_read(rt, payload, values)?;
    Ok(())
}

#[test]
fn a_row_of_items_is_written_and_read(rt: HostRuntime) -> Result<(), Fail> {
    check_written(
        &rt,
        rt.alloc(),
        b"\x05\x00\x2b\x0c\x01item-0000000010\x00",
        &[
            Value::Null,
            Value::Text(b"item-0000000010"),
            Value::Blob(b""),
            Value::Int(0),
        ],
    )
}

#[test]
fn an_integer_takes_the_least_type(rt: HostRuntime) -> Result<(), Fail> {
    check_written(
        &rt,
        rt.alloc(),
        &[
            13, 1, 1, 2, 2, 3, 3, 4, 4, 5, 5, 6, 7, //
            0xff, 0x7f, 0, 0x80, 0xff, 0x7f, 0, 0x80, 0, 0xff, 0x7f, 0xff, //
            0, 0x80, 0, 0, 0x80, 0, 0, 0, 0, 0, 0x80, 0, 0, 0, //
            0xff, 0xff, 0x7f, 0xff, 0xff, 0xff, 0x80, 0, 0, 0, 0, 0, 0, 0, //
            0x3f, 0xf8, 0, 0, 0, 0, 0, 0,
        ],
        &[
            Value::Int(-1),
            Value::Int(127),
            Value::Int(128),
            Value::Int(-129),
            Value::Int(1 << 15),
            Value::Int(-32_769),
            Value::Int(1 << 23),
            Value::Int(-(1 << 31)),
            Value::Int(1 << 31),
            Value::Int(-(1 << 31) - 1),
            Value::Int(i64::MIN),
            Value::Float([0x3f, 0xf8, 0, 0, 0, 0, 0, 0]),
        ],
    )
}

#[test]
fn each_serial_type_is_read(rt: HostRuntime) -> Result<(), Fail> {
    check_read(
        &rt,
        &[
            15, 0, 1, 2, 3, 4, 5, 6, 7, 8, 9, 12, 13, 16, 17, //
            0x80, 0x80, 1, 0xff, 0xff, 0xfe, 0x7f, 0xff, 0xff, 0xff, //
            0x80, 0, 0, 0, 0, 0, 0x7f, 0xff, 0xff, 0xff, 0xff, 0xff, 0xff, 0xff, //
            1, 2, 3, 4, 5, 6, 7, 8, 0, 0xff, b'h', b'i',
        ],
        &[
            Value::Null,
            Value::Int(-128),
            Value::Int(-32_767),
            Value::Int(-2),
            Value::Int(i32::MAX as i64),
            Value::Int(-(1 << 47)),
            Value::Int(i64::MAX),
            Value::Float([1, 2, 3, 4, 5, 6, 7, 8]),
            Value::Int(0),
            Value::Int(1),
            Value::Blob(b""),
            Value::Text(b""),
            Value::Blob(&[0, 0xff]),
            Value::Text(b"hi"),
        ],
    )?;
    Ok(())
}

#[test]
fn longer_spellings_and_what_follows_are_read(rt: HostRuntime) -> Result<(), Fail> {
    let table: [(&[u8], &[Value<'_>]); 4] = [
        (&[1], &[]),
        (&[0x80, 2, 9], &[]),
        (&[0x80, 4, 0x80, 1, 7], &[Value::Int(7)]),
        (&[2, 1, 5, 9, 9], &[Value::Int(5)]),
    ];
    for (payload, values) in table {
        assert!(rt; payload.len() <= 1 << 30);
        check_read(&rt, payload, values)?;
    }
    Ok(())
}

#[test]
fn what_is_no_record_is_refused(rt: HostRuntime) {
    let table: [&[u8]; 11] = [
        &[],
        &[0x81],
        &[0],
        &[0x80, 1, 0],
        &[3, 0],
        &[2, 0x81, 0],
        &[2, 10, 0],
        &[2, 11, 0],
        &[2, 1],
        &[3, 8, 17, b'h'],
        &[10, 0xff, 0xff, 0xff, 0xff, 0xff, 0xff, 0xff, 0xff, 0xff],
    ];
    for payload in table {
        assert!(rt; payload.len() <= 1 << 30);
        assert!(rt; RecordView::read(payload).is_err(), "{payload:?}");
    }
}
