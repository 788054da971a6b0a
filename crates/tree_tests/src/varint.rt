// Spellings worked by hand; those of 0x10204081 and of 0x7f on two bytes stand in SQLite's btreeInt.h.

use db_format::{read_varint, write_varint};

// The value is written so and read back, and not with its last byte cut off.
fn is_spelled(value: u64, bytes: &[u8]) -> bool {
    let mut out = [0xff; 9];
    let size = write_varint(value, &mut out);
    out[..size] == bytes[..]
        && read_varint(&out) == Some((value, size))
        && read_varint(&out[..size - 1]).is_none()
}

#[test]
fn each_length_is_written_and_read(rt: HostRuntime) {
    let table: [(u64, &[u8]); 12] = [
        (0, &[0]),
        (0x7f, &[0x7f]),
        (0x80, &[0x81, 0]),
        (0x3fff, &[0xff, 0x7f]),
        (0x4000, &[0x81, 0x80, 0]),
        (1 << 21, &[0x81, 0x80, 0x80, 0]),
        (0x1020_4081, &[0x81, 0x81, 0x81, 0x81, 0x01]),
        (1 << 35, &[0x81, 0x80, 0x80, 0x80, 0x80, 0]),
        (1 << 42, &[0x81, 0x80, 0x80, 0x80, 0x80, 0x80, 0]),
        (
            (1 << 56) - 1,
            &[0xff, 0xff, 0xff, 0xff, 0xff, 0xff, 0xff, 0x7f],
        ),
        (
            1 << 56,
            &[0x80, 0xc0, 0x80, 0x80, 0x80, 0x80, 0x80, 0x80, 0],
        ),
        (u64::MAX, &[0xff; 9]),
    ];
    for (value, bytes) in table {
        assert!(rt; is_spelled(value, bytes), "{value}");
    }
}

#[test]
fn a_longer_spelling_is_read(rt: HostRuntime) {
    let table: [(&[u8], Option<(u64, usize)>); 4] = [
        (&[0x80, 0x7f], Some((0x7f, 2))),
        (&[0x80, 0x80, 0x80, 0x80, 0x80, 0x80, 0x80, 0], Some((0, 8))),
        (
            &[0x80, 0x80, 0x80, 0x80, 0x80, 0x80, 0x80, 0x80, 0x81],
            Some((0x81, 9)),
        ),
        (&[], None),
    ];
    for (bytes, want) in table {
        assert!(rt; read_varint(bytes) == want, "{bytes:?}");
    }
}
