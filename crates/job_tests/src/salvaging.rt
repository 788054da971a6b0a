// Rows of damaged files. The lines of the first file are worked out by hand, those of the second are its schema.
use crate::making::make_rows;
use crate::sealed::{Piece, codec_of, codec_with, disk_of, sealed};
use cipher_profile::Secret;
use edge_memory::{MemDisk, MemSink};
use edge_model::Role;
use page_codec::Codec;
use salvage_scan::{SalvageError, Salvaged, salvage};
use std::alloc::Global;
use std::test::Fail;

// What a salvage answers, and what it puts where this call of the sink fails.
fn salvaged(
    alloc: Global,
    file: &[u8],
    codec: &Codec,
    failing: u64,
) -> Result<(Result<Salvaged, SalvageError>, Vec<u8>), Fail> {
    let mut disk = disk_of(alloc, file)?;
    let mut sink = MemSink::new(alloc, &[failing])?;
    let answer = salvage(alloc, &mut disk, codec, &mut sink);
    Ok((answer, sink.bytes().to_vec(alloc)?))
}

// Six pages of profile 3. Page 1 is a leaf without cells. Page 2 has four rows: the payload of the second has 1,069 bytes, of which 97 are
// on this page and the others on page 3, whose next number is that of no page; that of the third is no record; that of the fourth goes on
// in page 6. The cell of page 4 lies before the end of its array, page 5 is an interior page, and page 6 is not accepted.
const PIECES: [Piece; 10] = [
    (1, 0, b"SQLite format 3\0"),
    (1, 100, b"\x0d\0\0\0\0\0\0\0"),
    (
        2,
        0,
        b"\x0d\0\0\0\x04\0\0\0\x03\x84\x03\x0c\x02\xf8\x02\x80",
    ),
    (2, 640, b"\x88\x2d\x0a\x02\x01\x2a"),
    (2, 740, b"\0\0\0\x06"),
    (2, 760, b"\x01\x09\x00"),
    (2, 780, b"\x88\x2d\x07\x02\x01\x2a"),
    (2, 880, b"\0\0\0\x03"),
    (2, 900, b"\x05\x01\x03\x00\x11ab"),
    (4, 0, b"\x0d\0\0\0\x01\0\0\0\0\0"),
];

// The byte that is turned, past the end for none, and the lines.
const CASES: [(usize, &[u8]); 3] = [
    (
        6144,
        b"row 2 1 null 'ab'\nrow 2 7 42\nlost 2 9\nlost 2 10\npage 4: bad cell 0\npage 6: tag refused\nsalvaged: 2 rows, 2 lost, 1 refused pages\n",
    ),
    // the tag of page 1
    (
        992,
        b"page 1: tag refused\nrow 2 1 null 'ab'\nrow 2 7 42\nlost 2 9\nlost 2 10\npage 4: bad cell 0\npage 6: tag refused\nsalvaged: 2 rows, 2 lost, 2 refused pages\n",
    ),
    // the tag of page 3
    (
        3040,
        b"row 2 1 null 'ab'\nlost 2 7\nlost 2 9\nlost 2 10\npage 3: tag refused\npage 4: bad cell 0\npage 6: tag refused\nsalvaged: 1 rows, 3 lost, 2 refused pages\n",
    ),
];

#[test]
fn rows_of_sound_leaves_are_put(rt: HostRuntime) -> Result<(), Fail> {
    let alloc = rt.alloc();
    let codec = codec_of(&rt, "3", 0);
    let file = sealed(&rt, alloc, 6, &PIECES, 6)?;
    for (at, text) in CASES {
        let mut damaged = file.clone()?;
        if let Some(byte) = damaged.get_mut(at) {
            *byte ^= 1;
        }
        let (answer, lines) = salvaged(alloc, damaged.as_slice(), &codec, 0)?;
        assert!(rt; answer.is_ok(), "{at}");
        assert_eq!(rt; lines.as_slice(), text, "{at}");
    }
    Ok(())
}

#[test]
fn a_salvage_stops_with_its_key_or_its_sink(rt: HostRuntime) -> Result<(), Fail> {
    let alloc = rt.alloc();
    let file = sealed(&rt, alloc, 6, &PIECES, 6)?;
    let (answer, lines) = salvaged(alloc, file.as_slice(), &codec_of(&rt, "3", 9), 0)?;
    assert_eq!(rt; answer, Err(SalvageError::KeyRefused));
    assert_eq!(rt; lines.as_slice(), b"".as_slice());
    let (answer, lines) = salvaged(alloc, file.as_slice(), &codec_of(&rt, "3", 0), 1)?;
    assert_eq!(rt; answer, Err(SalvageError::OutputFault));
    assert_eq!(rt; lines.as_slice(), b"".as_slice());
    Ok(())
}

const SCHEMA: &[u8] =
    b"row 1 1 'table' 'items' 'items' 2 'CREATE TABLE items(id INTEGER PRIMARY KEY, name TEXT, data BLOB, size INTEGER)'
row 1 2 'index' 'items_name' 'items' 3 'CREATE INDEX items_name ON items(name)'
row 1 3 'table' 'codes' 'codes' 4 'CREATE TABLE codes(code TEXT PRIMARY KEY, item INTEGER) WITHOUT ROWID'
row 1 4 'view' 'names' 'names' 0 'CREATE VIEW names AS SELECT name FROM items'
salvaged: 4 rows, 0 lost, 0 refused pages
";

#[test]
fn the_schema_of_a_made_file_is_put(rt: HostRuntime) -> Result<(), Fail> {
    let alloc = rt.alloc();
    let mut disk = MemDisk::new(alloc);
    let made = make_rows(&rt, alloc, "4", 0, &mut disk)?;
    assert!(rt; made.is_ok());
    let file = disk.bytes(Role::Main).ok_or("no file")?;
    // the drawn bytes are zeros, so the salt is
    let mut key = [0u8; 32];
    for i in 0..32 {
        key[i] = i as u8;
    }
    let codec = codec_with(&rt, "4", &Secret::Raw(key), [0; 16]);
    let (answer, lines) = salvaged(alloc, file, &codec, 0)?;
    let counts = Salvaged {
        rows: 4,
        lost: 0,
        refused: 0,
    };
    assert_eq!(rt; answer, Ok(counts));
    assert_eq!(rt; lines.as_slice(), SCHEMA);
    Ok(())
}
