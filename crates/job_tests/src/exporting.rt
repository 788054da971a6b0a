// The text of values and lines, by hand.
ghost use Rattle.std.specs.Prelude.{◌≡◌};
ghost use Rattle.db_format.specs.Source.{no_pins};

use crate::sealed::{Piece, lay};
use db_format::{Header, MemPages, PageSource, RecordView, Value, read_header, write_value_text};
use edge_memory::MemSink;
use edge_model::Sink;
use export_rows::{ExportError, export, put_database, put_end, put_schema_row};
use row_text::{LineOut, put_entry, put_value};
use std::alloc::{AllocError, Global};
use std::test::Fail;

// Values and their texts. One is "a\u{e9}" in UTF-16, the low byte first.
const TEXTS: [(Value<'static>, &[u8]); 10] = [
    (Value::Null, b"null"),
    (Value::Int(-1), b"-1"),
    (Value::Int(i64::MIN), b"-9223372036854775808"),
    (Value::Float([1; 8]), b"f'0101010101010101'"),
    (Value::Text(b"a'b"), b"'a\\x27b'"),
    (Value::Text(b" ~\\\x7f"), b"' ~\\x5c\\x7f'"),
    (Value::Text(b"a\x00\xe9\x00"), b"'a\\x00\\xe9\\x00'"),
    (Value::Text(b""), b"''"),
    (Value::Blob(b"\x00\xff"), b"x'00ff'"),
    (Value::Blob(b""), b"x''"),
];

// What is put of a value where this call of the sink fails, and whether all was put.
fn put(alloc: Global, value: &Value<'_>, failing: u64) -> Result<(bool, Vec<u8>), AllocError> {
    let mut line = LineOut::new(alloc).map_err(|_| AllocError)?;
    let mut sink = MemSink::new(alloc, &[failing]).map_err(|_| AllocError)?;
    let whole = put_value(&mut line, &mut sink, value).is_ok() && line.flush(&mut sink).is_ok();
    Ok((whole, sink.bytes().to_vec(alloc)?))
}

#[test]
fn each_kind_of_value_has_its_text(rt: HostRuntime) -> Result<(), Fail> {
    for (value, text) in TEXTS {
        let (whole, found) = put(rt.alloc(), &value, 0)?;
        assert!(rt; whole, "{value:?}");
        assert_eq!(rt; found.as_slice(), text, "{value:?}");
        let mut built = b": ".to_vec(rt.alloc())?;
        assert!(rt; write_value_text(&value, &mut built).is_ok(), "{value:?}");
        assert_eq!(rt; &built[..2], b": ".as_slice(), "{value:?}");
        assert_eq!(rt; &built[2..], text, "{value:?}");
    }
    Ok(())
}

const HEADER: Header = Header {
    page_size: 4096,
    reserve: 80,
    change: 1,
    size_field: 4,
    first_trunk: 0,
    free_count: 0,
    cookie: 1,
    format: 4,
    cache: 0,
    encoding: 1,
    user_version: 0,
    application_id: 0,
    valid_for: 1,
    sqlite_number: 3045000,
};

// A row of a table: NULL, a text of 15 bytes, no bytes, and 0.
const ROW: &[u8] = b"\x05\x00\x2b\x0c\x01item-0000000010\x00";

// A schema row of a view: its type, name, table, root and statement, of 4, 5, 5, 1 and 14 bytes.
const VIEW: &[u8] = b"\x06\x15\x17\x17\x01\x29viewnamesitems\x00CREATE VIEW ..";

const LINES: &[u8] =
    b"database cookie 1 format 4 cache 0 encoding 1 user-version 0 application-id 0 sqlite 3045000
schema 4 'view' 'names' 'items' none 'CREATE VIEW ..'
row 10 null 'item-0000000010' x'' 0
entry null 'item-0000000010' x'' 0
end
";

// Puts the database, a row of the schema and twice a row, as a row and as an entry. Answers whether all was put.
fn put_lines<K: Sink>(line: &mut LineOut, out: &mut K) -> bool {
    let (Ok(view), Ok(row)) = (RecordView::read(VIEW), RecordView::read(ROW)) else {
        return false;
    };
    put_database(line, out, &HEADER).is_ok()
        && put_schema_row(line, out, 4, &view, None).is_ok()
        && put_entry(line, out, Some(10), &row).is_ok()
        && put_entry(line, out, None, &row).is_ok()
        && put_end(line, out).is_ok()
        && line.flush(out).is_ok()
}

#[test]
fn lines_say_what_a_row_is(rt: HostRuntime) -> Result<(), Fail> {
    let mut line = LineOut::new(rt.alloc())?;
    let mut sink = MemSink::new(rt.alloc(), &[])?;
    assert!(rt; put_lines(&mut line, &mut sink));
    assert_eq!(rt; sink.bytes(), LINES);
    Ok(())
}

#[test]
fn a_failing_sink_has_whole_pieces_of_the_text(rt: HostRuntime) -> Result<(), Fail> {
    // 400,003 bytes go in seven pieces, as few as pieces of 64 KiB can be.
    let bytes = vec![in rt.alloc(); 0x5au8; 200_000]?;
    for call in 1..=8u64 {
        let (whole, found) = put(rt.alloc(), &Value::Blob(&bytes), call)?;
        assert_eq!(rt; whole, call == 8, "call {call}");
        assert!(rt;
            found.len() as u64 >= (call - 1) * 64_512 || whole,
            "call {call}"
        );
        assert!(rt; !whole || found.len() == 400_003);
        let mut rest = found.iter().skip(2);
        assert!(rt; rest.all(|byte| *byte == b'5' || *byte == b'a' || *byte == b'\''));
    }
    Ok(())
}

// A database of two pages of 512 bytes: the schema, a leaf with one cell, and a table, a leaf with two.
const PIECES: [Piece; 13] = [
    (1, 0, b"SQLite format 3\0"),
    (1, 16, &[2, 0, 1, 1, 0, 64, 32, 32]),
    (1, 27, &[1]),
    (1, 31, &[2]),
    (1, 43, &[1]),
    (1, 47, &[4]),
    (1, 59, &[1]),
    (1, 95, &[1, 0, 0x2e, 0x76, 0x88]),
    (1, 100, &[13, 0, 0, 0, 1, 1, 0xdd, 0, 1, 0xdd]),
    (1, 477, &[33, 1, 6, 23, 15, 15, 1, 51]),
    (1, 485, b"tablett\x02CREATE TABLE t(a,b)"),
    (2, 0, &[13, 0, 0, 0, 2, 1, 0xf3, 0, 1, 0xfa, 1, 0xf3]),
    (2, 499, &[5, 2, 3, 15, 14, b'x', 0, 4, 1, 3, 0, 1, 7]),
];

// Exports a source, with the header of its first page. A page that is refused, or is no first page, stands as a failure of the sink.
fn export_from<S: PageSource, K: Sink>(
    alloc: Global,
    source: &mut S,
    out: &mut K,
) -> Result<u64, ExportError<S::Refusal>>
where
    S::Refusal: Drop,
    requires { S.pins source.old ≡ no_pins }
{
    let Ok(()) = source.load(1) else {
        return Err(ExportError::OutputFault);
    };
    let Ok(header) = read_header(source.loaded(), 512, 0, false) else {
        return Err(ExportError::OutputFault);
    };
    export(alloc, source, &header, out)
}

// What an export of these pages puts, and what it answers: how many entries, or whether the sink failed.
fn exported(
    alloc: Global,
    pages: &[u8; 1024],
    failing: &[u64],
) -> Result<(Result<u64, bool>, MemSink), AllocError> {
    let mut source = MemPages::new(alloc, 512, pages).map_err(|_| AllocError)?;
    let mut sink = MemSink::new(alloc, failing).map_err(|_| AllocError)?;
    let answer = match export_from(alloc, &mut source, &mut sink) {
        Ok(entries) => Ok(entries),
        Err(ExportError::OutputFault) => Err(true),
        Err(ExportError::Walk(_)) => Err(false),
    };
    Ok((answer, sink))
}

#[test]
fn pages_in_memory_are_exported(rt: HostRuntime) -> Result<(), Fail> {
    let lines =
        b"database cookie 1 format 4 cache 0 encoding 1 user-version 0 application-id 0 sqlite 3045000
schema 1 'table' 't' 't' table 'CREATE TABLE t(a,b)'
row 1 null 7
row 2 'x' x'00'
end
";
    let mut pages = [0u8; 1024];
    lay(1, &PIECES, &mut pages[..512]);
    lay(2, &PIECES, &mut pages[512..]);
    let (answer, sink) = exported(rt.alloc(), &pages, &[])?;
    assert_eq!(rt; answer, Ok(2));
    assert_eq!(rt; sink.bytes(), lines.as_slice());
    let (answer, sink) = exported(rt.alloc(), &pages, &[1])?;
    assert_eq!(rt; answer, Err(true));
    assert_eq!(rt; sink.bytes(), [].as_slice());
    // The root of the table is no page of a tree: no line is put.
    pages[512] = 9;
    let (answer, sink) = exported(rt.alloc(), &pages, &[])?;
    assert_eq!(rt; answer, Err(false));
    assert_eq!(rt; sink.bytes(), [].as_slice());
    Ok(())
}
