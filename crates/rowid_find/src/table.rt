// The table of a name, section 2.6.
ghost use Rattle.std.specs.Prelude.{◌≡◌, ◌≤◌, length, codes, IfOk, IfErr, IfSome, OnOk, IsTrue};
ghost use Rattle.std.specs.List.{All};
ghost use Rattle.db_format.specs.Record.{columns, longest_payload};
ghost use Rattle.db_format.specs.Source.{Rose, no_pins};
ghost use Rattle.db_format.specs.Value.{datum_of};
ghost use Rattle.btree_walk.specs.Causes.{IsGivenBy, is_failure};
ghost use Rattle.schema_map.specs.declared.schema.SchemaRow.{SchemaRow as Kept};
ghost use Rattle.rowid_find.specs.Table.{IsRowTried, IsTableFound, IsTableRead, is_text, names_table, table_of};

use btree_page::{Family, page_kind};
use btree_walk::WalkError;
use db_format::{Defect, LONGEST_PAYLOAD, PageSource, RecordView, Seen, Value};
use schema_map::{SchemaRow, read_schema};
use std::alloc::Global;

/// The root page of the table of this name, `None` where the schema has none. The schema is read, and of the pages behind it the root
/// page of each row that has this name, up to that of the table.
pub fn table_root<S: PageSource>(
    alloc: Global,
    source: &mut S,
    name: &[u8],
) -> Result<Option<u32>, WalkError<S::Refusal>>
    requires some { 1 ≤ (S.plain source.old).count }
    requires unpinned { S.pins source.old ≡ no_pins }
    // the table, or why it stopped
    ensures found { IsTrue S.tells → IsTableRead S.refuses (S.plain source.old) name.now result }
    ensures given { IfErr result (IsGivenBy S.only_read S.plain S.refuses source.old) }
    ensures fault { IfErr result (λ error. IsTrue (is_failure S.is_fault error) → Rose (S.faults source.old) (S.faults source.new)) }
    // whether pages are told or not
    ensures range { IfOk result (λ found. IfSome found (λ root. (1 ≤ root) × (root ≤ (S.plain source.old).count))) }
    ensures unpinned { OnOk result (S.pins source.new ≡ no_pins) }
    ensures reads { S.only_read source.old source.new }
{
    let mut seen = match Seen::new(alloc, source.pages()) {
        Err(_) => return Err(WalkError::OutOfMemory),
        Ok(seen) => seen,
    };
    match read_schema(alloc, source, &mut seen) {
        Err(error) => Err(error),
        Ok(schema) => search_rows(source, schema.rows(), name),
    }
}

// The root of the table of this name among these rows of a schema.
fn search_rows<S: PageSource>(
    source: &mut S,
    rows: &[SchemaRow],
    name: &[u8],
) -> Result<Option<u32>, WalkError<S::Refusal>>
    requires high { All (λ row. row.root ≤ (S.plain source.old).count) rows.now }
    ensures on { IsTrue S.tells → IsTableFound S.refuses (S.plain source.old) (table_of (S.plain source.old) name.now rows.now) result }
    ensures given { IfErr result (IsGivenBy S.only_read S.plain S.refuses source.old) }
    ensures fault { IfErr result (λ error. IsTrue (is_failure S.is_fault error) → Rose (S.faults source.old) (S.faults source.new)) }
    ensures range { IfOk result (λ found. IfSome found (λ root. (1 ≤ root) × (root ≤ (S.plain source.old).count))) }
    ensures pins { S.pins source.new ≡ S.pins source.old }
    ensures reads { S.only_read source.old source.new }
{
    let pages = source.pages();
    for row in rows {
        prove!(row.root <= pages);
        if row.root == 0 {
            continue;
        }
        match try_row(source, row.rowid, row.root, row.payload.as_slice(), name) {
            Err(error) => return Err(error),
            Ok(true) => return Ok(Some(row.root)),
            Ok(false) => {}
        }
    }
    Ok(None)
}

// Whether the table of this name is that of a schema row with this payload, whose tree has this root.
fn try_row<S: PageSource>(
    source: &mut S,
    rowid: i64,
    root: u32,
    payload: &[u8],
    name: &[u8],
) -> Result<bool, WalkError<S::Refusal>>
    requires low { 1 ≤ root }
    requires high { root ≤ (S.plain source.old).count }
    ensures on { IsTrue S.tells → IsRowTried S.refuses (S.plain source.old) name.now (record { rowid = rowid; root = root; payload = payload.now }) result }
    ensures given { IfErr result (IsGivenBy S.only_read S.plain S.refuses source.old) }
    ensures fault { IfErr result (λ error. IsTrue (is_failure S.is_fault error) → Rose (S.faults source.old) (S.faults source.new)) }
    ensures pins { S.pins source.new ≡ S.pins source.old }
    ensures reads { S.only_read source.old source.new }
{
    // no clause says that a row that was kept is no longer
    if payload.len() as u64 > LONGEST_PAYLOAD {
        return Err(WalkError::OutOfMemory);
    }
    if !names_table(payload, name) {
        return Ok(false);
    }
    match source.load(root) {
        Err(refusal) => Err(WalkError::Source(refusal)),
        Ok(()) => match page_kind(source.loaded(), root) {
            None => Err(WalkError::Defect(Defect::BadKind { page: root })),
            Some(kind) => Ok(kind.family() == Family::Table),
        },
    }
}

/// Whether the schema row with this payload is that of a table of this name.
pub fn names_table(payload: &[u8], name: &[u8]) -> bool
    requires { length payload.now ≤ longest_payload }
    ensures { result ≡ names_table name.now (columns payload.now) }
{
    match RecordView::read(payload) {
        Err(_) => false,
        Ok(row) => row.columns() >= 2
            && is_text(row.value(0), b"table")
            && is_text(row.value(1), name),
    }
}

/// Whether the value is this text, as its bytes are stored.
pub fn is_text(value: Value<'_>, text: &[u8]) -> bool
    ensures { result ≡ is_text text.now (datum_of value.entry) }
{
    match value {
        Value::Text(stored) => stored == text,
        Value::Null | Value::Int(_) | Value::Float(_) | Value::Blob(_) => false,
    }
}
