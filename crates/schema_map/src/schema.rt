// The schema, section 2.6.
ghost use Rattle.std.specs.Prelude.{◌≡◌, ◌≤◌, ◌+◌, List, length, IfOk, IfErr, OnOk, MatchResult, IsTrue};
ghost use Rattle.std.specs.List.{All};
ghost use Rattle.db_format.specs.Pages.{Pages};
ghost use Rattle.db_format.specs.Seen.{marked};
ghost use Rattle.db_format.specs.Source.{Rose, no_pins};
ghost use Rattle.btree_page.specs.Payload.{max_payload};
ghost use Rattle.btree_model.specs.Finding.{Row};
ghost use Rattle.btree_model.specs.Schema.{rowid_or_0, schema_part};
ghost use Rattle.btree_walk.specs.Causes.{IsGivenBy, IsMarked, is_failure};
ghost use Rattle.schema_map.specs.Schema.{IsRowRead, IsSchemaRead};

use crate::root::{RootPage, root_page};
use btree_page::Family;
use btree_walk::{Cursor, WalkError};
use db_format::{Defect, PageSource, RecordView, Seen};
use std::alloc::Global;
use std::marker::Model;

/// A payload. Contracts see its bytes.
#[derive(Drop)]
pub struct Payload {
    bytes: Vec<u8>,
}

impl Model for Payload {
    ghost use Rattle.std.specs.Prelude.{List, ℕ};

    ghost Value = { List ℕ };

    ghost view = { λ payload. payload.bytes.items };
}

impl Payload {
    /// Its bytes.
    pub fn as_slice(&self) -> &[u8]
        ensures { result.now ≡ self.now }
    {
        self.bytes.as_slice()
    }
}

/// A row of the schema.
#[derive(Drop)]
pub struct SchemaRow {
    pub rowid: i64,
    /// The root page of its tree, 0 where it has none.
    pub root: u32,
    /// The whole row, as a record.
    pub payload: Payload,
}

/// The schema: its rows in order of rowid. Contracts see them as a list.
#[derive(Drop)]
pub struct Schema {
    rows: Vec<SchemaRow>,
}

impl Model for Schema {
    ghost use Rattle.std.specs.Prelude.{List};
    ghost use Rattle.schema_map.specs.declared.schema.SchemaRow.{SchemaRow};

    ghost Value = { List SchemaRow };

    ghost view = { λ schema. schema.rows.items };
}

impl Schema {
    /// Its rows.
    pub fn rows(&self) -> &[SchemaRow]
        ensures { result.now ≡ self.now }
    {
        self.rows.as_slice()
    }
}

/// Reads the schema, and marks each page of its tree in `seen`. A page that has a mark before the call counts as met at
/// an earlier place.
pub fn read_schema<S: PageSource>(
    alloc: Global,
    source: &mut S,
    seen: &mut Seen,
) -> Result<Schema, WalkError<S::Refusal>>
    requires some { 1 ≤ (S.plain source.old).count }
    requires unpinned { S.pins source.old ≡ no_pins }
    requires marks { length seen.old ≡ (S.plain source.old).count + 1 }
    // what it finds, or why it stopped
    ensures found { IsTrue S.tells
        → IsSchemaRead S.refuses (S.plain source.old) (schema_part (S.plain source.old) (marked seen.old)) seen.old seen.new result }
    ensures given { IfErr result (IsGivenBy S.only_read S.plain S.refuses source.old) }
    ensures fault { IfErr result (λ error. IsTrue (is_failure S.is_fault error) → Rose (S.faults source.old) (S.faults source.new)) }
    ensures marked { IsTrue S.tells → IsMarked (schema_part (S.plain source.old) (marked seen.old)) (marked seen.old) (marked seen.new) }
    // whether pages are told or not
    ensures roots { IfOk result (All (λ row. row.root ≤ (S.plain source.old).count)) }
    ensures length { length seen.new ≡ length seen.old }
    ensures unpinned { OnOk result (S.pins source.new ≡ no_pins) }
    ensures reads { S.only_read source.old source.new }
{
    let count = source.pages();
    let mut cursor = match Cursor::of_family(alloc, 1, Family::Table) {
        Err(_) => return Err(WalkError::OutOfMemory),
        Ok(cursor) => cursor,
    };
    let mut rows = Vec::new(alloc);
    'entries: loop {
        match cursor.advance(source, seen) {
            Err(error) => return Err(error),
            Ok(false) => return Ok(Schema { rows }),
            Ok(true) => {
                let entry = cursor.entry();
                match read_row(alloc, entry.rowid, entry.page, entry.payload, count) {
                    Err(error) => return Err(error),
                    Ok(row) => match rows.push(row) {
                        Err(_) => return Err(WalkError::OutOfMemory),
                        Ok(()) => {}
                    },
                }
            }
        }
    }
}

// The row of the schema that an entry of its tree is, in a database of `count` pages.
fn read_row<R>(
    alloc: Global,
    rowid: Option<i64>,
    page: u32,
    payload: &[u8],
    count: u32,
) -> Result<SchemaRow, WalkError<R>>
    requires { length payload.now ≤ max_payload }
    ensures read { (pages : Pages) → pages.count ≡ count → IsRowRead pages (record { rowid = rowid; payload = payload.now; page = page }) result }
    ensures root { IfOk result (λ row. row.root ≤ count) }
{
    let Ok(record) = RecordView::read(payload) else {
        return Err(WalkError::Defect(Defect::RecordFault { page }));
    };
    let rowid = rowid_or_0(rowid);
    match root_page(&record, count) {
        RootPage::Missing => Err(WalkError::Defect(Defect::SchemaRow { rowid })),
        RootPage::OutOfRange => Err(WalkError::Defect(Defect::RootFault { rowid })),
        RootPage::NoTree => keep_row(alloc, rowid, 0, payload),
        RootPage::At(root) => keep_row(alloc, rowid, root, payload),
    }
}

// The rowid, 0 for none: an entry of a table has one.
fn rowid_or_0(rowid: Option<i64>) -> i64
    ensures { result ≡ rowid_or_0 rowid }
{
    match rowid {
        Some(rowid) => rowid,
        None => 0,
    }
}

// A row of these parts.
fn keep_row<R>(
    alloc: Global,
    rowid: i64,
    root: u32,
    payload: &[u8],
) -> Result<SchemaRow, WalkError<R>>
    ensures { MatchResult result (λ row. row ≡ record { rowid = rowid; root = root; payload = payload.now }) (λ error. error ≡ WalkError.OutOfMemory) }
{
    match payload.to_vec(alloc) {
        Err(_) => Err(WalkError::OutOfMemory),
        Ok(bytes) => Ok(SchemaRow {
            rowid,
            root,
            payload: Payload { bytes },
        }),
    }
}
