// The names of a schema that are near a name, section 2.6.
ghost use Rattle.std.specs.Prelude.{◌≡◌, ◌≤◌, length, option_map, IfOk, IfErr, OnOk, IsTrue};
ghost use Rattle.db_format.specs.Pages.{nothing};
ghost use Rattle.db_format.specs.Record.{columns, longest_payload};
ghost use Rattle.db_format.specs.Source.{Rose, no_pins};
ghost use Rattle.db_format.specs.Value.{datum_of};
ghost use Rattle.btree_model.specs.Schema.{schema_part};
ghost use Rattle.btree_walk.specs.Causes.{IsAmong, IsGivenBy, is_failure};
ghost use Rattle.schema_names.specs.Near.{is_near, near_columns, near_names, near_row, near_text};
ghost use Rattle.schema_map.specs.Schema.{schema_rows};

use crate::kind::{SchemaKind, kind_of};
use btree_walk::WalkError;
use db_format::{LONGEST_PAYLOAD, PageSource, RecordView, Seen, Value};
use schema_map::{SchemaRow, read_schema};
use std::alloc::{AllocError, Global};
use std::marker::Model;

/// How many names are listed at most.
pub const MOST_NAMES: usize = 10;

/// A name as it is stored. Contracts see its bytes.
#[derive(Drop)]
pub struct StoredName {
    bytes: Vec<u8>,
}

impl Model for StoredName {
    ghost use Rattle.std.specs.Prelude.{List, ℕ};

    ghost Value = { List ℕ };

    ghost view = { λ name. name.bytes.items };
}

impl StoredName {
    /// Its bytes.
    pub fn as_slice(&self) -> &[u8]
        ensures { result.now ≡ self.now }
    {
        self.bytes.as_slice()
    }
}

/// A name of the schema.
#[derive(Drop)]
pub struct NearName {
    /// What it is a name of.
    pub kind: SchemaKind,
    /// Whether that has a tree: a view, a trigger and a virtual table have none.
    pub has_tree: bool,
    pub name: StoredName,
}

/// The first names of the schema that are this one but for the case of ASCII letters, in the order of its rows. Of the pages those of
/// the schema are read.
pub fn near_names<S: PageSource>(
    alloc: Global,
    source: &mut S,
    name: &[u8],
) -> Result<Vec<NearName>, WalkError<S::Refusal>>
    requires some { 1 ≤ (S.plain source.old).count }
    requires unpinned { S.pins source.old ≡ no_pins }
    // the names, or why there are none: a defect or a refused page of the schema
    ensures found { IfOk result (λ list. IsTrue S.tells → list.items ≡ near_names name.now (schema_rows (S.plain source.old))) }
    ensures stop { IfErr result (λ error. IsTrue S.tells → IsAmong S.refuses (S.plain source.old) (schema_part (S.plain source.old) nothing) error) }
    ensures given { IfErr result (IsGivenBy S.only_read S.plain S.refuses source.old) }
    ensures fault { IfErr result (λ error. IsTrue (is_failure S.is_fault error) → Rose (S.faults source.old) (S.faults source.new)) }
    // whether pages are told or not
    ensures unpinned { OnOk result (S.pins source.new ≡ no_pins) }
    ensures reads { S.only_read source.old source.new }
{
    let mut seen = match Seen::new(alloc, source.pages()) {
        Err(_) => return Err(WalkError::OutOfMemory),
        Ok(seen) => seen,
    };
    match read_schema(alloc, source, &mut seen) {
        Err(error) => Err(error),
        Ok(schema) => match near_rows(alloc, schema.rows(), name) {
            Err(_) => Err(WalkError::OutOfMemory),
            Ok(list) => Ok(list),
        },
    }
}

// The first names of these rows that are this one but for case.
fn near_rows(alloc: Global, rows: &[SchemaRow], name: &[u8]) -> Result<Vec<NearName>, AllocError>
    ensures { IfOk result (λ list. list.items ≡ near_names name.now rows.now) }
{
    let mut found = Vec::new(alloc);
    for row in rows {
        if found.len() >= MOST_NAMES {
            return Ok(found);
        }
        match near_row(alloc, row.root, row.payload.as_slice(), name) {
            Err(error) => return Err(error),
            Ok(None) => continue,
            Ok(Some(near)) => found.push(near)?,
        }
    }
    Ok(found)
}

// The row with this root and this payload, where its name is this one but for case.
fn near_row(
    alloc: Global,
    root: u32,
    payload: &[u8],
    name: &[u8],
) -> Result<Option<NearName>, AllocError>
    ensures { IfOk result (λ near. near ≡ near_row name.now root (columns payload.now)) }
{
    // no clause says that a row that was kept is no longer
    if payload.len() as u64 > LONGEST_PAYLOAD {
        return Err(AllocError);
    }
    let row = match RecordView::read(payload) {
        Err(_) => return Ok(None),
        Ok(row) => row,
    };
    if row.columns() < 2 {
        return Ok(None);
    }
    near_columns(alloc, root, row.value(0), row.value(1), name)
}

// The same by the first two columns of the row.
fn near_columns(
    alloc: Global,
    root: u32,
    kind: Value<'_>,
    own: Value<'_>,
    name: &[u8],
) -> Result<Option<NearName>, AllocError>
    ensures { IfOk result (λ near. near ≡ near_columns name.now root (datum_of kind.entry) (datum_of own.entry)) }
{
    let Some(kind) = kind_of(kind) else {
        return Ok(None);
    };
    let Some(stored) = near_text(own, name) else {
        return Ok(None);
    };
    match stored.to_vec(alloc) {
        Err(error) => Err(error),
        Ok(bytes) => Ok(Some(NearName {
            kind,
            has_tree: root != 0,
            name: StoredName { bytes },
        })),
    }
}

// The text of this value, where it is this name but for case.
fn near_text<'v>(value: Value<'v>, name: &[u8]) -> Option<&'v [u8]>
    ensures { option_map (λ stored. stored.now) result ≡ near_text name.now (datum_of value.entry) }
{
    match value {
        Value::Text(stored) if is_near(stored, name) => Some(stored),
        Value::Text(_) | Value::Null | Value::Int(_) | Value::Float(_) | Value::Blob(_) => None,
    }
}

// Whether both are alike but for case.
fn is_near(stored: &[u8], name: &[u8]) -> bool
    ensures { result ≡ is_near name.now stored.now }
{
    stored.eq_ignore_ascii_case(name)
}
