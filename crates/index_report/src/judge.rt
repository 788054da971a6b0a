// One index: what of it can be checked, and what is found.
ghost use Rattle.std.specs.Prelude.{◌≡◌, ◌≤◌, length, IfOk, IfErr, OnOk, IsTrue};
ghost use Rattle.std.specs.List.{All};
ghost use Rattle.db_format.specs.Record.{longest_payload};
ghost use Rattle.db_format.specs.Source.{Rose, no_pins};
ghost use Rattle.db_format.specs.Value.{datum_of};
ghost use Rattle.btree_model.specs.Tree.{root_family};
ghost use Rattle.btree_walk.specs.Causes.{IsGivenBy, is_failure};
ghost use Rattle.index_report.specs.Verdicts.{IsJudged, IsJudgedBeside, column, is_read, named_root, table_named};

use crate::verdict::{Unchecked, Verdict};
use btree_page::Family;
use btree_walk::{WalkError, tree_family};
use db_format::{OutOfMemory, PageSource, RecordView, Value};
use index_check::check_index;
use index_text::is_plain;
use rowid_find::names_table;
use schema_map::SchemaRow;
use std::alloc::Global;

/// What is found of the index with this schema row, whose root is 0 where it has no tree. `rows` are those of the schema.
pub(crate) fn judge<S: PageSource>(
    alloc: Global,
    source: &mut S,
    rows: &[SchemaRow],
    root: u32,
    row: &RecordView<'_>,
) -> Result<Verdict, WalkError<S::Refusal>>
    requires unpinned { S.pins source.old ≡ no_pins }
    requires root { root ≤ (S.plain source.old).count }
    requires high { All (λ row. row.root ≤ (S.plain source.old).count) rows.now }
    requires short { All (λ row. length row.payload ≤ longest_payload) rows.now }
    ensures found { IsTrue S.tells → IsJudged S.refuses (S.plain source.old) rows.now root row.now result }
    ensures given { IfErr result (IsGivenBy S.only_read S.plain S.refuses source.old) }
    ensures fault { IfErr result (λ error. IsTrue (is_failure S.is_fault error) → Rose (S.faults source.old) (S.faults source.new)) }
    ensures unpinned { OnOk result (S.pins source.new ≡ no_pins) }
    ensures reads { S.only_read source.old source.new }
{
    let pages = source.pages();
    prove!(root <= pages);
    if root == 0 {
        return Ok(Verdict::Unchecked(Unchecked::NoTree));
    }
    match tree_family(source, root) {
        Err(refusal) => return Err(WalkError::Source(refusal)),
        Ok(Family::Table) => return Ok(Verdict::Unchecked(Unchecked::NoTree)),
        Ok(Family::Index) => {}
    }
    let table = table_root(rows, row);
    if table == 0 {
        return Ok(Verdict::Unchecked(Unchecked::NoTable));
    }
    judge_beside(alloc, source, table, root, row)
}

// What is found of the index with this tree, beside the tree of its table.
fn judge_beside<S: PageSource>(
    alloc: Global,
    source: &mut S,
    table: u32,
    root: u32,
    row: &RecordView<'_>,
) -> Result<Verdict, WalkError<S::Refusal>>
    requires unpinned { S.pins source.old ≡ no_pins }
    requires table_low { 1 ≤ table }
    requires table_high { table ≤ (S.plain source.old).count }
    requires root_low { 1 ≤ root }
    requires root_high { root ≤ (S.plain source.old).count }
    requires index { IsTrue S.tells → root_family root ((S.plain source.old).page root) ≡ Family.Index }
    ensures found { IsTrue S.tells → IsJudgedBeside S.refuses (S.plain source.old) table root row.now result }
    ensures given { IfErr result (IsGivenBy S.only_read S.plain S.refuses source.old) }
    ensures fault { IfErr result (λ error. IsTrue (is_failure S.is_fault error) → Rose (S.faults source.old) (S.faults source.new)) }
    ensures unpinned { OnOk result (S.pins source.new ≡ no_pins) }
    ensures reads { S.only_read source.old source.new }
{
    match tree_family(source, table) {
        Err(refusal) => return Err(WalkError::Source(refusal)),
        Ok(Family::Index) => return Ok(Verdict::Unchecked(Unchecked::NoRowids)),
        Ok(Family::Table) => {}
    }
    match is_read(alloc, row) {
        Err(_) => return Err(WalkError::OutOfMemory),
        Ok(false) => return Ok(Verdict::Unchecked(Unchecked::NotRead)),
        Ok(true) => {}
    }
    match check_index(alloc, source, table, root) {
        Err(error) => Err(error),
        Ok(found) => Ok(Verdict::Checked(found)),
    }
}

/// The value of a column, NULL where there is none.
pub(crate) fn value_at<'a>(row: &RecordView<'a>, index: u32) -> Value<'a>
    ensures { datum_of result ≡ column row.now index }
{
    if index < row.columns() {
        row.value(index)
    } else {
        Value::Null
    }
}

// The root of the table to which the index with this schema row belongs, 0 where there is none.
fn table_root(rows: &[SchemaRow], row: &RecordView<'_>) -> u32
    requires { All (λ row. length row.payload ≤ longest_payload) rows.now }
    ensures { result ≡ table_named rows.now (column row.now 2) }
{
    match value_at(row, 2) {
        Value::Text(name) => root_of_table(rows, name),
        Value::Null | Value::Int(_) | Value::Float(_) | Value::Blob(_) => 0,
    }
}

// The root of the first table of this name that has a tree, 0 where there is none.
fn root_of_table(rows: &[SchemaRow], name: &[u8]) -> u32
    requires { All (λ row. length row.payload ≤ longest_payload) rows.now }
    ensures { result ≡ named_root name.now rows.now }
{
    for row in rows {
        if row.root == 0 {
            continue;
        }
        if names_table(row.payload.as_slice(), name) {
            return row.root;
        }
    }
    0
}

// Whether the index with this schema row has an entry for each row: it has no text, as one that was made for a UNIQUE or a PRIMARY
// KEY, or a text that is read.
fn is_read(alloc: Global, row: &RecordView<'_>) -> Result<bool, OutOfMemory>
    ensures { IfOk result (λ read. read ≡ is_read (column row.now 4)) }
{
    match value_at(row, 4) {
        Value::Null => Ok(true),
        Value::Text(text) => is_plain(alloc, text),
        Value::Int(_) | Value::Float(_) | Value::Blob(_) => Ok(false),
    }
}
