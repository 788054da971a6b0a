// The whole text of a database.
ghost use Rattle.std.specs.Prelude.{◌≡◌, ◌≤◌, ◌<◌, ◌^◌, ◌++◌, ◌⊎◌, [], true, false, length, map, sum_by, Err, OnOk, IfOk, OnErr, IfErr, IsTrue};
ghost use Rattle.std.specs.List.{All, flat_map};
ghost use Rattle.edge_model.specs.Causes.{Rose};
ghost use Rattle.db_format.specs.Header.{header_fields};
ghost use Rattle.db_format.specs.Source.{no_pins};
ghost use Rattle.btree_model.specs.Content.{content};
ghost use Rattle.btree_model.specs.Parts.{is_database, parts};
ghost use Rattle.btree_walk.specs.Causes.{IsGivenBy, is_failure};
ghost use Rattle.schema_map.specs.Parts.{IsEarliest};
ghost use Rattle.export_rows.specs.Causes.{IfWalk, IsLateWalk, after_check, is_export_defect};
ghost use Rattle.export_rows.specs.Lines.{database_line, end_line, kept_of};
ghost use Rattle.row_text.specs.Out.{Moves, MovesPart};
ghost use Rattle.export_rows.specs.Report.{entry_count, export_report};
ghost use Rattle.export_rows.specs.Schema.{IsSchemaOf, row_count, schema_rows_text};

use crate::error::ExportError;
use crate::item::put_item;
use crate::lines::{put_database, put_end};
use btree_walk::WalkError;
use db_format::{Defect, Header, LONGEST_PAYLOAD, PageSource};
use edge_model::Sink;
use row_text::LineOut;
use schema_map::{SchemaRow, census};
use std::alloc::Global;

/// Puts the rows of a database with this header as text, after all of it was checked. Answers how many lines of rows and entries
/// there are.
pub fn export<S: PageSource, K: Sink>(
    alloc: Global,
    source: &mut S,
    header: &Header,
    out: &mut K,
) -> Result<u64, ExportError<S::Refusal>>
    requires some { 1 ≤ (S.plain source.old).count }
    requires unpinned { S.pins source.old ≡ no_pins }
    requires header { IsTrue S.tells → header.now ≡ header_fields ((S.plain source.old).page 1) }
    // the text
    ensures text { OnOk result (IsTrue S.tells → IsTrue K.tells → K.taken out.new ≡ K.taken out.old ++ export_report (content (S.plain source.old))) }
    ensures part { OnErr result (IsTrue S.tells → IsTrue K.tells → MovesPart (export_report (content (S.plain source.old))) (K.taken out.old) [] (K.taken out.new)) }
    ensures count { IfOk result (λ rows. IsTrue S.tells → rows ≡ entry_count (content (S.plain source.old))) }
    // no byte is put before the whole database was checked
    ensures sound { OnOk result (IsTrue S.tells → is_database (S.plain source.old) ≡ true) }
    ensures checked { OnErr result (IsTrue S.tells → (out.new ≡ out.old) ⊎ (is_database (S.plain source.old) ≡ true)) }
    ensures defect { IfErr result (λ error. is_export_defect error ≡ true → out.new ≡ out.old) }
    // why it stopped
    ensures causes { IfErr result (IfWalk (λ error. IsTrue S.tells → IsEarliest S.refuses (S.plain source.old) (parts (S.plain source.old)) error)) }
    ensures given { IfErr result (IfWalk (IsGivenBy S.only_read S.plain S.refuses source.old)) }
    ensures fault { IfErr result (IfWalk (λ error. IsTrue (is_failure S.is_fault error) → Rose (S.faults source.old) (S.faults source.new))) }
    ensures output { result ≡ Err ExportError.OutputFault → Rose (K.faults out.old) (K.faults out.new) }
    // what stays as it was
    ensures later { K.faults out.old ≤ K.faults out.new }
    ensures unpinned { OnOk result (S.pins source.new ≡ no_pins) }
    ensures reads { S.only_read source.old source.new }
{
    let census = match census(alloc, source, header) {
        Err(error) => return Err(ExportError::Walk(error)),
        Ok(census) => census,
    };
    let mut line = match LineOut::new(alloc) {
        Err(_) => return Err(ExportError::Walk(WalkError::OutOfMemory)),
        Ok(line) => line,
    };
    put_content(alloc, source, &mut line, out, header, census.schema.rows())
}

// Puts the lines of a database with this header whose schema has these rows, through a buffer without a byte.
fn put_content<S: PageSource, K: Sink>(
    alloc: Global,
    source: &mut S,
    line: &mut LineOut,
    out: &mut K,
    header: &Header,
    rows: &[SchemaRow],
) -> Result<u64, ExportError<S::Refusal>>
    requires empty { line.old ≡ [] }
    requires unpinned { S.pins source.old ≡ no_pins }
    requires high { All (λ row. row.root ≤ (S.plain source.old).count) rows.now }
    requires schema { IsTrue S.tells → IsSchemaOf (S.plain source.old) rows.now }
    ensures text { OnOk result (IsTrue S.tells → IsTrue K.tells → K.taken out.new ≡ K.taken out.old
        ++ (database_line (kept_of header.now) ++ schema_rows_text (S.plain source.old) rows.now ++ end_line)) }
    ensures part { OnErr result (IsTrue S.tells → IsTrue K.tells → MovesPart
        (database_line (kept_of header.now) ++ schema_rows_text (S.plain source.old) rows.now ++ end_line) (K.taken out.old) [] (K.taken out.new)) }
    ensures count { IfOk result (λ count. IsTrue S.tells → count ≡ sum_by (row_count (S.plain source.old)) rows.now) }
    // why it stopped
    ensures no_defect { IfErr result (λ error. is_export_defect error ≡ false) }
    ensures causes { IfErr result (IfWalk (λ error. IsTrue S.tells → IsLateWalk S.refuses (S.plain source.old) error)) }
    ensures given { IfErr result (IfWalk (IsGivenBy S.only_read S.plain S.refuses source.old)) }
    ensures fault { IfErr result (IfWalk (λ error. IsTrue (is_failure S.is_fault error) → Rose (S.faults source.old) (S.faults source.new))) }
    ensures output { result ≡ Err ExportError.OutputFault → Rose (K.faults out.old) (K.faults out.new) }
    // what stays as it was
    ensures later { K.faults out.old ≤ K.faults out.new }
    ensures unpinned { OnOk result (S.pins source.new ≡ no_pins) }
    ensures reads { S.only_read source.old source.new }
{
    match put_database(line, out, header) {
        Err(_) => return Err(ExportError::OutputFault),
        Ok(()) => {}
    }
    let count = match put_items(alloc, source, line, out, rows) {
        Err(error) => return Err(error),
        Ok(count) => count,
    };
    match put_end(line, out) {
        Err(_) => return Err(ExportError::OutputFault),
        Ok(()) => {}
    }
    match line.flush(out) {
        Err(_) => Err(ExportError::OutputFault),
        Ok(()) => Ok(count),
    }
}

// Appends the lines of the schema's rows and of their trees, and answers how many entries the trees have.
fn put_items<S: PageSource, K: Sink>(
    alloc: Global,
    source: &mut S,
    line: &mut LineOut,
    out: &mut K,
    rows: &[SchemaRow],
) -> Result<u64, ExportError<S::Refusal>>
    requires unpinned { S.pins source.old ≡ no_pins }
    requires high { All (λ row. row.root ≤ (S.plain source.old).count) rows.now }
    requires schema { IsTrue S.tells → IsSchemaOf (S.plain source.old) rows.now }
    ensures text { OnOk result (IsTrue S.tells → IsTrue K.tells → Moves (schema_rows_text (S.plain source.old) rows.now) (K.taken out.old) line.old (K.taken out.new) line.new) }
    ensures part { OnErr result (IsTrue S.tells → IsTrue K.tells → MovesPart (schema_rows_text (S.plain source.old) rows.now) (K.taken out.old) line.old (K.taken out.new)) }
    ensures count { IfOk result (λ count. IsTrue S.tells → count ≡ sum_by (row_count (S.plain source.old)) rows.now) }
    // why it stopped
    ensures no_defect { IfErr result (λ error. is_export_defect error ≡ false) }
    ensures causes { IfErr result (IfWalk (λ error. IsTrue S.tells → IsLateWalk S.refuses (S.plain source.old) error)) }
    ensures given { IfErr result (IfWalk (IsGivenBy S.only_read S.plain S.refuses source.old)) }
    ensures fault { IfErr result (IfWalk (λ error. IsTrue (is_failure S.is_fault error) → Rose (S.faults source.old) (S.faults source.new))) }
    ensures output { result ≡ Err ExportError.OutputFault → Rose (K.faults out.old) (K.faults out.new) }
    // what stays as it was
    ensures later { K.faults out.old ≤ K.faults out.new }
    ensures unpinned { OnOk result (S.pins source.new ≡ no_pins) }
    ensures reads { S.only_read source.old source.new }
{
    let mut count = 0u64;
    for row in rows {
        let payload = row.payload.as_slice();
        if payload.len() as u64 > LONGEST_PAYLOAD {
            return Err(ExportError::Walk(WalkError::OutOfMemory));
        }
        match put_item(alloc, source, line, out, row.rowid, row.root, payload) {
            Err(error) => return Err(after_check(error)),
            Ok(more) => count = count.saturating_add(more),
        }
    }
    Ok(count)
}

/// Why an export stops whose database was checked. A defect is found then only where the pages are others by now, and is none of the
/// database.
pub fn after_check<R>(error: ExportError<R>) -> ExportError<R>
    ensures { result ≡ after_check error }
{
    match error {
        ExportError::Walk(WalkError::Source(refusal)) => ExportError::Walk(WalkError::Source(
            refusal,
        )),
        ExportError::Walk(WalkError::Defect(_) | WalkError::OutOfMemory) => {
            ExportError::Walk(WalkError::OutOfMemory)
        }
        ExportError::OutputFault => ExportError::OutputFault,
    }
}
