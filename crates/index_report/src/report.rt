// The indexes of a database beside their tables.
ghost use Rattle.std.specs.Prelude.{◌≡◌, ◌≢◌, ◌≤◌, ◌<◌, ◌^◌, ◌++◌, ◌⊎◌, [], true, false, length, Err, OnOk, IfOk, OnErr, IfErr, IsTrue, option_to_list};
ghost use Rattle.std.specs.List.{All};
ghost use Rattle.edge_model.specs.Causes.{Rose};
ghost use Rattle.db_format.specs.Header.{header_fields};
ghost use Rattle.db_format.specs.Record.{longest_payload};
ghost use Rattle.db_format.specs.Source.{no_pins};
ghost use Rattle.btree_model.specs.Parts.{is_database, parts};
ghost use Rattle.btree_walk.specs.Causes.{IsGivenBy, is_failure};
ghost use Rattle.schema_map.specs.Parts.{IsEarliest};
ghost use Rattle.export_rows.specs.Causes.{IfWalk, IsLateWalk, after_check, is_export_defect};
ghost use Rattle.export_rows.specs.Schema.{IsSchemaOf};
ghost use Rattle.row_text.specs.Out.{Moves, MovesPart};
ghost use Rattle.index_report.specs.Report.{found_of, index_summary, index_text, lines_of, payload_text, payload_verdicts, rows_text};
ghost use Rattle.index_report.specs.Verdicts.{IsRowStop};

use crate::judge::{judge, value_at};
use crate::lines::{put_last, put_verdict};
use crate::summary::Summary;
use crate::verdict::Verdict;
use btree_walk::WalkError;
use db_format::{Header, LONGEST_PAYLOAD, PageSource, RecordView};
use edge_model::Sink;
use export_rows::{ExportError, after_check};
use row_text::LineOut;
use rowid_find::is_text;
use schema_map::{SchemaRow, census};
use std::alloc::Global;

/// Puts the lines of each index of a database with this header, after all of it was checked, and the last line. Answers what is found
/// in numbers.
pub fn report_indexes<S: PageSource, K: Sink>(
    alloc: Global,
    source: &mut S,
    header: &Header,
    out: &mut K,
) -> Result<Summary, ExportError<S::Refusal>>
    requires some { 1 ≤ (S.plain source.old).count }
    requires unpinned { S.pins source.old ≡ no_pins }
    requires header { IsTrue S.tells → header.now ≡ header_fields ((S.plain source.old).page 1) }
    // the text
    ensures text { OnOk result (IsTrue S.tells → IsTrue K.tells → K.taken out.new ≡ K.taken out.old ++ index_text (S.plain source.old)) }
    ensures part { OnErr result (IsTrue S.tells → IsTrue K.tells → MovesPart (index_text (S.plain source.old)) (K.taken out.old) [] (K.taken out.new)) }
    ensures found { IfOk result (λ found. IsTrue S.tells → found ≡ index_summary (S.plain source.old)) }
    // no byte is put before the whole database was checked
    ensures sound { OnOk result (IsTrue S.tells → is_database (S.plain source.old) ≡ true) }
    ensures checked { OnErr result (IsTrue S.tells → (out.new ≡ out.old) ⊎ (is_database (S.plain source.old) ≡ true)) }
    ensures defect { IfErr result (λ error. is_export_defect error ≡ true → out.new ≡ out.old) }
    // why it stopped
    ensures causes { IfErr result (IfWalk (λ error. IsTrue S.tells → IsEarliest S.refuses (S.plain source.old) (parts (S.plain source.old)) error)) }
    ensures given { IfErr result (IfWalk (IsGivenBy S.only_read S.plain S.refuses source.old)) }
    ensures fault { IfErr result (IfWalk (λ error. IsTrue (is_failure S.is_fault error) → Rose (S.faults source.old) (S.faults source.new))) }
    ensures output { result ≡ Err ExportError.OutputFault → Rose (K.faults out.old) (K.faults out.new) }
    // what stays as it was
    ensures later { K.faults out.old ≤ K.faults out.new }
    ensures unpinned { OnOk result (S.pins source.new ≡ no_pins) }
    ensures reads { S.only_read source.old source.new }
{
    let census = match census(alloc, source, header) {
        Err(error) => return Err(ExportError::Walk(error)),
        Ok(census) => census,
    };
    let mut line = match LineOut::new(alloc) {
        Err(_) => return Err(ExportError::Walk(WalkError::OutOfMemory)),
        Ok(line) => line,
    };
    put_report(alloc, source, &mut line, out, census.schema.rows())
}

// Puts the lines of the indexes of these rows of a schema, and the last line, through a buffer without a byte.
fn put_report<S: PageSource, K: Sink>(
    alloc: Global,
    source: &mut S,
    line: &mut LineOut,
    out: &mut K,
    rows: &[SchemaRow],
) -> Result<Summary, ExportError<S::Refusal>>
    requires empty { line.old ≡ [] }
    requires unpinned { S.pins source.old ≡ no_pins }
    requires high { All (λ row. row.root ≤ (S.plain source.old).count) rows.now }
    requires schema { IsTrue S.tells → IsSchemaOf (S.plain source.old) rows.now }
    ensures text { OnOk result (IsTrue S.tells → IsTrue K.tells → K.taken out.new ≡ K.taken out.old ++ lines_of (S.plain source.old) rows.now) }
    ensures part { OnErr result (IsTrue S.tells → IsTrue K.tells → MovesPart (lines_of (S.plain source.old) rows.now) (K.taken out.old) [] (K.taken out.new)) }
    ensures found { IfOk result (λ found. IsTrue S.tells → found ≡ found_of (S.plain source.old) rows.now) }
    // why it stopped
    ensures no_defect { IfErr result (λ error. is_export_defect error ≡ false) }
    ensures causes { IfErr result (IfWalk (λ error. IsTrue S.tells → IsLateWalk S.refuses (S.plain source.old) error)) }
    ensures given { IfErr result (IfWalk (IsGivenBy S.only_read S.plain S.refuses source.old)) }
    ensures fault { IfErr result (IfWalk (λ error. IsTrue (is_failure S.is_fault error) → Rose (S.faults source.old) (S.faults source.new))) }
    ensures output { result ≡ Err ExportError.OutputFault → Rose (K.faults out.old) (K.faults out.new) }
    // what stays as it was
    ensures later { K.faults out.old ≤ K.faults out.new }
    ensures unpinned { OnOk result (S.pins source.new ≡ no_pins) }
    ensures reads { S.only_read source.old source.new }
{
    // no clause says that a row that was kept is no longer
    if !are_short(rows) {
        return Err(ExportError::Walk(WalkError::OutOfMemory));
    }
    let found = match put_rows(alloc, source, line, out, rows) {
        Err(error) => return Err(error),
        Ok(found) => found,
    };
    match put_last(line, out, &found) {
        Err(_) => return Err(ExportError::OutputFault),
        Ok(()) => {}
    }
    match line.flush(out) {
        Err(_) => Err(ExportError::OutputFault),
        Ok(()) => Ok(found),
    }
}

// Whether each of these rows is one that is read as a record.
fn are_short(rows: &[SchemaRow]) -> bool
    ensures { IsTrue result → All (λ row. length row.payload ≤ longest_payload) rows.now }
{
    for row in rows {
        if row.payload.as_slice().len() as u64 > LONGEST_PAYLOAD {
            return false;
        }
    }
    true
}

// Appends the lines of the indexes of these rows, and answers what is found in numbers.
fn put_rows<S: PageSource, K: Sink>(
    alloc: Global,
    source: &mut S,
    line: &mut LineOut,
    out: &mut K,
    rows: &[SchemaRow],
) -> Result<Summary, ExportError<S::Refusal>>
    requires unpinned { S.pins source.old ≡ no_pins }
    requires high { All (λ row. row.root ≤ (S.plain source.old).count) rows.now }
    requires schema { IsTrue S.tells → IsSchemaOf (S.plain source.old) rows.now }
    requires short { All (λ row. length row.payload ≤ longest_payload) rows.now }
    ensures text { OnOk result (IsTrue S.tells → IsTrue K.tells → Moves (rows_text (S.plain source.old) rows.now rows.now) (K.taken out.old) line.old (K.taken out.new) line.new) }
    ensures part { OnErr result (IsTrue S.tells → IsTrue K.tells → MovesPart (rows_text (S.plain source.old) rows.now rows.now) (K.taken out.old) line.old (K.taken out.new)) }
    ensures found { IfOk result (λ found. IsTrue S.tells → found ≡ found_of (S.plain source.old) rows.now) }
    // why it stopped
    ensures no_defect { IfErr result (λ error. is_export_defect error ≡ false) }
    ensures causes { IfErr result (IfWalk (λ error. IsTrue S.tells → IsLateWalk S.refuses (S.plain source.old) error)) }
    ensures given { IfErr result (IfWalk (IsGivenBy S.only_read S.plain S.refuses source.old)) }
    ensures fault { IfErr result (IfWalk (λ error. IsTrue (is_failure S.is_fault error) → Rose (S.faults source.old) (S.faults source.new))) }
    ensures output { result ≡ Err ExportError.OutputFault → Rose (K.faults out.old) (K.faults out.new) }
    // what stays as it was
    ensures later { K.faults out.old ≤ K.faults out.new }
    ensures unpinned { OnOk result (S.pins source.new ≡ no_pins) }
    ensures reads { S.only_read source.old source.new }
{
    let mut found = Summary::none();
    for row in rows {
        match put_row(
            alloc,
            source,
            line,
            out,
            rows,
            row.root,
            row.payload.as_slice(),
        ) {
            Err(error) => return Err(after_check(error)),
            Ok(one) => found = found.after(one),
        }
    }
    Ok(found)
}

// Appends the lines of the index whose schema row has this payload, and a tree with this root, 0 for none. Answers what is found of
// it; `None` where it is no row of an index.
fn put_row<S: PageSource, K: Sink>(
    alloc: Global,
    source: &mut S,
    line: &mut LineOut,
    out: &mut K,
    rows: &[SchemaRow],
    root: u32,
    payload: &[u8],
) -> Result<Option<Verdict>, ExportError<S::Refusal>>
    requires unpinned { S.pins source.old ≡ no_pins }
    requires root { root ≤ (S.plain source.old).count }
    requires high { All (λ row. row.root ≤ (S.plain source.old).count) rows.now }
    requires short { All (λ row. length row.payload ≤ longest_payload) rows.now }
    requires own { length payload.now ≤ longest_payload }
    ensures text { OnOk result (IsTrue S.tells → IsTrue K.tells → Moves (payload_text payload.now (payload_verdicts (S.plain source.old) rows.now root payload.now)) (K.taken out.old) line.old (K.taken out.new) line.new) }
    ensures part { OnErr result (IsTrue S.tells → IsTrue K.tells → MovesPart (payload_text payload.now (payload_verdicts (S.plain source.old) rows.now root payload.now)) (K.taken out.old) line.old (K.taken out.new)) }
    ensures found { IfOk result (λ found. IsTrue S.tells → option_to_list found ≡ payload_verdicts (S.plain source.old) rows.now root payload.now) }
    // why it stopped
    ensures causes { IfErr result (IfWalk (λ error. IsTrue S.tells → IsRowStop S.refuses (S.plain source.old) rows.now root error)) }
    ensures given { IfErr result (IfWalk (IsGivenBy S.only_read S.plain S.refuses source.old)) }
    ensures fault { IfErr result (IfWalk (λ error. IsTrue (is_failure S.is_fault error) → Rose (S.faults source.old) (S.faults source.new))) }
    ensures output { result ≡ Err ExportError.OutputFault → Rose (K.faults out.old) (K.faults out.new) }
    // what stays as it was
    ensures later { K.faults out.old ≤ K.faults out.new }
    ensures unpinned { OnOk result (S.pins source.new ≡ no_pins) }
    ensures reads { S.only_read source.old source.new }
{
    let Ok(row) = RecordView::read(payload) else {
        return Ok(None);
    };
    if !is_text(value_at(&row, 0), b"index") {
        return Ok(None);
    }
    let verdict = match judge(alloc, source, rows, root, &row) {
        Err(error) => return Err(ExportError::Walk(error)),
        Ok(verdict) => verdict,
    };
    match put_verdict(line, out, &value_at(&row, 1), &verdict) {
        Err(_) => Err(ExportError::OutputFault),
        Ok(()) => Ok(Some(verdict)),
    }
}
