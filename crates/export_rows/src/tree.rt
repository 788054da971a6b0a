// The lines of one tree.
ghost use Rattle.std.specs.Prelude.{◌≡◌, ◌≤◌, length, Err, OnOk, IfOk, OnErr, IfErr, IsTrue};
ghost use Rattle.std.specs.List.{flat_map};
ghost use Rattle.edge_model.specs.Causes.{Rose};
ghost use Rattle.db_format.specs.Pages.{nothing};
ghost use Rattle.db_format.specs.Source.{no_pins};
ghost use Rattle.btree_model.specs.Records.{tree_part};
ghost use Rattle.btree_model.specs.Tree.{root_family};
ghost use Rattle.btree_walk.specs.Causes.{IsAmong, IsGivenBy, is_failure};
ghost use Rattle.export_rows.specs.Causes.{IfWalk};
ghost use Rattle.row_text.specs.Out.{Moves, MovesPart};
ghost use Rattle.row_text.specs.Lines.{row_text};
ghost use Rattle.schema_map.specs.Alone.{tree_rows};

use crate::error::ExportError;
use btree_walk::{Cursor, WalkError};
use db_format::{Defect, PageSource, RecordView, Seen};
use edge_model::Sink;
use row_text::{LineOut, put_entry};
use std::alloc::Global;

/// Appends a line for each entry of the tree with this root, and answers how many there are.
pub(crate) fn put_tree<S: PageSource, K: Sink>(
    alloc: Global,
    source: &mut S,
    line: &mut LineOut,
    out: &mut K,
    root: u32,
) -> Result<u64, ExportError<S::Refusal>>
    requires low { 1 ≤ root }
    requires high { root ≤ (S.plain source.old).count }
    requires unpinned { S.pins source.old ≡ no_pins }
    ensures text { OnOk result (IsTrue S.tells → IsTrue K.tells → Moves (flat_map row_text (tree_rows (S.plain source.old) root)) (K.taken out.old) line.old (K.taken out.new) line.new) }
    ensures part { OnErr result (IsTrue S.tells → IsTrue K.tells → MovesPart (flat_map row_text (tree_rows (S.plain source.old) root)) (K.taken out.old) line.old (K.taken out.new)) }
    ensures count { IfOk result (λ rows. IsTrue S.tells → rows ≡ length (tree_rows (S.plain source.old) root)) }
    // why it stopped
    ensures causes { IfErr result (IfWalk (λ error. IsTrue S.tells → IsAmong S.refuses (S.plain source.old)
        (tree_part (S.plain source.old) (root_family root ((S.plain source.old).page root)) nothing root) error)) }
    ensures given { IfErr result (IfWalk (IsGivenBy S.only_read S.plain S.refuses source.old)) }
    ensures fault { IfErr result (IfWalk (λ error. IsTrue (is_failure S.is_fault error) → Rose (S.faults source.old) (S.faults source.new))) }
    ensures output { result ≡ Err ExportError.OutputFault → Rose (K.faults out.old) (K.faults out.new) }
    // what stays as it was
    ensures later { K.faults out.old ≤ K.faults out.new }
    ensures unpinned { OnOk result (S.pins source.new ≡ no_pins) }
    ensures reads { S.only_read source.old source.new }
{
    let pages = source.pages();
    let mut seen = match Seen::new(alloc, pages) {
        Err(_) => return Err(ExportError::Walk(WalkError::OutOfMemory)),
        Ok(seen) => seen,
    };
    let mut cursor = match Cursor::new(alloc, root) {
        Err(_) => return Err(ExportError::Walk(WalkError::OutOfMemory)),
        Ok(cursor) => cursor,
    };
    let mut rows = 0u64;
    'entries: loop {
        match cursor.advance(source, &mut seen) {
            Err(error) => return Err(ExportError::Walk(error)),
            Ok(false) => return Ok(rows),
            Ok(true) => {
                let entry = cursor.entry();
                match RecordView::read(entry.payload) {
                    Err(_) => {
                        let fault = Defect::RecordFault { page: entry.page };
                        return Err(ExportError::Walk(WalkError::Defect(fault)));
                    }
                    Ok(row) => match put_entry(line, out, entry.rowid, &row) {
                        Err(_) => return Err(ExportError::OutputFault),
                        Ok(()) => rows += 1,
                    },
                }
            }
        }
    }
}
