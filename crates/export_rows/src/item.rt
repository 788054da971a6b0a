// The lines of one schema row.
ghost use Rattle.std.specs.Prelude.{◌≡◌, ◌≢◌, ◌≤◌, true, length, is_some, Err, OnOk, IfOk, OnErr, IfErr, IsTrue};
ghost use Rattle.edge_model.specs.Causes.{Rose};
ghost use Rattle.db_format.specs.Pages.{nothing};
ghost use Rattle.db_format.specs.Record.{columns, longest_payload};
ghost use Rattle.db_format.specs.Source.{no_pins};
ghost use Rattle.btree_model.specs.Records.{tree_part};
ghost use Rattle.btree_model.specs.Tree.{root_family};
ghost use Rattle.btree_walk.specs.Causes.{IsAmong, IsGivenBy, is_failure};
ghost use Rattle.export_rows.specs.Causes.{IfWalk};
ghost use Rattle.row_text.specs.Out.{Moves, MovesPart};
ghost use Rattle.schema_map.specs.Root.{number_of};
ghost use Rattle.export_rows.specs.Report.{item_at, item_count, item_text};

use crate::error::ExportError;
use crate::lines::put_schema_row;
use crate::tree::put_tree;
use btree_walk::{WalkError, tree_family};
use db_format::{Defect, PageSource, RecordView};
use edge_model::Sink;
use row_text::LineOut;
use std::alloc::Global;

/// Appends the line of a schema row and those of its tree, whose root is 0 where it has none. Answers how many entries the
/// tree has.
pub(crate) fn put_item<S: PageSource, K: Sink>(
    alloc: Global,
    source: &mut S,
    line: &mut LineOut,
    out: &mut K,
    rowid: i64,
    root: u32,
    payload: &[u8],
) -> Result<u64, ExportError<S::Refusal>>
    requires high { root ≤ (S.plain source.old).count }
    requires unpinned { S.pins source.old ≡ no_pins }
    requires short { length payload.now ≤ longest_payload }
    requires record { IsTrue S.tells → is_some (columns payload.now) ≡ true }
    requires root { IsTrue S.tells → root ≡ number_of (columns payload.now) }
    ensures text { OnOk result (IsTrue S.tells → IsTrue K.tells → Moves (item_text (item_at (S.plain source.old) rowid payload.now)) (K.taken out.old) line.old (K.taken out.new) line.new) }
    ensures part { OnErr result (IsTrue S.tells → IsTrue K.tells → MovesPart (item_text (item_at (S.plain source.old) rowid payload.now)) (K.taken out.old) line.old (K.taken out.new)) }
    ensures count { IfOk result (λ rows. IsTrue S.tells → rows ≡ item_count (item_at (S.plain source.old) rowid payload.now)) }
    // why it stopped
    ensures causes { IfErr result (IfWalk (λ error. IsTrue S.tells → (root ≢ 0) × IsAmong S.refuses (S.plain source.old)
        (tree_part (S.plain source.old) (root_family root ((S.plain source.old).page root)) nothing root) error)) }
    ensures given { IfErr result (IfWalk (IsGivenBy S.only_read S.plain S.refuses source.old)) }
    ensures fault { IfErr result (IfWalk (λ error. IsTrue (is_failure S.is_fault error) → Rose (S.faults source.old) (S.faults source.new))) }
    ensures output { result ≡ Err ExportError.OutputFault → Rose (K.faults out.old) (K.faults out.new) }
    // what stays as it was
    ensures later { K.faults out.old ≤ K.faults out.new }
    ensures unpinned { OnOk result (S.pins source.new ≡ no_pins) }
    ensures reads { S.only_read source.old source.new }
{
    let pages = source.pages();
    prove!(root <= pages);
    let row = match RecordView::read(payload) {
        Err(_) => return Err(ExportError::Walk(WalkError::Defect(Defect::SchemaRow { rowid }))),
        Ok(row) => row,
    };
    if root == 0 {
        return match put_schema_row(line, out, rowid, &row, None) {
            Err(_) => Err(ExportError::OutputFault),
            Ok(()) => Ok(0),
        };
    }
    let family = match tree_family(source, root) {
        Err(refusal) => return Err(ExportError::Walk(WalkError::Source(refusal))),
        Ok(family) => family,
    };
    match put_schema_row(line, out, rowid, &row, Some(family)) {
        Err(_) => Err(ExportError::OutputFault),
        Ok(()) => put_tree(alloc, source, line, out, root),
    }
}
