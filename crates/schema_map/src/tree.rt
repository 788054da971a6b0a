// One tree, with every payload read as a record.
ghost use Rattle.std.specs.Prelude.{◌≡◌, ◌+◌, ◌≤◌, length, IfErr, OnOk, IsTrue};
ghost use Rattle.db_format.specs.Seen.{marked};
ghost use Rattle.db_format.specs.Source.{Rose, no_pins};
ghost use Rattle.btree_model.specs.Records.{tree_part};
ghost use Rattle.btree_model.specs.Tree.{root_family};
ghost use Rattle.btree_walk.specs.Causes.{IsGivenBy, is_failure};
ghost use Rattle.schema_map.specs.Part.{IsChecked};

use btree_walk::{Cursor, WalkError};
use db_format::{Defect, PageSource, RecordView, Seen};
use std::alloc::Global;

/// Walks the tree with this root, and answers how many entries it has. Every payload is read as a record.
pub fn check_tree<S: PageSource>(
    alloc: Global,
    source: &mut S,
    seen: &mut Seen,
    root: u32,
) -> Result<u64, WalkError<S::Refusal>>
    requires low { 1 ≤ root }
    requires high { root ≤ (S.plain source.old).count }
    requires unpinned { S.pins source.old ≡ no_pins }
    requires marks { length seen.old ≡ (S.plain source.old).count + 1 }
    ensures on { IsTrue S.tells → IsChecked S.refuses (S.plain source.old)
        (tree_part (S.plain source.old) (root_family root ((S.plain source.old).page root)) (marked seen.old) root) seen.old seen.new result }
    ensures given { IfErr result (IsGivenBy S.only_read S.plain S.refuses source.old) }
    ensures fault { IfErr result (λ error. IsTrue (is_failure S.is_fault error) → Rose (S.faults source.old) (S.faults source.new)) }
    ensures length { length seen.new ≡ length seen.old }
    ensures unpinned { OnOk result (S.pins source.new ≡ no_pins) }
    ensures reads { S.only_read source.old source.new }
{
    let pages = source.pages();
    prove!(root <= pages);
    let mut cursor = match Cursor::new(alloc, root) {
        Err(_) => return Err(WalkError::OutOfMemory),
        Ok(cursor) => cursor,
    };
    let mut rows = 0u64;
    'entries: loop {
        match cursor.advance(source, seen) {
            Err(error) => return Err(error),
            Ok(false) => return Ok(rows),
            Ok(true) => {
                let entry = cursor.entry();
                match RecordView::read(entry.payload) {
                    Err(_) => {
                        return Err(WalkError::Defect(Defect::RecordFault { page: entry.page }));
                    }
                    Ok(_) => rows += 1,
                }
            }
        }
    }
}
