// The trees of the schema's rows.
ghost use Rattle.std.specs.Prelude.{◌≡◌, ◌+◌, ◌≤◌, List, length, IfErr, OnOk, IsTrue};
ghost use Rattle.std.specs.List.{All};
ghost use Rattle.db_format.specs.Seen.{marked};
ghost use Rattle.db_format.specs.Source.{Rose, no_pins};
ghost use Rattle.btree_model.specs.Parts.{trees_from};
ghost use Rattle.btree_walk.specs.Causes.{IsGivenBy, is_failure};
ghost use Rattle.schema_map.specs.Parts.{AreChecked};
ghost use Rattle.schema_map.specs.Schema.{tree_roots};

use crate::SchemaRow;
use crate::tree::check_tree;
use btree_walk::WalkError;
use db_format::{PageSource, Seen};
use std::alloc::Global;

/// How many trees there are, and how many entries they have.
#[derive(Clone, Copy)]
pub struct TreeCounts {
    pub trees: u32,
    pub entries: u64,
}

/// Walks the tree of each of these rows that has one, in order. Neither count reaches the end of its type: each tree has a
/// page of its own.
pub fn check_trees<S: PageSource>(
    alloc: Global,
    source: &mut S,
    seen: &mut Seen,
    rows: &[SchemaRow],
) -> Result<TreeCounts, WalkError<S::Refusal>>
    requires high { All (λ row. row.root ≤ (S.plain source.old).count) rows.now }
    requires unpinned { S.pins source.old ≡ no_pins }
    requires marks { length seen.old ≡ (S.plain source.old).count + 1 }
    ensures on { IsTrue S.tells → AreChecked S.refuses (S.plain source.old)
        (trees_from (S.plain source.old) (marked seen.old) (tree_roots rows.now)) seen.old seen.new result }
    ensures given { IfErr result (IsGivenBy S.only_read S.plain S.refuses source.old) }
    ensures fault { IfErr result (λ error. IsTrue (is_failure S.is_fault error) → Rose (S.faults source.old) (S.faults source.new)) }
    ensures length { length seen.new ≡ length seen.old }
    ensures unpinned { OnOk result (S.pins source.new ≡ no_pins) }
    ensures reads { S.only_read source.old source.new }
{
    let pages = source.pages();
    let mut trees = 0u32;
    let mut entries = 0u64;
    for row in rows {
        prove!(row.root <= pages);
        if row.root == 0 {
            continue;
        }
        match check_tree(alloc, source, seen, row.root) {
            Err(error) => return Err(error),
            Ok(more) => {
                trees = trees.saturating_add(1);
                entries = entries.saturating_add(more);
            }
        }
    }
    Ok(TreeCounts { trees, entries })
}
