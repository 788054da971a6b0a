// The pages that lead to the rows of a range.
ghost use Rattle.std.specs.Prelude.{◌≡◌, ◌≤◌, ◌+◌, true, false, length, None, Ok, Err, IfErr, IsTrue};
ghost use Rattle.edge_model.specs.Causes.{Rose as RoseOut};
ghost use Rattle.db_format.specs.Seen.{marked, open_count};
ghost use Rattle.db_format.specs.Source.{Rose};
ghost use Rattle.btree_page.specs.Kind.{is_interior};
ghost use Rattle.btree_page.specs.Page.{Node, read_node};
ghost use Rattle.btree_model.specs.Walk.{page_defect};
ghost use Rattle.btree_walk.specs.Causes.{IsGivenBy, is_failure};
ghost use Rattle.rowid_find.specs.Causes.{IfWalk};
ghost use Rattle.rowid_find.specs.Reach.{reach};
ghost use Rattle.rowid_find.specs.Search.{IsSearched};

use crate::error::FindError;
use crate::page::copy_page;
use crate::row::{Found, put_row};
use crate::wanted::Wanted;
use btree_page::{Family, PageFault, PageView, Step};
use btree_walk::{WalkError, is_in_range};
use db_format::{Counted, Defect, PageSource};
use edge_model::Sink;
use std::alloc::Global;

// The defect of page n that this fault is.
fn page_defect(n: u32, fault: PageFault) -> Defect
    ensures { result ≡ page_defect n fault }
{
    match fault {
        PageFault::BadKind => Defect::BadKind { page: n },
        PageFault::BadCell { index } => Defect::BadCell { page: n, index },
    }
}

/// Puts the rows with rowids from `low` to `high` that page n leads to, where a path may have `left` pages more.
pub(crate) fn visit<S: PageSource, K: Sink>(
    alloc: Global,
    source: &mut Counted<'_, S>,
    found: &mut Found,
    out: &mut K,
    low: i64,
    high: i64,
    left: u32,
    n: u32,
) -> Result<(), FindError<S::Refusal>>
    requires low { 1 ≤ n }
    requires high { n ≤ (S.plain source.old.source.now).count }
    requires seen { length found.old.seen ≡ (S.plain source.old.source.now).count + 1 }
    ensures on { IsTrue S.tells → IsSearched S.refuses (S.plain source.old.source.now) K.tells
        (reach (S.plain source.old.source.now) low high left n)
        (record { taken = K.taken out.old; waits = found.old.line; rows = found.old.rows; reads = source.old.reads; marks = marked found.old.seen })
        (record { taken = K.taken out.new; waits = found.new.line; rows = found.new.rows; reads = source.new.reads; marks = marked found.new.seen }) result }
    // each page is read at most once
    ensures once { source.new.reads + open_count found.new.seen ≤ source.old.reads + open_count found.old.seen }
    ensures seen_length { length found.new.seen ≡ length found.old.seen }
    ensures given { IfErr result (IfWalk (IsGivenBy S.only_read S.plain S.refuses source.old.source.now)) }
    ensures fault { IfErr result (IfWalk (λ error. IsTrue (is_failure S.is_fault error) → Rose (S.faults source.old.source.now) (S.faults source.new.source.now))) }
    ensures output { result ≡ Err FindError.OutputFault → RoseOut (K.faults out.old) (K.faults out.new) }
    ensures later { K.faults out.old ≤ K.faults out.new }
    ensures pins { S.pins source.new.source.now ≡ S.pins source.old.source.now }
    ensures reads { S.only_read source.old.source.now source.new.source.now × (source.new.source.ghost_name ≡ source.old.source.ghost_name) }
{
    if left == 0 {
        return Err(FindError::Walk(WalkError::Defect(Defect::TooDeep { page: n })));
    }
    // the page is kept, since the source is asked for others while its cells are gone through
    let bytes = match copy_page(alloc, source, &mut found.seen, n) {
        Err(error) => return Err(FindError::Walk(error)),
        Ok(bytes) => bytes,
    };
    let page = match PageView::open(bytes.as_slice(), n, Family::Table) {
        Err(fault) => return Err(FindError::Walk(WalkError::Defect(page_defect(n, fault)))),
        Ok(page) => page,
    };
    let count = source.pages();
    let mut wanted = Wanted::new(page, low, high);
    'steps: loop {
        match wanted.next() {
            None => return Ok(()),
            Some(Step::Child(child)) => {
                if !is_in_range(child, count) {
                    let fault = Defect::ChildOutOfRange { page: n };
                    return Err(FindError::Walk(WalkError::Defect(fault)));
                }
                match visit(alloc, source, found, out, low, high, left - 1, child) {
                    Err(error) => return Err(error),
                    Ok(()) => {}
                }
            }
            Some(
                Step::Entry {
                    rowid,
                    length,
                    local,
                    first,
                },
            ) => {
                match put_row(source, found, out, n, rowid, length, local, first) {
                    Err(error) => return Err(error),
                    Ok(()) => {}
                }
            }
            Some(Step::Key(_) | Step::End) => {}
        }
    }
}
