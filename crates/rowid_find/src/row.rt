// One row.
ghost use Rattle.std.specs.Prelude.{◌≡◌, ◌≤◌, ◌+◌, length as list_length, Some, Err, OnOk, IfErr, IsTrue};
ghost use Rattle.edge_model.specs.Causes.{Rose as RoseOut};
ghost use Rattle.db_format.specs.Seen.{marked, open_count};
ghost use Rattle.db_format.specs.Source.{Rose};
ghost use Rattle.btree_page.specs.Payload.{max_payload};
ghost use Rattle.btree_walk.specs.Causes.{IsGivenBy, is_failure};
ghost use Rattle.rowid_find.specs.Causes.{IfWalk};
ghost use Rattle.rowid_find.specs.Reach.{row_of_cell};
ghost use Rattle.rowid_find.specs.Search.{IsSearched};

use crate::chain::read_payload;
use crate::error::FindError;
use btree_walk::WalkError;
use db_format::{Counted, Defect, PageSource, RecordView, Seen};
use edge_model::Sink;
use row_text::{LineOut, put_entry};

/// What was found so far: the lines that wait, how many rows there were, which pages were met, and room for a payload.
#[derive(Drop)]
pub(crate) struct Found {
    pub line: LineOut,
    pub rows: u64,
    pub seen: Seen,
    pub payload: Vec<u8>,
}

/// Puts the row whose cell on page n is this.
pub(crate) fn put_row<S: PageSource, K: Sink>(
    source: &mut Counted<'_, S>,
    found: &mut Found,
    out: &mut K,
    n: u32,
    rowid: Option<i64>,
    length: u64,
    local: &[u8],
    first: u32,
) -> Result<(), FindError<S::Refusal>>
    requires size { length ≤ max_payload }
    requires seen { list_length found.old.seen ≡ (S.plain source.old.source.now).count + 1 }
    ensures on { IsTrue S.tells → IsSearched S.refuses (S.plain source.old.source.now) K.tells
        (row_of_cell (S.plain source.old.source.now) n rowid (record { size = length; local = local.now; first = first }))
        (record { taken = K.taken out.old; waits = found.old.line; rows = found.old.rows; reads = source.old.reads; marks = marked found.old.seen })
        (record { taken = K.taken out.new; waits = found.new.line; rows = found.new.rows; reads = source.new.reads; marks = marked found.new.seen }) result }
    // each page is read at most once
    ensures once { source.new.reads + open_count found.new.seen ≤ source.old.reads + open_count found.old.seen }
    ensures seen_length { list_length found.new.seen ≡ list_length found.old.seen }
    ensures given { IfErr result (IfWalk (IsGivenBy S.only_read S.plain S.refuses source.old.source.now)) }
    ensures fault { IfErr result (IfWalk (λ error. IsTrue (is_failure S.is_fault error) → Rose (S.faults source.old.source.now) (S.faults source.new.source.now))) }
    ensures output { result ≡ Err FindError.OutputFault → RoseOut (K.faults out.old) (K.faults out.new) }
    ensures later { K.faults out.old ≤ K.faults out.new }
    ensures pins { S.pins source.new.source.now ≡ S.pins source.old.source.now }
    ensures reads { S.only_read source.old.source.now source.new.source.now × (source.new.source.ghost_name ≡ source.old.source.ghost_name) }
{
    found.payload.clear();
    match found.payload.extend_from_slice(local) {
        Err(_) => return Err(FindError::Walk(WalkError::OutOfMemory)),
        Ok(()) => {}
    }
    match read_payload(
        source,
        &mut found.seen,
        n,
        length,
        first,
        &mut found.payload,
    ) {
        Err(error) => return Err(FindError::Walk(error)),
        Ok(()) => {}
    }
    let row = match RecordView::read(found.payload.as_slice()) {
        Err(_) => {
            return Err(FindError::Walk(WalkError::Defect(Defect::RecordFault { page: n })));
        }
        Ok(row) => row,
    };
    // no clause says that a file has fewer rows
    if found.rows == u64::MAX {
        return Err(FindError::Walk(WalkError::OutOfMemory));
    }
    match put_entry(&mut found.line, out, rowid, &row) {
        Err(_) => Err(FindError::OutputFault),
        Ok(()) => {
            found.rows += 1;
            Ok(())
        }
    }
}
