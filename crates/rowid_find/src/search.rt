// Rows by their rowids.
ghost use Rattle.std.specs.Prelude.{◌≡◌, ◌≤◌, ◌++◌, ◌+◌, ℕ, true, length, Err, OnOk, OnErr, IfErr, IsTrue};
ghost use Rattle.edge_model.specs.Causes.{HasCause, Rose as RoseOut};
ghost use Rattle.db_format.specs.Seen.{marked, open_count};
ghost use Rattle.db_format.specs.Source.{Rose};
ghost use Rattle.btree_walk.specs.Causes.{IsGivenBy, is_failure};
ghost use Rattle.row_text.specs.Out.{Moves, MovesPart};
ghost use Rattle.rowid_find.specs.Causes.{IfWalk, after_flush};
ghost use Rattle.rowid_find.specs.Lines.{count_line};
ghost use Rattle.rowid_find.specs.Reach.{reach_all, reach_range};
ghost use Rattle.rowid_find.specs.Search.{AreRowsFound, IsSearched, IsSoundFound};
ghost use Rattle.db_format.specs.Pages.{nothing};
ghost use Rattle.btree_model.specs.Finding.{is_sound};
ghost use Rattle.btree_model.specs.Records.{tree_part};
ghost use Rattle.btree_page.specs.declared.kind.Family.TheVariants.{Table};
ghost use Rattle.rowid_find.specs.Bound.{links_below};
ghost use Rattle.rowid_find.specs.Found.{found_rows};

use crate::error::FindError;
use crate::row::Found;
use crate::visit::visit;
use btree_walk::WalkError;
use db_format::{Counted, PageSource, Seen};
use edge_model::{Failed, Sink};
use itoa::Buffer;
use row_text::LineOut;
use std::alloc::Global;

// A path has at most so many pages.
const MAX_PATH: u32 = 20;

/// Puts a line for each row of the table with this root whose rowid is from `low` to `high`, in the order of the tree, and then
/// their number, which is answered. Where it stops at a page, the lines of the rows before it are put.
pub fn find<S: PageSource, K: Sink>(
    alloc: Global,
    source: &mut Counted<'_, S>,
    root: u32,
    low: i64,
    high: i64,
    out: &mut K,
) -> Result<u64, FindError<S::Refusal>>
where
    S::Refusal: Drop,
    requires low { 1 ≤ root }
    requires high { root ≤ (S.plain source.old.source.now).count }
    ensures on { IsTrue S.tells → AreRowsFound S.refuses (S.plain source.old.source.now) K.tells (reach_all (S.plain source.old.source.now) low high root)
        (K.taken out.old) (K.taken out.new) source.old.reads source.new.reads result }
    // the rows of the range, where the tree has no defect
    ensures sound { IsTrue S.tells → is_sound (tree_part (S.plain source.old.source.now) Table nothing root) ≡ true
        → IsSoundFound K.tells (found_rows (S.plain source.old.source.now) root low high) (K.taken out.old) (K.taken out.new) result }
    // how many pages are read for one rowid
    ensures few { IsTrue S.tells → low ≡ high
        → source.new.reads ≤ source.old.reads + 20 + links_below (S.plain source.old.source.now) low high 20 root }
    // each page is read at most once
    ensures once { source.new.reads ≤ source.old.reads + (S.plain source.old.source.now).count + 1 }
    // why it stopped
    ensures given { IfErr result (IfWalk (IsGivenBy S.only_read S.plain S.refuses source.old.source.now)) }
    ensures fault { IfErr result (IfWalk (λ error. IsTrue (is_failure S.is_fault error) → Rose (S.faults source.old.source.now) (S.faults source.new.source.now))) }
    ensures output { result ≡ Err FindError.OutputFault → RoseOut (K.faults out.old) (K.faults out.new) }
    // what stays as it was
    ensures later { K.faults out.old ≤ K.faults out.new }
    ensures pins { S.pins source.new.source.now ≡ S.pins source.old.source.now }
    ensures reads { S.only_read source.old.source.now source.new.source.now × (source.new.source.ghost_name ≡ source.old.source.ghost_name) }
    ensures same_reference { source.new.source.ghost_name ≡ source.old.source.ghost_name }
{
    find_rows(alloc, source, root, low, high, out)
}

/// The same of a source whose reads nobody asks for.
pub fn find_from<S: PageSource, K: Sink>(
    alloc: Global,
    source: &mut S,
    root: u32,
    low: i64,
    high: i64,
    out: &mut K,
) -> Result<u64, FindError<S::Refusal>>
where
    S::Refusal: Drop,
    requires low { 1 ≤ root }
    requires high { root ≤ (S.plain source.old).count }
    ensures on { IsTrue S.tells → (reads : ℕ) × AreRowsFound S.refuses (S.plain source.old) K.tells (reach_all (S.plain source.old) low high root)
        (K.taken out.old) (K.taken out.new) 0 reads result }
    // why it stopped
    ensures given { IfErr result (IfWalk (IsGivenBy S.only_read S.plain S.refuses source.old)) }
    ensures fault { IfErr result (IfWalk (λ error. IsTrue (is_failure S.is_fault error) → Rose (S.faults source.old) (S.faults source.new))) }
    ensures output { result ≡ Err FindError.OutputFault → RoseOut (K.faults out.old) (K.faults out.new) }
    // what stays as it was
    ensures later { K.faults out.old ≤ K.faults out.new }
    ensures pins { S.pins source.new ≡ S.pins source.old }
    ensures reads { S.only_read source.old source.new }
{
    let mut counted = Counted::new(source);
    find(alloc, &mut counted, root, low, high, out)
}

// The same, of any tree and any range.
fn find_rows<S: PageSource, K: Sink>(
    alloc: Global,
    source: &mut Counted<'_, S>,
    root: u32,
    low: i64,
    high: i64,
    out: &mut K,
) -> Result<u64, FindError<S::Refusal>>
where
    S::Refusal: Drop,
    requires low { 1 ≤ root }
    requires high { root ≤ (S.plain source.old.source.now).count }
    ensures on { IsTrue S.tells → AreRowsFound S.refuses (S.plain source.old.source.now) K.tells (reach_all (S.plain source.old.source.now) low high root)
        (K.taken out.old) (K.taken out.new) source.old.reads source.new.reads result }
    ensures once { source.new.reads ≤ source.old.reads + (S.plain source.old.source.now).count + 1 }
    ensures given { IfErr result (IfWalk (IsGivenBy S.only_read S.plain S.refuses source.old.source.now)) }
    ensures fault { IfErr result (IfWalk (λ error. IsTrue (is_failure S.is_fault error) → Rose (S.faults source.old.source.now) (S.faults source.new.source.now))) }
    ensures output { result ≡ Err FindError.OutputFault → RoseOut (K.faults out.old) (K.faults out.new) }
    ensures later { K.faults out.old ≤ K.faults out.new }
    ensures pins { S.pins source.new.source.now ≡ S.pins source.old.source.now }
    ensures reads { S.only_read source.old.source.now source.new.source.now × (source.new.source.ghost_name ≡ source.old.source.ghost_name) }
{
    let line = match LineOut::new(alloc) {
        Err(_) => return Err(FindError::Walk(WalkError::OutOfMemory)),
        Ok(line) => line,
    };
    let seen = match Seen::new(alloc, source.pages()) {
        Err(_) => return Err(FindError::Walk(WalkError::OutOfMemory)),
        Ok(seen) => seen,
    };
    let mut found = Found {
        line,
        rows: 0,
        seen,
        payload: Vec::new(alloc),
    };
    match visit_range(alloc, source, &mut found, out, root, low, high) {
        Err(FindError::OutputFault) => Err(FindError::OutputFault),
        Err(FindError::Walk(error)) => {
            let flushed = found.line.flush(out);
            Err(after_flush(flushed, error))
        }
        Ok(()) => {
            match put_count(&mut found.line, out, found.rows) {
                Err(_) => return Err(FindError::OutputFault),
                Ok(()) => {}
            }
            match found.line.flush(out) {
                Err(_) => Err(FindError::OutputFault),
                Ok(()) => Ok(found.rows),
            }
        }
    }
}

// Puts the rows of the range, of which there are none where `low` is above `high`.
fn visit_range<S: PageSource, K: Sink>(
    alloc: Global,
    source: &mut Counted<'_, S>,
    found: &mut Found,
    out: &mut K,
    root: u32,
    low: i64,
    high: i64,
) -> Result<(), FindError<S::Refusal>>
    requires low { 1 ≤ root }
    requires high { root ≤ (S.plain source.old.source.now).count }
    requires seen { length found.old.seen ≡ (S.plain source.old.source.now).count + 1 }
    ensures on { IsTrue S.tells → IsSearched S.refuses (S.plain source.old.source.now) K.tells
        (reach_range (S.plain source.old.source.now) low high root)
        (record { taken = K.taken out.old; waits = found.old.line; rows = found.old.rows; reads = source.old.reads; marks = marked found.old.seen })
        (record { taken = K.taken out.new; waits = found.new.line; rows = found.new.rows; reads = source.new.reads; marks = marked found.new.seen }) result }
    // each page is read at most once
    ensures once { source.new.reads + open_count found.new.seen ≤ source.old.reads + open_count found.old.seen }
    ensures seen_length { length found.new.seen ≡ length found.old.seen }
    ensures given { IfErr result (IfWalk (IsGivenBy S.only_read S.plain S.refuses source.old.source.now)) }
    ensures fault { IfErr result (IfWalk (λ error. IsTrue (is_failure S.is_fault error) → Rose (S.faults source.old.source.now) (S.faults source.new.source.now))) }
    ensures output { result ≡ Err FindError.OutputFault → RoseOut (K.faults out.old) (K.faults out.new) }
    ensures later { K.faults out.old ≤ K.faults out.new }
    ensures pins { S.pins source.new.source.now ≡ S.pins source.old.source.now }
    ensures reads { S.only_read source.old.source.now source.new.source.now × (source.new.source.ghost_name ≡ source.old.source.ghost_name) }
{
    if high < low {
        return Ok(());
    }
    visit(alloc, source, found, out, low, high, MAX_PATH, root)
}

// Why a search stops whose rows were put so.
fn after_flush<R: Drop>(flushed: Result<(), Failed>, error: WalkError<R>) -> FindError<R>
    ensures { result ≡ after_flush flushed error }
{
    match flushed {
        Err(_) => FindError::OutputFault,
        Ok(()) => FindError::Walk(error),
    }
}

// Appends the last line.
fn put_count<K: Sink>(line: &mut LineOut, out: &mut K, rows: u64) -> Result<(), Failed>
    ensures done { OnOk result (IsTrue K.tells → Moves (count_line rows) (K.taken out.old) line.old (K.taken out.new) line.new) }
    ensures part { OnErr result (IsTrue K.tells → MovesPart (count_line rows) (K.taken out.old) line.old (K.taken out.new)) }
    ensures cause { HasCause (K.faults out.old) (K.faults out.new) result }
{
    line.make_room(out)?;
    push_count(line, rows);
    Ok(())
}

fn push_count(line: &mut LineOut, rows: u64)
    requires { length line.old + 100 ≤ 65536 }
    ensures { line.new ≡ line.old ++ count_line rows }
{
    let mut digits = Buffer::new();
    line.push(b"found: ");
    line.push(digits.format(rows).as_bytes());
    line.push(b" rows\n");
}
