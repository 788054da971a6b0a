// One turn of a walk: a page down, a page up, a key or an entry.
ghost use Rattle.std.specs.Prelude.{◌≡◌, ◌+◌, ◌-◌, ◌≤◌, ◌<◌, ◌^◌, ℕ, List, [], ◌∷◌, length, is_ok, OnOk, IfOk, IfErr, MatchResult, IsTrue, true, false, if◌then◌else◌};
ghost use Rattle.db_format.specs.Pages.{Test, also};
ghost use Rattle.db_format.specs.Seen.{marked, open_count};
ghost use Rattle.db_format.specs.Source.{Rose, one_more};
ghost use Rattle.btree_model.specs.Finding.{Row};
ghost use Rattle.btree_model.specs.Range.{is_in_range};
ghost use Rattle.btree_model.specs.Tree.{tree_walk};
ghost use Rattle.btree_walk.specs.Causes.{IsAmong, IsGivenBy, IsMarked, is_failure};
ghost use Rattle.btree_walk.specs.Cursor.{IsCursorReady, IsCursorBegun, IsGivenAfter, IsUnmoved, IsRising, IsSameTree, IsSameWalk, IsWalking, given_then, row_of, walked};
ghost use Rattle.btree_walk.specs.Turn.{IsEntered, IsEnterStop, given_by, work};
ghost use Rattle.btree_walk.specs.Marks.{KeepsMarks};

use crate::chain::read_payload;
use crate::cursor::{Cursor, Stage};
use crate::order::{is_late, is_low, last_of, page_of, raised};
use crate::page::{Turn, choose_family, open_page, take_step};
use crate::path::MAX_PATH;
use crate::{WalkError, is_in_range};
use btree_page::Family;
use db_format::{Defect, PageSource, Seen};

// What a turn did: it left a page, went down to one, passed a key, or gave an entry.
#[derive(Clone, Copy)]
pub(crate) enum Moved {
    Up,
    Down,
    Passed,
    Gave,
}

// Marks page c, a child of the page `holder` that is the last of `depth` pages, opens it and pins it.
fn enter<S: PageSource>(
    source: &mut S,
    seen: &mut Seen,
    family: Family,
    depth: usize,
    holder: u32,
    c: u32,
) -> Result<(), WalkError<S::Refusal>>
    requires seen { length seen.old ≡ (S.plain source.old).count + 1 }
    requires room { S.pins source.old c < 2 ^ 32 - 1 }
    ensures pins { S.pins source.new ≡ (if is_ok result then one_more c (S.pins source.old) else S.pins source.old) }
    ensures reads { S.only_read source.old source.new }
    ensures seen_length { length seen.new ≡ length seen.old }
    ensures kept { KeepsMarks (marked seen.old) (marked seen.new) }
    ensures shallow { OnOk result (depth < 20) }
    ensures low { OnOk result (1 ≤ c) }
    ensures high { OnOk result (c ≤ (S.plain source.old).count) }
    ensures marks { OnOk result (marked seen.new ≡ also (c ∷ []) (marked seen.old)) }
    ensures count { OnOk result (open_count seen.new + 1 ≡ open_count seen.old) }
    ensures given { IfErr result (IsGivenBy S.only_read S.plain S.refuses source.old) }
    ensures fault { IfErr result (λ error. IsTrue (is_failure S.is_fault error) → Rose (S.faults source.old) (S.faults source.new)) }
    ensures named { IfErr result (λ error. marked seen.new ≡ (if is_in_range (S.plain source.old) c then also (c ∷ []) (marked seen.old) else marked seen.old)) }
    ensures entered { OnOk result (IsTrue S.tells → IsEntered (S.plain source.old) family (marked seen.old) c) }
    ensures stop { IfErr result (λ error. IsTrue S.tells → IsEnterStop S.refuses (S.plain source.old) family (marked seen.old) depth holder c error) }
{
    let count = source.pages();
    if !is_in_range(c, count) {
        return Err(WalkError::Defect(Defect::ChildOutOfRange { page: holder }));
    }
    if !seen.mark(c) {
        return Err(WalkError::Defect(Defect::PageTwice { page: c }));
    }
    if depth >= MAX_PATH {
        return Err(WalkError::Defect(Defect::TooDeep { page: c }));
    }
    open_page(source, family, c)
}

// One turn of the walk.
fn take_turn<S: PageSource>(
    cursor: &mut Cursor,
    source: &mut S,
    seen: &mut Seen,
) -> Result<Moved, WalkError<S::Refusal>>
    requires begun { 0 < length cursor.old.path }
    requires ready { IsCursorReady (S.plain source.old).count (S.pins source.old) seen.old cursor.old }
    ensures ready { IsCursorReady (S.plain source.old).count (S.pins source.new) seen.new cursor.new }
    ensures same { IsSameWalk cursor.old cursor.new }
    ensures reads { S.only_read source.old source.new }
    ensures kept { KeepsMarks (marked seen.old) (marked seen.new) }
    ensures less { OnOk result (work seen.new cursor.new.path < work seen.old cursor.old.path) }
    ensures rising { IfOk result (IsRising cursor.old cursor.new) }
    ensures given { IfErr result (IsGivenBy S.only_read S.plain S.refuses source.old) }
    ensures fault { IfErr result (λ error. IsTrue (is_failure S.is_fault error) → Rose (S.faults source.old) (S.faults source.new)) }
    ensures marks { IfErr result (λ error. IsTrue S.tells → (taken : Test) (given : List Row) → IsWalking (S.plain source.old) taken given cursor.old (marked seen.old)
        → IsMarked (tree_walk (S.plain source.old) cursor.old.family taken cursor.old.root) taken (marked seen.new)) }
    ensures on { IsTrue S.tells → (taken : Test) (given : List Row) → IsWalking (S.plain source.old) taken given cursor.old (marked seen.old)
        → MatchResult result (λ moved. IsWalking (S.plain source.old) taken (given_by given (row_of cursor.new) moved) cursor.new (marked seen.new))
        (IsAmong S.refuses (S.plain source.old) (tree_walk (S.plain source.old) cursor.old.family taken cursor.old.root)) }
{
    let top = cursor.path.top();
    match take_step(source, top.page, top.done, &mut cursor.payload) {
        Err(error) => Err(error),
        Ok(Turn::End) => {
            cursor.path.pop();
            source.unpin(top.page);
            Ok(Moved::Up)
        }
        Ok(Turn::Child(c)) => {
            let depth = cursor.path.depth();
            match enter(source, seen, cursor.family, depth, top.page, c) {
                Err(error) => Err(error),
                Ok(()) => {
                    cursor.path.step(top);
                    cursor.path.push(c);
                    Ok(Moved::Down)
                }
            }
        }
        Ok(Turn::Key(key)) => {
            if is_late(cursor.last, key) {
                return Err(WalkError::Defect(Defect::RowidOrder {
                    page: cursor.last_page,
                }));
            }
            cursor.floor = raised(cursor.floor, key);
            cursor.path.step(top);
            Ok(Moved::Passed)
        }
        Ok(
            Turn::Cell {
                rowid,
                length,
                first,
            },
        ) => {
            if is_low(cursor.floor, rowid) {
                return Err(WalkError::Defect(Defect::RowidOrder { page: top.page }));
            }
            match read_payload(source, seen, top.page, length, first, &mut cursor.payload) {
                Err(error) => Err(error),
                Ok(()) => {
                    cursor.floor = last_of(cursor.floor, rowid);
                    cursor.last = last_of(cursor.last, rowid);
                    cursor.last_page = page_of(cursor.last_page, rowid, top.page);
                    cursor.rowid = rowid;
                    cursor.page = top.page;
                    cursor.path.step(top);
                    Ok(Moved::Gave)
                }
            }
        }
    }
}

// Goes on to the next entry: false at the end.
pub(crate) fn walk_on<S: PageSource>(
    cursor: &mut Cursor,
    source: &mut S,
    seen: &mut Seen,
) -> Result<bool, WalkError<S::Refusal>>
    requires ready { IsCursorReady (S.plain source.old).count (S.pins source.old) seen.old cursor.old }
    ensures ready { IsCursorReady (S.plain source.old).count (S.pins source.new) seen.new cursor.new }
    ensures same { IsSameWalk cursor.old cursor.new }
    ensures reads { S.only_read source.old source.new }
    ensures kept { KeepsMarks (marked seen.old) (marked seen.new) }
    ensures less { IfOk result (λ more. IsTrue more → work seen.new cursor.new.path < work seen.old cursor.old.path) }
    ensures end { IfOk result (λ more. more ≡ false → cursor.new.path ≡ []) }
    ensures rising { IfOk result (IsGivenAfter cursor.old cursor.new) }
    ensures given { IfErr result (IsGivenBy S.only_read S.plain S.refuses source.old) }
    ensures fault { IfErr result (λ error. IsTrue (is_failure S.is_fault error) → Rose (S.faults source.old) (S.faults source.new)) }
    ensures marks { IfErr result (λ error. IsTrue S.tells → (taken : Test) (given : List Row) → IsWalking (S.plain source.old) taken given cursor.old (marked seen.old)
        → IsMarked (tree_walk (S.plain source.old) cursor.old.family taken cursor.old.root) taken (marked seen.new)) }
    ensures on { IsTrue S.tells → (taken : Test) (given : List Row) → IsWalking (S.plain source.old) taken given cursor.old (marked seen.old)
        → MatchResult result (λ more. IsWalking (S.plain source.old) taken (given_then given (row_of cursor.new) more) cursor.new (marked seen.new))
        (IsAmong S.refuses (S.plain source.old) (tree_walk (S.plain source.old) cursor.old.family taken cursor.old.root)) }
{
    while cursor.path.depth() > 0 {
        match take_turn(cursor, source, seen) {
            Err(error) => return Err(error),
            Ok(Moved::Gave) => return Ok(true),
            Ok(Moved::Up) => {}
            Ok(Moved::Down) => {}
            Ok(Moved::Passed) => {}
        }
    }
    Ok(false)
}

// Marks the root, opens it and pins it.
pub(crate) fn begin<S: PageSource>(
    cursor: &mut Cursor,
    source: &mut S,
    seen: &mut Seen,
) -> Result<(), WalkError<S::Refusal>>
    requires new { cursor.old.stage ≡ Stage.New }
    requires ready { IsCursorReady (S.plain source.old).count (S.pins source.old) seen.old cursor.old }
    ensures ready { IsCursorReady (S.plain source.old).count (S.pins source.new) seen.new cursor.new }
    ensures same { IsSameTree cursor.old cursor.new }
    ensures begun { OnOk result (cursor.new.stage ≡ Stage.Inside) }
    ensures last { cursor.new.last ≡ cursor.old.last }
    ensures count { cursor.new.given ≡ cursor.old.given }
    ensures reads { S.only_read source.old source.new }
    ensures kept { KeepsMarks (marked seen.old) (marked seen.new) }
    ensures less { OnOk result (work seen.new cursor.new.path < work seen.old cursor.old.path) }
    ensures given { IfErr result (IsGivenBy S.only_read S.plain S.refuses source.old) }
    ensures fault { IfErr result (λ error. IsTrue (is_failure S.is_fault error) → Rose (S.faults source.old) (S.faults source.new)) }
    ensures marks { IfErr result (λ error. IsTrue S.tells → (taken : Test) (given : List Row) → IsUnmoved taken given cursor.old (marked seen.old)
        → IsMarked (walked (S.plain source.old) taken cursor.old) taken (marked seen.new)) }
    ensures on { IsTrue S.tells → (taken : Test) (given : List Row) → IsUnmoved taken given cursor.old (marked seen.old)
        → MatchResult result (λ done. IsCursorBegun (S.plain source.old) taken given cursor.new (marked seen.new))
        (IsAmong S.refuses (S.plain source.old) (walked (S.plain source.old) taken cursor.old)) }
{
    if !seen.mark(cursor.root) {
        return Err(WalkError::Defect(Defect::PageTwice { page: cursor.root }));
    }
    let family = match choose_family(source, cursor.asked, cursor.root) {
        Ok(family) => family,
        Err(refusal) => return Err(WalkError::Source(refusal)),
    };
    match open_page(source, family, cursor.root) {
        Err(error) => Err(error),
        Ok(()) => {
            cursor.family = family;
            cursor.path.push(cursor.root);
            cursor.stage = Stage::Inside;
            Ok(())
        }
    }
}
