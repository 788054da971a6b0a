// Cursors.
ghost use Rattle.std.specs.Prelude.{◌≡◌, ◌+◌, ◌-◌, ◌≤◌, ◌<◌, ◌^◌, min, List, [], length, None, Some, Ok, Err, IfOk, IfErr, IfSome, IsTrue, true, false, if◌then◌else◌};
ghost use Rattle.db_format.specs.Pages.{Test};
ghost use Rattle.db_format.specs.Seen.{marked};
ghost use Rattle.db_format.specs.Source.{Rose, no_pins};
ghost use Rattle.btree_model.specs.Finding.{Row};
ghost use Rattle.btree_walk.specs.Causes.{IsGivenBy, IsMarked, is_failure};
ghost use Rattle.btree_walk.specs.Cursor.{IsCursorReady, GivesNext, IsAdvanced, IsCursorAt, IsGivenAfter, IsCursorMade, IsSameTree, KeepsDefect, gives, row_of, row_shown, walked};
ghost use Rattle.btree_walk.specs.Order.{IsAfter};
ghost use Rattle.btree_walk.specs.Turn.{work};
ghost use Rattle.btree_walk.specs.Marks.{KeepsMarks};
ghost use Rattle.btree_page.specs.Payload.{max_payload};

use crate::WalkError;
use crate::path::Path;
use crate::turn::{begin, walk_on};
use btree_page::Family;
use db_format::{Defect, OutOfMemory, PageSource, Seen};
use std::alloc::Global;

/// An entry of a tree.
#[derive(Clone, Copy, Debug, PartialEq, Eq)]
pub struct Entry<'a> {
    /// The rowid, in a table.
    pub rowid: Option<i64>,
    /// The payload, at most 2^30 bytes.
    pub payload: &'a [u8],
    /// The page on which the entry's cell stands.
    pub page: u32,
}

// How far a cursor is.
#[derive(Clone, Copy)]
pub(crate) enum Stage {
    New,
    Inside,
    Stopped(Defect),
}

/// A place in a walk through one tree of a database, and the entry that was given last.
///
/// It pins the pages from the root to the page that it walks, at most 20, and has one buffer for a payload.
#[derive(Drop)]
pub struct Cursor {
    pub(crate) root: u32,
    // the family that was asked for; without one, the tree is of its root's family
    pub(crate) asked: Option<Family>,
    pub(crate) stage: Stage,
    pub(crate) family: Family,
    pub(crate) path: Path,
    // the greatest rowid or key that was met
    pub(crate) floor: Option<i64>,
    // the last rowid, and the page on which it stands
    pub(crate) last: Option<i64>,
    pub(crate) last_page: u32,
    // the entry that was given last
    pub(crate) rowid: Option<i64>,
    pub(crate) page: u32,
    pub(crate) payload: Vec<u8>,
    // how many were given
    pub(crate) given: u64,
}

impl Cursor {
    /// A cursor before the first entry of the tree with this root, which is of its root's family.
    pub fn new(alloc: Global, root: u32) -> Result<Cursor, OutOfMemory>
        ensures { IfOk result (IsCursorMade root None) }
    {
        Cursor::made(alloc, root, None)
    }

    /// A cursor before the first entry of the tree with this root, which is to be of this family.
    pub fn of_family(alloc: Global, root: u32, family: Family) -> Result<Cursor, OutOfMemory>
        ensures { IfOk result (IsCursorMade root (Some family)) }
    {
        Cursor::made(alloc, root, Some(family))
    }

    fn made(alloc: Global, root: u32, asked: Option<Family>) -> Result<Cursor, OutOfMemory>
        ensures { IfOk result (IsCursorMade root asked) }
    {
        let path = Path::new(alloc)?;
        Ok(Cursor {
            root,
            asked,
            stage: Stage::New,
            family: Family::Table,
            path,
            floor: None,
            last: None,
            last_page: 0,
            rowid: None,
            page: 0,
            payload: Vec::new(alloc),
            given: 0,
        })
    }

    /// The entry that the last `advance` gave.
    pub fn entry(&self) -> Entry<'_>
        ensures { row_shown result ≡ row_of self.now }
    {
        Entry {
            rowid: self.rowid,
            payload: self.payload.as_slice(),
            page: self.page,
        }
    }

    /// How many entries were given.
    pub fn given(&self) -> u64
        ensures { result ≡ self.now.given }
    {
        self.given
    }

    /// The last rowid that was given.
    pub fn last_rowid(&self) -> Option<i64>
        ensures { result ≡ self.now.last }
    {
        self.last
    }

    /// Goes on to the next entry, and answers whether there is one.
    ///
    /// Pages that are marked and were not met by this cursor count as met before. After a defect it answers the same defect
    /// again; after another error the cursor may only be dropped.
    pub fn advance<S: PageSource>(
        &mut self,
        source: &mut S,
        seen: &mut Seen,
    ) -> Result<bool, WalkError<S::Refusal>>
        requires ready { IsCursorReady (S.plain source.old).count (S.pins source.old) seen.old self.old }
        ensures ready { IsCursorReady (S.plain source.new).count (S.pins source.new) seen.new self.new }
        ensures same { IsSameTree self.old self.new }
        ensures reads { S.only_read source.old source.new }
        ensures kept { KeepsMarks (marked seen.old) (marked seen.new) }
        // the entry, where pages are told or not
        ensures less { IfOk result (λ more. IsTrue more → work seen.new self.new.path < work seen.old self.old.path) }
        ensures rising { IfOk result (IsGivenAfter self.old self.new) }
        ensures count { self.new.given ≡ (if gives result then min (self.old.given + 1) (2 ^ 64 - 1) else self.old.given) }
        ensures unpinned { IfOk result (λ more. more ≡ false → S.pins source.new ≡ no_pins) }
        // why it stopped
        ensures keeps { IfErr result (KeepsDefect self.new) }
        ensures again { (defect : Defect) → self.old.stage ≡ Stage.Stopped defect → result ≡ Err (WalkError.Defect defect) }
        ensures given { IfErr result (IsGivenBy S.only_read S.plain S.refuses source.old) }
        ensures fault { IfErr result (λ error. IsTrue (is_failure S.is_fault error) → Rose (S.faults source.old) (S.faults source.new)) }
        // the walk, where pages are told
        ensures marks { IfErr result (λ error. IsTrue S.tells → (taken : Test) (given : List Row) → IsCursorAt (S.plain source.old) taken given self.old (marked seen.old)
            → IsMarked (walked (S.plain source.old) taken self.old) taken (marked seen.new)) }
        ensures on { IsTrue S.tells → (taken : Test) (given : List Row) → IsCursorAt (S.plain source.old) taken given self.old (marked seen.old)
            → IsAdvanced S.refuses (S.plain source.old) taken given self.new (marked seen.new) result }
    {
        let result = self.go_on(source, seen);
        match &result {
            Ok(true) => self.given = self.given.saturating_add(1),
            Ok(false) => {}
            Err(WalkError::Defect(defect)) => self.stage = Stage::Stopped(*defect),
            Err(_) => {}
        }
        result
    }

    // Goes on by the stage, which a defect does not change yet.
    fn go_on<S: PageSource>(
        &mut self,
        source: &mut S,
        seen: &mut Seen,
    ) -> Result<bool, WalkError<S::Refusal>>
        requires ready { IsCursorReady (S.plain source.old).count (S.pins source.old) seen.old self.old }
        ensures ready { IsCursorReady (S.plain source.old).count (S.pins source.new) seen.new self.new }
        ensures same { IsSameTree self.old self.new }
        ensures reads { S.only_read source.old source.new }
        ensures kept { KeepsMarks (marked seen.old) (marked seen.new) }
        ensures less { IfOk result (λ more. IsTrue more → work seen.new self.new.path < work seen.old self.old.path) }
        ensures rising { IfOk result (IsGivenAfter self.old self.new) }
        ensures count { self.new.given ≡ self.old.given }
        ensures end { IfOk result (λ more. more ≡ false → self.new.path ≡ []) }
        ensures again { (defect : Defect) → self.old.stage ≡ Stage.Stopped defect → result ≡ Err (WalkError.Defect defect) }
        ensures given { IfErr result (IsGivenBy S.only_read S.plain S.refuses source.old) }
        ensures fault { IfErr result (λ error. IsTrue (is_failure S.is_fault error) → Rose (S.faults source.old) (S.faults source.new)) }
        ensures marks { IfErr result (λ error. IsTrue S.tells → (taken : Test) (given : List Row) → IsCursorAt (S.plain source.old) taken given self.old (marked seen.old)
            → IsMarked (walked (S.plain source.old) taken self.old) taken (marked seen.new)) }
        ensures on { IsTrue S.tells → (taken : Test) (given : List Row) → IsCursorAt (S.plain source.old) taken given self.old (marked seen.old)
            → IsAdvanced S.refuses (S.plain source.old) taken given self.new (marked seen.new) result }
    {
        match self.stage {
            Stage::Stopped(defect) => Err(WalkError::Defect(defect)),
            Stage::New => match begin(self, source, seen) {
                Ok(()) => walk_on(self, source, seen),
                Err(error) => Err(error),
            },
            Stage::Inside => walk_on(self, source, seen),
        }
    }

    /// The next entry, lent from the cursor: `advance`, and then `entry`. `None` comes exactly at the end of the tree.
    pub fn next<S: PageSource>(
        &mut self,
        source: &mut S,
        seen: &mut Seen,
    ) -> Result<Option<Entry<'_>>, WalkError<S::Refusal>>
        requires ready { IsCursorReady (S.plain source.old).count (S.pins source.old) seen.old self.old }
        ensures limit { IfOk result (λ found. IfSome found (λ entry. length entry.payload.now ≤ max_payload)) }
        ensures rising { IfOk result (λ found. IfSome found (λ entry. IsAfter self.old.last entry.rowid)) }
        ensures on { IsTrue S.tells → (taken : Test) (given : List Row) → IsCursorAt (S.plain source.old) taken given self.old (marked seen.old)
            → GivesNext S.refuses (S.plain source.old) (walked (S.plain source.old) taken self.old) given result }
    {
        if self.advance(source, seen)? {
            Ok(Some(self.entry()))
        } else {
            Ok(None)
        }
    }
}
