// The rowids of a table, section 1.6, in windows.
ghost use Rattle.std.specs.Prelude.{◌≡◌, ◌≤◌, ◌<◌, ◌+◌, ◌-◌, ◌^◌, ◌++◌, ◌∷◌, [], ℕ, ℤ, List, true, length, slice_index_or, IfOk, IfErr, IfSome, OnOk, IsTrue, MatchResult};
ghost use Rattle.std.specs.List.{All};
ghost use Rattle.db_format.specs.Pages.{nothing};
ghost use Rattle.db_format.specs.Source.{Rose, no_pins};
ghost use Rattle.btree_page.specs.declared.kind.Family.TheVariants.{Table};
ghost use Rattle.btree_model.specs.Tree.{tree_walk};
ghost use Rattle.btree_walk.specs.Causes.{IsAmong, IsGivenBy, is_failure};
ghost use Rattle.index_check.specs.Checked.{IsRising};
ghost use Rattle.index_check.specs.Window.{IsWindow, IsWindowOf, covers, high, is_above};

use btree_page::Family;
use btree_walk::{Cursor, WalkError};
use db_format::{OutOfMemory, PageSource, Seen};
use std::alloc::Global;

/// How many rowids a window has at most.
const ROOM: usize = 1048576;

/// The next rowids of a table above one of them.
#[derive(Drop)]
pub(crate) struct Window {
    /// The rowid above which it begins; `None` where it has the first rows.
    pub above: Option<i64>,
    /// Its rowids, ascending.
    pub rowids: Vec<i64>,
    /// Whether the table has rows behind it.
    pub more: bool,
    /// How many rows the table has.
    pub rows: u64,
}

impl Window {
    // None yet. The list has room for all that come.
    fn new(rowids: Vec<i64>, above: Option<i64>) -> Window
        requires { rowids.items ≡ [] }
        ensures window { IsWindow [] result }
        ensures above { result.above ≡ above }
    {
        Window {
            above,
            rowids,
            more: false,
            rows: 0,
        }
    }

    /// Its last rowid, where the table has rows behind it.
    pub fn high(&self) -> Option<i64>
        ensures { result ≡ high self.now }
    {
        if !self.more {
            return None;
        }
        let count = self.rowids.len();
        if count == 0 {
            return Some(0);
        }
        Some(self.rowids[count - 1])
    }

    // One row of the table more.
    fn take(&mut self, rowid: i64) -> Result<(), OutOfMemory>
        requires { self.old.rows < 2 ^ 64 - 1 }
        ensures window { OnOk result ((rows : List ℤ) → IsWindow rows self.old → IsWindow (rows ++ rowid ∷ []) self.new) }
        ensures above { self.new.above ≡ self.old.above }
        ensures rows { OnOk result (self.new.rows ≡ self.old.rows + 1) }
    {
        self.rows += 1;
        if !is_above(self.above, rowid) {
            return Ok(());
        }
        if self.rowids.len() >= ROOM {
            self.more = true;
            return Ok(());
        }
        match self.rowids.push(rowid) {
            Err(_) => Err(OutOfMemory),
            Ok(()) => Ok(()),
        }
    }
}

// Whether the rowid is above this one.
fn is_above(low: Option<i64>, rowid: i64) -> bool
    ensures { result ≡ is_above low rowid }
{
    match low {
        None => true,
        Some(low) => low < rowid,
    }
}

/// The next rowids of the table with this root that are above this one.
pub(crate) fn read_window<S: PageSource>(
    alloc: Global,
    source: &mut S,
    root: u32,
    above: Option<i64>,
) -> Result<Window, WalkError<S::Refusal>>
    requires low { 1 ≤ root }
    requires high { root ≤ (S.plain source.old).count }
    requires unpinned { S.pins source.old ≡ no_pins }
    ensures found { IsTrue S.tells → MatchResult result (IsWindowOf (tree_walk (S.plain source.old) Table nothing root)) (IsAmong S.refuses (S.plain source.old) (tree_walk (S.plain source.old) Table nothing root)) }
    ensures above { IfOk result (λ window. window.above ≡ above) }
    ensures rows { IfOk result (λ window. (rows : List ℤ) × IsRising rows × IsWindow rows window) }
    ensures given { IfErr result (IsGivenBy S.only_read S.plain S.refuses source.old) }
    ensures fault { IfErr result (λ error. IsTrue (is_failure S.is_fault error) → Rose (S.faults source.old) (S.faults source.new)) }
    ensures unpinned { OnOk result (S.pins source.new ≡ no_pins) }
    ensures reads { S.only_read source.old source.new }
{
    let pages = source.pages();
    prove!(root <= pages);
    let mut seen = match Seen::new(alloc, pages) {
        Err(_) => return Err(WalkError::OutOfMemory),
        Ok(seen) => seen,
    };
    let mut cursor = match Cursor::of_family(alloc, root, Family::Table) {
        Err(_) => return Err(WalkError::OutOfMemory),
        Ok(cursor) => cursor,
    };
    // Taken at once: a list that grows has its old and its new place for a moment.
    let rowids = match Vec::with_capacity(alloc, ROOM) {
        Err(_) => return Err(WalkError::OutOfMemory),
        Ok(rowids) => rowids,
    };
    let mut window = Window::new(rowids, above);
    'entries: loop {
        match cursor.advance(source, &mut seen) {
            Err(error) => return Err(error),
            Ok(false) => return Ok(window),
            Ok(true) => match cursor.entry().rowid {
                None => {}
                Some(rowid) => match window.take(rowid) {
                    Err(_) => return Err(WalkError::OutOfMemory),
                    Ok(()) => {}
                },
            },
        }
    }
}
