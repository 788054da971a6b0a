// The entries of an index, section 2.4, beside a window of rows.
ghost use Rattle.std.specs.Prelude.{◌≡◌, ◌≤◌, ◌<◌, ◌+◌, length, IfErr, OnOk, IsTrue};
ghost use Rattle.db_format.specs.Pages.{nothing};
ghost use Rattle.db_format.specs.Source.{Rose, no_pins};
ghost use Rattle.btree_page.specs.declared.kind.Family.TheVariants.{Index};
ghost use Rattle.btree_model.specs.Tree.{tree_walk};
ghost use Rattle.btree_walk.specs.Causes.{IsGivenBy, is_failure};
ghost use Rattle.index_check.specs.Checked.{IsRising};
ghost use Rattle.index_check.specs.Window.{IsPartChecked};

use crate::Rowids;
use crate::missing::missing_rows;
use crate::owner::owner;
use crate::tally::Tally;
use crate::window::Window;
use btree_page::Family;
use btree_walk::{Cursor, WalkError};
use db_format::{PageSource, Seen};
use std::alloc::Global;

/// What a window of rows has of an index.
#[derive(Clone, Copy)]
pub(crate) struct Part {
    /// How many entries the index has.
    pub entries: u64,
    /// How many of them end in no integer.
    pub nameless: u64,
    /// The rows of the window to which no entry belongs.
    pub missing: Rowids,
    /// The entries that end with a rowid which the window decides, and which no row has.
    pub strangers: Rowids,
}

/// How the entries of the index with this root belong to the rows of a window.
pub(crate) fn check_part<S: PageSource>(
    alloc: Global,
    source: &mut S,
    root: u32,
    window: &Window,
) -> Result<Part, WalkError<S::Refusal>>
    requires low { 1 ≤ root }
    requires high { root ≤ (S.plain source.old).count }
    requires unpinned { S.pins source.old ≡ no_pins }
    requires rising { IsRising window.now.rowids.items }
    requires few { length window.now.rowids.items < 4294967295 }
    ensures found { IsTrue S.tells → IsPartChecked S.refuses (S.plain source.old) (tree_walk (S.plain source.old) Index nothing root) window.now result }
    ensures given { IfErr result (IsGivenBy S.only_read S.plain S.refuses source.old) }
    ensures fault { IfErr result (λ error. IsTrue (is_failure S.is_fault error) → Rose (S.faults source.old) (S.faults source.new)) }
    ensures unpinned { OnOk result (S.pins source.new ≡ no_pins) }
    ensures reads { S.only_read source.old source.new }
{
    let pages = source.pages();
    prove!(root <= pages);
    let mut seen = match Seen::new(alloc, pages) {
        Err(_) => return Err(WalkError::OutOfMemory),
        Ok(seen) => seen,
    };
    let mut tally = match Tally::new(alloc, window) {
        Err(_) => return Err(WalkError::OutOfMemory),
        Ok(tally) => tally,
    };
    let mut cursor = match Cursor::of_family(alloc, root, Family::Index) {
        Err(_) => return Err(WalkError::OutOfMemory),
        Ok(cursor) => cursor,
    };
    let upto = window.high();
    'entries: loop {
        match cursor.advance(source, &mut seen) {
            Err(error) => return Err(error),
            Ok(false) => {
                return Ok(Part {
                    entries: tally.entries,
                    nameless: tally.nameless,
                    missing: missing_rows(window.rowids.as_slice(), &tally.met),
                    strangers: tally.strangers,
                });
            }
            Ok(true) => tally.take(window, upto, owner(cursor.entry().payload)),
        }
    }
}
