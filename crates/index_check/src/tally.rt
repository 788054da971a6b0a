// The entries of an index, counted beside a window of rows.
ghost use Rattle.std.specs.Prelude.{◌≡◌, ◌≤◌, ◌<◌, ◌+◌, ◌-◌, ◌^◌, ◌++◌, ◌∷◌, ◌||◌, [], ℕ, ℤ, List, Option, length, slice_index_or, Some, IfOk};
ghost use Rattle.db_format.specs.Seen.{marked};
ghost use Rattle.index_check.specs.Agree.{has_row, is_of};
ghost use Rattle.index_check.specs.Checked.{IsRising};
ghost use Rattle.index_check.specs.Window.{IsTally, high, is_within};

use crate::Rowids;
use crate::place::place_of;
use crate::window::Window;
use db_format::{OutOfMemory, Seen};
use std::alloc::Global;

/// What was counted of an index.
#[derive(Drop)]
pub(crate) struct Tally {
    /// A mark for each row of the window to which an entry belongs, by its place.
    pub met: Seen,
    /// How many entries there were.
    pub entries: u64,
    /// How many of them end in no integer.
    pub nameless: u64,
    /// Those that end with a rowid which the window decides, and which no row has.
    pub strangers: Rowids,
}

impl Tally {
    /// No entry yet, beside a window.
    pub fn new(alloc: Global, window: &Window) -> Result<Tally, OutOfMemory>
        requires { length window.now.rowids.items < 4294967295 }
        ensures none { IfOk result (IsTally window.now []) }
        ensures marks { IfOk result (λ tally. length tally.met ≡ length window.now.rowids.items + 1) }
        ensures few { IfOk result (λ tally. (tally.entries ≡ 0) × (tally.nameless ≡ 0) × (tally.strangers.count ≡ 0)) }
    {
        match Seen::new(alloc, window.rowids.len() as u32) {
            Err(_) => Err(OutOfMemory),
            Ok(met) => Ok(Tally {
                met,
                entries: 0,
                nameless: 0,
                strangers: Rowids::none(),
            }),
        }
    }

    /// One entry more, with the rowid that it ends with.
    pub fn take(&mut self, window: &Window, upto: Option<i64>, owner: Option<i64>)
        requires entries { self.old.entries < 2 ^ 64 - 1 }
        requires nameless { self.old.nameless ≤ self.old.entries }
        requires strangers { self.old.strangers.count ≤ self.old.entries }
        requires rising { IsRising window.now.rowids.items }
        requires few { length window.now.rowids.items < 4294967295 }
        requires marks { length self.old.met ≡ length window.now.rowids.items + 1 }
        requires upto { upto ≡ high window.now }
        ensures tally { (owners : List (Option ℤ)) → IsTally window.now owners self.old → IsTally window.now (owners ++ owner ∷ []) self.new }
        ensures entries { self.new.entries ≡ self.old.entries + 1 }
        ensures nameless { self.new.nameless ≤ self.new.entries }
        ensures strangers { self.new.strangers.count ≤ self.new.entries }
        ensures marks { length self.new.met ≡ length self.old.met }
    {
        self.entries += 1;
        match owner {
            None => self.nameless += 1,
            Some(rowid) => {
                if meet(window.rowids.as_slice(), &mut self.met, rowid) {
                    return;
                }
                if is_within(window.above, upto, rowid) {
                    self.strangers.add(rowid);
                }
            }
        }
    }
}

// Marks the row of an entry that ends with this rowid, and answers whether there is one.
fn meet(rowids: &[i64], met: &mut Seen, rowid: i64) -> bool
    requires rising { IsRising rowids.now }
    requires few { length rowids.now < 4294967295 }
    requires marks { length met.old ≡ length rowids.now + 1 }
    ensures row { result ≡ has_row rowids.now (Some rowid) }
    ensures marks { (k : ℕ) (d : ℤ) → k < length rowids.now → marked met.new k ≡ (is_of (slice_index_or rowids.now k d) (Some rowid) || marked met.old k) }
    ensures length { length met.new ≡ length met.old }
{
    match place_of(rowids, rowid) {
        None => false,
        Some(at) => {
            met.mark(at as u32);
            true
        }
    }
}

// Whether the rowid is above the one, and not above the other.
fn is_within(low: Option<i64>, high: Option<i64>, rowid: i64) -> bool
    ensures { result ≡ is_within low high rowid }
{
    if let Some(low) = low {
        if low >= rowid {
            return false;
        }
    }
    match high {
        None => true,
        Some(high) => high >= rowid,
    }
}
