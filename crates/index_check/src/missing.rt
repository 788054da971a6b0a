// Rows that were not met.
ghost use Rattle.std.specs.Prelude.{◌≡◌, ◌<◌, ℕ, ℤ, Bool, not, length, slice_index_or};
ghost use Rattle.std.specs.List.{filter};
ghost use Rattle.db_format.specs.Seen.{marked};
ghost use Rattle.index_check.specs.Checked.{AreCounted};

use crate::Rowids;
use db_format::Seen;

/// These rowids that have no mark by their place.
pub(crate) fn missing_rows(rowids: &[i64], met: &Seen) -> Rowids
    requires { length rowids.now < 4294967296 }
    ensures { (test : ℤ → Bool) → ((k : ℕ) (d : ℤ) → k < length rowids.now → marked met.now k ≡ test (slice_index_or rowids.now k d))
        → AreCounted (filter (λ rowid. not (test rowid)) rowids.now) result }
{
    let mut missing = Rowids::none();
    for at in 0..rowids.len() {
        if met.has(at as u32) {
            continue;
        }
        missing.add(rowids[at]);
    }
    missing
}
