// A whole database.
ghost use Rattle.std.specs.Prelude.{◌≡◌, ◌≤◌, ◌+◌, ◌^◌, ℕ, false, true, Err, IfOk, IfErr, OnOk};
ghost use Rattle.bulk_load.specs.Found.{IsTightBehind};
ghost use Rattle.bulk_load.specs.Out.{AreAllPut, Follows, HasEndCause, KeepsPages, is_load_refusal};
ghost use Rattle.db_maker.specs.Made.{IsFilled};
ghost use Rattle.db_maker.specs.Pages.{filled_pages};
ghost use Rattle.db_maker.specs.Rows.{total_len};

use crate::loading::load_part;
use crate::part::Part;
use crate::rows::data_len;
use crate::schema::load_schema;
use bulk_load::{LoadError, PageOut};
use std::alloc::Global;

/// What was made.
#[derive(Clone, Copy, Debug, PartialEq, Eq)]
pub struct Made {
    /// The rows of `items`, and so the entries of the other two trees.
    pub rows: u32,
    /// How many bytes the data of the items have together.
    pub bytes: u64,
}

/// Loads the database of `n` rows: the table `items`, its index `items_name`, the table `codes`, and the schema at page 1, which was not
/// put before. The first 100 bytes of page 1 are left for the header.
pub fn fill<P: PageOut>(alloc: Global, out: &mut P, n: u32) -> Result<Made, LoadError>
    requires free { (P.pages out.old).accepts 1 ≡ false }
    ensures made { (start : ℕ) → P.well start out.old → OnOk result (IsFilled (P.pages out.new) n) }
    // where no number had been taken before, it has no page beside the schema and the trees
    ensures tight { (start : ℕ) → P.well start out.old → (P.pages out.old).count ≡ 1 → OnOk result (IsTightBehind (P.pages out.new)) }
    ensures told { IfOk result (λ made. (made.rows ≡ n) × (made.bytes ≡ total_len n)) }
    ensures cause { IfErr result (HasEndCause P.pages P.limit P.faults out.old out.new) }
    // no more pages are taken than such a database has at most beside page 1, also where one more was asked for
    ensures few { (P.pages out.new).count ≤ (P.pages out.old).count + filled_pages (P.pages out.old).usable n }
    ensures asked { IfErr result (λ error. is_load_refusal error ≡ true → (P.pages out.new).count + 1 ≤ (P.pages out.old).count + filled_pages (P.pages out.old).usable n) }
    // and a tree is too deep only where as many pages are
    ensures deep { result ≡ Err LoadError.TooDeep → 2 ^ 28 ≤ (P.pages out.new).count }
    // and no page is missing
    ensures whole { (P.pages out.old).count ≡ 1 → OnOk result (AreAllPut (P.pages out.new)) }
    ensures keeps { KeepsPages P.pages P.limit P.faults P.well true out.old out.new }
    ensures follows { OnOk result (Follows P.pages P.limit P.faults P.well true out.old out.new) }
    ensures fresh { P.only_fresh out.old out.new }
{
    let items = load_part(alloc, out, Part::Items, n)?;
    let names = load_part(alloc, out, Part::Names, n)?;
    let codes = load_part(alloc, out, Part::Codes, n)?;
    load_schema(alloc, out, items, names, codes)?;
    Ok(Made {
        rows: n,
        bytes: total_len(n),
    })
}

// How many bytes the data of so many items have together.
fn total_len(rows: u32) -> u64
    ensures { result ≡ total_len rows }
{
    let mut total = 0;
    for before in 0..rows {
        total += data_len(before + 1) as u64;
    }
    total
}
