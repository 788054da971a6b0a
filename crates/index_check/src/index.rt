// An index beside its table.
ghost use Rattle.std.specs.Prelude.{◌≡◌, ◌≤◌, ◌<◌, length, IfErr, OnOk, IsTrue};
ghost use Rattle.db_format.specs.Pages.{nothing};
ghost use Rattle.db_format.specs.Source.{Rose, no_pins};
ghost use Rattle.btree_page.specs.declared.kind.Family.TheVariants.{Index, Table};
ghost use Rattle.btree_model.specs.Tree.{tree_walk};
ghost use Rattle.btree_walk.specs.Causes.{IsGivenBy, is_failure};
ghost use Rattle.index_check.specs.Checked.{IsIndexChecked};

use crate::part::check_part;
use crate::window::read_window;
use crate::{Agreement, Rowids};
use btree_walk::WalkError;
use db_format::PageSource;
use std::alloc::Global;

/// How the entries of the index with the root `index` belong to the rows of the table with the root `table`.
pub fn check_index<S: PageSource>(
    alloc: Global,
    source: &mut S,
    table: u32,
    index: u32,
) -> Result<Agreement, WalkError<S::Refusal>>
    requires table_low { 1 ≤ table }
    requires table_high { table ≤ (S.plain source.old).count }
    requires index_low { 1 ≤ index }
    requires index_high { index ≤ (S.plain source.old).count }
    requires unpinned { S.pins source.old ≡ no_pins }
    ensures found { IsTrue S.tells → IsIndexChecked S.refuses (S.plain source.old) (tree_walk (S.plain source.old) Table nothing table) (tree_walk (S.plain source.old) Index nothing index) result }
    ensures given { IfErr result (IsGivenBy S.only_read S.plain S.refuses source.old) }
    ensures fault { IfErr result (λ error. IsTrue (is_failure S.is_fault error) → Rose (S.faults source.old) (S.faults source.new)) }
    ensures unpinned { OnOk result (S.pins source.new ≡ no_pins) }
    ensures reads { S.only_read source.old source.new }
{
    let pages = source.pages();
    prove!(table <= pages);
    prove!(index <= pages);
    let mut above = None;
    let mut missing = Rowids::none();
    let mut strangers = Rowids::none();
    'windows: loop {
        let window = match read_window(alloc, source, table, above) {
            Err(error) => return Err(error),
            Ok(window) => window,
        };
        let part = match check_part(alloc, source, index, &window) {
            Err(error) => return Err(error),
            Ok(part) => part,
        };
        missing = missing.join(&part.missing);
        strangers = strangers.join(&part.strangers);
        above = match window.high() {
            None => {
                return Ok(Agreement {
                    rows: window.rows,
                    entries: part.entries,
                    missing,
                    strangers,
                    nameless: part.nameless,
                });
            }
            Some(last) => Some(last),
        };
    }
}
