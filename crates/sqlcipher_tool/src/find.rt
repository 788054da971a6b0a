// `find`: the rows of a table whose rowids lie in a range, read through the schema and the table's tree.
ghost use Rattle.std.specs.Prelude.{◌≡◌, ◌≤◌, ◌∷◌, [], false, IsTrue};
ghost use Rattle.db_format.specs.Source.{no_pins};
ghost use Rattle.pager.specs.Held.{pins_of};
ghost use Rattle.pager.specs.PagesOf.{pages_of};
ghost use Rattle.pager.specs.Reads.{DiskRead, Untouched};
ghost use Rattle.sqlcipher_tool.specs.Answer.{HasCauses, PutsLine, is_defect_status};
ghost use Rattle.sqlcipher_tool.specs.Find.{find_answers, rows_answer};
ghost use Rattle.sqlcipher_tool.specs.Promises.{AnswersOne};

use crate::command::Name;
use crate::conclusion::{conclude_refusal, conclude_stop};
use crate::status::{Refusal, Status};
use crate::walked::walk_stop;
use edge_model::{Disk, Entropy, Sink};
use pager::{PageSource, Pager};
use rowid_find::{FindError, find_from, table_root};
use std::alloc::Global;

/// Prints the rows of the table of this name whose rowids are from `low` to `high`. Of the pages of a file those are read that have
/// the schema, and those that lead to the rows.
pub fn find_pages<S: Sink, E: Entropy, D: Disk>(
    alloc: Global,
    pager: &mut Pager<'_, D, E>,
    name: &Name<'_>,
    low: i64,
    high: i64,
    out: &mut S,
) -> Status
    requires unpinned { pins_of pager.old.cache.held ≡ no_pins }
    ensures answer { IsTrue D.tells → AnswersOne (find_answers (pages_of pager.old) name.now low high) result S.tells (S.taken out.old) (S.taken out.new) }
    ensures line { IsTrue S.tells → is_defect_status result ≡ false → PutsLine result (S.taken out.old) (S.taken out.new) }
    ensures causes { HasCauses result (D.faults pager.old.disk.now) (D.faults pager.new.disk.now) (S.faults out.old) (S.faults out.new) }
    ensures disk { DiskRead D.tells D.reads D.images D.moment D.since D.faults pager.old.disk pager.new.disk }
    ensures entropy { Untouched pager.old.entropy pager.new.entropy }
{
    match table_root(alloc, pager, name.as_bytes()) {
        Ok(Some(root)) => print_rows(alloc, pager, root, low, high, out),
        Ok(None) => conclude_refusal(out, Refusal::NoTable),
        Err(error) => conclude_stop(out, walk_stop(&error)),
    }
}

// Prints the rows of the table with this root.
fn print_rows<S: Sink, E: Entropy, D: Disk>(
    alloc: Global,
    pager: &mut Pager<'_, D, E>,
    root: u32,
    low: i64,
    high: i64,
    out: &mut S,
) -> Status
    requires low { 1 ≤ root }
    requires high { root ≤ pager.old.count }
    ensures answer { IsTrue D.tells → AnswersOne (rows_answer (pages_of pager.old) root low high ∷ []) result S.tells (S.taken out.old) (S.taken out.new) }
    ensures line { IsTrue S.tells → is_defect_status result ≡ false → PutsLine result (S.taken out.old) (S.taken out.new) }
    ensures causes { HasCauses result (D.faults pager.old.disk.now) (D.faults pager.new.disk.now) (S.faults out.old) (S.faults out.new) }
    ensures disk { DiskRead D.tells D.reads D.images D.moment D.since D.faults pager.old.disk pager.new.disk }
    ensures entropy { Untouched pager.old.entropy pager.new.entropy }
{
    match find_from(alloc, pager, root, low, high, out) {
        Ok(_) => Status::Done,
        Err(FindError::Walk(error)) => conclude_stop(out, walk_stop(&error)),
        Err(FindError::OutputFault) => Status::OutputFault,
    }
}
