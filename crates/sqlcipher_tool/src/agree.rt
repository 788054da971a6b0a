// The indexes of the pages of a file are compared with their tables.
ghost use Rattle.std.specs.Prelude.{◌≡◌, ◌≤◌, IsTrue};
ghost use Rattle.db_format.specs.Header.{header_fields};
ghost use Rattle.db_format.specs.Source.{no_pins};
ghost use Rattle.pager.specs.Held.{pins_of};
ghost use Rattle.pager.specs.PagesOf.{pages_of};
ghost use Rattle.pager.specs.Reads.{DiskRead, Untouched};
ghost use Rattle.sqlcipher_tool.specs.Answer.{HasCauses, PutsLine};
ghost use Rattle.sqlcipher_tool.specs.Agree.{agree_answers};
ghost use Rattle.sqlcipher_tool.specs.Promises.{AnswersOne};

use crate::conclusion::conclude_stop;
use crate::status::{Refusal, Status};
use crate::walked::walk_stop;
use edge_model::{Disk, Entropy, Sink};
use export_rows::ExportError;
use index_report::report_indexes;
use pager::Pager;
use std::alloc::Global;

/// Prints how each index of the pages of a file differs from its table, after all of them in use were checked.
pub fn agree_pages<S: Sink, E: Entropy, D: Disk>(
    alloc: Global,
    pager: &mut Pager<'_, D, E>,
    out: &mut S,
) -> Status
    requires header { IsTrue D.tells → 1 ≤ pager.old.count → pager.old.header ≡ header_fields ((pages_of pager.old).page 1) }
    requires unpinned { pins_of pager.old.cache.held ≡ no_pins }
    ensures answer { IsTrue D.tells → AnswersOne (agree_answers (pages_of pager.old)) result S.tells (S.taken out.old) (S.taken out.new) }
    ensures line { IsTrue S.tells → PutsLine result (S.taken out.old) (S.taken out.new) }
    ensures causes { HasCauses result (D.faults pager.old.disk.now) (D.faults pager.new.disk.now) (S.faults out.old) (S.faults out.new) }
    ensures disk { DiskRead D.tells D.reads D.images D.moment D.since D.faults pager.old.disk pager.new.disk }
    ensures entropy { Untouched pager.old.entropy pager.new.entropy }
{
    let header = *pager.header();
    let found = match report_indexes(alloc, pager, &header, out) {
        Ok(found) => found,
        Err(ExportError::Walk(error)) => return conclude_stop(out, walk_stop(&error)),
        Err(ExportError::OutputFault) => return Status::OutputFault,
    };
    if found.differing == 0 {
        return Status::Done;
    }
    Status::Refused(Refusal::IndexesDiffer {
        differing: found.differing,
        checked: found.checked,
    })
}
