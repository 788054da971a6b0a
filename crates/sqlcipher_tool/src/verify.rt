// The pages of a file are verified: the freelist, the schema and the trees, and the tags that the walk has not met.
ghost use Rattle.std.specs.Prelude.{◌≡◌, ◌≤◌, ◌<◌, ℕ, true, Ok, IfOk, IfErr, IsTrue};
ghost use Rattle.edge_model.specs.Causes.{Rose};
ghost use Rattle.db_format.specs.Pages.{also, nothing};
ghost use Rattle.db_format.specs.Seen.{marked};
ghost use Rattle.db_format.specs.Source.{no_pins};
ghost use Rattle.btree_model.specs.Finding.{is_sound, leaves};
ghost use Rattle.btree_model.specs.Freelist.{first_trunk, free_field, freelist_walk};
ghost use Rattle.btree_model.specs.Parts.{parts};
ghost use Rattle.btree_walk.specs.Causes.{IsWalkStop, is_failure};
ghost use Rattle.pager.specs.Causes.{IsReadRefusal, MayRefuse, is_fault};
ghost use Rattle.pager.specs.Held.{pins_of};
ghost use Rattle.pager.specs.PagesOf.{pages_of};
ghost use Rattle.pager.specs.Reads.{DiskRead, Untouched};
ghost use Rattle.schema_map.specs.Census.{IsWhole};
ghost use Rattle.schema_map.specs.Parts.{IsEarliest};
ghost use Rattle.sqlcipher_tool.specs.Answer.{HasCauses, PutsLine};
ghost use Rattle.sqlcipher_tool.specs.Promises.{AnswersOne};
ghost use Rattle.sqlcipher_tool.specs.Verify.{pages_answers};

use crate::conclusion::{conclude, conclude_refusal, conclude_stop};
use crate::in_use::check_tags;
use crate::status::{Refusal, Status};
use crate::text::verify_report;
use crate::walked::{walk_refusal, walk_stop};
use btree_walk::WalkError;
use db_format::Header;
use edge_model::{Disk, Entropy, Sink};
use pager::{PageError, PageSource, Pager};
use schema_map::{Census, start};
use std::alloc::Global;

/// `verify` of the pages of a file. The walk comes first, since it checks the tag of each page that it meets; what is
/// printed is the same.
pub fn verify_pages<S: Sink, E: Entropy, D: Disk>(
    alloc: Global,
    pager: &mut Pager<'_, D, E>,
    out: &mut S,
) -> Status
    requires trunk { IsTrue D.tells → 1 ≤ pager.old.count → pager.old.header.first_trunk ≡ first_trunk (pages_of pager.old) }
    requires free { IsTrue D.tells → 1 ≤ pager.old.count → pager.old.header.free_count ≡ free_field (pages_of pager.old) }
    requires unpinned { pins_of pager.old.cache.held ≡ no_pins }
    ensures answer { IsTrue D.tells → AnswersOne (pages_answers (pages_of pager.old)) result S.tells (S.taken out.old) (S.taken out.new) }
    ensures line { IsTrue S.tells → PutsLine result (S.taken out.old) (S.taken out.new) }
    ensures causes { HasCauses result (D.faults pager.old.disk.now) (D.faults pager.new.disk.now) (S.faults out.old) (S.faults out.new) }
    ensures disk { DiskRead D.tells D.reads D.images D.moment D.since D.faults pager.old.disk pager.new.disk }
    ensures entropy { Untouched pager.old.entropy pager.new.entropy }
{
    let header = *pager.header();
    match start(alloc, pager, &header) {
        Ok(started) => match started.finish(alloc, pager) {
            Ok(census) => report_census(out, pager, &census),
            Err(error) => report_stop(alloc, out, pager, &header, &error),
        },
        Err(error) => conclude_stop(out, walk_stop(&error)),
    }
}

// The file was walked whole.
fn report_census<S: Sink, E: Entropy, D: Disk>(
    out: &mut S,
    pager: &mut Pager<'_, D, E>,
    census: &Census,
) -> Status
    requires { IsTrue D.tells → IsWhole (pages_of pager.old) census.now }
    ensures answer { IsTrue D.tells → AnswersOne (pages_answers (pages_of pager.old)) result S.tells (S.taken out.old) (S.taken out.new) }
    ensures line { IsTrue S.tells → PutsLine result (S.taken out.old) (S.taken out.new) }
    ensures causes { HasCauses result (D.faults pager.old.disk.now) (D.faults pager.new.disk.now) (S.faults out.old) (S.faults out.new) }
    ensures disk { DiskRead D.tells D.reads D.images D.moment D.since D.faults pager.old.disk pager.new.disk }
    ensures entropy { Untouched pager.old.entropy pager.new.entropy }
{
    let report = verify_report(
        census.trees as u64,
        census.entries,
        census.free,
        census.unused,
    );
    // Where no page is unused, each was met: it is accepted, or a leaf.
    if census.unused == 0 {
        return conclude(out, &report, Status::Done);
    }
    match check_tags(out, pager, &census.leaves) {
        Ok(None) => conclude(out, &report, Status::Done),
        Ok(Some(page)) => Status::Refused(Refusal::PageTag { page }),
        Err(status) => status,
    }
}

// The walk stopped behind the freelist, so the tags are to be checked before it is said why.
fn report_stop<S: Sink, E: Entropy, D: Disk>(
    alloc: Global,
    out: &mut S,
    pager: &mut Pager<'_, D, E>,
    header: &Header,
    error: &WalkError<PageError>,
) -> Status
    requires trunk { IsTrue D.tells → header.now.first_trunk ≡ first_trunk (pages_of pager.old) }
    requires free { IsTrue D.tells → header.now.free_count ≡ free_field (pages_of pager.old) }
    requires is_stop { IsWalkStop IsReadRefusal error.now }
    requires stopped { IsTrue D.tells → IsEarliest (MayRefuse D.tells) (pages_of pager.old) (parts (pages_of pager.old)) error.now }
    ensures answer { IsTrue D.tells → AnswersOne (pages_answers (pages_of pager.old)) result S.tells (S.taken out.old) (S.taken out.new) }
    ensures line { IsTrue S.tells → PutsLine result (S.taken out.old) (S.taken out.new) }
    ensures causes { (faults : ℕ) → (IsTrue (is_failure is_fault error.now) → Rose faults (D.faults pager.old.disk.now)) → faults ≤ D.faults pager.old.disk.now
        → HasCauses result faults (D.faults pager.new.disk.now) (S.faults out.old) (S.faults out.new) }
    ensures disk { DiskRead D.tells D.reads D.images D.moment D.since D.faults pager.old.disk pager.new.disk }
    ensures entropy { Untouched pager.old.entropy pager.new.entropy }
{
    let refusal = match walk_refusal(error) {
        Ok(refusal) => refusal,
        Err(stop) => return conclude_stop(out, stop),
    };
    match start(alloc, pager, header) {
        Ok(started) => match check_tags(out, pager, started.leaves()) {
            Ok(None) => conclude_refusal(out, refusal),
            Ok(Some(page)) => Status::Refused(Refusal::PageTag { page }),
            Err(status) => status,
        },
        Err(error) => conclude_stop(out, walk_stop(&error)),
    }
}
