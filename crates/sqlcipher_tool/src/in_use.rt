// The tags of all pages that are no leaf of the freelist.
ghost use Rattle.std.specs.Prelude.{◌≡◌, ◌⊎◌, ◌≤◌, ◌++◌, ◌∷◌, [], slice_get, option_to_list, None, Some, Ok, IfOk, IfErr, OnOk, OnErr, IsTrue, Err};
ghost use Rattle.edge_model.specs.Causes.{Rose};
ghost use Rattle.db_format.specs.Seen.{marked};
ghost use Rattle.pager.specs.PagesOf.{pages_of};
ghost use Rattle.pager.specs.Reads.{DiskRead, Untouched};
ghost use Rattle.text_lines.specs.Text.{PutsPart};
ghost use Rattle.sqlcipher_tool.specs.Plain.{is_left, refused_but};
ghost use Rattle.sqlcipher_tool.specs.Tags.{number_where};
ghost use Rattle.sqlcipher_tool.specs.Text.{tag_lines};

use crate::status::{Refusal, Status};
use crate::text::refusal_line;
use edge_model::{Disk, Entropy, Sink};
use pager::{PageError, PageSource, Pager};
use space_map::FreeMap;

/// Checks all pages but these leaves, and prints a line for each that is not accepted. Answers the first of these.
pub fn check_tags<S: Sink, D: Disk, E: Entropy>(
    out: &mut S,
    pager: &mut Pager<'_, D, E>,
    leaves: &FreeMap,
) -> Result<Option<u32>, Status>
    ensures first { IfOk result (λ first. IsTrue D.tells → first ≡ slice_get (refused_but (pages_of pager.old) (marked leaves.now.leaves)) 0) }
    ensures text { OnOk result (IsTrue S.tells → IsTrue D.tells → S.taken out.new ≡ S.taken out.old ++ tag_lines (refused_but (pages_of pager.old) (marked leaves.now.leaves))) }
    ensures unprinted { result ≡ Ok None → IsTrue S.tells → S.taken out.new ≡ S.taken out.old }
    ensures part { OnErr result (IsTrue S.tells → IsTrue D.tells → PutsPart (tag_lines (refused_but (pages_of pager.old) (marked leaves.now.leaves))) (S.taken out.old) (S.taken out.new)) }
    ensures fault { IfErr result (λ status. (status ≡ Status.DiskFault) ⊎ ((status ≡ Status.OutputFault) ⊎ (status ≡ Status.OutOfMemory))) }
    ensures disk_fault { result ≡ Err Status.DiskFault → Rose (D.faults pager.old.disk.now) (D.faults pager.new.disk.now) }
    ensures output_fault { result ≡ Err Status.OutputFault → Rose (S.faults out.old) (S.faults out.new) }
    ensures output_later { S.faults out.old ≤ S.faults out.new }
    ensures disk { DiskRead D.tells D.reads D.images D.moment D.since D.faults pager.old.disk pager.new.disk }
    ensures entropy { Untouched pager.old.entropy pager.new.entropy }
{
    let pages = pager.pages();
    let mut first = None;
    for done in 0..pages {
        match check_one(out, pager, done + 1, leaves) {
            Ok(refused) => first = first.or(refused),
            Err(status) => return Err(status),
        }
    }
    Ok(first)
}

// Checks page n, where it is no leaf, and prints a line where it is not accepted. Answers it then.
fn check_one<S: Sink, D: Disk, E: Entropy>(
    out: &mut S,
    pager: &mut Pager<'_, D, E>,
    n: u32,
    leaves: &FreeMap,
) -> Result<Option<u32>, Status>
    requires low { 1 ≤ n }
    requires high { n ≤ pager.old.count }
    ensures refused { IfOk result (λ refused. IsTrue D.tells → refused ≡ number_where (is_left (pages_of pager.old) (marked leaves.now.leaves)) n) }
    ensures text { IfOk result (λ refused. IsTrue S.tells → S.taken out.new ≡ S.taken out.old ++ tag_lines (option_to_list refused)) }
    ensures part { result ≡ Err Status.OutputFault → IsTrue S.tells → PutsPart (tag_lines (n ∷ [])) (S.taken out.old) (S.taken out.new) }
    ensures is_refused { result ≡ Err Status.OutputFault → IsTrue D.tells → number_where (is_left (pages_of pager.old) (marked leaves.now.leaves)) n ≡ Some n }
    ensures fault { IfErr result (λ status. (status ≡ Status.DiskFault) ⊎ ((status ≡ Status.OutputFault) ⊎ (status ≡ Status.OutOfMemory))) }
    ensures unread { IfErr result (λ status. ((status ≡ Status.DiskFault) ⊎ (status ≡ Status.OutOfMemory)) → out.new ≡ out.old) }
    ensures disk_fault { result ≡ Err Status.DiskFault → Rose (D.faults pager.old.disk.now) (D.faults pager.new.disk.now) }
    ensures output_fault { result ≡ Err Status.OutputFault → Rose (S.faults out.old) (S.faults out.new) }
    ensures output_later { S.faults out.old ≤ S.faults out.new }
    ensures disk { DiskRead D.tells D.reads D.images D.moment D.since D.faults pager.old.disk pager.new.disk }
    ensures entropy { Untouched pager.old.entropy pager.new.entropy }
    ensures file { (pager.new.codec ≡ pager.old.codec) × (pager.new.count ≡ pager.old.count) }
{
    if leaves.is_leaf(n) {
        return Ok(None);
    }
    match pager.load(n) {
        Ok(()) => Ok(None),
        Err(PageError::TagRefused { page: _ }) => report_refused(out, n),
        Err(PageError::DiskFault) => Err(Status::DiskFault),
        // Few pages are pinned, but no clause of a source of pages says that a frame is left.
        Err(PageError::AllPinned) => Err(Status::OutOfMemory),
        // All pages are asked for by their numbers.
        Err(PageError::OutOfRange | PageError::EntropyFault) => unreachable!(),
    }
}

// Prints the line of a page that is not accepted.
fn report_refused<S: Sink>(out: &mut S, n: u32) -> Result<Option<u32>, Status>
    ensures page { IfOk result (λ refused. refused ≡ Some n) }
    ensures text { OnOk result (IsTrue S.tells → S.taken out.new ≡ S.taken out.old ++ tag_lines (n ∷ [])) }
    ensures part { OnErr result (IsTrue S.tells → PutsPart (tag_lines (n ∷ [])) (S.taken out.old) (S.taken out.new)) }
    ensures fault { IfErr result (λ status. (status ≡ Status.OutputFault) × Rose (S.faults out.old) (S.faults out.new)) }
    ensures later { S.faults out.old ≤ S.faults out.new }
{
    match refusal_line(&Refusal::PageTag { page: n }).put(out) {
        Ok(()) => Ok(Some(n)),
        Err(_) => Err(Status::OutputFault),
    }
}
