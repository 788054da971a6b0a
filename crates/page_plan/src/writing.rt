// A plan is written and committed, in one transaction.
ghost use Rattle.std.specs.Prelude.{◌≡◌, ◌⊎◌, ◌≤◌, ◌<◌, ◌+◌, ℕ, [], true, false, Err, IfErr, OnOk, IsTrue};
ghost use Rattle.atomic_commit.specs.Commit.{IsCommitted, LeavesChanged};
ghost use Rattle.atomic_commit.specs.Database.{HoldsEither, HoldsOld, stored_pages};
ghost use Rattle.atomic_commit.specs.Facts.{IsBase, IsCommitBegun, SameFresh};
ghost use Rattle.atomic_commit.specs.Marks.{marked_count};
ghost use Rattle.cipher_profile.specs.Profile.{usable};
ghost use Rattle.edge_model.specs.Causes.{Rose};
ghost use Rattle.edge_model.specs.Files.{main_of};
ghost use Rattle.edge_model.specs.Images.{Each, From, LeavesOnly};
ghost use Rattle.edge_model.specs.OnlyRead.{OnlyRead};
ghost use Rattle.page_codec.specs.Page.{accepts};
ghost use Rattle.page_plan.specs.Stops.{is_begun, is_fault, page_stop};
ghost use Rattle.pager.specs.Causes.{IsChangeRefusal};
ghost use Rattle.pager.specs.Changed.{same_layout};
ghost use Rattle.pager.specs.File.{page_stored};
ghost use Rattle.pager.specs.Pages.{is_page_number};
ghost use Rattle.pager.specs.PagesOf.{pages_of};
ghost use Rattle.pager.specs.UnderWay.{HasNewPages, IsReadyFor, IsUnderWay, Start, is_failure, is_touched, seen_pages};

use crate::error::WriteError;
use crate::plan::Plan;
use crate::walk::write_pages;
use edge_model::{Disk, Entropy};
use page_codec::Codec;
use pager::{BeginError, CommitFault, PageError, Pager, Txn};
use std::alloc::Global;

/// Writes and commits the pages of a plan, sealed under the codec, of which so many stand in memory at most. The disk and the entropy come
/// back in any case.
pub fn write_plan<'d, D: Disk, E: Entropy, P: Plan>(
    alloc: Global,
    pager: Pager<'d, D, E>,
    write: Codec,
    frames: u32,
    plan: &P,
) -> (&'d mut D, &'d mut E, Result<(), WriteError>)
    ghost start: { Start }
    requires frames { (1 ≤ frames) × (frames ≤ 64) }
    requires sizes { (pager.codec.profile.page_size ≡ start.base.size) × (pager.count ≡ start.base.pages) }
    requires drawn { start.drawn ≡ E.drawn pager.entropy.now }
    requires base_is { IsBase start.base }
    requires begun { IsTrue D.tells → IsCommitBegun start.base (D.images pager.disk.now) }
    requires usable { usable pager.codec.profile ≡ P.plain_size plan.now }
    requires accepted { IsTrue D.tells → (n : ℕ) → is_page_number pager.count n ≡ true → P.opens plan.now n ≡ true
        → accepts pager.codec n (page_stored pager.codec start.base.start n) ≡ true }
    ensures disk { result.0.ghost_name ≡ pager.entry.disk.ghost_name }
    ensures entropy { result.1.ghost_name ≡ pager.entry.entropy.ghost_name }
    ensures changed { OnOk result.2 (IsTrue D.tells → HasNewPages start write (P.writes plan.now)
        (λ n. P.becomes plan.now n ((pages_of pager.entry).page n)) E.tells (E.drawn result.1.now) (main_of (D.reads result.0.now))) }
    ensures new { OnOk result.2 (IsTrue D.tells → Each (D.images result.0.now) (IsCommitted start.base (main_of (D.reads result.0.now)))) }
    // no page was written, and the disk was only read; or each image has Main as it reads
    ensures settled { OnOk result.2 (IsTrue D.tells → OnlyRead D.reads D.images D.moment D.since pager.entry.disk.now result.0.now
        ⊎ Each (D.images result.0.now) (λ c. c.main ≡ (D.reads result.0.now).main)) }
    ensures one_new { OnOk result.2 (IsTrue D.tells → LeavesOnly D.moment D.since pager.entry.disk.now result.0.now
        (HoldsEither start.base (stored_pages start.base.size start.base.pages (main_of (D.reads result.0.now))))) }
    ensures any_moment { IsTrue D.tells → LeavesChanged D.moment D.since start.base (HasNewPages start write (P.writes plan.now)
        (λ n. P.becomes plan.now n ((pages_of pager.entry).page n)) E.tells (E.drawn result.1.now)) pager.entry.disk.now result.0.now }
    ensures only_old { result.2 ≡ Err WriteError.EntropyFault → IsTrue D.tells → LeavesOnly D.moment D.since pager.entry.disk.now result.0.now (HoldsOld start.base) }
    ensures fresh { IsTrue D.tells → LeavesOnly D.moment D.since pager.entry.disk.now result.0.now (From SameFresh (D.images pager.entry.disk.now)) }
    ensures unbegun { IfErr result.2 (λ e. is_begun e ≡ false → (result.0.now ≡ pager.entry.disk.now) × (result.1.now ≡ pager.entry.entropy.now)) }
    ensures layout { result.2 ≡ Err WriteError.LayoutDiffers → same_layout pager.entry.codec write ≡ false }
    ensures differs { same_layout pager.entry.codec write ≡ false → result.2 ≡ Err WriteError.LayoutDiffers }
    // the file is what it was when it was checked: no page is refused
    ensures stopped { IfErr result.2 (λ e. is_begun e ≡ true → IsTrue D.tells → is_fault e ≡ true) }
    ensures disk_fault { result.2 ≡ Err WriteError.DiskFault → Rose (D.faults pager.entry.disk.now) (D.faults result.0.now) }
    ensures entropy_fault { result.2 ≡ Err WriteError.EntropyFault → Rose (E.faults pager.entry.entropy.now) (E.faults result.1.now) }
    ensures disk_later { D.faults pager.entry.disk.now ≤ D.faults result.0.now }
    ensures entropy_later { E.faults pager.entry.entropy.now ≤ E.faults result.1.now }
{
    match pager.begin(alloc, write, frames) {
        Ok(txn) => write_all(txn, plan),
        Err((pager, error)) => {
            let (disk, entropy) = pager.into_parts();
            (disk, entropy, Err(begin_stop(error)))
        }
    }
}

// All pages are written, and the transaction ends; or a page is refused, and it is given up.
fn write_all<'d, D: Disk, E: Entropy, P: Plan>(
    txn: Txn<'d, D, E>,
    plan: &P,
) -> (&'d mut D, &'d mut E, Result<(), WriteError>)
    ghost start: { Start }
    requires sizes { (txn.write.profile.page_size ≡ start.base.size) × (txn.count ≡ start.base.pages) }
    requires base_is { IsBase start.base }
    requires usable { usable txn.write.profile ≡ P.plain_size plan.now }
    requires untouched { (n : ℕ) → is_touched txn.written txn.changed.held n ≡ false }
    requires ready { IsReadyFor txn.recorded txn.writer }
    requires under_way { IsTrue D.tells → IsUnderWay start txn.write txn.recorded txn.written txn.writer (D.reads txn.disk.now)
        (D.images txn.disk.now) E.tells (E.drawn txn.entropy.now) }
    requires accepted { IsTrue D.tells → (n : ℕ) → is_page_number txn.count n ≡ true → P.opens plan.now n ≡ true
        → accepts txn.read n (page_stored txn.read start.base.start n) ≡ true }
    ensures disk { result.0.ghost_name ≡ txn.entry.disk.ghost_name }
    ensures entropy { result.1.ghost_name ≡ txn.entry.entropy.ghost_name }
    ensures changed { OnOk result.2 (IsTrue D.tells → HasNewPages start txn.entry.write (P.writes plan.now)
        (λ n. P.becomes plan.now n ((seen_pages txn.entry.read txn.entry.write (main_of (D.reads txn.entry.disk.now)) txn.entry.count txn.entry.written txn.entry.changed.held).page n))
        E.tells (E.drawn result.1.now) (main_of (D.reads result.0.now))) }
    ensures new { OnOk result.2 (IsTrue D.tells → Each (D.images result.0.now) (IsCommitted start.base (main_of (D.reads result.0.now)))) }
    ensures settled { OnOk result.2 (IsTrue D.tells → OnlyRead D.reads D.images D.moment D.since txn.entry.disk.now result.0.now
        ⊎ Each (D.images result.0.now) (λ c. c.main ≡ (D.reads result.0.now).main)) }
    ensures one_new { OnOk result.2 (IsTrue D.tells → LeavesOnly D.moment D.since txn.entry.disk.now result.0.now
        (HoldsEither start.base (stored_pages start.base.size start.base.pages (main_of (D.reads result.0.now))))) }
    ensures any_moment { IsTrue D.tells → LeavesChanged D.moment D.since start.base (HasNewPages start txn.entry.write (P.writes plan.now)
        (λ n. P.becomes plan.now n ((seen_pages txn.entry.read txn.entry.write (main_of (D.reads txn.entry.disk.now)) txn.entry.count txn.entry.written txn.entry.changed.held).page n))
        E.tells (E.drawn result.1.now)) txn.entry.disk.now result.0.now }
    ensures only_old { result.2 ≡ Err WriteError.EntropyFault → IsTrue D.tells → LeavesOnly D.moment D.since txn.entry.disk.now result.0.now (HoldsOld start.base) }
    ensures fresh { IsTrue D.tells → LeavesOnly D.moment D.since txn.entry.disk.now result.0.now (From SameFresh (D.images txn.entry.disk.now)) }
    ensures begun { IfErr result.2 (λ e. is_begun e ≡ true) }
    ensures failed { IfErr result.2 (λ e. IsTrue D.tells → is_fault e ≡ true) }
    ensures disk_fault { result.2 ≡ Err WriteError.DiskFault → Rose (D.faults txn.entry.disk.now) (D.faults result.0.now) }
    ensures entropy_fault { result.2 ≡ Err WriteError.EntropyFault → Rose (E.faults txn.entry.entropy.now) (E.faults result.1.now) }
    ensures disk_later { D.faults txn.entry.disk.now ≤ D.faults result.0.now }
    ensures entropy_later { E.faults txn.entry.entropy.now ≤ E.faults result.1.now }
{
    let mut txn = txn;
    match write_pages(&mut txn, plan) {
        Ok(()) => finish(txn),
        Err(error) => give_up(txn, error),
    }
}

// What was changed is committed.
fn finish<'d, D: Disk, E: Entropy>(
    txn: Txn<'d, D, E>,
) -> (&'d mut D, &'d mut E, Result<(), WriteError>)
    ghost start: { Start }
    requires sizes { (txn.write.profile.page_size ≡ start.base.size) × (txn.count ≡ start.base.pages) }
    requires base_is { IsBase start.base }
    requires ready { IsReadyFor txn.recorded txn.writer }
    requires under_way { IsTrue D.tells → IsUnderWay start txn.write txn.recorded txn.written txn.writer (D.reads txn.disk.now)
        (D.images txn.disk.now) E.tells (E.drawn txn.entropy.now) }
    ensures disk { result.0.ghost_name ≡ txn.entry.disk.ghost_name }
    ensures entropy { result.1.ghost_name ≡ txn.entry.entropy.ghost_name }
    ensures changed { OnOk result.2 (IsTrue D.tells → HasNewPages start txn.entry.write (is_touched txn.entry.written txn.entry.changed.held)
        (λ n. (seen_pages txn.entry.read txn.entry.write (main_of (D.reads txn.entry.disk.now)) txn.entry.count txn.entry.written txn.entry.changed.held).page n)
        E.tells (E.drawn result.1.now) (main_of (D.reads result.0.now))) }
    ensures new { OnOk result.2 (IsTrue D.tells → Each (D.images result.0.now) (IsCommitted start.base (main_of (D.reads result.0.now)))) }
    ensures settled { OnOk result.2 (IsTrue D.tells → ((txn.entry.changed.numbers ≡ []) × (marked_count txn.entry.recorded ≡ 0) × (result.0.now ≡ txn.entry.disk.now))
        ⊎ Each (D.images result.0.now) (λ c. c.main ≡ (D.reads result.0.now).main)) }
    ensures one_new { OnOk result.2 (IsTrue D.tells → LeavesOnly D.moment D.since txn.entry.disk.now result.0.now
        (HoldsEither start.base (stored_pages start.base.size start.base.pages (main_of (D.reads result.0.now))))) }
    ensures any_moment { IsTrue D.tells → LeavesChanged D.moment D.since start.base (HasNewPages start txn.entry.write (is_touched txn.entry.written txn.entry.changed.held)
        (λ n. (seen_pages txn.entry.read txn.entry.write (main_of (D.reads txn.entry.disk.now)) txn.entry.count txn.entry.written txn.entry.changed.held).page n)
        E.tells (E.drawn result.1.now)) txn.entry.disk.now result.0.now }
    ensures only_old { result.2 ≡ Err WriteError.EntropyFault → IsTrue D.tells → LeavesOnly D.moment D.since txn.entry.disk.now result.0.now (HoldsOld start.base) }
    ensures fresh { IsTrue D.tells → LeavesOnly D.moment D.since txn.entry.disk.now result.0.now (From SameFresh (D.images txn.entry.disk.now)) }
    ensures begun { IfErr result.2 (λ e. is_begun e ≡ true) }
    ensures failed { IfErr result.2 (λ e. is_fault e ≡ true) }
    ensures disk_fault { result.2 ≡ Err WriteError.DiskFault → Rose (D.faults txn.entry.disk.now) (D.faults result.0.now) }
    ensures entropy_fault { result.2 ≡ Err WriteError.EntropyFault → Rose (E.faults txn.entry.entropy.now) (E.faults result.1.now) }
    ensures disk_later { D.faults txn.entry.disk.now ≤ D.faults result.0.now }
    ensures entropy_later { E.faults txn.entry.entropy.now ≤ E.faults result.1.now }
{
    let (disk, entropy, done) = txn.end();
    match done {
        Ok(()) => (disk, entropy, Ok(())),
        Err(CommitFault::DiskFault) => (disk, entropy, Err(WriteError::DiskFault)),
        Err(CommitFault::EntropyFault) => (disk, entropy, Err(WriteError::EntropyFault)),
    }
}

// What is left of the transaction after a page was refused. Where no call failed, another program changed the file, and all is taken
// back.
fn give_up<'d, D: Disk, E: Entropy>(
    txn: Txn<'d, D, E>,
    error: PageError,
) -> (&'d mut D, &'d mut E, Result<(), WriteError>)
    ghost start: { Start }
    requires sizes { (txn.write.profile.page_size ≡ start.base.size) × (txn.count ≡ start.base.pages) }
    requires base_is { IsBase start.base }
    requires refused { is_failure error ≡ false → IsReadyFor txn.recorded txn.writer × (IsTrue D.tells → ⊥) }
    requires asked { IsChangeRefusal error }
    ensures disk { result.0.ghost_name ≡ txn.entry.disk.ghost_name }
    ensures entropy { (result.1.ghost_name ≡ txn.entry.entropy.ghost_name) × (result.1.now ≡ txn.entry.entropy.now) }
    ensures told { IsTrue D.tells → (result.0.now ≡ txn.entry.disk.now) × (result.2 ≡ Err (page_stop error)) }
    ensures stopped { (result.2 ≡ Err (page_stop error)) ⊎ ((result.2 ≡ Err WriteError.DiskFault) × Rose (D.faults txn.entry.disk.now) (D.faults result.0.now)) }
    ensures begun { IfErr result.2 (λ e. is_begun e ≡ true) }
    ensures later { D.faults txn.entry.disk.now ≤ D.faults result.0.now }
{
    if is_failure(error) {
        let (disk, entropy) = txn.into_parts();
        return (disk, entropy, Err(page_stop(error)));
    }
    let (disk, entropy, undone) = txn.abandon();
    match undone {
        Ok(()) => (disk, entropy, Err(page_stop(error))),
        Err(_) => (disk, entropy, Err(WriteError::DiskFault)),
    }
}

// How a transaction that is not begun stops the plan.
fn begin_stop(error: BeginError) -> WriteError
    ensures begun { is_begun result ≡ false }
    ensures layout { result ≡ WriteError.LayoutDiffers → error ≡ BeginError.LayoutDiffers }
    ensures differs { error ≡ BeginError.LayoutDiffers → result ≡ WriteError.LayoutDiffers }
{
    match error {
        BeginError::LayoutDiffers => WriteError::LayoutDiffers,
        BeginError::OutOfMemory => WriteError::OutOfMemory,
    }
}

// How a page that is refused stops it.
fn page_stop(error: PageError) -> WriteError
    requires { IsChangeRefusal error }
    ensures value { result ≡ page_stop error }
    ensures begun { is_begun result ≡ true }
{
    match error {
        PageError::TagRefused { page } => WriteError::TagRefused { page },
        PageError::DiskFault => WriteError::DiskFault,
        PageError::EntropyFault => WriteError::EntropyFault,
        // All pages are asked for by their numbers, and none is pinned.
        PageError::OutOfRange | PageError::AllPinned => unreachable!(),
    }
}

// Whether a call of the disk or of the entropy failed.
fn is_failure(error: PageError) -> bool
    ensures { result ≡ is_failure error }
{
    match error {
        PageError::DiskFault | PageError::EntropyFault => true,
        PageError::OutOfRange | PageError::TagRefused { page: _ } | PageError::AllPinned => false,
    }
}
