// All pages are sealed under another codec, in one transaction.
ghost use Rattle.std.specs.Prelude.{◌≡◌, ◌≢◌, ◌≤◌, ◌<◌, ℕ, true, Err, IfErr, OnOk, IsTrue, if◌then◌else◌, not, replicate};
ghost use Rattle.edge_model.specs.Causes.{Rose};
ghost use Rattle.edge_model.specs.Images.{Each, From, LeavesOnly};
ghost use Rattle.btree_model.specs.Plain.{is_leaf, with_zeros};
ghost use Rattle.db_format.specs.Seen.{marked};
ghost use Rattle.pager.specs.Changed.{same_layout};
ghost use Rattle.pager.specs.PagesOf.{pages_of};
ghost use Rattle.pager.specs.UnderWay.{HasNewPages, Start};
ghost use Rattle.edge_model.specs.Files.{main_of};
ghost use Rattle.atomic_commit.specs.Commit.{IsCommitted, LeavesChanged};
ghost use Rattle.atomic_commit.specs.Database.{HoldsEither, HoldsOld, stored_pages};
ghost use Rattle.atomic_commit.specs.Facts.{IsBase, IsCommitBegun, SameFresh};
ghost use Rattle.rekey_job.specs.Rewritten.{is_zeroed, rewritten};
ghost use Rattle.rekey_job.specs.Stops.{AreClean, IsLateRekey, rekey_write_error};

use crate::error::RekeyError;
use edge_model::{Disk, Entropy};
use page_codec::Codec;
use page_plan::{Over, Plan, WriteError, write_plan};
use pager::Pager;
use space_map::FreeMap;
use std::alloc::Global;

/// How many changed pages stand in memory.
const FRAMES: u32 = 64;

/// How many bytes of old pages wait for the journal together, behind one gate: 16 MiB. A stop costs the laying back of so many at most.
const SEGMENT: u32 = 16 * 1024 * 1024;

/// Where the part of page 1 begins that a transaction may write: no byte is written there.
const AT: usize = 16;

/// Each page as it is, and each of these leaves of the freelist as zeros.
#[derive(Drop)]
struct Reseal<'l> {
    leaves: &'l FreeMap,
    // the length of a plain page
    usable: usize,
    ghost long: { 16 ≤ usable },
}

impl<'l> Plan for Reseal<'l> {
    ghost plain_size = { λ r. r.usable };

    ghost writes = { λ r n. true };

    ghost opens = { λ r n. not (is_zeroed r.leaves.now.leaves n) };

    ghost becomes = { λ r. rewritten r.leaves.now.leaves r.usable };

    fn next(&self, after: u32, pages: u32) -> Option<u32> {
        if after < pages { Some(after + 1) } else { None }
    }

    fn over(&self, n: u32) -> Option<Over<'_>> {
        Some(Over {
            zeroed: is_zeroed(self.leaves, n),
            at: AT,
            bytes: &[],
        })
    }

    fn keeps_together(&self, _first: u32, _last: u32) -> bool {
        true
    }

    fn segment(&self) -> u32 {
        SEGMENT
    }
}

// Whether page n is a leaf of the freelist, which page 1 never is.
fn is_zeroed(leaves: &FreeMap, n: u32) -> bool
    ensures { result ≡ is_zeroed leaves.now.leaves n }
{
    n > 1 && leaves.is_leaf(n)
}

/// Seals all pages of a clean file with these leaves under the codec. The disk and the entropy come back in any case.
pub fn rewrite_pages<'d, D: Disk, E: Entropy>(
    alloc: Global,
    pager: Pager<'d, D, E>,
    write: Codec,
    leaves: &FreeMap,
) -> (&'d mut D, &'d mut E, Result<(), RekeyError>)
    ghost start: { Start }
    requires layout { same_layout pager.codec write ≡ true }
    requires sizes { (pager.codec.profile.page_size ≡ start.base.size) × (pager.count ≡ start.base.pages) }
    requires drawn { start.drawn ≡ E.drawn pager.entropy.now }
    requires base_is { IsBase start.base }
    requires begun { IsTrue D.tells → IsCommitBegun start.base (D.images pager.disk.now) }
    requires same { IsTrue D.tells → start.base.start ≡ main_of (D.reads pager.disk.now) }
    requires clean { IsTrue D.tells → AreClean (pages_of pager) }
    requires leaves { IsTrue D.tells → (n : ℕ) → marked leaves.now.leaves n ≡ is_leaf (pages_of pager) n }
    ensures disk { result.0.ghost_name ≡ pager.entry.disk.ghost_name }
    ensures entropy { result.1.ghost_name ≡ pager.entry.entropy.ghost_name }
    ensures changed { OnOk result.2 (IsTrue D.tells → HasNewPages start write (λ n. true)
        (with_zeros (pages_of pager.entry)).page E.tells (E.drawn result.1.now) (main_of (D.reads result.0.now))) }
    ensures new { OnOk result.2 (IsTrue D.tells → Each (D.images result.0.now) (IsCommitted start.base (main_of (D.reads result.0.now)))) }
    ensures one_new { OnOk result.2 (IsTrue D.tells → LeavesOnly D.moment D.since pager.entry.disk.now result.0.now
        (HoldsEither start.base (stored_pages start.base.size start.base.pages (main_of (D.reads result.0.now))))) }
    ensures any_moment { IsTrue D.tells → LeavesChanged D.moment D.since start.base (HasNewPages start write (λ n. true)
        (with_zeros (pages_of pager.entry)).page E.tells (E.drawn result.1.now)) pager.entry.disk.now result.0.now }
    ensures only_old { result.2 ≡ Err RekeyError.EntropyFault → IsTrue D.tells → LeavesOnly D.moment D.since pager.entry.disk.now result.0.now (HoldsOld start.base) }
    ensures fresh { IsTrue D.tells → LeavesOnly D.moment D.since pager.entry.disk.now result.0.now (From SameFresh (D.images pager.entry.disk.now)) }
    ensures unwritten { result.2 ≡ Err RekeyError.OutOfMemory → IsTrue D.tells → (result.0.now ≡ pager.entry.disk.now) × (result.1.now ≡ pager.entry.entropy.now) }
    ensures layout { result.2 ≢ Err RekeyError.LayoutDiffers }
    ensures late { IfErr result.2 (λ e. IsTrue D.tells → IsLateRekey e) }
    ensures disk_fault { result.2 ≡ Err RekeyError.DiskFault → Rose (D.faults pager.entry.disk.now) (D.faults result.0.now) }
    ensures entropy_fault { result.2 ≡ Err RekeyError.EntropyFault → Rose (E.faults pager.entry.entropy.now) (E.faults result.1.now) }
    ensures disk_later { D.faults pager.entry.disk.now ≤ D.faults result.0.now }
    ensures entropy_later { E.faults pager.entry.entropy.now ≤ E.faults result.1.now }
{
    let usable = pager.codec().profile().usable();
    let plan = Reseal { leaves, usable };
    let (disk, entropy, written) = write_plan(alloc, pager, write, FRAMES, &plan);
    match written {
        Ok(()) => (disk, entropy, Ok(())),
        Err(error) => (disk, entropy, Err(write_error(error))),
    }
}

// How a plan that is not written stops the rekey.
fn write_error(error: WriteError) -> RekeyError
    ensures { result ≡ rekey_write_error error }
{
    match error {
        WriteError::LayoutDiffers => RekeyError::LayoutDiffers,
        WriteError::OutOfMemory => RekeyError::OutOfMemory,
        WriteError::TagRefused { page } => RekeyError::PageTag { page },
        WriteError::DiskFault => RekeyError::DiskFault,
        WriteError::EntropyFault => RekeyError::EntropyFault,
    }
}
