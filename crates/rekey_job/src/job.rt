// A file is rekeyed.
ghost use Rattle.std.specs.Prelude.{◌≡◌, ◌≢◌, ◌≤◌, ℕ, true, false, Ok, Err, IfErr, OnOk, IsTrue};
ghost use Rattle.edge_model.specs.Causes.{Rose};
ghost use Rattle.edge_model.specs.Images.{Each, From, LeavesOnly};
ghost use Rattle.edge_model.specs.OnlyRead.{OnlyRead};
ghost use Rattle.btree_model.specs.Plain.{is_leaf};
ghost use Rattle.db_format.specs.Header.{header_fields};
ghost use Rattle.db_format.specs.Seen.{marked};
ghost use Rattle.db_format.specs.Source.{no_pins};
ghost use Rattle.cipher_profile.specs.Profile.{is_plain};
ghost use Rattle.page_codec.specs.Page.{salt_of};
ghost use Rattle.pager.specs.Drawn.{drawn_since};
ghost use Rattle.pager.specs.Base.{base_of};
ghost use Rattle.pager.specs.Changed.{same_layout};
ghost use Rattle.edge_model.specs.Files.{main_of};
ghost use Rattle.pager.specs.Held.{pins_of};
ghost use Rattle.pager.specs.Pages.{is_page_number};
ghost use Rattle.pager.specs.PagesOf.{pages_of};
ghost use Rattle.atomic_commit.specs.Commit.{IsCommitted, LeavesChanged};
ghost use Rattle.atomic_commit.specs.Database.{HoldsEither, HoldsOld, stored_pages};
ghost use Rattle.atomic_commit.specs.Facts.{IsCommitBegun, SameFresh};
ghost use Rattle.rekey_job.specs.Draws.{FileDraws};
ghost use Rattle.rekey_job.specs.Rekeyed.{IsRekeyed};
ghost use Rattle.rekey_job.specs.Stops.{AreClean, IsLateRekey, IsRekeyShown, is_unwritten};

use crate::check::check_pages;
use crate::error::RekeyError;
use crate::rewrite::rewrite_pages;
use edge_model::{Disk, Entropy};
use page_codec::Codec;
use pager::{Pager, is_same_layout};
use space_map::FreeMap;
use std::alloc::Global;

/// Seals every page of a file under another codec, in one transaction, after the whole database was checked. All memory is taken before
/// the first write, and does not grow with the file but by marks of its pages. The disk and the entropy come back in any case.
pub fn rekey<'d, D: Disk, E: Entropy>(
    alloc: Global,
    pager: Pager<'d, D, E>,
    write: Codec,
) -> (&'d mut D, &'d mut E, Result<(), RekeyError>)
    requires unpinned { pins_of pager.cache.held ≡ no_pins }
    requires salt { IsTrue D.tells → is_plain write.profile ≡ true → write.salt ≡ salt_of (main_of (D.reads pager.disk.now)) }
    requires header { IsTrue D.tells → pager.header ≡ header_fields ((pages_of pager).page 1) }
    requires begun { IsTrue D.tells → IsCommitBegun (base_of pager.codec (main_of (D.reads pager.disk.now)) pager.count) (D.images pager.disk.now) }
    ensures disk { result.0.ghost_name ≡ pager.entry.disk.ghost_name }
    ensures entropy { result.1.ghost_name ≡ pager.entry.entropy.ghost_name }
    // what Ok comes to: a clean file was rekeyed, and is all that is left
    ensures rekeyed { OnOk result.2 (IsTrue D.tells → IsRekeyed pager.entry.codec write pager.entry.count (main_of (D.reads pager.entry.disk.now)) (main_of (D.reads result.0.now))) }
    ensures own_draws { OnOk result.2 (IsTrue D.tells → IsTrue E.tells
        → FileDraws write (main_of (D.reads result.0.now)) (is_page_number pager.entry.count) 0 (drawn_since (E.drawn pager.entry.entropy.now) (E.drawn result.1.now))) }
    ensures new { OnOk result.2 (IsTrue D.tells
        → Each (D.images result.0.now) (IsCommitted (base_of pager.entry.codec (main_of (D.reads pager.entry.disk.now)) pager.entry.count) (main_of (D.reads result.0.now)))) }
    ensures clean { OnOk result.2 (IsTrue D.tells → AreClean (pages_of pager.entry)) }
    // each moment: the old pages, or those of one rekeyed file, each of which has drawn bytes of its own
    ensures any_moment { IsTrue D.tells → LeavesChanged D.moment D.since (base_of pager.entry.codec (main_of (D.reads pager.entry.disk.now)) pager.entry.count)
        (λ main. IsRekeyed pager.entry.codec write pager.entry.count (main_of (D.reads pager.entry.disk.now)) main × (IsTrue E.tells
        → FileDraws write main (is_page_number pager.entry.count) 0 (drawn_since (E.drawn pager.entry.entropy.now) (E.drawn result.1.now)))) pager.entry.disk.now result.0.now }
    ensures one_new { OnOk result.2 (IsTrue D.tells → LeavesOnly D.moment D.since pager.entry.disk.now result.0.now
        (HoldsEither (base_of pager.entry.codec (main_of (D.reads pager.entry.disk.now)) pager.entry.count)
        (stored_pages pager.entry.codec.profile.page_size pager.entry.count (main_of (D.reads result.0.now))))) }
    ensures only_old { result.2 ≡ Err RekeyError.EntropyFault → IsTrue D.tells → LeavesOnly D.moment D.since pager.entry.disk.now result.0.now
        (HoldsOld (base_of pager.entry.codec (main_of (D.reads pager.entry.disk.now)) pager.entry.count)) }
    ensures fresh { IsTrue D.tells → LeavesOnly D.moment D.since pager.entry.disk.now result.0.now (From SameFresh (D.images pager.entry.disk.now)) }
    // why it stopped, and what that leaves
    ensures layout { result.2 ≡ Err RekeyError.LayoutDiffers → same_layout pager.entry.codec write ≡ false }
    ensures differs { same_layout pager.entry.codec write ≡ false → (result.2 ≡ Err RekeyError.LayoutDiffers)
        × (result.0.now ≡ pager.entry.disk.now) × (result.1.now ≡ pager.entry.entropy.now) }
    ensures shown { IfErr result.2 (λ e. IsTrue D.tells → IsRekeyShown (pages_of pager.entry) e) }
    ensures unwritten { IfErr result.2 (λ e. is_unwritten e ≡ true → IsTrue D.tells
        → OnlyRead D.reads D.images D.moment D.since pager.entry.disk.now result.0.now × (result.1.now ≡ pager.entry.entropy.now)) }
    ensures disk_fault { result.2 ≡ Err RekeyError.DiskFault → Rose (D.faults pager.entry.disk.now) (D.faults result.0.now) }
    ensures entropy_fault { result.2 ≡ Err RekeyError.EntropyFault → Rose (E.faults pager.entry.entropy.now) (E.faults result.1.now) }
    ensures disk_later { D.faults pager.entry.disk.now ≤ D.faults result.0.now }
    ensures entropy_later { E.faults pager.entry.entropy.now ≤ E.faults result.1.now }
{
    let mut pager = pager;
    if !is_same_layout(pager.codec(), &write) {
        let (disk, entropy) = pager.into_parts();
        return (disk, entropy, Err(RekeyError::LayoutDiffers));
    }
    match check_pages(alloc, &mut pager) {
        Ok(leaves) => rekey_clean(alloc, pager, write, &leaves),
        Err(error) => {
            let (disk, entropy) = pager.into_parts();
            (disk, entropy, Err(error))
        }
    }
}

// The file is clean, and these are the leaves of its freelist.
fn rekey_clean<'d, D: Disk, E: Entropy>(
    alloc: Global,
    pager: Pager<'d, D, E>,
    write: Codec,
    leaves: &FreeMap,
) -> (&'d mut D, &'d mut E, Result<(), RekeyError>)
    requires layout { same_layout pager.codec write ≡ true }
    requires salt { IsTrue D.tells → is_plain write.profile ≡ true → write.salt ≡ salt_of (main_of (D.reads pager.disk.now)) }
    requires begun { IsTrue D.tells → IsCommitBegun (base_of pager.codec (main_of (D.reads pager.disk.now)) pager.count) (D.images pager.disk.now) }
    requires clean { IsTrue D.tells → AreClean (pages_of pager) }
    requires leaves { IsTrue D.tells → (n : ℕ) → marked leaves.now.leaves n ≡ is_leaf (pages_of pager) n }
    ensures disk { result.0.ghost_name ≡ pager.entry.disk.ghost_name }
    ensures entropy { result.1.ghost_name ≡ pager.entry.entropy.ghost_name }
    ensures rekeyed { OnOk result.2 (IsTrue D.tells → IsRekeyed pager.entry.codec write pager.entry.count (main_of (D.reads pager.entry.disk.now)) (main_of (D.reads result.0.now))) }
    ensures own_draws { OnOk result.2 (IsTrue D.tells → IsTrue E.tells
        → FileDraws write (main_of (D.reads result.0.now)) (is_page_number pager.entry.count) 0 (drawn_since (E.drawn pager.entry.entropy.now) (E.drawn result.1.now))) }
    ensures new { OnOk result.2 (IsTrue D.tells
        → Each (D.images result.0.now) (IsCommitted (base_of pager.entry.codec (main_of (D.reads pager.entry.disk.now)) pager.entry.count) (main_of (D.reads result.0.now)))) }
    ensures any_moment { IsTrue D.tells → LeavesChanged D.moment D.since (base_of pager.entry.codec (main_of (D.reads pager.entry.disk.now)) pager.entry.count)
        (λ main. IsRekeyed pager.entry.codec write pager.entry.count (main_of (D.reads pager.entry.disk.now)) main × (IsTrue E.tells
        → FileDraws write main (is_page_number pager.entry.count) 0 (drawn_since (E.drawn pager.entry.entropy.now) (E.drawn result.1.now)))) pager.entry.disk.now result.0.now }
    ensures one_new { OnOk result.2 (IsTrue D.tells → LeavesOnly D.moment D.since pager.entry.disk.now result.0.now
        (HoldsEither (base_of pager.entry.codec (main_of (D.reads pager.entry.disk.now)) pager.entry.count)
        (stored_pages pager.entry.codec.profile.page_size pager.entry.count (main_of (D.reads result.0.now))))) }
    ensures only_old { result.2 ≡ Err RekeyError.EntropyFault → IsTrue D.tells → LeavesOnly D.moment D.since pager.entry.disk.now result.0.now
        (HoldsOld (base_of pager.entry.codec (main_of (D.reads pager.entry.disk.now)) pager.entry.count)) }
    ensures fresh { IsTrue D.tells → LeavesOnly D.moment D.since pager.entry.disk.now result.0.now (From SameFresh (D.images pager.entry.disk.now)) }
    ensures unwritten { result.2 ≡ Err RekeyError.OutOfMemory → IsTrue D.tells → (result.0.now ≡ pager.entry.disk.now) × (result.1.now ≡ pager.entry.entropy.now) }
    ensures layout { result.2 ≢ Err RekeyError.LayoutDiffers }
    ensures late { IfErr result.2 (λ e. IsTrue D.tells → IsLateRekey e) }
    ensures disk_fault { result.2 ≡ Err RekeyError.DiskFault → Rose (D.faults pager.entry.disk.now) (D.faults result.0.now) }
    ensures entropy_fault { result.2 ≡ Err RekeyError.EntropyFault → Rose (E.faults pager.entry.entropy.now) (E.faults result.1.now) }
    ensures disk_later { D.faults pager.entry.disk.now ≤ D.faults result.0.now }
    ensures entropy_later { E.faults pager.entry.entropy.now ≤ E.faults result.1.now }
{
    let _old = pager.codec().profile();
    let _new = write.profile();
    let _salt = write.salt();
    rewrite_pages(alloc, pager, write, leaves)
}
