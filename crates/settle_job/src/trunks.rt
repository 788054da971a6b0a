// A map page becomes a trunk of the freelist, in a transaction.
ghost use Rattle.std.specs.Prelude.{◌≡◌, ◌<◌, ◌≤◌, ◌==◌, ℕ, true, false, Err, IfErr, OnOk, IsTrue, if◌then◌else◌};
ghost use Rattle.edge_model.specs.Causes.{Rose};
ghost use Rattle.edge_model.specs.Files.{main_of};
ghost use Rattle.edge_model.specs.Images.{From, LeavesOnly};
ghost use Rattle.cipher_profile.specs.Profile.{usable};
ghost use Rattle.db_format.specs.Pages.{IsUsable};
ghost use Rattle.pager.specs.Pages.{is_page_number};
ghost use Rattle.pager.specs.UnderWay.{IsReadyFor, IsUnderWay, Start, is_touched, seen_pages};
ghost use Rattle.atomic_commit.specs.Database.{HoldsOld};
ghost use Rattle.atomic_commit.specs.Facts.{SameFresh};
ghost use Rattle.map_pages.specs.Maps.{map_count, map_number};
ghost use Rattle.map_pages.specs.Trunks.{is_new_trunk, map_trunk};
ghost use Rattle.settle_job.specs.Put.{IsNoTrunk};
ghost use Rattle.settle_job.specs.Stops.{IsTrunkRefusal, is_broken, is_failed};

use crate::fill::fill_page;
use edge_model::{Disk, Entropy};
use map_pages::{is_new_trunk, map_count, map_number, trunk_head};
use pager::{PageError, Txn};
use std::alloc::Global;

/// Why a new trunk was not written.
#[derive(Clone, Copy, Debug, PartialEq, Eq)]
pub enum TrunkError {
    /// Its page was refused.
    Page(PageError),
    /// There was no memory.
    OutOfMemory,
}

/// The map pages become trunks and leaves of the freelist: each page of a new trunk is written, and the leaves stay as they are. The old
/// freelist, whose first trunk is `old_first`, comes behind them. Page 1 is not written here.
pub fn put_trunks<D: Disk, E: Entropy>(
    alloc: Global,
    txn: &mut Txn<'_, D, E>,
    old_first: u32,
) -> Result<(), TrunkError>
    ghost start: { Start }
    requires usable { IsUsable (usable txn.old.write.profile) }
    requires sizes { (txn.old.write.profile.page_size ≡ start.base.size) × (txn.old.count ≡ start.base.pages) }
    requires ready { IsReadyFor txn.old.recorded txn.old.writer }
    requires under_way { IsTrue D.tells → IsUnderWay start txn.old.write txn.old.recorded txn.old.written txn.old.writer (D.reads txn.old.disk.now)
        (D.images txn.old.disk.now) E.tells (E.drawn txn.old.entropy.now) }
    ensures trunks { OnOk result (IsTrue D.tells → (k : ℕ) → k < map_count (usable txn.old.write.profile) txn.old.count → is_new_trunk (usable txn.old.write.profile) k ≡ true
        → (seen_pages txn.new.read txn.new.write (main_of (D.reads txn.new.disk.now)) txn.new.count txn.new.written txn.new.changed.held).page (map_number (usable txn.old.write.profile) k)
        ≡ map_trunk (usable txn.old.write.profile) (map_count (usable txn.old.write.profile) txn.old.count) old_first k) }
    ensures others { OnOk result (IsTrue D.tells → (m : ℕ) → IsNoTrunk (usable txn.old.write.profile) (map_count (usable txn.old.write.profile) txn.old.count) m
        → (seen_pages txn.new.read txn.new.write (main_of (D.reads txn.new.disk.now)) txn.new.count txn.new.written txn.new.changed.held).page m
        ≡ (seen_pages txn.old.read txn.old.write (main_of (D.reads txn.old.disk.now)) txn.old.count txn.old.written txn.old.changed.held).page m) }
    ensures touched { OnOk result ((k : ℕ) → k < map_count (usable txn.old.write.profile) txn.old.count → is_new_trunk (usable txn.old.write.profile) k ≡ true
        → is_touched txn.new.written txn.new.changed.held (map_number (usable txn.old.write.profile) k) ≡ true) }
    ensures untouched { OnOk result ((m : ℕ) → is_page_number txn.old.count m ≡ true → IsNoTrunk (usable txn.old.write.profile) (map_count (usable txn.old.write.profile) txn.old.count) m
        → is_touched txn.new.written txn.new.changed.held m ≡ is_touched txn.old.written txn.old.changed.held m) }
    ensures refused { IfErr result IsTrunkRefusal }
    ensures failed { IfErr result (λ e. IsTrue D.tells → is_failed e ≡ true) }
    // where no call failed, it can be taken back
    ensures still { IfErr result (λ e. is_broken e ≡ false → IsReadyFor txn.new.recorded txn.new.writer) }
    ensures still_under_way { IfErr result (λ e. is_broken e ≡ false → IsTrue D.tells → IsUnderWay start txn.new.write txn.new.recorded txn.new.written txn.new.writer
        (D.reads txn.new.disk.now) (D.images txn.new.disk.now) E.tells (E.drawn txn.new.entropy.now)) }
    ensures disk_fault { result ≡ Err (TrunkError.Page PageError.DiskFault) → Rose (D.faults txn.old.disk.now) (D.faults txn.new.disk.now) }
    ensures entropy_fault { result ≡ Err (TrunkError.Page PageError.EntropyFault) → Rose (E.faults txn.old.entropy.now) (E.faults txn.new.entropy.now) }
    ensures ready { OnOk result (IsReadyFor txn.new.recorded txn.new.writer) }
    ensures under_way { OnOk result (IsTrue D.tells → IsUnderWay start txn.new.write txn.new.recorded txn.new.written txn.new.writer (D.reads txn.new.disk.now)
        (D.images txn.new.disk.now) E.tells (E.drawn txn.new.entropy.now)) }
    ensures any_moment { IsTrue D.tells → LeavesOnly D.moment D.since txn.old.disk.now txn.new.disk.now (HoldsOld start.base) }
    ensures fresh { IsTrue D.tells → LeavesOnly D.moment D.since txn.old.disk.now txn.new.disk.now (From SameFresh (D.images txn.old.disk.now)) }
    ensures names { (txn.new.disk.ghost_name ≡ txn.old.disk.ghost_name) × (txn.new.entropy.ghost_name ≡ txn.old.entropy.ghost_name) }
    ensures later { (D.faults txn.old.disk.now ≤ D.faults txn.new.disk.now) × (E.faults txn.old.entropy.now ≤ E.faults txn.new.entropy.now) }
    ensures file { (txn.new.read ≡ txn.old.read) × (txn.new.write ≡ txn.old.write) × (txn.new.count ≡ txn.old.count) }
{
    let usable = txn.usable() as u32;
    let maps = map_count(usable, txn.pages());
    for k in 0..maps {
        if !is_new_trunk(usable, k) {
            continue;
        }
        match put_trunk(alloc, txn, old_first, k) {
            Ok(()) => {}
            Err(error) => return Err(error),
        }
    }
    Ok(())
}

// Map page k, counted from 0, becomes the trunk that it is of the new freelist, which goes on with the old one, whose first trunk is
// `old_first`. What stood on the page is not read.
fn put_trunk<D: Disk, E: Entropy>(
    alloc: Global,
    txn: &mut Txn<'_, D, E>,
    old_first: u32,
    k: u32,
) -> Result<(), TrunkError>
    ghost start: { Start }
    requires there { k < map_count (usable txn.old.write.profile) txn.old.count }
    requires usable { IsUsable (usable txn.old.write.profile) }
    requires sizes { (txn.old.write.profile.page_size ≡ start.base.size) × (txn.old.count ≡ start.base.pages) }
    requires ready { IsReadyFor txn.old.recorded txn.old.writer }
    requires under_way { IsTrue D.tells → IsUnderWay start txn.old.write txn.old.recorded txn.old.written txn.old.writer (D.reads txn.old.disk.now)
        (D.images txn.old.disk.now) E.tells (E.drawn txn.old.entropy.now) }
    ensures seen { OnOk result (IsTrue D.tells → (m : ℕ) → (seen_pages txn.new.read txn.new.write (main_of (D.reads txn.new.disk.now)) txn.new.count txn.new.written txn.new.changed.held).page m
        ≡ (if m == map_number (usable txn.old.write.profile) k
        then map_trunk (usable txn.old.write.profile) (map_count (usable txn.old.write.profile) txn.old.count) old_first k
        else (seen_pages txn.old.read txn.old.write (main_of (D.reads txn.old.disk.now)) txn.old.count txn.old.written txn.old.changed.held).page m)) }
    ensures touched { OnOk result ((m : ℕ) → is_page_number txn.old.count m ≡ true → is_touched txn.new.written txn.new.changed.held m
        ≡ (if m == map_number (usable txn.old.write.profile) k then true else is_touched txn.old.written txn.old.changed.held m)) }
    ensures refused { IfErr result IsTrunkRefusal }
    ensures failed { IfErr result (λ e. IsTrue D.tells → is_failed e ≡ true) }
    // where no call failed, it can be taken back
    ensures still { IfErr result (λ e. is_broken e ≡ false → IsReadyFor txn.new.recorded txn.new.writer) }
    ensures still_under_way { IfErr result (λ e. is_broken e ≡ false → IsTrue D.tells → IsUnderWay start txn.new.write txn.new.recorded txn.new.written txn.new.writer
        (D.reads txn.new.disk.now) (D.images txn.new.disk.now) E.tells (E.drawn txn.new.entropy.now)) }
    ensures disk_fault { result ≡ Err (TrunkError.Page PageError.DiskFault) → Rose (D.faults txn.old.disk.now) (D.faults txn.new.disk.now) }
    ensures entropy_fault { result ≡ Err (TrunkError.Page PageError.EntropyFault) → Rose (E.faults txn.old.entropy.now) (E.faults txn.new.entropy.now) }
    ensures ready { OnOk result (IsReadyFor txn.new.recorded txn.new.writer) }
    ensures under_way { OnOk result (IsTrue D.tells → IsUnderWay start txn.new.write txn.new.recorded txn.new.written txn.new.writer (D.reads txn.new.disk.now)
        (D.images txn.new.disk.now) E.tells (E.drawn txn.new.entropy.now)) }
    ensures any_moment { IsTrue D.tells → LeavesOnly D.moment D.since txn.old.disk.now txn.new.disk.now (HoldsOld start.base) }
    ensures fresh { IsTrue D.tells → LeavesOnly D.moment D.since txn.old.disk.now txn.new.disk.now (From SameFresh (D.images txn.old.disk.now)) }
    ensures names { (txn.new.disk.ghost_name ≡ txn.old.disk.ghost_name) × (txn.new.entropy.ghost_name ≡ txn.old.entropy.ghost_name) }
    ensures later { (D.faults txn.old.disk.now ≤ D.faults txn.new.disk.now) × (E.faults txn.old.entropy.now ≤ E.faults txn.new.entropy.now) }
    ensures file { (txn.new.read ≡ txn.old.read) × (txn.new.write ≡ txn.old.write) × (txn.new.count ≡ txn.old.count) }
{
    let usable = txn.usable() as u32;
    let head = match trunk_head(alloc, usable, txn.pages(), old_first, k) {
        Ok(head) => head,
        Err(_) => return Err(TrunkError::OutOfMemory),
    };
    match fill_page(txn, map_number(usable, k), &head) {
        Ok(()) => Ok(()),
        Err(error) => Err(TrunkError::Page(error)),
    }
}
