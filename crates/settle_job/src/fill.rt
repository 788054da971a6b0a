// A page of a transaction is filled anew.
ghost use Rattle.std.specs.Prelude.{◌≡◌, ◌≢◌, ◌≤◌, ◌==◌, ℕ, length, true, false, Err, IfErr, OnOk, IsTrue, if◌then◌else◌};
ghost use Rattle.edge_model.specs.Causes.{Rose};
ghost use Rattle.edge_model.specs.Files.{main_of};
ghost use Rattle.edge_model.specs.Images.{From, LeavesOnly};
ghost use Rattle.cipher_profile.specs.Profile.{usable};
ghost use Rattle.pager.specs.Pages.{is_page_number};
ghost use Rattle.pager.specs.UnderWay.{IsReadyFor, IsUnderWay, Start, is_failure, is_touched, seen_pages};
ghost use Rattle.atomic_commit.specs.Database.{HoldsOld};
ghost use Rattle.atomic_commit.specs.Facts.{SameFresh};
ghost use Rattle.pager.specs.Causes.{IsChangeRefusal};
ghost use Rattle.settle_job.specs.Put.{filled};

use edge_model::{Disk, Entropy};
use pager::{PageError, Txn};

/// Page n becomes these bytes, and zeros behind them. Its stored bytes are not opened.
pub(crate) fn fill_page<D: Disk, E: Entropy>(
    txn: &mut Txn<'_, D, E>,
    n: u32,
    bytes: &[u8],
) -> Result<(), PageError>
    ghost start: { Start }
    requires other { n ≢ 1 }
    requires number { is_page_number txn.old.count n ≡ true }
    requires within { length bytes.now ≤ usable txn.old.write.profile }
    requires sizes { (txn.old.write.profile.page_size ≡ start.base.size) × (txn.old.count ≡ start.base.pages) }
    requires ready { IsReadyFor txn.old.recorded txn.old.writer }
    requires under_way { IsTrue D.tells → IsUnderWay start txn.old.write txn.old.recorded txn.old.written txn.old.writer (D.reads txn.old.disk.now)
        (D.images txn.old.disk.now) E.tells (E.drawn txn.old.entropy.now) }
    ensures seen { OnOk result (IsTrue D.tells → (m : ℕ) → (seen_pages txn.new.read txn.new.write (main_of (D.reads txn.new.disk.now)) txn.new.count txn.new.written txn.new.changed.held).page m
        ≡ (if m == n then filled (usable txn.old.write.profile) bytes.now
        else (seen_pages txn.old.read txn.old.write (main_of (D.reads txn.old.disk.now)) txn.old.count txn.old.written txn.old.changed.held).page m)) }
    ensures touched { OnOk result ((m : ℕ) → is_page_number txn.old.count m ≡ true → is_touched txn.new.written txn.new.changed.held m
        ≡ (if m == n then true else is_touched txn.old.written txn.old.changed.held m)) }
    ensures refused { IfErr result IsChangeRefusal }
    ensures failed { IfErr result (λ e. IsTrue D.tells → is_failure e ≡ true) }
    ensures still { IfErr result (λ e. is_failure e ≡ false → IsReadyFor txn.new.recorded txn.new.writer) }
    ensures disk_fault { result ≡ Err PageError.DiskFault → Rose (D.faults txn.old.disk.now) (D.faults txn.new.disk.now) }
    ensures entropy_fault { result ≡ Err PageError.EntropyFault → Rose (E.faults txn.old.entropy.now) (E.faults txn.new.entropy.now) }
    ensures ready { OnOk result (IsReadyFor txn.new.recorded txn.new.writer) }
    ensures under_way { OnOk result (IsTrue D.tells → IsUnderWay start txn.new.write txn.new.recorded txn.new.written txn.new.writer (D.reads txn.new.disk.now)
        (D.images txn.new.disk.now) E.tells (E.drawn txn.new.entropy.now)) }
    ensures any_moment { IsTrue D.tells → LeavesOnly D.moment D.since txn.old.disk.now txn.new.disk.now (HoldsOld start.base) }
    ensures fresh { IsTrue D.tells → LeavesOnly D.moment D.since txn.old.disk.now txn.new.disk.now (From SameFresh (D.images txn.old.disk.now)) }
    ensures names { (txn.new.disk.ghost_name ≡ txn.old.disk.ghost_name) × (txn.new.entropy.ghost_name ≡ txn.old.entropy.ghost_name) }
    ensures later { (D.faults txn.old.disk.now ≤ D.faults txn.new.disk.now) × (E.faults txn.old.entropy.now ≤ E.faults txn.new.entropy.now) }
    ensures file { (txn.new.read ≡ txn.old.read) × (txn.new.write ≡ txn.old.write) × (txn.new.count ≡ txn.old.count) }
{
    match txn.page_zero(n) {
        Ok(()) => {}
        Err(error) => return Err(error),
    }
    txn.write(n, 0, bytes)
}
