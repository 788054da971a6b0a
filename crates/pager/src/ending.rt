// A transaction ends: its changes are committed, taken back, or left as a call that failed left them.
ghost use Rattle.std.specs.Prelude.{◌≡◌, ◌≤◌, ◌⊎◌, [], None, Err, IsOk, OnOk, IsTrue};
ghost use Rattle.edge_model.specs.Causes.{HasCause, Rose};
ghost use Rattle.edge_model.specs.Images.{Each, From, LeavesOnly};
ghost use Rattle.edge_model.specs.Files.{main_of};
ghost use Rattle.atomic_commit.specs.Commit.{IsCommitted, LeavesChanged};
ghost use Rattle.atomic_commit.specs.Database.{HoldsEither, HoldsOld, stored_pages};
ghost use Rattle.atomic_commit.specs.Facts.{IsBase, SameFresh};
ghost use Rattle.atomic_commit.specs.Marks.{marked_count};
ghost use Rattle.pager.specs.UnderWay.{HasNewPages, IsReadyFor, IsUnderWay, Start, is_touched, seen_pages};

use crate::spilled::end_frames;
use crate::txn::Txn;
use atomic_commit::{CommitFault, undo_batches};
use edge_model::{Disk, Entropy, Failed};

impl<'d, D: Disk, E: Entropy> Txn<'d, D, E> {
    /// Ends the transaction: the changed pages that stand in frames are sealed, each with bytes of its own that are drawn here, and written
    /// so that a stop at any moment leaves all changes or none. Where none was changed, no call is made. The disk and the entropy come back
    /// in any case.
    #[tactic(auto, using(crate::proofs::EndingLemmas::room_enough))]
    pub fn end(self) -> (&'d mut D, &'d mut E, Result<(), CommitFault>)
        ghost start: { Start }
        requires sizes { (self.write.profile.page_size ≡ start.base.size) × (self.count ≡ start.base.pages) }
        requires base_is { IsBase start.base }
        requires ready { IsReadyFor self.recorded self.writer }
        requires under_way { IsTrue D.tells → IsUnderWay start self.write self.recorded self.written self.writer (D.reads self.disk.now)
            (D.images self.disk.now) E.tells (E.drawn self.entropy.now) }
        ensures disk { result.0.ghost_name ≡ self.entry.disk.ghost_name }
        ensures entropy { result.1.ghost_name ≡ self.entry.entropy.ghost_name }
        ensures changed { OnOk result.2 (IsTrue D.tells → HasNewPages start self.entry.write (is_touched self.entry.written self.entry.changed.held)
            (λ n. (seen_pages self.entry.read self.entry.write (main_of (D.reads self.entry.disk.now)) self.entry.count self.entry.written self.entry.changed.held).page n)
            E.tells (E.drawn result.1.now) (main_of (D.reads result.0.now))) }
        ensures new { OnOk result.2 (IsTrue D.tells → Each (D.images result.0.now) (IsCommitted start.base (main_of (D.reads result.0.now)))) }
        // no page was changed at all, and no call was made; or each image has Main as it reads
        ensures settled { OnOk result.2 (IsTrue D.tells → ((self.entry.changed.numbers ≡ []) × (marked_count self.entry.recorded ≡ 0) × (result.0.now ≡ self.entry.disk.now))
            ⊎ Each (D.images result.0.now) (λ c. c.main ≡ (D.reads result.0.now).main)) }
        ensures one_new { OnOk result.2 (IsTrue D.tells → LeavesOnly D.moment D.since self.entry.disk.now result.0.now
            (HoldsEither start.base (stored_pages start.base.size start.base.pages (main_of (D.reads result.0.now))))) }
        ensures any_moment { IsTrue D.tells → LeavesChanged D.moment D.since start.base (HasNewPages start self.entry.write (is_touched self.entry.written self.entry.changed.held)
            (λ n. (seen_pages self.entry.read self.entry.write (main_of (D.reads self.entry.disk.now)) self.entry.count self.entry.written self.entry.changed.held).page n)
            E.tells (E.drawn result.1.now)) self.entry.disk.now result.0.now }
        ensures only_old { result.2 ≡ Err CommitFault.EntropyFault → IsTrue D.tells → LeavesOnly D.moment D.since self.entry.disk.now result.0.now (HoldsOld start.base) }
        ensures fresh { IsTrue D.tells → LeavesOnly D.moment D.since self.entry.disk.now result.0.now (From SameFresh (D.images self.entry.disk.now)) }
        ensures none { self.entry.changed.numbers ≡ [] → marked_count self.entry.recorded ≡ 0 → IsOk result.2 × (result.0.now ≡ self.entry.disk.now)
            × (result.1.now ≡ self.entry.entropy.now) }
        ensures disk_fault { result.2 ≡ Err CommitFault.DiskFault → Rose (D.faults self.entry.disk.now) (D.faults result.0.now) }
        ensures entropy_fault { result.2 ≡ Err CommitFault.EntropyFault → Rose (E.faults self.entry.entropy.now) (E.faults result.1.now) }
        ensures disk_later { D.faults self.entry.disk.now ≤ D.faults result.0.now }
        ensures entropy_later { E.faults self.entry.entropy.now ≤ E.faults result.1.now }
    {
        let Txn {
            disk,
            entropy,
            read: _,
            write,
            count: _,
            changed,
            mut recorded,
            written,
            mut writer,
            mut draws,
            mut batch,
            mut stored,
            plain: _,
            window: _,
            ahead: _,
            last: _,
        } = self;
        let _listed = changed.len();
        let done = end_frames(
            &mut *disk,
            &mut *entropy,
            &mut writer,
            &mut recorded,
            &written,
            &write,
            &changed,
            &mut draws,
            &mut batch,
            &mut stored,
        );
        (disk, entropy, done)
    }

    /// The disk and the entropy, as a call that failed left them. No call is made: what was written stays, and a recovery lays the old
    /// pages back.
    pub fn into_parts(self) -> (&'d mut D, &'d mut E)
        ensures disk { (result.0.ghost_name ≡ self.entry.disk.ghost_name) × (result.0.now ≡ self.entry.disk.now) }
        ensures entropy { (result.1.ghost_name ≡ self.entry.entropy.ghost_name) × (result.1.now ≡ self.entry.entropy.now) }
    {
        let Txn {
            disk,
            entropy,
            read: _,
            write: _,
            count: _,
            changed: _,
            recorded: _,
            written: _,
            writer: _,
            draws: _,
            batch: _,
            stored: _,
            plain: _,
            window: _,
            ahead: _,
            last: _,
        } = self;
        (disk, entropy)
    }

    /// Takes all changes back: Main has its old pages again, and the journal is removed. Where none was written, no call is made. The disk
    /// and the entropy come back in any case.
    pub fn abandon(self) -> (&'d mut D, &'d mut E, Result<(), Failed>)
        ghost start: { Start }
        requires sizes { (self.write.profile.page_size ≡ start.base.size) × (self.count ≡ start.base.pages) }
        requires base_is { IsBase start.base }
        requires ready { IsReadyFor self.recorded self.writer }
        requires under_way { IsTrue D.tells → IsUnderWay start self.write self.recorded self.written self.writer (D.reads self.disk.now)
            (D.images self.disk.now) E.tells (E.drawn self.entropy.now) }
        ensures disk { result.0.ghost_name ≡ self.entry.disk.ghost_name }
        ensures entropy { (result.1.ghost_name ≡ self.entry.entropy.ghost_name) × (result.1.now ≡ self.entry.entropy.now) }
        ensures old { OnOk result.2 (IsTrue D.tells → Each (D.images result.0.now) (λ c. HoldsOld start.base c × (c.journal ≡ None))) }
        ensures any_moment { IsTrue D.tells → LeavesOnly D.moment D.since self.entry.disk.now result.0.now (HoldsOld start.base) }
        ensures fresh { IsTrue D.tells → LeavesOnly D.moment D.since self.entry.disk.now result.0.now (From SameFresh (D.images self.entry.disk.now)) }
        ensures none { marked_count self.entry.recorded ≡ 0 → IsOk result.2 × (result.0.now ≡ self.entry.disk.now) }
        ensures cause { HasCause (D.faults self.entry.disk.now) (D.faults result.0.now) result.2 }
    {
        let Txn {
            disk,
            entropy,
            read: _,
            write: _,
            count: _,
            changed: _,
            recorded,
            written: _,
            mut writer,
            draws: _,
            batch: _,
            stored: _,
            plain: _,
            window: _,
            ahead: _,
            last: _,
        } = self;
        let done = undo_batches(&mut *disk, &mut writer, &recorded);
        (disk, entropy, done)
    }
}
