// The old pages laid back into Main, while the journal stands.
ghost use Rattle.std.specs.Prelude.{◌≡◌, ◌⊎◌, ◌-◌, ◌*◌, ◌<◌, ◌≤◌, length, IsTrue, OnOk, Some};
ghost use Rattle.edge_model.specs.Causes.{HasCause};
ghost use Rattle.edge_model.specs.Images.{Each, From, LeavesOnly};
ghost use Rattle.rollback_journal.specs.Laying.{laid};
ghost use Rattle.rollback_journal.specs.Recovery.{KeepsRecovered, IsHeld};
ghost use Rattle.edge_model.specs.Files.{contents};
ghost use Rattle.rollback_journal.specs.Plays.{Plays};
ghost use Rattle.rollback_journal.specs.Writing.{safe_records, WriterStands};
ghost use Rattle.rollback_journal.specs.declared.stage.Stage.{Stage};

use super::JournalWriter;
use crate::segments::{Reading, play};
use edge_model::{Disk, Failed, Role};

impl JournalWriter {
    /// Lays each image that stands behind an open gate at its page's place in Main, in order, and syncs Main. The journal
    /// stays as it is.
    pub fn lay_back<D: Disk>(&mut self, disk: &mut D) -> Result<(), Failed>
        requires stage { (self.old.stage ≡ Stage.Filling) ⊎ (self.old.stage ≡ Stage.Opened) }
        requires stands { IsTrue D.tells → WriterStands self.old (D.reads disk.old) (D.images disk.old) }
        requires pages { IsTrue D.tells →
            Each (D.images disk.old) (λ c. self.old.initial * self.old.page_size ≤ length (contents c.main)) }
        ensures same { self.new ≡ self.old }
        ensures laid { OnOk result (IsTrue D.tells →
            contents (D.reads disk.new).main
            ≡ laid self.old.page_size (safe_records self.old (contents (D.reads disk.old).journal)) (contents (D.reads disk.old).main)) }
        ensures journal { OnOk result (IsTrue D.tells → (D.reads disk.new).journal ≡ (D.reads disk.old).journal) }
        ensures settled { OnOk result (IsTrue D.tells → Each (D.images disk.new) (λ c. c.main ≡ (D.reads disk.new).main)) }
        ensures stands { OnOk result (IsTrue D.tells → WriterStands self.old (D.reads disk.new) (D.images disk.new)) }
        ensures any_moment { IsTrue D.tells →
            LeavesOnly D.moment D.since disk.old disk.new (From (KeepsRecovered self.old.page_size) (D.images disk.old)) }
        ensures cause { HasCause (D.faults disk.old) (D.faults disk.new) result }
    {
        let begun = self.is_begun();
        if !begun {
            disk.sync_folder()?;
            disk.sync(Role::Main)?;
            return Ok(());
        }
        hold_journal(disk)?;
        self.play_back(disk)?;
        disk.sync(Role::Main)?;
        Ok(())
    }

    /// Plays the journal, which each image has as it reads.
    fn play_back<D: Disk>(&mut self, disk: &mut D) -> Result<(), Failed>
        requires begun { (0 < self.old.at) ⊎ (self.old.stage ≡ Stage.Opened) }
        requires stage { (self.old.stage ≡ Stage.Filling) ⊎ (self.old.stage ≡ Stage.Opened) }
        requires stands { IsTrue D.tells → WriterStands self.old (D.reads disk.old) (D.images disk.old) }
        requires pages { IsTrue D.tells →
            Each (D.images disk.old) (λ c. self.old.initial * self.old.page_size ≤ length (contents c.main)) }
        requires held { IsTrue D.tells → Each (D.images disk.old) (IsHeld (D.reads disk.old)) }
        ensures same { self.new ≡ self.old }
        ensures laid { OnOk result (IsTrue D.tells →
            contents (D.reads disk.new).main
            ≡ laid self.old.page_size (safe_records self.old (contents (D.reads disk.old).journal)) (contents (D.reads disk.old).main)) }
        ensures journal { OnOk result (IsTrue D.tells → (D.reads disk.new).journal ≡ (D.reads disk.old).journal) }
        ensures held { OnOk result (IsTrue D.tells → Each (D.images disk.new) (IsHeld (D.reads disk.new))) }
        ensures any_moment { IsTrue D.tells →
            LeavesOnly D.moment D.since disk.old disk.new (From (KeepsRecovered self.old.page_size) (D.images disk.old)) }
        ensures cause { HasCause (D.faults disk.old) (D.faults disk.new) result }
    {
        let Some(len) = disk.length(Role::Journal)? else {
            return Ok(());
        };
        let reading = Reading {
            page_size: self.page_size,
            initial: self.initial,
            sector: 512,
            len,
        };
        play(disk, &reading, &mut self.buffer)?;
        Ok(())
    }
}

/// Syncs the journal and the folder: each image then has the journal as it reads, and all names.
fn hold_journal<D: Disk>(disk: &mut D) -> Result<(), Failed>
    ensures same { IsTrue D.tells → D.reads disk.new ≡ D.reads disk.old }
    ensures held { OnOk result (IsTrue D.tells → Each (D.images disk.new) (IsHeld (D.reads disk.old))) }
    ensures crash { IsTrue D.tells → Each (D.images disk.new) (D.images disk.old) }
    ensures any_moment { IsTrue D.tells → LeavesOnly D.moment D.since disk.old disk.new (D.images disk.old) }
    ensures cause { HasCause (D.faults disk.old) (D.faults disk.new) result }
{
    disk.sync(Role::Journal)?;
    disk.sync_folder()
}
