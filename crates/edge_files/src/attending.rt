// What comes before each call of the disk: the files are open, nobody else is at them, and what is needed afterwards is kept. What the names
// lead to and what a stop may leave stays the same, but that the new file is synced before its first page is written.
ghost use Rattle.std.specs.Prelude.{◌≡◌, ◌⊎◌, ◌<◌, false, true, None, OnOk, IsTrue, is_some, length};
ghost use Rattle.edge_files.specs.Around.{NothingNew, OnlyLooked};
ghost use Rattle.edge_files.specs.Looks.{IsAsLeft, IsGuarded, IsStillNamed, KeptNotes, SameNotes, looks_at};
ghost use Rattle.edge_files.specs.Purposes.{is_on_log};
ghost use Rattle.edge_model.specs.declared.role.Role.TheVariants.{Journal, Main};

use crate::beside::remove_index;
use crate::failure::{Conflict, Failure, failed, of_failed};
use crate::folder::Folder;
use crate::held_lock::Held;
use crate::purpose::Purpose;
use crate::standard_error::warn_of_clear_rows;
use edge_model::{Disk, Role};
use std::io::ErrorKind;
use system_calls::{Calls, OpenFiles};

/// The first sector of a segment of a journal, in bytes. What is written at once and is no longer is no record.
const SECTOR: usize = 512;

impl<'a> Folder<'a> {
    pub(crate) fn prepare_length<C: Calls>(
        &mut self,
        files: &mut OpenFiles<C>,
        role: Role,
    ) -> Result<(), Failure<'a>>
        ensures looked { OnlyLooked C.tells C.system C.images C.moment C.since C.next files.old.calls files.new.calls }
        ensures notes { self.old.is_entered ≡ true → KeptNotes self.old self.new }
        ensures gate { self.new.gate ≡ self.old.gate }
        ensures entered { OnOk result (self.new.is_entered ≡ true) }
    {
        self.enter(files)?;
        self.attend_if_there(files, role)
    }

    pub(crate) fn prepare_read<C: Calls>(
        &mut self,
        files: &mut OpenFiles<C>,
        role: Role,
    ) -> Result<(), Failure<'a>>
        ensures looked { OnlyLooked C.tells C.system C.images C.moment C.since C.next files.old.calls files.new.calls }
        ensures notes { self.old.is_entered ≡ true → KeptNotes self.old self.new }
        ensures gate { self.new.gate ≡ self.old.gate }
        ensures known { self.new.journal.known ≡ self.old.journal.known }
        ensures entered { OnOk result (self.new.is_entered ≡ true) }
    {
        self.enter(files)?;
        self.attend(files, role)
    }

    // The file of this role is open.
    fn attend<C: Calls>(&mut self, files: &mut OpenFiles<C>, role: Role) -> Result<(), Failure<'a>>
        ensures looked { OnlyLooked C.tells C.system C.images C.moment C.since C.next files.old.calls files.new.calls }
        ensures notes { KeptNotes self.old self.new }
        ensures gate { self.new.gate ≡ self.old.gate }
        ensures known { self.new.journal.known ≡ self.old.journal.known }
    {
        match role {
            Role::Main => self.main.attend(files),
            Role::Journal => self.journal.attend(files),
            Role::Fresh => self.fresh.attend(files),
        }
    }

    // The same, where it is there.
    fn attend_if_there<C: Calls>(
        &mut self,
        files: &mut OpenFiles<C>,
        role: Role,
    ) -> Result<(), Failure<'a>>
        ensures looked { OnlyLooked C.tells C.system C.images C.moment C.since C.next files.old.calls files.new.calls }
        ensures notes { KeptNotes self.old self.new }
        ensures gate { self.new.gate ≡ self.old.gate }
    {
        match role {
            Role::Main => self.main.attend_if_there(files),
            Role::Journal => self.journal.attend_if_there(files),
            Role::Fresh => self.fresh.attend_if_there(files),
        }
    }

    pub(crate) fn prepare_write<C: Calls>(
        &mut self,
        files: &mut OpenFiles<C>,
        role: Role,
        at: u64,
        bytes: &[u8],
    ) -> Result<(), Failure<'a>>
        ensures looked { NothingNew C.tells C.system C.images C.moment C.since files.old.calls files.new.calls }
        ensures main { role ≡ Main → IsTrue (is_some self.old.main.identity) → OnOk result (IsTrue C.tells → IsGuarded (looks_at C.system C.found files.new.calls) self.new) }
        ensures journal { role ≡ Journal → length bytes.now < 512 → IsTrue (is_some self.old.journal.identity) → OnOk result (IsTrue C.tells → IsGuarded (looks_at C.system C.found files.new.calls) self.new) }
        ensures notes { self.old.is_entered ≡ true → KeptNotes self.old self.new }
        ensures gate { self.new.gate ≡ self.old.gate }
        ensures known { self.new.journal.known ≡ self.old.journal.known }
        ensures entered { OnOk result (self.new.is_entered ≡ true) }
    {
        self.enter_to_change(files)?;
        self.progress.add_written(bytes.len(), self.main.known());
        let outcome = self.attend_to_write(files, role, at, bytes);
        self.changed(outcome)
    }

    fn attend_to_write<C: Calls>(
        &mut self,
        files: &mut OpenFiles<C>,
        role: Role,
        at: u64,
        bytes: &[u8],
    ) -> Result<(), Failure<'a>>
        ensures looked { NothingNew C.tells C.system C.images C.moment C.since files.old.calls files.new.calls }
        ensures main { role ≡ Main → IsTrue (is_some self.old.main.identity) → OnOk result (IsTrue C.tells → IsGuarded (looks_at C.system C.found files.new.calls) self.new) }
        ensures journal { role ≡ Journal → length bytes.now < 512 → IsTrue (is_some self.old.journal.identity) → OnOk result (IsTrue C.tells → IsGuarded (looks_at C.system C.found files.new.calls) self.new) }
        ensures notes { KeptNotes self.old self.new }
        ensures gate { self.new.gate ≡ self.old.gate }
        ensures known { self.new.journal.known ≡ self.old.journal.known }
    {
        match role {
            Role::Main => self.attend_main(files, at, bytes.len()),
            Role::Journal => self.attend_journal(files, at, bytes),
            Role::Fresh => self.attend_fresh(files, at),
        }
    }

    // A page from a journal or from a log is not put back: another program lays the same one.
    fn attend_main<C: Calls>(
        &mut self,
        files: &mut OpenFiles<C>,
        at: u64,
        length: usize,
    ) -> Result<(), Failure<'a>>
        ensures looked { OnlyLooked C.tells C.system C.images C.moment C.since C.next files.old.calls files.new.calls }
        ensures guarded { IsTrue (is_some self.old.main.identity) → OnOk result (IsTrue C.tells → IsGuarded (looks_at C.system C.found files.new.calls) self.new) }
        ensures notes { KeptNotes self.old self.new }
        ensures gate { self.new.gate ≡ self.old.gate }
        ensures known { self.new.journal.known ≡ self.old.journal.known }
    {
        self.guard(&files.calls, self.is_at_rest)?;
        self.is_at_rest = false;
        self.main.attend_to_write(files)?;
        if self.lays() {
            return Ok(());
        }
        self.deeds.has_changed = true;
        self.undo.keep(&files.calls, &self.main, at, length)
    }

    // A record is of no effect until its segment's first byte is written. Once the first one is 0 the file is the new one.
    fn attend_journal<C: Calls>(
        &mut self,
        files: &mut OpenFiles<C>,
        at: u64,
        bytes: &[u8],
    ) -> Result<(), Failure<'a>>
        ensures looked { OnlyLooked C.tells C.system C.images C.moment C.since C.next files.old.calls files.new.calls }
        ensures guarded { length bytes.now < 512 → IsTrue (is_some self.old.journal.identity) → OnOk result (IsTrue C.tells → IsGuarded (looks_at C.system C.found files.new.calls) self.new) }
        ensures notes { KeptNotes self.old self.new }
        ensures gate { self.new.gate ≡ self.old.gate }
        ensures known { self.new.journal.known ≡ self.old.journal.known }
    {
        if bytes.len() >= SECTOR {
            return self.journal.attend_to_write(files);
        }
        self.guard(&files.calls, is_closing(at, bytes))?;
        self.journal.attend_to_write(files)
    }

    // Page 1 is written last, and the file is whole with it. What stands behind it is synced before, so that only moments pass until the
    // new file has taken Main's place.
    fn attend_fresh<C: Calls>(
        &mut self,
        files: &mut OpenFiles<C>,
        at: u64,
    ) -> Result<(), Failure<'a>>
        ensures looked { NothingNew C.tells C.system C.images C.moment C.since files.old.calls files.new.calls }
        ensures notes { KeptNotes self.old self.new }
        ensures gate { self.new.gate ≡ self.old.gate }
        ensures known { self.new.journal.known ≡ self.old.journal.known }
    {
        self.fresh.attend_to_write(files)?;
        if at > 0 {
            return Ok(());
        }
        let outcome = files.sync(Role::Fresh);
        of_failed(self.fresh.path(), &files.last, outcome)
    }

    pub(crate) fn prepare_cut<C: Calls>(
        &mut self,
        files: &mut OpenFiles<C>,
        role: Role,
    ) -> Result<(), Failure<'a>>
        ensures looked { OnlyLooked C.tells C.system C.images C.moment C.since C.next files.old.calls files.new.calls }
        ensures main { role ≡ Main → IsTrue (is_some self.old.main.identity) → OnOk result (IsTrue C.tells → IsGuarded (looks_at C.system C.found files.new.calls) self.new) }
        ensures notes { self.old.is_entered ≡ true → KeptNotes self.old self.new }
        ensures gate { self.new.gate ≡ self.old.gate }
        ensures known { self.new.journal.known ≡ self.old.journal.known }
        ensures entered { OnOk result (self.new.is_entered ≡ true) }
    {
        self.enter_to_change(files)?;
        let outcome = self.attend_to_cut(files, role);
        self.changed(outcome)
    }

    fn attend_to_cut<C: Calls>(
        &mut self,
        files: &mut OpenFiles<C>,
        role: Role,
    ) -> Result<(), Failure<'a>>
        ensures looked { OnlyLooked C.tells C.system C.images C.moment C.since C.next files.old.calls files.new.calls }
        ensures main { role ≡ Main → IsTrue (is_some self.old.main.identity) → OnOk result (IsTrue C.tells → IsGuarded (looks_at C.system C.found files.new.calls) self.new) }
        ensures notes { KeptNotes self.old self.new }
        ensures gate { self.new.gate ≡ self.old.gate }
        ensures known { self.new.journal.known ≡ self.old.journal.known }
    {
        match role {
            Role::Main => {
                self.guard(&files.calls, true)?;
                self.is_at_rest = false;
                self.main.attend_to_write(files)
            }
            Role::Journal => self.journal.attend_to_write(files),
            Role::Fresh => self.fresh.attend_to_write(files),
        }
    }

    pub(crate) fn prepare_sync<C: Calls>(
        &mut self,
        files: &mut OpenFiles<C>,
        role: Role,
    ) -> Result<(), Failure<'a>>
        ensures looked { OnlyLooked C.tells C.system C.images C.moment C.since C.next files.old.calls files.new.calls }
        ensures notes { self.old.is_entered ≡ true → KeptNotes self.old self.new }
        ensures gate { self.new.gate ≡ self.old.gate }
        ensures known { self.new.journal.known ≡ self.old.journal.known }
        ensures entered { OnOk result (self.new.is_entered ≡ true) }
    {
        self.enter(files)?;
        let outcome = self.attend(files, role);
        self.changed(outcome)
    }

    pub(crate) fn prepare_create<C: Calls>(
        &mut self,
        files: &mut OpenFiles<C>,
        role: Role,
    ) -> Result<(), Failure<'a>>
        ensures looked { OnlyLooked C.tells C.system C.images C.moment C.since C.next files.old.calls files.new.calls }
        ensures journal { role ≡ Journal → IsTrue (is_some self.old.main.identity) → OnOk result (IsTrue C.tells → IsGuarded (looks_at C.system C.found files.new.calls) self.new) }
        ensures notes { self.old.is_entered ≡ true → KeptNotes self.old self.new }
        ensures left { role ≡ Journal → IsTrue (is_some self.old.main.identity) → OnOk result (IsTrue C.tells → is_on_log self.new.purpose ≡ false → IsAsLeft (looks_at C.system C.found files.new.calls) self.new.journal self.old.gate) }
        ensures gate { (self.new.gate ≡ self.old.gate) ⊎ ((role ≡ Journal) × (self.new.gate ≡ None)) }
        ensures known { self.new.journal.known ≡ self.old.journal.known }
        ensures begun { role ≡ Journal → OnOk result (self.new.gate ≡ None) }
        ensures entered { OnOk result (self.new.is_entered ≡ true) }
    {
        self.enter_to_change(files)?;
        // The journal and the new file are to be like Main.
        let model = match role {
            Role::Main => None,
            Role::Journal | Role::Fresh => self.main.found(&files.calls)?,
        };
        files.make_like(model);
        let outcome = self.attend_to_create(files, role, model.is_some());
        self.changed(outcome)
    }

    fn attend_to_create<C: Calls>(
        &mut self,
        files: &mut OpenFiles<C>,
        role: Role,
        has_model: bool,
    ) -> Result<(), Failure<'a>>
        ensures looked { OnlyLooked C.tells C.system C.images C.moment C.since C.next files.old.calls files.new.calls }
        ensures journal { role ≡ Journal → IsTrue (is_some self.old.main.identity) → OnOk result (IsTrue C.tells → IsGuarded (looks_at C.system C.found files.new.calls) self.new) }
        ensures notes { KeptNotes self.old self.new }
        ensures left { role ≡ Journal → IsTrue (is_some self.old.main.identity) → OnOk result (IsTrue C.tells → is_on_log self.new.purpose ≡ false → IsAsLeft (looks_at C.system C.found files.new.calls) self.new.journal self.old.gate) }
        ensures gate { (self.new.gate ≡ self.old.gate) ⊎ ((role ≡ Journal) × (self.new.gate ≡ None)) }
        ensures known { self.new.journal.known ≡ self.old.journal.known }
        ensures begun { role ≡ Journal → OnOk result (self.new.gate ≡ None) }
    {
        match role {
            Role::Main => self.main.unbarred(),
            Role::Journal => self.attend_to_begin(files, has_model),
            Role::Fresh => {
                self.warn_of_clear_rows();
                self.fresh.unbarred()
            }
        }
    }

    // A new journal. Beside a file that can't be written it would only stand in the way of those who read.
    fn attend_to_begin<C: Calls>(
        &mut self,
        files: &mut OpenFiles<C>,
        has_model: bool,
    ) -> Result<(), Failure<'a>>
        ensures looked { OnlyLooked C.tells C.system C.images C.moment C.since C.next files.old.calls files.new.calls }
        ensures guarded { IsTrue (is_some self.old.main.identity) → OnOk result (IsTrue C.tells → IsGuarded (looks_at C.system C.found files.new.calls) self.new) }
        ensures notes { KeptNotes self.old self.new }
        ensures left { IsTrue (is_some self.old.main.identity) → OnOk result (IsTrue C.tells → is_on_log self.new.purpose ≡ false → IsAsLeft (looks_at C.system C.found files.new.calls) self.new.journal self.old.gate) }
        ensures gate { (self.new.gate ≡ self.old.gate) ⊎ (self.new.gate ≡ None) }
        ensures known { self.new.journal.known ≡ self.old.journal.known }
        ensures begun { OnOk result (self.new.gate ≡ None) }
    {
        self.guard(&files.calls, true)?;
        self.main.attend_to_write_where(files, has_model)?;
        self.gate = None;
        self.is_laying = false;
        self.journal.unbarred()
    }

    pub(crate) fn prepare_remove<C: Calls>(
        &mut self,
        files: &mut OpenFiles<C>,
        role: Role,
    ) -> Result<(), Failure<'a>>
        ensures looked { OnlyLooked C.tells C.system C.images C.moment C.since C.next files.old.calls files.new.calls }
        ensures journal { role ≡ Journal → IsTrue (is_some self.old.main.identity) → OnOk result (IsTrue C.tells → IsGuarded (looks_at C.system C.found files.new.calls) self.new) }
        ensures notes { self.old.is_entered ≡ true → KeptNotes self.old self.new }
        ensures gate { self.new.gate ≡ self.old.gate }
        ensures known { self.new.journal.known ≡ self.old.journal.known }
        ensures entered { OnOk result (self.new.is_entered ≡ true) }
    {
        self.enter_to_change(files)?;
        let outcome = self.attend_to_remove(files, role);
        self.changed(outcome)
    }

    fn attend_to_remove<C: Calls>(
        &mut self,
        files: &mut OpenFiles<C>,
        role: Role,
    ) -> Result<(), Failure<'a>>
        ensures looked { OnlyLooked C.tells C.system C.images C.moment C.since C.next files.old.calls files.new.calls }
        ensures journal { role ≡ Journal → IsTrue (is_some self.old.main.identity) → OnOk result (IsTrue C.tells → IsGuarded (looks_at C.system C.found files.new.calls) self.new) }
        ensures notes { KeptNotes self.old self.new }
        ensures gate { self.new.gate ≡ self.old.gate }
        ensures known { self.new.journal.known ≡ self.old.journal.known }
    {
        match role {
            Role::Main => self.main.unbarred(),
            Role::Journal => self.attend_to_drop(files),
            Role::Fresh => self.attend_to_clear(files),
        }
    }

    // The journal; or the log and its index. The index goes first: a log without it is recovered, and behind a log that is gone nothing would remove it.
    fn attend_to_drop<C: Calls>(&mut self, files: &mut OpenFiles<C>) -> Result<(), Failure<'a>>
        ensures looked { OnlyLooked C.tells C.system C.images C.moment C.since C.next files.old.calls files.new.calls }
        ensures guarded { IsTrue (is_some self.old.main.identity) → OnOk result (IsTrue C.tells → IsGuarded (looks_at C.system C.found files.new.calls) self.new) }
        ensures notes { KeptNotes self.old self.new }
        ensures gate { self.new.gate ≡ self.old.gate }
        ensures known { self.new.journal.known ≡ self.old.journal.known }
    {
        self.guard(&files.calls, true)?;
        if self.purpose != Purpose::LayLog {
            return self.journal.unbarred();
        }
        self.main.attend_to_write(files)?;
        remove_index(self.rt, self.index)?;
        self.journal.unbarred()
    }

    // Only what a stop has left of an earlier new file is removed, or its second name.
    fn attend_to_clear<C: Calls>(&mut self, files: &mut OpenFiles<C>) -> Result<(), Failure<'a>>
        ensures looked { OnlyLooked C.tells C.system C.images C.moment C.since C.next files.old.calls files.new.calls }
        ensures notes { KeptNotes self.old self.new }
        ensures gate { self.new.gate ≡ self.old.gate }
        ensures known { self.new.journal.known ≡ self.old.journal.known }
    {
        let is_there = self.fresh.measure(files)?.is_some();
        let calls = &files.calls;
        if is_there && !self.fresh.is_twin(calls)? && !self.fresh.is_unfinished(calls)? {
            return Err(Failure::of(self.fresh.path(), Conflict::InTheWay));
        }
        if !self.fresh.is_named(calls)? {
            return Err(Failure::of(self.fresh.path(), Conflict::Replaced));
        }
        self.fresh.unbarred()
    }

    pub(crate) fn prepare_rename<C: Calls>(
        &mut self,
        files: &mut OpenFiles<C>,
    ) -> Result<(), Failure<'a>>
        ensures looked { OnlyLooked C.tells C.system C.images C.moment C.since C.next files.old.calls files.new.calls }
        ensures fresh { OnOk result (IsTrue C.tells → IsStillNamed (looks_at C.system C.found files.new.calls) self.new.fresh) }
        ensures main { OnOk result (IsTrue C.tells → IsTrue (is_some self.new.main.identity) → IsGuarded (looks_at C.system C.found files.new.calls) self.new) }
        ensures absent { OnOk result (IsTrue C.tells → self.new.main.identity ≡ None → (looks_at C.system C.found files.new.calls).at_name self.new.main.role ≡ None) }
        ensures no_journal { OnOk result (IsTrue C.tells → (looks_at C.system C.found files.new.calls).at_name self.new.journal.role ≡ None) }
        ensures notes { self.old.is_entered ≡ true → SameNotes self.old self.new }
        ensures entered { OnOk result (self.new.is_entered ≡ true) }
    {
        self.enter_to_change(files)?;
        let outcome = self.check_to_rename(&files.calls);
        self.changed(outcome)
    }

    fn check_to_rename<C: Calls>(&mut self, calls: &C) -> Result<(), Failure<'a>>
        ensures fresh { OnOk result (IsTrue C.tells → IsStillNamed (looks_at C.system C.found calls.now) self.new.fresh) }
        ensures main { OnOk result (IsTrue C.tells → IsTrue (is_some self.new.main.identity) → IsGuarded (looks_at C.system C.found calls.now) self.new) }
        ensures absent { OnOk result (IsTrue C.tells → self.new.main.identity ≡ None → (looks_at C.system C.found calls.now).at_name self.new.main.role ≡ None) }
        ensures no_journal { OnOk result (IsTrue C.tells → (looks_at C.system C.found calls.now).at_name self.new.journal.role ≡ None) }
        ensures notes { SameNotes self.old self.new }
    {
        if !self.fresh.is_named(calls)? {
            return Err(Failure::of(self.fresh.path(), Conflict::Replaced));
        }
        self.require_main_to_rename(calls)?;
        self.require_no_journal(calls)?;
        self.deeds.has_renamed = true;
        self.is_at_rest = false;
        self.fresh.unbarred()
    }

    // Where Main is not open, nothing may have its name.
    fn require_main_to_rename<C: Calls>(&mut self, calls: &C) -> Result<(), Failure<'a>>
        ensures notes { SameNotes self.old self.new }
        ensures main { OnOk result (IsTrue C.tells → IsTrue (is_some self.new.main.identity) → IsGuarded (looks_at C.system C.found calls.now) self.new) }
        ensures absent { OnOk result (IsTrue C.tells → self.new.main.identity ≡ None → (looks_at C.system C.found calls.now).at_name self.new.main.role ≡ None) }
    {
        if self.main.is_open() {
            return self.guard(calls, true);
        }
        match self.main.found(calls)? {
            Some(_) => Err(Failure::of(self.main.path(), Conflict::Appeared)),
            None => Ok(()),
        }
    }

    // The first look of a run, before anything else: at what stands beside, and of the first run at who has Main open.
    pub(crate) fn enter<C: Calls>(&mut self, files: &mut OpenFiles<C>) -> Result<(), Failure<'a>>
        ensures looked { OnlyLooked C.tells C.system C.images C.moment C.since C.next files.old.calls files.new.calls }
        ensures main { IsTrue (is_some self.old.main.identity) → self.new.main.identity ≡ self.old.main.identity }
        ensures journal { self.new.journal ≡ self.old.journal }
        ensures gate { self.new.gate ≡ self.old.gate }
        ensures entered { OnOk result (self.new.is_entered ≡ true) }
        ensures again { self.old.is_entered ≡ true → self.new ≡ self.old }
    {
        if let Some(failure) = self.stopped {
            return Err(failure);
        }
        if self.is_entered {
            return Ok(());
        }
        self.main.unbarred()?;
        self.look_beside()?;
        if self.mark.is_none() && self.main.measure(files)?.is_some() {
            self.meet_main(&files.calls)?;
        }
        self.is_entered = true;
        Ok(())
    }

    // Main is open for the first time.
    fn meet_main<C: Calls>(&mut self, calls: &C) -> Result<(), Failure<'a>>
        ensures main { self.new.main ≡ self.old.main }
        ensures journal { self.new.journal ≡ self.old.journal }
        ensures gate { self.new.gate ≡ self.old.gate }
    {
        self.require_main(calls)?;
        self.take_lock_up()?;
        if self.held == Held::Nothing {
            self.look()?;
            self.is_unguarded = true;
        }
        self.fresh.set_twin(self.main.identity());
        self.rest(calls)
    }

    // Before a change. Where the file is read with its log there is none.
    fn enter_to_change<C: Calls>(&mut self, files: &mut OpenFiles<C>) -> Result<(), Failure<'a>>
        ensures looked { OnlyLooked C.tells C.system C.images C.moment C.since C.next files.old.calls files.new.calls }
        ensures main { IsTrue (is_some self.old.main.identity) → self.new.main.identity ≡ self.old.main.identity }
        ensures journal { self.new.journal ≡ self.old.journal }
        ensures gate { self.new.gate ≡ self.old.gate }
        ensures entered { OnOk result (self.new.is_entered ≡ true) }
        ensures again { self.old.is_entered ≡ true → self.new ≡ self.old }
    {
        self.enter(files)?;
        if self.purpose == Purpose::ReadLog {
            let denied = ErrorKind::PermissionDenied.into();
            return Err(failed(self.main.path(), "write", denied));
        }
        Ok(())
    }

    // The outcome of a change. Of one that failed it is not known whether it was done, so nothing more is called then.
    pub(crate) fn changed(&mut self, outcome: Result<(), Failure<'a>>) -> Result<(), Failure<'a>>
        ensures same { result ≡ outcome.entry }
        ensures notes { SameNotes self.old self.new }
    {
        if let Err(failure) = outcome {
            if failure.conflict().is_none() {
                self.stopped = Some(failure);
            }
        }
        outcome
    }

    // Whether what goes to Main is laid from a journal or a log.
    pub(crate) fn lays(&self) -> bool {
        !self.journal.is_made() || self.is_laying
    }

    // Once, before the first row is written.
    fn warn_of_clear_rows(&mut self)
        ensures notes { SameNotes self.old self.new }
    {
        if self.is_decrypting {
            self.is_decrypting = false;
            self.progress.clear();
            warn_of_clear_rows(self.rt, self.main.path());
        }
    }
}

/// Whether these bytes close a journal: its first one is 0 then.
pub(crate) fn is_closing(at: u64, bytes: &[u8]) -> bool {
    at == 0 && bytes.first() == Some(&0)
}
