// What comes behind each call of the disk: what was done is noted, and it is looked whether others came in between. Nothing of the files changes.
ghost use Rattle.std.specs.Prelude.{◌≡◌, length, IfOk, OnOk, IsTrue};
ghost use Rattle.edge_files.specs.Around.{IsEndOf};
ghost use Rattle.edge_files.specs.Known.{IsWhole, of_role};
ghost use Rattle.edge_files.specs.Looks.{looks_at, mark_at};
ghost use Rattle.edge_files.specs.declared.purpose.Purpose.TheVariants.{ReadLog};
ghost use Rattle.edge_model.specs.declared.role.Role.TheVariants.{Main};

use crate::attending::is_closing;
use crate::beside::SeenLog;
use crate::failure::{Conflict, Failure, of_failed};
use crate::folder::Folder;
use crate::purpose::Purpose;
use edge_model::{Failed, Role};
use std::io::ErrorKind;
use system_calls::{Calls, Fault, OpenFiles};

impl<'a> Folder<'a> {
    pub(crate) fn end_length<C: Calls>(
        &mut self,
        files: &OpenFiles<C>,
        role: Role,
        outcome: Result<Option<u64>, Failed>,
    ) -> Result<Option<u64>, Failure<'a>>
        ensures end { IsEndOf outcome result }
        ensures entered { self.new.is_entered ≡ self.old.is_entered }
        ensures mark { self.new.mark ≡ self.old.mark }
    {
        let length = of_failed(self.file(role).path(), &files.last, outcome)?;
        self.note_length(role, length);
        if role == Role::Journal {
            self.require_log(&files.calls)?;
        }
        Ok(length)
    }

    pub(crate) fn end_read<C: Calls>(
        &mut self,
        files: &OpenFiles<C>,
        role: Role,
        at: u64,
        buf: &[u8],
        outcome: Result<usize, Failed>,
    ) -> Result<usize, Failure<'a>>
        ensures end { IsEndOf outcome result }
        ensures unwritten { role ≡ Main → OnOk result (IsTrue C.tells → mark_at (looks_at C.system C.found files.now.calls) self.new.main ≡ self.new.mark) }
        ensures whole { IfOk result (λ count. IsWhole (of_role role self.old.main.known self.old.journal.known self.old.fresh.known) at (length buf.now) count) }
        ensures entered { self.new.is_entered ≡ self.old.is_entered }
        ensures mark { self.new.mark ≡ self.old.mark }
    {
        let count = of_failed(self.file(role).path(), &files.last, outcome)?;
        self.file(role).require_whole(at, buf.len(), count)?;
        match role {
            // What another program wrote meanwhile would be of another state than what was read before.
            Role::Main => self.require_mark(&files.calls)?,
            Role::Journal => self.require_log(&files.calls)?,
            Role::Fresh => {}
        }
        if role == Role::Journal && !self.purpose.is_on_log() {
            self.is_laying = true;
            if at == 0 && count > 0 {
                self.gate = buf.first().copied();
            }
        }
        self.progress.add_read(count, self.main.known());
        Ok(count)
    }

    pub(crate) fn end_write<C: Calls>(
        &mut self,
        files: &OpenFiles<C>,
        role: Role,
        at: u64,
        bytes: &[u8],
        outcome: Result<(), Failed>,
    ) -> Result<(), Failure<'a>>
        ensures end { IsEndOf outcome result }
        ensures noted { role ≡ Main → OnOk result (IsTrue C.tells → self.new.mark ≡ mark_at (looks_at C.system C.found files.now.calls) self.new.main) }
        ensures entered { self.new.is_entered ≡ self.old.is_entered }
        ensures others { (role ≡ Main → ⊥) → self.new.mark ≡ self.old.mark }
    {
        let done = of_failed(self.file(role).path(), &files.last, outcome);
        self.changed(done)?;
        self.note_written(role, at, bytes.len());
        let looked = self.note_write(&files.calls, role, at, bytes);
        self.changed(looked)
    }

    fn note_write<C: Calls>(
        &mut self,
        calls: &C,
        role: Role,
        at: u64,
        bytes: &[u8],
    ) -> Result<(), Failure<'a>>
        ensures noted { role ≡ Main → OnOk result (IsTrue C.tells → self.new.mark ≡ mark_at (looks_at C.system C.found calls.now) self.new.main) }
        ensures entered { self.new.is_entered ≡ self.old.is_entered }
        ensures others { (role ≡ Main → ⊥) → self.new.mark ≡ self.old.mark }
    {
        match role {
            Role::Main => self.note_page(calls, at, bytes),
            Role::Journal => {
                self.note_record(at, bytes);
                Ok(())
            }
            Role::Fresh => Ok(()),
        }
    }

    fn note_page<C: Calls>(&mut self, calls: &C, at: u64, bytes: &[u8]) -> Result<(), Failure<'a>>
        ensures noted { OnOk result (IsTrue C.tells → self.new.mark ≡ mark_at (looks_at C.system C.found calls.now) self.new.main) }
        ensures entered { self.new.is_entered ≡ self.old.is_entered }
    {
        if self.lays() {
            self.count_laid();
            return self.note_main(calls);
        }
        self.undo.note(at, bytes);
        self.note_main(calls)?;
        let outcome = self.require_journal(calls);
        self.meet(&outcome);
        outcome
    }

    fn count_laid(&mut self)
        ensures entered { self.new.is_entered ≡ self.old.is_entered }
    {
        if self.purpose == Purpose::LayLog {
            self.deeds.frames = self.deeds.frames.saturating_add(1);
        } else if self.journal.is_open() && !self.journal.is_made() {
            self.deeds.laid = self.deeds.laid.saturating_add(1);
        }
    }

    fn note_record(&mut self, at: u64, bytes: &[u8])
        ensures entered { self.new.is_entered ≡ self.old.is_entered }
        ensures mark { self.new.mark ≡ self.old.mark }
    {
        self.is_laying = false;
        if at == 0 {
            self.gate = bytes.first().copied();
        }
        if is_closing(at, bytes) {
            self.undo.clear();
        }
    }

    pub(crate) fn end_cut<C: Calls>(
        &mut self,
        files: &OpenFiles<C>,
        role: Role,
        len: u64,
        outcome: Result<(), Failed>,
    ) -> Result<(), Failure<'a>>
        ensures end { IsEndOf outcome result }
        ensures noted { role ≡ Main → OnOk result (IsTrue C.tells → self.new.mark ≡ mark_at (looks_at C.system C.found files.now.calls) self.new.main) }
        ensures entered { self.new.is_entered ≡ self.old.is_entered }
        ensures others { (role ≡ Main → ⊥) → self.new.mark ≡ self.old.mark }
    {
        let done = of_failed(self.file(role).path(), &files.last, outcome);
        self.changed(done)?;
        self.note_cut(role, len);
        let looked = self.note_mark(&files.calls, role);
        self.changed(looked)
    }

    fn note_mark<C: Calls>(&mut self, calls: &C, role: Role) -> Result<(), Failure<'a>>
        ensures noted { role ≡ Main → OnOk result (IsTrue C.tells → self.new.mark ≡ mark_at (looks_at C.system C.found calls.now) self.new.main) }
        ensures entered { self.new.is_entered ≡ self.old.is_entered }
        ensures others { (role ≡ Main → ⊥) → self.new.mark ≡ self.old.mark }
    {
        match role {
            Role::Main => self.note_main(calls),
            Role::Journal | Role::Fresh => Ok(()),
        }
    }

    pub(crate) fn end_sync<C: Calls>(
        &mut self,
        files: &OpenFiles<C>,
        role: Role,
        outcome: Result<(), Failed>,
    ) -> Result<(), Failure<'a>>
        ensures end { IsEndOf outcome result }
        ensures noted { role ≡ Main → (self.old.purpose ≡ ReadLog → ⊥) → OnOk result (IsTrue C.tells → self.new.mark ≡ mark_at (looks_at C.system C.found files.now.calls) self.new.main) }
        ensures entered { self.new.is_entered ≡ self.old.is_entered }
        ensures others { (role ≡ Main → ⊥) → self.new.mark ≡ self.old.mark }
    {
        let done = of_failed(self.file(role).path(), &files.last, outcome);
        self.changed(done)?;
        if role != Role::Main || self.purpose == Purpose::ReadLog {
            return Ok(());
        }
        let looked = self.require_rest(&files.calls);
        self.changed(looked)
    }

    // Main is synced, and as this run has written it.
    fn require_rest<C: Calls>(&mut self, calls: &C) -> Result<(), Failure<'a>>
        ensures noted { OnOk result (IsTrue C.tells → self.new.mark ≡ mark_at (looks_at C.system C.found calls.now) self.new.main) }
        ensures entered { self.new.is_entered ≡ self.old.is_entered }
    {
        let outcome = self.require_mark(calls);
        self.meet(&outcome);
        outcome?;
        self.rest(calls)
    }

    pub(crate) fn end_create<C: Calls>(
        &mut self,
        files: &OpenFiles<C>,
        role: Role,
        outcome: Result<(), Failed>,
    ) -> Result<(), Failure<'a>>
        ensures end { IsEndOf outcome result }
        ensures noted { role ≡ Main → OnOk result (IsTrue C.tells → self.new.mark ≡ mark_at (looks_at C.system C.found files.now.calls) self.new.main) }
        ensures entered { self.new.is_entered ≡ self.old.is_entered }
        ensures others { (role ≡ Main → ⊥) → self.new.mark ≡ self.old.mark }
    {
        let done = of_failed(self.file(role).path(), &files.last, outcome);
        self.changed(done)?;
        let kept = self.note_created(&files.calls, role);
        self.changed(kept)?;
        let looked = self.note_mark(&files.calls, role);
        self.changed(looked)
    }

    pub(crate) fn end_remove<C: Calls>(
        &mut self,
        files: &OpenFiles<C>,
        role: Role,
        outcome: Result<(), Failed>,
    ) -> Result<(), Failure<'a>>
        ensures end { IsEndOf outcome result }
        ensures entered { self.new.is_entered ≡ self.old.is_entered }
        ensures others { (role ≡ Main → ⊥) → self.new.mark ≡ self.old.mark }
    {
        let done = of_failed(self.file(role).path(), &files.last, outcome);
        self.changed(done)?;
        let was_found = !self.file(role).is_made();
        self.note_removed(role);
        match role {
            Role::Main => self.mark = None,
            Role::Journal => self.note_dropped(was_found),
            Role::Fresh => {}
        }
        Ok(())
    }

    fn note_dropped(&mut self, was_found: bool)
        ensures entered { self.new.is_entered ≡ self.old.is_entered }
        ensures mark { self.new.mark ≡ self.old.mark }
    {
        if self.purpose == Purpose::LayLog {
            self.seen = Some(SeenLog::none());
            self.deeds.has_dropped_log = true;
            return;
        }
        self.gate = None;
        if was_found {
            self.deeds.has_dropped = true;
        }
    }

    pub(crate) fn end_rename<C: Calls>(
        &mut self,
        files: &OpenFiles<C>,
        outcome: Result<(), Failed>,
    ) -> Result<(), Failure<'a>>
        ensures end { IsEndOf outcome result }
        ensures noted { OnOk result (IsTrue C.tells → self.new.mark ≡ mark_at (looks_at C.system C.found files.now.calls) self.new.main) }
        ensures entered { self.new.is_entered ≡ self.old.is_entered }
    {
        if outcome.is_err() && has_appeared(&files.last) {
            return Err(Failure::of(self.main.path(), Conflict::Appeared));
        }
        let done = of_failed(self.fresh.path(), &files.last, outcome);
        self.changed(done)?;
        self.fresh.note_renamed(&mut self.main);
        let looked = self.note_main(&files.calls);
        self.changed(looked)
    }

    pub(crate) fn end_sync_folder<C: Calls>(
        &mut self,
        files: &OpenFiles<C>,
        outcome: Result<(), Failed>,
    ) -> Result<(), Failure<'a>>
        ensures end { IsEndOf outcome result }
        ensures entered { self.new.is_entered ≡ self.old.is_entered }
        ensures mark { self.new.mark ≡ self.old.mark }
    {
        let done = of_failed(self.path, &files.last, outcome);
        self.changed(done)
    }

    // ---- what was done to the file of a role

    fn note_length(&mut self, role: Role, length: Option<u64>)
        ensures entered { self.new.is_entered ≡ self.old.is_entered }
        ensures mark { self.new.mark ≡ self.old.mark }
    {
        match role {
            Role::Main => self.main.note_length(length),
            Role::Journal => self.journal.note_length(length),
            Role::Fresh => self.fresh.note_length(length),
        }
    }

    fn note_written(&mut self, role: Role, at: u64, count: usize)
        ensures entered { self.new.is_entered ≡ self.old.is_entered }
        ensures mark { self.new.mark ≡ self.old.mark }
    {
        match role {
            Role::Main => self.main.note_written(at, count),
            Role::Journal => self.journal.note_written(at, count),
            Role::Fresh => self.fresh.note_written(at, count),
        }
    }

    fn note_cut(&mut self, role: Role, len: u64)
        ensures entered { self.new.is_entered ≡ self.old.is_entered }
        ensures mark { self.new.mark ≡ self.old.mark }
    {
        match role {
            Role::Main => self.main.note_cut(len),
            Role::Journal => self.journal.note_cut(len),
            Role::Fresh => self.fresh.note_cut(len),
        }
    }

    fn note_created<C: Calls>(&mut self, calls: &C, role: Role) -> Result<(), Failure<'a>>
        ensures entered { self.new.is_entered ≡ self.old.is_entered }
        ensures mark { self.new.mark ≡ self.old.mark }
    {
        match role {
            Role::Main => self.main.note_created(calls),
            Role::Journal => self.journal.note_created(calls),
            Role::Fresh => self.fresh.note_created(calls),
        }
    }

    fn note_removed(&mut self, role: Role)
        ensures entered { self.new.is_entered ≡ self.old.is_entered }
        ensures mark { self.new.mark ≡ self.old.mark }
    {
        match role {
            Role::Main => self.main.note_removed(),
            Role::Journal => self.journal.note_removed(),
            Role::Fresh => self.fresh.note_removed(),
        }
    }
}

// Whether the new file could get no second name, since another program has taken it meanwhile.
fn has_appeared(last: &Option<Fault>) -> bool {
    match last {
        Some(fault) => fault.call == "link" && fault.error.kind() == ErrorKind::AlreadyExists,
        None => false,
    }
}
