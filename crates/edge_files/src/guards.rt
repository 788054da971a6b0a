// Who else is at the files. A look changes nothing.
ghost use Rattle.std.specs.Prelude.{◌≡◌, true, false, None, IfOk, OnOk, IsTrue};
ghost use Rattle.edge_files.specs.Looks.{IsAsLeft, IsGuarded, IsLogAsSeen, IsStillNamed, SameNotes, looks_at, mark_at};
ghost use Rattle.edge_files.specs.Purposes.{is_on_log};
ghost use Rattle.edge_files.specs.declared.purpose.Purpose.TheVariants.{LayLog};

use crate::beside::{SeenLog, has_log, is_hot};
use crate::failure::{Conflict, Failure};
use crate::folder::Folder;
use crate::held_lock::Held;
use crate::lock_table::Sight;
use crate::purpose::Purpose;
use std::time::{Duration, Instant};
use system_calls::Calls;

/// How long a look at the table of locks holds within a change, in milliseconds.
const HOLDS: u64 = 200;

impl<'a> Folder<'a> {
    // The launcher's lock, where it is on the file that is open. `probe` asks for none.
    pub(crate) fn take_lock_up(&mut self) -> Result<(), Failure<'a>>
        ensures notes { SameNotes self.old self.new }
    {
        let Some(identity) = self.main.identity() else {
            return Ok(());
        };
        match self.lock.on(self.rt, identity) {
            Held::Elsewhere => Err(Failure::of(self.main.path(), Conflict::Replaced)),
            Held::Refused if self.purpose != Purpose::Probe => {
                // The table may tell who has it.
                self.look()?;
                let conflict = Conflict::OtherProgram { process: None };
                Err(Failure::of(self.main.path(), conflict))
            }
            Held::Refused => Ok(()),
            held => {
                self.held = held;
                Ok(())
            }
        }
    }

    // A log with a byte stands in the way of what goes by FILE alone. A journal that would be played back comes before the log, and what only reads
    // plays none, nor does what lays a log.
    pub(crate) fn look_beside(&mut self) -> Result<(), Failure<'a>>
        ensures notes { SameNotes self.old self.new }
    {
        match self.purpose {
            Purpose::RecoverBesideLog => Ok(()),
            Purpose::ReadLog | Purpose::LayLog if is_hot(self.rt, self.journal_path())? => {
                Err(Failure::of(self.journal_path(), Conflict::HotJournal))
            }
            Purpose::ReadLog | Purpose::LayLog => Ok(()),
            Purpose::Command | Purpose::Probe => {
                let is_there = has_log(self.rt, self.log)?;
                self.deeds.has_log = is_there;
                if is_there && self.purpose == Purpose::Command {
                    return Err(Failure::of(self.log, Conflict::Log));
                }
                Ok(())
            }
        }
    }

    // Nobody has written to the log since the first look. Of one that is laid its header is looked at too, since it is removed then.
    pub(crate) fn require_log<C: Calls>(&mut self, calls: &C) -> Result<(), Failure<'a>>
        ensures notes { SameNotes self.old self.new }
        ensures named { OnOk result (IsTrue C.tells → is_on_log self.old.purpose ≡ true → IsStillNamed (looks_at C.system C.found calls.now) self.new.journal) }
        ensures log { OnOk result (IsTrue C.tells → self.old.purpose ≡ LayLog → IsLogAsSeen (looks_at C.system C.found calls.now) self.new) }
    {
        if !self.purpose.is_on_log() {
            return Ok(());
        }
        if self.is_log_as_seen(calls)? && self.journal.is_named(calls)? {
            return Ok(());
        }
        Err(Failure::of(self.journal.path(), Conflict::Changed))
    }

    // At the first look the log that is read is kept. One that nobody has read is not laid.
    fn is_log_as_seen<C: Calls>(&mut self, calls: &C) -> Result<bool, Failure<'a>>
        ensures notes { SameNotes self.old self.new }
        ensures log { IfOk result (λ is. IsTrue C.tells → is ≡ true → self.old.purpose ≡ LayLog → IsLogAsSeen (looks_at C.system C.found calls.now) self.new) }
    {
        let is_read = self.purpose == Purpose::ReadLog;
        match self.seen {
            Some(seen) if is_read => seen.is_unwritten(calls, &self.journal),
            Some(seen) => Ok(seen.is_same(&SeenLog::of(calls, &self.journal)?)),
            None if is_read => {
                self.seen = Some(SeenLog::of(calls, &self.journal)?);
                Ok(true)
            }
            None => Ok(false),
        }
    }

    // Before a change: nobody else is at the files, or was since the last write.
    pub(crate) fn guard<C: Calls>(
        &mut self,
        calls: &C,
        is_look_due: bool,
    ) -> Result<(), Failure<'a>>
        ensures notes { SameNotes self.old self.new }
        ensures guarded { OnOk result (IsTrue C.tells → IsGuarded (looks_at C.system C.found calls.now) self.new) }
    {
        let outcome = self.check(calls, is_look_due);
        self.meet(&outcome);
        outcome
    }

    // Where others were met, behind the run the last writes are put back.
    pub(crate) fn meet(&mut self, outcome: &Result<(), Failure<'a>>)
        ensures notes { SameNotes self.old self.new }
    {
        if let Err(failure) = outcome {
            if failure.conflict().is_some() {
                self.is_met = true;
            }
        }
    }

    // What is quick to see is asked after the look at the table: a program that came and went before it has taken the journal away,
    // and only moments pass then until the change.
    fn check<C: Calls>(&mut self, calls: &C, is_look_due: bool) -> Result<(), Failure<'a>>
        ensures notes { SameNotes self.old self.new }
        ensures guarded { OnOk result (IsTrue C.tells → IsGuarded (looks_at C.system C.found calls.now) self.new) }
    {
        let is_due = is_look_due || self.is_look_due();
        self.look_where_due(is_due)?;
        self.require_journal(calls)?;
        self.require_unwritten(calls)?;
        self.require_main(calls)?;
        self.undo.clear_where(is_due);
        Ok(())
    }

    fn look_where_due(&mut self, is_due: bool) -> Result<(), Failure<'a>>
        ensures notes { SameNotes self.old self.new }
    {
        if is_due { self.look() } else { Ok(()) }
    }

    // Nobody but this run has written to Main. Where somebody has, the table may tell who it was.
    fn require_unwritten<C: Calls>(&mut self, calls: &C) -> Result<(), Failure<'a>>
        ensures notes { SameNotes self.old self.new }
        ensures unwritten { OnOk result (IsTrue C.tells → mark_at (looks_at C.system C.found calls.now) self.new.main ≡ self.new.mark) }
    {
        match self.require_mark(calls) {
            Ok(()) => Ok(()),
            Err(failure) => {
                self.look()?;
                Err(failure)
            }
        }
    }

    // Nobody but this run has written to Main.
    pub(crate) fn require_mark<C: Calls>(&self, calls: &C) -> Result<(), Failure<'a>>
        ensures unwritten { OnOk result (IsTrue C.tells → mark_at (looks_at C.system C.found calls.now) self.now.main ≡ self.now.mark) }
    {
        if self.main.mark(calls)? == self.mark {
            return Ok(());
        }
        Err(Failure::of(self.main.path(), Conflict::Changed))
    }

    fn is_look_due(&self) -> bool {
        match (self.due, Instant::now(self.rt)) {
            (Some(due), Ok(now)) => now >= due,
            _ => true,
        }
    }

    pub(crate) fn require_main<C: Calls>(&self, calls: &C) -> Result<(), Failure<'a>>
        ensures named { OnOk result (IsTrue C.tells → IsStillNamed (looks_at C.system C.found calls.now) self.now.main) }
    {
        if self.main.is_named(calls)? {
            return Ok(());
        }
        Err(Failure::of(self.main.path(), Conflict::Replaced))
    }

    // The journal that is open is still there, and as it was left: a program that has played it back removes it, or empties
    // it, or writes zeros over its head.
    pub(crate) fn require_journal<C: Calls>(&mut self, calls: &C) -> Result<(), Failure<'a>>
        ensures notes { SameNotes self.old self.new }
        ensures named { OnOk result (IsTrue C.tells → IsStillNamed (looks_at C.system C.found calls.now) self.new.journal) }
        ensures left { OnOk result (IsTrue C.tells → is_on_log self.old.purpose ≡ false → IsAsLeft (looks_at C.system C.found calls.now) self.new.journal self.new.gate) }
        ensures log { OnOk result (IsTrue C.tells → self.old.purpose ≡ LayLog → IsLogAsSeen (looks_at C.system C.found calls.now) self.new) }
    {
        if self.purpose.is_on_log() {
            return self.require_log(calls);
        }
        if self.is_journal_left(calls)? {
            return Ok(());
        }
        self.deeds.is_played_back = self.main.mark(calls)? != self.mark;
        Err(Failure::of(self.journal.path(), Conflict::JournalTaken))
    }

    fn is_journal_left<C: Calls>(&self, calls: &C) -> Result<bool, Failure<'a>>
        ensures named { IfOk result (λ is. IsTrue C.tells → is ≡ true → IsStillNamed (looks_at C.system C.found calls.now) self.now.journal) }
        ensures left { IfOk result (λ is. IsTrue C.tells → is ≡ true → IsAsLeft (looks_at C.system C.found calls.now) self.now.journal self.now.gate) }
    {
        let (Some(gate), true) = (self.gate, self.journal.is_open()) else {
            return self.journal.is_named(calls);
        };
        if !self.journal.is_left(calls)? {
            return Ok(false);
        }
        let mut first = [0u8];
        let count = self.journal.read_at(calls, 0, &mut first)?;
        Ok(count == 1 && first[0] == gate)
    }

    // A journal that another program has left meanwhile would be played into the new file.
    pub(crate) fn require_no_journal<C: Calls>(&self, calls: &C) -> Result<(), Failure<'a>>
        ensures none { OnOk result (IsTrue C.tells → (looks_at C.system C.found calls.now).at_name self.now.journal.role ≡ None) }
    {
        match self.journal.found(calls)? {
            Some(_) => Err(Failure::of(self.journal.path(), Conflict::Appeared)),
            None => Ok(()),
        }
    }

    // Whether another process holds one of SQLite's locks on Main.
    pub(crate) fn look(&mut self) -> Result<(), Failure<'a>>
        ensures notes { SameNotes self.old self.new }
    {
        if self.held == Held::Exclusive {
            return Ok(());
        }
        let Some(identity) = self.main.identity() else {
            return Ok(());
        };
        match self.table.look(self.rt, identity.place()) {
            Sight::Free => {
                self.due = match Instant::now(self.rt) {
                    Ok(now) => now.checked_add(Duration::from_millis(HOLDS)),
                    Err(_) => None,
                };
                Ok(())
            }
            Sight::Held { process } => {
                self.deeds.other = Some(process);
                if self.purpose == Purpose::Probe {
                    Ok(())
                } else {
                    let conflict = Conflict::OtherProgram { process };
                    Err(Failure::of(self.main.path(), conflict))
                }
            }
        }
    }

    // From now on only others can change Main.
    pub(crate) fn rest<C: Calls>(&mut self, calls: &C) -> Result<(), Failure<'a>>
        ensures main { self.new.main ≡ self.old.main }
        ensures journal { self.new.journal ≡ self.old.journal }
        ensures gate { self.new.gate ≡ self.old.gate }
        ensures entered { self.new.is_entered ≡ self.old.is_entered }
        ensures noted { OnOk result (IsTrue C.tells → self.new.mark ≡ mark_at (looks_at C.system C.found calls.now) self.new.main) }
    {
        self.note_main(calls)?;
        self.is_at_rest = true;
        Ok(())
    }

    pub(crate) fn note_main<C: Calls>(&mut self, calls: &C) -> Result<(), Failure<'a>>
        ensures main { self.new.main ≡ self.old.main }
        ensures journal { self.new.journal ≡ self.old.journal }
        ensures gate { self.new.gate ≡ self.old.gate }
        ensures entered { self.new.is_entered ≡ self.old.is_entered }
        ensures noted { OnOk result (IsTrue C.tells → self.new.mark ≡ mark_at (looks_at C.system C.found calls.now) self.new.main) }
    {
        self.mark = self.main.mark(calls)?;
        Ok(())
    }
}
