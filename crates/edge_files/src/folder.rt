// The files of a folder, and what keeps this run and others apart.
//
// 1. Main is one open file from the first look to the last write, and locked against other runs of this program.
// 2. Where the launcher has taken SQLite's lock on Main, and the system shows it on the file that is open, others who go by that lock
//    are kept out: of an exclusive lock no look at the table of locks is needed, of a shared one none but before a change.
// 3. Before Main, the journal or a name is changed: the names still lead to the files that are open, no other process holds
//    one of SQLite's locks on Main, and Main is as this run left it. So it is after each read of Main.
// 4. While a journal stands, each single write to Main looks first that the journal is as it was left, and afterwards that it still
//    is. The table of locks is read then at least every fifth of a second, since the system takes some 20 milliseconds for it.
// 5. Where another program came in between, nothing more is called, and behind the run the bytes from before the last writes are put
//    back where the written ones still stand: the other program may have laid its own over their place earlier.
// 6. After a change that failed nothing more is called: it may have been done.
// 7. While a log is laid, the log that is open is the one that was read before: before each write to Main and before the log is removed its name, its
// length, its time and its header are looked at.
ghost use Rattle.std.specs.Prelude.{◌≡◌};
ghost use Rattle.edge_files.specs.Known.{of_role};
ghost use Rattle.edge_model.specs.declared.role.Role.TheVariants.{Fresh, Journal, Main};

use crate::beside::SeenLog;
use crate::deeds::Deeds;
use crate::failure::{Failure, failed};
use crate::held_lock::{Held, HeldLock};
use crate::lock_table::LockTable;
use crate::paths::Paths;
use crate::progress::Progress;
use crate::purpose::Purpose;
use crate::role_file::RoleFile;
use crate::undo::Undo;
use edge_model::Role;
use std::alloc::AllocError;
use std::time::Instant;
use std::{io, process};
use system_calls::Mark;

/// What is known of FILE, FILE-journal or FILE-wal, and FILE-migrated, and of who else is at them.
#[derive(Drop)]
pub struct Folder<'a> {
    pub(crate) rt: &'a HostRuntime,
    pub(crate) progress: &'a Progress<'a>,
    pub(crate) path: &'a str,
    rollback: &'a str,
    pub(crate) log: &'a str,
    /// The path of the log's index.
    pub(crate) index: &'a str,
    pub(crate) purpose: Purpose,
    /// Whether it was looked for what stands in the way of this purpose.
    pub(crate) is_entered: bool,
    /// The log as it was at the first look.
    pub(crate) seen: Option<SeenLog>,
    pub(crate) main: RoleFile<'a>,
    /// The file that has the role Journal: the rollback journal or the log.
    pub(crate) journal: RoleFile<'a>,
    pub(crate) fresh: RoleFile<'a>,
    pub(crate) table: LockTable,
    pub(crate) lock: HeldLock,
    /// What is held of SQLite's lock on Main.
    pub(crate) held: Held,
    /// Whether Main was opened without it.
    pub(crate) is_unguarded: bool,
    /// Main as it was after the last change that this run made, or at the first look.
    pub(crate) mark: Option<Mark>,
    /// Whether nothing of this run is under way to Main, so that its mark can't change by itself.
    pub(crate) is_at_rest: bool,
    /// The first byte of the journal, as it was last read or written.
    pub(crate) gate: Option<u8>,
    /// Whether the journal was read since it was last written: what goes to Main is then laid back from it.
    pub(crate) is_laying: bool,
    /// The last writes to Main since the table of locks had nobody.
    pub(crate) undo: Undo,
    /// Whether others were met before or after a change.
    pub(crate) is_met: bool,
    /// The change that failed.
    pub(crate) stopped: Option<Failure<'a>>,
    /// When the next look at the table is due; none where it is due at once.
    pub(crate) due: Option<Instant>,
    pub deeds: Deeds,
    /// Whether the new file is to hold in the clear what Main holds encrypted, and this was not said yet.
    pub is_decrypting: bool,
    ghost roles: { (main.role ≡ Main) × (journal.role ≡ Journal) × (fresh.role ≡ Fresh) },
}

impl<'a> Folder<'a> {
    /// The files with these paths. It touches none of them, and takes all memory that is needed later.
    pub fn new(
        rt: &'a HostRuntime,
        paths: &'a Paths,
        progress: &'a Progress<'a>,
        purpose: Purpose,
    ) -> Result<Folder<'a>, AllocError> {
        let is_only_read = purpose == Purpose::ReadLog;
        let main = paths.main.as_str();
        let barred = match paths.unresolved {
            Some(error) => Some(failed(main, "resolve", error)),
            None => None,
        };
        let rollback = paths.journal.as_str();
        let log = paths.log.as_str();
        Ok(Folder {
            rt,
            progress,
            path: paths.folder.as_str(),
            rollback,
            log,
            index: paths.index.as_str(),
            purpose,
            is_entered: false,
            seen: None,
            main: RoleFile::new(Role::Main, main, barred, true, is_only_read),
            journal: journal_of(purpose, rollback, log, barred),
            fresh: RoleFile::new(Role::Fresh, paths.fresh.as_str(), barred, true, false),
            table: LockTable::new(process::id(rt.process())),
            lock: HeldLock::new(rt)?,
            held: Held::Nothing,
            is_unguarded: false,
            mark: None,
            is_at_rest: false,
            gate: None,
            is_laying: false,
            undo: Undo::new(rt.alloc())?,
            is_met: false,
            stopped: None,
            due: None,
            deeds: Deeds::none(),
            is_decrypting: false,
        })
    }

    /// From now on the run is for this purpose. What is open of Main and Fresh stays so, and what was seen of the log holds on.
    pub(crate) fn turn_to(&mut self, purpose: Purpose) {
        if purpose.is_on_log() != self.purpose.is_on_log() {
            let barred = self.journal.barred();
            self.journal = journal_of(purpose, self.rollback, self.log, barred);
        }
        self.purpose = purpose;
        self.is_entered = false;
        self.gate = None;
        self.is_laying = false;
    }

    /// The path of the file that has the role Journal.
    pub(crate) fn path_of_journal(&self) -> &'a str {
        self.journal.path()
    }

    pub(crate) fn file(&self, role: Role) -> &RoleFile<'a>
        ensures { result.now ≡ of_role role self.now.main self.now.journal self.now.fresh }
    {
        match role {
            Role::Main => &self.main,
            Role::Journal => &self.journal,
            Role::Fresh => &self.fresh,
        }
    }

    /// Whether Main was there, and SQLite's lock on it was not held, so that others who go by it could only be looked for.
    pub fn is_unguarded(&self) -> bool {
        self.is_unguarded
    }

    /// The path of Main.
    pub fn main_path(&self) -> &'a str {
        self.main.path()
    }

    /// The path of the rollback journal.
    pub fn journal_path(&self) -> &'a str {
        self.rollback
    }

    /// The path of the write-ahead log.
    pub fn log_path(&self) -> &'a str {
        self.log
    }

    /// Whether the file was read with a log that has a byte, which stands beside it still.
    pub fn has_seen_log(&self) -> bool {
        match self.seen {
            Some(seen) => seen.has_byte(),
            None => false,
        }
    }

    /// Whether a journal that this run made was not removed by it.
    pub fn has_own_journal(&self) -> bool {
        self.journal.is_made()
    }

    /// Whether Main was not there when it was last asked for.
    pub fn lacks_main(&self) -> bool {
        self.main.is_absent()
    }

    /// Whether a new file that this run made has not taken Main's place and could not be removed.
    pub fn has_own_fresh(&self) -> bool {
        self.fresh.is_made()
    }

    /// Whether the journal of this run plays nothing any more.
    pub fn is_journal_closed(&self) -> bool {
        self.gate == Some(0)
    }

    /// Why Main could not be locked against other runs, where its file system knows no locks.
    pub fn unlocked(&self) -> Option<io::Error> {
        self.main.unlocked()
    }

    /// Whether other programs could not be looked for.
    pub fn is_blind(&self) -> bool {
        self.table.is_blind()
    }
}

// The file that has the role Journal in a run of this purpose. A log is never written to.
fn journal_of<'a>(
    purpose: Purpose,
    rollback: &'a str,
    log: &'a str,
    barred: Option<Failure<'a>>,
) -> RoleFile<'a>
    ensures role { result.role ≡ Journal }
{
    if purpose.is_on_log() {
        RoleFile::new(Role::Journal, log, barred, false, true)
    } else {
        RoleFile::new(Role::Journal, rollback, barred, false, false)
    }
}
