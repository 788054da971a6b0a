// The files behind a run: what a stop has left is taken back, and what stands there is looked at. It is no part of the disk that a run is
// proved over.
ghost use Rattle.std.specs.Prelude.{◌≡◌, min, false, true, IsTrue};
ghost use Rattle.edge_files.specs.Pair.{KeepsPair, TakesBack};
ghost use Rattle.edge_files.specs.Parts.{main_bytes};
ghost use Rattle.edge_files.specs.PutBack.{AllTakenBack, MayBeTakenBack, OnlyWithin, places_for};

use crate::folder::Folder;
use crate::host_calls::HostCalls;
use crate::plain_head::{MAGIC, PlainHead};
use edge_model::Role;
use number_fields::u16_at;
use std::path::PathBuf;
use system_calls::{Calls, OpenFiles};

/// The files of a run that is over.
#[derive(Drop)]
pub struct Behind<'a> {
    files: OpenFiles<HostCalls<'a>>,
    pub folder: Folder<'a>,
}

impl<'a> Behind<'a> {
    pub(crate) fn new(calls: HostCalls<'a>, folder: Folder<'a>) -> Behind<'a> {
        Behind {
            files: OpenFiles::new(calls),
            folder,
        }
    }

    /// The path that the open Main has now, where it can be known.
    pub fn whereabouts(&self) -> Option<PathBuf> {
        self.files.calls.whereabouts(Role::Main)
    }

    /// The path of the new file, where something has it, and whether that may be removed: it is an unfinished one, or a second name of
    /// Main.
    pub fn left_fresh(&mut self) -> Option<(&'a str, bool)> {
        let files = &mut self.files;
        self.folder.left_fresh(files)
    }

    /// What Main says of its pages, where it begins as SQLite's files do that are not encrypted.
    pub fn plain_head(&mut self) -> Option<PlainHead> {
        let files = &mut self.files;
        self.folder.plain_head(files)
    }
}

impl<'a> Folder<'a> {
    // Takes back what a stop has left: the last writes, where others were met; the journal of a file that has no name any more; and the
    // new file, where it has not taken Main's place.
    pub(crate) fn take_back<C: Calls>(&mut self, calls: &mut C)
        ensures kept { self.old.is_met ≡ false → IsTrue C.tells → KeepsPair C.system C.images C.moment C.since calls.old calls.new }
        ensures others_new { self.old.is_met ≡ false → self.old.fresh.is_made ≡ false → calls.new ≡ calls.old }
        ensures taken { IsTrue C.tells → TakesBack (C.system calls.old) (C.system calls.new) }
        ensures back { self.old.is_met ≡ true → IsTrue C.tells → AllTakenBack MayBeTakenBack self.old.undo (min self.old.undo.count (places_for self.old.undo.size)) (main_bytes (C.system calls.old)) (main_bytes (C.system calls.new)) }
        ensures within { IsTrue C.tells → OnlyWithin self.old.undo.writes.items (main_bytes (C.system calls.old)) (main_bytes (C.system calls.new)) }
    {
        self.put_back(calls);
        self.drop_fresh(calls);
    }

    // Where others were met, the last writes are put back.
    fn put_back<C: Calls>(&mut self, calls: &mut C)
        ensures unmet { self.old.is_met ≡ false → (calls.new ≡ calls.old) × (self.new ≡ self.old) }
        ensures taken { IsTrue C.tells → TakesBack (C.system calls.old) (C.system calls.new) }
        ensures back { self.old.is_met ≡ true → IsTrue C.tells → AllTakenBack MayBeTakenBack self.old.undo (min self.old.undo.count (places_for self.old.undo.size)) (main_bytes (C.system calls.old)) (main_bytes (C.system calls.new)) }
        ensures within { IsTrue C.tells → OnlyWithin self.old.undo.writes.items (main_bytes (C.system calls.old)) (main_bytes (C.system calls.new)) }
    {
        if !self.is_met {
            return;
        }
        let _ = self.undo.put_back(calls);
        self.undo.clear();
        self.drop_orphan(calls);
    }

    // The journal of a file that has no name any more would be played into what has its name now.
    fn drop_orphan<C: Calls>(&mut self, calls: &mut C)
        ensures others { self.old.journal.is_made ≡ false → calls.new ≡ calls.old }
        ensures taken { IsTrue C.tells → TakesBack (C.system calls.old) (C.system calls.new) }
        ensures bytes { IsTrue C.tells → main_bytes (C.system calls.new) ≡ main_bytes (C.system calls.old) }
    {
        if !self.journal.is_made() || !self.journal.is_named(calls).unwrap_or(false) {
            return;
        }
        if !self.main.is_nameless(calls) || calls.remove(Role::Journal).is_err() {
            return;
        }
        self.journal.note_removed();
        self.deeds.has_dropped_orphan = true;
        let _ = calls.sync_folder();
    }

    // The new file goes, where this run has made it and it still has its name.
    fn drop_fresh<C: Calls>(&mut self, calls: &mut C)
        ensures kept { IsTrue C.tells → KeepsPair C.system C.images C.moment C.since calls.old calls.new }
        ensures others_new { self.old.fresh.is_made ≡ false → calls.new ≡ calls.old }
        ensures taken { IsTrue C.tells → TakesBack (C.system calls.old) (C.system calls.new) }
        ensures bytes { IsTrue C.tells → main_bytes (C.system calls.new) ≡ main_bytes (C.system calls.old) }
    {
        if !self.fresh.is_made() {
            return;
        }
        if !self.fresh.is_named(calls).unwrap_or(false) {
            return;
        }
        if calls.remove(Role::Fresh).is_ok() {
            self.fresh.note_removed();
        }
    }

    fn left_fresh<C: Calls>(&mut self, files: &mut OpenFiles<C>) -> Option<(&'a str, bool)> {
        match self.fresh.found(&files.calls) {
            Ok(Some(_)) => Some((self.fresh.path(), self.is_fresh_useless(files))),
            _ => None,
        }
    }

    fn is_fresh_useless<C: Calls>(&mut self, files: &mut OpenFiles<C>) -> bool {
        if self.fresh.is_twin(&files.calls).unwrap_or(false) {
            return true;
        }
        self.fresh.attend(files).is_ok() && self.fresh.is_unfinished(&files.calls).unwrap_or(false)
    }

    fn plain_head<C: Calls>(&mut self, files: &mut OpenFiles<C>) -> Option<PlainHead> {
        let mut bytes = [0u8; 21];
        self.main.attend(files).ok()?;
        self.main.read_at(&files.calls, 0, &mut bytes).ok()?;
        if !bytes.starts_with(&MAGIC) {
            return None;
        }
        Some(PlainHead {
            field: u32::from(u16_at(&bytes, 16)),
            reserve: bytes[20],
        })
    }
}
