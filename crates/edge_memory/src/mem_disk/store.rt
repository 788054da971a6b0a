// A disk in memory without its faults: the files at the start, the calls that were done, and what is read now.
ghost use Rattle.std.specs.Prelude.{◌≡◌, ◌≤◌, ◌++◌, ◌∷◌, [], length, take, Some, None, IsErr, IsErrOf, IfOk, OnOk, OnErr};
ghost use Rattle.std.specs.Option.{option_map};
ghost use Rattle.edge_model.specs.Files.{Files, bytes_of, no_files, read_from};
ghost use Rattle.edge_memory.specs.Log.{items_of, showing, shown_at, change_bytes, files_of, reads_after, newest_first};

use super::contents::{Call, Contents};
use super::slots::{cut_role, file_in, rename_in, set_role, write_role};
use crate::gate::Refusal;
use edge_model::{OutOfMemory, Role};
use std::alloc::Global;

/// A disk in memory that no call fails but for want of memory or of a file.
#[derive(Drop)]
pub struct Store {
    pub alloc: Global,
    pub start: Contents,
    pub current: Contents,
    pub calls: Vec<Call>,
    ghost main_is: { bytes_of (reads_after (files_of start) (newest_first calls.items)).main ≡ items_of current.main },
    ghost journal_is: { bytes_of (reads_after (files_of start) (newest_first calls.items)).journal ≡ items_of current.journal },
    ghost fresh_is: { bytes_of (reads_after (files_of start) (newest_first calls.items)).fresh ≡ items_of current.fresh },
}

fn note(calls: &mut Vec<Call>, call: Call) -> Result<(), Refusal>
    ensures ok { OnOk result (calls.new.items ≡ calls.old.items ++ call ∷ []) }
    ensures err { OnErr result (calls.new.items ≡ calls.old.items) }
    ensures refusal { IsErrOf result Refusal.Absent → ⊥ }
{
    match calls.push(call) {
        Ok(()) => Ok(()),
        Err(_) => Err(Refusal::Memory),
    }
}

fn copy_from(file: &[u8], at: u64, buf: &mut [u8]) -> usize
    ensures count { result ≤ length buf.old }
    ensures told { take result buf.new ≡ read_from at (length buf.old) file.now }
{
    let at = at as usize;
    if at >= file.len() {
        return 0;
    }
    let rest = &file[at..];
    let count = rest.len().min(buf.len());
    buf[..count].copy_from_slice(&rest[..count]);
    count
}

fn copy(alloc: Global, bytes: Option<&[u8]>) -> Result<Option<Vec<u8>>, OutOfMemory>
    ensures { IfOk result (λ copy. items_of copy ≡ option_map (λ s. s.now) bytes.entry) }
{
    match bytes {
        None => Ok(None),
        Some(bytes) => match bytes.to_vec(alloc) {
            Ok(copy) => Ok(Some(copy)),
            Err(_) => Err(OutOfMemory),
        },
    }
}

fn contents(
    alloc: Global,
    main: Option<&[u8]>,
    journal: Option<&[u8]>,
    fresh: Option<&[u8]>,
) -> Result<Contents, OutOfMemory>
    ensures main { IfOk result (λ contents. items_of contents.main ≡ option_map (λ s. s.now) main.entry) }
    ensures journal { IfOk result (λ contents. items_of contents.journal ≡ option_map (λ s. s.now) journal.entry) }
    ensures fresh { IfOk result (λ contents. items_of contents.fresh ≡ option_map (λ s. s.now) fresh.entry) }
{
    let main = copy(alloc, main)?;
    let journal = copy(alloc, journal)?;
    let fresh = copy(alloc, fresh)?;
    Ok(Contents {
        main,
        journal,
        fresh,
    })
}

impl Store {
    /// No role has a file.
    pub fn new(alloc: Global) -> Store
        ensures files { files_of result.start ≡ no_files }
        ensures calls { result.calls.items ≡ [] }
    {
        Store {
            alloc,
            start: Contents {
                main: None,
                journal: None,
                fresh: None,
            },
            current: Contents {
                main: None,
                journal: None,
                fresh: None,
            },
            calls: Vec::new(alloc),
        }
    }

    /// These files at the start.
    pub fn with_files(
        alloc: Global,
        main: Option<&[u8]>,
        journal: Option<&[u8]>,
        fresh: Option<&[u8]>,
    ) -> Result<Store, OutOfMemory>
        ensures main { IfOk result (λ store. items_of store.start.main ≡ option_map (λ s. s.now) main.entry) }
        ensures journal { IfOk result (λ store. items_of store.start.journal ≡ option_map (λ s. s.now) journal.entry) }
        ensures fresh { IfOk result (λ store. items_of store.start.fresh ≡ option_map (λ s. s.now) fresh.entry) }
        ensures calls { IfOk result (λ store. store.calls.items ≡ []) }
    {
        let start = contents(alloc, main, journal, fresh)?;
        let current = contents(alloc, main, journal, fresh)?;
        Ok(Store {
            alloc,
            start,
            current,
            calls: Vec::new(alloc),
        })
    }

    /// What the role reads as.
    pub fn file(&self, role: Role) -> Option<&[u8]>
        ensures { option_map (λ s. s.now) result ≡ shown_at (showing self.now.current) role }
    {
        file_in(&self.current, role)
    }

    /// Copies the bytes from an offset on, as many as there are and fit.
    pub fn read_at(&self, role: Role, at: u64, buf: &mut [u8]) -> Result<usize, Refusal>
        ensures count { IfOk result (λ count. count ≤ length buf.old) }
        ensures fed { IsErrOf result Refusal.Memory → ⊥ }
        ensures told { IfOk result (λ count. change_bytes (read_from at (length buf.old)) (shown_at (showing self.now.current) role) ≡ Some (take count buf.new)) }
        ensures absent { shown_at (showing self.now.current) role ≡ None → IsErr result }
        ensures refusal { IsErrOf result Refusal.Absent → shown_at (showing self.now.current) role ≡ None }
    {
        match file_in(&self.current, role) {
            Some(file) => Ok(copy_from(file, at, buf)),
            None => Err(Refusal::Absent),
        }
    }

    /// Writes and notes it. A refused write changes nothing, and so do the refusals below.
    pub fn write_at(&mut self, role: Role, at: u64, bytes: &[u8]) -> Result<(), Refusal>
        ensures start { self.new.start ≡ self.old.start }
        ensures ok { OnOk result ((b : _) × (b.items ≡ bytes.now) × (self.new.calls.items ≡ self.old.calls.items ++ Call.Write role at b ∷ [])) }
        ensures err { OnErr result (self.new.calls.items ≡ self.old.calls.items) }
        ensures absent { shown_at (showing self.old.current) role ≡ None → IsErr result }
        ensures refusal { IsErrOf result Refusal.Absent → shown_at (showing self.old.current) role ≡ None }
    {
        let copy = match bytes.to_vec(self.alloc) {
            Ok(copy) => copy,
            Err(_) => return Err(Refusal::Memory),
        };
        note(&mut self.calls, Call::Write(role, at, copy))?;
        let outcome = write_role(&mut self.current, role, at, bytes);
        if outcome.is_err() {
            let _ = self.calls.pop();
        }
        outcome
    }

    /// Cuts and notes it.
    pub fn cut(&mut self, role: Role, len: u64) -> Result<(), Refusal>
        ensures start { self.new.start ≡ self.old.start }
        ensures ok { OnOk result (self.new.calls.items ≡ self.old.calls.items ++ Call.Cut role len ∷ []) }
        ensures err { OnErr result (self.new.calls.items ≡ self.old.calls.items) }
        ensures absent { shown_at (showing self.old.current) role ≡ None → IsErr result }
        ensures refusal { IsErrOf result Refusal.Absent → shown_at (showing self.old.current) role ≡ None }
    {
        if file_in(&self.current, role).is_none() {
            return Err(Refusal::Absent);
        }
        note(&mut self.calls, Call::Cut(role, len))?;
        cut_role(&mut self.current, role, len);
        Ok(())
    }

    /// Notes a sync.
    pub fn sync(&mut self, role: Role) -> Result<(), Refusal>
        ensures start { self.new.start ≡ self.old.start }
        ensures ok { OnOk result (self.new.calls.items ≡ self.old.calls.items ++ Call.Sync role ∷ []) }
        ensures err { OnErr result (self.new.calls.items ≡ self.old.calls.items) }
        ensures absent { shown_at (showing self.old.current) role ≡ None → IsErr result }
        ensures refusal { IsErrOf result Refusal.Absent → shown_at (showing self.old.current) role ≡ None }
    {
        if file_in(&self.current, role).is_none() {
            return Err(Refusal::Absent);
        }
        note(&mut self.calls, Call::Sync(role))
    }

    /// Puts an empty file into the role, and notes it.
    pub fn create(&mut self, role: Role) -> Result<(), Refusal>
        ensures start { self.new.start ≡ self.old.start }
        ensures ok { OnOk result (self.new.calls.items ≡ self.old.calls.items ++ Call.Create role ∷ []) }
        ensures err { OnErr result (self.new.calls.items ≡ self.old.calls.items) }
        ensures refusal { IsErrOf result Refusal.Absent → ⊥ }
    {
        note(&mut self.calls, Call::Create(role))?;
        set_role(&mut self.current, role, Some(Vec::new(self.alloc)));
        Ok(())
    }

    /// Takes the file out of the role, and notes it.
    pub fn remove(&mut self, role: Role) -> Result<(), Refusal>
        ensures start { self.new.start ≡ self.old.start }
        ensures ok { OnOk result (self.new.calls.items ≡ self.old.calls.items ++ Call.Remove role ∷ []) }
        ensures err { OnErr result (self.new.calls.items ≡ self.old.calls.items) }
        ensures absent { shown_at (showing self.old.current) role ≡ None → IsErr result }
        ensures refusal { IsErrOf result Refusal.Absent → shown_at (showing self.old.current) role ≡ None }
    {
        if file_in(&self.current, role).is_none() {
            return Err(Refusal::Absent);
        }
        note(&mut self.calls, Call::Remove(role))?;
        set_role(&mut self.current, role, None);
        Ok(())
    }

    /// Puts Fresh into the place of Main, and notes it.
    pub fn rename_fresh(&mut self) -> Result<(), Refusal>
        ensures start { self.new.start ≡ self.old.start }
        ensures ok { OnOk result (self.new.calls.items ≡ self.old.calls.items ++ Call.Rename ∷ []) }
        ensures err { OnErr result (self.new.calls.items ≡ self.old.calls.items) }
        ensures absent { shown_at (showing self.old.current) Role.Fresh ≡ None → IsErr result }
        ensures refusal { IsErrOf result Refusal.Absent → shown_at (showing self.old.current) Role.Fresh ≡ None }
    {
        if self.current.fresh.is_none() {
            return Err(Refusal::Absent);
        }
        note(&mut self.calls, Call::Rename)?;
        rename_in(&mut self.current);
        Ok(())
    }

    /// Notes a sync of the folder.
    pub fn sync_folder(&mut self) -> Result<(), Refusal>
        ensures start { self.new.start ≡ self.old.start }
        ensures ok { OnOk result (self.new.calls.items ≡ self.old.calls.items ++ Call.SyncFolder ∷ []) }
        ensures err { OnErr result (self.new.calls.items ≡ self.old.calls.items) }
        ensures refusal { IsErrOf result Refusal.Absent → ⊥ }
    {
        note(&mut self.calls, Call::SyncFolder)
    }
}
