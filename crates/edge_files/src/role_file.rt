// One file of the folder.
ghost use Rattle.std.specs.Prelude.{◌≡◌, ◌≤◌, ◌<◌, ◌⊎◌, ◌+◌, min, max, length, take, true, None, Some, IfOk, IfSome, OnOk, OnErr, IsTrue, is_some, unwrap_or};
ghost use Rattle.std.specs.List.{list_all};
ghost use Rattle.std.specs.Option.{option_map};
ghost use Rattle.edge_files.specs.Around.{OnlyLooked};
ghost use Rattle.edge_files.specs.Known.{IsWhole, end_of};
ghost use Rattle.edge_files.specs.Looks.{IsStillNamed, is_zero, looks_at, mark_at};
ghost use Rattle.edge_model.specs.Files.{read_from};

use crate::failure::{Conflict, Failure, failed, not_regular, of_file};
use edge_model::Role;
use std::io::{Error, ErrorKind};
use system_calls::{Calls, Found, Identity, Mark, OpenFiles, read_full};

/// The length of the shortest page of a database that this program makes, in bytes: it is that of the profile `plain:512`.
pub const LEAST_PAGE: usize = 512;

/// The file of one role: its path, and what is known of what is open. It is opened once, so that what is read and what is written is
/// one file, whatever becomes of its name.
#[derive(Drop)]
pub struct RoleFile<'a> {
    role: Role,
    path: &'a str,
    /// Why the path could not be found out. Every call fails with it.
    barred: Option<Failure<'a>>,
    /// Whether another run of this program is kept from the file.
    is_locked: bool,
    /// Whether it is opened for reading alone, so that no write can reach it.
    is_only_read: bool,
    /// Which file is open.
    identity: Option<Identity>,
    /// Why the open file can't be written, where it can only be read.
    read_only: Option<Error>,
    /// Why the open file could not be locked, where its file system knows no locks.
    unlocked: Option<Error>,
    /// Whether the open file was made by this run.
    is_made: bool,
    /// The length that was last answered or made, in bytes; none where there was no file.
    known: Option<u64>,
    /// A file that this run has locked already, so that it is not kept from it under a second name.
    twin: Option<Identity>,
}

impl<'a> RoleFile<'a> {
    pub fn new(
        role: Role,
        path: &'a str,
        barred: Option<Failure<'a>>,
        is_locked: bool,
        is_only_read: bool,
    ) -> RoleFile<'a>
        ensures role { result.role ≡ role }
    {
        RoleFile {
            role,
            path,
            barred,
            is_locked,
            is_only_read,
            identity: None,
            read_only: None,
            unlocked: None,
            is_made: false,
            known: None,
            twin: None,
        }
    }

    pub fn path(&self) -> &'a str {
        self.path
    }

    /// Why the path could not be found out.
    pub fn barred(&self) -> Option<Failure<'a>> {
        self.barred
    }

    /// Whether the last answer of `measure` was that nothing has the path.
    pub fn is_absent(&self) -> bool {
        self.known.is_none()
    }

    /// Whether it is open.
    pub fn is_open(&self) -> bool
        ensures { result ≡ is_some self.now.identity }
    {
        self.identity.is_some()
    }

    /// Whether the open file was made by this run.
    pub fn is_made(&self) -> bool
        ensures { result ≡ self.now.is_made }
    {
        self.is_made
    }

    /// Which file is open.
    pub fn identity(&self) -> Option<Identity> {
        self.identity
    }

    /// This run has the other file locked, and the path may be a second name of it.
    pub fn set_twin(&mut self, other: Option<Identity>)
        ensures role { self.new.role ≡ self.old.role }
        ensures known { self.new.known ≡ self.old.known }
    {
        self.twin = other;
    }

    /// Why the open file could not be locked, where its file system knows no locks.
    pub fn unlocked(&self) -> Option<Error> {
        self.unlocked
    }

    /// The length that was last answered or made, in bytes; none where there was no file.
    pub fn known(&self) -> Option<u64>
        ensures { result ≡ self.now.known }
    {
        self.known
    }

    pub fn unbarred(&self) -> Result<(), Failure<'a>> {
        match self.barred {
            Some(failure) => Err(failure),
            None => Ok(()),
        }
    }

    // ---- looks

    /// What has the path, none where nothing has it. What is no regular file is an error. It is looked at before it is
    /// opened, since to open a pipe may wait for ever.
    pub fn found<C: Calls>(&self, calls: &C) -> Result<Option<Found>, Failure<'a>>
        ensures regular { IfOk result (λ found. IfSome found (λ what. what.is_regular ≡ true)) }
        ensures told { IfOk result (λ found. IsTrue C.tells → found ≡ (looks_at C.system C.found calls.now).at_name self.now.role) }
    {
        self.unbarred()?;
        match of_file(self.path, calls.look(self.role))? {
            Some(found) if found.is_regular => Ok(Some(found)),
            Some(_) => Err(not_regular(self.path)),
            None => Ok(None),
        }
    }

    /// Whether the path leads to the file that it may be a second name of.
    pub fn is_twin<C: Calls>(&self, calls: &C) -> Result<bool, Failure<'a>> {
        match (self.found(calls)?, self.twin) {
            (Some(found), Some(twin)) => Ok(found.identity == twin),
            _ => Ok(false),
        }
    }

    /// Whether the path still leads to the open file. Where nothing is open it need not.
    pub fn is_named<C: Calls>(&self, calls: &C) -> Result<bool, Failure<'a>>
        ensures named { IfOk result (λ is. IsTrue C.tells → is ≡ true → IsStillNamed (looks_at C.system C.found calls.now) self.now) }
    {
        let Some(identity) = self.identity else {
            return Ok(true);
        };
        match self.found(calls)? {
            Some(found) => Ok(found.identity == identity),
            None => Ok(false),
        }
    }

    /// Whether the path still leads to the open file, and that has the length that is known. One call tells both.
    pub fn is_left<C: Calls>(&self, calls: &C) -> Result<bool, Failure<'a>>
        ensures named { IfOk result (λ is. IsTrue C.tells → is ≡ true → IsStillNamed (looks_at C.system C.found calls.now) self.now) }
        ensures known { IfOk result (λ is. IsTrue C.tells → is ≡ true → option_map (λ what. what.mark.length) ((looks_at C.system C.found calls.now).at_name self.now.role) ≡ self.now.known) }
    {
        match self.found(calls)? {
            Some(found) => {
                Ok(Some(found.identity) == self.identity && Some(found.length()) == self.known)
            }
            None => Ok(false),
        }
    }

    /// Whether the open file has no name any more.
    pub fn is_nameless<C: Calls>(&self, calls: &C) -> bool {
        if !self.is_open() {
            return false;
        }
        match calls.look_open(self.role) {
            Ok(found) => found.names == 0,
            Err(_) => false,
        }
    }

    /// When the open file was last written, and its length; none where nothing is open.
    pub fn mark<C: Calls>(&self, calls: &C) -> Result<Option<Mark>, Failure<'a>>
        ensures told { IfOk result (λ mark. IsTrue C.tells → mark ≡ mark_at (looks_at C.system C.found calls.now) self.now) }
    {
        if !self.is_open() {
            return Ok(None);
        }
        let found = of_file(self.path, calls.look_open(self.role))?;
        Ok(Some(found.mark))
    }

    /// Reads of the open file until the buffer is full or the file ends, which may not be before the length that is known.
    pub fn read_at<C: Calls>(
        &self,
        calls: &C,
        at: u64,
        buf: &mut [u8],
    ) -> Result<usize, Failure<'a>>
        ensures count { IfOk result (λ count. count ≤ length buf.old) }
        ensures told { IfOk result (λ count. IsTrue C.tells → take count buf.new ≡ read_from at (length buf.old) ((looks_at C.system C.found calls.now).bytes self.now.role)) }
        ensures whole { IfOk result (λ count. IsWhole self.now.known at (length buf.old) count) }
    {
        let size = buf.len();
        let count = of_file(self.path, read_full(calls, self.role, at, buf))?;
        self.require_whole(at, size, count)?;
        Ok(count)
    }

    /// So many bytes were read where so many were asked for: fewer only where the length that is known ends.
    pub fn require_whole(&self, at: u64, asked: usize, count: usize) -> Result<(), Failure<'a>>
        ensures whole { OnOk result (IsWhole self.now.known at asked count) }
        ensures cut { OnErr result (at + count < unwrap_or self.now.known 0) }
    {
        let end = at.saturating_add(count as u64);
        if count != asked && end < self.known.unwrap_or(0) {
            return Err(cut_short(self.path));
        }
        Ok(())
    }

    /// Whether the open file is empty or its first page is zeros: what a new file is until it is done, since its first page is
    /// written last.
    pub fn is_unfinished<C: Calls>(&self, calls: &C) -> Result<bool, Failure<'a>>
        ensures zeros { IfOk result (λ is. IsTrue C.tells → is ≡ list_all is_zero (take 512 ((looks_at C.system C.found calls.now).bytes self.now.role))) }
    {
        let mut page = [0u8; LEAST_PAGE];
        let count = self.read_at(calls, 0, &mut page)?;
        Ok(are_zeros(&page[..count]))
    }

    // ---- the file is opened

    /// Opens the file where it is not open yet.
    pub fn attend<C: Calls>(&mut self, files: &mut OpenFiles<C>) -> Result<(), Failure<'a>>
        ensures open { OnOk result (IsTrue (is_some self.new.identity)) }
        ensures which { self.old.identity ≡ None → OnOk result (IsTrue C.tells → self.new.identity ≡ option_map (λ what. what.identity) ((looks_at C.system C.found files.new.calls).at_place self.new.role)) }
        ensures again { IsTrue (is_some self.old.identity) → (files.new ≡ files.old) × (self.new ≡ self.old) }
        ensures role { self.new.role ≡ self.old.role }
        ensures known { self.new.known ≡ self.old.known }
        ensures looked { OnlyLooked C.tells C.system C.images C.moment C.since C.next files.old.calls files.new.calls }
    {
        if self.is_open() {
            return Ok(());
        }
        self.found(&files.calls)?;
        let read_only = of_file(self.path, files.open(self.role, self.is_only_read))?;
        self.keep(&files.calls)?;
        self.read_only = read_only;
        Ok(())
    }

    /// Opens it so that a later write doesn't fail for want of a permission.
    pub fn attend_to_write<C: Calls>(&mut self, files: &mut OpenFiles<C>) -> Result<(), Failure<'a>>
        ensures again { IsTrue (is_some self.old.identity) → (files.new ≡ files.old) × (self.new ≡ self.old) }
        ensures role { self.new.role ≡ self.old.role }
        ensures known { self.new.known ≡ self.old.known }
        ensures looked { OnlyLooked C.tells C.system C.images C.moment C.since C.next files.old.calls files.new.calls }
    {
        self.attend(files)?;
        match self.read_only {
            Some(error) => Err(failed(self.path, "open", error)),
            None => Ok(()),
        }
    }

    /// The same, where this is so.
    pub fn attend_to_write_where<C: Calls>(
        &mut self,
        files: &mut OpenFiles<C>,
        is_so: bool,
    ) -> Result<(), Failure<'a>>
        ensures again { IsTrue (is_some self.old.identity) → (files.new ≡ files.old) × (self.new ≡ self.old) }
        ensures role { self.new.role ≡ self.old.role }
        ensures known { self.new.known ≡ self.old.known }
        ensures looked { OnlyLooked C.tells C.system C.images C.moment C.since C.next files.old.calls files.new.calls }
    {
        if is_so {
            self.attend_to_write(files)
        } else {
            Ok(())
        }
    }

    /// Opens it where it is there. Where nothing has the path, that is what is known.
    pub fn attend_if_there<C: Calls>(&mut self, files: &mut OpenFiles<C>) -> Result<(), Failure<'a>>
        ensures again { IsTrue (is_some self.old.identity) → (files.new ≡ files.old) × (self.new ≡ self.old) }
        ensures role { self.new.role ≡ self.old.role }
        ensures known { OnOk result (IsTrue (is_some self.new.identity) ⊎ (self.new.known ≡ None)) }
        ensures looked { OnlyLooked C.tells C.system C.images C.moment C.since C.next files.old.calls files.new.calls }
    {
        if !self.is_open() && self.found(&files.calls)?.is_none() {
            self.known = None;
            return Ok(());
        }
        self.attend(files)
    }

    /// The length in bytes, none where nothing has the path.
    pub fn measure<C: Calls>(
        &mut self,
        files: &mut OpenFiles<C>,
    ) -> Result<Option<u64>, Failure<'a>>
        ensures role { self.new.role ≡ self.old.role }
        ensures length { IfOk result (λ length. length ≡ self.new.known) }
        ensures open { IsTrue (is_some self.old.identity) → self.new.identity ≡ self.old.identity }
        ensures looked { OnlyLooked C.tells C.system C.images C.moment C.since C.next files.old.calls files.new.calls }
    {
        self.attend_if_there(files)?;
        if !self.is_open() {
            return Ok(None);
        }
        let found = of_file(self.path, files.calls.look_open(self.role))?;
        self.known = Some(found.length());
        Ok(self.known)
    }

    // Keeps the file that was opened by its path, and another run of this program from it.
    fn keep<C: Calls>(&mut self, calls: &C) -> Result<(), Failure<'a>>
        ensures open { OnOk result (IsTrue (is_some self.new.identity)) }
        ensures which { OnOk result (IsTrue C.tells → self.new.identity ≡ option_map (λ what. what.identity) ((looks_at C.system C.found calls.now).at_place self.new.role)) }
        ensures role { self.new.role ≡ self.old.role }
        ensures known { self.new.known ≡ self.old.known }
    {
        let found = of_file(self.path, calls.look_open(self.role))?;
        if !found.is_regular {
            return Err(not_regular(self.path));
        }
        self.lock(calls, found.identity)?;
        self.identity = Some(found.identity);
        self.is_made = false;
        Ok(())
    }

    // Locks the open file as a whole, against another run of this program, unless this run has it locked already. It is noted why it could not,
    // where the file system knows no locks.
    fn lock<C: Calls>(&mut self, calls: &C, identity: Identity) -> Result<(), Failure<'a>>
        ensures role { self.new.role ≡ self.old.role }
        ensures known { self.new.known ≡ self.old.known }
    {
        if !self.is_locked || self.twin == Some(identity) {
            return Ok(());
        }
        match calls.lock(self.role) {
            Ok(true) => self.unlocked = None,
            Ok(false) => return Err(Failure::of(self.path, Conflict::OtherRun)),
            Err(fault) => self.unlocked = Some(fault.error),
        }
        Ok(())
    }

    // ---- what was done

    /// The length was answered.
    pub fn note_length(&mut self, length: Option<u64>)
        ensures role { self.new.role ≡ self.old.role }
        ensures known { self.new.known ≡ length }
    {
        self.known = length;
    }

    /// So many bytes were written.
    pub fn note_written(&mut self, at: u64, count: usize)
        ensures role { self.new.role ≡ self.old.role }
        ensures none { count ≡ 0 → self.new.known ≡ self.old.known }
        ensures known { 0 < count → self.new.known ≡ Some (max (unwrap_or self.old.known 0) (end_of at count)) }
    {
        if count > 0 {
            let end = at.saturating_add(count as u64);
            self.known = Some(self.known.unwrap_or(0).max(end));
        }
    }

    /// It was cut to this length where it was longer.
    pub fn note_cut(&mut self, len: u64)
        ensures role { self.new.role ≡ self.old.role }
        ensures known { self.new.known ≡ option_map (λ known. min known len) self.old.known }
    {
        if let Some(known) = self.known {
            self.known = Some(known.min(len));
        }
    }

    /// It was created by this run, and is open.
    pub fn note_created<C: Calls>(&mut self, calls: &C) -> Result<(), Failure<'a>>
        ensures role { self.new.role ≡ self.old.role }
        ensures known { OnOk result (self.new.known ≡ Some 0) }
        ensures which { OnOk result (IsTrue C.tells → self.new.identity ≡ option_map (λ what. what.identity) ((looks_at C.system C.found calls.now).at_place self.new.role)) }
    {
        self.keep(calls)?;
        self.read_only = None;
        self.is_made = true;
        self.known = Some(0);
        Ok(())
    }

    /// It was removed, and nothing is open.
    pub fn note_removed(&mut self)
        ensures role { self.new.role ≡ self.old.role }
        ensures known { self.new.known ≡ None }
    {
        self.identity = None;
        self.read_only = None;
        self.is_made = false;
        self.known = None;
    }

    /// What was open of this file is the other's from now on.
    pub fn note_renamed(&mut self, other: &mut RoleFile<'a>)
        ensures role { self.new.role ≡ self.old.role }
        ensures other_role { other.new.role ≡ other.old.role }
        ensures moved { other.new.known ≡ self.old.known }
        ensures known { self.new.known ≡ None }
    {
        other.identity = self.identity;
        other.read_only = None;
        other.known = self.known;
        self.note_removed();
    }
}

fn are_zeros(bytes: &[u8]) -> bool
    ensures { result ≡ list_all is_zero bytes.now }
{
    bytes.iter().all(|byte| *byte == 0)
}

fn cut_short<'a>(path: &'a str) -> Failure<'a> {
    let words = "the file was cut while it was read";
    failed(path, "read", Error::new(ErrorKind::UnexpectedEof, words))
}
