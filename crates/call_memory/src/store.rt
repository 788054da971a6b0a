// A folder in memory without the calls that are made to fail: what it had at its start, what it has, and what was done between.
ghost use Rattle.std.specs.Prelude.{◌≡◌, ◌⊎◌, ◌<◌, ◌≤◌, ◌++◌, ◌∷◌, [], true, false, length, get_or, set, vec_len, vec_capacity, take, drop, Some, None, IfOk, IfSome, IsErr, IsErrOf, OnErr, OnOk};
ghost use Rattle.std.specs.Option.{option_map};
ghost use Rattle.edge_model.specs.Files.{bytes_of, contents, file_at, length_of, written};
ghost use Rattle.system_calls.specs.System.{file_of, name_at, no_names, put_name};
ghost use Rattle.system_calls.specs.Found.{found_length};
ghost use Rattle.edge_model.specs.Images.{IsNumbered};
ghost use Rattle.call_memory.specs.Folder.{found_as, found_in, held_in, lists_of, names_of, names_to, number_at, shown_in, state_of, state_with};
ghost use Rattle.call_memory.specs.Log.{newest_first, state_after};

use crate::done::Done;
use crate::folder::{Folder, Slots};
use edge_memory::{Refusal, write_file};
use edge_model::{OutOfMemory, Role};
use std::alloc::Global;
use system_calls::{Found, Identity, Mark};

/// The device that every file is on.
const DEVICE: u64 = 1;

/// The bits of mode that every file has.
const MODE: u32 = 0o644;

/// The owner and the group of every file.
const OWNER: u32 = 1000;

/// How many bytes one read gives at most, so that longer ones are done in pieces.
const LONGEST_READ: usize = 7;

/// A folder in memory that no call fails but for want of memory, of a file or of a name.
#[derive(Drop)]
pub struct Store {
    pub alloc: Global,
    pub start: Folder,
    pub current: Folder,
    pub places: Slots,
    pub log: Vec<Done>,
    /// Whether a sync has failed.
    pub is_spoilt: bool,
    ghost start_is: { IsNumbered (length (lists_of start.files)) (shown_in (state_of start)) },
    ghost names_are: { (state_after (state_of start) (newest_first log.items)).names ≡ names_of current.names },
    ghost files_are: { (state_after (state_of start) (newest_first log.items)).lists ≡ lists_of current.files },
}

// Room for one more change, so that to note it takes no memory.
fn make_room(log: &mut Vec<Done>) -> Result<(), Refusal>
    ensures items { log.new.items ≡ log.old.items }
    ensures ok { OnOk result (vec_len log.new < vec_capacity log.new) }
    ensures refusal { IsErrOf result Refusal.Absent → ⊥ }
{
    match log.reserve(1) {
        Ok(()) => Ok(()),
        Err(_) => Err(Refusal::Memory),
    }
}

fn copy_of(alloc: Global, bytes: &[u8]) -> Result<Vec<u8>, Refusal>
    ensures ok { IfOk result (λ copy. copy.items ≡ bytes.now) }
    ensures refusal { IsErrOf result Refusal.Absent → ⊥ }
{
    match bytes.to_vec(alloc) {
        Ok(copy) => Ok(copy),
        Err(_) => Err(Refusal::Memory),
    }
}

// One more file, which is empty.
fn add_file(alloc: Global, files: &mut Vec<Vec<u8>>) -> Result<(), Refusal>
    ensures ok { OnOk result (lists_of files.new ≡ lists_of files.old ++ [] ∷ []) }
    ensures err { OnErr result (lists_of files.new ≡ lists_of files.old) }
    ensures refusal { IsErrOf result Refusal.Absent → ⊥ }
{
    match files.push(Vec::new(alloc)) {
        Ok(()) => Ok(()),
        Err(_) => Err(Refusal::Memory),
    }
}

// Writes to the file with this number.
fn write_in(files: &mut Vec<Vec<u8>>, number: usize, at: u64, bytes: &[u8]) -> Result<(), Refusal>
    requires { number < length files.old.items }
    ensures ok { OnOk result (lists_of files.new ≡ set (lists_of files.old) number (written at bytes.now (get_or (lists_of files.old) number []))) }
    ensures err { OnErr result (lists_of files.new ≡ lists_of files.old) }
    ensures refusal { IsErrOf result Refusal.Absent → ⊥ }
{
    write_file(&mut files[number], at, bytes)
}

// Cuts the file with this number.
fn cut_in(files: &mut Vec<Vec<u8>>, number: usize, len: u64)
    requires { number < length files.old.items }
    ensures { lists_of files.new ≡ set (lists_of files.old) number (take len (get_or (lists_of files.old) number [])) }
{
    files[number].truncate(len as usize);
}

// What a look tells of a file: its number is that of its inode.
fn found_of(number: usize, bytes: &[u8], names: &Slots) -> Found
    ensures { result ≡ found_as number (length bytes.now) (names_to (names_of names.now) number) }
{
    Found {
        is_regular: true,
        identity: Identity {
            device: DEVICE,
            inode: number as u64,
        },
        mark: Mark {
            seconds: 0,
            nanoseconds: 0,
            length: bytes.len() as u64,
        },
        mode: MODE,
        owner: OWNER,
        group: OWNER,
        names: names.count(number),
    }
}

// Copies some of the bytes from an offset on.
fn copy_some(file: &[u8], at: u64, buf: &mut [u8]) -> usize
    ensures count { result ≤ length buf.old }
    ensures told { take result buf.new ≡ take result (drop at file.now) }
    ensures end { result ≡ 0 → (length buf.old ≡ 0) ⊎ (length file.now ≤ at) }
{
    let at = at as usize;
    if at >= file.len() {
        return 0;
    }
    let rest = &file[at..];
    let count = rest.len().min(buf.len()).min(LONGEST_READ);
    buf[..count].copy_from_slice(&rest[..count]);
    count
}

impl Store {
    /// No file.
    pub fn new(alloc: Global) -> Store
        ensures start { state_of result.start ≡ record { names = no_names; lists = [] } }
        ensures log { result.log.items ≡ [] }
        ensures places { names_of result.places ≡ no_names }
        ensures spoilt { result.is_spoilt ≡ false }
    {
        Store {
            alloc,
            start: Folder::new(alloc),
            current: Folder::new(alloc),
            places: Slots::new(),
            log: Vec::new(alloc),
            is_spoilt: false,
        }
    }

    /// These files at the start.
    pub fn with_files(
        alloc: Global,
        main: Option<&[u8]>,
        journal: Option<&[u8]>,
        fresh: Option<&[u8]>,
    ) -> Result<Store, OutOfMemory>
        ensures start { IfOk result (λ store. state_of store.start ≡ state_with (option_map (λ s. s.now) main.entry) (option_map (λ s. s.now) journal.entry) (option_map (λ s. s.now) fresh.entry)) }
        ensures log { IfOk result (λ store. store.log.items ≡ []) }
        ensures places { IfOk result (λ store. names_of store.places ≡ no_names) }
        ensures spoilt { IfOk result (λ store. store.is_spoilt ≡ false) }
    {
        let start = Folder::with_files(alloc, main, journal, fresh)?;
        let current = Folder::with_files(alloc, main, journal, fresh)?;
        Ok(Store {
            alloc,
            start,
            current,
            places: Slots::new(),
            log: Vec::new(alloc),
            is_spoilt: false,
        })
    }

    /// Whether a file is open in this place, as a refusal.
    pub fn find_open(&self, place: Role) -> Result<(), Refusal>
        ensures number { OnOk result (name_at (names_of self.now.places) place ≡ Some (number_at (names_of self.now.places) place)) }
        ensures refusal { IsErrOf result Refusal.Memory → ⊥ }
    {
        self.open_number(place)?;
        Ok(())
    }

    // The number of the file that this name leads to, which is there.
    fn named_number(&self, name: Role) -> Option<usize>
        ensures is { result ≡ name_at (names_of self.now.current.names) name }
        ensures made { IfSome result (λ n. n < length self.now.current.files.items) }
    {
        self.current.names.at(name)
    }

    /// The bytes of what this name leads to.
    pub fn named(&self, name: Role) -> Option<&[u8]>
        ensures { option_map (λ s. s.now) result ≡ bytes_of (file_of (held_in (state_of self.now.current)) (name_at (names_of self.now.current.names) name)) }
    {
        let number = self.named_number(name)?;
        Some(self.current.files[number].as_slice())
    }

    /// What has this name.
    pub fn look(&self, name: Role) -> Option<Found>
        ensures length { found_length result ≡ length_of (file_of (held_in (state_of self.now.current)) (name_at (names_of self.now.current.names) name)) }
        ensures which { result ≡ option_map (found_in (state_of self.now.current)) (name_at (names_of self.now.current.names) name) }
    {
        let number = self.named_number(name)?;
        Some(found_of(number, &self.current.files[number], &self.current.names))
    }

    /// What is open in this place.
    pub fn look_open(&self, place: Role) -> Result<Found, Refusal>
        ensures length { IfOk result (λ found. found_length (Some found) ≡ length_of (file_of (held_in (state_of self.now.current)) (name_at (names_of self.now.places) place))) }
        ensures which { IfOk result (λ found. Some found ≡ option_map (found_in (state_of self.now.current)) (name_at (names_of self.now.places) place)) }
    {
        let number = self.open_number(place)?;
        Ok(found_of(number, &self.current.files[number], &self.current.names))
    }

    /// Some of the bytes of the open file from an offset on.
    pub fn read_some(&self, place: Role, at: u64, buf: &mut [u8]) -> Result<usize, Refusal>
        ensures count { IfOk result (λ count. count ≤ length buf.old) }
        ensures told { IfOk result (λ count. take count buf.new ≡ take count (drop at (contents (file_of (held_in (state_of self.now.current)) (name_at (names_of self.now.places) place))))) }
        ensures end { IfOk result (λ count. count ≡ 0 → (length buf.old ≡ 0) ⊎ (length (contents (file_of (held_in (state_of self.now.current)) (name_at (names_of self.now.places) place))) ≤ at)) }
    {
        let number = self.open_number(place)?;
        Ok(copy_some(&self.current.files[number], at, buf))
    }

    // The number of the file that is open in this place.
    fn open_number(&self, place: Role) -> Result<usize, Refusal>
        ensures ok { IfOk result (λ n. name_at (names_of self.now.places) place ≡ Some n) }
        ensures number { IfOk result (λ n. n ≡ number_at (names_of self.now.places) place) }
        ensures made { IfOk result (λ n. n < length self.now.current.files.items) }
        ensures refusal { IsErrOf result Refusal.Memory → ⊥ }
    {
        match self.places.at(place) {
            Some(number) if number < self.current.files.len() => Ok(number),
            _ => Err(Refusal::Absent),
        }
    }

    /// Opens what this name leads to.
    pub fn open(&mut self, name: Role) -> Result<(), Refusal>
        ensures start { self.new.start ≡ self.old.start }
        ensures log { self.new.log.items ≡ self.old.log.items }
        ensures spoilt { self.new.is_spoilt ≡ self.old.is_spoilt }
        ensures ok { OnOk result (names_of self.new.places ≡ put_name (names_of self.old.places) name (name_at (names_of self.old.current.names) name)) }
        ensures err { OnErr result (self.new.places ≡ self.old.places) }
        ensures absent { name_at (names_of self.old.current.names) name ≡ None → IsErr result }
        ensures refusal { IsErrOf result Refusal.Memory → ⊥ }
    {
        let number = self.current.names.at(name);
        if number.is_none() {
            return Err(Refusal::Absent);
        }
        self.places.put(name, number);
        Ok(())
    }

    /// Writes and notes it. Where a call is refused nothing is changed, here and below.
    pub fn write(&mut self, place: Role, at: u64, bytes: &[u8]) -> Result<(), Refusal>
        ensures start { self.new.start ≡ self.old.start }
        ensures places { self.new.places ≡ self.old.places }
        ensures spoilt { self.new.is_spoilt ≡ self.old.is_spoilt }
        ensures number { OnOk result (name_at (names_of self.old.places) place ≡ Some (number_at (names_of self.old.places) place)) }
        ensures made { OnOk result (number_at (names_of self.old.places) place < length (lists_of self.old.current.files)) }
        ensures ok { OnOk result ((b : _) × (b.items ≡ bytes.now) × (self.new.log.items ≡ self.old.log.items ++ Done.Write (number_at (names_of self.old.places) place) at b ∷ [])) }
        ensures err { OnErr result (self.new.log.items ≡ self.old.log.items) }
    {
        let number = self.open_number(place)?;
        make_room(&mut self.log)?;
        let copy = copy_of(self.alloc, bytes)?;
        write_in(&mut self.current.files, number, at, bytes)?;
        self.log.push_reserved(Done::Write(number, at, copy));
        Ok(())
    }

    /// Cuts and notes it.
    pub fn cut(&mut self, place: Role, len: u64) -> Result<(), Refusal>
        ensures start { self.new.start ≡ self.old.start }
        ensures places { self.new.places ≡ self.old.places }
        ensures spoilt { self.new.is_spoilt ≡ self.old.is_spoilt }
        ensures number { OnOk result (name_at (names_of self.old.places) place ≡ Some (number_at (names_of self.old.places) place)) }
        ensures made { OnOk result (number_at (names_of self.old.places) place < length (lists_of self.old.current.files)) }
        ensures ok { OnOk result (self.new.log.items ≡ self.old.log.items ++ Done.Cut (number_at (names_of self.old.places) place) len ∷ []) }
        ensures err { OnErr result (self.new.log.items ≡ self.old.log.items) }
    {
        let number = self.open_number(place)?;
        make_room(&mut self.log)?;
        cut_in(&mut self.current.files, number, len);
        self.log.push_reserved(Done::Cut(number, len));
        Ok(())
    }

    /// Notes a sync.
    pub fn sync(&mut self, place: Role) -> Result<(), Refusal>
        ensures start { self.new.start ≡ self.old.start }
        ensures places { self.new.places ≡ self.old.places }
        ensures spoilt { self.new.is_spoilt ≡ self.old.is_spoilt }
        ensures number { OnOk result (name_at (names_of self.old.places) place ≡ Some (number_at (names_of self.old.places) place)) }
        ensures ok { OnOk result (self.new.log.items ≡ self.old.log.items ++ Done.Sync (number_at (names_of self.old.places) place) ∷ []) }
        ensures err { OnErr result (self.new.log.items ≡ self.old.log.items) }
    {
        let number = self.open_number(place)?;
        make_room(&mut self.log)?;
        self.log.push_reserved(Done::Sync(number));
        Ok(())
    }

    /// Notes a sync of the folder.
    pub fn sync_folder(&mut self) -> Result<(), Refusal>
        ensures start { self.new.start ≡ self.old.start }
        ensures places { self.new.places ≡ self.old.places }
        ensures spoilt { self.new.is_spoilt ≡ self.old.is_spoilt }
        ensures ok { OnOk result (self.new.log.items ≡ self.old.log.items ++ Done.SyncFolder ∷ []) }
        ensures err { OnErr result (self.new.log.items ≡ self.old.log.items) }
        ensures refusal { IsErrOf result Refusal.Absent → ⊥ }
    {
        make_room(&mut self.log)?;
        self.log.push_reserved(Done::SyncFolder);
        Ok(())
    }

    /// Makes an empty file, which is open, and notes it.
    pub fn create(&mut self, name: Role) -> Result<(), Refusal>
        ensures start { self.new.start ≡ self.old.start }
        ensures spoilt { self.new.is_spoilt ≡ self.old.is_spoilt }
        ensures places { OnOk result (names_of self.new.places ≡ put_name (names_of self.old.places) name (Some (length (lists_of self.old.current.files)))) }
        ensures places_same { OnErr result (self.new.places ≡ self.old.places) }
        ensures ok { OnOk result (self.new.log.items ≡ self.old.log.items ++ Done.Create name ∷ []) }
        ensures err { OnErr result (self.new.log.items ≡ self.old.log.items) }
        ensures refusal { IsErrOf result Refusal.Absent → ⊥ }
    {
        make_room(&mut self.log)?;
        let number = self.current.files.len();
        add_file(self.alloc, &mut self.current.files)?;
        self.log.push_reserved(Done::Create(name));
        self.current.names.put(name, Some(number));
        self.places.put(name, Some(number));
        Ok(())
    }

    /// Takes the name away, and notes it.
    pub fn remove(&mut self, name: Role) -> Result<(), Refusal>
        ensures start { self.new.start ≡ self.old.start }
        ensures places { self.new.places ≡ self.old.places }
        ensures spoilt { self.new.is_spoilt ≡ self.old.is_spoilt }
        ensures ok { OnOk result (self.new.log.items ≡ self.old.log.items ++ Done.Remove name ∷ []) }
        ensures err { OnErr result (self.new.log.items ≡ self.old.log.items) }
        ensures absent { name_at (names_of self.old.current.names) name ≡ None → IsErr result }
        ensures refusal { IsErrOf result Refusal.Absent → name_at (names_of self.old.current.names) name ≡ None }
    {
        if self.current.names.at(name).is_none() {
            return Err(Refusal::Absent);
        }
        make_room(&mut self.log)?;
        self.log.push_reserved(Done::Remove(name));
        self.current.names.put(name, None);
        Ok(())
    }

    /// Main leads to what Fresh led to, and notes it.
    pub fn rename_fresh(&mut self) -> Result<(), Refusal>
        ensures start { self.new.start ≡ self.old.start }
        ensures places { self.new.places ≡ self.old.places }
        ensures spoilt { self.new.is_spoilt ≡ self.old.is_spoilt }
        ensures ok { OnOk result (self.new.log.items ≡ self.old.log.items ++ Done.Rename ∷ []) }
        ensures err { OnErr result (self.new.log.items ≡ self.old.log.items) }
        ensures absent { (names_of self.old.current.names).fresh ≡ None → IsErr result }
        ensures refusal { IsErrOf result Refusal.Absent → (names_of self.old.current.names).fresh ≡ None }
    {
        if self.current.names.fresh.is_none() {
            return Err(Refusal::Absent);
        }
        make_room(&mut self.log)?;
        self.log.push_reserved(Done::Rename);
        self.current.names.main = self.current.names.fresh;
        self.current.names.fresh = None;
        Ok(())
    }
}
