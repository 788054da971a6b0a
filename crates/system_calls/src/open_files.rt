// The files of a folder as a disk.
ghost use Rattle.std.specs.Prelude.{◌≡◌, ◌⊎◌, ◌≤◌, ◌+◌, ◌-◌, ◌^◌, min, ℕ, Bool, true, false, List, Option, None, Some, length, IfOk, OnOk, OnErr, IsErr, IsTrue, is_ok};
ghost use Rattle.edge_model.specs.Causes.{HasCause};
ghost use Rattle.edge_model.specs.Files.{Files, file_at};
ghost use Rattle.edge_model.specs.Images.{Each, SameImages, Passes};
ghost use Rattle.system_calls.specs.Found.{found_length};
ghost use Rattle.system_calls.specs.System.{System, name_at, seen, IsAt, IsNamed, IsHome, no_names};

use crate::transfer::read_full;
use crate::{Calls, Fault, Found};
use edge_model::{Disk, Failed, Role};
use std::io::Error;

/// Three files of a folder. Each is opened once, by its name. After a change that failed nothing is asked of the system any more: it may
/// have been done, and a sync that failed may have lost for good what it was to save.
#[derive(Drop)]
pub struct OpenFiles<C: Calls> {
    pub calls: C,
    /// How often the disk has failed.
    pub faults: u64,
    /// The last failure of a call.
    pub last: Option<Fault>,
    /// The file that the next new one is to be like, in mode and owner.
    like: Option<Found>,
    /// Whether a change failed, which may have been done. Nothing is asked of the system after it.
    pub is_stuck: bool,
    ghost named: { is_stuck ≡ false → IsTrue C.tells → IsNamed (C.system calls) },
    ghost clean: { is_stuck ≡ false → IsTrue C.tells → C.is_spoilt calls ≡ false },
    ghost home: { is_stuck ≡ false → IsTrue C.tells → Each (C.images calls) (IsHome (seen (C.system calls))) },
}

// Counts a failure.
fn settle<T: Drop>(
    faults: &mut u64,
    last: &mut Option<Fault>,
    outcome: Result<T, Fault>,
) -> Result<T, Failed>
    ensures ok { OnOk result (faults.new ≡ faults.old) }
    ensures same { is_ok result ≡ is_ok outcome }
    ensures value { IfOk result (λ value. IfOk outcome (λ was. value ≡ was)) }
    ensures cause { HasCause faults.old faults.new result }
{
    match outcome {
        Ok(value) => Ok(value),
        Err(fault) => {
            *faults = faults.saturating_add(1);
            *last = Some(fault);
            Err(Failed)
        }
    }
}

// Counts a failure of a change, after which no call is made.
fn changed(
    is_stuck: &mut bool,
    faults: &mut u64,
    last: &mut Option<Fault>,
    outcome: Result<(), Fault>,
) -> Result<(), Failed>
    ensures ok { OnOk result (is_stuck.new ≡ is_stuck.old) }
    ensures err { OnErr result (is_stuck.new ≡ true) }
    ensures same { is_ok result ≡ is_ok outcome }
    ensures cause { HasCause faults.old faults.new result }
{
    if outcome.is_err() {
        *is_stuck = true;
    }
    settle(faults, last, outcome)
}

// The bits of mode of a new file that is to be like that one.
fn mode_like(like: &Option<Found>) -> Option<u32> {
    match like {
        Some(found) => Some(found.permissions()),
        None => None,
    }
}

// The new file that is open in the place gets the other one's mode and owner, where it is to be like one.
fn give_like<C: Calls>(calls: &C, place: Role, like: &Option<Found>) -> Result<(), Fault> {
    match like {
        Some(found) => calls.give(place, found),
        None => Ok(()),
    }
}

impl<C: Calls> OpenFiles<C> {
    /// The files of a folder of which none is open. Each file has in each image the name that it has now, but that what is
    /// Main now may be Fresh there: so it is where only `Disk`'s calls changed the names.
    pub fn new(calls: C) -> OpenFiles<C>
        requires closed { IsTrue C.tells → (C.system calls).places ≡ no_names }
        requires clean { IsTrue C.tells → C.is_spoilt calls ≡ false }
        requires home { IsTrue C.tells → Each (C.images calls) (IsHome (seen (C.system calls))) }
        ensures calls { result.calls ≡ calls }
        ensures faults { result.faults ≡ 0 }
    {
        OpenFiles {
            calls,
            faults: 0,
            last: None,
            like: None,
            is_stuck: false,
        }
    }

    /// Opens the role's file by its name, for reading alone where that is wanted or nothing else is allowed. It answers why the file can't
    /// be written then.
    pub fn open(&mut self, role: Role, is_only_read: bool) -> Result<Option<Error>, Fault>
        ensures same { IsTrue C.tells → seen (C.system self.new.calls) ≡ seen (C.system self.old.calls) }
        ensures next { IsTrue C.tells → C.next self.new.calls ≡ C.next self.old.calls }
        ensures crash { IsTrue C.tells → SameImages (C.images self.old.calls) (C.images self.new.calls) }
        ensures time { IsTrue C.tells → Passes C.images C.moment C.since self.old.calls self.new.calls }
    {
        self.calls.open(role, is_only_read)
    }

    /// The next new file is to be like that one, in mode and owner. `create` asks for both, which no clause of it can say: no clause of `Calls`
    /// speaks of a mode or an owner.
    pub fn make_like(&mut self, like: Option<Found>)
        ensures like { self.new.like ≡ like }
        ensures same { IsTrue C.tells → seen (C.system self.new.calls) ≡ seen (C.system self.old.calls) }
        ensures next { IsTrue C.tells → C.next self.new.calls ≡ C.next self.old.calls }
        ensures crash { IsTrue C.tells → SameImages (C.images self.old.calls) (C.images self.new.calls) }
        ensures time { IsTrue C.tells → Passes C.images C.moment C.since self.old.calls self.new.calls }
    {
        self.like = like;
    }

    // Fails where a change has failed.
    fn admit(&mut self) -> Result<(), Failed>
        ensures ok { OnOk result (self.new.is_stuck ≡ false) }
        ensures calls { self.new.calls ≡ self.old.calls }
        ensures cause { HasCause self.old.faults self.new.faults result }
    {
        if self.is_stuck {
            self.faults = self.faults.saturating_add(1);
            return Err(Failed);
        }
        Ok(())
    }

    // The role's file is open, by its name.
    fn ready(&mut self, role: Role) -> Result<(), Failed>
        ensures at { OnOk result (IsTrue C.tells → (n : ℕ) × IsAt role n (C.system self.new.calls)) }
        ensures free { OnOk result (self.new.is_stuck ≡ false) }
        ensures absent { IsTrue C.tells → file_at (seen (C.system self.old.calls)) role ≡ None → IsErr result }
        ensures same { IsTrue C.tells → seen (C.system self.new.calls) ≡ seen (C.system self.old.calls) }
        ensures crash { IsTrue C.tells → SameImages (C.images self.old.calls) (C.images self.new.calls) }
        ensures time { IsTrue C.tells → Passes C.images C.moment C.since self.old.calls self.new.calls }
        ensures cause { HasCause self.old.faults self.new.faults result }
    {
        self.admit()?;
        if self.calls.is_open(role) {
            return Ok(());
        }
        let outcome = self.calls.open(role, false);
        settle(&mut self.faults, &mut self.last, outcome)?;
        Ok(())
    }
}

impl<C: Calls> Disk for OpenFiles<C> {
    ghost tells = { C.tells };

    ghost reads = { λ f. seen (C.system f.calls) };

    ghost images = { λ f. C.images f.calls };

    ghost moment = { λ f. C.moment f.calls };

    ghost since = { λ f. C.since f.calls };

    ghost next = { λ f. C.next f.calls };

    ghost faults = { λ f. f.faults };

    ghost reads_now = { λ f. C.reads_now f.calls };

    ghost counts_now = { λ f t c le now. C.counts_now f.calls t c le now };

    ghost only_now = { λ f c left. C.only_now f.calls c left };

    ghost numbered = { λ f c now. C.numbered f.calls c now };

    fn length(&mut self, role: Role) -> Result<Option<u64>, Failed> {
        self.admit()?;
        if !self.calls.is_open(role) {
            let outcome = self.calls.look(role);
            let found = settle(&mut self.faults, &mut self.last, outcome)?;
            return Ok(length_found(&found));
        }
        let outcome = self.calls.look_open(role);
        let found = settle(&mut self.faults, &mut self.last, outcome)?;
        Ok(Some(found.length()))
    }

    fn read_at(&mut self, role: Role, at: u64, buf: &mut [u8]) -> Result<usize, Failed> {
        self.ready(role)?;
        let outcome = read_full(&self.calls, role, at, buf);
        settle(&mut self.faults, &mut self.last, outcome)
    }

    fn write_at(&mut self, role: Role, at: u64, bytes: &[u8]) -> Result<(), Failed> {
        self.ready(role)?;
        let outcome = self.calls.write_all(role, at, bytes);
        changed(
            &mut self.is_stuck,
            &mut self.faults,
            &mut self.last,
            outcome,
        )
    }

    fn cut(&mut self, role: Role, len: u64) -> Result<(), Failed> {
        self.ready(role)?;
        let outcome = self.calls.look_open(role);
        let found = settle(&mut self.faults, &mut self.last, outcome)?;
        if found.length() <= len {
            return Ok(());
        }
        let outcome = self.calls.set_len(role, len);
        changed(
            &mut self.is_stuck,
            &mut self.faults,
            &mut self.last,
            outcome,
        )
    }

    fn sync(&mut self, role: Role) -> Result<(), Failed> {
        self.ready(role)?;
        let outcome = self.calls.sync(role);
        changed(
            &mut self.is_stuck,
            &mut self.faults,
            &mut self.last,
            outcome,
        )
    }

    fn create(&mut self, role: Role) -> Result<(), Failed> {
        self.admit()?;
        let mode = mode_like(&self.like);
        let outcome = self.calls.create_new(role, mode);
        changed(
            &mut self.is_stuck,
            &mut self.faults,
            &mut self.last,
            outcome,
        )?;
        let outcome = give_like(&self.calls, role, &self.like);
        changed(
            &mut self.is_stuck,
            &mut self.faults,
            &mut self.last,
            outcome,
        )
    }

    fn remove(&mut self, role: Role) -> Result<(), Failed> {
        self.admit()?;
        let outcome = self.calls.remove(role);
        changed(
            &mut self.is_stuck,
            &mut self.faults,
            &mut self.last,
            outcome,
        )?;
        self.calls.close(role);
        Ok(())
    }

    fn rename_fresh(&mut self) -> Result<(), Failed> {
        self.admit()?;
        let is_to_replace = self.calls.is_open(Role::Main);
        let outcome = self.calls.rename_fresh(is_to_replace);
        if outcome.is_ok() {
            self.calls.move_fresh();
        }
        changed(
            &mut self.is_stuck,
            &mut self.faults,
            &mut self.last,
            outcome,
        )
    }

    fn sync_folder(&mut self) -> Result<(), Failed> {
        self.admit()?;
        let outcome = self.calls.sync_folder();
        changed(
            &mut self.is_stuck,
            &mut self.faults,
            &mut self.last,
            outcome,
        )
    }
}

// The length in bytes.
fn length_found(found: &Option<Found>) -> Option<u64>
    ensures { result ≡ found_length found.now }
{
    match found {
        Some(found) => Some(found.length()),
        None => None,
    }
}
