// A system in memory.
ghost use Rattle.std.specs.Prelude.{◌≡◌, [], false, true, length, Ok, IfOk, IsErr, IsTrue, None, OnErr, OnOk, is_ok};
ghost use Rattle.std.specs.Option.{option_map};
ghost use Rattle.edge_memory.specs.Gate.{at_first, called, is_next_due, listing, stopping};
ghost use Rattle.edge_model.specs.Files.{bytes_of, file_at, no_files};
ghost use Rattle.edge_model.specs.Images.{Each};
ghost use Rattle.system_calls.specs.System.{IsHome, no_names, seen};
ghost use Rattle.call_memory.specs.Folder.{found_in, names_of, state_of, system_in};
ghost use Rattle.call_memory.specs.Log.{ImagesAfter, SinceAfter, newest_first, state_after};
ghost use Rattle.call_memory.specs.LogLaws.{counts_now_log, numbered_log, only_now_log, reads_now_log, unborn_in};

use crate::store::Store;
use edge_memory::{Gate, Refusal};
use edge_model::{Failed, OutOfMemory, Role};
use std::alloc::Global;
use std::io::{Error, ErrorKind};
use system_calls::{Calls, Fault, Found};

/// Three names in a folder in memory, with the changes that were done, for what a stop may leave. A read gives some bytes at a time. Each
/// call that takes `&mut self` but `close` and `move_fresh` fails where it is made to, or where it is refused memory, and is not done then.
#[derive(Drop)]
pub struct MemCalls {
    gate: Gate,
    store: Store,
}

// A refusal, as the system tells it.
fn fault(call: &'static str, refusal: Refusal) -> Fault {
    match refusal {
        Refusal::Memory => Fault::new(call, ErrorKind::OutOfMemory.into()),
        Refusal::Absent => Fault::new(call, ErrorKind::NotFound.into()),
    }
}

fn told<T: Drop>(call: &'static str, outcome: Result<T, Refusal>) -> Result<T, Fault>
    ensures same { is_ok result ≡ is_ok outcome }
    ensures value { IfOk result (λ value. outcome ≡ Ok value) }
{
    match outcome {
        Ok(value) => Ok(value),
        Err(refusal) => Err(fault(call, refusal)),
    }
}

// Counts a call, and fails it where it is made to.
fn admit(gate: &mut Gate, call: &'static str) -> Result<(), Fault>
    ensures due { IsTrue (is_next_due gate.old.plan) → IsErr result }
    ensures plan { gate.new.plan ≡ called gate.old.plan }
{
    match gate.admit() {
        Ok(()) => Ok(()),
        Err(Failed) => Err(Fault::new(call, ErrorKind::Other.into())),
    }
}

// Counts a refusal.
fn settle(gate: &mut Gate, call: &'static str, outcome: Result<(), Refusal>) -> Result<(), Fault>
    ensures same { is_ok result ≡ is_ok outcome }
    ensures plan { gate.new.plan ≡ gate.old.plan }
{
    let _counted = gate.settle(outcome);
    match outcome {
        Ok(()) => Ok(()),
        Err(refusal) => Err(fault(call, refusal)),
    }
}

impl MemCalls {
    ghost use Rattle.call_memory.specs.MemCalls.{mem_changes, mem_counts, mem_history, mem_images, mem_is_spoilt, mem_system};

    /// No name leads to a file, and none is open.
    pub fn new(alloc: Global) -> MemCalls
        ensures shown { seen (mem_system result) ≡ no_files }
        ensures closed { (mem_system result).places ≡ no_names }
        ensures clean { mem_is_spoilt result ≡ false }
        ensures home { Each (mem_images result) (IsHome (seen (mem_system result))) }
        ensures counts { mem_counts result ≡ at_first [] }
    {
        MemCalls {
            gate: Gate::new(alloc),
            store: Store::new(alloc),
        }
    }

    /// These files, all of them synced, and none is open.
    pub fn with_files(
        alloc: Global,
        main: Option<&[u8]>,
        journal: Option<&[u8]>,
        fresh: Option<&[u8]>,
    ) -> Result<MemCalls, OutOfMemory>
        ensures main { IfOk result (λ calls. bytes_of (seen (mem_system calls)).main ≡ option_map (λ s. s.now) main.entry) }
        ensures journal { IfOk result (λ calls. bytes_of (seen (mem_system calls)).journal ≡ option_map (λ s. s.now) journal.entry) }
        ensures fresh { IfOk result (λ calls. bytes_of (seen (mem_system calls)).fresh ≡ option_map (λ s. s.now) fresh.entry) }
        ensures synced { IfOk result (λ calls. Each (mem_images calls) (λ c. c ≡ seen (mem_system calls))) }
        ensures closed { IfOk result (λ calls. (mem_system calls).places ≡ no_names) }
        ensures clean { IfOk result (λ calls. mem_is_spoilt calls ≡ false) }
        ensures home { IfOk result (λ calls. Each (mem_images calls) (IsHome (seen (mem_system calls)))) }
        ensures counts { IfOk result (λ calls. mem_counts calls ≡ at_first []) }
    {
        let store = Store::with_files(alloc, main, journal, fresh)?;
        Ok(MemCalls {
            gate: Gate::new(alloc),
            store,
        })
    }

    /// The bytes of what this name leads to.
    pub fn bytes(&self, name: Role) -> Option<&[u8]>
        ensures { option_map (λ s. s.now) result ≡ bytes_of (file_at (seen (mem_system self.now)) name) }
    {
        self.store.named(name)
    }

    /// So many calls pass, then every call that can fail does, and is not done.
    pub fn stop_after(&mut self, calls: u64)
        ensures same { mem_history self.new ≡ mem_history self.old }
        ensures plan { mem_counts self.new ≡ record (mem_counts self.old) { plan = stopping calls (mem_counts self.old).plan } }
    {
        self.gate.stop_after(calls);
    }

    /// These later calls, counted from the next one as 1, fail and are not done, and so do those listed before.
    pub fn fail_calls(&mut self, calls: &[u64]) -> Result<(), OutOfMemory>
        ensures same { mem_history self.new ≡ mem_history self.old }
        ensures ok { OnOk result (mem_counts self.new ≡ record (mem_counts self.old) { plan = listing calls.now (mem_counts self.old).plan }) }
        ensures err { OnErr result (mem_counts self.new ≡ mem_counts self.old) }
    {
        self.gate.fail_calls(calls)
    }

    /// How often memory was refused.
    pub fn starved(&self) -> u64
        ensures { result ≡ (mem_counts self.now).starved }
    {
        self.gate.starved()
    }

    /// How many changes were done, syncs that save something among them.
    pub fn changes(&self) -> u64
        ensures { result ≡ mem_changes self.now }
    {
        self.store.log.len() as u64
    }

    /// Whether a sync has failed.
    pub fn is_spoilt(&self) -> bool
        ensures { result ≡ mem_is_spoilt self.now }
    {
        self.store.is_spoilt
    }

    // A sync behind one that failed: it saves nothing.
    fn sync_nothing(&mut self, place: Role) -> Result<(), Fault>
        ensures { self.new.store ≡ self.old.store }
    {
        admit(&mut self.gate, "sync")?;
        let outcome = self.store.find_open(place);
        settle(&mut self.gate, "sync", outcome)
    }
}

impl Calls for MemCalls {
    ghost tells = { true };

    ghost system = { λ m. system_in (state_after (state_of m.store.start) (newest_first m.store.log.items)) (names_of m.store.places) };

    ghost images = { λ m c. ImagesAfter (state_of m.store.start) (newest_first m.store.log.items) c };

    ghost moment = { λ m. length m.store.log.items };

    ghost since = { λ m t c. SinceAfter (state_of m.store.start) (newest_first m.store.log.items) t c };

    ghost is_spoilt = { λ m. m.store.is_spoilt };

    ghost next = { λ m. length (state_after (state_of m.store.start) (newest_first m.store.log.items)).lists };

    ghost found = { λ m. found_in (state_after (state_of m.store.start) (newest_first m.store.log.items)) };

    ghost reads_now = { λ m. reads_now_log (state_of m.store.start) m.store.log.items };

    ghost counts_now = { λ m t c le now. counts_now_log (state_of m.store.start) m.store.log.items t c le now };

    ghost only_now = { λ m c left. only_now_log (state_of m.store.start) m.store.log.items c left };

    ghost numbered = { λ m c left. numbered_log (state_of m.store.start) m.store.start_is m.store.log.items c left };

    ghost unborn = { λ m. unborn_in (state_after (state_of m.store.start) (newest_first m.store.log.items)) };

    fn is_open(&self, place: Role) -> bool {
        self.store.places.at(place).is_some()
    }

    fn look(&self, name: Role) -> Result<Option<Found>, Fault> {
        Ok(self.store.look(name))
    }

    fn look_open(&self, place: Role) -> Result<Found, Fault> {
        told("look", self.store.look_open(place))
    }

    fn read_some(&self, place: Role, at: u64, buf: &mut [u8]) -> Result<usize, Fault> {
        told("read", self.store.read_some(place, at, buf))
    }

    // Nobody else is there.
    fn lock(&self, _place: Role) -> Result<bool, Fault> {
        Ok(true)
    }

    // A file has no mode and no owner of its own.
    fn give(&self, _place: Role, _like: &Found) -> Result<(), Fault> {
        Ok(())
    }

    fn open(&mut self, name: Role, _is_only_read: bool) -> Result<Option<Error>, Fault> {
        admit(&mut self.gate, "open")?;
        let outcome = self.store.open(name);
        settle(&mut self.gate, "open", outcome)?;
        Ok(None)
    }

    fn close(&mut self, place: Role) {
        self.store.places.put(place, None);
    }

    fn move_fresh(&mut self) {
        self.store.places.main = self.store.places.fresh;
        self.store.places.fresh = None;
    }

    fn write_all(&mut self, place: Role, at: u64, bytes: &[u8]) -> Result<(), Fault> {
        admit(&mut self.gate, "write")?;
        let outcome = self.store.write(place, at, bytes);
        settle(&mut self.gate, "write", outcome)
    }

    fn set_len(&mut self, place: Role, len: u64) -> Result<(), Fault> {
        admit(&mut self.gate, "cut")?;
        let outcome = self.store.cut(place, len);
        settle(&mut self.gate, "cut", outcome)
    }

    // It is spoilt unless it is done.
    fn sync(&mut self, place: Role) -> Result<(), Fault> {
        if self.store.is_spoilt {
            return self.sync_nothing(place);
        }
        self.store.is_spoilt = true;
        admit(&mut self.gate, "sync")?;
        let outcome = self.store.sync(place);
        settle(&mut self.gate, "sync", outcome)?;
        self.store.is_spoilt = false;
        Ok(())
    }

    fn create_new(&mut self, name: Role, _mode: Option<u32>) -> Result<(), Fault> {
        admit(&mut self.gate, "create")?;
        if self.store.current.names.at(name).is_some() {
            return Err(Fault::new("create", ErrorKind::AlreadyExists.into()));
        }
        let outcome = self.store.create(name);
        settle(&mut self.gate, "create", outcome)
    }

    fn remove(&mut self, name: Role) -> Result<(), Fault> {
        admit(&mut self.gate, "remove")?;
        let outcome = self.store.remove(name);
        settle(&mut self.gate, "remove", outcome)
    }

    fn rename_fresh(&mut self, _is_to_replace: bool) -> Result<(), Fault> {
        admit(&mut self.gate, "rename")?;
        let outcome = self.store.rename_fresh();
        settle(&mut self.gate, "rename", outcome)
    }

    fn sync_folder(&mut self) -> Result<(), Fault> {
        if self.store.is_spoilt {
            return admit(&mut self.gate, "sync");
        }
        self.store.is_spoilt = true;
        admit(&mut self.gate, "sync")?;
        let outcome = self.store.sync_folder();
        settle(&mut self.gate, "sync", outcome)?;
        self.store.is_spoilt = false;
        Ok(())
    }
}
