// A disk in memory.
ghost use Rattle.std.specs.Prelude.{◌≡◌, ◌⊎◌, [], true, length, None, IsTrue, IsErr, IfOk, OnOk, OnErr, is_ok};
ghost use Rattle.std.specs.Option.{option_map};
ghost use Rattle.edge_model.specs.Files.{Files, bytes_of, created, file_at, no_files, renamed};
ghost use Rattle.edge_model.specs.Images.{Each};
ghost use Rattle.edge_memory.specs.Gate.{IsCounted, at_first, is_next_due, listing, stopping};
ghost use Rattle.edge_model.specs.Causes.{HasCause, Rose};
ghost use Rattle.edge_memory.specs.Log.{shown_of, files_of, next_number, reads_after, ImagesAfter, SinceAfter, newest_first};
ghost use Rattle.edge_memory.specs.LogLaws.{reads_now_reversed, counts_now_reversed, only_now_reversed, numbered_reversed};

mod contents;
mod image;
mod replay;
mod slots;
mod store;

use self::replay::{bytes_in, chosen};
pub use self::slots::write_file;
use self::store::Store;
use crate::ImagePick;
use crate::gate::Gate;
use edge_model::{Disk, Failed, OutOfMemory, Role};
use std::alloc::Global;

/// Three files in memory, with the calls that were done, so that it can show what a crash leaves of them. Each call but
/// `length` and `read_at` can be refused memory.
#[derive(Drop)]
pub struct MemDisk {
    gate: Gate,
    store: Store,
}

impl MemDisk {
    ghost use Rattle.edge_memory.specs.MemDisk.{IsCalled, mem_counts, mem_faults, mem_history, mem_images, mem_next, mem_picked, mem_reads};

    /// No role has a file.
    pub fn new(alloc: Global) -> MemDisk
        ensures reads { mem_reads result ≡ no_files }
        ensures synced { Each (mem_images result) (λ c. c ≡ no_files) }
        ensures counts { mem_counts result ≡ at_first [] }
    {
        MemDisk {
            gate: Gate::new(alloc),
            store: Store::new(alloc),
        }
    }

    /// These files, all of them synced.
    pub fn with_files(
        alloc: Global,
        main: Option<&[u8]>,
        journal: Option<&[u8]>,
        fresh: Option<&[u8]>,
    ) -> Result<MemDisk, OutOfMemory>
        ensures main { IfOk result (λ disk. bytes_of (mem_reads disk).main ≡ option_map (λ s. s.now) main.entry) }
        ensures journal { IfOk result (λ disk. bytes_of (mem_reads disk).journal ≡ option_map (λ s. s.now) journal.entry) }
        ensures fresh { IfOk result (λ disk. bytes_of (mem_reads disk).fresh ≡ option_map (λ s. s.now) fresh.entry) }
        ensures synced { IfOk result (λ disk. Each (mem_images disk) (λ c. c ≡ mem_reads disk)) }
        ensures counts { IfOk result (λ disk. mem_counts disk ≡ at_first []) }
    {
        let mut disk = MemDisk::new(alloc);
        disk.store = Store::with_files(alloc, main, journal, fresh)?;
        Ok(disk)
    }

    /// What the role reads as.
    pub fn bytes(&self, role: Role) -> Option<&[u8]>
        ensures { option_map (λ s. s.now) result ≡ bytes_of (file_at (mem_reads self.now) role) }
    {
        self.store.file(role)
    }

    /// One of the images, as a disk that has it synced.
    pub fn image(&self, pick: ImagePick) -> Result<MemDisk, OutOfMemory>
        ensures one { IfOk result (λ disk. (c : Files) × mem_images self.now c × (shown_of (mem_reads disk) ≡ shown_of c)) }
        ensures pick { IfOk result (λ disk. shown_of (mem_reads disk) ≡ shown_of (mem_picked pick self.now)) }
        ensures synced { IfOk result (λ disk. Each (mem_images disk) (λ c. c ≡ mem_reads disk)) }
        ensures counts { IfOk result (λ disk. mem_counts disk ≡ at_first []) }
    {
        let alloc = self.store.alloc;
        let image = chosen(alloc, &self.store.start, &self.store.calls, pick)?;
        let main = bytes_in(&image.main);
        let journal = bytes_in(&image.journal);
        let fresh = bytes_in(&image.fresh);
        let disk = MemDisk::with_files(alloc, main, journal, fresh)?;
        Ok(disk)
    }

    /// So many calls pass, then every call fails and is not done.
    pub fn stop_after(&mut self, calls: u64)
        ensures same { mem_history self.new ≡ mem_history self.old }
        ensures plan { mem_counts self.new ≡ record (mem_counts self.old) { plan = stopping calls (mem_counts self.old).plan } }
    {
        self.gate.stop_after(calls);
    }

    /// These later calls, counted from the next one as 1, fail and are not done, and so do those listed before.
    pub fn fail_calls(&mut self, calls: &[u64]) -> Result<(), OutOfMemory>
        ensures same { mem_history self.new ≡ mem_history self.old }
        ensures ok { OnOk result (mem_counts self.new ≡ record (mem_counts self.old) { plan = listing calls.now (mem_counts self.old).plan }) }
        ensures err { OnErr result (mem_counts self.new ≡ mem_counts self.old) }
    {
        self.gate.fail_calls(calls)
    }

    /// How often memory was refused.
    pub fn starved(&self) -> u64
        ensures { result ≡ (mem_counts self.now).starved }
    {
        self.gate.starved()
    }

    /// `create` where what the role holds is not known.
    pub(crate) fn create_any(&mut self, role: Role) -> Result<(), Failed>
        ensures done { OnOk result (mem_reads self.new ≡ created role (mem_next self.old) (mem_reads self.old)) }
        ensures due { IsTrue (is_next_due (mem_counts self.old).plan) → IsErr result }
        ensures excuse { OnErr result (IsTrue (is_next_due (mem_counts self.old).plan) ⊎ Rose (mem_counts self.old).starved (mem_counts self.new).starved) }
        ensures counted { IsCalled (is_ok result) self.old self.new }
        ensures cause { HasCause (mem_faults self.old) (mem_faults self.new) result }
    {
        self.gate.admit()?;
        let outcome = self.store.create(role);
        self.gate.settle(outcome)
    }

    /// `rename_fresh` where what is synced is not known.
    pub(crate) fn rename_any(&mut self) -> Result<(), Failed>
        ensures done { OnOk result (mem_reads self.new ≡ renamed (mem_reads self.old)) }
        ensures due { IsTrue (is_next_due (mem_counts self.old).plan) → IsErr result }
        ensures excuse { OnErr result ((IsTrue (is_next_due (mem_counts self.old).plan) ⊎ Rose (mem_counts self.old).starved (mem_counts self.new).starved) ⊎ (file_at (mem_reads self.old) Role.Fresh ≡ None)) }
        ensures counted { IsCalled (is_ok result) self.old self.new }
        ensures cause { HasCause (mem_faults self.old) (mem_faults self.new) result }
    {
        self.gate.admit()?;
        let outcome = self.store.rename_fresh();
        self.gate.settle(outcome)
    }
}

impl Disk for MemDisk {
    ghost use Rattle.edge_memory.specs.MemDisk.{IsCalled};

    ghost tells = { true };

    ghost reads = { λ m. reads_after (files_of m.store.start) (newest_first m.store.calls.items) };

    ghost images = { λ m c. ImagesAfter (files_of m.store.start) (newest_first m.store.calls.items) c };

    ghost moment = { λ m. length m.store.calls.items };

    ghost since = { λ m t c. SinceAfter (files_of m.store.start) (newest_first m.store.calls.items) t c };

    ghost next = { λ m. next_number m.store.calls.items };

    ghost faults = { λ m. m.gate.faults };

    ghost is_due = { λ m. is_next_due m.gate.plan };

    ghost excuse = { λ old new. IsTrue (is_next_due old.gate.plan) ⊎ Rose old.gate.starved new.gate.starved };

    ghost read_excuse = { λ old new. IsTrue (is_next_due old.gate.plan) };

    ghost counted = { IsCalled };

    ghost reads_now = { λ m. reads_now_reversed m.store.start m.store.calls.items };

    ghost counts_now = { λ m t c le now. counts_now_reversed m.store.start m.store.calls.items t c le now };

    ghost only_now = { λ m c left. only_now_reversed m.store.start m.store.calls.items c left };

    ghost numbered = { λ m c left. numbered_reversed m.store.start m.store.calls.items c left };

    fn length(&mut self, role: Role) -> Result<Option<u64>, Failed> {
        self.gate.admit()?;
        Ok(self.store.file(role).map(|file| file.len() as u64))
    }

    fn read_at(&mut self, role: Role, at: u64, buf: &mut [u8]) -> Result<usize, Failed> {
        self.gate.admit()?;
        let outcome = self.store.read_at(role, at, buf);
        self.gate.settle(outcome)
    }

    fn write_at(&mut self, role: Role, at: u64, bytes: &[u8]) -> Result<(), Failed> {
        self.gate.admit()?;
        let outcome = self.store.write_at(role, at, bytes);
        self.gate.settle(outcome)
    }

    fn cut(&mut self, role: Role, len: u64) -> Result<(), Failed> {
        self.gate.admit()?;
        let outcome = self.store.cut(role, len);
        self.gate.settle(outcome)
    }

    fn sync(&mut self, role: Role) -> Result<(), Failed> {
        self.gate.admit()?;
        let outcome = self.store.sync(role);
        self.gate.settle(outcome)
    }

    fn create(&mut self, role: Role) -> Result<(), Failed> {
        self.gate.admit()?;
        let outcome = self.store.create(role);
        self.gate.settle(outcome)
    }

    fn remove(&mut self, role: Role) -> Result<(), Failed> {
        self.gate.admit()?;
        let outcome = self.store.remove(role);
        self.gate.settle(outcome)
    }

    fn rename_fresh(&mut self) -> Result<(), Failed> {
        self.gate.admit()?;
        let outcome = self.store.rename_fresh();
        self.gate.settle(outcome)
    }

    fn sync_folder(&mut self) -> Result<(), Failed> {
        self.gate.admit()?;
        let outcome = self.store.sync_folder();
        self.gate.settle(outcome)
    }
}
