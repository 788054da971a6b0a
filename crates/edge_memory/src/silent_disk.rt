// A disk that tells nothing.
ghost use Rattle.std.specs.Prelude.{◌≡◌, ◌⊎◌, ◌≤◌, length, take, None, Some, IfOk, OnOk, OnErr, IsErr, IsTrue, false, is_ok, refl};
ghost use Rattle.edge_model.specs.Causes.{HasCause, Rose};
ghost use Rattle.edge_model.specs.Files.{bytes_of, created, file_at, length_of, no_files, put_at, read_from, removed, renamed, with_file_bytes, written};
ghost use Rattle.edge_memory.specs.Gate.{is_next_due};
ghost use Rattle.edge_model.specs.Images.{Each, HasSynced, SameNames};
ghost use Rattle.edge_memory.specs.MemDisk.{IsCalled, mem_counts, mem_faults, mem_images, mem_next, mem_reads};
ghost use Rattle.edge_model.specs.Silent.{nothing_numbered};

use crate::MemDisk;
use edge_model::{Disk, Failed, Role};

/// Passes calls on to a disk in memory, which does each as asked (`inner`). Of bytes a caller learns no more than of real
/// files.
#[derive(Drop)]
pub struct SilentDisk {
    pub inner: MemDisk,
}

impl Disk for SilentDisk {
    ghost tells = { false };

    ghost reads = { λ _. no_files };

    ghost images = { λ _ c. c ≡ no_files };

    ghost moment = { λ _. 0 };

    ghost since = { λ _ _ c. c ≡ no_files };

    ghost next = { λ _. 0 };

    ghost faults = { λ s. mem_faults s.inner };

    ghost is_due = { λ s. is_next_due (mem_counts s.inner).plan };

    ghost excuse = { λ s t. IsTrue (is_next_due (mem_counts s.inner).plan) ⊎ Rose (mem_counts s.inner).starved (mem_counts t.inner).starved };

    ghost counted = { λ done s t. IsCalled done s.inner t.inner };

    ghost reads_now = { λ _. refl };

    ghost counts_now = { λ _ _ _ _ now. now };

    ghost only_now = { λ _ _ left. left };

    ghost numbered = { λ _ c is. nothing_numbered c is };

    fn length(&mut self, role: Role) -> Result<Option<u64>, Failed>
        ensures inner { IfOk result (λ len. len ≡ length_of (file_at (mem_reads self.old.inner) role)) }
        ensures inner_same { mem_reads self.new.inner ≡ mem_reads self.old.inner }
        ensures due { IsTrue (is_next_due (mem_counts self.old.inner).plan) → IsErr result }
        ensures excuse { OnErr result (IsTrue (is_next_due (mem_counts self.old.inner).plan)) }
        ensures counted { IsCalled (is_ok result) self.old.inner self.new.inner }
        ensures cause { HasCause (mem_faults self.old.inner) (mem_faults self.new.inner) result }
    {
        self.inner.length(role)
    }

    fn read_at(&mut self, role: Role, at: u64, buf: &mut [u8]) -> Result<usize, Failed>
        ensures count { IfOk result (λ count. count ≤ length buf.old) }
        ensures inner { IfOk result (λ count. bytes_of (with_file_bytes (read_from at (length buf.old)) (file_at (mem_reads self.old.inner) role)) ≡ Some (take count buf.new)) }
        ensures inner_same { mem_reads self.new.inner ≡ mem_reads self.old.inner }
        ensures due { IsTrue (is_next_due (mem_counts self.old.inner).plan) → IsErr result }
        ensures excuse { OnErr result (IsTrue (is_next_due (mem_counts self.old.inner).plan) ⊎ (file_at (mem_reads self.old.inner) role ≡ None)) }
        ensures counted { IsCalled (is_ok result) self.old.inner self.new.inner }
        ensures cause { HasCause (mem_faults self.old.inner) (mem_faults self.new.inner) result }
    {
        self.inner.read_at(role, at, buf)
    }

    fn write_at(&mut self, role: Role, at: u64, bytes: &[u8]) -> Result<(), Failed>
        ensures inner { OnOk result (mem_reads self.new.inner ≡ put_at (mem_reads self.old.inner) role (with_file_bytes (written at bytes.now) (file_at (mem_reads self.old.inner) role))) }
        ensures due { IsTrue (is_next_due (mem_counts self.old.inner).plan) → IsErr result }
        ensures excuse { OnErr result ((IsTrue (is_next_due (mem_counts self.old.inner).plan) ⊎ Rose (mem_counts self.old.inner).starved (mem_counts self.new.inner).starved) ⊎ (file_at (mem_reads self.old.inner) role ≡ None)) }
        ensures counted { IsCalled (is_ok result) self.old.inner self.new.inner }
        ensures cause { HasCause (mem_faults self.old.inner) (mem_faults self.new.inner) result }
    {
        self.inner.write_at(role, at, bytes)
    }

    fn cut(&mut self, role: Role, len: u64) -> Result<(), Failed>
        ensures inner { OnOk result (mem_reads self.new.inner ≡ put_at (mem_reads self.old.inner) role (with_file_bytes (take len) (file_at (mem_reads self.old.inner) role))) }
        ensures due { IsTrue (is_next_due (mem_counts self.old.inner).plan) → IsErr result }
        ensures excuse { OnErr result ((IsTrue (is_next_due (mem_counts self.old.inner).plan) ⊎ Rose (mem_counts self.old.inner).starved (mem_counts self.new.inner).starved) ⊎ (file_at (mem_reads self.old.inner) role ≡ None)) }
        ensures counted { IsCalled (is_ok result) self.old.inner self.new.inner }
        ensures cause { HasCause (mem_faults self.old.inner) (mem_faults self.new.inner) result }
    {
        self.inner.cut(role, len)
    }

    fn sync(&mut self, role: Role) -> Result<(), Failed>
        ensures inner { OnOk result (Each (mem_images self.new.inner) (HasSynced role (mem_reads self.old.inner))) }
        ensures inner_same { mem_reads self.new.inner ≡ mem_reads self.old.inner }
        ensures due { IsTrue (is_next_due (mem_counts self.old.inner).plan) → IsErr result }
        ensures excuse { OnErr result ((IsTrue (is_next_due (mem_counts self.old.inner).plan) ⊎ Rose (mem_counts self.old.inner).starved (mem_counts self.new.inner).starved) ⊎ (file_at (mem_reads self.old.inner) role ≡ None)) }
        ensures counted { IsCalled (is_ok result) self.old.inner self.new.inner }
        ensures cause { HasCause (mem_faults self.old.inner) (mem_faults self.new.inner) result }
    {
        self.inner.sync(role)
    }

    fn create(&mut self, role: Role) -> Result<(), Failed>
        ensures inner { OnOk result (mem_reads self.new.inner ≡ created role (mem_next self.old.inner) (mem_reads self.old.inner)) }
        ensures due { IsTrue (is_next_due (mem_counts self.old.inner).plan) → IsErr result }
        ensures excuse { OnErr result (IsTrue (is_next_due (mem_counts self.old.inner).plan) ⊎ Rose (mem_counts self.old.inner).starved (mem_counts self.new.inner).starved) }
        ensures counted { IsCalled (is_ok result) self.old.inner self.new.inner }
        ensures cause { HasCause (mem_faults self.old.inner) (mem_faults self.new.inner) result }
    {
        self.inner.create_any(role)
    }

    fn remove(&mut self, role: Role) -> Result<(), Failed>
        ensures inner { OnOk result (mem_reads self.new.inner ≡ removed role (mem_reads self.old.inner)) }
        ensures due { IsTrue (is_next_due (mem_counts self.old.inner).plan) → IsErr result }
        ensures excuse { OnErr result ((IsTrue (is_next_due (mem_counts self.old.inner).plan) ⊎ Rose (mem_counts self.old.inner).starved (mem_counts self.new.inner).starved) ⊎ (file_at (mem_reads self.old.inner) role ≡ None)) }
        ensures counted { IsCalled (is_ok result) self.old.inner self.new.inner }
        ensures cause { HasCause (mem_faults self.old.inner) (mem_faults self.new.inner) result }
    {
        self.inner.remove(role)
    }

    fn rename_fresh(&mut self) -> Result<(), Failed>
        ensures inner { OnOk result (mem_reads self.new.inner ≡ renamed (mem_reads self.old.inner)) }
        ensures due { IsTrue (is_next_due (mem_counts self.old.inner).plan) → IsErr result }
        ensures excuse { OnErr result ((IsTrue (is_next_due (mem_counts self.old.inner).plan) ⊎ Rose (mem_counts self.old.inner).starved (mem_counts self.new.inner).starved) ⊎ (file_at (mem_reads self.old.inner) Role.Fresh ≡ None)) }
        ensures counted { IsCalled (is_ok result) self.old.inner self.new.inner }
        ensures cause { HasCause (mem_faults self.old.inner) (mem_faults self.new.inner) result }
    {
        self.inner.rename_any()
    }

    fn sync_folder(&mut self) -> Result<(), Failed>
        ensures inner { OnOk result (Each (mem_images self.new.inner) (SameNames (mem_reads self.old.inner))) }
        ensures inner_same { mem_reads self.new.inner ≡ mem_reads self.old.inner }
        ensures due { IsTrue (is_next_due (mem_counts self.old.inner).plan) → IsErr result }
        ensures excuse { OnErr result (IsTrue (is_next_due (mem_counts self.old.inner).plan) ⊎ Rose (mem_counts self.old.inner).starved (mem_counts self.new.inner).starved) }
        ensures counted { IsCalled (is_ok result) self.old.inner self.new.inner }
        ensures cause { HasCause (mem_faults self.old.inner) (mem_faults self.new.inner) result }
    {
        self.inner.sync_folder()
    }
}
