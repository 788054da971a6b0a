// A second file, written while the others are read.
ghost use Rattle.std.specs.Prelude.{◌≡◌, ◌++◌, ℕ, Bool, List, [], Option, Some, IsTrue, OnOk, OnErr, length};
ghost use Rattle.std.specs.Option.{option_map};
ghost use Rattle.edge_model.specs.Causes.{HasCause};
ghost use Rattle.edge_model.specs.Files.{written};
ghost use Rattle.fresh_disk.specs.Torn.{MayTear};

use edge_model::Failed;

/// Fresh and an entropy, in the hands of one who reads Main besides. Offsets are in bytes.
pub trait Side {
    /// Whether clauses on bytes of Fresh hold.
    ghost tells: { Bool };

    /// Whether clauses on drawn bytes hold.
    ghost draws_tell: { Bool };

    /// What Fresh reads as.
    ghost fresh: { Self → Option (List ℕ) };

    /// Fresh has no byte unsynced.
    ghost synced: { Self → Type 0 };

    /// The bytes that were drawn so far.
    ghost drawn: { Self → List ℕ };

    /// How often the disk has failed.
    ghost disk_faults: { Self → ℕ };

    /// How often the entropy has failed.
    ghost draw_faults: { Self → ℕ };

    /// From the one to the other only Fresh changed, the entropy and the counts: Main and Journal read as before, and at each
    /// moment in between an image has them as one had them before.
    ghost only_fresh: { Self → Self → Type 0 };

    /// Fresh is an empty file. One that an earlier stop left is removed first, and the folder synced.
    fn side_create(&mut self) -> Result<(), Failed>
        ensures done { OnOk result (IsTrue tells → fresh self.new ≡ Some []) }
        ensures drawn { drawn self.new ≡ drawn self.old }
        ensures kept { only_fresh self.old self.new }
        ensures draw_faults { draw_faults self.new ≡ draw_faults self.old }
        ensures cause { HasCause (disk_faults self.old) (disk_faults self.new) result };

    /// The bytes stand in Fresh at the offset.
    fn side_write(&mut self, at: u64, bytes: &[u8]) -> Result<(), Failed>
        ensures done { OnOk result (IsTrue tells → fresh self.new ≡ option_map (written at bytes.now) (fresh self.old)) }
        ensures torn { IsTrue tells → MayTear at (length bytes.now) (fresh self.old) (fresh self.new) }
        ensures drawn { drawn self.new ≡ drawn self.old }
        ensures kept { only_fresh self.old self.new }
        ensures draw_faults { draw_faults self.new ≡ draw_faults self.old }
        ensures cause { HasCause (disk_faults self.old) (disk_faults self.new) result };

    /// No byte of Fresh is unsynced.
    fn side_sync(&mut self) -> Result<(), Failed>
        ensures done { OnOk result (IsTrue tells → synced self.new) }
        ensures same { IsTrue tells → fresh self.new ≡ fresh self.old }
        ensures drawn { drawn self.new ≡ drawn self.old }
        ensures kept { only_fresh self.old self.new }
        ensures draw_faults { draw_faults self.new ≡ draw_faults self.old }
        ensures cause { HasCause (disk_faults self.old) (disk_faults self.new) result };

    /// Fills the whole buffer with the next random bytes.
    fn draw(&mut self, buf: &mut [u8]) -> Result<(), Failed>
        ensures done { OnOk result (IsTrue draws_tell → drawn self.new ≡ drawn self.old ++ buf.new) }
        ensures failed { OnErr result (IsTrue draws_tell → drawn self.new ≡ drawn self.old) }
        ensures same { IsTrue tells → fresh self.new ≡ fresh self.old }
        ensures kept { only_fresh self.old self.new }
        ensures disk_faults { disk_faults self.new ≡ disk_faults self.old }
        ensures cause { HasCause (draw_faults self.old) (draw_faults self.new) result };

    /// Nothing changed at all.
    ghost stays: { (s : Self) → only_fresh s s };

    /// One run after another.
    ghost joins: { (a b c : Self) → only_fresh a b → only_fresh b c → only_fresh a c };
}
