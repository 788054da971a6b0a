// The calls of the system that a folder of three files makes. Each is one call of the system.
ghost use Rattle.std.specs.Prelude.{◌≡◌, ◌⊎◌, ◌≤◌, [], ℕ, Bool, false, List, Option, None, Some, length, take, drop, IfOk, OnOk, OnErr, IsErr, IsTrue, is_some};
ghost use Rattle.std.specs.Option.{option_map};
ghost use Rattle.edge_model.specs.Files.{Files, file_at, length_of, contents, written, created, removed, renamed, Torn, Shorter};
ghost use Rattle.edge_model.specs.Images.{Each, Follows, Renames, SameNames, IsNumbered, SameImages, Passes};
ghost use Rattle.system_calls.specs.Found.{found_length};
ghost use Rattle.system_calls.specs.System.{System, name_at, seen, opened, opening, closing, moving, making, naming, renaming, OneStep, Becomes, FileSteps, FileSynced};

use crate::{Fault, Found};
use edge_model::Role;
use std::io::Error;

/// A folder with three names, and a place for each where a file may be open. A file keeps its number under every name, and
/// while it is open also without one.
///
/// A call that failed may have been done, in part or whole, or not at all. Nobody else acts. A call that takes `&self` changes no name, no
/// byte and nothing that a stop may leave.
pub trait Calls {
    ghost use Rattle.system_calls.specs.declared.found.Found.{Found};

    /// Whether clauses on files hold. The calls of a real system tell nothing.
    ghost tells: { Bool };

    /// The names, what is open, and the bytes of each file.
    ghost system: { Self → System };

    /// What a stop of the machine at this moment may leave under the names.
    ghost images: { Self → Files → Type 0 };

    /// The moment, as a number that does not fall.
    ghost moment: { Self → ℕ };

    /// What a stop of the machine at some moment from that one on might have left.
    ghost since: { Self → ℕ → Files → Type 0 };

    /// Whether a sync has failed. What it was to save may be lost for good, and a later sync may succeed without it.
    ghost is_spoilt: { Self → Bool };

    /// The number of the file that is created next.
    ghost next: { Self → ℕ };

    /// What a look tells of the file with this number.
    ghost found: { Self → ℕ → Found };

    /// Whether a file is open in this place.
    fn is_open(&self, place: Role) -> bool
        ensures told { IsTrue tells → result ≡ is_some (name_at (system self.now).places place) };

    /// `lstat`: what has this name, none where nothing has it.
    fn look(&self, name: Role) -> Result<Option<Found>, Fault>
        ensures told { IfOk result (λ found. IsTrue tells → found_length found ≡ length_of (file_at (seen (system self.now)) name)) }
        ensures which { IfOk result (λ what. IsTrue tells → what ≡ option_map (found self.now) (name_at (system self.now).names name)) };

    /// `fstat` of the open file.
    fn look_open(&self, place: Role) -> Result<Found, Fault>
        ensures told { IfOk result (λ found. IsTrue tells → found_length (Some found) ≡ length_of (opened (system self.now) place)) }
        ensures which { IfOk result (λ what. IsTrue tells → Some what ≡ option_map (found self.now) (name_at (system self.now).places place)) };

    /// `pread`: some of the bytes from an offset on, and none only at the end of the file or where none are asked for.
    fn read_some(&self, place: Role, at: u64, buf: &mut [u8]) -> Result<usize, Fault>
        ensures count { IfOk result (λ count. count ≤ length buf.old) }
        ensures told { IfOk result (λ count. IsTrue tells → take count buf.new ≡ take count (drop at (contents (opened (system self.now) place)))) }
        ensures end { IfOk result (λ count. IsTrue tells → count ≡ 0 → (length buf.old ≡ 0) ⊎ (length (contents (opened (system self.now) place)) ≤ at)) };

    /// `flock` of the open file as a whole, against another run of this program: whether it is had.
    fn lock(&self, place: Role) -> Result<bool, Fault>;

    /// `fchown` and `fchmod`: the open file gets the mode of the other one, and its owner where this process may give it away.
    fn give(&self, place: Role, like: &Found) -> Result<(), Fault>;

    /// `open` of what has this name, for its place: for reading and writing, or for reading alone where that is wanted or nothing else is
    /// allowed. It answers why the file can't be written then.
    fn open(&mut self, name: Role, is_only_read: bool) -> Result<Option<Error>, Fault>
        ensures done { OnOk result (IsTrue tells → system self.new ≡ opening name (system self.old)) }
        ensures not_done { OnErr result (IsTrue tells → system self.new ≡ system self.old) }
        ensures absent { IsTrue tells → name_at (system self.old).names name ≡ None → IsErr result }
        ensures next { IsTrue tells → next self.new ≡ next self.old }
        ensures crash { IsTrue tells → SameImages (images self.old) (images self.new) }
        ensures spoilt { IsTrue tells → is_spoilt self.new ≡ is_spoilt self.old }
        ensures time { IsTrue tells → Passes images moment since self.old self.new };

    /// `close`: nothing is open in this place.
    fn close(&mut self, place: Role)
        ensures done { IsTrue tells → system self.new ≡ closing place (system self.old) }
        ensures next { IsTrue tells → next self.new ≡ next self.old }
        ensures crash { IsTrue tells → SameImages (images self.old) (images self.new) }
        ensures spoilt { IsTrue tells → is_spoilt self.new ≡ is_spoilt self.old }
        ensures time { IsTrue tells → Passes images moment since self.old self.new };

    /// The open file goes from the place of Fresh to that of Main, where the one that was open is closed. No call of the system but `close`.
    fn move_fresh(&mut self)
        ensures done { IsTrue tells → system self.new ≡ moving (system self.old) }
        ensures crash { IsTrue tells → SameImages (images self.old) (images self.new) }
        ensures spoilt { IsTrue tells → is_spoilt self.new ≡ is_spoilt self.old }
        ensures time { IsTrue tells → Passes images moment since self.old self.new };

    /// `pwrite`, until all is written. Until a sync, a stop may leave any bytes in the range and past the old end.
    fn write_all(&mut self, place: Role, at: u64, bytes: &[u8]) -> Result<(), Fault>
        ensures done { OnOk result (IsTrue tells → OneStep (Becomes (written at bytes.now)) place (system self.old) (system self.new)) }
        ensures others { IsTrue tells → OneStep (Torn at (length bytes.now)) place (system self.old) (system self.new) }
        ensures crash { IsTrue tells → Follows (FileSteps (Torn at (length bytes.now)) (opened (system self.old) place)) (images self.old) (images self.new) }
        ensures spoilt { IsTrue tells → is_spoilt self.new ≡ is_spoilt self.old }
        ensures time { IsTrue tells → Passes images moment since self.old self.new };

    /// `ftruncate`, to a length that is no greater than the file's.
    fn set_len(&mut self, place: Role, len: u64) -> Result<(), Fault>
        requires { IsTrue tells → len ≤ length (contents (opened (system self.old) place)) }
        ensures done { OnOk result (IsTrue tells → OneStep (Becomes (take len)) place (system self.old) (system self.new)) }
        ensures others { IsTrue tells → OneStep (Shorter len) place (system self.old) (system self.new) }
        ensures crash { IsTrue tells → Follows (FileSteps (Shorter len) (opened (system self.old) place)) (images self.old) (images self.new) }
        ensures spoilt { IsTrue tells → is_spoilt self.new ≡ is_spoilt self.old }
        ensures time { IsTrue tells → Passes images moment since self.old self.new };

    /// `fsync`: no byte of the open file is unsynced, under whatever name an image has it.
    fn sync(&mut self, place: Role) -> Result<(), Fault>
        ensures done { OnOk result (IsTrue tells → is_spoilt self.old ≡ false → Each (images self.new) (FileSynced (opened (system self.old) place))) }
        ensures same { IsTrue tells → system self.new ≡ system self.old }
        ensures crash { IsTrue tells → Each (images self.new) (images self.old) }
        ensures spoilt { OnOk result (IsTrue tells → is_spoilt self.new ≡ is_spoilt self.old) }
        ensures time { IsTrue tells → Passes images moment since self.old self.new };

    /// `open` of a new file, which fails where something has the name. It has these bits of mode, or the usual ones.
    fn create_new(&mut self, name: Role, mode: Option<u32>) -> Result<(), Fault>
        ensures done { OnOk result (IsTrue tells → system self.new ≡ making name (next self.old) (system self.old)) }
        ensures others { OnErr result (IsTrue tells → (system self.new ≡ system self.old) ⊎ (system self.new ≡ naming name (Some (next self.old)) (system self.old))) }
        ensures there { IsTrue tells → IsTrue (is_some (name_at (system self.old).names name)) → IsErr result × (system self.new ≡ system self.old) }
        ensures crash { IsTrue tells → Follows (Renames (created name (next self.old)) (seen (system self.old))) (images self.old) (images self.new) }
        ensures spoilt { IsTrue tells → is_spoilt self.new ≡ is_spoilt self.old }
        ensures time { IsTrue tells → Passes images moment since self.old self.new };

    /// `unlink`. What is open stays so.
    fn remove(&mut self, name: Role) -> Result<(), Fault>
        ensures done { OnOk result (IsTrue tells → system self.new ≡ naming name None (system self.old)) }
        ensures others { OnErr result (IsTrue tells → (system self.new ≡ system self.old) ⊎ (system self.new ≡ naming name None (system self.old))) }
        ensures absent { IsTrue tells → name_at (system self.old).names name ≡ None → IsErr result }
        ensures crash { IsTrue tells → Follows (Renames (removed name) (seen (system self.old))) (images self.old) (images self.new) }
        ensures spoilt { IsTrue tells → is_spoilt self.new ≡ is_spoilt self.old }
        ensures time { IsTrue tells → Passes images moment since self.old self.new };

    /// `rename` of Fresh to Main, in the place of what stands there; or, where nothing is to stand there, by a second name that is made
    /// and a first one that goes, so that a name that was taken meanwhile is not renamed over. What is open stays so.
    fn rename_fresh(&mut self, is_to_replace: bool) -> Result<(), Fault>
        ensures done { OnOk result (IsTrue tells → system self.new ≡ renaming (system self.old)) }
        ensures others { OnErr result (IsTrue tells → (system self.new ≡ system self.old) ⊎ (system self.new ≡ renaming (system self.old))) }
        ensures absent { IsTrue tells → (system self.old).names.fresh ≡ None → IsErr result }
        ensures crash { IsTrue tells → Follows (Renames renamed (seen (system self.old))) (images self.old) (images self.new) }
        ensures spoilt { IsTrue tells → is_spoilt self.new ≡ is_spoilt self.old }
        ensures time { IsTrue tells → Passes images moment since self.old self.new };

    /// `open` and `fsync` of the folder: each image has every create, remove and rename so far.
    fn sync_folder(&mut self) -> Result<(), Fault>
        ensures done { OnOk result (IsTrue tells → is_spoilt self.old ≡ false → Each (images self.new) (SameNames (seen (system self.old)))) }
        ensures same { IsTrue tells → system self.new ≡ system self.old }
        ensures crash { IsTrue tells → Each (images self.new) (images self.old) }
        ensures spoilt { OnOk result (IsTrue tells → is_spoilt self.new ≡ is_spoilt self.old) }
        ensures time { IsTrue tells → Passes images moment since self.old self.new };

    /// What the names lead to is one of the images.
    ghost reads_now: { (calls : Self) → images calls (seen (system calls)) };

    /// This moment is one of those since an earlier one.
    ghost counts_now: { (calls : Self) (t : ℕ) (c : Files) → t ≤ moment calls → images calls c → since calls t c };

    /// Since this moment there is no other.
    ghost only_now: { (calls : Self) (c : Files) → since calls (moment calls) c → images calls c };

    /// No image has a file with the next number, nor one file under two names.
    ghost numbered: { (calls : Self) (c : Files) → images calls c → IsNumbered (next calls) c };

    /// A file that is not made yet has no byte.
    ghost unborn: { (calls : Self) → (system calls).held (next calls) ≡ [] };
}
