// A database is made where no file is.
ghost use Rattle.std.specs.Prelude.{◌≡◌, ◌⊎◌, ◌≤◌, ◌<◌, ◌++◌, ℕ, true, false, is_some, None, Some, Err, IfOk, IfErr, OnOk, OnErr, IsTrue, length};
ghost use Rattle.cipher_profile.specs.Profile.{IsListed, is_clear, usable};
ghost use Rattle.edge_model.specs.Causes.{Rose};
ghost use Rattle.edge_model.specs.Files.{file_at, main_of};
ghost use Rattle.edge_model.specs.OnlyRead.{OnlyRead};
ghost use Rattle.db_maker.specs.Pages.{made_pages};
ghost use Rattle.db_maker.specs.Rows.{total_len};
ghost use Rattle.page_codec.specs.Page.{keys_of, magic};
ghost use Rattle.fresh_file.specs.Draws.{HasOwnDraws};
ghost use Rattle.make_job.specs.Made.{IsMade};
ghost use Rattle.fresh_disk.specs.Place.{TakesPlace, LeavesOld, MayTakePlace};
ghost use Rattle.fresh_file.specs.State.{most_pages};
ghost use Rattle.make_job.specs.Stops.{in_the_way, is_make_refusal};
ghost use Rattle.pager.specs.Drawn.{drawn_since};

use crate::error::MakeError;
use crate::publishing::publish_rows;
use cipher_profile::{Profile, Secret};
use db_maker::Made;
use edge_model::{Disk, Entropy, Role};
use page_codec::{Codec, MAGIC};
use std::alloc::Global;

/// Makes a database of `rows` rows, where there is neither a Main nor a Journal. It is written beside, whole and synced, before it takes
/// Main's place. The salt is drawn first, then the bytes of each page; a plain file takes none.
pub fn make<D: Disk, E: Entropy>(
    alloc: Global,
    profile: Profile,
    secret: &Secret,
    rows: u32,
    disk: &mut D,
    entropy: &mut E,
) -> Result<Made, MakeError>
    requires { IsListed profile }
    // what Ok comes to: the made file alone is there
    ensures counts { IfOk result (λ made. (made.rows ≡ rows) × (made.bytes ≡ total_len rows)) }
    ensures made { OnOk result (IsTrue D.tells → TakesPlace D.reads D.images D.moment D.since (IsMade profile secret.now rows) disk.old disk.new) }
    ensures own_draws { OnOk result (IsTrue D.tells → IsTrue E.tells
        → HasOwnDraws (keys_of profile secret.now (main_of (D.reads disk.new))) (main_of (D.reads disk.new)) (drawn_since (E.drawn entropy.old) (E.drawn entropy.new))) }
    // each moment: the files of the start, or one made file, each page of which has drawn bytes of its own; after an error that is no fault
    // of the disk those of the start alone
    ensures any_moment { IsTrue D.tells → LeavesOld D.reads D.images D.moment D.since disk.old disk.new ⊎ MayTakePlace D.images D.moment D.since
        (λ file. IsMade profile secret.now rows file × (IsTrue E.tells → HasOwnDraws (keys_of profile secret.now file) file (drawn_since (E.drawn entropy.old) (E.drawn entropy.new))))
        disk.old disk.new }
    ensures only_old { IfErr result (λ e. (e ≡ MakeError.DiskFault → ⊥) → IsTrue D.tells → LeavesOld D.reads D.images D.moment D.since disk.old disk.new) }
    // a file in the way: it is answered, the disk was only read, and nothing was drawn
    ensures stopped { (e : MakeError) → IsTrue D.tells → in_the_way (D.reads disk.old) ≡ Some e
        → ((result ≡ Err e) ⊎ (result ≡ Err MakeError.DiskFault)) × OnlyRead D.reads D.images D.moment D.since disk.old disk.new × (entropy.new ≡ entropy.old) }
    ensures there { IfErr result (λ e. is_make_refusal e ≡ true → IsTrue D.tells → in_the_way (D.reads disk.old) ≡ Some e) }
    ensures undrawn { IfErr result (λ e. is_make_refusal e ≡ true → entropy.new ≡ entropy.old) }
    // why else it stopped
    ensures limit { (limit : ℕ) → result ≡ Err (MakeError.TooManyPages limit) → (limit ≡ most_pages profile) × (most_pages profile < made_pages (usable profile) rows) }
    ensures disk_fault { result ≡ Err MakeError.DiskFault → Rose (D.faults disk.old) (D.faults disk.new) }
    ensures entropy_fault { result ≡ Err MakeError.EntropyFault → Rose (E.faults entropy.old) (E.faults entropy.new) }
    ensures disk_later { D.faults disk.old ≤ D.faults disk.new }
    ensures entropy_later { E.faults entropy.old ≤ E.faults entropy.new }
{
    look_for_files(disk)?;
    let salt = new_salt(&profile, entropy)?;
    let codec = Codec::of_secret(profile, secret, salt);
    let made = publish_rows(alloc, codec, rows, disk, entropy)?;
    Ok(made)
}

// Whether a file stands in the way.
fn look_for_files<D: Disk>(disk: &mut D) -> Result<(), MakeError>
    ensures free { OnOk result (IsTrue D.tells → in_the_way (D.reads disk.old) ≡ None) }
    ensures there { IfErr result (λ e. (e ≡ MakeError.DiskFault → ⊥) → (is_make_refusal e ≡ true) × (IsTrue D.tells → in_the_way (D.reads disk.old) ≡ Some e)) }
    ensures read { IsTrue D.tells → OnlyRead D.reads D.images D.moment D.since disk.old disk.new }
    ensures fault { result ≡ Err MakeError.DiskFault → Rose (D.faults disk.old) (D.faults disk.new) }
    ensures later { D.faults disk.old ≤ D.faults disk.new }
{
    if has_file(disk, Role::Main)? {
        return Err(MakeError::FileThere);
    }
    if has_file(disk, Role::Journal)? {
        return Err(MakeError::JournalThere);
    }
    Ok(())
}

// Whether there is a file in the role.
fn has_file<D: Disk>(disk: &mut D, role: Role) -> Result<bool, MakeError>
    ensures told { IfOk result (λ there. IsTrue D.tells → there ≡ is_some (file_at (D.reads disk.old) role)) }
    ensures read { IsTrue D.tells → OnlyRead D.reads D.images D.moment D.since disk.old disk.new }
    ensures error { IfErr result (λ e. e ≡ MakeError.DiskFault) }
    ensures fault { OnErr result (Rose (D.faults disk.old) (D.faults disk.new)) }
    ensures later { D.faults disk.old ≤ D.faults disk.new }
{
    match disk.length(role) {
        Ok(length) => Ok(length.is_some()),
        Err(_) => Err(MakeError::DiskFault),
    }
}

// The 16 bytes of a new salt, which are drawn; where the file holds none, they are the magic.
fn new_salt<E: Entropy>(profile: &Profile, entropy: &mut E) -> Result<[u8; 16], MakeError>
    ensures drawn { IfOk result (λ salt. is_clear profile.now ≡ false → IsTrue E.tells → E.drawn entropy.new ≡ E.drawn entropy.old ++ salt) }
    ensures clear { IfOk result (λ salt. is_clear profile.now ≡ true → salt ≡ magic) }
    ensures undrawn { IfOk result (λ salt. is_clear profile.now ≡ true → E.drawn entropy.new ≡ E.drawn entropy.old) }
    ensures error { IfErr result (λ e. e ≡ MakeError.EntropyFault) }
    ensures fault { OnErr result (Rose (E.faults entropy.old) (E.faults entropy.new)) }
    ensures later { E.faults entropy.old ≤ E.faults entropy.new }
{
    if profile.is_clear() {
        return Ok(MAGIC);
    }
    let mut salt = [0u8; 16];
    match entropy.fill(&mut salt) {
        Ok(()) => Ok(salt),
        Err(_) => Err(MakeError::EntropyFault),
    }
}
