// A database is written beside, and takes Main's place.
ghost use Rattle.std.specs.Prelude.{◌≡◌, ◌⊎◌, ◌≤◌, ◌<◌, ℕ, false, None, Some, Err, IfOk, IfErr, OnOk, IsTrue, length};
ghost use Rattle.std.specs.Io.{StartsWith};
ghost use Rattle.edge_model.specs.Causes.{Rose};
ghost use Rattle.edge_model.specs.Files.{File, main_of};
ghost use Rattle.cipher_profile.specs.Profile.{usable};
ghost use Rattle.db_maker.specs.Pages.{made_pages};
ghost use Rattle.db_maker.specs.Rows.{total_len};
ghost use Rattle.fresh_disk.specs.Place.{TakesPlace, LeavesOld, MayTakePlace};
ghost use Rattle.fresh_file.specs.State.{most_pages};
ghost use Rattle.make_job.specs.Stops.{in_the_way, is_make_refusal};
ghost use Rattle.fresh_file.specs.Draws.{AreOwnDraws};
ghost use Rattle.make_job.specs.Written.{IsMadeBeside, IsMadeWith};

use crate::error::MakeError;
use crate::writing::write_rows;
use db_maker::Made;
use edge_model::{Disk, Entropy};
use fresh_disk::{Pair, publish};
use page_codec::Codec;
use std::alloc::Global;

/// The database of so many rows under this codec becomes Main, where no file stands in the way.
pub(crate) fn publish_rows<D: Disk, E: Entropy>(
    alloc: Global,
    codec: Codec,
    rows: u32,
    disk: &mut D,
    entropy: &mut E,
) -> Result<Made, MakeError>
    requires free { IsTrue D.tells → in_the_way (D.reads disk.old) ≡ None }
    ensures counts { IfOk result (λ made. (made.rows ≡ rows) × (made.bytes ≡ total_len rows)) }
    ensures made { OnOk result (IsTrue D.tells → TakesPlace D.reads D.images D.moment D.since (IsMadeWith codec rows) disk.old disk.new) }
    ensures own_draws { OnOk result (IsTrue D.tells → IsTrue E.tells
        → AreOwnDraws codec (main_of (D.reads disk.new)) (length (E.drawn entropy.old)) (E.drawn entropy.new)) }
    ensures grown { IsTrue E.tells → StartsWith (E.drawn entropy.new) (E.drawn entropy.old) }
    ensures any_moment { IsTrue D.tells → LeavesOld D.reads D.images D.moment D.since disk.old disk.new
        ⊎ MayTakePlace D.images D.moment D.since
        (λ file. IsMadeWith codec rows file × (IsTrue E.tells → AreOwnDraws codec file (length (E.drawn entropy.old)) (E.drawn entropy.new))) disk.old disk.new }
    ensures only_old { IfErr result (λ e. (e ≡ MakeError.DiskFault → ⊥) → IsTrue D.tells → LeavesOld D.reads D.images D.moment D.since disk.old disk.new) }
    ensures no_refusal { IfErr result (λ e. is_make_refusal e ≡ false) }
    ensures limit { (limit : ℕ) → result ≡ Err (MakeError.TooManyPages limit) → (limit ≡ most_pages codec.profile) × (most_pages codec.profile < made_pages (usable codec.profile) rows) }
    ensures disk_fault { result ≡ Err MakeError.DiskFault → Rose (D.faults disk.old) (D.faults disk.new) }
    ensures entropy_fault { result ≡ Err MakeError.EntropyFault → Rose (E.faults entropy.old) (E.faults entropy.new) }
    ensures disk_later { D.faults disk.old ≤ D.faults disk.new }
    ensures entropy_later { E.faults entropy.old ≤ E.faults entropy.new }
{
    let made = write_beside(alloc, codec, rows, disk, entropy)?;
    match publish(disk) {
        Ok(()) => Ok(made),
        Err(_) => Err(MakeError::DiskFault),
    }
}

// It stands in Fresh, synced.
fn write_beside<D: Disk, E: Entropy>(
    alloc: Global,
    codec: Codec,
    rows: u32,
    disk: &mut D,
    entropy: &mut E,
) -> Result<Made, MakeError>
    ensures counts { IfOk result (λ made. (made.rows ≡ rows) × (made.bytes ≡ total_len rows)) }
    ensures beside { OnOk result (IsTrue D.tells → IsMadeBeside D.reads D.images codec rows disk.new) }
    ensures own_draws { OnOk result (IsTrue D.tells → IsTrue E.tells → (file : File) → (D.reads disk.new).fresh ≡ Some file
        → AreOwnDraws codec file.bytes (length (E.drawn entropy.old)) (E.drawn entropy.new)) }
    ensures grown { IsTrue E.tells → StartsWith (E.drawn entropy.new) (E.drawn entropy.old) }
    ensures old { IsTrue D.tells → LeavesOld D.reads D.images D.moment D.since disk.old disk.new }
    ensures no_refusal { IfErr result (λ e. is_make_refusal e ≡ false) }
    ensures limit { (limit : ℕ) → result ≡ Err (MakeError.TooManyPages limit) → (limit ≡ most_pages codec.profile) × (most_pages codec.profile < made_pages (usable codec.profile) rows) }
    ensures disk_fault { result ≡ Err MakeError.DiskFault → Rose (D.faults disk.old) (D.faults disk.new) }
    ensures entropy_fault { result ≡ Err MakeError.EntropyFault → Rose (E.faults entropy.old) (E.faults entropy.new) }
    ensures disk_later { D.faults disk.old ≤ D.faults disk.new }
    ensures entropy_later { E.faults entropy.old ≤ E.faults entropy.new }
{
    let mut pair = Pair { disk, entropy };
    let made = write_rows(alloc, &mut pair, codec, rows)?;
    Ok(made)
}
