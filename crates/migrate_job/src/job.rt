// A file is migrated.
ghost use Rattle.std.specs.Prelude.{◌≡◌, ◌⊎◌, ◌≤◌, ◌*◌, ℕ, List, true, Some, Err, IfOk, IfErr, OnOk, IsTrue, length};
ghost use Rattle.cipher_profile.specs.Profile.{IsListed};
ghost use Rattle.db_format.specs.Header.{header_fields};
ghost use Rattle.db_format.specs.Source.{no_pins};
ghost use Rattle.fresh_disk.specs.Place.{LeavesOld, MayTakePlace, TakesPlace};
ghost use Rattle.edge_model.specs.Causes.{Rose};
ghost use Rattle.edge_model.specs.Files.{bytes_of, main_of};
ghost use Rattle.edge_model.specs.Images.{Each};
ghost use Rattle.edge_model.specs.OnlyRead.{OnlyRead};
ghost use Rattle.fresh_disk.specs.Beside.{IsNewBeside};
ghost use Rattle.fresh_file.specs.Draws.{HasOwnDraws};
ghost use Rattle.fresh_file.specs.State.{most_pages};
ghost use Rattle.page_codec.specs.Page.{keys_of};
ghost use Rattle.pager.specs.Drawn.{drawn_since};
ghost use Rattle.pager.specs.Beside.{Beside};
ghost use Rattle.pager.specs.Held.{pins_of};
ghost use Rattle.pager.specs.Opening.{HasNoJournal};
ghost use Rattle.pager.specs.PagesOf.{pages_of};
ghost use Rattle.migrate_job.specs.Migrated.{IsMigrated};
ghost use Rattle.migrate_job.specs.Stops.{IsMigrateShown, is_early_stop};

use crate::checking::check_database;
use crate::error::MigrateError;
use crate::renewing::write_beside;
use cipher_profile::{Profile, Secret};
use edge_model::{Disk, Entropy};
use fresh_disk::publish;
use pager::Pager;
use std::alloc::Global;

/// Writes the database of a file anew, in another profile and under another secret, and puts it in the file's place. It is written
/// beside, whole and synced, before it takes Main's place; where an image has no journal, it has the old file or the new one at every
/// moment. The salt is drawn first, then the bytes of each page. It holds one page a level, one payload and the schema in memory, at any
/// file size. The disk and the entropy come back in any case. Ok is how many pages the new file has.
pub fn migrate<'d, D: Disk, E: Entropy>(
    alloc: Global,
    pager: Pager<'d, D, E>,
    profile: Profile,
    secret: &Secret,
) -> (&'d mut D, &'d mut E, Result<u32, MigrateError>)
    requires listed { IsListed profile }
    requires unpinned { pins_of pager.cache.held ≡ no_pins }
    requires alone { IsTrue D.tells → Each (D.images pager.disk.now) HasNoJournal }
    requires header { IsTrue D.tells → pager.header ≡ header_fields ((pages_of pager).page 1) }
    ensures disk { result.0.ghost_name ≡ pager.entry.disk.ghost_name }
    ensures entropy { result.1.ghost_name ≡ pager.entry.entropy.ghost_name }
    // what Ok comes to: no part of the old database has a defect, and one migrated file has taken Main's place
    ensures migrated { OnOk result.2 (IsTrue D.tells → TakesPlace D.reads D.images D.moment D.since
        (IsMigrated profile secret.now pager.entry.header (pages_of pager.entry)) pager.entry.disk.now result.0.now) }
    ensures counts { IfOk result.2 (λ count. IsTrue D.tells → length (main_of (D.reads result.0.now)) ≡ count * profile.page_size) }
    ensures own_draws { OnOk result.2 (IsTrue D.tells → IsTrue E.tells
        → HasOwnDraws (keys_of profile secret.now (main_of (D.reads result.0.now))) (main_of (D.reads result.0.now))
        (drawn_since (E.drawn pager.entry.entropy.now) (E.drawn result.1.now))) }
    // each moment: the files of the start, or one migrated file, each page of which has drawn bytes of its own; after an error that is no
    // fault of the disk those of the start alone
    ensures any_moment { IsTrue D.tells → LeavesOld D.reads D.images D.moment D.since pager.entry.disk.now result.0.now ⊎ MayTakePlace D.images D.moment D.since
        (λ file. IsMigrated profile secret.now pager.entry.header (pages_of pager.entry) file
        × (IsTrue E.tells → HasOwnDraws (keys_of profile secret.now file) file (drawn_since (E.drawn pager.entry.entropy.now) (E.drawn result.1.now))))
        pager.entry.disk.now result.0.now }
    ensures only_old { IfErr result.2 (λ e. (e ≡ MigrateError.DiskFault → ⊥) → IsTrue D.tells
        → LeavesOld D.reads D.images D.moment D.since pager.entry.disk.now result.0.now) }
    // why it stopped, and what that leaves
    ensures shown { IfErr result.2 (λ e. IsTrue D.tells → IsMigrateShown profile (pages_of pager.entry) e) }
    ensures limit { (limit : ℕ) → result.2 ≡ Err (MigrateError.TooManyPages limit) → limit ≡ most_pages profile }
    ensures early { IfErr result.2 (λ e. is_early_stop e ≡ true → IsTrue D.tells
        → OnlyRead D.reads D.images D.moment D.since pager.entry.disk.now result.0.now × (result.1.now ≡ pager.entry.entropy.now)) }
    ensures disk_fault { result.2 ≡ Err MigrateError.DiskFault → Rose (D.faults pager.entry.disk.now) (D.faults result.0.now) }
    ensures entropy_fault { result.2 ≡ Err MigrateError.EntropyFault → Rose (E.faults pager.entry.entropy.now) (E.faults result.1.now) }
    ensures disk_later { D.faults pager.entry.disk.now ≤ D.faults result.0.now }
    ensures entropy_later { E.faults pager.entry.entropy.now ≤ E.faults result.1.now }
{
    let mut pager = pager;
    match write_new(alloc, &mut pager, profile, secret) {
        Ok(count) => {
            let (disk, entropy) = pager.into_parts();
            match publish(&mut *disk) {
                Ok(()) => (disk, entropy, Ok(count)),
                Err(_) => (disk, entropy, Err(MigrateError::DiskFault)),
            }
        }
        Err(error) => {
            let (disk, entropy) = pager.into_parts();
            (disk, entropy, Err(error))
        }
    }
}

// The database is checked, and then stands in Fresh in the new profile, synced.
fn write_new<'d, D: Disk, E: Entropy>(
    alloc: Global,
    pager: &mut Pager<'d, D, E>,
    profile: Profile,
    secret: &Secret,
) -> Result<u32, MigrateError>
    requires listed { IsListed profile }
    requires unpinned { pins_of pager.old.cache.held ≡ no_pins }
    requires header { IsTrue D.tells → pager.old.header ≡ header_fields ((pages_of pager.old).page 1) }
    ensures written { OnOk result (IsTrue D.tells → IsNewBeside D.reads D.images (IsMigrated profile secret.now pager.old.header (pages_of pager.old)) pager.new.disk.now) }
    ensures size { IfOk result (λ count. IsTrue D.tells → (file : List ℕ) → bytes_of (D.reads pager.new.disk.now).fresh ≡ Some file
        → length file ≡ count * profile.page_size) }
    ensures own_draws { OnOk result (IsTrue D.tells → IsTrue E.tells → (file : List ℕ) → bytes_of (D.reads pager.new.disk.now).fresh ≡ Some file
        → HasOwnDraws (keys_of profile secret.now file) file (drawn_since (E.drawn pager.old.entropy.now) (E.drawn pager.new.entropy.now))) }
    ensures shown { IfErr result (λ e. IsTrue D.tells → IsMigrateShown profile (pages_of pager.old) e) }
    ensures limit { (limit : ℕ) → result ≡ Err (MigrateError.TooManyPages limit) → limit ≡ most_pages profile }
    ensures early { IfErr result (λ e. is_early_stop e ≡ true → IsTrue D.tells
        → OnlyRead D.reads D.images D.moment D.since pager.old.disk.now pager.new.disk.now × (pager.new.entropy.now ≡ pager.old.entropy.now)) }
    ensures disk_fault { result ≡ Err MigrateError.DiskFault → Rose (D.faults pager.old.disk.now) (D.faults pager.new.disk.now) }
    ensures entropy_fault { result ≡ Err MigrateError.EntropyFault → Rose (E.faults pager.old.entropy.now) (E.faults pager.new.entropy.now) }
    ensures beside { Beside D.tells E.tells D.reads D.images D.moment D.since E.drawn pager.old.disk pager.new.disk pager.old.entropy pager.new.entropy }
    ensures disk_later { D.faults pager.old.disk.now ≤ D.faults pager.new.disk.now }
    ensures entropy_later { E.faults pager.old.entropy.now ≤ E.faults pager.new.entropy.now }
{
    let schema = match check_database(alloc, pager) {
        Ok(schema) => schema,
        Err(error) => return Err(error),
    };
    write_beside(alloc, pager, profile, secret, &schema)
}
