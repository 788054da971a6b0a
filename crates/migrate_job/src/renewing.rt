// The database of a file, written beside in another profile.
ghost use Rattle.std.specs.Prelude.{◌≡◌, ◌≤◌, ◌++◌, ◌*◌, ℕ, List, true, false, Some, Err, IfOk, IfErr, OnOk, OnErr, IsTrue, length, map};
ghost use Rattle.std.specs.List.{All};
ghost use Rattle.btree_model.specs.Finding.{entries};
ghost use Rattle.btree_model.specs.Parts.{is_database};
ghost use Rattle.cipher_profile.specs.Profile.{IsListed, is_clear};
ghost use Rattle.db_format.specs.Header.{IsPageSize, header_fields};
ghost use Rattle.db_format.specs.Source.{no_pins};
ghost use Rattle.fresh_disk.specs.OnlyFresh.{IsFreshSynced};
ghost use Rattle.edge_model.specs.Causes.{Rose};
ghost use Rattle.edge_model.specs.Files.{bytes_of};
ghost use Rattle.fresh_disk.specs.Beside.{IsNewBeside, IsNewWritten};
ghost use Rattle.fresh_file.specs.Salted.{IsSalted};
ghost use Rattle.fresh_file.specs.Draws.{AreOwnDraws, HasOwnDraws};
ghost use Rattle.fresh_file.specs.State.{most_pages};
ghost use Rattle.migrate_job.specs.Migrated.{IsMigrated, IsMigratedUnder, migrated_header};
ghost use Rattle.migrate_job.specs.Stops.{IsMigrateShown, is_early_stop};
ghost use Rattle.page_codec.specs.Page.{keys_of, magic};
ghost use Rattle.pager.specs.Drawn.{drawn_since};
ghost use Rattle.pager.specs.Beside.{Beside};
ghost use Rattle.pager.specs.Held.{pins_of};
ghost use Rattle.pager.specs.PagesOf.{pages_of};
ghost use Rattle.schema_map.specs.Census.{schema_after};
ghost use Rattle.schema_map.specs.Schema.{schema_row};

use crate::database::copy_database;
use crate::error::MigrateError;
use cipher_profile::{Profile, Secret};
use db_format::Header;
use edge_model::{Disk, Entropy};
use fresh_disk::Side;
use fresh_file::{CommitFault, FreshState, StartError};
use page_codec::{Codec, MAGIC};
use pager::Pager;
use schema_map::Schema;
use std::alloc::Global;

/// Fresh becomes the old database in this profile and under this secret, synced. The salt is drawn first.
pub(crate) fn write_beside<'d, D: Disk, E: Entropy>(
    alloc: Global,
    pager: &mut Pager<'d, D, E>,
    profile: Profile,
    secret: &Secret,
    schema: &Schema,
) -> Result<u32, MigrateError>
    requires listed { IsListed profile }
    requires unpinned { pins_of pager.old.cache.held ≡ no_pins }
    requires header { IsTrue D.tells → pager.old.header ≡ header_fields ((pages_of pager.old).page 1) }
    requires roots { All (λ row. row.root ≤ pager.old.count) schema.now }
    requires sound { IsTrue D.tells → is_database (pages_of pager.old) ≡ true }
    requires schema { IsTrue D.tells → schema.now ≡ map schema_row (entries (schema_after (pages_of pager.old))) }
    // what Ok comes to
    ensures written { OnOk result (IsTrue D.tells → IsNewBeside D.reads D.images (IsMigrated profile secret.now pager.old.header (pages_of pager.old)) pager.new.disk.now) }
    ensures size { IfOk result (λ count. IsTrue D.tells → (file : List ℕ) → bytes_of (D.reads pager.new.disk.now).fresh ≡ Some file
        → length file ≡ count * profile.page_size) }
    ensures own_draws { OnOk result (IsTrue D.tells → IsTrue E.tells → (file : List ℕ) → bytes_of (D.reads pager.new.disk.now).fresh ≡ Some file
        → HasOwnDraws (keys_of profile secret.now file) file (drawn_since (E.drawn pager.old.entropy.now) (E.drawn pager.new.entropy.now))) }
    // why it stopped
    ensures shown { IfErr result (λ e. IsTrue D.tells → (is_early_stop e ≡ false) × IsMigrateShown profile (pages_of pager.old) e) }
    ensures limit { (limit : ℕ) → result ≡ Err (MigrateError.TooManyPages limit) → limit ≡ most_pages profile }
    ensures disk_fault { result ≡ Err MigrateError.DiskFault → Rose (D.faults pager.old.disk.now) (D.faults pager.new.disk.now) }
    ensures entropy_fault { result ≡ Err MigrateError.EntropyFault → Rose (E.faults pager.old.entropy.now) (E.faults pager.new.entropy.now) }
    // what stays
    ensures beside { Beside D.tells E.tells D.reads D.images D.moment D.since E.drawn pager.old.disk pager.new.disk pager.old.entropy pager.new.entropy }
    ensures disk_later { D.faults pager.old.disk.now ≤ D.faults pager.new.disk.now }
    ensures entropy_later { E.faults pager.old.entropy.now ≤ E.faults pager.new.entropy.now }
{
    let salt = match new_salt(&profile, pager) {
        Ok(salt) => salt,
        Err(error) => return Err(error),
    };
    let codec = Codec::of_secret(profile, secret, salt);
    write_database(alloc, pager, codec, schema)
}

// Fresh becomes the old database under this codec, synced. All memory is taken before the sync.
fn write_database<'d, D: Disk, E: Entropy>(
    alloc: Global,
    pager: &mut Pager<'d, D, E>,
    codec: Codec,
    schema: &Schema,
) -> Result<u32, MigrateError>
    requires unpinned { pins_of pager.old.cache.held ≡ no_pins }
    requires header { IsTrue D.tells → pager.old.header ≡ header_fields ((pages_of pager.old).page 1) }
    requires roots { All (λ row. row.root ≤ pager.old.count) schema.now }
    requires sound { IsTrue D.tells → is_database (pages_of pager.old) ≡ true }
    requires schema { IsTrue D.tells → schema.now ≡ map schema_row (entries (schema_after (pages_of pager.old))) }
    // what Ok comes to
    ensures written { OnOk result (IsTrue D.tells → IsNewWritten (IsSalted codec (IsMigratedUnder codec pager.old.header
        (pages_of pager.old))) (bytes_of (D.reads pager.new.disk.now).fresh)) }
    ensures size { IfOk result (λ count. IsTrue D.tells → (file : List ℕ) → bytes_of (D.reads pager.new.disk.now).fresh ≡ Some file
        → length file ≡ count * codec.profile.page_size) }
    ensures synced { OnOk result (IsTrue D.tells → IsFreshSynced (D.images pager.new.disk.now) (D.reads pager.new.disk.now)) }
    ensures own_draws { OnOk result (IsTrue D.tells → IsTrue E.tells → (file : List ℕ) → bytes_of (D.reads pager.new.disk.now).fresh ≡ Some file
        → AreOwnDraws codec file (length (E.drawn pager.old.entropy.now)) (E.drawn pager.new.entropy.now)) }
    // why it stopped
    ensures shown { IfErr result (λ e. IsTrue D.tells → (is_early_stop e ≡ false) × IsMigrateShown codec.profile (pages_of pager.old) e) }
    ensures limit { (limit : ℕ) → result ≡ Err (MigrateError.TooManyPages limit) → limit ≡ most_pages codec.profile }
    ensures disk_fault { result ≡ Err MigrateError.DiskFault → Rose (D.faults pager.old.disk.now) (D.faults pager.new.disk.now) }
    ensures entropy_fault { result ≡ Err MigrateError.EntropyFault → Rose (E.faults pager.old.entropy.now) (E.faults pager.new.entropy.now) }
    // what stays
    ensures beside { Beside D.tells E.tells D.reads D.images D.moment D.since E.drawn pager.old.disk pager.new.disk pager.old.entropy pager.new.entropy }
    ensures disk_later { D.faults pager.old.disk.now ≤ D.faults pager.new.disk.now }
    ensures entropy_later { E.faults pager.old.entropy.now ≤ E.faults pager.new.entropy.now }
{
    let header = new_header(codec.profile(), pager.header());
    let mut state = match FreshState::start(alloc, pager, codec) {
        Ok(state) => state,
        Err(StartError::DiskFault) => return Err(MigrateError::DiskFault),
        Err(StartError::OutOfMemory) => return Err(MigrateError::OutOfMemory),
    };
    match copy_database(alloc, pager, schema, &mut state) {
        Ok(()) => {}
        Err(error) => return Err(error),
    }
    match state.finish(pager, &header) {
        Ok(count) => Ok(count),
        Err(CommitFault::DiskFault) => Err(MigrateError::DiskFault),
        Err(CommitFault::EntropyFault) => Err(MigrateError::EntropyFault),
    }
}

// The 16 bytes of a new salt, which are drawn; where the file holds none, they are the magic.
fn new_salt<'d, D: Disk, E: Entropy>(
    profile: &Profile,
    pager: &mut Pager<'d, D, E>,
) -> Result<[u8; 16], MigrateError>
    ensures drawn { IfOk result (λ salt. is_clear profile.now ≡ false → IsTrue E.tells → E.drawn pager.new.entropy.now ≡ E.drawn pager.old.entropy.now ++ salt) }
    ensures clear { IfOk result (λ salt. is_clear profile.now ≡ true → salt ≡ magic) }
    ensures undrawn { IfOk result (λ salt. is_clear profile.now ≡ true → E.drawn pager.new.entropy.now ≡ E.drawn pager.old.entropy.now) }
    ensures error { IfErr result (λ e. e ≡ MigrateError.EntropyFault) }
    ensures fault { OnErr result (Rose (E.faults pager.old.entropy.now) (E.faults pager.new.entropy.now)) }
    ensures beside { Beside D.tells E.tells D.reads D.images D.moment D.since E.drawn pager.old.disk pager.new.disk pager.old.entropy pager.new.entropy }
    ensures file { (pager.new.codec ≡ pager.old.codec) × (pager.new.header ≡ pager.old.header) × (pager.new.count ≡ pager.old.count) × (pager.new.cache ≡ pager.old.cache) }
    ensures disk_faults { D.faults pager.new.disk.now ≡ D.faults pager.old.disk.now }
    ensures entropy_later { E.faults pager.old.entropy.now ≤ E.faults pager.new.entropy.now }
{
    if profile.is_clear() {
        return Ok(MAGIC);
    }
    let mut salt = [0u8; 16];
    match pager.draw(&mut salt) {
        Ok(()) => Ok(salt),
        Err(_) => Err(MigrateError::EntropyFault),
    }
}

// The header of the new file, but for the count of its pages.
fn new_header(profile: &Profile, old: &Header) -> Header
    requires listed { IsListed profile.now }
    requires limits { (old.now.format ≤ 4) × (old.now.encoding ≤ 3) }
    ensures value { result ≡ migrated_header profile.now old.now 0 }
    ensures page_size { IsPageSize result.page_size }
    ensures reserve { result.reserve ≤ 255 }
    ensures limits { (result.format ≤ 4) × (result.encoding ≤ 3) }
{
    Header {
        page_size: profile.page_size,
        reserve: profile.reserve,
        change: 1,
        size_field: 0,
        first_trunk: 0,
        free_count: 0,
        cookie: old.cookie,
        format: old.format,
        cache: old.cache,
        encoding: old.encoding,
        user_version: old.user_version,
        application_id: old.application_id,
        valid_for: 1,
        sqlite_number: old.sqlite_number,
    }
}
