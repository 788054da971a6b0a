// `migrate`: the database is written anew in another profile, and takes the file's place.
ghost use Rattle.std.specs.Prelude.{◌≡◌, ◌≤◌, ℕ, List, length, Ok, Err, IfErr, IsErr, OnOk, IsTrue, None, Some};
ghost use Rattle.std.specs.List.{Contains};
ghost use Rattle.cipher_profile.specs.Profile.{IsListed};
ghost use Rattle.db_format.specs.Source.{no_pins};
ghost use Rattle.fresh_disk.specs.OnlyFresh.{IsOld};
ghost use Rattle.fresh_disk.specs.Published.{IsAlone};
ghost use Rattle.edge_model.specs.Causes.{Rose};
ghost use Rattle.edge_model.specs.Images.{Each};
ghost use Rattle.edge_model.specs.OnlyRead.{OnlyRead};
ghost use Rattle.fresh_file.specs.Draws.{HasOwnDraws};
ghost use Rattle.page_codec.specs.Page.{keys_of};
ghost use Rattle.edge_model.specs.Files.{main_of};
ghost use Rattle.pager.specs.Drawn.{drawn_since};
ghost use Rattle.pager.specs.Held.{pins_of};
ghost use Rattle.pager.specs.Opening.{file_opened};
ghost use Rattle.pager.specs.PagesOf.{pages_of};
ghost use Rattle.sqlcipher_tool.specs.Answer.{Answer};
ghost use Rattle.sqlcipher_tool.specs.Behind.{IsRefusedChange};
ghost use Rattle.sqlcipher_tool.specs.Change.{IsLateChange, KeepsOrCommits, change_answer, change_status};
ghost use Rattle.sqlcipher_tool.specs.Holding.{HoldsOnly, held_by};
ghost use Rattle.sqlcipher_tool.specs.Migrate.{IsMigratedSo, migrate_answers, migrate_due, migrate_error};
ghost use Rattle.sqlcipher_tool.specs.Opening.{AreRecovered, opened_with};
ghost use Rattle.sqlcipher_tool.specs.Renewal.{WithDraws, pages_under};

use crate::opening::{ChangeError, Stop, open_main};
use crate::status::Refusal;
use crate::text::migrated_report;
use cipher_profile::{Profile, Secret};
use edge_model::{Disk, Entropy};
use migrate_job::{MigrateError, migrate};
use pager::{OpenedFile, Pager};
use std::alloc::Global;
use text_lines::Text;

/// Opens Main with the first secret, and writes its database anew in the second profile and under the second secret. Answers what is
/// printed.
pub fn migrate_file<E: Entropy, D: Disk>(
    alloc: Global,
    old: Profile,
    new: Profile,
    first: &Secret,
    second: &Secret,
    entropy: &mut E,
    disk: &mut D,
) -> Result<Text, ChangeError>
    requires listed { IsListed old × IsListed new }
    requires recovered { IsTrue D.tells → AreRecovered (D.reads disk.old) (D.images disk.old) }
    requires alone { IsTrue D.tells → old.page_size ≤ length (main_of (D.reads disk.old)) → Each (D.images disk.old) (IsAlone (main_of (D.reads disk.old))) }
    ensures told { IsTrue D.tells → (answer : Answer) → change_answer result ≡ Some answer
        → Contains (migrate_answers old first.now new (pages_under new second.now (main_of (D.reads disk.new))) (main_of (D.reads disk.old))) answer }
    ensures safely { IsTrue D.tells → Each (D.images disk.old) (HoldsOnly (held_by (keys_of old first.now (main_of (D.reads disk.old))) (main_of (D.reads disk.old))))
        → KeepsOrCommits D.reads D.images D.moment D.since (change_status result)
        (WithDraws (λ file. IsMigratedSo (keys_of old first.now (main_of (D.reads disk.old))) (keys_of new second.now file) (main_of (D.reads disk.old)) file) E.tells
        (λ file. HasOwnDraws (keys_of new second.now file) file (drawn_since (E.drawn entropy.old) (E.drawn entropy.new))))
        (HoldsOnly (held_by (keys_of old first.now (main_of (D.reads disk.old))) (main_of (D.reads disk.old))))
        (λ file. HoldsOnly (held_by (keys_of new second.now file) file)) disk.old disk.new }
    ensures stays { IfErr result (λ e. IsRefusedChange e → IsTrue D.tells → Each (D.images disk.new) (IsOld (D.images disk.old))) }
    ensures unopened { IsTrue D.tells → IsErr (opened_with old first.now (main_of (D.reads disk.old))) → OnlyRead D.reads D.images D.moment D.since disk.old disk.new }
    ensures fresh_gone { IsTrue D.tells → OnOk result ((D.reads disk.new).fresh ≡ None) }
    ensures own_draws { OnOk result (IsTrue D.tells → IsTrue E.tells
        → HasOwnDraws (keys_of new second.now (main_of (D.reads disk.new))) (main_of (D.reads disk.new)) (drawn_since (E.drawn entropy.old) (E.drawn entropy.new))) }
    ensures late { IfErr result IsLateChange }
    ensures disk_fault { result ≡ Err (ChangeError.Stopped Stop.DiskFault) → Rose (D.faults disk.old) (D.faults disk.new) }
    ensures entropy_fault { result ≡ Err ChangeError.EntropyFault → Rose (E.faults entropy.old) (E.faults entropy.new) }
    ensures disk_later { D.faults disk.old ≤ D.faults disk.new }
    ensures entropy_later { E.faults entropy.old ≤ E.faults entropy.new }
{
    let file = match open_main(alloc, disk, old, first) {
        Ok(file) => file,
        Err(stop) => return Err(ChangeError::Stopped(stop)),
    };
    let pager = file.into_pager(disk, entropy);
    let (disk, entropy, done) = migrate_pages(alloc, pager, new, second);
    // Both end here as they are, entropy first: the prover learns of each from these lines.
    let _ = entropy;
    let _ = disk;
    done
}

// The database of these pages is written anew. The disk and the entropy come back in any case.
fn migrate_pages<'d, D: Disk, E: Entropy>(
    alloc: Global,
    pager: Pager<'d, D, E>,
    profile: Profile,
    secret: &Secret,
) -> (&'d mut D, &'d mut E, Result<Text, ChangeError>)
    requires listed { IsListed profile }
    requires unpinned { pins_of pager.cache.held ≡ no_pins }
    requires opened { IsTrue D.tells → file_opened pager.codec (main_of (D.reads pager.disk.now)) ≡ Ok (record { header = pager.header; count = pager.count }) }
    requires alone { IsTrue D.tells → Each (D.images pager.disk.now) (IsAlone (main_of (D.reads pager.disk.now))) }
    ensures disk { result.0.ghost_name ≡ pager.entry.disk.ghost_name }
    ensures entropy { result.1.ghost_name ≡ pager.entry.entropy.ghost_name }
    ensures told { IsTrue D.tells → (answer : Answer) → change_answer result.2 ≡ Some answer
        → Contains (migrate_due profile (pages_under profile secret.now (main_of (D.reads result.0.now))) (pages_of pager.entry)) answer }
    ensures safely { IsTrue D.tells → KeepsOrCommits D.reads D.images D.moment D.since (change_status result.2)
        (WithDraws (λ file. IsMigratedSo pager.entry.codec (keys_of profile secret.now file) (main_of (D.reads pager.entry.disk.now)) file) E.tells
        (λ file. HasOwnDraws (keys_of profile secret.now file) file (drawn_since (E.drawn pager.entry.entropy.now) (E.drawn result.1.now))))
        (HoldsOnly (held_by pager.entry.codec (main_of (D.reads pager.entry.disk.now))))
        (λ file. HoldsOnly (held_by (keys_of profile secret.now file) file)) pager.entry.disk.now result.0.now }
    ensures fresh_gone { IsTrue D.tells → OnOk result.2 ((D.reads result.0.now).fresh ≡ None) }
    ensures own_draws { OnOk result.2 (IsTrue D.tells → IsTrue E.tells
        → HasOwnDraws (keys_of profile secret.now (main_of (D.reads result.0.now))) (main_of (D.reads result.0.now))
        (drawn_since (E.drawn pager.entry.entropy.now) (E.drawn result.1.now))) }
    ensures stays { IfErr result.2 (λ e. IsRefusedChange e → IsTrue D.tells → Each (D.images result.0.now) (IsOld (D.images pager.entry.disk.now))) }
    ensures late { IfErr result.2 IsLateChange }
    ensures disk_fault { result.2 ≡ Err (ChangeError.Stopped Stop.DiskFault) → Rose (D.faults pager.entry.disk.now) (D.faults result.0.now) }
    ensures entropy_fault { result.2 ≡ Err ChangeError.EntropyFault → Rose (E.faults pager.entry.entropy.now) (E.faults result.1.now) }
    ensures disk_later { D.faults pager.entry.disk.now ≤ D.faults result.0.now }
    ensures entropy_later { E.faults pager.entry.entropy.now ≤ E.faults result.1.now }
{
    let (disk, entropy, done) = migrate(alloc, pager, profile, secret);
    match done {
        // Behind the rename nothing takes memory.
        Ok(pages) => (disk, entropy, Ok(migrated_report(pages))),
        Err(error) => (disk, entropy, Err(migrate_error(error))),
    }
}

// How a migration that does not come to its end stops the command.
fn migrate_error(error: MigrateError) -> ChangeError
    ensures { result ≡ migrate_error error }
{
    match error {
        MigrateError::PageTag { page } => {
            ChangeError::Stopped(Stop::Refused(Refusal::PageTag { page }))
        }
        MigrateError::Defect(defect) => {
            ChangeError::Stopped(Stop::Refused(Refusal::Defect(defect)))
        }
        MigrateError::TooManyPages { limit } => {
            ChangeError::Stopped(Stop::Refused(Refusal::TooManyPages { limit }))
        }
        MigrateError::DiskFault => ChangeError::Stopped(Stop::DiskFault),
        MigrateError::EntropyFault => ChangeError::EntropyFault,
        MigrateError::OutOfMemory => ChangeError::Stopped(Stop::OutOfMemory),
    }
}
