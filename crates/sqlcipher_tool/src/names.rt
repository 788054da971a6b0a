// The names of the schema that are near that of `find`, for the user of a run that found no table of it.
ghost use Rattle.std.specs.Prelude.{◌≡◌, ◌≤◌, ℤ, ℕ, List, [], Ok, Some, IfOk, IfErr, IsTrue};
ghost use Rattle.cipher_profile.specs.Profile.{IsListed};
ghost use Rattle.cipher_profile.specs.declared.profile.Profile.{Profile as Kind};
ghost use Rattle.edge_model.specs.Causes.{Rose};
ghost use Rattle.edge_model.specs.OnlyRead.{OnlyRead};
ghost use Rattle.db_format.specs.Source.{no_pins};
ghost use Rattle.edge_model.specs.Files.{main_of};
ghost use Rattle.pager.specs.Held.{pins_of};
ghost use Rattle.pager.specs.Opening.{file_opened};
ghost use Rattle.pager.specs.Pages.{opened_pages};
ghost use Rattle.pager.specs.PagesOf.{pages_of};
ghost use Rattle.pager.specs.Reads.{DiskRead, Untouched};
ghost use Rattle.sqlcipher_tool.specs.Names.{names_of, names_in};
ghost use Rattle.sqlcipher_tool.specs.Opening.{AreRecovered};
ghost use Rattle.sqlcipher_tool.specs.Promises.{AreWordsThat};
ghost use Rattle.sqlcipher_tool.specs.Words.{finds, form, texts};
ghost use Rattle.sqlcipher_tool.specs.declared.command.Command.TheVariants.{Read};
ghost use Rattle.sqlcipher_tool.specs.declared.reading.Job.TheVariants.{Find};
ghost use Rattle.sqlcipher_tool.specs.declared.reading.Reading.TheVariants.{OnPages};

use crate::command::{Command, Name, parse_words};
use crate::opening::{Stop, open_main};
use crate::reading::{Job, Reading};
use crate::walked::walk_stop;
use cipher_profile::{Profile, Secret};
use edge_model::{Disk, Entropy};
use pager::{OpenedFile, PageSource, Pager};
use schema_names::NearName;
use std::alloc::Global;

/// The first ten names of the schema that are that of these words of `find` but for the case of ASCII letters, in the order of its
/// rows; none where the words are another command. It only reads, and takes a file that was recovered, as one is behind a run.
pub fn near_names<E: Entropy, D: Disk>(
    alloc: Global,
    words: &[&str],
    secret: &Secret,
    entropy: &mut E,
    disk: &mut D,
) -> Result<Vec<NearName>, Stop>
    requires { IsTrue D.tells → AreRecovered (D.reads disk.old) (D.images disk.old) }
    ensures found { (profile : Kind) (name : List ℕ) (low high : ℤ) → form (texts words.now) ≡ Some (Read profile (OnPages (Find name low high)))
        → IfOk result (λ list. IsTrue D.tells → list.items ≡ names_of profile secret.now name (main_of (D.reads disk.old))) }
    ensures others { (AreWordsThat finds (texts words.now) → ⊥) → IfOk result (λ list. list.items ≡ []) }
    ensures cause { IfErr result (λ stop. stop ≡ Stop.DiskFault → Rose (D.faults disk.old) (D.faults disk.new)) }
    ensures later { D.faults disk.old ≤ D.faults disk.new }
    ensures draws { entropy.new ≡ entropy.old }
    ensures only_read { IsTrue D.tells → OnlyRead D.reads D.images D.moment D.since disk.old disk.new }
{
    match parse_words(words) {
        Some(Command::Read(profile, Reading::OnPages(Job::Find { name, .. }))) => {
            near_in_main(alloc, profile, &name, secret, entropy, disk)
        }
        _ => Ok(Vec::new(alloc)),
    }
}

// The names in Main as it reads.
fn near_in_main<E: Entropy, D: Disk>(
    alloc: Global,
    profile: Profile,
    name: &Name<'_>,
    secret: &Secret,
    entropy: &mut E,
    disk: &mut D,
) -> Result<Vec<NearName>, Stop>
    requires listed { IsListed profile }
    requires recovered { IsTrue D.tells → AreRecovered (D.reads disk.old) (D.images disk.old) }
    ensures found { IfOk result (λ list. IsTrue D.tells → list.items ≡ names_of profile secret.now name.now (main_of (D.reads disk.old))) }
    ensures cause { IfErr result (λ stop. stop ≡ Stop.DiskFault → Rose (D.faults disk.old) (D.faults disk.new)) }
    ensures later { D.faults disk.old ≤ D.faults disk.new }
    ensures draws { entropy.new ≡ entropy.old }
    ensures only_read { IsTrue D.tells → OnlyRead D.reads D.images D.moment D.since disk.old disk.new }
{
    match open_main(alloc, disk, profile, secret) {
        Ok(file) => near_in_file(alloc, file, name, entropy, disk),
        Err(stop) => Err(stop),
    }
}

// The names in a file that was opened.
fn near_in_file<E: Entropy, D: Disk>(
    alloc: Global,
    file: OpenedFile,
    name: &Name<'_>,
    entropy: &mut E,
    disk: &mut D,
) -> Result<Vec<NearName>, Stop>
    requires { IsTrue D.tells → file_opened file.codec (main_of (D.reads disk.old)) ≡ Ok (record { header = file.header; count = file.count }) }
    ensures found { IfOk result (λ list. IsTrue D.tells → list.items ≡ names_in name.now (opened_pages file.codec (main_of (D.reads disk.old)) file.count)) }
    ensures cause { IfErr result (λ stop. stop ≡ Stop.DiskFault → Rose (D.faults disk.old) (D.faults disk.new)) }
    ensures later { D.faults disk.old ≤ D.faults disk.new }
    ensures draws { entropy.new ≡ entropy.old }
    ensures only_read { IsTrue D.tells → OnlyRead D.reads D.images D.moment D.since disk.old disk.new }
{
    let mut pager = file.into_pager(disk, entropy);
    let found = near_in_pages(alloc, &mut pager, name);
    let (disk, entropy) = pager.into_parts();
    // Both end here as they are, entropy first: the prover learns of each from these lines.
    let _ = entropy;
    let _ = disk;
    found
}

// The names in the pages of a file.
fn near_in_pages<E: Entropy, D: Disk>(
    alloc: Global,
    pager: &mut Pager<'_, D, E>,
    name: &Name<'_>,
) -> Result<Vec<NearName>, Stop>
    requires unpinned { pins_of pager.old.cache.held ≡ no_pins }
    ensures found { IfOk result (λ list. IsTrue D.tells → list.items ≡ names_in name.now (pages_of pager.old)) }
    ensures cause { IfErr result (λ stop. stop ≡ Stop.DiskFault → Rose (D.faults pager.old.disk.now) (D.faults pager.new.disk.now)) }
    ensures disk { DiskRead D.tells D.reads D.images D.moment D.since D.faults pager.old.disk pager.new.disk }
    ensures entropy { Untouched pager.old.entropy pager.new.entropy }
{
    match schema_names::near_names(alloc, pager, name.as_bytes()) {
        Ok(list) => Ok(list),
        Err(error) => Err(walk_stop(&error)),
    }
}
