// The commands that only read: the file is recovered, and read.
ghost use Rattle.std.specs.Prelude.{◌≡◌, ◌≢◌, ◌≤◌, Ok, true, false, IsTrue};
ghost use Rattle.edge_model.specs.Images.{From, LeavesOnly};
ghost use Rattle.edge_model.specs.OnlyRead.{OnlyRead};
ghost use Rattle.cipher_profile.specs.Profile.{IsListed};
ghost use Rattle.db_format.specs.Header.{header_fields};
ghost use Rattle.db_format.specs.Source.{no_pins};
ghost use Rattle.edge_model.specs.Files.{main_of};
ghost use Rattle.pager.specs.Held.{pins_of};
ghost use Rattle.pager.specs.Opening.{file_opened};
ghost use Rattle.pager.specs.Pages.{opened_pages};
ghost use Rattle.pager.specs.PagesOf.{pages_of};
ghost use Rattle.pager.specs.Reads.{DiskRead, Untouched};
ghost use Rattle.rollback_journal.specs.Recovery.{KeepsRecovered};
ghost use Rattle.sqlcipher_tool.specs.Behind.{HasOnlyRead, IsReadOrUnwritten, IsRecovered};
ghost use Rattle.sqlcipher_tool.specs.Answer.{HasCauses, PutsLine, is_defect_status};
ghost use Rattle.sqlcipher_tool.specs.Holding.{disk_run};
ghost use Rattle.sqlcipher_tool.specs.Opening.{AreRecovered};
ghost use Rattle.sqlcipher_tool.specs.Promises.{AnswersOne, IsUnrecovered};
ghost use Rattle.sqlcipher_tool.specs.Recovered.{recovered_answers};
ghost use Rattle.sqlcipher_tool.specs.Reading.{job_due, reading_answers};
ghost use Rattle.sqlcipher_tool.specs.Untouched.{HasNoFile, IsUnwritten};
ghost use Rattle.sqlcipher_tool.specs.Words.{asks_tags, prints_rows, shows_rows};

use crate::agree::agree_pages;
use crate::command::Name;
use crate::conclusion::conclude_stop;
use crate::export::export_pages;
use crate::find::find_pages;
use crate::header::header;
use crate::opening::open_main;
use crate::recovery::recover_main;
use crate::salvage::salvage_file;
use crate::status::Status;
use crate::tags::tags;
use crate::verify::verify_pages;
use cipher_profile::{Profile, Secret};
use edge_model::{Disk, Entropy, Sink};
use pager::{OpenedFile, Pager};
use std::alloc::Global;

/// What is done with the pages of a file.
#[derive(Drop)]
pub enum Job<'w> {
    /// Check the freelist, the tags of all pages in use, the schema and the trees.
    Verify,
    /// Print all rows and entries.
    Export,
    /// Compare each index with its table.
    Agree,
    /// Print the rows of a table whose rowids lie in a range.
    Find {
        /// The table's name.
        name: Name<'w>,
        /// The lowest rowid.
        low: i64,
        /// The highest rowid.
        high: i64,
    },
}

/// What is read of a file.
#[derive(Drop)]
pub enum Reading<'w> {
    /// Check the tag of every page.
    Tags,
    /// Print the fields of the database header.
    Header,
    /// Print the rows of a damaged file.
    Salvage,
    /// Open the file, and do this with its pages.
    OnPages(Job<'w>),
}

impl<'w> Reading<'w> {
    /// Whether it asks for tags that the profile has not.
    pub fn asks_tags(&self, profile: &Profile) -> bool
        ensures { result ≡ asks_tags profile.now self.now }
    {
        match self {
            Reading::Tags => profile.tag_len == 0,
            Reading::Header | Reading::Salvage | Reading::OnPages(_) => false,
        }
    }
}

/// Reads a file of the profile with this secret, after a recovery.
pub fn read_file<S: Sink, E: Entropy, D: Disk>(
    alloc: Global,
    profile: Profile,
    reading: Reading<'_>,
    secret: &Secret,
    out: &mut S,
    entropy: &mut E,
    disk: &mut D,
) -> Status
    requires listed { IsListed profile }
    requires tagged { asks_tags profile reading ≡ false }
    ensures answer { IsTrue D.tells
        → AnswersOne (recovered_answers profile (D.reads disk.old) (reading_answers reading.entry profile secret.now))
        result S.tells (S.taken out.old) (S.taken out.new) }
    ensures line { IsTrue S.tells → (shows_rows reading.entry ≡ true → is_defect_status result ≡ false) → PutsLine result (S.taken out.old) (S.taken out.new) }
    ensures causes { HasCauses result (D.faults disk.old) (D.faults disk.new) (S.faults out.old) (S.faults out.new) }
    ensures keeps { IsTrue D.tells → LeavesOnly D.moment D.since disk.old disk.new (From (KeepsRecovered profile.page_size) (D.images disk.old)) }
    ensures draws { entropy.new ≡ entropy.old }
    ensures unrecovered { IsTrue D.tells → IsUnrecovered result → D.reads disk.new ≡ D.reads disk.old }
    ensures recovered { IsTrue D.tells → HasOnlyRead false result → IsRecovered profile (disk_run D.reads D.images D.moment D.since disk.old disk.new) }
    ensures left { IsTrue D.tells → result ≢ Status.DiskFault → IsReadOrUnwritten profile (disk_run D.reads D.images D.moment D.since disk.old disk.new) }
    ensures untouched { IsTrue D.tells → HasNoFile profile (D.reads disk.old) → IsUnwritten (disk_run D.reads D.images D.moment D.since disk.old disk.new) }
{
    match recover_main(alloc, disk, profile) {
        Ok(_) => read_recovered(alloc, profile, reading, secret, out, entropy, disk),
        Err(stop) => conclude_stop(out, stop),
    }
}

// Main is read as it is.
fn read_recovered<S: Sink, E: Entropy, D: Disk>(
    alloc: Global,
    profile: Profile,
    reading: Reading<'_>,
    secret: &Secret,
    out: &mut S,
    entropy: &mut E,
    disk: &mut D,
) -> Status
    requires listed { IsListed profile }
    requires tagged { asks_tags profile reading ≡ false }
    requires recovered { IsTrue D.tells → AreRecovered (D.reads disk.old) (D.images disk.old) }
    ensures answer { IsTrue D.tells
        → AnswersOne (reading_answers reading.entry profile secret.now (main_of (D.reads disk.old))) result S.tells (S.taken out.old) (S.taken out.new) }
    ensures line { IsTrue S.tells → (shows_rows reading.entry ≡ true → is_defect_status result ≡ false) → PutsLine result (S.taken out.old) (S.taken out.new) }
    ensures causes { HasCauses result (D.faults disk.old) (D.faults disk.new) (S.faults out.old) (S.faults out.new) }
    ensures draws { entropy.new ≡ entropy.old }
    ensures only_read { IsTrue D.tells → OnlyRead D.reads D.images D.moment D.since disk.old disk.new }
{
    match reading {
        Reading::Tags => tags(profile, secret, out, disk),
        Reading::Header => header(alloc, profile, secret, out, entropy, disk),
        Reading::Salvage => salvage_file(alloc, profile, secret, out, disk),
        Reading::OnPages(job) => match open_main(alloc, disk, profile, secret) {
            Ok(file) => job_on_file(alloc, job, file, out, entropy, disk),
            Err(stop) => conclude_stop(out, stop),
        },
    }
}

// The job on a file that was opened.
fn job_on_file<S: Sink, E: Entropy, D: Disk>(
    alloc: Global,
    job: Job<'_>,
    file: OpenedFile,
    out: &mut S,
    entropy: &mut E,
    disk: &mut D,
) -> Status
    requires { IsTrue D.tells → file_opened file.codec (main_of (D.reads disk.old)) ≡ Ok (record { header = file.header; count = file.count }) }
    ensures answer { IsTrue D.tells
        → AnswersOne (job_due job.entry (opened_pages file.codec (main_of (D.reads disk.old)) file.count)) result S.tells (S.taken out.old) (S.taken out.new) }
    ensures line { IsTrue S.tells → (prints_rows job.entry ≡ true → is_defect_status result ≡ false) → PutsLine result (S.taken out.old) (S.taken out.new) }
    ensures causes { HasCauses result (D.faults disk.old) (D.faults disk.new) (S.faults out.old) (S.faults out.new) }
    ensures draws { entropy.new ≡ entropy.old }
    ensures only_read { IsTrue D.tells → OnlyRead D.reads D.images D.moment D.since disk.old disk.new }
{
    let mut pager = file.into_pager(disk, entropy);
    let status = job_on_pages(alloc, job, &mut pager, out);
    let (disk, entropy) = pager.into_parts();
    // Both end here as they are, entropy first: the prover learns of each from these lines.
    let _ = entropy;
    let _ = disk;
    status
}

// The job on the pages of a file.
fn job_on_pages<S: Sink, E: Entropy, D: Disk>(
    alloc: Global,
    job: Job<'_>,
    pager: &mut Pager<'_, D, E>,
    out: &mut S,
) -> Status
    requires header { IsTrue D.tells → 1 ≤ pager.old.count → pager.old.header ≡ header_fields ((pages_of pager.old).page 1) }
    requires unpinned { pins_of pager.old.cache.held ≡ no_pins }
    ensures answer { IsTrue D.tells → AnswersOne (job_due job.entry (pages_of pager.old)) result S.tells (S.taken out.old) (S.taken out.new) }
    ensures line { IsTrue S.tells → (prints_rows job.entry ≡ true → is_defect_status result ≡ false) → PutsLine result (S.taken out.old) (S.taken out.new) }
    ensures causes { HasCauses result (D.faults pager.old.disk.now) (D.faults pager.new.disk.now) (S.faults out.old) (S.faults out.new) }
    ensures disk { DiskRead D.tells D.reads D.images D.moment D.since D.faults pager.old.disk pager.new.disk }
    ensures entropy { Untouched pager.old.entropy pager.new.entropy }
{
    match job {
        Job::Verify => verify_pages(alloc, pager, out),
        Job::Export => export_pages(alloc, pager, out),
        Job::Agree => agree_pages(alloc, pager, out),
        Job::Find { name, low, high } => find_pages(alloc, pager, &name, low, high, out),
    }
}
