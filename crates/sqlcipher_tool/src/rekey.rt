// `rekey`: every page is sealed under another key, in one transaction.
ghost use Rattle.std.specs.Prelude.{◌≡◌, ◌≢◌, ◌≤◌, length, true, Ok, Err, IfErr, IsErr, OnOk, IsTrue, Some, if◌then◌else◌};
ghost use Rattle.std.specs.List.{Contains};
ghost use Rattle.fresh_disk.specs.OnlyFresh.{IsOld};
ghost use Rattle.fresh_disk.specs.Published.{IsAlone};
ghost use Rattle.edge_model.specs.Causes.{Rose};
ghost use Rattle.edge_model.specs.Images.{Each, From, LeavesOnly};
ghost use Rattle.edge_model.specs.OnlyRead.{OnlyRead};
ghost use Rattle.cipher_profile.specs.Keys.{salt_or};
ghost use Rattle.cipher_profile.specs.Profile.{IsListed, is_clear, is_plain};
ghost use Rattle.db_format.specs.Source.{no_pins};
ghost use Rattle.page_codec.specs.Page.{keys_of, magic, salt_of};
ghost use Rattle.edge_model.specs.Files.{main_of};
ghost use Rattle.pager.specs.Drawn.{drawn_since};
ghost use Rattle.pager.specs.Held.{pins_of};
ghost use Rattle.pager.specs.Opening.{file_opened};
ghost use Rattle.pager.specs.Pages.{is_page_number};
ghost use Rattle.pager.specs.PagesOf.{pages_of};
ghost use Rattle.rekey_job.specs.Rekeyed.{IsRekeyed};
ghost use Rattle.atomic_commit.specs.Facts.{SameFresh};
ghost use Rattle.sqlcipher_tool.specs.Answer.{Answer};
ghost use Rattle.sqlcipher_tool.specs.Behind.{IsRefusedChange};
ghost use Rattle.sqlcipher_tool.specs.Change.{IsLateChange, KeepsOrCommits, change_answer, change_status, rekey_error};
ghost use Rattle.rekey_job.specs.Draws.{FileDraws};
ghost use Rattle.sqlcipher_tool.specs.Holding.{HoldsOnly, held_by};
ghost use Rattle.sqlcipher_tool.specs.Opening.{AreRecovered, opened_with, page_count_of};
ghost use Rattle.sqlcipher_tool.specs.Rekey.{rekey_answers, rekey_due, rekeyed_salt};
ghost use Rattle.sqlcipher_tool.specs.Renewal.{IsRekeyedSo, WithDraws};

use crate::opening::{ChangeError, Stop, open_main};
use crate::status::Refusal;
use crate::text::rekeyed_report;
use cipher_profile::{Profile, Secret};
use edge_model::{Disk, Entropy};
use page_codec::{Codec, MAGIC};
use pager::{OpenedFile, PageSource, Pager};
use rekey_job::{RekeyError, rekey};
use std::alloc::Global;
use text_lines::Text;

/// Opens Main with the first secret, and seals each of its pages under the keys of the second. Answers what is printed.
pub fn rekey_file<E: Entropy, D: Disk>(
    alloc: Global,
    old: Profile,
    new: Profile,
    first: &Secret,
    second: &Secret,
    entropy: &mut E,
    disk: &mut D,
) -> Result<Text, ChangeError>
    requires listed { IsListed old × IsListed new }
    requires layout { (new.page_size ≡ old.page_size) × (new.reserve ≡ old.reserve) × (new.reads_log ≡ old.reads_log) }
    requires recovered { IsTrue D.tells → AreRecovered (D.reads disk.old) (D.images disk.old) }
    requires alone { IsTrue D.tells → old.page_size ≤ length (main_of (D.reads disk.old)) → Each (D.images disk.old) (IsAlone (main_of (D.reads disk.old))) }
    ensures told { IsTrue D.tells → (answer : Answer) → change_answer result ≡ Some answer → Contains (rekey_answers old first.now (main_of (D.reads disk.old))) answer }
    ensures safely { IsTrue D.tells → Each (D.images disk.old) (HoldsOnly (held_by (keys_of old first.now (main_of (D.reads disk.old))) (main_of (D.reads disk.old))))
        → KeepsOrCommits D.reads D.images D.moment D.since (change_status result)
        (WithDraws (λ file. IsRekeyedSo (keys_of old first.now (main_of (D.reads disk.old))) (keys_of new second.now file)
        (rekeyed_salt old first.now new (main_of (D.reads disk.old))) (main_of (D.reads disk.old)) file) E.tells
        (λ file. FileDraws (keys_of new second.now file) file (is_page_number (page_count_of (keys_of new second.now file) file)) 0 (drawn_since (E.drawn entropy.old) (E.drawn entropy.new))))
        (HoldsOnly (held_by (keys_of old first.now (main_of (D.reads disk.old))) (main_of (D.reads disk.old))))
        (λ file. HoldsOnly (held_by (keys_of new second.now file) file)) disk.old disk.new }
    ensures fresh { IsTrue D.tells → LeavesOnly D.moment D.since disk.old disk.new (From SameFresh (D.images disk.old)) }
    ensures stays { IfErr result (λ e. IsRefusedChange e → IsTrue D.tells → Each (D.images disk.new) (IsOld (D.images disk.old))) }
    ensures unopened { IsTrue D.tells → IsErr (opened_with old first.now (main_of (D.reads disk.old))) → OnlyRead D.reads D.images D.moment D.since disk.old disk.new }
    ensures own_draws { OnOk result (IsTrue D.tells → IsTrue E.tells → FileDraws (keys_of new second.now (main_of (D.reads disk.new))) (main_of (D.reads disk.new))
        (is_page_number (page_count_of (keys_of new second.now (main_of (D.reads disk.new))) (main_of (D.reads disk.new)))) 0 (drawn_since (E.drawn entropy.old) (E.drawn entropy.new))) }
    ensures late { IfErr result IsLateChange }
    ensures disk_fault { result ≡ Err (ChangeError.Stopped Stop.DiskFault) → Rose (D.faults disk.old) (D.faults disk.new) }
    ensures entropy_fault { result ≡ Err ChangeError.EntropyFault → Rose (E.faults entropy.old) (E.faults entropy.new) }
    ensures disk_later { D.faults disk.old ≤ D.faults disk.new }
    ensures entropy_later { E.faults entropy.old ≤ E.faults entropy.new }
{
    let file = match open_main(alloc, disk, old, first) {
        Ok(file) => file,
        Err(stop) => return Err(ChangeError::Stopped(stop)),
    };
    let pager = file.into_pager(disk, entropy);
    let salt = rekeyed_salt(&new, first, &pager.codec().salt());
    let write = Codec::of_secret(new, second, salt);
    let (disk, entropy, done) = rekey_pages(alloc, pager, write);
    // Both end here as they are, entropy first: the prover learns of each from these lines.
    let _ = entropy;
    let _ = disk;
    done
}

// What the new file begins with: the salt of the old keys, or the magic where it holds none.
fn rekeyed_salt(new: &Profile, first: &Secret, salt: &[u8; 16]) -> [u8; 16]
    ensures { result ≡ (if is_clear new.now then magic else salt_or first.now salt.now) }
{
    if new.is_clear() {
        MAGIC
    } else {
        first.salt_or(salt)
    }
}

// All pages are sealed under this codec. The disk and the entropy come back in any case.
fn rekey_pages<'d, D: Disk, E: Entropy>(
    alloc: Global,
    pager: Pager<'d, D, E>,
    write: Codec,
) -> (&'d mut D, &'d mut E, Result<Text, ChangeError>)
    requires layout { (write.profile.page_size ≡ pager.codec.profile.page_size) × (write.profile.reserve ≡ pager.codec.profile.reserve)
        × (write.profile.reads_log ≡ pager.codec.profile.reads_log) }
    requires unpinned { pins_of pager.cache.held ≡ no_pins }
    requires salt { IsTrue D.tells → is_plain write.profile ≡ true → write.salt ≡ salt_of (main_of (D.reads pager.disk.now)) }
    requires opened { IsTrue D.tells → file_opened pager.codec (main_of (D.reads pager.disk.now)) ≡ Ok (record { header = pager.header; count = pager.count }) }
    requires alone { IsTrue D.tells → Each (D.images pager.disk.now) (IsAlone (main_of (D.reads pager.disk.now))) }
    ensures disk { result.0.ghost_name ≡ pager.entry.disk.ghost_name }
    ensures entropy { result.1.ghost_name ≡ pager.entry.entropy.ghost_name }
    ensures told { IsTrue D.tells → (answer : Answer) → change_answer result.2 ≡ Some answer → Contains (rekey_due (pages_of pager.entry)) answer }
    ensures safely { IsTrue D.tells → KeepsOrCommits D.reads D.images D.moment D.since (change_status result.2)
        (WithDraws (IsRekeyed pager.entry.codec write pager.entry.count (main_of (D.reads pager.entry.disk.now))) E.tells
        (λ file. FileDraws write file (is_page_number pager.entry.count) 0 (drawn_since (E.drawn pager.entry.entropy.now) (E.drawn result.1.now))))
        (HoldsOnly (held_by pager.entry.codec (main_of (D.reads pager.entry.disk.now)))) (λ file. HoldsOnly (held_by write file)) pager.entry.disk.now result.0.now }
    ensures fresh { IsTrue D.tells → LeavesOnly D.moment D.since pager.entry.disk.now result.0.now (From SameFresh (D.images pager.entry.disk.now)) }
    ensures rekeyed { OnOk result.2 (IsTrue D.tells → IsRekeyed pager.entry.codec write pager.entry.count (main_of (D.reads pager.entry.disk.now)) (main_of (D.reads result.0.now))) }
    ensures own_draws { OnOk result.2 (IsTrue D.tells → IsTrue E.tells
        → FileDraws write (main_of (D.reads result.0.now)) (is_page_number pager.entry.count) 0 (drawn_since (E.drawn pager.entry.entropy.now) (E.drawn result.1.now))) }
    ensures stays { IfErr result.2 (λ e. IsRefusedChange e → IsTrue D.tells → Each (D.images result.0.now) (IsOld (D.images pager.entry.disk.now))) }
    ensures late { IfErr result.2 IsLateChange }
    ensures disk_fault { result.2 ≡ Err (ChangeError.Stopped Stop.DiskFault) → Rose (D.faults pager.entry.disk.now) (D.faults result.0.now) }
    ensures entropy_fault { result.2 ≡ Err ChangeError.EntropyFault → Rose (E.faults pager.entry.entropy.now) (E.faults result.1.now) }
    ensures disk_later { D.faults pager.entry.disk.now ≤ D.faults result.0.now }
    ensures entropy_later { E.faults pager.entry.entropy.now ≤ E.faults result.1.now }
{
    // Behind the commit nothing takes memory.
    let report = rekeyed_report(pager.pages());
    let (disk, entropy, done) = rekey(alloc, pager, write);
    match done {
        Ok(()) => (disk, entropy, Ok(report)),
        Err(error) => (disk, entropy, Err(rekey_error(error))),
    }
}

// How a rekey that does not come to its end stops the command.
fn rekey_error(error: RekeyError) -> ChangeError
    requires { error ≢ RekeyError.LayoutDiffers }
    ensures { result ≡ rekey_error error }
{
    match error {
        RekeyError::PageTag { page } => {
            ChangeError::Stopped(Stop::Refused(Refusal::PageTag { page }))
        }
        RekeyError::Defect(defect) => ChangeError::Stopped(Stop::Refused(Refusal::Defect(defect))),
        RekeyError::DiskFault => ChangeError::Stopped(Stop::DiskFault),
        RekeyError::EntropyFault => ChangeError::EntropyFault,
        RekeyError::OutOfMemory => ChangeError::Stopped(Stop::OutOfMemory),
        // The layouts were compared before the key lines were taken.
        RekeyError::LayoutDiffers => unreachable!(),
    }
}
