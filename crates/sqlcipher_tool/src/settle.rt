// `settle`: a file that is marked for WAL mode becomes one in rollback mode, in one transaction that changes page 1 alone. Its log was laid before.
ghost use Rattle.std.specs.Prelude.{◌≡◌, ◌≤◌, length, true, Some, Ok, Err, IfOk, IfErr, IsErr, OnOk, IsTrue};
ghost use Rattle.fresh_disk.specs.OnlyFresh.{IsOld};
ghost use Rattle.fresh_disk.specs.Published.{IsAlone};
ghost use Rattle.edge_model.specs.Causes.{Rose};
ghost use Rattle.edge_model.specs.Files.{main_of};
ghost use Rattle.edge_model.specs.Images.{Each, From, LeavesOnly};
ghost use Rattle.edge_model.specs.OnlyRead.{OnlyRead};
ghost use Rattle.cipher_profile.specs.Profile.{IsListed, usable, with_log};
ghost use Rattle.map_pages.specs.Maps.{map_count};
ghost use Rattle.page_codec.specs.Page.{keys_of, salt_of};
ghost use Rattle.pager.specs.Drawn.{drawn_since};
ghost use Rattle.pager.specs.Base.{base_of};
ghost use Rattle.pager.specs.Held.{pins_of};
ghost use Rattle.pager.specs.Opening.{file_opened};
ghost use Rattle.pager.specs.PagesOf.{pages_of};
ghost use Rattle.pager.specs.Reads.{DiskRead, Untouched};
ghost use Rattle.pager.specs.UnderWay.{Start};
ghost use Rattle.atomic_commit.specs.Facts.{IsBase, SameFresh};
ghost use Rattle.sqlcipher_tool.specs.Answer.{Answer};
ghost use Rattle.sqlcipher_tool.specs.Behind.{IsRefusedChange};
ghost use Rattle.sqlcipher_tool.specs.Change.{IsLateChange, KeepsOrCommits, change_answer, change_status};
ghost use Rattle.sqlcipher_tool.specs.Holding.{HoldsOnly, held_by};
ghost use Rattle.sqlcipher_tool.specs.Opening.{AreRecovered, opened_with};
ghost use Rattle.sqlcipher_tool.specs.Renewal.{WithDraws};
ghost use Rattle.sqlcipher_tool.specs.Maps.{first_plain};
ghost use Rattle.sqlcipher_tool.specs.Settle.{IsMarkStop, IsSettledFrom, IsSettledUnder, SettledDraws, marked_answer, marks_of, settle_answer};

use crate::first_page::change_first;
use crate::maps::{LARGEST_ROOT_AT, VERSIONS_AT, free_maps};
use crate::opening::{ChangeError, Stop, open_main};
use crate::status::Refusal;
use crate::text::settled_report;
use cipher_profile::{Profile, Secret};
use edge_model::{Disk, Entropy};
use map_pages::map_count;
use number_fields::u32_at;
use pager::{OpenedFile, PageError, PageSource, Pager};
use std::alloc::Global;
use text_lines::Text;

/// What page 1 says of a file.
#[derive(Clone, Copy, Debug, PartialEq, Eq)]
pub enum Marks {
    /// It is in rollback mode.
    Rollback,
    /// It is in WAL mode.
    Wal,
    /// It has pointer-map pages.
    Maps,
}

/// Opens Main with this secret, whether it is marked for WAL mode or not, and settles it. So many frames of its log were laid before. Answers
/// what is printed.
pub fn settle_file<E: Entropy, D: Disk>(
    alloc: Global,
    profile: Profile,
    frames: u64,
    secret: &Secret,
    entropy: &mut E,
    disk: &mut D,
) -> Result<Text, ChangeError>
    requires listed { IsListed profile }
    requires recovered { IsTrue D.tells → AreRecovered (D.reads disk.old) (D.images disk.old) }
    requires alone { IsTrue D.tells → profile.page_size ≤ length (main_of (D.reads disk.old)) → Each (D.images disk.old) (IsAlone (main_of (D.reads disk.old))) }
    ensures told { IsTrue D.tells → (answer : Answer) → change_answer result ≡ Some answer → answer ≡ settle_answer (with_log profile) secret.now frames (main_of (D.reads disk.old)) }
    ensures safely { IsTrue D.tells → Each (D.images disk.old) (HoldsOnly (held_by (keys_of (with_log profile) secret.now (main_of (D.reads disk.old))) (main_of (D.reads disk.old))))
        → KeepsOrCommits D.reads D.images D.moment D.since (change_status result)
        (WithDraws (λ file. IsSettledFrom (keys_of (with_log profile) secret.now (main_of (D.reads disk.old))) (keys_of profile secret.now file) (main_of (D.reads disk.old)) file) E.tells
        (λ file. SettledDraws (keys_of profile secret.now file) file (drawn_since (E.drawn entropy.old) (E.drawn entropy.new))))
        (HoldsOnly (held_by (keys_of (with_log profile) secret.now (main_of (D.reads disk.old))) (main_of (D.reads disk.old))))
        (λ file. HoldsOnly (held_by (keys_of profile secret.now file) file)) disk.old disk.new }
    ensures fresh { IsTrue D.tells → LeavesOnly D.moment D.since disk.old disk.new (From SameFresh (D.images disk.old)) }
    ensures stays { IfErr result (λ e. IsRefusedChange e → IsTrue D.tells → Each (D.images disk.new) (IsOld (D.images disk.old))) }
    ensures unopened { IsTrue D.tells → IsErr (opened_with (with_log profile) secret.now (main_of (D.reads disk.old))) → OnlyRead D.reads D.images D.moment D.since disk.old disk.new }
    ensures own_draws { OnOk result (IsTrue D.tells → IsTrue E.tells
        → SettledDraws (keys_of profile secret.now (main_of (D.reads disk.new))) (main_of (D.reads disk.new)) (drawn_since (E.drawn entropy.old) (E.drawn entropy.new))) }
    ensures late { IfErr result IsLateChange }
    ensures disk_fault { result ≡ Err (ChangeError.Stopped Stop.DiskFault) → Rose (D.faults disk.old) (D.faults disk.new) }
    ensures entropy_fault { result ≡ Err ChangeError.EntropyFault → Rose (E.faults entropy.old) (E.faults entropy.new) }
    ensures disk_later { D.faults disk.old ≤ D.faults disk.new }
    ensures entropy_later { E.faults entropy.old ≤ E.faults entropy.new }
{
    let passing = Profile {
        reads_log: true,
        ..profile
    };
    let file = match open_main(alloc, disk, passing, secret) {
        Ok(file) => file,
        Err(stop) => return Err(ChangeError::Stopped(stop)),
    };
    let pager = file.into_pager(disk, entropy);
    let (disk, entropy, done) = settle_pages(alloc, pager, frames);
    // Both end here as they are, entropy first: the prover learns of each from these lines.
    let _ = entropy;
    let _ = disk;
    done
}

// The marks go, where there are some. The disk and the entropy come back in any case.
fn settle_pages<'d, D: Disk, E: Entropy>(
    alloc: Global,
    pager: Pager<'d, D, E>,
    frames: u64,
) -> (&'d mut D, &'d mut E, Result<Text, ChangeError>)
    ghost start: { Start }
    requires base { IsTrue D.tells → start.base ≡ base_of pager.codec (main_of (D.reads pager.disk.now)) pager.count }
    requires base_is { IsBase start.base }
    requires sizes { (pager.codec.profile.page_size ≡ start.base.size) × (pager.count ≡ start.base.pages) }
    requires drawn { start.drawn ≡ E.drawn pager.entropy.now }
    requires listed { IsListed pager.codec.profile }
    requires passes { pager.codec.profile.reads_log ≡ true }
    requires salt { IsTrue D.tells → pager.codec.salt ≡ salt_of (main_of (D.reads pager.disk.now)) }
    requires opened { IsTrue D.tells → file_opened pager.codec (main_of (D.reads pager.disk.now)) ≡ Ok (record { header = pager.header; count = pager.count }) }
    requires alone { IsTrue D.tells → Each (D.images pager.disk.now) (IsAlone (main_of (D.reads pager.disk.now))) }
    ensures disk { result.0.ghost_name ≡ pager.entry.disk.ghost_name }
    ensures entropy { result.1.ghost_name ≡ pager.entry.entropy.ghost_name }
    ensures told { IsTrue D.tells → (answer : Answer) → change_answer result.2 ≡ Some answer
        → answer ≡ marked_answer frames (map_count (usable pager.entry.codec.profile) pager.entry.count) (marks_of (first_plain pager.entry.codec (main_of (D.reads pager.entry.disk.now)))) }
    ensures safely { IsTrue D.tells → KeepsOrCommits D.reads D.images D.moment D.since (change_status result.2)
        (WithDraws (IsSettledUnder pager.entry.codec (main_of (D.reads pager.entry.disk.now))) E.tells
        (λ file. SettledDraws pager.entry.codec file (drawn_since (E.drawn pager.entry.entropy.now) (E.drawn result.1.now))))
        (HoldsOnly (held_by pager.entry.codec (main_of (D.reads pager.entry.disk.now))))
        (λ file. HoldsOnly (held_by pager.entry.codec file)) pager.entry.disk.now result.0.now }
    ensures fresh { IsTrue D.tells → LeavesOnly D.moment D.since pager.entry.disk.now result.0.now (From SameFresh (D.images pager.entry.disk.now)) }
    ensures stays { IfErr result.2 (λ e. IsRefusedChange e → IsTrue D.tells → Each (D.images result.0.now) (IsOld (D.images pager.entry.disk.now))) }
    ensures own_draws { OnOk result.2 (IsTrue D.tells → IsTrue E.tells
        → SettledDraws pager.entry.codec (main_of (D.reads result.0.now)) (drawn_since (E.drawn pager.entry.entropy.now) (E.drawn result.1.now))) }
    ensures late { IfErr result.2 IsLateChange }
    ensures disk_fault { result.2 ≡ Err (ChangeError.Stopped Stop.DiskFault) → Rose (D.faults pager.entry.disk.now) (D.faults result.0.now) }
    ensures entropy_fault { result.2 ≡ Err ChangeError.EntropyFault → Rose (E.faults pager.entry.entropy.now) (E.faults result.1.now) }
    ensures disk_later { D.faults pager.entry.disk.now ≤ D.faults result.0.now }
    ensures entropy_later { E.faults pager.entry.entropy.now ≤ E.faults result.1.now }
{
    let mut pager = pager;
    // Behind the commit nothing takes memory.
    let report = settled_report(frames, 0);
    let maps = map_count(pager.usable() as u32, pager.pages());
    let freed = settled_report(frames, u64::from(maps));
    match read_marks(&mut pager) {
        Ok(Marks::Wal) => {
            let write = pager.codec().again();
            change_first(alloc, pager, write, VERSIONS_AT, &[1, 1], report)
        }
        Ok(Marks::Rollback) => {
            let (disk, entropy) = pager.into_parts();
            (disk, entropy, Ok(report))
        }
        Ok(Marks::Maps) => {
            let write = pager.codec().again();
            free_maps(alloc, pager, write, freed)
        }
        Err(stop) => {
            let (disk, entropy) = pager.into_parts();
            (disk, entropy, Err(ChangeError::Stopped(stop)))
        }
    }
}

/// What page 1 says of the file.
pub fn read_marks<D: Disk, E: Entropy>(pager: &mut Pager<'_, D, E>) -> Result<Marks, Stop>
    ensures told { IfOk result (λ marks. IsTrue D.tells → marks ≡ marks_of ((pages_of pager.old).page 1)) }
    ensures stop { IfErr result (IsMarkStop D.tells (pages_of pager.old)) }
    ensures fault { result ≡ Err Stop.DiskFault → Rose (D.faults pager.old.disk.now) (D.faults pager.new.disk.now) }
    ensures disk { DiskRead D.tells D.reads D.images D.moment D.since D.faults pager.old.disk pager.new.disk }
    ensures entropy { Untouched pager.old.entropy pager.new.entropy }
    ensures file { (pager.new.codec ≡ pager.old.codec) × (pager.new.header ≡ pager.old.header) × (pager.new.count ≡ pager.old.count) }
    ensures pins { pins_of pager.new.cache.held ≡ pins_of pager.old.cache.held }
{
    match pager.load(1) {
        Ok(()) => Ok(marks_of(pager.loaded())),
        Err(PageError::TagRefused { page }) => Err(Stop::Refused(Refusal::PageTag { page })),
        Err(PageError::DiskFault) => Err(Stop::DiskFault),
        // No page is pinned, but no clause of a source of pages says that a frame is left.
        Err(PageError::AllPinned) => Err(Stop::OutOfMemory),
        // The file has a page.
        Err(PageError::OutOfRange | PageError::EntropyFault) => unreachable!(),
    }
}

// What a page 1 says.
fn marks_of(plain: &[u8]) -> Marks
    requires { 100 ≤ length plain.now }
    ensures { result ≡ marks_of plain.now }
{
    if u32_at(plain, LARGEST_ROOT_AT) != 0 {
        return Marks::Maps;
    }
    if plain[VERSIONS_AT] == 1 && plain[VERSIONS_AT + 1] == 1 {
        return Marks::Rollback;
    }
    Marks::Wal
}
