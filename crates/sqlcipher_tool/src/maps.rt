// The pointer-map pages of a file go onto its freelist, in one transaction.
ghost use Rattle.std.specs.Prelude.{◌≡◌, ◌⊎◌, ◌+◌, ◌≤◌, ◌==◌, ◌%◌, ◌^◌, ℕ, true, false, Ok, Err, IfErr, OnOk, IsTrue, if◌then◌else◌};
ghost use Rattle.fresh_disk.specs.Published.{IsAlone};
ghost use Rattle.edge_model.specs.Causes.{Rose};
ghost use Rattle.edge_model.specs.Files.{main_of};
ghost use Rattle.edge_model.specs.Images.{Each, From, LeavesOnly};
ghost use Rattle.cipher_profile.specs.Profile.{IsListed, usable};
ghost use Rattle.db_format.specs.Pages.{IsUsable};
ghost use Rattle.map_pages.specs.Maps.{map_count};
ghost use Rattle.map_pages.specs.Trunks.{trunk_from};
ghost use Rattle.page_codec.specs.Page.{salt_of};
ghost use Rattle.pager.specs.Drawn.{drawn_since};
ghost use Rattle.pager.specs.Base.{base_of};
ghost use Rattle.pager.specs.Changed.{with_bytes};
ghost use Rattle.pager.specs.Opening.{file_opened};
ghost use Rattle.pager.specs.Pages.{is_page_number};
ghost use Rattle.pager.specs.UnderWay.{IsReadyFor, IsRefusedAs, IsUnderWay, Start, is_touched, seen_pages};
ghost use Rattle.atomic_commit.specs.Database.{HoldsOld};
ghost use Rattle.atomic_commit.specs.Facts.{IsBase, SameFresh};
ghost use Rattle.rekey_job.specs.Draws.{FileDraws};
ghost use Rattle.settle_job.specs.Stops.{IsTrunkRefusal, is_broken, is_failed};
ghost use Rattle.sqlcipher_tool.specs.Answer.{IsFault};
ghost use Rattle.sqlcipher_tool.specs.Change.{IsLateChange, KeepsOrCommits, change_status};
ghost use Rattle.sqlcipher_tool.specs.FirstPage.{next_change, with_field};
ghost use Rattle.sqlcipher_tool.specs.Holding.{HoldsOnly, held_by};
ghost use Rattle.sqlcipher_tool.specs.Maps.{AreMapsFreed, first_plain, has_maps, is_rewritten, versions, versions_at};
ghost use Rattle.sqlcipher_tool.specs.Opening.{page_count_of};
ghost use Rattle.sqlcipher_tool.specs.Renewal.{WithDraws};

use crate::first_page::{begin_error, page_error, write_bytes, write_fields};
use crate::opening::{ChangeError, Stop};
use crate::status::Refusal;
use db_format::Header;
use edge_model::{Disk, Entropy};
use map_pages::{first_trunk, map_count};
use number_fields::u32_bytes;
use page_codec::Codec;
use pager::{CommitFault, PageError, Pager, Txn};
use settle_job::{TrunkError, put_trunks};
use std::alloc::Global;
use text_lines::Text;

/// Where the versions of a database stand in its header, in bytes.
pub const VERSIONS_AT: usize = 18;

/// Where the number of the first trunk of the freelist stands.
const FIRST_TRUNK_AT: usize = 32;

/// Where the count of pages on the freelist stands.
const FREE_COUNT_AT: usize = 36;

/// Where the field stands that says whether there are pointer-map pages.
pub const LARGEST_ROOT_AT: usize = 52;

/// Where the field stands that says whether they are used for incremental vacuum.
const INCREMENTAL_AT: usize = 64;

/// How many changed pages stand in memory.
const FRAMES: u32 = 64;

/// The map pages go onto the freelist, and page 1 says rollback mode, in a transaction. The disk and the entropy come back in any case.
/// Answers the report.
pub fn free_maps<'d, D: Disk, E: Entropy>(
    alloc: Global,
    pager: Pager<'d, D, E>,
    write: Codec,
    report: Text,
) -> (&'d mut D, &'d mut E, Result<Text, ChangeError>)
    ghost start: { Start }
    requires base { IsTrue D.tells → start.base ≡ base_of pager.codec (main_of (D.reads pager.disk.now)) pager.count }
    requires base_is { IsBase start.base }
    requires sizes { (pager.codec.profile.page_size ≡ start.base.size) × (pager.count ≡ start.base.pages) }
    requires drawn { start.drawn ≡ E.drawn pager.entropy.now }
    requires write { write ≡ pager.codec }
    requires listed { IsListed pager.codec.profile }
    requires salt { IsTrue D.tells → pager.codec.salt ≡ salt_of (main_of (D.reads pager.disk.now)) }
    requires opened { IsTrue D.tells → file_opened pager.codec (main_of (D.reads pager.disk.now)) ≡ Ok (record { header = pager.header; count = pager.count }) }
    requires alone { IsTrue D.tells → Each (D.images pager.disk.now) (IsAlone (main_of (D.reads pager.disk.now))) }
    requires passes { pager.codec.profile.reads_log ≡ true }
    requires maps { IsTrue D.tells → has_maps (first_plain pager.codec (main_of (D.reads pager.disk.now))) ≡ true }
    ensures disk { result.0.ghost_name ≡ pager.entry.disk.ghost_name }
    ensures entropy { result.1.ghost_name ≡ pager.entry.entropy.ghost_name }
    ensures told { IsTrue D.tells → IsFault (change_status result.2) ⊎ (result.2 ≡ Ok report) }
    ensures safely { IsTrue D.tells → KeepsOrCommits D.reads D.images D.moment D.since (change_status result.2)
        (WithDraws (AreMapsFreed pager.entry.codec pager.entry.codec (main_of (D.reads pager.entry.disk.now))) E.tells
        (λ file. FileDraws pager.entry.codec file (is_rewritten (usable pager.entry.codec.profile) (page_count_of pager.entry.codec file)) 0 (drawn_since (E.drawn pager.entry.entropy.now) (E.drawn result.1.now))))
        (HoldsOnly (held_by pager.entry.codec (main_of (D.reads pager.entry.disk.now))))
        (λ file. HoldsOnly (held_by pager.entry.codec file)) pager.entry.disk.now result.0.now }
    ensures fresh { IsTrue D.tells → LeavesOnly D.moment D.since pager.entry.disk.now result.0.now (From SameFresh (D.images pager.entry.disk.now)) }
    ensures own_draws { OnOk result.2 (IsTrue D.tells → IsTrue E.tells → FileDraws pager.entry.codec (main_of (D.reads result.0.now))
        (is_rewritten (usable pager.entry.codec.profile) (page_count_of pager.entry.codec (main_of (D.reads result.0.now)))) 0 (drawn_since (E.drawn pager.entry.entropy.now) (E.drawn result.1.now))) }
    ensures late { IfErr result.2 IsLateChange }
    ensures disk_fault { result.2 ≡ Err (ChangeError.Stopped Stop.DiskFault) → Rose (D.faults pager.entry.disk.now) (D.faults result.0.now) }
    ensures entropy_fault { result.2 ≡ Err ChangeError.EntropyFault → Rose (E.faults pager.entry.entropy.now) (E.faults result.1.now) }
    ensures disk_later { D.faults pager.entry.disk.now ≤ D.faults result.0.now }
    ensures entropy_later { E.faults pager.entry.entropy.now ≤ E.faults result.1.now }
{
    let header = *pager.header();
    let mut txn = match pager.begin(alloc, write, FRAMES) {
        Ok(txn) => txn,
        Err((pager, error)) => {
            let (disk, entropy) = pager.into_parts();
            return (disk, entropy, Err(begin_error(error)));
        }
    };
    // Page 1 comes first: where it is refused, nothing was written.
    match write_first(&mut txn, &header) {
        Ok(()) => {}
        Err(error) => {
            let (disk, entropy) = txn.into_parts();
            return (disk, entropy, Err(page_error(error)));
        }
    }
    match put_trunks(alloc, &mut txn, header.first_trunk) {
        Ok(()) => {}
        Err(error) => {
            let (disk, entropy, stop) = give_up(txn, error);
            return (disk, entropy, Err(stop));
        }
    }
    let (disk, entropy, done) = txn.end();
    match done {
        Ok(()) => (disk, entropy, Ok(report)),
        Err(CommitFault::DiskFault) => (disk, entropy, Err(ChangeError::Stopped(Stop::DiskFault))),
        Err(CommitFault::EntropyFault) => (disk, entropy, Err(ChangeError::EntropyFault)),
    }
}

// What is left of the transaction after a trunk was not written. Where no call failed, all is taken back.
fn give_up<'d, D: Disk, E: Entropy>(
    txn: Txn<'d, D, E>,
    error: TrunkError,
) -> (&'d mut D, &'d mut E, ChangeError)
    ghost start: { Start }
    requires sizes { (txn.write.profile.page_size ≡ start.base.size) × (txn.count ≡ start.base.pages) }
    requires base_is { IsBase start.base }
    requires still { is_broken error ≡ false → IsReadyFor txn.recorded txn.writer }
    requires still_under_way { is_broken error ≡ false → IsTrue D.tells → IsUnderWay start txn.write txn.recorded txn.written txn.writer (D.reads txn.disk.now)
        (D.images txn.disk.now) E.tells (E.drawn txn.entropy.now) }
    requires asked { IsTrunkRefusal error }
    requires failed { IsTrue D.tells → is_failed error ≡ true }
    ensures disk { result.0.ghost_name ≡ txn.entry.disk.ghost_name }
    ensures entropy { (result.1.ghost_name ≡ txn.entry.entropy.ghost_name) × (result.1.now ≡ txn.entry.entropy.now) }
    ensures told { IsTrue D.tells → IsFault (change_status (Err result.2)) }
    ensures left { IsTrue D.tells → (result.0.now ≡ txn.entry.disk.now) ⊎ (LeavesOnly D.moment D.since txn.entry.disk.now result.0.now (HoldsOld start.base)
        × LeavesOnly D.moment D.since txn.entry.disk.now result.0.now (From SameFresh (D.images txn.entry.disk.now))) }
    ensures late { IsLateChange result.2 }
    ensures disk_fault { result.2 ≡ ChangeError.Stopped Stop.DiskFault → (error ≡ TrunkError.Page PageError.DiskFault) ⊎ Rose (D.faults txn.entry.disk.now) (D.faults result.0.now) }
    ensures entropy_fault { result.2 ≡ ChangeError.EntropyFault → error ≡ TrunkError.Page PageError.EntropyFault }
    ensures later { D.faults txn.entry.disk.now ≤ D.faults result.0.now }
{
    let stop = trunk_error(error);
    if is_broken(error) {
        let (disk, entropy) = txn.into_parts();
        return (disk, entropy, stop);
    }
    let (disk, entropy, undone) = txn.abandon();
    match undone {
        Ok(()) => (disk, entropy, stop),
        Err(_) => (disk, entropy, ChangeError::Stopped(Stop::DiskFault)),
    }
}

// How a trunk that is not written stops the command.
fn trunk_error(error: TrunkError) -> ChangeError
    requires { IsTrunkRefusal error }
    ensures fault { is_failed error ≡ true → IsFault (change_status (Err result)) }
    ensures late { IsLateChange result }
    ensures disk { result ≡ ChangeError.Stopped Stop.DiskFault → error ≡ TrunkError.Page PageError.DiskFault }
    ensures entropy { result ≡ ChangeError.EntropyFault → error ≡ TrunkError.Page PageError.EntropyFault }
{
    match error {
        TrunkError::Page(PageError::TagRefused { page }) => {
            ChangeError::Stopped(Stop::Refused(Refusal::PageTag { page }))
        }
        TrunkError::Page(PageError::DiskFault) => ChangeError::Stopped(Stop::DiskFault),
        TrunkError::Page(PageError::EntropyFault) => ChangeError::EntropyFault,
        TrunkError::OutOfMemory => ChangeError::Stopped(Stop::OutOfMemory),
        // All pages are asked for by their numbers, and none is pinned.
        TrunkError::Page(PageError::OutOfRange | PageError::AllPinned) => unreachable!(),
    }
}

// Whether a call of the disk or of the entropy failed.
fn is_broken(error: TrunkError) -> bool
    ensures { result ≡ is_broken error }
{
    match error {
        TrunkError::Page(PageError::DiskFault | PageError::EntropyFault) => true,
        TrunkError::Page(
            PageError::OutOfRange | PageError::TagRefused { page: _ } | PageError::AllPinned,
        ) => false,
        TrunkError::OutOfMemory => false,
    }
}

// Page 1, of which this is the header: its freelist begins with the map pages, it says that there are none, and rollback mode.
fn write_first<D: Disk, E: Entropy>(
    txn: &mut Txn<'_, D, E>,
    header: &Header,
) -> Result<(), PageError>
    ghost start: { Start }
    requires usable { IsUsable (usable txn.old.write.profile) }
    requires sizes { (txn.old.write.profile.page_size ≡ start.base.size) × (txn.old.count ≡ start.base.pages) }
    requires ready { IsReadyFor txn.old.recorded txn.old.writer }
    requires under_way { IsTrue D.tells → IsUnderWay start txn.old.write txn.old.recorded txn.old.written txn.old.writer (D.reads txn.old.disk.now)
        (D.images txn.old.disk.now) E.tells (E.drawn txn.old.entropy.now) }
    ensures changed { OnOk result (IsTrue D.tells → (seen_pages txn.new.read txn.new.write (main_of (D.reads txn.new.disk.now)) txn.new.count txn.new.written txn.new.changed.held).page 1
        ≡ with_field 92 (next_change header.now.change) (with_field 28 txn.old.count (with_field 24 (next_change header.now.change) (with_bytes versions_at versions
        (with_field 64 0 (with_field 52 0 (with_field 36 ((header.now.free_count + map_count (usable txn.old.write.profile) txn.old.count) % 2 ^ 32)
        (with_field 32 (trunk_from (usable txn.old.write.profile) (map_count (usable txn.old.write.profile) txn.old.count) header.now.first_trunk 0)
        ((seen_pages txn.old.read txn.old.write (main_of (D.reads txn.old.disk.now)) txn.old.count txn.old.written txn.old.changed.held).page 1))))))))) }
    ensures touched { OnOk result ((m : ℕ) → is_page_number txn.old.count m ≡ true → is_touched txn.new.written txn.new.changed.held m
        ≡ (if m == 1 then true else is_touched txn.old.written txn.old.changed.held m)) }
    ensures refused { IfErr result (IsRefusedAs D.tells (seen_pages txn.old.read txn.old.write (main_of (D.reads txn.old.disk.now)) txn.old.count txn.old.written txn.old.changed.held)
        1 (D.faults txn.old.disk.now) (D.faults txn.new.disk.now) (E.faults txn.old.entropy.now) (E.faults txn.new.entropy.now)) }
    ensures ready { OnOk result (IsReadyFor txn.new.recorded txn.new.writer) }
    ensures under_way { OnOk result (IsTrue D.tells → IsUnderWay start txn.new.write txn.new.recorded txn.new.written txn.new.writer (D.reads txn.new.disk.now)
        (D.images txn.new.disk.now) E.tells (E.drawn txn.new.entropy.now)) }
    ensures any_moment { IsTrue D.tells → LeavesOnly D.moment D.since txn.old.disk.now txn.new.disk.now (HoldsOld start.base) }
    ensures fresh { IsTrue D.tells → LeavesOnly D.moment D.since txn.old.disk.now txn.new.disk.now (From SameFresh (D.images txn.old.disk.now)) }
    ensures names { (txn.new.disk.ghost_name ≡ txn.old.disk.ghost_name) × (txn.new.entropy.ghost_name ≡ txn.old.entropy.ghost_name) }
    ensures later { (D.faults txn.old.disk.now ≤ D.faults txn.new.disk.now) × (E.faults txn.old.entropy.now ≤ E.faults txn.new.entropy.now) }
    ensures file { (txn.new.read ≡ txn.old.read) × (txn.new.write ≡ txn.old.write) × (txn.new.count ≡ txn.old.count) }
{
    let usable = txn.usable() as u32;
    let pages = txn.pages();
    let first = first_trunk(usable, pages, header.first_trunk);
    let free = header.free_count.wrapping_add(map_count(usable, pages));
    match write_freelist(txn, first, free) {
        Ok(()) => {}
        Err(error) => return Err(error),
    }
    write_fields(
        txn,
        VERSIONS_AT,
        &[1, 1],
        header.change.wrapping_add(1),
        pages,
    )
}

// The fields of the freelist on page 1, and those of the map pages, of which there are none now.
fn write_freelist<D: Disk, E: Entropy>(
    txn: &mut Txn<'_, D, E>,
    first: u32,
    free: u32,
) -> Result<(), PageError>
    ghost start: { Start }
    requires room { 100 ≤ usable txn.old.write.profile }
    requires sizes { (txn.old.write.profile.page_size ≡ start.base.size) × (txn.old.count ≡ start.base.pages) }
    requires ready { IsReadyFor txn.old.recorded txn.old.writer }
    requires under_way { IsTrue D.tells → IsUnderWay start txn.old.write txn.old.recorded txn.old.written txn.old.writer (D.reads txn.old.disk.now)
        (D.images txn.old.disk.now) E.tells (E.drawn txn.old.entropy.now) }
    ensures changed { OnOk result (IsTrue D.tells → (seen_pages txn.new.read txn.new.write (main_of (D.reads txn.new.disk.now)) txn.new.count txn.new.written txn.new.changed.held).page 1
        ≡ with_field 64 0 (with_field 52 0 (with_field 36 free (with_field 32 first
        ((seen_pages txn.old.read txn.old.write (main_of (D.reads txn.old.disk.now)) txn.old.count txn.old.written txn.old.changed.held).page 1))))) }
    ensures touched { OnOk result ((m : ℕ) → is_page_number txn.old.count m ≡ true → is_touched txn.new.written txn.new.changed.held m
        ≡ (if m == 1 then true else is_touched txn.old.written txn.old.changed.held m)) }
    ensures accepted { OnOk result (IsTrue D.tells → (seen_pages txn.new.read txn.new.write (main_of (D.reads txn.new.disk.now)) txn.new.count txn.new.written txn.new.changed.held).accepts 1 ≡ true) }
    ensures refused { IfErr result (IsRefusedAs D.tells (seen_pages txn.old.read txn.old.write (main_of (D.reads txn.old.disk.now)) txn.old.count txn.old.written txn.old.changed.held)
        1 (D.faults txn.old.disk.now) (D.faults txn.new.disk.now) (E.faults txn.old.entropy.now) (E.faults txn.new.entropy.now)) }
    ensures ready { OnOk result (IsReadyFor txn.new.recorded txn.new.writer) }
    ensures under_way { OnOk result (IsTrue D.tells → IsUnderWay start txn.new.write txn.new.recorded txn.new.written txn.new.writer (D.reads txn.new.disk.now)
        (D.images txn.new.disk.now) E.tells (E.drawn txn.new.entropy.now)) }
    ensures any_moment { IsTrue D.tells → LeavesOnly D.moment D.since txn.old.disk.now txn.new.disk.now (HoldsOld start.base) }
    ensures fresh { IsTrue D.tells → LeavesOnly D.moment D.since txn.old.disk.now txn.new.disk.now (From SameFresh (D.images txn.old.disk.now)) }
    ensures names { (txn.new.disk.ghost_name ≡ txn.old.disk.ghost_name) × (txn.new.entropy.ghost_name ≡ txn.old.entropy.ghost_name) }
    ensures later { (D.faults txn.old.disk.now ≤ D.faults txn.new.disk.now) × (E.faults txn.old.entropy.now ≤ E.faults txn.new.entropy.now) }
    ensures file { (txn.new.read ≡ txn.old.read) × (txn.new.write ≡ txn.old.write) × (txn.new.count ≡ txn.old.count) }
{
    write_bytes(txn, FIRST_TRUNK_AT, &u32_bytes(first))?;
    write_bytes(txn, FREE_COUNT_AT, &u32_bytes(free))?;
    write_bytes(txn, LARGEST_ROOT_AT, &u32_bytes(0))?;
    write_bytes(txn, INCREMENTAL_AT, &u32_bytes(0))?;
    Ok(())
}
