// Page 1 is changed by itself, in one transaction.
ghost use Rattle.std.specs.Prelude.{◌≡◌, ◌≢◌, ◌⊎◌, ◌+◌, ◌≤◌, ◌==◌, ℕ, length, true, Ok, Err, IfErr, OnOk, IsTrue, if◌then◌else◌};
ghost use Rattle.fresh_disk.specs.Published.{IsAlone};
ghost use Rattle.edge_model.specs.Causes.{Rose};
ghost use Rattle.edge_model.specs.Images.{Each, From, LeavesOnly};
ghost use Rattle.cipher_profile.specs.Profile.{IsListed, usable};
ghost use Rattle.page_codec.specs.Page.{salt_of};
ghost use Rattle.pager.specs.Drawn.{drawn_since};
ghost use Rattle.pager.specs.Base.{base_of};
ghost use Rattle.edge_model.specs.Files.{main_of};
ghost use Rattle.pager.specs.Changed.{with_bytes};
ghost use Rattle.pager.specs.Opening.{file_opened};
ghost use Rattle.pager.specs.Pages.{is_page_number};
ghost use Rattle.pager.specs.UnderWay.{IsReadyFor, IsRefusedAs, IsUnderWay, Start, is_touched, seen_pages};
ghost use Rattle.atomic_commit.specs.Database.{HoldsOld};
ghost use Rattle.atomic_commit.specs.Facts.{IsBase, SameFresh};
ghost use Rattle.sqlcipher_tool.specs.Answer.{IsFault};
ghost use Rattle.sqlcipher_tool.specs.Change.{IsLateChange, IsStopOf, KeepsOrCommits, change_status};
ghost use Rattle.rekey_job.specs.Draws.{FileDraws};
ghost use Rattle.sqlcipher_tool.specs.FirstPage.{IsFirstChanged, IsHarmless, with_field};
ghost use Rattle.sqlcipher_tool.specs.Holding.{HoldsOnly, held_by};
ghost use Rattle.sqlcipher_tool.specs.Renewal.{WithDraws};

use crate::opening::{ChangeError, Stop};
use crate::status::Refusal;
use db_format::{CHANGE_AT, SIZE_AT, VALID_FOR_AT};
use edge_model::{Disk, Entropy};
use number_fields::u32_bytes;
use page_codec::Codec;
use pager::{BeginError, CommitFault, PageError, PageSource, Pager, Txn};
use std::alloc::Global;
use text_lines::Text;

/// Page 1 gets these bytes at this offset, in a transaction. The disk and the entropy come back in any case. Answers the report.
pub fn change_first<'d, D: Disk, E: Entropy>(
    alloc: Global,
    pager: Pager<'d, D, E>,
    write: Codec,
    at: usize,
    bytes: &[u8],
    report: Text,
) -> (&'d mut D, &'d mut E, Result<Text, ChangeError>)
    ghost start: { Start }
    requires base { IsTrue D.tells → start.base ≡ base_of pager.codec (main_of (D.reads pager.disk.now)) pager.count }
    requires base_is { IsBase start.base }
    requires sizes { (pager.codec.profile.page_size ≡ start.base.size) × (pager.count ≡ start.base.pages) }
    requires drawn { start.drawn ≡ E.drawn pager.entropy.now }
    requires write { write ≡ pager.codec }
    requires listed { IsListed pager.codec.profile }
    requires salt { IsTrue D.tells → pager.codec.salt ≡ salt_of (main_of (D.reads pager.disk.now)) }
    requires opened { IsTrue D.tells → file_opened pager.codec (main_of (D.reads pager.disk.now)) ≡ Ok (record { header = pager.header; count = pager.count }) }
    requires alone { IsTrue D.tells → Each (D.images pager.disk.now) (IsAlone (main_of (D.reads pager.disk.now))) }
    requires harmless { IsHarmless pager.codec.profile at bytes.now }
    ensures disk { result.0.ghost_name ≡ pager.entry.disk.ghost_name }
    ensures entropy { result.1.ghost_name ≡ pager.entry.entropy.ghost_name }
    ensures told { IsTrue D.tells → IsFault (change_status result.2) ⊎ (result.2 ≡ Ok report) }
    ensures safely { IsTrue D.tells → KeepsOrCommits D.reads D.images D.moment D.since (change_status result.2)
        (WithDraws (IsFirstChanged pager.entry.codec at bytes.now (main_of (D.reads pager.entry.disk.now))) E.tells
        (λ file. FileDraws pager.entry.codec file (λ n. n == 1) 0 (drawn_since (E.drawn pager.entry.entropy.now) (E.drawn result.1.now))))
        (HoldsOnly (held_by pager.entry.codec (main_of (D.reads pager.entry.disk.now))))
        (λ file. HoldsOnly (held_by pager.entry.codec file)) pager.entry.disk.now result.0.now }
    ensures fresh { IsTrue D.tells → LeavesOnly D.moment D.since pager.entry.disk.now result.0.now (From SameFresh (D.images pager.entry.disk.now)) }
    ensures own_draws { OnOk result.2 (IsTrue D.tells → IsTrue E.tells
        → FileDraws pager.entry.codec (main_of (D.reads result.0.now)) (λ n. n == 1) 0 (drawn_since (E.drawn pager.entry.entropy.now) (E.drawn result.1.now))) }
    ensures late { IfErr result.2 IsLateChange }
    ensures disk_fault { result.2 ≡ Err (ChangeError.Stopped Stop.DiskFault) → Rose (D.faults pager.entry.disk.now) (D.faults result.0.now) }
    ensures entropy_fault { result.2 ≡ Err ChangeError.EntropyFault → Rose (E.faults pager.entry.entropy.now) (E.faults result.1.now) }
    ensures disk_later { D.faults pager.entry.disk.now ≤ D.faults result.0.now }
    ensures entropy_later { E.faults pager.entry.entropy.now ≤ E.faults result.1.now }
{
    let change = pager.header().change.wrapping_add(1);
    let pages = pager.pages();
    let mut txn = match pager.begin(alloc, write, 1) {
        Ok(txn) => txn,
        Err((pager, error)) => {
            let (disk, entropy) = pager.into_parts();
            return (disk, entropy, Err(begin_error(error)));
        }
    };
    if let Err(error) = write_fields(&mut txn, at, bytes, change, pages) {
        let (disk, entropy) = txn.into_parts();
        return (disk, entropy, Err(page_error(error)));
    }
    let (disk, entropy, done) = txn.end();
    match done {
        Ok(()) => (disk, entropy, Ok(report)),
        Err(CommitFault::DiskFault) => (disk, entropy, Err(ChangeError::Stopped(Stop::DiskFault))),
        Err(CommitFault::EntropyFault) => (disk, entropy, Err(ChangeError::EntropyFault)),
    }
}

/// How the command stops whose transaction was not begun: both codecs have the layout of the file.
pub fn begin_error(error: BeginError) -> ChangeError
    requires { error ≢ BeginError.LayoutDiffers }
    ensures { result ≡ ChangeError.Stopped Stop.OutOfMemory }
{
    match error {
        BeginError::LayoutDiffers => unreachable!(),
        BeginError::OutOfMemory => ChangeError::Stopped(Stop::OutOfMemory),
    }
}

/// How page 1, where it is refused, stops the command: it is there, and a frame is free for it.
pub fn page_error(error: PageError) -> ChangeError
    requires there { error ≢ PageError.OutOfRange }
    requires free { error ≢ PageError.AllPinned }
    ensures { IsStopOf error result }
{
    match error {
        PageError::TagRefused { page } => {
            ChangeError::Stopped(Stop::Refused(Refusal::PageTag { page }))
        }
        PageError::DiskFault => ChangeError::Stopped(Stop::DiskFault),
        PageError::EntropyFault => ChangeError::EntropyFault,
        PageError::OutOfRange | PageError::AllPinned => unreachable!(),
    }
}

/// The bytes and the fields of a changed page 1.
pub fn write_fields<D: Disk, E: Entropy>(
    txn: &mut Txn<'_, D, E>,
    at: usize,
    bytes: &[u8],
    change: u32,
    pages: u32,
) -> Result<(), PageError>
    ghost start: { Start }
    requires place { (16 ≤ at) × (at + length bytes.now ≤ 100) }
    requires room { 100 ≤ usable txn.old.write.profile }
    requires sizes { (txn.old.write.profile.page_size ≡ start.base.size) × (txn.old.count ≡ start.base.pages) }
    requires ready { IsReadyFor txn.old.recorded txn.old.writer }
    requires under_way { IsTrue D.tells → IsUnderWay start txn.old.write txn.old.recorded txn.old.written txn.old.writer (D.reads txn.old.disk.now)
        (D.images txn.old.disk.now) E.tells (E.drawn txn.old.entropy.now) }
    ensures changed { OnOk result (IsTrue D.tells → (seen_pages txn.new.read txn.new.write (main_of (D.reads txn.new.disk.now)) txn.new.count txn.new.written txn.new.changed.held).page 1
        ≡ with_field 92 change (with_field 28 pages (with_field 24 change (with_bytes at bytes.now
        ((seen_pages txn.old.read txn.old.write (main_of (D.reads txn.old.disk.now)) txn.old.count txn.old.written txn.old.changed.held).page 1))))) }
    ensures touched { OnOk result ((m : ℕ) → is_page_number txn.old.count m ≡ true → is_touched txn.new.written txn.new.changed.held m
        ≡ (if m == 1 then true else is_touched txn.old.written txn.old.changed.held m)) }
    ensures refused { IfErr result (IsRefusedAs D.tells (seen_pages txn.old.read txn.old.write (main_of (D.reads txn.old.disk.now)) txn.old.count txn.old.written txn.old.changed.held)
        1 (D.faults txn.old.disk.now) (D.faults txn.new.disk.now) (E.faults txn.old.entropy.now) (E.faults txn.new.entropy.now)) }
    ensures ready { OnOk result (IsReadyFor txn.new.recorded txn.new.writer) }
    ensures under_way { OnOk result (IsTrue D.tells → IsUnderWay start txn.new.write txn.new.recorded txn.new.written txn.new.writer (D.reads txn.new.disk.now)
        (D.images txn.new.disk.now) E.tells (E.drawn txn.new.entropy.now)) }
    ensures any_moment { IsTrue D.tells → LeavesOnly D.moment D.since txn.old.disk.now txn.new.disk.now (HoldsOld start.base) }
    ensures fresh { IsTrue D.tells → LeavesOnly D.moment D.since txn.old.disk.now txn.new.disk.now (From SameFresh (D.images txn.old.disk.now)) }
    ensures names { (txn.new.disk.ghost_name ≡ txn.old.disk.ghost_name) × (txn.new.entropy.ghost_name ≡ txn.old.entropy.ghost_name) }
    ensures later { (D.faults txn.old.disk.now ≤ D.faults txn.new.disk.now) × (E.faults txn.old.entropy.now ≤ E.faults txn.new.entropy.now) }
    ensures file { (txn.new.read ≡ txn.old.read) × (txn.new.write ≡ txn.old.write) × (txn.new.count ≡ txn.old.count) }
{
    write_bytes(txn, at, bytes)?;
    write_bytes(txn, CHANGE_AT, &u32_bytes(change))?;
    write_bytes(txn, SIZE_AT, &u32_bytes(pages))?;
    write_bytes(txn, VALID_FOR_AT, &u32_bytes(change))?;
    Ok(())
}

/// Bytes at an offset of page 1.
pub fn write_bytes<D: Disk, E: Entropy>(
    txn: &mut Txn<'_, D, E>,
    at: usize,
    bytes: &[u8],
) -> Result<(), PageError>
    ghost start: { Start }
    requires place { (16 ≤ at) × (at + length bytes.now ≤ 100) }
    requires room { 100 ≤ usable txn.old.write.profile }
    requires sizes { (txn.old.write.profile.page_size ≡ start.base.size) × (txn.old.count ≡ start.base.pages) }
    requires ready { IsReadyFor txn.old.recorded txn.old.writer }
    requires under_way { IsTrue D.tells → IsUnderWay start txn.old.write txn.old.recorded txn.old.written txn.old.writer (D.reads txn.old.disk.now)
        (D.images txn.old.disk.now) E.tells (E.drawn txn.old.entropy.now) }
    ensures written { OnOk result (IsTrue D.tells → (seen_pages txn.new.read txn.new.write (main_of (D.reads txn.new.disk.now)) txn.new.count txn.new.written txn.new.changed.held).page 1
        ≡ with_bytes at bytes.now ((seen_pages txn.old.read txn.old.write (main_of (D.reads txn.old.disk.now)) txn.old.count txn.old.written txn.old.changed.held).page 1)) }
    ensures touched { OnOk result ((m : ℕ) → is_page_number txn.old.count m ≡ true → is_touched txn.new.written txn.new.changed.held m
        ≡ (if m == 1 then true else is_touched txn.old.written txn.old.changed.held m)) }
    ensures accepted { OnOk result (IsTrue D.tells → (seen_pages txn.new.read txn.new.write (main_of (D.reads txn.new.disk.now)) txn.new.count txn.new.written txn.new.changed.held).accepts 1 ≡ true) }
    ensures refused { IfErr result (IsRefusedAs D.tells (seen_pages txn.old.read txn.old.write (main_of (D.reads txn.old.disk.now)) txn.old.count txn.old.written txn.old.changed.held)
        1 (D.faults txn.old.disk.now) (D.faults txn.new.disk.now) (E.faults txn.old.entropy.now) (E.faults txn.new.entropy.now)) }
    ensures ready { OnOk result (IsReadyFor txn.new.recorded txn.new.writer) }
    ensures under_way { OnOk result (IsTrue D.tells → IsUnderWay start txn.new.write txn.new.recorded txn.new.written txn.new.writer (D.reads txn.new.disk.now)
        (D.images txn.new.disk.now) E.tells (E.drawn txn.new.entropy.now)) }
    ensures any_moment { IsTrue D.tells → LeavesOnly D.moment D.since txn.old.disk.now txn.new.disk.now (HoldsOld start.base) }
    ensures fresh { IsTrue D.tells → LeavesOnly D.moment D.since txn.old.disk.now txn.new.disk.now (From SameFresh (D.images txn.old.disk.now)) }
    ensures names { (txn.new.disk.ghost_name ≡ txn.old.disk.ghost_name) × (txn.new.entropy.ghost_name ≡ txn.old.entropy.ghost_name) }
    ensures later { (D.faults txn.old.disk.now ≤ D.faults txn.new.disk.now) × (E.faults txn.old.entropy.now ≤ E.faults txn.new.entropy.now) }
    ensures file { (txn.new.read ≡ txn.old.read) × (txn.new.write ≡ txn.old.write) × (txn.new.count ≡ txn.old.count) }
{
    txn.write(1, at, bytes)?;
    Ok(())
}
