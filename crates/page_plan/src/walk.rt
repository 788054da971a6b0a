// The pages of a plan are written, one after another.
ghost use Rattle.std.specs.Prelude.{◌≡◌, ◌≢◌, ◌≤◌, ◌<◌, ◌+◌, ◌-◌, ◌==◌, ◌||◌, ℕ, length, true, false, Err, IfErr, OnOk, IsTrue, replicate, if◌then◌else◌};
ghost use Rattle.atomic_commit.specs.Database.{HoldsOld};
ghost use Rattle.atomic_commit.specs.Facts.{SameFresh};
ghost use Rattle.atomic_commit.specs.Marks.{marked_count};
ghost use Rattle.cipher_profile.specs.Profile.{usable};
ghost use Rattle.edge_model.specs.Causes.{Rose};
ghost use Rattle.edge_model.specs.Files.{main_of};
ghost use Rattle.edge_model.specs.Images.{From, LeavesOnly};
ghost use Rattle.edge_model.specs.OnlyRead.{OnlyRead};
ghost use Rattle.page_codec.specs.Page.{accepts};
ghost use Rattle.page_plan.specs.Planned.{planned};
ghost use Rattle.pager.specs.Causes.{IsChangeRefusal};
ghost use Rattle.pager.specs.Changed.{with_bytes};
ghost use Rattle.pager.specs.File.{page_stored};
ghost use Rattle.pager.specs.Pages.{is_page_number};
ghost use Rattle.pager.specs.Reads.{Untouched};
ghost use Rattle.pager.specs.UnderWay.{IsReadyFor, IsUnderWay, Start, is_failure, is_touched, seen_pages};

use crate::plan::{Over, Plan};
use edge_model::{Disk, Entropy};
use pager::{PageError, Txn};

/// Each page of the plan is written, as the plan says.
pub(crate) fn write_pages<D: Disk, E: Entropy, P: Plan>(
    txn: &mut Txn<'_, D, E>,
    plan: &P,
) -> Result<(), PageError>
    ghost start: { Start }
    requires sizes { (txn.old.write.profile.page_size ≡ start.base.size) × (txn.old.count ≡ start.base.pages) }
    requires usable { usable txn.old.write.profile ≡ P.plain_size plan.now }
    requires untouched { (n : ℕ) → is_touched txn.old.written txn.old.changed.held n ≡ false }
    requires ready { IsReadyFor txn.old.recorded txn.old.writer }
    requires under_way { IsTrue D.tells → IsUnderWay start txn.old.write txn.old.recorded txn.old.written txn.old.writer (D.reads txn.old.disk.now)
        (D.images txn.old.disk.now) E.tells (E.drawn txn.old.entropy.now) }
    requires accepted { IsTrue D.tells → (n : ℕ) → is_page_number txn.old.count n ≡ true → P.opens plan.now n ≡ true
        → accepts txn.old.read n (page_stored txn.old.read start.base.start n) ≡ true }
    ensures seen { OnOk result (IsTrue D.tells → (n : ℕ) → is_page_number txn.old.count n ≡ true
        → (seen_pages txn.new.read txn.new.write (main_of (D.reads txn.new.disk.now)) txn.new.count txn.new.written txn.new.changed.held).page n
        ≡ planned (P.writes plan.now) (P.becomes plan.now) n ((seen_pages txn.old.read txn.old.write (main_of (D.reads txn.old.disk.now)) txn.old.count txn.old.written txn.old.changed.held).page n)) }
    ensures touched { OnOk result ((n : ℕ) → is_page_number txn.old.count n ≡ true → is_touched txn.new.written txn.new.changed.held n ≡ P.writes plan.now n) }
    ensures ready { OnOk result (IsReadyFor txn.new.recorded txn.new.writer) }
    ensures under_way { OnOk result (IsTrue D.tells → IsUnderWay start txn.new.write txn.new.recorded txn.new.written txn.new.writer (D.reads txn.new.disk.now)
        (D.images txn.new.disk.now) E.tells (E.drawn txn.new.entropy.now)) }
    ensures refused { IfErr result (λ e. is_failure e ≡ false → IsReadyFor txn.new.recorded txn.new.writer × (IsTrue D.tells → ⊥)) }
    ensures asked { IfErr result IsChangeRefusal }
    ensures disk_fault { result ≡ Err PageError.DiskFault → Rose (D.faults txn.old.disk.now) (D.faults txn.new.disk.now) }
    ensures entropy_fault { result ≡ Err PageError.EntropyFault → Rose (E.faults txn.old.entropy.now) (E.faults txn.new.entropy.now) }
    ensures any_moment { IsTrue D.tells → LeavesOnly D.moment D.since txn.old.disk.now txn.new.disk.now (HoldsOld start.base) }
    ensures fresh { IsTrue D.tells → LeavesOnly D.moment D.since txn.old.disk.now txn.new.disk.now (From SameFresh (D.images txn.old.disk.now)) }
    // while no page has a record, the disk was only read
    ensures unrecorded { OnOk result (marked_count txn.new.recorded ≡ 0 → IsTrue D.tells → OnlyRead D.reads D.images D.moment D.since txn.old.disk.now txn.new.disk.now) }
    ensures names { (txn.new.disk.ghost_name ≡ txn.old.disk.ghost_name) × (txn.new.entropy.ghost_name ≡ txn.old.entropy.ghost_name) }
    ensures later { (D.faults txn.old.disk.now ≤ D.faults txn.new.disk.now) × (E.faults txn.old.entropy.now ≤ E.faults txn.new.entropy.now) }
    ensures file { (txn.new.read ≡ txn.old.read) × (txn.new.write ≡ txn.old.write) × (txn.new.count ≡ txn.old.count) }
{
    let pages = txn.pages();
    let mut done = 0;
    let mut kept = 0;
    while let Some(n) = plan.next(done, pages) {
        match put_next(txn, plan, n, kept) {
            Ok(last) => {
                kept = last;
                done = n;
            }
            Err(error) => return Err(error),
        }
    }
    Ok(())
}

// Page n is written. Where it lies behind the segments that were looked at so far, the old bytes of its own are kept first, if that pays.
// The answer is the last page that was looked at.
fn put_next<D: Disk, E: Entropy, P: Plan>(
    txn: &mut Txn<'_, D, E>,
    plan: &P,
    n: u32,
    kept: u32,
) -> Result<u32, PageError>
    ghost start: { Start }
    requires number { is_page_number txn.old.count n ≡ true }
    requires sizes { (txn.old.write.profile.page_size ≡ start.base.size) × (txn.old.count ≡ start.base.pages) }
    requires usable { usable txn.old.write.profile ≡ P.plain_size plan.now }
    requires ready { IsReadyFor txn.old.recorded txn.old.writer }
    requires under_way { IsTrue D.tells → IsUnderWay start txn.old.write txn.old.recorded txn.old.written txn.old.writer (D.reads txn.old.disk.now)
        (D.images txn.old.disk.now) E.tells (E.drawn txn.old.entropy.now) }
    requires accepted { IsTrue D.tells → P.opens plan.now n ≡ true → accepts txn.old.read n (page_stored txn.old.read start.base.start n) ≡ true }
    ensures seen { OnOk result (IsTrue D.tells → (m : ℕ)
        → (seen_pages txn.new.read txn.new.write (main_of (D.reads txn.new.disk.now)) txn.new.count txn.new.written txn.new.changed.held).page m
        ≡ (if m == n then planned (P.writes plan.now) (P.becomes plan.now) n ((seen_pages txn.old.read txn.old.write (main_of (D.reads txn.old.disk.now)) txn.old.count txn.old.written txn.old.changed.held).page n)
        else (seen_pages txn.old.read txn.old.write (main_of (D.reads txn.old.disk.now)) txn.old.count txn.old.written txn.old.changed.held).page m)) }
    ensures touched { OnOk result ((m : ℕ) → is_page_number txn.old.count m ≡ true → is_touched txn.new.written txn.new.changed.held m
        ≡ (if m == n then P.writes plan.now n || is_touched txn.old.written txn.old.changed.held n else is_touched txn.old.written txn.old.changed.held m)) }
    ensures ready { OnOk result (IsReadyFor txn.new.recorded txn.new.writer) }
    ensures under_way { OnOk result (IsTrue D.tells → IsUnderWay start txn.new.write txn.new.recorded txn.new.written txn.new.writer (D.reads txn.new.disk.now)
        (D.images txn.new.disk.now) E.tells (E.drawn txn.new.entropy.now)) }
    ensures refused { IfErr result (λ e. is_failure e ≡ false → IsReadyFor txn.new.recorded txn.new.writer × (IsTrue D.tells → ⊥)) }
    ensures asked { IfErr result IsChangeRefusal }
    ensures disk_fault { result ≡ Err PageError.DiskFault → Rose (D.faults txn.old.disk.now) (D.faults txn.new.disk.now) }
    ensures entropy_fault { result ≡ Err PageError.EntropyFault → Rose (E.faults txn.old.entropy.now) (E.faults txn.new.entropy.now) }
    ensures any_moment { IsTrue D.tells → LeavesOnly D.moment D.since txn.old.disk.now txn.new.disk.now (HoldsOld start.base) }
    ensures fresh { IsTrue D.tells → LeavesOnly D.moment D.since txn.old.disk.now txn.new.disk.now (From SameFresh (D.images txn.old.disk.now)) }
    // while no page has a record, the disk was only read
    ensures unrecorded { OnOk result (marked_count txn.new.recorded ≡ 0 → (marked_count txn.old.recorded ≡ 0)
        × (IsTrue D.tells → OnlyRead D.reads D.images D.moment D.since txn.old.disk.now txn.new.disk.now)) }
    ensures names { (txn.new.disk.ghost_name ≡ txn.old.disk.ghost_name) × (txn.new.entropy.ghost_name ≡ txn.old.entropy.ghost_name) }
    ensures later { (D.faults txn.old.disk.now ≤ D.faults txn.new.disk.now) × (E.faults txn.old.entropy.now ≤ E.faults txn.new.entropy.now) }
    ensures file { (txn.new.read ≡ txn.old.read) × (txn.new.write ≡ txn.old.write) × (txn.new.count ≡ txn.old.count) }
{
    if n <= kept {
        put_planned(txn, plan, n)?;
        return Ok(kept);
    }
    let last = keep_segment(txn, plan, n)?;
    put_planned(txn, plan, n)?;
    Ok(last)
}

// Keeps the old bytes of the segment that begins with page n, where the plan says so: its pages wait for the journal once then. The
// answer is the segment's last page.
fn keep_segment<D: Disk, E: Entropy, P: Plan>(
    txn: &mut Txn<'_, D, E>,
    plan: &P,
    n: u32,
) -> Result<u32, PageError>
    ghost start: { Start }
    requires number { is_page_number txn.old.count n ≡ true }
    requires sizes { (txn.old.write.profile.page_size ≡ start.base.size) × (txn.old.count ≡ start.base.pages) }
    requires ready { IsReadyFor txn.old.recorded txn.old.writer }
    requires under_way { IsTrue D.tells → IsUnderWay start txn.old.write txn.old.recorded txn.old.written txn.old.writer (D.reads txn.old.disk.now)
        (D.images txn.old.disk.now) E.tells (E.drawn txn.old.entropy.now) }
    ensures seen { OnOk result (IsTrue D.tells → (m : ℕ)
        → (seen_pages txn.new.read txn.new.write (main_of (D.reads txn.new.disk.now)) txn.new.count txn.new.written txn.new.changed.held).page m
        ≡ (seen_pages txn.old.read txn.old.write (main_of (D.reads txn.old.disk.now)) txn.old.count txn.old.written txn.old.changed.held).page m) }
    ensures kept { (txn.new.changed ≡ txn.old.changed) × (txn.new.written ≡ txn.old.written) }
    ensures ready { OnOk result (IsReadyFor txn.new.recorded txn.new.writer) }
    ensures under_way { OnOk result (IsTrue D.tells → IsUnderWay start txn.new.write txn.new.recorded txn.new.written txn.new.writer (D.reads txn.new.disk.now)
        (D.images txn.new.disk.now) E.tells (E.drawn txn.new.entropy.now)) }
    ensures fault { IfErr result (λ e. (e ≡ PageError.DiskFault) × Rose (D.faults txn.old.disk.now) (D.faults txn.new.disk.now)) }
    ensures any_moment { IsTrue D.tells → LeavesOnly D.moment D.since txn.old.disk.now txn.new.disk.now (HoldsOld start.base) }
    ensures fresh { IsTrue D.tells → LeavesOnly D.moment D.since txn.old.disk.now txn.new.disk.now (From SameFresh (D.images txn.old.disk.now)) }
    // while no page has a record, the disk was only read
    ensures unrecorded { OnOk result (marked_count txn.new.recorded ≡ 0 → (marked_count txn.old.recorded ≡ 0)
        × (IsTrue D.tells → OnlyRead D.reads D.images D.moment D.since txn.old.disk.now txn.new.disk.now)) }
    ensures disk { txn.new.disk.ghost_name ≡ txn.old.disk.ghost_name }
    ensures entropy { Untouched txn.old.entropy txn.new.entropy }
    ensures later { D.faults txn.old.disk.now ≤ D.faults txn.new.disk.now }
    ensures file { (txn.new.read ≡ txn.old.read) × (txn.new.write ≡ txn.old.write) × (txn.new.count ≡ txn.old.count) }
{
    let count = segment_pages(plan.segment(), txn.page_size(), n, txn.pages());
    let last = n - 1 + count;
    if !plan.keeps_together(n, last) {
        return Ok(last);
    }
    match txn.keep_ahead(n, count) {
        Ok(()) => Ok(last),
        Err(_) => Err(PageError::DiskFault),
    }
}

// How many pages of this length the segment has that begins with page n of so many.
fn segment_pages(segment: u32, page_size: u32, n: u32, pages: u32) -> u32
    requires segment { 65536 ≤ segment }
    requires size { (512 ≤ page_size) × (page_size ≤ 65536) }
    requires number { (1 ≤ n) × (n ≤ pages) }
    ensures some { 1 ≤ result }
    ensures within { n + result ≤ pages + 1 }
{
    let most = segment / page_size;
    let left = pages - (n - 1);
    if left < most { left } else { most }
}

// Page n is written, where the plan writes it. Else nothing is done.
fn put_planned<D: Disk, E: Entropy, P: Plan>(
    txn: &mut Txn<'_, D, E>,
    plan: &P,
    n: u32,
) -> Result<(), PageError>
    ghost start: { Start }
    requires number { is_page_number txn.old.count n ≡ true }
    requires sizes { (txn.old.write.profile.page_size ≡ start.base.size) × (txn.old.count ≡ start.base.pages) }
    requires usable { usable txn.old.write.profile ≡ P.plain_size plan.now }
    requires ready { IsReadyFor txn.old.recorded txn.old.writer }
    requires under_way { IsTrue D.tells → IsUnderWay start txn.old.write txn.old.recorded txn.old.written txn.old.writer (D.reads txn.old.disk.now)
        (D.images txn.old.disk.now) E.tells (E.drawn txn.old.entropy.now) }
    requires accepted { IsTrue D.tells → P.opens plan.now n ≡ true → accepts txn.old.read n (page_stored txn.old.read start.base.start n) ≡ true }
    ensures seen { OnOk result (IsTrue D.tells → (m : ℕ)
        → (seen_pages txn.new.read txn.new.write (main_of (D.reads txn.new.disk.now)) txn.new.count txn.new.written txn.new.changed.held).page m
        ≡ (if m == n then planned (P.writes plan.now) (P.becomes plan.now) n ((seen_pages txn.old.read txn.old.write (main_of (D.reads txn.old.disk.now)) txn.old.count txn.old.written txn.old.changed.held).page n)
        else (seen_pages txn.old.read txn.old.write (main_of (D.reads txn.old.disk.now)) txn.old.count txn.old.written txn.old.changed.held).page m)) }
    ensures touched { OnOk result ((m : ℕ) → is_page_number txn.old.count m ≡ true → is_touched txn.new.written txn.new.changed.held m
        ≡ (if m == n then P.writes plan.now n || is_touched txn.old.written txn.old.changed.held n else is_touched txn.old.written txn.old.changed.held m)) }
    ensures ready { OnOk result (IsReadyFor txn.new.recorded txn.new.writer) }
    ensures under_way { OnOk result (IsTrue D.tells → IsUnderWay start txn.new.write txn.new.recorded txn.new.written txn.new.writer (D.reads txn.new.disk.now)
        (D.images txn.new.disk.now) E.tells (E.drawn txn.new.entropy.now)) }
    ensures refused { IfErr result (λ e. is_failure e ≡ false → IsReadyFor txn.new.recorded txn.new.writer × (IsTrue D.tells → ⊥)) }
    ensures asked { IfErr result IsChangeRefusal }
    ensures disk_fault { result ≡ Err PageError.DiskFault → Rose (D.faults txn.old.disk.now) (D.faults txn.new.disk.now) }
    ensures entropy_fault { result ≡ Err PageError.EntropyFault → Rose (E.faults txn.old.entropy.now) (E.faults txn.new.entropy.now) }
    ensures any_moment { IsTrue D.tells → LeavesOnly D.moment D.since txn.old.disk.now txn.new.disk.now (HoldsOld start.base) }
    ensures fresh { IsTrue D.tells → LeavesOnly D.moment D.since txn.old.disk.now txn.new.disk.now (From SameFresh (D.images txn.old.disk.now)) }
    // while no page has a record, the disk was only read
    ensures unrecorded { OnOk result (marked_count txn.new.recorded ≡ 0 → (marked_count txn.old.recorded ≡ 0)
        × (IsTrue D.tells → OnlyRead D.reads D.images D.moment D.since txn.old.disk.now txn.new.disk.now)) }
    ensures names { (txn.new.disk.ghost_name ≡ txn.old.disk.ghost_name) × (txn.new.entropy.ghost_name ≡ txn.old.entropy.ghost_name) }
    ensures later { (D.faults txn.old.disk.now ≤ D.faults txn.new.disk.now) × (E.faults txn.old.entropy.now ≤ E.faults txn.new.entropy.now) }
    ensures file { (txn.new.read ≡ txn.old.read) × (txn.new.write ≡ txn.old.write) × (txn.new.count ≡ txn.old.count) }
{
    match plan.over(n) {
        Some(over) => put_over(txn, n, over),
        None => Ok(()),
    }
}

// These bytes are put over page n.
fn put_over<D: Disk, E: Entropy>(
    txn: &mut Txn<'_, D, E>,
    n: u32,
    over: Over<'_>,
) -> Result<(), PageError>
    ghost start: { Start }
    requires number { is_page_number txn.old.count n ≡ true }
    requires within { over.at + length over.bytes.now ≤ usable txn.old.write.profile }
    requires first { n ≡ 1 → (over.zeroed ≡ false) × (16 ≤ over.at) }
    requires sizes { (txn.old.write.profile.page_size ≡ start.base.size) × (txn.old.count ≡ start.base.pages) }
    requires ready { IsReadyFor txn.old.recorded txn.old.writer }
    requires under_way { IsTrue D.tells → IsUnderWay start txn.old.write txn.old.recorded txn.old.written txn.old.writer (D.reads txn.old.disk.now)
        (D.images txn.old.disk.now) E.tells (E.drawn txn.old.entropy.now) }
    requires accepted { IsTrue D.tells → over.zeroed ≡ false → accepts txn.old.read n (page_stored txn.old.read start.base.start n) ≡ true }
    ensures seen { OnOk result (IsTrue D.tells → (m : ℕ)
        → (seen_pages txn.new.read txn.new.write (main_of (D.reads txn.new.disk.now)) txn.new.count txn.new.written txn.new.changed.held).page m
        ≡ (if m == n then with_bytes over.entry.at over.entry.bytes.now (if over.entry.zeroed then replicate (usable txn.old.write.profile) 0 else (seen_pages txn.old.read txn.old.write (main_of (D.reads txn.old.disk.now)) txn.old.count txn.old.written txn.old.changed.held).page n)
        else (seen_pages txn.old.read txn.old.write (main_of (D.reads txn.old.disk.now)) txn.old.count txn.old.written txn.old.changed.held).page m)) }
    ensures touched { OnOk result ((m : ℕ) → is_page_number txn.old.count m ≡ true → is_touched txn.new.written txn.new.changed.held m
        ≡ (if m == n then true else is_touched txn.old.written txn.old.changed.held m)) }
    ensures ready { OnOk result (IsReadyFor txn.new.recorded txn.new.writer) }
    ensures under_way { OnOk result (IsTrue D.tells → IsUnderWay start txn.new.write txn.new.recorded txn.new.written txn.new.writer (D.reads txn.new.disk.now)
        (D.images txn.new.disk.now) E.tells (E.drawn txn.new.entropy.now)) }
    ensures refused { IfErr result (λ e. is_failure e ≡ false → IsReadyFor txn.new.recorded txn.new.writer × (IsTrue D.tells → ⊥)) }
    ensures asked { IfErr result IsChangeRefusal }
    ensures disk_fault { result ≡ Err PageError.DiskFault → Rose (D.faults txn.old.disk.now) (D.faults txn.new.disk.now) }
    ensures entropy_fault { result ≡ Err PageError.EntropyFault → Rose (E.faults txn.old.entropy.now) (E.faults txn.new.entropy.now) }
    ensures any_moment { IsTrue D.tells → LeavesOnly D.moment D.since txn.old.disk.now txn.new.disk.now (HoldsOld start.base) }
    ensures fresh { IsTrue D.tells → LeavesOnly D.moment D.since txn.old.disk.now txn.new.disk.now (From SameFresh (D.images txn.old.disk.now)) }
    // while no page has a record, the disk was only read
    ensures unrecorded { OnOk result (marked_count txn.new.recorded ≡ 0 → (marked_count txn.old.recorded ≡ 0)
        × (IsTrue D.tells → OnlyRead D.reads D.images D.moment D.since txn.old.disk.now txn.new.disk.now)) }
    ensures names { (txn.new.disk.ghost_name ≡ txn.old.disk.ghost_name) × (txn.new.entropy.ghost_name ≡ txn.old.entropy.ghost_name) }
    ensures later { (D.faults txn.old.disk.now ≤ D.faults txn.new.disk.now) × (E.faults txn.old.entropy.now ≤ E.faults txn.new.entropy.now) }
    ensures file { (txn.new.read ≡ txn.old.read) × (txn.new.write ≡ txn.old.write) × (txn.new.count ≡ txn.old.count) }
{
    if over.zeroed {
        return put_over_zeros(txn, n, over.at, over.bytes);
    }
    txn.write(n, over.at, over.bytes)
}

// Page n, which is not page 1, is zeros and these bytes over them. What it was is not opened.
fn put_over_zeros<D: Disk, E: Entropy>(
    txn: &mut Txn<'_, D, E>,
    n: u32,
    at: usize,
    bytes: &[u8],
) -> Result<(), PageError>
    ghost start: { Start }
    requires number { is_page_number txn.old.count n ≡ true }
    requires other { n ≢ 1 }
    requires within { at + length bytes.now ≤ usable txn.old.write.profile }
    requires sizes { (txn.old.write.profile.page_size ≡ start.base.size) × (txn.old.count ≡ start.base.pages) }
    requires ready { IsReadyFor txn.old.recorded txn.old.writer }
    requires under_way { IsTrue D.tells → IsUnderWay start txn.old.write txn.old.recorded txn.old.written txn.old.writer (D.reads txn.old.disk.now)
        (D.images txn.old.disk.now) E.tells (E.drawn txn.old.entropy.now) }
    ensures seen { OnOk result (IsTrue D.tells → (m : ℕ)
        → (seen_pages txn.new.read txn.new.write (main_of (D.reads txn.new.disk.now)) txn.new.count txn.new.written txn.new.changed.held).page m
        ≡ (if m == n then with_bytes at bytes.now (replicate (usable txn.old.write.profile) 0)
        else (seen_pages txn.old.read txn.old.write (main_of (D.reads txn.old.disk.now)) txn.old.count txn.old.written txn.old.changed.held).page m)) }
    ensures touched { OnOk result ((m : ℕ) → is_page_number txn.old.count m ≡ true → is_touched txn.new.written txn.new.changed.held m
        ≡ (if m == n then true else is_touched txn.old.written txn.old.changed.held m)) }
    ensures ready { OnOk result (IsReadyFor txn.new.recorded txn.new.writer) }
    ensures under_way { OnOk result (IsTrue D.tells → IsUnderWay start txn.new.write txn.new.recorded txn.new.written txn.new.writer (D.reads txn.new.disk.now)
        (D.images txn.new.disk.now) E.tells (E.drawn txn.new.entropy.now)) }
    ensures refused { IfErr result (λ e. is_failure e ≡ false → IsReadyFor txn.new.recorded txn.new.writer × (IsTrue D.tells → ⊥)) }
    ensures asked { IfErr result IsChangeRefusal }
    ensures disk_fault { result ≡ Err PageError.DiskFault → Rose (D.faults txn.old.disk.now) (D.faults txn.new.disk.now) }
    ensures entropy_fault { result ≡ Err PageError.EntropyFault → Rose (E.faults txn.old.entropy.now) (E.faults txn.new.entropy.now) }
    ensures any_moment { IsTrue D.tells → LeavesOnly D.moment D.since txn.old.disk.now txn.new.disk.now (HoldsOld start.base) }
    ensures fresh { IsTrue D.tells → LeavesOnly D.moment D.since txn.old.disk.now txn.new.disk.now (From SameFresh (D.images txn.old.disk.now)) }
    // while no page has a record, the disk was only read
    ensures unrecorded { OnOk result (marked_count txn.new.recorded ≡ 0 → (marked_count txn.old.recorded ≡ 0)
        × (IsTrue D.tells → OnlyRead D.reads D.images D.moment D.since txn.old.disk.now txn.new.disk.now)) }
    ensures names { (txn.new.disk.ghost_name ≡ txn.old.disk.ghost_name) × (txn.new.entropy.ghost_name ≡ txn.old.entropy.ghost_name) }
    ensures later { (D.faults txn.old.disk.now ≤ D.faults txn.new.disk.now) × (E.faults txn.old.entropy.now ≤ E.faults txn.new.entropy.now) }
    ensures file { (txn.new.read ≡ txn.old.read) × (txn.new.write ≡ txn.old.write) × (txn.new.count ≡ txn.old.count) }
{
    txn.page_zero(n)?;
    txn.write(n, at, bytes)
}
