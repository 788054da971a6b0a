// The whole of a database is checked, before anything is written.
ghost use Rattle.std.specs.Prelude.{◌≡◌, ◌≢◌, ◌≤◌, ℕ, true, false, Err, IfOk, IfErr, OnOk, IsTrue};
ghost use Rattle.edge_model.specs.Causes.{Rose};
ghost use Rattle.btree_model.specs.Plain.{is_leaf};
ghost use Rattle.btree_walk.specs.Causes.{IsWalkStop};
ghost use Rattle.db_format.specs.Header.{header_fields};
ghost use Rattle.db_format.specs.Seen.{marked};
ghost use Rattle.db_format.specs.Source.{no_pins};
ghost use Rattle.pager.specs.Causes.{IsReadRefusal, MayRefuse};
ghost use Rattle.pager.specs.Held.{pins_of};
ghost use Rattle.pager.specs.PagesOf.{pages_of};
ghost use Rattle.pager.specs.Reads.{DiskRead, Untouched};
ghost use Rattle.schema_map.specs.Census.{IsWhole};
ghost use Rattle.rekey_job.specs.Stops.{AreClean, IsFirstRefused, IsRekeyShown, rekey_page_error, rekey_walk_error};

use crate::error::RekeyError;
use btree_walk::WalkError;
use edge_model::{Disk, Entropy};
use pager::{PageError, PageSource, Pager};
use schema_map::{Census, census};
use space_map::FreeMap;
use std::alloc::Global;

/// Checks that no part has a defect and that each page in use is accepted. Answers the freelist.
pub fn check_pages<D: Disk, E: Entropy>(
    alloc: Global,
    pager: &mut Pager<'_, D, E>,
) -> Result<FreeMap, RekeyError>
    requires unpinned { pins_of pager.old.cache.held ≡ no_pins }
    requires header { IsTrue D.tells → pager.old.header ≡ header_fields ((pages_of pager.old).page 1) }
    ensures clean { OnOk result (IsTrue D.tells → AreClean (pages_of pager.old)) }
    ensures leaves { IfOk result (λ leaves. IsTrue D.tells → (n : ℕ) → marked leaves.leaves n ≡ is_leaf (pages_of pager.old) n) }
    ensures shown { IfErr result (λ e. IsTrue D.tells → IsRekeyShown (pages_of pager.old) e) }
    ensures reading { IfErr result (λ e. (e ≢ RekeyError.LayoutDiffers) × (e ≢ RekeyError.EntropyFault)) }
    ensures fault { result ≡ Err RekeyError.DiskFault → Rose (D.faults pager.old.disk.now) (D.faults pager.new.disk.now) }
    ensures disk { DiskRead D.tells D.reads D.images D.moment D.since D.faults pager.old.disk pager.new.disk }
    ensures entropy { Untouched pager.old.entropy pager.new.entropy }
    ensures file { (pager.new.codec ≡ pager.old.codec) × (pager.new.count ≡ pager.old.count) }
{
    let header = *pager.header();
    match census(alloc, pager, &header) {
        Ok(census) => check_others(pager, census),
        Err(error) => Err(walk_error(&error)),
    }
}

// The database has no defect. Checks the pages that the census has not met, and answers the freelist.
fn check_others<D: Disk, E: Entropy>(
    pager: &mut Pager<'_, D, E>,
    census: Census,
) -> Result<FreeMap, RekeyError>
    requires whole { IsTrue D.tells → IsWhole (pages_of pager.old) census }
    ensures clean { OnOk result (IsTrue D.tells → AreClean (pages_of pager.old)) }
    ensures leaves { IfOk result (λ leaves. IsTrue D.tells → (n : ℕ) → marked leaves.leaves n ≡ is_leaf (pages_of pager.old) n) }
    ensures shown { IfErr result (λ e. IsTrue D.tells → IsRekeyShown (pages_of pager.old) e) }
    ensures reading { IfErr result (λ e. (e ≢ RekeyError.LayoutDiffers) × (e ≢ RekeyError.EntropyFault)) }
    ensures fault { result ≡ Err RekeyError.DiskFault → Rose (D.faults pager.old.disk.now) (D.faults pager.new.disk.now) }
    ensures disk { DiskRead D.tells D.reads D.images D.moment D.since D.faults pager.old.disk pager.new.disk }
    ensures entropy { Untouched pager.old.entropy pager.new.entropy }
    ensures file { (pager.new.codec ≡ pager.old.codec) × (pager.new.count ≡ pager.old.count) }
{
    let Census {
        trees: _,
        entries: _,
        free: _,
        unused,
        schema: _,
        leaves,
    } = census;
    // Where no page is unused, each was met: it is accepted, or a leaf.
    if unused == 0 {
        return Ok(leaves);
    }
    match check_tags(pager, &leaves) {
        Ok(()) => Ok(leaves),
        Err(error) => Err(read_error(error)),
    }
}

// Reads all pages but these leaves.
fn check_tags<D: Disk, E: Entropy>(
    pager: &mut Pager<'_, D, E>,
    leaves: &FreeMap,
) -> Result<(), PageError>
    ensures accepted { OnOk result (IsTrue D.tells → (n : ℕ) → 1 ≤ n → n ≤ pager.old.count → marked leaves.now.leaves n ≡ false → (pages_of pager.old).accepts n ≡ true) }
    ensures refused { IfErr result (λ e. (n : ℕ) → e ≡ PageError.TagRefused n → IsTrue D.tells → IsFirstRefused (pages_of pager.old) (marked leaves.now.leaves) n) }
    ensures read { IfErr result IsReadRefusal }
    ensures fault { result ≡ Err PageError.DiskFault → Rose (D.faults pager.old.disk.now) (D.faults pager.new.disk.now) }
    ensures disk { DiskRead D.tells D.reads D.images D.moment D.since D.faults pager.old.disk pager.new.disk }
    ensures entropy { Untouched pager.old.entropy pager.new.entropy }
    ensures file { (pager.new.codec ≡ pager.old.codec) × (pager.new.count ≡ pager.old.count) }
{
    let pages = pager.pages();
    for done in 0..pages {
        match check_tag(pager, done + 1, leaves) {
            Ok(()) => {}
            Err(error) => return Err(error),
        }
    }
    Ok(())
}

// Reads page n, where it is no leaf.
fn check_tag<D: Disk, E: Entropy>(
    pager: &mut Pager<'_, D, E>,
    n: u32,
    leaves: &FreeMap,
) -> Result<(), PageError>
    ensures accepted { OnOk result (IsTrue D.tells → marked leaves.now.leaves n ≡ false → (pages_of pager.old).accepts n ≡ true) }
    ensures refused { IfErr result (λ e. (marked leaves.now.leaves n ≡ false) × MayRefuse D.tells (pages_of pager.old) n e) }
    ensures fault { result ≡ Err PageError.DiskFault → Rose (D.faults pager.old.disk.now) (D.faults pager.new.disk.now) }
    ensures disk { DiskRead D.tells D.reads D.images D.moment D.since D.faults pager.old.disk pager.new.disk }
    ensures entropy { Untouched pager.old.entropy pager.new.entropy }
    ensures file { (pager.new.codec ≡ pager.old.codec) × (pager.new.count ≡ pager.old.count) }
{
    if leaves.is_leaf(n) {
        return Ok(());
    }
    pager.load(n)
}

// How a page that is refused stops the check.
fn read_error(error: PageError) -> RekeyError
    requires { IsReadRefusal error }
    ensures { result ≡ rekey_page_error error }
{
    match error {
        PageError::TagRefused { page } => RekeyError::PageTag { page },
        PageError::DiskFault => RekeyError::DiskFault,
        // Few pages are pinned, but no clause of a source of pages says that a frame is left.
        PageError::AllPinned => RekeyError::OutOfMemory,
        // All pages are asked for by their numbers.
        PageError::OutOfRange | PageError::EntropyFault => unreachable!(),
    }
}

// How a walk does.
fn walk_error(error: &WalkError<PageError>) -> RekeyError
    requires { IsWalkStop IsReadRefusal error.now }
    ensures { result ≡ rekey_walk_error error.now }
{
    match error {
        WalkError::Defect(defect) => RekeyError::Defect(*defect),
        WalkError::Source(refusal) => read_error(*refusal),
        WalkError::OutOfMemory => RekeyError::OutOfMemory,
    }
}
