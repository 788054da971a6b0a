// `settle` of a file with its log: the steps of it, each over a disk of the same folder. `specs/Seams.antt` says how they join.
ghost use Rattle.std.specs.Prelude.{◌≡◌, ◌⊎◌, ◌≢◌, ◌≤◌, ◌<◌, ◌∷◌, [], length, true, false, None, Some, Ok, Err, IfErr, IfOk, IfSome, IsTrue, OnOk};
ghost use Rattle.btree_walk.specs.Causes.{is_failure};
ghost use Rattle.cipher_profile.specs.Profile.{IsListed, form_of, is_plain};
ghost use Rattle.db_format.specs.Header.{header_fields};
ghost use Rattle.db_format.specs.Source.{no_pins};
ghost use Rattle.edge_model.specs.Causes.{HasCause, Rose};
ghost use Rattle.edge_model.specs.Files.{bytes_of, main_of};
ghost use Rattle.edge_model.specs.Images.{Each, From, LeavesOnly};
ghost use Rattle.edge_model.specs.OnlyRead.{OnlyRead};
ghost use Rattle.log_recovery.specs.Opened.{IsLogDone, KeepsOpened, log_answer_to};
ghost use Rattle.log_recovery.specs.declared.settling.LogLaid.{LogLaid as Laying};
ghost use Rattle.map_pages.specs.Beside.{is_fault_beside};
ghost use Rattle.map_pages.specs.Settled.{CanBeSettled};
ghost use Rattle.pager.specs.Drawn.{drawn_since};
ghost use Rattle.pager.specs.Causes.{is_fault};
ghost use Rattle.pager.specs.Held.{pins_of};
ghost use Rattle.pager.specs.PagesOf.{pages_of};
ghost use Rattle.pager.specs.Reads.{DiskRead, Untouched};
ghost use Rattle.rollback_journal.specs.Recovery.{HasByte, IsPlaybackDone, KeepsRecovered};
ghost use Rattle.sqlcipher_tool.specs.Answer.{HasDrawnCauses, IsKeyStatus, IsStopStatus, PutsLine};
ghost use Rattle.sqlcipher_tool.specs.Crash.{IsSafely};
ghost use Rattle.sqlcipher_tool.specs.Due.{change_answers, key_lines};
ghost use Rattle.sqlcipher_tool.specs.Holding.{disk_run};
ghost use Rattle.sqlcipher_tool.specs.Opening.{AreRecovered};
ghost use Rattle.sqlcipher_tool.specs.Promises.{AnswersOne, secrets_of};
ghost use Rattle.sqlcipher_tool.specs.Recovered.{recovered_answers, recovered_main};
ghost use Rattle.sqlcipher_tool.specs.Renewal.{renewed};
ghost use Rattle.page_codec.specs.Page.{codec_salt};
ghost use Rattle.sqlcipher_tool.specs.Settling.{CanBeLaid, IsChecked, IsOtherLog, IsWalked, frames_of, settled_by};
ghost use Rattle.sqlcipher_tool.specs.Words.{form, texts};
ghost use Rattle.sqlcipher_tool.specs.declared.change.Change.TheVariants.{Settle as SettleBy};
ghost use Rattle.sqlcipher_tool.specs.declared.command.Command.TheVariants.{Change as ChangeFile};

use crate::change::{Change, change_file};
use crate::command::{Command, parse_words};
use crate::conclusion::{conclude_key, conclude_refusal, conclude_stop};
use crate::mute::Mute;
use crate::no_entropy::NoEntropy;
use crate::opening::{Stop, open_main};
use crate::recovery::recover_main;
use crate::secrets::{Secrets, read_secrets};
use crate::settle::{Marks, read_marks};
use crate::status::{Refusal, Status};
use crate::verify::verify_pages;
use crate::with_log::conclude_view;
use btree_walk::WalkError;
use cipher_profile::{Profile, Secret};
use db_format::Defect;
use edge_model::{Disk, Entropy, Failed, Role, Sink, Source};
use log_recovery::{LogLaid, settle_log};
use log_view::ViewError;
use map_pages::{MapRefusal, census_beside};
use page_codec::MAGIC;
use pager::{PageError, Pager, codec_of, file_length, read_main};
use std::alloc::Global;

/// The profile of a file that is settled, where the words ask for that and do not refuse it.
pub fn profile_to_settle(words: &[&str]) -> Option<Profile>
    ensures value { result ≡ settled_by (form (texts words.now)) }
    ensures listed { IfSome result IsListed }
{
    let command = parse_words(words)?;
    if command.refusal().is_some() {
        return None;
    }
    match command {
        Command::Change(profile, Change::Settle { .. }) => Some(profile),
        _ => None,
    }
}

/// The secrets of a file that is settled, by its key line. Where that gives none, its line is printed.
pub fn key_to_settle<K: Source, S: Sink>(
    profile: Profile,
    input: &mut K,
    out: &mut S,
) -> Result<Secrets, Status>
    ensures told { IfOk result (λ secrets. (is_plain profile ≡ false → IsTrue K.tells)
        → key_lines (form_of profile ∷ None ∷ []) (K.left input.old) ≡ Ok (secrets_of secrets)) }
    ensures ends { IfErr result IsKeyStatus }
    ensures input_fault { result ≡ Err Status.InputFault → Rose (K.faults input.old) (K.faults input.new) }
    ensures asked { IfErr result (λ status. is_plain profile ≡ false) }
    ensures output_fault { result ≡ Err Status.OutputFault → Rose (S.faults out.old) (S.faults out.new) }
    ensures line { IfErr result (λ status. IsTrue S.tells → PutsLine status (S.taken out.old) (S.taken out.new)) }
    ensures quiet { OnOk result (out.new ≡ out.old) }
{
    match read_secrets((profile.line_form(), None), input) {
        Ok(secrets) => Ok(secrets),
        Err(error) => Err(conclude_key(out, error)),
    }
}

/// Run 0: Main is recovered from its journal, whatever log stands beside.
pub fn recover_to_settle<S: Sink, D: Disk>(
    alloc: Global,
    profile: Profile,
    out: &mut S,
    disk: &mut D,
) -> Result<(), Status>
    requires { IsListed profile }
    ensures keeps { IsTrue D.tells → LeavesOnly D.moment D.since disk.old disk.new (From (KeepsRecovered profile.page_size) (D.images disk.old)) }
    ensures done { OnOk result (IsTrue D.tells → 0 < length (main_of (D.reads disk.old))
        → Each (D.images disk.new) (IsPlaybackDone profile.page_size (bytes_of (D.reads disk.old).main) (bytes_of (D.reads disk.old).journal))) }
    ensures ends { IfErr result IsStopStatus }
    ensures disk_fault { result ≡ Err Status.DiskFault → Rose (D.faults disk.old) (D.faults disk.new) }
    ensures output_fault { result ≡ Err Status.OutputFault → Rose (S.faults out.old) (S.faults out.new) }
    ensures line { IfErr result (λ status. IsTrue S.tells → PutsLine status (S.taken out.old) (S.taken out.new)) }
    ensures quiet { OnOk result (out.new ≡ out.old) }
{
    match recover_main(alloc, disk, profile) {
        Ok(_) => Ok(()),
        Err(stop) => Err(conclude_stop(out, stop)),
    }
}

/// Before run 1, over a view of the file and its log: the whole file that they open to is checked. After Ok it may be laid; answers its salt,
/// which `refuse_other_log` asks for. Else why not is printed, in one line.
pub fn check_to_settle<S: Sink, D: Disk>(
    alloc: Global,
    profile: Profile,
    secrets: &Secrets,
    out: &mut S,
    disk: &mut D,
) -> Result<[u8; 16], Status>
    requires { IsListed profile }
    ensures keeps { IsTrue D.tells → LeavesOnly D.moment D.since disk.old disk.new (From (KeepsRecovered profile.page_size) (D.images disk.old)) }
    ensures clean { OnOk result (IsTrue D.tells → CanBeLaid profile secrets.now.first (recovered_main profile (D.reads disk.old))) }
    ensures salt { IfOk result (λ salt. IsTrue D.tells → salt ≡ codec_salt profile (recovered_main profile (D.reads disk.old))) }
    ensures ends { IfErr result IsStopStatus }
    ensures disk_fault { result ≡ Err Status.DiskFault → Rose (D.faults disk.old) (D.faults disk.new) }
    ensures output_fault { result ≡ Err Status.OutputFault → Rose (S.faults out.old) (S.faults out.new) }
    ensures line { IfErr result (λ status. IsTrue S.tells → PutsLine status (S.taken out.old) (S.taken out.new)) }
    ensures quiet { OnOk result (out.new ≡ out.old) }
{
    match check_main(alloc, profile, secrets, disk) {
        Ok(salt) => Ok(salt),
        Err(stop) => Err(conclude_stop(out, stop)),
    }
}

// The check of Main, behind a recovery.
fn check_main<D: Disk>(
    alloc: Global,
    profile: Profile,
    secrets: &Secrets,
    disk: &mut D,
) -> Result<[u8; 16], Stop>
    requires { IsListed profile }
    ensures keeps { IsTrue D.tells → LeavesOnly D.moment D.since disk.old disk.new (From (KeepsRecovered profile.page_size) (D.images disk.old)) }
    ensures clean { OnOk result (IsTrue D.tells → CanBeLaid profile secrets.now.first (recovered_main profile (D.reads disk.old))) }
    ensures salt { IfOk result (λ salt. IsTrue D.tells → salt ≡ codec_salt profile (recovered_main profile (D.reads disk.old))) }
    ensures cause { result ≡ Err Stop.DiskFault → Rose (D.faults disk.old) (D.faults disk.new) }
    ensures later { D.faults disk.old ≤ D.faults disk.new }
{
    match recover_main(alloc, disk, profile) {
        Ok(_) => check_recovered(alloc, profile, secrets, disk),
        Err(stop) => Err(stop),
    }
}

// The check of Main as it is.
fn check_recovered<D: Disk>(
    alloc: Global,
    profile: Profile,
    secrets: &Secrets,
    disk: &mut D,
) -> Result<[u8; 16], Stop>
    requires listed { IsListed profile }
    requires recovered { IsTrue D.tells → AreRecovered (D.reads disk.old) (D.images disk.old) }
    ensures clean { OnOk result (IsTrue D.tells → CanBeLaid profile secrets.now.first (main_of (D.reads disk.old))) }
    ensures salt { IfOk result (λ salt. IsTrue D.tells → salt ≡ codec_salt profile (main_of (D.reads disk.old))) }
    ensures cause { result ≡ Err Stop.DiskFault → Rose (D.faults disk.old) (D.faults disk.new) }
    ensures later { D.faults disk.old ≤ D.faults disk.new }
    ensures only_read { IsTrue D.tells → OnlyRead D.reads D.images D.moment D.since disk.old disk.new }
{
    let passing = Profile {
        reads_log: true,
        ..profile
    };
    let file = match open_main(alloc, disk, passing, &secrets.first) {
        Ok(file) => file,
        Err(stop) => return Err(stop),
    };
    let mut none = NoEntropy;
    let mut pager = file.into_pager(disk, &mut none);
    let salt = pager.codec().salt();
    let outcome = check_pages(alloc, &mut pager);
    let (disk, _none) = pager.into_parts();
    // It ends here as it is: the prover learns of it from this line.
    let _ = disk;
    match outcome {
        Ok(()) => Ok(salt),
        Err(stop) => Err(stop),
    }
}

// The check of the pages of a file, as `verify` walks them.
fn check_pages<D: Disk, E: Entropy>(alloc: Global, pager: &mut Pager<'_, D, E>) -> Result<(), Stop>
    requires header { IsTrue D.tells → 1 ≤ pager.old.count → pager.old.header ≡ header_fields ((pages_of pager.old).page 1) }
    requires unpinned { pins_of pager.old.cache.held ≡ no_pins }
    ensures checked { OnOk result (IsTrue D.tells → IsChecked (pages_of pager.old)) }
    ensures cause { result ≡ Err Stop.DiskFault → Rose (D.faults pager.old.disk.now) (D.faults pager.new.disk.now) }
    ensures disk { DiskRead D.tells D.reads D.images D.moment D.since D.faults pager.old.disk pager.new.disk }
    ensures entropy { Untouched pager.old.entropy pager.new.entropy }
{
    match read_marks(pager) {
        Ok(Marks::Maps) => check_maps(alloc, pager),
        Ok(Marks::Rollback) => check_walk(alloc, pager),
        Ok(Marks::Wal) => check_walk(alloc, pager),
        Err(stop) => Err(stop),
    }
}

// The check of the pages of a file with map pages: none of its parts has a place on one.
fn check_maps<D: Disk, E: Entropy>(alloc: Global, pager: &mut Pager<'_, D, E>) -> Result<(), Stop>
    requires header { IsTrue D.tells → 1 ≤ pager.old.count → pager.old.header ≡ header_fields ((pages_of pager.old).page 1) }
    requires unpinned { pins_of pager.old.cache.held ≡ no_pins }
    ensures walked { OnOk result (IsTrue D.tells → IsWalked (pages_of pager.old)) }
    ensures apart { OnOk result (IsTrue D.tells → CanBeSettled (pages_of pager.old)) }
    ensures cause { result ≡ Err Stop.DiskFault → Rose (D.faults pager.old.disk.now) (D.faults pager.new.disk.now) }
    ensures disk { DiskRead D.tells D.reads D.images D.moment D.since D.faults pager.old.disk pager.new.disk }
    ensures entropy { Untouched pager.old.entropy pager.new.entropy }
{
    let header = *pager.header();
    match census_beside(alloc, pager, &header) {
        Ok(_) => {}
        Err(error) => return Err(map_stop(&error)),
    }
    check_walk(alloc, pager)
}

// How the command stops where a part has a place on a map page, or what else stopped the walk. A map page that is used is used twice.
fn map_stop(error: &WalkError<MapRefusal<PageError>>) -> Stop
    ensures { result ≡ Stop.DiskFault → IsTrue (is_failure (is_fault_beside is_fault) error.now) }
{
    match error {
        WalkError::Defect(defect) => Stop::Refused(Refusal::Defect(*defect)),
        WalkError::Source(MapRefusal::MapPage { page }) => {
            Stop::Refused(Refusal::Defect(Defect::PageTwice { page: *page }))
        }
        WalkError::Source(MapRefusal::Refused(PageError::TagRefused { page })) => {
            Stop::Refused(Refusal::PageTag { page: *page })
        }
        WalkError::Source(MapRefusal::Refused(PageError::DiskFault)) => Stop::DiskFault,
        // A walk asks for pages of the file alone, draws nothing, and pins fewer pages than there are frames; no clause of it says so.
        WalkError::Source(
            MapRefusal::Refused(
                PageError::AllPinned | PageError::OutOfRange | PageError::EntropyFault,
            ),
        )
        | WalkError::OutOfMemory => Stop::OutOfMemory,
    }
}

// The walk of `verify`, of which only the status is asked.
fn check_walk<D: Disk, E: Entropy>(alloc: Global, pager: &mut Pager<'_, D, E>) -> Result<(), Stop>
    requires header { IsTrue D.tells → 1 ≤ pager.old.count → pager.old.header ≡ header_fields ((pages_of pager.old).page 1) }
    requires unpinned { pins_of pager.old.cache.held ≡ no_pins }
    ensures walked { OnOk result (IsTrue D.tells → IsWalked (pages_of pager.old)) }
    ensures cause { result ≡ Err Stop.DiskFault → Rose (D.faults pager.old.disk.now) (D.faults pager.new.disk.now) }
    ensures disk { DiskRead D.tells D.reads D.images D.moment D.since D.faults pager.old.disk pager.new.disk }
    ensures entropy { Untouched pager.old.entropy pager.new.entropy }
{
    match verify_pages(alloc, pager, &mut Mute) {
        Status::Done => Ok(()),
        Status::Refused(refusal) => Err(Stop::Refused(refusal)),
        Status::KeyRefused => Err(Stop::KeyRefused),
        Status::DiskFault => Err(Stop::DiskFault),
        Status::OutOfMemory => Err(Stop::OutOfMemory),
        // Nothing is asked of the words, the input or the entropy, and what is dropped can't fail.
        Status::Usage | Status::InputFault | Status::EntropyFault | Status::OutputFault => {
            unreachable!()
        }
    }
}

/// Before run 1, over the file alone: a log by which the file would get this salt is refused where it is another file's. Nothing is written.
pub fn refuse_other_log<S: Sink, D: Disk>(
    profile: Profile,
    secrets: &Secrets,
    salt: &[u8; 16],
    out: &mut S,
    disk: &mut D,
) -> Result<(), Status>
    requires { IsListed profile }
    ensures own { OnOk result (IsTrue D.tells → IsOtherLog profile secrets.now.first (main_of (D.reads disk.old)) salt.now → ⊥) }
    ensures other { result ≡ Err (Status.Refused Refusal.LogOfOther) → IsTrue D.tells → IsOtherLog profile secrets.now.first (main_of (D.reads disk.old)) salt.now }
    ensures ends { IfErr result (λ status. (status ≡ Status.Refused Refusal.LogOfOther) ⊎ (status ≡ Status.DiskFault) ⊎ (status ≡ Status.OutputFault)) }
    ensures disk_fault { result ≡ Err Status.DiskFault → Rose (D.faults disk.old) (D.faults disk.new) }
    ensures output_fault { result ≡ Err Status.OutputFault → Rose (S.faults out.old) (S.faults out.new) }
    ensures line { IfErr result (λ status. IsTrue S.tells → PutsLine status (S.taken out.old) (S.taken out.new)) }
    ensures quiet { OnOk result (out.new ≡ out.old) }
    ensures only_read { IsTrue D.tells → OnlyRead D.reads D.images D.moment D.since disk.old disk.new }
{
    match has_other_salt(profile, &secrets.first, salt, disk) {
        Ok(true) => Err(conclude_refusal(out, Refusal::LogOfOther)),
        Ok(false) => Ok(()),
        Err(_) => Err(Status::DiskFault),
    }
}

// Whether page 1 of Main opens by a salt of its own, which is not this one.
fn has_other_salt<D: Disk>(
    profile: Profile,
    secret: &Secret,
    salt: &[u8; 16],
    disk: &mut D,
) -> Result<bool, Failed>
    requires { IsListed profile }
    ensures other { IfOk result (λ other. IsTrue D.tells → other ≡ true → IsOtherLog profile secret.now (main_of (D.reads disk.old)) salt.now) }
    ensures own { IfOk result (λ other. IsTrue D.tells → other ≡ false → IsOtherLog profile secret.now (main_of (D.reads disk.old)) salt.now → ⊥) }
    ensures cause { HasCause (D.faults disk.old) (D.faults disk.new) result }
    ensures only_read { IsTrue D.tells → OnlyRead D.reads D.images D.moment D.since disk.old disk.new }
{
    let _usable = profile.usable();
    let length = file_length(disk, Role::Main)?.unwrap_or(0);
    if length < u64::from(profile.page_size) || begins_with(profile, salt, disk)? {
        return Ok(false);
    }
    let (codec, fits) = codec_of(disk, profile, secret)?;
    Ok(fits && codec.salt().as_slice() != salt.as_slice())
}

// Whether this is the salt with which Main begins, or the magic where it holds none: then no key has to be derived.
fn begins_with<D: Disk>(profile: Profile, salt: &[u8; 16], disk: &mut D) -> Result<bool, Failed>
    requires long { IsTrue D.tells → 16 ≤ length (main_of (D.reads disk.old)) }
    ensures told { IfOk result (λ same. IsTrue D.tells → same ≡ true → codec_salt profile (main_of (D.reads disk.old)) ≡ salt.now) }
    ensures cause { HasCause (D.faults disk.old) (D.faults disk.new) result }
    ensures only_read { IsTrue D.tells → OnlyRead D.reads D.images D.moment D.since disk.old disk.new }
{
    if profile.is_clear() {
        return Ok(*salt == MAGIC);
    }
    let mut own = [0u8; 16];
    read_main(disk, 0, &mut own)?;
    Ok(own.as_slice() == salt.as_slice())
}

/// Run 1: the log, which has the role Journal, is laid over Main and removed. Answers how many frames were laid. Where it is refused its line is
/// printed, and nothing was written.
pub fn lay_log<S: Sink, D: Disk>(
    alloc: Global,
    profile: Profile,
    out: &mut S,
    disk: &mut D,
) -> Result<u64, Status>
    ensures keeps { IsTrue D.tells → LeavesOnly D.moment D.since disk.old disk.new (From (KeepsOpened profile.page_size) (D.images disk.old)) }
    ensures frames { IfOk result (λ frames. IsTrue D.tells → (laid : Laying) × (log_answer_to profile.page_size (D.reads disk.old) ≡ Ok laid) × (frames ≡ frames_of laid)) }
    ensures done { OnOk result (IsTrue D.tells → HasByte (bytes_of (D.reads disk.old).main)
        → Each (D.images disk.new) (IsLogDone profile.page_size (bytes_of (D.reads disk.old).main) (bytes_of (D.reads disk.old).journal))) }
    ensures ends { IfErr result IsStopStatus }
    ensures disk_fault { result ≡ Err Status.DiskFault → Rose (D.faults disk.old) (D.faults disk.new) }
    ensures output_fault { result ≡ Err Status.OutputFault → Rose (S.faults out.old) (S.faults out.new) }
    ensures line { IfErr result (λ status. IsTrue S.tells → PutsLine status (S.taken out.old) (S.taken out.new)) }
    ensures quiet { OnOk result (out.new ≡ out.old) }
    ensures unwritten { IfErr result (λ status. status ≢ Status.DiskFault → IsTrue D.tells → D.reads disk.new ≡ D.reads disk.old) }
{
    match settle_log(alloc, disk, profile.page_size) {
        Ok(LogLaid::Nothing | LogLaid::Empty) => Ok(0),
        Ok(LogLaid::Laid { frames }) => Ok(frames),
        Err(why) => Err(conclude_view(out, ViewError::Log(why))),
    }
}

/// Run 2: the marks go. So many frames were laid before.
pub fn settle_marks<S: Sink, E: Entropy, D: Disk>(
    alloc: Global,
    profile: Profile,
    frames: u64,
    secrets: &Secrets,
    out: &mut S,
    entropy: &mut E,
    disk: &mut D,
) -> Status
    requires { IsListed profile }
    ensures answer { IsTrue D.tells
        → AnswersOne (recovered_answers profile (D.reads disk.old)
        (λ file. change_answers (SettleBy frames) (renewed profile (SettleBy frames) secrets.now.first secrets.now.second) file (main_of (D.reads disk.new))))
        result S.tells (S.taken out.old) (S.taken out.new) }
    ensures line { IsTrue S.tells → PutsLine result (S.taken out.old) (S.taken out.new) }
    ensures causes { HasDrawnCauses result true (D.faults disk.old) (D.faults disk.new) (S.faults out.old) (S.faults out.new) (E.faults entropy.old) (E.faults entropy.new) }
    ensures drawn { result ≡ Status.EntropyFault → is_plain profile ≡ false }
    ensures changes { IsTrue D.tells → IsSafely result (ChangeFile profile (SettleBy frames)) E.tells (drawn_since (E.drawn entropy.old) (E.drawn entropy.new))
        (disk_run D.reads D.images D.moment D.since disk.old disk.new) (Some (renewed profile (SettleBy frames) secrets.now.first secrets.now.second)) }
{
    let change = Change::Settle { frames };
    if profile.is_plain() {
        change_file(alloc, profile, change, secrets, out, &mut NoEntropy, disk)
    } else {
        change_file(alloc, profile, change, secrets, out, entropy, disk)
    }
}
