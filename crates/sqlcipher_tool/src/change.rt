// A change of the file: it is recovered, opened, and changed in one transaction, or written anew.
ghost use Rattle.std.specs.Prelude.{◌≡◌, ◌≤◌, length, true, false, None, Some, Err, IfErr, IsErr, OnOk, IsTrue};
ghost use Rattle.std.specs.List.{Contains};
ghost use Rattle.fresh_disk.specs.OnlyFresh.{IsOld};
ghost use Rattle.fresh_disk.specs.Published.{IsAlone};
ghost use Rattle.edge_model.specs.Causes.{Rose};
ghost use Rattle.edge_model.specs.Images.{Each, From, LeavesOnly};
ghost use Rattle.edge_model.specs.OnlyRead.{OnlyRead};
ghost use Rattle.page_codec.specs.Page.{keys_of};
ghost use Rattle.edge_model.specs.Files.{main_of};
ghost use Rattle.atomic_commit.specs.Facts.{SameFresh};
ghost use Rattle.sqlcipher_tool.specs.Answer.{Answer, HasDrawnCauses, PutsLine};
ghost use Rattle.sqlcipher_tool.specs.Behind.{HasOnlyRead, IsRecovered, IsRefusedChange};
ghost use Rattle.sqlcipher_tool.specs.Change.{IsLateChange, KeepsOrCommits, change_answer, change_status};
ghost use Rattle.sqlcipher_tool.specs.Crash.{IsSafely};
ghost use Rattle.sqlcipher_tool.specs.Due.{change_answers};
ghost use Rattle.sqlcipher_tool.specs.Holding.{HoldsOnly, disk_run, held_by};
ghost use Rattle.sqlcipher_tool.specs.Opening.{AreRecovered, opened_with};
ghost use Rattle.sqlcipher_tool.specs.Promises.{AnswersOne, IsUnrecovered};
ghost use Rattle.sqlcipher_tool.specs.Recovered.{recovered_answers};
ghost use Rattle.sqlcipher_tool.specs.Renewal.{AreDrawnBy, IsNewDrawn, renewed, secret_after};
ghost use Rattle.sqlcipher_tool.specs.Untouched.{HasNoFile, IsUnwritten};
ghost use Rattle.sqlcipher_tool.specs.Words.{IsServed, second_form, changes_layout, is_in_place, profile_after, profile_before};
ghost use Rattle.sqlcipher_tool.specs.declared.command.Command.TheVariants.{Change as ChangeFile};
ghost use Rattle.pager.specs.Drawn.{drawn_since};

use crate::command::Field;
use crate::conclusion::{conclude, conclude_stop};
use crate::migrate::migrate_file;
use crate::opening::{ChangeError, Stop};
use crate::recovery::recover_main;
use crate::rekey::rekey_file;
use crate::secrets::Secrets;
use crate::settle::settle_file;
use crate::stamp::stamp_file;
use crate::status::Status;
use cipher_profile::{LineForm, Profile};
use edge_model::{Disk, Entropy, Sink};
use std::alloc::Global;
use text_lines::Text;

/// What is changed.
#[derive(Clone, Copy, Debug, PartialEq, Eq)]
pub enum Change {
    /// A field of the database header.
    Stamp {
        /// The field.
        field: Field,
        /// Its new number.
        value: u32,
    },
    /// The marks of WAL mode, which go.
    Settle {
        /// How many frames of the log were laid into the file before.
        frames: u64,
    },
    /// The key of every page, to one of this profile.
    Rekey(Profile),
    /// The profile, to this one: the database is written anew in a file beside, which takes the old one's place.
    Migrate(Profile),
}

impl Change {
    /// The profile by which the old file is opened.
    pub fn profile_before(&self, profile: Profile) -> Profile
        ensures { result ≡ profile_before profile self.now }
    {
        let passes = match self {
            Change::Settle { .. } => true,
            Change::Stamp { .. } | Change::Rekey(_) | Change::Migrate(_) => profile.reads_log,
        };
        Profile {
            reads_log: passes,
            ..profile
        }
    }

    /// The profile of the new file.
    pub fn profile_after(&self, profile: Profile) -> Profile
        ensures { result ≡ profile_after profile self.now }
    {
        match self {
            Change::Stamp { .. } | Change::Settle { .. } => profile,
            Change::Rekey(new) | Change::Migrate(new) => *new,
        }
    }

    /// The form of a key line that is read for the new file alone, where one is.
    pub fn second_form(&self) -> Option<LineForm>
        ensures { result ≡ second_form self.now }
    {
        match self {
            Change::Stamp { .. } | Change::Settle { .. } => None,
            Change::Rekey(new) | Change::Migrate(new) => new.line_form(),
        }
    }

    /// Whether it asks for new keys in place, of a profile whose pages have another size or reserve, or which has another setting,
    /// or of a plain file.
    pub fn changes_layout(&self, old: &Profile) -> bool
        ensures { result ≡ changes_layout old.now self.now }
    {
        match self {
            Change::Rekey(new) => {
                old.is_plain()
                    || !(old.page_size == new.page_size
                        && old.reserve == new.reserve
                        && old.reads_log == new.reads_log)
            }
            Change::Stamp { .. } | Change::Settle { .. } | Change::Migrate(_) => false,
        }
    }
}

/// Changes a file of the profile, after a recovery. The first secret is that of the file, the second that of a new key.
pub fn change_file<S: Sink, E: Entropy, D: Disk>(
    alloc: Global,
    profile: Profile,
    change: Change,
    secrets: &Secrets,
    out: &mut S,
    entropy: &mut E,
    disk: &mut D,
) -> Status
    requires served { IsServed (ChangeFile profile change) }
    requires layout { changes_layout profile change ≡ false }
    ensures answer { IsTrue D.tells
        → AnswersOne (recovered_answers profile (D.reads disk.old) (λ file. change_answers change (renewed profile change secrets.now.first secrets.now.second) file (main_of (D.reads disk.new))))
        result S.tells (S.taken out.old) (S.taken out.new) }
    ensures line { IsTrue S.tells → PutsLine result (S.taken out.old) (S.taken out.new) }
    ensures causes { HasDrawnCauses result true (D.faults disk.old) (D.faults disk.new) (S.faults out.old) (S.faults out.new) (E.faults entropy.old) (E.faults entropy.new) }
    // old or new
    ensures changes { IsTrue D.tells → IsSafely result (ChangeFile profile change) E.tells (drawn_since (E.drawn entropy.old) (E.drawn entropy.new))
        (disk_run D.reads D.images D.moment D.since disk.old disk.new) (Some (renewed profile change secrets.now.first secrets.now.second)) }
    ensures fresh { IsTrue D.tells → is_in_place change ≡ true → LeavesOnly D.moment D.since disk.old disk.new (From SameFresh (D.images disk.old)) }
    ensures fresh_gone { IsTrue D.tells → result ≡ Status.Done → is_in_place change ≡ false → (D.reads disk.new).fresh ≡ None }
    ensures own_draws { IsTrue D.tells → IsTrue E.tells → result ≡ Status.Done
        → AreDrawnBy (ChangeFile profile change) (renewed profile change secrets.now.first secrets.now.second)
        (main_of (D.reads disk.new)) (drawn_since (E.drawn entropy.old) (E.drawn entropy.new)) }
    ensures unrecovered { IsTrue D.tells → IsUnrecovered result → D.reads disk.new ≡ D.reads disk.old }
    ensures recovered { IsTrue D.tells → HasOnlyRead true result → IsRecovered profile (disk_run D.reads D.images D.moment D.since disk.old disk.new) }
    ensures untouched { IsTrue D.tells → HasNoFile profile (D.reads disk.old) → IsUnwritten (disk_run D.reads D.images D.moment D.since disk.old disk.new) }
{
    match recover_main(alloc, disk, profile) {
        Ok(_) => change_main(alloc, profile, change, secrets, out, entropy, disk),
        Err(stop) => conclude_stop(out, stop),
    }
}

// The change of Main as it reads. Its last line takes no memory.
fn change_main<S: Sink, E: Entropy, D: Disk>(
    alloc: Global,
    profile: Profile,
    change: Change,
    secrets: &Secrets,
    out: &mut S,
    entropy: &mut E,
    disk: &mut D,
) -> Status
    requires served { IsServed (ChangeFile profile change) }
    requires layout { changes_layout profile change ≡ false }
    requires recovered { IsTrue D.tells → AreRecovered (D.reads disk.old) (D.images disk.old) }
    requires alone { IsTrue D.tells → profile.page_size ≤ length (main_of (D.reads disk.old))
        → Each (D.images disk.old) (IsAlone (main_of (D.reads disk.old))) }
    ensures answer { IsTrue D.tells
        → AnswersOne (change_answers change (renewed profile change secrets.now.first secrets.now.second)
        (main_of (D.reads disk.old)) (main_of (D.reads disk.new))) result S.tells (S.taken out.old) (S.taken out.new) }
    ensures line { IsTrue S.tells → PutsLine result (S.taken out.old) (S.taken out.new) }
    ensures causes { HasDrawnCauses result true (D.faults disk.old) (D.faults disk.new) (S.faults out.old) (S.faults out.new) (E.faults entropy.old) (E.faults entropy.new) }
    ensures safely { IsTrue D.tells → Each (D.images disk.old) (HoldsOnly (held_by (keys_of (profile_before profile change) secrets.now.first (main_of (D.reads disk.old))) (main_of (D.reads disk.old))))
        → KeepsOrCommits D.reads D.images D.moment D.since result
        (IsNewDrawn (ChangeFile profile change) (renewed profile change secrets.now.first secrets.now.second) E.tells
        (drawn_since (E.drawn entropy.old) (E.drawn entropy.new)) (main_of (D.reads disk.old)))
        (HoldsOnly (held_by (keys_of (profile_before profile change) secrets.now.first (main_of (D.reads disk.old))) (main_of (D.reads disk.old))))
        (λ file. HoldsOnly (held_by (keys_of (profile_after profile change) (secret_after change secrets.now.first secrets.now.second) file) file)) disk.old disk.new }
    ensures fresh { IsTrue D.tells → is_in_place change ≡ true → LeavesOnly D.moment D.since disk.old disk.new (From SameFresh (D.images disk.old)) }
    ensures stays { IsTrue D.tells → HasOnlyRead true result → Each (D.images disk.new) (IsOld (D.images disk.old)) }
    ensures unopened { IsTrue D.tells → IsErr (opened_with (profile_before profile change) secrets.now.first (main_of (D.reads disk.old)))
        → OnlyRead D.reads D.images D.moment D.since disk.old disk.new }
    ensures fresh_gone { IsTrue D.tells → result ≡ Status.Done → is_in_place change ≡ false → (D.reads disk.new).fresh ≡ None }
    ensures own_draws { IsTrue D.tells → IsTrue E.tells → result ≡ Status.Done
        → AreDrawnBy (ChangeFile profile change) (renewed profile change secrets.now.first secrets.now.second)
        (main_of (D.reads disk.new)) (drawn_since (E.drawn entropy.old) (E.drawn entropy.new)) }
{
    match change_opened(alloc, profile, change, secrets, entropy, disk) {
        Ok(report) => conclude(out, &report, Status::Done),
        Err(ChangeError::Stopped(stop)) => conclude_stop(out, stop),
        Err(ChangeError::EntropyFault) => Status::EntropyFault,
    }
}

// Main is opened, and changed. Answers what is printed.
fn change_opened<E: Entropy, D: Disk>(
    alloc: Global,
    profile: Profile,
    change: Change,
    secrets: &Secrets,
    entropy: &mut E,
    disk: &mut D,
) -> Result<Text, ChangeError>
    requires served { IsServed (ChangeFile profile change) }
    requires layout { changes_layout profile change ≡ false }
    requires recovered { IsTrue D.tells → AreRecovered (D.reads disk.old) (D.images disk.old) }
    requires alone { IsTrue D.tells → profile.page_size ≤ length (main_of (D.reads disk.old))
        → Each (D.images disk.old) (IsAlone (main_of (D.reads disk.old))) }
    ensures told { IsTrue D.tells → (answer : Answer) → change_answer result ≡ Some answer
        → Contains (change_answers change (renewed profile change secrets.now.first secrets.now.second) (main_of (D.reads disk.old)) (main_of (D.reads disk.new))) answer }
    ensures safely { IsTrue D.tells → Each (D.images disk.old) (HoldsOnly (held_by (keys_of (profile_before profile change) secrets.now.first (main_of (D.reads disk.old))) (main_of (D.reads disk.old))))
        → KeepsOrCommits D.reads D.images D.moment D.since (change_status result)
        (IsNewDrawn (ChangeFile profile change) (renewed profile change secrets.now.first secrets.now.second) E.tells
        (drawn_since (E.drawn entropy.old) (E.drawn entropy.new)) (main_of (D.reads disk.old)))
        (HoldsOnly (held_by (keys_of (profile_before profile change) secrets.now.first (main_of (D.reads disk.old))) (main_of (D.reads disk.old))))
        (λ file. HoldsOnly (held_by (keys_of (profile_after profile change) (secret_after change secrets.now.first secrets.now.second) file) file)) disk.old disk.new }
    ensures fresh { IsTrue D.tells → is_in_place change ≡ true → LeavesOnly D.moment D.since disk.old disk.new (From SameFresh (D.images disk.old)) }
    ensures stays { IfErr result (λ e. IsRefusedChange e → IsTrue D.tells → Each (D.images disk.new) (IsOld (D.images disk.old))) }
    ensures unopened { IsTrue D.tells → IsErr (opened_with (profile_before profile change) secrets.now.first (main_of (D.reads disk.old)))
        → OnlyRead D.reads D.images D.moment D.since disk.old disk.new }
    ensures fresh_gone { IsTrue D.tells → is_in_place change ≡ false → OnOk result ((D.reads disk.new).fresh ≡ None) }
    ensures own_draws { OnOk result (IsTrue D.tells → IsTrue E.tells
        → AreDrawnBy (ChangeFile profile change) (renewed profile change secrets.now.first secrets.now.second)
        (main_of (D.reads disk.new)) (drawn_since (E.drawn entropy.old) (E.drawn entropy.new))) }
    ensures late { IfErr result IsLateChange }
    ensures disk_fault { result ≡ Err (ChangeError.Stopped Stop.DiskFault) → Rose (D.faults disk.old) (D.faults disk.new) }
    ensures entropy_fault { result ≡ Err ChangeError.EntropyFault → Rose (E.faults entropy.old) (E.faults entropy.new) }
    ensures disk_later { D.faults disk.old ≤ D.faults disk.new }
    ensures entropy_later { E.faults entropy.old ≤ E.faults entropy.new }
{
    match change {
        Change::Stamp { field, value } => stamp_file(
            alloc,
            profile,
            field,
            value,
            &secrets.first,
            entropy,
            disk,
        ),
        Change::Settle { frames } => {
            settle_file(alloc, profile, frames, &secrets.first, entropy, disk)
        }
        Change::Rekey(new) => rekey_file(
            alloc,
            profile,
            new,
            &secrets.first,
            &secrets.second,
            entropy,
            disk,
        ),
        Change::Migrate(new) => migrate_file(
            alloc,
            profile,
            new,
            &secrets.first,
            &secrets.second,
            entropy,
            disk,
        ),
    }
}
