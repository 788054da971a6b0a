// `make`: a database of so many rows, where no file is.
ghost use Rattle.std.specs.Prelude.{◌≡◌, ◌≤◌, true, None, Some, Err, IfErr, OnOk, IsTrue};
ghost use Rattle.std.specs.List.{Contains};
ghost use Rattle.cipher_profile.specs.Profile.{IsListed};
ghost use Rattle.fresh_disk.specs.Published.{IsAlone};
ghost use Rattle.edge_model.specs.Causes.{Rose};
ghost use Rattle.edge_model.specs.Images.{Each, From, LeavesOnly};
ghost use Rattle.edge_model.specs.OnlyRead.{OnlyRead};
ghost use Rattle.make_job.specs.Free.{HasNeither};
ghost use Rattle.fresh_file.specs.Draws.{HasOwnDraws};
ghost use Rattle.make_job.specs.Made.{IsMade};
ghost use Rattle.page_codec.specs.Page.{keys_of};
ghost use Rattle.edge_model.specs.Files.{main_of};
ghost use Rattle.sqlcipher_tool.specs.Answer.{Answer, HasDrawnCauses, PutsLine};
ghost use Rattle.sqlcipher_tool.specs.Change.{IsLateChange, KeepsOrCommits, change_answer, change_status};
ghost use Rattle.sqlcipher_tool.specs.Crash.{HasNoMain, Makes, SameJournal};
ghost use Rattle.sqlcipher_tool.specs.Holding.{disk_run};
ghost use Rattle.sqlcipher_tool.specs.Make.{has_main_or_journal, make_answers, make_error};
ghost use Rattle.sqlcipher_tool.specs.Promises.{AnswersOne, IsUnrecovered};
ghost use Rattle.sqlcipher_tool.specs.Renewal.{WithDraws};
ghost use Rattle.pager.specs.Drawn.{drawn_since};

use crate::conclusion::{conclude, conclude_stop};
use crate::opening::{ChangeError, Stop};
use crate::status::{Refusal, Status};
use crate::text::made_report;
use cipher_profile::{Profile, Secret};
use edge_model::{Disk, Entropy, Sink};
use make_job::{MakeError, make};
use std::alloc::Global;
use text_lines::Text;

/// `make` with this secret. Its last line takes no memory.
pub fn make_file<S: Sink, E: Entropy, D: Disk>(
    alloc: Global,
    profile: Profile,
    rows: u32,
    secret: &Secret,
    out: &mut S,
    entropy: &mut E,
    disk: &mut D,
) -> Status
    requires { IsListed profile }
    ensures answer { IsTrue D.tells → AnswersOne (make_answers profile rows (D.reads disk.old)) result S.tells (S.taken out.old) (S.taken out.new) }
    ensures line { IsTrue S.tells → PutsLine result (S.taken out.old) (S.taken out.new) }
    ensures causes { HasDrawnCauses result true (D.faults disk.old) (D.faults disk.new) (S.faults out.old) (S.faults out.new) (E.faults entropy.old) (E.faults entropy.new) }
    // none or new
    ensures changes { IsTrue D.tells → Makes result profile secret.now rows E.tells (drawn_since (E.drawn entropy.old) (E.drawn entropy.new))
        (disk_run D.reads D.images D.moment D.since disk.old disk.new) }
    ensures only_read { IsTrue D.tells → has_main_or_journal (D.reads disk.old) ≡ true → OnlyRead D.reads D.images D.moment D.since disk.old disk.new }
    ensures journal { IsTrue D.tells → LeavesOnly D.moment D.since disk.old disk.new (From SameJournal (D.images disk.old)) }
    ensures undrawn { IsTrue D.tells → has_main_or_journal (D.reads disk.old) ≡ true → entropy.new ≡ entropy.old }
    ensures fresh_gone { IsTrue D.tells → result ≡ Status.Done → (D.reads disk.new).fresh ≡ None }
    ensures own_draws { IsTrue D.tells → IsTrue E.tells → result ≡ Status.Done
        → HasOwnDraws (keys_of profile secret.now (main_of (D.reads disk.new))) (main_of (D.reads disk.new)) (drawn_since (E.drawn entropy.old) (E.drawn entropy.new)) }
    ensures unrecovered { IsTrue D.tells → IsUnrecovered result → D.reads disk.new ≡ D.reads disk.old }
{
    match make_database(alloc, profile, rows, secret, entropy, disk) {
        Ok(report) => conclude(out, &report, Status::Done),
        Err(ChangeError::Stopped(stop)) => conclude_stop(out, stop),
        Err(ChangeError::EntropyFault) => Status::EntropyFault,
    }
}

// The database is made. Answers what is printed.
fn make_database<E: Entropy, D: Disk>(
    alloc: Global,
    profile: Profile,
    rows: u32,
    secret: &Secret,
    entropy: &mut E,
    disk: &mut D,
) -> Result<Text, ChangeError>
    requires { IsListed profile }
    ensures told { IsTrue D.tells → (answer : Answer) → change_answer result ≡ Some answer → Contains (make_answers profile rows (D.reads disk.old)) answer }
    ensures made { OnOk result (IsTrue D.tells → IsMade profile secret.now rows (main_of (D.reads disk.new))) }
    ensures safely { IsTrue D.tells → Each (D.images disk.old) HasNeither → KeepsOrCommits D.reads D.images D.moment D.since (change_status result)
        (WithDraws (IsMade profile secret.now rows) E.tells (λ file. HasOwnDraws (keys_of profile secret.now file) file (drawn_since (E.drawn entropy.old) (E.drawn entropy.new)))) HasNoMain IsAlone disk.old disk.new }
    ensures only_read { IsTrue D.tells → has_main_or_journal (D.reads disk.old) ≡ true → OnlyRead D.reads D.images D.moment D.since disk.old disk.new }
    ensures journal { IsTrue D.tells → LeavesOnly D.moment D.since disk.old disk.new (From SameJournal (D.images disk.old)) }
    ensures undrawn { IsTrue D.tells → has_main_or_journal (D.reads disk.old) ≡ true → entropy.new ≡ entropy.old }
    ensures fresh_gone { IsTrue D.tells → OnOk result ((D.reads disk.new).fresh ≡ None) }
    ensures own_draws { OnOk result (IsTrue D.tells → IsTrue E.tells
        → HasOwnDraws (keys_of profile secret.now (main_of (D.reads disk.new))) (main_of (D.reads disk.new)) (drawn_since (E.drawn entropy.old) (E.drawn entropy.new))) }
    ensures late { IfErr result IsLateChange }
    ensures disk_fault { result ≡ Err (ChangeError.Stopped Stop.DiskFault) → Rose (D.faults disk.old) (D.faults disk.new) }
    ensures entropy_fault { result ≡ Err ChangeError.EntropyFault → Rose (E.faults entropy.old) (E.faults entropy.new) }
    ensures disk_later { D.faults disk.old ≤ D.faults disk.new }
    ensures entropy_later { E.faults entropy.old ≤ E.faults entropy.new }
{
    match make(alloc, profile, secret, rows, disk, entropy) {
        Ok(made) => Ok(made_report(made.rows, made.bytes)),
        Err(error) => Err(make_error(error)),
    }
}

// How a database that was not made stops the command.
fn make_error(error: MakeError) -> ChangeError
    ensures { result ≡ make_error error }
{
    match error {
        MakeError::FileThere => ChangeError::Stopped(Stop::Refused(Refusal::FileThere)),
        MakeError::JournalThere => ChangeError::Stopped(Stop::Refused(Refusal::JournalThere)),
        MakeError::TooManyPages { limit } => {
            ChangeError::Stopped(Stop::Refused(Refusal::TooManyPages { limit }))
        }
        MakeError::DiskFault => ChangeError::Stopped(Stop::DiskFault),
        MakeError::EntropyFault => ChangeError::EntropyFault,
        MakeError::OutOfMemory => ChangeError::Stopped(Stop::OutOfMemory),
    }
}
