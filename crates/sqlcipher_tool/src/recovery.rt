// `recover`, and the recovery that comes before a file is read.
ghost use Rattle.std.specs.Prelude.{◌≡◌, ◌≢◌, ◌⊎◌, ◌<◌, ◌≤◌, length, Ok, Err, Some, IfErr, IfOk, OnOk, false, IsTrue};
ghost use Rattle.edge_model.specs.Causes.{Rose};
ghost use Rattle.edge_model.specs.Files.{bytes_of, main_of};
ghost use Rattle.edge_model.specs.Images.{Each, From, LeavesOnly};
ghost use Rattle.cipher_profile.specs.Profile.{IsListed};
ghost use Rattle.rollback_journal.specs.Recovery.{IsPlaybackDone, KeepsRecovered};
ghost use Rattle.session_hall.specs.Kept.{IsHallSettled};
ghost use Rattle.sqlcipher_tool.specs.Behind.{HasOnlyRead, IsOfRecovery, IsReadOrUnwritten, IsRecovered};
ghost use Rattle.sqlcipher_tool.specs.Answer.{IsAnswered, HasCauses, Puts, PutsLine};
ghost use Rattle.sqlcipher_tool.specs.Promises.{IsUnrecovered};
ghost use Rattle.sqlcipher_tool.specs.Recovered.{recovered_main, recovery_answer, recovery_of, refused_answer};
ghost use Rattle.sqlcipher_tool.specs.Stop.{stop_answer, outcome_answer, IsLateStop, IsOutside};
ghost use Rattle.sqlcipher_tool.specs.Holding.{disk_run};
ghost use Rattle.sqlcipher_tool.specs.Untouched.{HasNoFile, IsUnwritten};

use crate::conclusion::conclude_outcome;
use crate::opening::Stop;
use crate::status::{Refusal, Status};
use crate::text::recovery_line;
use cipher_profile::Profile;
use edge_model::{Disk, Sink};
use rollback_journal::{RecoverError, Recovery, recover};
use std::alloc::Global;
use text_lines::Text;

/// `recover`.
pub fn report_recovery<S: Sink, D: Disk>(
    alloc: Global,
    profile: Profile,
    out: &mut S,
    disk: &mut D,
) -> Status
    requires { IsListed profile }
    ensures status { IsTrue D.tells → IsAnswered result (recovery_answer (recovery_of profile (D.reads disk.old))) }
    ensures text { IsTrue S.tells → IsTrue D.tells → Puts result (recovery_answer (recovery_of profile (D.reads disk.old))).text (S.taken out.old) (S.taken out.new) }
    ensures line { IsTrue S.tells → PutsLine result (S.taken out.old) (S.taken out.new) }
    ensures disk_text { result ≡ Status.DiskFault → out.new ≡ out.old }
    ensures memory_text { result ≡ Status.OutOfMemory → out.new ≡ out.old }
    ensures causes { HasCauses result (D.faults disk.old) (D.faults disk.new) (S.faults out.old) (S.faults out.new) }
    ensures recovered { IsTrue D.tells → HasOnlyRead false result → IsRecovered profile (disk_run D.reads D.images D.moment D.since disk.old disk.new) }
    ensures left { IsTrue D.tells → result ≢ Status.DiskFault → IsReadOrUnwritten profile (disk_run D.reads D.images D.moment D.since disk.old disk.new) }
    ensures keeps { IsTrue D.tells → LeavesOnly D.moment D.since disk.old disk.new (From (KeepsRecovered profile.page_size) (D.images disk.old)) }
    ensures unrecovered { IsTrue D.tells → IsUnrecovered result → D.reads disk.new ≡ D.reads disk.old }
    ensures untouched { IsTrue D.tells → HasNoFile profile (D.reads disk.old) → IsUnwritten (disk_run D.reads D.images D.moment D.since disk.old disk.new) }
{
    let outcome = describe_recovery(alloc, disk, profile);
    conclude_outcome(out, outcome)
}

// The report on a recovery of Main.
fn describe_recovery<D: Disk>(alloc: Global, disk: &mut D, profile: Profile) -> Result<Text, Stop>
    requires { IsListed profile }
    ensures told { IsTrue D.tells → (result ≡ Err Stop.DiskFault) ⊎ ((result ≡ Err Stop.OutOfMemory)
        ⊎ (outcome_answer result ≡ Some (recovery_answer (recovery_of profile (D.reads disk.old))))) }
    ensures done { OnOk result (IsTrue D.tells → 0 < length (main_of (D.reads disk.old)) →
        Each (D.images disk.new) (IsPlaybackDone profile.page_size (bytes_of (D.reads disk.old).main) (bytes_of (D.reads disk.old).journal))) }
    ensures refused { IfErr result (λ stop. IsTrue D.tells → IsOutside stop ⊎ (D.reads disk.new ≡ D.reads disk.old)) }
    ensures untouched { IsTrue D.tells → HasNoFile profile (D.reads disk.old) → IsUnwritten (disk_run D.reads D.images D.moment D.since disk.old disk.new) }
    ensures unwritten { IfErr result (λ stop. IsTrue D.tells → stop ≢ Stop.DiskFault → IsUnwritten (disk_run D.reads D.images D.moment D.since disk.old disk.new)) }
    ensures of_recovery { IfErr result IsOfRecovery }
    ensures late { IfErr result IsLateStop }
    ensures keeps { IsTrue D.tells → LeavesOnly D.moment D.since disk.old disk.new (From (KeepsRecovered profile.page_size) (D.images disk.old)) }
    ensures cause { IfErr result (λ stop. stop ≡ Stop.DiskFault → Rose (D.faults disk.old) (D.faults disk.new)) }
    ensures later { D.faults disk.old ≤ D.faults disk.new }
{
    match recover_main(alloc, disk, profile) {
        Ok(recovery) => Ok(recovery_line(&recovery)),
        Err(stop) => Err(stop),
    }
}

/// Recovers Main from its journal, where a stop has left one.
pub fn recover_main<D: Disk>(
    alloc: Global,
    disk: &mut D,
    profile: Profile,
) -> Result<Recovery, Stop>
    requires { IsListed profile }
    ensures recovery { IfOk result (λ did. IsTrue D.tells → recovery_of profile (D.reads disk.old) ≡ Ok did) }
    ensures main { OnOk result (IsTrue D.tells → main_of (D.reads disk.new) ≡ recovered_main profile (D.reads disk.old)) }
    ensures done { OnOk result (IsTrue D.tells → 0 < length (main_of (D.reads disk.old)) →
        Each (D.images disk.new) (IsPlaybackDone profile.page_size (bytes_of (D.reads disk.old).main) (bytes_of (D.reads disk.old).journal))) }
    ensures settled { OnOk result (IsTrue D.tells → IsHallSettled (D.reads disk.new) (D.images disk.new)) }
    ensures stop { IfErr result (λ stop. IsTrue D.tells → IsOutside stop ⊎ (stop_answer stop ≡ refused_answer (recovery_of profile (D.reads disk.old)))) }
    ensures refused { IfErr result (λ stop. IsTrue D.tells → IsOutside stop ⊎ (D.reads disk.new ≡ D.reads disk.old)) }
    ensures untouched { IsTrue D.tells → HasNoFile profile (D.reads disk.old) → IsUnwritten (disk_run D.reads D.images D.moment D.since disk.old disk.new) }
    ensures unwritten { IfErr result (λ stop. IsTrue D.tells → stop ≢ Stop.DiskFault → IsUnwritten (disk_run D.reads D.images D.moment D.since disk.old disk.new)) }
    ensures of_recovery { IfErr result IsOfRecovery }
    ensures late { IfErr result IsLateStop }
    ensures keeps { IsTrue D.tells → LeavesOnly D.moment D.since disk.old disk.new (From (KeepsRecovered profile.page_size) (D.images disk.old)) }
    ensures cause { IfErr result (λ stop. stop ≡ Stop.DiskFault → Rose (D.faults disk.old) (D.faults disk.new)) }
    ensures later { D.faults disk.old ≤ D.faults disk.new }
{
    let _usable = profile.usable();
    match recover(alloc, disk, profile.page_size) {
        Ok(recovery) => Ok(recovery),
        Err(RecoverError::JournalPageSize { found }) => {
            Err(Stop::Refused(Refusal::JournalPageSize { found }))
        }
        Err(RecoverError::SuperJournal) => Err(Stop::Refused(Refusal::SuperJournal)),
        Err(RecoverError::DiskFault) => Err(Stop::DiskFault),
        Err(RecoverError::OutOfMemory) => Err(Stop::OutOfMemory),
    }
}
