// A file that is read with its log: what the words ask for, and why no view of the two is opened.
ghost use Rattle.std.specs.Prelude.{◌≡◌, ◌⊎◌, ◌≤◌, IsTrue, IfSome, Some};
ghost use Rattle.cipher_profile.specs.Profile.{IsListed};
ghost use Rattle.edge_model.specs.Causes.{Rose};
ghost use Rattle.sqlcipher_tool.specs.Answer.{Answer, IsStopStatus, Puts, PutsLine};
ghost use Rattle.sqlcipher_tool.specs.Stop.{stop_answer};
ghost use Rattle.sqlcipher_tool.specs.WithLog.{view_stop, viewed_by};
ghost use Rattle.sqlcipher_tool.specs.Words.{form, texts};

use crate::command::parse_words;
use crate::conclusion::conclude_stop;
use crate::opening::Stop;
use crate::status::{Refusal, Status};
use cipher_profile::Profile;
use edge_model::Sink;
use log_recovery::LogError;
use log_view::ViewError;

/// The most pages of a file that is read with its log: 4 MiB of memory.
pub const MOST_PAGES: u32 = 1 << 20;

/// The profile by which a file is read with its log, where the words are of such a command and do not refuse it.
pub fn profile_with_log(words: &[&str]) -> Option<Profile>
    ensures value { result ≡ viewed_by (form (texts words.now)) }
    ensures listed { IfSome result IsListed }
{
    let command = parse_words(words)?;
    if command.refusal().is_some() {
        return None;
    }
    command.with_log()
}

/// The end of a run whose view was not opened: its line, where the files are the cause.
pub fn conclude_view<S: Sink>(out: &mut S, why: ViewError) -> Status
    ensures status { (answer : Answer) → stop_answer (view_stop why) ≡ Some answer → (result ≡ answer.status) ⊎ (result ≡ Status.OutputFault) }
    ensures text { (answer : Answer) → stop_answer (view_stop why) ≡ Some answer → IsTrue S.tells → Puts result answer.text (S.taken out.old) (S.taken out.new) }
    ensures disk { view_stop why ≡ Stop.DiskFault → (result ≡ Status.DiskFault) × (out.new ≡ out.old) }
    ensures no_disk { result ≡ Status.DiskFault → view_stop why ≡ Stop.DiskFault }
    ensures memory { view_stop why ≡ Stop.OutOfMemory → (result ≡ Status.OutOfMemory) × (out.new ≡ out.old) }
    ensures no_memory { result ≡ Status.OutOfMemory → view_stop why ≡ Stop.OutOfMemory }
    ensures line { IsTrue S.tells → PutsLine result (S.taken out.old) (S.taken out.new) }
    ensures fault { result ≡ Status.OutputFault → Rose (S.faults out.old) (S.faults out.new) }
    ensures others { IsStopStatus result }
    ensures later { S.faults out.old ≤ S.faults out.new }
{
    conclude_stop(out, view_stop(why))
}

// How a command stops whose view is not opened.
fn view_stop(why: ViewError) -> Stop
    ensures { result ≡ view_stop why }
{
    match why {
        ViewError::Log(LogError::LogVersion { found }) => {
            Stop::Refused(Refusal::LogVersion { found })
        }
        ViewError::Log(LogError::LogPageSize { found }) => {
            Stop::Refused(Refusal::LogPageSize { found })
        }
        ViewError::Short { pages } => Stop::Refused(Refusal::LogShort { pages }),
        ViewError::TooLarge { .. } => Stop::Refused(Refusal::LogTooLarge),
        ViewError::TooLong { .. } => Stop::Refused(Refusal::LogTooLarge),
        ViewError::Log(LogError::OutOfMemory) => Stop::OutOfMemory,
        ViewError::OutOfMemory => Stop::OutOfMemory,
        ViewError::Log(LogError::DiskFault) => Stop::DiskFault,
        ViewError::DiskFault => Stop::DiskFault,
        ViewError::LogCut => Stop::DiskFault,
    }
}
