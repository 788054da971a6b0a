// How an answer ends: its last lines, and its status.
ghost use Rattle.std.specs.Prelude.{◌≡◌, ◌≢◌, ◌⊎◌, ◌≤◌, IsTrue, Some, Err, IfErr};
ghost use Rattle.edge_model.specs.Causes.{Rose};
ghost use Rattle.sqlcipher_tool.specs.Answer.{Answer, IsAnswer, IsEarly, IsKeyStatus, IsStopStatus, Puts, PutsLine};
ghost use Rattle.sqlcipher_tool.specs.Due.{key_answer, wordless};
ghost use Rattle.sqlcipher_tool.specs.Text.{refusal_line};
ghost use Rattle.sqlcipher_tool.specs.Stop.{stop_answer, outcome_answer, IsLateStop};

use crate::opening::Stop;
use crate::status::{Refusal, Status};
use crate::text::{key_refused_line, refusal_line, usage_line};
use cipher_profile::KeyError;
use edge_model::Sink;
use text_lines::Text;

/// Prints the last lines of an answer.
pub fn conclude<S: Sink>(out: &mut S, text: &Text, status: Status) -> Status
    requires { IsAnswer status }
    ensures status { (result ≡ status) ⊎ (result ≡ Status.OutputFault) }
    ensures text { IsTrue S.tells → Puts result text.now (S.taken out.old) (S.taken out.new) }
    ensures fault { result ≡ Status.OutputFault → Rose (S.faults out.old) (S.faults out.new) }
    ensures later { S.faults out.old ≤ S.faults out.new }
{
    match text.put(out) {
        Ok(()) => status,
        Err(_) => Status::OutputFault,
    }
}

/// Prints a refusal.
pub fn conclude_refusal<S: Sink>(out: &mut S, refusal: Refusal) -> Status
    ensures status { (result ≡ Status.Refused refusal) ⊎ (result ≡ Status.OutputFault) }
    ensures text { IsTrue S.tells → Puts result (refusal_line refusal) (S.taken out.old) (S.taken out.new) }
    ensures line { IsTrue S.tells → PutsLine result (S.taken out.old) (S.taken out.new) }
    ensures fault { result ≡ Status.OutputFault → Rose (S.faults out.old) (S.faults out.new) }
    ensures later { S.faults out.old ≤ S.faults out.new }
{
    conclude(out, &refusal_line(&refusal), Status::Refused(refusal))
}

/// Prints the answer to words that make no command: a `play` of a file that is only read with its log is refused.
pub fn conclude_wordless<S: Sink>(out: &mut S, with_log: bool) -> Status
    ensures status { (result ≡ (wordless with_log).status) ⊎ (result ≡ Status.OutputFault) }
    ensures text { IsTrue S.tells → Puts result (wordless with_log).text (S.taken out.old) (S.taken out.new) }
    ensures line { IsTrue S.tells → PutsLine result (S.taken out.old) (S.taken out.new) }
    ensures fault { result ≡ Status.OutputFault → Rose (S.faults out.old) (S.faults out.new) }
    ensures later { S.faults out.old ≤ S.faults out.new }
{
    if with_log {
        return conclude_refusal(out, Refusal::OnlyRead);
    }
    conclude(out, &usage_line(), Status::Usage)
}

/// Prints why a key line gave no secret; nothing where the input failed.
pub fn conclude_key<S: Sink>(out: &mut S, error: KeyError) -> Status
    ensures refused { error ≢ KeyError.SourceFault → (result ≡ (key_answer error).status) ⊎ (result ≡ Status.OutputFault) }
    ensures text { error ≢ KeyError.SourceFault → IsTrue S.tells → Puts result (key_answer error).text (S.taken out.old) (S.taken out.new) }
    ensures failed { error ≡ KeyError.SourceFault → (result ≡ Status.InputFault) × (out.new ≡ out.old) }
    ensures input { result ≡ Status.InputFault → error ≡ KeyError.SourceFault }
    ensures line { IsTrue S.tells → PutsLine result (S.taken out.old) (S.taken out.new) }
    ensures fault { result ≡ Status.OutputFault → Rose (S.faults out.old) (S.faults out.new) }
    ensures later { S.faults out.old ≤ S.faults out.new }
    ensures others { IsKeyStatus result }
{
    match error {
        KeyError::KeyMissing => conclude_refusal(out, Refusal::KeyMissing),
        KeyError::KeyEmpty => conclude_refusal(out, Refusal::KeyEmpty),
        KeyError::KeyTooLong => conclude_refusal(out, Refusal::KeyTooLong),
        KeyError::KeyForm => conclude_refusal(out, Refusal::KeyForm),
        KeyError::KeyUnsalted => conclude_refusal(out, Refusal::KeyUnsalted),
        KeyError::KeyNotHex => conclude_refusal(out, Refusal::KeyNotHex),
        KeyError::SourceFault => Status::InputFault,
    }
}

/// Prints why a command has no report.
pub fn conclude_stop<S: Sink>(out: &mut S, stop: Stop) -> Status
    ensures status { (answer : Answer) → stop_answer stop ≡ Some answer → (result ≡ answer.status) ⊎ (result ≡ Status.OutputFault) }
    ensures text { (answer : Answer) → stop_answer stop ≡ Some answer → IsTrue S.tells → Puts result answer.text (S.taken out.old) (S.taken out.new) }
    ensures disk { stop ≡ Stop.DiskFault → (result ≡ Status.DiskFault) × (out.new ≡ out.old) }
    ensures no_disk { result ≡ Status.DiskFault → stop ≡ Stop.DiskFault }
    ensures memory { stop ≡ Stop.OutOfMemory → (result ≡ Status.OutOfMemory) × (out.new ≡ out.old) }
    ensures no_memory { result ≡ Status.OutOfMemory → stop ≡ Stop.OutOfMemory }
    ensures late { IsLateStop stop → IsEarly result → ⊥ }
    ensures line { IsTrue S.tells → PutsLine result (S.taken out.old) (S.taken out.new) }
    ensures fault { result ≡ Status.OutputFault → Rose (S.faults out.old) (S.faults out.new) }
    ensures others { IsStopStatus result }
    ensures later { S.faults out.old ≤ S.faults out.new }
{
    match stop {
        Stop::Refused(refusal) => conclude_refusal(out, refusal),
        Stop::KeyRefused => conclude(out, &key_refused_line(), Status::KeyRefused),
        Stop::DiskFault => Status::DiskFault,
        Stop::OutOfMemory => Status::OutOfMemory,
    }
}

/// Prints a report, or why there is none.
pub fn conclude_outcome<S: Sink>(out: &mut S, outcome: Result<Text, Stop>) -> Status
    ensures status { (answer : Answer) → outcome_answer outcome ≡ Some answer → (result ≡ answer.status) ⊎ (result ≡ Status.OutputFault) }
    ensures text { (answer : Answer) → outcome_answer outcome ≡ Some answer → IsTrue S.tells → Puts result answer.text (S.taken out.old) (S.taken out.new) }
    ensures disk { outcome ≡ Err Stop.DiskFault → (result ≡ Status.DiskFault) × (out.new ≡ out.old) }
    ensures no_disk { result ≡ Status.DiskFault → outcome ≡ Err Stop.DiskFault }
    ensures memory { outcome ≡ Err Stop.OutOfMemory → (result ≡ Status.OutOfMemory) × (out.new ≡ out.old) }
    ensures no_memory { result ≡ Status.OutOfMemory → outcome ≡ Err Stop.OutOfMemory }
    ensures late { IfErr outcome IsLateStop → IsEarly result → ⊥ }
    ensures line { IsTrue S.tells → PutsLine result (S.taken out.old) (S.taken out.new) }
    ensures fault { result ≡ Status.OutputFault → Rose (S.faults out.old) (S.faults out.new) }
    ensures others { IsStopStatus result }
    ensures later { S.faults out.old ≤ S.faults out.new }
{
    match outcome {
        Ok(text) => conclude(out, &text, Status::Done),
        Err(stop) => conclude_stop(out, stop),
    }
}
