// `header`: the fields of page 1, and the count of pages.
ghost use Rattle.std.specs.Prelude.{◌≡◌, ◌⊎◌, ◌≤◌, Some, Ok, Err, IfErr, IsTrue};
ghost use Rattle.edge_model.specs.Causes.{Rose};
ghost use Rattle.edge_model.specs.OnlyRead.{OnlyRead};
ghost use Rattle.cipher_profile.specs.Profile.{IsListed};
ghost use Rattle.edge_model.specs.Files.{main_of};
ghost use Rattle.pager.specs.Opening.{file_opened};
ghost use Rattle.sqlcipher_tool.specs.Answer.{Puts, PutsLine, IsAnswered, HasCauses};
ghost use Rattle.sqlcipher_tool.specs.Header.{header_answer};
ghost use Rattle.sqlcipher_tool.specs.Opening.{AreRecovered};
ghost use Rattle.sqlcipher_tool.specs.Stop.{outcome_answer, IsLateStop};
ghost use Rattle.sqlcipher_tool.specs.Text.{header_report};

use crate::conclusion::conclude_outcome;
use crate::opening::{Stop, open_main};
use crate::status::Status;
use crate::text::header_report;
use cipher_profile::{Profile, Secret};
use edge_model::{Disk, Entropy, Sink};
use pager::{OpenedFile, PageSource};
use std::alloc::Global;
use text_lines::Text;

/// `header` of Main as it reads.
pub fn header<S: Sink, E: Entropy, D: Disk>(
    alloc: Global,
    profile: Profile,
    secret: &Secret,
    out: &mut S,
    entropy: &mut E,
    disk: &mut D,
) -> Status
    requires listed { IsListed profile }
    requires recovered { IsTrue D.tells → AreRecovered (D.reads disk.old) (D.images disk.old) }
    ensures status { IsTrue D.tells → IsAnswered result (header_answer profile secret.now (main_of (D.reads disk.old))) }
    ensures text { IsTrue S.tells → IsTrue D.tells → Puts result (header_answer profile secret.now (main_of (D.reads disk.old))).text (S.taken out.old) (S.taken out.new) }
    ensures line { IsTrue S.tells → PutsLine result (S.taken out.old) (S.taken out.new) }
    ensures disk_text { result ≡ Status.DiskFault → out.new ≡ out.old }
    ensures memory_text { result ≡ Status.OutOfMemory → out.new ≡ out.old }
    ensures causes { HasCauses result (D.faults disk.old) (D.faults disk.new) (S.faults out.old) (S.faults out.new) }
    ensures draws { entropy.new ≡ entropy.old }
    ensures only_read { IsTrue D.tells → OnlyRead D.reads D.images D.moment D.since disk.old disk.new }
{
    let outcome = describe_main(alloc, profile, secret, entropy, disk);
    conclude_outcome(out, outcome)
}

// The report on Main's header.
fn describe_main<E: Entropy, D: Disk>(
    alloc: Global,
    profile: Profile,
    secret: &Secret,
    entropy: &mut E,
    disk: &mut D,
) -> Result<Text, Stop>
    requires listed { IsListed profile }
    requires recovered { IsTrue D.tells → AreRecovered (D.reads disk.old) (D.images disk.old) }
    ensures told { IsTrue D.tells → (result ≡ Err Stop.DiskFault) ⊎ ((result ≡ Err Stop.OutOfMemory)
        ⊎ (outcome_answer result ≡ Some (header_answer profile secret.now (main_of (D.reads disk.old))))) }
    ensures late { IfErr result IsLateStop }
    ensures cause { IfErr result (λ stop. stop ≡ Stop.DiskFault → Rose (D.faults disk.old) (D.faults disk.new)) }
    ensures later { D.faults disk.old ≤ D.faults disk.new }
    ensures draws { entropy.new ≡ entropy.old }
    ensures only_read { IsTrue D.tells → OnlyRead D.reads D.images D.moment D.since disk.old disk.new }
{
    match open_main(alloc, disk, profile, secret) {
        Ok(file) => Ok(describe_opened(file, entropy, disk)),
        Err(stop) => Err(stop),
    }
}

// The report on the header of Main, which was opened as this file.
fn describe_opened<E: Entropy, D: Disk>(file: OpenedFile, entropy: &mut E, disk: &mut D) -> Text
    requires { IsTrue D.tells → file_opened file.codec (main_of (D.reads disk.old)) ≡ Ok (record { header = file.header; count = file.count }) }
    ensures told { result ≡ header_report file.header file.count }
    ensures disk { disk.new ≡ disk.old }
    ensures draws { entropy.new ≡ entropy.old }
{
    let pager = file.into_pager(disk, entropy);
    let report = header_report(pager.header(), pager.pages());
    let (disk, entropy) = pager.into_parts();
    // Both end here as they are, entropy first: the prover learns of each from these lines.
    let _ = entropy;
    let _ = disk;
    report
}
