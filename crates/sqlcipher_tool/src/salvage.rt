// `salvage`: the rows of a damaged file.
ghost use Rattle.std.specs.Prelude.{◌≡◌, ◌⊎◌, ◌∷◌, [], ◌≤◌, length, None, IfOk, OnOk, IfErr, IsTrue};
ghost use Rattle.edge_model.specs.Causes.{Rose};
ghost use Rattle.edge_model.specs.OnlyRead.{OnlyRead};
ghost use Rattle.cipher_profile.specs.Profile.{IsListed};
ghost use Rattle.page_codec.specs.Page.{keys_of};
ghost use Rattle.edge_model.specs.Files.{main_of};
ghost use Rattle.sqlcipher_tool.specs.Answer.{first_answer, HasCauses, PutsLine};
ghost use Rattle.sqlcipher_tool.specs.Promises.{AnswersOne};
ghost use Rattle.sqlcipher_tool.specs.Salvage.{salvage_answer, salvage_causes, salvaged_answer};
ghost use Rattle.sqlcipher_tool.specs.Stop.{stop_answer, IsLateStop};

use crate::conclusion::{conclude, conclude_stop};
use crate::opening::{Stop, count_whole_pages, served_length};
use crate::status::Status;
use crate::text::key_refused_line;
use cipher_profile::{Profile, Secret};
use edge_model::{Disk, Sink};
use page_codec::Codec;
use pager::codec_of;
use salvage_scan::{SalvageError, salvage};
use std::alloc::Global;

/// `salvage` of Main as it reads.
pub fn salvage_file<S: Sink, D: Disk>(
    alloc: Global,
    profile: Profile,
    secret: &Secret,
    out: &mut S,
    disk: &mut D,
) -> Status
    requires { IsListed profile }
    ensures answer { IsTrue D.tells → AnswersOne (salvage_answer profile secret.now (main_of (D.reads disk.old)) ∷ []) result S.tells (S.taken out.old) (S.taken out.new) }
    ensures line { IsTrue S.tells → PutsLine result (S.taken out.old) (S.taken out.new) }
    ensures causes { HasCauses result (D.faults disk.old) (D.faults disk.new) (S.faults out.old) (S.faults out.new) }
    ensures only_read { IsTrue D.tells → OnlyRead D.reads D.images D.moment D.since disk.old disk.new }
{
    match codec_to_salvage(disk, profile, secret) {
        Ok(codec) => salvage_pages(alloc, &codec, out, disk),
        Err(stop) => conclude_stop(out, stop),
    }
}

// The codec that the secret gives for Main, whether or not its key fits page 1, where nothing stands in the way.
fn codec_to_salvage<D: Disk>(disk: &mut D, profile: Profile, secret: &Secret) -> Result<Codec, Stop>
    requires { IsListed profile }
    ensures none { OnOk result (IsTrue D.tells → first_answer (salvage_causes profile (main_of (D.reads disk.old))) ≡ None) }
    ensures codec { IfOk result (λ codec. IsTrue D.tells → codec ≡ keys_of profile secret.now (main_of (D.reads disk.old))) }
    ensures late { IfErr result IsLateStop }
    ensures stop { IfErr result (λ stop. IsTrue D.tells → (stop ≡ Stop.DiskFault) ⊎ (first_answer (salvage_causes profile (main_of (D.reads disk.old))) ≡ stop_answer stop)) }
    ensures cause { IfErr result (λ stop. stop ≡ Stop.DiskFault → Rose (D.faults disk.old) (D.faults disk.new)) }
    ensures later { D.faults disk.old ≤ D.faults disk.new }
    ensures only_read { IsTrue D.tells → OnlyRead D.reads D.images D.moment D.since disk.old disk.new }
{
    let length = served_length(disk, profile)?;
    let _pages = count_whole_pages(length, profile)?;
    let (codec, _fits) = codec_of(disk, profile, secret)?;
    Ok(codec)
}

// `salvage` with this codec.
fn salvage_pages<S: Sink, D: Disk>(
    alloc: Global,
    codec: &Codec,
    out: &mut S,
    disk: &mut D,
) -> Status
    ensures answer { IsTrue D.tells → AnswersOne (salvaged_answer codec.now (main_of (D.reads disk.old)) ∷ []) result S.tells (S.taken out.old) (S.taken out.new) }
    ensures line { IsTrue S.tells → PutsLine result (S.taken out.old) (S.taken out.new) }
    ensures causes { HasCauses result (D.faults disk.old) (D.faults disk.new) (S.faults out.old) (S.faults out.new) }
    ensures only_read { IsTrue D.tells → OnlyRead D.reads D.images D.moment D.since disk.old disk.new }
{
    match salvage(alloc, disk, codec, out) {
        Ok(_) => Status::Done,
        Err(SalvageError::KeyRefused) => conclude(out, &key_refused_line(), Status::KeyRefused),
        Err(SalvageError::DiskFault) => Status::DiskFault,
        Err(SalvageError::OutputFault) => Status::OutputFault,
        Err(SalvageError::OutOfMemory) => Status::OutOfMemory,
    }
}
