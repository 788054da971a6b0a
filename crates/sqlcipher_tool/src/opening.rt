// A file is opened for its secret: nothing stands in the way, and the key fits.
ghost use Rattle.std.specs.Prelude.{◌≡◌, ◌⊎◌, ◌*◌, ◌/◌, ◌<◌, ◌≤◌, length, None, Ok, IfOk, OnOk, IfErr, IsTrue};
ghost use Rattle.edge_model.specs.Causes.{Rose};
ghost use Rattle.edge_model.specs.OnlyRead.{OnlyRead};
ghost use Rattle.cipher_profile.specs.Profile.{IsListed};
ghost use Rattle.db_format.specs.Count.{largest_database};
ghost use Rattle.page_codec.specs.Page.{keys_of};
ghost use Rattle.edge_model.specs.Files.{main_of};
ghost use Rattle.sqlcipher_tool.specs.Answer.{first_answer};
ghost use Rattle.sqlcipher_tool.specs.Opening.{length_causes, key_causes, opened_with, unopened_answer, AreRecovered};
ghost use Rattle.sqlcipher_tool.specs.Stop.{stop_answer, IsLateStop, IsOutside};
ghost use Rattle.sqlcipher_tool.specs.declared.opening.Stop.TheVariants.{DiskFault};
ghost use Rattle.sqlcipher_tool.specs.declared.opening.ChangeError.TheVariants.{Stopped};
ghost use Rattle.sqlcipher_tool.specs.declared.status.Refusal.TheVariants.{TooLarge};

use crate::status::Refusal;
use cipher_profile::{Profile, Secret};
use db_format::LARGEST_DATABASE;
use edge_model::{Disk, Failed};
use page_codec::Codec;
use pager::{OpenError, OpenedFile, codec_of};
use std::alloc::Global;

/// How many pages are held at once.
const FRAMES: u32 = 64;

/// Why a command has no report.
#[derive(Clone, Copy, Debug, PartialEq, Eq)]
pub enum Stop {
    /// The file is not one that the command can serve.
    Refused(Refusal),
    /// The key does not fit.
    KeyRefused,
    /// The disk failed.
    DiskFault,
    /// Memory ran out.
    OutOfMemory,
}

impl From<Failed> for Stop {
    ghost from_gives = { λ _ stop. stop ≡ DiskFault };

    fn from(_failed: Failed) -> Stop {
        Stop::DiskFault
    }
}

impl From<OpenError> for Stop {
    ghost use Rattle.sqlcipher_tool.specs.Stop.{stop_of};

    ghost from_gives = { λ error stop. stop ≡ stop_of error };

    fn from(error: OpenError) -> Stop {
        match error {
            OpenError::Empty => Stop::Refused(Refusal::Empty),
            OpenError::Short { length } => Stop::Refused(Refusal::Short { length }),
            OpenError::KeyRefused => Stop::KeyRefused,
            OpenError::HeaderFault { offset, found } => {
                Stop::Refused(Refusal::HeaderFault { offset, found })
            }
            OpenError::WalMode => Stop::Refused(Refusal::WalMode),
            OpenError::AutoVacuum => Stop::Refused(Refusal::AutoVacuum),
            OpenError::Ragged { length } => Stop::Refused(Refusal::Ragged { length }),
            OpenError::TooLarge { pages } => Stop::Refused(Refusal::TooLarge { pages }),
            OpenError::DiskFault => Stop::DiskFault,
            OpenError::OutOfMemory => Stop::OutOfMemory,
        }
    }
}

/// Why a file was not changed, or not made.
#[derive(Clone, Copy, Debug, PartialEq, Eq)]
pub enum ChangeError {
    /// The command stopped, as one that only reads may.
    Stopped(Stop),
    /// The entropy failed.
    EntropyFault,
}

impl From<Stop> for ChangeError {
    ghost from_gives = { λ stop error. error ≡ Stopped stop };

    fn from(stop: Stop) -> ChangeError {
        ChangeError::Stopped(stop)
    }
}

/// Opens Main with this secret.
pub fn open_main<D: Disk>(
    alloc: Global,
    disk: &mut D,
    profile: Profile,
    secret: &Secret,
) -> Result<OpenedFile, Stop>
    requires listed { IsListed profile }
    requires recovered { IsTrue D.tells → AreRecovered (D.reads disk.old) (D.images disk.old) }
    ensures opens { IfOk result (λ file. IsTrue D.tells
        → opened_with profile secret.now (main_of (D.reads disk.old)) ≡ Ok (record { header = file.header; count = file.count })) }
    ensures codec { IfOk result (λ file. IsTrue D.tells → file.codec ≡ keys_of profile secret.now (main_of (D.reads disk.old))) }
    ensures profile { IfOk result (λ file. file.codec.profile ≡ profile) }
    ensures stop { IfErr result (λ stop. IsTrue D.tells
        → IsOutside stop ⊎ (stop_answer stop ≡ unopened_answer (opened_with profile secret.now (main_of (D.reads disk.old))))) }
    ensures late { IfErr result IsLateStop }
    ensures cause { IfErr result (λ stop. stop ≡ Stop.DiskFault → Rose (D.faults disk.old) (D.faults disk.new)) }
    ensures later { D.faults disk.old ≤ D.faults disk.new }
    ensures only_read { IsTrue D.tells → OnlyRead D.reads D.images D.moment D.since disk.old disk.new }
{
    match OpenedFile::open(alloc, disk, profile, secret, FRAMES) {
        Ok(file) => Ok(file),
        Err(error) => Err(Stop::from(error)),
    }
}

/// The length of Main, where it has a page.
pub fn served_length<D: Disk>(disk: &mut D, profile: Profile) -> Result<u64, Stop>
    requires { IsListed profile }
    ensures none { OnOk result (IsTrue D.tells → first_answer (length_causes profile (main_of (D.reads disk.old))) ≡ None) }
    ensures told { IfOk result (λ len. IsTrue D.tells → len ≡ length (main_of (D.reads disk.old))) }
    ensures stop { IfErr result (λ stop. IsTrue D.tells → (stop ≡ Stop.DiskFault) ⊎ (first_answer (length_causes profile (main_of (D.reads disk.old))) ≡ stop_answer stop)) }
    ensures page { IfOk result (λ len. profile.page_size ≤ len) }
    ensures fed { IfErr result (λ stop. stop ≡ Stop.OutOfMemory → ⊥) }
    ensures late { IfErr result IsLateStop }
    ensures cause { IfErr result (λ stop. stop ≡ Stop.DiskFault → Rose (D.faults disk.old) (D.faults disk.new)) }
    ensures later { D.faults disk.old ≤ D.faults disk.new }
    ensures only_read { IsTrue D.tells → OnlyRead D.reads D.images D.moment D.since disk.old disk.new }
{
    let length = pager::served_length(disk, &profile)?;
    Ok(length)
}

/// How many whole pages a file of this length has, where they are served.
pub fn count_whole_pages(length: u64, profile: Profile) -> Result<u32, Stop>
    requires { IsListed profile }
    ensures pages { IfOk result (λ pages. (pages ≡ length / profile.page_size) × (pages * profile.page_size ≤ largest_database)) }
    ensures stop { IfErr result (λ stop. (stop ≡ Stop.Refused (TooLarge (length / profile.page_size))) × (largest_database < length / profile.page_size * profile.page_size)) }
{
    let _usable = profile.usable();
    let size = u64::from(profile.page_size);
    let pages = length / size;
    if pages * size > LARGEST_DATABASE {
        return Err(Stop::Refused(Refusal::TooLarge { pages }));
    }
    Ok(pages as u32)
}

/// The codec that the secret gives for Main, where its key fits.
pub fn fitting_codec<D: Disk>(
    disk: &mut D,
    profile: Profile,
    secret: &Secret,
) -> Result<Codec, Stop>
    requires listed { IsListed profile }
    requires some { IsTrue D.tells → profile.page_size ≤ length (main_of (D.reads disk.old)) }
    ensures none { OnOk result (IsTrue D.tells → first_answer (key_causes profile secret.now (main_of (D.reads disk.old))) ≡ None) }
    ensures codec { IfOk result (λ codec. IsTrue D.tells → codec ≡ keys_of profile secret.now (main_of (D.reads disk.old))) }
    ensures fed { IfErr result (λ stop. stop ≡ Stop.OutOfMemory → ⊥) }
    ensures late { IfErr result IsLateStop }
    ensures profile { IfOk result (λ codec. codec.profile ≡ profile) }
    ensures stop { IfErr result (λ stop. IsTrue D.tells → (stop ≡ Stop.DiskFault) ⊎ (first_answer (key_causes profile secret.now (main_of (D.reads disk.old))) ≡ stop_answer stop)) }
    ensures cause { IfErr result (λ stop. stop ≡ Stop.DiskFault → Rose (D.faults disk.old) (D.faults disk.new)) }
    ensures later { D.faults disk.old ≤ D.faults disk.new }
    ensures only_read { IsTrue D.tells → OnlyRead D.reads D.images D.moment D.since disk.old disk.new }
{
    let (codec, fits) = codec_of(disk, profile, secret)?;
    if !fits {
        return Err(Stop::KeyRefused);
    }
    Ok(codec)
}
