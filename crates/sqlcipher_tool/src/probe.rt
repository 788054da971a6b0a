// `probe`: the first profile whose key fits.
ghost use Rattle.std.specs.Prelude.{◌≡◌, ◌⊎◌, ◌≤◌, ◌<◌, length, slice_get, None, Some, Err, IfOk, OnOk, IfErr, IsTrue, All};
ghost use Rattle.edge_model.specs.Causes.{HasCause, Rose};
ghost use Rattle.edge_model.specs.OnlyRead.{OnlyRead};
ghost use Rattle.cipher_profile.specs.Profile.{IsListed};
ghost use Rattle.page_codec.specs.Page.{salt_of};
ghost use Rattle.profile_word.specs.Tried.{probed_profiles};
ghost use Rattle.sqlcipher_tool.specs.Answer.{first_answer, Puts, PutsLine, IsAnswered, HasCauses};
ghost use Rattle.edge_model.specs.Files.{main_of};
ghost use Rattle.sqlcipher_tool.specs.Probe.{first_fitting, fits_file, probe_causes, probe_answer};
ghost use Rattle.sqlcipher_tool.specs.Stop.{stop_answer, outcome_answer, IsLateStop};

use crate::conclusion::conclude_outcome;
use crate::opening::Stop;
use crate::status::{Refusal, Status};
use crate::text::probe_report;
use cipher_profile::{Profile, Secret, derive, derive_beside};
use edge_model::{Disk, Failed, Role, Sink};
use page_codec::Codec;
use pager::{MAX_PAGE, file_length, read_main, read_page};
use profile_word::probed_profiles;
use text_lines::Text;

// The length of the shortest page of any profile that is tried, in bytes.
const LEAST_PAGE: u64 = 1024;

/// `probe` with this secret.
pub fn probe<S: Sink, D: Disk>(secret: &Secret, out: &mut S, disk: &mut D) -> Status
    ensures status { IsTrue D.tells → IsAnswered result (probe_answer secret.now (D.reads disk.old)) }
    ensures text { IsTrue S.tells → IsTrue D.tells → Puts result (probe_answer secret.now (D.reads disk.old)).text (S.taken out.old) (S.taken out.new) }
    ensures line { IsTrue S.tells → PutsLine result (S.taken out.old) (S.taken out.new) }
    ensures disk_text { result ≡ Status.DiskFault → out.new ≡ out.old }
    ensures memory { result ≡ Status.OutOfMemory → ⊥ }
    ensures causes { HasCauses result (D.faults disk.old) (D.faults disk.new) (S.faults out.old) (S.faults out.new) }
    ensures only_read { IsTrue D.tells → OnlyRead D.reads D.images D.moment D.since disk.old disk.new }
{
    let outcome = probe_main(disk, secret);
    conclude_outcome(out, outcome)
}

// The report on the profile of Main.
fn probe_main<D: Disk>(disk: &mut D, secret: &Secret) -> Result<Text, Stop>
    ensures told { IsTrue D.tells → (result ≡ Err Stop.DiskFault) ⊎ (outcome_answer result ≡ Some (probe_answer secret.now (D.reads disk.old))) }
    ensures fed { IfErr result (λ stop. stop ≡ Stop.OutOfMemory → ⊥) }
    ensures late { IfErr result IsLateStop }
    ensures cause { IfErr result (λ stop. stop ≡ Stop.DiskFault → Rose (D.faults disk.old) (D.faults disk.new)) }
    ensures later { D.faults disk.old ≤ D.faults disk.new }
    ensures only_read { IsTrue D.tells → OnlyRead D.reads D.images D.moment D.since disk.old disk.new }
{
    let length = probed_length(disk)?;
    match find_profile(disk, secret, length)? {
        Some(profile) => Ok(probe_report(&profile)),
        None => Err(Stop::KeyRefused),
    }
}

// The length of Main, where there is no journal and Main has a byte.
fn probed_length<D: Disk>(disk: &mut D) -> Result<u64, Stop>
    ensures none { OnOk result (IsTrue D.tells → first_answer (probe_causes (D.reads disk.old)) ≡ None) }
    ensures fed { IfErr result (λ stop. stop ≡ Stop.OutOfMemory → ⊥) }
    ensures late { IfErr result IsLateStop }
    ensures told { IfOk result (λ len. IsTrue D.tells → len ≡ length (main_of (D.reads disk.old))) }
    ensures stop { IfErr result (λ stop. IsTrue D.tells → (stop ≡ Stop.DiskFault) ⊎ (first_answer (probe_causes (D.reads disk.old)) ≡ stop_answer stop)) }
    ensures cause { IfErr result (λ stop. stop ≡ Stop.DiskFault → Rose (D.faults disk.old) (D.faults disk.new)) }
    ensures later { D.faults disk.old ≤ D.faults disk.new }
    ensures only_read { IsTrue D.tells → OnlyRead D.reads D.images D.moment D.since disk.old disk.new }
{
    if file_length(disk, Role::Journal)?.is_some() {
        return Err(Stop::Refused(Refusal::JournalThere));
    }
    let length = file_length(disk, Role::Main)?.unwrap_or(0);
    if length == 0 {
        return Err(Stop::Refused(Refusal::Empty));
    }
    Ok(length)
}

// The first profile that fits Main, which has this length.
fn find_profile<D: Disk>(disk: &mut D, secret: &Secret, len: u64) -> Result<Option<Profile>, Failed>
    requires { IsTrue D.tells → len ≡ length (main_of (D.reads disk.old)) }
    ensures told { IfOk result (λ found. IsTrue D.tells → found ≡ first_fitting secret.now (main_of (D.reads disk.old))) }
    ensures cause { HasCause (D.faults disk.old) (D.faults disk.new) result }
    ensures only_read { IsTrue D.tells → OnlyRead D.reads D.images D.moment D.since disk.old disk.new }
{
    let short = len < LEAST_PAGE;
    if short {
        return Ok(None);
    }
    let mut salt = [0u8; 16];
    read_main(disk, 0, &mut salt)?;
    find_with_salt(disk, secret, &salt, len)
}

// The same, where Main has this salt. A passphrase is stretched once for profiles that stretch it alike and stand one behind
// another, as all of version 4 do.
fn find_with_salt<D: Disk>(
    disk: &mut D,
    secret: &Secret,
    salt: &[u8; 16],
    len: u64,
) -> Result<Option<Profile>, Failed>
    requires salt { IsTrue D.tells → salt.now ≡ salt_of (main_of (D.reads disk.old)) }
    requires long { IsTrue D.tells → len ≡ length (main_of (D.reads disk.old)) }
    ensures told { IfOk result (λ found. IsTrue D.tells → found ≡ first_fitting secret.now (main_of (D.reads disk.old))) }
    ensures cause { HasCause (D.faults disk.old) (D.faults disk.new) result }
    ensures only_read { IsTrue D.tells → OnlyRead D.reads D.images D.moment D.since disk.old disk.new }
{
    let mut known = profile_after(0);
    let mut keys = derive(secret, &known, salt);
    for tried in 0..15 {
        let profile = profile_after(tried);
        keys = derive_beside(secret, &profile, salt, &known, &keys);
        known = profile;
        let codec = Codec::new(profile, keys, *salt);
        let fits = fits_main(disk, &codec, len)?;
        if fits {
            return Ok(Some(profile));
        }
    }
    Ok(None)
}

// The profile that is tried after so many others.
fn profile_after(tried: usize) -> Profile
    requires { tried < 15 }
    ensures value { slice_get probed_profiles tried ≡ Some result }
    ensures listed { IsListed result }
{
    let profiles = probed_profiles();
    profiles[tried]
}

// Whether Main, which has this length, has a page of the codec's profile that the codec's key fits.
fn fits_main<D: Disk>(disk: &mut D, codec: &Codec, len: u64) -> Result<bool, Failed>
    requires { IsTrue D.tells → len ≡ length (main_of (D.reads disk.old)) }
    ensures told { IfOk result (λ fits. IsTrue D.tells → fits ≡ fits_file codec.now (main_of (D.reads disk.old))) }
    ensures cause { HasCause (D.faults disk.old) (D.faults disk.new) result }
    ensures only_read { IsTrue D.tells → OnlyRead D.reads D.images D.moment D.since disk.old disk.new }
{
    let profile = *codec.profile();
    let _usable = profile.usable();
    if len < u64::from(profile.page_size) {
        return Ok(false);
    }
    let mut buffer = [0u8; MAX_PAGE];
    let page = &mut buffer[..profile.page_size as usize];
    read_page(disk, 1, page)?;
    Ok(codec.key_fits(page))
}
