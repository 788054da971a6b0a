// A file is opened: its length is looked at, then whether the key fits page 1, then the header and the count of pages.
ghost use Rattle.std.specs.Prelude.{◌≡◌, ◌≢◌, ◌⊎◌, ◌≤◌, ◌*◌, ◌^◌, length, None, Some, Ok, Err, IfOk, OnOk, IfErr, IsTrue};
ghost use Rattle.edge_model.specs.Causes.{HasCause, Rose};
ghost use Rattle.edge_model.specs.OnlyRead.{OnlyRead};
ghost use Rattle.cipher_profile.specs.Profile.{IsListed};
ghost use Rattle.db_format.specs.Count.{count_of_pages, largest_database};
ghost use Rattle.db_format.specs.Header.{IsPageSize};
ghost use Rattle.page_codec.specs.Page.{fits, keys_of};
ghost use Rattle.pager.specs.File.{first_page};
ghost use Rattle.pager.specs.Opening.{count_error, file_opened, first_broken, first_opened, header_error, length_rules, with_count};
ghost use Rattle.edge_model.specs.Files.{main_of};

use crate::main_file::{MAX_PAGE, file_length, read_page};
use cipher_profile::{Profile, Secret};
use db_format::{CountRefusal, Header, HeaderRefusal, counted_pages, read_header};
use edge_model::{Disk, Failed, Role};
use page_codec::Codec;
use thiserror::Error;

/// Why a file was not opened. Lengths are in bytes.
#[derive(Clone, Copy, Debug, PartialEq, Eq, Error)]
pub enum OpenError {
    /// It has no byte, or is not there.
    #[error("the file is empty")]
    Empty,
    /// It is shorter than a page, or than its pages.
    #[error("the file is short: {length} bytes")]
    Short { length: u64 },
    /// The key does not fit page 1.
    #[error("the key does not fit")]
    KeyRefused,
    /// The field of the header at this offset, in bytes, holds a number that breaks its rule.
    #[error("the header is at fault at {offset}: {found}")]
    HeaderFault { offset: u32, found: u32 },
    /// The newest pages may stand in a write-ahead log.
    #[error("the file keeps a write-ahead log")]
    WalMode,
    /// The file has pointer-map pages.
    #[error("the file has pointer-map pages")]
    AutoVacuum,
    /// The header does not say how many pages there are, and the file is not whole pages.
    #[error("the file is no whole number of pages: {length} bytes")]
    Ragged { length: u64 },
    /// So many pages are more than are served.
    #[error("the file is too large: {pages} pages")]
    TooLarge { pages: u64 },
    /// The disk failed.
    #[error("the disk failed")]
    DiskFault,
    /// Memory ran out.
    #[error("out of memory")]
    OutOfMemory,
}

/// The length of Main, where it has a page of this profile: in bytes.
pub fn served_length<D: Disk>(disk: &mut D, profile: &Profile) -> Result<u64, OpenError>
    ensures told { IfOk result (λ len. IsTrue D.tells → len ≡ length (main_of (D.reads disk.old))) }
    ensures passed { OnOk result (IsTrue D.tells → first_broken (length_rules profile.now.page_size (main_of (D.reads disk.old))) ≡ None) }
    ensures page { IfOk result (λ len. profile.now.page_size ≤ len) }
    ensures refused { IfErr result (λ error. IsTrue D.tells → (error ≡ OpenError.DiskFault)
        ⊎ (first_broken (length_rules profile.now.page_size (main_of (D.reads disk.old))) ≡ Some error)) }
    ensures fed { IfErr result (λ error. error ≢ OpenError.OutOfMemory) }
    ensures fault { IfErr result (λ error. error ≡ OpenError.DiskFault → Rose (D.faults disk.old) (D.faults disk.new)) }
    ensures later { D.faults disk.old ≤ D.faults disk.new }
    ensures only_read { IsTrue D.tells → OnlyRead D.reads D.images D.moment D.since disk.old disk.new }
{
    let length = match file_length(disk, Role::Main) {
        Ok(length) => length.unwrap_or(0),
        Err(_) => return Err(OpenError::DiskFault),
    };
    if length == 0 {
        return Err(OpenError::Empty);
    }
    if length < u64::from(profile.page_size) {
        return Err(OpenError::Short { length });
    }
    Ok(length)
}

/// The codec that the secret gives for Main, and whether its key fits.
pub fn codec_of<D: Disk>(
    disk: &mut D,
    profile: Profile,
    secret: &Secret,
) -> Result<(Codec, bool), Failed>
    requires listed { IsListed profile }
    requires some { IsTrue D.tells → profile.page_size ≤ length (main_of (D.reads disk.old)) }
    ensures codec { IfOk result (λ codec. IsTrue D.tells → codec.0 ≡ keys_of profile secret.now (main_of (D.reads disk.old))) }
    ensures profile { IfOk result (λ codec. codec.0.profile ≡ profile) }
    ensures fits { IfOk result (λ codec. IsTrue D.tells → codec.1 ≡ fits (keys_of profile secret.now (main_of (D.reads disk.old))) (first_page profile (main_of (D.reads disk.old)))) }
    ensures cause { HasCause (D.faults disk.old) (D.faults disk.new) result }
    ensures only_read { IsTrue D.tells → OnlyRead D.reads D.images D.moment D.since disk.old disk.new }
{
    let _usable = profile.usable();
    let mut buffer = [0u8; MAX_PAGE];
    let page = &mut buffer[..profile.page_size as usize];
    read_page(disk, 1, page)?;
    let codec = Codec::of_file(profile, secret, page);
    let fits = codec.key_fits(page);
    Ok((codec, fits))
}

/// What a file has, once it is opened: its header, and the count of its pages.
#[derive(Clone, Copy, Debug, PartialEq, Eq)]
pub(crate) struct Counted {
    pub header: Header,
    pub count: u32,
}

/// Opens Main with the keys that the secret gives.
pub(crate) fn open_main<D: Disk>(
    disk: &mut D,
    profile: Profile,
    secret: &Secret,
) -> Result<(Codec, Counted), OpenError>
    requires { IsListed profile }
    ensures opens { IfOk result (λ found. IsTrue D.tells → file_opened (keys_of profile secret.now (main_of (D.reads disk.old))) (main_of (D.reads disk.old))
        ≡ Ok (record { header = found.1.header; count = found.1.count })) }
    ensures codec { IfOk result (λ found. IsTrue D.tells → found.0 ≡ keys_of profile secret.now (main_of (D.reads disk.old))) }
    ensures profile { IfOk result (λ found. found.0.profile ≡ profile) }
    ensures some { IfOk result (λ found. 1 ≤ found.1.count) }
    ensures largest { IfOk result (λ found. found.1.count * profile.page_size ≤ largest_database) }
    ensures layout { IfOk result (λ found. found.1.header.page_size ≡ profile.page_size) }
    ensures limits { IfOk result (λ found. (found.1.header.format ≤ 4) × (found.1.header.encoding ≤ 3)) }
    ensures refused { IfErr result (λ error. IsTrue D.tells → (error ≡ OpenError.DiskFault)
        ⊎ (file_opened (keys_of profile secret.now (main_of (D.reads disk.old))) (main_of (D.reads disk.old)) ≡ Err error)) }
    ensures fed { IfErr result (λ error. error ≢ OpenError.OutOfMemory) }
    ensures fault { IfErr result (λ error. error ≡ OpenError.DiskFault → Rose (D.faults disk.old) (D.faults disk.new)) }
    ensures later { D.faults disk.old ≤ D.faults disk.new }
    ensures only_read { IsTrue D.tells → OnlyRead D.reads D.images D.moment D.since disk.old disk.new }
{
    let _usable = profile.usable();
    let mut buffer = [0u8; MAX_PAGE];
    let page = &mut buffer[..profile.page_size as usize];
    let len = read_first(disk, &profile, page)?;
    let codec = Codec::of_file(profile, secret, page);
    match open_first(&codec, page, len) {
        Ok(found) => Ok((codec, found)),
        Err(error) => Err(error),
    }
}

/// Opens Main with this codec.
pub(crate) fn open_under<D: Disk>(disk: &mut D, codec: &Codec) -> Result<Counted, OpenError>
    ensures opens { IfOk result (λ found. IsTrue D.tells → file_opened codec.now (main_of (D.reads disk.old)) ≡ Ok (record { header = found.header; count = found.count })) }
    ensures some { IfOk result (λ found. 1 ≤ found.count) }
    ensures largest { IfOk result (λ found. found.count * codec.now.profile.page_size ≤ largest_database) }
    ensures layout { IfOk result (λ found. found.header.page_size ≡ codec.now.profile.page_size) }
    ensures limits { IfOk result (λ found. (found.header.format ≤ 4) × (found.header.encoding ≤ 3)) }
    ensures refused { IfErr result (λ error. IsTrue D.tells → (error ≡ OpenError.DiskFault) ⊎ (file_opened codec.now (main_of (D.reads disk.old)) ≡ Err error)) }
    ensures fed { IfErr result (λ error. error ≢ OpenError.OutOfMemory) }
    ensures fault { IfErr result (λ error. error ≡ OpenError.DiskFault → Rose (D.faults disk.old) (D.faults disk.new)) }
    ensures later { D.faults disk.old ≤ D.faults disk.new }
    ensures only_read { IsTrue D.tells → OnlyRead D.reads D.images D.moment D.since disk.old disk.new }
{
    let profile = codec.profile();
    let _usable = profile.usable();
    let mut buffer = [0u8; MAX_PAGE];
    let page = &mut buffer[..profile.page_size as usize];
    let len = read_first(disk, profile, page)?;
    open_first(codec, page, len)
}

// Page 1 of Main as it is stored, where Main has a page of this profile. Answers the length of Main.
fn read_first<D: Disk>(disk: &mut D, profile: &Profile, page: &mut [u8]) -> Result<u64, OpenError>
    requires size { length page.old ≡ profile.now.page_size }
    requires most { length page.old ≤ 2 ^ 16 }
    ensures told { IfOk result (λ len. IsTrue D.tells → len ≡ length (main_of (D.reads disk.old))) }
    ensures passed { OnOk result (IsTrue D.tells → first_broken (length_rules profile.now.page_size (main_of (D.reads disk.old))) ≡ None) }
    ensures read { OnOk result (IsTrue D.tells → page.new ≡ first_page profile.now (main_of (D.reads disk.old))) }
    ensures page { IfOk result (λ len. profile.now.page_size ≤ len) }
    ensures refused { IfErr result (λ error. IsTrue D.tells → (error ≡ OpenError.DiskFault)
        ⊎ (first_broken (length_rules profile.now.page_size (main_of (D.reads disk.old))) ≡ Some error)) }
    ensures fed { IfErr result (λ error. error ≢ OpenError.OutOfMemory) }
    ensures fault { IfErr result (λ error. error ≡ OpenError.DiskFault → Rose (D.faults disk.old) (D.faults disk.new)) }
    ensures later { D.faults disk.old ≤ D.faults disk.new }
    ensures only_read { IsTrue D.tells → OnlyRead D.reads D.images D.moment D.since disk.old disk.new }
{
    let len = served_length(disk, profile)?;
    match read_page(disk, 1, page) {
        Ok(()) => Ok(len),
        Err(_) => Err(OpenError::DiskFault),
    }
}

// What a file of this many bytes has, where this is its stored page 1: it is opened where it stands, if the key fits.
fn open_first(codec: &Codec, page: &mut [u8], len: u64) -> Result<Counted, OpenError>
    requires size { length page.old ≡ codec.now.profile.page_size }
    requires page { codec.now.profile.page_size ≤ len }
    ensures opens { IfOk result (λ found. first_opened codec.now page.old len ≡ Ok (record { header = found.header; count = found.count })) }
    ensures refused { IfErr result (λ error. first_opened codec.now page.old len ≡ Err error) }
    ensures some { IfOk result (λ found. 1 ≤ found.count) }
    ensures largest { IfOk result (λ found. found.count * codec.now.profile.page_size ≤ largest_database) }
    ensures layout { IfOk result (λ found. found.header.page_size ≡ codec.now.profile.page_size) }
    ensures limits { IfOk result (λ found. (found.header.format ≤ 4) × (found.header.encoding ≤ 3)) }
    ensures of_file { IfErr result (λ error. (error ≢ OpenError.DiskFault) × (error ≢ OpenError.OutOfMemory)) }
{
    if !codec.open_first(page) {
        return Err(OpenError::KeyRefused);
    }
    let profile = codec.profile();
    let plain = &page[..profile.usable()];
    match read_header(plain, profile.page_size, profile.reserve, profile.reads_log) {
        Ok(header) => count_main(header, len),
        Err(refusal) => Err(header_error(refusal)),
    }
}

// The header, with the count of pages of a file of this many bytes.
fn count_main(header: Header, length: u64) -> Result<Counted, OpenError>
    requires size { IsPageSize header.page_size }
    requires page { header.page_size ≤ length }
    ensures told { (IfOk result (λ found. with_count header (count_of_pages header length) ≡ Ok (record { header = found.header; count = found.count })))
        × (IfErr result (λ error. with_count header (count_of_pages header length) ≡ Err error)) }
    ensures some { IfOk result (λ found. 1 ≤ found.count) }
    ensures largest { IfOk result (λ found. found.count * header.page_size ≤ largest_database) }
    ensures header { IfOk result (λ found. found.header ≡ header) }
    ensures counted { IfErr result (λ error. (error ≢ OpenError.DiskFault) × (error ≢ OpenError.OutOfMemory)) }
{
    match counted_pages(&header, length) {
        Ok(count) => Ok(Counted { header, count }),
        Err(refusal) => Err(count_error(refusal)),
    }
}

fn header_error(refusal: HeaderRefusal) -> OpenError
    ensures value { result ≡ header_error refusal }
    ensures read { (result ≢ OpenError.DiskFault) × (result ≢ OpenError.OutOfMemory) }
{
    match refusal {
        HeaderRefusal::HeaderFault { offset, found } => OpenError::HeaderFault { offset, found },
        HeaderRefusal::WalMode => OpenError::WalMode,
        HeaderRefusal::AutoVacuum => OpenError::AutoVacuum,
    }
}

fn count_error(refusal: CountRefusal) -> OpenError
    ensures value { result ≡ count_error refusal }
    ensures counted { (result ≢ OpenError.DiskFault) × (result ≢ OpenError.OutOfMemory) }
{
    match refusal {
        CountRefusal::Ragged { length } => OpenError::Ragged { length },
        CountRefusal::TooLarge { pages } => OpenError::TooLarge { pages },
        CountRefusal::Short { length } => OpenError::Short { length },
    }
}
