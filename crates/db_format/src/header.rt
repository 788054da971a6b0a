// The database header, section 1.3.
ghost use Rattle.std.specs.Prelude.{◌≡◌, ◌≤◌, ◌<◌, ◌+◌, ◌^◌, ◌==◌, ◌&&◌, not, [], ◌∷◌, length, Ok, IfOk};
ghost use Rattle.std.specs.Int.{w16, w32, to_be_bytes};
ghost use Rattle.std.specs.List.{splice};
ghost use Rattle.db_format.specs.Bytes.{u8_at, u32_at};
ghost use Rattle.db_format.specs.Header.{IsPageSize, header_bytes, header_fields, header_read, header_read_as, is_version, page_size_of, stored_page_size, must_be, at_most};
ghost use Rattle.db_format.specs.Rules.{unless_broken};

use number_fields::{u16_at, u16_bytes, u32_at, u32_bytes};

/// The fields of a database header, each with its offset in bytes.
#[derive(Clone, Copy, Debug, PartialEq, Eq)]
pub struct Header {
    /// The length of a page, in bytes (offset 16).
    pub page_size: u32,
    /// How many bytes at the end of each page hold no content (offset 20).
    pub reserve: u32,
    /// The change counter (offset 24).
    pub change: u32,
    /// The size of the database, in pages (offset 28). It may be out of date, which `counted_pages` tells.
    pub size_field: u32,
    /// The number of the first freelist trunk page, 0 for none (offset 32).
    pub first_trunk: u32,
    /// The number of freelist pages, trunks and leaves (offset 36).
    pub free_count: u32,
    /// The schema cookie (offset 40).
    pub cookie: u32,
    /// The schema format, at most 4 (offset 44).
    pub format: u32,
    /// The suggested size of the page cache, as it is stored (offset 48).
    pub cache: u32,
    /// The text encoding, 1 for UTF-8, 2 for UTF-16le and 3 for UTF-16be (offset 56).
    pub encoding: u32,
    /// The user version (offset 60).
    pub user_version: u32,
    /// The application id (offset 68).
    pub application_id: u32,
    /// The change counter for which the size is valid (offset 92).
    pub valid_for: u32,
    /// The number of the SQLite version that last changed the file (offset 96).
    pub sqlite_number: u32,
}

/// Why a header is not read.
#[derive(Clone, Copy, Debug, PartialEq, Eq)]
pub enum HeaderRefusal {
    /// The field at this offset, in bytes, holds a number that breaks its rule. `found` is the number as it is stored.
    HeaderFault { offset: u32, found: u32 },
    /// The newest pages may stand in a write-ahead log.
    WalMode,
    /// The file has pointer-map pages.
    AutoVacuum,
}

/// Where a header has its change counter: an offset in bytes, as those below.
pub const CHANGE_AT: usize = 24;

/// Where it has the size of the database.
pub const SIZE_AT: usize = 28;

/// Where it has the user version.
pub const USER_VERSION_AT: usize = 60;

/// Where it has the application id.
pub const APPLICATION_ID_AT: usize = 68;

/// Where it has the change counter for which the size is valid.
pub const VALID_FOR_AT: usize = 92;

/// What a header begins with (section 1.3.1).
const MAGIC: &[u8; 16] = b"SQLite format 3\0";

/// The header at the start of a decrypted page 1. The file's page size and reserve are in bytes. Where marks pass, those of WAL mode
/// and of auto-vacuum are no refusal: the file is one that only is read.
pub fn read_header(
    plain: &[u8],
    page_size: u32,
    reserve: u32,
    passes: bool,
) -> Result<Header, HeaderRefusal>
    requires { 100 ≤ length plain.now }
    ensures read { result ≡ header_read_as passes plain.now page_size reserve }
    ensures fields { IfOk result (λ header. header ≡ header_fields plain.now) }
    ensures layout { IfOk result (λ header. (header.page_size ≡ page_size) × (header.reserve ≡ reserve)) }
    ensures limits { IfOk result (λ header. (header.format ≤ 4) × (header.encoding ≤ 3)) }
{
    let stored = u16_at(plain, 16);
    if page_size_of(stored) != page_size {
        return Err(HeaderRefusal::HeaderFault {
            offset: 16,
            found: stored as u32,
        });
    }
    check_version(plain, 18, passes)?;
    check_version(plain, 19, passes)?;
    check_byte(plain, 20, reserve)?;
    check_byte(plain, 21, 64)?;
    check_byte(plain, 22, 32)?;
    check_byte(plain, 23, 32)?;
    check_at_most(plain, 44, 4)?;
    if !passes && u32_at(plain, 52) != 0 {
        return Err(HeaderRefusal::AutoVacuum);
    }
    check_at_most(plain, 56, 3)?;
    Ok(fields(plain))
}

// The page size, in bytes, that the two bytes at 16 mean.
fn page_size_of(stored: u16) -> u32
    ensures { result ≡ page_size_of stored }
{
    if stored == 1 { 65_536 } else { stored as u32 }
}

// How a page size is stored at 16.
fn stored_page_size(size: u32) -> u16
    requires { size ≤ 65536 }
    ensures { result ≡ stored_page_size size }
{
    if size == 65_536 { 1 } else { size as u16 }
}

// The write and the read version.
fn check_version(plain: &[u8], at: usize, passes: bool) -> Result<(), HeaderRefusal>
    requires place { at < 100 }
    requires long { 100 ≤ length plain.now }
    ensures { result ≡ unless_broken ((not passes && u8_at plain.now at == 2, HeaderRefusal.WalMode) ∷ is_version passes plain.now at ∷ []) tt }
{
    if plain[at] != 2 {
        return check_byte(plain, at, 1);
    }
    if passes {
        return Ok(());
    }
    Err(HeaderRefusal::WalMode)
}

// A byte that is to have this value.
fn check_byte(plain: &[u8], at: usize, want: u32) -> Result<(), HeaderRefusal>
    requires place { at < 100 }
    requires long { 100 ≤ length plain.now }
    ensures { result ≡ unless_broken (must_be plain.now at want ∷ []) tt }
{
    let found = plain[at] as u32;
    if found != want {
        return Err(HeaderRefusal::HeaderFault {
            offset: at as u32,
            found,
        });
    }
    Ok(())
}

// A number of four bytes that is to be no greater than this.
fn check_at_most(plain: &[u8], at: usize, most: u32) -> Result<(), HeaderRefusal>
    requires place { at ≤ 96 }
    requires long { 100 ≤ length plain.now }
    ensures { result ≡ unless_broken (at_most plain.now at most ∷ []) tt }
{
    let found = u32_at(plain, at);
    if found > most {
        return Err(HeaderRefusal::HeaderFault {
            offset: at as u32,
            found,
        });
    }
    Ok(())
}

fn fields(plain: &[u8]) -> Header
    requires { 100 ≤ length plain.now }
    ensures { result ≡ header_fields plain.now }
{
    Header {
        page_size: page_size_of(u16_at(plain, 16)),
        reserve: plain[20] as u32,
        change: u32_at(plain, CHANGE_AT),
        size_field: u32_at(plain, SIZE_AT),
        first_trunk: u32_at(plain, 32),
        free_count: u32_at(plain, 36),
        cookie: u32_at(plain, 40),
        format: u32_at(plain, 44),
        cache: u32_at(plain, 48),
        encoding: u32_at(plain, 56),
        user_version: u32_at(plain, USER_VERSION_AT),
        application_id: u32_at(plain, APPLICATION_ID_AT),
        valid_for: u32_at(plain, VALID_FOR_AT),
        sqlite_number: u32_at(plain, 96),
    }
}

/// Writes a header: the first 100 bytes of page 1, with no write-ahead log and no pointer-map pages.
pub fn write_header(header: &Header, out: &mut [u8; 100])
    requires page_size { IsPageSize header.now.page_size }
    requires reserve { header.now.reserve ≤ 255 }
    requires format { header.now.format ≤ 4 }
    requires encoding { header.now.encoding ≤ 3 }
    ensures bytes { out.new ≡ header_bytes header.now }
    ensures reads_back { header_read out.new header.now.page_size header.now.reserve ≡ Ok header.now }
{
    *out = [0; 100];
    put(out, 0, MAGIC);
    put_u16(out, 16, stored_page_size(header.page_size));
    put(out, 18, &[1, 1, header.reserve as u8, 64, 32, 32]);
    put_u32(out, CHANGE_AT, header.change);
    put_u32(out, SIZE_AT, header.size_field);
    put_u32(out, 32, header.first_trunk);
    put_u32(out, 36, header.free_count);
    put_u32(out, 40, header.cookie);
    put_u32(out, 44, header.format);
    put_u32(out, 48, header.cache);
    put_u32(out, 56, header.encoding);
    put_u32(out, USER_VERSION_AT, header.user_version);
    put_u32(out, APPLICATION_ID_AT, header.application_id);
    put_u32(out, VALID_FOR_AT, header.valid_for);
    put_u32(out, 96, header.sqlite_number);
}

// Replaces the bytes from `at` on.
fn put(out: &mut [u8; 100], at: usize, bytes: &[u8])
    requires { at + length bytes.now ≤ 100 }
    ensures { out.new ≡ splice out.old at (at + length bytes.now) bytes.now }
{
    out[at..at + bytes.len()].copy_from_slice(bytes);
}

// Replaces the two bytes from `at` on.
fn put_u16(out: &mut [u8; 100], at: usize, number: u16)
    requires { at ≤ 98 }
    ensures { out.new ≡ splice out.old at (at + 2) (to_be_bytes w16 number) }
{
    put(out, at, &u16_bytes(number));
}

// Replaces the four bytes from `at` on.
fn put_u32(out: &mut [u8; 100], at: usize, number: u32)
    requires { at ≤ 96 }
    ensures bytes { out.new ≡ splice out.old at (at + 4) (to_be_bytes w32 number) }
    ensures fits { number < 2 ^ 32 }
{
    put(out, at, &u32_bytes(number));
}
