// The count of a database's pages, section 1.3.7.
ghost use Rattle.std.specs.Prelude.{◌≡◌, ◌≤◌, ◌<◌, ◌*◌, ◌^◌, IfOk};
ghost use Rattle.db_format.specs.Count.{count_of_pages, largest_database, page_count, size_counts};
ghost use Rattle.db_format.specs.Header.{IsPageSize};

use crate::header::Header;

/// Why a file's pages have no count.
#[derive(Clone, Copy, Debug, PartialEq, Eq)]
pub enum CountRefusal {
    /// The header does not say how many pages there are, and the file's length, in bytes, is not one of whole pages.
    Ragged { length: u64 },
    /// So many pages are longer than the largest database that is read.
    TooLarge { pages: u64 },
    /// The file's length, in bytes, is less than that of its pages.
    Short { length: u64 },
}

/// The length of the largest database that is read, in bytes.
pub const LARGEST_DATABASE: u64 = 1 << 30;

/// How many pages the database in a file of this length, in bytes, has. Bytes past the last page are no part of it.
/// An empty file whose header does not say how many pages there are has none.
pub fn counted_pages(header: &Header, length: u64) -> Result<u32, CountRefusal>
    requires { IsPageSize header.now.page_size }
    ensures count { result ≡ count_of_pages header.now length }
    ensures whole { IfOk result (λ pages. pages * header.now.page_size ≤ length) }
    ensures largest { IfOk result (λ pages. pages * header.now.page_size ≤ largest_database) }
{
    let page_size = header.page_size as u64;
    if !size_counts(header) && length % page_size != 0 {
        return Err(CountRefusal::Ragged { length });
    }
    let pages = page_count(header, length);
    let bytes = pages * page_size;
    if bytes > LARGEST_DATABASE {
        return Err(CountRefusal::TooLarge { pages });
    }
    if length < bytes {
        return Err(CountRefusal::Short { length });
    }
    Ok(pages as u32)
}

// Whether the size in the header counts.
fn size_counts(header: &Header) -> bool
    ensures { result ≡ size_counts header.now }
{
    header.size_field != 0 && header.change == header.valid_for
}

fn page_count(header: &Header, length: u64) -> u64
    requires { IsPageSize header.now.page_size }
    ensures count { result ≡ page_count header.now length }
    ensures fits { result * header.now.page_size < 2 ^ 64 }
{
    if size_counts(header) {
        header.size_field as u64
    } else {
        length / header.page_size as u64
    }
}
