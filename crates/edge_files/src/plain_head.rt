// How a plain SQLite file begins.

/// The first bytes of a plain file, and of no encrypted one whose salt is random.
pub const MAGIC: [u8; 16] = *b"SQLite format 3\0";

/// What a file that begins as plain ones do says of its pages.
#[derive(Clone, Copy)]
pub struct PlainHead {
    /// The field of their size, in bytes; 1 means 65,536.
    pub field: u32,
    /// How many bytes at the end of each hold no content.
    pub reserve: u8,
}
