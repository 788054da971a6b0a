// The values of columns, section 2.1.

/// A value of a column.
#[derive(Clone, Copy, Debug, PartialEq, Eq)]
pub enum Value<'a> {
    /// NULL.
    Null,
    /// An integer.
    Int(i64),
    /// A float, as its eight bytes stand in the file.
    Float([u8; 8]),
    /// A text, as its bytes stand in the file, whatever the encoding.
    Text(&'a [u8]),
    /// A string of bytes.
    Blob(&'a [u8]),
}
