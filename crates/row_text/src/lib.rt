//! Rows as text: values, and lines of them, which are put to a sink in large pieces. No text of a value stands in memory whole.
//!
//! | value | text |
//! |---|---|
//! | NULL | `null` |
//! | integer | in decimal |
//! | float | `f'`, its eight bytes as hex digits, `'` |
//! | text | `'`, its bytes as they are stored, `'`; a byte that is not printable ASCII, a quote and a backslash as `\x` and two hex digits |
//! | bytes | `x'`, hex digits, `'` |
#![tactic(auto)]

mod entry;
mod line_out;
mod values;

pub use entry::put_entry;
pub use line_out::LineOut;
pub use values::{put_value, put_values};
