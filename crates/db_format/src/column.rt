// The columns of a record one by one, section 2.1.
ghost use Rattle.std.specs.Prelude.{◌≡◌, ◌<◌, ◌≤◌, ◌^◌, length, None, MatchOption};
ghost use Rattle.std.specs.Option.{option_map};
ghost use Rattle.db_format.specs.Column.{IsFirst};
ghost use Rattle.db_format.specs.Record.{values_in};

use crate::serial::serial_size;
use crate::varint::read_varint;

// A column, and what is left after it: the varints of the later types, and the bytes of the later values.
#[derive(Clone, Copy)]
pub(crate) struct FirstColumn<'a> {
    pub(crate) serial: u64,
    pub(crate) bytes: &'a [u8],
    pub(crate) later_types: &'a [u8],
    pub(crate) later_body: &'a [u8],
}

// The first of the columns whose types are spelled in `types` and whose bytes stand in `body`. `None` where there is no
// whole type, where it is reserved, and where the body is too short.
pub(crate) fn first_column<'a>(types: &'a [u8], body: &'a [u8]) -> Option<FirstColumn<'a>>
    requires { 0 < length types.now }
    ensures { MatchOption result (values_in types.now body.now ≡ None) (λ column. IsFirst column types.now body.now) }
{
    let Some((serial, len)) = read_varint(types) else {
        return None;
    };
    let Some(size) = serial_size(serial) else {
        return None;
    };
    if size > body.len() as u64 {
        return None;
    }
    let (bytes, later_body) = body.split_at(size as usize);
    Some(FirstColumn {
        serial,
        bytes,
        later_types: &types[len..],
        later_body,
    })
}

// How many columns there are. `None` where they are not those of a record.
pub(crate) fn count_columns(types: &[u8], body: &[u8]) -> Option<u32>
    requires { length types.now ≤ 2 ^ 30 }
    ensures { result ≡ option_map (λ values. length values) (values_in types.now body.now) }
{
    let mut later_types = types;
    let mut later_body = body;
    let mut count = 0;
    'columns: while !later_types.is_empty() {
        let column = first_column(later_types, later_body)?;
        later_types = column.later_types;
        later_body = column.later_body;
        count += 1;
    }
    Some(count)
}
