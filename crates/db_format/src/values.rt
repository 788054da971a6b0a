// The values of a record one after another, section 2.1.
ghost use Rattle.std.specs.Prelude.{◌≡◌, true, is_some};
ghost use Rattle.db_format.specs.Record.{values_in};

use crate::column::first_column;
use crate::serial::value_of;
use crate::value::Value;

/// The values of a record, in the order of its columns.
#[derive(Clone, Copy, Debug)]
pub struct Values<'a> {
    pub(crate) types: &'a [u8],
    pub(crate) body: &'a [u8],
    ghost whole: { is_some (values_in types.now body.now) ≡ true },
}

impl<'a> Iterator for Values<'a> {
    ghost use Rattle.std.specs.Iterator.{item_count};
    ghost use Rattle.db_format.specs.Values.{GivesValue, values_left};

    type Item = Value<'a>;

    ghost next_gives = { GivesValue };

    ghost remaining = { item_count values_left };

    fn next(&mut self) -> Option<Value<'a>> {
        if self.types.is_empty() {
            return None;
        }
        match first_column(self.types, self.body) {
            Some(column) => {
                self.types = column.later_types;
                self.body = column.later_body;
                Some(value_of(column.serial, column.bytes))
            }
            None => unreachable!(),
        }
    }
}
