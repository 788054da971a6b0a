// The text of values.
ghost use Rattle.std.specs.Prelude.{◌≡◌, OnOk, OnErr, IsTrue, take, drop};
ghost use Rattle.edge_model.specs.Causes.{HasCause};
ghost use Rattle.db_format.specs.Value.{datum_of};
ghost use Rattle.db_format.specs.Values.{values_left};
ghost use Rattle.row_text.specs.Out.{Moves, MovesPart};
ghost use Rattle.db_format.specs.Text.{spaced, value_text};

use crate::line_out::LineOut;
use db_format::{Value, Values};
use edge_model::{Failed, Sink};

/// Appends the text of a value.
pub fn put_value<K: Sink>(line: &mut LineOut, out: &mut K, value: &Value<'_>) -> Result<(), Failed>
    ensures done { OnOk result (IsTrue K.tells → Moves (value_text (datum_of value.now)) (K.taken out.old) line.old (K.taken out.new) line.new) }
    ensures part { OnErr result (IsTrue K.tells → MovesPart (value_text (datum_of value.now)) (K.taken out.old) line.old (K.taken out.new)) }
    ensures cause { HasCause (K.faults out.old) (K.faults out.new) result }
{
    line.make_room(out)?;
    match value {
        Value::Null => {
            line.push(b"null");
            Ok(())
        }
        Value::Int(number) => {
            line.push_signed(*number);
            Ok(())
        }
        Value::Float(bytes) => {
            line.push(b"f'");
            line.push_hex(bytes);
            line.push(b"'");
            Ok(())
        }
        Value::Text(bytes) => {
            line.push(b"'");
            line.write_escaped(out, bytes)?;
            line.write(out, b"'")
        }
        Value::Blob(bytes) => {
            line.push(b"x'");
            line.write_hex(out, bytes)?;
            line.write(out, b"'")
        }
    }
}

/// Appends the next values, so many at most, each after a space.
pub fn put_values<K: Sink>(
    line: &mut LineOut,
    out: &mut K,
    values: &mut Values<'_>,
    most: usize,
) -> Result<(), Failed>
    ensures done { OnOk result (IsTrue K.tells → Moves (spaced (take most (values_left values.old))) (K.taken out.old) line.old (K.taken out.new) line.new) }
    ensures part { OnErr result (IsTrue K.tells → MovesPart (spaced (take most (values_left values.old))) (K.taken out.old) line.old (K.taken out.new)) }
    ensures later { OnOk result (values_left values.new ≡ drop most (values_left values.old)) }
    ensures cause { HasCause (K.faults out.old) (K.faults out.new) result }
{
    for _written in 0..most {
        let Some(value) = values.next() else {
            return Ok(());
        };
        line.write(out, b" ")?;
        put_value(line, out, &value)?;
    }
    Ok(())
}
