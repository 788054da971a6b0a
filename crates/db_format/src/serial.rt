// Serial types, section 2.1.
ghost use Rattle.std.specs.Prelude.{◌≡◌, ◌+◌, ◌-◌, ◌*◌, ◌^◌, ◌≤◌, ◌<◌, length, nat_lt, pos, negsuc, true, false, MatchOption, if◌then◌else◌};
ghost use Rattle.db_format.specs.Value.{datum_of};
ghost use Rattle.db_format.specs.Row.{integer_type, steps};
ghost use Rattle.db_format.specs.Serial.{big_endian, is_type, signed, size_of, value_of};

use crate::value::Value;
use byteorder::{BigEndian, ByteOrder};

// How many bytes of the body a value of this type takes. `None` for the two reserved types.
#[tactic(auto, unfolding(crate::specs::Serial::size_of))]
pub(crate) fn serial_size(serial: u64) -> Option<u64>
    ensures { MatchOption result (is_type serial ≡ false) (λ size. (is_type serial ≡ true) × (size ≡ size_of serial)) }
{
    match serial {
        0..=4 => Some(serial),
        5 => Some(6),
        6 | 7 => Some(8),
        8 | 9 => Some(0),
        10 | 11 => None,
        _ => Some((serial - 12) / 2),
    }
}

// What the bytes of a value of this type mean.
#[tactic(auto, unfolding(crate::specs::Serial::size_of, crate::specs::Serial::value_of))]
pub(crate) fn value_of(serial: u64, bytes: &[u8]) -> Value<'_>
    requires { size_of serial ≡ length bytes.now }
    ensures { datum_of result ≡ value_of serial bytes.now }
{
    match serial {
        0 => Value::Null,
        1..=6 => Value::Int(integer(bytes)),
        7 => Value::Float(float(bytes)),
        8 => Value::Int(0),
        9 => Value::Int(1),
        _ if serial % 2 == 0 => Value::Blob(bytes),
        _ => Value::Text(bytes),
    }
}

fn float(bytes: &[u8]) -> [u8; 8]
    requires { length bytes.now ≡ 8 }
    ensures { result ≡ bytes.now }
{
    let mut float = [0; 8];
    float.copy_from_slice(bytes);
    float
}

// The big-endian number of these bytes, in two's complement.
fn integer(bytes: &[u8]) -> i64
    requires some { 1 ≤ length bytes.now }
    requires few { length bytes.now ≤ 8 }
    ensures { result ≡ signed (8 * length bytes.now) (big_endian bytes.now) }
{
    BigEndian::read_int(bytes, bytes.len())
}

// The least of the types 1 to 6 that holds an integer.
#[tactic(auto, unfolding(crate::specs::Row::integer_type))]
pub(crate) fn integer_type(number: i64) -> u64
    ensures least { result ≡ integer_type number }
    ensures some { 1 ≤ result }
    ensures few { result ≤ 6 }
{
    match steps(number) {
        0..=0x7f => 1,
        0x80..=0x7fff => 2,
        0x8000..=0x7f_ffff => 3,
        0x80_0000..=0x7fff_ffff => 4,
        0x8000_0000..=0x7fff_ffff_ffff => 5,
        _ => 6,
    }
}

// How far an integer is from 0, or from -1 if it is negative.
fn steps(number: i64) -> u64
    ensures { result ≡ steps number }
{
    if number < 0 {
        (-1 - number) as u64
    } else {
        number as u64
    }
}

// How many bytes an integer is written with.
#[tactic(auto, unfolding(crate::specs::Serial::size_of))]
pub(crate) fn integer_size(number: i64) -> usize
    ensures size { result ≡ size_of (integer_type number) }
    ensures few { result ≤ 8 }
{
    match integer_type(number) {
        5 => 6,
        6 => 8,
        serial => serial as usize,
    }
}
