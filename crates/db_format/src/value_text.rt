// The text of a value that is whole in memory.
ghost use Rattle.std.specs.Prelude.{◌≡◌, ◌++◌, ◌∷◌, [], OnErr, OnOk};
ghost use Rattle.std.specs.Io.{StartsWith};
ghost use Rattle.std.specs.Fmt.{signed_decimal};
ghost use Rattle.hex.specs.Hex.{encode_lower};
ghost use Rattle.db_format.specs.Text.{escaped, value_text};
ghost use Rattle.db_format.specs.Value.{datum_of};

use crate::memory::OutOfMemory;
use crate::plain::plain_run;
use crate::value::Value;
use itoa::Buffer;

/// Appends the text of a value. Where there is no memory for it, `out` is as before.
pub fn write_value_text(value: &Value<'_>, out: &mut Vec<u8>) -> Result<(), OutOfMemory>
    ensures done { OnOk result (out.new.items ≡ out.old.items ++ value_text (datum_of value.now)) }
    ensures unchanged { OnErr result (out.new.items ≡ out.old.items) }
{
    let before = out.len();
    match append_value(value, out) {
        Ok(()) => Ok(()),
        Err(OutOfMemory) => {
            out.truncate(before);
            Err(OutOfMemory)
        }
    }
}

// The same; where there is no memory, a part of it is appended.
#[tactic(auto, using(std::proofs::Transfers::starts_with_trans, std::proofs::Transfers::starts_with_of_eq, std::proofs::Transfers::starts_with_of_append))]
fn append_value(value: &Value<'_>, out: &mut Vec<u8>) -> Result<(), OutOfMemory>
    ensures done { OnOk result (out.new.items ≡ out.old.items ++ value_text (datum_of value.now)) }
    ensures begins { StartsWith out.new.items out.old.items }
{
    match value {
        Value::Null => append(out, b"null"),
        Value::Int(number) => {
            let mut digits = Buffer::new();
            append(out, digits.format(*number).as_bytes())
        }
        Value::Float(bytes) => append_quoted_hex(out, b"f'", bytes),
        Value::Blob(bytes) => append_quoted_hex(out, b"x'", bytes),
        Value::Text(bytes) => {
            append(out, b"'")?;
            append_escaped(out, bytes)?;
            append(out, b"'")
        }
    }
}

fn append(out: &mut Vec<u8>, text: &[u8]) -> Result<(), OutOfMemory>
    ensures done { OnOk result (out.new.items ≡ out.old.items ++ text.now) }
    ensures begins { StartsWith out.new.items out.old.items }
{
    match out.extend_from_slice(text) {
        Ok(()) => Ok(()),
        Err(_) => Err(OutOfMemory),
    }
}

// Appends bytes as hex digits, between this text and a quote.
#[tactic(auto, using(std::proofs::Transfers::starts_with_trans, std::proofs::Transfers::starts_with_of_eq, std::proofs::Transfers::starts_with_of_append))]
fn append_quoted_hex(out: &mut Vec<u8>, head: &[u8], bytes: &[u8]) -> Result<(), OutOfMemory>
    ensures done { OnOk result (out.new.items ≡ out.old.items ++ head.now ++ encode_lower bytes.now ++ 39 ∷ []) }
    ensures begins { StartsWith out.new.items out.old.items }
{
    append(out, head)?;
    append_hex(out, bytes)?;
    append(out, b"'")
}

// Appends bytes as hex digits.
#[tactic(auto, using(std::proofs::Transfers::starts_with_trans, std::proofs::Transfers::starts_with_of_eq, std::proofs::Transfers::starts_with_of_append))]
fn append_hex(out: &mut Vec<u8>, bytes: &[u8]) -> Result<(), OutOfMemory>
    ensures done { OnOk result (out.new.items ≡ out.old.items ++ encode_lower bytes.now) }
    ensures begins { StartsWith out.new.items out.old.items }
{
    for byte in bytes {
        append_digits(out, *byte)?;
    }
    Ok(())
}

// Appends a byte as two hex digits.
fn append_digits(out: &mut Vec<u8>, byte: u8) -> Result<(), OutOfMemory>
    ensures done { OnOk result (out.new.items ≡ out.old.items ++ encode_lower (byte ∷ [])) }
    ensures begins { StartsWith out.new.items out.old.items }
{
    let mut digits = [0u8; 2];
    let _fits = hex::encode_to_slice(&[byte], &mut digits);
    append(out, &digits)
}

// Appends the bytes of a text, escaped where they do not stand as themselves.
#[tactic(auto, using(std::proofs::Transfers::starts_with_trans, std::proofs::Transfers::starts_with_of_eq, std::proofs::Transfers::starts_with_of_append))]
fn append_escaped(out: &mut Vec<u8>, text: &[u8]) -> Result<(), OutOfMemory>
    ensures done { OnOk result (out.new.items ≡ out.old.items ++ escaped text.now) }
    ensures begins { StartsWith out.new.items out.old.items }
{
    let mut left = text;
    while !left.is_empty() {
        let (run, rest) = left.split_at(plain_run(left));
        append(out, run)?;
        if rest.is_empty() {
            return Ok(());
        }
        let (other, later) = rest.split_at(1);
        append(out, b"\\x")?;
        append_hex(out, other)?;
        left = later;
    }
    Ok(())
}
