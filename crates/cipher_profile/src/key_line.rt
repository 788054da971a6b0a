// Key lines: what of the input one takes, and the secret that it gives.
ghost use Rattle.std.specs.Prelude.{◌≡◌, ◌≢◌, ◌≤◌, ◌*◌, ℕ, Err, length, take, drop, IfOk, IsErrOf, IsTrue};
ghost use Rattle.std.specs.Char.{is_ascii_hexdigit};
ghost use Rattle.std.specs.List.{list_all};
ghost use Rattle.edge_model.specs.Causes.{Rose};
ghost use Rattle.cipher_profile.specs.KeyCauses.{UnlessFault};
ghost use Rattle.cipher_profile.specs.KeyLine.{after_line, hex_before, hex_bytes, hex_secret, is_hex_literal, is_hex_text, is_quoted, is_salted_hex, key_line, line_in, key_line_of, literal_bytes, key_quoted, plain_secret, salt_behind, secret_of};
ghost use Rattle.cipher_profile.specs.declared.keys.Secret.TheVariants.{SaltedPass, SaltedRaw};

use crate::keys::Secret;
use crate::passphrase::{MAX_PASSPHRASE, PassBytes};
use crate::profile::LineForm;
use edge_model::Source;

/// Why a key line gave no secret.
#[derive(Clone, Copy, Debug, PartialEq, Eq)]
pub enum KeyError {
    /// No byte was left.
    KeyMissing,
    /// The line is empty.
    KeyEmpty,
    /// 1,025 bytes came without a line feed.
    KeyTooLong,
    /// The line is `x'` or `X'`, 96 hex digits and `'`, a raw key and a salt, and the file holds its salt itself.
    KeyForm,
    /// The line has no salt, and the file does not hold it.
    KeyUnsalted,
    /// The line was to be a passphrase in hex digits and is not.
    KeyNotHex,
    /// The source failed, and its count of faults rose.
    SourceFault,
}

/// What a line takes at most: a passphrase and one byte more, which is to be its line feed.
const MAX_TAKEN: usize = MAX_PASSPHRASE + 1;

/// A raw key's line, in bytes: `x'`, 64 hex digits and `'`.
const RAW_LEN: usize = 67;

/// The line of a raw key and a salt, in bytes: `x'`, 96 hex digits and `'`.
const SALTED_LEN: usize = 99;

/// How much of the line of a passphrase in hex is behind it, where the salt comes with it: a comma and 32 digits.
const BEHIND_HEX: usize = 33;

/// The most bytes that a line has in hex.
const MAX_IN_HEX: usize = MAX_PASSPHRASE / 2;

/// The secret of the next line, which has this form and is taken with its line feed. A line is bytes, not text: a carriage return is
/// part of it.
pub fn read_key<K: Source>(form: LineForm, source: &mut K) -> Result<Secret, KeyError>
    ensures told { UnlessFault result (IsTrue K.tells → result ≡ key_line form (K.left source.old)) }
    ensures rest { UnlessFault result (IsTrue K.tells → K.left source.new ≡ after_line (K.left source.old)) }
    ensures at_most { IsTrue K.tells → (n : ℕ) × (n ≤ 1025) × (K.left source.new ≡ drop n (K.left source.old)) }
    ensures later { K.faults source.old ≤ K.faults source.new }
    ensures fault { IsErrOf result KeyError.SourceFault → Rose (K.faults source.old) (K.faults source.new) }
{
    let mut line = [0u8; MAX_TAKEN];
    let len = take_line(source, &mut line)?;
    secret_of(form, &line[..len])
}

// Takes the next line with its line feed, or the end. Answers how many bytes stand in the buffer, where the line feed
// does not.
fn take_line<K: Source>(source: &mut K, line: &mut [u8; MAX_TAKEN]) -> Result<usize, KeyError>
    ensures within { IfOk result (λ len. len ≤ 1024) }
    ensures told { UnlessFault result (IsTrue K.tells → line_in line.new result ≡ key_line_of (K.left source.old)) }
    ensures rest { UnlessFault result (IsTrue K.tells → K.left source.new ≡ after_line (K.left source.old)) }
    ensures at_most { IsTrue K.tells → (n : ℕ) × (n ≤ 1025) × (K.left source.new ≡ drop n (K.left source.old)) }
    ensures later { K.faults source.old ≤ K.faults source.new }
    ensures fault { IsErrOf result KeyError.SourceFault → Rose (K.faults source.old) (K.faults source.new) }
{
    for at in 0..MAX_TAKEN {
        let mut byte = [0u8; 1];
        let Ok(count) = source.take(&mut byte) else {
            return Err(KeyError::SourceFault);
        };
        if count == 0 {
            return if at == 0 {
                Err(KeyError::KeyMissing)
            } else {
                Ok(at)
            };
        }
        if byte[0] == b'\n' {
            return Ok(at);
        }
        line[at] = byte[0];
    }
    Err(KeyError::KeyTooLong)
}

fn secret_of(form: LineForm, line: &[u8]) -> Result<Secret, KeyError>
    requires { length line.now ≤ 1024 }
    ensures value { result ≡ secret_of form line.now }
    ensures unfailing { result ≢ Err KeyError.SourceFault }
{
    if line.len() == 0 {
        Err(KeyError::KeyEmpty)
    } else if form.hex {
        hex_secret(form.salted, line)
    } else {
        plain_secret(form.salted, line)
    }
}

// A line as it stands: a raw key in its own form, or a passphrase.
fn plain_secret(salted: bool, line: &[u8]) -> Result<Secret, KeyError>
    requires some { 1 ≤ length line.now }
    requires short { length line.now ≤ 1024 }
    ensures value { result ≡ plain_secret salted line.now }
    ensures unfailing { result ≢ Err KeyError.SourceFault }
{
    match line.len() {
        RAW_LEN if is_hex_literal(line) => {
            if salted {
                Err(KeyError::KeyUnsalted)
            } else {
                Ok(Secret::Raw(raw_key(line)))
            }
        }
        SALTED_LEN if is_hex_literal(line) => {
            if salted {
                Ok(salted_key(line))
            } else {
                Err(KeyError::KeyForm)
            }
        }
        _ => {
            if salted {
                Err(KeyError::KeyUnsalted)
            } else {
                Ok(Secret::Pass(PassBytes::new(line)))
            }
        }
    }
}

// A passphrase in hex, and behind it the salt where it comes with the key.
fn hex_secret(salted: bool, line: &[u8]) -> Result<Secret, KeyError>
    requires { length line.now ≤ 1024 }
    ensures value { result ≡ hex_secret salted line.now }
    ensures unfailing { result ≢ Err KeyError.SourceFault }
{
    if salted && is_salted_hex(line) {
        return Ok(salted_passphrase(line));
    }
    if !is_hex_text(line) {
        return Err(KeyError::KeyNotHex);
    }
    if salted {
        Err(KeyError::KeyUnsalted)
    } else {
        Ok(Secret::Pass(hex_passphrase(line)))
    }
}

fn is_quoted(line: &[u8]) -> bool
    ensures { result ≡ is_quoted line.now }
{
    line.len() >= 3
        && (line[0] == b'x' || line[0] == b'X')
        && line[1] == b'\''
        && line[line.len() - 1] == b'\''
}

fn quoted(line: &[u8]) -> &[u8]
    requires { 3 ≤ length line.now }
    ensures { result.now ≡ key_quoted line.now }
{
    &line[2..line.len() - 1]
}

fn has_hex_digits_only(text: &[u8]) -> bool
    ensures { result ≡ list_all is_ascii_hexdigit text.now }
{
    text.iter().all(|byte| byte.is_ascii_hexdigit())
}

// Whether a text is hex digits, two a byte, of one byte at least.
fn is_hex_text(text: &[u8]) -> bool
    ensures { result ≡ is_hex_text text.now }
{
    text.len() >= 2 && text.len() % 2 == 0 && has_hex_digits_only(text)
}

// Whether a line is a passphrase in hex, a comma, and a salt in hex.
fn is_salted_hex(line: &[u8]) -> bool
    ensures { result ≡ is_salted_hex line.now }
{
    let len = line.len();
    len > BEHIND_HEX
        && line[len - BEHIND_HEX] == b','
        && is_hex_text(&line[..len - BEHIND_HEX])
        && is_hex_text(&line[len - BEHIND_HEX + 1..])
}

fn is_hex_literal(line: &[u8]) -> bool
    ensures { result ≡ is_hex_literal line.now }
{
    is_quoted(line) && has_hex_digits_only(quoted(line))
}

// Decodes hex digits, two a byte.
fn decode(text: &[u8], bytes: &mut [u8])
    requires digits { IsTrue (list_all is_ascii_hexdigit text.now) }
    requires long { length text.now ≡ 2 * length bytes.old }
    ensures bytes { bytes.new ≡ hex_bytes text.now }
    ensures still { length bytes.new ≡ length bytes.old }
{
    hex::decode_to_slice(text, bytes).unwrap();
}

// The key of a hex literal with 64 digits.
fn raw_key(line: &[u8]) -> [u8; 32]
    requires long { length line.now ≡ 67 }
    requires literal { IsTrue (is_hex_literal line.now) }
    ensures { result ≡ literal_bytes line.now }
{
    let mut key = [0u8; 32];
    decode(quoted(line), &mut key);
    key
}

// The key and the salt of a hex literal with 96 digits.
fn salted_key(line: &[u8]) -> Secret
    requires long { length line.now ≡ 99 }
    requires literal { IsTrue (is_hex_literal line.now) }
    ensures { result ≡ SaltedRaw (take 32 (literal_bytes line.now)) (take 16 (drop 32 (literal_bytes line.now))) }
{
    let mut bytes = [0u8; 48];
    decode(quoted(line), &mut bytes);
    let mut key = [0u8; 32];
    key.copy_from_slice(&bytes[..32]);
    let mut salt = [0u8; 16];
    salt.copy_from_slice(&bytes[32..]);
    Secret::SaltedRaw(key, salt)
}

// The passphrase of a text in hex.
fn hex_passphrase(text: &[u8]) -> PassBytes
    requires hex { IsTrue (is_hex_text text.now) }
    requires short { length text.now ≤ 1024 }
    ensures { result ≡ hex_bytes text.now }
{
    let mut buffer = [0u8; MAX_IN_HEX];
    let bytes = &mut buffer[..text.len() / 2];
    decode(text, bytes);
    PassBytes::new(bytes)
}

// The passphrase and the salt of a line with both in hex.
fn salted_passphrase(line: &[u8]) -> Secret
    requires hex { IsTrue (is_salted_hex line.now) }
    requires short { length line.now ≤ 1024 }
    ensures { result ≡ SaltedPass (hex_bytes (hex_before line.now)) (hex_bytes (salt_behind line.now)) }
{
    let at = line.len() - BEHIND_HEX;
    let mut salt = [0u8; 16];
    decode(&line[at + 1..], &mut salt);
    Secret::SaltedPass(hex_passphrase(&line[..at]), salt)
}
