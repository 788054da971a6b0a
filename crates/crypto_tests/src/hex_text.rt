// Bytes that are given in hex.

/// Whether a text has these bytes in hex, of which there are at most 80.
pub fn is_hex_of(text: &str, bytes: &[u8]) -> bool {
    let mut buffer = [0u8; 80];
    match buffer.get_mut(..bytes.len()) {
        Some(read) => hex::decode_to_slice(text, read).is_ok() && *read == *bytes,
        None => false,
    }
}
