// Numbers as the bytes with which they are written.
ghost use Rattle.std.specs.Prelude.{◌≡◌};
ghost use Rattle.std.specs.Int.{w16, w32, w64, to_be_bytes, to_le_bytes};

use byteorder::{BigEndian, ByteOrder, LittleEndian};

/// A number in two bytes, the most significant first.
pub fn u16_bytes(number: u16) -> [u8; 2]
    ensures { result ≡ to_be_bytes w16 number }
{
    let mut bytes = [0; 2];
    BigEndian::write_u16(&mut bytes, number);
    bytes
}

/// A number in four bytes, the most significant first.
pub fn u32_bytes(number: u32) -> [u8; 4]
    ensures { result ≡ to_be_bytes w32 number }
{
    let mut bytes = [0; 4];
    BigEndian::write_u32(&mut bytes, number);
    bytes
}

/// A number in eight bytes, the most significant first.
pub fn u64_bytes(number: u64) -> [u8; 8]
    ensures { result ≡ to_be_bytes w64 number }
{
    let mut bytes = [0; 8];
    BigEndian::write_u64(&mut bytes, number);
    bytes
}

/// A number in four bytes, the least significant first.
pub fn u32_bytes_low_first(number: u32) -> [u8; 4]
    ensures { result ≡ to_le_bytes w32 number }
{
    let mut bytes = [0; 4];
    LittleEndian::write_u32(&mut bytes, number);
    bytes
}
