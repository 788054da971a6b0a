// Calls on streams that are made again: where one was interrupted, or until a buffer is full.
ghost use Rattle.std.specs.Prelude.{◌≡◌, ◌↔◌, ◌++◌, ◌≤◌, ◌<◌, [], length, take, IfOk, OnOk, OnErr, IsTrue};

use crate::{DeviceCalls, InputCalls, OutputCalls};
use std::io::{self, Error, ErrorKind};

/// Some of the next bytes: 0 exactly where nothing is left, if the buffer has a place.
pub fn read_some<I: InputCalls>(input: &mut I, buf: &mut [u8]) -> io::Result<usize>
    ensures count { IfOk result (λ count. count ≤ length buf.old) }
    ensures told { IfOk result (λ count. IsTrue I.tells → I.left input.old ≡ take count buf.new ++ I.left input.new) }
    ensures end { IfOk result (λ count. IsTrue I.tells → 0 < length buf.old → (count ≡ 0) ↔ (I.left input.old ≡ [])) }
    ensures failed { OnErr result (IsTrue I.tells → I.left input.new ≡ I.left input.old) }
{
    for _ in 0..u64::MAX {
        match input.read(buf) {
            Ok(count) => return Ok(count),
            Err(error) if error.kind() == ErrorKind::Interrupted => {}
            Err(error) => return Err(error),
        }
    }
    Err(ErrorKind::Interrupted.into())
}

/// Appends some of the first bytes, and answers how many: at least 1, if the piece has a byte. A write that takes nothing has failed.
pub fn write_some<O: OutputCalls>(output: &mut O, piece: &[u8]) -> io::Result<usize>
    ensures count { IfOk result (λ count. count ≤ length piece.now) }
    ensures progress { IfOk result (λ count. 0 < length piece.now → 0 < count) }
    ensures told { IfOk result (λ count. IsTrue O.tells → O.taken output.new ≡ O.taken output.old ++ take count piece.now) }
    ensures failed { OnErr result (IsTrue O.tells → O.taken output.new ≡ O.taken output.old) }
{
    for _ in 0..u64::MAX {
        match output.write(piece) {
            Ok(0) if !piece.is_empty() => return Err(ErrorKind::WriteZero.into()),
            Ok(count) => return Ok(count),
            Err(error) if error.kind() == ErrorKind::Interrupted => {}
            Err(error) => return Err(error),
        }
    }
    Err(ErrorKind::Interrupted.into())
}

/// Reads until the buffer is full. `count` is how many bytes were read, also where the device failed or ended before.
pub fn read_whole<D: DeviceCalls>(
    device: &mut D,
    buf: &mut [u8],
    count: &mut usize,
) -> io::Result<()>
    requires { count.old ≡ 0 }
    ensures count { count.new ≤ length buf.old }
    ensures full { OnOk result (count.new ≡ length buf.old) }
    ensures left { IsTrue D.tells → D.left device.old ≡ take count.new buf.new ++ D.left device.new }
    ensures given { IsTrue D.tells → D.given device.new ≡ D.given device.old ++ take count.new buf.new }
{
    while *count < buf.len() {
        *count += read_next(device, &mut buf[*count..])?;
    }
    Ok(())
}

// Some of the next bytes of the device. One that ends has failed.
fn read_next<D: DeviceCalls>(device: &mut D, buf: &mut [u8]) -> io::Result<usize>
    requires { 0 < length buf.old }
    ensures count { IfOk result (λ count. count ≤ length buf.old) }
    ensures progress { IfOk result (λ count. 0 < count) }
    ensures left { IfOk result (λ count. IsTrue D.tells → D.left device.old ≡ take count buf.new ++ D.left device.new) }
    ensures given { IfOk result (λ count. IsTrue D.tells → D.given device.new ≡ D.given device.old ++ take count buf.new) }
    ensures failed { OnErr result (IsTrue D.tells → (D.left device.new ≡ D.left device.old) × (D.given device.new ≡ D.given device.old)) }
{
    for _ in 0..u64::MAX {
        match device.read(buf) {
            Ok(0) => return Err(Error::new(
                ErrorKind::UnexpectedEof,
                "failed to fill whole buffer",
            )),
            Ok(count) => return Ok(count),
            Err(error) if error.kind() == ErrorKind::Interrupted => {}
            Err(error) => return Err(error),
        }
    }
    Err(ErrorKind::Interrupted.into())
}
