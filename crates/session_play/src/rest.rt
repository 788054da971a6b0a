// Bytes in memory as a source.
ghost use Rattle.std.specs.Prelude.{◌≡◌, true};

use edge_model::{Failed, Source};

/// Bytes that are handed out in order. No call of it fails.
#[derive(Drop)]
pub struct Rest<'a> {
    bytes: &'a [u8],
}

impl<'a> Rest<'a> {
    /// All of these bytes are still to come.
    pub fn new(bytes: &'a [u8]) -> Rest<'a>
        ensures { result.bytes.now ≡ bytes.now }
    {
        Rest { bytes }
    }
}

impl<'a> Source for Rest<'a> {
    ghost tells = { true };

    ghost left = { λ rest. rest.bytes.now };

    ghost faults = { λ _. 0 };

    fn take(&mut self, buf: &mut [u8]) -> Result<usize, Failed> {
        let count = self.bytes.len().min(buf.len());
        buf[..count].copy_from_slice(&self.bytes[..count]);
        self.bytes = &self.bytes[count..];
        Ok(count)
    }
}
