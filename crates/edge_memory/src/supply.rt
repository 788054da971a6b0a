// Bytes in memory that are handed out in order.
ghost use Rattle.std.specs.Prelude.{◌≡◌, ◌++◌, ◌≤◌, [], min, length, take, drop, IfOk, OnOk, OnErr, IsErr, IsErrOf, ◌↔◌, ◌<◌};
ghost use Rattle.edge_memory.specs.Memory.{Supplied};

use crate::gate::Refusal;
use edge_model::OutOfMemory;
use std::alloc::Global;
use std::marker::Model;

/// What a source and an entropy in memory hold: bytes, and how many of them were given.
#[derive(Drop)]
pub struct Supply {
    bytes: Vec<u8>,
    at: usize,
}

impl Model for Supply {
    ghost Value = { Supplied };

    ghost view = { λ supply. record { given = take supply.at supply.bytes.items; left = drop supply.at supply.bytes.items } };

    ghost invariant = { λ supply. supply.at ≤ length supply.bytes.items };
}

/// Copies as many bytes as there are and fit into the front of the buffer, and answers how many.
pub fn copy_front(bytes: &[u8], buf: &mut [u8]) -> usize
    ensures count { result ≡ min (length buf.old) (length bytes.now) }
    ensures front { take result buf.new ≡ take result bytes.now }
{
    let count = bytes.len().min(buf.len());
    buf[..count].copy_from_slice(&bytes[..count]);
    count
}

impl Supply {
    /// All of the bytes are still to come.
    pub fn new(alloc: Global, bytes: &[u8]) -> Result<Supply, OutOfMemory>
        ensures { IfOk result (λ supply. supply ≡ record { given = []; left = bytes.now }) }
    {
        match bytes.to_vec(alloc) {
            Ok(bytes) => Ok(Supply { bytes, at: 0 }),
            Err(_) => Err(OutOfMemory),
        }
    }

    /// Moves the next bytes into the buffer, as many as there are and fit, and answers how many.
    pub fn hand_out(&mut self, buf: &mut [u8]) -> usize
        ensures count { result ≡ min (length buf.old) (length self.old.left) }
        ensures left { self.old.left ≡ take result buf.new ++ self.new.left }
        ensures given { self.new.given ≡ self.old.given ++ take result buf.new }
    {
        let count = copy_front(&self.bytes[self.at..], buf);
        self.at += count;
        count
    }

    /// Fills the whole buffer with the next bytes, where there are as many.
    pub fn fill(&mut self, buf: &mut [u8]) -> Result<(), Refusal>
        ensures left { OnOk result (self.old.left ≡ buf.new ++ self.new.left) }
        ensures given { OnOk result (self.new.given ≡ self.old.given ++ buf.new) }
        ensures same { OnErr result (self.new ≡ self.old) }
        ensures short { IsErr result ↔ (length self.old.left < length buf.old) }
        ensures refusal { IsErrOf result Refusal.Memory → ⊥ }
    {
        if self.bytes.len() - self.at < buf.len() {
            return Err(Refusal::Absent);
        }
        let _ = self.hand_out(buf);
        Ok(())
    }
}
