// Text that is put to a sink in large pieces.
ghost use Rattle.std.specs.Prelude.{◌≡◌, ◌≤◌, ◌+◌, ◌*◌, ◌++◌, ℕ, List, [], length, take, decimal, OnOk, IfOk, OnErr, IsTrue};
ghost use Rattle.std.specs.Fmt.{signed_decimal};
ghost use Rattle.hex.specs.Hex.{encode_lower};
ghost use Rattle.edge_model.specs.Causes.{HasCause};
ghost use Rattle.row_text.specs.Out.{Moves, MovesPart};
ghost use Rattle.db_format.specs.Text.{escaped};

use db_format::{OutOfMemory, plain_run};
use edge_model::{Failed, Sink, put_all};
use itoa::Buffer;
use std::alloc::Global;
use std::marker::Model;

/// The most that waits, in bytes.
const CAPACITY: usize = 65536;

/// The room that `make_room` makes, in bytes.
pub const ROOM: usize = 1024;

/// Text on its way to a sink, which is given it in pieces of 63 to 64 KiB. Contracts see the bytes that wait.
///
/// After a failure of the sink they may be anything.
#[derive(Drop)]
pub struct LineOut {
    bytes: Vec<u8>,
    len: usize,
}

impl Model for LineOut {
    ghost Value = { List ℕ };

    ghost view = { λ l. take l.len l.bytes.items };

    ghost invariant = { λ l. (length l.bytes.items ≡ 65536) × (l.len ≤ 65536) };
}

impl LineOut {
    /// No byte waits. All memory is taken here.
    pub fn new(alloc: Global) -> Result<LineOut, OutOfMemory>
        ensures { IfOk result (λ line. line ≡ []) }
    {
        match vec![in alloc; 0u8; CAPACITY] {
            Ok(bytes) => Ok(LineOut { bytes, len: 0 }),
            Err(_) => Err(OutOfMemory),
        }
    }

    // How many bytes more may wait.
    fn room(&self) -> usize
        ensures { result + length self.now ≡ 65536 }
    {
        CAPACITY - self.len
    }

    /// Puts what waits.
    pub fn flush<K: Sink>(&mut self, out: &mut K) -> Result<(), Failed>
        ensures empty { OnOk result (self.new ≡ []) }
        ensures done { OnOk result (IsTrue K.tells → Moves [] (K.taken out.old) self.old (K.taken out.new) self.new) }
        ensures part { OnErr result (IsTrue K.tells → MovesPart [] (K.taken out.old) self.old (K.taken out.new)) }
        ensures cause { HasCause (K.faults out.old) (K.faults out.new) result }
    {
        put_all(out, &self.bytes[..self.len])?;
        self.len = 0;
        Ok(())
    }

    /// Puts what waits where fewer than `ROOM` bytes more may wait.
    pub fn make_room<K: Sink>(&mut self, out: &mut K) -> Result<(), Failed>
        ensures room { OnOk result (length self.new + 1024 ≤ 65536) }
        ensures done { OnOk result (IsTrue K.tells → Moves [] (K.taken out.old) self.old (K.taken out.new) self.new) }
        ensures part { OnErr result (IsTrue K.tells → MovesPart [] (K.taken out.old) self.old (K.taken out.new)) }
        ensures cause { HasCause (K.faults out.old) (K.faults out.new) result }
    {
        if self.room() < ROOM {
            return self.flush(out);
        }
        Ok(())
    }

    /// Lets these bytes wait.
    pub fn push(&mut self, text: &[u8])
        requires { length self.old + length text.now ≤ 65536 }
        ensures { self.new ≡ self.old ++ text.now }
    {
        let end = self.len + text.len();
        self.bytes[self.len..end].copy_from_slice(text);
        self.len = end;
    }

    /// Lets a number wait, in decimal.
    pub fn push_number(&mut self, number: u32)
        requires { length self.old + 20 ≤ 65536 }
        ensures text { self.new ≡ self.old ++ decimal number }
        ensures short { length self.new ≤ length self.old + 20 }
    {
        let mut digits = Buffer::new();
        self.push(digits.format(number).as_bytes());
    }

    /// Lets a number with a sign wait, in decimal.
    pub fn push_signed(&mut self, number: i64)
        requires { length self.old + 20 ≤ 65536 }
        ensures text { self.new ≡ self.old ++ signed_decimal number }
        ensures short { length self.new ≤ length self.old + 20 }
    {
        let mut digits = Buffer::new();
        self.push(digits.format(number).as_bytes());
    }

    /// Lets these bytes wait as hex digits.
    pub fn push_hex(&mut self, bytes: &[u8])
        requires { length self.old + 2 * length bytes.now ≤ 65536 }
        ensures text { self.new ≡ self.old ++ encode_lower bytes.now }
        ensures twice { length self.new ≡ length self.old + 2 * length bytes.now }
    {
        let end = self.len + 2 * bytes.len();
        let _fits = hex::encode_to_slice(bytes, &mut self.bytes[self.len..end]);
        self.len = end;
    }

    // Lets the bytes of a text wait, escaped where they do not stand as themselves.
    fn push_escaped(&mut self, text: &[u8])
        requires { length self.old + 4 * length text.now ≤ 65536 }
        ensures { self.new ≡ self.old ++ escaped text.now }
    {
        let mut left = text;
        while !left.is_empty() {
            let (run, rest) = left.split_at(plain_run(left));
            self.push(run);
            if rest.is_empty() {
                return;
            }
            let (other, later) = rest.split_at(1);
            self.push(b"\\x");
            self.push_hex(other);
            left = later;
        }
    }

    /// Appends these bytes.
    pub fn write<K: Sink>(&mut self, out: &mut K, text: &[u8]) -> Result<(), Failed>
        ensures done { OnOk result (IsTrue K.tells → Moves text.now (K.taken out.old) self.old (K.taken out.new) self.new) }
        ensures part { OnErr result (IsTrue K.tells → MovesPart text.now (K.taken out.old) self.old (K.taken out.new)) }
        ensures cause { HasCause (K.faults out.old) (K.faults out.new) result }
    {
        let mut left = text;
        while !left.is_empty() {
            self.make_room(out)?;
            let (now, later) = left.split_at(self.room().min(left.len()));
            self.push(now);
            left = later;
        }
        Ok(())
    }

    /// Appends these bytes as hex digits.
    pub fn write_hex<K: Sink>(&mut self, out: &mut K, bytes: &[u8]) -> Result<(), Failed>
        ensures done { OnOk result (IsTrue K.tells → Moves (encode_lower bytes.now) (K.taken out.old) self.old (K.taken out.new) self.new) }
        ensures part { OnErr result (IsTrue K.tells → MovesPart (encode_lower bytes.now) (K.taken out.old) self.old (K.taken out.new)) }
        ensures cause { HasCause (K.faults out.old) (K.faults out.new) result }
    {
        let mut left = bytes;
        while !left.is_empty() {
            self.make_room(out)?;
            let (now, later) = left.split_at((self.room() / 2).min(left.len()));
            self.push_hex(now);
            left = later;
        }
        Ok(())
    }

    /// Appends the bytes of a text, escaped where they do not stand as themselves.
    pub fn write_escaped<K: Sink>(&mut self, out: &mut K, text: &[u8]) -> Result<(), Failed>
        ensures done { OnOk result (IsTrue K.tells → Moves (escaped text.now) (K.taken out.old) self.old (K.taken out.new) self.new) }
        ensures part { OnErr result (IsTrue K.tells → MovesPart (escaped text.now) (K.taken out.old) self.old (K.taken out.new)) }
        ensures cause { HasCause (K.faults out.old) (K.faults out.new) result }
    {
        let mut left = text;
        while !left.is_empty() {
            self.make_room(out)?;
            let (now, later) = left.split_at((self.room() / 4).min(left.len()));
            self.push_escaped(now);
            left = later;
        }
        Ok(())
    }
}
