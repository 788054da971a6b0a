// Lines of output, in place.
ghost use Rattle.std.specs.Prelude.{◌≡◌, ◌+◌, ◌≤◌, ◌++◌, ℕ, List, [], length, take, decimal, OnOk, OnErr, IsTrue};
ghost use Rattle.std.specs.Fmt.{signed_decimal};
ghost use Rattle.edge_model.specs.Causes.{HasCause};
ghost use Rattle.text_lines.specs.Text.{PutsPart, field_line};

use edge_model::{Failed, Sink, put_all};
use itoa::Buffer;
use std::marker::Model;

/// Room for the longest report, in bytes.
const CAPACITY: usize = 1024;

/// Lines of output. Contracts see their bytes.
#[derive(Drop)]
pub struct Text {
    bytes: [u8; CAPACITY],
    len: usize,
}

impl Model for Text {
    ghost Value = { List ℕ };

    ghost view = { λ l. take l.len l.bytes };

    ghost invariant = { λ l. l.len ≤ 1024 };
}

impl Text {
    /// No line.
    pub fn new() -> Text
        ensures { result ≡ [] }
    {
        Text {
            bytes: [0; CAPACITY],
            len: 0,
        }
    }

    /// Appends a text.
    pub fn push(&mut self, text: &[u8])
        requires { length self.old + length text.now ≤ 1024 }
        ensures { self.new ≡ self.old ++ text.now }
    {
        let end = self.len + text.len();
        self.bytes[self.len..end].copy_from_slice(text);
        self.len = end;
    }

    /// Appends a number.
    pub fn push_number(&mut self, number: u64)
        requires { length self.old ≤ 1000 }
        ensures text { self.new ≡ self.old ++ decimal number }
        ensures short { length self.new ≤ length self.old + 20 }
    {
        let mut digits = Buffer::new();
        self.push(digits.format(number).as_bytes());
    }

    /// Appends a number between two texts.
    pub fn push_around(&mut self, before: &[u8], number: u64, after: &[u8])
        requires { length self.old + length before.now + length after.now ≤ 1000 }
        ensures text { self.new ≡ self.old ++ (before.now ++ (decimal number ++ after.now)) }
        ensures short { length self.new ≤ length self.old + length before.now + length after.now + 20 }
    {
        self.push(before);
        self.push_number(number);
        self.push(after);
    }

    /// Appends a text and a number with its sign.
    pub fn push_signed(&mut self, before: &[u8], number: i64)
        requires { length self.old + length before.now ≤ 900 }
        ensures text { self.new ≡ self.old ++ (before.now ++ signed_decimal number) }
        ensures short { length self.new ≤ length self.old + length before.now + 40 }
    {
        let mut digits = Buffer::new();
        self.push(before);
        self.push(digits.format(number).as_bytes());
    }

    /// Appends the line of a name and a number.
    pub fn push_field(&mut self, name: &[u8], value: u32)
        requires { length self.old + length name.now ≤ 990 }
        ensures text { self.new ≡ self.old ++ field_line name.now value }
        ensures short { length self.new ≤ length self.old + length name.now + 22 }
    {
        self.push(name);
        self.push_around(b" ", u64::from(value), b"\n");
    }

    /// Its bytes.
    pub fn as_bytes(&self) -> &[u8]
        ensures { result.now ≡ self.now }
    {
        &self.bytes[..self.len]
    }

    /// Appends the lines. After a failure the sink has a prefix of them.
    pub fn put<S: Sink>(&self, out: &mut S) -> Result<(), Failed>
        ensures done { OnOk result (IsTrue S.tells → S.taken out.new ≡ S.taken out.old ++ self.now) }
        ensures part { OnErr result (IsTrue S.tells → PutsPart self.now (S.taken out.old) (S.taken out.new)) }
        ensures cause { HasCause (S.faults out.old) (S.faults out.new) result }
    {
        put_all(out, self.as_bytes())
    }
}
