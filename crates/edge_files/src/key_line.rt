// A key line as it was given: for remarks on what it may have been meant as, and to be read again.
ghost use Rattle.std.specs.Prelude.{[], false};

use edge_model::{Failed, Source};

/// The longest key line, in bytes.
const LONGEST: usize = 1024;

/// What the first three bytes of a text may be, which some editors put there.
const BYTE_ORDER_MARK: [u8; 3] = [0xef, 0xbb, 0xbf];

/// A line of the input.
#[derive(Clone, Copy)]
pub struct KeyLine {
    bytes: [u8; LONGEST],
    /// How many bytes are kept.
    length: usize,
    has_ended: bool,
}

impl KeyLine {
    /// An empty line.
    pub fn new() -> KeyLine {
        KeyLine {
            bytes: [0; LONGEST],
            length: 0,
            has_ended: false,
        }
    }

    /// Takes the next bytes of the input. Those after the first line feed are passed over.
    pub fn see(&mut self, bytes: &[u8]) {
        for byte in bytes {
            if *byte == b'\n' {
                self.has_ended = true;
            }
            if !self.has_ended && self.length < LONGEST {
                self.bytes[self.length] = *byte;
                self.length += 1;
            }
        }
    }

    /// Whether no byte of it was seen.
    pub fn is_untouched(&self) -> bool {
        self.length == 0 && !self.has_ended
    }

    /// Whether its line feed was seen.
    pub fn has_ended(&self) -> bool {
        self.has_ended
    }

    fn text(&self) -> &[u8] {
        &self.bytes[..self.length.min(LONGEST)]
    }

    /// Whether it is a raw key: x, and 64 hex digits in single quotes.
    pub fn is_raw(&self) -> bool {
        match self.text() {
            [b'x' | b'X', b'\'', digits @ .., b'\''] => digits.len() == 64 && are_digits(digits),
            _ => false,
        }
    }

    /// Whether both lines give one key: they are alike, and of raw keys but for the case of their letters.
    pub fn is_same_key(&self, other: &KeyLine) -> bool {
        if self.is_raw() && other.is_raw() {
            self.text().eq_ignore_ascii_case(other.text())
        } else {
            self.text() == other.text()
        }
    }

    /// Whether it is 64 hex digits, the digits of a raw key.
    pub fn is_bare_key(&self) -> bool {
        self.text().len() == 64 && are_digits(self.text())
    }

    /// Whether it begins as a raw key does, and is none.
    pub fn is_broken_raw(&self) -> bool {
        let begins = match self.text() {
            [b'x' | b'X', b'\'' | b'"', ..] => true,
            _ => false,
        };
        begins && !self.is_raw()
    }

    /// Whether it is a statement of SQL that sets a key.
    pub fn is_statement(&self) -> bool {
        match self.text().get(..6) {
            Some(word) => word.eq_ignore_ascii_case(b"PRAGMA"),
            None => false,
        }
    }

    /// Whether it begins with a byte-order mark.
    pub fn begins_with_mark(&self) -> bool {
        self.text().starts_with(&BYTE_ORDER_MARK)
    }

    /// Whether it begins with a space.
    pub fn begins_with_space(&self) -> bool {
        self.text().first() == Some(&b' ')
    }

    /// Whether it ends in a carriage return.
    pub fn ends_in_return(&self) -> bool {
        self.text().last() == Some(&b'\r')
    }

    /// Whether it ends in a space.
    pub fn ends_in_space(&self) -> bool {
        self.text().last() == Some(&b' ')
    }

    /// Whether it has a tab.
    pub fn has_tab(&self) -> bool {
        self.text().contains(&b'\t')
    }

    /// Whether it has a byte that no key of a keyboard types into a line.
    pub fn has_control(&self) -> bool {
        self.text().iter().any(|byte| byte.is_ascii_control())
    }

    /// Whether it begins and ends with the same quote.
    pub fn is_quoted(&self) -> bool {
        match self.text() {
            [b'\'', .., b'\''] | [b'"', .., b'"'] => true,
            _ => false,
        }
    }
}

/// A key line that is read once more, without the standard input.
#[derive(Drop)]
pub struct KeptLine<'l> {
    line: &'l KeyLine,
    /// How many of its bytes were taken.
    taken: usize,
}

impl<'l> KeptLine<'l> {
    /// The line from its first byte on.
    pub fn new(line: &'l KeyLine) -> KeptLine<'l> {
        KeptLine { line, taken: 0 }
    }
}

impl<'l> Source for KeptLine<'l> {
    ghost tells = { false };

    ghost left = { λ _. [] };

    ghost faults = { λ _. 0 };

    // A byte a call; the line's end is that of the input.
    fn take(&mut self, buf: &mut [u8]) -> Result<usize, Failed> {
        let taken = self.taken;
        match self.line.text().get(taken) {
            Some(byte) if taken < LONGEST && !buf.is_empty() => {
                buf[0] = *byte;
                self.taken = taken + 1;
                Ok(1)
            }
            _ => Ok(0),
        }
    }
}

fn are_digits(bytes: &[u8]) -> bool {
    bytes.iter().all(|byte| byte.is_ascii_hexdigit())
}
