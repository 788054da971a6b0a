// The calls of the system on streams of bytes. Each is one call of the system, which may take less than it is given.
ghost use Rattle.std.specs.Prelude.{◌≡◌, ◌⊎◌, ◌++◌, ◌≤◌, [], ℕ, Bool, List, length, take, IfOk, OnErr, IsTrue};

use std::io;

/// Bytes that come in order, as those of standard input. Nobody else takes any of them.
pub trait InputCalls {
    /// Whether clauses on bytes hold. The calls of a real system tell nothing.
    ghost tells: { Bool };

    /// The bytes still to come.
    ghost left: { Self → List ℕ };

    /// `read`: some of the next bytes, and none only where nothing is left or none are asked for. A call that failed or was interrupted
    /// took none.
    fn read(&mut self, buf: &mut [u8]) -> io::Result<usize>
        ensures count { IfOk result (λ count. count ≤ length buf.old) }
        ensures told { IfOk result (λ count. IsTrue tells → left self.old ≡ take count buf.new ++ left self.new) }
        ensures end { IfOk result (λ count. IsTrue tells → count ≡ 0 → (length buf.old ≡ 0) ⊎ (left self.old ≡ [])) }
        ensures failed { OnErr result (IsTrue tells → left self.new ≡ left self.old) };
}

/// What takes bytes in order, as standard output does. Nobody else writes between them.
pub trait OutputCalls {
    /// Whether clauses on bytes hold. The calls of a real system tell nothing.
    ghost tells: { Bool };

    /// The bytes so far.
    ghost taken: { Self → List ℕ };

    /// `write`: appends some of the first bytes, maybe none, and answers how many. A call that failed or was interrupted appended none.
    fn write(&mut self, piece: &[u8]) -> io::Result<usize>
        ensures count { IfOk result (λ count. count ≤ length piece.now) }
        ensures told { IfOk result (λ count. IsTrue tells → taken self.new ≡ taken self.old ++ take count piece.now) }
        ensures failed { OnErr result (IsTrue tells → taken self.new ≡ taken self.old) };
}

/// A device of random bytes.
pub trait DeviceCalls {
    /// Whether clauses on bytes hold. The calls of a real system tell nothing.
    ghost tells: { Bool };

    /// The bytes still to come.
    ghost left: { Self → List ℕ };

    /// The bytes that were read so far.
    ghost given: { Self → List ℕ };

    /// `open`, where the device is not open yet. No byte is read.
    fn open(&mut self) -> io::Result<()>
        ensures left { IsTrue tells → left self.new ≡ left self.old }
        ensures given { IsTrue tells → given self.new ≡ given self.old };

    /// `read`: some of the next bytes. A call that failed or was interrupted took none.
    fn read(&mut self, buf: &mut [u8]) -> io::Result<usize>
        ensures count { IfOk result (λ count. count ≤ length buf.old) }
        ensures left { IfOk result (λ count. IsTrue tells → left self.old ≡ take count buf.new ++ left self.new) }
        ensures given { IfOk result (λ count. IsTrue tells → given self.new ≡ given self.old ++ take count buf.new) }
        ensures failed { OnErr result (IsTrue tells → (left self.new ≡ left self.old) × (given self.new ≡ given self.old)) };
}
