// The pages that a transaction changed.
ghost use Rattle.std.specs.Prelude.{◌≡◌, ◌<◌, ℕ, List, length, slice_index, OnOk};
ghost use Rattle.edge_model.specs.Causes.{HasCause};
ghost use Rattle.atomic_commit.specs.Commit.{SameSeals};

/// The entropy failed, and its count of faults rose.
#[derive(Clone, Copy, Debug, PartialEq, Eq)]
pub struct DrawFailed;

/// Pages by their numbers.
pub trait PageNumbers {
    /// The numbers of the pages, from 1.
    ghost numbers: { Self → List ℕ };

    /// How many there are.
    fn len(&self) -> usize
        ensures { result ≡ length (numbers self.now) };

    /// The number of the page at an index.
    fn number(&self, k: usize) -> u32
        requires { k < length (numbers self.now) }
        ensures { result ≡ slice_index (numbers self.now) k };
}

/// Changed pages, each with its number, that can be sealed one at a time.
pub trait Changes: PageNumbers {
    /// These stored bytes are the page at this index, sealed with some draw.
    ghost seals: { Self → ℕ → List ℕ → Type 0 };

    /// The length of a stored page, in bytes.
    ghost size: { Self → ℕ };

    /// How often the entropy has failed.
    ghost faults: { Self → ℕ };

    /// Seals the page at an index into its stored bytes.
    fn seal(&mut self, k: usize, out: &mut [u8]) -> Result<(), DrawFailed>
        requires index { k < length (Self.numbers self.old) }
        requires room { length out.old ≡ size self.old }
        ensures sealed { OnOk result (seals self.old k out.new) }
        ensures length { length out.new ≡ length out.old }
        ensures numbers { Self.numbers self.new ≡ Self.numbers self.old }
        ensures seals { SameSeals (seals self.old) (seals self.new) }
        ensures size { size self.new ≡ size self.old }
        ensures cause { HasCause (faults self.old) (faults self.new) result };
}
