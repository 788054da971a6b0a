// The next line of a script.
ghost use Rattle.std.specs.Prelude.{◌≡◌, ◌≤◌, ℕ, drop, IsTrue};
ghost use Rattle.edge_model.specs.Causes.{Rose};
ghost use Rattle.session_play.specs.Lines.{Finds, IsEnding, IsShort};

use edge_model::Source;

/// The longest line, in bytes.
pub const MAX_LINE: usize = 1_100;

/// What of a line is taken at most: one byte more, which is to be its line feed.
pub const MAX_TAKEN: usize = MAX_LINE + 1;

/// What was taken of a script.
#[derive(Clone, Copy, Debug, PartialEq, Eq)]
pub enum Taken {
    /// A line: so many bytes of it stand in the buffer.
    Line { len: usize },
    /// No byte was left.
    NoLine,
    /// 1,101 bytes came without a line feed.
    TooLong,
    /// The source failed.
    SourceFault,
}

/// What stands behind the last line that a script may have.
#[derive(Clone, Copy, Debug, PartialEq, Eq)]
pub enum Ending {
    /// Nothing.
    End,
    /// A byte, which was taken.
    More,
    /// The source failed.
    SourceFault,
}

/// Takes the next line with its line feed, or what is left where there is none.
pub fn take_line<K: Source>(source: &mut K, line: &mut [u8; MAX_TAKEN]) -> Taken
    ensures short { IsShort result }
    ensures found { IsTrue K.tells → Finds (K.left source.old) line.new result (K.left source.new) }
    ensures at_most { IsTrue K.tells → (n : ℕ) × (n ≤ 1101) × (K.left source.new ≡ drop n (K.left source.old)) }
    ensures later { K.faults source.old ≤ K.faults source.new }
    ensures fault { result ≡ Taken.SourceFault → Rose (K.faults source.old) (K.faults source.new) }
{
    for at in 0..MAX_TAKEN {
        let mut byte = [0u8; 1];
        let Ok(count) = source.take(&mut byte) else {
            return Taken::SourceFault;
        };
        if count == 0 {
            return if at == 0 {
                Taken::NoLine
            } else {
                Taken::Line { len: at }
            };
        }
        if byte[0] == b'\n' {
            return Taken::Line { len: at };
        }
        line[at] = byte[0];
    }
    Taken::TooLong
}

/// Whether the source is at its end.
pub fn take_ending<K: Source>(source: &mut K) -> Ending
    ensures found { IsTrue K.tells → IsEnding (K.left source.old) result (K.left source.new) }
    ensures at_most { IsTrue K.tells → (n : ℕ) × (n ≤ 1) × (K.left source.new ≡ drop n (K.left source.old)) }
    ensures later { K.faults source.old ≤ K.faults source.new }
    ensures fault { result ≡ Ending.SourceFault → Rose (K.faults source.old) (K.faults source.new) }
{
    let mut byte = [0u8; 1];
    match source.take(&mut byte) {
        Ok(count) => {
            if count == 0 {
                Ending::End
            } else {
                Ending::More
            }
        }
        Err(_) => Ending::SourceFault,
    }
}
