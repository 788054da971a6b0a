// The output of a run: its last line is noted, and whether one said that a key is refused.
ghost use Rattle.std.specs.Prelude.{◌≡◌};

use crate::failure::{Failure, called, settle};
use crate::host_streams::HostOutput;
use crate::progress::Progress;
use edge_model::{Failed, Sink};
use std::str;
use system_calls::{OutputCalls, write_some};

/// How many of the last bytes of the output are kept: more than the last line of `salvage` has.
const TAIL: usize = 128;

/// Bytes that go to an output, each as it came. A write that takes nothing is a fault.
#[derive(Drop)]
pub struct LineOutput<'a, O: OutputCalls> {
    output: O,
    progress: &'a Progress<'a>,
    /// The last bytes that were written, zeros before them.
    tail: [u8; TAIL],
    /// Whether a line said that a key is refused, which of a script is one answer among others.
    pub has_refused_key: bool,
    /// How often the stream has failed.
    pub faults: u64,
    /// The last failure.
    pub last: Option<Failure<'a>>,
}

/// The same, over standard output.
pub type OutputSink<'a> = LineOutput<'a, HostOutput<'a>>;

impl<'a> OutputSink<'a> {
    /// Standard output, to which nothing was written.
    pub fn new(rt: &'a HostRuntime, progress: &'a Progress<'a>) -> OutputSink<'a> {
        LineOutput::over(HostOutput::new(rt), progress)
    }
}

impl<'a, O: OutputCalls> LineOutput<'a, O> {
    /// This output, of which no line was noted.
    pub fn over(output: O, progress: &'a Progress<'a>) -> LineOutput<'a, O>
        ensures output { result.output ≡ output }
        ensures faults { result.faults ≡ 0 }
    {
        LineOutput {
            output,
            progress,
            tail: [0; TAIL],
            has_refused_key: false,
            faults: 0,
            last: None,
        }
    }

    /// The last line that was written, without its line feed. Of a longer one the end.
    pub fn last_line(&self) -> &str {
        last_line_of(&self.tail)
    }

    // Notes what was written.
    fn note(&mut self, written: &[u8])
        ensures output { self.new.output ≡ self.old.output }
        ensures faults { self.new.faults ≡ self.old.faults }
    {
        keep_tail(&mut self.tail, written);
        if last_line_of(&self.tail) == "key refused" {
            self.has_refused_key = true;
        }
    }
}

fn keep_tail(tail: &mut [u8; TAIL], written: &[u8]) {
    let kept = written.len().min(TAIL);
    tail.copy_within(kept.., 0);
    tail[TAIL - kept..].copy_from_slice(&written[written.len() - kept..]);
}

fn last_line_of(tail: &[u8; TAIL]) -> &str {
    let mut start = 0;
    'bytes: for i in 0..TAIL - 1 {
        if tail[i] == b'\n' || tail[i] == 0 {
            start = i + 1;
        }
    }
    str::from_utf8(&tail[start..TAIL - 1]).unwrap_or("")
}

impl<'a, O: OutputCalls> Sink for LineOutput<'a, O> {
    ghost tells = { O.tells };

    ghost taken = { λ sink. O.taken sink.output };

    ghost faults = { λ sink. sink.faults };

    fn put(&mut self, piece: &[u8]) -> Result<usize, Failed> {
        self.progress.clear();
        let outcome = called(
            "standard output",
            "write",
            write_some(&mut self.output, piece),
        );
        let count = settle(&mut self.faults, &mut self.last, outcome)?;
        self.note(&piece[..count]);
        Ok(count)
    }
}
