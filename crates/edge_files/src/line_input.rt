// The input of a run: its first two lines are noted, which may be key lines, and each is asked for where somebody types it.
ghost use Rattle.std.specs.Prelude.{◌≡◌};

use crate::failure::{Failure, called, settle};
use crate::host_streams::HostInput;
use crate::input_end::input_goes_on;
use crate::key_line::KeyLine;
use crate::prompt::{Prompt, ask};
use edge_model::{Failed, Source};
use system_calls::{InputCalls, ReadAhead, read_some};

/// How much of a script is read at once, in bytes.
const SCRIPT_PIECE: usize = 4096;

/// The bytes of an input, each as it came.
#[derive(Drop)]
pub struct LineInput<'a, I: InputCalls> {
    rt: &'a HostRuntime,
    input: I,
    prompt: Prompt,
    /// The first line.
    pub line: KeyLine,
    /// The second line.
    pub second: KeyLine,
    /// How often the stream has failed.
    pub faults: u64,
    /// The last failure.
    pub last: Option<Failure<'a>>,
}

/// The same, over standard input. A script is read in pieces. Key lines are not: what follows them may be for another program.
pub type InputSource<'a> = LineInput<'a, ReadAhead<HostInput<'a>>>;

impl<'a> InputSource<'a> {
    /// Standard input, of which nothing was read.
    pub fn new(rt: &'a HostRuntime, is_script: bool, prompt: Prompt) -> InputSource<'a> {
        let piece = if is_script { SCRIPT_PIECE } else { 0 };
        let input = ReadAhead::new(rt.alloc(), piece, HostInput::new(rt));
        LineInput::over(rt, input, prompt)
    }

    /// Whether standard input has bytes behind those that were taken. A terminal and a file are not read for it.
    pub fn goes_on(&self) -> bool {
        input_goes_on(self.rt)
    }
}

impl<'a, I: InputCalls> LineInput<'a, I> {
    /// This input, of which no line was noted.
    pub fn over(rt: &'a HostRuntime, input: I, prompt: Prompt) -> LineInput<'a, I>
        ensures input { result.input ≡ input }
        ensures faults { result.faults ≡ 0 }
    {
        LineInput {
            rt,
            input,
            prompt,
            line: KeyLine::new(),
            second: KeyLine::new(),
            faults: 0,
            last: None,
        }
    }

    // Asks for the line that is read next, before its first byte.
    fn ask(&self) {
        if self.line.is_untouched() {
            ask(self.rt, self.prompt.first);
        } else if let Some(second) = self.prompt.second
            && self.line.has_ended()
            && self.second.is_untouched()
        {
            ask(self.rt, second);
        }
    }

    // Notes the next bytes. A key line is read byte by byte, so no piece has two lines.
    fn note(&mut self, bytes: &[u8])
        ensures input { self.new.input ≡ self.old.input }
        ensures faults { self.new.faults ≡ self.old.faults }
    {
        if self.line.has_ended() {
            self.second.see(bytes);
        } else {
            self.line.see(bytes);
        }
    }
}

impl<'a, I: InputCalls> Source for LineInput<'a, I> {
    ghost tells = { I.tells };

    ghost left = { λ source. I.left source.input };

    ghost faults = { λ source. source.faults };

    fn take(&mut self, buf: &mut [u8]) -> Result<usize, Failed> {
        self.ask();
        let outcome = called("standard input", "read", read_some(&mut self.input, buf));
        let count = settle(&mut self.faults, &mut self.last, outcome)?;
        self.note(&buf[..count]);
        Ok(count)
    }
}
