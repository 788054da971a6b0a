// What is asked for on standard error where standard input is a terminal.
use std::io::IsTerminal;

/// What the lines of standard input are, for one who types them.
#[derive(Clone, Copy)]
pub struct Prompt {
    /// The first line.
    pub first: &'static str,
    /// The second line, where there is one.
    pub second: Option<&'static str>,
}

/// Asks for a line. Where standard input is no terminal nobody is there to be asked.
pub fn ask(rt: &HostRuntime, line: &str) {
    if rt.stdin().is_terminal() {
        let _ = eprintln!(rt; "sqlcipher-tool: type {line}");
    }
}
