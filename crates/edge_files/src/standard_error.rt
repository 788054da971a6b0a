// Lines on standard error.
use crate::failure::Shown;
use std::fmt::Display;

/// Writes one line. That standard error can't be written is no fault.
pub fn say<D: Display + Drop>(rt: &HostRuntime, words: D) {
    let _ = eprintln!(rt; "sqlcipher-tool: {words}");
}

/// Says what a plain file is that takes the place of an encrypted one.
pub fn warn_of_clear_rows(rt: &HostRuntime, path: &str) {
    say(
        rt,
        format_args!(
            "{}: the new file holds every row in the clear; the old encrypted pages will be gone from this name, but not from the device",
            Shown(path)
        ),
    );
}
