// The streams and the random bytes of the system that runs this program, by the standard library. What stands here is trusted: no clause
// says which bytes they give or take.
ghost use Rattle.std.specs.Prelude.{[], false};

use std::fs::File;
use std::io::{self, ErrorKind, Read, Write};
use system_calls::{DeviceCalls, InputCalls, OutputCalls};

/// The device of random bytes.
pub const DEVICE: &str = "/dev/urandom";

/// Standard input.
#[derive(Drop)]
pub struct HostInput<'a> {
    rt: &'a HostRuntime,
}

impl<'a> HostInput<'a> {
    pub fn new(rt: &'a HostRuntime) -> HostInput<'a> {
        HostInput { rt }
    }
}

impl<'a> InputCalls for HostInput<'a> {
    ghost tells = { false };

    ghost left = { λ _. [] };

    fn read(&mut self, buf: &mut [u8]) -> io::Result<usize> {
        self.rt.stdin().read(buf)
    }
}

/// Standard output.
#[derive(Drop)]
pub struct HostOutput<'a> {
    rt: &'a HostRuntime,
}

impl<'a> HostOutput<'a> {
    pub fn new(rt: &'a HostRuntime) -> HostOutput<'a> {
        HostOutput { rt }
    }
}

impl<'a> OutputCalls for HostOutput<'a> {
    ghost tells = { false };

    ghost taken = { λ _. [] };

    fn write(&mut self, piece: &[u8]) -> io::Result<usize> {
        self.rt.stdout().write(piece)
    }
}

/// The system's random bytes.
#[derive(Drop)]
pub struct HostDevice<'a> {
    rt: &'a HostRuntime,
    file: Option<File>,
}

impl<'a> HostDevice<'a> {
    /// It is not opened.
    pub fn new(rt: &'a HostRuntime) -> HostDevice<'a> {
        HostDevice { rt, file: None }
    }
}

impl<'a> DeviceCalls for HostDevice<'a> {
    ghost tells = { false };

    ghost left = { λ _. [] };

    ghost given = { λ _. [] };

    fn open(&mut self) -> io::Result<()> {
        if self.file.is_none() {
            self.file = Some(File::open(self.rt, DEVICE)?);
        }
        Ok(())
    }

    fn read(&mut self, buf: &mut [u8]) -> io::Result<usize> {
        match &mut self.file {
            Some(file) => file.read(buf),
            None => Err(ErrorKind::NotFound.into()),
        }
    }
}
