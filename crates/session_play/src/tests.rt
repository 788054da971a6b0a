// The forms of a line. What a script does to a file is tried in `command_tests`.
ghost use Rattle.cipher_profile.specs.Profile.{IsListed};

use crate::script::step_of;
use cipher_profile::Profile;
use profile_word::profile_of;
use std::process::Abort;
use std::test::Fail;

// Lines that are a step.
const STEPS: [&[u8]; 24] = [
    b"open 0 4 secret",
    b"open 15 4:1024 two words",
    b"open 0 1  a space first",
    b"open 0 3 \xff\x00\r",
    b"open 0 plain:4096",
    b"rekey 3 4 x'00'",
    b"rekey 3 plain:512",
    b"share 0",
    b"share 000015",
    b"read 0 0 0",
    b"read 1 4294967295 4015",
    b"reserve 7",
    b"change 0 1 100 255",
    b"change 0 1 0 0",
    b"change 0 0000000001 0000004015 0000000255",
    b"commit 0",
    b"release 0",
    b"stop",
    b"share 1",
    b"share 10",
    b"open 1 2 x'0'",
    b"open 1 2 'x",
    b"open 2 4:key=hex 00fF",
    b"rekey 2 4:plain-header=32:key=hex 00fF,000102030405060708090a0b0c0d0e0f",
];

// Lines that are none.
const NO_STEPS: [&[u8]; 45] = [
    b"",
    b" ",
    b"stop ",
    b" stop",
    b"Stop",
    b"stop\r",
    b"stop 0",
    b"share",
    b"share ",
    b"share 16",
    b"share -1",
    b"share +1",
    b"share 0 ",
    b"share  0",
    b"share 0 0",
    b"share 00000000000",
    b"share x",
    b"share \xff",
    b"walk 0",
    b"read 0 1",
    b"read 0 1 4016",
    b"read 0 4294967296 0",
    b"read 0 1 0 0",
    b"read 0  1 0",
    b"change 0 1 100",
    b"change 0 1 100 256",
    b"change 0 1 4016 0",
    b"change 0 1 100 0 ",
    b"change 0 1 100 0 0",
    b"open 0 4",
    b"open 0 4 ",
    b"open 16 4 secret",
    b"open 0 5 secret",
    b"open 0 \xff secret",
    b"open 0 plain:4096 ",
    b"open 0 plain:4096 secret",
    b"open 0",
    b"rekey 0",
    b"reopen 0 4 secret",
    b"commit 0 4 secret",
    b"open 2 4:key=hex 00f",
    b"open 2 4:key=hex 00fF,000102030405060708090a0b0c0d0e0f",
    b"open 2 4:plain-header=32 secret",
    b"open 2 4:plain-header=32:key=hex 00fF",
    b"open 2 4:plain-header=32:key=hex 00fF,0001020304050607",
];

fn version_4(rt: &impl Abort) -> Profile
    ensures { IsListed result }
{
    match profile_of("4") {
        Some(profile) => profile,
        None => panic!(rt; "no profile"),
    }
}

#[test]
fn each_form_is_a_step(rt: HostRuntime) -> Result<(), Fail> {
    let layout = version_4(&rt);
    for line in STEPS {
        assert!(rt; step_of(&layout, line).is_some(), "{line:?}");
    }
    for line in NO_STEPS {
        assert!(rt; step_of(&layout, line).is_none(), "{line:?}");
    }
    Ok(())
}

// A key line of a raw key and a salt is for a file that does not hold its salt, and one of 1,025 bytes is too long.
#[test]
fn a_key_is_a_key_line(rt: HostRuntime) -> Result<(), Fail> {
    let alloc = rt.alloc();
    let layout = version_4(&rt);
    let keys: [(&[u8], usize, bool); 4] = [
        (b"open 0 4 x'", 64, true),
        (b"open 0 4 x'", 96, false),
        (b"open 0 4:plain-header=32 x'", 64, false),
        (b"open 0 4:plain-header=32 x'", 96, true),
    ];
    for (words, digits, is_key) in keys {
        let mut line = Vec::new(alloc);
        line.extend_from_slice(words)?;
        line.resize(line.len().saturating_add(digits), b'7')?;
        line.push(b'\'')?;
        assert_eq!(rt; step_of(&layout, line.as_slice()).is_some(), is_key);
    }
    for (bytes, is_key) in [(1024usize, true), (1025, false)] {
        let mut line = Vec::new(alloc);
        line.extend_from_slice(b"open 0 4 ")?;
        line.resize(line.len().saturating_add(bytes), b'k')?;
        assert_eq!(rt; step_of(&layout, line.as_slice()).is_some(), is_key);
    }
    Ok(())
}
