// What no clause says: known keys, and what key lines of each kind give.
use crate::hex_text::is_hex_of;
use cipher_profile::{KeyError, LineForm, Secret, derive, derive_beside, read_key};
use edge_memory::{MemSource, SilentSource};
use edge_model::Source;
use profile_word::profile_of;
use std::alloc::Global;
use std::process::Abort;
use std::test::Fail;

// The line of a file that holds its salt, and of one that does not.
const FORM: LineForm = LineForm {
    hex: false,
    salted: false,
};

const SALTED: LineForm = LineForm {
    hex: false,
    salted: true,
};

// The same with the passphrase in hex.
const HEX: LineForm = LineForm {
    hex: true,
    salted: false,
};

const SALTED_HEX: LineForm = LineForm {
    hex: true,
    salted: true,
};

const SALT: [u8; 16] = [0, 1, 2, 3, 4, 5, 6, 7, 8, 9, 10, 11, 12, 13, 14, 15];

// By `hashlib.pbkdf2_hmac` of Python 3: with 32 bytes, the profile's hash and rounds, and then 2 rounds over that key with
// each byte of the salt xor 0x3a.
#[test]
fn known_keys_are_derived(rt: HostRuntime) -> Result<(), Fail> {
    let raw: &[u8] = b"x'000102030405060708090a0b0c0d0e0f101112131415161718191a1b1c1d1e1f'";
    let table: [(&str, &[u8], &str, &str); 6] = [
        (
            "1",
            b"correct horse",
            "56d062155faca818e817272a2e0f0b7bb6172bbea464837dae9b6601853adea7",
            "56b4bd0909d82bc4afbe05345593c4a814a7240724d1f9eb851d26f213631bc2",
        ),
        (
            "2",
            b"correct horse",
            "56d062155faca818e817272a2e0f0b7bb6172bbea464837dae9b6601853adea7",
            "56b4bd0909d82bc4afbe05345593c4a814a7240724d1f9eb851d26f213631bc2",
        ),
        (
            "3",
            b"correct horse",
            "01573525bd1d7c55df8dd6dd85b3a41f34a98dfead40ccfe563b54cf8b4f6261",
            "81a911ebd0d603493c48abf0fa310110b88d789fda8d260b8f4e429d1e52ea75",
        ),
        (
            "4",
            b"correct horse",
            "9118a024311c6a93d17484b07c24ec754e0559cc3b687954de6daa9ad9495042",
            "90d442e2acdb433135e27ea4c651c5c4ab528bff6f005ffb8bb97de28dbc945f",
        ),
        (
            "2",
            raw,
            "000102030405060708090a0b0c0d0e0f101112131415161718191a1b1c1d1e1f",
            "87295ac9ade0f88271f30f9293df1695f79c5badce12855b53576fa64637e3a8",
        ),
        (
            "4",
            raw,
            "000102030405060708090a0b0c0d0e0f101112131415161718191a1b1c1d1e1f",
            "601364baed0dde5a2d291ede302ae7e0540a85b57a281a0d19c344b7d4f382ce",
        ),
    ];
    for (word, line, enc, mac) in table {
        let mut source = source_of(rt.alloc(), line, &[])?;
        match (profile_of(word), read_key(FORM, &mut source)) {
            (Some(profile), Ok(secret)) => {
                let keys = derive(&secret, &profile, &SALT);
                assert!(rt; is_hex_of(enc, &keys.enc), "the cipher's key of {word}");
                assert!(rt; is_hex_of(mac, &keys.mac), "the tags' key of {word}");
                // The same beside the keys of a profile that makes its keys alike.
                let again = derive_beside(&secret, &profile, &SALT, &profile, &keys);
                assert!(rt; again == keys, "the keys of {word} again");
            }
            _ => assert!(rt; false, "{word}"),
        }
    }
    Ok(())
}

fn source_of(alloc: Global, bytes: &[u8], failing: &[u64]) -> Result<MemSource, Fail> {
    Ok(MemSource::new(alloc, bytes, failing)?)
}

/// What a key line gives.
#[derive(Clone, Copy)]
enum Answer<'a> {
    Key(&'a [u8]),
    Pass(&'a [u8]),
    SaltedKey(&'a [u8], &'a [u8]),
    SaltedPass(&'a [u8], &'a [u8]),
    Refusal(KeyError),
}

// Whether the next line, of this form, gives this.
fn gives_as(form: LineForm, source: &mut impl Source, want: Answer) -> bool {
    match (read_key(form, source), want) {
        (Ok(Secret::Raw(key)), Answer::Key(bytes)) => key.as_slice() == bytes,
        (Ok(Secret::Pass(passphrase)), Answer::Pass(bytes)) => passphrase.as_slice() == bytes,
        (Ok(Secret::SaltedRaw(key, own)), Answer::SaltedKey(bytes, salt)) => {
            key.as_slice() == bytes && own.as_slice() == salt
        }
        (Ok(Secret::SaltedPass(passphrase, own)), Answer::SaltedPass(bytes, salt)) => {
            passphrase.as_slice() == bytes && own.as_slice() == salt
        }
        (Err(error), Answer::Refusal(refusal)) => error == refusal,
        _ => false,
    }
}

fn gives(source: &mut impl Source, want: Answer) -> bool {
    gives_as(FORM, source, want)
}

const KEY: &[u8; 32] =
    b"\x00\x01\x02\x03\x04\x05\x06\x07\x08\x09\x0a\x0b\x0c\x0d\x0e\x0f\x10\x11\x12\x13\x14\x15\x16\x17\x18\x19\x1a\x1b\x1c\x1d\x1e\x1f";

const RAW: &[u8] = b"x'000102030405060708090a0b0c0d0e0f101112131415161718191a1b1c1d1e1f'";

// One digit short, and one that is none.
const SHORT: &[u8] = b"x'000102030405060708090a0b0c0d0e0f101112131415161718191a1b1c1d1e1'";

const SPOILED: &[u8] = b"x'000102030405060708090a0b0c0d0e0f101112131415161718191a1b1c1d1e1g'";

const SALTED_RAW: &[u8] =
    b"x'000102030405060708090a0b0c0d0e0f101112131415161718191a1b1c1d1e1f202122232425262728292a2b2c2d2e2f'";

// The salt behind that key.
const BEHIND: &[u8; 16] = b"\x20\x21\x22\x23\x24\x25\x26\x27\x28\x29\x2a\x2b\x2c\x2d\x2e\x2f";

const SALTED_SPOILED: &[u8] =
    b"x'000102030405060708090a0b0c0d0e0f101112131415161718191a1b1c1d1e1f202122232425262728292a2b2c2d2e2g'";

#[test]
fn lines_give_keys_passphrases_and_refusals(rt: HostRuntime) -> Result<(), Fail> {
    let table: [(&[u8], Answer); 11] = [
        (RAW, Answer::Key(KEY)),
        (
            b"X'000102030405060708090A0B0C0D0E0F101112131415161718191A1B1C1D1E1F'\n",
            Answer::Key(KEY),
        ),
        (SHORT, Answer::Pass(SHORT)),
        (SPOILED, Answer::Pass(SPOILED)),
        (SALTED_SPOILED, Answer::Pass(SALTED_SPOILED)),
        (
            b"x'000102030405060708090a0b0c0d0e0f101112131415161718191a1b1c1d1e1f202122232425262728292a2b2c2d2e2f'\n",
            Answer::Refusal(KeyError::KeyForm),
        ),
        (
            b"X'000102030405060708090A0B0C0D0E0F101112131415161718191A1B1C1D1E1F202122232425262728292A2B2C2D2E2F'",
            Answer::Refusal(KeyError::KeyForm),
        ),
        (b"", Answer::Refusal(KeyError::KeyMissing)),
        (b"\n", Answer::Refusal(KeyError::KeyEmpty)),
        (b"old\r\n", Answer::Pass(b"old\r")),
        (b"\x00\x7f\x80\xff", Answer::Pass(b"\x00\x7f\x80\xff")),
    ];
    for (line, want) in table {
        let mut source = source_of(rt.alloc(), line, &[])?;
        assert!(rt; gives(&mut source, want), "{line:?}");
    }
    Ok(())
}

// Whether each of these lines, of this form, gives what stands beside it.
fn check(
    rt: &impl Abort,
    alloc: Global,
    form: LineForm,
    table: &[(&[u8], Answer)],
) -> Result<(), Fail> {
    for (line, want) in table.iter() {
        let mut source = source_of(alloc, line, &[])?;
        assert!(rt; gives_as(form, &mut source, *want), "{line:?}");
    }
    Ok(())
}

#[test]
fn a_file_without_its_salt_takes_one_from_the_line(rt: HostRuntime) -> Result<(), Fail> {
    let table: [(&[u8], Answer); 7] = [
        (SALTED_RAW, Answer::SaltedKey(KEY, BEHIND)),
        (
            b"X'000102030405060708090A0B0C0D0E0F101112131415161718191A1B1C1D1E1F202122232425262728292A2B2C2D2E2F'\n",
            Answer::SaltedKey(KEY, BEHIND),
        ),
        (RAW, Answer::Refusal(KeyError::KeyUnsalted)),
        (SALTED_SPOILED, Answer::Refusal(KeyError::KeyUnsalted)),
        (b"old", Answer::Refusal(KeyError::KeyUnsalted)),
        (b"\n", Answer::Refusal(KeyError::KeyEmpty)),
        (b"", Answer::Refusal(KeyError::KeyMissing)),
    ];
    check(&rt, rt.alloc(), SALTED, &table)
}

#[test]
fn a_passphrase_in_hex_is_decoded(rt: HostRuntime) -> Result<(), Fail> {
    let table: [(&[u8], Answer); 9] = [
        (b"00ff0A", Answer::Pass(b"\x00\xff\x0a")),
        (b"616263\n", Answer::Pass(b"abc")),
        (b"00ff0", Answer::Refusal(KeyError::KeyNotHex)),
        (b"zz", Answer::Refusal(KeyError::KeyNotHex)),
        (b"616263\r\n", Answer::Refusal(KeyError::KeyNotHex)),
        (SALTED_RAW, Answer::Refusal(KeyError::KeyNotHex)),
        (
            b"616263,000102030405060708090a0b0c0d0e0f",
            Answer::Refusal(KeyError::KeyNotHex),
        ),
        (b"\n", Answer::Refusal(KeyError::KeyEmpty)),
        (b"", Answer::Refusal(KeyError::KeyMissing)),
    ];
    check(&rt, rt.alloc(), HEX, &table)
}

#[test]
fn a_passphrase_in_hex_has_its_salt_behind_a_comma(rt: HostRuntime) -> Result<(), Fail> {
    let table: [(&[u8], Answer); 6] = [
        (
            b"616263,000102030405060708090a0B0c0D0e0F",
            Answer::SaltedPass(b"abc", &SALT),
        ),
        (b"616263", Answer::Refusal(KeyError::KeyUnsalted)),
        (b"616263,00", Answer::Refusal(KeyError::KeyNotHex)),
        (
            b"616263,000102030405060708090a0b0c0d0e0g",
            Answer::Refusal(KeyError::KeyNotHex),
        ),
        (
            b",000102030405060708090a0b0c0d0e0f",
            Answer::Refusal(KeyError::KeyNotHex),
        ),
        (SALTED_RAW, Answer::Refusal(KeyError::KeyNotHex)),
    ];
    check(&rt, rt.alloc(), SALTED_HEX, &table)
}

#[test]
fn a_passphrase_has_at_most_1024_bytes(rt: HostRuntime) -> Result<(), Fail> {
    let mut line = [b'p'; 1025];
    let mut source = source_of(rt.alloc(), &line, &[])?;
    assert!(rt;
        gives(&mut source, Answer::Refusal(KeyError::KeyTooLong)),
        "1,025 bytes"
    );
    line[1024] = b'\n';
    let longest = &line[..1024];
    let mut source = source_of(rt.alloc(), &line, &[])?;
    assert!(rt;
        gives(&mut source, Answer::Pass(longest)),
        "1,024 bytes and a line feed"
    );
    let mut source = source_of(rt.alloc(), longest, &[])?;
    assert!(rt;
        gives(&mut source, Answer::Pass(longest)),
        "1,024 bytes and the end"
    );
    Ok(())
}

fn gives_in_turn(source: &mut impl Source) -> bool {
    gives(source, Answer::Pass(b"old"))
        && gives(source, Answer::Refusal(KeyError::KeyEmpty))
        && gives(source, Answer::Pass(b"new"))
        && gives(source, Answer::Refusal(KeyError::KeyMissing))
}

#[test]
fn lines_are_read_in_turn(rt: HostRuntime) -> Result<(), Fail> {
    let mut source = source_of(rt.alloc(), b"old\n\nnew", &[])?;
    assert!(rt; gives_in_turn(&mut source));
    let mut silent = SilentSource {
        inner: source_of(rt.alloc(), b"old\n\nnew", &[])?,
    };
    assert!(rt; gives_in_turn(&mut silent));
    Ok(())
}

// The raw key takes 67 calls, and one more finds the end.
#[test]
fn each_failing_call_is_a_fault(rt: HostRuntime) -> Result<(), Fail> {
    for call in 1..70 {
        let want = if call < 69 {
            Answer::Refusal(KeyError::SourceFault)
        } else {
            Answer::Key(KEY)
        };
        let mut source = source_of(rt.alloc(), RAW, &[call])?;
        assert!(rt; gives(&mut source, want), "call {call}");
    }
    Ok(())
}
