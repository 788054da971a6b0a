// What shows of a key line.
use edge_files::KeyLine;
use std::test::Fail;

const KEY: &[u8] = b"x'000102030405060708090a0b0c0d0e0f101112131415161718191a1b1c1d1e1f'\n";

// What shows of a line that comes in two pieces, in the order of the questions.
fn shows(first: &[u8], second: &[u8]) -> [bool; 11] {
    let mut line = KeyLine::new();
    line.see(first);
    line.see(second);
    [
        line.is_bare_key(),
        line.ends_in_return(),
        line.ends_in_space(),
        line.is_quoted(),
        line.is_raw(),
        line.is_broken_raw(),
        line.is_statement(),
        line.begins_with_mark(),
        line.begins_with_space(),
        line.has_tab(),
        line.has_control(),
    ]
}

// All but these are false.
fn only(questions: &[usize]) -> [bool; 11] {
    let mut answers = [false; 11];
    for question in questions {
        if *question < 11 {
            answers[*question] = true;
        }
    }
    answers
}

#[test]
fn a_key_line_shows_its_form(rt: HostRuntime) -> Result<(), Fail> {
    let digits = &KEY[2..66];
    let table: [(&[u8], &[u8], &[usize]); 17] = [
        (digits, b"\n", &[0]),
        (&digits[..63], b"\n", &[]),
        (&digits[1..], b"g\n", &[]),
        (KEY, b"", &[4]),
        (b"X'", &KEY[2..], &[4]),
        (&KEY[..65], b"'\n", &[5]),
        (b"x\"", b"ab\"\n", &[5]),
        (b"pass", b"word\r\n \n", &[1, 10]),
        (b"password ", b"\n", &[2]),
        (b" password", b"\n", &[8]),
        (b"pass", b"\tword\n", &[9, 10]),
        (b"pass\0", b"word\n", &[10]),
        (b"\xef\xbb\xbf", b"password\n", &[7]),
        (b"pragma ", b"key = 'a'\n", &[6]),
        (b"'pass", b"'", &[3]),
        (b"\"", b"\n", &[]),
        (b"", b"\n", &[]),
    ];
    for (first, second, form) in table {
        assert_eq!(rt; shows(first, second), only(form));
    }
    Ok(())
}

fn line_of(bytes: &[u8]) -> KeyLine {
    let mut line = KeyLine::new();
    line.see(bytes);
    line
}

#[test]
fn two_lines_of_one_key_are_seen(rt: HostRuntime) -> Result<(), Fail> {
    let alloc = rt.alloc();
    let mut upper = KEY.to_vec(alloc)?;
    upper.make_ascii_uppercase();
    assert!(rt; line_of(KEY).is_same_key(&line_of(upper.as_slice())));
    assert!(rt; line_of(b"pass\n").is_same_key(&line_of(b"pass")));
    assert!(rt; !line_of(b"pass").is_same_key(&line_of(b"Pass")));
    assert!(rt; !line_of(b"pass").is_same_key(&line_of(b"pass ")));
    Ok(())
}
