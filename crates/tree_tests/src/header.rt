// Headers made by hand from the table of section 1.3.

use db_format::{CountRefusal, Header, HeaderRefusal, counted_pages, read_header, write_header};

// Four pages of 4,096 bytes, 80 of them reserved, changed once.
const SAMPLE: Header = Header {
    page_size: 4_096,
    reserve: 80,
    change: 1,
    size_field: 4,
    first_trunk: 0,
    free_count: 0,
    cookie: 1,
    format: 4,
    cache: 0,
    encoding: 1,
    user_version: 0,
    application_id: 0,
    valid_for: 1,
    sqlite_number: 3_045_000,
};

fn sample_bytes() -> [u8; 100] {
    let mut plain = [0; 100];
    plain[..16].copy_from_slice(b"SQLite format 3\0");
    plain[16..24].copy_from_slice(&[0x10, 0, 1, 1, 80, 64, 32, 32]);
    plain[27] = 1;
    plain[31] = 4;
    plain[43] = 1;
    plain[47] = 4;
    plain[59] = 1;
    plain[95] = 1;
    plain[96..].copy_from_slice(&[0, 0x2e, 0x76, 0x88]);
    plain
}

#[test]
fn the_sample_is_read_and_written(rt: HostRuntime) {
    assert_eq!(rt; read_header(&sample_bytes(), 4_096, 80, false), Ok(SAMPLE));
    let mut out = [0xff; 100];
    write_header(&SAMPLE, &mut out);
    assert_eq!(rt; out, sample_bytes());
}

#[test]
fn each_field_has_its_place(rt: HostRuntime) {
    let mut plain = sample_bytes();
    for at in 24..100 {
        if at < 44 || at > 59 {
            plain[at] = at as u8;
        }
    }
    let want = Header {
        change: 0x1819_1a1b,
        size_field: 0x1c1d_1e1f,
        first_trunk: 0x2021_2223,
        free_count: 0x2425_2627,
        cookie: 0x2829_2a2b,
        user_version: 0x3c3d_3e3f,
        application_id: 0x4445_4647,
        valid_for: 0x5c5d_5e5f,
        sqlite_number: 0x6061_6263,
        ..SAMPLE
    };
    assert_eq!(rt; read_header(&plain, 4_096, 80, false), Ok(want));
}

#[test]
fn one_means_the_largest_page(rt: HostRuntime) {
    let mut plain = sample_bytes();
    plain[16..18].copy_from_slice(&[0, 1]);
    let want = Header {
        page_size: 65_536,
        ..SAMPLE
    };
    assert_eq!(rt; read_header(&plain, 65_536, 80, false), Ok(want));
    let mut out = [0; 100];
    write_header(&want, &mut out);
    assert_eq!(rt; out, plain);
}

fn fault(offset: u32, found: u32) -> HeaderRefusal {
    HeaderRefusal::HeaderFault { offset, found }
}

// The first rule that is broken is named: in a header in which this byte alone is other than the sample's, and in the one in which
// the bytes of the later rules are broken too.
#[test]
fn the_first_broken_rule_is_named(rt: HostRuntime) {
    let mut broken = sample_bytes();
    for (at, byte, want) in [
        (59usize, 4u8, fault(56, 4)),
        (55, 1, HeaderRefusal::AutoVacuum),
        (47, 5, fault(44, 5)),
        (23, 33, fault(23, 33)),
        (22, 31, fault(22, 31)),
        (21, 63, fault(21, 63)),
        (20, 48, fault(20, 48)),
        (19, 0, fault(19, 0)),
        (19, 2, HeaderRefusal::WalMode),
        (18, 3, fault(18, 3)),
        (18, 2, HeaderRefusal::WalMode),
        (16, 8, fault(16, 2_048)),
    ] {
        let mut plain = sample_bytes();
        assert!(rt; at < 100);
        plain[at] = byte;
        broken[at] = byte;
        assert!(rt;
            read_header(&plain, 4_096, 80, false) == Err(want),
            "{byte} at {at}"
        );
        assert!(rt;
            read_header(&broken, 4_096, 80, false) == Err(want),
            "{byte} at {at}, before other faults"
        );
    }
}

// The change counter, the count of pages, the file's length, and the answer.
#[test]
fn pages_are_counted(rt: HostRuntime) {
    let table: [(u32, u32, u64, Result<u32, CountRefusal>); 11] = [
        (1, 4, 16_384, Ok(4)),
        (1, 4, 16_484, Ok(4)),
        (2, 4, 20_480, Ok(5)),
        (2, 4, 20_481, Err(CountRefusal::Ragged { length: 20_481 })),
        (1, 0, 20_480, Ok(5)),
        (1, 0, 0, Ok(0)),
        (1, 0, 16_484, Err(CountRefusal::Ragged { length: 16_484 })),
        (1, 5, 16_384, Err(CountRefusal::Short { length: 16_384 })),
        (1, 262_144, 1 << 30, Ok(262_144)),
        (
            1,
            262_145,
            16_384,
            Err(CountRefusal::TooLarge { pages: 262_145 }),
        ),
        (
            1,
            0,
            (1 << 30) + 4_096,
            Err(CountRefusal::TooLarge { pages: 262_145 }),
        ),
    ];
    for (change, size_field, length, want) in table {
        let header = Header {
            change,
            size_field,
            ..SAMPLE
        };
        assert!(rt;
            counted_pages(&header, length) == want,
            "{size_field} pages at {change}, {length} bytes"
        );
    }
}
