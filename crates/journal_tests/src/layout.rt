// Bytes of a journal that SQLite 3.40.1 left, and cases by hand from the rules.

use journal_format::{
    SegmentHeader, checksum, ends_super, read_header, record_page, sector_ok, write_header,
    write_record,
};

// The first header of a journal for a database of five pages of 512 bytes.
const HEAD: [u8; 28] = [
    0xd9, 0xd5, 0x05, 0xf9, 0x20, 0xa1, 0x63, 0xd7, 0, 0, 0, 1, 0x00, 0x8f, 0x2e, 0xf4, 0, 0, 0, 5,
    0, 0, 2, 0, 0, 0, 2, 0,
];

const FIELDS: SegmentHeader = SegmentHeader {
    count: 1,
    nonce: 0x008f_2ef4,
    initial: 5,
    sector: 512,
    page_size: 512,
};

#[test]
fn a_header_of_sqlite_is_read_and_written(rt: HostRuntime) {
    assert_eq!(rt; read_header(&HEAD), Some(FIELDS));
    assert_eq!(rt; read_header(&HEAD[..27]), None);
    let mut closed = HEAD;
    closed[0] = 0;
    assert_eq!(rt; read_header(&closed), None);
    let mut out = [0xff; 28];
    write_header(&FIELDS, &mut out);
    assert_eq!(rt; out, HEAD);
}

// The first record of that journal is of page 3, which has 78 at 112 and 312, and ends in 00 8f 2f e4.
#[test]
fn a_record_of_sqlite_is_read_and_written(rt: HostRuntime) {
    let mut image = [0xff; 512];
    image[112] = 0x78;
    image[312] = 0x78;
    assert_eq!(rt; checksum(0x008f_2ef4, &image), 0x008f_2fe4);
    let mut bytes = [0; 520];
    write_record(0x008f_2ef4, 3, &image, &mut bytes);
    assert!(rt; &bytes[..4] == [0, 0, 0, 3].as_slice());
    assert!(rt; &bytes[4..516] == image.as_slice());
    assert!(rt; &bytes[516..] == [0x00, 0x8f, 0x2f, 0xe4].as_slice());
    assert_eq!(rt; record_page(0x008f_2ef4, &bytes), Some(3));
    assert_eq!(rt; record_page(0x008f_2ef5, &bytes), None);
    bytes[3] = 0;
    assert_eq!(rt; record_page(0x008f_2ef4, &bytes), None);
}

// Every 200th byte from the end on is summed, and not the first: five of 1,024, twenty of 4,096, the rest of 2^32.
#[test]
fn a_checksum_takes_every_two_hundredth_byte(rt: HostRuntime) {
    assert_eq!(rt; checksum(7, &[1; 1024]), 12);
    assert_eq!(rt; checksum(7, &[1; 4096]), 27);
    assert_eq!(rt; checksum(7, &[1; 200]), 7);
    assert_eq!(rt; checksum(7, &[1; 201]), 8);
    assert_eq!(rt; checksum(0xffff_ffff, &[1; 512]), 1);
}

#[test]
fn sector_sizes_are_powers_of_two(rt: HostRuntime) {
    for sector in [32, 512, 4096, 65_536] {
        assert!(rt; sector_ok(sector));
    }
    for sector in [0, 16, 48, 513, 131_072] {
        assert!(rt; !sector_ok(sector));
    }
}

// The last 16 bytes: the length of the name, its sum and the magic.
fn tail(name: u8) -> [u8; 16] {
    [
        0, 0, 0, name, 0, 0, 0, 9, 0xd9, 0xd5, 0x05, 0xf9, 0x20, 0xa1, 0x63, 0xd7,
    ]
}

// By hand from the rule: a sector of 512 and 17 bytes at least, the magic last, a name of 1 to length - 528 bytes, no mark.
#[test]
fn a_super_journal_is_named(rt: HostRuntime) {
    let plain = [0; 44];
    assert!(rt; ends_super(512, 529, &plain, &tail(1)));
    assert!(rt; ends_super(512, 600, &plain, &tail(72)));
    assert!(rt; !ends_super(512, 528, &plain, &tail(1)));
    assert!(rt; !ends_super(512, 600, &plain, &tail(73)));
    assert!(rt; !ends_super(512, 600, &plain, &tail(0)));
    assert!(rt; !ends_super(512, 600, &plain, &[9; 16]));
    let mut marked = [0; 44];
    marked[28..].copy_from_slice(b"sqlcipher-tool 1");
    assert!(rt; !ends_super(512, 600, &marked, &tail(9)));
    assert!(rt; ends_super(1024, 2000, &marked, &tail(9)));
}
