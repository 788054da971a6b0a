// Lines that are built in place, and put whole.
use edge_memory::{MemSink, SilentSink};
use std::test::Fail;
use text_lines::Text;

#[test]
fn lines_are_put_whole(rt: HostRuntime) -> Result<(), Fail> {
    let alloc = rt.alloc();
    let mut text = Text::new();
    text.push(b"a ");
    text.push_around(b"b ", 7, b"; ");
    text.push_signed(b"c ", -7);
    text.push_field(b" d", 8);
    text.push_number(18_446_744_073_709_551_615);
    let mut out = SilentSink {
        inner: MemSink::new(alloc, &[])?,
    };
    assert!(rt; text.put(&mut out).is_ok());
    assert_eq!(rt;
        out.inner.bytes(),
        b"a b 7; c -7 d 8\n18446744073709551615".as_slice()
    );
    Ok(())
}
