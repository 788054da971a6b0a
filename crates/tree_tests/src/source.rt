// Marks, and pages lent from memory.
ghost use Rattle.std.specs.Prelude.{◌≡◌, ◌<◌, ◌-◌, ◌^◌, IsTrue, IfOk, OnErr, OnOk, slice_get, Some};
ghost use Rattle.db_format.specs.Pages.{is_page};
ghost use Rattle.db_format.specs.Source.{one_more};

use db_format::{MemPages, NoPage, PageSource, Seen};
use std::test::Fail;

#[test]
fn a_mark_stands_by_itself(rt: HostRuntime) -> Result<(), Fail> {
    let mut seen = Seen::new(rt.alloc(), 20)?;
    assert!(rt; seen.mark(7) && seen.mark(8) && seen.mark(20));
    assert!(rt; !seen.mark(7) && !seen.mark(8) && !seen.mark(20));
    for n in 0..30u32 {
        assert_eq!(rt; seen.has(n), n == 7 || n == 8 || n == 20, "{n}");
    }
    Ok(())
}

/// The first byte of page n, which stays pinned.
fn pinned_byte<S: PageSource>(source: &mut S, n: u32) -> Result<u8, S::Refusal>
    requires { S.pins source.old n < 2 ^ 32 - 1 }
    ensures told { IfOk result (λ byte. IsTrue S.tells → slice_get ((S.plain source.old).page n) 0 ≡ Some byte) }
    ensures pinned { OnOk result (S.pins source.new ≡ one_more n (S.pins source.old)) }
    ensures refused { OnErr result (S.pins source.new ≡ S.pins source.old) }
    ensures in_range { OnOk result (IsTrue (is_page (S.plain source.old) n)) }
    ensures reads { S.only_read source.old source.new }
{
    source.load(n)?;
    let byte = source.loaded()[0];
    source.pin(n);
    Ok(byte)
}

#[test]
fn pages_in_memory_are_lent_and_pinned(rt: HostRuntime) -> Result<(), Fail> {
    let mut bytes = [1u8; 1024];
    bytes[512] = 2;
    let Ok(mut source) = MemPages::new(rt.alloc(), 512, &bytes) else {
        return Err(Fail::new("memory"));
    };
    assert_eq!(rt; (source.pages(), source.usable()), (2, 512));
    assert_eq!(rt; pinned_byte(&mut source, 2), Ok(2));
    assert_eq!(rt;
        (source.unpin(2), source.unpin(2), source.unpin(3)),
        (true, false, false)
    );
    assert_eq!(rt; source.page(1), Ok(&bytes[..512]));
    assert_eq!(rt; source.page(0), Err(NoPage));
    assert_eq!(rt; source.page(3), Err(NoPage));
    Ok(())
}
