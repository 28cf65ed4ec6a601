//! A client's frame, at the start of a session and in a transaction.
use super::*;
use crate::checks::assert_same;

// A client's first frame, and what it asks for.
const FROM_CLIENT: &[(&[u8], Asks)] = &[
    (b"Q\0\0\0\x0dselect 1\0", Asks::Request),
    (b"Q\0\0\0\x05\0", Asks::Request),
    (b"Q\0\0\0\x04", Asks::Violation),
    (b"Q\0\0\0\x0cselect 1", Asks::Violation),
    (b"Q\0\0\0\x0fselect\0 1\0", Asks::Violation),
    (b"Q\0\0\0\x0eselect\0 1", Asks::Violation),
    (b"Q\0\0\0\x06\0\0", Asks::Violation),
    (b"X\0\0\0\x04", Asks::Leave),
    (b"S\0\0\0\x04", Asks::Request),
    (b"S\0\0\0\x05\0", Asks::Violation),
    // Parse with no name, with a name, and cut short.
    (b"P\0\0\0\x10\0select 1\0\0\0", Asks::Part),
    (b"P\0\0\0\x05\0", Asks::Part),
    (b"P\0\0\0\x11s\0select 1\0\0\0", Asks::LeftOut),
    (b"P\0\0\0\x06s\0", Asks::LeftOut),
    (b"P\0\0\0\x04", Asks::Violation),
    (b"P\0\0\0\x05s", Asks::Violation),
    // Bind names a portal and a statement.
    (b"B\0\0\0\x0c\0\0\0\0\0\0\0\0", Asks::Part),
    (b"B\0\0\0\x06\0\0", Asks::Part),
    (b"B\0\0\0\x07p\0\0", Asks::LeftOut),
    (b"B\0\0\0\x07\0s\0", Asks::LeftOut),
    (b"B\0\0\0\x08p\0s\0", Asks::LeftOut),
    (b"B\0\0\0\x05\0", Asks::Violation),
    (b"B\0\0\0\x06p\0", Asks::Violation),
    (b"B\0\0\0\x06\0s", Asks::Violation),
    (b"B\0\0\0\x07p\0s", Asks::Violation),
    (b"B\0\0\0\x04", Asks::Violation),
    // Describe and Close name a statement or a portal.
    (b"D\0\0\0\x06S\0", Asks::Part),
    (b"D\0\0\0\x06P\0", Asks::Part),
    (b"D\0\0\0\x07Ss\0", Asks::LeftOut),
    (b"D\0\0\0\x07Pp\0", Asks::LeftOut),
    (b"D\0\0\0\x06Q\0", Asks::Violation),
    (b"D\0\0\0\x07Qs\0", Asks::Violation),
    (b"D\0\0\0\x05S", Asks::Violation),
    (b"D\0\0\0\x06Ss", Asks::Violation),
    (b"D\0\0\0\x04", Asks::Violation),
    (b"C\0\0\0\x06S\0", Asks::Part),
    (b"C\0\0\0\x06P\0", Asks::Part),
    (b"C\0\0\0\x07Pp\0", Asks::LeftOut),
    (b"C\0\0\0\x07s\0\0", Asks::Violation),
    (b"C\0\0\0\x04", Asks::Violation),
    // Execute names a portal.
    (b"E\0\0\0\x09\0\0\0\0\0", Asks::Part),
    (b"E\0\0\0\x05\0", Asks::Part),
    (b"E\0\0\0\x0ap\0\0\0\0\0", Asks::LeftOut),
    (b"E\0\0\0\x05p", Asks::Violation),
    (b"H\0\0\0\x04", Asks::LeftOut),
    (b"F\0\0\0\x04", Asks::LeftOut),
    (b"d\0\0\0\x04", Asks::LeftOut),
    (b"c\0\0\0\x04", Asks::LeftOut),
    (b"f\0\0\0\x04", Asks::LeftOut),
    (b"q\0\0\0\x0dselect 1\0", Asks::Violation),
    (b"p\0\0\0\x0bsecret\0", Asks::Violation),
    (b"Z\0\0\0\x05I", Asks::Violation),
    (b"0\0\0\0\x04", Asks::Violation),
];

fn assert_first(
    rt: &(impl Abort + AllocGlobal),
    client: &mut Client,
    text: &[u8],
    asks: Asks,
) -> Result<(), AllocError> {
    let leased = client.holds_lease();
    let expected = asks.act(leased, text);
    assert_client(rt, client, frame(rt.alloc(), text)?, expected);
    let (holds, asking) = match asks {
        Asks::Request => (true, true),
        Asks::Part => (leased, false),
        Asks::Leave | Asks::Violation | Asks::LeftOut => (false, false),
    };
    assert_same(rt, client.holds_lease(), holds);
    assert_same(rt, client.may_read(), !asking);
    assert_same(rt, client.database().get(), 3);
    Ok(())
}

#[test]
fn from_client(rt: HostRuntime) -> Result<(), Fail> {
    for (text, asks) in FROM_CLIENT {
        assert_first(&rt, &mut new(rt.alloc()), text, *asks)?;
        assert_first(&rt, &mut in_transaction(&rt)?, text, *asks)?;
    }
    Ok(())
}
