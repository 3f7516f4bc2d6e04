ghost use Rattle.std.specs.Prelude.{◌≡◌};

use reply::answer::Reply;
use std::alloc::{AllocError, Global};
use std::process::Abort;
use std::test::Fail;
use trials::worked_bundle;

// A bundle of stations: one tape of 12:d, station 7, and 12:t, station 9.
pub(crate) fn station_bundle() -> &'static [u8; 24] {
    b"\x00\x02\x00\x01\x00\x00\x00\x02\x00\x00\x00\x00\x00\x00\x00\x02\x0C\x00\x00\x07\x0C\x02\x00\x09"
}

// Functions and no struct of what they share: that `reply_to` can be called would stand at each of its methods too.

// Holds the reply to a query line and a bundle to a text.
pub(crate) fn answers<F: Fn(Global, &[u8]) -> Result<Reply, AllocError>>(
    rt: &impl Abort,
    heap: Global,
    reply_to: &F,
    line: &[u8],
    bundle: &[u8],
    text: &[u8],
    refused: bool,
) -> Result<(), Fail>
    requires { F.IsAlwaysCallable reply_to.now }
{
    let mut input = Vec::new(heap);
    input.extend_from_slice(line)?;
    input.extend_from_slice(bundle)?;
    let reply = reply_to(heap, &input)?;
    assert!(rt; reply.text.as_slice() == text);
    assert_eq!(rt; reply.refused, refused);
    Ok(())
}

// Whatever is listed, these query lines are refused.
pub(crate) fn refuses_query_lines<F: Fn(Global, &[u8]) -> Result<Reply, AllocError>>(
    rt: &impl Abort,
    heap: Global,
    reply_to: &F,
) -> Result<(), Fail>
    requires { F.IsAlwaysCallable reply_to.now }
{
    let k = worked_bundle();
    let text = b"refused 14 query 0 -\n";
    answers(rt, heap, reply_to, b"2 3\n", k, text, true)?;
    answers(rt, heap, reply_to, b" 3 .\n", k, text, true)?;
    answers(rt, heap, reply_to, b"2222 3 .\n", k, text, true)?;
    answers(rt, heap, reply_to, b"2 333 .\n", k, text, true)?;
    answers(rt, heap, reply_to, b"2 x .\n", k, text, true)?;
    answers(rt, heap, reply_to, b"2 3 .", b"", text, true)
}

// Whatever is listed, a bundle that is not whole, or changed at one byte, is refused.
pub(crate) fn refuses_bundles<F: Fn(Global, &[u8]) -> Result<Reply, AllocError>>(
    rt: &impl Abort,
    heap: Global,
    reply_to: &F,
) -> Result<(), Fail>
    requires { F.IsAlwaysCallable reply_to.now }
{
    let k = worked_bundle();
    let line = b"2 3 .\n";
    let short = b"refused 9 bundle 0 -\n";
    answers(rt, heap, reply_to, line, &k[0..7], short, true)?;
    answers(rt, heap, reply_to, line, &k[0..55], short, true)?;
    let mut other = *k;
    other[1] = 3;
    let text = b"refused 11 bundle 0 0003\n";
    answers(rt, heap, reply_to, line, &other, text, true)?;
    let mut late = *k;
    late[11] = 0xAB;
    let text = b"refused 6 bundle 8 000000AB\n";
    answers(rt, heap, reply_to, line, &late, text, true)?;
    let mut odd = *k;
    odd[34] = 0xFF;
    let text = b"refused 12 bundle 34 FF14\n";
    answers(rt, heap, reply_to, line, &odd, text, true)?;
    let mut many = *k;
    many[4] = 1;
    let text = b"refused 5 bundle 0 -\n";
    answers(rt, heap, reply_to, line, &many, text, true)
}

// Whatever is listed, 32,768 bytes are read and one more is refused.
pub(crate) fn refuses_too_much<F: Fn(Global, &[u8]) -> Result<Reply, AllocError>>(
    rt: &impl Abort,
    heap: Global,
    reply_to: &F,
) -> Result<(), Fail>
    requires { F.IsAlwaysCallable reply_to.now }
{
    let mut input = vec![in heap; b'1'; 32_769]?;
    let reply = reply_to(heap, &input)?;
    assert!(rt; reply.text.as_slice() == b"refused 15 query 0 -\n".as_slice());
    input.truncate(32_768);
    let most = reply_to(heap, &input)?;
    assert!(rt; most.text.as_slice() == b"refused 14 query 0 -\n".as_slice());
    Ok(())
}
