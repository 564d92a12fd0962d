//! Links in memory, call by call.

use ante_links::{Accept, LinkId, LinkRead, LinkWrite, Links, MemLink, MemLinks, READ_ROOM};
use std::collections::VecDeque;
use std::test::Fail;

#[test]
fn a_link_comes_after_a_wait_and_reads_in_pieces(rt: HostRuntime) -> Result<(), Fail> {
    let input = Vec::from_slice(rt.alloc(), b"GET /v1 ")?;
    let link = MemLink::new(
        rt.alloc(),
        input,
        5,
        Vec::from_slice(rt.alloc(), &[3])?,
        Vec::from_slice(rt.alloc(), &[1])?,
        Vec::from_slice(rt.alloc(), &[0])?,
    );
    let mut coming = VecDeque::new(rt.alloc());
    coming.push_back(None)?;
    coming.push_back(Some(link))?;
    let mut links = MemLinks::new(rt.alloc(), coming, Vec::from_slice(rt.alloc(), &[1])?);
    assert!(rt; links.accept() == Accept::NotReady);
    assert!(rt; links.accept() == Accept::Failed);
    let Accept::New(id) = links.accept() else {
        panic!(rt; "no link")
    };
    assert!(rt; id == LinkId(0));
    let mut room = [0; READ_ROOM];
    assert!(rt; links.read(id, &mut room) == LinkRead::Bytes(5));
    assert!(rt; links.read(id, &mut room) == LinkRead::NotReady);
    assert!(rt; links.write(id, b"OK") == LinkWrite::NotReady);
    assert!(rt; links.write(id, b"OK") == LinkWrite::Failed);
    assert!(rt; links.write(id, b"OK") == LinkWrite::Wrote(2));
    assert!(rt; links.read(id, &mut room) == LinkRead::Bytes(3));
    assert!(rt; links.read(id, &mut room) == LinkRead::End);
    assert!(rt; links.accept() == Accept::NotReady);
    Ok(())
}
