//! Clients in this process open links over loopback, many at once, write in pieces, read their replies and close them.

ghost use Rattle.std.specs.Prelude.{◌≡◌, ◌<◌, ◌≤◌, IfOk, IfSome, length};

use ante_links::{Accept, Begun, LinkId, LinkRead, LinkWrite, Links, READ_ROOM, TcpLinks};
use std::alloc::Global;
use std::io::{self, Read, Write};
use std::net::{Ipv4Addr, Net, SocketAddr};
use std::test::Fail;
use std::time::Clock;

/// The ports that are tried.
const FIRST_PORT: u16 = 47_201;

/// What a client does is awaited for so many milliseconds at least, so that a busy machine is no fault.
const MOST_TRIES: u32 = 120_000;

/// So many links are open at once.
const AT_ONCE: u32 = 64;

/// What each client writes, in two pieces.
const INPUT: &[u8; 66] =
    b"GET /v1/chain/get_info HTTP/1.1\r\nhost: 127.0.0.1\r\nx-hundred: 1\r\n\r\n";

const REPLY: &[u8; 15] = b"HTTP/1.1 200 OK";

/// A piece of the input of the client of this number. Its first piece is longer by a byte than that of the client before.
fn piece_of(number: u32, is_second: bool) -> &'static [u8] {
    let (first, second) = INPUT.split_at(number as usize % 64 + 1);
    if is_second { second } else { first }
}

/// Begins to listen at the first port that is free.
fn listening<L: Links>(links: &mut L) -> Option<u16> {
    for port in FIRST_PORT..FIRST_PORT + 50 {
        if links.listen(port) == Begun::Listening {
            return Some(port);
        }
    }
    None
}

/// The next link.
fn accepted<L: Links>(links: &mut L) -> Option<LinkId>
    ensures { IfSome result (λ id. id.0 < length (L.links links.new)) }
{
    for _ in 0..MOST_TRIES {
        if let Accept::New(link) = links.accept() {
            return Some(link);
        }
    }
    None
}

/// One more client, and its link.
fn opened<R: Net + Clock, L: Links>(
    rt: &R,
    links: &mut L,
    address: SocketAddr,
    clients: &mut Vec<R::Stream>,
) -> Result<Option<LinkId>, Fail>
    ensures { IfOk result (λ link. IfSome link (λ id. id.0 < length (L.links links.new))) }
{
    clients.push(rt.connect(address)?)?;
    Ok(accepted(links))
}

/// The clients of a round, and the last of their links, which are numbered in a row.
fn open_all<R: Net + Clock, L: Links>(
    rt: &R,
    links: &mut L,
    address: SocketAddr,
    clients: &mut Vec<R::Stream>,
) -> Result<Option<u32>, Fail>
    ensures { IfOk result (λ last. IfSome last (λ id. (63 ≤ id) × (id < length (L.links links.new)))) }
{
    let Some(LinkId(mut last)) = opened(rt, links, address, clients)? else {
        return Ok(None);
    };
    for _ in 1..AT_ONCE {
        let Some(link) = opened(rt, links, address, clients)? else {
            return Ok(None);
        };
        if link.0.checked_sub(1) != Some(last) {
            return Ok(None);
        }
        last = link.0;
    }
    if last < AT_ONCE - 1 {
        return Ok(None);
    }
    Ok(Some(last))
}

/// One read of the link; where it waits, `accept` waits too.
fn tried<L: Links>(links: &mut L, link: LinkId, room: &mut [u8]) -> LinkRead
    requires given { link.0 < length (L.links links.old) }
    requires room { length room.old ≡ 65536 }
    ensures given { length (L.links links.old) ≤ length (L.links links.new) }
    ensures room { length room.new ≡ 65536 }
{
    let answer = links.read(link, room);
    if answer == LinkRead::NotReady {
        let _ = links.accept();
    }
    answer
}

/// What the link's next read gives that doesn't wait.
fn awaited<L: Links>(links: &mut L, link: LinkId, room: &mut [u8]) -> LinkRead
    requires given { link.0 < length (L.links links.old) }
    requires room { length room.old ≡ 65536 }
    ensures given { length (L.links links.old) ≤ length (L.links links.new) }
    ensures room { length room.new ≡ 65536 }
{
    for _ in 0..MOST_TRIES {
        let answer = tried(links, link, room);
        if answer != LinkRead::NotReady {
            return answer;
        }
    }
    LinkRead::NotReady
}

/// Whether a read of each link waits.
fn all_wait<L: Links>(links: &mut L, last: u32, room: &mut [u8]) -> bool
    requires given { (63 ≤ last) × (last < length (L.links links.old)) }
    requires room { length room.old ≡ 65536 }
    ensures given { last < length (L.links links.new) }
    ensures room { length room.new ≡ 65536 }
{
    for back in 0..AT_ONCE {
        if links.read(LinkId(last - back), room) != LinkRead::NotReady {
            return false;
        }
    }
    true
}

/// Whether each link, the last one first, gives the piece that its client has written.
fn all_give<L: Links>(links: &mut L, last: u32, is_second: bool, room: &mut [u8]) -> bool
    requires given { (63 ≤ last) × (last < length (L.links links.old)) }
    requires room { length room.old ≡ 65536 }
    ensures given { last < length (L.links links.new) }
    ensures room { length room.new ≡ 65536 }
{
    for back in 0..AT_ONCE {
        let piece = piece_of(AT_ONCE - 1 - back, is_second);
        let answer = awaited(links, LinkId(last - back), room);
        if answer != LinkRead::Bytes(piece.len()) || !room.starts_with(piece) {
            return false;
        }
    }
    true
}

/// Whether each link takes a reply.
fn all_take<L: Links>(links: &mut L, last: u32) -> bool
    requires { (63 ≤ last) × (last < length (L.links links.old)) }
    ensures { last < length (L.links links.new) }
{
    for back in 0..AT_ONCE {
        if links.write(LinkId(last - back), REPLY) != LinkWrite::Wrote(REPLY.len()) {
            return false;
        }
    }
    true
}

/// Whether the input of each link is over. They are closed.
fn all_end<L: Links>(links: &mut L, last: u32, room: &mut [u8]) -> bool
    requires given { (63 ≤ last) × (last < length (L.links links.old)) }
    requires room { length room.old ≡ 65536 }
    ensures { length room.new ≡ 65536 }
{
    for back in 0..AT_ONCE {
        let link = LinkId(last - back);
        if awaited(links, link, room) != LinkRead::End {
            return false;
        }
        links.close(link);
    }
    true
}

/// Each client writes a piece.
fn write_pieces<T: Write>(clients: &mut [T], is_second: bool) -> io::Result<()> {
    let mut number = 0;
    for client in clients {
        client.write_all(piece_of(number, is_second))?;
        number = number.wrapping_add(1);
    }
    Ok(())
}

/// Whether each client reads the reply.
fn read_replies<T: Read>(clients: &mut [T]) -> io::Result<bool> {
    for client in clients {
        let mut reply = [0; 15];
        client.read_exact(&mut reply)?;
        if &reply != REPLY {
            return Ok(false);
        }
    }
    Ok(true)
}

/// Whether a piece comes from each client, and not before it was written.
fn is_told<T: Write, L: Links>(
    clients: &mut [T],
    links: &mut L,
    last: u32,
    is_second: bool,
    room: &mut [u8],
) -> io::Result<bool>
    requires given { (63 ≤ last) × (last < length (L.links links.old)) }
    requires room { length room.old ≡ 65536 }
    ensures given { last < length (L.links links.new) }
    ensures room { length room.new ≡ 65536 }
{
    if !all_wait(links, last, room) {
        return Ok(false);
    }
    write_pieces(clients, is_second)?;
    Ok(all_give(links, last, is_second, room))
}

/// Opens as many links as are open at once, reads each in two pieces, writes a reply to each and closes them, and says whether all came as
/// it was sent.
fn is_served<R: Net + Clock, L: Links>(
    rt: &R,
    alloc: Global,
    links: &mut L,
    address: SocketAddr,
    room: &mut [u8],
) -> Result<bool, Fail>
    requires { length room.old ≡ 65536 }
    ensures { length room.new ≡ 65536 }
{
    let mut clients = Vec::new(alloc);
    let Some(last) = open_all(rt, links, address, &mut clients)? else {
        return Ok(false);
    };
    let ends = clients.as_mut_slice();
    if !is_told(ends, links, last, false, room)? || !is_told(ends, links, last, true, room)? {
        return Ok(false);
    }
    if !all_take(links, last) || !read_replies(ends)? {
        return Ok(false);
    }
    drop(clients);
    Ok(all_end(links, last, room))
}

#[test]
fn a_thousand_links_are_served_sixty_four_at_once(rt: HostRuntime) -> Result<(), Fail> {
    let mut links = TcpLinks::new(&rt, rt.alloc());
    let Some(port) = listening(&mut links) else {
        panic!(rt; "no port is free")
    };
    let address = SocketAddr::from((Ipv4Addr::LOCALHOST, port));
    let mut room = [0; READ_ROOM];
    for _ in 0..16 {
        assert!(rt; is_served(&rt, rt.alloc(), &mut links, address, &mut room)?);
    }
    Ok(())
}
