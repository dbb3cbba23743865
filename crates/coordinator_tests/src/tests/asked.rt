//! What is asked of both, in small values, and the bytes that say it.

use std::alloc::{AllocError, Allocator};

/// The names of groups. The fourth one is none.
pub(super) const GROUPS: [&[u8]; 5] = [b"readers", b"writers", b"g", b"", b"heavy"];

/// The kinds of groups. The first one is none.
pub(super) const KINDS: [&[u8]; 3] = [b"", b"consumer", b"connect"];

/// What clients call themselves. No topic may have one of the last two.
pub(super) const CLIENTS: [&[u8]; 4] = [b"rdkafka", b"consumer-python.2", b"", b"a b"];

/// The names of protocols.
pub(super) const PROTOCOLS: [&[u8]; 4] = [b"range", b"roundrobin", b"r", b""];

/// The number of this start, which stands in each id.
pub(super) const START: u64 = 0xfedc_ba98_0765_4321;

/// The id of a member: whose it is, 2 of each client that no topic is named as, and by which number it joined.
#[derive(Clone, Copy, PartialEq)]
pub(super) struct Id {
    pub(super) client: usize,
    pub(super) number: u64,
}

/// An id that nobody gets.
pub(super) const STRANGER: Id = Id {
    client: 0,
    number: 0xffff_ffff,
};

/// A protocol: its name, as an index, and where its metadata begins in the pool, and how long it is.
#[derive(Clone, Copy, PartialEq)]
pub(super) struct Protocol {
    pub(super) name: usize,
    pub(super) metadata: Piece,
}

/// Bytes of the pool.
#[derive(Clone, Copy, PartialEq)]
pub(super) struct Piece {
    pub(super) start: usize,
    pub(super) len: usize,
}

/// No bytes.
pub(super) const NOTHING: Piece = Piece { start: 0, len: 0 };

/// A part for an id, or for the empty one.
#[derive(Clone, Copy)]
pub(super) struct Given {
    pub(super) id: Option<Id>,
    pub(super) part: Piece,
}

/// So many protocols with so much metadata leave some 6 KB for all others.
pub(super) const FILLING: usize = 16_111;

/// The metadata of each of them.
pub(super) const FILLER: Piece = Piece {
    start: 0,
    len: 3_968,
};

/// The bytes of which metadata and parts are pieces.
pub(super) fn pool<A: Allocator + Copy>(alloc: A) -> Result<Vec<u8, A>, AllocError> {
    let mut pool = Vec::new(alloc);
    for _block in 0..16 {
        for byte in 0..=255u8 {
            pool.push(byte)?;
        }
    }
    pool.push(0)?;
    Ok(pool)
}

/// The protocols that leave little room.
pub(super) fn filling<A: Allocator + Copy>(alloc: A) -> Result<Vec<Protocol, A>, AllocError> {
    let mut protocols = Vec::new(alloc);
    for _protocol in 0..FILLING {
        protocols.push(Protocol {
            name: 0,
            metadata: FILLER,
        })?;
    }
    Ok(protocols)
}

/// A request to join.
#[derive(Clone, Copy)]
pub(super) struct Joining<'a> {
    pub(super) group: usize,
    pub(super) session: i32,
    pub(super) rebalance: i32,
    pub(super) member: Option<Id>,
    pub(super) kind: usize,
    pub(super) protocols: &'a [Protocol],
}

/// The name of a group.
pub(super) fn group_name(group: usize) -> &'static [u8] {
    match GROUPS.get(group) {
        Some(name) => *name,
        None => b"other",
    }
}

/// The name of a kind.
pub(super) fn kind_name(kind: usize) -> &'static [u8] {
    match KINDS.get(kind) {
        Some(name) => *name,
        None => b"other",
    }
}

/// What a client calls itself.
pub(super) fn client_name(client: usize) -> &'static [u8] {
    match CLIENTS.get(client) {
        Some(name) => *name,
        None => b"other",
    }
}

/// The name of a protocol.
pub(super) fn protocol_name(protocol: usize) -> &'static [u8] {
    match PROTOCOLS.get(protocol) {
        Some(name) => *name,
        None => b"other",
    }
}

/// The id of a member of a client, which joined by this number.
pub(super) fn id_of(client: usize, number: u64) -> Id {
    Id {
        client: client.min(2),
        number,
    }
}

/// A number as a request has it; the greatest that it may have where this is greater.
pub(super) fn signed(number: u64) -> i32 {
    match i32::try_from(number) {
        Ok(number) => number,
        Err(_) => i32::MAX,
    }
}

/// What stands for a client in an id.
pub(super) fn known_name(client: usize) -> &'static [u8] {
    if client < 2 {
        client_name(client)
    } else {
        b"member"
    }
}

/// The bytes of the pool that a piece is; none where they aren't all there.
pub(super) fn bytes_of(pool: &[u8], piece: Piece) -> &[u8] {
    match pool.get(piece.start..piece.start.saturating_add(piece.len)) {
        Some(bytes) => bytes,
        None => b"",
    }
}

/// A digit of base 16.
fn digit(value: u64) -> u8 {
    match b"0123456789abcdef".get((value % 16) as usize) {
        Some(digit) => *digit,
        None => b'0',
    }
}

/// A number in 16 digits of base 16.
fn put_hex<A: Allocator + Copy>(out: &mut Vec<u8, A>, number: u64) -> Result<(), AllocError> {
    let mut shift = 64u32;
    for _digit in 0..16 {
        shift = shift.saturating_sub(4);
        out.push(digit(number.wrapping_shr(shift)))?;
    }
    Ok(())
}

/// The bytes of an id; none of no id.
pub(super) fn id_bytes<A: Allocator + Copy>(
    alloc: A,
    id: Option<Id>,
) -> Result<Vec<u8, A>, AllocError> {
    let mut out = Vec::new(alloc);
    if let Some(id) = id {
        out.extend_from_slice(known_name(id.client))?;
        out.push(b'-')?;
        put_hex(&mut out, START)?;
        out.push(b'-')?;
        put_hex(&mut out, id.number)?;
    }
    Ok(out)
}
