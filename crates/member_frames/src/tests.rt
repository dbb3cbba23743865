//! Frames of members as clients send them, and the responses to them, byte by byte: their fields by
//! Kafka's documentation, "Protocol Guide".

use crate::{
    JoinedHead, JoinedMember, MemberApi, MemberBody, MemberRequest, MembersInARow, parse_member,
    refuse_join, reply_to_join, reply_to_sync, reply_with_code, told_ranges,
};
use frame_fields::FrameError;
use std::alloc::{AllocError, Allocator};
use std::test::Fail;

/// Of the client `c`, correlation id 5: group `g`, session timeout 10 s, rebalance timeout 5 min,
/// no id, kind `consumer`, the protocols `range` with the metadata 1, 2, 3 and `sticky` with none.
fn join_2() -> &'static [u8] {
    b"\0\x0b\0\x02\0\0\0\x05\0\x01c\0\x01g\0\0\x27\x10\0\x04\x93\xe0\0\0\0\x08consumer\0\0\0\x02\0\x05range\0\0\0\x03\x01\x02\x03\0\x06sticky\0\0\0\0"
}

/// The same in version 1.
fn join_1() -> &'static [u8] {
    b"\0\x0b\0\x01\0\0\0\x05\0\x01c\0\x01g\0\0\x27\x10\0\x04\x93\xe0\0\0\0\x08consumer\0\0\0\x02\0\x05range\0\0\0\x03\x01\x02\x03\0\x06sticky\0\0\0\0"
}

/// The same in version 0, with the id `m` and no protocol.
fn join_0() -> &'static [u8] {
    b"\0\x0b\0\0\0\0\0\x05\0\x01c\0\x01g\0\0\x27\x10\0\x01m\0\x08consumer\0\0\0\0"
}

/// Of no client, correlation id 6: the leader `a` of generation 3 gives `a` the part 9 and `b`
/// none.
fn sync_1() -> &'static [u8] {
    b"\0\x0e\0\x01\0\0\0\x06\xff\xff\0\x01g\0\0\0\x03\0\x01a\0\0\0\x02\0\x01a\0\0\0\x01\x09\0\x01b\0\0\0\0"
}

/// Correlation id 7: `m` of generation 258.
fn heartbeat_0() -> &'static [u8] {
    b"\0\x0c\0\0\0\0\0\x07\0\0\0\x01g\0\0\x01\x02\0\x01m"
}

/// Correlation id 8: `m`.
fn leave_1() -> &'static [u8] {
    b"\0\x0d\0\x01\0\0\0\x08\0\0\0\x01g\0\x01m"
}

/// Session and rebalance timeout, the number of the protocols, and the bytes of all their metadata.
fn join_numbers(request: MemberRequest<'_>) -> Option<(i32, i32, u32, usize)> {
    match request.body {
        MemberBody::JoinGroup(join) => {
            let count = join.protocols.len();
            let mut bytes: usize = 0;
            for protocol in join.protocols {
                bytes = bytes.saturating_add(protocol.metadata.len());
            }
            Some((join.session, join.rebalance, count, bytes))
        }
        _ => None,
    }
}

/// The generation, the number of the parts, and their bytes.
fn sync_numbers(request: MemberRequest<'_>) -> Option<(i32, u32, usize)> {
    match request.body {
        MemberBody::SyncGroup(sync) => {
            let count = sync.parts.len();
            let mut bytes: usize = 0;
            for part in sync.parts {
                bytes = bytes.saturating_add(part.part.len());
            }
            Some((sync.generation, count, bytes))
        }
        _ => None,
    }
}

/// Whether the request is one of this group and member, in any of the four kinds.
fn is_of(body: &MemberBody<'_>, group: &[u8], member: &[u8]) -> bool {
    match body {
        MemberBody::JoinGroup(join) => join.group == group && join.member == member,
        MemberBody::SyncGroup(sync) => sync.group == group && sync.member == member,
        MemberBody::Heartbeat(beat) => beat.group == group && beat.member == member,
        MemberBody::LeaveGroup(leave) => leave.group == group && leave.member == member,
    }
}

/// Key, version and correlation id, of a request of this client, group and member.
fn header_of(frame: &[u8], client: &[u8], group: &[u8], member: &[u8]) -> Option<(i16, i16, i32)> {
    let Ok(request) = parse_member(frame) else {
        return None;
    };
    if request.client == client && is_of(&request.body, group, member) {
        Some((
            request.api.key(),
            request.api.version(),
            request.correlation,
        ))
    } else {
        None
    }
}

#[test]
fn requests_are_read(rt: HostRuntime) {
    assert_eq!(rt; header_of(join_2(), b"c", b"g", b""), Some((11, 2, 5)));
    assert_eq!(rt; header_of(join_0(), b"c", b"g", b"m"), Some((11, 0, 5)));
    assert_eq!(rt; header_of(sync_1(), b"", b"g", b"a"), Some((14, 1, 6)));
    assert_eq!(rt; header_of(heartbeat_0(), b"", b"g", b"m"), Some((12, 0, 7)));
    assert_eq!(rt; header_of(leave_1(), b"", b"g", b"m"), Some((13, 1, 8)));
}

/// What a frame that is a JoinGroup says, in numbers.
fn join_of(frame: &[u8]) -> Option<(i32, i32, u32, usize)> {
    match parse_member(frame) {
        Ok(request) => join_numbers(request),
        Err(_) => None,
    }
}

/// What a frame that is a SyncGroup says, in numbers.
fn sync_of(frame: &[u8]) -> Option<(i32, u32, usize)> {
    match parse_member(frame) {
        Ok(request) => sync_numbers(request),
        Err(_) => None,
    }
}

#[test]
fn numbers_and_lists_are_read(rt: HostRuntime) {
    assert_eq!(rt; join_of(join_2()), Some((10_000, 300_000, 2, 3)));
    assert_eq!(rt; join_of(join_1()), Some((10_000, 300_000, 2, 3)));
    assert_eq!(rt; join_of(join_0()), Some((10_000, 10_000, 0, 0)));
    assert_eq!(rt; sync_of(sync_1()), Some((3, 2, 1)));
}

/// The name of a refusal, empty where the frame is read.
fn refusal_of(frame: &[u8]) -> &'static str {
    match parse_member(frame) {
        Ok(_) => "",
        Err(FrameError::ShortHeader) => "ShortHeader",
        Err(FrameError::UnknownApi) => "UnknownApi",
        Err(FrameError::BadVersion) => "BadVersion",
        Err(FrameError::ShortBody) => "ShortBody",
        Err(FrameError::Malformed) => "Malformed",
        Err(FrameError::TrailingBytes) => "TrailingBytes",
        Err(_) => "another",
    }
}

#[test]
fn faults_are_told_in_their_order(rt: HostRuntime) {
    assert_eq!(rt; refusal_of(b"\0\x0c\0\x09\0\0\0"), "ShortHeader");
    assert_eq!(rt; refusal_of(b"\0\x12\0\0\0\0\0\x01\0\0"), "UnknownApi");
    assert_eq!(rt; refusal_of(b"\0\x0b\0\x03\0\0\0\x01"), "BadVersion");
    assert_eq!(rt; refusal_of(b"\0\x0c\0\x02\0\0\0\x01"), "BadVersion");
    assert_eq!(rt; refusal_of(b"\0\x0c\xff\xff\0\0\0\x01"), "BadVersion");
    assert_eq!(rt; refusal_of(b"\0\x0c\0\0\0\0\0\x01"), "ShortBody");
    assert_eq!(rt;
        refusal_of(b"\0\x0c\0\0\0\0\0\x01\xff\xff\0\x02g"),
        "ShortBody"
    );
    assert_eq!(rt;
        refusal_of(b"\0\x0c\0\0\0\0\0\x01\xff\xff\xff\xff"),
        "Malformed"
    );
    assert_eq!(rt;
        refusal_of(b"\0\x0d\0\0\0\0\0\x01\xff\xff\0\0\0\0\0"),
        "TrailingBytes"
    );
}

/// A generation of two, as its leader `a` is told of it.
fn put_join<A: Allocator + Copy>(out: &mut Vec<u8, A>) -> Result<(), AllocError> {
    let head = JoinedHead {
        code: 0,
        generation: 3,
        protocol: b"range",
        leader: b"a",
        member: b"c",
    };
    let members = [
        JoinedMember {
            id: b"a",
            metadata: b"\x01",
        },
        JoinedMember {
            id: b"b",
            metadata: b"",
        },
    ];
    let row = MembersInARow { members: &members };
    reply_to_join(MemberApi::JoinGroup1, 5, head, &row, out)
}

#[test]
fn replies_are_written(rt: HostRuntime) -> Result<(), Fail> {
    let mut out = Vec::new(rt.alloc());
    reply_with_code(MemberApi::Heartbeat0, 7, 27, &mut out)?;
    assert_eq!(rt; out.as_slice(), b"\0\0\0\x06\0\0\0\x07\0\x1b".as_slice());
    out.clear();
    reply_with_code(MemberApi::LeaveGroup1, 8, 0, &mut out)?;
    assert_eq!(rt;
        out.as_slice(),
        b"\0\0\0\x0a\0\0\0\x08\0\0\0\0\0\0".as_slice()
    );
    out.clear();
    reply_to_sync(MemberApi::SyncGroup1, 6, 0, b"\x09", &mut out)?;
    assert_eq!(rt;
        out.as_slice(),
        b"\0\0\0\x0f\0\0\0\x06\0\0\0\0\0\0\0\0\0\x01\x09".as_slice()
    );
    Ok(())
}

#[test]
fn joins_are_replied(rt: HostRuntime) -> Result<(), Fail> {
    let mut out = Vec::new(rt.alloc());
    refuse_join(MemberApi::JoinGroup2, 5, 25, &mut out)?;
    assert_eq!(rt;
        out.as_slice(),
        b"\0\0\0\x18\0\0\0\x05\0\0\0\0\0\x19\xff\xff\xff\xff\0\0\0\0\0\0\0\0\0\0".as_slice()
    );
    out.clear();
    put_join(&mut out)?;
    assert_eq!(rt;
        out.as_slice(),
        b"\0\0\0\x2a\0\0\0\x05\0\0\0\0\0\x03\0\x05range\0\x01a\0\x01c\0\0\0\x02\0\x01a\0\0\0\x01\x01\0\x01b\0\0\0\0".as_slice()
    );
    Ok(())
}

#[test]
fn clients_are_told_of_join_group(rt: HostRuntime) {
    let ranges = told_ranges();
    let row = ranges[7];
    assert_eq!(rt; (row.key, row.least, row.greatest), (11, 0, 2));
}
