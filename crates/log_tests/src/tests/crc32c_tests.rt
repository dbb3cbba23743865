//! `crc32c` on the vectors of RFC 3720, appendix B.4, and the usual one of a CRC, the digits 1 to 9; and
//! `Crc32c` on the same bytes in two parts.

use checksum::{Crc32c, crc32c};

/// Bytes and their checksum.
static CHECKSUMS: [(&str, &[u8], u32); 6] = [
    ("no bytes", &[], 0),
    ("the digits", b"123456789", 0xe306_9283),
    ("32 bytes of zeros", &[0; 32], 0x8a91_36aa),
    ("32 bytes of ones", &[0xff; 32], 0x62a8_ab43),
    (
        "32 rising bytes",
        &[
            0, 1, 2, 3, 4, 5, 6, 7, 8, 9, 10, 11, 12, 13, 14, 15, 16, 17, 18, 19, 20, 21, 22, 23,
            24, 25, 26, 27, 28, 29, 30, 31,
        ],
        0x46dd_794e,
    ),
    (
        "an iSCSI read command",
        &[
            0x01, 0xc0, 0, 0, 0, 0, 0, 0, 0, 0, 0, 0, 0, 0, 0, 0, 0x14, 0, 0, 0, 0, 0, 0x04, 0, 0,
            0, 0, 0x14, 0, 0, 0, 0x18, 0x28, 0, 0, 0, 0, 0, 0, 0, 0x02, 0, 0, 0, 0, 0, 0, 0,
        ],
        0xd996_3a56,
    ),
];

#[test]
fn published_checksums(rt: HostRuntime) {
    for (name, bytes, wanted) in &CHECKSUMS {
        assert_eq!(rt; crc32c(bytes), *wanted, "{name}");
    }
}

/// Whether the bytes of both parts come to what they should, and each part to its own crc, whichever
/// part is fed for its own crc too.
fn are_summed(front: &[u8], back: &[u8], wanted: u32) -> bool {
    let mut front_first = Crc32c::new();
    let own_front = front_first.feed_both(front);
    front_first.feed(back);
    let mut back_last = Crc32c::new();
    back_last.feed(front);
    let own_back = back_last.feed_both(back);
    own_front == crc32c(front)
        && own_back == crc32c(back)
        && front_first.value() == wanted
        && back_last.value() == wanted
}

#[test]
fn checksums_of_two_parts(rt: HostRuntime) {
    for (name, bytes, wanted) in &CHECKSUMS {
        for cut in 0..bytes.len() + 1 {
            let (front, back) = bytes.split_at(cut);
            assert!(rt; are_summed(front, back, *wanted), "{name}, cut at {cut}");
        }
    }
}
