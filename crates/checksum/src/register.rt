//! A register that bytes are fed to in parts.

ghost use Rattle.std.specs.Prelude.{◌≡◌, bit_xor};
ghost use Rattle.std.specs.List.{fold};
ghost use Rattle.checksum.specs.Crc.{all_ones, crc_of, feed_bytes};

use crate::crc::{ALL_ONES, feed_bytes, feed_end, look_up_first_four, look_up_last_twelve};
use std::marker::Model;

/// The CRC-32C of bytes that come in parts. It is seen as its register.
///
/// ```
/// let mut crc = Crc32c::new();
/// crc.feed(b"1234");
/// crc.feed(b"56789");
/// crc.value() == 0xe306_9283
/// ```
#[derive(Drop)]
pub struct Crc32c {
    register: u32,
}

impl Model for Crc32c {
    ghost use Rattle.std.specs.Prelude.{ℕ};

    ghost Value = { ℕ };

    ghost view = { λ crc. crc.register };
}

/// Two registers after the same sixteen bytes more. All but the first four are looked up once.
#[inline]
#[tactic(auto, using(crate::proofs::CrcWords::feed_sixteen))]
fn feed_sixteen_to_both(own: u32, all: u32, first: &[u8; 8], last: &[u8; 8]) -> (u32, u32)
    ensures own { result.0 ≡ feed_bytes (feed_bytes own first.now) last.now }
    ensures all { result.1 ≡ feed_bytes (feed_bytes all first.now) last.now }
{
    let first = u64::from_le_bytes(*first);
    let twelve = look_up_last_twelve(first, u64::from_le_bytes(*last));
    let own = twelve ^ look_up_first_four(own, first);
    let all = twelve ^ look_up_first_four(all, first);
    (own, all)
}

/// Two registers after both blocks of a pair.
#[inline]
fn feed_pair_to_both(own: u32, all: u32, pair: &[[u8; 8]; 2]) -> (u32, u32)
    ensures own { result.0 ≡ fold feed_bytes own pair.now }
    ensures all { result.1 ≡ fold feed_bytes all pair.now }
{
    let [first, last] = pair;
    feed_sixteen_to_both(own, all, first, last)
}

/// Two registers after the same pairs of blocks more.
fn feed_pairs_to_both(mut own: u32, mut all: u32, pairs: &[[[u8; 8]; 2]]) -> (u32, u32)
    ensures own { result.0 ≡ fold (fold feed_bytes) own pairs.now }
    ensures all { result.1 ≡ fold (fold feed_bytes) all pairs.now }
{
    for pair in pairs {
        (own, all) = feed_pair_to_both(own, all, pair);
    }
    (own, all)
}

/// Two registers after the same bytes more.
#[tactic(auto, using(crate::proofs::CrcWords::fed_by_blocks))]
fn feed_both(own: u32, all: u32, bytes: &[u8]) -> (u32, u32)
    ensures own { result.0 ≡ feed_bytes own bytes.now }
    ensures all { result.1 ≡ feed_bytes all bytes.now }
{
    let (blocks, rest) = bytes.as_chunks::<8>();
    let (pairs, odd) = blocks.as_chunks::<2>();
    let (own, all) = feed_pairs_to_both(own, all, pairs);
    (feed_end(own, odd, rest), feed_end(all, odd, rest))
}

impl Crc32c {
    /// Of no bytes yet.
    pub fn new() -> Crc32c
        ensures { result ≡ all_ones }
    {
        Crc32c { register: ALL_ONES }
    }

    /// Takes in the next bytes.
    pub fn feed(&mut self, bytes: &[u8])
        ensures { self.new ≡ feed_bytes self.old bytes.now }
    {
        self.register = feed_bytes(self.register, bytes);
    }

    /// Takes in the next bytes, and answers the CRC-32C of these alone. The bytes are read once.
    #[tactic(auto, unfolding(crate::specs::Crc::crc_of))]
    pub fn feed_both(&mut self, bytes: &[u8]) -> u32
        ensures feeds { self.new ≡ feed_bytes self.old bytes.now }
        ensures own { result ≡ crc_of bytes.now }
    {
        let (own, all) = feed_both(ALL_ONES, self.register, bytes);
        self.register = all;
        own ^ ALL_ONES
    }

    /// The CRC-32C of all bytes so far.
    pub fn value(&self) -> u32
        ensures { result ≡ bit_xor self.now all_ones }
    {
        self.register ^ ALL_ONES
    }
}
