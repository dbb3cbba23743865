//! The replies that a broker gives to some frames when it has handled the first so many of others: those of a broker that
//! handled no more, and keeps nothing.

use crate::tests::lives::{Frames, Round};
use kept_starts::{Node, Role};
use sample_brokers::exchanges::{Exchange, POSITION, PRODUCER_ID};
use sample_brokers::small::{new_node, request_in};
use segment::BatchStore;
use std::alloc::{AllocError, Allocator};

/// The frames that a broker is asked first after a start: Export, of each partition that a table's rounds change.
static IMAGES: [&[u8]; 3] = [
    b"\0\0\0\x11N\"\0\0\0\0\0\x07\xff\xff\0\x01t\0\0\0\0",
    b"\0\0\0\x11N\"\0\0\0\0\0\x07\xff\xff\0\x01u\0\0\0\0",
    b"\0\0\0\x22N\"\0\0\0\0\0\x07\xff\xff\0\x12__consumer_offsets\0\0\0\0",
];

/// What it is asked then: the offset that a group committed, and a producer id. This alone changes the broker.
static OTHERS: [Exchange; 2] = [POSITION, PRODUCER_ID];

/// How many of them change the broker.
pub(crate) const ASKED_CHANGES: u64 = 1;

/// How often a broker is asked.
const TIMES: u64 = 4;

/// What is asked, and the replies to it.
#[derive(Drop)]
pub(crate) struct Known<A: Allocator + Copy> {
    /// The bytes of the frames.
    asked: Vec<u8, A>,
    /// The replies to them, each time that they are asked, behind each number of frames that were handled.
    replies: Vec<Vec<u8, A>, A>,
}

/// Handles a frame.
fn handle<S: BatchStore, B: Allocator + Copy>(
    node: &mut Node<S>,
    frame: &'static [u8],
    out: &mut Vec<u8, B>,
) -> Result<(), AllocError> {
    match request_in(frame) {
        Some(request) => {
            node.handle(&request, out)?;
            Ok(())
        }
        None => Ok(()),
    }
}

/// Handles the frames of a round that may change a broker, at most so many; gives how many are left to be handled.
fn handle_round<S: BatchStore, B: Allocator + Copy>(
    node: &mut Node<S>,
    round: &Round,
    most: u64,
    out: &mut Vec<u8, B>,
) -> Result<u64, AllocError> {
    let mut left = most;
    for exchange in round.exchanges {
        if exchange.changes && left > 0 {
            handle(node, exchange.request, out)?;
            left -= 1;
        }
    }
    Ok(left)
}

/// Handles the first so many frames of a table's rounds that may change a broker.
fn handle_first<S: BatchStore, B: Allocator + Copy>(
    node: &mut Node<S>,
    rounds: &[Round],
    count: u64,
    out: &mut Vec<u8, B>,
) -> Result<(), AllocError> {
    let mut left = count;
    for round in rounds {
        left = handle_round(node, round, left, out)?;
    }
    Ok(())
}

/// Asks a broker for images.
fn ask_images<S: BatchStore, B: Allocator + Copy>(
    node: &mut Node<S>,
    out: &mut Vec<u8, B>,
) -> Result<(), AllocError> {
    for frame in &IMAGES {
        handle(node, *frame, out)?;
    }
    Ok(())
}

/// Asks a broker once.
fn ask<S: BatchStore, B: Allocator + Copy>(
    node: &mut Node<S>,
    out: &mut Vec<u8, B>,
) -> Result<(), AllocError> {
    ask_images(node, out)?;
    for other in &OTHERS {
        handle(node, other.request, out)?;
    }
    Ok(())
}

/// Asks a broker again and again, and appends the replies of each time.
fn put_replies<S: BatchStore, B: Allocator + Copy>(
    alloc: B,
    node: &mut Node<S>,
    replies: &mut Vec<Vec<u8, B>, B>,
) -> Result<(), AllocError> {
    for _ in 0..TIMES {
        let mut out = Vec::new(alloc);
        ask(node, &mut out)?;
        replies.push(out)?;
    }
    Ok(())
}

/// Appends the replies behind the first so many frames.
fn put_known<S: BatchStore>(
    alloc: S::Alloc,
    rounds: &[Round],
    count: u64,
    replies: &mut Vec<Vec<u8, S::Alloc>, S::Alloc>,
) -> Result<(), AllocError> {
    match new_node::<S>(alloc, Role::Leader) {
        Some(mut node) => {
            let mut out = Vec::new(alloc);
            let handled = handle_first(&mut node, rounds, count, &mut out);
            let put = put_replies(alloc, &mut node, replies);
            handled.and(put)
        }
        None => Err(AllocError),
    }
}

/// The bytes of all that is asked.
fn asked_of<B: Allocator + Copy>(alloc: B) -> Result<Vec<u8, B>, AllocError> {
    let mut asked = Vec::new(alloc);
    for frame in &IMAGES {
        asked.extend_from_slice(*frame)?;
    }
    for other in &OTHERS {
        asked.extend_from_slice(other.request)?;
    }
    Ok(asked)
}

/// The replies behind up to so many frames of a table's rounds.
pub(crate) fn known_of<S: BatchStore>(
    alloc: S::Alloc,
    rounds: &[Round],
    most: u64,
) -> Result<Known<S::Alloc>, AllocError> {
    let asked = asked_of(alloc)?;
    let mut replies = Vec::new(alloc);
    for count in 0..=most {
        put_known::<S>(alloc, rounds, count, &mut replies)?;
    }
    Ok(Known { asked, replies })
}

impl<A: Allocator + Copy> Known<A> {
    /// What is asked behind the first so many frames, where it was asked so often before, and the replies.
    pub(crate) fn frames(&self, handled: u64, times: u64) -> Option<Frames<'_>> {
        let index = handled.checked_mul(TIMES)?.checked_add(times)?;
        let replies = self.replies.get(index as usize)?;
        Some(Frames {
            bytes: &self.asked,
            count: (IMAGES.len() + OTHERS.len()) as u64,
            changes: ASKED_CHANGES,
            noted: PRODUCER_ID.request.len(),
            replies,
        })
    }
}
