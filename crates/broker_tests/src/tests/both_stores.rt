//! One script on a cluster that keeps each batch in memory of its own, and on one that keeps them in segments: both print
//! the same.
use script_replay::replay;
use segment::{BatchStore, SegStore, VecStore};
use std::alloc::{AllocError, Allocator};
use std::test::Fail;
use streams::{Sink, Source};

/// How many batches there are. With values of over 200 bytes they take more than one segment.
const COUNT: u32 = 300;

/// What each value begins with.
const VALUE: &str =
    "aaaaaaaaaaaaaaaaaaaaaaaaaaaaaaaaaaaaaaaaaaaaaaaaaaaaaaaaaaaaaaaaaaaaaaaaaaaaaaaaaaaaaaaaaaaaaaaaaaaabbbbbbbbbbbbbbbbbbbbbbbbbbbbbbbbbbbbbbbbbbbbbbbbbbbbbbbbbbbbbbbbbbbbbbbbbbbbbbbbbbbbbbbbbbbbbbbbbbbb";

/// What happens to the copies once the second one has all batches.
const EVENTS: &[u8] =
    b"table 1\ncover 1\nsend 1\nclean 0 250 0\ntable 0\nsend 0\nmerge 2 1\ntable 2\ncover 2\n\
merge 1 1\ntable 1\nclean 1 300 300\ntable 1\ntrim 0 150\ncover 0\nsend 0\nmerge 2 2\ntable 2\ncover 2\ntrim 2 200\n\
cover 2\nproduce-as 1 0 0 key1=last\ndeliver 2 300\ntable 2\n";

/// The odd numbers, and then the even ones.
fn odd_first(number: u32) -> u32 {
    let half = COUNT / 2;
    if number < half {
        number.saturating_mul(2).saturating_add(1)
    } else {
        number.saturating_sub(half).saturating_mul(2)
    }
}

/// Appends the lines that append batches, and deliver them in another order.
fn put_batches<A: Allocator + Copy>(alloc: A, script: &mut Vec<u8, A>) -> Result<(), AllocError> {
    for number in 0..COUNT {
        let key = number % 50;
        let line = format!(in alloc; "produce key{key}={VALUE}{number}\n")?;
        script.extend_from_slice(line.as_bytes())?;
    }
    for number in 0..COUNT {
        let batch = odd_first(number);
        let line = format!(in alloc; "deliver 1 {batch}\n")?;
        script.extend_from_slice(line.as_bytes())?;
    }
    Ok(())
}

/// What a script prints; `None` where it stops.
fn printed<S: BatchStore>(alloc: S::Alloc, script: &[u8]) -> Option<Vec<u8, S::Alloc>> {
    let mut source = Source::new(script);
    let mut sink = Sink::new(Vec::new(alloc));
    match replay::<S, _, _>(alloc, &mut source, &mut sink) {
        Ok(()) => Some(sink.into_inner()),
        Err(_) => None,
    }
}

/// How many bytes a script prints with either store; `None` where they differ.
fn printed_by_both<A: Allocator + Copy>(alloc: A, script: &[u8]) -> Option<usize> {
    let plain = printed::<VecStore<A>>(alloc, script)?;
    let bytes = printed::<SegStore<A>>(alloc, script)?;
    if plain == bytes {
        Some(bytes.len())
    } else {
        None
    }
}

#[test]
fn both_stores_print_the_same(rt: HostRuntime) -> Result<(), Fail> {
    let mut script = Vec::from_slice(rt.alloc(), b"copies 3\n")?;
    put_batches(rt.alloc(), &mut script)?;
    script.extend_from_slice(EVENTS)?;
    let len = printed_by_both(rt.alloc(), &script);
    // A table of 50 keys has over 10,000 bytes.
    assert!(rt; len.is_some_and(|len| 50_000 < len), "{len:?}");
    Ok(())
}
