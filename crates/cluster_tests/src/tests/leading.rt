//! Copies that were read from an image, and then lead, or are handed back.

use crate::tests::copies::has_image;
use crate::tests::outside::{ALL_OFFSETS, ONE_OFFSET};
use batch_codec::view;
use copy_images::{read_image, write_image};
use partition_log::{AppendError, Appended, CleanReport, LeaderLog, PartitionLog};
use sample_batches::{A_IS_1, one, sent};
use segment::{BatchStore, ProgramStore};

/// Whether a log answers a batch so.
fn answers<S: BatchStore>(
    log: &mut LeaderLog<S>,
    bytes: &[u8],
    wanted: Result<Appended, AppendError>,
) -> bool {
    match view(bytes) {
        Ok(batch) => log.append(&batch) == wanted,
        Err(_) => false,
    }
}

/// Whether a log takes a batch as a new one at this offset.
fn takes<S: BatchStore>(log: &mut LeaderLog<S>, bytes: &[u8], base: i64) -> bool {
    let repeat = false;
    answers(log, bytes, Ok(Appended { base, repeat }))
}

/// Whether a log takes six batches, the first five of one producer.
fn takes_six<S: BatchStore>(log: &mut LeaderLog<S>) -> bool {
    let mut are_taken = true;
    for sequence in 0..5 {
        are_taken = are_taken && takes(log, &sent(7, 0, sequence), i64::from(sequence));
    }
    are_taken && takes(log, &one(9, 0, b'k', b'v'), 5)
}

/// Whether a cleaning of the six batches leaves the last one's record and all batches.
fn is_cleaned<S: BatchStore>(log: &mut LeaderLog<S>) -> bool {
    let wanted = CleanReport {
        records: 5,
        tombstones: 0,
        batches: 0,
    };
    match log.clean(6, 0) {
        Ok(report) => report == wanted,
        Err(_) => false,
    }
}

/// The image of a log that took the six batches and was cleaned; `None` where it did otherwise.
fn image_of_log<S: BatchStore>(
    alloc: S::Alloc,
    log: &mut LeaderLog<S>,
) -> Option<Vec<u8, S::Alloc>> {
    if takes_six(log) && is_cleaned(log) {
        write_image(alloc, log.copy()).ok()
    } else {
        None
    }
}

/// The same of a new log.
fn image_of_six<S: BatchStore>(alloc: S::Alloc) -> Option<Vec<u8, S::Alloc>> {
    match LeaderLog::from_copy(PartitionLog::<S>::new(alloc)) {
        Ok(mut log) => image_of_log(alloc, &mut log),
        Err(_) => None,
    }
}

/// Whether a log has six batches and ends behind them, knows the producer's oldest batch, takes the next one, and
/// then no longer knows the oldest.
fn knows_the_producer<S: BatchStore>(log: &mut LeaderLog<S>) -> [bool; 5] {
    let (base, repeat) = (0, true);
    [
        log.copy().len() == 6,
        log.copy().end() == 6,
        answers(log, &sent(7, 0, 0), Ok(Appended { base, repeat })),
        takes(log, &sent(7, 0, 5), 6),
        answers(log, &sent(7, 0, 0), Err(AppendError::OutOfOrder)),
    ]
}

/// The same of the log that a copy becomes.
fn copy_knows<S: BatchStore>(copy: PartitionLog<S>) -> [bool; 5] {
    match LeaderLog::from_copy(copy) {
        Ok(mut log) => knows_the_producer(&mut log),
        Err(_) => [false; 5],
    }
}

/// The same of the log that comes of an image.
fn image_knows<S: BatchStore>(alloc: S::Alloc, image: &[u8]) -> [bool; 5] {
    match read_image::<S>(alloc, image) {
        Ok(copy) => copy_knows(copy),
        Err(_) => [false; 5],
    }
}

#[test]
fn a_producer_is_known_from_an_image(rt: HostRuntime) {
    let knows = match image_of_six::<ProgramStore<_>>(rt.alloc()) {
        Some(image) => image_knows::<ProgramStore<_>>(rt.alloc(), &image),
        None => [false; 5],
    };
    assert_eq!(rt; knows, [true; 5]);
}

/// Whether a copy leads, and refuses a batch because it has all offsets.
fn is_full<S: BatchStore>(copy: PartitionLog<S>) -> bool {
    match LeaderLog::from_copy(copy) {
        Ok(mut log) => answers(&mut log, &A_IS_1, Err(AppendError::OffsetsFull)),
        Err(_) => false,
    }
}

#[test]
fn an_image_of_all_offsets(rt: HostRuntime) {
    let is_full = match read_image::<ProgramStore<_>>(rt.alloc(), &ALL_OFFSETS) {
        Ok(copy) => is_full(copy),
        Err(_) => false,
    };
    assert!(rt; is_full);
}

/// Whether a copy has a gap, and is handed back with this image.
fn is_handed_back<S: BatchStore>(copy: PartitionLog<S>, image: &[u8]) -> bool {
    match LeaderLog::from_copy(copy) {
        Ok(_) => false,
        Err(gapped) => has_image(&gapped.copy, image),
    }
}

#[test]
fn an_image_with_a_gap(rt: HostRuntime) {
    let is_handed_back = match read_image::<ProgramStore<_>>(rt.alloc(), &ONE_OFFSET) {
        Ok(copy) => is_handed_back(copy, &ONE_OFFSET),
        Err(_) => false,
    };
    assert!(rt; is_handed_back);
}
