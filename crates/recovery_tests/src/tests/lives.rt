//! The life of a broker over a directory: its start, and rounds in which one client sends frames, they are kept, and the
//! replies leave. A life says what it knows of the frames that may change the broker: how many were handled, how many are
//! in the journal's file, and how many are on the disk for certain.

use kept_starts::sessions::{Seat, Then};
use kept_starts::{
    CommitError, Disk, JournalError, Keeper, Keeping as Kept, Place, Put, Role, RotationFault,
    Sent, StartFault, Started, Unwatched, start,
};
use memory_directories::MemoryDirectory;
use sample_brokers::exchanges::Exchange;
use sample_brokers::small::configured;
use segment::BatchStore;
use std::alloc::{AllocError, Allocator};

/// How a round is kept.
#[derive(Clone, Copy, PartialEq, Eq)]
pub(crate) enum Keeping {
    /// Its frames are committed.
    Commit,
    /// They are appended, and not synced.
    Append,
    /// They are appended, and all are synced.
    Sync,
}

/// What the client sends in a round, and how it is kept.
pub(crate) struct Round {
    pub(crate) exchanges: &'static [Exchange],
    pub(crate) keeping: Keeping,
}

/// How a life ended.
#[derive(Clone, Copy, Debug, PartialEq, Eq)]
pub(crate) enum End {
    /// All was done.
    Clean,
    /// A call of the directory failed.
    Failed,
    /// Memory lacked.
    NoMemory,
    /// Memory lacked for one of a round's frames, so that nothing of it was done, and it was noted nowhere.
    TakenBack,
    /// Another reply left than the one that was wanted.
    OtherReply,
    /// This is wrong.
    Wrong(&'static str),
}

/// What a life knows of the frames that may change a broker.
#[derive(Clone, Copy, Debug, PartialEq, Eq)]
pub(crate) struct Life {
    /// How many were found by the start; none where there was no start.
    pub(crate) found: Option<u64>,
    /// How many were handled, at most.
    pub(crate) handled: u64,
    /// How many are in the journal's file, at least.
    pub(crate) written: u64,
    /// How many are on the disk for certain, at least.
    pub(crate) synced: u64,
    /// How it ended.
    pub(crate) end: End,
}

impl Life {
    /// Nothing was done yet.
    pub(crate) fn new() -> Life {
        Life {
            found: None,
            handled: 0,
            written: 0,
            synced: 0,
            end: End::Clean,
        }
    }

    /// A start found so many frames.
    pub(crate) fn starts(&mut self, found: u64) {
        self.found = Some(found);
        self.handled = found;
        self.written = found;
        self.synced = found;
    }
}

/// How a start ended that gave no broker.
pub(crate) fn end_of_start<A: Allocator>(why: &StartFault<A>) -> End {
    match why {
        StartFault::Failed(..) => End::Failed,
        StartFault::OutOfMemory => End::NoMemory,
        StartFault::Damaged { .. } => End::Wrong("damaged"),
        StartFault::Missing(_) => End::Wrong("missing"),
        _ => End::Wrong("refused"),
    }
}

/// How a life ended whose frames weren't kept.
fn end_of_keeping(why: &CommitError) -> End {
    match why {
        CommitError::OutOfMemory => End::NoMemory,
        CommitError::Journal(JournalError::OnDisk(_)) => End::Failed,
        CommitError::Journal(_) => End::Wrong("not committed"),
    }
}

/// Whether nothing leaves.
fn is_held_back<S: BatchStore, A: Allocator + Copy, D: Disk, B: Allocator + Copy>(
    keeper: &mut Keeper<S, A, D>,
    number: u64,
    out: &mut Vec<u8, B>,
) -> bool {
    let before = out.len();
    let is_told = matches!(
        keeper.send(number, &mut Seat::new(), out),
        Some(Sent::HeldBack)
    );
    is_told && out.len() == before
}

/// What comes of keeping the frames that were noted. Where they aren't in the journal, nothing leaves.
fn kept<'a, S: BatchStore + Drop, B: Allocator + Copy>(
    started: &mut Started<S, MemoryDirectory<'a, B>>,
    directory: &mut MemoryDirectory<'a, B>,
    (number, keeping): (u64, Keeping),
    out: &mut Vec<u8, B>,
) -> End {
    let how = match keeping {
        Keeping::Commit => Put::Commit,
        Keeping::Append | Keeping::Sync => Put::Append,
    };
    let told = started
        .rotation
        .put_group(&mut started.keeper, directory, 0, how);
    match told {
        Ok(_) => End::Clean,
        Err(why) if is_held_back(&mut started.keeper, number, out) => end_of_keeping(&why),
        Err(_) => End::Wrong("not held back"),
    }
}

/// What comes of syncing what was appended, where a round asks for it.
fn synced<S: BatchStore, A: Allocator + Copy, D: Disk>(
    keeper: &mut Keeper<S, A, D>,
    keeping: Keeping,
) -> End {
    if keeping != Keeping::Sync {
        return End::Clean;
    }
    match keeper.sync() {
        Ok(()) => End::Clean,
        Err(JournalError::OnDisk(_)) => End::Failed,
        Err(_) => End::Wrong("not synced"),
    }
}

/// Visits a session to which frames came, and again behind each that is dear, and tells how many were answered. Where the
/// first one is put off, a step writes the image that it waits for, as long as the life goes on.
fn answered<'a, S: BatchStore + Drop, B: Allocator + Copy>(
    started: &mut Started<S, MemoryDirectory<'a, B>>,
    directory: &mut MemoryDirectory<'a, B>,
    (number, frames): (u64, &[u8]),
    life: &mut Life,
) -> Result<u64, End> {
    let mut seat = Seat::new();
    seat.may_read = true;
    let mut from = frames;
    let mut count = 0u64;
    for _ in 0..frames.len().saturating_add(1) {
        let Some(visit) = started.keeper.answer(number, 0, &mut seat, &mut from) else {
            return Ok(0);
        };
        count = count.saturating_add(visit.answered);
        match visit.then {
            Then::Dear => {}
            Then::PutOff(place) if count == 0 => {
                match turn(started, directory, Some(place), life) {
                    End::Clean => {}
                    end => return Err(end),
                }
            }
            _ => break,
        }
    }
    Ok(count)
}

/// What comes of sending a session what it is owed.
fn sent<S: BatchStore, A: Allocator + Copy, D: Disk, B: Allocator + Copy>(
    keeper: &mut Keeper<S, A, D>,
    number: u64,
    out: &mut Vec<u8, B>,
    wanted: &[u8],
) -> End {
    let before = out.len();
    let is_told = matches!(
        keeper.send(number, &mut Seat::new(), out),
        Some(Sent::Bytes(_))
    );
    match out.get(before..) {
        Some(left) if is_told && left == wanted => End::Clean,
        Some(_) if is_told => End::OtherReply,
        _ => End::Wrong("not sent"),
    }
}

/// Frames that a client sends in a round: their bytes, how many they are, how many of them may change the broker, how many
/// bytes these have, and the replies.
#[derive(Clone, Copy)]
pub(crate) struct Frames<'a> {
    pub(crate) bytes: &'a [u8],
    pub(crate) count: u64,
    pub(crate) changes: u64,
    pub(crate) noted: usize,
    pub(crate) replies: &'a [u8],
}

/// The first of two ends that isn't clean, if one isn't.
fn then(first: End, second: End) -> End {
    if first == End::Clean { second } else { first }
}

/// Keeps and sends what was answered, of frames that were answered all, or some for lack of memory.
fn keep_and_send<'a, S: BatchStore + Drop, B: Allocator + Copy>(
    started: &mut Started<S, MemoryDirectory<'a, B>>,
    directory: &mut MemoryDirectory<'a, B>,
    (number, keeping): (u64, Keeping),
    frames: Frames<'_>,
    out: &mut Vec<u8, B>,
    life: &mut Life,
) -> End {
    let end = kept(started, directory, (number, keeping), out);
    if end != End::Clean {
        return end;
    }
    life.written = life.handled;
    if keeping == Keeping::Commit {
        life.synced = life.handled;
    }
    let end = synced(&mut started.keeper, keeping);
    if end != End::Clean {
        return end;
    }
    if keeping == Keeping::Sync {
        life.synced = life.handled;
    }
    sent(&mut started.keeper, number, out, frames.replies)
}

/// A round of a session: what ends the life with it, if it isn't clean. Where a frame was taken back, nothing is kept: the
/// others may have been handled.
pub(crate) fn play<'a, S: BatchStore + Drop, B: Allocator + Copy>(
    started: &mut Started<S, MemoryDirectory<'a, B>>,
    directory: &mut MemoryDirectory<'a, B>,
    (number, keeping): (u64, Keeping),
    frames: Frames<'_>,
    out: &mut Vec<u8, B>,
    life: &mut Life,
) -> End {
    let answered = match answered(started, directory, (number, frames.bytes), life) {
        Ok(answered) => answered,
        Err(end) => return end,
    };
    if answered == frames.count && started.keeper.noted() < frames.noted {
        return End::TakenBack;
    }
    life.handled = life.handled.saturating_add(frames.changes);
    if answered == frames.count {
        return keep_and_send(started, directory, (number, keeping), frames, out, life);
    }
    // Some aren't answered: the others may be kept, but how many that are isn't known.
    let end = kept(started, directory, (number, keeping), out);
    then(end, End::NoMemory)
}

// ---- rounds of a table

/// How many frames of a round may change a broker.
pub(crate) fn changes_of(round: &Round) -> u64 {
    let mut count = 0_u64;
    for exchange in round.exchanges {
        count = count.saturating_add(u64::from(exchange.changes));
    }
    count
}

/// How many bytes they have.
fn noted_of(round: &Round) -> usize {
    let mut bytes = 0_usize;
    for exchange in round.exchanges {
        let more = if exchange.changes {
            exchange.request.len()
        } else {
            0
        };
        bytes = bytes.saturating_add(more);
    }
    bytes
}

/// The bytes of a round's requests, and of its replies.
fn bytes_of<B: Allocator + Copy>(
    alloc: B,
    round: &Round,
) -> Result<(Vec<u8, B>, Vec<u8, B>), AllocError> {
    let mut requests = Vec::new(alloc);
    let mut replies = Vec::new(alloc);
    for exchange in round.exchanges {
        requests.extend_from_slice(exchange.request)?;
        replies.extend_from_slice(exchange.response)?;
    }
    Ok((requests, replies))
}

/// Goes on behind a frame that was taken back, of which nothing was done: nothing is to be kept, and the answer leaves.
fn passed_over<'a, S: BatchStore + Drop, B: Allocator + Copy>(
    started: &mut Started<S, MemoryDirectory<'a, B>>,
    directory: &mut MemoryDirectory<'a, B>,
    (number, keeping): (u64, Keeping),
    exchange: &Exchange,
    out: &mut Vec<u8, B>,
) -> End {
    if !started.keeper.is_clear() {
        return End::Wrong("noted");
    }
    let end = kept(started, directory, (number, keeping), out);
    let failed = exchange.failed.unwrap_or(b"none");
    if end == End::Clean {
        sent(&mut started.keeper, number, out, failed)
    } else {
        end
    }
}

/// A round again of which a frame was taken back, if it has no other. Else the life ends: what the others lead to isn't known.
fn again<'a, S: BatchStore + Drop, B: Allocator + Copy>(
    started: &mut Started<S, MemoryDirectory<'a, B>>,
    directory: &mut MemoryDirectory<'a, B>,
    (number, row): (u64, &Round),
    frames: Frames<'_>,
    out: &mut Vec<u8, B>,
    life: &mut Life,
) -> End {
    let how = (number, row.keeping);
    match row.exchanges {
        [alone] => match passed_over(started, directory, how, alone, out) {
            End::Clean => play(started, directory, how, frames, out, life),
            end => end,
        },
        _ => End::NoMemory,
    }
}

/// One round of a table.
fn table_round<'a, S: BatchStore + Drop, B: Allocator + Copy>(
    started: &mut Started<S, MemoryDirectory<'a, B>>,
    directory: &mut MemoryDirectory<'a, B>,
    (alloc, number): (B, u64),
    row: &Round,
    out: &mut Vec<u8, B>,
    life: &mut Life,
) -> End {
    let Ok((requests, replies)) = bytes_of(alloc, row) else {
        return End::Wrong("no memory");
    };
    let frames = Frames {
        bytes: &requests,
        count: row.exchanges.len() as u64,
        changes: changes_of(row),
        noted: noted_of(row),
        replies: &replies,
    };
    match play(started, directory, (number, row.keeping), frames, out, life) {
        End::TakenBack => again(started, directory, (number, row), frames, out, life),
        end => end,
    }
}

// ---- snapshots

/// How a broker is kept that takes no snapshot.
pub(crate) const UNTURNED: Kept = Kept {
    is_folded: false,
    most_journal: u64::MAX,
};

/// How a broker is kept that takes a snapshot whenever its journals have more bytes than the last one.
const TURNED: Kept = Kept {
    is_folded: false,
    most_journal: 1,
};

/// One step of a snapshot, which may wait for the image of a partition: what ends the life with it, if it isn't clean. Where
/// none is taken, the life goes on.
fn turn<'a, S: BatchStore + Drop, B: Allocator + Copy>(
    started: &mut Started<S, MemoryDirectory<'a, B>>,
    directory: &mut MemoryDirectory<'a, B>,
    wanted: Option<Place>,
    life: &mut Life,
) -> End {
    let before = started.rotation.files().last;
    let step = started
        .rotation
        .step(&mut started.keeper, directory, wanted, 0);
    let last = started.rotation.files().last;
    if last != before {
        directory.note_base(last, life.handled);
        life.synced = life.handled;
    }
    match step {
        Ok(_) => End::Clean,
        Err(RotationFault::Journal(JournalError::OnDisk(_)) | RotationFault::Directory(..)) => {
            End::Failed
        }
        Err(RotationFault::Journal(_)) => End::Wrong("not synced"),
    }
}

/// So many steps of snapshots, up to one that ends the life.
fn turns<'a, S: BatchStore + Drop, B: Allocator + Copy>(
    started: &mut Started<S, MemoryDirectory<'a, B>>,
    directory: &mut MemoryDirectory<'a, B>,
    steps: u32,
    life: &mut Life,
) -> End {
    for _ in 0..steps {
        let end = turn(started, directory, None, life);
        if end != End::Clean {
            return end;
        }
    }
    End::Clean
}

/// The rounds of a table, each with so many steps of snapshots behind it, up to one that ends the life.
fn table_rounds<'a, S: BatchStore + Drop, B: Allocator + Copy>(
    started: &mut Started<S, MemoryDirectory<'a, B>>,
    directory: &mut MemoryDirectory<'a, B>,
    alloc: B,
    (rounds, steps): (&[Round], u32),
    life: &mut Life,
) -> End {
    let Ok(number) = started.keeper.open() else {
        return End::NoMemory;
    };
    let mut out = Vec::new(alloc);
    for row in rounds {
        let end = table_round(started, directory, (alloc, number), row, &mut out, life);
        let end = match end {
            End::Clean => turns(started, directory, steps, life),
            other => other,
        };
        if end != End::Clean {
            return end;
        }
    }
    End::Clean
}

/// How many frames a start found in all, with those before its snapshot.
pub(crate) fn found_in_all<S: BatchStore, B: Allocator + Copy>(
    started: &Started<S, MemoryDirectory<'_, B>>,
    directory: &MemoryDirectory<'_, B>,
) -> u64 {
    let base = directory.base(started.found.snapshot);
    started.found.frames.saturating_add(base)
}

/// The first life over a directory: a start, and the rounds of a table, each with so many steps of snapshots behind it.
pub(crate) fn first_life<S: BatchStore + Drop, B: Allocator + Copy>(
    heap: S::Alloc,
    alloc: B,
    directory: &mut MemoryDirectory<'_, B>,
    table: (&[Round], u32),
) -> Life {
    let mut life = Life::new();
    let Ok(config) = configured(heap, Role::Leader) else {
        life.end = End::NoMemory;
        return life;
    };
    let kept = if table.1 > 0 { TURNED } else { UNTURNED };
    match start::<S, _, _>(heap, directory, &config, kept, &mut Unwatched) {
        Ok(mut started) => {
            life.starts(found_in_all(&started, directory));
            life.end = table_rounds(&mut started, directory, alloc, table, &mut life);
        }
        Err(why) => life.end = end_of_start(&why),
    }
    life
}
