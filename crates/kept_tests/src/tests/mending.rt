//! Journals of which an append fails and leaves a part of its group, which is cut; and files that are made ready for further
//! groups, of which what isn't known to be on the disk is written again. Each call fails in turn, and a crash follows.

use crate::tests::crashes::{
    GROUPS, MOST_CALLS, Way, begun, first_wrong, goes_on, is_closed, put, written_to,
};
use crate::tests::groups::{group_of, joined, journal_name, kept_head};
use crate::tests::journal_bytes::{HEAD, OLD_HEAD, OLD_ONE, OLD_SECOND, ONE, SECOND, THIRD};
use crate::tests::lent::{Lent, Watched};
use journal::{Disk, GroupBuffer, Journal, Reader};
use std::alloc::Allocator;
use std::io::ErrorKind;
use std::test::Fail;

/// Mends a torn end, behind which nothing is written before, and writes the group then. Whether all that was done.
fn is_put_behind<D: Disk, A: Allocator + Copy>(
    journal: &mut Journal<D>,
    group: &mut GroupBuffer<A>,
    way: Way,
) -> bool {
    let end = journal.end();
    let is_refused = journal_name(put(journal, group, way)) == "Failed";
    let is_mended = is_refused && journal.mend().is_ok() && !journal.is_torn();
    is_mended && journal.end() == end && journal.synced() == end && put(journal, group, way).is_ok()
}

/// How many groups are written to a journal, and how many of them behind a torn end that was mended. It ends where
/// something else fails; none where the journal isn't closed then.
fn mended_to<D: Disk, A: Allocator + Copy>(
    alloc: A,
    journal: &mut Journal<D>,
) -> Option<(usize, usize)> {
    let mut count = (0_usize, 0_usize);
    for (frames, way) in &GROUPS {
        let mut group = group_of(alloc, frames);
        let is_put = put(journal, &mut group, *way).is_ok();
        let is_mended = !is_put && journal.is_torn() && is_put_behind(journal, &mut group, *way);
        if !is_put && !is_mended {
            let is_closed = is_closed(journal, &mut group) && !journal.is_torn();
            let is_refused = journal_name(journal.mend()) == "Failed";
            return if is_closed && is_refused {
                Some(count)
            } else {
                None
            };
        }
        count.0 = count.0.saturating_add(1);
        count.1 = count.1.saturating_add(usize::from(is_mended));
    }
    Some(count)
}

/// The same of a journal on a disk with no bytes or a head, of which this call fails, and that one behind an append that
/// failed; none where a crash then leaves what isn't read as it should.
fn mended<A: Allocator + Copy>(
    alloc: A,
    head: &[u8],
    failing: u64,
    then: u64,
) -> Option<(usize, usize)> {
    let mut watched = Watched::new(alloc, head).ok()?;
    watched.is_tearing = true;
    watched.then = then;
    watched.disk.fail_at(failing);
    let lent = Lent {
        watched: &mut watched,
    };
    let count = match begun(alloc, lent) {
        Ok(mut journal) => mended_to(alloc, &mut journal)?,
        Err(_) => (0, 0),
    };
    if count.0 == GROUPS.len() && !goes_on(alloc, watched.disk.bytes(), count.0) {
        return None;
    }
    match first_wrong(alloc, &watched) {
        None => Some(count),
        Some(_) => None,
    }
}

/// How many groups come of a journal of which each call fails in turn, from the first that isn't of its head.
type Counts = [Option<(usize, usize)>; 8];

/// These, where this call fails behind an append that failed, and so many calls come before the groups.
fn all_mended<A: Allocator + Copy>(alloc: A, (head, calls): (&[u8], u64), then: u64) -> Counts {
    let mut all = [None; 8];
    let mut failing = calls;
    for count in &mut all {
        failing = failing.saturating_add(1);
        *count = mended(alloc, head, failing, then);
    }
    all
}

/// A new journal, and one of version 0 that is there, each with how many calls come before the groups: its length, an
/// append and a sync; its length, two reads, one write and a sync.
const HEADS: [(&[u8], u64); 2] = [(b"", 3), (OLD_HEAD, 5)];

#[test]
fn a_torn_end_is_mended(rt: HostRuntime) {
    // appends of the groups, and syncs behind the second, the third and the last: what fails of a sync is not mended
    let whole = Some((5, 1));
    let wanted = [
        whole,
        whole,
        Some((1, 0)),
        whole,
        Some((2, 0)),
        whole,
        whole,
        Some((4, 0)),
    ];
    // and nothing is where the cut fails, or the sync behind it
    let unmended = [0, 1, 1, 2, 2, 3, 4, 4].map(|count| Some((count, 0)));
    for (head, calls) in HEADS {
        assert_eq!(rt; all_mended(rt.alloc(), (head, calls), 0), wanted);
        assert_eq!(rt; all_mended(rt.alloc(), (head, calls), 1), unmended);
        assert_eq!(rt; all_mended(rt.alloc(), (head, calls), 2), unmended);
        for failing in 1..=calls {
            assert_eq!(rt; mended(rt.alloc(), head, failing, 0), Some((0, 0)));
        }
        assert_eq!(rt; mended(rt.alloc(), head, 0, 0), Some((5, 0)));
    }
}

/// Whether a file is made ready for further groups.
fn is_settled<A: Allocator + Copy>(alloc: A, watched: &mut Watched<A>) -> bool {
    match Reader::open(Lent { watched }, alloc) {
        Ok(mut reader) => reader.read_to_end().is_ok() && reader.into_journal().is_ok(),
        Err(_) => false,
    }
}

/// The first byte of a file that is written again where it is made ready, and how many are.
fn again_in<A: Allocator + Copy>(alloc: A, file: &[u8]) -> Option<(usize, usize)> {
    let mut watched = Watched::new(alloc, file).ok()?;
    if is_settled(alloc, &mut watched) {
        Some(watched.again)
    } else {
        None
    }
}

/// The same of a front of a file.
fn again_in_front<A: Allocator + Copy>(
    alloc: A,
    file: &[u8],
    size: usize,
) -> Option<(usize, usize)> {
    again_in(alloc, file.get(..size)?)
}

/// A disk to which the groups were written, or some first ones.
fn written_disk<A: Allocator + Copy>(alloc: A, failing: u64) -> Option<Watched<A>> {
    let mut watched = Watched::new(alloc, b"").ok()?;
    watched.disk.fail_at(failing);
    let lent = Lent {
        watched: &mut watched,
    };
    let mut journal = Journal::create(lent, &kept_head()).ok()?;
    written_to(alloc, &mut journal)?;
    watched.disk.fail_at(0);
    watched.lost.clear();
    Some(watched)
}

/// The same of a file with all groups.
fn again_in_written<A: Allocator + Copy>(alloc: A) -> Option<(usize, usize)> {
    again_in(alloc, written_disk(alloc, 0)?.disk.bytes())
}

#[test]
fn what_may_be_off_the_disk_is_written_again(rt: HostRuntime) -> Result<(), Fail> {
    let torn = joined(rt.alloc(), &[HEAD, ONE, SECOND, &THIRD[..20]])?;
    let again = [56, 93, 130, torn.len()].map(|size| again_in_front(rt.alloc(), &torn, size));
    assert_eq!(rt; again, [(0, 56), (56, 37), (93, 37), (93, 37)].map(Some));
    let torn = joined(rt.alloc(), &[OLD_HEAD, OLD_ONE, OLD_SECOND, &THIRD[..20]])?;
    let again = [28, 65, 102, torn.len()].map(|size| again_in_front(rt.alloc(), &torn, size));
    assert_eq!(rt; again, [(0, 28), (28, 37), (65, 37), (65, 37)].map(Some));
    // behind the sync of the third group: the two others
    assert_eq!(rt; again_in_written(rt.alloc()), Some((588, 642 + 72)));
    Ok(())
}

/// How many calls fail before none does, where a file with a group that isn't synced is made ready for further ones and
/// each call fails in turn; none where a crash then leaves what isn't read as it should.
fn calls_that_fail<A: Allocator + Copy>(alloc: A) -> Option<u64> {
    for failing in 1..MOST_CALLS {
        // the tenth call is the append of the last group
        let mut watched = written_disk(alloc, 10)?;
        watched.disk.fail_at(failing);
        let is_settled = is_settled(alloc, &mut watched);
        if first_wrong(alloc, &watched).is_some() {
            return None;
        }
        if is_settled {
            let is_synced = watched.synced == watched.disk.bytes().len();
            return if is_synced { Some(failing - 1) } else { None };
        }
    }
    None
}

#[test]
fn a_crash_follows_while_it_is_written_again(rt: HostRuntime) {
    // the length, and the head in two parts; four groups of two reads each; of the last two reads and two writes; a sync
    assert_eq!(rt; calls_that_fail(rt.alloc()), Some(3 + 8 + 4 + 1));
}

/// How a file fails of which a read gives other bytes behind an offset than when it was read first; none where it doesn't,
/// or where bytes of it were written again.
fn failure_of<A: Allocator + Copy>(alloc: A, file: &[u8], gone: usize) -> Option<ErrorKind> {
    let mut watched = Watched::new(alloc, file).ok()?;
    let mut reader = Reader::open(
        Lent {
            watched: &mut watched,
        },
        alloc,
    )
    .ok()?;
    reader.read_to_end().ok()?;
    reader.disk().watched.gone.set(gone);
    let kind = match reader.into_journal() {
        Ok(_) => None,
        Err(unsettled) => Some(unsettled.error.kind()),
    };
    if watched.again.1 == 0 { kind } else { None }
}

#[test]
fn what_is_gone_meanwhile_is_not_written_again(rt: HostRuntime) -> Result<(), Fail> {
    let file = joined(rt.alloc(), &[HEAD, ONE, SECOND])?;
    let gone = Some(ErrorKind::InvalidData);
    let kinds = [
        failure_of(rt.alloc(), OLD_HEAD, 20),
        failure_of(rt.alloc(), HEAD, 20),
        failure_of(rt.alloc(), HEAD, 55),
        failure_of(rt.alloc(), &file, 93),
        failure_of(rt.alloc(), &file, 129),
    ];
    assert_eq!(rt; kinds, [gone; 5]);
    Ok(())
}
