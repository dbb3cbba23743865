//! Journals that are read in memory of which one allocation fails, and over a disk of which one call fails: one call
//! lacks it, the reader is where it was, and made again the call does what it is to do.

use crate::tests::groups::{frames_of, group_of, joined};
use crate::tests::journal_bytes::{FOUR, HEAD, OLD_HEAD, OLD_ONE, OLD_SECOND, ONE, SECOND, THIRD};
use crate::tests::lent::{Lent, Watched};
use journal::{Disk, GroupBuffer, MemoryDisk, OpenError, ReadError, Reader};
use refusing_alloc::Refusing;
use std::alloc::{AllocError, Allocator};
use std::test::Fail;

// The calls that may fail, each a bit of a number.
const OPEN: u32 = 1;

const NEXT: u32 = 2;

const LATER: u32 = 4;

const SETTLE: u32 = 8;

/// More allocations or calls than there are.
const MOST: u64 = 60;

/// Whether a read failed so: for lack of memory, or by the disk.
fn is_lack(why: ReadError, of_memory: bool) -> bool {
    match why {
        ReadError::OutOfMemory => of_memory,
        ReadError::OnDisk(_) => !of_memory,
    }
}

/// Reads a group, and again where that failed, which must have left the reader where it was. Whether it is this one,
/// and the bit of the call if it failed.
fn read_one<D: Disk, A: Allocator + Copy>(
    reader: &mut Reader<D, A>,
    group: &[u8],
    of_memory: bool,
) -> Option<u32> {
    let at = reader.at();
    let (bit, is_read) = match reader.next() {
        Ok(is_read) => (0, is_read),
        Err(why) => {
            let is_there = reader.at() == at && is_lack(why, of_memory);
            (NEXT, is_there && matches!(reader.next(), Ok(true)))
        }
    };
    if is_read && Some(reader.frames()) == group.get(32..) {
        Some(bit)
    } else {
        None
    }
}

/// Asks whether more was synced, and again where that failed. The bit of the call if it failed; none where the answer
/// is another one.
fn search<D: Disk, A: Allocator + Copy>(
    reader: &Reader<D, A>,
    later: bool,
    of_memory: bool,
) -> Option<u32> {
    let (bit, answer) = match reader.has_later_sync() {
        Ok(found) => (0, Ok(found)),
        Err(why) if is_lack(why, of_memory) => (LATER, reader.has_later_sync()),
        Err(why) => (0, Err(why)),
    };
    match answer {
        Ok(found) if found == later => Some(bit),
        _ => None,
    }
}

/// Reads the first group and looks behind it: the bits of what failed.
fn read_all<D: Disk, A: Allocator + Copy>(
    reader: &mut Reader<D, A>,
    later: bool,
    of_memory: bool,
) -> Option<u32> {
    let first = read_one(reader, ONE, of_memory)?;
    let is_end = match reader.next() {
        Ok(is_read) => (0, !is_read),
        Err(why) => {
            let is_end = is_lack(why, of_memory) && matches!(reader.next(), Ok(false));
            (NEXT, is_end)
        }
    };
    let end = reader.head().size().saturating_add(ONE.len());
    if !is_end.1 || reader.at() != end as u64 {
        return None;
    }
    Some(first | is_end.0 | search(reader, later, of_memory)?)
}

/// A reader made a journal, and a group committed: the bit of the call if it failed, after which the disk that is given
/// back is opened anew and goes on.
fn settled<A: Allocator + Copy, B: Allocator + Copy>(
    alloc: A,
    heap: B,
    reader: Reader<Lent<'_, A>, B>,
) -> Option<u32> {
    let mut group = group_of(alloc, frames_of(FOUR));
    match reader.into_journal() {
        Ok(mut journal) => journal.commit(&mut group).ok().map(|_| 0),
        Err(unsettled) => {
            let mut reader = Reader::open(unsettled.disk, heap).ok()?;
            read_one(&mut reader, ONE, false)?;
            let mut journal = reader.into_journal().ok()?;
            journal.commit(&mut group).ok().map(|_| SETTLE)
        }
    }
}

/// The bits of the calls that fail over a disk; none where something else comes of one.
fn failing_of<A: Allocator + Copy, B: Allocator + Copy>(
    alloc: A,
    heap: B,
    lent: Lent<'_, A>,
    later: bool,
    of_memory: bool,
) -> Option<u32> {
    match Reader::open(lent, heap) {
        Ok(mut reader) => {
            let bits = read_all(&mut reader, later, of_memory)?;
            if later {
                return Some(bits);
            }
            Some(bits | settled(alloc, heap, reader)?)
        }
        Err(OpenError::OnDisk(_)) if !of_memory => Some(OPEN),
        Err(_) => None,
    }
}

/// A file of which one group is read, and whether it is damaged behind it.
type Case<'a> = (&'a [u8], bool);

/// The same over a disk with these bytes, of which this call fails; none of it where it is 0.
fn failing<A: Allocator + Copy, B: Allocator + Copy>(
    alloc: A,
    heap: B,
    case: Case<'_>,
    call: u64,
) -> Option<u32> {
    let mut watched = Watched::new(alloc, case.0).ok()?;
    watched.disk.fail_at(call);
    let lent = Lent {
        watched: &mut watched,
    };
    failing_of(alloc, heap, lent, case.1, call == 0)
}

/// The same where this allocation of the reader fails, and whether it is asked for.
fn without_memory<A: Allocator + Copy>(
    inner: A,
    case: Case<'_>,
    refused: u64,
) -> Option<(u32, bool)> {
    let heap = Refusing::new(inner, refused);
    let bits = failing(inner, &heap, case, 0)?;
    Some((bits, heap.calls() >= refused))
}

/// The bits of all calls that lack memory where one allocation fails, whichever that is.
fn all_without_memory<A: Allocator + Copy>(inner: A, case: Case<'_>) -> Option<u32> {
    let mut all = 0_u32;
    for refused in 1..MOST {
        let (bits, is_asked) = without_memory(inner, case, refused)?;
        all |= bits;
        if !is_asked {
            return Some(all);
        }
    }
    None
}

/// The bits of all calls that fail where one call of the disk does, of so many.
fn all_without_disk<A: Allocator + Copy>(alloc: A, case: Case<'_>, calls: u64) -> Option<u32> {
    let mut all = 0_u32;
    for call in 1..=calls {
        all |= failing(alloc, alloc, case, call)?;
    }
    Some(all)
}

/// Whether a disk in memory is made with these bytes where this allocation fails, and whether it is asked for.
fn made_without<A: Allocator + Copy>(inner: A, refused: u64) -> (bool, bool) {
    let heap = Refusing::new(inner, refused);
    let is_made = match MemoryDisk::new(&heap, HEAD) {
        Ok(disk) => disk.bytes() == HEAD,
        Err(AllocError) => false,
    };
    (is_made, heap.calls() >= refused)
}

/// A frame behind its size.
const FRAME: &[u8] = b"\0\0\0\x01a";

/// Whether a frame is pushed, once more where that fails for lack of memory, and taken back; and whether this allocation,
/// which fails, is asked for.
fn pushed_without<A: Allocator + Copy>(inner: A, refused: u64) -> (bool, bool) {
    let heap = Refusing::new(inner, refused);
    let mut group = GroupBuffer::new(&heap);
    let (size, frame) = FRAME.split_at(4);
    let is_first = group.push(size, frame).is_ok();
    let is_pushed = is_first || group.frames().is_empty() && group.push(size, frame).is_ok();
    let is_whole = is_pushed && group.frames() == FRAME;
    group.truncate(4);
    let is_cut = is_whole && group.frames() == size;
    group.clear();
    (is_cut && group.frames().is_empty(), heap.calls() >= refused)
}

#[test]
fn each_call_lacks_it_once(rt: HostRuntime) -> Result<(), Fail> {
    // behind the first group a damaged one, and one that tells that it was synced; or the front of one, behind heads of
    // both versions
    let damaged = joined(rt.alloc(), &[HEAD, ONE, OLD_HEAD, &SECOND[28..], THIRD])?;
    let torn = joined(rt.alloc(), &[HEAD, ONE, &SECOND[..36]])?;
    let old = joined(rt.alloc(), &[OLD_HEAD, OLD_ONE, &OLD_SECOND[..36]])?;
    let damaged = (damaged.as_slice(), true);
    let torn = (torn.as_slice(), false);
    let old = (old.as_slice(), false);
    let of_memory = [
        all_without_memory(rt.alloc(), damaged),
        all_without_memory(rt.alloc(), torn),
        all_without_memory(rt.alloc(), old),
    ];
    assert_eq!(rt; of_memory, [Some(NEXT | LATER); 3]);
    // the length, and the head in two parts or in one; of the first group two reads, of the second one; of the search
    // three; or one, and of the group that isn't known to be on the disk two reads and two writes, a cut and a sync
    let of_disk = [
        all_without_disk(rt.alloc(), damaged, 3 + 2 + 1 + 3),
        all_without_disk(rt.alloc(), torn, 3 + 2 + 1 + 1 + 4 + 2),
        all_without_disk(rt.alloc(), old, 2 + 2 + 1 + 1 + 4 + 2),
    ];
    let wanted = OPEN | NEXT | LATER;
    let settled = Some(wanted | SETTLE);
    assert_eq!(rt; of_disk, [Some(wanted), settled, settled]);
    assert_eq!(rt; made_without(rt.alloc(), 1), (false, true));
    assert_eq!(rt; made_without(rt.alloc(), 2), (false, true));
    assert_eq!(rt; made_without(rt.alloc(), 3), (true, false));
    assert_eq!(rt; pushed_without(rt.alloc(), 1), (true, true));
    assert_eq!(rt; pushed_without(rt.alloc(), 2), (true, true));
    assert_eq!(rt; pushed_without(rt.alloc(), 3), (true, false));
    Ok(())
}
