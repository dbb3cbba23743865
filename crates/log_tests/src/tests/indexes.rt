//! Indexes by key and by time: a copy answers the same with them and without, whatever comes between, and where
//! memory for them lacks.
use batch_codec::view;
use partition_log::{Delivered, PartitionLog};
use refusing_alloc::Refusing;
use sample_batches::{one, three_at};
use segment::{BatchStore, SegStore, VecStore};

/// More allocations than any run below asks for.
const MOST: u64 = 200;

/// The times that are asked for.
const TIMES: [i64; 4] = [0, 1001, 3001, 4001];

/// The first record from each of these times on, as its time and its offset.
type Firsts = [Option<(i64, i64)>; 4];

/// A copy, and whether it is to complete its indexes before it is asked.
#[derive(Drop)]
struct Asked<S: BatchStore> {
    copy: PartitionLog<S>,
    is_indexed: bool,
}

impl<S: BatchStore> Asked<S> {
    /// Delivers a new batch, once more where memory lacks.
    fn takes(&mut self, bytes: &[u8]) -> bool {
        let Ok(batch) = view(bytes) else {
            return false;
        };
        let first = self.copy.deliver(&batch);
        first == Ok(Delivered::Added) || self.copy.deliver(&batch) == Ok(Delivered::Added)
    }

    /// Cleans, once more where memory lacks, and tells whether so many records and tombstones went.
    fn cleans(&mut self, tomb_before: i64, records: u64, tombstones: u64) -> bool {
        let report = match self.copy.clean(100, tomb_before) {
            Ok(report) => Ok(report),
            Err(_) => self.copy.clean(100, tomb_before),
        };
        match report {
            Ok(report) => report.records == records && report.tombstones == tombstones,
            Err(_) => false,
        }
    }

    /// Whether the copy shows these values of `a` and `b`, and has these records from the times on.
    fn shows(&mut self, a: &[u8], b: &[u8], firsts: Firsts) -> bool {
        if self.is_indexed {
            self.copy.index_keys();
            self.copy.index_times();
        }
        let values = (
            self.copy.get(b"a").unwrap_or(b""),
            self.copy.get(b"b").unwrap_or(b""),
        );
        values == (a, b) && TIMES.map(|time| self.copy.by_time(time)) == firsts
    }
}

/// Whether each step leaves what it is to leave: batches in order and behind what is indexed, late ones, a cleaning of
/// records that are superseded, trims, a cleaning of a tombstone, and a new value of its key.
fn steps<S: BatchStore>(alloc: S::Alloc, is_indexed: bool) -> [bool; 9] {
    let copy = PartitionLog::new(alloc);
    let mut asked = Asked::<S> { copy, is_indexed };
    let first = Some((1000, 10));
    let second = Some((3000, 12));
    let late = Some((4000, 11));
    [
        asked.takes(&one(10, 1000, b'a', b'1'))
            && asked.takes(&one(12, 3000, b'b', b'2'))
            && asked.shows(b"1", b"2", [first, second, None, None]),
        asked.takes(&one(13, 2000, b'a', b'3'))
            && asked.shows(b"3", b"2", [first, second, None, None]),
        asked.takes(&one(11, 4000, b'a', b'4'))
            && asked.takes(&one(5, 9, b'b', b'0'))
            && asked.shows(b"3", b"2", [Some((9, 5)), late, late, None]),
        asked.cleans(0, 3, 0) && asked.shows(b"3", b"2", [second, second, None, None]),
        asked.copy.trim(13) == Ok(())
            && asked.shows(b"3", b"", [Some((2000, 13)), Some((2000, 13)), None, None]),
        asked.takes(&three_at(20))
            && asked.shows(b"", b"2", [Some((2000, 13)), Some((2000, 13)), None, None]),
        asked.copy.trim(20) == Ok(()) && asked.shows(b"", b"2", [Some((0, 20)), None, None, None]),
        asked.cleans(100, 1, 1) && asked.shows(b"", b"2", [Some((0, 21)), None, None, None]),
        asked.takes(&one(30, 5000, b'a', b'7'))
            && asked.shows(
                b"7",
                b"2",
                [
                    Some((0, 21)),
                    Some((5000, 30)),
                    Some((5000, 30)),
                    Some((5000, 30)),
                ],
            ),
    ]
}

#[test]
fn indexes_change_no_answer(rt: HostRuntime) {
    assert_eq!(rt; steps::<VecStore<_>>(rt.alloc(), false), [true; 9]);
    assert_eq!(rt; steps::<SegStore<_>>(rt.alloc(), false), [true; 9]);
    let mut passed = false;
    for refused in 1..MOST {
        let heap = Refusing::new(rt.alloc(), refused);
        assert_eq!(rt; steps::<VecStore<_>>(&heap, true), [true; 9], "{refused}");
        let other = Refusing::new(rt.alloc(), refused);
        assert_eq!(rt;
            steps::<SegStore<_>>(&other, true),
            [true; 9],
            "{refused}, segments"
        );
        passed = heap.calls() < refused && other.calls() < refused;
        if passed {
            break;
        }
    }
    assert!(rt; passed);
}
