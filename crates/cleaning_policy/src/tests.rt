//! When the first frame of a policy comes, and what it says.

use crate::example::first_frame;
use crate::values::{Extent, Settings};

/// A partition is cleaned where half of it came since its last pass, ten seconds ago at least, or within a day; a deletion stays for
/// a day.
static SETTINGS: Settings = Settings {
    percent: 50,
    lag: 10_000,
    within: 86_400_000,
    keep_deletes: 86_400_000,
};

/// When the policy is asked that was told of a partition at the time 0: the frame's partition, upto and tomb_before.
type Row = (u64, Option<(usize, i64, i64)>);

/// Nothing is cleaned that came less than ten seconds ago; then all of it is, and no deletion goes.
static ROWS: [Row; 3] = [(0, None), (9_999, None), (10_000, Some((0, 1_000, 0)))];

#[test]
fn what_came_is_cleaned_once_it_is_old_enough(rt: HostRuntime) {
    for (now, wanted) in &ROWS {
        let extent = Extent {
            start: 0,
            end: 1_000,
            bytes: 100_000,
        };
        let given = first_frame(rt.alloc(), SETTINGS, extent, 0, *now);
        let found = match given {
            Ok(Some(frame)) => Some(Some((frame.partition, frame.upto, frame.tomb_before))),
            Ok(None) => Some(None),
            Err(_) => None,
        };
        assert_eq!(rt; found, Some(*wanted), "at {now}");
    }
}
