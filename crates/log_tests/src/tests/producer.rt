//! `producer_state`: producers' batches one after another, with verdicts worked by hand.
ghost use Rattle.std.specs.Prelude.{pos, ◌≤ℤ◌};

use producer_state::{Verdict, Window, next_seq};
use std::test::Fail;

/// A batch's epoch, first sequence number and last offset delta.
type Numbers = (i16, i32, i32);

/// Adds the batches to an empty window, from base offset 100 on, and judges the last one.
fn judge_after(
    batches: &[Numbers],
    (epoch, base_seq, last_delta): Numbers,
) -> Result<Verdict, Fail> {
    let mut window = Window::new();
    let mut base = 100i64;
    for &(epoch, base_seq, last_delta) in batches {
        if last_delta < 0 {
            return Err("a row of negative length".into());
        }
        window.add(epoch, base_seq, last_delta, base);
        base = base.saturating_add(10);
    }
    if epoch < 0 || base_seq < 0 || last_delta < 0 {
        return Err("a row that can't be judged".into());
    }
    Ok(window.judge(epoch, base_seq, last_delta))
}

const LAST: i32 = i32::MAX;

/// Five batches of one record, and one more.
const SIX: [Numbers; 6] = [
    (0, 0, 0),
    (0, 1, 0),
    (0, 2, 0),
    (0, 3, 0),
    (0, 4, 0),
    (0, 5, 0),
];

/// What a row is of, the batches before, the batch that is judged, and the verdict.
type Judged = (&'static str, &'static [Numbers], Numbers, Verdict);

/// Verdicts worked by hand. Those on batches that a leader has are rows of `tests/rows/batches.rows`.
static VERDICTS: [Judged; 8] = [
    ("nothing before", &[], (0, LAST, 0), Verdict::New),
    ("a later epoch", &[(0, LAST, 0)], (1, 0, 0), Verdict::New),
    ("an old epoch", &[(1, 0, 0)], (0, 1, 0), Verdict::OldEpoch),
    ("gone after a sixth", &SIX, (0, 0, 0), Verdict::OutOfOrder),
    ("the second of six", &SIX, (0, 1, 0), Verdict::Repeat(110)),
    (
        "twice the same numbers",
        &[(0, 7, 0), (0, 7, 0)],
        (0, 7, 0),
        Verdict::Repeat(110),
    ),
    (
        "after a negative number",
        &[(-3, -9, 0), (0, -4, 3)],
        (0, 0, 0),
        Verdict::New,
    ),
    (
        "a negative epoch before",
        &[(-1, -1, 0)],
        (0, 5, 0),
        Verdict::OutOfOrder,
    ),
];

#[test]
fn verdicts(rt: HostRuntime) -> Result<(), Fail> {
    for (name, before, next, wanted) in &VERDICTS {
        assert!(rt; judge_after(before, *next)? == *wanted, "{name}");
    }
    Ok(())
}

/// A first sequence number, a last offset delta, and the number that comes next.
static NEXT_NUMBERS: [(i32, i32, i32); 7] = [
    (0, 0, 1),
    (5, 9, 15),
    (LAST, 0, 0),
    (LAST - 2, 5, 3),
    (LAST, LAST, LAST),
    (-1, 0, 0),
    (i32::MIN, 0, 1),
];

#[test]
fn next_numbers(rt: HostRuntime) {
    for &(base_seq, last_delta, wanted) in &NEXT_NUMBERS {
        let is_next = last_delta >= 0 && next_seq(base_seq, last_delta) == wanted;
        assert!(rt; is_next, "{base_seq} {last_delta}");
    }
}
