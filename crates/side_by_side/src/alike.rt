//! Whether two batches of one base offset can be the same batch of a log.

ghost use Rattle.std.specs.Prelude.{◌≡◌, ◌↔◌, IsTrue};
ghost use Rattle.std.specs.Option.{option_map};
ghost use Rattle.batch_codec.specs.Grammar.{Writable};
ghost use Rattle.batch_codec.specs.Views.{header_value, record_value};
ghost use Rattle.side_by_side.specs.Agreement.{AreAlike, IsAlikeOrNone};
ghost use Rattle.side_by_side.specs.RecordWalks.{WalkAlike};

use crate::record_walk::RecordWalk;
use batch_codec::{BatchView, HeaderView, Headers, RecordView};

/// Whether the batches have equal bytes.
#[tactic(auto, using(crate::proofs::CommonRecords::opened_equal, crate::proofs::CommonRecords::opened_writable))]
pub(crate) fn have_equal_bytes<'a>(x: &BatchView<'a>, y: &BatchView<'a>) -> bool
    ensures equal { IsTrue result → x.now ≡ y.now }
    ensures left_writable { Writable x.now }
    ensures right_writable { Writable y.now }
{
    x.bytes() == y.bytes()
}

/// Whether two texts are equal; null equals only null.
fn are_equal_texts(left: Option<&[u8]>, right: Option<&[u8]>) -> bool
    ensures { IsTrue result
        ↔ (option_map (λ t. t.now) left.entry ≡ option_map (λ t. t.now) right.entry) }
{
    match (left, right) {
        (Some(left), Some(right)) => left == right,
        (None, None) => true,
        _ => false,
    }
}

fn are_equal_headers(left: &HeaderView<'_>, right: &HeaderView<'_>) -> bool
    ensures { IsTrue result ↔ (header_value left.now ≡ header_value right.now) }
{
    left.key == right.key && are_equal_texts(left.value, right.value)
}

/// Whether two lists of headers are equal.
fn have_equal_headers<'a>(left: Headers<'a>, mut right: Headers<'a>) -> bool
    ensures { IsTrue result ↔ (left.entry ≡ right.entry) }
{
    for header in left {
        match right.next() {
            Some(other) if are_equal_headers(&header, &other) => {}
            _ => return false,
        }
    }
    right.next().is_none()
}

fn are_equal_records<'a>(left: RecordView<'a>, right: RecordView<'a>) -> bool
    ensures { IsTrue result ↔ (record_value left.entry ≡ record_value right.entry) }
{
    left.attrs == right.attrs
        && left.time_delta == right.time_delta
        && left.delta == right.delta
        && are_equal_texts(left.key, right.key)
        && are_equal_texts(left.value, right.value)
        && have_equal_headers(left.headers, right.headers)
}

/// Whether a record equals the other, if there is one.
fn is_alike_or_none<'a>(rec: RecordView<'a>, other: Option<RecordView<'a>>) -> bool
    ensures { IsTrue result
        ↔ IsAlikeOrNone (record_value rec.entry) (option_map record_value other.entry) }
{
    match other {
        Some(other) => are_equal_records(rec, other),
        None => true,
    }
}

/// Whether the records are equal at each offset at which both have one.
fn have_equal_records<'a>(x: &BatchView<'a>, y: &BatchView<'a>) -> bool
    ensures { IsTrue result ↔ WalkAlike x.now.recs y.now.recs }
{
    let mut walk = RecordWalk::new(y);
    for rec in x.recs() {
        let other = walk.at(rec.delta);
        if !is_alike_or_none(rec, other) {
            return false;
        }
    }
    true
}

/// Whether the heads are equal.
fn have_equal_heads<'a>(x: &BatchView<'a>, y: &BatchView<'a>) -> bool
    ensures equal { IsTrue result ↔ (x.now.head ≡ y.now.head) }
    ensures left_writable { Writable x.now }
    ensures right_writable { Writable y.now }
{
    x.head() == y.head()
}

/// Whether the heads are equal, and the records at each offset at which both have one.
#[tactic(auto, using(crate::proofs::CommonRecords::alike_is, crate::proofs::CommonRecords::heads_differ))]
fn are_alike_by_records<'a>(x: &BatchView<'a>, y: &BatchView<'a>) -> bool
    ensures { IsTrue result ↔ AreAlike x.now y.now }
{
    have_equal_heads(x, y) && have_equal_records(x, y)
}

/// Whether two batches have equal heads, and equal records at each offset at which both have one. Batches
/// of equal bytes are not read.
#[tactic(auto, using(crate::proofs::CommonRecords::alike_same))]
pub fn are_alike<'a>(x: &BatchView<'a>, y: &BatchView<'a>) -> bool
    ensures { IsTrue result ↔ AreAlike x.now y.now }
{
    have_equal_bytes(x, y) || are_alike_by_records(x, y)
}
