//! A copy's batches and what it is told side by side, by rising base offset.

ghost use Rattle.std.specs.Prelude.{◌≡◌, ◌≤◌, ◌+◌, ◌↔◌, List, drop, length, not, IsTrue, Some};
ghost use Rattle.deltas.specs.Entries.{Entry};
ghost use Rattle.delta_bytes.specs.EntryViews.{IsValidEntry, entry_of};
ghost use Rattle.side_by_side.specs.Fitting.{EndsBelow};
ghost use Rattle.side_by_side.specs.Steps.{next_by, next_of, is_done, base_of, taken_kept, taken_told, step_of, HasSpan, IsSound};

use crate::kept::KeptBatches;
use crate::telling::Telling;
use batch_codec::BatchView;
use cover_ranges::OFFSETS_END;
use delta_bytes::entries::EntryView;
use segment::BatchStore;

/// What comes next of a copy's batches and of the entries that it is told, by rising base offset.
#[derive(Drop)]
pub(crate) enum Next<'a> {
    /// Neither a batch nor an entry is left.
    Done,
    /// A batch that the copy keeps, and no entry of its base offset.
    Kept(BatchView<'a>),
    /// An entry, and no batch of its base offset.
    Told(EntryView<'a>),
    /// One of each, with one base offset.
    Both(BatchView<'a>, EntryView<'a>),
}

/// Whether a batch or an entry is left.
#[tactic(auto, using(crate::proofs::NextSteps::some_left))]
pub(crate) fn has_next<S: BatchStore, T: Telling>(kept: &KeptBatches<'_, S>, told: &T) -> bool
    requires { (entries : List Entry) × T.tells told.now entries }
    ensures { (entries : List Entry) → T.tells told.now entries
        → result ≡ not (is_done (next_of kept.now entries)) }
{
    kept.has_batch() || told.has_entry()
}

/// What comes next of a batch and an entry.
fn next_from<'a>(x: BatchView<'a>, entry: EntryView<'a>) -> Next<'a>
    requires span { HasSpan x }
    requires valid { IsValidEntry (entry_of entry) }
    ensures next { step_of result ≡ next_by (Some x.entry) (Some (entry_of entry.entry)) }
    ensures sound { IsSound (step_of result) }
{
    let (batch_base, entry_base) = (x.base(), entry.base());
    if batch_base < entry_base {
        return Next::Kept(x);
    }
    if entry_base < batch_base {
        return Next::Told(entry);
    }
    Next::Both(x, entry)
}

/// What comes next of the batches and the entries that are left.
pub(crate) fn next_of<'a, S: BatchStore, T: Telling>(
    kept: &'a KeptBatches<'_, S>,
    told: &'a T,
) -> Next<'a>
    requires { (entries : List Entry) × T.tells told.now entries }
    ensures next { (entries : List Entry) → T.tells told.now entries
        → step_of result ≡ next_of kept.now entries }
    ensures sound { IsSound (step_of result) }
{
    match (kept.first_batch(), told.first()) {
        (None, None) => Next::Done,
        (Some(x), None) => Next::Kept(x),
        (None, Some(entry)) => Next::Told(entry),
        (Some(x), Some(entry)) => next_from(x, entry),
    }
}

/// Passes so many entries, none or one.
pub(crate) fn pass_told<T: Telling>(told: &mut T, count: usize)
    requires one { count ≤ 1 }
    requires some { (entries : List Entry) × T.tells told.old entries × (count ≤ length entries) }
    ensures passes { (entries : List Entry) → T.tells told.old entries
        → T.tells told.new (drop count entries) }
    ensures shorter { T.left told.new + count ≤ T.left told.old }
{
    if count > 0 {
        told.pass();
    }
}

impl<'a> Next<'a> {
    /// The base offset; the end of all offsets where nothing is left.
    pub(crate) fn base(&self) -> i64
        ensures { result ≡ base_of (step_of self.now) }
    {
        match self {
            Next::Done => OFFSETS_END,
            Next::Kept(batch) => batch.base(),
            Next::Told(entry) => entry.base(),
            Next::Both(batch, _) => batch.base(),
        }
    }

    /// Whether the batch and the entry end below an offset.
    pub(crate) fn ends_below(&self, offset: i64) -> bool
        requires { IsSound (step_of self.now) }
        ensures { IsTrue result ↔ EndsBelow offset (step_of self.now) }
    {
        match self {
            Next::Done => true,
            Next::Kept(batch) => batch.last_offset() < offset,
            Next::Told(entry) => entry.last() < offset,
            Next::Both(batch, entry) => batch.last_offset() < offset && entry.last() < offset,
        }
    }

    /// How many batches of the copy these are.
    pub(crate) fn of_kept(&self) -> usize
        ensures { result ≡ taken_kept (step_of self.now) }
    {
        match self {
            Next::Kept(_) | Next::Both(_, _) => 1,
            Next::Done | Next::Told(_) => 0,
        }
    }

    /// How many entries these are.
    pub(crate) fn of_told(&self) -> usize
        ensures { result ≡ taken_told (step_of self.now) }
    {
        match self {
            Next::Told(_) | Next::Both(_, _) => 1,
            Next::Done | Next::Kept(_) => 0,
        }
    }
}
