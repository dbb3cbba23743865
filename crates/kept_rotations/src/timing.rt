//! When a snapshot is taken.

ghost use Rattle.std.specs.Prelude.{◌≡◌, ◌+◌, ◌*◌, ◌&&◌, nat_lt, None, Some};
ghost use Rattle.journal.specs.declared.layout.TheConstants.{HEAD_SIZE};
ghost use Rattle.kept_rotations.specs.Due.{is_due, is_grown, is_wide, missed_timing, new_timing, snapshot_due_at, tried_at};

use crate::rotation::PATIENCE;
use journal::layout::HEAD_SIZE;

/// When a snapshot is tried again.
#[derive(Clone, Copy)]
pub struct Retry {
    /// Once the journals have so many bytes.
    pub(crate) size: u64,
    /// Or once the clock says so many milliseconds.
    pub(crate) clock: u64,
}

/// What tells when a snapshot is taken.
#[derive(Clone, Copy)]
pub struct Timing {
    /// A snapshot is taken once the journals have so many bytes, and as many as the last snapshot.
    pub(crate) most: u64,
    /// Behind one that wasn't taken, when the next one is tried.
    pub(crate) retry: Option<Retry>,
    /// How many bytes one would have now, if this was told since the last one was begun.
    pub(crate) told: Option<u64>,
}

/// Whether so much room is more than `most`, and more than twice what would do.
fn takes_too_much(most: u64, room: u128, told: u64) -> bool
    ensures { result ≡ (nat_lt most room && nat_lt (2 * (told + HEAD_SIZE)) room) }
{
    u128::from(most) < room && 2 * (u128::from(told) + HEAD_SIZE as u128) < room
}

impl Timing {
    /// That of journals that have `most` bytes before a snapshot is taken.
    pub(crate) fn new(most: u64) -> Timing
        ensures { result ≡ new_timing most }
    {
        Timing {
            most,
            retry: None,
            told: None,
        }
    }

    /// Whether the journals have grown so much.
    fn is_grown(&self, last: u64, journals: u64) -> bool
        ensures { result ≡ is_grown self.now.most last journals }
    {
        self.most <= journals && last <= journals
    }

    /// Whether the last snapshot and the journals take more than twice the room that would do.
    fn is_wide(&self, last: u64, journals: u64) -> bool
        ensures { result ≡ is_wide self.now.most last journals self.now.told }
    {
        match self.told {
            Some(told) => takes_too_much(self.most, u128::from(last) + u128::from(journals), told),
            None => false,
        }
    }

    /// When a snapshot that is due is tried, where journals have so many bytes.
    fn tried_at(&self, journals: u64) -> u64
        ensures { result ≡ tried_at journals self.now.retry }
    {
        match self.retry {
            Some(retry) if journals < retry.size => retry.clock,
            _ => 0,
        }
    }

    /// What the clock says once a snapshot is to be taken, where the last one and the journals behind it have so many bytes.
    pub(crate) fn due_at(&self, last: u64, journals: u64) -> Option<u64>
        ensures { result ≡ snapshot_due_at self.now last journals }
    {
        if self.is_grown(last, journals) || self.is_wide(last, journals) {
            Some(self.tried_at(journals))
        } else {
            None
        }
    }

    /// Notes how many bytes one would have now.
    pub(crate) fn note_size(&mut self, bytes: u64)
        ensures { self.new ≡ record self.old { told = Some bytes } }
    {
        self.told = Some(bytes);
    }

    /// Notes that one is begun: what was told before is old.
    pub(crate) fn forget_size(&mut self)
        ensures { self.new ≡ record self.old { told = None } }
    {
        self.told = None;
    }

    /// Notes that one was taken.
    pub(crate) fn take(&mut self)
        ensures { self.new ≡ new_timing self.old.most }
    {
        *self = Timing::new(self.most);
    }

    /// Notes that none was taken, where the journals have so many bytes.
    pub(crate) fn miss(&mut self, journals: u64, clock: u64)
        ensures { self.new ≡ missed_timing journals clock self.old }
    {
        self.retry = Some(Retry {
            size: journals.saturating_add(self.most),
            clock: clock.saturating_add(PATIENCE),
        });
    }
}
