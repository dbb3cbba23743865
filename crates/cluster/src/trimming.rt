//! Starts of copies that move up.

ghost use Rattle.std.specs.Prelude.{◌≡◌, ◌+◌, ◌<◌, length};
ghost use Rattle.cluster.specs.Events.{Trims};
ghost use Rattle.cluster.specs.Parts.{trim_refusal, trim_outcome};

use crate::cluster::Cluster;
use crate::event::{EventError, Outcome};
use partition_log::TrimError;
use segment::BatchStore;

/// The refusal of an event, by that of a start.
fn refusal(why: TrimError) -> EventError
    ensures { result ≡ trim_refusal why }
{
    match why {
        TrimError::OutOfMemory => EventError::OutOfMemory,
        TrimError::BelowStart => EventError::Trim(TrimError::BelowStart),
        TrimError::PastEnd => EventError::Trim(TrimError::PastEnd),
        TrimError::NotABase => EventError::Trim(TrimError::NotABase),
    }
}

/// What came of an event that moves a start.
fn outcome(answer: Result<(), TrimError>) -> Result<Outcome, EventError>
    ensures { result ≡ trim_outcome answer }
{
    match answer {
        Ok(()) => Ok(Outcome::Trimmed),
        Err(why) => Err(refusal(why)),
    }
}

impl<S: BatchStore> Cluster<S> {
    fn trim_leader(&mut self, start: i64) -> Result<Outcome, EventError>
        ensures { Trims self.old 0 start self.new result }
    {
        outcome(self.leader.trim(start))
    }

    fn trim_follower(&mut self, follower: usize, start: i64) -> Result<Outcome, EventError>
        requires { follower < length self.old.followers }
        ensures { Trims self.old (follower + 1) start self.new result }
    {
        outcome(self.followers[follower].trim(start))
    }

    /// Moves a copy's start up.
    pub(crate) fn trim(&mut self, copy: usize, start: i64) -> Result<Outcome, EventError>
        ensures { Trims self.old copy start self.new result }
    {
        if self.followers.len() < copy {
            return Err(EventError::NoCopy);
        }
        match copy.checked_sub(1) {
            None => self.trim_leader(start),
            Some(follower) => self.trim_follower(follower, start),
        }
    }
}
