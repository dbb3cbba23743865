//! What a broker does for its partitions by itself: it measures them, and has those cleaned that are due.

ghost use Rattle.std.specs.Prelude.{◌≡◌, ◌+◌, ◌-◌, min};

use crate::own_session::{Asking, CleanAsked, OwnSession, Replied};
use crate::serving_sessions::ServedSessions;
use broker_state::BrokerState;
use cleaning_frames::CleanAnswer;
use cleaning_policy::{Extent, Frame, Mark, Marks, Policy, Settings};
use copy_images::image_size;
use kept_starts::Place;
use segment::BatchStore;
use std::alloc::{AllocError, Global};

/// For how long, in milliseconds, partitions aren't measured again.
const BETWEEN_MEASURES: u64 = 1_000;

/// For how long, in milliseconds, what is known of passes isn't written again.
const BETWEEN_WRITES: u64 = 60_000;

/// A place at which there is no partition.
const NO_PLACE: Place = Place {
    topic: usize::MAX,
    partition: 0,
};

/// The code of an answer for which memory lacked.
const STORAGE_ERROR: i16 = 56;

/// A cleaning that was asked for, and that isn't answered yet.
#[derive(Clone, Copy)]
struct Asked {
    /// The index of its partition.
    index: usize,
    place: Place,
    /// The bytes that its partition had.
    bytes: u64,
    /// What the clock said when it was asked for.
    began: u64,
    /// Whether there was no memory to ask.
    is_failed: bool,
}

/// A cleaning that is over.
#[derive(Clone, Copy)]
pub(crate) struct Cleaned {
    pub(crate) place: Place,
    /// The bytes that its partition had, and has now.
    pub(crate) before: u64,
    pub(crate) after: u64,
    /// What it removed.
    pub(crate) answer: CleanAnswer,
    /// For how many milliseconds it went on.
    pub(crate) millis: u64,
    /// What the clock said when it was over, and when the last one of the partition was that removed anything.
    pub(crate) at: u64,
    pub(crate) before_at: Option<u64>,
}

impl Cleaned {
    /// Whether it removed anything.
    pub(crate) fn has_removed(&self) -> bool {
        self.answer.records > 0 || self.answer.tombstones > 0 || self.answer.batches > 0
    }
}

/// Why a cleaning was given up.
#[derive(Clone, Copy)]
pub(crate) enum WhyGivenUp {
    OutOfMemory,
    /// It was refused with this code.
    Code(i16),
}

/// What came of a cleaning that was asked for.
#[derive(Clone, Copy)]
pub(crate) enum Outcome {
    Cleaned(Cleaned),
    GivenUp(Place, WhyGivenUp),
}

/// What a broker does for its partitions by itself.
#[derive(Drop)]
pub(crate) struct Upkeep {
    alloc: Global,
    /// When which partition is cleaned; none is where this is `None`.
    policy: Option<Policy<Global>>,
    /// The partitions, each at its index in the policy.
    places: Vec<Place>,
    /// What the clock said when each was cleaned last so that anything was removed.
    cleaned_at: Vec<Option<u64>>,
    own: OwnSession,
    /// What the policy's clock says, in milliseconds, where the clock of the rounds says 0: what a wall clock said then, or 0 where
    /// none could be read.
    base: u64,
    asked: Option<Asked>,
    /// Whether anyone is to know what partitions have: the policy, or a broker that keeps its changes on disk.
    is_measuring: bool,
    /// Whether requests were answered since all was measured last.
    has_changed: bool,
    /// What the clock said when all was measured last.
    measured_at: Option<u64>,
    /// Whether the policy is to be asked, since it was told something.
    is_to_ask: bool,
    /// What the policy's clock says once something may be due, though nothing is told.
    due_at: Option<u64>,
    /// Whether passes ended of which nothing was written.
    is_unwritten: bool,
    /// What the clock said when that was written last, or tried.
    written_at: Option<u64>,
}

/// The places of all partitions, in their order.
fn places_of<S: BatchStore>(
    alloc: Global,
    state: &BrokerState<S>,
) -> Result<Vec<Place>, AllocError> {
    let mut places = Vec::new(alloc);
    let topics = state.topics();
    for topic in 0..topics.len() {
        push_places(&mut places, topic, topics[topic].partition_count())?;
    }
    Ok(places)
}

/// Puts the places of so many partitions of a topic behind others.
fn push_places(places: &mut Vec<Place>, topic: usize, count: usize) -> Result<(), AllocError> {
    for partition in 0..count {
        places.push(Place { topic, partition })?;
    }
    Ok(())
}

/// What the partition at a place has, if there is one.
fn extent_at<S: BatchStore>(state: &BrokerState<S>, place: Place) -> Option<Extent> {
    let topic = state.topics().get(place.topic)?;
    if place.partition >= topic.partition_count() {
        return None;
    }
    let copy = topic.partition_copy(place.partition);
    let bytes = match image_size(copy) {
        Ok(size) => u64::try_from(size).unwrap_or(0),
        Err(_) => u64::MAX,
    };
    Some(Extent {
        start: copy.start(),
        end: copy.end(),
        bytes,
    })
}

/// The name of the topic at a place, if there is one.
pub(crate) fn topic_at<S: BatchStore>(state: &BrokerState<S>, place: Place) -> Option<&[u8]> {
    Some(state.topics().get(place.topic)?.name())
}

/// The sooner of two times, where there are any.
fn sooner(a: Option<u64>, b: Option<u64>) -> Option<u64> {
    match (a, b) {
        (Some(a), Some(b)) => Some(a.min(b)),
        (None, time) | (time, None) => time,
    }
}

impl Upkeep {
    /// That of a broker's partitions. They are cleaned as the settings say, if there are any. `wall` is what a wall clock says, in
    /// milliseconds, where it could be read. `is_kept` says whether the broker keeps its changes on disk.
    ///
    /// # Errors
    ///
    /// Out of memory.
    pub(crate) fn new<S: BatchStore>(
        alloc: Global,
        settings: Option<Settings>,
        wall: Option<u64>,
        is_kept: bool,
        state: &BrokerState<S>,
    ) -> Result<Upkeep, AllocError> {
        let places = places_of(alloc, state)?;
        let mut cleaned_at = Vec::new(alloc);
        for _ in 0..places.len() {
            cleaned_at.push(None)?;
        }
        let base = wall.unwrap_or(0);
        let policy = match settings {
            Some(settings) => Some(policy_of(alloc, settings, base, places.len())?),
            None => None,
        };
        Ok(Upkeep {
            alloc,
            is_measuring: is_kept || policy.is_some(),
            policy,
            places,
            cleaned_at,
            own: OwnSession::new(alloc),
            base,
            asked: None,
            has_changed: true,
            measured_at: None,
            is_to_ask: false,
            due_at: None,
            is_unwritten: false,
            written_at: None,
        })
    }

    /// What the policy's clock says.
    fn time_at(&self, clock: u64) -> u64 {
        self.base.saturating_add(clock)
    }

    /// Puts back what was kept of a partition's passes over a restart.
    pub(crate) fn put_back<S: BatchStore>(
        &mut self,
        state: &BrokerState<S>,
        topic: &[u8],
        partition: i32,
        marks: Marks,
    ) -> Option<()> {
        let place = state.place_of(topic, partition)?;
        let index = self.index_of(place)?;
        let now = self.base;
        let policy = self.policy.as_mut()?;
        if index < policy.len() {
            policy.put_back(now, index, marks);
        }
        None
    }

    /// The index of a place among all, which rise.
    fn index_of(&self, place: Place) -> Option<usize> {
        self.places
            .binary_search_by_key(&(place.topic, place.partition), |other| {
                (other.topic, other.partition)
            })
            .ok()
    }

    /// Notes that requests were answered.
    pub(crate) fn note_change(&mut self) {
        self.has_changed = true;
    }

    /// Notes that the session with this number may be visited again, and tells whether it is the broker's own.
    pub(crate) fn wake(&mut self, number: u64) -> bool {
        self.own.wake(number)
    }

    /// What the clock says once there is something to do, though no client sends anything; 0 where that is now.
    pub(crate) fn due_at(&self) -> Option<u64> {
        if self.asked.is_some() {
            return if self.own.is_resting() { None } else { Some(0) };
        }
        let measure = if self.has_changed && self.is_measuring {
            Some(self.measure_at())
        } else {
            None
        };
        let ask = match self.due_at {
            Some(time) if self.policy.is_some() => Some(time.saturating_sub(self.base)),
            _ => None,
        };
        let ask = if self.is_to_ask { Some(0) } else { ask };
        sooner(measure, ask)
    }

    /// What the clock says once all may be measured again.
    fn measure_at(&self) -> u64 {
        match self.measured_at {
            Some(at) => at.saturating_add(BETWEEN_MEASURES),
            None => 0,
        }
    }

    /// Goes on: takes the reply to what was asked for, measures all partitions where they may have changed, and asks for the
    /// next cleaning, if one is due. `clock` counts milliseconds. Gives what came of the cleaning that is over, if one is.
    pub(crate) fn go_on<B: ServedSessions>(
        &mut self,
        sessions: &mut B,
        clock: u64,
    ) -> Option<Outcome> {
        let outcome = self.take_reply(sessions, clock);
        if let Some(asked) = &mut self.asked {
            if self.own.is_woken() {
                asked.is_failed = self.own.ask_again(sessions, clock) == Asking::Failed;
            }
            return outcome;
        }
        if self.has_changed && self.is_measuring && self.measure_at() <= clock {
            self.measure(sessions, clock);
        }
        self.ask(sessions, clock);
        outcome
    }

    /// Takes the reply to what was asked for, if it has left.
    fn take_reply<B: ServedSessions>(&mut self, sessions: &mut B, clock: u64) -> Option<Outcome> {
        let asked = self.asked?;
        let replied = if asked.is_failed {
            Replied::Failed
        } else {
            self.own.take_reply(sessions)
        };
        let why = match replied {
            Replied::NotYet => return None,
            Replied::Reply(answer) if answer.code == 0 => {
                return self.note_cleaned(sessions, clock, asked, answer);
            }
            Replied::Reply(answer) if answer.code != STORAGE_ERROR => WhyGivenUp::Code(answer.code),
            Replied::Reply(_) | Replied::Failed => WhyGivenUp::OutOfMemory,
        };
        self.asked = None;
        self.is_to_ask = true;
        let now = self.time_at(clock);
        if let Some(policy) = &mut self.policy {
            policy.given_up(now);
        }
        Some(Outcome::GivenUp(asked.place, why))
    }

    /// Notes that what was asked for is done.
    fn note_cleaned<B: ServedSessions>(
        &mut self,
        sessions: &B,
        clock: u64,
        asked: Asked,
        answer: CleanAnswer,
    ) -> Option<Outcome> {
        self.asked = None;
        self.is_to_ask = true;
        self.is_unwritten = true;
        self.has_changed = true;
        let after = match extent_at(sessions.state(), asked.place) {
            Some(extent) => extent.bytes,
            None => 0,
        };
        let now = self.time_at(clock);
        if let Some(policy) = &mut self.policy {
            policy.cleaned(now, after);
        }
        let mut cleaned = Cleaned {
            place: asked.place,
            before: asked.bytes,
            after,
            answer,
            millis: clock.saturating_sub(asked.began),
            at: clock,
            before_at: None,
        };
        if cleaned.has_removed()
            && let Some(at) = self.cleaned_at.get_mut(asked.index)
        {
            cleaned.before_at = at.replace(clock);
        }
        Some(Outcome::Cleaned(cleaned))
    }

    /// Measures all partitions, and tells the policy.
    fn measure<B: ServedSessions>(&mut self, sessions: &mut B, clock: u64) {
        self.has_changed = false;
        self.measured_at = Some(clock);
        self.is_to_ask = true;
        let now = self.time_at(clock);
        for index in 0..self.places.len() {
            let Some(extent) = extent_at(sessions.state(), self.places[index]) else {
                continue;
            };
            if !tell(&mut self.policy, now, index, extent) {
                self.has_changed = true;
            }
        }
        sessions.measure();
    }

    /// Asks for the next cleaning, if one is due.
    fn ask<B: ServedSessions>(&mut self, sessions: &mut B, clock: u64) -> Option<()> {
        let now = self.time_at(clock);
        let is_over = matches!(self.due_at, Some(time) if time <= now);
        if !self.is_to_ask && !is_over {
            return None;
        }
        self.is_to_ask = false;
        let policy = self.policy.as_mut()?;
        let Some(frame) = policy.next(now) else {
            self.due_at = policy.due_at(now);
            return None;
        };
        self.ask_for(sessions, clock, frame);
        None
    }

    /// Asks for a cleaning. Where that fails, the pass ends once its reply is asked for.
    fn ask_for<B: ServedSessions>(&mut self, sessions: &mut B, clock: u64, frame: Frame) {
        let place = match self.places.get(frame.partition) {
            Some(place) => *place,
            None => NO_PLACE,
        };
        let bytes = match extent_at(sessions.state(), place) {
            Some(extent) => extent.bytes,
            None => 0,
        };
        let is_failed = self.send_frame(sessions, clock, place, frame).is_none();
        self.asked = Some(Asked {
            index: frame.partition,
            place,
            bytes,
            began: clock,
            is_failed,
        });
    }

    /// Gives a frame to the broker's own session. None where it couldn't.
    fn send_frame<B: ServedSessions>(
        &mut self,
        sessions: &mut B,
        clock: u64,
        place: Place,
        frame: Frame,
    ) -> Option<()> {
        let topic = topic_at(sessions.state(), place)?;
        let mut name = Vec::new(self.alloc);
        name.extend_from_slice(topic).ok()?;
        let asked = CleanAsked {
            topic: &name,
            partition: i32::try_from(place.partition).ok()?,
            upto: frame.upto,
            tomb_before: frame.tomb_before,
        };
        match self.own.ask(sessions, clock, asked) {
            Asking::Handled | Asking::PutOff => Some(()),
            Asking::Failed => None,
        }
    }

    // ---- what is kept over restarts

    /// What the clock says once what is known of passes is to be written, if it is; `is_elsewhere` says whether what was written
    /// last stands behind another journal.
    pub(crate) fn write_at(&self, is_elsewhere: bool) -> Option<u64> {
        if self.policy.is_none() || !(self.is_unwritten || is_elsewhere) {
            return None;
        }
        match self.written_at {
            Some(at) => Some(at.saturating_add(BETWEEN_WRITES)),
            None => Some(0),
        }
    }

    /// Notes that it was tried to write what is known, and whether it was written.
    pub(crate) fn note_written(&mut self, clock: u64, is_written: bool) {
        self.written_at = Some(clock);
        if is_written {
            self.is_unwritten = false;
        }
    }

    /// How many partitions there are of which something may be known.
    pub(crate) fn len(&self) -> usize {
        match &self.policy {
            Some(policy) => policy.len().min(self.places.len()),
            None => 0,
        }
    }

    /// The place of a partition and what is known of its passes, by its index, with times of a wall clock that says `wall` where the
    /// clock of the rounds says `clock`.
    pub(crate) fn known_at(&self, index: usize, clock: u64, wall: u64) -> Option<(Place, Marks)> {
        let place = *self.places.get(index)?;
        let policy = self.policy.as_ref()?;
        if index >= policy.len() {
            return None;
        }
        let shift = Shift {
            from: self.time_at(clock),
            to: wall,
        };
        Some((place, shift.marks(policy.marks(index))))
    }
}

/// From one clock to another.
#[derive(Clone, Copy)]
struct Shift {
    /// What the one says, and the other at that time, in milliseconds.
    from: u64,
    to: u64,
}

impl Shift {
    /// A time by the other clock: as far from what that says as it is from what the one says.
    fn time(self, time: u64) -> u64
        ensures { result ≡ min ((time + self.to) - self.from) 18446744073709551615 }
    {
        if self.from <= self.to {
            time.saturating_add(self.to - self.from)
        } else {
            time.saturating_sub(self.from - self.to)
        }
    }

    /// A mark by the other clock.
    fn mark(self, mark: Option<Mark>) -> Option<Mark> {
        match mark {
            Some(mark) => Some(Mark {
                upto: mark.upto,
                ended: self.time(mark.ended),
            }),
            None => None,
        }
    }

    /// Marks by the other clock.
    fn marks(self, marks: Marks) -> Marks {
        Marks {
            older: self.mark(marks.older),
            newest: self.mark(marks.newest),
            began: self.time(marks.began),
            ..marks
        }
    }
}

/// A policy of so many partitions.
fn policy_of(
    alloc: Global,
    settings: Settings,
    now: u64,
    count: usize,
) -> Result<Policy<Global>, AllocError> {
    let mut policy = Policy::new(alloc, settings);
    for _ in 0..count {
        policy.add(now)?;
    }
    Ok(policy)
}

/// Tells a policy, if there is one, what a partition has. Gives whether it knows now: it doesn't where memory lacked for that.
fn tell(policy: &mut Option<Policy<Global>>, now: u64, index: usize, extent: Extent) -> bool {
    match policy {
        Some(policy) if index < policy.len() => policy.tell(now, index, extent).is_ok(),
        _ => true,
    }
}
