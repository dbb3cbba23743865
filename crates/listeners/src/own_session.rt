//! The session by which a broker asks itself for cleanings. It is a session as any other, so that its frames are kept and
//! handled in order with those of clients; but it is no connection, and no limit of connections counts it.

use crate::serving_sessions::ServedSessions;
use cleaning_frames::{CleanAnswer, put_clean_frame, read_clean_reply};
use kept_starts::Sent;
use kept_starts::sessions::{Seat, Then};
use std::alloc::{AllocError, Global};

/// The longest name that a request can have, in bytes.
const LONGEST_NAME: usize = 32_767;

/// The room that is taken for a response, in bytes; it is more than one takes.
const REPLY_ROOM: usize = 256;

/// What is asked for: that a topic's partition is cleaned.
#[derive(Clone, Copy)]
pub(crate) struct CleanAsked<'a> {
    pub(crate) topic: &'a [u8],
    pub(crate) partition: i32,
    /// Only batches wholly below this offset are cleaned.
    pub(crate) upto: i64,
    /// Of these only deletions below this offset go.
    pub(crate) tomb_before: i64,
}

/// What came of asking.
#[derive(Clone, Copy, PartialEq, Eq)]
pub(crate) enum Asking {
    /// The frame was handled: its reply leaves once what it did is kept.
    Handled,
    /// It was put off, until its partition may change.
    PutOff,
    /// There was no memory for it: nothing was done.
    Failed,
}

/// What is known of the reply.
#[derive(Clone, Copy)]
pub(crate) enum Replied {
    /// It hasn't left yet.
    NotYet,
    Reply(CleanAnswer),
    /// There is none: there was no memory for it.
    Failed,
}

/// The broker's own session.
#[derive(Drop)]
pub(crate) struct OwnSession {
    alloc: Global,
    /// Its number, while it is open.
    number: Option<u64>,
    seat: Seat,
    /// Whether its frame is put off.
    is_put_off: bool,
    /// Whether that frame may be handled now.
    is_woken: bool,
    /// The number that the next frame has in its response.
    correlation: i32,
    reply: Vec<u8>,
}

impl OwnSession {
    /// It isn't open yet.
    pub(crate) fn new(alloc: Global) -> OwnSession {
        OwnSession {
            alloc,
            number: None,
            seat: Seat::new(),
            is_put_off: false,
            is_woken: false,
            correlation: 0,
            reply: Vec::new(alloc),
        }
    }

    /// Whether its frame is put off, and may not be handled yet.
    pub(crate) fn is_resting(&self) -> bool {
        self.is_put_off && !self.is_woken
    }

    /// Whether its frame was put off, and may be handled now.
    pub(crate) fn is_woken(&self) -> bool {
        self.is_put_off && self.is_woken
    }

    /// Notes that the session with this number may be visited again, and tells whether it is this one.
    pub(crate) fn wake(&mut self, number: u64) -> bool {
        let is_own = self.number == Some(number);
        if is_own {
            self.is_woken = true;
        }
        is_own
    }

    /// Opens it where it isn't open, and gives its number.
    fn opened<B: ServedSessions>(&mut self, sessions: &mut B) -> Result<u64, AllocError> {
        self.reply.clear();
        self.reply.reserve(REPLY_ROOM)?;
        if let Some(number) = self.number {
            return Ok(number);
        }
        let number = sessions.open()?;
        self.number = Some(number);
        self.seat = Seat::new();
        Ok(number)
    }

    /// Closes it: it is opened anew for the next frame.
    fn close<B: ServedSessions>(&mut self, sessions: &mut B) {
        if let Some(number) = self.number.take() {
            sessions.close(number);
        }
        self.is_put_off = false;
        self.is_woken = false;
    }

    /// The frame that asks for a cleaning.
    fn frame_of(&mut self, asked: CleanAsked<'_>) -> Result<Vec<u8>, AllocError> {
        let CleanAsked {
            topic,
            partition,
            upto,
            tomb_before,
        } = asked;
        let mut frame = Vec::new(self.alloc);
        if topic.len() > LONGEST_NAME {
            return Err(AllocError);
        }
        self.correlation = self.correlation.checked_add(1).unwrap_or(0);
        let correlation = self.correlation;
        put_clean_frame(&mut frame, correlation, topic, partition, upto, tomb_before)?;
        Ok(frame)
    }

    /// Asks for a cleaning. No other frame of it is held, and the reply to each former one was taken.
    pub(crate) fn ask<B: ServedSessions>(
        &mut self,
        sessions: &mut B,
        clock: u64,
        asked: CleanAsked<'_>,
    ) -> Asking {
        let Ok(frame) = self.frame_of(asked) else {
            return Asking::Failed;
        };
        let Ok(number) = self.opened(sessions) else {
            return Asking::Failed;
        };
        self.seat.may_read = true;
        let mut from: &[u8] = &frame;
        let asking = self.visit(sessions, number, clock, &mut from);
        if asking != Asking::Failed && from.is_empty() {
            return asking;
        }
        self.close(sessions);
        Asking::Failed
    }

    /// Has the frame handled that was put off.
    pub(crate) fn ask_again<B: ServedSessions>(&mut self, sessions: &mut B, clock: u64) -> Asking {
        let Some(number) = self.number else {
            return Asking::Failed;
        };
        let mut from: &[u8] = &[];
        let asking = self.visit(sessions, number, clock, &mut from);
        if asking == Asking::Failed {
            self.close(sessions);
        }
        asking
    }

    /// Visits it, and reads nothing behind its frame: that would be the end of its input.
    fn visit<B: ServedSessions>(
        &mut self,
        sessions: &mut B,
        number: u64,
        clock: u64,
        from: &mut &[u8],
    ) -> Asking {
        self.is_put_off = false;
        self.is_woken = false;
        let visit = sessions.visit(number, clock, &mut self.seat, from);
        self.seat.may_read = false;
        let Some(visit) = visit else {
            return Asking::Failed;
        };
        match visit.then {
            Then::PutOff(place) => {
                self.is_put_off = sessions.put_off(number, place).is_ok();
                if self.is_put_off {
                    Asking::PutOff
                } else {
                    Asking::Failed
                }
            }
            Then::Over(_) => Asking::Failed,
            Then::Again | Then::Dear | Then::Idle => Asking::Handled,
        }
    }

    /// Takes the reply to the frame that was handled, if it may leave.
    pub(crate) fn take_reply<B: ServedSessions>(&mut self, sessions: &mut B) -> Replied {
        let Some(number) = self.number else {
            return Replied::Failed;
        };
        if self.is_put_off {
            return Replied::NotYet;
        }
        self.seat.may_write = true;
        let replied = match sessions.send(number, &mut self.seat, &mut self.reply) {
            Some(Sent::HeldBack) => return Replied::NotYet,
            Some(Sent::Bytes(_)) => read_clean_reply(&self.reply),
            Some(Sent::Failed(_)) | None => None,
        };
        match replied {
            Some(answer) => Replied::Reply(answer),
            None => {
                self.close(sessions);
                Replied::Failed
            }
        }
    }
}
