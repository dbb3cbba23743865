//! What is known of one partition.

ghost use Rattle.std.specs.Prelude.{◌≡◌, IfOk, OnErr, ℕ, List, map, ◌∷◌, []};
ghost use Rattle.cleaning_policy.specs.Samples.{old_sample};
ghost use Rattle.cleaning_policy.specs.Policies.{moments, ripe_at, sooner, soonest};
ghost use Rattle.cleaning_policy.specs.Partitions.{new_part, difference, came_by, sample_of, told_part, dirty_bytes, old_bytes, is_dirty, is_late, is_riper, is_due, frame_of, due_pass, begun_part, cleaned_part, given_up_part, part_with_marks};

use crate::marks::{by_now, no_marks, tomb_bound, with_mark};
use crate::samples::{has_passed, note_sample, old_sample};
use crate::times::{old_before, ripe_before, sooner, sooner_behind};
use crate::values::{Extent, Frame, LEAST_DIRTY, Marks, Pass, RETRY, Sample, Settings};
use std::alloc::{AllocError, Allocator};
use std::marker::Model;

/// A partition: its samples, newest first, and what was told and done last.
#[derive(Drop)]
pub(crate) struct Partition<A: Allocator + Copy> {
    samples: Vec<Sample, A>,
    start: i64,
    bytes: u64,
    came: u64,
    covered: u64,
    from: u64,
    marks: Marks,
}

impl<A: Allocator + Copy> Model for Partition<A> {
    ghost use Rattle.cleaning_policy.specs.Partitions.{Part};

    ghost Value = { Part };

    ghost view = { λ p. record {
      samples = p.samples.items;
      start = p.start;
      bytes = p.bytes;
      came = p.came;
      covered = p.covered;
      from = p.from;
      marks = p.marks;
    } };
}

impl<A: Allocator + Copy> Partition<A> {
    /// A partition of which nothing was told. Takes no memory.
    pub(crate) fn new(alloc: A, now: u64) -> Partition<A>
        ensures { result ≡ new_part now }
    {
        Partition {
            samples: Vec::new(alloc),
            start: 0,
            bytes: 0,
            came: 0,
            covered: 0,
            from: now,
            marks: no_marks(now),
        }
    }

    /// What is kept of its passes over a restart.
    pub(crate) fn marks(&self) -> Marks
        ensures { result ≡ self.now.marks }
    {
        self.marks
    }

    /// Puts back what was kept over a restart.
    pub(crate) fn put_back(&mut self, now: u64, marks: Marks)
        ensures { self.new ≡ part_with_marks now marks self.old }
    {
        self.covered = marks.size;
        self.marks = Marks {
            older: by_now(marks.older, now),
            newest: by_now(marks.newest, now),
            began: marks.began.min(now),
            ..marks
        };
    }

    /// The bytes that came, with those that came since.
    fn came_by(&self, extent: Extent) -> u64
        ensures { result ≡ came_by self.now extent }
    {
        self.came
            .saturating_add(difference(self.bytes, extent.bytes))
    }

    /// What is told now, as a sample.
    fn sample_of(&self, now: u64, extent: Extent) -> Sample
        ensures { result ≡ sample_of now self.now extent }
    {
        Sample {
            time: now,
            end: extent.end,
            came: self.came_by(extent),
        }
    }

    /// Is told what the partition has.
    ///
    /// # Errors
    ///
    /// Out of memory: it is as if nothing was told.
    pub(crate) fn tell(&mut self, lag: u64, now: u64, extent: Extent) -> Result<(), AllocError>
        ensures tells { IfOk result (λ _. self.new ≡ told_part lag now extent self.old) }
        ensures same { OnErr result (self.new ≡ self.old) }
    {
        let sample = self.sample_of(now, extent);
        note_sample(&mut self.samples, lag, sample)?;
        self.start = extent.start;
        self.bytes = extent.bytes;
        self.came = sample.came;
        Ok(())
    }

    /// Whether so many hundredths of what is old are dirty, and enough bytes.
    fn is_dirty(&self, percent: u64, sample: Sample) -> bool
        ensures { result ≡ is_dirty percent self.now sample }
    {
        let dirty = sample.came.saturating_sub(self.covered);
        let young = self.came.saturating_sub(sample.came);
        let old = self.bytes.saturating_sub(young);
        LEAST_DIRTY <= dirty && old / 100 <= dirty / percent.max(1)
    }

    /// Whether the last pass began so long ago, and something came since.
    fn is_late(&self, within: u64, now: u64, sample: Sample) -> bool
        ensures { result ≡ is_late within now self.now sample }
    {
        let dirty = sample.came.saturating_sub(self.covered);
        has_passed(self.marks.began, within, now) && (0 < dirty || self.marks.reached < sample.end)
    }

    /// Whether more deletions may go than the last pass knew of.
    fn is_riper(&self, keep: u64, now: u64) -> bool
        ensures { result ≡ is_riper keep now self.now }
    {
        self.marks.used < tomb_bound(&self.marks, keep, now)
    }

    /// Whether a pass up to the end of a sample is due.
    fn is_due(&self, settings: &Settings, now: u64, sample: Sample) -> bool
        ensures { result ≡ is_due settings.now now self.now sample }
    {
        if self.start >= sample.end || now < self.from {
            return false;
        }
        self.is_dirty(settings.percent, sample)
            || self.is_late(settings.within, now, sample)
            || self.is_riper(settings.keep_deletes, now)
    }

    /// The pass that is due, or none.
    pub(crate) fn due_pass(&self, settings: &Settings, now: u64, partition: usize) -> Option<Pass>
        ensures { result ≡ due_pass settings.now now partition self.now }
    {
        let sample = old_sample(&self.samples, settings.lag, now)?;
        if !self.is_due(settings, now, sample) {
            return None;
        }
        let frame = Frame {
            partition,
            upto: sample.end,
            tomb_before: tomb_bound(&self.marks, settings.keep_deletes, now),
        };
        Some(Pass {
            frame,
            came: sample.came,
        })
    }

    /// Its pass begins.
    pub(crate) fn begin(&mut self, now: u64)
        ensures { self.new ≡ begun_part now self.old }
    {
        self.marks.began = now;
    }

    /// Its pass is over, and left so many bytes in all.
    pub(crate) fn end(&mut self, keep: u64, now: u64, pass: Pass, bytes: u64)
        ensures { self.new ≡ cleaned_part keep now pass bytes self.old }
    {
        let marks = with_mark(self.marks, keep, now, pass.frame.upto);
        let young = self.came.saturating_sub(pass.came);
        self.marks = Marks {
            used: pass.frame.tomb_before,
            reached: pass.frame.upto,
            size: bytes.saturating_sub(young),
            ..marks
        };
        self.bytes = bytes;
        self.covered = pass.came;
    }

    /// Its pass was given up.
    pub(crate) fn give_up(&mut self, now: u64)
        ensures { self.new ≡ given_up_part now self.old }
    {
        self.from = now.saturating_add(RETRY);
    }

    /// The first of the times behind now at which something of it may become due, or another time that
    /// is sooner.
    pub(crate) fn due_at(&self, settings: &Settings, now: u64, found: Option<u64>) -> Option<u64>
        ensures { result ≡ soonest now found (moments settings.now self.now) }
    {
        let from = sooner(now, found, self.from);
        let late = sooner_behind(now, from, self.marks.began, settings.within);
        let newest = ripe_before(now, late, self.marks.newest, settings.keep_deletes);
        let older = ripe_before(now, newest, self.marks.older, settings.keep_deletes);
        old_before(now, older, &self.samples, settings.lag)
    }
}

/// By how many bytes two numbers of them differ.
fn difference(a: u64, b: u64) -> u64
    ensures { result ≡ difference a b }
{
    if a < b { b - a } else { a - b }
}
