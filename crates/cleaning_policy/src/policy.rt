//! The policy over all partitions.

ghost use Rattle.std.specs.Prelude.{◌≡◌, ◌<◌, List, length, drop, slice_get, IfOk, OnErr, IfSome};
ghost use Rattle.std.specs.Option.{option_map};
ghost use Rattle.cleaning_policy.specs.Policies.{new_policy, with_partition, told, put_back, cleaned, given_up, first_pass, next_pass, behind_pass, due_at};
ghost use Rattle.cleaning_policy.specs.Histories.{Call, IsBounded, behind, history};

use crate::partition::Partition;
use crate::values::{Extent, Frame, Marks, Pass, Settings};
use std::alloc::{AllocError, Allocator};
use std::marker::Model;

/// When which partition is cleaned. Partitions are known by their index.
#[derive(Drop)]
pub struct Policy<A: Allocator + Copy> {
    alloc: A,
    settings: Settings,
    parts: Vec<Partition<A>, A>,
    pass: Option<Pass>,
    turn: usize,
}

impl<A: Allocator + Copy> Model for Policy<A> {
    ghost use Rattle.std.specs.Prelude.{◌<◌, length, IfSome};
    ghost use Rattle.cleaning_policy.specs.Policies.{Known};

    ghost Value = { Known };

    ghost view = { λ p. record {
      settings = p.settings;
      parts = p.parts.items;
      pass = p.pass;
      turn = p.turn;
    } };

    ghost invariant = { λ p. IfSome p.pass (λ q. q.frame.partition < length p.parts.items) };
}

impl<A: Allocator + Copy> Policy<A> {
    /// The policy of no partition. Takes no memory.
    pub fn new(alloc: A, settings: Settings) -> Policy<A>
        ensures { result ≡ new_policy settings }
    {
        Policy {
            alloc,
            settings,
            parts: Vec::new(alloc),
            pass: None,
            turn: 0,
        }
    }

    /// How many partitions there are.
    pub fn len(&self) -> usize
        ensures { result ≡ length self.now.parts }
    {
        self.parts.len()
    }

    /// Adds a partition, of which nothing was told.
    ///
    /// # Errors
    ///
    /// Out of memory: the policy is as it was.
    pub fn add(&mut self, now: u64) -> Result<(), AllocError>
        ensures adds { IfOk result (λ _. self.new ≡ with_partition now self.old) }
        ensures same { OnErr result (self.new ≡ self.old) }
    {
        let part = Partition::new(self.alloc, now);
        self.parts.push(part)?;
        Ok(())
    }

    /// Is told what a partition has.
    ///
    /// # Errors
    ///
    /// Out of memory: it is as if nothing was told.
    pub fn tell(&mut self, now: u64, partition: usize, extent: Extent) -> Result<(), AllocError>
        requires known { partition < length self.old.parts }
        ensures tells { IfOk result (λ _. self.new ≡ told now partition extent self.old) }
        ensures same { OnErr result (self.new ≡ self.old) }
    {
        let lag = self.settings.lag;
        self.parts[partition].tell(lag, now, extent)
    }

    /// What is kept of a partition's passes over a restart.
    pub fn marks(&self, partition: usize) -> Marks
        requires known { partition < length self.now.parts }
        ensures { IfSome (slice_get self.now.parts partition) (λ p. result ≡ p.marks) }
    {
        self.parts[partition].marks()
    }

    /// Puts back what was kept of a partition's passes over a restart, before it is told of. Times that lie
    /// behind now count from now.
    pub fn put_back(&mut self, now: u64, partition: usize, marks: Marks)
        requires known { partition < length self.old.parts }
        ensures { self.new ≡ put_back now partition marks self.old }
    {
        self.parts[partition].put_back(now, marks);
    }

    /// The pass that is under way, if one is.
    pub fn pass(&self) -> Option<Pass>
        ensures { result ≡ self.now.pass }
    {
        self.pass
    }

    /// The pass of the first partition that is due, from an index on.
    fn first_pass(&self, now: u64, from: usize) -> Option<Pass>
        ensures { result ≡ first_pass self.now.settings now from (drop from self.now.parts) }
    {
        let mut i = from;
        while i < self.parts.len() {
            let found = self.parts[i].due_pass(&self.settings, now, i);
            match found {
                Some(pass) => return Some(pass),
                None => i += 1,
            }
        }
        None
    }

    /// The next pass, if one is due and none is under way.
    fn find_pass(&self, now: u64) -> Option<Pass>
        ensures { result ≡ next_pass now self.now self.now.pass }
    {
        match self.pass {
            Some(_) => None,
            None => match self.first_pass(now, self.turn) {
                Some(pass) => Some(pass),
                None => self.first_pass(now, 0),
            },
        }
    }

    /// The next pass, likewise.
    fn next_pass(&self, now: u64) -> Option<Pass>
        ensures is_next { result ≡ next_pass now self.now self.now.pass }
        ensures within { IfSome result (λ q. q.frame.partition < length self.now.parts) }
    {
        self.find_pass(now)
    }

    /// The next frame, if a partition is due and no pass is under way. Its pass is then under way.
    pub fn next(&mut self, now: u64) -> Option<Frame>
        ensures gives { result ≡ option_map (λ q. q.frame) (next_pass now self.old self.old.pass) }
        ensures goes_on { self.new ≡ behind_pass now self.old (next_pass now self.old self.old.pass) }
        ensures bounded { (calls : List Call) → self.old ≡ behind self.old.settings calls
            → IfSome result (IsBounded self.old.settings (history self.old.settings calls) now) }
    {
        let pass = self.next_pass(now)?;
        self.parts[pass.frame.partition].begin(now);
        self.pass = Some(pass);
        self.turn = pass.frame.partition + 1;
        Some(pass.frame)
    }

    /// The frame of the pass that is under way was answered, and so many bytes are left in its partition.
    pub fn cleaned(&mut self, now: u64, bytes: u64)
        ensures { self.new ≡ cleaned now bytes self.old self.old.pass }
    {
        let keep = self.settings.keep_deletes;
        match self.pass {
            Some(pass) => {
                self.parts[pass.frame.partition].end(keep, now, pass, bytes);
                self.pass = None;
            }
            None => {}
        }
    }

    /// The frame of the pass that is under way was refused. The partition's next pass comes a while later.
    pub fn given_up(&mut self, now: u64)
        ensures { self.new ≡ given_up now self.old self.old.pass }
    {
        match self.pass {
            Some(pass) => {
                self.parts[pass.frame.partition].give_up(now);
                self.pass = None;
            }
            None => {}
        }
    }

    /// The first time behind now at which something may become due that isn't, if nothing is told; none
    /// where nothing will be.
    pub fn due_at(&self, now: u64) -> Option<u64>
        ensures { result ≡ due_at now self.now }
    {
        let mut first = None;
        for part in &self.parts {
            first = part.due_at(&self.settings, now, first);
        }
        first
    }
}
