//! Events, one and many.

ghost use Rattle.std.specs.Prelude.{◌≡◌, IfOk, OnErr};
ghost use Rattle.cluster.specs.Events.{Steps, Runs};
ghost use Rattle.cluster.specs.Headline.{Headline, HoldsOnTheWay};

use crate::cleaning::Cleaning;
use crate::cluster::Cluster;
use crate::event::{Event, EventError, Outcome};
use segment::BatchStore;
use std::alloc::{AllocError, Allocator};

impl<S: BatchStore> Cluster<S> {
    /// Does an event, whichever it is.
    fn act<A: Allocator + Copy>(&mut self, event: &Event<A>) -> Result<Outcome, EventError>
        ensures { Steps self.old event.now self.new result }
    {
        match event {
            Event::Produce { bytes } => self.produce(bytes),
            Event::Deliver { copy, batch } => self.deliver(*copy, *batch),
            Event::Clean {
                copy,
                upto,
                tomb_before,
            } => self.clean(
                *copy,
                Cleaning::Whole {
                    upto: *upto,
                    tomb_before: *tomb_before,
                },
            ),
            Event::CleanPart { copy, part } => self.clean(*copy, Cleaning::Part(*part)),
            Event::Send { copy } => self.send(*copy),
            Event::Merge { copy, image } => self.merge(*copy, *image),
            Event::Trim { copy, start } => self.trim(*copy, *start),
        }
    }

    /// Makes an event happen.
    ///
    /// # Errors
    ///
    /// The first that applies, in the order of the variants of [`EventError`]. The cluster is as it was.
    #[tactic(auto, using(crate::proofs::Headlines::headline_of))]
    pub fn step<A: Allocator + Copy>(&mut self, event: &Event<A>) -> Result<Outcome, EventError>
        ensures steps { Steps self.old event.now self.new result }
        ensures headline { Headline self.new }
    {
        let result = self.act(event);
        self.know_consistent();
        result
    }

    /// Makes events happen, one after the other, and answers what came of each. One that is refused
    /// changes nothing, and those behind it happen all the same.
    ///
    /// # Errors
    ///
    /// Out of memory for the answers: no event happened.
    #[tactic(auto, using(crate::proofs::Headlines::headline_of, crate::proofs::EventLists::one_more))]
    pub fn run<A: Allocator + Copy>(
        &mut self,
        events: &[Event<A>],
    ) -> Result<Vec<Result<Outcome, EventError>, S::Alloc>, AllocError>
        ensures runs { IfOk result (λ results. Runs self.old events.now results.items self.new) }
        ensures headline { Headline self.new }
        ensures headline_on_the_way { IfOk result
            (λ results. HoldsOnTheWay self.old events.now results.items self.new) }
        ensures no_step_on_error { OnErr result (self.new ≡ self.old) }
    {
        self.know_consistent();
        let mut results = Vec::with_capacity(self.alloc, events.len())?;
        for event in events {
            results.push_reserved(self.act(event));
        }
        self.know_consistent();
        Ok(results)
    }
}
