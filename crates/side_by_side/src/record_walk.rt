//! A walk over a batch's records, by rising offset delta.

ghost use Rattle.std.specs.Prelude.{◌≡◌, ◌∷◌, [], MatchOption};
ghost use Rattle.std.specs.Option.{option_map};
ghost use Rattle.batch_codec.specs.Views.{record_value};
ghost use Rattle.side_by_side.specs.RecordWalks.{starts_below, starts_at, from_delta, at_delta, behind_delta};

use batch_codec::{BatchView, RecordView, Records};
use std::marker::Model;

/// The records that a walk has not passed yet.
#[derive(Drop)]
pub(crate) struct RecordWalk<'a> {
    /// The first of them, if there is one.
    waiting: Option<RecordView<'a>>,
    rest: Records<'a>,
}

impl<'a> Model for RecordWalk<'a> {
    ghost use Rattle.std.specs.Prelude.{◌≡◌, List, [], IfNone};
    ghost use Rattle.std.specs.List.{cons_option};
    ghost use Rattle.std.specs.Option.{option_map};
    ghost use Rattle.batch_codec.specs.Values.{RecordValue};
    ghost use Rattle.batch_codec.specs.Views.{record_value};

    ghost Value = { List RecordValue };

    ghost view = { λ w. cons_option (option_map record_value w.waiting) w.rest };

    ghost invariant = { λ w. IfNone w.waiting (w.rest ≡ []) };
}

impl<'a> RecordWalk<'a> {
    /// A walk over all records of a batch.
    pub(crate) fn new(batch: &BatchView<'a>) -> RecordWalk<'a>
        ensures { result ≡ batch.now.recs }
    {
        let mut rest = batch.recs();
        let waiting = rest.next();
        RecordWalk { waiting, rest }
    }

    /// Whether the next record's delta is less than this one.
    fn is_below(&self, delta: i32) -> bool
        ensures { result ≡ starts_below delta self.now }
    {
        match &self.waiting {
            Some(rec) => rec.delta < delta,
            None => false,
        }
    }

    /// Whether the next record's delta is this one.
    fn is_at(&self, delta: i32) -> bool
        ensures { result ≡ starts_at delta self.now }
    {
        match &self.waiting {
            Some(rec) => rec.delta == delta,
            None => false,
        }
    }

    /// Passes the next record.
    fn pass(&mut self) -> Option<RecordView<'a>>
        ensures { MatchOption result ((self.old ≡ []) × (self.new ≡ []))
            (λ rec. self.old ≡ record_value rec ∷ self.new) }
    {
        let next = self.rest.next();
        std::mem::replace(&mut self.waiting, next)
    }

    /// Passes the records of lesser deltas.
    fn pass_below(&mut self, delta: i32)
        ensures { self.new ≡ from_delta delta self.old }
    {
        while self.is_below(delta) {
            let _ = self.pass();
        }
    }

    /// Passes the records up to a delta, and gives the one of that delta, if there is one.
    pub(crate) fn at(&mut self, delta: i32) -> Option<RecordView<'a>>
        ensures finds { option_map record_value result ≡ at_delta delta self.old }
        ensures passes { self.new ≡ behind_delta delta self.old }
    {
        self.pass_below(delta);
        if self.is_at(delta) {
            return self.pass();
        }
        None
    }
}
