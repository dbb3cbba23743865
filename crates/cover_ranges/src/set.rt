//! The set of offsets.
ghost use Rattle.std.specs.Prelude.{◌≡◌, ◌<◌, ◌≤◌, ◌+◌, ◌^◌, ◌||◌, ◌&&◌, ◌↔◌, ℤ, pos, ◌<ℤ◌, ◌≤ℤ◌, int_le, [], length, slice_index_or, IsTrue, IfOk, IfErr, OnOk, OnErr, IsOk};
ghost use Rattle.cover_ranges.specs.Runs.{is_within, covers, IsCanonical, with_range, union_of, cut_below, CoversAll, CoversAny, IsSubset};
ghost use Rattle.cover_ranges.specs.CoverValue.{HasRoom};
ghost use Rattle.cover_ranges.specs.Refusal.{IsRefusal};

use crate::OFFSETS_END;
use crate::edit::{self, replace, splice_of};
use crate::error::CoverError;
use crate::judge::judge;
use crate::search::{self, comes_next};
use std::alloc::{AllocError, Allocator};
use std::marker::Model;

/// A set of offsets from 0 to 2^62 - 1, kept as its maximal ranges.
#[derive(Drop)]
pub struct Cover<A: Allocator + Copy> {
    ranges: Vec<(i64, i64), A>,
}

impl<A: Allocator + Copy> Model for Cover<A> {
    ghost use Rattle.std.specs.Prelude.{◌-◌};
    ghost use Rattle.std.specs.Vec.{vec_len, vec_capacity};
    ghost use Rattle.cover_ranges.specs.Runs.{IsCanonical};
    ghost use Rattle.cover_ranges.specs.CoverValue.{CoverValue};

    ghost Value = { CoverValue };

    ghost view = { λ cover. record {
      runs = cover.ranges.items;
      room = vec_capacity cover.ranges - vec_len cover.ranges;
    } };

    ghost invariant = { λ cover. IsCanonical cover.ranges.items };
}

impl<A: Allocator + Copy> Cover<A> {
    /// The empty set. It takes no memory.
    pub fn new(alloc: A) -> Cover<A>
        ensures { result.runs ≡ [] }
    {
        Cover {
            ranges: Vec::new(alloc),
        }
    }

    /// Takes a list of ranges, each from its first to its last offset, as a set. They rise, and
    /// there is a gap between any two.
    ///
    /// The first range at fault decides the error, and within it the first of `EmptyRange`,
    /// `NotRising` and `OutOfBounds`. `OutOfMemory` comes only where no range is at fault.
    pub fn from_ranges(alloc: A, ranges: &[(i64, i64)]) -> Result<Cover<A>, CoverError>
        ensures accepts_maximal_runs { IfOk result (λ _. IsCanonical ranges.now) }
        ensures holds_the_ranges { IfOk result (λ cover. cover.runs ≡ ranges.now) }
        ensures names_the_first_fault { IfErr result (λ error. IsRefusal ranges.now error) }
    {
        judge(ranges)?;
        match Vec::from_slice(alloc, ranges) {
            Ok(ranges) => Ok(Cover { ranges }),
            Err(_) => Err(CoverError::OutOfMemory),
        }
    }

    /// The maximal ranges, each from its first to its last offset, rising.
    pub fn ranges(&self) -> &[(i64, i64)]
        ensures lists_runs { result.now ≡ self.now.runs }
        ensures canonical { IsCanonical self.now.runs }
    {
        self.ranges.as_slice()
    }

    /// Whether the offset is in the set.
    pub fn contains(&self, offset: i64) -> bool
        ensures { result ≡ covers self.now.runs offset }
    {
        search::contains(&self.ranges, offset)
    }

    /// Whether all offsets from `first` to `last` are in the set; so it is where there are none.
    pub fn has_all(&self, first: i64, last: i64) -> bool
        ensures { IsTrue result ↔ CoversAll self.now.runs first last }
    {
        search::has_all(&self.ranges, first, last)
    }

    /// Whether some offset from `first` to `last` is in the set.
    pub fn has_any(&self, first: i64, last: i64) -> bool
        ensures { IsTrue result ↔ CoversAny self.now.runs first last }
    {
        search::has_any(&self.ranges, first, last)
    }

    /// The least i64 from `from` on that is not in the set.
    pub fn first_gap(&self, from: i64) -> i64
        ensures missing { ¬ IsTrue (covers self.now.runs result) }
        ensures from_on { from ≤ℤ result }
        ensures least { (o : ℤ) → from ≤ℤ o → o <ℤ result → IsTrue (covers self.now.runs o) }
    {
        search::first_gap(&self.ranges, from)
    }

    /// Whether all offsets of this set are in the other one, in one pass over both.
    pub fn is_subset(&self, other: &Cover<A>) -> bool
        ensures { IsTrue result ↔ IsSubset self.now.runs other.now.runs }
    {
        search::is_subset(&self.ranges, &other.ranges)
    }

    /// Makes room, so that the next insertion needs no memory. The set stays the same.
    pub fn reserve_one(&mut self) -> Result<(), AllocError>
        ensures same_offsets { self.new.runs ≡ self.old.runs }
        ensures makes_room { OnOk result (HasRoom self.new) }
        ensures keeps_room { self.old.room ≤ self.new.room }
        ensures room_suffices { HasRoom self.old → IsOk result }
    {
        self.ranges.reserve(1)
    }

    /// Adds the offsets from `first` to `last`. At the end of the set this takes constant time,
    /// amortized; else a binary search and one move. On an error the set is as it was.
    pub fn insert(&mut self, first: i64, last: i64) -> Result<(), AllocError>
        requires not_negative { pos 0 ≤ℤ first }
        requires not_empty { first ≤ℤ last }
        requires in_bounds { last <ℤ OFFSETS_END }
        ensures adds_range { OnOk result (self.new.runs ≡ with_range first last self.old.runs) }
        ensures adds_offsets { OnOk result ((o : ℤ)
            → covers self.new.runs o ≡ (covers self.old.runs o || is_within o (first, last))) }
        ensures canonical { IsCanonical self.new.runs }
        ensures error_changes_nothing { OnErr result (self.new.runs ≡ self.old.runs) }

        // With room it can't fail; it takes the room of one run at most, and gives no memory back.
        ensures room_suffices { HasRoom self.old → IsOk result }
        ensures takes_room_of_one { self.old.room ≤ self.new.room + 1 }
        ensures keeps_memory { self.old.room + length self.old.runs
            ≤ self.new.room + length self.new.runs }
    {
        let splice = splice_of(&self.ranges, first, last);
        replace(&mut self.ranges, splice.start, splice.end, splice.range)
    }

    /// Adds the offsets of the range at `at` among maximal ranges.
    fn insert_from(&mut self, ranges: &[(i64, i64)], at: usize) -> Result<(), AllocError>
        requires is_there { at < length ranges.now }
        requires canonical { IsCanonical ranges.now }
        ensures adds_offsets { OnOk result ((o : ℤ) → covers self.new.runs o
            ≡ (covers self.old.runs o
            || is_within o (slice_index_or ranges.now at (pos 0, pos 0)))) }
        ensures canonical { IsCanonical self.new.runs }
    {
        self.insert(ranges[at].0, ranges[at].1)
    }

    /// The offsets of either set, in one pass over both.
    pub fn union(&self, other: &Cover<A>) -> Result<Cover<A>, AllocError>
        ensures unites_runs { IfOk result (λ both.
            both.runs ≡ union_of self.now.runs other.now.runs) }
        ensures unites_offsets { IfOk result (λ both. (o : ℤ)
            → covers both.runs o ≡ (covers self.now.runs o || covers other.now.runs o)) }
        ensures canonical { IfOk result (λ both. IsCanonical both.runs) }
    {
        let mut both = Cover::new(*self.ranges.allocator());
        let (mine, theirs) = (self.ranges(), other.ranges());
        let (mut i, mut j) = (0, 0);
        while i < mine.len() || j < theirs.len() {
            if comes_next(mine, i, theirs, j) {
                both.insert_from(mine, i)?;
                i += 1;
            } else {
                both.insert_from(theirs, j)?;
                j += 1;
            }
        }
        Ok(both)
    }

    /// Removes the offsets below `start`, which may be any i64: with 0 or less all offsets stay, with
    /// more than the greatest none does. It can't fail: a search and one move, in place.
    pub fn cut_below(&mut self, start: i64)
        ensures cuts_runs { self.new.runs ≡ cut_below start self.old.runs }
        ensures keeps_later_offsets { (o : ℤ)
            → covers self.new.runs o ≡ (covers self.old.runs o && int_le start o) }
        ensures canonical { IsCanonical self.new.runs }

        // It takes no memory, and gives none back.
        ensures keeps_room { self.old.room ≤ self.new.room }
        ensures keeps_memory { self.new.room + length self.new.runs
            ≡ self.old.room + length self.old.runs }
    {
        edit::cut_below(&mut self.ranges, start);
    }

    /// A copy of the set in memory of its own.
    pub fn try_clone(&self) -> Result<Cover<A>, AllocError>
        ensures { IfOk result (λ copy. copy.runs ≡ self.now.runs) }
    {
        let ranges = Vec::from_slice(*self.ranges.allocator(), &self.ranges)?;
        Ok(Cover { ranges })
    }
}
