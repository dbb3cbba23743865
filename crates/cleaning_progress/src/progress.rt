//! What is known of a copy, as it changes.

ghost use Rattle.std.specs.Prelude.{◌≡◌, ◌⊎◌, ◌^◌, ℤ, pos, ◌≤ℤ◌, ℕ, List, int_lt, true, None, IfOk};
ghost use Rattle.std.specs.List.{filter};
ghost use Rattle.batch_codec.specs.Values.{BatchValue};
ghost use Rattle.batch_codec.specs.Offsets.{first_offset};
ghost use Rattle.content.specs.Content.{Content, IsContent, IsLogBatch, has_seen_all, HasSeenNone, add, cut};
ghost use Rattle.content.specs.Cleaning.{is_cleanable};
ghost use Rattle.content.specs.Parts.{clean_part, NoneIsAcross};
ghost use Rattle.newest_keys.specs.Shards.{newest_in};
ghost use Rattle.swept_contents.specs.Swept.{IsSwept};
ghost use Rattle.cleaning_progress.specs.Progress.{Known, HasKeysOf, IsKnownOf, are_swept, first_known, marks_after, marks_below, newest_of, without_keys};
ghost use Rattle.cleaning_progress.specs.Extending.{TakesDirty, has_room};

use crate::extending::{Room, take_batches};
use crate::marks::Marks;
use content::CleaningPart;
use newest_keys::NewestKeys;
use segment::BatchStore;
use std::alloc::{AllocError, Allocator};
use std::marker::Model;
use std::mem::replace;

/// The newest offset of each key in the batches below an offset.
#[derive(Drop)]
pub(crate) struct KnownKeys<A: Allocator + Copy> {
    /// Batches that end below this are known.
    pub(crate) to: i64,
    /// The keys of those that aren't settled, if there are any.
    pub(crate) newest: Option<NewestKeys<A>>,
}

impl<A: Allocator + Copy> KnownKeys<A> {
    /// No key is known below an offset.
    pub(crate) fn none(to: i64) -> KnownKeys<A>
        ensures { result ≡ record { to = to; newest = None } }
    {
        KnownKeys { to, newest: None }
    }

    /// All keys are forgotten; none is known below an offset.
    fn forget(&mut self, to: i64)
        ensures { self.new ≡ record { to = to; newest = None } }
    {
        *self = KnownKeys::none(to);
    }

    /// These are known instead.
    fn set(&mut self, keys: KnownKeys<A>)
        ensures { self.new ≡ keys }
    {
        *self = keys;
    }

    /// The newest offset of a key, if one is known.
    fn newest(&self, key: &[u8]) -> Option<i64>
        ensures { result ≡ newest_of self.now.newest key.now }
    {
        match &self.newest {
            Some(newest) => newest.newest(key),
            None => None,
        }
    }

    /// Whether batches from an offset on are known.
    fn are_above(&self, offset: i64) -> bool
        ensures { result ≡ int_lt offset self.now.to }
    {
        offset < self.to
    }

    /// Whether less is known than a part is cleaned by.
    fn fall_short(&self, part: &CleaningPart) -> bool
        ensures { result ≡ int_lt self.now.to part.now.upto }
    {
        self.to < part.upto
    }
}

/// A map, or where there is none one of no key, with so many shards.
fn or_new<A: Allocator + Copy>(
    before: Option<NewestKeys<A>>,
    alloc: A,
    shards: usize,
) -> Result<NewestKeys<A>, AllocError>
    ensures { IfOk result (λ newest. (key : List ℕ) → newest_in newest key ≡ newest_of before key) }
{
    match before {
        Some(newest) => Ok(newest),
        None => NewestKeys::with_shards(alloc, shards),
    }
}

/// The keys with those of more batches, and what is left of the room.
fn extended<S: BatchStore, A: Allocator + Copy>(
    keys: KnownKeys<A>,
    alloc: A,
    batches: &S,
    upto: i64,
    room: Room,
    shards: usize,
) -> Result<(KnownKeys<A>, Room), AllocError>
    ensures reaches { IfOk result (λ done. has_room done.1 ≡ true → upto ≤ℤ done.0.to) }
    ensures takes { IfOk result (λ done. TakesDirty keys.to done.0.to
        (newest_of keys.newest) (newest_of done.0.newest) (S.batches batches.now)) }
{
    let KnownKeys { to, newest } = keys;
    let mut newest = or_new(newest, alloc, shards)?;
    let (end, left) = take_batches(&mut newest, to, batches, upto, room)?;
    let keys = KnownKeys {
        to: end,
        newest: Some(newest),
    };
    Ok((keys, left))
}

/// What is known of how far a copy was cleaned: below which offset no record is superseded by another one there, how far
/// the pass under way has come, and the newest offset of each key in the batches that the pass cleans by.
#[derive(Drop)]
pub struct Progress<A: Allocator + Copy> {
    marks: Marks,
    keys: KnownKeys<A>,
}

impl<A: Allocator + Copy> Model for Progress<A> {
    ghost use Rattle.cleaning_progress.specs.Progress.{Known};

    ghost Value = { Known };

    ghost view = { λ p. record {
      marks = p.marks;
      known_to = p.keys.to;
      newest = p.keys.newest;
    } };
}

/// What is known of a copy stays known when its start moves.
pub fn a_later_start_keeps_what_is_known()
    ensures { (k : Known) (start : ℤ) (c : Content) → IsContent c → c.start ≤ℤ start → start ≤ℤ pos (2 ^ 62)
        → IsKnownOf c k → IsKnownOf (cut start c) k }
{}

impl<A: Allocator + Copy> Progress<A> {
    /// What is known of any copy with this start, or a later one. Takes no memory.
    pub fn new(start: i64) -> Progress<A>
        ensures begins { result ≡ first_known start }
        ensures knows { (c : Content) → IsContent c → start ≤ℤ c.start → IsKnownOf c result }
    {
        Progress {
            marks: Marks::new(start),
            keys: KnownKeys::none(start),
        }
    }

    /// The map of newest offsets goes. What else is known stays.
    pub fn forget_keys(&mut self)
        ensures forgets { self.new ≡ without_keys self.old }
        ensures knows { (c : Content) → IsContent c → IsKnownOf c self.old → IsKnownOf c self.new }
    {
        self.keys.forget(self.marks.settled);
    }

    /// A batch comes that begins at this offset. What is known of the batches from there on is forgotten.
    pub fn note_batch(&mut self, base: i64)
        ensures marks { self.new.marks ≡ marks_below base self.old.marks }
        ensures keeps_keys { self.old.known_to ≤ℤ base → HasKeysOf self.old self.new }
        ensures knows { (c : Content) (b : BatchValue) → IsContent c → IsLogBatch b
            → (has_seen_all c b ≡ true) ⊎ HasSeenNone c b → base ≡ first_offset b
            → IsKnownOf c self.old → IsKnownOf (add c b) self.new }
    {
        self.marks = self.marks.below(base);
        if self.keys.are_above(base) {
            self.keys.forget(self.marks.settled);
        }
    }

    /// Whether it is known that no older record of a key of the part stands before it.
    pub fn has_none_older(&self, part: &CleaningPart) -> bool
        ensures tells { result ≡ are_swept part.now self.now.marks }
        ensures knows { result ≡ true → (c : Content) → IsContent c → IsKnownOf c self.now
            → IsSwept part.now.from part.now.upto c }
    {
        self.marks.are_swept(part)
    }

    /// A part is cleaned, of a copy with this start. `is_clear` says that no batch lies across its end.
    pub fn note_part(&mut self, part: &CleaningPart, start: i64, is_clear: bool)
        ensures marks { self.new.marks ≡ marks_after part.now start is_clear self.old.marks }
        ensures keeps_keys { part.now.upto ≤ℤ self.old.known_to → HasKeysOf self.old self.new }
        ensures knows { (c : Content) → IsContent c → start ≤ℤ c.start
            → (is_clear ≡ true → NoneIsAcross part.now.to (filter (is_cleanable part.now.upto) c.kept))
            → IsKnownOf c self.old → IsKnownOf (clean_part part.now c) self.new }
    {
        self.marks = self.marks.after(part, start, is_clear);
        if self.keys.fall_short(part) {
            self.keys.forget(self.marks.settled);
        }
    }

    /// The offset below which no record is superseded by another one there.
    pub fn settled(&self) -> i64
        ensures tells { result ≡ self.now.marks.settled }
    {
        self.marks.settled
    }

    /// Batches that end below this are known.
    pub fn known_to(&self) -> i64
        ensures tells { result ≡ self.now.known_to }
    {
        self.keys.to
    }

    /// The newest offset of a key among the batches that are known and not settled; `None` where there is none. Takes no
    /// memory.
    pub fn newest(&self, key: &[u8]) -> Option<i64>
        ensures tells { result ≡ newest_of self.now.newest key.now }
    {
        self.keys.newest(key)
    }

    /// Takes in the keys of more of the batches that end below `upto`, as many as there is room for. What is left of the
    /// room; where some is, all those batches are known. Where no key is known yet, the map that is made has so many shards.
    ///
    /// # Errors
    ///
    /// Out of memory: no key is known then.
    pub fn extend<S: BatchStore>(
        &mut self,
        alloc: A,
        batches: &S,
        upto: i64,
        room: Room,
        shards: usize,
    ) -> Result<Room, AllocError>
        ensures marks { self.new.marks ≡ self.old.marks }
        ensures reaches { IfOk result (λ left. has_room left ≡ true → upto ≤ℤ self.new.known_to) }
        ensures knows { (c : Content) → IsContent c → c.kept ≡ S.batches batches.now
            → IsKnownOf c self.old → IsKnownOf c self.new }
    {
        let before = replace(&mut self.keys, KnownKeys::none(self.marks.settled));
        let (keys, left) = extended(before, alloc, batches, upto, room, shards)?;
        self.keys.set(keys);
        Ok(left)
    }
}
