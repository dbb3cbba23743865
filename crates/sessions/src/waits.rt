//! What sessions wait for, each by its number. Those that are woken stand first, so that waking one takes no memory.

ghost use Rattle.std.specs.Prelude.{◌≡◌, ◌≢◌, ℕ, ◌+◌, ◌*◌, ◌<◌, ◌++◌, true, false, nat_eq, is_some, None, Some, MatchBool, IsSome, IfNone, IfSome, OnOk, OnErr};
ghost use Rattle.std.specs.List.{IsDistinct};
ghost use Rattle.std.specs.Map.{keys_of, lookup};
ghost use Rattle.std.specs.Option.{option_copied, option_map};
ghost use Rattle.sessions.specs.Waiting.{GoesOn, SleepsOn, asleep_at, is_behind, less_missing, is_same_key, key_of, kept, named, place_of, unnamed, unnamed_at, wait_at, with_entry, with_place};
ghost use Rattle.std.specs.Hash as fed;
ghost use Rattle.std.specs.Cmp.Rules.{comparing, hashing};
ghost use Rattle.std.proofs.Common.{rules};

use broker_state::Place;
use indexmap::IndexMap;
use std::alloc::{AllocError, Allocator};
use std::hash::{BuildHasherDefault, FoldHasher, Hash, Hasher};
use std::marker::Model;

/// Numbers, with something for each.
pub(crate) type ByNumber<V, A> = IndexMap<u64, V, BuildHasherDefault<FoldHasher>, A>;

/// Where a broker holds a partition.
#[derive(Clone, Copy)]
pub(crate) struct PartitionKey {
    /// The index of its topic.
    topic: usize,
    /// Its index among those of the topic.
    partition: usize,
}

impl PartialEq for PartitionKey {
    ghost eq = { is_same_key };

    ghost laws = { Prim.search (comparing, rules) };

    fn eq(&self, other: &PartitionKey) -> bool {
        self.topic == other.topic && self.partition == other.partition
    }
}

impl Eq for PartitionKey {
    ghost laws = { Prim.search (comparing, rules) };
}

impl Hash for PartitionKey {
    ghost hash_input = { λ x. fed.usize x.topic ++ fed.usize x.partition };

    ghost respects_eq = { Prim.search (hashing, rules) };

    fn hash<H: Hasher>(&self, state: &mut H) {
        state.write_usize(self.topic);
        state.write_usize(self.partition);
    }
}

impl PartitionKey {
    /// That of a place.
    pub(crate) fn of(place: Place) -> PartitionKey
        ensures { result ≡ key_of place }
    {
        PartitionKey {
            topic: place.topic,
            partition: place.partition,
        }
    }

    /// The place.
    pub(crate) fn place(self) -> Place
        ensures { result ≡ place_of self }
    {
        Place {
            topic: self.topic,
            partition: self.partition,
        }
    }
}

/// What a session waits for.
#[derive(Drop)]
pub(crate) struct Wait<A: Allocator + Copy> {
    /// When its time is over, and its number.
    pub(crate) due: (u128, u64),
    /// Its partitions, each once.
    pub(crate) places: Vec<PartitionKey, A>,
    /// How many more bytes make it due.
    pub(crate) missing: usize,
    /// How many of its entries, from the first on, any more bytes make due: of the last of them a batch is given that is
    /// larger than its limit, since it is the first of the response. Else 0.
    pub(crate) forced: usize,
    /// Whether it was named, and not visited since.
    pub(crate) is_named: bool,
}

/// What a session waits for at one partition.
#[derive(Clone, Copy)]
pub(crate) struct Share {
    /// How many of its entries are of the partition.
    pub(crate) entries: usize,
    /// How many bytes the partition may have grown by before a limit leaves a batch of it out.
    pub(crate) upto: u64,
    /// The number of the first of these entries among all, from 1.
    pub(crate) first: usize,
}

/// By how much a partition grew.
#[derive(Clone, Copy)]
pub(crate) struct Growth {
    /// By how many bytes.
    pub(crate) more: usize,
    /// By how many in all, since it is counted.
    pub(crate) grown: u64,
}

impl<A: Allocator + Copy> Model for Wait<A> {
    ghost use Rattle.sessions.specs.Waiting.{WaitState};

    ghost Value = { WaitState };

    ghost view = { λ w. record {
      due = w.due;
      places = w.places.items;
      missing = w.missing;
      forced = w.forced;
      is_named = w.is_named;
    } };
}

impl<A: Allocator + Copy> Wait<A> {
    /// Whether it waits on where a partition has grown; if so, what came is missing no more.
    fn goes_on(&mut self, share: &Share, growth: Growth) -> bool
        ensures goes { result ≡ true → GoesOn self.old share.now growth }
        ensures takes { result ≡ true → self.new ≡ less_missing self.old share.now growth }
        ensures stays { result ≡ false → self.new ≡ self.old }
        ensures keeps { kept self.new ≡ kept self.old }
    {
        let Some(more) = growth.more.checked_mul(share.entries) else {
            return false;
        };
        if share.first <= self.forced || growth.grown > share.upto || more >= self.missing {
            return false;
        }
        self.missing -= more;
        true
    }

    /// Takes off what is there for one of its entries, the one with this number among all, from 1; its limit allows so
    /// much more, or none where it is too small for what is there.
    fn take_off(&mut self, bytes: usize, room: Option<usize>, entry: usize)
        ensures { self.new ≡ with_entry bytes room entry self.old }
    {
        self.missing = self.missing.saturating_sub(bytes);
        if room.is_none() {
            self.forced = entry;
        }
    }
}

/// What sessions wait for.
#[derive(Drop)]
pub(crate) struct Waits<A: Allocator + Copy> {
    /// By number. Those that are woken stand first.
    by_number: ByNumber<Wait<A>, A>,
    /// How many are woken.
    woken: usize,
}

impl<A: Allocator + Copy> Model for Waits<A> {
    ghost use Rattle.std.specs.Prelude.{◌≤◌, ℕ, List, length};
    ghost use Rattle.sessions.specs.Waiting.{NoneWokenIsNamed, WaitsState};

    ghost Value = { WaitsState };

    ghost view = { λ w. record { entries = w.by_number.entries; woken = w.woken } };

    ghost invariant = { λ w. (w.woken ≤ length w.by_number.entries)
        × NoneWokenIsNamed (record { entries = w.by_number.entries; woken = w.woken }) };
}

impl<A: Allocator + Copy> Waits<A> {
    /// None waits. It takes no memory.
    pub(crate) fn new(alloc: A) -> Waits<A>
        ensures waits { (k : ℕ) → wait_at result k ≡ None }
        ensures none_is_woken { result.woken ≡ 0 }
    {
        Waits {
            by_number: IndexMap::new(alloc),
            woken: 0,
        }
    }

    /// What the session with a number waits for.
    pub(crate) fn get(&self, number: u64) -> Option<&Wait<A>>
        ensures { option_copied result ≡ wait_at self.now number }
    {
        self.by_number.get(&number)
    }

    /// Whether the session with a number waits.
    pub(crate) fn waits(&self, number: u64) -> bool
        ensures { result ≡ is_some (wait_at self.now number) }
    {
        self.by_number.contains_key(&number)
    }

    /// Whether any session is woken that wasn't named yet.
    pub(crate) fn has_woken(&self) -> bool
        ensures { MatchBool result (0 < self.now.woken) (self.now.woken ≡ 0) }
    {
        self.woken > 0
    }

    /// Whether the session with a number waits, isn't woken, and wasn't named.
    pub(crate) fn is_asleep(&self, number: u64) -> bool
        ensures { MatchBool result (IsSome (asleep_at self.now number)) (asleep_at self.now number ≡ None) }
    {
        match self.by_number.get_full(&number) {
            Some((index, _, wait)) => index >= self.woken && !wait.is_named,
            None => false,
        }
    }

    // ---- those that wait

    /// Adds a session that doesn't wait. If it wasn't named, it sleeps.
    ///
    /// # Errors
    ///
    /// Out of memory: nothing has changed.
    pub(crate) fn add(&mut self, number: u64, wait: Wait<A>) -> Result<(), AllocError>
        requires { wait_at self.old number ≡ None }
        ensures adds { OnOk result (wait_at self.new number ≡ Some wait) }
        ensures sleeps { OnOk result (asleep_at self.new number ≡ unnamed wait) }
        ensures waits { (k : ℕ) → k ≢ number → wait_at self.new k ≡ wait_at self.old k }
        ensures asleep { (k : ℕ) → k ≢ number → asleep_at self.new k ≡ asleep_at self.old k }
        ensures unchanged_on_error { OnErr result (self.new ≡ self.old) }
    {
        self.by_number.insert(number, wait)?;
        Ok(())
    }

    /// Has a session that waits wait for one more partition, too.
    ///
    /// # Errors
    ///
    /// Out of memory: nothing has changed.
    pub(crate) fn add_place(&mut self, number: u64, place: PartitionKey) -> Result<(), AllocError>
        ensures adds { OnOk result (wait_at self.new number
            ≡ option_map (with_place place) (wait_at self.old number)) }
        ensures sleeps { OnOk result (asleep_at self.new number
            ≡ option_map (with_place place) (asleep_at self.old number)) }
        ensures waits { (k : ℕ) → k ≢ number → wait_at self.new k ≡ wait_at self.old k }
        ensures asleep { (k : ℕ) → k ≢ number → asleep_at self.new k ≡ asleep_at self.old k }
        ensures unchanged_on_error { OnErr result (wait_at self.new number ≡ wait_at self.old number) }
    {
        if let Some(wait) = self.by_number.get_mut(&number) {
            wait.places.push(place)?;
        }
        Ok(())
    }

    /// Takes off what is there for one of a session's entries, the one with this number among all, from 1.
    pub(crate) fn take_off(&mut self, number: u64, bytes: usize, room: Option<usize>, entry: usize)
        ensures takes { wait_at self.new number
            ≡ option_map (with_entry bytes room entry) (wait_at self.old number) }
        ensures sleeps { asleep_at self.new number
            ≡ option_map (with_entry bytes room entry) (asleep_at self.old number) }
        ensures waits { (k : ℕ) → k ≢ number → wait_at self.new k ≡ wait_at self.old k }
        ensures asleep { (k : ℕ) → k ≢ number → asleep_at self.new k ≡ asleep_at self.old k }
    {
        if let Some(wait) = self.by_number.get_mut(&number) {
            wait.take_off(bytes, room, entry);
        }
    }

    /// Removes a session, and gives what it waited for.
    pub(crate) fn remove(&mut self, number: u64) -> Option<Wait<A>>
        ensures was { result ≡ wait_at self.old number }
        ensures gone { wait_at self.new number ≡ None }
        ensures waits { (k : ℕ) → k ≢ number → wait_at self.new k ≡ wait_at self.old k }
        ensures asleep { (k : ℕ) → k ≢ number → asleep_at self.new k ≡ asleep_at self.old k }
    {
        self.put_behind(number);
        self.by_number.swap_remove(&number)
    }

    /// Has a session stand behind those that are woken.
    fn put_behind(&mut self, number: u64)
        ensures behind { is_behind self.new number ≡ true }
        ensures waits { (k : ℕ) → wait_at self.new k ≡ wait_at self.old k }
        ensures asleep { (k : ℕ) → k ≢ number → asleep_at self.new k ≡ asleep_at self.old k }
    {
        let Some(index) = self.by_number.get_index_of(&number) else {
            return;
        };
        if index < self.woken {
            self.woken -= 1;
            self.by_number.swap_indices(index, self.woken);
        }
    }

    // ---- those that are woken

    /// Wakes a session, if it sleeps.
    pub(crate) fn wake(&mut self, number: u64)
        ensures wakes { asleep_at self.new number ≡ None }
        ensures waits { (k : ℕ) → wait_at self.new k ≡ wait_at self.old k }
        ensures others { (k : ℕ) → k ≢ number → asleep_at self.new k ≡ asleep_at self.old k }
    {
        let Some((index, _, wait)) = self.by_number.get_full(&number) else {
            return;
        };
        if index < self.woken || wait.is_named {
            return;
        }
        // The count of all is what says that the sum fits.
        let _all = self.by_number.len();
        self.by_number.swap_indices(index, self.woken);
        self.woken += 1;
    }

    /// Takes off what came at a partition, where a session has a share; wakes it, if it sleeps, where that may make it due, or
    /// what came isn't known.
    pub(crate) fn grow(&mut self, number: u64, share: &Share, growth: Option<Growth>)
        ensures sleeps_on { SleepsOn share.now growth (asleep_at self.old number)
            (asleep_at self.new number) }
        ensures keeps { option_map kept (wait_at self.new number)
            ≡ option_map kept (wait_at self.old number) }
        ensures waits { (k : ℕ) → k ≢ number → wait_at self.new k ≡ wait_at self.old k }
        ensures asleep { (k : ℕ) → k ≢ number → asleep_at self.new k ≡ asleep_at self.old k }
    {
        if !self.goes_on(number, share, growth) {
            self.wake(number);
        }
    }

    /// Whether a session waits on where a partition has grown, by so much, if that is known; if so, what came is missing no
    /// more.
    fn goes_on(&mut self, number: u64, share: &Share, growth: Option<Growth>) -> bool
        ensures sleeps_on { result ≡ true → SleepsOn share.now growth (asleep_at self.old number)
            (asleep_at self.new number) }
        ensures keeps { option_map kept (wait_at self.new number)
            ≡ option_map kept (wait_at self.old number) }
        ensures waits { (k : ℕ) → k ≢ number → wait_at self.new k ≡ wait_at self.old k }
        ensures asleep { (k : ℕ) → k ≢ number → asleep_at self.new k ≡ asleep_at self.old k }
    {
        let Some(growth) = growth else {
            return false;
        };
        let Some(wait) = self.by_number.get_mut(&number) else {
            return false;
        };
        wait.goes_on(share, growth)
    }

    /// The number of a session that is woken, which is named by it.
    pub(crate) fn name_one(&mut self) -> Option<u64>
        ensures none_is_woken { IfNone result ((self.old.woken ≡ 0) × (self.new ≡ self.old)) }
        ensures was_unnamed { IfSome result (λ number. IsSome (unnamed_at self.old number)) }
        ensures names { IfSome result (λ number. wait_at self.new number
            ≡ option_map named (wait_at self.old number)) }
        ensures waits { IfSome result (λ number. (k : ℕ) → k ≢ number
            → wait_at self.new k ≡ wait_at self.old k) }
        ensures asleep { (k : ℕ) → asleep_at self.new k ≡ asleep_at self.old k }
    {
        let last = self.woken.checked_sub(1)?;
        let (number, _) = self.by_number.get_index(last)?;
        let number = *number;
        name(&mut self.by_number, number);
        self.woken = last;
        Some(number)
    }
}

/// Names a session.
fn name<A: Allocator + Copy>(by_number: &mut ByNumber<Wait<A>, A>, number: u64)
    ensures names { lookup (nat_eq number) by_number.new.entries
        ≡ option_map named (lookup (nat_eq number) by_number.old.entries) }
    ensures waits { (k : ℕ) → k ≢ number → lookup (nat_eq k) by_number.new.entries
        ≡ lookup (nat_eq k) by_number.old.entries }
    ensures numbers { keys_of by_number.new.entries ≡ keys_of by_number.old.entries }
    ensures unique { IsDistinct nat_eq (keys_of by_number.new.entries) }
{
    if let Some(wait) = by_number.get_mut(&number) {
        wait.is_named = true;
    }
}
