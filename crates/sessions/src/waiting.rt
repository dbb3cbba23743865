//! The sessions whose first frame waits: by partition, and by time.
//!
//! One that sleeps has counted what is missing, and what each of its partitions may grow by. Behind a frame only the partitions
//! that it may have changed are looked at, and of those that wait only who stands there. Who may be due is woken; that takes no
//! memory, so it can't fail. A visit finds whether it is due.

ghost use Rattle.std.specs.Prelude.{◌≡◌, ◌≢◌, ◌<◌, ◌≤◌, ◌⊎◌, ℕ, List, [], ◌∷◌, length, map, true, false, is_some, slice_get, None, Some, All, IsSome, IfNone, IfSome, IfOk, MatchOption, OnOk, OnErr};
ghost use Rattle.std.specs.Map.{keys_of};
ghost use Rattle.frame_fields.specs.Arrays.{values};
ghost use Rattle.frame_fields.specs.Types.{topic, topic_request};
ghost use Rattle.request_frames.specs.Produce.{produce_partition, produce_partition_value};
ghost use Rattle.request_frames.specs.Views.{request_body, request_value};
ghost use Rattle.frame_fields.specs.Frames.{IsFirstFrame};
ghost use Rattle.request_frames.specs.Fetch.{FetchValue, fetch_partition, fetch_partition_value, fetch_view};
ghost use Rattle.request_frames.specs.Requests.{RequestValue, IsRequest};
ghost use Rattle.request_frames.specs.Views.{request_value};
ghost use Rattle.log_requests.specs.Fetch.Entries.{fetch_entry_value};
ghost use Rattle.broker_state.specs.State.{State, content_at};
ghost use Rattle.broker_node.specs.Effects.{TopicPartition, effect, only_grows, places, produced_to};
ghost use Rattle.fetch_waits.specs.Sleeping.{Contents};
ghost use Rattle.fetch_waits.specs.Waiting.{awaited_bytes, fetch_waits};
ghost use Rattle.sessions.specs.Waiting.{StandersWait, StandsAtNone, asleep_at, key_of, share_at, share_in, stand_at, unnamed_at, wait_at, waits_for, with_entry};
ghost use Rattle.sessions.specs.declared.waits.PartitionKey.{PartitionKey};
ghost use Rattle.sessions.specs.Asleep.{AllWaitOn, AreMarked, AsksFirst, Leaves, OthersWait, has_time};
ghost use Rattle.sessions.specs.Joining.{AreCounted, CountsMore, EndsAt, HasPut, Joins, KeepsStanders, Knows, PutsAt, SleepsSo, Stays, as_it_was, entries_in, entries_of, new_stand, share_with};
ghost use Rattle.sessions.specs.Growing.{Counts, Grew, GrowsOn, KeepsDues, KeepsStands, Looks, LooksAt, Marks, produced_in};

use crate::waits::{ByNumber, Growth, PartitionKey, Share, Wait, Waits};
use broker_node::{MayChange, Node, only_grows, what_may_change};
use broker_state::{BrokerState, Place};
use fetch_waits::{Counted, awaited_bytes, count_behind, count_entry};
use frame_fields::{Array, Topic, Topics, first_frame};
use indexmap::IndexMap;
use request_frames::{FetchPartition, FetchRequest, ProducePartition, Request, RequestBody, parse};
use segment::BatchStore;
use std::alloc::{AllocError, Allocator};
use std::collections::BTreeSet;
use std::hash::{BuildHasherDefault, FoldHasher};
use std::marker::Model;

/// Partitions, with something for each.
type ByPartition<V, A> = IndexMap<PartitionKey, V, BuildHasherDefault<FoldHasher>, A>;

/// Those that wait for a partition.
#[derive(Drop)]
struct Stand<A: Allocator + Copy> {
    /// Where its log ended when it was counted.
    end: i64,
    /// By how many bytes it grew since the first that stands here came.
    grown: u64,
    /// What each waits for here, by its number.
    shares: ByNumber<Share, A>,
}

/// What a frame that is to be handled may do to the partitions that are marked.
#[derive(Clone, Copy)]
pub(crate) enum Noted {
    /// It may append to them and clean them, and nothing else.
    Grows,
    /// It may do anything.
    Changes,
}

/// The sessions that wait.
#[derive(Drop)]
pub(crate) struct Waiting<A: Allocator + Copy> {
    alloc: A,
    /// What they wait for.
    waits: Waits<A>,
    /// Where they wait. Those partitions stand first that the frame may change which is being handled.
    by_partition: ByPartition<Stand<A>, A>,
    /// How many these are.
    marked: usize,
    /// When their times are over, with their numbers. Who is woken may be missing.
    by_time: BTreeSet<(u128, u64), A>,
}

impl<A: Allocator + Copy> Model for Stand<A> {
    ghost use Rattle.sessions.specs.Waiting.{StandState};

    ghost Value = { StandState };

    ghost view = { λ s. record { end = s.end; grown = s.grown; shares = s.shares.entries } };
}

impl<A: Allocator + Copy> Model for Waiting<A> {
    ghost use Rattle.sessions.specs.Waiting.{WaitingState};

    ghost Value = { WaitingState };

    ghost view = { λ w. record {
      waits = w.waits;
      stands = w.by_partition.entries;
      marked = w.marked;
      times = w.by_time.keys;
    } };
}

/// The first frame that is held, as a request, if it is one.
#[tactic(auto, using(crate::proofs::Requested::is_short, crate::proofs::Requested::has_no_size))]
fn first_request(held: &[u8]) -> Option<Request<'_>>
    ensures reads { (frame rest : List ℕ) (q : RequestValue) → IsFirstFrame frame held.now rest
        → IsRequest frame q → MatchOption result ⊥ (λ request. request_value request ≡ q) }
{
    let frame = match first_frame(held) {
        Ok(Some(frame)) => frame,
        Ok(None) => return None,
        Err(_) => return None,
    };
    match parse(frame) {
        Ok(request) => Some(request),
        Err(_) => None,
    }
}

/// What a request may do to the partitions that it may change.
fn effect_of(body: &RequestBody<'_>) -> Noted
    ensures { result ≡ Noted.Grows → only_grows (effect (request_body body.now)) ≡ true }
{
    if only_grows(body) {
        Noted::Grows
    } else {
        Noted::Changes
    }
}

impl Share {
    /// What a session waits for that has one more entry of the partition, the one with this number among all.
    fn with_entry(&self, upto: u64, entry: usize) -> Result<Share, AllocError>
        ensures { IfOk result (λ share. share ≡ share_with upto entry self.now) }
    {
        let Some(entries) = self.entries.checked_add(1) else {
            return Err(AllocError);
        };
        Ok(Share {
            entries,
            upto: self.upto.min(upto),
            first: self.first.min(entry),
        })
    }
}

impl<A: Allocator + Copy> Stand<A> {
    /// Nobody waits yet for the partition of an entry.
    fn new(alloc: A, counted: &Counted) -> Stand<A>
        ensures { result ≡ new_stand counted.now.end }
    {
        Stand {
            end: counted.end,
            grown: 0,
            shares: IndexMap::new(alloc),
        }
    }

    /// Adds one more entry of a session, the one with this number among all of them, from 1.
    fn put(&mut self, number: u64, room: Option<usize>, entry: usize) -> Result<(), AllocError>
        ensures stays { Stays number self.old self.new }
        ensures puts { OnOk result (HasPut number room entry self.old self.new) }
    {
        let upto = self.grown.saturating_add(room.unwrap_or(0) as u64);
        let share = match self.shares.get(&number) {
            Some(share) => share.with_entry(upto, entry)?,
            None => Share {
                entries: 1,
                upto,
                first: entry,
            },
        };
        self.shares.insert(number, share)?;
        Ok(())
    }

    /// Removes what a session waits for here, and gives whether nobody waits here any more.
    fn remove(&mut self, number: u64) -> bool
        ensures stays { (self.new.end ≡ self.old.end) × (self.new.grown ≡ self.old.grown) }
        ensures shares { (k : ℕ) → k ≢ number → share_in self.new k ≡ share_in self.old k }
        ensures gone { share_in self.new number ≡ None }
        ensures none { result ≡ true → self.new.shares ≡ [] }
    {
        self.shares.swap_remove(&number);
        self.shares.is_empty()
    }

    /// Counts what came to the partition at a place since it was counted, and gives by how much it grew, if that is known.
    fn count<S: BatchStore>(&mut self, state: &BrokerState<S>, place: Place) -> Option<Growth>
        ensures counts { Counts state.now place self.old self.new }
        ensures grew { IfSome result (Grew state.now place self.old self.new) }
    {
        let behind = count_behind(state, place, self.end)?;
        self.end = behind.end;
        let more = behind.bytes?;
        self.grown = self.grown.checked_add(more as u64)?;
        Some(Growth {
            more,
            grown: self.grown,
        })
    }
}

/// Has those look at what they wait for that stand at a partition.
fn grow_all<A: Allocator + Copy>(waits: &mut Waits<A>, stand: &Stand<A>, growth: Option<Growth>)
    ensures grows { (k : ℕ) → GrowsOn (share_in stand.now k) growth
        (asleep_at waits.old k) (asleep_at waits.new k) }
    ensures dues { KeepsDues waits.old waits.new }
{
    for (number, share) in &stand.shares {
        waits.grow(*number, share, growth);
    }
}

/// Counts what came to the partition at a place, and wakes those of who stand there that may be due by what was done to it.
fn look<S: BatchStore, A: Allocator + Copy>(
    waits: &mut Waits<A>,
    stand: &mut Stand<A>,
    state: &BrokerState<S>,
    place: Place,
    noted: Noted,
)
    ensures counts { Counts state.now place stand.old stand.new }
    ensures each { (k : ℕ) → Looks state.now noted place stand.old stand.new
        (share_in stand.old k) (asleep_at waits.old k) (asleep_at waits.new k) }
    ensures dues { KeepsDues waits.old waits.new }
{
    let growth = stand.count(state, place);
    match (noted, growth) {
        (Noted::Grows, Some(Growth { more: 0, .. })) => {}
        (Noted::Grows, growth) => grow_all(waits, stand, growth),
        (Noted::Changes, _) => grow_all(waits, stand, None),
    }
}

impl<A: Allocator + Copy> Waiting<A> {
    /// No session waits. It takes no memory.
    pub(crate) fn new(alloc: A) -> Waiting<A>
        ensures waits { (k : ℕ) → wait_at result.waits k ≡ None }
        ensures stands { (key : PartitionKey) → stand_at result key ≡ None }
    {
        Waiting {
            alloc,
            waits: Waits::new(alloc),
            by_partition: IndexMap::new(alloc),
            marked: 0,
            by_time: BTreeSet::new(alloc),
        }
    }

    // ---- those that wait

    /// Has a session wait for the partitions of the first frame that it holds, a Fetch that waits, until a time. One that sleeps
    /// sleeps on; one that was woken, and isn't due, is counted anew.
    ///
    /// # Errors
    ///
    /// Out of memory: it doesn't wait.
    pub(crate) fn join<S: BatchStore>(
        &mut self,
        node: &Node<S>,
        number: u64,
        due: u128,
        held: &[u8],
    ) -> Result<(), AllocError>
        ensures waits { OnOk result (IsSome (unnamed_at self.new.waits number)) }
        ensures waits_not { OnErr result (wait_at self.new.waits number ≡ None) }
        ensures due { IfSome (asleep_at self.new.waits number) (λ wait.
            (wait.due.0 ≡ due) ⊎ (asleep_at self.old.waits number ≡ Some wait)) }
        ensures others { (k : ℕ) → k ≢ number
            → wait_at self.new.waits k ≡ wait_at self.old.waits k }
        ensures asleep { (k : ℕ) → k ≢ number
            → asleep_at self.new.waits k ≡ asleep_at self.old.waits k }
        ensures wait_on { (asked : ℕ → FetchValue) → AllWaitOn node.now (content_at node.now) self.old asked
            → AsksFirst held.now (asked number) → fetch_waits node.now (asked number) ≡ true
            → AllWaitOn node.now (content_at node.now) self.new asked }
    {
        if self.waits.is_asleep(number) {
            return Ok(());
        }
        self.leave(number);
        let joined = self.add_first(node.state(), number, due, held);
        if joined.is_err() {
            // What it has counted so far says nothing.
            self.waits.wake(number);
            self.leave(number);
        }
        joined
    }

    /// Adds a session that doesn't wait, with what the first frame that it holds waits for.
    fn add_first<S: BatchStore>(
        &mut self,
        state: &BrokerState<S>,
        number: u64,
        due: u128,
        held: &[u8],
    ) -> Result<(), AllocError>
        requires { wait_at self.old.waits number ≡ None }
        ensures joins { Joins state.now number (due, number) self.old self.new }
        ensures standers { StandersWait self.old → StandersWait self.new }
        ensures waits { OnOk result (IsSome (unnamed_at self.new.waits number)) }
        ensures listed { OnOk result (has_time (due, number) self.new.times ≡ true) }
        ensures counts { OnOk result ((q : FetchValue) → AsksFirst held.now q
            → AreCounted state.now self.new number (awaited_bytes q) (entries_in q.topics)) }
    {
        let Some(request) = first_request(held) else {
            return Err(AllocError);
        };
        match &request.body {
            RequestBody::Fetch(asked) => self.add(state, number, due, asked),
            _ => Err(AllocError),
        }
    }

    /// Adds a session that doesn't wait, with what its Fetch waits for.
    fn add<S: BatchStore>(
        &mut self,
        state: &BrokerState<S>,
        number: u64,
        due: u128,
        asked: &FetchRequest<'_>,
    ) -> Result<(), AllocError>
        requires { wait_at self.old.waits number ≡ None }
        ensures joins { Joins state.now number (due, number) self.old self.new }
        ensures standers { StandersWait self.old → StandersWait self.new }
        ensures waits { OnOk result (IsSome (unnamed_at self.new.waits number)) }
        ensures listed { OnOk result (has_time (due, number) self.new.times ≡ true) }
        ensures counts { OnOk result (AreCounted state.now self.new number
            (awaited_bytes (fetch_view asked.now)) (entries_in (fetch_view asked.now).topics)) }
    {
        let wait = Wait {
            due: (due, number),
            places: Vec::new(self.alloc),
            missing: awaited_bytes(asked),
            forced: 0,
            is_named: false,
        };
        self.waits.add(number, wait)?;
        self.by_time.insert((due, number))?;
        self.add_topics(state, number, asked)
    }

    /// Has a session that waits stand at the partitions that its Fetch asks for.
    fn add_topics<S: BatchStore>(
        &mut self,
        state: &BrokerState<S>,
        number: u64,
        asked: &FetchRequest<'_>,
    ) -> Result<(), AllocError>
        ensures joins { (due : ℕ × ℕ) → Joins state.now number due self.old self.new }
        ensures standers { KeepsStanders number self.old self.new }
        ensures counts { OnOk result ((awaited : ℕ) → AreCounted state.now self.old number awaited []
            → AreCounted state.now self.new number awaited (entries_in (fetch_view asked.now).topics)) }
    {
        let mut count = 0;
        for topic in Topics::of(&asked.topics) {
            count = self.add_topic(state, number, topic, count)?;
        }
        Ok(())
    }

    /// Has a session that waits stand at a topic's partitions that are asked for behind so many others, and gives how many are
    /// with them.
    fn add_topic<S: BatchStore>(
        &mut self,
        state: &BrokerState<S>,
        number: u64,
        topic: Topic<'_, FetchPartition>,
        before: usize,
    ) -> Result<usize, AllocError>
        ensures joins { (due : ℕ × ℕ) → Joins state.now number due self.old self.new }
        ensures standers { KeepsStanders number self.old self.new }
        ensures counts { IfOk result (λ count. CountsMore state.now number self.old self.new before count
            (entries_of topic.entry.name.now
            (map fetch_partition_value (values fetch_partition topic.entry.partitions)))) }
    {
        let mut count = before;
        for entry in topic.partitions {
            count = self.add_asked(state, number, topic.name, entry, count)?;
        }
        Ok(count)
    }

    /// Has a session that waits stand at the partition of an entry that stands behind so many others, and gives how many they
    /// are with it.
    fn add_asked<S: BatchStore>(
        &mut self,
        state: &BrokerState<S>,
        number: u64,
        topic: &[u8],
        entry: FetchPartition,
        before: usize,
    ) -> Result<usize, AllocError>
        ensures joins { (due : ℕ × ℕ) → Joins state.now number due self.old self.new }
        ensures standers { KeepsStanders number self.old self.new }
        ensures counts { IfOk result (λ count. CountsMore state.now number self.old self.new before count
            (entries_of topic.now (fetch_entry_value entry ∷ []))) }
    {
        let Some(count) = before.checked_add(1) else {
            return Err(AllocError);
        };
        let Some(counted) = count_entry(state, topic, entry) else {
            // Then it doesn't wait: a visit finds that.
            self.waits.wake(number);
            return Ok(count);
        };
        self.add_counted(number, &counted, count)?;
        Ok(count)
    }

    /// Has a session that waits stand at the partition of one of its entries, the one with this number, from 1.
    fn add_counted(
        &mut self,
        number: u64,
        counted: &Counted,
        entry: usize,
    ) -> Result<(), AllocError>
        ensures joins { (s : State) (due : ℕ × ℕ)
            → EndsAt s (key_of counted.now.place) counted.now.end
            → Joins s number due self.old self.new }
        ensures standers { KeepsStanders number self.old self.new }
        ensures sleeps { OnOk result (SleepsSo (with_entry counted.now.bytes counted.now.room entry)
            number self.old self.new) }
        ensures puts { OnOk result ((s : State)
            → EndsAt s (key_of counted.now.place) counted.now.end
            → PutsAt number (key_of counted.now.place) counted.now.room entry self.old self.new) }
    {
        self.waits
            .take_off(number, counted.bytes, counted.room, entry);
        let place = PartitionKey::of(counted.place);
        self.add_place(number, place, counted)?;
        self.put_at(number, place, counted.room, entry)
    }

    /// Adds a partition to those of a session, if it isn't among them, and to those that are waited for.
    fn add_place(
        &mut self,
        number: u64,
        place: PartitionKey,
        counted: &Counted,
    ) -> Result<(), AllocError>
        ensures joins { (s : State) (due : ℕ × ℕ) → EndsAt s place counted.now.end
            → Joins s number due self.old self.new }
        ensures standers { KeepsStanders number self.old self.new }
        ensures placed { OnOk result (IsSome (wait_at self.old.waits number) → StandersWait self.old
            → waits_for self.new.waits number place ≡ true) }
        ensures sleeps { OnOk result (SleepsSo as_it_was number self.old self.new) }
        ensures is_there { OnOk result (IsSome (stand_at self.new place)) }
    {
        if self.stands_at(number, place) {
            return Ok(());
        }
        self.waits.add_place(number, place)?;
        self.know_place(place, counted)
    }

    /// Adds a partition to those that are waited for, if it isn't among them.
    fn know_place(&mut self, place: PartitionKey, counted: &Counted) -> Result<(), AllocError>
        ensures knows { Knows place counted.now.end self.old self.new }
        ensures is_there { OnOk result (IsSome (stand_at self.new place)) }
    {
        if self.by_partition.contains_key(&place) {
            return Ok(());
        }
        let stand = Stand::new(self.alloc, counted);
        self.by_partition.insert(place, stand)?;
        Ok(())
    }

    /// Puts one more entry of a session at a partition that is waited for, the one with this number, from 1.
    fn put_at(
        &mut self,
        number: u64,
        place: PartitionKey,
        room: Option<usize>,
        entry: usize,
    ) -> Result<(), AllocError>
        ensures joins { (s : State) (due : ℕ × ℕ) → Joins s number due self.old self.new }
        ensures standers { waits_for self.old.waits number place ≡ true
            → StandersWait self.old → StandersWait self.new }
        ensures waits { self.new.waits ≡ self.old.waits }
        ensures puts { OnOk result (IsSome (stand_at self.old place)
            → PutsAt number place room entry self.old self.new) }
    {
        let Some(stand) = self.by_partition.get_mut(&place) else {
            return Ok(());
        };
        stand.put(number, room, entry)
    }

    /// Whether a session stands at a partition.
    fn stands_at(&self, number: u64, place: PartitionKey) -> bool
        ensures is_there { result ≡ true → IsSome (stand_at self.now place) }
        ensures stands { result ≡ true → IsSome (share_at self.now place number) }
    {
        match self.by_partition.get(&place) {
            Some(stand) => stand.shares.contains_key(&number),
            None => false,
        }
    }

    /// Has a session wait no more.
    pub(crate) fn leave(&mut self, number: u64)
        ensures waits_no_more { wait_at self.new.waits number ≡ None }
        ensures stands_no_more { IfSome (wait_at self.old.waits number)
            (λ wait. StandsAtNone number wait.places self.new) }
        ensures time { IfSome (wait_at self.old.waits number)
            (λ wait. has_time wait.due self.new.times ≡ false) }
        ensures others { (k : ℕ) → k ≢ number
            → wait_at self.new.waits k ≡ wait_at self.old.waits k }
        ensures asleep { (k : ℕ) → k ≢ number
            → asleep_at self.new.waits k ≡ asleep_at self.old.waits k }
        ensures wait_on { (s : State) (now : Contents) (asked : ℕ → FetchValue)
            → AllWaitOn s now self.old asked → AllWaitOn s now self.new asked }
    {
        if let Some(wait) = self.waits.remove(number) {
            self.by_time.remove(&wait.due);
            self.remove_from(&wait.places, number);
        }
    }

    /// Removes a session from those that wait for some partitions.
    fn remove_from(&mut self, places: &[PartitionKey], number: u64)
        ensures waits { self.new.waits ≡ self.old.waits }
        ensures times { self.new.times ≡ self.old.times }
        ensures stands { KeepsStands (λ k. k ≢ number) self.old self.new }
        ensures gone { StandsAtNone number places.now self.new }
    {
        for place in places {
            self.remove_at(*place, number);
        }
    }

    /// Removes a session from those that wait for a partition.
    fn remove_at(&mut self, place: PartitionKey, number: u64)
        ensures waits { self.new.waits ≡ self.old.waits }
        ensures times { self.new.times ≡ self.old.times }
        ensures stands { KeepsStands (λ k. k ≢ number) self.old self.new }
        ensures gone { share_at self.new place number ≡ None }
    {
        let Some(stand) = self.by_partition.get_mut(&place) else {
            return;
        };
        if stand.remove(number) {
            self.by_partition.swap_remove(&place);
        }
    }

    /// Whether a session waits.
    pub(crate) fn waits(&self, number: u64) -> bool
        ensures { result ≡ is_some (wait_at self.now.waits number) }
    {
        self.waits.waits(number)
    }

    /// For how many partitions a session waits; 0 where it doesn't.
    pub(crate) fn places(&self, number: u64) -> usize
        ensures { wait_at self.now.waits number ≡ None → result ≡ 0 }
    {
        match self.waits.get(number) {
            Some(wait) => wait.places.len(),
            None => 0,
        }
    }

    // ---- those that are woken

    /// Marks what the first frame that is held may change, before it is handled, and gives what it may do there.
    pub(crate) fn note<S: BatchStore>(&mut self, node: &Node<S>, held: &[u8]) -> Noted
        ensures marks { (frame rest : List ℕ) (q : RequestValue) → IsFirstFrame frame held.now rest
            → IsRequest frame q → AreMarked node.now self.new (places (effect q.body))
            × (result ≡ Noted.Grows → only_grows (effect q.body) ≡ true) }
        ensures waits { self.new.waits ≡ self.old.waits }
        ensures wait_on { (s : State) (now : Contents) (asked : ℕ → FetchValue)
            → AllWaitOn s now self.old asked → AllWaitOn s now self.new asked }
    {
        self.marked = 0;
        if self.by_partition.is_empty() {
            return Noted::Changes;
        }
        let Some(request) = first_request(held) else {
            return Noted::Changes;
        };
        self.mark_all(node.state(), &request.body);
        effect_of(&request.body)
    }

    /// Marks the partitions that a request may change.
    fn mark_all<S: BatchStore>(&mut self, state: &BrokerState<S>, body: &RequestBody<'_>)
        ensures marks { Marks state.now self.old self.new (places (effect (request_body body.now))) }
    {
        match what_may_change(body) {
            MayChange::Nothing | MayChange::NextId => {}
            MayChange::One(topic, partition) => self.mark(state, topic, partition),
            MayChange::Produced(topics) => self.mark_topics(state, topics),
        }
    }

    /// Marks the partitions to which a request appends.
    fn mark_topics<'a, S: BatchStore>(
        &mut self,
        state: &BrokerState<S>,
        topics: &Array<'a, Topic<'a, ProducePartition<'a>>>,
    )
        ensures marks { Marks state.now self.old self.new (produced_to (map
            (topic_request produce_partition produce_partition_value)
            (values (topic produce_partition) topics.now))) }
    {
        for topic in Topics::of(topics) {
            self.mark_topic(state, topic);
        }
    }

    /// Marks a topic's partitions to which a request appends.
    fn mark_topic<'a, S: BatchStore>(
        &mut self,
        state: &BrokerState<S>,
        topic: Topic<'a, ProducePartition<'a>>,
    )
        ensures marks { Marks state.now self.old self.new (produced_in topic.entry.name.now
            (map produce_partition_value (values produce_partition topic.entry.partitions))) }
    {
        for entry in topic.partitions {
            self.mark(state, topic.name, entry.index);
        }
    }

    /// Marks a partition, if any session stands there.
    fn mark<S: BatchStore>(&mut self, state: &BrokerState<S>, topic: &[u8], partition: i32)
        ensures marks { Marks state.now self.old self.new
            (record { topic = topic.now; partition = partition } ∷ []) }
    {
        let Some(place) = state.place_of(topic, partition) else {
            return;
        };
        let Some(index) = self.by_partition.get_index_of(&PartitionKey::of(place)) else {
            return;
        };
        if index < self.marked {
            return;
        }
        // The count of all is what says that the sum fits.
        let _all = self.by_partition.len();
        self.by_partition.swap_indices(index, self.marked);
        self.marked += 1;
    }

    /// Has a session wait no more whose first frame was handled, and wakes those that may be due by what that frame changed of
    /// the partitions that are marked.
    pub(crate) fn pass<S: BatchStore>(&mut self, node: &Node<S>, number: u64, noted: Noted)
        ensures waits_no_more { wait_at self.new.waits number ≡ None }
        ensures others { OthersWait number self.old.waits self.new.waits }
        ensures wait_on { (s : State) (ps : List TopicPartition) (asked : ℕ → FetchValue)
            → AllWaitOn s (content_at s) self.old asked → AreMarked s self.old ps
            → Leaves s noted ps node.now
            → AllWaitOn node.now (content_at node.now) self.new asked }
    {
        for index in 0..self.marked {
            self.look_at(node.state(), index, noted);
        }
        self.marked = 0;
        self.leave(number);
    }

    /// Wakes those that may be due by what was done to a partition, the one with this index among those that are waited for.
    fn look_at<S: BatchStore>(&mut self, state: &BrokerState<S>, index: usize, noted: Noted)
        ensures looks { MatchOption (slice_get (keys_of self.old.stands) index)
            (self.new ≡ self.old) (λ key. LooksAt state.now noted key self.old self.new) }
        ensures keys { keys_of self.new.stands ≡ keys_of self.old.stands }
        ensures dues { KeepsDues self.old.waits self.new.waits }
    {
        let Some((key, _)) = self.by_partition.get_index(index) else {
            return;
        };
        let place = key.place();
        let Some(stand) = self.by_partition.get_index_mut(index) else {
            return;
        };
        look(&mut self.waits, stand, state, place, noted);
    }

    /// Until when no session is woken by its time, in milliseconds, if nothing else happens; `None` where none will be. 0 where
    /// one is woken already.
    pub(crate) fn next_due(&self) -> Option<u128>
        ensures { (clock : ℕ) → IfSome result (λ due. clock < due)
            → (self.now.waits.woken ≡ 0) × All (λ time. clock < time.0) self.now.times }
    {
        if self.waits.has_woken() {
            return Some(0);
        }
        self.first_time()
    }

    /// When the first time will be over, in milliseconds.
    fn first_time(&self) -> Option<u128>
        ensures { MatchOption result (self.now.times ≡ [])
            (λ due. All (λ time. due ≤ time.0) self.now.times) }
    {
        match self.by_time.first() {
            Some((due, _)) => Some(*due),
            None => None,
        }
    }

    /// Whether a time is over.
    fn has_due(&self, clock: u64) -> bool
        ensures { result ≡ false → All (λ time. clock < time.0) self.now.times }
    {
        match self.first_time() {
            Some(due) => due <= u128::from(clock),
            None => false,
        }
    }

    /// The number of a session that is to be visited, as what it waits for may be there, or its time is over. It isn't named
    /// again before it was.
    pub(crate) fn next_woken(&mut self, clock: u64) -> Option<u64>
        ensures none_is_woken { IfNone result (self.new.waits.woken ≡ 0) }
        ensures none_is_due { All (λ time. clock < time.0) self.new.times }
        ensures was_unnamed { IfSome result (λ number. IsSome (unnamed_at self.old.waits number)) }
        ensures waits { (k : ℕ) → MatchOption result
            (wait_at self.new.waits k ≡ wait_at self.old.waits k)
            (λ number. k ≢ number → wait_at self.new.waits k ≡ wait_at self.old.waits k) }
        ensures names { IfSome result (λ number. unnamed_at self.new.waits number ≡ None) }
        ensures still_none { (k : ℕ) → wait_at self.old.waits k ≡ None → wait_at self.new.waits k ≡ None }
        ensures slept { (k : ℕ) → IfSome (asleep_at self.new.waits k)
            (λ wait. asleep_at self.old.waits k ≡ Some wait) }
        ensures wait_on { (s : State) (now : Contents) (asked : ℕ → FetchValue)
            → AllWaitOn s now self.old asked → AllWaitOn s now self.new asked }
    {
        while let Some(number) = self.pop_due(clock) {
            self.waits.wake(number);
        }
        self.waits.name_one()
    }

    /// The number of the session whose time is over first, if one's is. It is told so once.
    fn pop_due(&mut self, clock: u64) -> Option<u64>
        ensures waits { self.new.waits ≡ self.old.waits }
        ensures stands { self.new.stands ≡ self.old.stands }
        ensures times { (due : ℕ × ℕ) → MatchOption result (self.new.times ≡ self.old.times)
            (λ number. due.1 ≢ number → has_time due self.old.times ≡ true
            → has_time due self.new.times ≡ true) }
        ensures shorter { IfSome result (λ number.
            length self.new.times < length self.old.times) }
        ensures none_is_due { IfNone result (All (λ time. clock < time.0) self.new.times) }
    {
        if !self.has_due(clock) {
            return None;
        }
        let (_, number) = self.by_time.pop_first()?;
        Some(number)
    }
}
