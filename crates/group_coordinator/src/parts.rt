//! The parts that a leader gives, and those that the members of its group get of them.

ghost use Rattle.std.specs.Prelude.{◌≡◌, ◌++◌, ◌∷◌, [], ℕ, List, length, map, min, None, Some, IfOk, OnOk, OnErr, ◌≤◌};
ghost use Rattle.std.specs.List.{sum_by};
ghost use Rattle.std.specs.Option.{option_map};
ghost use Rattle.group_coordinator.specs.Giving.{GivesLast, TakesFirst, part_lengths, parts_for, with_part};
ghost use Rattle.group_coordinator.specs.Joining.{assigned, part_of};
ghost use Rattle.group_coordinator.specs.Requests.{Part};
ghost use Rattle.group_coordinator.specs.declared.values.TheConstants.{MOST_TIME};

use crate::member::GroupMember;
use indexmap::IndexMap;
use std::alloc::{AllocError, Allocator};
use std::hash::{BuildHasherDefault, FoldHasher};
use std::marker::Model;
use std::vec::IntoIter;

/// An id, and the part of the member with this id.
#[derive(Drop)]
pub(crate) struct MemberPart<A: Allocator + Copy> {
    id: Vec<u8, A>,
    part: Vec<u8, A>,
}

impl<A: Allocator + Copy> Model for MemberPart<A> {
    ghost use Rattle.group_coordinator.specs.Requests.{Part};

    ghost Value = { Part };

    ghost view = { λ p. record { id = p.id.items; part = p.part.items } };
}

/// The parts of a request, in its order.
#[derive(Drop)]
pub struct Parts<A: Allocator + Copy> {
    alloc: A,
    parts: Vec<MemberPart<A>, A>,
}

impl<A: Allocator + Copy> Model for Parts<A> {
    ghost use Rattle.std.specs.Prelude.{List};
    ghost use Rattle.group_coordinator.specs.Requests.{Part};

    ghost Value = { List Part };

    ghost view = { λ p. p.parts.items };
}

/// The last part for each id, in no order that matters.
pub(crate) type LastParts<'a, A> = IndexMap<&'a [u8], &'a [u8], BuildHasherDefault<FoldHasher>, A>;

/// The parts that members get, one for each, by age.
#[derive(Drop)]
pub(crate) struct NewParts<A: Allocator + Copy> {
    parts: IntoIter<Vec<u8, A>, A>,
}

/// What a request for a part comes to: the bytes that are counted for all groups behind it; and the parts that members
/// get by it, if any.
#[derive(Drop)]
pub(crate) struct Plan<A: Allocator + Copy> {
    bytes: u64,
    given: Option<NewParts<A>>,
}

impl<A: Allocator + Copy> Model for Plan<A> {
    ghost use Rattle.group_coordinator.specs.Giving.{Planned};

    ghost Value = { Planned };

    ghost view = { λ p. record { bytes = p.bytes; given = p.given } };
}

impl<A: Allocator + Copy> Model for NewParts<A> {
    ghost use Rattle.std.specs.Prelude.{ℕ, List, map};
    ghost use Rattle.std.specs.Vec.Iter.{into_iter_items};

    ghost Value = { List (List ℕ) };

    ghost view = { λ p. map (λ part. part.items) (into_iter_items p.parts) };
}

/// One entry more: its part is the last one for its id.
fn put_last<'a, A: Allocator + Copy>(
    last: &mut LastParts<'a, A>,
    entry: &'a MemberPart<A>,
) -> Result<(), AllocError>
    ensures { OnOk result ((ps : List Part) → GivesLast last.old ps → GivesLast last.new (ps ++ entry.now ∷ [])) }
{
    last.insert(&entry.id, &entry.part)?;
    Ok(())
}

/// The last part for each id.
fn last_of<A: Allocator + Copy>(
    alloc: A,
    parts: &[MemberPart<A>],
) -> Result<LastParts<'_, A>, AllocError>
    ensures { IfOk result (λ last. GivesLast last parts.now) }
{
    let mut last = IndexMap::new(alloc);
    for entry in parts.iter() {
        put_last(&mut last, entry)?;
    }
    Ok(last)
}

/// The length of the part for an id, in bytes.
fn part_len<A: Allocator + Copy>(last: &LastParts<'_, A>, id: &[u8]) -> u64
    ensures { (ps : List Part) → GivesLast last.now ps → result ≡ length (part_of ps id.now) }
{
    match last.get(id) {
        Some(part) => part.len() as u64,
        None => 0,
    }
}

/// A copy of the part for an id.
fn copy_part<A: Allocator + Copy>(
    last: &LastParts<'_, A>,
    alloc: A,
    id: &[u8],
) -> Result<Vec<u8, A>, AllocError>
    ensures { IfOk result (λ part. (ps : List Part) → GivesLast last.now ps → part.items ≡ part_of ps id.now) }
{
    match last.get(id) {
        Some(part) => part.to_vec(alloc),
        None => Ok(Vec::new(alloc)),
    }
}

/// The bytes of the parts that these members get, or the greatest number if there are more.
pub(crate) fn given_bytes<A: Allocator + Copy>(
    last: &LastParts<'_, A>,
    members: &[GroupMember<A>],
) -> u64
    ensures { (ps : List Part) → GivesLast last.now ps → result ≡ min (sum_by length (parts_for ps members.now)) 18446744073709551615 }
{
    let mut bytes = 0;
    for member in members.iter() {
        bytes = part_len(last, member.id()).saturating_add(bytes);
    }
    bytes
}

/// The bytes of the parts that these members have, or the greatest number if there are more.
pub(crate) fn part_bytes<A: Allocator + Copy>(members: &[GroupMember<A>]) -> u64
    ensures { result ≡ min (part_lengths members.now) 18446744073709551615 }
{
    let mut bytes: u64 = 0;
    for member in members.iter() {
        bytes = member.part_len().saturating_add(bytes);
    }
    bytes
}

/// A copy of the part of each of these members.
pub(crate) fn new_parts<A: Allocator + Copy>(
    last: &LastParts<'_, A>,
    alloc: A,
    members: &[GroupMember<A>],
) -> Result<NewParts<A>, AllocError>
    ensures { IfOk result (λ given. (ps : List Part) → GivesLast last.now ps → given ≡ parts_for ps members.now) }
{
    let mut parts = Vec::with_capacity(alloc, members.len())?;
    for member in members.iter() {
        parts.push(copy_part(last, alloc, member.id())?)?;
    }
    Ok(NewParts {
        parts: parts.into_iter(),
    })
}

/// A member gets the first of the parts that are left.
fn give_next<A: Allocator + Copy>(member: &mut GroupMember<A>, now: u64, given: &mut NewParts<A>)
    requires bounded { now ≤ MOST_TIME }
    ensures gives { (p : List ℕ) (ps : List (List ℕ)) → given.old ≡ p ∷ ps → member.new ≡ with_part now p member.old }
    ensures rest { (p : List ℕ) (ps : List (List ℕ)) → given.old ≡ p ∷ ps → given.new ≡ ps }
{
    if let Some(part) = given.next() {
        member.assign(now, part);
    }
}

/// Each member gets its part. Takes no memory.
pub(crate) fn give<A: Allocator + Copy>(
    members: &mut [GroupMember<A>],
    now: u64,
    mut given: NewParts<A>,
)
    requires bounded { now ≤ MOST_TIME }
    ensures { (ps : List Part) → given ≡ parts_for ps members.old → members.new ≡ map (assigned now ps) members.old }
{
    for member in members.iter_mut() {
        give_next(member, now, &mut given);
    }
}

impl<A: Allocator + Copy> Parts<A> {
    /// None. Takes no memory.
    pub fn new(alloc: A) -> Parts<A>
        ensures { result ≡ [] }
    {
        Parts {
            alloc,
            parts: Vec::new(alloc),
        }
    }

    /// One part more, for the member with this id.
    ///
    /// # Errors
    ///
    /// Out of memory: nothing has changed.
    pub fn push(&mut self, id: &[u8], part: &[u8]) -> Result<(), AllocError>
        ensures pushes { OnOk result (self.new ≡ self.old ++ record { id = id.now; part = part.now } ∷ []) }
        ensures unchanged_on_error { OnErr result (self.new ≡ self.old) }
    {
        let entry = MemberPart {
            id: id.to_vec(self.alloc)?,
            part: part.to_vec(self.alloc)?,
        };
        self.parts.push(entry)?;
        Ok(())
    }

    /// The allocator of these parts.
    pub(crate) fn alloc(&self) -> A {
        self.alloc
    }

    /// The last part for each id.
    pub(crate) fn last(&self) -> Result<LastParts<'_, A>, AllocError>
        ensures { IfOk result (λ last. GivesLast last self.now) }
    {
        last_of(self.alloc, &self.parts)
    }
}

impl<A: Allocator + Copy> Plan<A> {
    /// Nobody gets a part.
    pub(crate) fn without_parts(bytes: u64) -> Plan<A>
        ensures { result ≡ record { bytes = bytes; given = None } }
    {
        Plan { bytes, given: None }
    }

    /// Each member gets its part.
    pub(crate) fn with_parts(bytes: u64, given: NewParts<A>) -> Plan<A>
        ensures { result ≡ record { bytes = bytes; given = Some given } }
    {
        Plan {
            bytes,
            given: Some(given),
        }
    }

    /// The bytes that are counted for all groups behind the request.
    pub(crate) fn bytes(&self) -> u64
        ensures { result ≡ self.now.bytes }
    {
        self.bytes
    }

    /// The parts that members get, one for each, by age; none where nobody gets one.
    pub(crate) fn given(self) -> Option<NewParts<A>>
        ensures { result ≡ self.given }
    {
        self.given
    }
}

impl<A: Allocator + Copy> NewParts<A> {
    /// The first of those that are left.
    pub(crate) fn next(&mut self) -> Option<Vec<u8, A>>
        ensures { TakesFirst self.old self.new (option_map (λ part. part.items) result) }
    {
        self.parts.next()
    }
}
