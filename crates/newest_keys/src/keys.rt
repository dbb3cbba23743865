//! The map.

ghost use Rattle.std.specs.Prelude.{◌≡◌, ◌<◌, ℕ, List, true, false, bytes_eq, length, Some, is_some, is_none, OnOk, OnErr, IfOk, if◌then◌else◌};
ghost use Rattle.std.specs.Int.{int_max};
ghost use Rattle.std.specs.Map.{lookup};
ghost use Rattle.newest_keys.specs.Newest.{no_keys, with_key};
ghost use Rattle.newest_keys.specs.Shards.{hash_of, shard_of, entries_of, newest_in};

use indexmap::IndexMap;
use std::alloc::{AllocError, Allocator};
use std::hash::{BuildHasherDefault, FoldHasher, Hasher};
use std::marker::Model;

/// The keys of one shard, each with an offset.
type Shard<A> = IndexMap<Vec<u8, A>, i64, BuildHasherDefault<FoldHasher>, A>;

/// Keys, each with the offset of its newest record. They lie in several small maps, so that no insertion moves all
/// of them.
#[derive(Drop)]
pub struct NewestKeys<A: Allocator + Copy> {
    shards: Vec<Shard<A>, A>,
}

impl<A: Allocator + Copy> Model for NewestKeys<A> {
    ghost use Rattle.std.specs.Prelude.{◌<◌, length, map};
    ghost use Rattle.newest_keys.specs.Shards.{Shards, entries_of};

    ghost Value = { Shards };

    ghost invariant = { λ n. 0 < length n.shards.items };

    ghost view = { λ n. map entries_of n.shards.items };
}

/// The hash of a key: a function of its bytes alone.
#[tactic(auto, unfolding(crate::specs::Shards::hash_of))]
fn hash_of(key: &[u8]) -> u64
    ensures { result ≡ hash_of key.now }
{
    let mut hasher = FoldHasher::default();
    hasher.write(key);
    hasher.finish()
}

/// Which of so many shards has a key.
fn shard_of(count: usize, key: &[u8]) -> usize
    requires { 0 < count }
    ensures shard { result ≡ shard_of count key.now }
    ensures within { result < count }
{
    (hash_of(key) / 4_294_967_296) as usize % count
}

/// The offset of a key in its shard.
fn newest_at<A: Allocator + Copy>(shard: &Shard<A>, key: &[u8]) -> Option<i64>
    ensures { result ≡ lookup (bytes_eq key.now) (entries_of shard.now) }
{
    shard.get(key).copied()
}

/// A key that is new has this offset.
fn put_new<A: Allocator + Copy>(
    shard: &mut Shard<A>,
    key: Vec<u8, A>,
    offset: i64,
) -> Result<(), AllocError>
    ensures unchanged_on_error { OnErr result (shard.new.entries ≡ shard.old.entries) }
    ensures puts { OnOk result ((k : List ℕ) → lookup (bytes_eq k) (entries_of shard.new)
        ≡ (if bytes_eq key.items k then Some offset else lookup (bytes_eq k) (entries_of shard.old))) }
{
    shard.insert(key, offset)?;
    Ok(())
}

/// The greater offset stays.
fn raise(there: &mut i64, offset: i64)
    ensures { there.new ≡ int_max there.old offset }
{
    *there = (*there).max(offset);
}

/// Raises a key's offset to this one, if the shard has the key; where it is greater, it stays. Whether it has the key.
fn put_there<A: Allocator + Copy>(shard: &mut Shard<A>, key: &[u8], offset: i64) -> bool
    ensures raises { result ≡ true
        → (k : List ℕ) → lookup (bytes_eq k) (entries_of shard.new)
        ≡ with_key (λ x. lookup (bytes_eq x) (entries_of shard.old)) key.now offset k }
    ensures there { result ≡ is_some (lookup (bytes_eq key.now) (entries_of shard.old)) }
    ensures unchanged { result ≡ false → shard.new ≡ shard.old }
{
    match shard.get_mut(key) {
        Some(there) => {
            raise(there, offset);
            true
        }
        None => false,
    }
}

/// Raises a key's offset to this one, in its shard. Whether the key is new.
fn put_in<A: Allocator + Copy>(
    shard: &mut Shard<A>,
    alloc: A,
    key: &[u8],
    offset: i64,
) -> Result<bool, AllocError>
    ensures puts { OnOk result ((k : List ℕ) → lookup (bytes_eq k) (entries_of shard.new)
        ≡ with_key (λ x. lookup (bytes_eq x) (entries_of shard.old)) key.now offset k) }
    ensures unchanged_on_error { OnErr result (shard.new.entries ≡ shard.old.entries) }
    ensures says_new { IfOk result (λ new.
        new ≡ is_none (lookup (bytes_eq key.now) (entries_of shard.old))) }
{
    if put_there(shard, key, offset) {
        return Ok(false);
    }
    put_new(shard, key.to_vec(alloc)?, offset)?;
    Ok(true)
}

impl<A: Allocator + Copy> NewestKeys<A> {
    /// A map of no key, with so many shards, or one. A shard takes some 80 bytes.
    ///
    /// # Errors
    ///
    /// Out of memory.
    pub fn with_shards(alloc: A, count: usize) -> Result<NewestKeys<A>, AllocError>
        ensures none { IfOk result (λ new. (key : List ℕ) → newest_in new key ≡ no_keys key) }
    {
        let mut shards = Vec::new(alloc);
        shards.push(IndexMap::new(alloc))?;
        for _more in 1..count {
            shards.push(IndexMap::new(alloc))?;
        }
        Ok(NewestKeys { shards })
    }

    /// The greatest offset that a key has. Takes no memory.
    pub fn newest(&self, key: &[u8]) -> Option<i64>
        ensures tells { result ≡ newest_in self.now key.now }
    {
        newest_at(&self.shards[shard_of(self.shards.len(), key)], key)
    }

    /// Raises a key's offset to this one; where it is greater, it stays. Whether the key is new, which is copied then.
    ///
    /// # Errors
    ///
    /// Out of memory: no key's offset has changed.
    pub fn put(&mut self, key: &[u8], offset: i64) -> Result<bool, AllocError>
        ensures puts { OnOk result ((k : List ℕ)
            → newest_in self.new k ≡ with_key (newest_in self.old) key.now offset k) }
        ensures says_new { IfOk result (λ new. new ≡ is_none (newest_in self.old key.now)) }
        ensures unchanged_on_error { OnErr result (self.new ≡ self.old) }
    {
        let alloc = *self.shards.allocator();
        let shard = shard_of(self.shards.len(), key);
        put_in(&mut self.shards[shard], alloc, key, offset)
    }
}
