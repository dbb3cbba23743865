//! How many connections each address has, and how many bytes are kept for them.

ghost use Rattle.std.specs.Prelude.{◌≡◌, ◌≤◌, IsSome, IfSome, IfNone, OnOk, OnErr, None, Some, false};
ghost use Rattle.std.specs.Option.{option_and_then, option_map};
ghost use Rattle.listeners.specs.Addresses.{count_of, kept_of, share_at, with_kept, with_one, without_one};

use indexmap::IndexMap;
use std::alloc::{AllocError, Global};
use std::hash::Hash;
use std::marker::Model;

/// What the connections of one address make together.
#[derive(Clone, Copy)]
pub(crate) struct Share {
    /// How many there are, from 1.
    count: u32,
    /// How many bytes are kept for them.
    kept: u64,
}

/// The addresses that have a connection, of any type of addresses.
#[derive(Drop)]
pub(crate) struct Addresses<K: Eq + Hash> {
    shares: IndexMap<K, Share>,
}

impl<K: Eq + Hash> Model for Addresses<K> {
    ghost use Rattle.std.specs.Prelude.{List};
    ghost use Rattle.listeners.specs.declared.addresses.Share.{Share};

    ghost Value = { List (K × Share) };

    ghost view = { λ a. a.shares.entries };
}

impl<K: Eq + Hash + Copy> Addresses<K> {
    /// None.
    pub(crate) fn new(alloc: Global) -> Addresses<K>
        ensures { (k : K) → share_at K.eq result k ≡ None }
    {
        Addresses {
            shares: IndexMap::new(alloc),
        }
    }

    /// How many connections an address has.
    pub(crate) fn count(&self, address: K) -> u32
        ensures { result ≡ count_of (share_at K.eq self.now address) }
    {
        match self.shares.get(&address) {
            Some(share) => share.count,
            None => 0,
        }
    }

    /// Counts one connection more of an address, for which nothing is kept.
    ///
    /// # Errors
    ///
    /// Out of memory: it isn't counted.
    pub(crate) fn add(&mut self, address: K) -> Result<(), AllocError>
        ensures adds { OnOk result (share_at K.eq self.new address
            ≡ Some (with_one (share_at K.eq self.old address))) }
        ensures others { OnOk result ((k : K) → K.eq address k ≡ false
            → share_at K.eq self.new k ≡ share_at K.eq self.old k) }
        ensures unchanged_on_error { OnErr result (self.new ≡ self.old) }
    {
        if let Some(share) = self.shares.get_mut(&address) {
            share.count = share.count.saturating_add(1);
            return Ok(());
        }
        self.shares.insert(address, Share { count: 1, kept: 0 })?;
        Ok(())
    }

    /// Counts one connection less of an address, for which so many bytes were kept. Behind its last one nothing is left of it.
    pub(crate) fn remove(&mut self, address: K, kept: u64)
        ensures removes { share_at K.eq self.new address
            ≡ option_and_then (without_one kept) (share_at K.eq self.old address) }
        ensures others { (k : K) → K.eq address k ≡ false
            → share_at K.eq self.new k ≡ share_at K.eq self.old k }
    {
        let Some(share) = self.shares.get_mut(&address) else {
            return;
        };
        share.count = share.count.saturating_sub(1);
        share.kept = share.kept.saturating_sub(kept);
        if share.count == 0 {
            self.shares.swap_remove(&address);
        }
    }

    /// Counts anew what is kept for one connection of an address: so many bytes in the place of so many.
    pub(crate) fn count_kept(&mut self, address: K, before: u64, now: u64)
        ensures counts { share_at K.eq self.new address
            ≡ option_map (with_kept before now) (share_at K.eq self.old address) }
        ensures others { (k : K) → K.eq address k ≡ false
            → share_at K.eq self.new k ≡ share_at K.eq self.old k }
    {
        if let Some(share) = self.shares.get_mut(&address) {
            share.kept = share.kept.saturating_sub(before).saturating_add(now);
        }
    }

    /// The address for whose connections most is kept together.
    pub(crate) fn largest(&self) -> Option<K>
        ensures there { IfSome result (λ a. IsSome (share_at K.eq self.now a)) }
        ensures most { IfSome result (λ a. (k : K)
            → kept_of (share_at K.eq self.now k) ≤ kept_of (share_at K.eq self.now a)) }
        ensures none { IfNone result ((k : K) → share_at K.eq self.now k ≡ None) }
    {
        let mut largest = None;
        let mut most = 0;
        for (address, share) in &self.shares {
            if share.kept >= most {
                most = share.kept;
                largest = Some(*address);
            }
        }
        largest
    }
}
