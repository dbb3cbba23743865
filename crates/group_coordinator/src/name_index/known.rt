//! Which protocols have a name.

ghost use Rattle.std.specs.Prelude.{◌≡◌, ◌≤◌, length, OnOk};
ghost use Rattle.group_coordinator.specs.Finding.{Finds, HasPlace, protocol_names};
ghost use Rattle.group_coordinator.specs.Members.{knows};

use super::{NameIndex, bucket_of};
use crate::protocols::KnownProtocol;
use std::alloc::{AllocError, Allocator};

impl<A: Allocator + Copy> NameIndex<A> {
    /// The names of these protocols.
    fn rebuild_known(&mut self, protocols: &[KnownProtocol<A>])
        requires buckets { length protocols.now ≤ length self.old.last }
        requires room { length protocols.now ≤ self.old.capacity }
        ensures finds { Finds self.new (protocol_names protocols.now) }
        ensures buckets { length self.new.last ≡ length self.old.last }
        ensures capacity { self.new.capacity ≡ self.old.capacity }
    {
        self.clear();
        for protocol in protocols.iter() {
            self.push(protocol.name());
        }
    }

    /// Takes room for one name more than those of these protocols.
    ///
    /// # Errors
    ///
    /// Out of memory: the names are those of these protocols still.
    pub(crate) fn reserve_known(&mut self, protocols: &[KnownProtocol<A>]) -> Result<(), AllocError>
        requires finds { Finds self.old (protocol_names protocols.now) }
        ensures finds { Finds self.new (protocol_names protocols.now) }
        ensures room { OnOk result (HasPlace self.new) }
    {
        self.before.reserve(1)?;
        if self.before.len() < self.last.len() {
            return Ok(());
        }
        let count = self.before.len().saturating_add(1).saturating_mul(2);
        self.last.resize(count, 0)?;
        self.rebuild_known(protocols);
        Ok(())
    }

    /// Whether one of these protocols has this name.
    pub(crate) fn knows(&self, protocols: &[KnownProtocol<A>], name: &[u8]) -> bool
        requires finds { Finds self.now (protocol_names protocols.now) }
        ensures { result ≡ knows name.now protocols.now }
    {
        if self.last.is_empty() {
            return false;
        }
        let mut place = self.last[bucket_of(self.last.len(), name)];
        while place > 0 {
            if protocols[place - 1].is_named(name) {
                return true;
            }
            place = self.before[place - 1];
        }
        false
    }
}
