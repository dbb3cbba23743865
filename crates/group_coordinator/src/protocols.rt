//! The ways of dividing partitions that a member knows.

ghost use Rattle.std.specs.Prelude.{◌≡◌, ◌==◌, ◌∷◌, [], ◌++◌, bytes_eq, length, slice_get, OnOk, OnErr, IfOk};
ghost use Rattle.std.specs.List.{find, position, sum_by};
ghost use Rattle.std.specs.Option.{option_map_or};
ghost use Rattle.group_coordinator.specs.Entering.{capped};
ghost use Rattle.group_coordinator.specs.Joining.{same_protocol, same_protocols};
ghost use Rattle.group_coordinator.specs.Members.{knows, protocol_bytes};

use crate::name_index::NameIndex;
use crate::values::PROTOCOL_BYTES;
use std::alloc::{AllocError, Allocator};
use std::marker::Model;

/// A way of dividing partitions that a member knows.
#[derive(Drop)]
pub(crate) struct KnownProtocol<A: Allocator + Copy> {
    name: Vec<u8, A>,
    metadata: Vec<u8, A>,
}

impl<A: Allocator + Copy> Model for KnownProtocol<A> {
    ghost use Rattle.group_coordinator.specs.Members.{Protocol};

    ghost Value = { Protocol };

    ghost view = { λ p. record { name = p.name.items; metadata = p.metadata.items } };
}

/// The ways of dividing partitions that a member knows, the one that it likes best first; their names; and the bytes that
/// are counted for them.
#[derive(Drop)]
pub struct Protocols<A: Allocator + Copy> {
    protocols: Vec<KnownProtocol<A>, A>,
    names: NameIndex<A>,
    bytes: u64,
}

impl<A: Allocator + Copy> Model for Protocols<A> {
    ghost use Rattle.std.specs.Prelude.{◌≡◌, List};
    ghost use Rattle.std.specs.List.{sum_by};
    ghost use Rattle.group_coordinator.specs.Entering.{capped};
    ghost use Rattle.group_coordinator.specs.Finding.{Finds, protocol_names};
    ghost use Rattle.group_coordinator.specs.Members.{Protocol, protocol_bytes};

    ghost Value = { List Protocol };

    ghost view = { λ p. p.protocols.items };

    ghost invariant = { λ p.
        (p.bytes ≡ capped (sum_by protocol_bytes p.protocols.items))
        × Finds p.names (protocol_names p.protocols.items) };
}

/// The index of the first of these protocols that has this name.
fn protocol_index<A: Allocator + Copy>(protocols: &[KnownProtocol<A>], name: &[u8]) -> Option<usize>
    ensures { result ≡ position (λ p. bytes_eq p.name name.now) protocols.now }
{
    protocols
        .iter()
        .position(|protocol| protocol.name.as_slice() == name)
}

/// The metadata of the first of these protocols that has this name; none where none has it.
pub(crate) fn metadata<'a, A: Allocator + Copy>(
    protocols: &'a [KnownProtocol<A>],
    name: &[u8],
) -> &'a [u8]
    ensures { result.now ≡ option_map_or (λ p. p.metadata) (find (λ p. bytes_eq p.name name.now) protocols.now) [] }
{
    match protocol_index(protocols, name) {
        Some(index) => protocols[index].metadata(),
        None => b"",
    }
}

/// The name of the protocol at an index; none where none stands there.
pub(crate) fn protocol_name<A: Allocator + Copy>(
    protocols: &[KnownProtocol<A>],
    index: usize,
) -> &[u8]
    ensures { result.now ≡ option_map_or (λ p. p.name) (slice_get protocols.now index) [] }
{
    match protocols.get(index) {
        Some(protocol) => protocol.name(),
        None => b"",
    }
}

/// Whether these are the same protocols, in the same order.
fn are_same<A: Allocator + Copy>(left: &[KnownProtocol<A>], right: &[KnownProtocol<A>]) -> bool
    ensures { result ≡ same_protocols left.now right.now }
{
    if left.len() != right.len() {
        return false;
    }
    for index in 0..left.len() {
        if !left[index].is_same(&right[index]) {
            return false;
        }
    }
    true
}

impl<A: Allocator + Copy> KnownProtocol<A> {
    /// A protocol of this name, with this metadata.
    fn new(alloc: A, name: &[u8], metadata: &[u8]) -> Result<KnownProtocol<A>, AllocError>
        ensures { IfOk result (λ p. p ≡ record { name = name.now; metadata = metadata.now }) }
    {
        Ok(KnownProtocol {
            name: Vec::from_slice(alloc, name)?,
            metadata: Vec::from_slice(alloc, metadata)?,
        })
    }

    /// Its name.
    pub(crate) fn name(&self) -> &[u8]
        ensures { result.now ≡ self.now.name }
    {
        &self.name
    }

    /// Whether it has this name.
    pub(crate) fn is_named(&self, name: &[u8]) -> bool
        ensures { result ≡ bytes_eq self.now.name name.now }
    {
        self.name.as_slice() == name
    }

    /// Its metadata.
    fn metadata(&self) -> &[u8]
        ensures { result.now ≡ self.now.metadata }
    {
        &self.metadata
    }

    /// The bytes that are counted for it.
    fn bytes(&self) -> u64
        ensures { result ≡ capped (protocol_bytes self.now) }
    {
        PROTOCOL_BYTES
            .saturating_add(self.name.len() as u64)
            .saturating_add(self.metadata.len() as u64)
    }

    /// Whether it is the same as another one.
    fn is_same(&self, other: &KnownProtocol<A>) -> bool
        ensures { result ≡ same_protocol self.now other.now }
    {
        self.name.as_slice() == other.name.as_slice()
            && self.metadata.as_slice() == other.metadata.as_slice()
    }
}

impl<A: Allocator + Copy> Protocols<A> {
    /// No protocols. Takes no memory.
    pub fn new(alloc: A) -> Protocols<A>
        ensures { result ≡ [] }
    {
        Protocols {
            protocols: Vec::new(alloc),
            names: NameIndex::new(alloc),
            bytes: 0,
        }
    }

    /// One protocol more, which is liked less than those before it.
    ///
    /// # Errors
    ///
    /// Out of memory: nothing has changed.
    pub fn push(&mut self, name: &[u8], metadata: &[u8]) -> Result<(), AllocError>
        ensures pushes { OnOk result (self.new ≡ self.old ++ record { name = name.now; metadata = metadata.now } ∷ []) }
        ensures unchanged_on_error { OnErr result (self.new ≡ self.old) }
    {
        let protocol = KnownProtocol::new(*self.protocols.allocator(), name, metadata)?;
        self.protocols.reserve(1)?;
        self.names.reserve_known(&self.protocols)?;
        self.names.push(name);
        self.bytes = self.bytes.saturating_add(protocol.bytes());
        self.protocols.push_reserved(protocol);
        Ok(())
    }

    /// They, by liking.
    pub(crate) fn list(&self) -> &[KnownProtocol<A>]
        ensures { result.now ≡ self.now }
    {
        &self.protocols
    }

    /// Whether there are none.
    pub(crate) fn is_empty(&self) -> bool
        ensures { result ≡ (0 == length self.now) }
    {
        self.protocols.is_empty()
    }

    /// Whether one has this name.
    pub(crate) fn knows(&self, name: &[u8]) -> bool
        ensures { result ≡ knows name.now self.now }
    {
        self.names.knows(&self.protocols, name)
    }

    /// Whether these are the same, in the same order.
    pub(crate) fn is_same(&self, other: &Protocols<A>) -> bool
        ensures { result ≡ same_protocols self.now other.now }
    {
        are_same(&self.protocols, &other.protocols)
    }

    /// The bytes that are counted for them; the most that a `u64` can say where they are more.
    pub(crate) fn bytes(&self) -> u64
        ensures { result ≡ capped (sum_by protocol_bytes self.now) }
    {
        self.bytes
    }
}
