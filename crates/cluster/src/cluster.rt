//! The cluster.

ghost use Rattle.std.specs.Prelude.{◌≡◌, ◌-◌, ◌<◌, ◌≤◌, replicate, IfOk, IfErr, OnOk};
ghost use Rattle.content.specs.Content.{empty};
ghost use Rattle.std.specs.Option.{option_map};
ghost use Rattle.std.specs.Prelude.{slice_get};
ghost use Rattle.batch_codec.specs.Grammar.{batch_encoding};
ghost use Rattle.cluster.specs.Worlds.{new_world, copy_at};
ghost use Rattle.cluster.specs.Events.{RefusesCopies};
ghost use Rattle.cluster.specs.Headline.{IsConsistent, Headline};

use crate::MAX_COPIES;
use crate::archived::Archived;
use crate::event::ClusterError;
use crate::imaging::image_at;
use content_laws::copies::an_empty_copy_is_a_copy;
use partition_log::{LeaderLog, PartitionLog};
use segment::BatchStore;
use std::alloc::AllocError;
use std::marker::Model;

/// One partition: the leader's copy, its followers' copies, and all that was appended and sent.
#[derive(Drop)]
pub struct Cluster<S: BatchStore> {
    pub(crate) alloc: S::Alloc,
    pub(crate) leader: LeaderLog<S>,
    pub(crate) followers: Vec<PartitionLog<S>, S::Alloc>,
    pub(crate) archive: Vec<Archived<S::Alloc>, S::Alloc>,
    pub(crate) images: Vec<Vec<u8, S::Alloc>, S::Alloc>,
}

impl<S: BatchStore> Model for Cluster<S> {
    ghost use Rattle.std.specs.Prelude.{map};
    ghost use Rattle.cluster.specs.Worlds.{World};
    ghost use Rattle.cluster.specs.Headline.{IsConsistent};

    ghost Value = { World };

    ghost view = { λ c. record {
      log = c.archive.items;
      leader = c.leader;
      followers = c.followers.items;
      images = map (λ image. image.items) c.images.items;
    } };

    ghost invariant = { λ c. IsConsistent (record {
      log = c.archive.items;
      leader = c.leader;
      followers = c.followers.items;
      images = map (λ image. image.items) c.images.items;
    }) };
}

/// That many copies that have seen nothing.
fn empty_copies<S: BatchStore>(
    alloc: S::Alloc,
    count: usize,
) -> Result<Vec<PartitionLog<S>, S::Alloc>, AllocError>
    ensures { IfOk result (λ copies. copies.items ≡ replicate count empty) }
{
    let mut copies = Vec::with_capacity(alloc, count)?;
    for _ in 0..count {
        copies.push_reserved(PartitionLog::new(alloc));
    }
    Ok(copies)
}

/// The log of a leader to which nothing was appended.
fn empty_leader<S: BatchStore>(alloc: S::Alloc) -> LeaderLog<S>
    ensures { result ≡ empty }
{
    match LeaderLog::from_copy(PartitionLog::new(alloc)) {
        Ok(leader) => leader,
        Err(_) => unreachable!(),
    }
}

impl<S: BatchStore> Cluster<S> {
    /// A leader and its followers, that many copies in all, which have seen nothing.
    ///
    /// # Errors
    ///
    /// The first that applies, in the order of the variants of [`ClusterError`].
    pub fn new(alloc: S::Alloc, copies: usize) -> Result<Cluster<S>, ClusterError>
        ensures is_new { IfOk result (λ cluster. cluster ≡ new_world (copies - 1)) }
        ensures headline { IfOk result Headline }
        ensures accepts { OnOk result ((0 < copies) × (copies ≤ MAX_COPIES)) }
        ensures refuses { IfErr result (RefusesCopies copies) }
    {
        if copies == 0 || MAX_COPIES < copies {
            return Err(ClusterError::BadCopies);
        }
        let followers = match empty_copies(alloc, copies - 1) {
            Ok(followers) => followers,
            Err(_) => return Err(ClusterError::OutOfMemory),
        };
        // Called for its contract alone: the law of copies that have seen nothing.
        an_empty_copy_is_a_copy();
        let cluster = Cluster {
            alloc,
            leader: empty_leader(alloc),
            followers,
            archive: Vec::new(alloc),
            images: Vec::new(alloc),
        };
        cluster.know_consistent();
        Ok(cluster)
    }

    /// The copies are consistent: this is known behind the call, which does nothing.
    pub(crate) fn know_consistent(&self)
        ensures { IsConsistent self.now }
    {
        // A field is read, so that what holds of all of them is known.
        let _ = self.images.len();
    }

    /// A copy, by its number; copy 0 is the leader's. There is none of a number that isn't below the number
    /// of copies. Takes no memory.
    pub fn copy(&self, copy: usize) -> Option<&PartitionLog<S>>
        ensures { option_map (λ c. c.now) result ≡ copy_at self.now copy }
    {
        match copy.checked_sub(1) {
            None => Some(self.leader.copy()),
            Some(follower) => self.followers.get(follower),
        }
    }

    /// The bytes of a batch as the leader appended it, by its number; none where fewer were appended. Takes
    /// no memory.
    pub fn archived(&self, batch: usize) -> Option<&[u8]>
        ensures { option_map (λ bytes. bytes.now) result
            ≡ option_map batch_encoding (slice_get self.now.log batch) }
    {
        self.archive.get(batch).map(|archived| archived.bytes())
    }

    /// The bytes of an image that was sent, by its number; none where fewer were sent. Takes no memory.
    pub fn image(&self, image: usize) -> Option<&[u8]>
        ensures { option_map (λ bytes. bytes.now) result ≡ slice_get self.now.images image }
    {
        image_at(&self.images, image)
    }
}
