//! Images of copies, sent and merged.

ghost use Rattle.std.specs.Prelude.{◌≡◌, map, slice_get, IfOk, IfErr};
ghost use Rattle.std.specs.Option.{option_map};
ghost use Rattle.content.specs.Content.{Content};
ghost use Rattle.content.specs.Joins.{Agree};
ghost use Rattle.copy_images.specs.Images.{IsImage};
ghost use Rattle.cluster.specs.Events.{RefusesCopy, Sends, Merges};
ghost use Rattle.cluster.specs.Parts.{WritesImage, KeepsImage, MergesImage};

use crate::cluster::Cluster;
use crate::event::{EventError, Outcome};
use copy_images::{read_image, write_image};
use copy_merge::{MergeError, merge_into};
use partition_log::PartitionLog;
use segment::BatchStore;
use std::alloc::Allocator;

/// The bytes of the image with this number.
pub(crate) fn image_at<A: Allocator + Copy>(images: &[Vec<u8, A>], image: usize) -> Option<&[u8]>
    ensures { option_map (λ bytes. bytes.now) result
        ≡ slice_get (map (λ image. image.items) images.now) image }
{
    images.get(image).map(|image| image.as_slice())
}

/// Merges an image into a copy that agrees with it, which can only lack memory.
fn merge_image<S: BatchStore>(
    alloc: S::Alloc,
    copy: &mut PartitionLog<S>,
    image: &[u8],
) -> Result<Outcome, EventError>
    requires { (sent : Content) → IsImage image.now sent → Agree copy.old sent }
    ensures { MergesImage copy.old image.now copy.new result }
{
    let Ok(sent) = read_image(alloc, image) else {
        return Err(EventError::OutOfMemory);
    };
    match merge_into(copy, &sent) {
        Ok(()) => Ok(Outcome::Merged),
        Err(MergeError::OutOfMemory) => Err(EventError::OutOfMemory),
        Err(MergeError::Disagree { .. }) => unreachable!(),
    }
}

/// Keeps an image that was written, behind all others.
fn keep_image<A: Allocator + Copy>(
    images: &mut Vec<Vec<u8, A>, A>,
    image: Vec<u8, A>,
) -> Result<Outcome, EventError>
    ensures { KeepsImage (map (λ image. image.items) images.old.items) image.items
        (map (λ image. image.items) images.new.items) result }
{
    let number = images.len();
    let Ok(()) = images.push(image) else {
        return Err(EventError::OutOfMemory);
    };
    Ok(Outcome::Sent { image: number })
}

impl<S: BatchStore> Cluster<S> {
    /// The image of a copy, by the copy's number.
    fn written(&self, copy: usize) -> Result<Vec<u8, S::Alloc>, EventError>
        ensures writes { IfOk result (λ image. WritesImage self.now copy image.items) }
        ensures refuses { IfErr result (RefusesCopy self.now copy) }
    {
        let Some(copy) = self.copy(copy) else {
            return Err(EventError::NoCopy);
        };
        match write_image(self.alloc, copy) {
            Ok(image) => Ok(image),
            Err(_) => Err(EventError::OutOfMemory),
        }
    }

    /// Sends an image of a copy.
    pub(crate) fn send(&mut self, copy: usize) -> Result<Outcome, EventError>
        ensures { Sends self.old copy self.new result }
    {
        let image = match self.written(copy) {
            Ok(image) => image,
            Err(error) => return Err(error),
        };
        keep_image(&mut self.images, image)
    }

    /// Merges an image that was sent into a follower.
    pub(crate) fn merge(&mut self, copy: usize, image: usize) -> Result<Outcome, EventError>
        ensures { Merges self.old copy image self.new result }
    {
        let follower = self.follower(copy)?;
        match image_at(&self.images, image) {
            Some(image) => merge_image(self.alloc, &mut self.followers[follower], image),
            None => Err(EventError::NoImage),
        }
    }
}
