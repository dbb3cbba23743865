//! Two images merged.

ghost use Rattle.std.specs.Prelude.{ℕ, List, [], ◌≡◌, MatchOption, IfOk, IfErr, OnOk};
ghost use Rattle.content.specs.Content.{Content};
ghost use Rattle.content.specs.Joins.{join, Agree};
ghost use Rattle.copy_images.specs.Images.{image_of};
ghost use Rattle.subcommands.specs.Merging.{StartsSized, IsCut, StartsImage, MergesImages, RefusesPair, RefusesCopies, fault_of};

use crate::merge_fault::MergeFault;
use copy_images::{ImageError, read_image, write_image};
use copy_merge::{MergeError, merge_into};
use partition_log::PartitionLog;
use segment::{BatchStore, ProgramStore};
use std::alloc::Allocator;

/// How many bytes a size takes, an int32.
const SIZE_BYTES: usize = 4;

/// The greatest size; what is above is negative as an int32.
const MAX_SIZE: usize = 0x7fff_ffff;

/// The bytes that stand behind their size at the front, and those that follow; none where the size is
/// missing, negative, or past the end.
#[tactic(auto, using(crate::proofs::Sized::starts_sized))]
fn split_sized(input: &[u8]) -> Option<(&[u8], &[u8])>
    ensures { MatchOption result (IsCut input.now)
        (λ parts. StartsSized input.now parts.0.now parts.1.now) }
{
    let (size, rest) = input.split_first_chunk::<SIZE_BYTES>()?;
    let size = u32::from_be_bytes(*size) as usize;
    if MAX_SIZE < size {
        return None;
    }
    rest.split_at_checked(size)
}

/// The copy of the image at the front, and the bytes that follow it.
fn first_copy<S: BatchStore>(
    alloc: S::Alloc,
    input: &[u8],
) -> Result<(PartitionLog<S>, &[u8]), MergeFault>
    ensures reads { IfOk result (λ read. StartsImage input.now read.0 read.1.now) }
    ensures refuses { IfErr result (RefusesPair input.now) }
{
    let Some((image, rest)) = split_sized(input) else {
        return Err(MergeFault::First(ImageError::Short));
    };
    match read_image(alloc, image) {
        Ok(copy) => Ok((copy, rest)),
        Err(ImageError::OutOfMemory) => Err(MergeFault::OutOfMemory),
        Err(why) => Err(MergeFault::First(why)),
    }
}

/// The copy of the image behind the first one, with nothing behind it. Bytes that follow are refused
/// where there is no other fault, though there is no memory for the copy.
fn second_copy<S: BatchStore>(alloc: S::Alloc, input: &[u8]) -> Result<PartitionLog<S>, MergeFault>
    ensures reads { IfOk result (λ copy. StartsImage input.now copy []) }
    ensures refuses { IfErr result (λ why. (whole : List ℕ) (first : Content)
        → StartsImage whole first input.now → RefusesPair whole why) }
{
    let Some((image, rest)) = split_sized(input) else {
        return Err(MergeFault::Second(ImageError::Short));
    };
    match read_image(alloc, image) {
        Ok(copy) => {
            if !rest.is_empty() {
                return Err(MergeFault::Second(ImageError::Extra));
            }
            Ok(copy)
        }
        Err(ImageError::OutOfMemory) => {
            if !rest.is_empty() {
                return Err(MergeFault::Second(ImageError::Extra));
            }
            Err(MergeFault::OutOfMemory)
        }
        Err(why) => Err(MergeFault::Second(why)),
    }
}

/// Why two copies are not merged, as it is said of their images.
fn fault_of(why: MergeError) -> MergeFault
    ensures { result ≡ fault_of why }
{
    match why {
        MergeError::Disagree { base } => MergeFault::Disagree { base },
        MergeError::OutOfMemory => MergeFault::OutOfMemory,
    }
}

/// The image of two copies' merge.
fn image_of_merge<S: BatchStore>(
    alloc: S::Alloc,
    first: PartitionLog<S>,
    second: &PartitionLog<S>,
) -> Result<Vec<u8, S::Alloc>, MergeFault>
    ensures merges { IfOk result (λ image. image.items ≡ image_of (join first second.now)) }
    ensures agrees { OnOk result (Agree first second.now) }
    ensures refuses { IfErr result (RefusesCopies first second.now) }
{
    let mut merged = first;
    match merge_into(&mut merged, second) {
        Ok(()) => {}
        Err(why) => return Err(fault_of(why)),
    }
    match write_image(alloc, &merged) {
        Ok(image) => Ok(image),
        Err(_) => Err(MergeFault::OutOfMemory),
    }
}

/// Merges the images of two copies, which are held in stores of some type meanwhile.
fn merge_pair<S: BatchStore>(alloc: S::Alloc, input: &[u8]) -> Result<Vec<u8, S::Alloc>, MergeFault>
    ensures merges { IfOk result (λ image. MergesImages input.now image.items) }
    ensures refuses { IfErr result (RefusesPair input.now) }
{
    let (first, rest) = first_copy::<S>(alloc, input)?;
    match second_copy(alloc, rest) {
        Ok(second) => image_of_merge(alloc, first, &second),
        Err(why) => Err(why),
    }
}

/// Merges the images of two copies of a partition, each behind its size, an int32: the image of the
/// merged copy.
///
/// # Errors
///
/// The first that applies, in the order of the variants of [`MergeFault`], though memory may be missing
/// before a fault of the second image or of the merge is found.
pub(crate) fn merge_images<A: Allocator + Copy>(
    alloc: A,
    input: &[u8],
) -> Result<Vec<u8, A>, MergeFault>
    // The input is two images and nothing else, of copies that agree, and what is given is the image of
    // their merge.
    ensures merges { IfOk result (λ image. MergesImages input.now image.items) }
    // A refusal is the first fault; out of memory comes only where the first image is one.
    ensures refuses { IfErr result (RefusesPair input.now) }
{
    merge_pair::<ProgramStore<A>>(alloc, input)
}
