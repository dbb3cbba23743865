//! The batch that commits an offset.

ghost use Rattle.std.specs.Prelude.{◌≡◌, IfOk, OnOk, IfErr};
ghost use Rattle.std.specs.Option.{option_map};
ghost use Rattle.batch_codec.specs.Grammar.{Writable};
ghost use Rattle.partition_log.specs.Appends.{IsSendable};
ghost use Rattle.group_offsets.specs.Batches.{offsets_head, offsets_record, commit_batch};
ghost use Rattle.group_offsets.specs.CommittedValues.{text_of};
ghost use Rattle.group_offsets.specs.Refusals.{AreTexts, RefusesTexts};

use crate::error::GroupError;
use crate::keys::key_bytes;
use crate::texts::are_texts;
use crate::values::value_bytes;
use batch_codec::{Batch, BatchHead, Rec};
use std::alloc::{AllocError, Allocator};

/// The head of a batch without attributes, times and a producer.
pub(crate) fn offsets_head(last_delta: i32) -> BatchHead
    ensures { result ≡ offsets_head last_delta }
{
    BatchHead {
        base: 0,
        leader_epoch: 0,
        attrs: 0,
        last_delta,
        base_time: -1,
        max_time: -1,
        producer: -1,
        producer_epoch: -1,
        base_seq: -1,
    }
}

/// A record of a key and its value.
pub(crate) fn offsets_record<A: Allocator + Copy>(
    alloc: A,
    delta: i32,
    key: Vec<u8, A>,
    value: Option<Vec<u8, A>>,
) -> Rec<A>
    ensures { result ≡ offsets_record delta key.items (option_map (λ text. text.items) value) }
{
    Rec {
        attrs: 0,
        time_delta: 0,
        delta,
        key: Some(key),
        value,
        headers: Vec::new(alloc),
    }
}

/// The batch of texts that fit.
#[tactic(auto, unfolding(crate::specs::Batches::commit_batch))]
fn fitting_batch<A: Allocator + Copy>(
    alloc: A,
    group: &[u8],
    topic: &[u8],
    partition: i32,
    offset: i64,
    metadata: Option<&[u8]>,
) -> Result<Batch<A>, AllocError>
    requires { AreTexts group.now topic.now (text_of metadata) }
    ensures { IfOk result (λ batch. batch ≡ commit_batch
        (record { group = group.now; topic = topic.now; partition = partition })
        (record { offset = offset; metadata = text_of metadata.entry })) }
{
    let key = key_bytes(alloc, group, topic, partition)?;
    let value = value_bytes(alloc, offset, metadata)?;
    let mut recs = Vec::with_capacity(alloc, 1)?;
    recs.push(offsets_record(alloc, 0, key, Some(value)))?;
    Ok(Batch {
        head: offsets_head(0),
        recs,
    })
}

/// The batch that commits a group's offset in a partition: one record, its key and its value. It has
/// no times and no producer. It is within the limits of a batch, and may be appended.
///
/// ```
/// let batch = commit_batch(alloc, b"readers", b"words", 0, 20, None)?;
/// encode(&batch, &mut out)?;
/// ```
///
/// # Errors
///
/// - `NameTooLong` where a name or the metadata has more than `MAX_NAME_BYTES` bytes.
/// - `OutOfMemory` where only an allocation fails.
pub fn commit_batch<A: Allocator + Copy>(
    alloc: A,
    group: &[u8],
    topic: &[u8],
    partition: i32,
    offset: i64,
    metadata: Option<&[u8]>,
) -> Result<Batch<A>, GroupError>
    ensures commits { IfOk result (λ batch. batch ≡ commit_batch
        (record { group = group.now; topic = topic.now; partition = partition })
        (record { offset = offset; metadata = text_of metadata.entry })) }
    ensures writable { IfOk result (λ batch. Writable batch) }
    ensures sendable { IfOk result (λ batch. IsSendable batch) }
    ensures texts_fit { OnOk result
        (AreTexts group.now topic.now (text_of metadata.entry)) }
    ensures refuses { IfErr result (RefusesTexts
        (AreTexts group.now topic.now (text_of metadata.entry))) }
{
    if !are_texts(group, topic, metadata) {
        return Err(GroupError::NameTooLong);
    }
    match fitting_batch(alloc, group, topic, partition, offset, metadata) {
        Ok(batch) => Ok(batch),
        Err(_) => Err(GroupError::OutOfMemory),
    }
}
