//! The delta of a copy.

ghost use Rattle.std.specs.Prelude.{◌≡◌, ◌++◌, ◌≤◌, ◌≤ℤ◌, [], pos, length, map, IfOk, OnOk};
ghost use Rattle.std.specs.List.{flat_map};
ghost use Rattle.batch_codec.specs.Offsets.{first_offset, last_offset, offset_of};
ghost use Rattle.batch_codec.specs.Views.{record_value};
ghost use Rattle.cover_ranges.specs.Runs.{IsCanonical};
ghost use Rattle.content.specs.Content.{IsInRange};
ghost use Rattle.deltas.specs.Entries.Entry.{Listed, Sent};
ghost use Rattle.deltas.specs.Deltas.{offsets_of, entry_for, delta_of};
ghost use Rattle.delta_bytes.specs.EntryBytes.{offset_encoding, entry_bytes};
ghost use Rattle.delta_bytes.specs.RangeLists.{ranges_encoding};
ghost use Rattle.delta_bytes.specs.Deltas.{front_of, entries_encoding, delta_encoding};

use crate::asking::{is_asked, record_count};
use crate::size::size_of;
use batch_codec::{BatchView, RecordView};
use copy_images::fields::{count_field, put_crc, put_ranges};
use copy_images::layout::{MAX_COUNT, VERSION};
use cover_ranges::Cover;
use delta_bytes::layout::{LISTED, MARK, SENT};
use partition_log::PartitionLog;
use segment::BatchStore;
use std::alloc::{AllocError, Allocator};

// ---- entries

/// Appends the offset of one of a batch's records.
#[tactic(auto, unfolding(delta_bytes::specs::EntryBytes::offset_encoding))]
fn put_offset<A: Allocator + Copy>(
    out: &mut Vec<u8, A>,
    batch: &BatchView<'_>,
    rec: &RecordView<'_>,
) -> Result<(), AllocError>
    requires in_range { IsInRange batch.now }
    requires some { first_offset batch.now ≤ℤ last_offset batch.now }
    ensures { OnOk result (out.new.items
        ≡ out.old.items ++ offset_encoding (offset_of batch.now (record_value rec.now))) }
{
    let offset = batch.base() + i64::from(rec.delta);
    out.extend_from_slice(&offset.to_be_bytes())
}

/// Appends the offsets of a batch's records.
fn put_offsets<A: Allocator + Copy>(
    out: &mut Vec<u8, A>,
    batch: &BatchView<'_>,
) -> Result<(), AllocError>
    requires in_range { IsInRange batch.now }
    requires some { first_offset batch.now ≤ℤ last_offset batch.now }
    ensures { OnOk result (out.new.items
        ≡ out.old.items ++ flat_map offset_encoding (offsets_of batch.now)) }
{
    for rec in batch.recs() {
        put_offset(out, batch, &rec)?;
    }
    Ok(())
}

/// Appends the entry that lists a batch's offsets.
fn put_list<A: Allocator + Copy>(
    out: &mut Vec<u8, A>,
    batch: &BatchView<'_>,
) -> Result<(), AllocError>
    requires in_range { IsInRange batch.now }
    requires some { first_offset batch.now ≤ℤ last_offset batch.now }
    ensures { OnOk result (out.new.items
        ≡ out.old.items ++ entry_bytes (Listed (first_offset batch.now) (offsets_of batch.now))) }
{
    let count = count_field(record_count(batch))?;
    out.push(LISTED)?;
    out.extend_from_slice(&batch.base().to_be_bytes())?;
    out.extend_from_slice(&count.to_be_bytes())?;
    put_offsets(out, batch)
}

/// Appends the entry that sends a batch.
fn put_sent<A: Allocator + Copy>(
    out: &mut Vec<u8, A>,
    batch: &BatchView<'_>,
) -> Result<(), AllocError>
    ensures { OnOk result (out.new.items ≡ out.old.items ++ entry_bytes (Sent batch.now)) }
{
    out.push(SENT)?;
    out.extend_from_slice(batch.bytes())
}

/// Appends what a delta says of a batch.
fn put_entry<A: Allocator + Copy, B: Allocator + Copy>(
    out: &mut Vec<u8, A>,
    asked: &Cover<B>,
    batch: &BatchView<'_>,
) -> Result<(), AllocError>
    requires canonical { IsCanonical asked.now.runs }
    requires in_range { IsInRange batch.now }
    requires some { first_offset batch.now ≤ℤ last_offset batch.now }
    ensures { OnOk result (out.new.items
        ≡ out.old.items ++ entry_bytes (entry_for asked.now.runs batch.now)) }
{
    if is_asked(asked, batch) {
        put_list(out, batch)
    } else {
        put_sent(out, batch)
    }
}

/// Appends what a delta says of the kept batches.
fn put_each<A: Allocator + Copy, B: Allocator + Copy, S: BatchStore>(
    out: &mut Vec<u8, A>,
    asked: &Cover<B>,
    copy: &PartitionLog<S>,
) -> Result<(), AllocError>
    requires { IsCanonical asked.now.runs }
    ensures { OnOk result (out.new.items
        ≡ out.old.items ++ flat_map entry_bytes (map (entry_for asked.now.runs) copy.now.kept)) }
{
    let mut walk = copy.walk(0);
    while let Some(batch) = walk.next() {
        put_entry(out, asked, &batch)?;
    }
    Ok(())
}

/// Appends the entries behind their count.
fn put_entries<A: Allocator + Copy, B: Allocator + Copy, S: BatchStore>(
    out: &mut Vec<u8, A>,
    asked: &Cover<B>,
    copy: &PartitionLog<S>,
) -> Result<(), AllocError>
    requires { IsCanonical asked.now.runs }
    ensures appends { OnOk result (out.new.items
        ≡ out.old.items ++ entries_encoding (map (entry_for asked.now.runs) copy.now.kept)) }
    ensures counted { OnOk result (length copy.now.kept ≤ MAX_COUNT) }
{
    let count = count_field(copy.len())?;
    out.extend_from_slice(&count.to_be_bytes())?;
    put_each(out, asked, copy)
}

// ---- the parts

/// Appends what a delta begins with.
#[tactic(auto, unfolding(delta_bytes::specs::Deltas::front_of))]
fn put_head<A: Allocator + Copy>(out: &mut Vec<u8, A>, start: i64) -> Result<(), AllocError>
    ensures { OnOk result (out.new.items ≡ out.old.items ++ front_of start) }
{
    out.extend_from_slice(&MARK.to_be_bytes())?;
    out.extend_from_slice(&VERSION.to_be_bytes())?;
    out.extend_from_slice(&start.to_be_bytes())
}

/// Appends ranges behind their count.
fn put_list_of_ranges<A: Allocator + Copy>(
    out: &mut Vec<u8, A>,
    ranges: &[(i64, i64)],
) -> Result<(), AllocError>
    ensures appends { OnOk result
        (out.new.items ≡ out.old.items ++ ranges_encoding ranges.now) }
    ensures counted { OnOk result (length ranges.now ≤ MAX_COUNT) }
{
    let count = count_field(ranges.len())?;
    out.extend_from_slice(&count.to_be_bytes())?;
    put_ranges(out, ranges)
}

// ---- the whole

/// Appends a delta to nothing.
fn put_delta<A: Allocator + Copy, B: Allocator + Copy, S: BatchStore>(
    out: &mut Vec<u8, A>,
    copy: &PartitionLog<S>,
    asked: &Cover<B>,
) -> Result<(), AllocError>
    requires { out.old.items ≡ [] }
    ensures gives { OnOk result (out.new.items ≡ delta_encoding (delta_of copy.now asked.now.runs)) }
    ensures ranges { OnOk result (length copy.now.cover ≤ MAX_COUNT) }
    ensures asked { OnOk result (length asked.now.runs ≤ MAX_COUNT) }
    ensures entries { OnOk result (length copy.now.kept ≤ MAX_COUNT) }
{
    put_head(out, copy.start())?;
    put_list_of_ranges(out, copy.cover().ranges())?;
    put_list_of_ranges(out, asked.ranges())?;
    put_entries(out, asked, copy)?;
    put_crc(out)
}

/// Makes the delta of a copy, for one that has the asked offsets: it sends each batch of whose span none
/// was asked, and lists the offsets of the others. Its memory is taken at once, and each batch's bytes are
/// copied once.
///
/// # Errors
///
/// Out of memory; so it is also where there are more than `MAX_COUNT` ranges, asked ranges or batches.
pub fn write_delta<A: Allocator + Copy, B: Allocator + Copy, S: BatchStore>(
    alloc: A,
    copy: &PartitionLog<S>,
    asked: &Cover<B>,
) -> Result<Vec<u8, A>, AllocError>
    ensures gives_the_delta { IfOk result (λ delta. delta.items
        ≡ delta_encoding (delta_of copy.now asked.now.runs)) }
    ensures counts_the_ranges { OnOk result (length copy.now.cover ≤ MAX_COUNT) }
    ensures counts_the_asked_ranges { OnOk result (length asked.now.runs ≤ MAX_COUNT) }
    ensures counts_the_entries { OnOk result (length copy.now.kept ≤ MAX_COUNT) }
{
    let mut out = Vec::with_capacity(alloc, size_of(copy, asked))?;
    put_delta(&mut out, copy, asked)?;
    Ok(out)
}
