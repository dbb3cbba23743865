//! The values that the tests write.

use request_frames::response::api_versions::{
    VersionRange, api_versions_head, version_range_bytes,
};
use request_frames::response::clean::{CleanAnswer, clean_answer_bytes};
use request_frames::response::cover::{cover_head, cover_run_bytes};
use request_frames::response::deliver::{DeliverAnswer, deliver_answer_bytes};
use request_frames::response::export::export_head;
use request_frames::response::fetch::{FetchedPartition, fetch_head, fetched_head};
use request_frames::response::find_coordinator::{find_coordinator_head, find_coordinator_port};
use request_frames::response::forget_group::{ForgetGroupAnswer, forget_group_answer_bytes};
use request_frames::response::get::get_head;
use request_frames::response::import::{ImportAnswer, import_answer_bytes};
use request_frames::response::init_producer_id::{
    InitProducerIdAnswer, init_producer_id_answer_bytes,
};
use request_frames::response::list_offsets::{ListedPartition, list_offsets_answer_bytes};
use request_frames::response::metadata::{
    MetadataBroker, MetadataPartition, MetadataTopic, begin_metadata, begin_metadata_topic,
    put_metadata_partition,
};
use request_frames::response::offset_commit::{CommittedPartition, committed_partition_bytes};
use request_frames::response::offset_fetch::put_fetched_offset;
use request_frames::response::produce::{ProducedPartition, produce_tail, produced_bytes};
use request_frames::response::{append_fixed, begin_response, begin_topic, count_bytes};
use std::alloc::{AllocError, Allocator};

pub(crate) const STORED: ProducedPartition = ProducedPartition {
    index: 1,
    code: 0,
    base: 72_623_859_790_382_856,
};

const READ: FetchedPartition = FetchedPartition {
    index: 0,
    code: 0,
    end: 5,
};

const FOUND: ListedPartition = ListedPartition {
    index: 0,
    code: 0,
    time: 1_700_000_000_000,
    offset: 3,
};

const BROKER: MetadataBroker<'static> = MetadataBroker {
    node_id: 1,
    host: b"h.eu",
    port: 9092,
};

const INTERNAL: MetadataTopic<'static> = MetadataTopic {
    code: 0,
    name: b"ab",
    is_internal: true,
};

const LED: MetadataPartition = MetadataPartition {
    code: 0,
    index: 0,
    leader: Some(1),
};

const LEADERLESS: MetadataPartition = MetadataPartition {
    code: 5,
    index: 1,
    leader: None,
};

const TOO_LARGE: CommittedPartition = CommittedPartition { index: 1, code: 12 };

const CLEANED: CleanAnswer = CleanAnswer {
    code: 0,
    records: 3,
    tombstones: 2,
    batches: 1,
};

const REPEATED: DeliverAnswer = DeliverAnswer {
    code: 0,
    repeat: true,
};

const CORRUPT: ImportAnswer = ImportAnswer { code: 2 };

const FORGOTTEN: ForgetGroupAnswer = ForgetGroupAnswer {
    code: 0,
    count: 258,
};

const VERSIONS: VersionRange = VersionRange {
    key: 1,
    least: 258,
    greatest: 772,
};

const GIVEN: InitProducerIdAnswer = InitProducerIdAnswer {
    code: 0,
    producer_id: 72_623_859_790_382_856,
    epoch: 258,
};

/// The number of parts that `put_part` knows.
pub(crate) const PARTS: usize = 29;

/// Appends the part of that number from 23 on.
fn put_last_part<A: Allocator + Copy>(out: &mut Vec<u8, A>, part: usize) -> Result<(), AllocError> {
    match part {
        23 => append_fixed(out, &forget_group_answer_bytes(FORGOTTEN)),
        24 => append_fixed(out, &find_coordinator_head(0, 258, b"ab")),
        25 => append_fixed(out, &find_coordinator_port(9092)),
        26 => append_fixed(out, &api_versions_head(35, 9)),
        27 => append_fixed(out, &version_range_bytes(VERSIONS)),
        _ => append_fixed(out, &init_producer_id_answer_bytes(GIVEN)),
    }
}

/// Appends the part of that number from 12 on.
fn put_later_part<A: Allocator + Copy>(
    out: &mut Vec<u8, A>,
    part: usize,
) -> Result<(), AllocError> {
    match part {
        12 => append_fixed(out, &committed_partition_bytes(TOO_LARGE)),
        13 => put_fetched_offset(out, 1, 258, Some(b"ab"), 0),
        14 => put_fetched_offset(out, 1, 258, None, 0),
        15 => append_fixed(out, &deliver_answer_bytes(REPEATED)),
        16 => append_fixed(out, &clean_answer_bytes(CLEANED)),
        17 => append_fixed(out, &export_head(0, 258)),
        18 => append_fixed(out, &import_answer_bytes(CORRUPT)),
        19 => append_fixed(out, &get_head(0, Some(b"ab"))),
        20 => append_fixed(out, &get_head(3, None)),
        21 => append_fixed(out, &cover_head(0, 2)),
        22 => append_fixed(out, &cover_run_bytes((1, 258))),
        _ => put_last_part(out, part),
    }
}

/// Appends the part of that number.
pub(crate) fn put_part<A: Allocator + Copy>(
    out: &mut Vec<u8, A>,
    part: usize,
) -> Result<(), AllocError> {
    match part {
        0 => begin_response(out, 258),
        1 => begin_topic(out, b"ab", 2),
        2 => append_fixed(out, &count_bytes(2)),
        3 => append_fixed(out, &produced_bytes(STORED)),
        4 => append_fixed(out, &produce_tail()),
        5 => append_fixed(out, &fetch_head(2)),
        6 => append_fixed(out, &fetched_head(READ, 3)),
        7 => append_fixed(out, &list_offsets_answer_bytes(FOUND)),
        8 => begin_metadata(out, BROKER, 1, 2),
        9 => begin_metadata_topic(out, INTERNAL, 2),
        10 => put_metadata_partition(out, LED),
        11 => put_metadata_partition(out, LEADERLESS),
        _ => put_later_part(out, part),
    }
}
