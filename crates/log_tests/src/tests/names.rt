//! The names that refusals are printed by.
use group_offsets::GroupError;
use partition_log::{AppendError, OutOfRange};
use std::alloc::Allocator;
use std::fmt::Display;
use std::test::Fail;

/// Whether a refusal is printed so.
fn is_printed<A: Allocator + Copy, E: Display>(alloc: A, error: &E, name: &str) -> bool {
    match format!(in alloc; "{error}") {
        Ok(printed) => printed.as_str() == name,
        Err(_) => false,
    }
}

#[test]
fn refusals_print_their_names(rt: HostRuntime) -> Result<(), Fail> {
    let rows = [
        (AppendError::NotWhole, "NotWhole"),
        (AppendError::NoKey, "NoKey"),
        (AppendError::BadProducer, "BadProducer"),
        (AppendError::OldEpoch, "OldEpoch"),
        (AppendError::OutOfOrder, "OutOfOrder"),
        (AppendError::OffsetsFull, "OffsetsFull"),
        (AppendError::OutOfMemory, "OutOfMemory"),
    ];
    for (error, name) in rows {
        assert!(rt; is_printed(rt.alloc(), &error, name), "{name}");
    }
    assert!(rt; is_printed(rt.alloc(), &OutOfRange, "OutOfRange"));
    let rows = [
        (GroupError::NameTooLong, "NameTooLong"),
        (GroupError::BadValue, "BadValue"),
        (GroupError::OutOfMemory, "OutOfMemory"),
    ];
    for (error, name) in rows {
        assert!(rt; is_printed(rt.alloc(), &error, name), "{name}");
    }
    Ok(())
}
