//! `set_base` on the batch of one record: the two fields have other bytes, and all else stays.

use batch_codec::{set_base, view};
use sample_batches::A_IS_1;
use std::test::Fail;

/// The base offset 258, the length, and the leader epoch -2.
const FRONT: [u8; 16] = [
    0, 0, 0, 0, 0, 0, 1, 2, 0, 0, 0, 0x3a, 0xff, 0xff, 0xff, 0xfe,
];

#[test]
fn two_fields_change(rt: HostRuntime) -> Result<(), Fail> {
    let mut batch = view(&A_IS_1)?.bytes().to_vec(rt.alloc())?;
    set_base(&mut batch, 258, -2);
    let is_right = batch.starts_with(&FRONT) && batch.ends_with(&A_IS_1[16..]);
    assert!(rt; is_right && batch.len() == 70);
    Ok(())
}
