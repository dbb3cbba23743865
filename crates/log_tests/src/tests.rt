//! The tests, and what they share, a file for each.

mod answers;
mod copy_memory;
mod cover;
mod crc32c_tests;
mod decode_tests;
mod encode_tests;
mod group_bytes;
mod group_copies;
mod group_memory;
mod indexes;
mod leader;
mod names;
mod producer;
mod producers;
mod reads;
mod set_base_tests;
mod small_memory;
mod sparse_index;
mod store;
mod thousand;
mod varint_tests;
mod view_tests;
