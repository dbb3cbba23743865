//! Varints: a signed number in digits of seven bits.
//!
//! A number of 32 bits (a varint) takes one to five bytes, one of 64 bits (a varlong) one to ten. Of a
//! number's encodings only the shortest is written and read.
#![tactic(auto)]

mod error;
mod laws;
mod reading;
mod writing;
mod zigzag;

pub use error::VarintError;
pub use laws::one_encoding;
pub use reading::{read_i32, read_i64};
pub use writing::{len_i32, len_i64, put_i32, put_i64};
