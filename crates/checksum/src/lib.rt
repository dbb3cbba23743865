//! CRC-32C, the checksum of a record batch.
#![tactic(auto)]

mod crc;
mod register;
mod tables;

pub use crc::crc32c;
pub use register::Crc32c;
