//! What the words of a script say: bytes, of which some are escaped, and decimal numbers.
//!
//! [`unescape`] reads what `%` and two hexadecimal digits say, [`parse_index`] and [`parse_signed`] read
//! numbers of 64 bits.
#![tactic(auto)]

mod escapes;
mod numbers;

pub use escapes::{has_bad_escape, unescape};
pub use numbers::{parse_index, parse_signed};
