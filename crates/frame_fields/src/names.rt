//! Names of topics.

ghost use Rattle.std.specs.Prelude.{◌≡◌, ◌||◌, length, codes};
ghost use Rattle.std.specs.Int.{is_in_range};
ghost use Rattle.std.specs.List.{list_all};
ghost use Rattle.std.specs.Str.{bytes_eq};
ghost use Rattle.frame_fields.specs.Names as names;

/// The most bytes that the name of a topic may have.
pub const MAX_TOPIC_NAME: usize = 249;

/// Whether the bytes are a name that a topic may have: 1 to 249 bytes, each an ASCII letter, a
/// digit, `.`, `_` or `-`, and neither `.` nor `..`.
pub fn is_topic_name(name: &[u8]) -> bool
    ensures { result ≡ names.is_topic_name name.now }
{
    has_valid_length(name) && has_name_bytes(name) && !is_dots(name)
}

/// Whether a topic's name may have so many bytes.
fn has_valid_length(name: &[u8]) -> bool
    ensures { result ≡ is_in_range 1 MAX_TOPIC_NAME (length name.now) }
{
    !name.is_empty() && name.len() <= MAX_TOPIC_NAME
}

/// Whether the bytes are `.` or `..`.
fn is_dots(name: &[u8]) -> bool
    ensures { result ≡ (bytes_eq name.now (codes ".") || bytes_eq name.now (codes "..")) }
{
    name == b".".as_slice() || name == b"..".as_slice()
}

/// Whether a topic's name may have each of the bytes.
fn has_name_bytes(name: &[u8]) -> bool
    ensures { result ≡ list_all names.is_name_byte name.now }
{
    name.iter().all(|byte| is_name_byte(*byte))
}

/// Whether a topic's name may have this byte.
fn is_name_byte(byte: u8) -> bool
    ensures { result ≡ names.is_name_byte byte }
{
    matches!(byte, b'A'..=b'Z' | b'a'..=b'z' | b'0'..=b'9' | b'.' | b'_' | b'-')
}
