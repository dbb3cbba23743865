//! The layout of committed offsets as bytes, and the limits of their texts. Numbers are big-endian.

/// The most bytes that the name of a group or a topic may have, and a consumer's metadata: what the
/// length of a STRING can say.
pub const MAX_NAME_BYTES: usize = 32_767;

/// The version that a key begins with, an INT16.
pub const KEY_VERSION: i16 = 1;

/// The version that a value begins with, an INT16.
pub const VALUE_VERSION: i16 = 0;

/// How many bytes a key has beside those of its names.
pub const KEY_BYTES: usize = 10;

/// How many bytes a value has beside those of its metadata.
pub const VALUE_BYTES: usize = 12;
