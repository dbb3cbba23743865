//! Parts of journals, byte for byte, as `tests/encoders/kept.py` prints them: by Python's struct and a CRC-32C of its own.

/// The head of journal 2, of meaning 3 and key `01234567`, behind journal 1 of key `89abcdef`, which had 61 bytes.
pub(crate) const HEAD: &[u8] =
    b".\x1b\x89FKJNL\0\x01\0\x03\0\0\0\0\0\0\0\x0201234567\0\0\0\0\0\0\0\x0189abcdef\0\0\0\0\0\0\0=\xa9\xc9n&";

/// A head of version 0: of journal 1, of the same meaning and key.
pub(crate) const OLD_HEAD: &[u8] = b"\x8e\x8f\xc9\x88KJNL\0\0\0\x03\0\0\0\0\0\0\0\x0101234567";

/// A group of one frame, behind the head of version 1.
pub(crate) const ONE: &[u8] =
    b"\xbaC\xd0\x8301234567\0\0\0\0\0\0\08\0\0\0\0\0\0\08\0\0\0\x05\0\0\0\x01a";

/// A second group of the same size as the first, which is synced.
pub(crate) const SECOND: &[u8] =
    b"l\xd5j\xcb01234567\0\0\0\0\0\0\0]\0\0\0\0\0\0\0]\0\0\0\x05\0\0\0\x01b";

/// A third one, likewise.
pub(crate) const THIRD: &[u8] =
    b"\xb1\x0d\xfcH01234567\0\0\0\0\0\0\0\x82\0\0\0\0\0\0\0\x82\0\0\0\x05\0\0\0\x01c";

/// The first of them behind the head of version 0.
pub(crate) const OLD_ONE: &[u8] =
    b"R\xc1D\xf001234567\0\0\0\0\0\0\0\x1c\0\0\0\0\0\0\0\x1c\0\0\0\x05\0\0\0\x01a";

/// The second of them there.
pub(crate) const OLD_SECOND: &[u8] =
    b"4\xab\x19\x1a01234567\0\0\0\0\0\0\0A\0\0\0\0\0\0\0A\0\0\0\x05\0\0\0\x01b";

/// A fourth group, behind another sync.
pub(crate) const FOUR: &[u8] =
    b"\xcc\x8b\x1e\xf901234567\0\0\0\0\0\0\0\xad\0\0\0\0\0\0\0\xad\0\0\0\x05\0\0\0\x01a";
