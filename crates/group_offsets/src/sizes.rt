//! Whether keys fit in a batch that forgets them, without building it.

ghost use Rattle.std.specs.Prelude.{◌≡◌, ◌+◌, ◌≤◌, ◌<◌, ◌↔◌, ◌^◌, IsTrue, length, map, pos, None};
ghost use Rattle.batch_codec.specs.Grammar.{Writable, record_encoding, batch_encoding};
ghost use Rattle.batch_codec.specs.Writing.{within};
ghost use Rattle.group_offsets.specs.Batches.{offsets_record, forget_batch};

use crate::forget::MAX_FORGOTTEN;
use batch_codec::MAX_BATCH_BYTES;
use varint::len_i64;

/// How many bytes a batch has before its records.
const HEAD_BYTES: usize = 61;

/// How many bytes the body of a null record has beside its offset delta, and its key behind its length:
/// the attributes, the time delta, the null value and the count of headers.
const FIXED_BYTES: usize = 4;

/// A size, where it is within the limit of a batch.
fn within(size: usize) -> Option<usize>
    ensures { result ≡ within size }
{
    if size <= MAX_BATCH_BYTES {
        Some(size)
    } else {
        None
    }
}

/// A size and the null record of a key, where both together are within the limit of a batch.
fn with_key(size: usize, delta: usize, key: &[u8]) -> Option<usize>
    requires size { size ≤ MAX_BATCH_BYTES }
    requires delta { delta < 2 ^ 63 }
    ensures { result ≡ within
        (size + length (record_encoding (offsets_record (pos delta) key.now None))) }
{
    if MAX_BATCH_BYTES < key.len() {
        return None;
    }
    let body = FIXED_BYTES + len_i64(delta as i64) + len_i64(key.len() as i64) + key.len();
    within(size + len_i64(body as i64) + body)
}

/// Whether the batch that forgets these keys is within the size of a batch.
fn is_small(keys: &[&[u8]]) -> bool
    ensures { IsTrue result ↔ (length (batch_encoding
        (forget_batch (map (λ key. key.now) keys.now))) ≤ MAX_BATCH_BYTES) }
{
    let mut size = HEAD_BYTES;
    for i in 0..keys.len() {
        size = match with_key(size, i, keys[i]) {
            Some(size) => size,
            None => return false,
        };
    }
    true
}

/// Whether the batch that forgets these keys can be encoded: there is a key, and the batch is within
/// the size of a batch. Takes no memory, and looks at no key behind the one that is over the limit.
pub fn fits_a_batch(keys: &[&[u8]]) -> bool
    ensures writable { IsTrue result ↔ Writable (forget_batch (map (λ key. key.now) keys.now)) }
    // What `forget_batch` asks for.
    ensures some { IsTrue result → 1 ≤ length keys.now }
    ensures few { IsTrue result → length keys.now ≤ MAX_FORGOTTEN }
{
    !keys.is_empty() && is_small(keys)
}
