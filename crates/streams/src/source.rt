//! A reader that remembers how many reads were made, and whether one has failed.
ghost use Rattle.std.specs.Prelude.{◌≡◌, ◌+◌, ◌<◌, false, length, is_err, IfOk, OnErr, OnOk};
ghost use Rattle.std.specs.Io.{ReadsAtMost};
ghost use Rattle.std.specs.Io.KnownBytes.{Keeps, IsAtEnd, ReadConsumes};
ghost use Rattle.streams.specs.State.{counted, MovesPiece};

use crate::Failed;
use bytes::BytesMut;
use std::alloc::Allocator;
use std::io::Read;
use std::marker::Model;

/// A reader, how many reads of it were made, and whether one has failed. It is seen as what the
/// reader has left to give, where that is known, the count, and the flag.
///
/// It makes 2^64 - 1 reads at most: one more fails, and isn't made.
///
/// ```
/// let mut source = Source::new(reader);
/// buffer.reserve(1)?;
/// match source.read_into(&mut buffer) {
///     Ok(0) => {}     // the end of input
///     Ok(count) => {} // so many bytes stand behind those that were in the buffer
///     Err(Failed) => {} // source.failed(), and no read may follow
/// }
/// ```
#[derive(Drop)]
pub struct Source<R: Read> {
    inner: R,
    reads: u64,
    failed: bool,
}

impl<R: Read> Model for Source<R> {
    ghost use Rattle.streams.specs.State.{SourceState};

    ghost Value = { SourceState };

    ghost view = { λ source. record {
      left = R.remaining source.inner;
      reads = source.reads;
      failed = source.failed;
    } };
}

impl<R: Read> Source<R> {
    /// A source of what the reader gives from here on. It has made no read, and none has failed.
    pub fn new(inner: R) -> Source<R>
        ensures has_reader { result.left ≡ R.remaining inner }
        ensures has_made_no_read { result.reads ≡ 0 }
        ensures has_not_failed { result.failed ≡ false }
    {
        Source {
            inner,
            reads: 0,
            failed: false,
        }
    }

    /// How many reads were made, those that failed included.
    pub fn reads(&self) -> u64
        ensures { result ≡ self.now.reads }
    {
        self.reads
    }

    /// Whether a read has failed.
    pub fn failed(&self) -> bool
        ensures { result ≡ self.now.failed }
    {
        self.failed
    }

    /// The reader.
    pub fn get_ref(&self) -> &R
        ensures { R.remaining result.now ≡ self.now.left }
    {
        &self.inner
    }

    /// The reader, given back.
    pub fn into_inner(self) -> R
        ensures { R.remaining result ≡ self.left }
    {
        self.inner
    }

    /// Makes one read into the front of a slice that isn't empty, and gives the number of bytes
    /// read: 0 only at the end of input. No read may have failed before.
    ///
    /// # Errors
    ///
    /// The reader answered an error, of whatever kind, or 2^64 - 1 reads were made before. The flag is
    /// then set.
    pub fn read(&mut self, buf: &mut [u8]) -> Result<usize, Failed>
        requires has_not_failed { self.old.failed ≡ false }
        requires has_room { 0 < length buf.old }
        ensures bound { ReadsAtMost result buf.new }
        ensures consumes { ReadConsumes self.old.left self.new.left result buf.new }
        ensures none_only_at_end { IfOk result (λ n. n ≡ 0 → IsAtEnd self.new.left) }
        ensures counts { self.new.reads ≡ counted self.old.reads 1 }
        ensures counts_one { OnOk result (self.new.reads ≡ self.old.reads + 1) }
        ensures tells_failure { self.new.failed ≡ is_err result }
    {
        let Some(reads) = self.reads.checked_add(1) else {
            self.failed = true;
            return Err(Failed);
        };
        self.reads = reads;
        let given = self.inner.read(buf).map_err(|_| Failed);
        self.failed = given.is_err();
        given
    }

    /// Makes one read into the room of a buffer, which isn't full, and gives the number of bytes
    /// that came behind those in the buffer: 0 only at the end of input. No read may have failed before.
    ///
    /// # Errors
    ///
    /// The reader answered an error, of whatever kind, or 2^64 - 1 reads were made before. The flag is
    /// then set, and the buffer is as it was.
    pub fn read_into<A: Allocator>(&mut self, buffer: &mut BytesMut<A>) -> Result<usize, Failed>
        requires has_not_failed { self.old.failed ≡ false }
        requires has_room { 0 < buffer.old.spare }
        ensures appends { IfOk result (MovesPiece
            self.old.left self.new.left buffer.old.items buffer.new.items) }
        ensures spare { IfOk result (λ n. buffer.new.spare + n ≡ buffer.old.spare) }
        ensures none_only_at_end { IfOk result (λ n. n ≡ 0 → IsAtEnd self.new.left) }
        ensures error_reads_nothing { OnErr result
            ((buffer.new ≡ buffer.old) × Keeps self.old.left self.new.left) }
        ensures counts { self.new.reads ≡ counted self.old.reads 1 }
        ensures counts_one { OnOk result (self.new.reads ≡ self.old.reads + 1) }
        ensures tells_failure { self.new.failed ≡ is_err result }
    {
        let Some(reads) = self.reads.checked_add(1) else {
            self.failed = true;
            return Err(Failed);
        };
        self.reads = reads;
        let added = buffer.read_from(&mut self.inner).map_err(|_| Failed);
        self.failed = added.is_err();
        added
    }
}
