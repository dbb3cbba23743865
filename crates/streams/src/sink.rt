//! A writer that remembers whether a write has failed.
ghost use Rattle.std.specs.Prelude.{◌≡◌, ◌<◌, false, true, length, is_err, IfOk, OnOk, OnErr};
ghost use Rattle.std.specs.Io.{WritesAtMost};
ghost use Rattle.std.specs.Io.KnownBytes.{Keeps, Appends, WriteAppends};
ghost use Rattle.streams.specs.State.{LosesRest};

use crate::Failed;
use std::io::Write;
use std::marker::Model;

/// A writer, and whether a write or a flush of it has failed. It is seen as what the writer has
/// taken, where that is known, and the flag.
///
/// ```
/// let mut sink = Sink::new(writer);
/// sink.write_all(reply)?;
/// sink.flush()?;
/// let writer = sink.into_inner();
/// ```
#[derive(Drop)]
pub struct Sink<W: Write> {
    inner: W,
    failed: bool,
}

impl<W: Write> Model for Sink<W> {
    ghost use Rattle.streams.specs.State.{SinkState};

    ghost Value = { SinkState };

    ghost view = { λ sink. record {
      taken = W.contents sink.inner;
      failed = sink.failed;
    } };
}

impl<W: Write> Sink<W> {
    /// A sink into the writer. No write has failed.
    pub fn new(inner: W) -> Sink<W>
        ensures has_writer { result.taken ≡ W.contents inner }
        ensures has_not_failed { result.failed ≡ false }
    {
        Sink {
            inner,
            failed: false,
        }
    }

    /// Whether a write or a flush has failed.
    pub fn failed(&self) -> bool
        ensures { result ≡ self.now.failed }
    {
        self.failed
    }

    /// The writer.
    pub fn get_ref(&self) -> &W
        ensures { W.contents result.now ≡ self.now.taken }
    {
        &self.inner
    }

    /// The writer, given back.
    pub fn into_inner(self) -> W
        ensures { W.contents result ≡ self.taken }
    {
        self.inner
    }

    /// Makes one write of some bytes, at least one, and gives how many of them the writer took, from the
    /// first on: at least one. No call may have failed before.
    ///
    /// # Errors
    ///
    /// The writer answered an error, of whatever kind, or took 0 bytes. The flag is then set.
    pub fn write(&mut self, bytes: &[u8]) -> Result<usize, Failed>
        requires has_not_failed { self.old.failed ≡ false }
        requires has_some { 0 < length bytes.now }
        ensures bound { WritesAtMost result bytes.now }
        ensures takes_some { IfOk result (λ n. 0 < n) }
        ensures appends { WriteAppends self.old.taken self.new.taken result bytes.now }
        ensures tells_failure { self.new.failed ≡ is_err result }
    {
        let written = match self.inner.write(bytes) {
            Ok(count) if count > 0 => Ok(count),
            _ => Err(Failed),
        };
        self.failed = written.is_err();
        written
    }

    /// Writes all of the bytes, in as many writes as it takes. No call may have failed before.
    ///
    /// # Errors
    ///
    /// A write failed, before which the writer took a front of the bytes. The flag is then set, and
    /// at least one byte is lost.
    #[tactic(auto, using(crate::proofs::Pieces::nothing_taken, crate::proofs::Pieces::piece_taken, crate::proofs::Pieces::all_taken, crate::proofs::Pieces::rest_lost))]
    pub fn write_all(&mut self, bytes: &[u8]) -> Result<(), Failed>
        requires has_not_failed { self.old.failed ≡ false }
        ensures appends { OnOk result (Appends self.old.taken self.new.taken bytes.now) }
        ensures loses_rest { OnErr result (LosesRest self.old.taken self.new.taken bytes.now) }
        ensures tells_failure { self.new.failed ≡ is_err result }
    {
        let mut rest = bytes;
        while !rest.is_empty() {
            let count = self.write(rest)?;
            rest = &rest[count..];
        }
        Ok(())
    }

    /// Flushes the writer, in one call. No call may have failed before. What the writer has taken stays
    /// the same.
    ///
    /// # Errors
    ///
    /// The writer answered an error, of whatever kind. The flag is then set.
    pub fn flush(&mut self) -> Result<(), Failed>
        requires has_not_failed { self.old.failed ≡ false }
        ensures keeps { Keeps self.old.taken self.new.taken }
        ensures tells_failure { self.new.failed ≡ is_err result }
    {
        let flushed = self.inner.flush().map_err(|_| Failed);
        self.failed = flushed.is_err();
        flushed
    }

    /// Writes all of the bytes, as `write_all` does. Where there are none, and where a call has failed
    /// before, it writes nothing.
    ///
    /// # Errors
    ///
    /// There are some, and a write failed, before which the writer took a front of the bytes; or a call
    /// had failed before. The flag is then set, and at least one byte is lost.
    #[tactic(auto, using(crate::proofs::Pieces::nothing_sent, crate::proofs::Pieces::all_lost))]
    pub fn send(&mut self, bytes: &[u8]) -> Result<(), Failed>
        ensures appends { OnOk result (Appends self.old.taken self.new.taken bytes.now) }
        ensures loses_rest { OnErr result (LosesRest self.old.taken self.new.taken bytes.now) }
        ensures keeps_flag { OnOk result (self.new.failed ≡ self.old.failed) }
        ensures sets_flag { OnErr result (self.new.failed ≡ true) }
        ensures unused_once_failed { self.old.failed ≡ true → self.new ≡ self.old }
    {
        if bytes.is_empty() {
            return Ok(());
        }
        if self.failed {
            return Err(Failed);
        }
        self.write_all(bytes)
    }

    /// Flushes the writer, as `flush` does, unless a call has failed before.
    ///
    /// # Errors
    ///
    /// The flush failed, or a call before. The flag is then set.
    pub fn finish(&mut self) -> Result<(), Failed>
        ensures keeps { Keeps self.old.taken self.new.taken }
        ensures tells_failure { self.new.failed ≡ is_err result }
        ensures unused_once_failed { self.old.failed ≡ true → self.new ≡ self.old }
        ensures keeps_flag { OnOk result (self.new.failed ≡ self.old.failed) }
    {
        if self.failed {
            return Err(Failed);
        }
        self.flush()
    }
}
