//! A caller of both: what a source gives goes to a sink.
ghost use Rattle.std.specs.Prelude.{◌≡◌, ◌||◌, ◌<◌, false, true, length, IfOk, OnOk, OnErr};
ghost use Rattle.std.specs.Io.KnownBytes.{IsAtEnd};
ghost use Rattle.broker_tests.specs.Copies.{Moves};

use std::io::{Read, Write};
use streams::{Failed, Sink, Source};

/// Copies one piece, and tells whether there was one.
#[tactic(auto, using(crate::proofs::Moving::one_moved))]
fn copy_piece<R: Read, W: Write>(source: &mut Source<R>, sink: &mut Sink<W>) -> Result<bool, Failed>
    requires source_is_fine { source.old.failed ≡ false }
    requires sink_is_fine { sink.old.failed ≡ false }
    ensures moves { OnOk result (Moves source.old.left source.new.left sink.old.taken sink.new.taken) }
    ensures none_only_at_end { IfOk result (λ more. more ≡ false → IsAtEnd source.new.left) }
    ensures source_stays_fine { OnOk result (source.new.failed ≡ false) }
    ensures sink_stays_fine { OnOk result (sink.new.failed ≡ false) }
    ensures tells_failure { OnErr result ((source.new.failed || sink.new.failed) ≡ true) }
{
    let mut buf = [0; 64];
    let count = source.read(&mut buf)?;
    sink.write_all(&buf[..count])?;
    Ok(count > 0)
}

/// Copies what the source gives to the sink, and tells whether the source came to its end within
/// 2^32 - 1 reads.
#[tactic(auto, using(crate::proofs::Moving::nothing_moved))]
pub fn copy<R: Read, W: Write>(source: &mut Source<R>, sink: &mut Sink<W>) -> Result<bool, Failed>
    requires source_is_fine { source.old.failed ≡ false }
    requires sink_is_fine { sink.old.failed ≡ false }
    ensures moves { OnOk result (Moves source.old.left source.new.left sink.old.taken sink.new.taken) }
    ensures tells_end { IfOk result (λ ended. ended ≡ true → IsAtEnd source.new.left) }
    ensures tells_failure { OnErr result ((source.new.failed || sink.new.failed) ≡ true) }
{
    for _ in 0..u32::MAX {
        if !copy_piece(source, sink)? {
            return Ok(true);
        }
    }
    Ok(false)
}
