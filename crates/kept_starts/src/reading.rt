//! A small file, read as a whole.

ghost use Rattle.std.specs.Prelude.{IfOk};
ghost use Rattle.kept_starts.specs.Starts.{IsFrontOf};

use journal::{Disk, ReadError};
use std::alloc::Allocator;

/// How many bytes one read may bring.
const PIECE: usize = 65_536;

/// The most bytes that are read: the snapshot of an empty broker has fewer.
pub(crate) const MOST_READ: usize = 4_194_304;

/// Reads a file from its first byte on, up to its end or so many bytes. The memory grows as they come.
#[tactic(auto, using(crate::proofs::Fronts::nothing_read))]
pub(crate) fn read_front<D: Disk, A: Allocator + Copy>(
    alloc: A,
    disk: &D,
) -> Result<Vec<u8, A>, ReadError>
    ensures { IfOk result (λ bytes. IsFrontOf (D.seen disk.now) bytes.items) }
{
    let mut piece = vec![in alloc; 0; PIECE]?;
    let mut bytes = Vec::new(alloc);
    for _ in 0..MOST_READ {
        let count = disk.read_at(bytes.len() as u64, &mut piece)?;
        if count == 0 || bytes.len() >= MOST_READ {
            break;
        }
        bytes.extend_from_slice(&piece[..count])?;
    }
    Ok(bytes)
}
