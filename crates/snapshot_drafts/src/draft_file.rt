//! A file as a draft sees it.

ghost use Rattle.std.specs.Prelude.{◌≡◌, List, Option, ℕ, OnOk};
ghost use Rattle.std.specs.Option.{option_map};
ghost use Rattle.snapshot_drafts.specs.Files.{with_bytes};

use std::io;

/// A file that is written at byte offsets. All that is said of its bytes is said where they are known (`seen`): a
/// file in memory knows them, of a file of the operating system nothing can be proved.
///
/// After a call that failed nothing is known of the file.
pub trait DraftFile {
    /// The bytes that a read gives, where they are known.
    ghost seen: { Self → Option (List ℕ) };

    /// The bytes that are on the disk for certain, where that is known.
    ghost synced: { Self → Option (List ℕ) };

    /// Which file it is, of those that were made as it was.
    ghost number: { Self → ℕ };

    /// Writes all of the bytes at a byte offset. They replace what stands there; what is missing before them
    /// is zeros.
    fn write_at(&mut self, at: u64, bytes: &[u8]) -> io::Result<()>
        ensures writes { OnOk result
            (seen self.new ≡ option_map (with_bytes at bytes.now) (seen self.old)) }
        ensures is_the_one { number self.new ≡ number self.old };

    /// After it, what a read gives is on the disk.
    fn sync(&mut self) -> io::Result<()>
        ensures keeps { OnOk result (seen self.new ≡ seen self.old) }
        ensures durable { OnOk result (synced self.new ≡ seen self.new) }
        ensures is_the_one { number self.new ≡ number self.old };
}
