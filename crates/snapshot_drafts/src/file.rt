//! A file of the operating system. Each method makes one call of the system, or `write_all_at`.

ghost use Rattle.std.specs.Prelude.{None};

use crate::draft_file::DraftFile;
use std::fs::File;
use std::io;
use std::os::unix::fs::FileExt;

/// A file of the operating system, which whoever makes it opened for writing. That its calls do to the disk what
/// [`DraftFile`] says is believed and not proved: nothing is known of its bytes here.
#[derive(Drop)]
pub struct FileDraft {
    file: File,
}

impl FileDraft {
    /// The file as one that is written at byte offsets. It is open for writing (`OpenOptions`, `write` without
    /// `append`), it is empty, and nobody else writes into it.
    pub fn new(file: File) -> FileDraft {
        FileDraft { file }
    }
}

impl DraftFile for FileDraft {
    ghost seen = { λ file. None };

    ghost synced = { λ file. None };

    ghost number = { λ file. 0 };

    fn write_at(&mut self, at: u64, bytes: &[u8]) -> io::Result<()> {
        self.file.write_all_at(bytes, at)
    }

    fn sync(&mut self) -> io::Result<()> {
        self.file.sync_data()
    }
}
