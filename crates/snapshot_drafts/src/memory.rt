//! A file in memory that is written at byte offsets, for tests: it can be told to fail.

ghost use Rattle.std.specs.Prelude.{◌≡◌, ◌↔◌, ◌+◌, ◌-◌, ◌≤◌, ◌++◌, Some, [], length, take, drop, replicate, IsTrue, OnOk};
ghost use Rattle.snapshot_drafts.specs.Files.{with_bytes};
ghost use Rattle.snapshot_drafts.specs.MemoryDrafts.{bytes_of, number_of, synced_of};

use crate::draft_file::DraftFile;
use std::alloc::{AllocError, Allocator};
use std::io;

/// A file in memory.
#[derive(Drop)]
pub struct MemoryDraft<A: Allocator + Copy> {
    bytes: Vec<u8, A>,
    synced: bool,
    /// Which file it is.
    number: u64,
    calls: u64,
    failing: u64,
}

/// Makes a file that is shorter than so many bytes that long, by zeros.
fn lengthen<A: Allocator + Copy>(file: &mut Vec<u8, A>, size: usize) -> Result<(), AllocError>
    ensures { OnOk result (file.new.items
        ≡ file.old.items ++ replicate (size - length file.old.items) 0) }
{
    if file.len() < size {
        file.resize(size, 0)?;
    }
    Ok(())
}

/// Writes bytes over those that stand from an index on.
fn overwrite(file: &mut [u8], at: usize, bytes: &[u8])
    requires { at + length bytes.now ≤ length file.old }
    ensures puts { take (at + length bytes.now) file.new ≡ take at file.old ++ bytes.now }
    ensures keeps { drop (at + length bytes.now) file.new ≡ drop (at + length bytes.now) file.old }
{
    file[at..at + bytes.len()].copy_from_slice(bytes);
}

/// Puts bytes at an index of others. They replace what stands there; what is missing before them is zeros.
fn put_at<A: Allocator + Copy>(
    file: &mut Vec<u8, A>,
    at: u64,
    bytes: &[u8],
) -> Result<(), AllocError>
    ensures { OnOk result (file.new.items ≡ with_bytes at bytes.now file.old.items) }
{
    let at = at as usize;
    let end = at.checked_add(bytes.len()).ok_or(AllocError)?;
    lengthen(file, end)?;
    overwrite(file, at, bytes);
    Ok(())
}

impl<A: Allocator + Copy> MemoryDraft<A> {
    /// A file without bytes. It takes no memory.
    pub fn new(alloc: A) -> MemoryDraft<A>
        ensures { bytes_of result ≡ [] }
    {
        MemoryDraft::of_number(alloc, 0)
    }

    /// A file without bytes, which is the one of this number. It takes no memory.
    pub fn of_number(alloc: A, number: u64) -> MemoryDraft<A>
        ensures is_empty { bytes_of result ≡ [] }
        ensures is_the_one { number_of result ≡ number }
    {
        MemoryDraft {
            bytes: Vec::new(alloc),
            synced: false,
            number,
            calls: 0,
            failing: 0,
        }
    }

    /// From now on the call of this number fails, counted from 1 from now on; none where it is 0.
    pub fn fail_at(&mut self, call: u64)
        ensures keeps { bytes_of self.new ≡ bytes_of self.old }
        ensures is_the_one { number_of self.new ≡ number_of self.old }
    {
        self.calls = 0;
        self.failing = call;
    }

    /// Whether all bytes are synced.
    pub fn is_synced(&self) -> bool
        ensures { IsTrue result ↔ (synced_of self.now ≡ Some (bytes_of self.now)) }
    {
        self.synced
    }

    /// The bytes of the file.
    pub fn bytes(&self) -> &[u8]
        ensures { result.now ≡ bytes_of self.now }
    {
        &self.bytes
    }

    /// Counts a call, and tells whether it is to fail.
    fn is_to_fail(&mut self) -> bool
        ensures keeps { bytes_of self.new ≡ bytes_of self.old }
        ensures is_the_one { number_of self.new ≡ number_of self.old }
    {
        self.calls = self.calls.saturating_add(1);
        self.calls == self.failing
    }
}

/// What a call that is to fail answers.
fn failure() -> io::Error {
    io::Error::from(io::ErrorKind::Other)
}

impl<A: Allocator + Copy> DraftFile for MemoryDraft<A> {
    ghost seen = { λ file. Some (bytes_of file) };

    ghost synced = { λ file. synced_of file };

    ghost number = { λ file. number_of file };

    fn write_at(&mut self, at: u64, bytes: &[u8]) -> io::Result<()> {
        if self.is_to_fail() {
            return Err(failure());
        }
        self.synced = false;
        put_at(&mut self.bytes, at, bytes)?;
        Ok(())
    }

    fn sync(&mut self) -> io::Result<()> {
        if self.is_to_fail() {
            return Err(failure());
        }
        self.synced = true;
        Ok(())
    }
}
