//! Whether memory sufficed, and why an entry's work was not done.

ghost use Rattle.std.specs.Prelude.{◌≡◌};
ghost use Rattle.answering.specs.Refusals.{noted, of_all, of_both, refused_code, refused_memory};

use crate::codes::ErrorCode;

/// Whether memory sufficed for a request that may change something, or for one of its entries.
#[derive(Clone, Copy, PartialEq, Eq)]
pub enum Memory {
    /// It did for each entry.
    Sufficed,
    /// It lacked for each entry: each was answered with the code of a storage error, and nothing was done.
    Lacked,
    /// It lacked for some entries, and not for others. Each for which it lacked was answered with the code of a
    /// storage error, and its partition is as it was; what the others ask for was done.
    LackedInPart,
}

impl Memory {
    /// What is told of some entries and of others, by what is told of either.
    fn of_both(self, others: Memory) -> Memory
        ensures { result ≡ of_both self others }
    {
        match (self, others) {
            (Memory::Sufficed, Memory::Sufficed) => Memory::Sufficed,
            (Memory::Lacked, Memory::Lacked) => Memory::Lacked,
            _ => Memory::LackedInPart,
        }
    }

    /// Takes note of what is told of one entry more. Of none nothing is told yet.
    pub fn note(memory: &mut Option<Memory>, told: Memory)
        ensures { memory.new ≡ noted memory.old told }
    {
        *memory = match *memory {
            Some(before) => Some(before.of_both(told)),
            None => Some(told),
        };
    }

    /// What is told of a request, by what was noted of its entries. Where it has none, memory sufficed.
    pub fn of_all(noted: Option<Memory>) -> Memory
        ensures { result ≡ of_all noted }
    {
        match noted {
            Some(memory) => memory,
            None => Memory::Sufficed,
        }
    }
}

/// Why an entry's work was not done.
#[derive(Clone, Copy, PartialEq, Eq)]
pub enum Refused {
    /// A check failed, with this code.
    Check(ErrorCode),
    /// No check failed of those that take no memory, and there was no memory for the work.
    OutOfMemory,
}

impl Refused {
    /// The code that answers the entry.
    pub fn code(self) -> ErrorCode
        ensures { result ≡ refused_code self }
    {
        match self {
            Refused::Check(code) => code,
            Refused::OutOfMemory => ErrorCode::StorageError,
        }
    }

    /// Whether memory sufficed to find that out.
    pub fn memory(self) -> Memory
        ensures { result ≡ refused_memory self }
    {
        match self {
            Refused::Check(_) => Memory::Sufficed,
            Refused::OutOfMemory => Memory::Lacked,
        }
    }
}
