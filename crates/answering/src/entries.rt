//! How an entry of a request is answered.

use crate::memory::Memory;
use std::alloc::{AllocError, Allocator};

/// A request whose entries `E` are answered one by one, and what answers them. `S` is what the
/// entries share and their work may change: what a broker holds, what is left of the room that a
/// response has for records, or `()`.
///
/// Nothing here says that a request which only reads leaves the broker alone: where `S` is what the
/// broker holds, the request's own contract says so.
pub trait Answers<E, S>: Sized {
    ghost use Rattle.std.specs.Prelude.{◌≡◌, ◌≤◌, ◌+◌, ℕ, List, Option, Some, IsOk, OnOk, OnErr};
    ghost use Rattle.std.specs.Vec.{vec_len, vec_capacity};
    ghost use Rattle.answering.specs.declared.memory.Memory.{Memory};
    ghost use Rattle.answering.specs.Writing.{Begins, Writes};

    /// What is answered to an entry.
    ghost Answered: { Type 0 };

    /// Its encoding.
    ghost bytes: { Answered → List ℕ };

    /// How an entry of a topic of this name may be answered, from the state and what was told of memory
    /// before it to those after it.
    ghost answers: { Self → S × Option Memory → List ℕ → E → Answered → S × Option Memory → Type 0 };

    /// How many bytes each answer has, where all have as many; then the room for a response can be
    /// taken before any work is done.
    ghost size: { Option ℕ };

    /// Does what an entry asks for, and appends the answer. Where the entry's work lacks memory, that is
    /// noted.
    ///
    /// # Errors
    ///
    /// `AllocError` where there is no memory for the answer. What the output held still stands in
    /// front, and part of the answer may stand behind it. The entry's work may be done: where that
    /// must not be, answers have a size, and their room is taken first.
    fn put<A: Allocator + Copy>(
        &self,
        state: &mut S,
        memory: &mut Option<Memory>,
        topic: &[u8],
        entry: E,
        out: &mut Vec<u8, A>,
    ) -> Result<(), AllocError>
        ensures writes { OnOk result (Writes (answers self.now) bytes (state.old, memory.old) topic.now entry
            out.old.items out.new.items (state.new, memory.new)) }
        ensures begins { OnErr result (Begins out.old.items out.new.items) }
        ensures len { (n : ℕ) → size ≡ Some n → OnOk result (vec_len out.new ≡ vec_len out.old + n) }
        ensures succeeds { (n : ℕ) → size ≡ Some n
            → vec_len out.old + n ≤ vec_capacity out.old → IsOk result }
        ensures keeps_capacity { (n : ℕ) → size ≡ Some n → vec_capacity out.old ≤ vec_capacity out.new };
}
