//! Laws of requests that are handled exactly: where it is told of each that memory sufficed, the replies and
//! the states are those that the requests make.
//!
//! Where an entry's work lacks memory, `Node::handle` answers the entry with the code of a storage error and
//! leaves its partition as it was. So what becomes of a request that may change something depends on more
//! than the state and the request, and a journal of requests alone could not be handled again to the same
//! state. `Node::handle_exactly` tells for how many entries memory lacked. Where it did for none, the reply and the
//! state after are those that the state and the request make; and handled exactly once more in that state, the
//! request leaves the same state, or it is told that memory lacked ([`handled_again_it_leaves_the_same`]). Where it
//! did for each, the broker is as it was. Else the request was done in part; a Produce or an OffsetCommit alone may
//! be ([`only_entries_are_done_in_part`]).
//!
//! A journal keeps the requests that `broker_node::may_change` names: the others leave the broker as it is, wherever
//! memory lacks ([`reading_changes_nothing`]). Nor has it to keep one that for want of memory did nothing.
//!
//! ```
//! let memory = node.handle_exactly(&request, &mut out)?;
//! if may_change(&request.body) && memory != Memory::Lacked {
//!     journal.keep(frame, memory)?;
//! }
//! ```
#![tactic(auto)]

mod laws;

pub use laws::{
    exact_replies_are_one, handled_again_it_leaves_the_same, only_entries_are_done_in_part,
    reading_changes_nothing, those_asked_for_the_same_begin_alike,
    those_that_hold_the_same_change_alike,
};
