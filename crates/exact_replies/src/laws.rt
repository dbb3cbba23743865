//! Laws about the definitions alone. The functions do nothing: what they ensure is the law.

ghost use Rattle.std.specs.Prelude.{◌≡◌, ◌⊎◌, ℕ, false, true, List, Option};
ghost use Rattle.request_frames.specs.Requests.{RequestValue};
ghost use Rattle.request_frames.specs.Requests.BodyValue.{produce, offset_commit};
ghost use Rattle.request_frames.specs.Produce.{ProduceValue};
ghost use Rattle.request_frames.specs.OffsetCommit.{OffsetCommitValue};
ghost use Rattle.broker_state.specs.State.{ConfigValue, State, new_state};
ghost use Rattle.answering.specs.declared.memory.Memory.TheVariants.{Sufficed};
ghost use Rattle.broker_node.specs.Effects.{may_change};
ghost use Rattle.broker_node.specs.Replies.{IsReply, MayReply};
ghost use Rattle.broker_node.specs.Exactly.{HandlesExactly, LacksMemoryInPart};
ghost use Rattle.exact_replies.specs.SameHeld.{AskForTheSame, HoldTheSame};

/// In one state a request has one exact reply, and one state comes of it.
pub fn exact_replies_are_one()
    ensures one_reply { (s after after' : State) (q : RequestValue) (out out' : Option (List ℕ))
        → IsReply s q out after → IsReply s q out' after' → (out ≡ out') × (after ≡ after') }
{}

/// In one state, where memory suffices, a request leaves the same state each time it is handled.
pub fn handled_again_it_leaves_the_same()
    ensures same_state { (s after after' : State) (q : RequestValue) (held held' more more' : List ℕ)
        → HandlesExactly s q held held' Sufficed after
        → HandlesExactly s q more more' Sufficed after' → after ≡ after' }
{}

/// A request that may not change anything leaves the broker as it is, wherever memory lacks.
pub fn reading_changes_nothing()
    ensures unchanged { (s after : State) (q : RequestValue) (out : Option (List ℕ))
        → may_change q.body ≡ false → MayReply s q out after → after ≡ s }
{}

/// For want of memory a Produce or an OffsetCommit may be done in part, and no other request: a cleaning, say, is done, or
/// nothing is.
pub fn only_entries_are_done_in_part()
    ensures is_of_entries { (s after : State) (q : RequestValue) (out : Option (List ℕ))
        → may_change q.body ≡ true → LacksMemoryInPart s q out after
        → ((v : ProduceValue) × (q.body ≡ produce v))
        ⊎ ((v : OffsetCommitValue) × (q.body ≡ offset_commit v)) }
{}

/// Two brokers that hold the same, wherever clients reach them and in whatever order they have their topics, answer a
/// request that may change something with the same bytes, and hold the same after it.
pub fn those_that_hold_the_same_change_alike()
    ensures alike { (s t after : State) (q : RequestValue) (out : Option (List ℕ))
        → HoldTheSame s t → may_change q.body ≡ true → IsReply s q out after
        → (other : State) × IsReply t q out other × HoldTheSame after other }
{}

/// New brokers hold the same, where their configurations differ in the broker's number, in where clients reach it and in
/// the order of the topics alone.
pub fn those_asked_for_the_same_begin_alike()
    ensures alike { (g h : ConfigValue) → AskForTheSame g h
        → HoldTheSame (new_state g) (new_state h) }
{}
