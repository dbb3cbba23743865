//! Laws about the definitions alone. The functions do nothing: what they ensure is the law.

ghost use Rattle.std.specs.Prelude.{◌≡◌, ◌≤ℤ◌, ℕ, ℤ, true, List, ◌++◌, Option};
ghost use Rattle.content.specs.Logs.{IsPlainLog};
ghost use Rattle.content.specs.Parts.{AreEnds};
ghost use Rattle.request_frames.specs.Clean.{CleanValue};
ghost use Rattle.request_frames.specs.Requests.BodyValue.{clean};
ghost use Rattle.request_frames.specs.Requests.{RequestValue};
ghost use Rattle.broker_state.specs.declared.config.Role.TheVariants.{Follower};
ghost use Rattle.broker_state.specs.State.{ConfigValue, State, new_state, content_at};
ghost use Rattle.broker_state.specs.Sound.{IsSound};
ghost use Rattle.answering.specs.Lists.{map_accum};
ghost use Rattle.answering.specs.Responding.{sent};
ghost use Rattle.broker_node.specs.declared.handling.Answer.{Answer};
ghost use Rattle.broker_node.specs.Replies.{reply, Replies};
ghost use Rattle.broker_node.specs.Handling.{answer_of, Handles};
ghost use Rattle.broker_node.specs.Streams.{AreAnswered};
ghost use Rattle.cleaning_laws.specs.Logs.{Logs, no_logs, IsLegalFromSome, IsStateOf};
ghost use Rattle.cleaning_laws.specs.Alike.{seen_topics, AreAlike};
ghost use Rattle.cleaning_laws.specs.Settled.{IsWithin, MayTrim, AnswerAlike};
ghost use Rattle.cleaning_laws.specs.Cleans.{is_clean, is_no_clean, without_cleans, AreWithin, MayTrimAll, state_after, AnswerAllAlike};
ghost use Rattle.cleaning_laws.specs.Parts.{asked_in_parts};
ghost use Rattle.cleaning_laws.specs.WithMemory.{AnsweredWithMemory};
ghost use Rattle.cleaning_laws.specs.AnsweredFrames.{AnsweredFrame, frames_of, requests_of, responses_of, sent_for, AreAnsweredWithMemory, AreFramesWithin, AreAnsweredAlike};

/// A new broker holds copies of empty logs. A new follower holds copies of any logs that a leader may
/// have written, since it has seen nothing of them.
pub fn a_new_broker_holds_copies_of_the_logs()
    ensures of_empty_logs { (g : ConfigValue) → AreAlike no_logs (new_state g) (new_state g) }
    ensures follower_of_any_logs { (g : ConfigValue) (logs : Logs) → g.role ≡ Follower
        → ((name : List ℕ) (p : ℤ) → IsPlainLog (logs name p) × IsLegalFromSome (logs name p))
        → AreAlike logs (new_state g) (new_state g) }
{}

/// A Clean of either version, of any topic, partition and bounds, leaves the logs, of each partition the
/// start and the offsets that were seen, the configuration, and the next producer id.
pub fn cleaning_keeps_the_logs()
    ensures logs { (logs : Logs) (s : State) (q : RequestValue) → is_clean q.body ≡ true
        → IsStateOf logs s → IsStateOf logs (reply s q).1 }
    ensures seen { (s : State) (q : RequestValue) → is_clean q.body ≡ true
        → seen_topics (reply s q).1 ≡ seen_topics s }
    ensures config { (s : State) (q : RequestValue) → is_clean q.body ≡ true
        → (reply s q).1.config ≡ s.config }
    ensures next_producer { (s : State) (q : RequestValue) → is_clean q.body ≡ true
        → (reply s q).1.next_producer ≡ s.next_producer }
{}

/// Cleans of parts of a partition, one after another, leave what one Clean with their bounds leaves. The first part
/// begins at the start or below it, each other one where the one before ended, and the last ends at the bound or
/// further. No batch that is to be cleaned lies across an end.
pub fn parts_leave_what_one_clean_leaves()
    ensures { (s : State) (correlation : ℤ) (q : CleanValue) (from : ℤ) (ends : List ℤ) → IsSound s
        → from ≤ℤ (content_at s q.topic q.partition).start
        → AreEnds q.upto from ends (content_at s q.topic q.partition)
        → state_after s (asked_in_parts correlation q from ends)
        ≡ (reply s (record { correlation = correlation; body = clean q })).1 }
{}

/// Two brokers that differ only in what they keep of the same logs answer each request within the logs,
/// but for a Clean of either version, alike, where a Trim is to an offset at which both may start: the states
/// after are again two such, of logs that may have grown, and the replies are the same, but for those that are
/// read of which records are kept. On followers the logs stay as they are. No request changes the configuration.
pub fn brokers_of_the_same_logs_answer_alike()
    ensures alike { (logs : Logs) (s z : State) (q : RequestValue) → AreAlike logs s z
        → IsWithin s logs q.body → MayTrim s q.body → MayTrim z q.body
        → is_no_clean q ≡ true → AnswerAlike logs s z q }
    ensures followers_keep_the_logs { (logs : Logs) (s z : State) (q : RequestValue)
        → AreAlike logs s z → s.config.role ≡ Follower
        → IsWithin s logs q.body → MayTrim s q.body → MayTrim z q.body
        → is_no_clean q ≡ true → AreAlike logs (reply s q).1 (reply z q).1 }
    ensures config { (s : State) (q : RequestValue) → (reply s q).1.config ≡ s.config }
{}

/// Two brokers that are alike, as two new ones are, get two lists of requests within the logs, which are
/// the same once their Cleans are left out, those of all and those of parts, and of which each Trim is to an
/// offset at which its copy may start then. Then each other request gets the same reply from both, but for
/// those that are read of which records are kept, and the brokers after are again alike; followers stay alike
/// of the same logs. So cleaning changes no such reply, whenever and with whatever bounds it is done.
pub fn cleaning_changes_no_reply()
    ensures alike { (logs : Logs) (s z : State) (qs ps : List RequestValue) → AreAlike logs s z
        → AreWithin s logs qs → MayTrimAll s qs → MayTrimAll z ps
        → without_cleans qs ≡ without_cleans ps → AnswerAllAlike logs s z qs ps }
    ensures followers_keep_the_logs { (logs : Logs) (s z : State) (qs ps : List RequestValue)
        → AreAlike logs s z → s.config.role ≡ Follower
        → AreWithin s logs qs → MayTrimAll s qs → MayTrimAll z ps
        → without_cleans qs ≡ without_cleans ps
        → AreAlike logs (state_after s qs) (state_after z ps) }
    ensures from_the_start { (g : ConfigValue) (qs ps : List RequestValue)
        → AreWithin (new_state g) no_logs qs
        → MayTrimAll (new_state g) qs → MayTrimAll (new_state g) ps
        → without_cleans qs ≡ without_cleans ps
        → AnswerAllAlike no_logs (new_state g) (new_state g) qs ps }
    ensures follower_from_the_start { (g : ConfigValue) (logs : Logs) (qs ps : List RequestValue)
        → g.role ≡ Follower
        → ((name : List ℕ) (p : ℤ) → IsPlainLog (logs name p) × IsLegalFromSome (logs name p))
        → AreWithin (new_state g) logs qs
        → MayTrimAll (new_state g) qs → MayTrimAll (new_state g) ps
        → without_cleans qs ≡ without_cleans ps
        → AnswerAllAlike logs (new_state g) (new_state g) qs ps }
{}

/// The same over frames that came in and what went out for them, where no entry's result is a lack of
/// memory.
pub fn cleaning_changes_no_answer()
    ensures alike { (logs : Logs) (s z after after' : State) (answered others : List AnsweredFrame)
        → AreAlike logs s z → AreFramesWithin s logs answered
        → AreAnsweredWithMemory s answered after → AreAnsweredWithMemory z others after'
        → MayTrimAll s (requests_of answered) → MayTrimAll z (requests_of others)
        → without_cleans (requests_of answered) ≡ without_cleans (requests_of others)
        → AreAnsweredAlike logs after after' answered others }
    ensures followers_keep_the_logs { (logs : Logs) (s z after after' : State)
        (answered others : List AnsweredFrame)
        → AreAlike logs s z → s.config.role ≡ Follower → AreFramesWithin s logs answered
        → AreAnsweredWithMemory s answered after → AreAnsweredWithMemory z others after'
        → MayTrimAll s (requests_of answered) → MayTrimAll z (requests_of others)
        → without_cleans (requests_of answered) ≡ without_cleans (requests_of others)
        → AreAlike logs after after' }
{}

/// Where no entry's result is a lack of memory, what may be replied is the reply itself: to one request,
/// as it is handled, and to frames one after the other.
pub fn an_answer_with_memory_is_the_reply()
    ensures reply { (s after : State) (q : RequestValue) (out : Option (List ℕ))
        → Replies AnsweredWithMemory s q out after → (out, after) ≡ reply s q }
    ensures handled { (s after : State) (q : RequestValue) (held held' : List ℕ) (answer : Answer)
        (handles : Handles s q held held' answer after)
        → Replies AnsweredWithMemory s q handles.response after
        → (held' ≡ held ++ sent (reply s q).0) × (answer ≡ answer_of (reply s q).0)
        × (after ≡ (reply s q).1) }
    ensures frames { (s after : State) (answered : List AnsweredFrame)
        → AreAnsweredWithMemory s answered after
        → (responses_of answered, after) ≡ map_accum reply s (requests_of answered) }
    ensures answers { (s after : State) (answered : List AnsweredFrame)
        → AreAnsweredWithMemory s answered after → AreAnswered s (frames_of answered) (sent_for answered) after }
{}
