//! What a leader's log and a copy answer to a batch.
use batch_codec::view;
use partition_log::{AppendError, Delivered, LeaderLog, PartitionLog};
use segment::BatchStore;

/// The base offset that the leader answers, and whether it had the batch.
pub(crate) type Answer = Result<(i64, bool), AppendError>;

/// What the leader answers to these bytes; `None` where they are no batch.
pub(crate) fn answer<S: BatchStore>(log: &mut LeaderLog<S>, bytes: &[u8]) -> Option<Answer> {
    match view(bytes) {
        Ok(batch) => Some(match log.append(&batch) {
            Ok(appended) => Ok((appended.base, appended.repeat)),
            Err(why) => Err(why),
        }),
        Err(_) => None,
    }
}

/// Whether a batch is delivered to a copy as a new one.
pub(crate) fn is_added<S: BatchStore>(copy: &mut PartitionLog<S>, bytes: &[u8]) -> bool {
    match view(bytes) {
        Ok(batch) => copy.deliver(&batch) == Ok(Delivered::Added),
        Err(_) => false,
    }
}
