//! Tests of journals, with each call of a disk failing in turn and all that a crash may leave then; of brokers whose frames go
//! to a journal that lacks room, or lack memory; and of snapshots that are written image by image while a broker changes. Of journals and
//! snapshots, also with an allocation failing in turn. What is read of a file,
//! and what is refused of it, is shown by `tests/cases/kept_damage.py`.
#![tactic(auto)]

#[cfg(test)]
mod tests;
