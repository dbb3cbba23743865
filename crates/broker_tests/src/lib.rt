//! Tests of sources and sinks over readers and writers that give and take little, and that fail, with a caller of both;
//! of sessions, scripts, tables and merges over them, and of the sessions of many clients: cut, in pieces, failing, and with
//! each allocation refused in turn. Of scripts also that both ways of keeping batches give the same. `tests/rows` has refused
//! frames, and clients that wait for each reply.
#![tactic(auto)]

#[cfg(test)]
mod tests;
