//! Tests of frames, and of a broker's requests: what is cut from a stream; the writers of responses, on bytes worked out from
//! Kafka's protocol guide, with a caller that is proved to write a whole response; why a new broker is refused; and
//! requests, also of several partitions, with each allocation failing in turn, and what is told of memory then. `tests/rows`
//! has whole requests and responses, the hosts and the names of topics that are refused, and refused frames.
#![tactic(auto)]

#[cfg(test)]
mod tests;
