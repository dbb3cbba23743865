//! When which partition is cleaned, and with what bounds: a value without clock, socket or log.
//!
//! A [`Policy`] is told what each partition has ([`Policy::tell`]) and what became of its frames
//! ([`Policy::cleaned`], [`Policy::given_up`]). It gives the next frame, or none ([`Policy::next`]), and the time
//! before which it gives none ([`Policy::due_at`]). Marks that have to last over a restart are plain values
//! ([`Policy::marks`], [`Policy::put_back`]).
//!
//! Times are milliseconds, all of one clock.
#![tactic(auto)]

pub mod example;
pub mod laws;
mod marks;
mod partition;
mod policy;
mod samples;
#[cfg(test)]
mod tests;
mod times;
mod values;

pub use policy::Policy;
pub use values::{
    Extent, Frame, LEAST_DIRTY, MOST_SAMPLES, Mark, Marks, Pass, RETRY, Sample, Settings,
};
