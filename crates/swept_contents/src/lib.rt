//! How far a copy of a partition was cleaned: what a part of a cleaning leaves swept behind it, what keeps that so, and
//! what a later part need not look at then.
//!
//! A copy is *swept* below an offset for a bound where no record of a batch that begins below that offset is superseded
//! by a record of a batch that lies wholly below the bound. It is *settled* below an offset where it is swept below it
//! for it. A pass of parts leaves it settled below its bound. Then the next pass has to look only at the batches behind,
//! which are *dirty*, to find what supersedes a record in front of them.
//!
//! The functions do nothing: each clause is a law.
#![tactic(auto)]

pub mod examples;
pub mod keeping;
pub mod looking;
pub mod staying;
pub mod sweeping;
