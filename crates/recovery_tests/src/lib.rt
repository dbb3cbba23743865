//! Tests of starts, and of keepers behind them: over a directory in memory, without files or with those of the version before, each
//! call of the directory and of its files fails, then the process is killed or the machine crashes, and two starts follow; likewise
//! each allocation fails, during a first life and during a later start. And requests are put off while their partition is barred.
#![tactic(auto)]

#[cfg(test)]
mod tests;
