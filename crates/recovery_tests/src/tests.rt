//! The tests, and what they share, a file for each.

mod barred;
mod known_replies;
mod later_lives;
mod left_behind;
mod lives;
mod old_files;
mod recoveries;
mod recoveries_memory;
mod unsure_disks;
