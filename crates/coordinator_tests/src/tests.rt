//! The tests, and what they share, a file for each.

mod acts;
mod asked;
mod codes;
mod course;
mod generated;
mod memory;
mod model;
mod moves;
mod pair;
mod plain_group;
mod replies;
