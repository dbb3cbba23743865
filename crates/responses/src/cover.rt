//! The response to Cover, version 0: `cover_head`, and the runs, each `cover_run_bytes`.

mod law;
mod response;
mod run;

pub use law::cover_parts;
pub use response::{COVER_HEAD_BYTES, cover_head};
pub use run::{COVER_RUN_BYTES, cover_run_bytes};
