//! The rules on dirty time logs: which groups a vdev lacks, which device is required, and how logs stay
//! small.
#![tactic(auto)]

mod logs;
mod rule;
mod widening;

pub use logs::{Extent, LogKind, logs_of};
pub use rule::{ROOT, required};
pub use widening::{RANGES, fit, fit_one};
