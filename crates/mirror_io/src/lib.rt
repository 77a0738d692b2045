//! The copies of a block: reads that find a good one and rewrite those that are wrong, and writes to all of them
//! (docs/MODEL.md, "Reads of a mirror").
#![tactic(auto)]

mod copies;
mod heal;
mod judge;
mod laws;
mod read;
mod write;

pub use copies::{CopyOf, CopySeen, Exhausted};
pub use judge::Judge;
pub use laws::reads_give_the_block;
pub use read::{read_block, read_good};
pub use write::write_block;
