//! The map of a volume: where the bytes of each block and each page of the map stand, which places of the tops
//! are free, and which are pinned; and the pages as bytes.
#![tactic(auto)]

mod bits;
mod dirty;
mod freed;
mod laws;
mod map;
mod next;
mod next_page;
mod number_set;
mod numbers;
mod page;
mod reader;

pub use dirty::pages_above;
pub use laws::{children_come_before_their_page, pages_above_are_exact, pages_are_spelled_once};
pub use map::BlockMap;
pub use page::{read_page, write_page};
pub use reader::MapReader;
