//! Writes of a volume's blocks.
use mp_base::Block;

/// A block that was written at an address.
#[derive(Drop)]
pub struct Write {
    pub addr: u64,
    pub block: Block,
}
