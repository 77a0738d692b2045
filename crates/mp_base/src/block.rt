//! Blocks: what a volume keeps at each address.
ghost use Rattle.std.specs.Prelude.{◌≡◌, ◌≤◌, length, IfOk};
ghost use Rattle.mp_base.specs.Block.{padded, zero_block};

use crate::MemFault;
use std::alloc::Global;
use std::marker::Model;

/// The bytes of a block, which is as large as a sector of a device.
pub const BLOCK_BYTES: usize = 4096;

/// A block: 4,096 bytes.
#[derive(Drop)]
pub struct Block {
    bytes: Vec<u8>,
}

impl Model for Block {
    ghost use Rattle.std.specs.Prelude.{◌≡◌, ℕ, List, length};

    ghost Value = { List ℕ };

    ghost view = { λ block. block.bytes.items };

    ghost invariant = { λ block. length block.bytes.items ≡ 4096 };
}

impl Block {
    /// The block of these bytes.
    pub fn new(bytes: Vec<u8>) -> Block
        requires { length bytes.items ≡ 4096 }
        ensures { result ≡ bytes.items }
    {
        Block { bytes }
    }

    /// A copy of a block's bytes.
    pub fn from_slice(alloc: Global, bytes: &[u8]) -> Result<Block, MemFault>
        requires { length bytes.now ≡ 4096 }
        ensures { IfOk result (λ block. block ≡ bytes.now) }
    {
        Ok(Block {
            bytes: Vec::from_slice(alloc, bytes)?,
        })
    }

    /// The block that begins with these bytes and goes on with zeros.
    pub fn padded(alloc: Global, bytes: &[u8]) -> Result<Block, MemFault>
        requires { length bytes.now ≤ 4096 }
        ensures { IfOk result (λ block. block ≡ padded bytes.now) }
    {
        let mut all = Vec::from_slice(alloc, bytes)?;
        all.resize(BLOCK_BYTES, 0)?;
        Ok(Block { bytes: all })
    }

    /// The block of a hole.
    #[tactic(auto, unfolding(crate::specs::Block::zero_block, crate::specs::Block::zeros, crate::specs::Block::block_bytes))]
    pub fn zeros(alloc: Global) -> Result<Block, MemFault>
        ensures { IfOk result (λ block. block ≡ zero_block) }
    {
        Ok(Block {
            bytes: vec![in alloc; 0; BLOCK_BYTES]?,
        })
    }

    pub fn as_bytes(&self) -> &[u8]
        ensures bytes { result.now ≡ self.now }
        ensures length { length result.now ≡ 4096 }
    {
        &self.bytes
    }
}
