//! The names of the leaves that a block stands on.
ghost use Rattle.std.specs.Prelude.{◌≡◌, ◌<◌, ◌≤◌, length, map, take, IfOk, IfSome, None};
ghost use Rattle.block_map.specs.Places.{IsPlace};
ghost use Rattle.block_map.specs.Map.{pointer_at};
ghost use Rattle.vdev_tree.specs.Tree.{leaves};
ghost use Rattle.txg_history.specs.Records.{key};
ghost use Rattle.pool_moves.specs.States.{PoolState};

use crate::Pool;
use mp_base::{Key, MemFault, Name, Pointer};
use std::alloc::Global;
use txg_engine::MOST_LEAVES;
use vdev_tree::Top;

impl Pool {
    ghost use Rattle.block_map.specs.Pointers.{written};
    ghost use Rattle.open_pool.specs.BlockNames.{names_of_block};
    ghost use Rattle.open_pool.specs.State.{Stands};

    /// The names of the leaves under the top of the committed block of this address, in tree order. Where no block is
    /// committed there, there are none.
    pub fn names_of_block(&self, addr: u64) -> Result<Vec<Name>, MemFault>
        ensures { (s : PoolState) → Stands self.now s → IfOk result (λ names. names.items ≡ names_of_block addr s) }
    {
        self.keeps_its_form();
        match self.committed(addr) {
            Some(pointer) => names_in(self.alloc, &self.tops[pointer.place.top as usize]),
            None => Ok(Vec::new(self.alloc)),
        }
    }

    // The pointer of the committed block of an address.
    fn committed(&self, addr: u64) -> Option<Pointer>
        ensures pointer { result ≡ written (pointer_at self.now.map (key 0 addr)) }
        ensures place { IfSome result (λ pointer. IsPlace self.now.map.sectors pointer.place) }
    {
        if addr >= self.map.blocks() {
            return None;
        }
        self.map.get(Key {
            level: 0,
            index: addr,
        })
    }
}

// The names of a top's leaves, in tree order.
fn names_in(alloc: Global, top: &Top) -> Result<Vec<Name>, MemFault>
    requires { length (leaves top.now.mirror) ≤ 32 }
    ensures { IfOk result (λ names. names.items ≡ map (λ leaf. leaf.name) (leaves top.now.mirror)) }
{
    let mut names = Vec::new(alloc);
    for place in 0..MOST_LEAVES {
        let Some(leaf) = top.leaf_at(place) else {
            return Ok(names);
        };
        names.push(leaf.name.copy(alloc)?)?;
    }
    Ok(names)
}
