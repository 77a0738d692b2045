//! What the layers above ask of a pool.
ghost use Rattle.std.specs.Prelude.{◌≡◌, is_some};

use crate::Pool;
use mp_base::{Guid, Name};

impl Pool {
    ghost use Rattle.std.specs.Option.{option_copied, option_map};
    ghost use Rattle.std.specs.Str.{bytes_eq};
    ghost use Rattle.pool_core.specs.State.{PoolState, leaves};
    ghost use Rattle.pool_core.specs.Keeping.{Represents};
    ghost use Rattle.pool_core.specs.Away.{leaf_named};
    ghost use Rattle.pool_core.specs.Naming.{leaf_of};

    /// Whether this is the pool's name.
    pub fn is_named(&self, name: &Name) -> bool
        ensures { (s : PoolState) → Represents self.now s → result ≡ bytes_eq s.name name.now }
    {
        &self.name == name
    }

    /// The name of the device of the leaf of this member number.
    pub fn leaf_name(&self, member: Guid) -> Option<&Name>
        ensures { (s : PoolState) → Represents self.now s → option_copied result ≡ option_map (λ leaf. leaf.name) (leaf_of (leaves s) member) }
    {
        if self.pair.first().guid.0 == member.0 {
            return Some(&self.pair.first().name);
        }
        if self.pair.second().guid.0 == member.0 {
            return Some(&self.pair.second().name);
        }
        None
    }

    /// Whether it has a leaf on the device of this name.
    pub fn has_leaf(&self, name: &Name) -> bool
        ensures { (s : PoolState) → Represents self.now s → result ≡ is_some (leaf_named name.now (leaves s)) }
    {
        self.pair.named(name).is_some()
    }
}
