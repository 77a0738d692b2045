//! What counts as a configuration.
ghost use Rattle.std.specs.Prelude.{◌≡◌, ℕ, List, Option, IfOk};

use mp_base::{Group, Guid, MemFault, Name};
use std::alloc::Global;

/// What a configuration says of itself: its pool, the pool's name, and its number.
#[derive(Drop)]
pub struct Head {
    pub pool: Guid,
    pub name: Name,
    pub number: Group,
}

/// The rule which bytes are a configuration.
pub trait BlobRule {
    ghost use Rattle.label_store.specs.declared.rule.Head.{Head};

    /// The head of these bytes, where they are a configuration.
    ghost head_of: { List ℕ → Option Head };

    /// Reads the head. `None` comes exactly where the bytes are no configuration.
    fn reads(alloc: Global, bytes: &[u8]) -> Result<Option<Head>, MemFault>
        ensures { IfOk result (λ head. head ≡ head_of bytes.now) };
}
