//! The keys of a frozen group.
use mp_base::{Block, Key, Pointer};

/// The pointers of a page.
pub(crate) const FANOUT: u64 = 64;

/// A key of a frozen group: its bytes, and the pointer that it has once the group is acknowledged.
#[derive(Drop)]
pub struct Item {
    pub key: Key,
    pub pointer: Pointer,
    pub block: Block,
}

impl Item {
    ghost use Rattle.std.specs.Prelude.{◌≡◌, ◌≤◌};
    ghost use Rattle.txg_engine.specs.Items.{is_child, is_up_to_page};

    /// Whether its pointer stands in this page.
    pub(crate) fn is_child_of(&self, page: Key) -> bool
        requires { 1 ≤ page.level }
        ensures { result ≡ is_child page self.now.key }
    {
        self.key.level == page.level - 1 && self.key.index / FANOUT == page.index
    }

    /// Whether it doesn't come behind the keys whose pointers stand in this page.
    pub(crate) fn is_up_to(&self, page: Key) -> bool
        requires { 1 ≤ page.level }
        ensures { result ≡ is_up_to_page page self.now.key }
    {
        let level = page.level - 1;
        self.key.level < level || self.key.level == level && self.key.index / FANOUT <= page.index
    }
}
