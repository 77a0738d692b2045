//! Members of a pool.
use mp_base::Guid;

/// A member of a pool: the number of its device in the bank, and its own number in the pool.
#[derive(Clone, Copy, Debug, PartialEq, Eq)]
pub struct Member {
    pub dev: u32,
    pub guid: Guid,
}
