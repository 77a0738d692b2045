//! The devices of a bank in memory.
ghost use Rattle.std.specs.Prelude.{◌≡◌, ◌<◌, ◌≤◌};

use crate::call::Damage;
use mp_base::Name;

/// The most sectors of a device in memory.
pub const MOST_SECTORS: u64 = 1 << 20;

/// A device as it is before the first call: its bytes, zeros at each sector that they don't fill, and
/// the damage that lies on it.
#[derive(Drop)]
pub(crate) struct MemDevice {
    pub(crate) name: Name,
    pub(crate) sectors: u64,
    pub(crate) first: Vec<u8>,
    pub(crate) damage: Vec<Damage>,
    ghost some: { 0 < sectors },
    ghost most: { sectors ≤ 1048576 },
}
