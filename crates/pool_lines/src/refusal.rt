//! What a line may be refused for.

use crate::NamedLeaves;
use mp_base::{Group, Guid, Name, PlaceRule};

/// Why a line was refused; the number beside each is the one in its reply (docs/FORMATS.md, "Replies").
#[derive(Drop)]
pub enum Refusal {
    /// 2: no open pool has the name.
    NoPool,
    /// 3: the address isn't below the volume's number of blocks, or BLOCKS of `create` isn't 1 to this limit.
    BadAddress {
        limit: u64,
    },
    /// 4: a group with this write needs so many sectors, and so many are free.
    NoSpace {
        need: u64,
        free: u64,
    },
    /// 5: the open group and the frozen one have as many addresses as they may.
    GroupFull,
    /// 6: no leaf of the pool has the name.
    NoVdev,
    /// 7: nothing of this kind may be done at this place of a tree.
    WrongPlace {
        rule: PlaceRule,
    },
    /// 8: without the device this group could be read from no leaf of its top, and it is the least such group.
    Required {
        group: Group,
    },
    /// 9: the device serves elsewhere.
    DeviceInUse {
        by: Holder,
    },
    /// 10: the device needs so many sectors, and has fewer.
    TooSmall {
        need: u64,
        has: u64,
    },
    /// 15: no leaf of the top has the bytes of this key, each by what was seen of it.
    Exhausted {
        level: u32,
        index: u64,
        leaves: NamedLeaves,
    },
    /// 16: no leaf of this top could be written for the group, after so many failed calls.
    Suspended {
        group: Group,
        top: Guid,
        faults: u64,
    },
    /// 17: a call on this device failed while it was stamped or committed, or its identity was looked for.
    DeviceFault {
        device: Name,
    },
    /// 18: every ring of this device was read, and none says that it is the pool's member.
    WrongLabel {
        device: Name,
    },
    /// 19: there was no memory.
    Memory,
    /// 20: this group is frozen.
    GroupInFlight {
        group: Group,
    },
    /// 21: no device has a verified record of the name.
    NoRecord,
    /// 22: a limit would be passed; this count would have been reached.
    TreeFull {
        limit: u64,
        count: u64,
    },
    /// 25: a pool of the name is open.
    NameTaken,
    /// 26: the host has no device of this name, or it wasn't found when the run began.
    NoDevice {
        device: Name,
    },
    /// 40: this form of line, or this case of it, isn't built yet.
    NotBuilt,
}

/// What a device in use serves.
#[derive(Drop)]
pub enum Holder {
    /// It is one of the host's spare devices.
    SpareDevice,
    /// The pool of this name holds or keeps it.
    Pool(Name),
}
